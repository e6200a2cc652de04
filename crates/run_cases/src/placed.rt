//! Code that is placed, and where none can stand, by the psABI.

use crate::bench::code_of;
use crate::error::RunError;
use hex::encode;
use rv_base::ExternalName;
use rv_inst::Code;
use rv_place::{Image, PlaceError, place};
use std::alloc::Global;

/// A symbol and its address.
type Address = (ExternalName, u64);

/// The image of code, of which nothing is promised, so that what writes it need not carry what `place` promises.
fn image_of(
    alloc: Global,
    code: &Code,
    base: u64,
    symbols: &[Address],
    slots: &[Address],
) -> Result<Image, PlaceError> {
    place(alloc, code, base, symbols, slots)
}

fn write_image(
    alloc: Global,
    text: &mut String,
    what: &str,
    image: &Image,
) -> Result<(), RunError> {
    let digits = encode(alloc, image.bytes.as_slice())?;
    Ok(writeln!(text, "{what} at {:x}: {digits}", image.base)?)
}

/// Writes the bytes of code at an address, or why it can't stand there.
fn write_placed(
    alloc: Global,
    text: &mut String,
    what: &str,
    code: &Code,
    base: u64,
    symbols: &[Address],
    slots: &[Address],
) -> Result<(), RunError> {
    match image_of(alloc, code, base, symbols, slots) {
        Ok(image) => write_image(alloc, text, what, &image),
        Err(error) => Ok(writeln!(text, "{what} at {base:x}: {error:?}")?),
    }
}

/// Where a call stands, and where its symbol is.
const CALLS: [(u64, u64); 8] = [
    (0x10000, 0x8000f7ff),
    (0x10000, 0x8000f800),
    (0x80010000, 0xf800),
    (0x80010000, 0xf7ff),
    (2, 0x12345),
    (0xfffffffffffffff8, 0),
    (0xfffffffffffffffc, 0),
    (0, 0xffffffffffffffff),
];

fn write_calls(alloc: Global, text: &mut String, code: &Code) -> Result<(), RunError> {
    let name = ExternalName::from_u32(0);
    for (base, symbol) in CALLS {
        writeln!(text, "a symbol at {symbol:x}")?;
        write_placed(alloc, text, "its call", code, base, &[(name, symbol)], &[])?;
    }
    let slots = [(name, 0x12345)];
    write_placed(alloc, text, "a call of a slot", code, 0x10000, &[], &slots)?;
    let twice = [(name, 0x12345), (name, 0)];
    write_placed(
        alloc,
        text,
        "a call of what stands first",
        code,
        0x10000,
        &twice,
        &[],
    )
}

fn calls(alloc: Global, text: &mut String) -> Result<(), RunError> {
    let (_, code) = code_of(alloc, "Call userextname0 - - - 0 0 - -\n")?;
    write_calls(alloc, text, &code)
}

fn write_loads(alloc: Global, text: &mut String, code: &Code) -> Result<(), RunError> {
    let symbols = [(ExternalName::from_u32(1), 0x10809)];
    let slots = [(ExternalName::from_u32(0), 0xf7f8)];
    write_placed(
        alloc,
        text,
        "loads of addresses",
        code,
        0x10000,
        &symbols,
        &slots,
    )?;
    write_placed(
        alloc,
        text,
        "loads of others",
        code,
        0x10000,
        &slots,
        &symbols,
    )
}

pub(crate) fn write(alloc: Global, text: &mut String) -> Result<(), RunError> {
    calls(alloc, text)?;
    let listing = "LoadExtNameGot a0 userextname0\nLoadExtNameNear a1 userextname1 -1\n";
    let (_, code) = code_of(alloc, listing)?;
    write_loads(alloc, text, &code)
}
