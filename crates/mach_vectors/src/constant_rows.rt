//! Where the constants stand that code in a buffer names.

use crate::buffer::Item::{Fill, Name, Use};
use crate::buffer::{CODE_LIMIT, Item, code_of_items, emit_due_island, empty, put_item};
use crate::error::ToyError;
use crate::toy::Toy;
use hex::encode;
use mach_buffer::{ConstPlace, Finished};
use rv_base::{ConstAlign, Constant, List, OutOfMemory};
use std::alloc::{AllocError, Global};

/// A constant's alignment and bytes.
struct Datum {
    align: ConstAlign,
    bytes: &'static [u8],
}

const DATA: [Datum; 7] = [
    Datum {
        align: ConstAlign::A1,
        bytes: b"\xc0",
    },
    Datum {
        align: ConstAlign::A16,
        bytes: b"\xc1\xc1\xc1\xc1\xc1",
    },
    Datum {
        align: ConstAlign::A2,
        bytes: b"\xc2\xc2\xc2",
    },
    Datum {
        align: ConstAlign::A8,
        bytes: b"\xc3\xc3\xc3\xc3\xc3\xc3\xc3",
    },
    Datum {
        align: ConstAlign::A4,
        bytes: b"\xc4\xc4\xc4\xc4",
    },
    Datum {
        align: ConstAlign::A1,
        bytes: &[0xc5; 251],
    },
    Datum {
        align: ConstAlign::A2,
        bytes: b"\xc6\xc6\xc6\xc6\xc6\xc6\xc6\xc6\xc6",
    },
];

fn constant_of(alloc: Global, datum: &Datum) -> Result<Constant, OutOfMemory> {
    Ok(Constant {
        bytes: List::from_slice(alloc, datum.bytes)?,
        align: datum.align,
    })
}

fn constants_of(alloc: Global, data: &[Datum]) -> Result<Vec<Constant>, OutOfMemory> {
    let mut constants = Vec::new(alloc);
    for datum in data {
        let constant = constant_of(alloc, datum)?;
        constants.push(constant)?;
    }
    Ok(constants)
}

/// Items with the place and the count of some bytes of their code.
struct Pool {
    items: &'static [Item],
    at: usize,
    count: usize,
}

const POOLS: [Pool; 8] = [
    // Nothing is named.
    Pool {
        items: &[Fill(2)],
        at: 0,
        count: 2,
    },
    // A use at 0 goes by a veneer at 4 to a constant at 12.
    Pool {
        items: &[Name(4)],
        at: 0,
        count: 16,
    },
    // Six uses go by veneers from 12 on; the first and the fourth to one constant.
    Pool {
        items: &[Name(3), Name(0), Name(4), Name(3), Name(1), Name(2)],
        at: 0,
        count: 89,
    },
    // A jump at 2 over an island, which has a veneer at 8 and a constant at 16, and ends at 24.
    Pool {
        items: &[Name(1), Fill(216), Name(2), Name(1)],
        at: 0,
        count: 25,
    },
    // After it a use at 240 goes by a veneer at 244 to a constant at 252, and one at 242 goes 226 bytes back.
    Pool {
        items: &[Name(1), Fill(216), Name(2), Name(1)],
        at: 239,
        count: 16,
    },
    // With a constant of 251 bytes at 16 the island would end at 268, and a jump at 2 reaches 256: so it goes by a veneer of its
    // own at 8 to the end at 276.
    Pool {
        items: &[Name(5), Fill(216)],
        at: 0,
        count: 25,
    },
    Pool {
        items: &[Name(5), Fill(216)],
        at: 272,
        count: 5,
    },
    // A label's veneer at 8, and then a constant's at 16 to 24, and an island's end at 28.
    Pool {
        items: &[Use(0), Name(2), Fill(208), Name(2)],
        at: 0,
        count: 29,
    },
];

/// Writes so many bytes of a code, from `at` on.
pub(crate) fn write_bytes(
    alloc: Global,
    text: &mut String,
    code: &[u8],
    at: usize,
    count: usize,
) -> Result<(), ToyError> {
    let rest = code.get(at..).unwrap_or(&[]);
    let bytes = rest.get(..count).unwrap_or(rest);
    let digits = encode(alloc, bytes)?;
    Ok(writeln!(text, "from {at}: {digits}")?)
}

fn write_places(text: &mut String, places: &[ConstPlace]) -> Result<(), AllocError> {
    for place in places {
        writeln!(
            text,
            "constant {} at {}",
            place.constant.number, place.offset
        )?;
    }
    Ok(())
}

/// Writes how long code is, its constants, and the bytes that a row asks for.
fn write_code(
    alloc: Global,
    text: &mut String,
    code: &Finished,
    row: &Pool,
) -> Result<(), ToyError> {
    writeln!(text, "{} bytes", code.bytes.len())?;
    write_places(text, code.constants.as_slice())?;
    write_bytes(alloc, text, code.bytes.as_slice(), row.at, row.count)
}

fn write_pool(
    alloc: Global,
    text: &mut String,
    constants: &[Constant],
    row: &Pool,
) -> Result<(), ToyError> {
    let code = code_of_items(alloc, constants, row.items)?;
    write_code(alloc, text, &code, row)
}

const TWO: [Datum; 2] = [
    Datum {
        align: ConstAlign::A1,
        bytes: b"\xc0\xc0\xc0",
    },
    Datum {
        align: ConstAlign::A1,
        bytes: b"\xc1\xc1\xc1\xc1\xc1",
    },
];

/// Returns whether there is room for one byte too many and for as many as may be, with constants of 3 and 5 bytes; and the same
/// once the second stands.
fn room_for_constants(alloc: Global) -> Result<[bool; 4], ToyError> {
    let constants = constants_of(alloc, &TWO)?;
    if constants.len() > 2 {
        return Err(ToyError::Refused("more than two constants"));
    }
    let mut islands = Vec::new(alloc);
    let mut buffer = empty::<Toy>(alloc, &constants)?;
    let too_many = buffer.has_room(CODE_LIMIT - 72);
    let most = buffer.has_room(CODE_LIMIT - 73);
    put_item(
        alloc,
        &mut buffer,
        Toy::Short,
        &constants,
        Name(1),
        &mut islands,
    )?;
    // The constant stands from 16 to 21, and the island ends at 24.
    emit_due_island(&mut buffer, Toy::Short, 250, &mut islands)?;
    let more = buffer.has_room(CODE_LIMIT - 75);
    Ok([too_many, most, more, buffer.has_room(CODE_LIMIT - 76)])
}

fn write_pools(alloc: Global, text: &mut String, constants: &[Constant]) -> Result<(), ToyError> {
    for row in &POOLS {
        write_pool(alloc, text, constants, row)?;
    }
    Ok(())
}

pub(crate) fn write(alloc: Global, text: &mut String) -> Result<(), ToyError> {
    let constants = constants_of(alloc, &DATA)?;
    write_pools(alloc, text, &constants)?;
    let room = room_for_constants(alloc)?;
    writeln!(
        text,
        "room with constants for a byte too many and for the most, and once one stands: {room:?}"
    )?;
    Ok(())
}
