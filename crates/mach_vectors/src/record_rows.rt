//! What a finished buffer has of its records: relocations, traps, steps in the making of the frame, and what it has of calls. The
//! offsets of the expected output are counted by hand from the bytes of the items.

use crate::buffer::Item::{Bind, Fill, Record, Use};
use crate::buffer::Note::{Calls, Makes, Maps, Patches, Refers, RefersTo, Throws, Trap};
use crate::buffer::Step::{Alloc, Frame, Push, Save};
use crate::buffer::{Item, code_of_items};
use crate::error::ToyError;
use mach_buffer::{Finished, MachStackMap, MachTryCallSite};
use rv_base::{ExternalName, MachLabel, Reloc, RelocTarget, TryCallHandler};
use std::alloc::{AllocError, Global};

const SEVEN: ExternalName = ExternalName { number: 7 };

const FIRST: MachLabel = MachLabel { number: 0 };

const SECOND: MachLabel = MachLabel { number: 1 };

const THIRD: MachLabel = MachLabel { number: 2 };

const ROWS: [&[Item]; 5] = [
    // A symbol with a negative addend, and the place of the first by its offset.
    &[
        Fill(4),
        Record(Refers(Reloc::RiscvPCRelHi20, RelocTarget::Name(SEVEN), -8)),
        Fill(4),
        Record(RefersTo(Reloc::RiscvPCRelLo12I, 4, 0)),
        Fill(4),
    ],
    // Each step of a frame, at 0, 4, 4 and 6; a trap stands among them.
    &[
        Record(Makes(Push(16))),
        Fill(4),
        Record(Makes(Frame(16, 32))),
        Record(Trap),
        Record(Makes(Alloc(4294967295))),
        Fill(2),
        Record(Makes(Save(24))),
    ],
    // A label at 6 is bound when a relocation refers to it; the island from 18 to 32 comes before the last two records.
    &[
        Fill(6),
        Bind(0),
        Record(Refers(Reloc::Abs8, RelocTarget::Label(FIRST), i64::MIN)),
        Fill(8),
        Record(Makes(Push(16))),
        Fill(2),
        Use(1),
        Fill(216),
        Record(Refers(Reloc::RiscvCallPlt, RelocTarget::Name(SEVEN), 1)),
        Record(Makes(Frame(16, 32))),
        Fill(8),
    ],
    // Calls at 4, 6 and 12; the first handler is at 6, as the call itself, and the second at 12.
    &[
        Fill(4),
        Record(Calls),
        Fill(2),
        Record(Throws(
            Some(32),
            &[
                TryCallHandler::Tag(5, FIRST),
                TryCallHandler::Default(SECOND),
            ],
        )),
        Record(Maps(48, &[8, 4294967295])),
        Bind(0),
        Fill(6),
        Bind(1),
        Record(Patches(12)),
        Record(Calls),
    ],
    // The island from 18 to 32 comes before all records, and the handler's label is bound at the end, at 250.
    &[
        Fill(16),
        Use(1),
        Fill(216),
        Record(Throws(None, &[TryCallHandler::Default(THIRD)])),
        Record(Calls),
        Record(Patches(8)),
        Record(Maps(0, &[])),
        Record(Patches(4)),
        Fill(2),
    ],
];

fn write_thrower(text: &mut String, site: &MachTryCallSite) -> Result<(), AllocError> {
    writeln!(
        text,
        "thrower at {}, frame {:?}",
        site.offset, site.frame_offset
    )?;
    for handler in site.handlers.as_slice() {
        writeln!(text, "handler {handler:?}")?;
    }
    Ok(())
}

fn write_map(text: &mut String, found: &MachStackMap) -> Result<(), AllocError> {
    writeln!(text, "map at {} of {} bytes", found.offset, found.span)?;
    for (ty, offset) in found.map.entries.as_slice() {
        writeln!(text, "value of {ty} at {offset}")?;
    }
    Ok(())
}

/// Writes what code has of calls.
fn write_calls(text: &mut String, code: &Finished) -> Result<(), AllocError> {
    writeln!(text, "calls {:?}", code.call_sites.as_slice())?;
    for site in code.try_call_sites.as_slice() {
        write_thrower(text, site)?;
    }
    for patchable in code.patchable_call_sites.as_slice() {
        writeln!(text, "{patchable:?}")?;
    }
    for found in code.stack_maps.as_slice() {
        write_map(text, found)?;
    }
    Ok(())
}

fn write_records(text: &mut String, code: &Finished) -> Result<(), AllocError> {
    for reloc in code.relocs.as_slice() {
        writeln!(text, "{reloc:?}")?;
    }
    for trap in code.traps.as_slice() {
        writeln!(text, "trap {} at {}", trap.code, trap.offset)?;
    }
    for unwind in code.unwinds.as_slice() {
        writeln!(text, "{unwind:?}")?;
    }
    write_calls(text, code)
}

fn write_row(alloc: Global, text: &mut String, items: &[Item]) -> Result<(), ToyError> {
    let code = code_of_items(alloc, &[], items)?;
    Ok(write_records(text, &code)?)
}

pub(crate) fn write(alloc: Global, text: &mut String) -> Result<(), ToyError> {
    for items in ROWS {
        write_row(alloc, text, items)?;
    }
    Ok(())
}
