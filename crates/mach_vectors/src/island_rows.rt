//! Where islands stand in a buffer, and where windows aim, by the rule.

use crate::buffer::Item::{Bind, Fill, Use};
use crate::buffer::{Item, assemble, code_of_items};
use crate::constant_rows::write_bytes;
use crate::error::ToyError;
use crate::toy::Toy;
use mach_buffer::MachBuffer;
use rv_base::OutOfMemory;
use std::alloc::Global;

/// Items, of which the places of islands are asked, and how long the code is.

// One use that is pending at 0 has the deadline 254, and 254 - 14 - 8 * 3 = 216. Of two the later has 256, and
// 256 - 14 - 8 * 4 = 210. Of 28 the last has 308, and 308 - 14 - 8 * 30 = 54.
const STANDS: [&[Item]; 10] = [
    &[Use(0), Fill(100), Bind(0)],
    &[Use(0), Fill(214), Bind(0)],
    &[Use(0), Fill(216), Bind(0)],
    &[Use(0), Fill(214), Fill(2)],
    &[Use(0), Use(0), Fill(206)],
    &[Use(0), Use(1), Fill(208)],
    &[Use(0), Use(1), Bind(0), Fill(214)],
    &[Bind(0), Fill(250), Use(0)],
    &[Use(0); 28],
    &[Use(0); 40],
];

/// How long the code of items is, whose islands are noted.
fn length_of(alloc: Global, items: &[Item], islands: &mut Vec<u32>) -> Result<usize, ToyError> {
    let code = assemble(alloc, Toy::Short, &[], items, islands)?;
    Ok(code.bytes.len())
}

/// Items with the place and the count of some bytes of their code.
struct Aim {
    items: &'static [Item],
    at: usize,
    count: usize,
}

const AIMS: [Aim; 4] = [
    Aim {
        items: &[Use(0), Fill(2), Bind(0)],
        at: 0,
        count: 4,
    },
    // A jump at 2 over an island, whose veneer at 8 goes to 232.
    Aim {
        items: &[Use(0), Fill(216)],
        at: 0,
        count: 17,
    },
    // A jump at 4; the earlier use has the earlier veneer.
    Aim {
        items: &[Use(0), Use(0), Fill(208)],
        at: 0,
        count: 17,
    },
    // A use at 260 of a label at 0 goes by a veneer at 264, which is put at the end.
    Aim {
        items: &[Bind(0), Fill(250), Fill(10), Use(0)],
        at: 260,
        count: 12,
    },
];

/// The first labels that a buffer gives.
fn allocated(alloc: Global) -> Result<[u32; 2], OutOfMemory> {
    let mut buffer = MachBuffer::<Toy>::new(alloc);
    let first = buffer.get_label()?;
    let second = buffer.get_label()?;
    Ok([first.as_u32(), second.as_u32()])
}

fn write_stand(alloc: Global, text: &mut String, items: &[Item]) -> Result<(), ToyError> {
    let mut islands = Vec::new(alloc);
    let length = length_of(alloc, items, &mut islands)?;
    Ok(writeln!(text, "islands at {:?}, {length} bytes", islands.as_slice())?)
}

fn write_aim(alloc: Global, text: &mut String, row: &Aim) -> Result<(), ToyError> {
    let code = code_of_items(alloc, &[], row.items)?;
    write_bytes(alloc, text, code.bytes.as_slice(), row.at, row.count)
}

fn write_stands(alloc: Global, text: &mut String) -> Result<(), ToyError> {
    for items in STANDS {
        write_stand(alloc, text, items)?;
    }
    Ok(())
}

fn write_aims(alloc: Global, text: &mut String) -> Result<(), ToyError> {
    for row in &AIMS {
        write_aim(alloc, text, row)?;
    }
    Ok(())
}

pub(crate) fn write(alloc: Global, text: &mut String) -> Result<(), ToyError> {
    write_stands(alloc, text)?;
    write_aims(alloc, text)?;
    let labels = allocated(alloc)?;
    Ok(writeln!(text, "the first labels: {labels:?}")?)
}
