//! The table of labels, at numbers that lie close together, far apart, and in both halves.

use crate::error::ToyError;
use mach_labels::LabelTable;
use rv_base::OutOfMemory;
use std::alloc::Global;

/// Whether each number has its place in the list as entry.
fn holds(table: &LabelTable<u32>, numbers: &[u32]) -> bool {
    for (place, number) in numbers.iter().enumerate() {
        if table.get(*number).map(|entry| entry as usize) != Some(place) {
            return false;
        }
    }
    true
}

fn fill(alloc: Global, numbers: &[u32]) -> Result<LabelTable<u32>, OutOfMemory> {
    let mut table = LabelTable::new(alloc);
    let mut place: u32 = 0;
    for number in numbers {
        table.set(*number, place)?;
        place = place.saturating_add(1);
    }
    Ok(table)
}

const LISTS: [&[u32]; 5] = [
    &[0, 1, 2, 3, 5, 8, 13],
    &[100, 99, 98, 97, 3, 2, 1, 0],
    &[1000000000, 7, 4294967295, 1073741823, 1073741824],
    &[
        1073741824, 1073741825, 1073741826, 0, 1, 1073742000, 2147483648,
    ],
    &[
        1, 2, 4, 8, 16, 32, 64, 128, 256, 512, 1024, 2048, 4096, 8192, 16384, 32768, 65536, 131072,
        262144, 524288, 1048576, 2097152, 4194304, 8388608, 16777216, 33554432, 67108864,
        134217728, 268435456, 536870912, 1073741824, 2147483648,
    ],
];

/// Whether a thousand labels have the values that they are given last.
fn are_replaced(alloc: Global) -> Result<bool, OutOfMemory> {
    let mut table = LabelTable::new(alloc);
    for number in 0..1000u32 {
        // Of every label the entry is first in the map, and then in a vector.
        table.set(999 - number, 1)?;
    }
    for number in 0..1000u32 {
        table.set(number, number + 2)?;
    }
    for number in 0..1000u32 {
        if table.get(number) != Some(number + 2) {
            return Ok(false);
        }
    }
    Ok(true)
}

/// Writes whether labels are found again, and what is found of two others.
fn write_found(alloc: Global, text: &mut String, numbers: &[u32]) -> Result<(), ToyError> {
    let table = fill(alloc, numbers)?;
    let (is_found, low, high) = (holds(&table, numbers), table.get(10), table.get(1073741834));
    Ok(writeln!(
        text,
        "labels are found: {is_found}, others: {low:?} {high:?}"
    )?)
}

pub(crate) fn write(alloc: Global, text: &mut String) -> Result<(), ToyError> {
    for numbers in LISTS {
        write_found(alloc, text, numbers)?;
    }
    let are_replaced = are_replaced(alloc)?;
    Ok(writeln!(text, "labels get new values: {are_replaced}")?)
}
