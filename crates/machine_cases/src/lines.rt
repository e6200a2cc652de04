//! Code as lines, and lines as code.

use crate::flags::flags_of;
use crate::halves::ALL;
use case_files::first_word;
use rv_base::{IsaFlags, OutOfMemory};
use rv_dump::{UndumpError, dump, undump};
use std::alloc::Global;

/// The address of the first byte.
const BASE: u64 = 0x10000;

/// The bytes of digits in pairs; a row has no others.
fn bytes_of(alloc: Global, digits: &str) -> Result<Vec<u8>, OutOfMemory> {
    match hex::decode(alloc, digits.as_bytes()) {
        Ok(bytes) => Ok(bytes),
        Err(_) => Ok(Vec::new(alloc)),
    }
}

fn is_read(
    alloc: Global,
    flags: IsaFlags,
    lines: &[u8],
    bytes: &[u8],
) -> Result<bool, OutOfMemory> {
    match undump(alloc, flags, BASE, lines) {
        Ok(code) => Ok(code.as_slice() == bytes),
        Err(UndumpError::NotLine { line: _ }) => Ok(false),
        Err(UndumpError::OutOfMemory) => Err(OutOfMemory),
    }
}

/// The lines of the code of `DIGITS FLAG ..` under these flags, which have to be read as that code.
pub(crate) fn dumped(alloc: Global, given: &str) -> Result<String, OutOfMemory> {
    let (digits, names) = first_word(given);
    let flags = flags_of(names);
    let bytes = bytes_of(alloc, digits)?;
    let lines = dump(alloc, flags, BASE, &[], &bytes)?;
    let mut text = String::from_utf8_lossy(alloc, &lines)?;
    if !is_read(alloc, flags, &lines, &bytes)? {
        text.push_str(" (not read as the code)")?;
    }
    Ok(text)
}

/// The digits of the code of lines under all flags, or the number of the first that is none of it.
pub(crate) fn undumped(alloc: Global, lines: &str) -> Result<String, OutOfMemory> {
    match undump(alloc, ALL, BASE, lines.as_bytes()) {
        Ok(code) => Ok(hex::encode(alloc, code.as_slice())?),
        Err(UndumpError::NotLine { line }) => Ok(format!(in alloc; "line {line}")?),
        Err(UndumpError::OutOfMemory) => Err(OutOfMemory),
    }
}
