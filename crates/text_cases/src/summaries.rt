//! The summary of a code of three bytes.

use rv_base::{List, OutOfMemory};
use rv_gen::summary;
use rv_inst::Code;
use std::alloc::Global;

/// A code of three bytes that records nothing.
fn code_of(alloc: Global, bytes: [u8; 3], end: u32) -> Result<Code, OutOfMemory> {
    Ok(Code {
        bytes: List::from_slice(alloc, bytes.as_slice())?,
        lines: List::new(alloc),
        returns: List::new(alloc),
        labels: List::new(alloc),
        constants: List::new(alloc),
        relocs: List::new(alloc),
        traps: List::new(alloc),
        call_sites: List::new(alloc),
        try_call_sites: List::new(alloc),
        patchable_call_sites: List::new(alloc),
        stack_maps: List::new(alloc),
        unwinds: List::new(alloc),
        end,
    })
}

fn byte(word: Option<&str>) -> u8 {
    word.and_then(|w| w.parse().ok()).unwrap_or(0)
}

/// The summary of `N BYTE BYTE BYTE END`, of the code of these bytes as that of job N.
pub(crate) fn summed(alloc: Global, given: &str) -> Result<String, OutOfMemory> {
    let mut words = given.split(' ');
    let number = words
        .next()
        .and_then(|w| w.parse::<u64>().ok())
        .unwrap_or(0);
    let first = byte(words.next());
    let second = byte(words.next());
    let third = byte(words.next());
    let end = byte(words.next());
    let code = code_of(alloc, [first, second, third], u32::from(end))?;
    let line = summary(alloc, number, &code)?;
    Ok(String::from_utf8_lossy(alloc, &line)?)
}
