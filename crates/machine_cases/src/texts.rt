//! Words as texts, and texts as words.

use crate::flags::flags_of;
use crate::halves::ALL;
use case_files::{first_word, number};
use rv_base::{IsaFlags, OutOfMemory};
use rv_disasm::{disasm, reasm};
use std::alloc::Global;

/// Whether a text is read as the word of these digits: four of an instruction of 16 bits, else eight.
fn is_read(flags: IsaFlags, digits: &str, text: &str) -> bool {
    match reasm(flags, text.as_bytes()) {
        Some(word) => {
            u64::from(word.bits) == number(digits) && usize::from(word.len) * 2 == digits.len()
        }
        None => false,
    }
}

/// The text of the word of `WORD FLAG ..` under these flags, which has to be read as that word.
pub(crate) fn shown(alloc: Global, given: &str) -> Result<String, OutOfMemory> {
    let (digits, names) = first_word(given);
    let flags = flags_of(names);
    let mut text = disasm(alloc, flags, (number(digits) & 0xffff_ffff) as u32)?;
    if !is_read(flags, digits, &text) {
        text.push_str(" (not read as the word)")?;
    }
    Ok(text)
}

/// The digits of the word of a text under all flags.
pub(crate) fn read(alloc: Global, text: &str) -> Result<String, OutOfMemory> {
    match reasm(ALL, text.as_bytes()) {
        Some(word) if word.len == 2 => Ok(format!(in alloc; "{:04x}", word.bits)?),
        Some(word) => Ok(format!(in alloc; "{:08x}", word.bits)?),
        None => Ok(String::from_str(alloc, "none")?),
    }
}
