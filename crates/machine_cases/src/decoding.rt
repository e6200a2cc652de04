//! What words are decoded to.

use crate::flags::flags_of;
use case_files::{first_word, number};
use rv_base::OutOfMemory;
use rv_machine::decode;
use std::alloc::Global;

/// What the word of `WORD` is decoded to where no flag is set, or of `WORD FLAG ..` under these flags.
pub(crate) fn decoded(alloc: Global, given: &str) -> Result<String, OutOfMemory> {
    let (word, names) = first_word(given);
    match decode(flags_of(names), (number(word) & 0xffff_ffff) as u32) {
        Some(decoded) => Ok(format!(in alloc; "{decoded:?}")?),
        None => Ok(String::from_str(alloc, "none")?),
    }
}
