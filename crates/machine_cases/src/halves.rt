//! What halfwords expand to.

use crate::flags::flags_of;
use case_files::{EMPTY_DIGEST, digest_with, first_word, number};
use rv_base::{IsaFlags, OutOfMemory};
use rv_disasm::put;
use rv_machine::{Decoded, decode, decode_half};
use rv_trace::put_instruction;
use std::alloc::Global;

/// All flags.
pub(crate) const ALL: IsaFlags = IsaFlags {
    has_m: true,
    has_zba: true,
    has_zbb: true,
    has_zca: true,
    has_zcb: true,
    has_zcd: true,
    has_zfhmin: true,
};

/// Puts the text of what a halfword expands to, or `-` where it is no instruction.
fn put_text(out: &mut String, flags: IsaFlags, half: u16) -> Result<(), OutOfMemory> {
    match decode_half(flags, half) {
        Some(decoded) => put_instruction(out, &decoded),
        None => put(out, "-"),
    }
}

/// What a word is, as an instruction of two bytes.
fn shortened(word: u32) -> Option<Decoded> {
    match decode(IsaFlags::none(), word) {
        Some(wide) => Some(Decoded { len: 2, ..wide }),
        None => None,
    }
}

/// Whether a halfword expands to the operation of a word of these digits; of none, whether it expands to none.
fn is_as(half: u16, word: &str) -> bool {
    let wanted = if word.is_empty() {
        None
    } else {
        shortened((number(word) & 0xffff_ffff) as u32)
    };
    decode_half(ALL, half) == wanted
}

/// The text of what the halfword of `HALF WORD` expands to, which has to be the operation of the word; or of `HALF`, none.
pub(crate) fn expanded(alloc: Global, given: &str) -> Result<String, OutOfMemory> {
    let (digits, word) = first_word(given);
    let half = (number(digits) & 0xffff) as u16;
    let mut out = String::new(alloc);
    put_text(&mut out, ALL, half)?;
    if !is_as(half, word) {
        out.push_str(" (another operation)")?;
    }
    Ok(out)
}

/// FNV-1a of more bytes.
fn hashed(hash: u64, bytes: &[u8]) -> u64 {
    let mut hash = hash;
    for byte in bytes {
        hash = digest_with(hash, u64::from(*byte));
    }
    hash
}

/// FNV-1a of the texts of all halfwords, each put into one place.
fn digest_by(text: &mut String, flags: IsaFlags) -> Result<u64, OutOfMemory> {
    let mut hash = EMPTY_DIGEST;
    for half in 0..=u16::MAX {
        text.clear();
        put_text(text, flags, half)?;
        hash = hashed(hashed(hash, text.as_bytes()), b"\n");
    }
    Ok(hash)
}

/// The digest of the texts of all halfwords under flags of these names.
pub(crate) fn digest(alloc: Global, given: &str) -> Result<String, OutOfMemory> {
    let mut text = String::new(alloc);
    let digest = digest_by(&mut text, flags_of(given))?;
    Ok(format!(in alloc; "{digest:x}")?)
}
