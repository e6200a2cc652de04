//! Listings whose code is one word or halfword.

use crate::given_by;
use std::alloc::{AllocError, Global};

/// What stands in a report before the digits of its code, where this is a word, and after them; and where it is a halfword.
const WORD: (&str, &str) = ("0 code 4\n00000000 ", "\nline 0 0 4\nend 4\n");

const HALF: (&str, &str) = ("0 code 2\n00000000 ", "\nline 0 0 2\nend 2\n");

/// The digits of a report between two texts.
fn between<'a>(report: &'a str, ends: (&str, &str)) -> Option<&'a str> {
    let (front, back) = ends;
    report.strip_prefix(front)?.strip_suffix(back)
}

/// The digits of the code of a listing, where this is one word or halfword, with the highest digit first; else its report.
pub(crate) fn digits_of(alloc: Global, listing: &str) -> Result<String, AllocError> {
    let report = given_by(alloc, listing)?;
    if let Some(digits) = between(&report, WORD) {
        let word = u32::from_str_radix(digits, 16).unwrap_or(0).swap_bytes();
        return format!(in alloc; "{word:08x}");
    }
    if let Some(digits) = between(&report, HALF) {
        let half = u16::from_str_radix(digits, 16).unwrap_or(0).swap_bytes();
        return format!(in alloc; "{half:04x}");
    }
    Ok(report)
}
