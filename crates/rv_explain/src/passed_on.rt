//! The line with which `rvemit` refuses, as the next program of a pipe gets it in place of a report.

use std::str::from_utf8;

/// The longest line with which `rvemit` refuses has fewer bytes.
const MOST: usize = 80;

/// How such a line begins.
const OPENING: &str = "rvemit: ";

/// The line with which `rvemit` refuses, where a text is that line alone.
pub fn refusal_of(text: &[u8]) -> Option<&str> {
    if text.len() > MOST {
        return None;
    }
    let line = from_utf8(text).ok()?.strip_suffix('\n')?;
    if line.starts_with(OPENING) && line.bytes().all(|c| c >= 32) {
        Some(line)
    } else {
        None
    }
}
