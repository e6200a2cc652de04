//! A text by its lines, a line by its words, and both as they are shown.

use rv_base::OutOfMemory;
use std::alloc::Global;
use std::str::from_utf8;

/// The line of a text that has this number, from 1; LF ends lines.
pub(crate) fn line_of(text: &[u8], number: usize) -> &[u8] {
    let mut at = 0usize;
    for line in text.split(|c| *c == b'\n') {
        at = at.saturating_add(1);
        if at == number {
            return line;
        }
    }
    &[]
}

/// A line as text, where it is that.
pub(crate) fn as_text(line: &[u8]) -> &str {
    from_utf8(line).unwrap_or("")
}

/// The words of a line, none of an empty one.
pub(crate) fn words_of(alloc: Global, line: &str) -> Result<Vec<&str>, OutOfMemory> {
    if line.is_empty() {
        return Ok(Vec::new(alloc));
    }
    Ok(line.split(' ').collect(alloc)?)
}

/// The name that begins a line.
pub(crate) fn name_of(line: &str) -> &str {
    match line.split_once(' ') {
        Some((name, _)) => name,
        None => line,
    }
}

/// Returns whether a line is a comment or empty.
pub(crate) fn is_silent(line: &str) -> bool {
    line.is_empty() || line.starts_with('#')
}

/// At most so many letters of a text; dots stand for those left out.
pub(crate) fn clipped(alloc: Global, text: &str, most: usize) -> Result<String, OutOfMemory> {
    let mut shown: String = text.chars().take(most).collect(alloc)?;
    if shown.len() < text.len() {
        shown.push_str("...")?;
    }
    Ok(shown)
}

/// A word in quotes.
pub(crate) fn quoted(alloc: Global, word: &str) -> Result<String, OutOfMemory> {
    let word = clipped(alloc, word, 60)?;
    Ok(format!(in alloc; "\"{word}\"")?)
}

/// What is wrong with a line.
pub(crate) fn at_line(alloc: Global, number: usize, reason: &str) -> Result<String, OutOfMemory> {
    Ok(format!(in alloc; "line {number}: {reason}")?)
}
