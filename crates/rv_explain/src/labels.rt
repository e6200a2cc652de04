//! Where labels of a text are bound, and where they are named.

use crate::parts::{Parts, has_labels, is_between, label_number, parts_of};
use crate::text::{as_text, is_silent, name_of};
use rv_base::OutOfMemory;
use std::alloc::Global;

/// Returns whether a line binds a label.
fn binds(line: &str, label: u32) -> bool {
    match line.strip_prefix("Bind ") {
        Some(word) => label_number(word) == Some(label),
        None => false,
    }
}

/// The numbers of the first two lines that bind a label; 0 where there is none.
pub(crate) fn bind_lines(text: &[u8], label: u32) -> (usize, usize) {
    let mut number = 0usize;
    let mut first = 0usize;
    for line in text.split(|c| *c == b'\n') {
        number = number.saturating_add(1);
        if binds(as_text(line), label) {
            if first != 0 {
                return (first, number);
            }
            first = number;
        }
    }
    (first, 0)
}

/// Returns whether a label stands in a line.
fn names(parts: &Parts<'_>, label: u32) -> bool {
    for (field, word) in parts.fields.iter().zip(parts.words.iter()) {
        if has_labels(field.1)
            && word
                .split(is_between)
                .any(|part| label_number(part) == Some(label))
        {
            return true;
        }
    }
    false
}

/// The first line that names a label, and doesn't bind it, with its number.
pub(crate) fn naming_line(
    alloc: Global,
    text: &[u8],
    label: u32,
) -> Result<Option<(usize, &str)>, OutOfMemory> {
    let mut number = 0usize;
    for line in text.split(|c| *c == b'\n') {
        number = number.saturating_add(1);
        let line = as_text(line);
        if !is_silent(line) && name_of(line) != "Bind" {
            let parts = parts_of(alloc, line)?;
            if names(&parts, label) {
                return Ok(Some((number, line)));
            }
        }
    }
    Ok(None)
}
