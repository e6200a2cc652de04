//! Constants, labels, arguments and data that a line names or has, and that aren't there, or too large.

use crate::forms::Kind;
use crate::parts::{Parts, has_labels, is_between, label_number, read, word_named, word_of};
use crate::text::{as_text, name_of};
use rv_base::OutOfMemory;
use rv_listing::natural;
use rv_ops::LoadOP;
use std::alloc::Global;

/// The digits of the constant of a number among the lines `const`, and how many there are.
fn constant_digits(text: &[u8], number: u64) -> (Option<usize>, u64) {
    let mut count = 0u64;
    let mut digits = None;
    for line in text.split(|c| *c == b'\n') {
        let line = as_text(line);
        if name_of(line) == "const" {
            if count == number {
                let (_, hex) = line.rsplit_once(' ').unwrap_or((line, ""));
                digits = Some(hex.len());
            }
            count = count.saturating_add(1);
        }
    }
    (digits, count)
}

/// Which constant isn't there, or is too short.
pub(crate) fn constant_reason(
    alloc: Global,
    text: &[u8],
    parts: &Parts<'_>,
) -> Result<String, OutOfMemory> {
    let address = word_of(parts, Kind::Address);
    let number = address.strip_prefix("const:").unwrap_or(address);
    let (digits, count) = constant_digits(text, natural(number.as_bytes()).unwrap_or(u64::MAX));
    let op = word_named(parts, "OP");
    Ok(match (digits, read::<LoadOP>(op)) {
        (Some(digits), Some(load)) => {
            let bytes = digits / 2;
            let size = load.size();
            format!(in alloc; "the constant {number} has {bytes} bytes, and {op} reads {size}")?
        }
        _ => format!(in alloc;
            "there is no constant {number}; the lines const are {count}, counted from 0"
        )?,
    })
}

/// Which label is too high.
pub(crate) fn label_reason(alloc: Global, parts: &Parts<'_>) -> Result<String, OutOfMemory> {
    for (field, word) in parts.fields.iter().zip(parts.words.iter()) {
        if has_labels(field.1) {
            for part in word.split(is_between) {
                if label_number(part).unwrap_or(0) > 1073741823 {
                    return Ok(format!(in alloc;
                        "{part} is too high; L0 to L1073741823 are taken"
                    )?);
                }
            }
        }
    }
    Ok(String::from_str(alloc, "a label is too high; L0 to L1073741823 are taken")?)
}

/// The size of the incoming arguments, of the header line of the frame.
fn tail_of(text: &[u8]) -> &str {
    for line in text.split(|c| *c == b'\n') {
        let line = as_text(line);
        if let Some(rest) = line.strip_prefix("frame ") {
            return name_of(rest);
        }
    }
    "0"
}

/// How many bytes a tail call's arguments take, and how many there are.
pub(crate) fn tail_reason(
    alloc: Global,
    text: &[u8],
    parts: &Parts<'_>,
) -> Result<String, OutOfMemory> {
    let number = word_named(parts, "N");
    let tail = tail_of(text);
    Ok(format!(in alloc; "its arguments take {number} bytes, and TAIL of the frame is {tail}")?)
}

/// How many bytes data has.
pub(crate) fn size_reason(alloc: Global, parts: &Parts<'_>) -> Result<String, OutOfMemory> {
    let bytes = word_of(parts, Kind::Bytes).len() / 2;
    let plural = if bytes == 1 { "byte" } else { "bytes" };
    Ok(format!(in alloc; "it has {bytes} {plural}; four and eight are taken")?)
}
