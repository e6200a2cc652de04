//! What of the header line of a frame is wrong where each of its words is taken.

use crate::forms::Kind;
use crate::parts::{Parts, class_of, integer_number, is_same, word_of};
use crate::text::{as_text, name_of};
use rv_base::{OutOfMemory, RegClass};
use rv_listing::natural;
use std::alloc::Global;

/// The most bytes of all sizes but that of the slots.
const MOST: u64 = 2147483647;

/// The sum of all sizes but that of the slots, which are a part of another.
fn sum_of(parts: &Parts<'_>) -> u64 {
    let mut sum = 0u64;
    for (field, word) in parts.fields.iter().zip(parts.words.iter()) {
        if field.1 == Kind::Size && field.0 != "SLOTS" {
            sum = sum.saturating_add(natural(word.as_bytes()).unwrap_or(0));
        }
    }
    sum
}

/// Why a register can't be saved, where it can't.
fn unsaved(word: &str) -> Option<&'static str> {
    if class_of(word) == Some(RegClass::Vector) {
        return Some("vector registers can't");
    }
    match integer_number(word) {
        Some(0) => Some("it is x0"),
        Some(1) => Some("SETUP has the return address"),
        Some(2) => Some("it is the stack pointer"),
        Some(8) => Some("SETUP has the frame pointer"),
        Some(30) | Some(31) => Some(
            "x30 and x31 are kept for veneers and lines of several instructions",
        ),
        _ => None,
    }
}

/// The number of the first line that is a `ReturnCallInd`.
fn tail_call_line(text: &[u8]) -> Option<usize> {
    let mut number = 0usize;
    for line in text.split(|c| *c == b'\n') {
        number = number.saturating_add(1);
        if name_of(as_text(line)) == "ReturnCallInd" {
            return Some(number);
        }
    }
    None
}

/// What is wrong with the registers that a frame saves.
fn saves_reason(alloc: Global, text: &[u8], parts: &Parts<'_>) -> Result<String, OutOfMemory> {
    let saves = word_of(parts, Kind::Registers);
    for part in saves.split(',') {
        if let Some(why) = unsaved(part) {
            return Ok(format!(in alloc; "{part} can't be saved; {why}")?);
        }
    }
    let t0 = saves
        .split(',')
        .find(|part| is_same(part, "t0"))
        .unwrap_or("t0");
    let line = tail_call_line(text).unwrap_or(0);
    Ok(format!(in alloc; "{t0} can't be saved, since line {line} is a tail call through it")?)
}

/// What is wrong with a frame.
pub(crate) fn frame_reason(
    alloc: Global,
    text: &[u8],
    parts: &Parts<'_>,
) -> Result<String, OutOfMemory> {
    let sum = sum_of(parts);
    if sum > MOST {
        return Ok(format!(in alloc;
            "its sizes but SLOTS sum to {sum} bytes; {MOST} are the most"
        )?);
    }
    saves_reason(alloc, text, parts)
}
