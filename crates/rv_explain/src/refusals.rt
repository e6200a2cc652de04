//! A listing that is refused, though each of its lines is of a form.

use crate::frames::frame_reason;
use crate::headers::is_header;
use crate::labels::{bind_lines, naming_line};
use crate::parts::parts_of;
use crate::rules::rule_reason;
use crate::text::{as_text, at_line, clipped, is_silent, name_of};
use rv_base::OutOfMemory;
use rv_inst::{EmitError, Job, Rule};
use rv_listing::{ReadError, read_job};
use std::alloc::Global;

/// The most letters of a line that are shown.
const SHOWN: usize = 160;

/// The most bytes that the lines of a listing may count for.
const MOST: u128 = 1073741824;

/// The line of a listing by its index, from 0, and its number in the text, from 1.
fn listing_line(text: &[u8], index: usize) -> (usize, &str) {
    let mut number = 0usize;
    let mut passed = 0usize;
    for line in text.split(|c| *c == b'\n') {
        number = number.saturating_add(1);
        let line = as_text(line);
        if !is_silent(line) && !is_header(name_of(line)) {
            if passed == index {
                return (number, line);
            }
            passed = passed.saturating_add(1);
        }
    }
    (0, "")
}

/// What is wrong with a line, after its words.
fn of_line(alloc: Global, number: usize, line: &str, reason: &str) -> Result<String, OutOfMemory> {
    let shown = clipped(alloc, line, SHOWN)?;
    at_line(alloc, number, &format!(in alloc; "{shown}: {reason}")?)
}

fn malformed(alloc: Global, text: &[u8], index: usize, rule: Rule) -> Result<String, OutOfMemory> {
    let (number, line) = listing_line(text, index);
    let reason = rule_reason(alloc, text, line, rule)?;
    of_line(alloc, number, line, &reason)
}

/// The header line of the frame, and its number.
fn frame_line(text: &[u8]) -> (usize, &str) {
    let mut number = 0usize;
    for line in text.split(|c| *c == b'\n') {
        number = number.saturating_add(1);
        let line = as_text(line);
        if name_of(line) == "frame" {
            return (number, line);
        }
    }
    (0, "")
}

fn bad_frame(alloc: Global, text: &[u8]) -> Result<String, OutOfMemory> {
    let (number, line) = frame_line(text);
    let parts = parts_of(alloc, line)?;
    let reason = frame_reason(alloc, text, &parts)?;
    of_line(
        alloc,
        number,
        line,
        &format!(in alloc; "{reason} (BadFrame)")?,
    )
}

fn label_twice(alloc: Global, text: &[u8], label: u32) -> Result<String, OutOfMemory> {
    let (first, second) = bind_lines(text, label);
    Ok(format!(in alloc; "label L{label} is bound at line {first} and again at line {second}")?)
}

fn unbound_label(alloc: Global, text: &[u8], label: u32) -> Result<String, OutOfMemory> {
    let reason = format!(in alloc; "no line binds L{label} (UnboundLabel)")?;
    match naming_line(alloc, text, label)? {
        Some((number, line)) => of_line(alloc, number, line, &reason),
        None => Ok(reason),
    }
}

/// The first line at which a listing counts for too much, by its index, and for how much.
fn too_large_line(job: &Job) -> (usize, u128) {
    let mut sum = 0u128;
    for constant in job.constants.as_slice() {
        sum = sum
            .saturating_add(constant.bytes.len() as u128)
            .saturating_add(16);
    }
    let mut index = 0usize;
    for line in job.lines.as_slice() {
        sum = sum.saturating_add(line.size_sum(&job.frame));
        if sum > MOST {
            return (index, sum);
        }
        index = index.saturating_add(1);
    }
    (0, sum)
}

fn too_large(alloc: Global, text: &[u8]) -> Result<String, OutOfMemory> {
    let job = match read_job(alloc, text) {
        Ok(job) => job,
        Err(ReadError::OutOfMemory) => return Err(OutOfMemory),
        Err(ReadError::Syntax { line }) => return at_line(
            alloc,
            line,
            "this is no line of a listing",
        ),
    };
    let (index, sum) = too_large_line(&job);
    let (number, line) = listing_line(text, index);
    let reason = format!(in alloc;
        "the lines to this one count for {sum} bytes; {MOST} are the most (TooLarge)"
    )?;
    of_line(alloc, number, line, &reason)
}

/// Why a listing is refused, by its text and the cause: which line, its words, and what to mend.
pub fn explain_refusal(
    alloc: Global,
    text: &[u8],
    error: &EmitError,
) -> Result<String, OutOfMemory> {
    match error {
        EmitError::OutOfMemory => Ok(String::from_str(alloc, "out of memory")?),
        EmitError::BadFrame => bad_frame(alloc, text),
        EmitError::Malformed { index, rule } => malformed(alloc, text, *index, *rule),
        EmitError::LabelTwice { label } => label_twice(alloc, text, *label),
        EmitError::UnboundLabel { label } => unbound_label(alloc, text, *label),
        EmitError::TooLarge => too_large(alloc, text),
    }
}
