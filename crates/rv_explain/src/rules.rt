//! Which word of a line breaks a rule, and how.

use crate::clashes::{clash_reason, zero_reason};
use crate::classes::class_reason;
use crate::numbers::{range_reason, rounding_reason, type_reason, width_reason};
use crate::parts::{Parts, has_registers, integer_number, is_between, parts_of, register};
use crate::targets::{constant_reason, label_reason, size_reason, tail_reason};
use rv_base::{OutOfMemory, Reg};
use rv_inst::Rule;
use std::alloc::Global;

/// What is asked of a register.
#[derive(Clone, Copy, Debug, PartialEq, Eq)]
enum Test {
    Virtual,
    Reserved,
}

fn holds(test: Test, word: &str) -> bool {
    match test {
        Test::Virtual => matches!(register(word), Some(Reg::Virtual { .. })),
        Test::Reserved => matches!(integer_number(word), Some(30) | Some(31)),
    }
}

/// The first register of a line for which a test holds.
fn first_register<'a>(parts: &Parts<'a>, test: Test) -> Option<&'a str> {
    for (field, word) in parts.fields.iter().zip(parts.words.iter()) {
        if has_registers(field.1) {
            for part in word.split(is_between) {
                if holds(test, part) {
                    return Some(part);
                }
            }
        }
    }
    None
}

fn virtual_reason(alloc: Global, parts: &Parts<'_>) -> Result<String, OutOfMemory> {
    let word = first_register(parts, Test::Virtual).unwrap_or("a register");
    Ok(format!(in alloc; "{word} is virtual; one of the machine stands in its place")?)
}

/// A register by its name, and by its number where that isn't its name.
fn numbered(alloc: Global, word: &str) -> Result<String, OutOfMemory> {
    match integer_number(word) {
        Some(number) if !word.starts_with('x') => Ok(format!(in alloc; "{word} (x{number})")?),
        _ => Ok(String::from_str(alloc, word)?),
    }
}

fn reserved_reason(alloc: Global, parts: &Parts<'_>) -> Result<String, OutOfMemory> {
    let word = first_register(parts, Test::Reserved).unwrap_or("x31");
    let shown = numbered(alloc, word)?;
    let kept = if integer_number(word) == Some(30) {
        "lines of several instructions"
    } else {
        "veneers"
    };
    Ok(format!(in alloc; "{shown} is kept for {kept}")?)
}

/// What of a line breaks a rule.
fn reason(
    alloc: Global,
    text: &[u8],
    parts: &Parts<'_>,
    rule: Rule,
) -> Result<String, OutOfMemory> {
    match rule {
        Rule::Virtual => virtual_reason(alloc, parts),
        Rule::Class => class_reason(alloc, parts),
        Rule::Reserved => reserved_reason(alloc, parts),
        Rule::Zero => zero_reason(alloc, parts),
        Rule::Clash => clash_reason(alloc, parts),
        Rule::BadType => type_reason(alloc, parts),
        Rule::Range => range_reason(alloc, parts),
        Rule::Rounding => rounding_reason(alloc, parts),
        Rule::Width => width_reason(alloc, parts),
        Rule::Constant => constant_reason(alloc, text, parts),
        Rule::EmptyTable => Ok(String::from_str(alloc, "the table has no label, and needs one")?),
        Rule::NoTarget => Ok(String::from_str(
            alloc,
            "the first label can't be -; where the comparison holds, a label is gone to",
        )?),
        Rule::Label => label_reason(alloc, parts),
        Rule::TailArgs => tail_reason(alloc, text, parts),
        Rule::DataSize => size_reason(alloc, parts),
    }
}

/// What of a line breaks a rule, with the rule's name.
pub(crate) fn rule_reason(
    alloc: Global,
    text: &[u8],
    line: &str,
    rule: Rule,
) -> Result<String, OutOfMemory> {
    let parts = parts_of(alloc, line)?;
    let reason = reason(alloc, text, &parts, rule)?;
    Ok(format!(in alloc; "{reason} ({rule:?})")?)
}
