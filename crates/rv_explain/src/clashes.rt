//! Registers that a line writes in steps: which one is x0, and which two are one.

use crate::forms::{Access, Field, Kind};
use crate::parts::{Parts, is_same, is_stack, is_zero, word_named, word_of};
use rv_base::OutOfMemory;
use std::alloc::Global;

fn is_written(kind: Kind) -> bool {
    matches!(kind, Kind::Register(Access::Written, _))
}

fn is_register(kind: Kind) -> bool {
    matches!(kind, Kind::Register(_, _))
}

/// Which register that a line writes is x0.
pub(crate) fn zero_reason(alloc: Global, parts: &Parts<'_>) -> Result<String, OutOfMemory> {
    for (Field(name, kind), word) in parts.fields.iter().zip(parts.words.iter()) {
        if is_written(*kind) && is_zero(word) {
            return Ok(format!(in alloc; "{name} is {word}, which holds nothing but 0")?);
        }
    }
    Ok(String::from_str(
        alloc,
        "a register that is written is x0, which holds nothing but 0",
    )?)
}

/// The first field, of those after some, that has the same register as this one, where one of both is written.
fn same_as(parts: &Parts<'_>, at: usize, kind: Kind, word: &str) -> Option<&'static str> {
    let fields = parts.fields.iter().zip(parts.words.iter());
    for (Field(name, other), second) in fields.skip(at) {
        if is_register(*other)
            && (is_written(kind) || is_written(*other))
            && is_same(word, second)
        {
            return Some(name);
        }
    }
    None
}

/// Which two registers of a line are one, and one of them is written.
fn two_reason(alloc: Global, parts: &Parts<'_>) -> Result<Option<String>, OutOfMemory> {
    let mut at = 0usize;
    for (Field(name, kind), word) in parts.fields.iter().zip(parts.words.iter()) {
        at = at.saturating_add(1);
        if is_register(*kind) {
            if let Some(other) = same_as(parts, at, *kind, word) {
                return Ok(Some(format!(in alloc;
                    "{name} and {other} are both {word}; each needs one of its own"
                )?));
            }
        }
    }
    Ok(None)
}

/// Whether the result of a `LoadAddr` is that from which its address counts.
fn base_reason(alloc: Global, parts: &Parts<'_>) -> Result<Option<String>, OutOfMemory> {
    let rd = word_named(parts, "rd");
    let address = word_of(parts, Kind::Address);
    Ok(Some(format!(in alloc;
        "rd is {rd}, from which the address {address} counts; it needs another"
    )?))
}

/// Returns whether one of these registers, with commas between them, is this one.
fn is_among(reg: &str, others: &str) -> bool {
    others.split(',').any(|other| is_same(reg, other))
}

/// What is wrong with the result of a `Select`.
fn select_reason(alloc: Global, parts: &Parts<'_>) -> Result<Option<String>, OutOfMemory> {
    let v = word_of(parts, Kind::Value(Access::Written));
    let x = word_named(parts, "X");
    let y = word_named(parts, "Y");
    let count = v.split(',').count();
    if x.split(',').count() != count || y.split(',').count() != count {
        return Ok(Some(format!(in alloc; "{v}, {x} and {y} have different numbers of registers")?));
    }
    if let Some((first, second)) = v.split_once(',') {
        if is_same(first, second) {
            return Ok(Some(format!(in alloc; "V is {v}, one register twice")?));
        }
    }
    for part in v.split(',') {
        if is_same(part, word_named(parts, "rs1")) || is_same(part, word_named(parts, "rs2")) {
            return Ok(Some(format!(in alloc;
                "V has {part}, which is compared; it needs another"
            )?));
        }
        if count > 1 && (is_among(part, x) || is_among(part, y)) {
            return Ok(Some(format!(in alloc;
                "V has {part}, which is also chosen from; it needs another"
            )?));
        }
    }
    Ok(None)
}

/// Returns whether a register is one of a result's.
fn is_of_result(reg: &str, part: &str) -> bool {
    match part.split_once('@') {
        Some((other, _)) => is_same(reg, other),
        None => part.split(':').any(|other| is_same(reg, other)),
    }
}

/// What is wrong with a result on the stack, by how many results have its register.
fn stack_reason(
    alloc: Global,
    results: &str,
    part: &str,
    reg: &str,
) -> Result<Option<String>, OutOfMemory> {
    if is_stack(reg) {
        return Ok(Some(format!(in alloc; "{part} is loaded into sp; it needs another register")?));
    }
    let count = results
        .split(',')
        .filter(|other| is_of_result(reg, other))
        .count();
    if count > 1 {
        return Ok(Some(format!(in alloc;
            "{part} is loaded into {reg}, which stands in another result"
        )?));
    }
    Ok(None)
}

/// What is wrong with the results of a call.
fn results_reason(alloc: Global, parts: &Parts<'_>) -> Result<Option<String>, OutOfMemory> {
    let results = word_of(parts, Kind::Results);
    for part in results.split(',') {
        if let Some((reg, _)) = part.split_once('@') {
            if let Some(reason) = stack_reason(alloc, results, part, reg)? {
                return Ok(Some(reason));
            }
        }
    }
    Ok(None)
}

/// Which registers of a line are one that have to differ.
pub(crate) fn clash_reason(alloc: Global, parts: &Parts<'_>) -> Result<String, OutOfMemory> {
    let inner = match parts.name {
        "LoadAddr" => base_reason(alloc, parts)?,
        "Select" => select_reason(alloc, parts)?,
        "Call" | "CallInd" => results_reason(alloc, parts)?,
        "StackProbeLoop" => Some(String::from_str(
            alloc,
            "tmp is sp, from which the probes count",
        )?),
        _ => two_reason(alloc, parts)?,
    };
    match inner {
        Some(reason) => Ok(reason),
        None => Ok(String::from_str(alloc, "two registers are one, and have to differ")?),
    }
}
