//! Types, numbers, rounding modes and formats that a line doesn't take.

use crate::forms::Kind;
use crate::parts::{Parts, class_of, read, word_named, word_of};
use rv_base::{OutOfMemory, RegClass};
use rv_imms::UImm5;
use rv_listing::natural;
use rv_ops::{AluOPRRI, FRM, FpuOPRR, FpuOPRRR, FpuOPWidth};
use std::alloc::Global;

// ---- types

/// The types of integers of up to 64 bits.
const INTEGERS: &str = "i8, i16, i32 and i64";

const FLOATS: &str = "f16, f32 and f64";

/// The types that a `Mov` of a register takes.
fn moved_types(rm: &str) -> &'static str {
    match class_of(rm) {
        Some(RegClass::Int) => INTEGERS,
        Some(RegClass::Float) => FLOATS,
        _ => "no types",
    }
}

/// Returns whether results of a type are loaded from the stack.
fn is_loaded(ty: &str) -> bool {
    match ty {
        "i8" | "i16" | "i32" | "i64" | "f16" | "f32" | "f64" => true,
        _ => false,
    }
}

/// Which result on the stack is of a type that isn't loaded.
fn results_type_reason(alloc: Global, parts: &Parts<'_>) -> Result<String, OutOfMemory> {
    for part in word_of(parts, Kind::Results).split(',') {
        if let Some((_, place)) = part.split_once('@') {
            let (_, ty) = place.split_once(':').unwrap_or((place, ""));
            if !is_loaded(ty) {
                return Ok(format!(in alloc;
                    "{part} is of {ty}, and {INTEGERS} and {FLOATS} are loaded"
                )?);
            }
        }
    }
    Ok(String::from_str(alloc, "a result is of a type that isn't loaded")?)
}

/// Which type a line doesn't take, and which it does.
pub(crate) fn type_reason(alloc: Global, parts: &Parts<'_>) -> Result<String, OutOfMemory> {
    let name = parts.name;
    let ty = word_of(parts, Kind::Type);
    Ok(match name {
        "Call" | "CallInd" => return results_type_reason(alloc, parts),
        "Mov" => {
            let rm = word_named(parts, "rm");
            let types = moved_types(rm);
            format!(in alloc; "it takes {types} of {rm}, and no {ty}")?
        }
        "LoadInlineConst" => format!(in alloc; "it takes i32 and i64, and no {ty}")?,
        _ => format!(in alloc; "it takes {INTEGERS}, and no {ty}")?,
    })
}

// ---- numbers

/// Which number of a call is out of its range.
fn call_range_reason(alloc: Global, parts: &Parts<'_>) -> Result<String, OutOfMemory> {
    let popped = word_named(parts, "N");
    if natural(popped.as_bytes()).unwrap_or(0) > 2147483647 {
        return Ok(format!(in alloc; "N is {popped}; 0 to 2147483647 are taken")?);
    }
    for part in word_of(parts, Kind::Results).split(',') {
        let (_, place) = part.split_once('@').unwrap_or((part, ""));
        let (offset, _) = place.split_once(':').unwrap_or((place, ""));
        if natural(offset.as_bytes()).unwrap_or(0) > 1073741824 {
            return Ok(format!(in alloc;
                "{part} is {offset} bytes above sp; up to 1073741824 are taken"
            )?);
        }
    }
    Ok(String::from_str(alloc, "a number is out of its range")?)
}

/// Which number of a line is out of its range, and what that is.
pub(crate) fn range_reason(alloc: Global, parts: &Parts<'_>) -> Result<String, OutOfMemory> {
    let op = word_named(parts, "OP");
    let number = word_named(parts, "N");
    Ok(match parts.name {
        "Call" | "CallInd" => return call_range_reason(alloc, parts),
        "Extend" => {
            let from = word_named(parts, "FROM");
            format!(in alloc; "FROM is {from}; 1 to 64 are taken")?
        }
        "Fence" => {
            let before = word_named(parts, "BEFORE");
            let after = word_named(parts, "AFTER");
            format!(in alloc; "BEFORE is {before} and AFTER {after}; 0 to 15 are taken")?
        }
        "AluRRImm12" => match read::<AluOPRRI>(op).and_then(|op| op.shift_limit()) {
            Some(limit) => {
                let most = limit.saturating_sub(1);
                format!(in alloc; "N is {number}; {op} takes 0 to {most}")?
            }
            None => format!(in alloc; "N is {number}, out of its range")?,
        },
        _ => {
            let address = word_of(parts, Kind::Address);
            format!(in alloc;
                "{address} is too far; -4611686018427387904 to 4611686018427387904 bytes are taken"
            )?
        }
    })
}

// ---- floating-point fields

/// Returns whether an operation takes a rounding mode.
fn takes_frm(op: &str, frm: FRM) -> bool {
    match (read::<FpuOPRR>(op), read::<FpuOPRRR>(op)) {
        (Some(op), _) => op.takes_frm(frm),
        (None, Some(op)) => op.takes_frm(frm),
        (None, None) => false,
    }
}

/// Which rounding mode an operation has that doesn't round.
pub(crate) fn rounding_reason(alloc: Global, parts: &Parts<'_>) -> Result<String, OutOfMemory> {
    let op = word_named(parts, "OP");
    let frm = word_named(parts, "FRM");
    for own in [FRM::RNE, FRM::RTZ, FRM::RDN, FRM::RUP, FRM::RMM, FRM::Fcsr] {
        if takes_frm(op, own) {
            let own = own.to_static_str();
            return Ok(format!(in alloc; "{op} doesn't round, and stands with {own}, not {frm}")?);
        }
    }
    Ok(format!(in alloc; "{op} doesn't stand with {frm}")?)
}

/// Returns whether an operation takes a format.
fn takes_width(op: &str, width: FpuOPWidth) -> bool {
    match read::<FpuOPRR>(op) {
        Some(op) => op.takes_width(width),
        None => width.is_supported(),
    }
}

/// The format of the result of an operation that has one format alone.
fn own_width(op: &str) -> Option<&'static str> {
    let h = takes_width(op, FpuOPWidth::H);
    let s = takes_width(op, FpuOPWidth::S);
    let d = takes_width(op, FpuOPWidth::D);
    match (h, s, d) {
        (true, false, false) => Some("h"),
        (false, true, false) => Some("s"),
        (false, false, true) => Some("d"),
        _ => None,
    }
}

/// Which format an operation doesn't have, and which it has.
pub(crate) fn width_reason(alloc: Global, parts: &Parts<'_>) -> Result<String, OutOfMemory> {
    let op = word_named(parts, "OP");
    let width = word_named(parts, "WIDTH");
    Ok(match own_width(op) {
        Some(own) => format!(in alloc; "the format of {op} is {own}, and not {width}")?,
        None => format!(in alloc; "the format is {width}; h, s and d are taken")?,
    })
}
