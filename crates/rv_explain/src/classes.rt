//! Which register of a line has another class than its place asks.

use crate::forms::{Access, Field, File, Kind};
use crate::parts::{Parts, class_of, integer_number, is_between, read, word_named, word_of};
use rv_base::{OutOfMemory, RegClass};
use rv_ops::{FpuOPRR, FpuOPRRR, LoadOP, StoreOP};
use std::alloc::Global;

/// What registers of a class are.
fn class_name(class: RegClass) -> &'static str {
    match class {
        RegClass::Int => "an integer register",
        RegClass::Float => "a floating-point register",
        RegClass::Vector => "a vector register",
    }
}

/// The class of the result of a floating-point operation.
fn result_class(op: &str) -> Option<RegClass> {
    match (read::<FpuOPRR>(op), read::<FpuOPRRR>(op)) {
        (Some(op), _) => Some(op.dst_regclass()),
        (None, Some(op)) => Some(op.dst_regclass()),
        (None, None) => None,
    }
}

/// The class of the register of a load or a store.
fn accessed_class(op: &str) -> Option<RegClass> {
    match (read::<LoadOP>(op), read::<StoreOP>(op)) {
        (Some(op), _) => Some(op.class()),
        (None, Some(op)) => Some(op.class()),
        (None, None) => None,
    }
}

/// The class that a place asks, where it asks one.
fn asked(file: File, op: &str) -> Option<RegClass> {
    match file {
        File::Integer => Some(RegClass::Int),
        File::Float => Some(RegClass::Float),
        File::Result => result_class(op),
        File::Source => read::<FpuOPRR>(op).map(|op| op.src_regclass()),
        File::Accessed => accessed_class(op),
        File::Same | File::Any | File::StackOrFrame | File::T0 => None,
    }
}

/// What is wrong with a register in a place, if something is.
fn place_reason(
    alloc: Global,
    name: &str,
    word: &str,
    asked: Option<RegClass>,
) -> Result<Option<String>, OutOfMemory> {
    match asked {
        Some(class) if class_of(word) != Some(class) => {
            let class = class_name(class);
            Ok(Some(format!(in alloc; "{name} is {word}, and {class} stands there")?))
        }
        _ => Ok(None),
    }
}

/// What is wrong with a register by its field, if something is.
fn register_reason(
    alloc: Global,
    parts: &Parts<'_>,
    name: &str,
    file: File,
    word: &str,
) -> Result<Option<String>, OutOfMemory> {
    let number = integer_number(word);
    match file {
        File::T0 if number != Some(5) => Ok(Some(format!(in alloc;
            "it goes through {word}, and t0 alone is taken"
        )?)),
        File::StackOrFrame if number != Some(2) && number != Some(8) => Ok(Some(format!(in alloc;
            "{name} is {word}, and sp and fp alone are taken"
        )?)),
        _ => place_reason(alloc, name, word, asked(file, word_named(parts, "OP"))),
    }
}

/// What is wrong with two registers that are of two classes, if they are.
fn pair_reason(alloc: Global, first: &str, second: &str) -> Result<Option<String>, OutOfMemory> {
    if class_of(first) == class_of(second) {
        return Ok(None);
    }
    Ok(Some(format!(in alloc; "{first} and {second} are of two classes")?))
}

/// The class of the registers of a result on the stack, by its type, where it has one.
fn class_of_type(ty: &str) -> Option<RegClass> {
    match ty {
        "i8" | "i16" | "i32" | "i64" => Some(RegClass::Int),
        "f16" | "f32" | "f64" => Some(RegClass::Float),
        "i128" | "f128" => None,
        _ => Some(RegClass::Vector),
    }
}

/// What is wrong with an argument or a result of a call, if something is.
fn result_reason(alloc: Global, part: &str) -> Result<Option<String>, OutOfMemory> {
    if let Some((value, place)) = part.split_once('@') {
        let (_, ty) = place.split_once(':').unwrap_or((place, ""));
        return place_reason(alloc, part, value, class_of_type(ty));
    }
    match part.split_once(':') {
        Some((first, second)) => pair_reason(alloc, first, second),
        None => Ok(None),
    }
}

fn results_reason(alloc: Global, word: &str) -> Result<Option<String>, OutOfMemory> {
    for part in word.split(',') {
        if let Some(reason) = result_reason(alloc, part)? {
            return Ok(Some(reason));
        }
    }
    Ok(None)
}

/// What is wrong with the register of an address, if something is.
fn address_reason(alloc: Global, word: &str) -> Result<Option<String>, OutOfMemory> {
    match word.strip_prefix("r:") {
        Some(rest) => {
            let (base, _) = rest.split_once(':').unwrap_or((rest, ""));
            place_reason(alloc, word, base, Some(RegClass::Int))
        }
        None => Ok(None),
    }
}

/// What is wrong with the values of a `Select`.
fn value_reason(alloc: Global, parts: &Parts<'_>) -> Result<Option<String>, OutOfMemory> {
    let v = word_of(parts, Kind::Value(Access::Written));
    let x = word_named(parts, "X");
    let y = word_named(parts, "Y");
    for value in [v, x, y] {
        for part in value.split(is_between) {
            if class_of(part) == Some(RegClass::Vector) {
                return Ok(Some(format!(in alloc;
                    "{part} is a vector register, and none is chosen"
                )?));
            }
        }
    }
    Ok(Some(format!(in alloc; "{v}, {x} and {y} differ in the class of a register at one place")?))
}

/// What is wrong with the word of a field, if something is.
fn field_reason(
    alloc: Global,
    parts: &Parts<'_>,
    field: Field,
    word: &str,
) -> Result<Option<String>, OutOfMemory> {
    let Field(name, kind) = field;
    match kind {
        Kind::Register(_, file) => register_reason(alloc, parts, name, file, word),
        Kind::Pairs | Kind::Results => results_reason(alloc, word),
        Kind::Address => address_reason(alloc, word),
        _ => Ok(None),
    }
}

/// A load-reserved with a source, where each register is of the class that its place asks.
fn idle_reason(alloc: Global, parts: &Parts<'_>) -> Result<Option<String>, OutOfMemory> {
    let op = word_named(parts, "OP");
    let rs = word_named(parts, "rs");
    Ok(Some(format!(in alloc; "{op} has no source, so rs is zero, and not {rs}")?))
}

/// Which register of a line has another class than its place asks.
pub(crate) fn class_reason(alloc: Global, parts: &Parts<'_>) -> Result<String, OutOfMemory> {
    for (field, word) in parts.fields.iter().zip(parts.words.iter()) {
        if let Some(reason) = field_reason(alloc, parts, *field, word)? {
            return Ok(reason);
        }
    }
    let inner = match parts.name {
        "Select" => value_reason(alloc, parts)?,
        "Mov" => pair_reason(alloc, word_named(parts, "rd"), word_named(parts, "rm"))?,
        "Atomic" => idle_reason(alloc, parts)?,
        _ => None,
    };
    match inner {
        Some(reason) => Ok(reason),
        None => Ok(String::from_str(alloc, "a register is of another class than its place")?),
    }
}
