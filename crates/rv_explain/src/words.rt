//! What is wrong with a word that its field doesn't take.

use crate::forms::{Access, File, Kind};
use crate::kinds::{described, form_of_operation, has_near, has_operations, takes};
use crate::nearest::{Meant, nearest};
use crate::text::quoted;
use rv_base::OutOfMemory;
use std::alloc::Global;

const REGISTER: Kind = Kind::Register(Access::Read, File::Any);

const MACHINE_REGISTER: Kind = Kind::Register(Access::Read, File::StackOrFrame);

// ---- numbers

fn is_digits(w: &str) -> bool {
    match w.strip_prefix("0x") {
        Some(digits) => !digits.is_empty() && digits.chars().all(|c| c.is_ascii_hexdigit()),
        None => !w.is_empty() && w.chars().all(|c| c.is_ascii_digit()),
    }
}

fn has_capitals(digits: &str) -> bool {
    digits.starts_with("0X")
        || digits.starts_with("0x") && digits.chars().any(|c| c.is_ascii_uppercase())
}

fn has_zero_in_front(digits: &str) -> bool {
    digits.len() > 1 && digits.starts_with('0') && digits.chars().all(|c| c.is_ascii_digit())
}

/// What is wrong with a number that its field doesn't take.
fn number_reason(alloc: Global, kind: Kind, word: &str) -> Result<String, OutOfMemory> {
    let (_, range) = described(kind);
    let shown = quoted(alloc, word)?;
    let digits = word.strip_prefix('-').unwrap_or(word);
    Ok(if word.starts_with('+') {
        format!(in alloc; "{shown} has a plus sign; numbers have none")?
    } else if has_capitals(digits) {
        format!(in alloc;
            "{shown} has capital letters; hexadecimal numbers have small ones, as 0x1f"
        )?
    } else if has_zero_in_front(digits) {
        format!(in alloc; "{shown} has a zero in front; decimal numbers have none")?
    } else if is_digits(digits) {
        format!(in alloc; "{shown} is out of range; {range}")?
    } else {
        format!(in alloc; "{shown} is no number; {range}")?
    })
}

// ---- names

/// What is wrong with a word that is one name, register or label.
pub(crate) fn word_reason(alloc: Global, kind: Kind, word: &str) -> Result<String, OutOfMemory> {
    let (what, taken) = described(kind);
    let shown = quoted(alloc, word)?;
    if has_operations(kind) {
        if let Some(form) = form_of_operation(word) {
            return Ok(format!(in alloc; "{shown} is no {what}, but an operation of {form}")?);
        }
    }
    if has_near(kind) {
        if let Some(near) = nearest(alloc, Meant::Field(kind), word)? {
            return Ok(format!(in alloc; "{shown} is no {what}; {near} is")?);
        }
    }
    Ok(match taken {
        "" => format!(in alloc; "{shown} is no {what}")?,
        _ => format!(in alloc; "{shown} is no {what}; {taken}")?,
    })
}

/// What is wrong with a register.
fn register_reason(alloc: Global, kind: Kind, word: &str) -> Result<String, OutOfMemory> {
    let shown = quoted(alloc, word)?;
    if word.starts_with('%') && takes(REGISTER, word) {
        return Ok(format!(in alloc; "{shown} is virtual, and no register of the machine")?);
    }
    if word.starts_with('%') {
        return Ok(format!(in alloc; "{shown} is no register; virtual ones are %192 to %2097151")?);
    }
    if word.ends_with(',') {
        return Ok(format!(in alloc; "{shown} has a comma; spaces alone separate words")?);
    }
    let small: String = word.chars().map(|c| c.to_ascii_lowercase()).collect(alloc)?;
    if takes(kind, &small) {
        return Ok(format!(in alloc; "{shown} is no register; {small} is")?);
    }
    Ok(format!(in alloc; "{shown} is no register")?)
}

// ---- words of several parts

/// What is wrong with the first of these words that its field doesn't take, if one is so.
fn first_reason(alloc: Global, parts: &[(Kind, &str)]) -> Result<Option<String>, OutOfMemory> {
    for (kind, part) in parts {
        if !takes(*kind, part) {
            return Ok(Some(simple_reason(alloc, *kind, part)?));
        }
    }
    Ok(None)
}

/// What is wrong with a pair of registers.
fn pair_reason(alloc: Global, pair: &str) -> Result<Option<String>, OutOfMemory> {
    match pair.split_once(':') {
        Some((value, place)) => first_reason(alloc, &[(REGISTER, value), (REGISTER, place)]),
        None => Ok(None),
    }
}

/// What is wrong with a result: a pair of registers, or one on the stack.
fn result_reason(alloc: Global, part: &str) -> Result<Option<String>, OutOfMemory> {
    let Some((value, place)) = part.split_once('@') else {
        return pair_reason(alloc, part);
    };
    match place.split_once(':') {
        Some((offset, ty)) => first_reason(
            alloc,
            &[(REGISTER, value), (Kind::Size, offset), (Kind::Type, ty)],
        ),
        None => Ok(None),
    }
}

/// What is wrong with a value on the stack.
fn entry_reason(alloc: Global, part: &str) -> Result<Option<String>, OutOfMemory> {
    match part.split_once('@') {
        Some((ty, offset)) => first_reason(alloc, &[(Kind::Type, ty), (Kind::Size, offset)]),
        None => Ok(None),
    }
}

/// What is wrong with an address.
fn address_reason(alloc: Global, word: &str) -> Result<Option<String>, OutOfMemory> {
    let (kind, place) = word.split_once(':').unwrap_or((word, ""));
    match kind {
        "sp" | "fp" | "slot" | "in" => first_reason(alloc, &[(Kind::Offset, place)]),
        "label" => first_reason(alloc, &[(Kind::Label, place)]),
        "const" => first_reason(alloc, &[(Kind::Size, place)]),
        "r" => match place.split_once(':') {
            Some((base, offset)) => first_reason(
                alloc,
                &[(REGISTER, base), (Kind::Offset, offset)],
            ),
            None => Ok(None),
        },
        _ => Ok(None),
    }
}

/// What is wrong with a part of a list.
fn part_reason(alloc: Global, kind: Kind, part: &str) -> Result<Option<String>, OutOfMemory> {
    match kind {
        Kind::Value(_) => first_reason(alloc, &[(REGISTER, part)]),
        Kind::Registers => first_reason(alloc, &[(MACHINE_REGISTER, part)]),
        Kind::Table => first_reason(alloc, &[(Kind::Label, part)]),
        Kind::Pairs => pair_reason(alloc, part),
        Kind::Results => result_reason(alloc, part),
        Kind::StackMap => entry_reason(alloc, part),
        _ => Ok(None),
    }
}

/// What is wrong with the first part of a list that is none.
fn list_reason(alloc: Global, kind: Kind, word: &str) -> Result<Option<String>, OutOfMemory> {
    for part in word.split(',') {
        if !part.is_empty() && part != "-" {
            if let Some(reason) = part_reason(alloc, kind, part)? {
                return Ok(Some(reason));
            }
        }
    }
    Ok(None)
}

/// What is wrong with where a call goes on.
fn try_reason(alloc: Global, word: &str) -> Result<Option<String>, OutOfMemory> {
    let (label, handlers) = word.split_once(';').unwrap_or((word, ""));
    if let Some(reason) = first_reason(alloc, &[(Kind::Label, label)])? {
        return Ok(Some(reason));
    }
    for handler in handlers.split(';') {
        if let Some((_, label)) = handler.split_once(':') {
            if let Some(reason) = first_reason(alloc, &[(Kind::Label, label)])? {
                return Ok(Some(reason));
            }
        }
    }
    Ok(None)
}

/// What is wrong with a word of one part.
fn simple_reason(alloc: Global, kind: Kind, word: &str) -> Result<String, OutOfMemory> {
    match kind {
        Kind::Register(_, _) => register_reason(alloc, kind, word),
        Kind::Imm12
        | Kind::Imm20
        | Kind::Imm5
        | Kind::Bits
        | Kind::Size
        | Kind::Number
        | Kind::Offset => number_reason(alloc, kind, word),
        _ => word_reason(alloc, kind, word),
    }
}

/// What is wrong with a word that its field doesn't take.
pub(crate) fn field_reason(alloc: Global, kind: Kind, word: &str) -> Result<String, OutOfMemory> {
    let inner = match kind {
        Kind::Address => address_reason(alloc, word)?,
        Kind::TryCall => try_reason(alloc, word)?,
        _ => list_reason(alloc, kind, word)?,
    };
    match inner {
        Some(reason) => Ok(reason),
        None => simple_reason(alloc, kind, word),
    }
}
