//! A line that is read by its form: its words beside their fields, and the registers and labels that stand in them.

use crate::forms::{Field, Form, Kind, fields_after, form_of};
use crate::text::words_of;
use rv_base::{MachLabel, OutOfMemory, PReg, Reg, RegClass};
use rv_listing::Token;
use std::alloc::Global;

/// A line of a form: its name, its fields, and a word for each.
#[derive(Drop)]
pub(crate) struct Parts<'a> {
    pub name: &'static str,
    pub fields: &'static [Field],
    pub words: Vec<&'a str>,
}

/// A line by its form.
pub(crate) fn parts_of(alloc: Global, line: &str) -> Result<Parts<'_>, OutOfMemory> {
    let form = form_of(line).unwrap_or(Form("", &[]));
    let words = words_of(alloc, fields_after(form, line))?;
    Ok(Parts {
        name: form.0,
        fields: form.1,
        words,
    })
}

/// The word of the first field of this name, or nothing.
pub(crate) fn word_named<'a>(parts: &Parts<'a>, name: &str) -> &'a str {
    for (field, word) in parts.fields.iter().zip(parts.words.iter()) {
        if field.0 == name {
            return word;
        }
    }
    ""
}

/// The word of the first field of this kind, or nothing.
pub(crate) fn word_of<'a>(parts: &Parts<'a>, kind: Kind) -> &'a str {
    for (field, word) in parts.fields.iter().zip(parts.words.iter()) {
        if field.1 == kind {
            return word;
        }
    }
    ""
}

/// The operation of a name.
pub(crate) fn read<T: Token>(word: &str) -> Option<T> {
    T::read(word.as_bytes())
}

/// The register that a word is.
pub(crate) fn register(word: &str) -> Option<Reg> {
    Reg::read(word.as_bytes())
}

/// The class of the register that a word is.
pub(crate) fn class_of(word: &str) -> Option<RegClass> {
    register(word).map(|reg| reg.class())
}

/// Returns whether two words are one register.
pub(crate) fn is_same(first: &str, second: &str) -> bool {
    match (register(first), register(second)) {
        (Some(first), Some(second)) => first == second,
        _ => false,
    }
}

/// The number of the integer register that a word is.
pub(crate) fn integer_number(word: &str) -> Option<u8> {
    match register(word)? {
        Reg::Real(
            PReg {
                class: RegClass::Int,
                number,
            },
        ) => Some(number),
        _ => None,
    }
}

/// Returns whether a word is x0.
pub(crate) fn is_zero(word: &str) -> bool {
    integer_number(word) == Some(0)
}

/// Returns whether a word is sp.
pub(crate) fn is_stack(word: &str) -> bool {
    integer_number(word) == Some(2)
}

/// The number of the label that a word is.
pub(crate) fn label_number(word: &str) -> Option<u32> {
    MachLabel::read(word.as_bytes()).map(|label| label.number)
}

/// Returns whether words of a kind name registers that the line writes or reads; those that a callee may write are of no account.
pub(crate) fn has_registers(kind: Kind) -> bool {
    match kind {
        Kind::Register(_, _) | Kind::Value(_) | Kind::Pairs | Kind::Results | Kind::Address => true,
        _ => false,
    }
}

/// Returns whether words of a kind name labels.
pub(crate) fn has_labels(kind: Kind) -> bool {
    match kind {
        Kind::Label | Kind::Target | Kind::Table | Kind::Address | Kind::TryCall => true,
        _ => false,
    }
}

/// Returns whether a letter stands between the parts of a word.
pub(crate) fn is_between(c: char) -> bool {
    c == ',' || c == ':' || c == ';' || c == '@'
}
