//! A line that is of no form, or stands where its form can't.

use crate::forms::{Field, Form, Kind, fields_after, form_of};
use crate::headers::{flags_reason, is_header, place_reason};
use crate::kinds::{form_of_operation, takes};
use crate::nearest::{Meant, nearest};
use crate::text::{as_text, at_line, line_of, name_of, quoted, words_of};
use crate::words::{field_reason, word_reason};
use rv_base::OutOfMemory;
use std::alloc::Global;

// ---- bytes and spaces

/// Returns whether a byte stands in no line; a comment has any of ASCII but CR.
fn is_foreign(is_comment: bool, byte: u8) -> bool {
    if is_comment {
        byte >= 128 || byte == b'\r'
    } else {
        byte >= 127 || byte < 32
    }
}

/// What is wrong with a byte at a column.
fn byte_reason(alloc: Global, byte: u8, column: usize) -> Result<String, OutOfMemory> {
    Ok(match byte {
        b'\r' => format!(in alloc; "a CR at column {column}; LF alone ends a line")?,
        b'\t' => format!(in alloc; "a tab at column {column}; single spaces separate words")?,
        _ if byte >= 128 => format!(in alloc;
            "the byte 0x{byte:02x} at column {column} is no ASCII"
        )?,
        _ => format!(in alloc; "the byte 0x{byte:02x} at column {column} stands in no word")?,
    })
}

/// What is wrong with the first byte that stands in no line.
fn bytes_reason(alloc: Global, line: &[u8]) -> Result<Option<String>, OutOfMemory> {
    let is_comment = line.first() == Some(&b'#');
    let mut column = 0usize;
    for byte in line {
        column = column.saturating_add(1);
        if is_foreign(is_comment, *byte) {
            return Ok(Some(byte_reason(alloc, *byte, column)?));
        }
    }
    Ok(None)
}

/// What is wrong with the spaces of a line.
fn spaces_reason(alloc: Global, line: &str) -> Result<Option<String>, OutOfMemory> {
    let reason = if line.starts_with(' ') {
        "a space stands before the first word"
    } else if line.ends_with(' ') {
        "a space stands after the last word"
    } else if line.contains("  ") {
        "two spaces stand in a row; single ones separate words"
    } else {
        return Ok(None);
    };
    Ok(Some(String::from_str(alloc, reason)?))
}

// ---- names

/// What is wrong with a name that begins no line.
fn name_reason(alloc: Global, name: &str) -> Result<String, OutOfMemory> {
    let word = quoted(alloc, name)?;
    if let Some(form) = form_of_operation(name) {
        return Ok(format!(in alloc; "{word} is no form of a line; {form} {name} is")?);
    }
    if let Some(label) = name.strip_suffix(':') {
        if takes(Kind::Label, label) {
            return Ok(format!(in alloc; "{word} is no form of a line; Bind {label} is")?);
        }
    }
    Ok(match nearest(alloc, Meant::Name, name)? {
        Some(near) => format!(in alloc; "{word} is no form of a line; {near} is")?,
        None => format!(in alloc; "{word} is no form of a line")?,
    })
}

// ---- fields

/// The names of fields, each after a space.
fn names_of(alloc: Global, fields: &[Field]) -> Result<String, OutOfMemory> {
    if fields.is_empty() {
        return Ok(String::from_str(alloc, " no words")?);
    }
    let mut names = String::new(alloc);
    for Field(name, _) in fields {
        names.push(' ')?;
        names.push_str(name)?;
    }
    Ok(names)
}

/// What is wrong with a line that has another number of words than its form.
fn count_reason(alloc: Global, form: Form, count: usize) -> Result<String, OutOfMemory> {
    let Form(name, fields) = form;
    let names = names_of(alloc, fields)?;
    let words = if count == 1 { "word" } else { "words" };
    let after = if name.contains(' ') {
        "these"
    } else {
        "its name"
    };
    Ok(format!(in alloc; "{name} takes{names}, and this line has {count} {words} after {after}")?)
}

/// What is wrong with the step of an `Unwind`.
fn step_reason(alloc: Global, rest: &str) -> Result<String, OutOfMemory> {
    match name_of(rest) {
        "" => Ok(String::from_str(
            alloc,
            "Unwind takes a step: push N, frame N N, alloc N or save N R",
        )?),
        step => word_reason(alloc, Kind::Step, step),
    }
}

/// What is wrong with the fields of a line of a form.
fn fields_reason(alloc: Global, form: Form, line: &str) -> Result<String, OutOfMemory> {
    let Form(name, fields) = form;
    let rest = fields_after(form, line);
    if name == "Unwind" {
        return step_reason(alloc, rest);
    }
    let words = words_of(alloc, rest)?;
    if words.len() != fields.len() {
        return count_reason(alloc, form, words.len());
    }
    for (Field(_, kind), word) in fields.iter().zip(words.iter()) {
        if !takes(*kind, word) {
            return field_reason(alloc, *kind, word);
        }
    }
    Ok(String::from_str(alloc, "this is no line of a listing")?)
}

// ---- lines

/// What is wrong with a line of single spaces.
fn words_reason(
    alloc: Global,
    text: &[u8],
    number: usize,
    line: &str,
) -> Result<String, OutOfMemory> {
    if line.contains(" #") {
        return Ok(String::from_str(
            alloc,
            "a comment stands after words; it takes a line of its own",
        )?);
    }
    let name = name_of(line);
    if is_header(name) {
        if let Some(reason) = place_reason(alloc, text, number, name)? {
            return Ok(reason);
        }
    }
    if name == "flags" {
        return flags_reason(alloc, line);
    }
    match form_of(line) {
        Some(form) => fields_reason(alloc, form, line),
        None => name_reason(alloc, name),
    }
}

fn line_reason(
    alloc: Global,
    text: &[u8],
    number: usize,
    line: &[u8],
) -> Result<String, OutOfMemory> {
    if let Some(reason) = bytes_reason(alloc, line)? {
        return Ok(reason);
    }
    let line = as_text(line);
    if let Some(reason) = spaces_reason(alloc, line)? {
        return Ok(reason);
    }
    words_reason(alloc, text, number, line)
}

/// What is wrong with the line of a text, by its number, from 1, that is no line of a listing there.
pub fn explain_syntax(alloc: Global, text: &[u8], line: usize) -> Result<String, OutOfMemory> {
    let reason = line_reason(alloc, text, line, line_of(text, line))?;
    at_line(alloc, line, &reason)
}
