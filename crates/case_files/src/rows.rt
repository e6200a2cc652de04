//! Cases of a line each: `GIVEN => ANSWER`. In both parts `\n` stands for a line feed, `\r` for a carriage return, `\0` for a byte 0, `\s` for
//! a space and `\\` for a backslash. A line that begins with `#` says what the rows below it try; an empty one says nothing.

use crate::error::CaseError;
use std::alloc::{AllocError, Global};

/// What is given, and the answer that it must have.
#[derive(Drop)]
pub struct Case {
    /// The file, and what it says of the case.
    pub name: String,
    pub given: String,
    pub answer: String,
}

/// What the letter after a backslash stands for.
fn escaped(letter: char) -> char {
    match letter {
        'n' => '\n',
        'r' => '\r',
        's' => ' ',
        '0' => '\0',
        other => other,
    }
}

/// The text that a part of a row stands for.
fn unescaped(alloc: Global, part: &str) -> Result<String, AllocError> {
    let mut text = String::new(alloc);
    let mut is_escaped = false;
    for letter in part.chars() {
        if is_escaped {
            text.push(escaped(letter))?;
            is_escaped = false;
        } else if letter == '\\' {
            is_escaped = true;
        } else {
            text.push(letter)?;
        }
    }
    Ok(text)
}

/// The case of a line.
fn case_of(alloc: Global, path: &str, line: &str) -> Result<Case, CaseError> {
    let Some((given, answer)) = line.split_once(" => ") else {
        return Err(CaseError::Form {
            text: format!(in alloc; "{path}: no row: {line}")?,
        });
    };
    Ok(Case {
        name: format!(in alloc; "{path}: {line}")?,
        given: unescaped(alloc, given)?,
        answer: unescaped(alloc, answer)?,
    })
}

/// Adds a case.
pub(crate) fn add(cases: &mut Vec<Case>, case: Case) -> Result<(), AllocError> {
    cases.push(case)?;
    Ok(())
}

/// The cases of a file of rows, by its path and its text.
pub fn rows_of(alloc: Global, path: &str, text: &str) -> Result<Vec<Case>, CaseError> {
    let mut cases = Vec::new(alloc);
    for line in text.lines() {
        if !line.is_empty() && !line.starts_with('#') {
            add(&mut cases, case_of(alloc, path, line)?)?;
        }
    }
    Ok(cases)
}
