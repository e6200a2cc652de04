//! Cases of several lines each. A line `== NAME` begins one; after it stands what is given, up to a line `-- STATUS`, or `--` where
//! there is none; and then what must come
//! of it. What stands before the first says what the cases try.

use crate::error::CaseError;
use crate::rows::{Case, add};
use crate::words::first_line;
use std::alloc::{AllocError, Global};

/// A text with a line feed at its end, unless it is empty.
fn with_end(alloc: Global, lines: &str) -> Result<String, AllocError> {
    let mut text = String::from_str(alloc, lines)?;
    if !text.is_empty() {
        text.push('\n')?;
    }
    Ok(text)
}

/// The answer: the status, if there is one, a space, and the text.
fn answer_of(alloc: Global, tail: &str) -> Result<String, AllocError> {
    let (status, text) = first_line(tail);
    let text = with_end(alloc, text)?;
    let status = status.trim_start();
    if status.is_empty() {
        return Ok(text);
    }
    format!(in alloc; "{status} {text}")
}

/// The case of a block.
fn case_of(alloc: Global, path: &str, block: &str) -> Result<Case, CaseError> {
    let Some((head, tail)) = block.split_once("\n--") else {
        return Err(CaseError::Form {
            text: format!(in alloc; "{path}: a case without an answer: {block}")?,
        });
    };
    let (name, given) = first_line(head);
    Ok(Case {
        name: format!(in alloc; "{path}: {name}")?,
        given: with_end(alloc, given)?,
        answer: answer_of(alloc, tail)?,
    })
}

/// The cases of a file of blocks, by its path and its text.
pub fn blocks_of(alloc: Global, path: &str, text: &str) -> Result<Vec<Case>, CaseError> {
    let mut cases = Vec::new(alloc);
    let lines = text.strip_suffix('\n').unwrap_or(text);
    for block in lines.split("\n== ").skip(1) {
        add(&mut cases, case_of(alloc, path, block)?)?;
    }
    Ok(cases)
}
