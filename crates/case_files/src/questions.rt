//! Files whose cases all ask the same.

use crate::blocks::blocks_of;
use crate::error::{CaseError, expect_text};
use crate::folders::read;
use crate::rows::{Case, rows_of};

/// What a file asks of each of its cases.
pub trait Asks: Copy {
    /// What the files with an ending ask.
    fn of_ending(ending: &str) -> Option<Self>;

    /// Whether the cases are blocks, and not rows.
    fn is_of_blocks(self) -> bool;

    /// What comes of a case.
    fn answer(self, rt: &HostRuntime, case: &Case) -> Result<String, CaseError>;
}

/// The ending of a path, and what stands before it.
pub fn ending_of(path: &str) -> (&str, &str) {
    path.rsplit_once('.').unwrap_or((path, ""))
}

/// What a file asks, by the ending of its name.
fn question_of<Q: Asks>(rt: &HostRuntime, path: &str) -> Result<Q, CaseError> {
    let (_, ending) = ending_of(path);
    match Q::of_ending(ending) {
        Some(question) => Ok(question),
        None => Err(CaseError::Form {
            text: format!(in rt.alloc(); "{path}: no file of cases")?,
        }),
    }
}

/// The cases of a file.
fn cases_of<Q: Asks>(rt: &HostRuntime, question: Q, path: &str) -> Result<Vec<Case>, CaseError> {
    let text = read(rt, path)?;
    if question.is_of_blocks() {
        blocks_of(rt.alloc(), path, &text)
    } else {
        rows_of(rt.alloc(), path, &text)
    }
}

/// Fails unless the answer comes of a case.
fn expect_answer<Q: Asks>(rt: &HostRuntime, question: Q, case: &Case) -> Result<(), CaseError> {
    let got = question.answer(rt, case)?;
    expect_text(rt.alloc(), &case.name, &case.answer, &got)
}

/// Goes through the cases of a file, and returns how many there are.
pub fn go_through_file<Q: Asks>(rt: &HostRuntime, path: &str) -> Result<u32, CaseError> {
    let question = question_of::<Q>(rt, path)?;
    let mut count = 0u32;
    for case in &cases_of(rt, question, path)? {
        expect_answer(rt, question, case)?;
        count = count.saturating_add(1);
    }
    Ok(count)
}
