//! What is asked of a listing, by the ending of a file's name.

use crate::headers::{constants_said, frame_said};
use crate::{accesses, atomics, calls, floats, sequences, symbols, tail_calls};
use case_files::{Asks, Case, CaseError};
use rv_base::Reg;
use rv_inst::{Inst, Job, Line, is_bad_frame_for};
use rv_listing::{ReadError, read_job, register};
use std::alloc::{AllocError, Global};

/// What is asked.
#[derive(Clone, Copy, Debug, PartialEq, Eq)]
pub(crate) enum Question {
    /// What the only line says.
    Line,
    /// What the line of a frame says.
    Frame,
    /// What the lines of constants say.
    Constants,
    /// How many lines there are.
    Count,
    /// The first rule that the first line breaks.
    Rule,
    /// Whether the first line is a tail call that can't take the frame away.
    Stuck,
    /// The class and the number of a register's name, which is no listing.
    Register,
}

/// What an instruction says, where it is of a form that is looked at.
fn instruction_said(alloc: Global, inst: &Inst) -> Result<String, AllocError> {
    if let Some(text) = accesses::said(alloc, inst)? {
        return Ok(text);
    }
    if let Some(text) = sequences::said(alloc, inst)? {
        return Ok(text);
    }
    if let Some(text) = floats::said(alloc, inst)? {
        return Ok(text);
    }
    if let Some(text) = atomics::said(alloc, inst)? {
        return Ok(text);
    }
    if let Some(text) = symbols::said(alloc, inst)? {
        return Ok(text);
    }
    if let Some(text) = tail_calls::said(alloc, inst)? {
        return Ok(text);
    }
    match calls::said(alloc, inst)? {
        Some(text) => Ok(text),
        None => String::from_str(alloc, "Other"),
    }
}

fn line_said(alloc: Global, lines: &[Line]) -> Result<String, AllocError> {
    match lines {
        [Line::Inst(inst)] => instruction_said(alloc, inst),
        _ => String::from_str(alloc, "Other"),
    }
}

fn rule_broken(alloc: Global, job: &Job) -> Result<String, AllocError> {
    let rule = match job.lines.as_slice() {
        [line, ..] => line.check(job.flags, &job.frame, job.constants.as_slice()),
        [] => None,
    };
    match rule {
        Some(rule) => format!(in alloc; "{rule:?}"),
        None => String::from_str(alloc, "none"),
    }
}

fn stuck(alloc: Global, job: &Job) -> Result<String, AllocError> {
    let is_stuck = match job.lines.as_slice() {
        [Line::Inst(inst), ..] => is_bad_frame_for(inst, &job.frame),
        _ => false,
    };
    String::from_str(alloc, if is_stuck { "stuck" } else { "free" })
}

fn register_named(alloc: Global, name: &str) -> Result<String, AllocError> {
    match register(name.as_bytes()) {
        Some(Reg::Real(real)) => format!(in alloc; "{:?} {}", real.class, real.number),
        Some(Reg::Virtual { class, index }) => format!(in alloc;
            "virtual {class:?} {}",
            index.value
        ),
        None => String::from_str(alloc, "none"),
    }
}

/// The answer of a listing that was read.
fn answer_of(alloc: Global, question: Question, job: &Job) -> Result<String, AllocError> {
    let lines = job.lines.as_slice();
    match question {
        Question::Line | Question::Register => line_said(alloc, lines),
        Question::Frame => frame_said(alloc, &job.frame),
        Question::Constants => constants_said(alloc, job.constants.as_slice()),
        Question::Count => format!(in alloc; "{} lines", lines.len()),
        Question::Rule => rule_broken(alloc, job),
        Question::Stuck => stuck(alloc, job),
    }
}

/// The answer of a text: of a listing with a line of no form, that line's number.
fn answered(alloc: Global, question: Question, text: &str) -> Result<String, AllocError> {
    if question == Question::Register {
        return register_named(alloc, text);
    }
    match read_job(alloc, text.as_bytes()) {
        Ok(job) => answer_of(alloc, question, &job),
        Err(ReadError::Syntax { line }) => format!(in alloc; "syntax {line}"),
        Err(ReadError::OutOfMemory) => String::from_str(alloc, "out of memory"),
    }
}

impl Asks for Question {
    fn of_ending(ending: &str) -> Option<Question> {
        match ending {
            "line" => Some(Question::Line),
            "frame" => Some(Question::Frame),
            "constants" => Some(Question::Constants),
            "count" => Some(Question::Count),
            "rule" => Some(Question::Rule),
            "stuck" => Some(Question::Stuck),
            "register" => Some(Question::Register),
            _ => None,
        }
    }

    fn is_of_blocks(self) -> bool {
        false
    }

    fn answer(self, rt: &HostRuntime, case: &Case) -> Result<String, CaseError> {
        Ok(answered(rt.alloc(), self, &case.given)?)
    }
}
