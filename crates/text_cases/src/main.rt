//! Goes through lines of listings with the texts of their instructions, and through generated jobs with those of theirs. It stands on no
//! emission.
#![tactic(auto)]

mod generators;
mod summaries;

use case_files::{Asks, Case, CaseError, Cases, go_through_file, run_cases};
use rv_base::OutOfMemory;
use rv_gen::gen_job;
use rv_inst::{Job, Line};
use rv_listing::{ReadError, read_job};
use rv_text::{ToText, texts};
use std::alloc::{AllocError, Global};
use std::process::ExitCode;

/// What is asked, by the ending of a file's name.
#[derive(Clone, Copy)]
enum Question {
    /// The text of the only line.
    Text,
    /// The texts of a listing's instructions.
    Texts,
    /// The texts of the job of a number.
    Job,
    /// The summary of a code of three bytes.
    Summary,
    /// What a generator of instructions gives.
    Generated,
}

/// The text of the first line of a job.
fn text_of_first(alloc: Global, job: &Job) -> Result<String, OutOfMemory> {
    match job.lines.as_slice().first() {
        Some(Line::Inst(inst)) => inst.to_text(alloc),
        Some(Line::Bind(_)) | None => Ok(String::from_str(alloc, "no instruction")?),
    }
}

fn texts_of(alloc: Global, job: &Job) -> Result<String, OutOfMemory> {
    let bytes = texts(alloc, job.lines.as_slice())?;
    Ok(String::from_utf8_lossy(alloc, &bytes)?)
}

/// The texts of the job of a number.
fn texts_of_job(alloc: Global, given: &str) -> Result<String, OutOfMemory> {
    let number = given.trim().parse::<u64>().unwrap_or(0);
    let job = gen_job(alloc, number)?;
    texts_of(alloc, &job)
}

/// The text of a listing's first line, or the texts of all its instructions.
fn texts_read(alloc: Global, is_whole: bool, given: &str) -> Result<String, OutOfMemory> {
    match read_job(alloc, given.as_bytes()) {
        Ok(job) if is_whole => texts_of(alloc, &job),
        Ok(job) => text_of_first(alloc, &job),
        Err(ReadError::Syntax { line }) => Ok(format!(in alloc; "no listing: line {line}")?),
        Err(ReadError::OutOfMemory) => Err(OutOfMemory),
    }
}

fn answered(alloc: Global, question: Question, given: &str) -> Result<String, OutOfMemory> {
    match question {
        Question::Text => texts_read(alloc, false, given),
        Question::Texts => texts_read(alloc, true, given),
        Question::Job => texts_of_job(alloc, given),
        Question::Summary => summaries::summed(alloc, given),
        Question::Generated => generators::generated(alloc, given),
    }
}

impl Asks for Question {
    fn of_ending(ending: &str) -> Option<Question> {
        match ending {
            "text" => Some(Question::Text),
            "texts" => Some(Question::Texts),
            "job" => Some(Question::Job),
            "summary" => Some(Question::Summary),
            "generated" => Some(Question::Generated),
            _ => None,
        }
    }

    fn is_of_blocks(self) -> bool {
        match self {
            Question::Text | Question::Summary | Question::Generated => false,
            Question::Texts | Question::Job => true,
        }
    }

    fn answer(self, rt: &HostRuntime, case: &Case) -> Result<String, CaseError> {
        match answered(rt.alloc(), self, &case.given) {
            Ok(text) => Ok(text),
            Err(OutOfMemory) => Err(CaseError::OutOfMemory(AllocError)),
        }
    }
}

/// Questions about texts.
struct Texts;

impl Cases for Texts {
    fn go_through(&self, rt: &HostRuntime, path: &str) -> Result<u32, CaseError> {
        go_through_file::<Question>(rt, path)
    }
}

fn main(rt: HostRuntime) -> ExitCode {
    run_cases(&rt, &Texts)
}
