//! Goes through words with what they are decoded to, what a step of the machine does with them, and their texts.
#![tactic(auto)]

mod decoding;
mod flags;
mod halves;
mod lines;
mod steps;
mod texts;

use case_files::{Asks, Case, CaseError, Cases, go_through_file, run_cases};
use rv_base::OutOfMemory;
use std::alloc::{AllocError, Global};
use std::process::ExitCode;

/// What is asked of a word, by the ending of a file's name.
#[derive(Clone, Copy)]
enum Question {
    /// What a2 has after a step.
    Step,
    /// What a2 has after a load.
    Load,
    /// Which bytes stand there after a store.
    Store,
    /// What it is decoded to.
    Decoded,
    /// The text of what a halfword expands to.
    Half,
    /// The digest of the texts of all halfwords.
    Digest,
    /// Its text, read back.
    Text,
    /// The word of a text.
    Read,
    /// The lines of code, read back.
    Dump,
    /// The code of lines.
    Undump,
}

/// What comes of what is given.
fn answered(alloc: Global, question: Question, given: &str) -> Result<String, OutOfMemory> {
    match question {
        Question::Step => steps::stepped(alloc, given),
        Question::Load => steps::loaded(alloc, given),
        Question::Store => steps::stored(alloc, given),
        Question::Decoded => decoding::decoded(alloc, given),
        Question::Half => halves::expanded(alloc, given),
        Question::Digest => halves::digest(alloc, given),
        Question::Text => texts::shown(alloc, given),
        Question::Read => texts::read(alloc, given),
        Question::Dump => lines::dumped(alloc, given),
        Question::Undump => lines::undumped(alloc, given),
    }
}

impl Asks for Question {
    fn of_ending(ending: &str) -> Option<Question> {
        match ending {
            "step" => Some(Question::Step),
            "load" => Some(Question::Load),
            "store" => Some(Question::Store),
            "decoded" => Some(Question::Decoded),
            "half" => Some(Question::Half),
            "digest" => Some(Question::Digest),
            "text" => Some(Question::Text),
            "read" => Some(Question::Read),
            "dump" => Some(Question::Dump),
            "undump" => Some(Question::Undump),
            _ => None,
        }
    }

    fn is_of_blocks(self) -> bool {
        false
    }

    fn answer(self, rt: &HostRuntime, case: &Case) -> Result<String, CaseError> {
        match answered(rt.alloc(), self, &case.given) {
            Ok(text) => Ok(text),
            Err(OutOfMemory) => Err(CaseError::OutOfMemory(AllocError)),
        }
    }
}

/// Questions about words.
struct Words;

impl Cases for Words {
    fn go_through(&self, rt: &HostRuntime, path: &str) -> Result<u32, CaseError> {
        go_through_file::<Question>(rt, path)
    }
}

fn main(rt: HostRuntime) -> ExitCode {
    run_cases(&rt, &Words)
}
