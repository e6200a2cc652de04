//! Goes through calls of `rvemit` over listings that have no code, with what each says to the person who called.
#![tactic(auto)]

use case_files::{
    Asks, Case, CaseError, Cases, first_line, first_word, go_through_file, run_cases, words_of,
};
use rv_command::{Ending, run_explained};
use rv_stream::{SureSink, SureSource};
use std::alloc::{AllocError, Global};
use std::process::ExitCode;

/// What a call with these words over a listing says, and nothing where it says none.
fn said(alloc: Global, words: &[String], listing: &str) -> Result<String, AllocError> {
    let mut source = SureSource::new(listing.as_bytes());
    let Ending { outcome: _, note } = run_explained(
        alloc,
        words,
        &mut source,
        &mut SureSink::new(alloc),
    );
    match note {
        Some(note) => Ok(note),
        None => String::from_str(alloc, "nothing"),
    }
}

/// What a call of a command says over the listing in the lines after it, as a line.
fn said_of_command(alloc: Global, given: &str) -> Result<String, AllocError> {
    let (command, listing) = first_line(given);
    let (_, words) = first_word(command);
    let words = words_of(alloc, words)?;
    let mut text = said(alloc, &words, listing)?;
    text.push('\n')?;
    Ok(text)
}

/// What is given.
#[derive(Clone, Copy)]
enum Question {
    /// A listing.
    Listing,
    /// A command, in a line before its listing.
    Command,
}

impl Asks for Question {
    fn of_ending(ending: &str) -> Option<Question> {
        match ending {
            "rows" => Some(Question::Listing),
            "commands" => Some(Question::Command),
            _ => None,
        }
    }

    fn is_of_blocks(self) -> bool {
        match self {
            Question::Listing => false,
            Question::Command => true,
        }
    }

    fn answer(self, rt: &HostRuntime, case: &Case) -> Result<String, CaseError> {
        let alloc = rt.alloc();
        Ok(match self {
            Question::Listing => said(alloc, &[], &case.given)?,
            Question::Command => said_of_command(alloc, &case.given)?,
        })
    }
}

/// Calls with a mistake each.
struct Mistakes;

impl Cases for Mistakes {
    fn go_through(&self, rt: &HostRuntime, path: &str) -> Result<u32, CaseError> {
        go_through_file::<Question>(rt, path)
    }
}

fn main(rt: HostRuntime) -> ExitCode {
    run_cases(&rt, &Mistakes)
}
