//! Goes through code that runs on the machine: whole calls of rvrun, code whose relocations are filled, loops that count, and calls by hand
//! with arguments that no listing gives.
#![tactic(auto)]

mod bench;
mod by_hand;
mod calls;
mod compiler;
mod counts;
mod error;
mod generators;
mod linked;
mod loaded;
mod numbers;
mod placed;
mod requests;
mod script;
mod settings;
mod stops;

use case_files::{Asks, Case, CaseError, Cases, ending_of, go_through_file, run_cases};
use error::told;
use std::process::ExitCode;

/// What a case is, by the ending of a file's name.
#[derive(Clone, Copy)]
enum Question {
    /// A call of rvrun with words.
    Run,
    /// A call of rvrun without words, over a report.
    Report,
    /// Code that is placed and linked.
    Linked,
    /// The parts of a distance.
    Parts,
    /// The digest of what a line leaves of many numbers.
    Counts,
    /// What calls by hand give.
    ByHand,
}

impl Asks for Question {
    fn of_ending(ending: &str) -> Option<Question> {
        match ending {
            "runs" => Some(Question::Run),
            "rows" => Some(Question::Report),
            "linked" => Some(Question::Linked),
            "parts" => Some(Question::Parts),
            "counts" => Some(Question::Counts),
            "calls" => Some(Question::ByHand),
            _ => None,
        }
    }

    fn is_of_blocks(self) -> bool {
        match self {
            Question::Run | Question::Linked | Question::ByHand => true,
            Question::Report | Question::Parts | Question::Counts => false,
        }
    }

    fn answer(self, rt: &HostRuntime, case: &Case) -> Result<String, CaseError> {
        let given = case.given.as_str();
        match self {
            Question::Run => calls::commanded(rt, given),
            Question::Report => Ok(calls::called(rt.alloc(), "", given)?),
            Question::Linked => script::played(rt, given),
            Question::Parts => Ok(linked::parts_text(rt.alloc(), given)?),
            Question::Counts => counts::digest_text(rt.alloc(), given),
            Question::ByHand => told(rt.alloc(), by_hand::called(rt.alloc(), given)),
        }
    }
}

/// Whether a file is read by cases, and holds none.
fn is_input(ending: &str) -> bool {
    matches!(ending, "report" | "hex" | "lst")
}

/// Runs of code.
struct Runs;

impl Cases for Runs {
    fn go_through(&self, rt: &HostRuntime, path: &str) -> Result<u32, CaseError> {
        let (_, ending) = ending_of(path);
        if is_input(ending) {
            return Ok(0);
        }
        go_through_file::<Question>(rt, path)
    }
}

fn main(rt: HostRuntime) -> ExitCode {
    run_cases(&rt, &Runs)
}
