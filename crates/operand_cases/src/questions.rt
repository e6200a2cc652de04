//! What is asked of an instruction, by the ending of a file's name.

use crate::constraints::asked;
use crate::facts::fact;
use crate::roles::{classes, roles};
use case_files::{Asks, Case, CaseError};
use rv_inst::{Inst, Line};
use rv_listing::read_job;
use std::alloc::{AllocError, Global};

/// What is asked of the first line of a listing.
#[derive(Clone, Copy, Debug, PartialEq, Eq)]
pub(crate) enum Question {
    /// Its constraints.
    Operands,
    /// What it is to a back end.
    Roles,
    /// The registers of its type, where it is a move.
    Classes,
    /// A fact of all instructions by its name, which is no listing.
    Facts,
}

fn of_instruction(
    alloc: Global,
    question: Question,
    inst: &mut Inst,
) -> Result<String, AllocError> {
    match question {
        Question::Operands => asked(alloc, inst),
        Question::Roles => roles(alloc, inst),
        Question::Classes => match inst {
            Inst::Mov { rd: _, rm: _, ty } => classes(alloc, *ty),
            _ => String::from_str(alloc, "no move"),
        },
        Question::Facts => String::from_str(alloc, "no fact"),
    }
}

/// The answer to a question about a listing of one line.
fn answered(alloc: Global, question: Question, listing: &str) -> Result<String, AllocError> {
    if question == Question::Facts {
        return fact(alloc, listing);
    }
    let Ok(job) = read_job(alloc, listing.as_bytes()) else {
        return String::from_str(alloc, "unread");
    };
    match job.lines.into_vec().pop() {
        Some(Line::Inst(mut inst)) => of_instruction(alloc, question, &mut inst),
        _ => String::from_str(alloc, "no instruction"),
    }
}

impl Asks for Question {
    fn of_ending(ending: &str) -> Option<Question> {
        match ending {
            "operands" => Some(Question::Operands),
            "roles" => Some(Question::Roles),
            "classes" => Some(Question::Classes),
            "facts" => Some(Question::Facts),
            _ => None,
        }
    }

    fn is_of_blocks(self) -> bool {
        false
    }

    fn answer(self, rt: &HostRuntime, case: &Case) -> Result<String, CaseError> {
        Ok(answered(rt.alloc(), self, &case.given)?)
    }
}
