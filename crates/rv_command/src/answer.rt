//! What a call has to write, and how it ends once that is written.

ghost use Rattle.std.specs.Prelude.{◌≡◌, ◌≢◌, None, IfOk};
ghost use Rattle.rv_inst.specs.declared.error.EmitError.TheVariants as errors;
ghost use Rattle.rv_asm.specs.Refusal.{refusal};
ghost use Rattle.rv_command.specs.declared.outcome.Outcome.TheVariants as ends;
ghost use Rattle.rv_command.specs.Outcomes.{wanted, usage_line, too_long_line, syntax_line, error_line, Means, MeansInput, Is};

use crate::outcome::{Outcome, error_line, syntax_line, too_long_line, usage_line};
use crate::words::Request;
use rv_asm::{assemble_checked, check_lines};
use rv_base::{List, OutOfMemory};
use rv_explain::{explain_refusal, explain_syntax};
use rv_gen::summary;
use rv_inst::{Code, EmitError, Job};
use rv_listing::{ReadError, read_job, report, report_with};
use rv_text::texts;
use std::alloc::Global;

#[derive(Drop)]
pub struct Answer {
    pub outcome: Outcome,
    pub text: List<u8>,
    /// What to mend, for the person who called. It is left out where there is no memory for it.
    pub note: Option<String>,
}

/// What to mend where the words are none of the command's.
const USAGE_NOTE: &str =
    "the words are none, --text, or --gen N with N from 0 to 18446744073709551615; a listing is read from standard input";

/// What to mend where the input is too long.
const TOO_LONG_NOTE: &str = "the listing has more than 16777216 bytes";

pub(crate) fn usage(alloc: Global) -> Result<Answer, OutOfMemory>
    ensures { IfOk result (Is ends.Usage usage_line) }
{
    Ok(Answer {
        outcome: Outcome::Usage,
        text: List::from_vec(usage_line(alloc)?),
        note: String::from_str(alloc, USAGE_NOTE).ok(),
    })
}

pub(crate) fn too_long(alloc: Global) -> Result<Answer, OutOfMemory>
    ensures { IfOk result (Is ends.TooLong too_long_line) }
{
    Ok(Answer {
        outcome: Outcome::TooLong,
        text: List::from_vec(too_long_line(alloc)?),
        note: String::from_str(alloc, TOO_LONG_NOTE).ok(),
    })
}

fn syntax(alloc: Global, input: &[u8], line: usize) -> Result<Answer, OutOfMemory>
    ensures { IfOk result (Is (ends.Syntax line) (syntax_line line)) }
{
    Ok(Answer {
        outcome: Outcome::Syntax { line },
        text: List::from_vec(syntax_line(alloc, line)?),
        note: explain_syntax(alloc, input, line).ok(),
    })
}

/// What is wrong with a listing that is refused; of a generated job nothing is said.
fn refusal_note(alloc: Global, input: &Option<Vec<u8>>, error: &EmitError) -> Option<String> {
    match input {
        Some(input) => explain_refusal(alloc, input, error).ok(),
        None => None,
    }
}

fn refused(alloc: Global, input: &Option<Vec<u8>>, error: EmitError) -> Result<Answer, OutOfMemory>
    ensures { IfOk result (λ answer. (error ≢ errors.OutOfMemory) × Is (ends.Refused error) (error_line error) answer) }
{
    match error {
        EmitError::OutOfMemory => Err(OutOfMemory),
        error => {
            let text = List::from_vec(error_line(alloc, &error)?);
            let note = refusal_note(alloc, input, &error);
            Ok(Answer {
                outcome: Outcome::Refused { error },
                text,
                note,
            })
        }
    }
}

/// The text of a job's code. The memory of the job is given back before it is made.
fn wanted(alloc: Global, request: Request, job: Job, code: &Code) -> Result<Vec<u8>, OutOfMemory>
    ensures { IfOk result (λ text. text.items ≡ wanted request job code.now) }
{
    match request {
        Request::Listing { texts: false } => {
            drop(job);
            report(alloc, code)
        }
        Request::Listing { texts: true } => {
            let texts = texts(alloc, job.lines.as_slice())?;
            drop(job);
            report_with(alloc, code, &texts)
        }
        Request::Generated { number } => {
            drop(job);
            summary(alloc, number, code)
        }
    }
}

fn done(alloc: Global, request: Request, job: Job, code: Code) -> Result<Answer, OutOfMemory>
    ensures { IfOk result (Is (ends.Done code) (wanted request job code)) }
{
    let text = List::from_vec(wanted(alloc, request, job, &code)?);
    Ok(Answer {
        outcome: Outcome::Done { code },
        text,
        note: None,
    })
}

/// The answer to a job that isn't refused.
fn answer_of_accepted(alloc: Global, request: Request, job: Job) -> Result<Answer, OutOfMemory>
    requires { refusal job ≡ None }
    ensures { IfOk result (λ answer. Means request job answer.outcome answer.text) }
{
    let code = assemble_checked(
        alloc,
        job.lines.as_slice(),
        job.flags,
        &job.frame,
        job.constants.as_slice(),
    )?;
    done(alloc, request, job, code)
}

/// The answer to a job that is asked for so, which was read from this input, or is a generated one. The input is kept until it is known
/// whether the job is refused.
pub(crate) fn answer_of_job(
    alloc: Global,
    request: Request,
    job: Job,
    input: Option<Vec<u8>>,
) -> Result<Answer, OutOfMemory>
    ensures { IfOk result (λ answer. Means request job answer.outcome answer.text) }
{
    match check_lines(
        alloc,
        job.lines.as_slice(),
        job.flags,
        &job.frame,
        job.constants.as_slice(),
    ) {
        Ok(()) => {
            drop(input);
            answer_of_accepted(alloc, request, job)
        }
        Err(error) => refused(alloc, &input, error),
    }
}

/// The answer to an input.
pub(crate) fn answer_of_input(
    alloc: Global,
    request: Request,
    input: Vec<u8>,
) -> Result<Answer, OutOfMemory>
    ensures { IfOk result (λ answer. MeansInput request input.items answer.outcome answer.text) }
{
    let job = match read_job(alloc, &input) {
        Ok(job) => job,
        Err(ReadError::Syntax { line }) => return syntax(alloc, &input, line),
        Err(ReadError::OutOfMemory) => return Err(OutOfMemory),
    };
    answer_of_job(alloc, request, job, Some(input))
}
