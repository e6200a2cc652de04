//! `rvdis`: writes the code of standard input as lines of text, an instruction each; or, of such lines, the code.
#![tactic(auto)]

ghost use Rattle.std.specs.Prelude.{◌≡◌};
ghost use Rattle.std.specs.Process.{exit_status};
ghost use Rattle.rvdis.specs.Ending.{status_of};

mod failure;
mod listed;
mod making;
mod passed;
mod words;

use failure::Failure;
use listed::listed_output;
use making::{Given, MakeError, output_of};
use passed::say_passed;
use rv_base::{List, OutOfMemory};
use rv_explain::refusal_of;
use rv_inst::Job;
use rv_listing::{ReadError, read_job};
use rv_program::command_words;
use rv_stream::{ReadAllError, StdSink, StdSource, WriteError, read_all, write_all};
use std::fs;
use std::process::ExitCode;
use words::given_by;

fn input_of(rt: &HostRuntime) -> Result<Vec<u8>, Failure> {
    match read_all(rt.alloc(), &mut StdSource::new(rt.stdin())) {
        Ok(input) => Ok(input),
        Err(ReadAllError::Failed) => Err(Failure::Read),
        Err(ReadAllError::TooLong) => Err(Failure::TooLong),
        Err(ReadAllError::OutOfMemory) => Err(Failure::OutOfMemory),
    }
}

fn write(rt: &HostRuntime, bytes: &[u8]) -> Result<(), Failure> {
    match write_all(&mut StdSink::new(rt.stdout()), bytes) {
        Ok(()) => Ok(()),
        Err(WriteError::Failed) => Err(Failure::Write),
        Err(WriteError::OutOfMemory) => Err(Failure::OutOfMemory),
    }
}

// The failure of an input, which may be the line with which `rvemit` refuses.
fn passed_on(rt: &HostRuntime, input: &[u8], error: MakeError) -> Result<Failure, OutOfMemory> {
    match (error, refusal_of(input)) {
        (MakeError::OutOfMemory, _) | (_, None) => Ok(Failure::from(error)),
        (_, Some(line)) => Ok(Failure::Refused {
            line: String::from_str(rt.alloc(), line)?,
        }),
    }
}

// The job of the listing in a file.
fn job_in(rt: &HostRuntime, path: String) -> Result<Job, Failure> {
    let Ok(text) = fs::read_to_string(rt, &path) else {
        return Err(Failure::ListingFile { path });
    };
    match read_job(rt.alloc(), text.as_bytes()) {
        Ok(job) => Ok(job),
        Err(ReadError::Syntax { line }) => Err(Failure::Listing { line }),
        Err(ReadError::OutOfMemory) => Err(Failure::OutOfMemory),
    }
}

fn made_of(
    rt: &HostRuntime,
    given: &Given,
    listing: Option<String>,
    input: &[u8],
) -> Result<Result<List<u8>, MakeError>, Failure> {
    match listing {
        Some(path) => {
            let job = job_in(rt, path)?;
            Ok(listed_output(rt.alloc(), given, job.lines.as_slice(), input))
        }
        None => Ok(output_of(rt.alloc(), given, input)),
    }
}

fn run(rt: &HostRuntime) -> Result<(), Failure> {
    let words = command_words(rt)?;
    let (given, listing) = given_by(rt.alloc(), &words)?;
    let input = input_of(rt)?;
    if given.is_reasm {
        say_passed(rt, &input);
    }
    match made_of(rt, &given, listing, &input)? {
        Ok(bytes) => write(rt, bytes.as_slice()),
        Err(error) => Err(passed_on(rt, &input, error)?),
    }
}

fn exit(failure: &Failure) -> ExitCode
    ensures { exit_status result ≡ status_of failure.now }
{
    ExitCode::from(failure.status())
}

fn main(rt: HostRuntime) -> ExitCode {
    match run(&rt) {
        Ok(()) => ExitCode::SUCCESS,
        Err(failure) => {
            failure.show(&rt);
            exit(&failure)
        }
    }
}
