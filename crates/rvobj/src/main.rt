//! `rvobj`: makes of a report from standard input a relocatable object for RV64, and writes it to standard output.
#![tactic(auto)]

ghost use Rattle.std.specs.Prelude.{◌≡◌};
ghost use Rattle.std.specs.Process.{exit_status};
ghost use Rattle.rvobj.specs.Ending.{status_of};

mod failure;
mod floats;
mod making;
mod words;

use failure::Failure;
use making::{MakeError, object_bytes};
use rv_base::OutOfMemory;
use rv_explain::refusal_of;
use rv_program::command_words;
use rv_stream::{ReadAllError, StdSink, StdSource, WriteError, read_all, write_all};
use std::process::ExitCode;
use words::given_by;

fn input_of(rt: &HostRuntime) -> Result<Vec<u8>, Failure> {
    match read_all(rt.alloc(), &mut StdSource::new(rt.stdin())) {
        Ok(input) => Ok(input),
        Err(ReadAllError::Failed) => Err(Failure::Read),
        Err(ReadAllError::TooLong) => Err(Failure::TooLong),
        Err(ReadAllError::OutOfMemory) => Err(Failure::OutOfMemory),
    }
}

fn write(rt: &HostRuntime, bytes: &[u8]) -> Result<(), Failure> {
    match write_all(&mut StdSink::new(rt.stdout()), bytes) {
        Ok(()) => Ok(()),
        Err(WriteError::Failed) => Err(Failure::Write),
        Err(WriteError::OutOfMemory) => Err(Failure::OutOfMemory),
    }
}

// The failure of an input, which may be the line with which `rvemit` refuses.
fn passed_on(rt: &HostRuntime, input: &[u8], error: MakeError) -> Result<Failure, OutOfMemory> {
    match (error, refusal_of(input)) {
        (MakeError::OutOfMemory, _) | (_, None) => Ok(Failure::from(error)),
        (_, Some(line)) => Ok(Failure::Refused {
            line: String::from_str(rt.alloc(), line)?,
        }),
    }
}

// A linker takes no object of another convention, and functions pass no floats as the code expects them.
fn warn(rt: &HostRuntime) {
    let _ = eprintln!(rt;
        "rvobj: warning: the code uses floating-point registers, and --abi lp64d is missing"
    );
}

fn run(rt: &HostRuntime) -> Result<(), Failure> {
    let words = command_words(rt)?;
    let given = given_by(rt.alloc(), &words)?;
    let input = input_of(rt)?;
    match object_bytes(rt.alloc(), &given, &input) {
        Ok(made) => {
            if made.lacks_abi {
                warn(rt);
            }
            write(rt, made.bytes.as_slice())
        }
        Err(error) => Err(passed_on(rt, &input, error)?),
    }
}

fn exit(failure: &Failure) -> ExitCode
    ensures { exit_status result ≡ status_of failure.now }
{
    ExitCode::from(failure.status())
}

fn main(rt: HostRuntime) -> ExitCode {
    match run(&rt) {
        Ok(()) => ExitCode::SUCCESS,
        Err(failure) => {
            failure.show(&rt);
            exit(&failure)
        }
    }
}
