//! What a program has to write, and the status that it then ends with.

ghost use Rattle.std.specs.Prelude.{◌≡◌};
ghost use Rattle.rv_program.specs.Answers.{success, failure};

use rv_base::List;
use std::alloc::Global;

/// What a program has to write, and the status that it ends with once all of that is written.
#[derive(Drop)]
pub struct Answer {
    /// What is written to standard error before the output.
    pub notes: List<u8>,
    /// What is written to standard output.
    pub output: List<u8>,
    /// What is written to standard error after the output: why there is no more of it.
    pub error: List<u8>,
    pub status: u8,
}

/// What words ask for.
#[derive(Drop)]
pub enum Asked<J> {
    /// A job, which needs the input.
    Job { job: J },
    /// What no input is needed for.
    Done { answer: Answer },
}

/// Writes this output, and succeeds.
pub fn success(alloc: Global, output: List<u8>) -> Answer
    ensures { result ≡ success output }
{
    Answer {
        notes: List::new(alloc),
        output,
        error: List::new(alloc),
        status: 0,
    }
}

/// Writes no output, but this line to standard error, and fails so.
pub fn failure(alloc: Global, status: u8, error: List<u8>) -> Answer
    ensures { result ≡ failure status error }
{
    Answer {
        notes: List::new(alloc),
        output: List::new(alloc),
        error,
        status,
    }
}
