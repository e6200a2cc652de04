//! How a call of a program ends, and the status of that.

ghost use Rattle.std.specs.Prelude.{◌≡◌};
ghost use Rattle.rv_program.specs.Endings.{fault_text};

use crate::words::WordsFault;
use std::process::ExitCode;

/// How a call of a program ended.
#[derive(Clone, Copy, Debug, PartialEq, Eq)]
pub enum Ending {
    /// The answer was written, or all of it but why there is no output.
    Answered { status: u8 },
    /// There are no words.
    NoWords { fault: WordsFault },
    /// Reading failed. Status 5; no output is written.
    ReadFault,
    /// Writing failed. Status 6; a front of the output may be written.
    WriteFault,
    /// The input has more than 16777216 bytes. Status 7; no output is written.
    TooLong,
    /// Status 8; a front of the output may be written.
    OutOfMemory,
}

impl Ending {
    ghost use Rattle.std.specs.Process.{exit_status};
    ghost use Rattle.rv_program.specs.Endings.{status_of};

    /// The status that the process ends with.
    pub fn status(self) -> u8
        ensures { result ≡ status_of self }
    {
        match self {
            Ending::Answered { status } => status,
            Ending::NoWords { fault } => fault.status(),
            Ending::ReadFault => 5,
            Ending::WriteFault => 6,
            Ending::TooLong => 7,
            Ending::OutOfMemory => 8,
        }
    }

    /// That status, as `main` returns it.
    pub fn exit_code(self) -> ExitCode
        ensures { exit_status result ≡ status_of self }
    {
        ExitCode::from(self.status())
    }
}

/// Why a call ended early, after the program's name.
#[derive(Clone, Copy, Debug, PartialEq, Eq)]
pub(crate) enum Fault {
    Read,
    Write,
    TooLong,
    OutOfMemory,
}

pub(crate) fn fault_text(fault: Fault) -> &'static str
    ensures { result.now ≡ fault_text fault }
{
    match fault {
        Fault::Read => ": standard input can't be read\n",
        Fault::Write => ": standard output can't be written\n",
        Fault::TooLong => ": too long\n",
        Fault::OutOfMemory => ": out of memory\n",
    }
}
