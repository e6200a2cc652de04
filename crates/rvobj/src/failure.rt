//! Why the program ends early, and with which status.

ghost use Rattle.std.specs.Prelude.{◌≡◌};

use crate::making::MakeError;
use rv_base::OutOfMemory;
use rv_program::WordsFault;
use thiserror::Error;

#[derive(Debug, Drop, Error)]
pub(crate) enum Failure {
    /// Help or the version, which was asked for.
    #[error("{text}")]
    Asked { text: String },
    /// The words are none of the program's.
    #[error("{text}")]
    Words { text: String },
    /// The words can't be had.
    #[error("{fault}")]
    NoWords { fault: WordsFault },
    #[error("{word}: no distinct names of m, zba, zbb, zca, zcb, zcd and zfhmin with commas between")]
    Flags { word: String },
    #[error("{word}: no lp64 and no lp64d")]
    Abi { word: String },
    #[error("{word}: no LABEL=NAME with a label as L0")]
    Export { word: String },
    #[error("{word}: no SYMBOL=NAME with a symbol as userextname0")]
    Import { word: String },
    #[error("{word}: an empty name, or one that an earlier word gives")]
    Name { word: String },
    /// The first line of the input, counted from 1, that no report has there.
    #[error("no report at line {line}")]
    NotReport { line: usize },
    /// The input is the line with which `rvemit` refuses.
    #[error("no code: {line}")]
    Refused { line: String },
    /// The report has no place of a label.
    #[error("no label L{label} in the report")]
    NoLabel { label: u32 },
    #[error("standard input can't be read")]
    Read,
    #[error("standard output can't be written")]
    Write,
    /// The input has more than 16777216 bytes.
    #[error("too long")]
    TooLong,
    #[error("out of memory")]
    OutOfMemory,
}

impl Failure {
    ghost use Rattle.rvobj.specs.Ending.{status_of};

    /// The status with which the program ends.
    pub(crate) fn status(&self) -> u8
        ensures { result ≡ status_of self.now }
    {
        match self {
            Failure::Asked { text: _ } => 0,
            Failure::NoWords { fault } => fault.status(),
            Failure::Words { text: _ }
            | Failure::Flags { word: _ }
            | Failure::Abi { word: _ }
            | Failure::Export { word: _ }
            | Failure::Import { word: _ }
            | Failure::Name { word: _ } => 2,
            Failure::NotReport { line: _ } | Failure::Refused { line: _ } => 3,
            Failure::NoLabel { label: _ } => 4,
            Failure::Read => 5,
            Failure::Write => 6,
            Failure::TooLong => 7,
            Failure::OutOfMemory => 8,
        }
    }

    /// Writes what was asked for to standard output, and anything else to standard error.
    pub(crate) fn show(&self, rt: &HostRuntime) {
        match self {
            Failure::Asked { text } => {
                let _ = print!(rt; "{text}");
            }
            Failure::Words { text } => {
                let _ = eprint!(rt; "{text}");
            }
            _ => {
                let _ = eprintln!(rt; "rvobj: {self}");
            }
        }
    }
}

impl From<WordsFault> for Failure {
    fn from(fault: WordsFault) -> Failure {
        Failure::NoWords { fault }
    }
}

impl From<OutOfMemory> for Failure {
    fn from(_: OutOfMemory) -> Failure {
        Failure::OutOfMemory
    }
}

impl From<MakeError> for Failure {
    fn from(error: MakeError) -> Failure {
        match error {
            MakeError::NotReport { line } => Failure::NotReport { line },
            MakeError::NoLabel { label } => Failure::NoLabel { label },
            MakeError::OutOfMemory => Failure::OutOfMemory,
        }
    }
}
