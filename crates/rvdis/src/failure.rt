//! Why the program ends early, and with which status.

ghost use Rattle.std.specs.Prelude.{◌≡◌};

use crate::making::MakeError;
use rv_base::OutOfMemory;
use rv_program::WordsFault;
use thiserror::Error;

#[derive(Debug, Drop, Error)]
pub(crate) enum Failure {
    /// Help or the version, which was asked for.
    #[error("{text}")]
    Asked { text: String },
    /// The words are none of the program's.
    #[error("{text}")]
    Words { text: String },
    /// The words can't be had.
    #[error("{fault}")]
    NoWords { fault: WordsFault },
    #[error("{word}: no distinct names of m, zba, zbb, zca, zcb, zcd and zfhmin with commas between")]
    Flags { word: String },
    #[error("{word}: no address below 2^64")]
    Base { word: String },
    /// No report has a listing beside it with these words.
    #[error("--listing stands beside a report; not with --raw or --reasm")]
    NoReport,
    /// The listing can't be read, or isn't UTF-8.
    #[error("{path}: no file that can be read as text")]
    ListingFile { path: String },
    /// The first line of the listing, counted from 1, that is no form of a line.
    #[error("no listing at line {line}")]
    Listing { line: usize },
    /// The first line of the input, counted from 1, that no report has there.
    #[error("no report at line {line}")]
    NotReport { line: usize },
    /// The input is the line with which `rvemit` refuses.
    #[error("no code: {line}")]
    Refused { line: String },
    #[error("no hexadecimal digits in pairs")]
    NotHex,
    /// The first line of the input, counted from 1, that is none of this code.
    #[error("no line of this code at line {line}")]
    NotLine { line: usize },
    /// The lines that were made aren't read back to the code.
    #[error("the lines aren't read back to the code")]
    NotReadBack,
    #[error("standard input can't be read")]
    Read,
    #[error("standard output can't be written")]
    Write,
    /// The input has more than 16777216 bytes.
    #[error("too long")]
    TooLong,
    #[error("out of memory")]
    OutOfMemory,
}

impl Failure {
    ghost use Rattle.rvdis.specs.Ending.{status_of};

    /// The status with which the program ends.
    pub(crate) fn status(&self) -> u8
        ensures { result ≡ status_of self.now }
    {
        match self {
            Failure::Asked { text: _ } => 0,
            Failure::NoWords { fault } => fault.status(),
            Failure::Words { text: _ } | Failure::Flags { word: _ } | Failure::Base { word: _ } =>
                2,
            Failure::NoReport => 2,
            Failure::ListingFile { path: _ } => 5,
            Failure::Listing { line: _ } => 3,
            Failure::NotReport { line: _ } | Failure::Refused { line: _ } => 3,
            Failure::NotHex | Failure::NotLine { line: _ } => 3,
            Failure::NotReadBack => 4,
            Failure::Read => 5,
            Failure::Write => 6,
            Failure::TooLong => 7,
            Failure::OutOfMemory => 8,
        }
    }

    /// Writes what was asked for to standard output, and anything else to standard error.
    pub(crate) fn show(&self, rt: &HostRuntime) {
        match self {
            Failure::Asked { text } => {
                let _ = print!(rt; "{text}");
            }
            Failure::Words { text } => {
                let _ = eprint!(rt; "{text}");
            }
            _ => {
                let _ = eprintln!(rt; "rvdis: {self}");
            }
        }
    }
}

impl From<WordsFault> for Failure {
    fn from(fault: WordsFault) -> Failure {
        Failure::NoWords { fault }
    }
}

impl From<OutOfMemory> for Failure {
    fn from(_: OutOfMemory) -> Failure {
        Failure::OutOfMemory
    }
}

impl From<MakeError> for Failure {
    fn from(error: MakeError) -> Failure {
        match error {
            MakeError::NotReport { line } => Failure::NotReport { line },
            MakeError::NotHex => Failure::NotHex,
            MakeError::NotLine { line } => Failure::NotLine { line },
            MakeError::NotReadBack => Failure::NotReadBack,
            MakeError::OutOfMemory => Failure::OutOfMemory,
        }
    }
}
