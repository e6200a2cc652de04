//! Why the program ends early, and with which status.

use rv_base::OutOfMemory;
use rv_expr::ExprError;
use rv_formula::FormulaError;
use rv_program::WordsFault;
use thiserror::Error;

#[derive(Debug, Drop, Error)]
pub(crate) enum Failure {
    /// Help or the version, which was asked for.
    #[error("{text}")]
    Asked { text: String },
    /// The words are none of the program's.
    #[error("{text}")]
    Words { text: String },
    /// The words can't be had.
    #[error("{fault}")]
    NoWords { fault: WordsFault },
    #[error("the flags name no extension")]
    Flags,
    #[error("{error}")]
    Formula { error: FormulaError },
    #[error("{error}")]
    Program { error: ExprError },
    /// The same in a line of the input, from 1.
    #[error("line {line}: {error}")]
    FormulaInLine { line: usize, error: FormulaError },
    #[error("line {line}: {error}")]
    ProgramInLine { line: usize, error: ExprError },
    #[error("standard input can't be read")]
    Read,
    #[error("standard output can't be written")]
    Write,
    /// The input has more than 16777216 bytes.
    #[error("too long")]
    TooLong,
    #[error("out of memory")]
    OutOfMemory,
}

impl Failure {
    /// The same in the line of an index, from 0.
    pub(crate) fn in_line(self, index: usize) -> Failure {
        let line = index.saturating_add(1);
        match self {
            Failure::Formula { error } => Failure::FormulaInLine { line, error },
            Failure::Program { error } => Failure::ProgramInLine { line, error },
            other => other,
        }
    }

    /// The status with which the program ends.
    pub(crate) fn status(&self) -> u8 {
        match self {
            Failure::Asked { text: _ } => 0,
            Failure::NoWords { fault } => fault.status(),
            Failure::Words { text: _ } | Failure::Flags => 2,
            Failure::Formula { error: _ }
            | Failure::Program { error: _ }
            | Failure::FormulaInLine { line: _, error: _ }
            | Failure::ProgramInLine { line: _, error: _ } => 3,
            Failure::Read => 5,
            Failure::Write => 6,
            Failure::TooLong => 7,
            Failure::OutOfMemory => 8,
        }
    }

    /// Writes what was asked for to standard output, and anything else to standard error.
    pub(crate) fn show(&self, rt: &HostRuntime) {
        match self {
            Failure::Asked { text } => {
                let _ = print!(rt; "{text}");
            }
            Failure::Words { text } => {
                let _ = eprint!(rt; "{text}");
            }
            _ => {
                let _ = eprintln!(rt; "rvexpr: {self}");
            }
        }
    }
}

impl From<WordsFault> for Failure {
    fn from(fault: WordsFault) -> Failure {
        Failure::NoWords { fault }
    }
}

impl From<OutOfMemory> for Failure {
    fn from(_: OutOfMemory) -> Failure {
        Failure::OutOfMemory
    }
}

impl From<FormulaError> for Failure {
    fn from(error: FormulaError) -> Failure {
        match error {
            FormulaError::OutOfMemory => Failure::OutOfMemory,
            error => Failure::Formula { error },
        }
    }
}

impl From<ExprError> for Failure {
    fn from(error: ExprError) -> Failure {
        match error {
            ExprError::OutOfMemory => Failure::OutOfMemory,
            error => Failure::Program { error },
        }
    }
}
