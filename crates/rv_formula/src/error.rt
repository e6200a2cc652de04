//! Why a text is no formula.

use rv_base::OutOfMemory;
use thiserror::Error;

/// What is wrong with a text, and in which column, in bytes from 1.
#[derive(Clone, Copy, Debug, PartialEq, Eq, Drop, Error)]
pub enum FormulaError {
    #[error("out of memory")]
    OutOfMemory,
    #[error("column {column}: no number, argument or operator")]
    Unknown { column: usize },
    #[error("column {column}: a number, an argument or an opening parenthesis is missing")]
    NoOperand { column: usize },
    #[error("column {column}: an operator is missing")]
    NoOperator { column: usize },
    #[error("column {column}: the parenthesis is not closed")]
    NotClosed { column: usize },
    #[error("column {column}: the parenthesis is not opened")]
    NotOpened { column: usize },
    #[error("column {column}: the question mark has no colon")]
    NoColon { column: usize },
    #[error("column {column}: the colon has no question mark")]
    NoQuestion { column: usize },
    #[error("column {column}: the formula has more than 254 operations")]
    TooLong { column: usize },
}

impl From<OutOfMemory> for FormulaError {
    ghost use Rattle.std.specs.Prelude.{◌≡◌};
    ghost use Rattle.rv_formula.specs.declared.error.FormulaError.TheVariants.{OutOfMemory as NoMemory};

    ghost from_gives = { λ _ error. error ≡ NoMemory };

    fn from(_: OutOfMemory) -> FormulaError {
        FormulaError::OutOfMemory
    }
}
