//! Why a program isn't compiled.

use rv_base::OutOfMemory;
use thiserror::Error;

/// The first cause, in this order, why a program has no code. Operations are counted from 0.
#[derive(Clone, Copy, Debug, PartialEq, Eq, Drop, Error)]
pub enum ExprError {
    /// It may come at any time.
    #[error("out of memory")]
    OutOfMemory,
    #[error("the program has no operation")]
    Empty,
    #[error("the program has more than 254 operations")]
    TooLong,
    /// An argument other than 0 to 7, where no operation before it is wrong.
    #[error("operation {index} takes an argument above 7")]
    BadArg { index: usize },
    /// A number that is no earlier operation's, where no operation before it is wrong.
    #[error("operation {index} names itself or a later one")]
    BadRef { index: usize },
}

impl From<OutOfMemory> for ExprError {
    ghost use Rattle.std.specs.Prelude.{◌≡◌};
    ghost use Rattle.rv_expr.specs.declared.error.ExprError.TheVariants.{OutOfMemory as NoMemory};

    ghost from_gives = { λ _ error. error ≡ NoMemory };

    fn from(_: OutOfMemory) -> ExprError {
        ExprError::OutOfMemory
    }
}
