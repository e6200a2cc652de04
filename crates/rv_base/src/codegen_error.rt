//! The errors of calls about types.

use crate::out_of_memory::OutOfMemory;
use thiserror::Error;

/// Why a call about a type has no result.
#[derive(Clone, Copy, Debug, PartialEq, Eq, Error)]
pub enum CodegenError {
    /// No class of registers holds the type.
    #[error("no class of registers holds the type")]
    Unsupported,
    #[error("out of memory")]
    OutOfMemory,
}

impl From<OutOfMemory> for CodegenError {
    ghost use Rattle.std.specs.Prelude.{◌≡◌};
    ghost use Rattle.rv_base.specs.declared.codegen_error.CodegenError.TheVariants.{OutOfMemory as no_memory};

    ghost from_gives = { λ cause error. error ≡ no_memory };

    fn from(_cause: OutOfMemory) -> CodegenError {
        CodegenError::OutOfMemory
    }
}
