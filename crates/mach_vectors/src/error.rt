//! What ends the program before its last line.

use rv_base::OutOfMemory;
use std::alloc::AllocError;
use thiserror::Error;

/// Why a line can't be written.
#[derive(Debug, Drop, Error)]
pub(crate) enum ToyError {
    #[error("{0}")]
    Refused(&'static str),
    #[error("out of memory")]
    OutOfMemory(#[from] OutOfMemory),
    #[error("out of memory")]
    Alloc(#[from] AllocError),
}
