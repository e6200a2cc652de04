//! What keeps code from running.

use case_files::CaseError;
use rv_base::OutOfMemory;
use rv_inst::EmitError;
use rv_listing::ReadError;
use std::alloc::{AllocError, Global};
use thiserror::Error;

/// Why a case can't be played.
#[derive(Debug, Drop, Error)]
pub(crate) enum RunError {
    #[error("{0}")]
    Case(#[from] CaseError),
    #[error("{0}")]
    Read(#[from] ReadError),
    #[error("{0}")]
    Emit(#[from] EmitError),
    #[error("out of memory")]
    OutOfMemory(#[from] OutOfMemory),
    #[error("out of memory")]
    Alloc(#[from] AllocError),
    #[error("{0}")]
    Link(&'static str),
}

/// What came of a case; of one that couldn't be played, why.
pub(crate) fn told(alloc: Global, played: Result<String, RunError>) -> Result<String, CaseError> {
    match played {
        Ok(text) => Ok(text),
        Err(error) => Ok(format!(in alloc; "{error}")?),
    }
}
