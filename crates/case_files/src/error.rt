//! What ends a run of cases.

ghost use Rattle.std.specs.Prelude.{◌≡◌, OnOk};

use std::alloc::{AllocError, Global};
use std::io;
use thiserror::Error;

/// Why the cases aren't as they must be.
#[derive(Debug, Drop, Error)]
pub enum CaseError {
    #[error("{0}")]
    Io(#[from] io::Error),
    #[error("out of memory")]
    OutOfMemory(#[from] AllocError),
    /// A case gave something else.
    #[error("{case}\n--- wanted:\n{wanted}\n--- got:\n{got}")]
    Different {
        case: String,
        wanted: String,
        got: String,
    },
    /// A file isn't of a form that holds cases.
    #[error("{text}")]
    Form {
        text: String,
    },
}

/// Fails unless a case, by its name, gave the wanted text.
pub fn expect_text(alloc: Global, case: &str, wanted: &str, got: &str) -> Result<(), CaseError>
    ensures { OnOk result (wanted.now ≡ got.now) }
{
    if wanted == got {
        return Ok(());
    }
    Err(CaseError::Different {
        case: String::from_str(alloc, case)?,
        wanted: String::from_str(alloc, wanted)?,
        got: String::from_str(alloc, got)?,
    })
}
