//! Fields of instructions as texts.

use std::alloc::{AllocError, Global};
use std::fmt::Debug;

/// The text of the fields of an instruction, where it is of a form that has them.
pub(crate) fn shown<F: Copy + Debug>(
    alloc: Global,
    fields: Option<F>,
) -> Result<Option<String>, AllocError> {
    match fields {
        Some(fields) => Ok(Some(format!(in alloc; "{fields:?}")?)),
        None => Ok(None),
    }
}
