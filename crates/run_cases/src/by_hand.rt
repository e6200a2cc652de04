//! Calls of functions with arguments that no listing gives. What each gives is a line or more.

use crate::error::RunError;
use crate::{compiler, generators, loaded, placed, requests, settings, stops};
use std::alloc::Global;

/// What some calls give, by what they are about.
pub(crate) fn called(alloc: Global, about: &str) -> Result<String, RunError> {
    let mut text = String::new(alloc);
    match about.trim_end() {
        "requests" => requests::write(alloc, &mut text)?,
        "settings" => settings::write(&mut text)?,
        "generators" => generators::write(alloc, &mut text)?,
        "compiler" => compiler::write(alloc, &mut text)?,
        "loaded" => loaded::write(alloc, &mut text)?,
        "placed" => placed::write(alloc, &mut text)?,
        "stops" => stops::write(alloc, &mut text)?,
        _ => return Err(RunError::Link("no calls by hand")),
    }
    Ok(text)
}
