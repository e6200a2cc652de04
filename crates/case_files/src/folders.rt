//! Folders of files that hold cases.

use crate::error::CaseError;
use std::process::ExitCode;
use std::{fs, io};

/// What goes through the cases of a file.
pub trait Cases {
    /// Goes through the cases of a file, and returns how many there are.
    fn go_through(&self, rt: &HostRuntime, path: &str) -> Result<u32, CaseError>;
}

/// The error of a path.
fn form_error(rt: &HostRuntime, path: &str, error: &io::Error) -> Result<CaseError, CaseError> {
    Ok(CaseError::Form {
        text: format!(in rt.alloc(); "{path}: {error}")?,
    })
}

/// The names in a folder, in order; of what is no folder an error that says so.
fn names_in(rt: &HostRuntime, folder: &str) -> Result<Vec<String>, CaseError> {
    match sorted_names(rt, folder) {
        Ok(names) => Ok(names),
        Err(error) => Err(form_error(rt, folder, &error)?),
    }
}

fn sorted_names(rt: &HostRuntime, folder: &str) -> io::Result<Vec<String>> {
    let mut names = Vec::new(rt.alloc());
    for entry in fs::read_dir(rt, folder)? {
        let entry = entry?;
        names.push(String::from_str(rt.alloc(), entry.file_name())?)?;
    }
    names.sort()?;
    Ok(names)
}

/// The text of a file.
pub fn read(rt: &HostRuntime, path: &str) -> Result<String, CaseError> {
    match fs::read_to_string(rt, path) {
        Ok(text) => Ok(text),
        Err(error) => Err(form_error(rt, path, &error)?),
    }
}

/// Goes through the files of a family, prints how many cases each has, and returns how many there are.
fn go_through_family<C: Cases>(
    rt: &HostRuntime,
    cases: &C,
    family: &str,
) -> Result<u32, CaseError> {
    let mut all = 0u32;
    for name in names_in(rt, family)? {
        let path = format!(in rt.alloc(); "{family}/{name}")?;
        if name.as_str() != "about.txt" {
            let count = cases.go_through(rt, &path)?;
            println!(rt; "{path} {count}")?;
            all = all.saturating_add(count);
        }
    }
    Ok(all)
}

/// Goes through the families of a kind.
fn go_through_kind<C: Cases>(rt: &HostRuntime, cases: &C, kind: &str) -> Result<u32, CaseError> {
    let mut all = 0u32;
    for name in names_in(rt, kind)? {
        let family = format!(in rt.alloc(); "{kind}/{name}")?;
        let count = go_through_family(rt, cases, &family)?;
        all = all.saturating_add(count);
    }
    Ok(all)
}

/// Whether a name where the program runs is a folder's; fails of a file that might hold cases.
fn is_kind(rt: &HostRuntime, name: &str) -> Result<bool, CaseError> {
    if fs::metadata(rt, name)?.is_dir() {
        return Ok(true);
    }
    if name.contains('.') {
        return Err(CaseError::Form {
            text: format!(in rt.alloc(); "{name}: a file outside all families")?,
        });
    }
    Ok(false)
}

/// Goes through all kinds.
fn go_through_all<C: Cases>(rt: &HostRuntime, cases: &C) -> Result<u32, CaseError> {
    let mut all = 0u32;
    for kind in names_in(rt, ".")? {
        if is_kind(rt, &kind)? {
            let count = go_through_kind(rt, cases, &kind)?;
            all = all.saturating_add(count);
        }
    }
    Ok(all)
}

/// Goes through all cases below the folder where the program runs: in it stand the kinds, what is asked of cases; in each of these the
/// families, of what lines they are; and in each of these the files. Prints how many cases there are, or the first that gave something
/// else, in full.
pub fn run_cases<C: Cases>(rt: &HostRuntime, cases: &C) -> ExitCode {
    match go_through_all(rt, cases) {
        Ok(count) => {
            let _ = println!(rt; "{count} cases");
            ExitCode::SUCCESS
        }
        Err(error) => {
            let _ = println!(rt; "{error}");
            let _ = eprintln!(rt; "{error}");
            ExitCode::FAILURE
        }
    }
}
