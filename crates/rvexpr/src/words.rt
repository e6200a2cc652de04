//! The words after the program's name.

use crate::failure::Failure;
use clap::error::ErrorKind;
use clap::{Arg, ArgAction, Command, Error};
use rv_base::{IsaFlags, OutOfMemory};
use rv_listing::{first_part, next_part, with_flag};
use std::alloc::Global;

/// What the words give.
#[derive(Drop)]
pub(crate) struct Given<'a> {
    pub(crate) flags: IsaFlags,
    pub(crate) formulas: Vec<&'a str>,
}

fn command<'a>(alloc: Global) -> Result<Command<'a>, OutOfMemory> {
    let flags = Arg::new(alloc, "flags")
        .long("flags")
        .action(ArgAction::Set)
        .value_name("NAMES")
        .help("Extensions of the machine, as zca,zcb");
    let formula = Arg::new(alloc, "FORMULA").action(ArgAction::Append).help(
        "Formulas, as 'a0 < 10 ? a0 : a1 + 1'; without one, each line of the input is one",
    );
    let command = Command::new(alloc, "rvexpr")
        .version("0.1.0")
        .about("Compiles formulas over a0 to a7, and writes the report of each one's code.")
        .no_binary_name(true)
        .arg(flags)?
        .arg(formula)?;
    Ok(command)
}

fn words_failure(alloc: Global, error: &Error) -> Failure {
    let Ok(text) = error.to_string(alloc) else {
        return Failure::OutOfMemory;
    };
    match error.kind() {
        ErrorKind::DisplayHelp | ErrorKind::DisplayVersion => Failure::Asked { text },
        ErrorKind::OutOfMemory => Failure::OutOfMemory,
        _ => Failure::Words { text },
    }
}

fn flags_named(names: &[u8]) -> Option<IsaFlags> {
    let (first, mut rest) = first_part(b',', names);
    let mut flags = with_flag(IsaFlags::none(), first)?;
    'names: while let Some((name, after)) = next_part(b',', rest) {
        flags = with_flag(flags, name)?;
        rest = after;
    }
    Some(flags)
}

fn flags_of(given: Option<&str>) -> Result<IsaFlags, Failure> {
    match given {
        None => Ok(IsaFlags::none()),
        Some(names) => match flags_named(names.as_bytes()) {
            Some(flags) => Ok(flags),
            None => Err(Failure::Flags),
        },
    }
}

fn formulas_of<'a>(alloc: Global, given: Option<&[&'a str]>) -> Result<Vec<&'a str>, OutOfMemory> {
    match given {
        Some(formulas) => Ok(Vec::from_slice(alloc, formulas)?),
        None => Ok(Vec::new(alloc)),
    }
}

/// What words give.
pub(crate) fn given_by<'a>(alloc: Global, words: &'a [String]) -> Result<Given<'a>, Failure> {
    let command = command(alloc)?;
    let matches = match command.try_get_matches_from(words) {
        Ok(matches) => matches,
        Err(error) => return Err(words_failure(alloc, &error)),
    };
    Ok(Given {
        flags: flags_of(matches.get_str("flags"))?,
        formulas: formulas_of(alloc, matches.get_strs("FORMULA"))?,
    })
}
