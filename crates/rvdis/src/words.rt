//! The words after the program's name.

use crate::failure::Failure;
use crate::making::Given;
use clap::error::ErrorKind;
use clap::{Arg, ArgAction, ArgMatches, Command, Error};
use rv_base::{IsaFlags, OutOfMemory};
use rv_listing::{first_part, natural, next_part, with_flag};
use std::alloc::Global;

fn switch<'a>(alloc: Global, name: &'a str, help: &'a str) -> Arg<'a> {
    Arg::new(alloc, name)
        .long(name)
        .action(ArgAction::SetTrue)
        .help(help)
}

fn option<'a>(alloc: Global, name: &'a str, value: &'a str, help: &'a str) -> Arg<'a> {
    Arg::new(alloc, name)
        .long(name)
        .action(ArgAction::Set)
        .value_name(value)
        .help(help)
}

fn command<'a>(alloc: Global) -> Result<Command<'a>, OutOfMemory> {
    let raw = switch(
        alloc,
        "raw",
        "Code as bytes, and neither a report nor hexadecimal digits",
    );
    let reasm = switch(
        alloc,
        "reasm",
        "Reads lines as this program writes them, and writes their code",
    );
    let base = option(
        alloc,
        "base",
        "ADDRESS",
        "The address of the code's first byte [default: 0]",
    );
    let flags = option(
        alloc,
        "flags",
        "NAMES",
        "Extensions of the machine, as zca,zcb",
    );
    let listing = option(
        alloc,
        "listing",
        "FILE",
        "The listing of the report: its data stands as data",
    );
    let command = Command::new(alloc, "rvdis")
        .version("0.1.0")
        .about("Writes code as lines of text, an instruction each; or such lines as code.")
        .no_binary_name(true)
        .arg(raw)?
        .arg(reasm)?
        .arg(base)?
        .arg(flags)?
        .arg(listing)?;
    Ok(command)
}

fn words_failure(alloc: Global, error: &Error) -> Failure {
    let Ok(text) = error.to_string(alloc) else {
        return Failure::OutOfMemory;
    };
    match error.kind() {
        ErrorKind::DisplayHelp | ErrorKind::DisplayVersion => Failure::Asked { text },
        ErrorKind::OutOfMemory => Failure::OutOfMemory,
        _ => Failure::Words { text },
    }
}

fn copy_of(alloc: Global, word: &str) -> Result<String, OutOfMemory> {
    Ok(String::from_str(alloc, word)?)
}

fn flags_named(names: &[u8]) -> Option<IsaFlags> {
    let (first, mut rest) = first_part(b',', names);
    let mut flags = with_flag(IsaFlags::none(), first)?;
    'names: while let Some((name, after)) = next_part(b',', rest) {
        flags = with_flag(flags, name)?;
        rest = after;
    }
    Some(flags)
}

fn flags_of(alloc: Global, given: Option<&str>) -> Result<IsaFlags, Failure> {
    let Some(names) = given else {
        return Ok(IsaFlags::none());
    };
    match flags_named(names.as_bytes()) {
        Some(flags) => Ok(flags),
        None => Err(Failure::Flags {
            word: copy_of(alloc, names)?,
        }),
    }
}

fn base_of(alloc: Global, given: Option<&str>) -> Result<u64, Failure> {
    let Some(word) = given else {
        return Ok(0);
    };
    match natural(word.as_bytes()) {
        Some(base) => Ok(base),
        None => Err(Failure::Base {
            word: copy_of(alloc, word)?,
        }),
    }
}

fn is_set(matches: &ArgMatches, name: &str) -> bool {
    matches.get_flag(name)
}

// The file of the listing, which stands beside a report alone.
fn listing_of(alloc: Global, matches: &ArgMatches) -> Result<Option<String>, Failure> {
    let Some(path) = matches.get_str("listing") else {
        return Ok(None);
    };
    if is_set(matches, "raw") || is_set(matches, "reasm") {
        return Err(Failure::NoReport);
    }
    Ok(Some(copy_of(alloc, path)?))
}

/// What words give, and the listing's file.
pub(crate) fn given_by(
    alloc: Global,
    words: &[String],
) -> Result<(Given, Option<String>), Failure> {
    let command = command(alloc)?;
    let matches = match command.try_get_matches_from(words) {
        Ok(matches) => matches,
        Err(error) => return Err(words_failure(alloc, &error)),
    };
    let given = Given {
        is_raw: is_set(&matches, "raw"),
        is_reasm: is_set(&matches, "reasm"),
        base: base_of(alloc, matches.get_str("base"))?,
        flags: flags_of(alloc, matches.get_str("flags"))?,
    };
    Ok((given, listing_of(alloc, &matches)?))
}
