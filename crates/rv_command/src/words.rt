//! What the words of the command ask for.

ghost use Rattle.std.specs.Prelude.{◌≡◌, IfOk, IfSome, false, map, option_map, string_bytes, codes};
ghost use Rattle.clap.specs.Words.{IsUnsignedIn, app_of, rule_of, with_rule, first_of, rows_of, found_of, kind_of};
ghost use Rattle.rv_command.specs.Words.{last_number, text_rule, gen_rule, opening, rvemit_app, is_set, number_of, request_of, IsOfKind, Asks};

use clap::builder::ValueParser;
use clap::error::ErrorKind;
use clap::{Arg, ArgAction, ArgMatches, Command, Error};
use rv_base::OutOfMemory;
use std::alloc::Global;
use std::fmt;
use thiserror::Error as ThisError;

/// The greatest number of a generated job.
const LAST_NUMBER: u64 = u64::MAX;

/// What the words ask for.
#[derive(Clone, Copy, Debug, PartialEq, Eq)]
pub enum Request {
    /// The report of a listing, with the texts of its instructions or without.
    Listing { texts: bool },
    /// The summary of the generated job of this number.
    Generated { number: u64 },
}

/// Why words ask for nothing.
#[derive(Clone, Copy, Debug, PartialEq, Eq, ThisError)]
pub enum WordsError {
    #[error("no words of this command")]
    Usage,
    #[error("out of memory")]
    OutOfMemory,
}

fn text_flag<'a>(alloc: Global) -> Arg<'a>
    ensures rule { rule_of result ≡ text_rule }
    ensures local { result.global ≡ false }
{
    Arg::new(alloc, "text")
        .long("text")
        .action(ArgAction::SetTrue)
}

fn gen_option<'a>(alloc: Global) -> Arg<'a>
    ensures rule { rule_of result ≡ gen_rule }
    ensures local { result.global ≡ false }
{
    Arg::new(alloc, "gen")
        .long("gen")
        .action(ArgAction::Set)
        .value_parser(ValueParser::unsigned(0, LAST_NUMBER))
}

fn with_arg<'a>(command: Command<'a>, arg: Arg<'a>) -> Result<Command<'a>, OutOfMemory>
    requires { arg.global ≡ false }
    ensures { IfOk result (λ c. app_of c ≡ with_rule (app_of command.entry) (rule_of arg.entry)) }
{
    let command = command.arg(arg)?;
    Ok(command)
}

fn opening<'a>(alloc: Global) -> Command<'a>
    ensures { app_of result ≡ opening }
{
    Command::new(alloc, "rvemit")
        .disable_help_flag(true)
        .no_binary_name(true)
}

fn command<'a>(alloc: Global) -> Result<Command<'a>, OutOfMemory>
    ensures { IfOk result (λ c. app_of c ≡ rvemit_app) }
{
    let c = with_arg(opening(alloc), text_flag(alloc))?;
    with_arg(c, gen_option(alloc))
}

fn given<'a>(matches: &ArgMatches<'a>, name: &str) -> Option<&'a str>
    ensures { option_map (λ s. s.now) result ≡ first_of name.now (rows_of (found_of matches.now)) }
{
    matches.get_str(name)
}

fn is_set(given: Option<&str>) -> bool
    ensures { result ≡ is_set (option_map (λ s. s.now) given.entry) }
{
    match given {
        Some(text) => text == "true",
        None => false,
    }
}

// The number of a text that clap took for one.
fn number_of(given: Option<&str>) -> Option<u64>
    requires { IfSome given (λ s. IsUnsignedIn 0 last_number s.now) }
    ensures { result ≡ option_map (λ s. number_of s.now) given.entry }
{
    given?.parse().ok()
}

fn request_of(matches: &ArgMatches) -> Request
    requires { IfSome (first_of (codes "gen") (rows_of (found_of matches.now))) (IsUnsignedIn 0 last_number) }
    ensures { result ≡ request_of (rows_of (found_of matches.now)) }
{
    match number_of(given(matches, "gen")) {
        Some(number) => Request::Generated { number },
        None => Request::Listing {
            texts: is_set(given(matches, "text")),
        },
    }
}

fn words_error(error: &Error) -> WordsError
    ensures { IsOfKind (kind_of error.now) result }
{
    match error.kind() {
        ErrorKind::OutOfMemory => WordsError::OutOfMemory,
        _ => WordsError::Usage,
    }
}

/// What the words after the program's name ask for.
pub fn read_words(alloc: Global, words: &[String]) -> Result<Request, WordsError>
    ensures { Asks (map string_bytes words.now) result }
{
    let Ok(command) = command(alloc) else {
        return Err(WordsError::OutOfMemory);
    };
    match command.try_get_matches_from(words) {
        Ok(matches) => Ok(request_of(&matches)),
        Err(error) => Err(words_error(&error)),
    }
}
