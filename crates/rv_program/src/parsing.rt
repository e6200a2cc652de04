//! A command's words by their rules.

ghost use Rattle.std.specs.Prelude.{◌≡◌, List as Elements, IfOk, true, [], option_map, unwrap_or, map, string_bytes};
ghost use Rattle.clap.specs.Words.{App, Text, app_of, first_of, all_of, rows_of, found_of, kind_of, is_simple, is_simple_and_free};
ghost use Rattle.rv_program.specs.Options.{is_set, IsOfKind, Parses, Fails};
ghost use Rattle.rv_program.specs.Answers.{AnswersWords};

use crate::answer::{Answer, failure, success};
use clap::error::ErrorKind;
use clap::{ArgMatches, Command, Error};
use rv_base::{List, OutOfMemory};
use std::alloc::Global;
use std::fmt;
use thiserror::Error as ThisError;

/// Why words give nothing, with the text that says so.
#[derive(Drop, ThisError)]
pub enum WordsError {
    /// They ask for help.
    #[error("help is asked for")]
    Help { text: List<u8> },
    /// They ask for the version.
    #[error("the version is asked for")]
    Version { text: List<u8> },
    /// They are none of this command.
    #[error("no words of this command")]
    Wrong { text: List<u8> },
    #[error("out of memory")]
    OutOfMemory,
}

impl fmt::Debug for WordsError {
    fn fmt<W: fmt::Write>(&self, f: &mut fmt::Formatter<W>) -> fmt::Result {
        write!(f, "{self}")
    }
}

/// The value of an option, or that of a flag.
pub fn given<'a>(matches: &ArgMatches<'a>, name: &str) -> Option<&'a str>
    ensures { option_map (λ s. s.now) result ≡ first_of name.now (rows_of (found_of matches.now)) }
{
    matches.get_str(name)
}

fn is_true(given: Option<&str>) -> bool
    ensures { result ≡ is_set (option_map (λ s. s.now) given.entry) }
{
    match given {
        Some(text) => text == "true",
        None => false,
    }
}

/// Returns whether a flag is among the words.
pub fn is_set(matches: &ArgMatches, name: &str) -> bool
    ensures { result ≡ is_set (first_of name.now (rows_of (found_of matches.now))) }
{
    is_true(given(matches, name))
}

fn list_of<'a>(alloc: Global, words: Option<&[&'a str]>) -> Result<List<&'a str>, OutOfMemory>
    ensures { IfOk result (λ list. map (λ s. s.now) list ≡ unwrap_or (option_map (λ all. map (λ s. s.now) all.now) words.entry) []) }
{
    match words {
        Some(words) => Ok(List::from_vec(Vec::from_slice(alloc, words)?)),
        None => Ok(List::new(alloc)),
    }
}

/// The values of an option that may stand often, or the words that are no option's.
pub fn all_given<'a>(
    alloc: Global,
    matches: &ArgMatches<'a>,
    name: &str,
) -> Result<List<&'a str>, OutOfMemory>
    ensures { IfOk result (λ words. map (λ s. s.now) words ≡ unwrap_or (all_of name.now (rows_of (found_of matches.now))) []) }
{
    list_of(alloc, matches.get_strs(name))
}

fn error_text(alloc: Global, error: &Error) -> Result<List<u8>, OutOfMemory> {
    Ok(List::from_vec(error.to_string(alloc)?.into_bytes()))
}

fn words_error(alloc: Global, error: &Error) -> WordsError
    ensures { IsOfKind (kind_of error.now) result }
{
    let Ok(text) = error_text(alloc, error) else {
        return WordsError::OutOfMemory;
    };
    match error.kind() {
        ErrorKind::DisplayHelp => WordsError::Help { text },
        ErrorKind::DisplayVersion => WordsError::Version { text },
        ErrorKind::OutOfMemory => WordsError::OutOfMemory,
        _ => WordsError::Wrong { text },
    }
}

/// What words give by a command's rules.
pub fn parse<'a>(
    alloc: Global,
    command: Command<'a>,
    words: &'a [String],
) -> Result<ArgMatches<'a>, WordsError>
    requires simple { is_simple (app_of command) ≡ true }
    requires free { is_simple_and_free (app_of command) ≡ true }
    ensures { Parses (app_of command.entry) (map string_bytes words.entry.now) result }
{
    match command.try_get_matches_from(words) {
        Ok(matches) => Ok(matches),
        Err(error) => Err(words_error(alloc, &error)),
    }
}

/// The answer to words that give nothing: help or the version to standard output, and anything else to standard error with status 2.
pub fn answer_of_words(alloc: Global, error: WordsError) -> Result<Answer, OutOfMemory>
    ensures { (app : App) (words : Elements Text) → Fails app words error → IfOk result (AnswersWords app words) }
{
    match error {
        WordsError::Help { text } | WordsError::Version { text } => Ok(success(alloc, text)),
        WordsError::Wrong { text } => Ok(failure(alloc, 2, text)),
        WordsError::OutOfMemory => Err(OutOfMemory),
    }
}
