//! The words of a command, read by option.

ghost use Rattle.std.specs.Prelude.{◌≡◌, IfOk, false, true, [], option_map, unwrap_or, map, string_bytes};
ghost use Rattle.clap.specs.Words.{app_of, rule_of, with_rule, first_of, all_of, rows_of, found_of, kind_of};
ghost use Rattle.rv_load.specs.Command.{flag_rule, option_rule, list_rule, word_rule, rvrun_app, opening, with_code, with_start, with_memory, with_units, is_set, IsGiven, IsOfKind, Parses};

use crate::given::Given;
use clap::error::ErrorKind;
use clap::{Arg, ArgAction, ArgMatches, Command, Error};
use rv_base::{List, OutOfMemory};
use std::alloc::Global;
use std::fmt;
use thiserror::Error as ThisError;

/// Why the words give nothing, with the text that says so.
#[derive(Drop, ThisError)]
pub enum WordsError {
    /// They ask for help.
    #[error("help is asked for")]
    Help { text: List<u8> },
    /// They ask for the version.
    #[error("the version is asked for")]
    Version { text: List<u8> },
    /// They are none of this command.
    #[error("no words of this command")]
    Wrong { text: List<u8> },
    #[error("out of memory")]
    OutOfMemory,
}

impl fmt::Debug for WordsError {
    fn fmt<W: fmt::Write>(&self, f: &mut fmt::Formatter<W>) -> fmt::Result {
        write!(f, "{self}")
    }
}

fn flag<'a>(alloc: Global, name: &'a str, help: &'a str) -> Arg<'a>
    ensures rule { rule_of result ≡ flag_rule name.entry.now }
    ensures local { result.global ≡ false }
{
    Arg::new(alloc, name)
        .long(name)
        .action(ArgAction::SetTrue)
        .help(help)
}

fn option<'a>(alloc: Global, name: &'a str, value: &'a str, help: &'a str) -> Arg<'a>
    ensures rule { rule_of result ≡ option_rule name.entry.now }
    ensures local { result.global ≡ false }
{
    Arg::new(alloc, name)
        .long(name)
        .action(ArgAction::Set)
        .value_name(value)
        .help(help)
}

fn list<'a>(alloc: Global, name: &'a str, value: &'a str, help: &'a str) -> Arg<'a>
    ensures rule { rule_of result ≡ list_rule name.entry.now }
    ensures local { result.global ≡ false }
{
    Arg::new(alloc, name)
        .long(name)
        .action(ArgAction::Append)
        .value_name(value)
        .help(help)
}

fn word<'a>(alloc: Global, name: &'a str, help: &'a str) -> Arg<'a>
    ensures rule { rule_of result ≡ word_rule name.entry.now }
    ensures local { result.global ≡ false }
{
    Arg::new(alloc, name).action(ArgAction::Append).help(help)
}

fn with_arg<'a>(command: Command<'a>, arg: Arg<'a>) -> Result<Command<'a>, OutOfMemory>
    requires { arg.global ≡ false }
    ensures { IfOk result (λ c. app_of c ≡ with_rule (app_of command.entry) (rule_of arg.entry)) }
{
    let command = command.arg(arg)?;
    Ok(command)
}

fn opening<'a>(alloc: Global) -> Command<'a>
    ensures { app_of result ≡ opening }
{
    Command::new(alloc, "rvrun")
        .version("0.1.0")
        .about(
            "Runs the code of a report on the proved machine, and shows how the run ended and what it changed.",
        )
        .no_binary_name(true)
}

fn with_flag<'a>(
    alloc: Global,
    command: Command<'a>,
    name: &'a str,
    help: &'a str,
) -> Result<Command<'a>, OutOfMemory>
    ensures { IfOk result (λ c. app_of c ≡ with_rule (app_of command.entry) (flag_rule name.entry.now)) }
{
    with_arg(command, flag(alloc, name, help))
}

fn with_option<'a>(
    alloc: Global,
    command: Command<'a>,
    name: &'a str,
    value: &'a str,
    help: &'a str,
) -> Result<Command<'a>, OutOfMemory>
    ensures { IfOk result (λ c. app_of c ≡ with_rule (app_of command.entry) (option_rule name.entry.now)) }
{
    with_arg(command, option(alloc, name, value, help))
}

fn with_list<'a>(
    alloc: Global,
    command: Command<'a>,
    name: &'a str,
    value: &'a str,
    help: &'a str,
) -> Result<Command<'a>, OutOfMemory>
    ensures { IfOk result (λ c. app_of c ≡ with_rule (app_of command.entry) (list_rule name.entry.now)) }
{
    with_arg(command, list(alloc, name, value, help))
}

fn with_word<'a>(
    alloc: Global,
    command: Command<'a>,
    name: &'a str,
    help: &'a str,
) -> Result<Command<'a>, OutOfMemory>
    ensures { IfOk result (λ c. app_of c ≡ with_rule (app_of command.entry) (word_rule name.entry.now)) }
{
    with_arg(command, word(alloc, name, help))
}

// What the code is, and where it stands.
fn with_code<'a>(alloc: Global, c: Command<'a>) -> Result<Command<'a>, OutOfMemory>
    ensures { IfOk result (λ made. app_of made ≡ with_code (app_of c.entry)) }
{
    let c = with_flag(
        alloc,
        c,
        "hex",
        "The input is hexadecimal digits, and no report",
    )?;
    let c = with_option(
        alloc,
        c,
        "base",
        "ADDRESS",
        "Where the code stands, a multiple of 4 [default: 0x10000]",
    )?;
    with_option(
        alloc,
        c,
        "flags",
        "NAMES",
        "Extensions of the machine, as zca,zcb",
    )
}

// Where the run begins, and how long it is.
fn with_start<'a>(alloc: Global, c: Command<'a>) -> Result<Command<'a>, OutOfMemory>
    ensures { IfOk result (λ made. app_of made ≡ with_start (app_of c.entry)) }
{
    let c = with_option(
        alloc,
        c,
        "from",
        "LINE",
        "Begin where this line of the listing begins",
    )?;
    let c = with_option(
        alloc,
        c,
        "at",
        "OFFSET",
        "Begin at this offset from the code's start",
    )?;
    with_option(
        alloc,
        c,
        "steps",
        "N",
        "Make at most so many steps [default: 10000000]",
    )
}

// What stands in the memory, where symbols are, and what stands there.
fn with_memory<'a>(alloc: Global, c: Command<'a>) -> Result<Command<'a>, OutOfMemory>
    ensures { IfOk result (λ made. app_of made ≡ with_memory (app_of c.entry)) }
{
    let c = with_list(alloc, c, "data", "ADDRESS=HEX", "Bytes of memory")?;
    let c = with_list(
        alloc,
        c,
        "symbol",
        "NAME=ADDRESS",
        "Where a symbol is, as userextname0=0x20000",
    )?;
    let c = with_list(
        alloc,
        c,
        "slot",
        "NAME=ADDRESS",
        "Where the slot is that holds a symbol's address",
    )?;
    with_list(
        alloc,
        c,
        "callee",
        "CALLEE",
        "A symbol from which control returns to ra at once, with registers set, as userextname0:a0=5",
    )
}

// What the units begin with and answer.
fn with_units<'a>(alloc: Global, c: Command<'a>) -> Result<Command<'a>, OutOfMemory>
    ensures { IfOk result (λ made. app_of made ≡ with_units (app_of c.entry)) }
{
    let c = with_option(
        alloc,
        c,
        "setting",
        "AVL,VTYPE",
        "The vector length and vtype that the run begins with, as 4,0xd0 [default: 0,0]",
    )?;
    let c = with_list(
        alloc,
        c,
        "answer",
        "ANSWER",
        "What a unit answers, in order: bits:0x40, success, failure, length:4, vector:8=0x1 or stored:01--",
    )?;
    with_option(
        alloc,
        c,
        "unit",
        "NAME",
        "What answers for floating-point operations where no answer is left: host, this machine's own arithmetic",
    )
}

#[tactic(auto, unfolding(crate::specs::Command::rvrun_app))]
fn command<'a>(alloc: Global) -> Result<Command<'a>, OutOfMemory>
    ensures { IfOk result (λ c. app_of c ≡ rvrun_app) }
{
    let c = with_code(alloc, opening(alloc))?;
    let c = with_start(alloc, c)?;
    let c = with_memory(alloc, c)?;
    let c = with_units(alloc, c)?;
    let c = with_flag(alloc, c, "trace", "Print each step")?;
    with_word(
        alloc,
        c,
        "REGISTER=VALUE",
        "Registers, as a0=-1, x10=0xff or fa0=0x3f800000",
    )
}

fn given<'a>(matches: &ArgMatches<'a>, name: &str) -> Option<&'a str>
    ensures { option_map (λ s. s.now) result ≡ first_of name.now (rows_of (found_of matches.now)) }
{
    matches.get_str(name)
}

fn is_true(given: Option<&str>) -> bool
    ensures { result ≡ is_set (option_map (λ s. s.now) given.entry) }
{
    match given {
        Some(text) => text == "true",
        None => false,
    }
}

fn is_set(matches: &ArgMatches, name: &str) -> bool
    ensures { result ≡ is_set (first_of name.now (rows_of (found_of matches.now))) }
{
    is_true(given(matches, name))
}

fn list_of<'a>(alloc: Global, words: Option<&[&'a str]>) -> Result<List<&'a str>, OutOfMemory>
    ensures { IfOk result (λ list. map (λ s. s.now) list ≡ unwrap_or (option_map (λ all. map (λ s. s.now) all.now) words.entry) []) }
{
    match words {
        Some(words) => Ok(List::from_vec(Vec::from_slice(alloc, words)?)),
        None => Ok(List::new(alloc)),
    }
}

fn all_given<'a>(
    alloc: Global,
    matches: &ArgMatches<'a>,
    name: &str,
) -> Result<List<&'a str>, OutOfMemory>
    ensures { IfOk result (λ words. map (λ s. s.now) words ≡ unwrap_or (all_of name.now (rows_of (found_of matches.now))) []) }
{
    list_of(alloc, matches.get_strs(name))
}

fn given_by<'a>(alloc: Global, matches: &ArgMatches<'a>) -> Result<Given<'a>, OutOfMemory>
    ensures { IfOk result (IsGiven (rows_of (found_of matches.now))) }
{
    Ok(Given {
        hex: is_set(matches, "hex"),
        trace: is_set(matches, "trace"),
        base: given(matches, "base"),
        flags: given(matches, "flags"),
        from: given(matches, "from"),
        at: given(matches, "at"),
        steps: given(matches, "steps"),
        memory: all_given(alloc, matches, "data")?,
        symbols: all_given(alloc, matches, "symbol")?,
        slots: all_given(alloc, matches, "slot")?,
        callees: all_given(alloc, matches, "callee")?,
        setting: given(matches, "setting"),
        answers: all_given(alloc, matches, "answer")?,
        unit: given(matches, "unit"),
        registers: all_given(alloc, matches, "REGISTER=VALUE")?,
    })
}

fn error_text(alloc: Global, error: &Error) -> Result<List<u8>, OutOfMemory> {
    Ok(List::from_vec(error.to_string(alloc)?.into_bytes()))
}

// An error of a parse, by its kind.
fn words_error(alloc: Global, error: &Error) -> WordsError
    ensures { IsOfKind (kind_of error.now) result }
{
    let Ok(text) = error_text(alloc, error) else {
        return WordsError::OutOfMemory;
    };
    match error.kind() {
        ErrorKind::DisplayHelp => WordsError::Help { text },
        ErrorKind::DisplayVersion => WordsError::Version { text },
        ErrorKind::OutOfMemory => WordsError::OutOfMemory,
        _ => WordsError::Wrong { text },
    }
}

/// What the words after the program's name give.
pub fn read_words<'a>(alloc: Global, words: &'a [String]) -> Result<Given<'a>, WordsError>
    ensures { Parses (map string_bytes words.entry.now) result }
{
    let Ok(command) = command(alloc) else {
        return Err(WordsError::OutOfMemory);
    };
    let matches = match command.try_get_matches_from(words) {
        Ok(matches) => matches,
        Err(error) => return Err(words_error(alloc, &error)),
    };
    match given_by(alloc, &matches) {
        Ok(given) => Ok(given),
        Err(OutOfMemory) => Err(WordsError::OutOfMemory),
    }
}
