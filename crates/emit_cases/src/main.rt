//! Goes through listings with the reports and the refusals that they must have.
#![tactic(auto)]

mod failing;
mod repeats;
mod words;

use case_files::{
    Asks, Case, CaseError, Cases, ending_of, expect_text, first_line, first_word, go_through_file,
    read, run_cases, status_and_text, words_of,
};
use hex::encode;
use rv_command::run;
use rv_stream::{Sink, Source, SureSink, SureSource};
use sha2::{Digest, Sha256};
use std::alloc::{AllocError, Global};
use std::fs;
use std::process::ExitCode;

/// The line before a listing whose report is a short one.
const FLAGS: &str = "flags m zba zbb zca zcb\n";

/// The status of a call with these words, of which nothing is promised, so that what calls it need not carry what `run` promises.
fn status_of<S: Source, K: Sink>(
    alloc: Global,
    words: &[String],
    source: &mut S,
    sink: &mut K,
) -> u8 {
    run(alloc, words, source, sink).status()
}

/// The status of a call with these words over a listing, a space, and its text.
fn given_with(alloc: Global, words: &[String], listing: &str) -> Result<String, AllocError> {
    let mut source = SureSource::new(listing.as_bytes());
    let mut sink = SureSink::new(alloc);
    let status = status_of(alloc, words, &mut source, &mut sink);
    status_and_text(alloc, status, sink.bytes())
}

/// The same of a call without words.
fn given_by(alloc: Global, listing: &str) -> Result<String, AllocError> {
    given_with(alloc, &[], listing)
}

/// The same of a command, in a line before its listing.
fn given_by_command(alloc: Global, given: &str) -> Result<String, AllocError> {
    let (command, listing) = first_line(given);
    let (_, words) = first_word(command);
    given_with(alloc, &words_of(alloc, words)?, listing)
}

/// The name of a listing, of the rest of an answer's name, and whether it stands after the line with flags.
fn listing_of(rest: &str) -> (&str, bool) {
    match rest.strip_suffix(".short") {
        Some(name) => (name, true),
        None => (rest, false),
    }
}

/// What comes of the listing of an answer.
fn given_by_file(rt: &HostRuntime, rest: &str) -> Result<String, CaseError> {
    let (name, is_short) = listing_of(rest);
    let path = format!(in rt.alloc(); "{name}.lst")?;
    let listing = read(rt, &path)?;
    if !is_short {
        return Ok(given_by(rt.alloc(), &listing)?);
    }
    let flagged = format!(in rt.alloc(); "{FLAGS}{listing}")?;
    Ok(given_by(rt.alloc(), &flagged)?)
}

/// Compares a report.
fn go_through_report(rt: &HostRuntime, path: &str, rest: &str) -> Result<u32, CaseError> {
    let report = read(rt, path)?;
    let wanted = format!(in rt.alloc(); "0 {report}")?;
    let got = given_by_file(rt, rest)?;
    expect_text(rt.alloc(), path, &wanted, &got)?;
    Ok(1)
}

/// Compares the SHA-256 of a report.
fn go_through_digest(rt: &HostRuntime, path: &str, rest: &str) -> Result<u32, CaseError> {
    let wanted = read(rt, path)?;
    let got = given_by_file(rt, rest)?;
    let report = got.strip_prefix("0 ").unwrap_or(&got);
    let digits = encode(rt.alloc(), Sha256::digest(report.as_bytes()))?;
    expect_text(rt.alloc(), path, wanted.trim_end(), &digits)?;
    Ok(1)
}

/// Fails unless a listing has an answer.
fn expect_answer(rt: &HostRuntime, path: &str, name: &str) -> Result<u32, CaseError> {
    for ending in ["report", "sha256"] {
        let answer = format!(in rt.alloc(); "{name}.{ending}")?;
        if fs::exists(rt, &answer)? {
            return Ok(0);
        }
    }
    Err(CaseError::Form {
        text: format!(in rt.alloc(); "{path}: a listing without an answer")?,
    })
}

/// What is given.
#[derive(Clone, Copy)]
enum Question {
    /// A listing.
    Listing,
    /// A longer one.
    LongListing,
    /// A listing of one word or halfword; the answer is its digits.
    Word,
    /// A command, in a line before its listing.
    Command,
    /// A call of which a read or a write fails.
    Failing,
    /// A listing in which lines stand many times; the answer is some lines of its report.
    Repeats,
}

impl Asks for Question {
    fn of_ending(ending: &str) -> Option<Question> {
        match ending {
            "rows" => Some(Question::Listing),
            "cases" => Some(Question::LongListing),
            "words" => Some(Question::Word),
            "commands" => Some(Question::Command),
            "failing" => Some(Question::Failing),
            "repeats" => Some(Question::Repeats),
            _ => None,
        }
    }

    fn is_of_blocks(self) -> bool {
        match self {
            Question::Listing | Question::Word | Question::Failing => false,
            Question::LongListing | Question::Command | Question::Repeats => true,
        }
    }

    fn answer(self, rt: &HostRuntime, case: &Case) -> Result<String, CaseError> {
        let alloc = rt.alloc();
        match self {
            Question::Listing | Question::LongListing => Ok(given_by(alloc, &case.given)?),
            Question::Word => Ok(words::digits_of(alloc, &case.given)?),
            Question::Command => Ok(given_by_command(alloc, &case.given)?),
            Question::Failing => failing::given_by_row(alloc, &case.given),
            Question::Repeats => Ok(repeats::lines_of(alloc, &case.given, &case.answer)?),
        }
    }
}

/// Calls of the program.
struct Calls;

impl Cases for Calls {
    fn go_through(&self, rt: &HostRuntime, path: &str) -> Result<u32, CaseError> {
        let (rest, ending) = ending_of(path);
        match ending {
            "lst" => expect_answer(rt, path, rest),
            "report" => go_through_report(rt, path, rest),
            "sha256" => go_through_digest(rt, path, rest),
            _ => go_through_file::<Question>(rt, path),
        }
    }
}

fn main(rt: HostRuntime) -> ExitCode {
    run_cases(&rt, &Calls)
}
