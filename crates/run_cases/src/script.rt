//! What is done with code, a line each. Numbers are in hexadecimal digits but for registers'.
//!
//!     symbols FIRST SECOND    where userextname0 and userextname1 are
//!     slots FIRST SECOND      where the slots are that hold their addresses
//!     code ADDRESS            the listing in the lines after it is placed there, and linked; the first makes the machine
//!     code ADDRESS < FILE     the listing of a file is
//!     fill                    each register has its number in each byte
//!     set REGISTER:VALUE ..   registers are set
//!     put ADDRESS:VALUE ..    doublewords are
//!     from ADDRESS            the machine stands there
//!     run ADDRESS             it runs there, in at most 10,000 steps
//!     see REGISTER ..         says what registers have
//!     changed                 which of x1 to x29 have changed since they were last set
//!     kept                    whether the doublewords are as they were put
//!     doubleword ADDRESS      what is there
//!     records FRONT           which lines of the last code's report begin so

use crate::bench::Bench;
use crate::error::{RunError, told};
use case_files::{CaseError, first_word, number, read, word_number};
use std::alloc::Global;

/// A bench, and the listing that is to be put there.
#[derive(Drop)]
struct Play {
    bench: Bench,
    listing: String,
}

/// Two addresses.
fn two(rest: &str) -> [u64; 2] {
    let mut words = rest.split(' ');
    let first = word_number(words.next());
    [first, word_number(words.next())]
}

impl Play {
    fn new(alloc: Global) -> Play {
        Play {
            bench: Bench::new(alloc),
            listing: String::new(alloc),
        }
    }

    /// Puts the listing that was read, if there is one.
    fn put_listing(&mut self) -> Result<(), RunError> {
        if self.listing.is_empty() {
            return Ok(());
        }
        self.bench.put_code(&self.listing)?;
        self.listing.clear();
        Ok(())
    }

    /// Begins code at an address; `ADDRESS < FILE` is the whole.
    fn begin_code(&mut self, rt: &HostRuntime, rest: &str) -> Result<(), RunError> {
        let (address, path) = rest.split_once(" < ").unwrap_or((rest, ""));
        self.bench.placing.base = number(address);
        if !path.is_empty() {
            self.listing = read(rt, path)?;
        }
        Ok(())
    }

    /// Does what places code, and returns whether a line does.
    fn places(&mut self, rt: &HostRuntime, word: &str, rest: &str) -> Result<bool, RunError> {
        match word {
            "symbols" => self.bench.placing.symbols = two(rest),
            "slots" => self.bench.placing.slots = two(rest),
            "code" => {
                self.put_listing()?;
                self.begin_code(rt, rest)?;
            }
            _ => return Ok(false),
        }
        Ok(true)
    }

    /// Does what runs code, and returns whether a line does.
    fn runs(&mut self, word: &str, rest: &str) -> Result<bool, RunError> {
        match word {
            "fill" => self.bench.fill(),
            "set" => self.bench.set(rest),
            "put" => self.bench.put(rest)?,
            "from" => self.bench.stand_at(number(rest)),
            "run" => self.bench.run_to(number(rest))?,
            _ => return Ok(false),
        }
        Ok(true)
    }

    /// Says what a line asks for, and returns whether it does.
    fn says(&mut self, word: &str, rest: &str) -> Result<bool, RunError> {
        match word {
            "see" => self.bench.see(rest)?,
            "changed" => self.bench.say_changed()?,
            "kept" => self.bench.say_kept()?,
            "doubleword" => self.bench.say_doubleword(number(rest))?,
            "records" => self.bench.say_records(rest)?,
            _ => return Ok(false),
        }
        Ok(true)
    }

    /// Plays a line.
    fn play(&mut self, rt: &HostRuntime, line: &str) -> Result<(), RunError> {
        let (word, rest) = first_word(line);
        if self.places(rt, word, rest)? {
            return Ok(());
        }
        if is_action(word) {
            self.put_listing()?;
            let is_run = self.runs(word, rest)?;
            if !is_run {
                self.says(word, rest)?;
            }
            return Ok(());
        }
        self.listing.push_str(line)?;
        self.listing.push_str("\n")?;
        Ok(())
    }
}

/// Whether a line with this first word is no line of a listing, but runs code or asks for something.
fn is_action(word: &str) -> bool {
    matches!(
        word,
        "fill"
            | "set"
            | "put"
            | "from"
            | "run"
            | "see"
            | "changed"
            | "kept"
            | "doubleword"
            | "records"
    )
}

/// What is said over all lines.
fn said(rt: &HostRuntime, given: &str) -> Result<String, RunError> {
    let mut play = Play::new(rt.alloc());
    for line in given.lines() {
        play.play(rt, line)?;
    }
    play.put_listing()?;
    Ok(play.bench.said)
}

/// What is said over all lines, or what keeps the code from running.
pub(crate) fn played(rt: &HostRuntime, given: &str) -> Result<String, CaseError> {
    told(rt.alloc(), said(rt, given))
}
