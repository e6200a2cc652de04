//! `rvexpr`: compiles formulas, the words or else the lines of standard input, and writes the report of each one's code to standard
//! output.
#![tactic(auto)]

mod failure;
mod words;

use failure::Failure;
use rv_asm::report;
use rv_base::IsaFlags;
use rv_expr::compile;
use rv_formula::parse;
use rv_listing::next_line;
use rv_program::command_words;
use rv_stream::{ReadAllError, StdSource, read_all};
use std::alloc::Global;
use std::io::{self, BufWriter, Write};
use std::process::ExitCode;
use words::{Given, given_by};

/// Writes the report of a formula's code.
fn put_report<W: Write>(
    alloc: Global,
    flags: IsaFlags,
    formula: &[u8],
    out: &mut W,
) -> Result<(), Failure> {
    let ops = parse(alloc, formula)?;
    let code = compile(alloc, flags, &ops)?;
    let text = report(alloc, &code)?;
    match out.write_all(&text) {
        Ok(()) => Ok(()),
        Err(_) => Err(Failure::Write),
    }
}

fn input_of(rt: &HostRuntime) -> Result<Vec<u8>, Failure> {
    match read_all(rt.alloc(), &mut StdSource::new(rt.stdin())) {
        Ok(input) => Ok(input),
        Err(ReadAllError::Failed) => Err(Failure::Read),
        Err(ReadAllError::TooLong) => Err(Failure::TooLong),
        Err(ReadAllError::OutOfMemory) => Err(Failure::OutOfMemory),
    }
}

// A line ends in LF, or in CR and LF.
fn without_cr(line: &[u8]) -> &[u8] {
    match line.split_last() {
        Some((last, front)) if *last == b'\r' => front,
        _ => line,
    }
}

/// Writes the report of each line's code. Lines are counted from 1.
fn put_lines<W: Write>(rt: &HostRuntime, flags: IsaFlags, out: &mut W) -> Result<(), Failure> {
    let alloc = rt.alloc();
    let input = input_of(rt)?;
    let mut rest = input.as_slice();
    let mut index = 0usize;
    'lines: while let Some((line, after)) = next_line(rest) {
        if let Err(failure) = put_report(alloc, flags, without_cr(line), out) {
            return Err(failure.in_line(index));
        }
        index = index.saturating_add(1);
        rest = after;
    }
    Ok(())
}

fn put_all(rt: &HostRuntime, given: &Given) -> Result<(), Failure> {
    let Ok(mut out) = BufWriter::new(rt.alloc(), io::writer(rt)) else {
        return Err(Failure::OutOfMemory);
    };
    if given.formulas.is_empty() {
        put_lines(rt, given.flags, &mut out)?;
    }
    for formula in &given.formulas {
        put_report(rt.alloc(), given.flags, formula.as_bytes(), &mut out)?;
    }
    match out.flush() {
        Ok(()) => Ok(()),
        Err(_) => Err(Failure::Write),
    }
}

fn run(rt: &HostRuntime) -> Result<(), Failure> {
    let words = command_words(rt)?;
    let given = given_by(rt.alloc(), &words)?;
    put_all(rt, &given)
}

fn main(rt: HostRuntime) -> ExitCode {
    match run(&rt) {
        Ok(()) => ExitCode::SUCCESS,
        Err(failure) => {
            failure.show(&rt);
            ExitCode::from(failure.status())
        }
    }
}
