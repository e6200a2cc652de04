//! Runs programs on the machine: each line of standard input has eight arguments and then a program's operations, and for each line
//! the value that the code returns is written, or why there is no code. Each program is compiled and run under two choices of flags,
//! without and with compressed forms.
#![tactic(auto)]

mod run;
mod text;

use run::{Ended, run_code};
use rv_base::{IsaFlags, OutOfMemory};
use rv_expr::{ExprError, ExprOp, compile};
use std::alloc::Global;
use std::io::{self, BufRead, BufReader, BufWriter, Write};
use std::process::ExitCode;
use text::{Case, case_of};

/// What came of a program.
#[derive(Clone, Copy)]
enum Came {
    Value(u64),
    Error(ExprError),
    /// The code didn't return, or changed a register that a callee keeps.
    Wrong,
}

fn all_flags() -> IsaFlags {
    IsaFlags {
        has_m: true,
        has_zba: true,
        has_zbb: true,
        has_zca: true,
        has_zcb: true,
        has_zcd: false,
        has_zfhmin: false,
    }
}

fn came_of(
    alloc: Global,
    flags: IsaFlags,
    args: &[u64],
    ops: &[ExprOp],
) -> Result<Came, OutOfMemory> {
    let code = match compile(alloc, flags, ops) {
        Ok(code) => code,
        Err(ExprError::OutOfMemory) => return Err(OutOfMemory),
        Err(error) => return Ok(Came::Error(error)),
    };
    match run_code(alloc, flags, code.bytes.as_slice(), args)? {
        Ended::Returned(value) => Ok(Came::Value(value)),
        Ended::Lost | Ended::Changed => Ok(Came::Wrong),
    }
}

fn put_came<W: Write>(out: &mut W, came: &Came) -> io::Result<()> {
    match came {
        Came::Value(value) => writeln!(out, "{value}"),
        Came::Error(error) => writeln!(out, "{error:?}"),
        Came::Wrong => writeln!(out, "wrong"),
    }
}

fn put_case<W: Write>(alloc: Global, out: &mut W, case: &Case) -> io::Result<()> {
    let short = came_of(alloc, IsaFlags::none(), &case.args, &case.ops);
    let long = came_of(alloc, all_flags(), &case.args, &case.ops);
    match (short, long) {
        (Ok(Came::Value(x)), Ok(Came::Value(y))) if x != y => writeln!(out, "{x} or {y}"),
        (Ok(Came::Value(_)), Ok(came)) | (Ok(came), Ok(_)) => put_came(out, &came),
        _ => writeln!(out, "out of memory"),
    }
}

fn put_cases(rt: &HostRuntime) -> io::Result<()> {
    let alloc = rt.alloc();
    let mut out = BufWriter::new(alloc, io::writer(rt))?;
    for line in BufReader::new(alloc, rt.reader())?.lines(alloc) {
        match case_of(alloc, &line?) {
            Ok(Some(case)) => put_case(alloc, &mut out, &case)?,
            Ok(None) => writeln!(out, "no program")?,
            Err(OutOfMemory) => writeln!(out, "out of memory")?,
        }
    }
    out.flush()
}

fn main(rt: HostRuntime) -> ExitCode {
    match put_cases(&rt) {
        Ok(()) => ExitCode::SUCCESS,
        Err(_) => ExitCode::FAILURE,
    }
}
