//! Code as lines, and lines as code.

ghost use Rattle.std.specs.Prelude.{◌≡◌, map, Ok, IfOk};
ghost use Rattle.std.specs.Bool.{Decides};
ghost use Rattle.rv_dump.specs.Dump.{dump_text};
ghost use Rattle.rv_dump.specs.Marks.{seen};
ghost use Rattle.rv_dump.specs.Reading.{reads_dump};
ghost use Rattle.rvdis.specs.Making.{is_report, digits_of, code_text, Writes, DumpsReport, DumpsHex, DumpsRaw, Dumps, Reads, Makes};

use rv_base::{IsaFlags, List, OutOfMemory};
use rv_dump::{Mark, UndumpError, dump, marks_of, undump};
use rv_load::{ProgramError, read_hex, read_report};
use std::alloc::Global;

/// What the words ask for.
#[derive(Clone, Copy, Debug, PartialEq, Eq)]
pub struct Given {
    /// Whether code is bytes, and neither a report nor hexadecimal digits.
    pub is_raw: bool,
    /// Whether the input is lines, and the output their code.
    pub is_reasm: bool,
    /// The address of the code's first byte.
    pub base: u64,
    pub flags: IsaFlags,
}

/// Why there is no output.
#[derive(Clone, Copy, Debug, PartialEq, Eq)]
pub enum MakeError {
    /// The first line, counted from 1, that no report has there.
    NotReport { line: usize },
    /// The input is neither a report nor an even number of hexadecimal digits.
    NotHex,
    /// The first line, counted from 1, that is none of this code.
    NotLine { line: usize },
    /// The lines that were made aren't read back to the code.
    NotReadBack,
    OutOfMemory,
}

fn is_report(input: &[u8]) -> bool
    ensures { result ≡ is_report input.now }
{
    input.starts_with(b"code ")
}

// Returns whether lines are read back to the code; it takes memory.
fn is_read_back(
    alloc: Global,
    given: &Given,
    lines: &[u8],
    code: &[u8],
) -> Result<bool, OutOfMemory>
    ensures { IfOk result (λ b. Decides b (reads_dump given.now.flags given.now.base lines.now ≡ Ok code.now)) }
{
    match undump(alloc, given.flags, given.base, lines) {
        Ok(back) => Ok(back.as_slice() == code),
        Err(UndumpError::NotLine { line: _ }) => Ok(false),
        Err(UndumpError::OutOfMemory) => Err(OutOfMemory),
    }
}

// The lines of code, which are read back before they are handed out.
pub(crate) fn lines_of(
    alloc: Global,
    given: &Given,
    marks: &[Mark],
    code: &[u8],
) -> Result<List<u8>, MakeError>
    ensures { Writes given.now (dump_text given.now.flags given.now.base (map seen marks.now) code.now) code.now result }
{
    let lines = dump(alloc, given.flags, given.base, marks, code)?;
    if is_read_back(alloc, given, &lines, code)? {
        Ok(List::from_vec(lines))
    } else {
        Err(MakeError::NotReadBack)
    }
}

fn report_lines(alloc: Global, given: &Given, input: &[u8]) -> Result<List<u8>, MakeError>
    ensures { DumpsReport given.now input.now result }
{
    match read_report(alloc, input) {
        Ok(program) => {
            let marks = marks_of(alloc, input)?;
            lines_of(alloc, given, &marks, program.bytes.as_slice())
        }
        Err(ProgramError::NotReport { line }) => Err(MakeError::NotReport { line }),
        Err(ProgramError::NotHex) | Err(ProgramError::OutOfMemory) => Err(MakeError::OutOfMemory),
    }
}

fn hex_lines(alloc: Global, given: &Given, input: &[u8]) -> Result<List<u8>, MakeError>
    ensures { DumpsHex given.now input.now result }
{
    match read_hex(alloc, input) {
        Ok(program) => { lines_of(alloc, given, &[], program.bytes.as_slice()) }
        Err(ProgramError::NotHex) => Err(MakeError::NotHex),
        Err(ProgramError::NotReport { line: _ }) | Err(ProgramError::OutOfMemory) => {
            Err(MakeError::OutOfMemory)
        }
    }
}

fn raw_lines(alloc: Global, given: &Given, input: &[u8]) -> Result<List<u8>, MakeError>
    ensures { DumpsRaw given.now input.now result }
{
    lines_of(alloc, given, &[], input)
}

fn lines_of_input(alloc: Global, given: &Given, input: &[u8]) -> Result<List<u8>, MakeError>
    ensures { Dumps given.now input.now result }
{
    if given.is_raw {
        raw_lines(alloc, given, input)
    } else if is_report(input) {
        report_lines(alloc, given, input)
    } else {
        hex_lines(alloc, given, input)
    }
}

// A line of hexadecimal digits.
fn digits_of(alloc: Global, bytes: &[u8]) -> Result<List<u8>, OutOfMemory>
    ensures { IfOk result (λ text. text ≡ digits_of bytes.now) }
{
    let mut text = Vec::from_slice(alloc, hex::encode(alloc, bytes)?.as_bytes())?;
    text.push(b'\n')?;
    Ok(List::from_vec(text))
}

fn code_text(alloc: Global, is_raw: bool, code: List<u8>) -> Result<List<u8>, OutOfMemory>
    ensures { IfOk result (λ text. text ≡ code_text is_raw code) }
{
    if is_raw {
        Ok(code)
    } else {
        digits_of(alloc, code.as_slice())
    }
}

fn code_of(alloc: Global, given: &Given, input: &[u8]) -> Result<List<u8>, MakeError>
    ensures { Reads given.now input.now result }
{
    match undump(alloc, given.flags, given.base, input) {
        Ok(code) => {
            let text = code_text(alloc, given.is_raw, code)?;
            Ok(text)
        }
        Err(UndumpError::NotLine { line }) => Err(MakeError::NotLine { line }),
        Err(UndumpError::OutOfMemory) => Err(MakeError::OutOfMemory),
    }
}

/// What the program writes for an input: the lines of its code, or the code of its lines.
pub fn output_of(alloc: Global, given: &Given, input: &[u8]) -> Result<List<u8>, MakeError>
    ensures { Makes given.now input.now result }
{
    if given.is_reasm {
        code_of(alloc, given, input)
    } else {
        lines_of_input(alloc, given, input)
    }
}

impl From<OutOfMemory> for MakeError {
    ghost use Rattle.rvdis.specs.declared.making.MakeError.TheVariants as errors;

    ghost from_gives = { λ word e. e ≡ errors.OutOfMemory };

    fn from(_: OutOfMemory) -> MakeError {
        MakeError::OutOfMemory
    }
}
