//! Code as lines, with data where the listing beside its report has it.

ghost use Rattle.std.specs.Prelude.{IfOk};
ghost use Rattle.rvdis.specs.Making.{IsCodeOf};

use crate::making::{Given, MakeError, lines_of};
use rv_base::{IrType, List, OutOfMemory};
use rv_dump::{Kind, Mark, marks_of};
use rv_inst::{Inst, Line};
use rv_listing::{decimal, first_part, next_line, next_part};
use rv_load::{ProgramError, read_report};
use std::alloc::Global;

// How many bytes at the end of a line's code are data, where the report has no mark of them.
fn data_len(inst: &Inst) -> u64 {
    match inst {
        Inst::RawData { bytes } => bytes.len() as u64,
        Inst::LoadInlineConst {
            rd: _,
            ty: IrType::I64,
            imm: _,
        } => 8,
        Inst::LoadInlineConst {
            rd: _,
            ty: _,
            imm: _,
        } => 4,
        _ => 0,
    }
}

// Where the data stands of the line that a line of the report is of: its start and its end, in bytes from the code's start.
fn data_of(lines: &[Line], line: &[u8]) -> Option<(u64, u64)> {
    let (name, rest) = first_part(b' ', line);
    if name != b"line".as_slice() {
        return None;
    }
    let (index, rest) = next_part(b' ', rest)?;
    let (_, rest) = next_part(b' ', rest)?;
    let (end, _) = next_part(b' ', rest)?;
    let end = decimal(end)?;
    let Line::Inst(inst) = lines.get(decimal(index)? as usize)? else {
        return None;
    };
    let len = data_len(inst);
    if len == 0 {
        return None;
    }
    Some((end.checked_sub(len)?, end))
}

// Ends of data before the marks of the report, and starts after them, so that at one offset each has its turn.
fn put_marks<'a>(
    marks: &mut Vec<Mark<'a>>,
    lines: &[Line],
    report: &[u8],
    kind: Kind,
) -> Result<(), OutOfMemory> {
    let mut rest = report;
    'line: while let Some((line, after)) = next_line(rest) {
        if let Some((start, end)) = data_of(lines, line) {
            let offset = match kind {
                Kind::Data => start,
                _ => end,
            };
            marks.push(Mark {
                offset,
                kind,
                text: b"",
            })?;
        }
        rest = after;
    }
    Ok(())
}

fn all_marks<'a>(
    alloc: Global,
    lines: &[Line],
    report: &'a [u8],
) -> Result<Vec<Mark<'a>>, OutOfMemory> {
    let mut marks = Vec::new(alloc);
    put_marks(&mut marks, lines, report, Kind::Line)?;
    for mark in &marks_of(alloc, report)? {
        marks.push(*mark)?;
    }
    put_marks(&mut marks, lines, report, Kind::Data)?;
    marks.sort_by_key(|m| m.offset)?;
    Ok(marks)
}

/// The lines of a report's code, with data where these lines of its listing have it.
pub fn listed_output(
    alloc: Global,
    given: &Given,
    lines: &[Line],
    report: &[u8],
) -> Result<List<u8>, MakeError>
    ensures { IfOk result (IsCodeOf given.now report.now) }
{
    match read_report(alloc, report) {
        Ok(program) => {
            let marks = all_marks(alloc, lines, report)?;
            lines_of(alloc, given, &marks, program.bytes.as_slice())
        }
        Err(ProgramError::NotReport { line }) => Err(MakeError::NotReport { line }),
        Err(ProgramError::NotHex) | Err(ProgramError::OutOfMemory) => Err(MakeError::OutOfMemory),
    }
}
