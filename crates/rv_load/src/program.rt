//! Code to run, as a report or hexadecimal digits give it.

ghost use Rattle.rv_load.specs.Hex.{ReadsHex};

use crate::digits::marks;
pub use crate::report::read_report;
use rv_base::List;
use rv_inst::{LabelPlace, LineSpan, MachReloc};
use rv_listing::{LineError, hex_bytes};
use std::alloc::Global;
use thiserror::Error;

/// Machine code, with where the lines and the labels of its listing stand in it, in bytes from its start, and what a linker fills.
#[derive(Drop)]
pub struct Program {
    pub bytes: List<u8>,
    pub lines: List<LineSpan>,
    pub labels: List<LabelPlace>,
    pub relocs: List<MachReloc>,
}

/// Why a text gives no code.
#[derive(Clone, Copy, Debug, PartialEq, Eq, Error)]
pub enum ProgramError {
    /// The first line, counted from 1, that no report has there.
    #[error("no report has line {line} there")]
    NotReport { line: usize },
    /// The text is not an even number of hexadecimal digits, with spaces and ends of lines anywhere.
    #[error("not hexadecimal digits in pairs")]
    NotHex,
    #[error("out of memory")]
    OutOfMemory,
}

/// The code that hexadecimal digits give; it has no lines, no labels and no relocations.
pub fn read_hex(alloc: Global, text: &[u8]) -> Result<Program, ProgramError>
    ensures { ReadsHex text.now result }
{
    let Ok(marks) = marks(alloc, text) else {
        return Err(ProgramError::OutOfMemory);
    };
    match hex_bytes(alloc, &marks) {
        Ok(bytes) => Ok(Program {
            bytes,
            lines: List::new(alloc),
            labels: List::new(alloc),
            relocs: List::new(alloc),
        }),
        Err(LineError::NotAllowed) => Err(ProgramError::NotHex),
        Err(LineError::OutOfMemory) => Err(ProgramError::OutOfMemory),
    }
}
