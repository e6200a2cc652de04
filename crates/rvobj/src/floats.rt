//! Whether code uses floating-point registers.

use rv_base::IsaFlags;
use rv_load::Program;
use rv_machine::{MOp, decode};

fn is_float(op: MOp) -> bool {
    match op {
        MOp::FloatLoad(_) | MOp::FloatStore(_) | MOp::Float(_, _) => true,
        MOp::Base(_)
        | MOp::Load(_)
        | MOp::Store(_)
        | MOp::Alu(_)
        | MOp::Carry(_)
        | MOp::Atomic(_, _)
        | MOp::Csr(_)
        | MOp::VecMem(_)
        | MOp::Vec { .. } => false,
    }
}

fn byte_at(code: &[u8], at: usize) -> u8 {
    code.get(at).copied().unwrap_or(0)
}

// The four bytes from an offset on, with zeros after the last.
fn word_at(code: &[u8], at: usize) -> u32 {
    u32::from_le_bytes([
        byte_at(code, at),
        byte_at(code, at.wrapping_add(1)),
        byte_at(code, at.wrapping_add(2)),
        byte_at(code, at.wrapping_add(3)),
    ])
}

fn is_float_at(flags: IsaFlags, code: &[u8], at: usize) -> bool {
    match decode(flags, word_at(code, at)) {
        Some(decoded) => is_float(decoded.op),
        None => false,
    }
}

// Of the instructions from a line's start to its end. One has four bytes where the two lowest bits of its first are 11, and two else.
fn line_uses_floats(flags: IsaFlags, code: &[u8], start: u32, end: u32) -> bool {
    let mut at = start as usize;
    let end = end as usize;
    'instructions: while at < end {
        if is_float_at(flags, code, at) {
            return true;
        }
        at += if byte_at(code, at) % 4 == 3 { 4 } else { 2 };
    }
    false
}

/// Returns whether an instruction of a line of the code is one on floating-point registers. A line's data counts as instructions.
pub(crate) fn uses_floats(flags: IsaFlags, program: &Program) -> bool {
    let code = program.bytes.as_slice();
    program
        .lines
        .as_slice()
        .iter()
        .any(|line| line_uses_floats(flags, code, line.start, line.end))
}
