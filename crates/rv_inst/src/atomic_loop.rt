//! Atomic loops: what becomes of a number of memory, or of a field of it, and which registers say where it is and with what.

use rv_base::{IrType, Reg, WritableReg};
use rv_ops::AtomicRmwOp;

/// What becomes of the number.
#[derive(Clone, Copy, Debug, PartialEq, Eq)]
pub enum Change {
    /// It is combined with the operand.
    Combines { op: AtomicRmwOp },
    /// The operand takes its place, where it is the expected number.
    Swaps { expected: Reg },
}

/// A sequence that loads and reserves a word or a doubleword (the manual's chapter "A Extension for Atomic Instructions",
/// "Load-Reserved/Store-Conditional Instructions"), changes a field of it, and stores it where no one else wrote to it meanwhile; else it
/// begins again.
///
/// The field has as many bits as the type, which is an integer of 8, 16, 32 or 64 bits, and begins at the bit that the low 6 bits of
/// `offset` say; `address` holds the address of the word, or of the doubleword for 64 bits. In `dst` it leaves what the field held, and
/// in `t0` whether the store failed. Both are written while all others are still read.
#[derive(Clone, Copy, Debug, PartialEq, Eq)]
pub struct AtomicLoop {
    pub change: Change,
    pub ty: IrType,
    pub offset: Reg,
    pub address: Reg,
    pub operand: Reg,
    pub t0: WritableReg,
    pub dst: WritableReg,
}
