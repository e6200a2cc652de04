//! What an instruction asks of a register allocator.

use crate::preg_set::PRegSet;
use crate::regs::{Reg, Writable};

/// One request of an instruction, named as the visitor's method that records it.
#[derive(Clone, Copy, Debug, PartialEq, Eq)]
pub enum Constraint {
    /// A register that is read as the instruction begins.
    RegUse(Reg),
    /// A register that is read until the instruction ends.
    RegLateUse(Reg),
    /// A register that is read as the instruction begins, and the one that it has to be in.
    RegFixedUse(Reg, Reg),
    /// A register that is read until the instruction ends, and the one that it has to be in.
    RegFixedLateUse(Reg, Reg),
    /// A register that is written as the instruction ends.
    RegDef(Writable<Reg>),
    /// A register that is written before the sources are read.
    RegEarlyDef(Writable<Reg>),
    /// A register that is written, and the one that it has to be in.
    RegFixedDef(Writable<Reg>, Reg),
    /// A register that is written, and the index, from 0, of the earlier request whose register it is.
    RegReuseDef(Writable<Reg>, usize),
    /// A value that is written to a register or to memory.
    AnyDef(Writable<Reg>),
    /// Registers whose values the instruction destroys.
    RegClobbers(PRegSet),
}
