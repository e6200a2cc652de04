//! What is recorded of a frame for those that unwind it.

use crate::regs::Reg;

/// A step in the making of a frame. Distances and sizes are in bytes.
#[derive(Clone, Copy, Debug, PartialEq, Eq)]
pub enum UnwindInst {
    /// The return address and the caller's frame pointer were pushed, and the stack pointer is this far below the caller's.
    PushFrameRegs {
        offset_upward_to_caller_sp: u32,
    },
    /// The frame pointer was set: it is this far below the caller's stack pointer, and this far above the saved registers.
    DefineNewFrame {
        offset_upward_to_caller_sp: u32,
        offset_downward_to_clobbers: u32,
    },
    /// The stack pointer was moved down.
    StackAlloc {
        size: u32,
    },
    /// A register was saved so far above the lowest saved one.
    SaveReg {
        clobber_offset: u32,
        reg: Reg,
    },
}
