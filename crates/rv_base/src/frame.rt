//! The stack frame of a function.

ghost use Rattle.std.specs.Prelude.{◌≡◌, ◌<◌, ◌^◌};
ghost use Rattle.rv_base.specs.Frame.{no_frame, sp_to_fp_of};

use crate::list::List;
use crate::regs::{PReg, Writable};
use std::alloc::Global;

/// A function's frame, its sizes in bytes, from the caller's arguments, which lie highest, down to the stack pointer.
#[derive(Drop)]
pub struct FrameLayout {
    /// The function's incoming arguments, and room for those of its tail calls.
    pub tail_args_size: u32,
    /// The return address and the caller's frame pointer.
    pub setup_area_size: u32,
    /// The callee-saved registers that this function saves.
    pub clobber_size: u32,
    /// The stack slots and the register allocator's spills.
    pub fixed_frame_storage_size: u32,
    /// The stack slots alone, a part of the one before.
    pub stackslots_size: u32,
    /// The arguments of the function's own calls.
    pub outgoing_args_size: u32,
    /// The registers that a callee saves and this function writes.
    pub clobbered_callee_saves: List<Writable<PReg>>,
}

impl FrameLayout {
    /// A frame of no bytes. Takes no memory.
    pub fn none(alloc: Global) -> FrameLayout
        ensures { result ≡ no_frame }
    {
        FrameLayout {
            tail_args_size: 0,
            setup_area_size: 0,
            clobber_size: 0,
            fixed_frame_storage_size: 0,
            stackslots_size: 0,
            outgoing_args_size: 0,
            clobbered_callee_saves: List::new(alloc),
        }
    }

    /// How far the frame pointer is above the stack pointer, in bytes: below 2^31.
    pub fn sp_to_fp(&self) -> u32
        requires { sp_to_fp_of self.now < 2 ^ 31 }
        ensures { result ≡ sp_to_fp_of self.now }
    {
        self.clobber_size + self.fixed_frame_storage_size + self.outgoing_args_size
    }
}
