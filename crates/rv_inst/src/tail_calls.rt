//! Tail calls, and the frames that they take away.

ghost use Rattle.std.specs.Prelude.{◌≡◌, ◌+◌, ◌^◌, nat_le};
ghost use Rattle.std.specs.List.{list_any};
ghost use Rattle.rv_base.specs.declared.regs.Writable.{Writable as Saved};
ghost use Rattle.rv_base.specs.Frame.{sp_to_args_end};
ghost use Rattle.rv_inst.specs.Operands.{tail_call_of};
ghost use Rattle.rv_inst.specs.Rules.{exceeds_arguments};
ghost use Rattle.rv_inst.specs.Frames.{is_unsaved, is_t0, is_bad_frame, is_unrestorable, is_unrestorable_for, is_bad_frame_for};

use crate::inst::Inst;
use crate::registers::{is_reserved_x, is_stack_or_frame, is_x};
use rv_base::{FrameLayout, PReg, RegClass, Writable};

/// What a tail call asks of the frame that it takes away.
#[derive(Clone, Copy, Debug, PartialEq, Eq)]
pub struct TailCall {
    /// The callee's arguments on the stack, in bytes.
    pub stack_arg_size: u32,
    /// Whether it goes to the address in t0, and not to a symbol.
    pub by_register: bool,
}

impl Inst {
    /// The tail call that the instruction is, where it is one.
    pub fn tail_call(&self) -> Option<TailCall>
        ensures { result ≡ tail_call_of self.now }
    {
        match self {
            Inst::ReturnCall { info } => Some(TailCall {
                stack_arg_size: info.as_ref().new_stack_arg_size,
                by_register: false,
            }),
            Inst::ReturnCallInd { info } => Some(TailCall {
                stack_arg_size: info.as_ref().new_stack_arg_size,
                by_register: true,
            }),
            _ => None,
        }
    }
}

/// Returns whether a tail call's arguments on the stack take more bytes than the frame has for them.
pub fn exceeds_arguments(inst: &Inst, frame: &FrameLayout) -> bool
    ensures { result ≡ exceeds_arguments frame.now (tail_call_of inst.now) }
{
    match inst.tail_call() {
        None => false,
        Some(tail) => frame.tail_args_size < tail.stack_arg_size,
    }
}

/// Returns whether a frame has sizes that sum to 2^31 bytes or more, or saves a register that it can't.
pub fn is_bad_frame(frame: &FrameLayout) -> bool
    ensures { result ≡ is_bad_frame frame.now }
{
    is_frame_too_large(frame) || saves_unsaved(frame.clobbered_callee_saves.as_slice())
}

/// Returns whether a frame is one that the instruction, where it is a tail call, can't take away: a bad one, or one that it can't
/// restore.
pub fn is_bad_frame_for(inst: &Inst, frame: &FrameLayout) -> bool
    ensures { result ≡ is_bad_frame_for frame.now (tail_call_of inst.now) }
{
    match inst.tail_call() {
        None => false,
        Some(tail) => is_bad_frame(frame) || is_unrestorable(frame, tail),
    }
}

/// Returns whether a frame saves a register that the instruction, where it is a tail call, can't restore.
pub fn is_unrestorable_for(inst: &Inst, frame: &FrameLayout) -> bool
    ensures { result ≡ is_unrestorable_for frame.now (tail_call_of inst.now) }
{
    match inst.tail_call() {
        None => false,
        Some(tail) => is_unrestorable(frame, tail),
    }
}

fn is_unrestorable(frame: &FrameLayout, tail: TailCall) -> bool
    ensures { result ≡ is_unrestorable frame.now tail }
{
    tail.by_register && saves_t0(frame.clobbered_callee_saves.as_slice())
}

fn is_frame_too_large(frame: &FrameLayout) -> bool
    ensures { result ≡ nat_le (2 ^ 31) (sp_to_args_end frame.now) }
{
    is_sum_too_large(
        frame.tail_args_size,
        frame.setup_area_size,
        frame.clobber_size,
        frame.fixed_frame_storage_size,
        frame.outgoing_args_size,
    )
}

fn is_sum_too_large(tail: u32, setup: u32, clobber: u32, fixed: u32, outgoing: u32) -> bool
    ensures { result ≡ nat_le (2 ^ 31) (tail + setup + clobber + fixed + outgoing) }
{
    let sum = tail as u64 + setup as u64 + clobber as u64 + fixed as u64 + outgoing as u64;
    sum >= 1 << 31
}

fn saves_unsaved(saves: &[Writable<PReg>]) -> bool
    ensures { result ≡ list_any (λ (r : Saved PReg). is_unsaved r.reg) saves.now }
{
    saves.iter().any(|r| is_unsaved(r.reg))
}

fn saves_t0(saves: &[Writable<PReg>]) -> bool
    ensures { result ≡ list_any (λ (r : Saved PReg). is_t0 r.reg) saves.now }
{
    saves.iter().any(|r| is_t0(r.reg))
}

fn is_unsaved(reg: PReg) -> bool
    ensures { result ≡ is_unsaved reg }
{
    match reg.class {
        RegClass::Vector => true,
        RegClass::Int | RegClass::Float => is_x(reg, 0)
            || is_x(reg, 1)
            || is_stack_or_frame(reg)
            || is_reserved_x(reg),
    }
}

fn is_t0(reg: PReg) -> bool
    ensures { result ≡ is_t0 reg }
{
    is_x(reg, 5)
}
