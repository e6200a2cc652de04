//! The registers of arguments and results, where a function begins, returns, or calls another.

use crate::ir_type::IrType;
use crate::label::MachLabel;
use crate::list::List;
use crate::preg_set::PRegSet;
use crate::regs::{Reg, Writable};

/// An argument: the register that it comes in, and the one that the function's body reads.
#[derive(Clone, Copy, Debug)]
pub struct ArgPair {
    pub vreg: Writable<Reg>,
    pub preg: Reg,
}

/// A result: the register that the body leaves it in, and the one that the caller finds it in.
#[derive(Clone, Copy, Debug)]
pub struct RetPair {
    pub vreg: Reg,
    pub preg: Reg,
}

/// An argument of a call: the register that the caller's code leaves it in, and the one that the callee finds it in.
#[derive(Clone, Copy, Debug)]
pub struct CallArgPair {
    pub vreg: Reg,
    pub preg: Reg,
}

/// Where a callee leaves a result.
#[derive(Clone, Copy, Debug)]
pub enum RetLocation {
    /// In a register.
    Reg(Reg),
    /// On the stack, so many bytes above the stack pointer as the call leaves it.
    Stack { offset: u32, ty: IrType },
}

/// A result of a call: the register that the caller's code reads, and where the callee leaves it.
#[derive(Clone, Copy, Debug)]
pub struct CallRetPair {
    pub vreg: Writable<Reg>,
    pub location: RetLocation,
}

/// The values on the stack that a collector must find while a call is under way.
#[derive(Drop)]
pub struct UserStackMap {
    /// Each value's type, and its offset in bytes above the stack pointer.
    pub entries: List<(IrType, u32)>,
}

/// Where control goes where the callee of a call throws.
#[derive(Clone, Copy, Debug, PartialEq, Eq)]
pub enum TryCallHandler {
    /// To the label, for an exception with the tag.
    Tag(u32, MachLabel),
    /// To the label, for any exception that no handler before it takes.
    Default(MachLabel),
}

/// Where control goes after a call that ends its block.
#[derive(Drop)]
pub struct TryCallInfo {
    /// Where it returns.
    pub continuation: MachLabel,
    /// Where it throws, in the order in which they are asked.
    pub handlers: List<TryCallHandler>,
}

/// A call.
#[derive(Drop)]
pub struct CallInfo<T> {
    /// What is called: a symbol, or the register with its address.
    pub dest: T,
    /// The arguments in registers.
    pub uses: List<CallArgPair>,
    /// The results.
    pub defs: List<CallRetPair>,
    /// The registers that the callee may write, beside those of results.
    pub clobbers: PRegSet,
    /// How far the stack pointer falls after the call, in bytes: by the arguments that the callee took away.
    pub callee_pop_size: u32,
    /// Whether the call's place is reported as one that may be patched.
    pub patchable: bool,
    /// The values on the stack that are reported with it, where a collector may run.
    pub stack_map: Option<UserStackMap>,
    /// Where control goes on, where the call ends its block; else after the call.
    pub try_call_info: Option<TryCallInfo>,
}

/// A tail call: the callee takes the place of the function, whose caller it returns to.
#[derive(Drop)]
pub struct ReturnCallInfo<T> {
    /// What is called: a symbol, or the register with its address.
    pub dest: T,
    /// The arguments in registers.
    pub uses: List<CallArgPair>,
    /// The callee's arguments on the stack, in bytes: at most the frame's `tail_args_size`.
    pub new_stack_arg_size: u32,
}
