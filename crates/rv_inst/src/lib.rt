//! Instructions and lines: what they are, which rules they keep, and what they mean.
#![tactic(auto)]

mod addresses;
mod atomic_loop;
mod boxed;
mod calls;
mod check;
mod clashes;
mod code;
mod context;
mod error;
mod fences;
mod fields;
mod generators;
mod inst;
mod job;
mod label_use;
mod places;
mod plain;
mod ranges;
mod registers;
mod results;
mod sequence;
mod sizes;
mod tail_calls;
mod targets;
mod units;

pub use atomic_loop::{AtomicLoop, Change};
pub use boxed::Boxed;
pub use clashes::same_register;
pub use code::{
    CallReturn, Code, ConstPlace, FinalizedMachExceptionHandler, LabelPlace, LineSpan,
    MachPatchable, MachReloc, MachStackMap, MachTrap, MachTryCallSite, MachUnwind,
};
pub use context::Context;
pub use error::{EmitError, Rule};
pub use fences::put_accesses;
pub use generators::{SmallInstVec, gen_moves};
pub use inst::{Brev8Info, CondBrTarget, CountInfo, Family, Inst, Line, SelectInfo};
pub use job::Job;
pub use label_use::LabelUse;
pub use results::is_on_stack;
pub use sequence::{Computation, Sequence};
pub use sizes::LINE_SIZE;
pub use tail_calls::{TailCall, is_bad_frame, is_bad_frame_for, is_unrestorable_for};
pub use targets::{Targets, handler_label};
pub use units::{Facts, InstRegs, PlacedReg};
