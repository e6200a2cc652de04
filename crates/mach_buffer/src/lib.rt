//! A buffer of code: bytes, labels, uses of labels, and the islands by which far labels are reached.
#![tactic(auto)]

mod buffer;
mod code;
mod constants;
mod finish;
mod islands;
mod patches;

pub use buffer::{LINE_SPACE, MachBuffer};
pub use finish::Finished;
pub use mach_records::{
    ConstPlace, Event, FinalizedMachExceptionHandler, FinalizedRelocTarget, MachPatchable,
    MachRecord, MachReloc, MachStackMap, MachTrap, MachTryCallSite, MachUnwind,
};
pub use mach_uses::{LabelPlace, Use};
