//! What a buffer of code records beside its bytes: traps, relocations, calls, maps of the stack and steps in the making of a frame;
//! and lists of each.
#![tactic(auto)]

mod records;
mod split;

pub use records::{
    ConstPlace, Event, FinalizedMachExceptionHandler, FinalizedRelocTarget, MachPatchable,
    MachRecord, MachReloc, MachStackMap, MachTrap, MachTryCallSite, MachUnwind, Recorded,
};
pub use split::{by_kind, copy_of_map, finalized};
