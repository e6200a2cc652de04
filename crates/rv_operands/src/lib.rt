//! What a compiler's back end asks of an instruction: which move, call or end of a block it is, and how moves, jumps and instructions
//! without effect are made.
#![tactic(auto)]

mod calls;
mod get_operands;
mod groups;
mod kinds;
mod laws;
mod mach_inst;
mod pairs;
mod reg_classes;
mod visits;

pub use kinds::{CallType, MachTerminator};
pub use laws::{chosen_registers_keep_rules, temporaries_are_scratched};
pub use mach_inst::MachInst;
pub use reg_classes::{RegClasses, RegTypes};
