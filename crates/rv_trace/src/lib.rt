//! The text of instructions and steps, as an assembler writes them.
#![tactic(auto)]

mod instruction;
mod operands;

pub use instruction::{put_instruction, put_step};
pub use operands::{Operands, operands_of};
