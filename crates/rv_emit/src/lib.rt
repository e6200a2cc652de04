//! An instruction becomes a sequence of bytes, with its uses of labels.
#![tactic(auto)]

mod calls;
mod emit;
mod island;
mod results;
mod sequence;
mod setting;
mod stack;
mod state;
mod symbols;
mod table;
mod units;

pub use emit::MachInstEmit;
pub use island::emit_island_if_needed;
pub use rv_code::EmitVState;
pub use state::{EmitInfo, EmitState, MachInstEmitState};
