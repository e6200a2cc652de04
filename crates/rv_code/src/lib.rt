//! What an instruction becomes, with no buffer: its pieces and parts, where they stand in finished code, and what pieces compute.
#![tactic(auto)]

mod state;

pub use state::EmitVState;
