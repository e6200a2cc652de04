//! Runs code on the project's machine with all units, and says how the run ended and what it changed.
#![tactic(auto)]

mod memory;
mod outcome;
mod output;
mod program;
mod result;

pub use outcome::Outcome;
pub use program::run;
pub use result::Run;
