//! Where the parts of an instruction stand in finished code, the machine does what the instruction means.
#![tactic(auto)]

mod laws;

pub use laws::{calls_resume, parts_run};
