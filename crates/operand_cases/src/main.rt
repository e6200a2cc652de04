//! Goes through lines with what a compiler's back end is told of their instructions. It stands on no emission.
#![tactic(auto)]

mod constraints;
mod facts;
mod questions;
mod roles;

use case_files::{CaseError, Cases, go_through_file, run_cases};
use questions::Question;
use std::process::ExitCode;

/// Questions about instructions.
struct Instructions;

impl Cases for Instructions {
    fn go_through(&self, rt: &HostRuntime, path: &str) -> Result<u32, CaseError> {
        go_through_file::<Question>(rt, path)
    }
}

fn main(rt: HostRuntime) -> ExitCode {
    run_cases(&rt, &Instructions)
}
