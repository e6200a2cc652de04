//! Goes through listings with what they are read as, and with the rules that they break. It stands on no emission.
#![tactic(auto)]

mod accesses;
mod atomics;
mod calls;
mod fields;
mod floats;
mod headers;
mod numbers;
mod questions;
mod sequences;
mod symbols;
mod tail_calls;

use case_files::{CaseError, Cases, go_through_file, run_cases};
use questions::Question;
use std::process::ExitCode;

/// Questions about lines.
struct Lines;

impl Cases for Lines {
    fn go_through(&self, rt: &HostRuntime, path: &str) -> Result<u32, CaseError> {
        go_through_file::<Question>(rt, path)
    }
}

fn main(rt: HostRuntime) -> ExitCode {
    run_cases(&rt, &Lines)
}
