//! How an atomic loop runs on the machine with all units, whatever others write to its memory between its steps.
#![tactic(auto)]

mod laws;

pub use laws::{
    atomic_loops_alone, atomic_loops_run, atomic_words, loops_alone, loops_run, passes_end,
    still_runs,
};
