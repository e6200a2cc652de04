//! From a listing to its code.
#![tactic(auto)]

mod assembly;
mod frame;
mod line_laws;
mod lines;
mod refusal;
mod returns;
mod survey;

pub use assembly::{assemble, assemble_checked, check_lines};
pub use line_laws::{
    elsewhere_unchanged, entry_is_first_line, fine_lines_accepted, lines_run, nothing_runs,
    only_memory_left, runs_compose, same_are_loaded_alike, silent_lines_unrecorded,
    spans_are_short, stack_loads_fine, stack_stores_fine, stored_is_loaded,
};
pub use rv_listing::{ReadError, read_job, report};
