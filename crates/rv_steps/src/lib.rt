//! Steps of the project's machine with all units: from a start to an end, and the text of a step.
#![tactic(auto)]

mod callees;
mod ending;
mod files;
mod host;
mod progress;
mod running;
mod starting;
mod tracing;
mod written;

pub use ending::{Ending, Place};
pub use files::{Files, Style, files_of, unit_lines};
pub use progress::{Progress, Silent};
pub use running::run_code;
pub use starting::begin;
pub use tracing::run_traced;
pub use written::Written;
