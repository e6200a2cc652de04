//! Generated jobs, one for each number, and the line that is written of the code of one.
#![tactic(auto)]

mod draws;
mod generator;
mod summary_line;

pub use generator::gen_job;
pub use summary_line::summary;
