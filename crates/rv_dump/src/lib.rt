//! Code as lines of text, an instruction each, and back.
#![tactic(auto)]

mod marks;
mod reading;
mod writing;

pub use marks::{Kind, Mark, marks_of};
pub use reading::{UndumpError, undump};
pub use writing::dump;
