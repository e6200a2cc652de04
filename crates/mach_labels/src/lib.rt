//! A table of labels by number, in constant time for the numbers that listings and buffers use.
#![tactic(auto)]

mod slots;
mod table;

pub use table::{FIRST_CONSTANT, FIRST_INNER, LabelTable};
