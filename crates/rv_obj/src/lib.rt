//! A relocatable object of a code: its layout, and its symbols and relocations.
#![tactic(auto)]

mod elf;
mod headers;
mod numbers;
mod symbols;
mod tables;

pub use elf::{Object, Rela, Symbol, object_file};
pub use symbols::{Import, object_of};
