//! The texts of instructions, as a person reads them: `AluRRR add a0 a0 a1` is `add a0,a0,a1`. They are for reading; a listing has
//! other forms of lines (`rv_listing`), and an assembler takes only some of them.
#![tactic(auto)]

mod atomics;
mod calls;
mod control;
mod floats;
mod integer;
mod lines;
mod loops;
mod memory;
mod operands;
mod pseudo;
mod symbols;
mod text;

pub use lines::texts;
pub use text::{ToText, put_text};
