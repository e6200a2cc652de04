//! Listings read to jobs, and codes reported.
#![tactic(auto)]

mod addresses;
mod atomic_forms;
mod atomics;
mod calls;
mod code_report;
mod comparisons;
mod constant_header;
mod csr;
mod fields;
mod flags_header;
mod float_forms;
mod floats;
mod form_fields;
mod form_names;
mod forms;
mod frame_header;
mod hex_digits;
mod loop_forms;
mod named;
mod operands;
mod operations;
mod pairs;
mod reading;
mod registers;
mod relocations;
mod slots;
mod tokens;
mod traps;
mod types;
mod unwind_steps;
mod value_regs;

pub use code_report::{report, report_with};
pub use fields::{LineError, Token};
pub use flags_header::with_flag;
pub use hex_digits::hex_bytes;
pub use operands::{real_register, symbol_named};
pub use reading::{ReadError, read_job};
pub use registers::register;
pub use relocations::reloc_named;
pub use tokens::{
    decimal, first_part, first_word, natural, next_line, next_part, next_word, starts, tail,
    two_parts,
};
pub use traps::trap_named;
pub use types::type_named;
