//! Operations, and the sequences of instructions that ask for no island and call nothing, put into a buffer.
#![tactic(auto)]

mod atomics;
mod choices;
mod code;
mod counts;
mod expansions;
mod fences;
mod halves;
mod memory;
mod moves;
mod numbers;
mod parts;
mod probes;
mod reverse;
mod shortest;
mod words;

pub use atomics::put_atomic_loop;
pub use choices::{put_extend, put_select};
pub use counts::put_computation;
pub use expansions::{put_bytes, put_constant, put_load_over, put_trap, put_trap_if};
pub use fences::{put_atomic_load, put_atomic_store, put_fence};
pub use halves::{has_load, put_half_load, put_load_line, put_store_line};
pub use memory::{
    Place, addition_word, load_word, put_access, put_address, put_based_load, put_label_address,
    resolved_address,
};
pub use moves::put_move;
pub use numbers::put_number;
pub use probes::put_probe_loop;
pub use shortest::{put_ebreak, put_jalr, put_lui, put_rri, put_rrr};
pub use words::{put_branch, put_jump, put_use, put_wide_jump, put_word};
