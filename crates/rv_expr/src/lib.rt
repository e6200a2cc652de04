//! A compiler of straight-line programs over numbers of 64 bits, which stands on the contract of `rv_asm::assemble` alone: an example
//! of how to use it, and a proof that it can be used.
#![tactic(auto)]

mod check;
mod error;
mod lines;
mod ops;
mod program;

pub use error::ExprError;
pub use ops::{BinOp, ExprOp, MAX_OPERATIONS};
pub use program::compile;
