//! A floating-point unit: what the operations of "F" and "D" compute, by the arithmetic of the toolchain. It rounds to nearest, ties
//! to even, but for integers, which it rounds to in each mode.
#![tactic(auto)]

mod arithmetic;
mod choices;
mod classes;
mod integers;
mod numbers;
mod unit;

pub use integers::Integer;
pub use numbers::{Operands, Precision};
pub use unit::{Rounding, answer_of};
