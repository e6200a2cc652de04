//! Formulas such as `c ? x + 1 : y & 3`, read to straight-line programs. Operators and their precedence are C's; `>>` is the logical shift,
//! `>>>` the arithmetic one, and `/`, `%` and `<` are unsigned. Arguments are `a0` to `a7`, and numbers have 64 bits, decimal or `0x` and
//! lower-case hex digits.
#![tactic(auto)]

mod error;
mod laws;
mod parser;
mod token;

pub use error::FormulaError;
pub use laws::no_formula_begins_so;
pub use parser::parse;
