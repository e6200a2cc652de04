//! What is wrong with a listing that has no code, for the person who wrote it: one line of text that names the line, its words and what
//! to mend. Lines are counted in the text, from 1, with comments, empty lines and headers. A text that has code is none of these
//! functions'; what they say of one is of no use, and does no harm.
#![tactic(auto)]

mod clashes;
mod classes;
mod forms;
mod frames;
mod headers;
mod kinds;
mod labels;
mod nearest;
mod numbers;
mod parts;
mod passed_on;
mod refusals;
mod rules;
mod syntax;
mod targets;
mod text;
mod words;

pub use passed_on::refusal_of;
pub use refusals::explain_refusal;
pub use syntax::explain_syntax;
