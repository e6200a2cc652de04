//! Cases that stand in files, a folder a family: what is given, and what must come of it.
#![tactic(auto)]

mod blocks;
mod error;
mod folders;
mod numbers;
mod questions;
mod rows;
mod words;

pub use blocks::blocks_of;
pub use error::{CaseError, expect_text};
pub use folders::{Cases, read, run_cases};
pub use numbers::{EMPTY_DIGEST, digest_with, next_random, number, word_number};
pub use questions::{Asks, ending_of, go_through_file};
pub use rows::{Case, rows_of};
pub use words::{first_line, first_word, status_and_text, words_of};
