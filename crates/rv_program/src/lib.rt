//! The edge of a program: its words, the input that it reads whole, what it writes, and the status that it ends with.
#![tactic(auto)]

mod answer;
mod ending;
mod options;
mod parsing;
mod program;
mod words;
mod writing;

pub use answer::{Answer, Asked, failure, success};
pub use ending::Ending;
pub use options::{opening, with_flag, with_list, with_option, with_word};
pub use parsing::{WordsError, all_given, answer_of_words, given, is_set, parse};
pub use program::{Program, run, start};
pub use words::{WordsFault, command_words};
