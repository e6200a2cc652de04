//! What a run begins with: the code that a report or hexadecimal digits give, and what the words ask for.
#![tactic(auto)]

mod answers;
mod callees;
mod digits;
mod given;
mod program;
mod records;
mod report;
mod settings;
mod words;

pub use callees::Callee;
pub use given::Given;
pub use program::{Program, ProgramError, read_hex, read_report};
pub use settings::{
    BadWord, Data, Named, RegisterValue, Settings, SettingsError, Start, settings_of,
};
pub use words::{WordsError, read_words};
