//! The call of the program `rvemit`: what its words ask for, what it reads, how it ends, and what it writes.
#![tactic(auto)]

mod answer;
mod outcome;
mod program;
mod words;

pub use outcome::{Ending, Outcome};
pub use program::{run, run_explained};
pub use rv_stream::{MemSink, MemSource, Sink, Source, StdSink, StdSource, SureSink, SureSource};
pub use words::{Request, WordsError, read_words};
