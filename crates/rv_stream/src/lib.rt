//! Where a program's bytes come from, and where they go.
#![tactic(auto)]

mod ends;
mod in_memory;
mod standard;
mod whole;

pub use ends::{Failed, Sink, Source, WriteError};
pub use in_memory::{MemSink, MemSource, SureSink, SureSource};
pub use standard::{StdSink, StdSource};
pub use whole::{ReadAllError, read_all, write_all};
