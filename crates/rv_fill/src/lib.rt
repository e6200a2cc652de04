//! Code as a linker fills it, once it is known where it stands, and where its symbols and the slots of their addresses are.
#![tactic(auto)]

mod addresses;
mod error;
mod fields;
mod image;
mod refusal;

pub use error::PlaceError;
pub use image::fill;
