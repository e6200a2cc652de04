//! A placer: from the code of a listing, a base and the addresses of its symbols to the image that stands there.
#![tactic(auto)]

mod placing;

pub use placing::{Image, place};
pub use rv_fill::PlaceError;
