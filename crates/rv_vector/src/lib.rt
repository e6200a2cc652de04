//! The setting of the vector unit: how many elements an instruction works on, and how vector registers are read (the manual's
//! chapter "V", "Vector Type (vtype) Register" and "Configuration-Setting Instructions").
#![tactic(auto)]

mod avl;
mod modes;
mod vstate;
mod vtype;
mod widths;

pub use avl::VecAvl;
pub use modes::{VecMaskMode, VecTailMode};
pub use vstate::VState;
pub use vtype::VType;
pub use widths::{VecElementWidth, VecLmul};
