//! Immediates of instructions: each type is one width of field, and holds only the values that fit it.
#![tactic(auto)]

mod imm12;
mod imm20;
mod imm5;
mod imm6;
mod splitting;
mod uimm5;
mod unsigned;

pub use imm5::Imm5;
pub use imm6::Imm6;
pub use imm12::Imm12;
pub use imm20::Imm20;
pub use splitting::{generate_imm, imm_max, imm_min};
pub use uimm5::UImm5;
pub use unsigned::{Uimm2, Uimm5, Uimm6};
