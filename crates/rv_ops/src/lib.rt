//! The operations that instructions are parameterized by, with their mnemonics and the fields of their words.
#![tactic(auto)]

mod alu;
mod atomic;
mod compare;
mod compressed;
mod csr;
mod fli;
mod float_fields;
mod fpu;
mod fpu_rr;
mod memory;
mod vec_amode;

pub use alu::{AluOPRRI, AluOPRRR};
pub use atomic::{AMO, AtomicOP, AtomicRmwOp};
pub use compare::{BranchFunct3, IntegerCompare};
pub use compressed::{
    CFloatOp, COpcodeSpace, CaOp, CbOp, CiOp, CiwOp, CjOp, ClOp, CrOp, CsOp, CssOp, CsznOp,
    ZcbMemOp,
};
pub use csr::{CSR, CsrImmOP, CsrRegOP};
pub use fli::FliConstant;
pub use float_fields::{FClassResult, FFlagsException, FRM, FpuOPWidth};
pub use fpu::{FpuOPRRR, FpuOPRRRR};
pub use fpu_rr::FpuOPRR;
pub use memory::{LoadOP, StoreOP};
pub use vec_amode::VecAMode;
