//! The machine, of the unprivileged RISC-V manual: decoding of words of 32 bits and of 16 bits, and steps of one hart.
#![tactic(auto)]

mod arithmetic;
mod bits;
mod compressed;
mod compressed_fields;
mod compressed_layouts;
mod decoding;
mod fields;
mod int;
mod laws;
mod layouts;
mod machine;
mod muldiv;
mod opcodes;
mod ops;
mod tables;
mod unit_decoding;
mod unit_tables;
mod vectors;

pub use compressed::decode_half;
pub use decoding::{Decoded, decode, int_decode};
pub use laws::{steps_of_all_units, zero_is_no_operation};
pub use machine::{IntMachine, Step};
pub use opcodes::{
    AMO, AUIPC, BRANCH, JAL, JALR, LOAD, LOAD_FP, LUI, MADD, MISC_MEM, MSUB, NMADD, NMSUB, OP,
    OP_32, OP_FP, OP_IMM, OP_IMM_32, OP_V, STORE, STORE_FP, SYSTEM,
};
pub use ops::{
    AluOp, AtomicOp, AtomicWidth, BaseOp, BitOp, CarryOp, CsrOp, FloatFormat, FloatOp, IntOp,
    LoadOp, MOp, MulOp, StoreOp, VecFields, VecMemOp,
};
