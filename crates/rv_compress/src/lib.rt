//! The instruction that stands for an operation: one of sixteen bits where the flags allow one, or one of thirty-two.
#![tactic(auto)]

mod compressed;
mod compressed_immediates;
mod compressed_memory;
mod compressed_registers;

pub use compressed::{
    Encoded, encoded_ebreak, encoded_jalr, encoded_load, encoded_lui, encoded_rri, encoded_rrr,
    encoded_store,
};
