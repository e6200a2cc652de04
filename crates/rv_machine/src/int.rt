//! "2.4 Integer Computational Instructions" of RV32I and "4.2 Integer Computational Instructions" of RV64I, and "Zicond":
//! what the operations compute.

ghost use Rattle.std.specs.Prelude.{◌≡◌};
ghost use Rattle.rv_machine.specs.Int.{int_result};

use crate::arithmetic::{
    amount32, amount64, extend, extend_word, is_signed_below, low_word, signed_word,
};
use crate::ops::IntOp;

/// What an operation computes of rs1, rs2 and its immediate.
pub fn int_result(op: IntOp, x: u64, y: u64, imm: u64) -> u64
    ensures { result ≡ int_result op x y imm }
{
    match op {
        IntOp::Addi => x.wrapping_add(imm),
        IntOp::Slti => u64::from(is_signed_below(x, imm)),
        IntOp::Sltiu => u64::from(x < imm),
        IntOp::Xori => x ^ imm,
        IntOp::Ori => x | imm,
        IntOp::Andi => x & imm,
        IntOp::Slli => x << amount64(imm),
        IntOp::Srli => x >> amount64(imm),
        IntOp::Srai => (x.cast_signed() >> amount64(imm)).cast_unsigned(),
        IntOp::Add => x.wrapping_add(y),
        IntOp::Sub => x.wrapping_sub(y),
        IntOp::Sll => x << amount64(y),
        IntOp::Slt => u64::from(is_signed_below(x, y)),
        IntOp::Sltu => u64::from(x < y),
        IntOp::Xor => x ^ y,
        IntOp::Srl => x >> amount64(y),
        IntOp::Sra => (x.cast_signed() >> amount64(y)).cast_unsigned(),
        IntOp::Or => x | y,
        IntOp::And => x & y,
        IntOp::Addiw => extend_word(x.wrapping_add(imm)),
        IntOp::Slliw => extend_word(x << amount32(imm)),
        IntOp::Srliw => extend_word(u64::from(low_word(x) >> amount32(imm))),
        IntOp::Sraiw => extend(signed_word(x) >> amount32(imm)),
        IntOp::Addw => extend_word(x.wrapping_add(y)),
        IntOp::Subw => extend_word(x.wrapping_sub(y)),
        IntOp::Sllw => extend_word(x << amount32(y)),
        IntOp::Srlw => extend_word(u64::from(low_word(x) >> amount32(y))),
        IntOp::Sraw => extend(signed_word(x) >> amount32(y)),
        IntOp::CzeroEqz => if y == 0 { 0 } else { x },
        IntOp::CzeroNez => if y == 0 { x } else { 0 },
    }
}
