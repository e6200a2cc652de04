//! The instruction that stands for an operation: one of sixteen bits where there is a form of it ("C", Compressed Instructions,
//! and "Zcb"), or one of thirty-two.
#![tactic(auto, using(crate::proofs::ChosenForms::half_holds, crate::proofs::ChosenForms::word_holds, rv_code::proofs::OperationActs::rrr_len))]

ghost use Rattle.std.specs.Prelude.{◌≡◌, true};
ghost use Rattle.rv_base.specs.Regs.{number_of};
ghost use Rattle.rv_encode.specs.Operations.{has_load, has_store};
ghost use Rattle.rv_encode.specs.Registers.{IsIntRegister, IsRealRegister};
ghost use Rattle.rv_inst.specs.Forms.{is_short, IsAddi16spFirst, short_rrr, short_rri, short_lui, short_jalr, short_ebreak, short_load, short_store};
ghost use Rattle.rv_compress.specs.Encoded.{Holds, WhereHalf};

use crate::compressed_immediates::{
    compressed_ebreak, compressed_jalr, compressed_lui, compressed_rri,
};
use crate::compressed_memory::{compressed_load, compressed_store};
use crate::compressed_registers::compressed_rrr;
use rv_base::{IsaFlags, Reg, WritableReg};
use rv_encode::{
    enc_jalr, encode_alu_rr_imm12, encode_alu_rrr, encode_ebreak, encode_load, encode_lui,
    encode_store, number_of,
};
use rv_imms::{Imm12, Imm20};
use rv_ops::{AluOPRRI, AluOPRRR, LoadOP, StoreOP};

/// The bits of an instruction.
#[derive(Clone, Copy)]
pub enum Encoded {
    Half(u16),
    Word(u32),
}

/// An operation of two registers.
pub fn encoded_rrr(flags: IsaFlags, op: AluOPRRR, rd: WritableReg, rs1: Reg, rs2: Reg) -> Encoded
    requires rd { IsIntRegister rd.reg }
    requires rs1 { IsIntRegister rs1 }
    requires rs2 { IsIntRegister rs2 }
    ensures { Holds flags result (short_rrr flags op (number_of rd.reg) (number_of rs1) (number_of rs2)) }
{
    match compressed_rrr(flags, op, rd, rs1, rs2) {
        Some(half) => Encoded::Half(half),
        None => Encoded::Word(encode_alu_rrr(op, rd, rs1, rs2)),
    }
}

/// An operation of a register and an immediate.
pub fn encoded_rri(flags: IsaFlags, op: AluOPRRI, rd: WritableReg, rs: Reg, imm12: Imm12) -> Encoded
    requires rd { IsIntRegister rd.reg }
    requires rs { IsIntRegister rs }
    ensures holds { Holds flags result (short_rri flags op (number_of rd.reg) (number_of rs) imm12.value) }
    ensures first { op ≡ AluOPRRI.Addi → WhereHalf result (IsAddi16spFirst (number_of rd.reg) (number_of rs) imm12.value) }
{
    match compressed_rri(flags, op, rd, rs, imm12) {
        Some(half) => Encoded::Half(half),
        None => Encoded::Word(encode_alu_rr_imm12(op, rd, rs, imm12)),
    }
}

/// The immediate times 2^12 into a register.
pub fn encoded_lui(flags: IsaFlags, rd: WritableReg, imm: Imm20) -> Encoded
    requires { IsIntRegister rd.reg }
    ensures { Holds flags result (short_lui flags (number_of rd.reg) imm.value) }
{
    match compressed_lui(flags, rd, imm) {
        Some(half) => Encoded::Half(half),
        None => Encoded::Word(encode_lui(rd, imm)),
    }
}

/// The jump to a register's value plus an offset, which links.
pub fn encoded_jalr(flags: IsaFlags, rd: WritableReg, base: Reg, offset: Imm12) -> Encoded
    requires rd { IsIntRegister rd.reg }
    requires base { IsIntRegister base }
    ensures { Holds flags result (short_jalr flags (number_of rd.reg) (number_of base) offset.value) }
{
    match compressed_jalr(flags, rd, base, offset) {
        Some(half) => Encoded::Half(half),
        None => Encoded::Word(enc_jalr(rd, base, offset)),
    }
}

/// The breakpoint.
pub fn encoded_ebreak(flags: IsaFlags) -> Encoded
    ensures { Holds flags result (short_ebreak flags) }
{
    match compressed_ebreak(flags) {
        Some(half) => Encoded::Half(half),
        None => Encoded::Word(encode_ebreak()),
    }
}

/// A load into a register, from an offset past a base.
pub fn encoded_load(
    flags: IsaFlags,
    op: LoadOP,
    rd: WritableReg,
    base: Reg,
    offset: Imm12,
) -> Encoded
    requires has { has_load flags op ≡ true }
    requires rd { IsRealRegister rd.reg }
    requires base { IsIntRegister base }
    ensures { Holds flags result (short_load flags op (number_of rd.reg) (number_of base) offset.value) }
{
    match compressed_load(flags, op, rd, base, offset) {
        Some(half) => Encoded::Half(half),
        None => Encoded::Word(encode_load(op, rd, base, offset)),
    }
}

/// A store of a register, to an offset past a base.
pub fn encoded_store(flags: IsaFlags, op: StoreOP, base: Reg, src: Reg, offset: Imm12) -> Encoded
    requires has { has_store flags op ≡ true }
    requires base { IsIntRegister base }
    requires src { IsRealRegister src }
    ensures { Holds flags result (short_store flags op (number_of base) (number_of src) offset.value) }
{
    match compressed_store(flags, op, base, src, offset) {
        Some(half) => Encoded::Half(half),
        None => Encoded::Word(encode_store(op, base, src, offset)),
    }
}

/// Returns whether a field of three bits names the register: x8 to x15.
pub(crate) fn reg_is_compressible(reg: Reg) -> bool
    ensures { result ≡ is_short (number_of reg) }
{
    let number = number_of(reg);
    8 <= number && number <= 15
}
