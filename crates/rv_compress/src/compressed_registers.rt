//! Forms of operations of two registers: "Integer Register-Register Operations" of "C", and "Zcb".

ghost use Rattle.std.specs.Prelude.{◌≡◌, ◌==◌, true, if◌then◌else◌};
ghost use Rattle.rv_base.specs.declared.flags.IsaFlags.{IsaFlags as Flags};
ghost use Rattle.rv_base.specs.Regs.{number_of};
ghost use Rattle.rv_encode.specs.Registers.{IsIntRegister};
ghost use Rattle.rv_encode.specs.Compressed.{ca_op, ca_needs};
ghost use Rattle.rv_inst.specs.Forms.{is_either, add_form, either_form, first_form, zca_rrr, form_rrr};
ghost use Rattle.rv_compress.specs.Encoded.{IsForm};

use crate::compressed::reg_is_compressible;
use rv_base::{IsaFlags, Reg, WritableReg};
use rv_encode::{encode_ca_type, encode_cr_type, encode_cszn_type, number_of};
use rv_ops::{AluOPRRR, CaOp, CrOp, CsznOp};

/// The form of an operation of two registers, where it has one.
pub(crate) fn compressed_rrr(
    flags: IsaFlags,
    op: AluOPRRR,
    rd: WritableReg,
    rs1: Reg,
    rs2: Reg,
) -> Option<u16>
    requires rd { IsIntRegister rd.reg }
    requires rs1 { IsIntRegister rs1 }
    requires rs2 { IsIntRegister rs2 }
    ensures { IsForm flags result (form_rrr flags op (number_of rd.reg) (number_of rs1) (number_of rs2)) }
{
    if !flags.has_zca {
        return None;
    }
    match op {
        AluOPRRR::Add => c_add(rd, rs1, rs2),
        AluOPRRR::And => ca_exchangeable(CaOp::CAnd, rd, rs1, rs2),
        AluOPRRR::Or => ca_exchangeable(CaOp::COr, rd, rs1, rs2),
        AluOPRRR::Xor => ca_exchangeable(CaOp::CXor, rd, rs1, rs2),
        AluOPRRR::Addw => ca_exchangeable(CaOp::CAddw, rd, rs1, rs2),
        AluOPRRR::Mul => c_mul(flags, rd, rs1, rs2),
        AluOPRRR::Sub => ca_in_order(CaOp::CSub, rd, rs1, rs2),
        AluOPRRR::Subw => ca_in_order(CaOp::CSubw, rd, rs1, rs2),
        AluOPRRR::Adduw => c_zext_w(flags, rd, rs1, rs2),
        _ => None,
    }
}

/// `c.add`, of the destination and the other source.
fn c_add(rd: WritableReg, rs1: Reg, rs2: Reg) -> Option<u16>
    requires rd { IsIntRegister rd.reg }
    requires rs1 { IsIntRegister rs1 }
    requires rs2 { IsIntRegister rs2 }
    ensures { (flags : Flags) → flags.has_zca ≡ true → IsForm flags result (add_form (number_of rd.reg) (number_of rs1) (number_of rs2)) }
{
    if is_either(rd.reg, rs1, rs2) && number_of(rs1) != 0 && number_of(rs2) != 0 {
        Some(encode_cr_type(CrOp::CAdd, rd, other_source(rd.reg, rs1, rs2)))
    } else {
        None
    }
}

/// `c.and`, `c.or`, `c.xor`, `c.addw` and `c.mul`, whose sources may be exchanged: of the destination and the other source.
fn ca_exchangeable(op: CaOp, rd: WritableReg, rs1: Reg, rs2: Reg) -> Option<u16>
    requires rd { IsIntRegister rd.reg }
    requires rs1 { IsIntRegister rs1 }
    requires rs2 { IsIntRegister rs2 }
    ensures { (flags : Flags) → ca_needs flags op ≡ true → IsForm flags result (either_form (ca_op op) (number_of rd.reg) (number_of rs1) (number_of rs2)) }
{
    if is_either(rd.reg, rs1, rs2) && reg_is_compressible(rs1) && reg_is_compressible(rs2) {
        Some(encode_ca_type(op, rd, other_source(rd.reg, rs1, rs2)))
    } else {
        None
    }
}

/// `c.sub` and `c.subw`, whose first source is the destination.
fn ca_in_order(op: CaOp, rd: WritableReg, rs1: Reg, rs2: Reg) -> Option<u16>
    requires rd { IsIntRegister rd.reg }
    requires rs1 { IsIntRegister rs1 }
    requires rs2 { IsIntRegister rs2 }
    ensures { (flags : Flags) → ca_needs flags op ≡ true → IsForm flags result (first_form (ca_op op) (number_of rd.reg) (number_of rs1) (number_of rs2)) }
{
    if number_of(rd.reg) == number_of(rs1) && reg_is_compressible(rs1) && reg_is_compressible(rs2) {
        Some(encode_ca_type(op, rd, rs2))
    } else {
        None
    }
}

/// `c.mul`, where Zcb and M are there.
fn c_mul(flags: IsaFlags, rd: WritableReg, rs1: Reg, rs2: Reg) -> Option<u16>
    requires rd { IsIntRegister rd.reg }
    requires rs1 { IsIntRegister rs1 }
    requires rs2 { IsIntRegister rs2 }
    requires zca { flags.has_zca ≡ true }
    ensures { IsForm flags result (zca_rrr flags AluOPRRR.Mul (number_of rd.reg) (number_of rs1) (number_of rs2)) }
{
    if flags.has_zcb && flags.has_m {
        ca_exchangeable(CaOp::CMul, rd, rs1, rs2)
    } else {
        None
    }
}

/// `c.zext.w`, which stands for `add.uw` of x0, where Zcb and Zba are there.
fn c_zext_w(flags: IsaFlags, rd: WritableReg, rs1: Reg, rs2: Reg) -> Option<u16>
    requires rd { IsIntRegister rd.reg }
    requires rs1 { IsIntRegister rs1 }
    requires rs2 { IsIntRegister rs2 }
    requires zca { flags.has_zca ≡ true }
    ensures { IsForm flags result (zca_rrr flags AluOPRRR.Adduw (number_of rd.reg) (number_of rs1) (number_of rs2)) }
{
    if !(flags.has_zcb && flags.has_zba) {
        return None;
    }
    if number_of(rd.reg) == number_of(rs1) && reg_is_compressible(rs1) && number_of(rs2) == 0 {
        Some(encode_cszn_type(CsznOp::CZextw, rd))
    } else {
        None
    }
}

fn is_either(rd: Reg, rs1: Reg, rs2: Reg) -> bool
    ensures { result ≡ is_either (number_of rd) (number_of rs1) (number_of rs2) }
{
    number_of(rd) == number_of(rs1) || number_of(rd) == number_of(rs2)
}

/// The other source than the destination.
fn other_source(rd: Reg, rs1: Reg, rs2: Reg) -> Reg
    requires rs1 { IsIntRegister rs1 }
    requires rs2 { IsIntRegister rs2 }
    ensures value { result ≡ if number_of rd == number_of rs1 then rs2 else rs1 }
    ensures class { IsIntRegister result }
{
    if number_of(rd) == number_of(rs1) {
        rs2
    } else {
        rs1
    }
}
