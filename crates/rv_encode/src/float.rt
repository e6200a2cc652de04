//! The words of floating-point operations: the chapters "F", "D", "Zfh" and "Zfa".

ghost use Rattle.std.specs.Prelude.{◌≡◌, ◌<◌, ◌+◌, ◌*◌, ◌^◌, true, Some};
ghost use Rattle.rv_base.specs.declared.flags.IsaFlags.{IsaFlags};
ghost use Rattle.rv_base.specs.Regs.{number_of};
ghost use Rattle.rv_machine.specs.Decode.{decode};
ghost use Rattle.rv_machine.specs.Opcodes.{OP_FP};
ghost use Rattle.rv_ops.specs.FloatFields.{is_width, width_bits, frm_bits, takes_frm};
ghost use Rattle.rv_ops.specs.Fpu.{with_width, takes_width, fpu_rr_numbers, fpu_rr_widths, fpu_rrr_numbers, fpu_rrrr_opcode, fli_funct5};
ghost use Rattle.rv_encode.specs.Registers.{IsRealRegister};
ghost use Rattle.rv_encode.specs.Layouts.{IsRType};
ghost use Rattle.rv_encode.specs.Operations.{decoded_fpu_rr, decoded_fpu_rrr, decoded_fpu_rrrr, decoded_fli};

use crate::layouts::{encode_r_type, r_word, reg_to_gpr_num};
use rv_base::{Reg, WritableReg};
use rv_ops::{FRM, FliConstant, FpuOPRR, FpuOPRRR, FpuOPRRRR, FpuOPWidth};

/// The word of an operation of one register; which files it reads and writes the operation says.
///
/// ```text
/// 31     27 26 25 24       20 19 15 14 12 11  7 6      0
/// | funct5 | fmt | selector |  rs |  rm |  rd | opcode |
/// ```
pub fn encode_fp_rr(op: FpuOPRR, width: FpuOPWidth, frm: FRM, rd: WritableReg, rs: Reg) -> u32
    requires rd { IsRealRegister rd.reg }
    requires rs { IsRealRegister rs }
    ensures layout { IsRType result OP_FP (number_of rd.reg) (frm_bits frm) (number_of rs) (fpu_rr_numbers op).selector (with_width (fpu_rr_numbers op).funct5 width) }
    ensures decodes { (flags : IsaFlags) → takes_width (fpu_rr_widths op) width ≡ true → takes_frm (fpu_rr_numbers op).rounding frm ≡ true → decode flags result ≡ Some (decoded_fpu_rr op width frm (number_of rd.reg) (number_of rs)) }
{
    r_word(
        op.opcode(),
        reg_to_gpr_num(rd.reg),
        frm.as_u32(),
        reg_to_gpr_num(rs),
        op.rs2(),
        op.funct7(width),
    )
}

/// The word of an operation of two floating-point registers, into one of them or, for a comparison, into an integer register.
///
/// ```text
/// 31     27 26 25 24  20 19  15 14 12 11  7 6      0
/// | funct5 | fmt |  rs2 |  rs1 |  rm |  rd | opcode |
/// ```
pub fn encode_fp_rrr(
    op: FpuOPRRR,
    width: FpuOPWidth,
    frm: FRM,
    rd: WritableReg,
    rs1: Reg,
    rs2: Reg,
) -> u32
    requires rd { IsRealRegister rd.reg }
    requires rs1 { IsRealRegister rs1 }
    requires rs2 { IsRealRegister rs2 }
    ensures layout { IsRType result OP_FP (number_of rd.reg) (frm_bits frm) (number_of rs1) (number_of rs2) (with_width (fpu_rrr_numbers op).funct5 width) }
    ensures decodes { (flags : IsaFlags) → is_width width ≡ true → takes_frm (fpu_rrr_numbers op).rounding frm ≡ true → decode flags result ≡ Some (decoded_fpu_rrr op width frm (number_of rd.reg) (number_of rs1) (number_of rs2)) }
{
    encode_r_type(op.opcode(), rd, frm.as_u32(), rs1, rs2, op.funct7(width))
}

/// The word of a fused multiplication: of rs1 and rs2, with rs3, into a floating-point register.
///
/// ```text
/// 31  27 26 25 24  20 19  15 14 12 11  7 6      0
/// |  rs3 | fmt |  rs2 |  rs1 |  rm |  rd | opcode |
/// ```
pub fn encode_fp_rrrr(
    op: FpuOPRRRR,
    width: FpuOPWidth,
    frm: FRM,
    rd: WritableReg,
    rs1: Reg,
    rs2: Reg,
    rs3: Reg,
) -> u32
    requires rd { IsRealRegister rd.reg }
    requires rs1 { IsRealRegister rs1 }
    requires rs2 { IsRealRegister rs2 }
    requires rs3 { IsRealRegister rs3 }
    ensures layout { IsRType result (fpu_rrrr_opcode op) (number_of rd.reg) (frm_bits frm) (number_of rs1) (number_of rs2) (with_width (number_of rs3) width) }
    ensures decodes { (flags : IsaFlags) → is_width width ≡ true → decode flags result ≡ Some (decoded_fpu_rrrr op width frm (number_of rd.reg) (number_of rs1) (number_of rs2) (number_of rs3)) }
{
    let funct7 = with_source(reg_to_gpr_num(rs3), width.as_u32());
    encode_r_type(op.opcode(), rd, frm.as_u32(), rs1, rs2, funct7)
}

/// Bits 31 to 25 of a word of layout R4: a third source over the format.
fn with_source(rs3: u32, fmt: u32) -> u32
    requires rs3 { rs3 < 2 ^ 5 }
    requires fmt { fmt < 2 ^ 2 }
    ensures value { result ≡ rs3 * 2 ^ 2 + fmt }
    ensures width { result < 2 ^ 7 }
{
    fmt | rs3 << 2
}

/// The word of `fli`: a constant, whose number stands in the place of rs1, into a floating-point register. Its fields are those
/// of a move of bits to that register, but for its selector, 1.
///
/// ```text
/// 31     27 26 25 24 20 19      15 14 12 11  7 6      0
/// | funct5 | fmt |  1  | constant |  0  |  rd | opcode |
/// ```
pub fn encode_fli(width: FpuOPWidth, imm: FliConstant, rd: WritableReg) -> u32
    requires { IsRealRegister rd.reg }
    ensures layout { IsRType result OP_FP (number_of rd.reg) 0 imm.value 1 (with_width fli_funct5 width) }
    ensures decodes { (flags : IsaFlags) → is_width width ≡ true → decode flags result ≡ Some (decoded_fli width (number_of rd.reg) imm.value) }
{
    let op = FpuOPRR::FmvFmtX;
    r_word(
        op.opcode(),
        reg_to_gpr_num(rd.reg),
        0,
        u32::from(imm.bits()),
        1,
        op.funct7(width),
    )
}
