//! The words of `lui` and `auipc`, of "2.5 Control Transfer Instructions", and of `ebreak`.

ghost use Rattle.std.specs.Prelude.{◌≡◌, ◌<◌, ◌^◌, ◌≤ℤ◌, ◌<ℤ◌, pos, neg_ℤ, Some};
ghost use Rattle.rv_base.specs.declared.flags.IsaFlags.{IsaFlags};
ghost use Rattle.rv_base.specs.Regs.{number_of};
ghost use Rattle.rv_imms.specs.Bits.{low_bits};
ghost use Rattle.rv_machine.specs.declared.ops.MOp.TheVariants.{Base};
ghost use Rattle.rv_machine.specs.declared.ops.BaseOp.TheVariants as base_op;
ghost use Rattle.rv_machine.specs.Layout.{bare_form};
ghost use Rattle.rv_machine.specs.Opcodes.{AUIPC, BRANCH, JAL, JALR};
ghost use Rattle.rv_machine.specs.Decode.{decode};
ghost use Rattle.rv_encode.specs.Registers.{IsIntRegister, IsRealRegister};
ghost use Rattle.rv_encode.specs.Layouts.{IsEven, IsBType, IsIType, IsJType, IsUType};
ghost use Rattle.rv_ops.specs.Compare.{funct3_of, branch_of, is_reversed as reverses, rs1_of, rs2_of};
ghost use Rattle.rv_encode.specs.Operations.{decoded, decoded_branch};

use crate::layouts::{b_word, encode_i_type, i_word, j_word, reg_to_gpr_num, u_word};
use rv_base::{Reg, WritableReg};
use rv_imms::{Imm12, Imm20};
use rv_machine::{AUIPC, JAL, JALR, LUI, SYSTEM};
use rv_ops::IntegerCompare;

/// The word of `lui`: the immediate times 2^12 into an integer register.
pub fn encode_lui(rd: WritableReg, imm: Imm20) -> u32
    requires { IsIntRegister rd.reg }
    ensures { (flags : IsaFlags) → decode flags result ≡ Some (decoded (Base base_op.Lui) (number_of rd.reg) 0 0 imm.value) }
{
    u_word(LUI, reg_to_gpr_num(rd.reg), imm.bits())
}

/// The word of `auipc`: the immediate times 2^12 past its own address into a real register.
pub fn enc_auipc(rd: WritableReg, imm: Imm20) -> u32
    requires { IsRealRegister rd.reg }
    ensures layout { IsUType result AUIPC (number_of rd.reg) (low_bits (2 ^ 20) imm.value) }
    ensures decodes { (flags : IsaFlags) → decode flags result ≡ Some (decoded (Base base_op.Auipc) (number_of rd.reg) 0 0 imm.value) }
{
    u_word(AUIPC, reg_to_gpr_num(rd.reg), imm.bits())
}

/// The word of `jalr`, of real registers.
pub fn enc_jalr(rd: WritableReg, base: Reg, offset: Imm12) -> u32
    requires rd { IsRealRegister rd.reg }
    requires base { IsRealRegister base }
    ensures layout { IsIType result JALR (number_of rd.reg) 0 (number_of base) (low_bits (2 ^ 12) offset.value) }
    ensures decodes { (flags : IsaFlags) → decode flags result ≡ Some (decoded (Base base_op.Jalr) (number_of rd.reg) (number_of base) 0 offset.value) }
{
    encode_i_type(JALR, rd, 0, base, offset)
}

/// The word of `jal`, by an even distance from -2^20 to below 2^20 bytes; into an integer register.
pub fn encode_jal(rd: WritableReg, distance: i32) -> u32
    requires rd { IsIntRegister rd.reg }
    requires low { neg_ℤ (pos (2 ^ 20)) ≤ℤ distance }
    requires high { distance <ℤ pos (2 ^ 20) }
    requires even { IsEven distance }
    ensures layout { IsJType result JAL (number_of rd.reg) (low_bits (2 ^ 21) distance) }
    ensures decodes { (flags : IsaFlags) → decode flags result ≡ Some (decoded (Base base_op.Jal) (number_of rd.reg) 0 0 distance) }
{
    j_word(JAL, reg_to_gpr_num(rd.reg), jump_bits(distance))
}

/// The word of the branch where a comparison of integer registers holds, by an even distance from -4096 to 4095 bytes.
pub fn encode_branch(kind: IntegerCompare, distance: i32) -> u32
    requires rs1 { IsIntRegister kind.rs1 }
    requires rs2 { IsIntRegister kind.rs2 }
    requires low { neg_ℤ (pos (2 ^ 12)) ≤ℤ distance }
    requires high { distance <ℤ pos (2 ^ 12) }
    requires even { IsEven distance }
    ensures layout { IsBType result BRANCH (funct3_of (branch_of kind.kind)) (number_of (rs1_of kind)) (number_of (rs2_of kind)) (low_bits (2 ^ 13) distance) }
    ensures decodes { (flags : IsaFlags) → decode flags result ≡ Some (decoded_branch kind distance) }
{
    let (branch, is_reversed) = kind.funct3();
    let (rs1, rs2) = ordered(kind, is_reversed);
    b_word(
        kind.op_code(),
        branch.funct3(),
        rs1,
        rs2,
        branch_bits(distance),
    )
}

/// The word of `ebreak`.
pub fn encode_ebreak() -> u32
    ensures { (flags : IsaFlags) → decode flags result ≡ Some (bare_form (Base base_op.Ebreak)) }
{
    i_word(SYSTEM, 0, 0, 0, 1)
}

/// The numbers of the registers of a branch, in the order of its word.
fn ordered(kind: IntegerCompare, is_reversed: bool) -> (u32, u32)
    requires rs1 { IsIntRegister kind.rs1 }
    requires rs2 { IsIntRegister kind.rs2 }
    requires reversed { is_reversed ≡ reverses kind.kind }
    ensures first { result.0 ≡ number_of (rs1_of kind) }
    ensures second { result.1 ≡ number_of (rs2_of kind) }
    ensures first_width { result.0 < 2 ^ 5 }
    ensures second_width { result.1 < 2 ^ 5 }
{
    let rs1 = reg_to_gpr_num(kind.rs1);
    let rs2 = reg_to_gpr_num(kind.rs2);
    if is_reversed { (rs2, rs1) } else { (rs1, rs2) }
}

/// The low thirteen bits of a branch's distance.
fn branch_bits(distance: i32) -> u32
    requires low { neg_ℤ (pos (2 ^ 12)) ≤ℤ distance }
    requires high { distance <ℤ pos (2 ^ 12) }
    ensures { result ≡ low_bits (2 ^ 13) distance }
{
    distance.cast_unsigned() & 0x1fff
}

/// The low twenty-one bits of a jump's distance.
fn jump_bits(distance: i32) -> u32
    requires low { neg_ℤ (pos (2 ^ 20)) ≤ℤ distance }
    requires high { distance <ℤ pos (2 ^ 20) }
    ensures { result ≡ low_bits (2 ^ 21) distance }
{
    distance.cast_unsigned() & 0x1f_ffff
}
