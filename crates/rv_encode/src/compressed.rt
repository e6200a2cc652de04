//! The halfwords of compressed operations of registers and immediates, and of jumps: "RVC Instruction Set Listings" and "Zcb".

ghost use Rattle.std.specs.Prelude.{◌≡◌, ◌≢◌, ◌<◌, ◌+◌, ◌-◌, ◌*◌, ◌%◌, ◌/◌, ◌^◌, ◌*ℤ◌, nat_eq, pos, true, false, Some, None};
ghost use Rattle.rv_base.specs.declared.flags.IsaFlags.{IsaFlags};
ghost use Rattle.rv_base.specs.Regs.{number_of};
ghost use Rattle.rv_imms.specs.Bits.{low_bits};
ghost use Rattle.rv_machine.specs.declared.ops.MOp.TheVariants.{Base, Alu};
ghost use Rattle.rv_machine.specs.declared.ops.BaseOp.TheVariants as base_op;
ghost use Rattle.rv_machine.specs.declared.ops.AluOp.TheVariants.{Int};
ghost use Rattle.rv_machine.specs.declared.ops.IntOp.TheVariants.{Addi};
ghost use Rattle.rv_machine.specs.Layout.{compressed};
ghost use Rattle.rv_machine.specs.Compressed.{ci_bits, addi16sp_bits, decode_half};
ghost use Rattle.rv_ops.specs.declared.compressed.CiOp.TheVariants.{CAddi16sp};
ghost use Rattle.rv_ops.specs.Compressed.{space_bits, cr_numbers, ca_numbers, ci_numbers, ciw_numbers, cb_numbers, cj_numbers, cszn_numbers};
ghost use Rattle.rv_encode.specs.Registers.{IsRealRegister, IsShortRegister};
ghost use Rattle.rv_encode.specs.Layouts.{IsEven, IsCrType, IsCaType, IsCiType, IsCiwType, IsCbType, IsCuType, IsCjType, IsCjParts, cj_low_of, cj_high_of};
ghost use Rattle.rv_encode.specs.Compressed.{DecodesCr, DecodesCr2, ca_op, ca_needs, DecodesCi, decoded_cb, decoded_cszn, cszn_needs};

use crate::layouts::reg_to_gpr_num;
use rv_base::{Reg, WritableReg, stack_reg};
use rv_imms::{Imm6, Imm12};
use rv_ops::{CaOp, CbOp, CiOp, CiwOp, CjOp, CrOp, CsznOp};

/// The number of a register from 8 to 15, of any file, as three bits of a halfword hold it: less 8.
pub fn reg_to_compressed_gpr_num(m: Reg) -> u32
    requires { IsShortRegister m }
    ensures value { 8 + result ≡ number_of m }
    ensures width { result < 2 ^ 3 }
{
    reg_to_gpr_num(m) - 8
}

/// Layout CR, of real registers: `c.mv` and `c.add` of a source other than x0, and `c.ebreak` of x0 and x0.
///
/// ```text
/// 15    12 11     7 6   2 1  0
/// | funct4 | rd/rs1 | rs2 | op |
/// ```
pub fn encode_cr_type(op: CrOp, rd: WritableReg, rs2: Reg) -> u16
    requires rd { IsRealRegister rd.reg }
    requires rs2 { IsRealRegister rs2 }
    ensures layout { IsCrType result (space_bits (cr_numbers op).space) (number_of rs2) (number_of rd.reg) (cr_numbers op).funct4 }
    ensures decodes { (flags : IsaFlags) → flags.has_zca ≡ true → DecodesCr op (number_of rd.reg) (number_of rs2) (decode_half flags result) }
    ensures without { (flags : IsaFlags) → flags.has_zca ≡ false → decode_half flags result ≡ None }
    ensures narrow { nat_eq (result % 4) 3 ≡ false }
{
    cr_half(
        op.op().bits(),
        reg_to_gpr_num(rs2),
        reg_to_gpr_num(rd.reg),
        op.funct4(),
    )
}

/// Layout CR, of one real register, which is only read, and of x0: `c.jr` and `c.jalr` of a register other than x0.
///
/// ```text
/// 15    12 11  7 6 2 1  0
/// | funct4 | rs1 | 0 | op |
/// ```
pub fn encode_cr2_type(op: CrOp, rs1: Reg) -> u16
    requires { IsRealRegister rs1 }
    ensures layout { IsCrType result (space_bits (cr_numbers op).space) 0 (number_of rs1) (cr_numbers op).funct4 }
    ensures decodes { (flags : IsaFlags) → flags.has_zca ≡ true → DecodesCr2 op (number_of rs1) (decode_half flags result) }
    ensures without { (flags : IsaFlags) → flags.has_zca ≡ false → decode_half flags result ≡ None }
    ensures narrow { nat_eq (result % 4) 3 ≡ false }
{
    cr_half(op.op().bits(), 0, reg_to_gpr_num(rs1), op.funct4())
}

/// Layout CA, of registers from x8 to x15.
///
/// ```text
/// 15    10 9     7 6      5 4   2 1  0
/// | funct6 | rd/rs1 | funct2 | rs2 | op |
/// ```
pub fn encode_ca_type(op: CaOp, rd: WritableReg, rs2: Reg) -> u16
    requires rd { IsShortRegister rd.reg }
    requires rs2 { IsShortRegister rs2 }
    ensures layout { IsCaType result (space_bits (ca_numbers op).space) (number_of rs2 - 8) (ca_numbers op).funct2 (number_of rd.reg - 8) (ca_numbers op).funct6 }
    ensures decodes { (flags : IsaFlags) → ca_needs flags op ≡ true → decode_half flags result ≡ Some (compressed (Alu (ca_op op)) (number_of rd.reg) (number_of rd.reg) (number_of rs2) (pos 0)) }
    ensures without { (flags : IsaFlags) → ca_needs flags op ≡ false → decode_half flags result ≡ None }
    ensures narrow { nat_eq (result % 4) 3 ≡ false }
{
    ca_half(
        op.op().bits(),
        reg_to_compressed_gpr_num(rs2),
        op.funct2(),
        reg_to_compressed_gpr_num(rd.reg),
        op.funct6(),
    )
}

/// Layout CJ: the jump by an even distance in bytes.
///
/// ```text
/// 15    13 12                        2 1  0
/// | funct3 | imm[11|4|9:8|10|6|7|3:1|5] | op |
/// ```
pub fn encode_cj_type(op: CjOp, imm: Imm12) -> u16
    requires { IsEven imm.value }
    ensures layout { IsCjType result (space_bits (cj_numbers op).space) (low_bits (2 ^ 12) imm.value) (cj_numbers op).funct3 }
    ensures decodes { (flags : IsaFlags) → flags.has_zca ≡ true → decode_half flags result ≡ Some (compressed (Base base_op.Jal) 0 0 0 imm.value) }
    ensures without { (flags : IsaFlags) → flags.has_zca ≡ false → decode_half flags result ≡ None }
    ensures narrow { nat_eq (result % 4) 3 ≡ false }
{
    cj_half(op.op().bits(), imm.bits(), op.funct3())
}

/// Layout CI, of a real register: `c.addi`, `c.li`, `c.slli` by the six bits of the immediate, `c.addiw` of a register
/// other than x0, and `c.lui` of a register other than sp and an immediate other than 0.
///
/// ```text
/// 15    13 12    12 11     7 6        2 1  0
/// | funct3 | imm[5] | rd/rs1 | imm[4:0] | op |
/// ```
pub fn encode_ci_type(op: CiOp, rd: WritableReg, imm: Imm6) -> u16
    requires { IsRealRegister rd.reg }
    ensures layout { IsCiType ci_bits result (space_bits (ci_numbers op).space) (low_bits (2 ^ 6) imm.value) (number_of rd.reg) (ci_numbers op).funct3 }
    ensures decodes { (flags : IsaFlags) → flags.has_zca ≡ true → DecodesCi op (number_of rd.reg) imm.value (decode_half flags result) }
    ensures without { (flags : IsaFlags) → flags.has_zca ≡ false → decode_half flags result ≡ None }
    ensures narrow { nat_eq (result % 4) 3 ≡ false }
{
    ci_half(
        op.op().bits(),
        u32::from(imm.bits()),
        reg_to_gpr_num(rd.reg),
        op.funct3(),
    )
}

/// Layout CI of `c.addi16sp`, which adds an immediate, counted in sixteens, to the stack pointer; the manual reserves that of 0.
///
/// ```text
/// 15    13 12    12 11     7 6              2 1  0
/// | funct3 | imm[9] |   2    | imm[4|6|8:7|5] | op |
/// ```
pub fn encode_c_addi16sp(imm: Imm6) -> u16
    ensures layout { IsCiType addi16sp_bits result (space_bits (ci_numbers CAddi16sp).space) (16 * low_bits (2 ^ 6) imm.value) 2 (ci_numbers CAddi16sp).funct3 }
    ensures decodes { (flags : IsaFlags) → flags.has_zca ≡ true → imm.value ≢ pos 0 → decode_half flags result ≡ Some (compressed (Alu (Int Addi)) 2 2 0 (pos 16 *ℤ imm.value)) }
    ensures without { (flags : IsaFlags) → flags.has_zca ≡ false → decode_half flags result ≡ None }
    ensures narrow { nat_eq (result % 4) 3 ≡ false }
{
    addi16sp_half(
        CiOp::CAddi16sp.op().bits(),
        u32::from(imm.bits()),
        reg_to_gpr_num(stack_reg()),
        CiOp::CAddi16sp.funct3(),
    )
}

/// Layout CIW, of a register from x8 to x15: the stack pointer plus an immediate, counted in fours; the manual reserves that of 0.
///
/// ```text
/// 15    13 12               5 4  2 1  0
/// | funct3 | imm[5:4|9:6|2|3] | rd | op |
/// ```
pub fn encode_ciw_type(op: CiwOp, rd: WritableReg, imm: u8) -> u16
    requires { IsShortRegister rd.reg }
    ensures layout { IsCiwType result (space_bits (ciw_numbers op).space) (number_of rd.reg - 8) (4 * imm) (ciw_numbers op).funct3 }
    ensures decodes { (flags : IsaFlags) → flags.has_zca ≡ true → 0 < imm → decode_half flags result ≡ Some (compressed (Alu (Int Addi)) (number_of rd.reg) 2 0 (pos (4 * imm))) }
    ensures without { (flags : IsaFlags) → flags.has_zca ≡ false → decode_half flags result ≡ None }
    ensures narrow { nat_eq (result % 4) 3 ≡ false }
{
    ciw_half(
        op.op().bits(),
        reg_to_compressed_gpr_num(rd.reg),
        u32::from(imm),
        op.funct3(),
    )
}

/// Layout CB of a register from x8 to x15: `c.andi`, and `c.srli` and `c.srai` by the six bits of the immediate.
///
/// ```text
/// 15    13 12    12 11    10 9      7 6        2 1  0
/// | funct3 | imm[5] | funct2 | rd/rs1 | imm[4:0] | op |
/// ```
pub fn encode_cb_type(op: CbOp, rd: WritableReg, imm: Imm6) -> u16
    requires { IsShortRegister rd.reg }
    ensures layout { IsCbType result (space_bits (cb_numbers op).space) (low_bits (2 ^ 6) imm.value) (number_of rd.reg - 8) (cb_numbers op).funct2 (cb_numbers op).funct3 }
    ensures decodes { (flags : IsaFlags) → flags.has_zca ≡ true → decode_half flags result ≡ Some (decoded_cb op (number_of rd.reg) imm.value) }
    ensures without { (flags : IsaFlags) → flags.has_zca ≡ false → decode_half flags result ≡ None }
    ensures narrow { nat_eq (result % 4) 3 ≡ false }
{
    cb_half(
        op.op().bits(),
        u32::from(imm.bits()),
        reg_to_compressed_gpr_num(rd.reg),
        op.funct2(),
        op.funct3(),
    )
}

/// Layout CU of Zcb's operations of one register, from x8 to x15.
///
/// ```text
/// 15    10 9      7 6      2 1  0
/// | funct6 | rd/rs1 | funct5 | op |
/// ```
pub fn encode_cszn_type(op: CsznOp, rd: WritableReg) -> u16
    requires { IsShortRegister rd.reg }
    ensures layout { IsCuType result (space_bits (cszn_numbers op).space) (cszn_numbers op).funct5 (number_of rd.reg - 8) (cszn_numbers op).funct6 }
    ensures decodes { (flags : IsaFlags) → cszn_needs flags op ≡ true → decode_half flags result ≡ Some (decoded_cszn op (number_of rd.reg)) }
    ensures without { (flags : IsaFlags) → cszn_needs flags op ≡ false → decode_half flags result ≡ None }
    ensures narrow { nat_eq (result % 4) 3 ≡ false }
{
    cu_half(
        op.op().bits(),
        op.funct5(),
        reg_to_compressed_gpr_num(rd.reg),
        op.funct6(),
    )
}

fn cr_half(op: u32, rs2: u32, rd: u32, funct4: u32) -> u16
    requires op { op < 2 ^ 2 }
    requires rs2 { rs2 < 2 ^ 5 }
    requires rd { rd < 2 ^ 5 }
    requires funct4 { funct4 < 2 ^ 4 }
    ensures { IsCrType result op rs2 rd funct4 }
{
    (op | rs2 << 2 | rd << 7 | funct4 << 12) as u16
}

fn ca_half(op: u32, rs2: u32, funct2: u32, rd: u32, funct6: u32) -> u16
    requires op { op < 2 ^ 2 }
    requires rs2 { rs2 < 2 ^ 3 }
    requires funct2 { funct2 < 2 ^ 2 }
    requires rd { rd < 2 ^ 3 }
    requires funct6 { funct6 < 2 ^ 6 }
    ensures { IsCaType result op rs2 funct2 rd funct6 }
{
    (op | rs2 << 2 | funct2 << 5 | rd << 7 | funct6 << 10) as u16
}

fn cu_half(op: u32, funct5: u32, rd: u32, funct6: u32) -> u16
    requires op { op < 2 ^ 2 }
    requires funct5 { funct5 < 2 ^ 5 }
    requires rd { rd < 2 ^ 3 }
    requires funct6 { funct6 < 2 ^ 6 }
    ensures { IsCuType result op funct5 rd funct6 }
{
    (op | funct5 << 2 | rd << 7 | funct6 << 10) as u16
}

/// Layout CI, of the six bits of its immediate.
fn ci_half(op: u32, bits: u32, rd: u32, funct3: u32) -> u16
    requires op { op < 2 ^ 2 }
    requires bits { bits < 2 ^ 6 }
    requires rd { rd < 2 ^ 5 }
    requires funct3 { funct3 < 2 ^ 3 }
    ensures { IsCiType ci_bits result op bits rd funct3 }
{
    (op | (bits & 0x1f) << 2 | rd << 7 | (bits >> 5) << 12 | funct3 << 13) as u16
}

/// Layout CI of `c.addi16sp`, of the six bits of its immediate.
fn addi16sp_half(op: u32, bits: u32, rd: u32, funct3: u32) -> u16
    requires op { op < 2 ^ 2 }
    requires bits { bits < 2 ^ 6 }
    requires rd { rd < 2 ^ 5 }
    requires funct3 { funct3 < 2 ^ 3 }
    ensures { IsCiType addi16sp_bits result op (16 * bits) rd funct3 }
{
    (op | (bits >> 1 & 1) << 2
        | (bits >> 3 & 3) << 3
        | (bits >> 2 & 1) << 5
        | (bits & 1) << 6
        | rd << 7
        | (bits >> 5) << 12
        | funct3 << 13) as u16
}

/// Layout CB, of the six bits of its immediate.
fn cb_half(op: u32, bits: u32, rd: u32, funct2: u32, funct3: u32) -> u16
    requires op { op < 2 ^ 2 }
    requires bits { bits < 2 ^ 6 }
    requires rd { rd < 2 ^ 3 }
    requires funct2 { funct2 < 2 ^ 2 }
    requires funct3 { funct3 < 2 ^ 3 }
    ensures { IsCbType result op bits rd funct2 funct3 }
{
    (op | (bits & 0x1f) << 2 | rd << 7 | funct2 << 10 | (bits >> 5) << 12 | funct3 << 13) as u16
}

/// Layout CIW, of an immediate counted in fours.
fn ciw_half(op: u32, rd: u32, imm: u32, funct3: u32) -> u16
    requires op { op < 2 ^ 2 }
    requires rd { rd < 2 ^ 3 }
    requires imm { imm < 2 ^ 8 }
    requires funct3 { funct3 < 2 ^ 3 }
    ensures { IsCiwType result op rd (4 * imm) funct3 }
{
    (op | rd << 2
        | (imm >> 1 & 1) << 5
        | (imm & 1) << 6
        | (imm >> 4) << 7
        | (imm >> 2 & 3) << 11
        | funct3 << 13) as u16
}

/// Layout CJ, of the twelve bits of an even distance.
fn cj_half(op: u32, bits: u32, funct3: u32) -> u16
    requires op { op < 2 ^ 2 }
    requires bits { bits < 2 ^ 12 }
    requires funct3 { funct3 < 2 ^ 3 }
    ensures { IsCjType result op (bits / 2 * 2) funct3 }
{
    cj_parts(op, cj_low(bits), cj_high(bits), funct3)
}

/// Layout CJ, of the two parts of its immediate.
fn cj_parts(op: u32, low: u32, high: u32, funct3: u32) -> u16
    requires op { op < 2 ^ 2 }
    requires low { low < 2 ^ 6 }
    requires high { high < 2 ^ 5 }
    requires funct3 { funct3 < 2 ^ 3 }
    ensures { IsCjParts result op low high funct3 }
{
    (op | low << 2 | high << 8 | funct3 << 13) as u16
}

/// The bits 6|7|3:1|5 of a distance.
fn cj_low(bits: u32) -> u32
    ensures value { result ≡ cj_low_of bits }
    ensures width { result < 2 ^ 6 }
{
    bits >> 5 & 1 | (bits >> 1 & 7) << 1 | (bits >> 7 & 1) << 4 | (bits >> 6 & 1) << 5
}

/// The bits 11|4|9:8|10 of a distance.
fn cj_high(bits: u32) -> u32
    requires { bits < 2 ^ 12 }
    ensures value { result ≡ cj_high_of bits }
    ensures width { result < 2 ^ 5 }
{
    bits >> 10 & 1 | (bits >> 8 & 3) << 1 | (bits >> 4 & 1) << 3 | (bits >> 11) << 4
}
