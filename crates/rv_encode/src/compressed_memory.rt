//! The halfwords of compressed loads and stores: "RVC Instruction Set Listings" and "Zcb". Each immediate counts what the
//! access reads or writes: words of 4 bytes, doublewords of 8, halfwords of 2, or bytes.

ghost use Rattle.std.specs.Prelude.{◌≡◌, ◌<◌, ◌-◌, ◌*◌, ◌%◌, ◌^◌, nat_eq, true, false, Some, None, IsSome};
ghost use Rattle.rv_base.specs.declared.flags.IsaFlags.{IsaFlags};
ghost use Rattle.rv_base.specs.Regs.{number_of};
ghost use Rattle.rv_machine.specs.Compressed.{lwsp_imm, ldsp_imm, swsp_imm, sdsp_imm, lw_imm, ld_imm, decode_half};
ghost use Rattle.rv_ops.specs.declared.memory.LoadOP.{LoadOP};
ghost use Rattle.rv_ops.specs.Compressed.{space_bits, ci_numbers, css_numbers, cs_numbers, cl_numbers, zcb_numbers};
ghost use Rattle.rv_ops.specs.Memory.{load_size, store_size};
ghost use Rattle.rv_encode.specs.Registers.{IsRealRegister, IsShortRegister};
ghost use Rattle.rv_encode.specs.Layouts.{IsCiType, IsCssType, IsClType, IsClbType, IsClhType};
ghost use Rattle.rv_encode.specs.Compressed.{read_of, sp_load, decoded_sp_load, css_read, css_store, decoded_css, cs_read, cs_store, decoded_cs, cl_read, cl_load, decoded_cl, decoded_zcb, zcb_needs, IsZcbType};

use crate::compressed::reg_to_compressed_gpr_num;
use crate::layouts::reg_to_gpr_num;
use rv_base::{Reg, WritableReg};
use rv_imms::{Uimm2, Uimm5, Uimm6};
use rv_ops::{CiOp, ClOp, CsOp, CssOp, ZcbMemOp};

/// Layout CI of `c.lwsp` and `c.ldsp`: a load past the stack pointer into a real register; the manual reserves x0.
///
/// ```text
/// 15    13 12    12 11  7 6            2 1  0
/// | funct3 | imm[5] | rd | imm[4:2|7:6] | op |    c.lwsp
/// | funct3 | imm[5] | rd | imm[4:3|8:6] | op |    c.ldsp
/// ```
pub fn encode_ci_sp_load(op: CiOp, rd: WritableReg, imm: Uimm6) -> u16
    requires op { IsSome (sp_load op) }
    requires rd { IsRealRegister rd.reg }
    ensures layout { (load : LoadOP) → sp_load op ≡ Some load → IsCiType (read_of op) result (space_bits (ci_numbers op).space) (load_size load * imm.value) (number_of rd.reg) (ci_numbers op).funct3 }
    ensures decodes { (flags : IsaFlags) (load : LoadOP) → flags.has_zca ≡ true → sp_load op ≡ Some load → 0 < number_of rd.reg → decode_half flags result ≡ Some (decoded_sp_load load (number_of rd.reg) imm.value) }
    ensures without { (flags : IsaFlags) → flags.has_zca ≡ false → decode_half flags result ≡ None }
    ensures narrow { nat_eq (result % 4) 3 ≡ false }
{
    let space = op.op().bits();
    let number = u32::from(imm.bits());
    let rd = reg_to_gpr_num(rd.reg);
    match op {
        CiOp::CLwsp => lwsp_half(space, number, rd, op.funct3()),
        _ => ldsp_half(space, number, rd, op.funct3()),
    }
}

/// Layout CSS: a store of a real register past the stack pointer.
///
/// ```text
/// 15    13 12            7 6   2 1  0
/// | funct3 | imm[5:2|7:6] | src | op |    c.swsp
/// | funct3 | imm[5:3|8:6] | src | op |    c.sdsp
/// ```
pub fn encode_css_type(op: CssOp, src: Reg, imm: Uimm6) -> u16
    requires { IsRealRegister src }
    ensures layout { IsCssType (css_read op) result (space_bits (css_numbers op).space) (number_of src) (store_size (css_store op) * imm.value) (css_numbers op).funct3 }
    ensures decodes { (flags : IsaFlags) → flags.has_zca ≡ true → decode_half flags result ≡ Some (decoded_css op (number_of src) imm.value) }
    ensures without { (flags : IsaFlags) → flags.has_zca ≡ false → decode_half flags result ≡ None }
    ensures narrow { nat_eq (result % 4) 3 ≡ false }
{
    let space = op.op().bits();
    let src = reg_to_gpr_num(src);
    let number = u32::from(imm.bits());
    match op {
        CssOp::CSwsp => swsp_half(space, src, number, op.funct3()),
        CssOp::CSdsp => sdsp_half(space, src, number, op.funct3()),
    }
}

/// Layout CS: a store of a register from x8 to x15 past a base from x8 to x15.
///
/// ```text
/// 15    13 12      10 9    7 6        5 4   2 1  0
/// | funct3 | imm[5:3] | base | imm[2|6] | src | op |    c.sw
/// | funct3 | imm[5:3] | base | imm[7:6] | src | op |    c.sd
/// ```
pub fn encode_cs_type(op: CsOp, src: Reg, base: Reg, imm: Uimm5) -> u16
    requires src { IsShortRegister src }
    requires base { IsShortRegister base }
    ensures layout { IsClType (cs_read op) result (space_bits (cs_numbers op).space) (number_of src - 8) (store_size (cs_store op) * imm.value) (number_of base - 8) (cs_numbers op).funct3 }
    ensures decodes { (flags : IsaFlags) → flags.has_zca ≡ true → decode_half flags result ≡ Some (decoded_cs op (number_of src) (number_of base) imm.value) }
    ensures without { (flags : IsaFlags) → flags.has_zca ≡ false → decode_half flags result ≡ None }
    ensures narrow { nat_eq (result % 4) 3 ≡ false }
{
    let space = op.op().bits();
    let src = reg_to_compressed_gpr_num(src);
    let number = u32::from(imm.bits());
    let base = reg_to_compressed_gpr_num(base);
    match op {
        CsOp::CSw => clw_half(space, src, number, base, op.funct3()),
        CsOp::CSd => cld_half(space, src, number, base, op.funct3()),
    }
}

/// Layout CL: a load past a base from x8 to x15 into a register from x8 to x15.
///
/// ```text
/// 15    13 12      10 9    7 6        5 4    2 1  0
/// | funct3 | imm[5:3] | base | imm[2|6] | dest | op |    c.lw
/// | funct3 | imm[5:3] | base | imm[7:6] | dest | op |    c.ld
/// ```
pub fn encode_cl_type(op: ClOp, dest: WritableReg, base: Reg, imm: Uimm5) -> u16
    requires dest { IsShortRegister dest.reg }
    requires base { IsShortRegister base }
    ensures layout { IsClType (cl_read op) result (space_bits (cl_numbers op).space) (number_of dest.reg - 8) (load_size (cl_load op) * imm.value) (number_of base - 8) (cl_numbers op).funct3 }
    ensures decodes { (flags : IsaFlags) → flags.has_zca ≡ true → decode_half flags result ≡ Some (decoded_cl op (number_of dest.reg) (number_of base) imm.value) }
    ensures without { (flags : IsaFlags) → flags.has_zca ≡ false → decode_half flags result ≡ None }
    ensures narrow { nat_eq (result % 4) 3 ≡ false }
{
    let space = op.op().bits();
    let dest = reg_to_compressed_gpr_num(dest.reg);
    let number = u32::from(imm.bits());
    let base = reg_to_compressed_gpr_num(base);
    match op {
        ClOp::CLw => clw_half(space, dest, number, base, op.funct3()),
        ClOp::CLd => cld_half(space, dest, number, base, op.funct3()),
    }
}

/// A load of Zcb past a base from x8 to x15 into a register from x8 to x15; a halfword's immediate is 0 or 1.
///
/// ```text
/// 15    10 9    7 6        5 4  2 1  0
/// | funct6 | base | imm[0|1] | rd | op |    c.lbu
/// | funct6 | base | 0|imm[1] | rd | op |    c.lhu
/// | funct6 | base | 1|imm[1] | rd | op |    c.lh
/// ```
pub fn encode_zcbmem_load(op: ZcbMemOp, rd: WritableReg, base: Reg, imm: Uimm2) -> u16
    requires rd { IsShortRegister rd.reg }
    requires base { IsShortRegister base }
    requires imm { imm.value < 2 ^ (zcb_numbers op).imm_bits }
    ensures layout { IsZcbType op result (number_of rd.reg - 8) imm.value (number_of base - 8) }
    ensures decodes { (flags : IsaFlags) → zcb_needs flags ≡ true → decode_half flags result ≡ Some (decoded_zcb op (number_of rd.reg) (number_of base) imm.value) }
    ensures without { (flags : IsaFlags) → zcb_needs flags ≡ false → decode_half flags result ≡ None }
    ensures narrow { nat_eq (result % 4) 3 ≡ false }
{
    zcbmem_half(op, rd.reg, base, imm)
}

/// A store of Zcb of a register from x8 to x15 past a base from x8 to x15; a halfword's immediate is 0 or 1.
///
/// ```text
/// 15    10 9    7 6        5 4   2 1  0
/// | funct6 | base | imm[0|1] | src | op |    c.sb
/// | funct6 | base | 0|imm[1] | src | op |    c.sh
/// ```
pub fn encode_zcbmem_store(op: ZcbMemOp, src: Reg, base: Reg, imm: Uimm2) -> u16
    requires src { IsShortRegister src }
    requires base { IsShortRegister base }
    requires imm { imm.value < 2 ^ (zcb_numbers op).imm_bits }
    ensures layout { IsZcbType op result (number_of src - 8) imm.value (number_of base - 8) }
    ensures decodes { (flags : IsaFlags) → zcb_needs flags ≡ true → decode_half flags result ≡ Some (decoded_zcb op (number_of src) (number_of base) imm.value) }
    ensures without { (flags : IsaFlags) → zcb_needs flags ≡ false → decode_half flags result ≡ None }
    ensures narrow { nat_eq (result % 4) 3 ≡ false }
{
    zcbmem_half(op, src, base, imm)
}

/// The layout of Zcb's loads and stores: bit 6 is the operation's where a halfword's immediate has one bit.
fn zcbmem_half(op: ZcbMemOp, dest_src: Reg, base: Reg, imm: Uimm2) -> u16
    requires dest_src { IsShortRegister dest_src }
    requires base { IsShortRegister base }
    requires imm { imm.value < 2 ^ (zcb_numbers op).imm_bits }
    ensures layout { IsZcbType op result (number_of dest_src - 8) imm.value (number_of base - 8) }
    ensures decodes { (flags : IsaFlags) → zcb_needs flags ≡ true → decode_half flags result ≡ Some (decoded_zcb op (number_of dest_src) (number_of base) imm.value) }
    ensures without { (flags : IsaFlags) → zcb_needs flags ≡ false → decode_half flags result ≡ None }
    ensures narrow { nat_eq (result % 4) 3 ≡ false }
{
    let space = op.op().bits();
    let dest_src = reg_to_compressed_gpr_num(dest_src);
    let number = u32::from(imm.bits());
    let base = reg_to_compressed_gpr_num(base);
    match op {
        ZcbMemOp::CLbu | ZcbMemOp::CSb => clb_half(space, dest_src, number, base, op.funct6()),
        ZcbMemOp::CLhu | ZcbMemOp::CSh => {
            clh_half(space, dest_src, number, 0, base, op.funct6())
        }
        ZcbMemOp::CLh => clh_half(space, dest_src, number, 1, base, op.funct6()),
    }
}

/// Layout CI of `c.lwsp`.
fn lwsp_half(op: u32, number: u32, rd: u32, funct3: u32) -> u16
    requires op { op < 2 ^ 2 }
    requires number { number < 2 ^ 6 }
    requires rd { rd < 2 ^ 5 }
    requires funct3 { funct3 < 2 ^ 3 }
    ensures { IsCiType lwsp_imm result op (4 * number) rd funct3 }
{
    (op | (number >> 4) << 2
        | (number & 7) << 4
        | rd << 7
        | (number >> 3 & 1) << 12
        | funct3 << 13) as u16
}

/// Layout CI of `c.ldsp` and `c.fldsp`.
pub(crate) fn ldsp_half(op: u32, number: u32, rd: u32, funct3: u32) -> u16
    requires op { op < 2 ^ 2 }
    requires number { number < 2 ^ 6 }
    requires rd { rd < 2 ^ 5 }
    requires funct3 { funct3 < 2 ^ 3 }
    ensures { IsCiType ldsp_imm result op (8 * number) rd funct3 }
{
    (op | (number >> 3) << 2
        | (number & 3) << 5
        | rd << 7
        | (number >> 2 & 1) << 12
        | funct3 << 13) as u16
}

/// Layout CSS of `c.swsp`.
fn swsp_half(op: u32, rs2: u32, number: u32, funct3: u32) -> u16
    requires op { op < 2 ^ 2 }
    requires rs2 { rs2 < 2 ^ 5 }
    requires number { number < 2 ^ 6 }
    requires funct3 { funct3 < 2 ^ 3 }
    ensures { IsCssType swsp_imm result op rs2 (4 * number) funct3 }
{
    (op | rs2 << 2 | (number >> 4) << 7 | (number & 15) << 9 | funct3 << 13) as u16
}

/// Layout CSS of `c.sdsp` and `c.fsdsp`.
pub(crate) fn sdsp_half(op: u32, rs2: u32, number: u32, funct3: u32) -> u16
    requires op { op < 2 ^ 2 }
    requires rs2 { rs2 < 2 ^ 5 }
    requires number { number < 2 ^ 6 }
    requires funct3 { funct3 < 2 ^ 3 }
    ensures { IsCssType sdsp_imm result op rs2 (8 * number) funct3 }
{
    (op | rs2 << 2 | (number >> 3) << 7 | (number & 7) << 10 | funct3 << 13) as u16
}

/// Layout CL of `c.lw` and CS of `c.sw`.
fn clw_half(op: u32, dest_src: u32, number: u32, base: u32, funct3: u32) -> u16
    requires op { op < 2 ^ 2 }
    requires dest_src { dest_src < 2 ^ 3 }
    requires number { number < 2 ^ 5 }
    requires base { base < 2 ^ 3 }
    requires funct3 { funct3 < 2 ^ 3 }
    ensures { IsClType lw_imm result op dest_src (4 * number) base funct3 }
{
    (op | dest_src << 2
        | (number >> 4) << 5
        | (number & 1) << 6
        | base << 7
        | (number >> 1 & 7) << 10
        | funct3 << 13) as u16
}

/// Layout CL of `c.ld` and `c.fld`, and CS of `c.sd` and `c.fsd`.
pub(crate) fn cld_half(op: u32, dest_src: u32, number: u32, base: u32, funct3: u32) -> u16
    requires op { op < 2 ^ 2 }
    requires dest_src { dest_src < 2 ^ 3 }
    requires number { number < 2 ^ 5 }
    requires base { base < 2 ^ 3 }
    requires funct3 { funct3 < 2 ^ 3 }
    ensures { IsClType ld_imm result op dest_src (8 * number) base funct3 }
{
    (op | dest_src << 2 | (number >> 3) << 5 | base << 7 | (number & 7) << 10 | funct3 << 13) as u16
}

/// Layouts CLB and CSB of Zcb.
fn clb_half(op: u32, dest_src: u32, number: u32, base: u32, funct6: u32) -> u16
    requires op { op < 2 ^ 2 }
    requires dest_src { dest_src < 2 ^ 3 }
    requires number { number < 2 ^ 2 }
    requires base { base < 2 ^ 3 }
    requires funct6 { funct6 < 2 ^ 6 }
    ensures { IsClbType result op dest_src number base funct6 }
{
    (op | dest_src << 2 | (number >> 1) << 5 | (number & 1) << 6 | base << 7 | funct6 << 10) as u16
}

/// Layouts CLH and CSH of Zcb.
fn clh_half(op: u32, dest_src: u32, number: u32, funct1: u32, base: u32, funct6: u32) -> u16
    requires op { op < 2 ^ 2 }
    requires dest_src { dest_src < 2 ^ 3 }
    requires number { number < 2 ^ 1 }
    requires funct1 { funct1 < 2 ^ 1 }
    requires base { base < 2 ^ 3 }
    requires funct6 { funct6 < 2 ^ 6 }
    ensures { IsClhType result op dest_src (2 * number) funct1 base funct6 }
{
    (op | dest_src << 2 | number << 5 | funct1 << 6 | base << 7 | funct6 << 10) as u16
}
