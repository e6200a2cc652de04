//! Forms of operations of a register and an immediate, of `lui`, and of `jalr`: "Integer Computational Instructions" and "Control
//! Transfer Instructions" of "C", and "Zcb".

ghost use Rattle.std.specs.Prelude.{◌≡◌, ◌^◌, ◌*◌, ◌*ℤ◌, true, false, pos, negsuc, MatchOption, Some, IfSome};
ghost use Rattle.rv_base.specs.declared.flags.IsaFlags.{IsaFlags as Flags};
ghost use Rattle.rv_base.specs.Regs.{number_of};
ghost use Rattle.rv_imms.specs.Bits.{low_bits};
ghost use Rattle.rv_machine.specs.declared.ops.MOp.TheVariants.{Alu};
ghost use Rattle.rv_machine.specs.declared.ops.AluOp.{AluOp};
ghost use Rattle.rv_machine.specs.declared.ops.AluOp.TheVariants.{Int};
ghost use Rattle.rv_machine.specs.declared.ops.IntOp.TheVariants.{Addi, Andi};
ghost use Rattle.rv_machine.specs.Layout.{compressed};
ghost use Rattle.rv_encode.specs.Registers.{IsIntRegister, IsShortRegister};
ghost use Rattle.rv_inst.specs.Forms.{is_equal, is_six_bits, is_multiple, is_from_to, is_scaled, is_move, is_addi16sp, is_addi4spn, is_li, is_addi, shift_amount, form_where, IsAddi16spFirst, addi_form, ori_form, addiw_form, slli_form, right_shift_form, andi_form, not_form, extend_form, form_rri, form_lui, form_jalr, form_ebreak};
ghost use Rattle.rv_compress.specs.Encoded.{IsForm, IsSixBits, right_shift, extension};

use crate::compressed::reg_is_compressible;
use rv_base::{IsaFlags, Reg, WritableReg, writable_zero_reg, zero_reg};
use rv_encode::{
    encode_c_addi16sp, encode_cb_type, encode_ci_type, encode_ciw_type, encode_cr_type,
    encode_cr2_type, encode_cszn_type, number_of,
};
use rv_imms::{Imm6, Imm12, Imm20};
use rv_ops::{AluOPRRI, CbOp, CiOp, CiwOp, CrOp, CsznOp};

/// The form of an operation of a register and an immediate, where it has one.
pub(crate) fn compressed_rri(
    flags: IsaFlags,
    op: AluOPRRI,
    rd: WritableReg,
    rs: Reg,
    imm12: Imm12,
) -> Option<u16>
    requires rd { IsIntRegister rd.reg }
    requires rs { IsIntRegister rs }
    ensures form { IsForm flags result (form_rri flags op (number_of rd.reg) (number_of rs) imm12.value) }
    ensures first { op ≡ AluOPRRI.Addi → IfSome result (IsAddi16spFirst (number_of rd.reg) (number_of rs) imm12.value) }
{
    if !flags.has_zca {
        return None;
    }
    match op {
        AluOPRRI::Addi => compressed_addi(rd, rs, imm12),
        AluOPRRI::Ori => compressed_ori(rd, rs, imm12),
        AluOPRRI::Addiw => c_addiw(rd, rs, imm12),
        AluOPRRI::Slli => c_slli(rd, rs, imm12),
        AluOPRRI::Srli => c_shift_right(CbOp::CSrli, rd, rs, imm12),
        AluOPRRI::Srai => c_shift_right(CbOp::CSrai, rd, rs, imm12),
        AluOPRRI::Andi => compressed_andi(flags, rd, rs, imm12),
        AluOPRRI::Xori => c_not(flags, rd, rs, imm12),
        AluOPRRI::Sextb => c_extend(flags, CsznOp::CSextb, rd, rs, imm12),
        AluOPRRI::Sexth => c_extend(flags, CsznOp::CSexth, rd, rs, imm12),
        AluOPRRI::Zexth => c_extend(flags, CsznOp::CZexth, rd, rs, imm12),
        _ => None,
    }
}

/// The form of `lui`, of a register other than x0 and sp and of an immediate other than 0.
pub(crate) fn compressed_lui(flags: IsaFlags, rd: WritableReg, imm20: Imm20) -> Option<u16>
    requires { IsIntRegister rd.reg }
    ensures { IsForm flags result (form_lui flags (number_of rd.reg) imm20.value) }
{
    let rd_number = number_of(rd.reg);
    if !flags.has_zca || rd_number == 0 || rd_number == 2 || imm20.value == 0 {
        return None;
    }
    match six_bits(imm20.value) {
        Some(imm6) => Some(encode_ci_type(CiOp::CLui, rd, imm6)),
        None => None,
    }
}

/// `c.jr` and `c.jalr`, of a register other than x0 with no offset.
pub(crate) fn compressed_jalr(
    flags: IsaFlags,
    rd: WritableReg,
    base: Reg,
    offset: Imm12,
) -> Option<u16>
    requires rd { IsIntRegister rd.reg }
    requires base { IsIntRegister base }
    ensures { IsForm flags result (form_jalr flags (number_of rd.reg) (number_of base) offset.value) }
{
    if !flags.has_zca || number_of(base) == 0 || !is_zero(offset) {
        return None;
    }
    match number_of(rd.reg) {
        0 => Some(encode_cr2_type(CrOp::CJr, base)),
        1 => Some(encode_cr2_type(CrOp::CJalr, base)),
        _ => None,
    }
}

/// `c.ebreak`.
pub(crate) fn compressed_ebreak(flags: IsaFlags) -> Option<u16>
    ensures { IsForm flags result (form_ebreak flags) }
{
    if flags.has_zca {
        Some(encode_cr_type(CrOp::CEbreak, writable_zero_reg(), zero_reg()))
    } else {
        None
    }
}

// ---- immediates

/// The immediate of six bits; none outside -32 to 31.
fn six_bits(value: i32) -> Option<Imm6>
    ensures { MatchOption result (is_six_bits value ≡ false) (λ imm. IsSixBits value imm.value) }
{
    if -32 <= value && value <= 31 {
        Some(Imm6 { value: value as i8 })
    } else {
        None
    }
}

/// Returns whether an immediate is 0.
fn is_zero(imm12: Imm12) -> bool
    ensures { result ≡ is_equal imm12.value (pos 0) }
{
    imm12.value == 0
}

/// The low six bits of a shift amount, read as a signed immediate.
fn shift_imm(imm12: Imm12) -> Imm6
    ensures { pos (low_bits (2 ^ 6) result.value) ≡ shift_amount imm12.value }
{
    let amount = (imm12.bits() & 0x3f) as i8;
    Imm6 {
        value: if amount < 32 { amount } else { amount - 64 },
    }
}

// ---- addi

fn is_move(rd: Reg, rs: Reg, imm12: Imm12) -> bool
    ensures { result ≡ is_move (number_of rd) (number_of rs) imm12.value }
{
    number_of(rd) != number_of(rs) && number_of(rd) != 0 && number_of(rs) != 0 && is_zero(imm12)
}

fn is_addi16sp(rd: Reg, rs: Reg, imm12: Imm12) -> bool
    ensures { result ≡ is_addi16sp (number_of rd) (number_of rs) imm12.value }
{
    number_of(rd) == number_of(rs)
        && number_of(rs) == 2
        && !is_zero(imm12)
        && is_multiple_of_16(imm12)
        && is_in_sixteens(imm12)
}

fn is_multiple_of_16(imm12: Imm12) -> bool
    ensures { result ≡ is_multiple 16 imm12.value }
{
    imm12.value % 16 == 0
}

/// Returns whether an immediate is from -512 to 496, as six bits that count sixteens are.
fn is_in_sixteens(imm12: Imm12) -> bool
    ensures { result ≡ is_from_to (negsuc 511) (pos 496) imm12.value }
{
    let value = imm12.value;
    -512 <= value && value <= 496
}

fn is_addi4spn(rd: Reg, rs: Reg, imm12: Imm12) -> bool
    ensures { result ≡ is_addi4spn (number_of rd) (number_of rs) imm12.value }
{
    let value = imm12.value;
    reg_is_compressible(rd)
        && number_of(rs) == 2
        && !is_zero(imm12)
        && value % 4 == 0
        && 0 <= value
        && value <= 1020
}

fn is_li(rd: Reg, rs: Reg) -> bool
    ensures { result ≡ is_li (number_of rd) (number_of rs) }
{
    number_of(rd) != 0 && number_of(rs) == 0
}

fn is_addi(rd: Reg, rs: Reg, imm12: Imm12) -> bool
    ensures { result ≡ is_addi (number_of rd) (number_of rs) imm12.value }
{
    number_of(rd) == number_of(rs) && number_of(rs) != 0 && !is_zero(imm12)
}

/// `c.mv`, `c.addi16sp`, `c.addi4spn`, `c.li` or `c.addi`.
fn compressed_addi(rd: WritableReg, rs: Reg, imm12: Imm12) -> Option<u16>
    requires rd { IsIntRegister rd.reg }
    requires rs { IsIntRegister rs }
    ensures form { (flags : Flags) → flags.has_zca ≡ true → IsForm flags result (addi_form (number_of rd.reg) (number_of rs) imm12.value) }
    ensures first { IfSome result (IsAddi16spFirst (number_of rd.reg) (number_of rs) imm12.value) }
{
    if is_move(rd.reg, rs, imm12) {
        Some(encode_cr_type(CrOp::CMv, rd, rs))
    } else if is_addi16sp(rd.reg, rs, imm12) {
        Some(encode_c_addi16sp(sixteens(imm12)))
    } else if is_addi4spn(rd.reg, rs, imm12) {
        Some(encode_ciw_type(CiwOp::CAddi4spn, rd, fours(imm12)))
    } else if is_li(rd.reg, rs) {
        c_li(rd, imm12)
    } else if is_addi(rd.reg, rs, imm12) {
        c_addi(rd, imm12)
    } else {
        None
    }
}

/// An immediate of sixteens, as their number.
fn sixteens(imm12: Imm12) -> Imm6
    requires multiple { is_multiple 16 imm12.value ≡ true }
    requires fits { is_from_to (negsuc 511) (pos 496) imm12.value ≡ true }
    ensures { pos 16 *ℤ result.value ≡ imm12.value }
{
    Imm6 {
        value: (imm12.value / 16) as i8,
    }
}

/// An immediate of fours, as their number.
fn fours(imm12: Imm12) -> u8
    requires { is_scaled 4 255 imm12.value ≡ true }
    ensures { pos (4 * result) ≡ imm12.value }
{
    (imm12.value / 4) as u8
}

fn c_li(rd: WritableReg, imm12: Imm12) -> Option<u16>
    requires { IsIntRegister rd.reg }
    ensures { (flags : Flags) → flags.has_zca ≡ true → IsForm flags result (form_where (is_six_bits imm12.value) (compressed (Alu (Int Addi)) (number_of rd.reg) 0 0 imm12.value)) }
{
    match six_bits(i32::from(imm12.value)) {
        Some(imm6) => Some(encode_ci_type(CiOp::CLi, rd, imm6)),
        None => None,
    }
}

fn c_addi(rd: WritableReg, imm12: Imm12) -> Option<u16>
    requires { IsIntRegister rd.reg }
    ensures { (flags : Flags) → flags.has_zca ≡ true → IsForm flags result (form_where (is_six_bits imm12.value) (compressed (Alu (Int Addi)) (number_of rd.reg) (number_of rd.reg) 0 imm12.value)) }
{
    match six_bits(i32::from(imm12.value)) {
        Some(imm6) => Some(encode_ci_type(CiOp::CAddi, rd, imm6)),
        None => None,
    }
}

/// `c.mv`, where an immediate of 0 is or'ed.
fn compressed_ori(rd: WritableReg, rs: Reg, imm12: Imm12) -> Option<u16>
    requires rd { IsIntRegister rd.reg }
    requires rs { IsIntRegister rs }
    ensures { (flags : Flags) → flags.has_zca ≡ true → IsForm flags result (ori_form (number_of rd.reg) (number_of rs) imm12.value) }
{
    if is_move(rd.reg, rs, imm12) {
        Some(encode_cr_type(CrOp::CMv, rd, rs))
    } else {
        None
    }
}

fn c_addiw(rd: WritableReg, rs: Reg, imm12: Imm12) -> Option<u16>
    requires rd { IsIntRegister rd.reg }
    requires rs { IsIntRegister rs }
    ensures { (flags : Flags) → flags.has_zca ≡ true → IsForm flags result (addiw_form (number_of rd.reg) (number_of rs) imm12.value) }
{
    if number_of(rd.reg) != number_of(rs) || number_of(rs) == 0 {
        return None;
    }
    match six_bits(i32::from(imm12.value)) {
        Some(imm6) => Some(encode_ci_type(CiOp::CAddiw, rd, imm6)),
        None => None,
    }
}

// ---- shifts

fn c_slli(rd: WritableReg, rs: Reg, imm12: Imm12) -> Option<u16>
    requires rd { IsIntRegister rd.reg }
    requires rs { IsIntRegister rs }
    ensures { (flags : Flags) → flags.has_zca ≡ true → IsForm flags result (slli_form (number_of rd.reg) (number_of rs) imm12.value) }
{
    if number_of(rd.reg) == number_of(rs) && number_of(rs) != 0 && !is_zero(imm12) {
        Some(encode_ci_type(CiOp::CSlli, rd, shift_imm(imm12)))
    } else {
        None
    }
}

/// `c.srli` and `c.srai`.
fn c_shift_right(op: CbOp, rd: WritableReg, rs: Reg, imm12: Imm12) -> Option<u16>
    requires rd { IsIntRegister rd.reg }
    requires rs { IsIntRegister rs }
    ensures { (flags : Flags) (alu : AluOp) → flags.has_zca ≡ true → right_shift op ≡ Some alu → IsForm flags result (right_shift_form alu (number_of rd.reg) (number_of rs) imm12.value) }
{
    if number_of(rd.reg) == number_of(rs) && reg_is_compressible(rs) && !is_zero(imm12) {
        Some(encode_cb_type(op, rd, shift_imm(imm12)))
    } else {
        None
    }
}

// ---- andi, and the operations of Zcb

/// `c.zext.b` and `c.andi`.
fn compressed_andi(flags: IsaFlags, rd: WritableReg, rs: Reg, imm12: Imm12) -> Option<u16>
    requires rd { IsIntRegister rd.reg }
    requires rs { IsIntRegister rs }
    requires zca { flags.has_zca ≡ true }
    ensures { IsForm flags result (andi_form flags (number_of rd.reg) (number_of rs) imm12.value) }
{
    let is_own = number_of(rd.reg) == number_of(rs) && reg_is_compressible(rs);
    if flags.has_zcb && is_own && imm12.value == 255 {
        Some(encode_cszn_type(CsznOp::CZextb, rd))
    } else if is_own {
        c_andi(rd, imm12)
    } else {
        None
    }
}

fn c_andi(rd: WritableReg, imm12: Imm12) -> Option<u16>
    requires { IsShortRegister rd.reg }
    ensures { (flags : Flags) → flags.has_zca ≡ true → IsForm flags result (form_where (is_six_bits imm12.value) (compressed (Alu (Int Andi)) (number_of rd.reg) (number_of rd.reg) 0 imm12.value)) }
{
    match six_bits(i32::from(imm12.value)) {
        Some(imm6) => Some(encode_cb_type(CbOp::CAndi, rd, imm6)),
        None => None,
    }
}

/// `c.not`, which stands for `xori` of -1.
fn c_not(flags: IsaFlags, rd: WritableReg, rs: Reg, imm12: Imm12) -> Option<u16>
    requires rd { IsIntRegister rd.reg }
    requires rs { IsIntRegister rs }
    requires zca { flags.has_zca ≡ true }
    ensures { IsForm flags result (not_form flags (number_of rd.reg) (number_of rs) imm12.value) }
{
    if flags.has_zcb
        && number_of(rd.reg) == number_of(rs)
        && reg_is_compressible(rs)
        && imm12.value == -1
    {
        Some(encode_cszn_type(CsznOp::CNot, rd))
    } else {
        None
    }
}

/// `c.sext.b`, `c.sext.h` and `c.zext.h`, where Zcb and Zbb are there.
fn c_extend(flags: IsaFlags, op: CsznOp, rd: WritableReg, rs: Reg, imm12: Imm12) -> Option<u16>
    requires rd { IsIntRegister rd.reg }
    requires rs { IsIntRegister rs }
    requires zca { flags.has_zca ≡ true }
    ensures { (alu : AluOp) → extension op ≡ Some alu → IsForm flags result (extend_form flags alu (number_of rd.reg) (number_of rs) imm12.value) }
{
    if !(flags.has_zcb && flags.has_zbb) {
        return None;
    }
    if number_of(rd.reg) == number_of(rs) && reg_is_compressible(rs) && is_zero(imm12) {
        Some(encode_cszn_type(op, rd))
    } else {
        None
    }
}
