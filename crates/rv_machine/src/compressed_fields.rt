//! The fields and immediates of an instruction of 16 bits: "RVC Instruction Set Listings". The layouts are drawn beside
//! their definitions, in specs/Compressed.antt.

ghost use Rattle.std.specs.Prelude.{◌≡◌, ◌<◌};
ghost use Rattle.rv_machine.specs.Compressed.{half_op, half_funct3, half_rd, half_rs2, short_low, short_high, ci_bits, ci_imm, addi16sp_bits, addi16sp_imm, lwsp_imm, ldsp_imm, swsp_imm, sdsp_imm, ciw_imm, lw_imm, ld_imm, lb_imm, lh_imm, cj_bits, cj_imm};

use crate::fields::sign_extend;

/// Bits 1:0, the quadrant.
pub fn op(half: u16) -> u8
    ensures { result ≡ half_op half }
{
    (half & 3) as u8
}

/// Bits 15:13.
pub fn funct3(half: u16) -> u8
    ensures { result ≡ half_funct3 half }
{
    (half >> 13) as u8
}

/// Bits 11:7.
pub fn rd(half: u16) -> u8
    ensures value { result ≡ half_rd half }
    ensures width { result < 32 }
{
    (half >> 7 & 0x1f) as u8
}

/// Bits 6:2.
pub fn rs2(half: u16) -> u8
    ensures value { result ≡ half_rs2 half }
    ensures width { result < 32 }
{
    (half >> 2 & 0x1f) as u8
}

/// The register from x8 to x15 that bits 4:2 name.
pub fn short_low(half: u16) -> u8
    ensures value { result ≡ short_low half }
    ensures width { result < 32 }
{
    8 + (half >> 2 & 7) as u8
}

/// The register from x8 to x15 that bits 9:7 name.
pub fn short_high(half: u16) -> u8
    ensures value { result ≡ short_high half }
    ensures width { result < 32 }
{
    8 + (half >> 7 & 7) as u8
}

/// The bits of imm[5:0] of layout CI.
pub fn ci_bits(half: u16) -> u16
    ensures { result ≡ ci_bits half }
{
    (half >> 12 & 1) * 32 + (half >> 2 & 0x1f)
}

pub fn ci_imm(half: u16) -> i64
    ensures { result ≡ ci_imm half }
{
    sign_extend(1 << 5, u32::from(ci_bits(half)))
}

/// The bits of imm[9:4] of `c.addi16sp`.
fn addi16sp_bits(half: u16) -> u16
    ensures { result ≡ addi16sp_bits half }
{
    (half >> 12 & 1) * 512
        + (half >> 3 & 3) * 128
        + (half >> 5 & 1) * 64
        + (half >> 2 & 1) * 32
        + (half >> 6 & 1) * 16
}

pub fn addi16sp_imm(half: u16) -> i64
    ensures { result ≡ addi16sp_imm half }
{
    sign_extend(1 << 9, u32::from(addi16sp_bits(half)))
}

/// imm[7:2] of `c.lwsp`.
pub fn lwsp_imm(half: u16) -> u16
    ensures { result ≡ lwsp_imm half }
{
    (half >> 2 & 3) * 64 + (half >> 12 & 1) * 32 + (half >> 4 & 7) * 4
}

/// imm[8:3] of `c.ldsp`.
pub fn ldsp_imm(half: u16) -> u16
    ensures { result ≡ ldsp_imm half }
{
    (half >> 2 & 7) * 64 + (half >> 12 & 1) * 32 + (half >> 5 & 3) * 8
}

/// imm[7:2] of `c.swsp`.
pub fn swsp_imm(half: u16) -> u16
    ensures { result ≡ swsp_imm half }
{
    (half >> 7 & 3) * 64 + (half >> 9 & 0xf) * 4
}

/// imm[8:3] of `c.sdsp`.
pub fn sdsp_imm(half: u16) -> u16
    ensures { result ≡ sdsp_imm half }
{
    (half >> 7 & 7) * 64 + (half >> 10 & 7) * 8
}

/// imm[9:2] of layout CIW.
pub fn ciw_imm(half: u16) -> u16
    ensures { result ≡ ciw_imm half }
{
    (half >> 7 & 0xf) * 64 + (half >> 11 & 3) * 16 + (half >> 5 & 1) * 8 + (half >> 6 & 1) * 4
}

/// imm[6:2] of `c.lw` and `c.sw`.
pub fn lw_imm(half: u16) -> u16
    ensures { result ≡ lw_imm half }
{
    (half >> 5 & 1) * 64 + (half >> 10 & 7) * 8 + (half >> 6 & 1) * 4
}

/// imm[7:3] of `c.ld` and `c.sd`.
pub fn ld_imm(half: u16) -> u16
    ensures { result ≡ ld_imm half }
{
    (half >> 5 & 3) * 64 + (half >> 10 & 7) * 8
}

/// imm[1:0] of `c.lbu` and `c.sb`.
pub fn lb_imm(half: u16) -> u16
    ensures { result ≡ lb_imm half }
{
    (half >> 5 & 1) * 2 + (half >> 6 & 1)
}

/// imm[1] of `c.lhu`, `c.lh` and `c.sh`.
pub fn lh_imm(half: u16) -> u16
    ensures { result ≡ lh_imm half }
{
    (half >> 5 & 1) * 2
}

/// The bits of imm[11:1] of layout CJ.
fn cj_bits(half: u16) -> u16
    ensures { result ≡ cj_bits half }
{
    (half >> 12 & 1) * 2048
        + (half >> 8 & 1) * 1024
        + (half >> 9 & 3) * 256
        + (half >> 6 & 1) * 128
        + (half >> 7 & 1) * 64
        + (half >> 2 & 1) * 32
        + (half >> 11 & 1) * 16
        + (half >> 3 & 7) * 2
}

pub fn cj_imm(half: u16) -> i64
    ensures { result ≡ cj_imm half }
{
    sign_extend(1 << 11, u32::from(cj_bits(half)))
}
