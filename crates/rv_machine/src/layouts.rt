//! An operation with the registers and the immediate that its layout holds: "2.3 Immediate Encoding Variants". The
//! layouts are drawn beside their definitions, in specs/Layout.antt.

ghost use Rattle.std.specs.Prelude.{◌≡◌, ◌<◌};
ghost use Rattle.rv_machine.specs.Layout.{HasFileRegisters, decoded, i_imm, s_bits, s_imm, b_bits, b_imm, u_imm, j_bits, j_imm, bare_form, r_layout, i_layout, shift_layout, shift_32_layout, unary_layout, s_layout, b_layout, u_layout, j_layout, fence_layout, rounded, rounded_layout, rounded_unary_layout, r4_layout, amo_layout, word_vm, with_mask, vector_layout, vector_memory_layout, vsetivli_layout};

use crate::decoding::Decoded;
use crate::fields::{fmt, funct3, funct5, rd, rs1, rs2, sign_extend};
use crate::ops::MOp;

/// imm[11:0] of layout I.
fn i_imm(word: u32) -> i64
    ensures { result ≡ i_imm word }
{
    sign_extend(1 << 11, word >> 20)
}

/// The bits of imm[11:0] of layout S.
fn s_bits(word: u32) -> u32
    ensures { result ≡ s_bits word }
{
    (word >> 25) * 32 + (word >> 7 & 0x1f)
}

fn s_imm(word: u32) -> i64
    ensures { result ≡ s_imm word }
{
    sign_extend(1 << 11, s_bits(word))
}

/// The bits of imm[12:1] of layout B.
fn b_bits(word: u32) -> u32
    ensures { result ≡ b_bits word }
{
    (word >> 31) * 4096 + (word >> 7 & 1) * 2048 + (word >> 25 & 0x3f) * 32 + (word >> 8 & 0xf) * 2
}

fn b_imm(word: u32) -> i64
    ensures { result ≡ b_imm word }
{
    sign_extend(1 << 12, b_bits(word))
}

/// imm[31:12] of layout U.
fn u_imm(word: u32) -> i64
    ensures { result ≡ u_imm word }
{
    sign_extend(1 << 19, word >> 12)
}

/// The bits of imm[20:1] of layout J.
fn j_bits(word: u32) -> u32
    ensures { result ≡ j_bits word }
{
    (word >> 31) * 1048576
        + (word >> 12 & 0xff) * 4096
        + (word >> 20 & 1) * 2048
        + (word >> 21 & 0x3ff) * 2
}

fn j_imm(word: u32) -> i64
    ensures { result ≡ j_imm word }
{
    sign_extend(1 << 20, j_bits(word))
}

/// An operation with its registers and its immediate, of an instruction of four bytes.
fn decoded(op: MOp, rd: u8, rs1: u8, rs2: u8, imm: i64) -> Decoded
    requires rd { rd < 32 }
    requires rs1 { rs1 < 32 }
    requires rs2 { rs2 < 32 }
    ensures value { result ≡ decoded op rd rs1 rs2 imm }
    ensures registers { HasFileRegisters result }
{
    Decoded::new(op, rd, rs1, rs2, imm, 4)
}

/// An operation without registers and immediate.
pub fn bare(op: MOp) -> Decoded
    ensures value { result ≡ bare_form op }
    ensures registers { HasFileRegisters result }
{
    decoded(op, 0, 0, 0, 0)
}

/// Layout R: two sources.
pub fn register(word: u32, op: MOp) -> Decoded
    ensures value { result ≡ r_layout word op }
    ensures registers { HasFileRegisters result }
{
    decoded(op, rd(word), rs1(word), rs2(word), 0)
}

/// Layout I: a source and an immediate of twelve bits.
pub fn immediate(word: u32, op: MOp) -> Decoded
    ensures value { result ≡ i_layout word op }
    ensures registers { HasFileRegisters result }
{
    decoded(op, rd(word), rs1(word), 0, i_imm(word))
}

/// Layout I with a shift amount of six bits.
pub fn shift(word: u32, op: MOp) -> Decoded
    ensures value { result ≡ shift_layout word op }
    ensures registers { HasFileRegisters result }
{
    decoded(op, rd(word), rs1(word), 0, i64::from(word >> 20 & 0x3f))
}

/// Layout I with a shift amount of five bits.
pub fn shift_32(word: u32, op: MOp) -> Decoded
    ensures value { result ≡ shift_32_layout word op }
    ensures registers { HasFileRegisters result }
{
    decoded(op, rd(word), rs1(word), 0, i64::from(rs2(word)))
}

/// Layout I of one source, and no immediate.
pub fn unary(word: u32, op: MOp) -> Decoded
    ensures value { result ≡ unary_layout word op }
    ensures registers { HasFileRegisters result }
{
    decoded(op, rd(word), rs1(word), 0, 0)
}

/// Layout S: two sources and an immediate of twelve bits.
pub fn store(word: u32, op: MOp) -> Decoded
    ensures value { result ≡ s_layout word op }
    ensures registers { HasFileRegisters result }
{
    decoded(op, 0, rs1(word), rs2(word), s_imm(word))
}

/// Layout B: two sources and a distance in bytes.
pub fn branch(word: u32, op: MOp) -> Decoded
    ensures value { result ≡ b_layout word op }
    ensures registers { HasFileRegisters result }
{
    decoded(op, 0, rs1(word), rs2(word), b_imm(word))
}

/// Layout U: an immediate of twenty bits.
pub fn upper(word: u32, op: MOp) -> Decoded
    ensures value { result ≡ u_layout word op }
    ensures registers { HasFileRegisters result }
{
    decoded(op, rd(word), 0, 0, u_imm(word))
}

/// Layout J: a distance in bytes.
pub fn jump(word: u32, op: MOp) -> Decoded
    ensures value { result ≡ j_layout word op }
    ensures registers { HasFileRegisters result }
{
    decoded(op, rd(word), 0, 0, j_imm(word))
}

/// `fence`, with its two sets of four bits.
pub fn fence(word: u32, op: MOp) -> Decoded
    ensures value { result ≡ fence_layout word op }
    ensures registers { HasFileRegisters result }
{
    decoded(op, 0, 0, 0, i64::from(word >> 20 & 0xff))
}

/// With a third source, and a rounding mode.
fn rounded(d: Decoded, rs3: u8, rm: u8) -> Decoded
    requires registers { HasFileRegisters d }
    requires rs3 { rs3 < 32 }
    ensures value { result ≡ rounded d rs3 rm }
    ensures registers { HasFileRegisters result }
{
    Decoded { rs3, rm, ..d }
}

/// Layout R with a rounding mode: two sources.
pub fn rounded_register(word: u32, op: MOp) -> Decoded
    ensures value { result ≡ rounded_layout word op }
    ensures registers { HasFileRegisters result }
{
    rounded(register(word, op), 0, funct3(word))
}

/// Layout R with a rounding mode: one source.
pub fn rounded_unary(word: u32, op: MOp) -> Decoded
    ensures value { result ≡ rounded_unary_layout word op }
    ensures registers { HasFileRegisters result }
{
    rounded(unary(word, op), 0, funct3(word))
}

/// Layout R4: three sources and a rounding mode.
pub fn fused(word: u32, op: MOp) -> Decoded
    ensures value { result ≡ r4_layout word op }
    ensures registers { HasFileRegisters result }
{
    rounded(register(word, op), funct5(word), funct3(word))
}

/// Of AMO: two sources, and the ordering bits.
pub fn atomic(word: u32, op: MOp) -> Decoded
    ensures value { result ≡ amo_layout word op }
    ensures registers { HasFileRegisters result }
{
    decoded(op, rd(word), rs1(word), rs2(word), i64::from(fmt(word)))
}

/// Returns whether the bit at 25 is 1.
pub fn vm(word: u32) -> bool
    ensures { result ≡ word_vm word }
{
    word >> 25 & 1 == 1
}

fn with_mask(d: Decoded, vm: bool) -> Decoded
    requires { HasFileRegisters d }
    ensures value { result ≡ with_mask d vm }
    ensures registers { HasFileRegisters result }
{
    Decoded { vm, ..d }
}

/// Vector arithmetic: two sources, and whether it is unmasked.
pub fn vector(word: u32, op: MOp) -> Decoded
    ensures value { result ≡ vector_layout word op }
    ensures registers { HasFileRegisters result }
{
    with_mask(register(word, op), vm(word))
}

/// A load or a store of a vector: its base, and whether it is unmasked.
pub fn vector_memory(word: u32, op: MOp) -> Decoded
    ensures value { result ≡ vector_memory_layout word op }
    ensures registers { HasFileRegisters result }
{
    with_mask(unary(word, op), vm(word))
}

/// `vsetivli`, with its length in elements and the bits of vtype.
pub fn vsetivli(word: u32, op: MOp) -> Decoded
    ensures value { result ≡ vsetivli_layout word op }
    ensures registers { HasFileRegisters result }
{
    decoded(op, rd(word), rs1(word), 0, i64::from(word >> 20 & 0x3ff))
}
