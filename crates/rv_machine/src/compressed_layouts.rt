//! The operation that an instruction of 16 bits expands to, with the registers and the immediate that its layout holds:
//! "Compressed Instruction Formats". The layouts are drawn beside their definitions, in specs/Compressed.antt.

ghost use Rattle.std.specs.Prelude.{◌≡◌, ◌<◌, pos};
ghost use Rattle.rv_machine.specs.Layout.{HasFileRegisters, compressed};
ghost use Rattle.rv_machine.specs.Compressed.{cr_layout, ci_layout, load_sp_layout, css_layout, cl_layout, cs_layout, ca_layout, cb_layout, cu_layout};

use crate::compressed_fields::{ci_imm, rd, rs2, short_high, short_low};
use crate::decoding::Decoded;
use crate::ops::MOp;

/// An operation with its registers and its immediate, of an instruction of two bytes.
pub fn compressed(op: MOp, rd: u8, rs1: u8, rs2: u8, imm: i64) -> Decoded
    requires rd { rd < 32 }
    requires rs1 { rs1 < 32 }
    requires rs2 { rs2 < 32 }
    ensures value { result ≡ compressed op rd rs1 rs2 imm }
    ensures registers { HasFileRegisters result }
{
    Decoded::new(op, rd, rs1, rs2, imm, 2)
}

/// Layout CR: a register and a source, to the register.
pub fn register(half: u16, op: MOp) -> Decoded
    ensures value { result ≡ cr_layout half op }
    ensures registers { HasFileRegisters result }
{
    compressed(op, rd(half), rd(half), rs2(half), 0)
}

/// Layout CI: a register and a signed immediate of six bits, to the register.
pub fn immediate(half: u16, op: MOp) -> Decoded
    ensures value { result ≡ ci_layout half op }
    ensures registers { HasFileRegisters result }
{
    compressed(op, rd(half), rd(half), 0, ci_imm(half))
}

/// Layout CI: a load from sp plus an offset.
pub fn load_sp(half: u16, op: MOp, offset: u16) -> Decoded
    ensures value { result ≡ load_sp_layout half op offset }
    ensures registers { HasFileRegisters result }
{
    compressed(op, rd(half), 2, 0, i64::from(offset))
}

/// Layout CSS: a store to sp plus an offset.
pub fn store_sp(half: u16, op: MOp, offset: u16) -> Decoded
    ensures value { result ≡ css_layout half op offset }
    ensures registers { HasFileRegisters result }
{
    compressed(op, 0, 2, rs2(half), i64::from(offset))
}

/// Layout CL: a load.
pub fn load(half: u16, op: MOp, offset: u16) -> Decoded
    ensures value { result ≡ cl_layout half op offset }
    ensures registers { HasFileRegisters result }
{
    compressed(op, short_low(half), short_high(half), 0, i64::from(offset))
}

/// Layout CS: a store.
pub fn store(half: u16, op: MOp, offset: u16) -> Decoded
    ensures value { result ≡ cs_layout half op offset }
    ensures registers { HasFileRegisters result }
{
    compressed(op, 0, short_high(half), short_low(half), i64::from(offset))
}

/// Layout CA: a register and a source of x8 to x15, to the register.
pub fn arithmetic(half: u16, op: MOp) -> Decoded
    ensures value { result ≡ ca_layout half op }
    ensures registers { HasFileRegisters result }
{
    compressed(op, short_high(half), short_high(half), short_low(half), 0)
}

/// Layout CB: a register of x8 to x15 and an immediate, to the register.
pub fn short_immediate(half: u16, op: MOp, imm: i64) -> Decoded
    ensures value { result ≡ cb_layout half op imm }
    ensures registers { HasFileRegisters result }
{
    compressed(op, short_high(half), short_high(half), 0, imm)
}

/// Layout CU: a register of x8 to x15, to the register, with the immediate that the expansion has.
pub fn unary(half: u16, op: MOp, imm: i64) -> Decoded
    ensures value { result ≡ cu_layout half op imm }
    ensures registers { HasFileRegisters result }
{
    compressed(op, short_high(half), short_high(half), 0, imm)
}
