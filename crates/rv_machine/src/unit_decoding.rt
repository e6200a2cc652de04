//! The operations that the integer machine has no step for: the listings of the chapters "A", "Zicsr", "F", "D", "Zfh", "Zfa", "V",
//! "Zbc" and "Zbkb".

ghost use Rattle.std.specs.Prelude.{◌≡◌, IfSome};
ghost use Rattle.rv_machine.specs.Layout.{HasFileRegisters};
ghost use Rattle.rv_machine.specs.UnitDecode.{is_source, atomic_of, decode_amo, decode_csr, is_rounding, has_format, float_load_of, float_store_of, rounded_of, rounded_unary_of, fixed_of, float_of, decode_op_fp, fused_of, decode_fused, is_plain, load_of, store_of, decode_load_fp, decode_store_fp, is_vtype, decode_vsetivli, vector_of, decode_op_v, decode_carry_unary, decode_carry, decode_carry_32, unit_by_opcode, unit_decode};

use crate::compressed::unit_decode_half;
use crate::decoding::Decoded;
use crate::fields::{fmt, funct3, funct5, funct6, funct7, funct12, low_half, opcode, rd, rs1, rs2};
use crate::opcodes::{AMO, LOAD_FP, OP, OP_32, OP_FP, OP_IMM, OP_V, STORE_FP, SYSTEM};
use crate::ops::{AtomicOp, AtomicWidth, FloatFormat, MOp, VecFields, VecMemOp};
use crate::{layouts, unit_tables as tables, vectors};
use rv_base::IsaFlags;

/// The unit's operation of a word, where it has one under these flags.
#[tactic(auto, unfolding(crate::specs::UnitDecode::unit_decode))]
pub fn unit_decode(flags: IsaFlags, word: u32) -> Option<Decoded>
    ensures value { result ≡ unit_decode flags word }
    ensures registers { IfSome result HasFileRegisters }
{
    let opcode = opcode(word);
    if opcode % 4 == 3 {
        unit_by_opcode(flags, opcode, word)
    } else {
        unit_decode_half(flags, low_half(word))
    }
}

fn unit_by_opcode(flags: IsaFlags, opcode: u32, word: u32) -> Option<Decoded>
    ensures value { result ≡ unit_by_opcode flags opcode word }
    ensures registers { IfSome result HasFileRegisters }
{
    match opcode {
        OP_IMM => carry_unary(word),
        OP => carry(word),
        OP_32 => carry_32(word),
        SYSTEM => csr(word),
        LOAD_FP => load_fp(flags, word),
        STORE_FP => store_fp(flags, word),
        AMO => amo(word),
        OP_FP => op_fp(word),
        OP_V => op_v(word),
        _ => fused(opcode, word),
    }
}

/// Returns whether an operation may have this rs2.
fn is_source(op: AtomicOp, rs2: u8) -> bool
    ensures { result ≡ is_source op rs2 }
{
    match op {
        AtomicOp::Lr => rs2 == 0,
        AtomicOp::Sc
        | AtomicOp::Amoswap
        | AtomicOp::Amoadd
        | AtomicOp::Amoxor
        | AtomicOp::Amoand
        | AtomicOp::Amoor
        | AtomicOp::Amomin
        | AtomicOp::Amomax
        | AtomicOp::Amominu
        | AtomicOp::Amomaxu => true,
    }
}

fn atomic_of(word: u32, op: AtomicOp, width: AtomicWidth) -> Option<Decoded>
    ensures value { result ≡ atomic_of word op width }
    ensures registers { IfSome result HasFileRegisters }
{
    if is_source(op, rs2(word)) {
        Some(layouts::atomic(word, MOp::Atomic(op, width)))
    } else {
        None
    }
}

fn amo(word: u32) -> Option<Decoded>
    ensures value { result ≡ decode_amo word }
    ensures registers { IfSome result HasFileRegisters }
{
    match tables::atomic(funct5(word)) {
        Some(op) => match tables::atomic_width(funct3(word)) {
            Some(width) => atomic_of(word, op, width),
            None => None,
        },
        None => None,
    }
}

/// Of `frm`, the CSR 2.
fn csr(word: u32) -> Option<Decoded>
    ensures value { result ≡ decode_csr word }
    ensures registers { IfSome result HasFileRegisters }
{
    if funct12(word) != 0x002 {
        return None;
    }
    match tables::csr(funct3(word)) {
        Some(op) => Some(layouts::unary(word, MOp::Csr(op))),
        None => None,
    }
}

/// Returns whether a rounding mode is a static one or the dynamic one.
fn is_rounding(rm: u8) -> bool
    ensures { result ≡ is_rounding rm }
{
    rm < 5 || rm == 7
}

/// Returns whether numbers of this format are loaded and stored.
fn has_format(flags: IsaFlags, format: FloatFormat) -> bool
    ensures { result ≡ has_format flags format }
{
    match format {
        FloatFormat::H => flags.has_zfhmin,
        FloatFormat::S => true,
        FloatFormat::D => true,
    }
}

fn float_load_of(flags: IsaFlags, word: u32, format: FloatFormat) -> Option<Decoded>
    ensures value { result ≡ float_load_of flags word format }
    ensures registers { IfSome result HasFileRegisters }
{
    if has_format(flags, format) {
        Some(layouts::immediate(word, MOp::FloatLoad(format)))
    } else {
        None
    }
}

fn float_store_of(flags: IsaFlags, word: u32, format: FloatFormat) -> Option<Decoded>
    ensures value { result ≡ float_store_of flags word format }
    ensures registers { IfSome result HasFileRegisters }
{
    if has_format(flags, format) {
        Some(layouts::store(word, MOp::FloatStore(format)))
    } else {
        None
    }
}

fn rounded_of(word: u32, format: FloatFormat) -> Option<Decoded>
    ensures value { result ≡ rounded_of word format }
    ensures registers { IfSome result HasFileRegisters }
{
    if !is_rounding(funct3(word)) {
        return None;
    }
    match tables::rounded(funct5(word)) {
        Some(op) => Some(layouts::rounded_register(word, MOp::Float(format, op))),
        None => None,
    }
}

fn rounded_unary_of(word: u32, format: FloatFormat) -> Option<Decoded>
    ensures value { result ≡ rounded_unary_of word format }
    ensures registers { IfSome result HasFileRegisters }
{
    if !is_rounding(funct3(word)) || tables::is_own_format(format, funct5(word), rs2(word)) {
        return None;
    }
    match tables::rounded_unary(funct5(word), rs2(word)) {
        Some(op) => Some(layouts::rounded_unary(word, MOp::Float(format, op))),
        None => None,
    }
}

fn fixed_of(word: u32, format: FloatFormat) -> Option<Decoded>
    ensures value { result ≡ fixed_of word format }
    ensures registers { IfSome result HasFileRegisters }
{
    if let Some(op) = tables::fixed(funct5(word), funct3(word)) {
        return Some(layouts::register(word, MOp::Float(format, op)));
    }
    match tables::fixed_unary(funct5(word), rs2(word), funct3(word)) {
        Some(op) => Some(layouts::unary(word, MOp::Float(format, op))),
        None => None,
    }
}

fn float_of(word: u32, format: FloatFormat) -> Option<Decoded>
    ensures value { result ≡ float_of word format }
    ensures registers { IfSome result HasFileRegisters }
{
    if let Some(d) = rounded_of(word, format) {
        return Some(d);
    }
    if let Some(d) = rounded_unary_of(word, format) {
        return Some(d);
    }
    fixed_of(word, format)
}

fn op_fp(word: u32) -> Option<Decoded>
    ensures value { result ≡ decode_op_fp word }
    ensures registers { IfSome result HasFileRegisters }
{
    match tables::format(fmt(word)) {
        Some(format) => float_of(word, format),
        None => None,
    }
}

fn fused_of(opcode: u32, word: u32, format: FloatFormat) -> Option<Decoded>
    ensures value { result ≡ fused_of opcode word format }
    ensures registers { IfSome result HasFileRegisters }
{
    if !is_rounding(funct3(word)) {
        return None;
    }
    match tables::fused(opcode) {
        Some(op) => Some(layouts::fused(word, MOp::Float(format, op))),
        None => None,
    }
}

fn fused(opcode: u32, word: u32) -> Option<Decoded>
    ensures value { result ≡ decode_fused opcode word }
    ensures registers { IfSome result HasFileRegisters }
{
    match tables::format(fmt(word)) {
        Some(format) => fused_of(opcode, word, format),
        None => None,
    }
}

/// Returns whether a load or a store of a vector is unit-stride, of one field, and of none of the special kinds.
fn is_plain(word: u32) -> bool
    ensures { result ≡ is_plain word }
{
    word >> 26 == 0 && rs2(word) == 0
}

fn load_of(flags: IsaFlags, word: u32) -> Option<Decoded>
    ensures value { result ≡ load_of flags word }
    ensures registers { IfSome result HasFileRegisters }
{
    match tables::width(funct3(word)) {
        Some(format) => float_load_of(flags, word, format),
        None => None,
    }
}

fn load_fp(flags: IsaFlags, word: u32) -> Option<Decoded>
    ensures value { result ≡ decode_load_fp flags word }
    ensures registers { IfSome result HasFileRegisters }
{
    if let Some(d) = load_of(flags, word) {
        return Some(d);
    }
    if !is_plain(word) {
        return None;
    }
    match tables::vector_load(funct3(word)) {
        Some(op) => Some(layouts::vector_memory(word, MOp::VecMem(op))),
        None => None,
    }
}

fn store_of(flags: IsaFlags, word: u32) -> Option<Decoded>
    ensures value { result ≡ store_of flags word }
    ensures registers { IfSome result HasFileRegisters }
{
    match tables::width(funct3(word)) {
        Some(format) => float_store_of(flags, word, format),
        None => None,
    }
}

fn store_fp(flags: IsaFlags, word: u32) -> Option<Decoded>
    ensures value { result ≡ decode_store_fp flags word }
    ensures registers { IfSome result HasFileRegisters }
{
    if let Some(d) = store_of(flags, word) {
        return Some(d);
    }
    if !is_plain(word) {
        return None;
    }
    match tables::vector_store(funct3(word)) {
        Some(op) => Some(layouts::vector_memory(word, MOp::VecMem(op))),
        None => None,
    }
}

/// Returns whether the bits are those of a vtype: a length multiplier, an element width and two bits.
fn is_vtype(vtype: u32) -> bool
    ensures { result ≡ is_vtype vtype }
{
    vtype < 256 && vtype % 8 != 4 && vtype / 8 % 8 < 4
}

fn vsetivli(word: u32) -> Option<Decoded>
    ensures value { result ≡ decode_vsetivli word }
    ensures registers { IfSome result HasFileRegisters }
{
    if word >> 30 == 3 && is_vtype(word >> 20 & 0x3ff) {
        Some(layouts::vsetivli(word, MOp::VecMem(VecMemOp::Vsetivli)))
    } else {
        None
    }
}

fn vector_of(word: u32, fields: VecFields) -> Option<Decoded>
    ensures value { result ≡ vector_of word fields }
    ensures registers { IfSome result HasFileRegisters }
{
    if !vectors::are_fields(fields, layouts::vm(word), rs2(word), rs1(word), rd(word)) {
        return None;
    }
    let op = MOp::Vec {
        funct6: funct6(word),
        funct3: funct3(word),
    };
    Some(layouts::vector(word, op))
}

fn op_v(word: u32) -> Option<Decoded>
    ensures value { result ≡ decode_op_v word }
    ensures registers { IfSome result HasFileRegisters }
{
    if funct3(word) == 7 {
        return vsetivli(word);
    }
    match vectors::vector_fields(funct6(word), funct3(word)) {
        Some(fields) => vector_of(word, fields),
        None => None,
    }
}

fn carry_unary(word: u32) -> Option<Decoded>
    ensures value { result ≡ decode_carry_unary word }
    ensures registers { IfSome result HasFileRegisters }
{
    match tables::carry_unary(funct12(word), funct3(word)) {
        Some(op) => Some(layouts::unary(word, MOp::Carry(op))),
        None => None,
    }
}

fn carry(word: u32) -> Option<Decoded>
    ensures value { result ≡ decode_carry word }
    ensures registers { IfSome result HasFileRegisters }
{
    match tables::carry(funct7(word), funct3(word)) {
        Some(op) => Some(layouts::register(word, MOp::Carry(op))),
        None => None,
    }
}

/// `packw`; that of x0 is `zext.h`, an integer operation.
fn carry_32(word: u32) -> Option<Decoded>
    ensures value { result ≡ decode_carry_32 word }
    ensures registers { IfSome result HasFileRegisters }
{
    match tables::carry_32(funct7(word), funct3(word)) {
        Some(op) => Some(layouts::register(word, MOp::Carry(op))),
        None => None,
    }
}
