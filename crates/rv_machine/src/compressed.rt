//! The operations of instructions of 16 bits, by quadrant: "RVC Instruction Set Listings", and "Zcb".

ghost use Rattle.std.specs.Prelude.{◌≡◌, IfSome};
ghost use Rattle.rv_machine.specs.Layout.{HasFileRegisters};
ghost use Rattle.rv_machine.specs.Compressed.{decode_addi4spn, decode_zcb_memory, quadrant_0, decode_addiw, decode_li, decode_j, decode_lui, decode_zcb_unary, decode_two_registers, decode_arithmetic, quadrant_1, decode_slli, decode_load_sp, decode_jr_mv, decode_jalr_add, quadrant_2, by_quadrant, unit_by_quadrant, int_decode_half, unit_decode_half, decode_half};

use crate::compressed_fields::{
    addi16sp_imm, ci_bits, ci_imm, ciw_imm, cj_imm, funct3, lb_imm, ld_imm, ldsp_imm, lh_imm,
    lw_imm, lwsp_imm, op, rd, rs2, sdsp_imm, short_low, swsp_imm,
};
use crate::compressed_layouts as layouts;
use crate::compressed_layouts::compressed;
use crate::decoding::Decoded;
use crate::ops::{AluOp, BaseOp, BitOp, FloatFormat, IntOp, LoadOp, MOp, MulOp, StoreOp};
use rv_base::IsaFlags;

/// The operation that an instruction of 16 bits expands to, where it has one under these flags.
#[tactic(auto, unfolding(crate::specs::Compressed::decode_half))]
pub fn decode_half(flags: IsaFlags, half: u16) -> Option<Decoded>
    ensures value { result ≡ decode_half flags half }
    ensures registers { IfSome result HasFileRegisters }
{
    if let Some(decoded) = int_decode_half(flags, half) {
        return Some(decoded);
    }
    unit_decode_half(flags, half)
}

/// The integer operation that an instruction of 16 bits expands to.
#[tactic(auto, unfolding(crate::specs::Compressed::int_decode_half))]
pub fn int_decode_half(flags: IsaFlags, half: u16) -> Option<Decoded>
    ensures value { result ≡ int_decode_half flags half }
    ensures registers { IfSome result HasFileRegisters }
{
    if flags.has_zca {
        by_quadrant(flags, half)
    } else {
        None
    }
}

fn by_quadrant(flags: IsaFlags, half: u16) -> Option<Decoded>
    ensures value { result ≡ by_quadrant flags half }
    ensures registers { IfSome result HasFileRegisters }
{
    match op(half) {
        0 => quadrant_0(flags, half),
        1 => quadrant_1(flags, half),
        2 => quadrant_2(half),
        _ => None,
    }
}

// ---- quadrant 0

fn quadrant_0(flags: IsaFlags, half: u16) -> Option<Decoded>
    ensures value { result ≡ quadrant_0 flags half }
    ensures registers { IfSome result HasFileRegisters }
{
    match funct3(half) {
        0 => addi4spn(half),
        2 => Some(layouts::load(half, MOp::Load(LoadOp::Lw), lw_imm(half))),
        3 => Some(layouts::load(half, MOp::Load(LoadOp::Ld), ld_imm(half))),
        4 if flags.has_zcb => zcb_memory(half),
        6 => Some(layouts::store(half, MOp::Store(StoreOp::Sw), lw_imm(half))),
        7 => Some(layouts::store(half, MOp::Store(StoreOp::Sd), ld_imm(half))),
        _ => None,
    }
}

fn addi4spn(half: u16) -> Option<Decoded>
    ensures value { result ≡ decode_addi4spn half }
    ensures registers { IfSome result HasFileRegisters }
{
    let imm = ciw_imm(half);
    if imm == 0 {
        return None;
    }
    let addi = MOp::Alu(AluOp::Int(IntOp::Addi));
    Some(compressed(addi, short_low(half), 2, 0, i64::from(imm)))
}

fn zcb_memory(half: u16) -> Option<Decoded>
    ensures value { result ≡ decode_zcb_memory half }
    ensures registers { IfSome result HasFileRegisters }
{
    match (half >> 10 & 7, half >> 6 & 1) {
        (0, _) => Some(layouts::load(half, MOp::Load(LoadOp::Lbu), lb_imm(half))),
        (1, 0) => Some(layouts::load(half, MOp::Load(LoadOp::Lhu), lh_imm(half))),
        (1, 1) => Some(layouts::load(half, MOp::Load(LoadOp::Lh), lh_imm(half))),
        (2, _) => Some(layouts::store(half, MOp::Store(StoreOp::Sb), lb_imm(half))),
        (3, 0) => Some(layouts::store(half, MOp::Store(StoreOp::Sh), lh_imm(half))),
        _ => None,
    }
}

// ---- quadrant 1

fn quadrant_1(flags: IsaFlags, half: u16) -> Option<Decoded>
    ensures value { result ≡ quadrant_1 flags half }
    ensures registers { IfSome result HasFileRegisters }
{
    match funct3(half) {
        0 => Some(layouts::immediate(half, MOp::Alu(AluOp::Int(IntOp::Addi)))),
        1 => addiw(half),
        2 => Some(li(half)),
        3 => upper(half),
        4 => arithmetic(flags, half),
        5 => Some(jump(half)),
        _ => None,
    }
}

fn addiw(half: u16) -> Option<Decoded>
    ensures value { result ≡ decode_addiw half }
    ensures registers { IfSome result HasFileRegisters }
{
    if rd(half) == 0 {
        return None;
    }
    Some(layouts::immediate(half, MOp::Alu(AluOp::Int(IntOp::Addiw))))
}

fn li(half: u16) -> Decoded
    ensures value { result ≡ decode_li half }
    ensures registers { HasFileRegisters result }
{
    let addi = MOp::Alu(AluOp::Int(IntOp::Addi));
    compressed(addi, rd(half), 0, 0, ci_imm(half))
}

/// `c.addi16sp` and `c.lui`.
fn upper(half: u16) -> Option<Decoded>
    ensures value { result ≡ decode_lui half }
    ensures registers { IfSome result HasFileRegisters }
{
    if ci_bits(half) == 0 {
        return None;
    }
    if rd(half) == 2 {
        let addi = MOp::Alu(AluOp::Int(IntOp::Addi));
        return Some(compressed(addi, 2, 2, 0, addi16sp_imm(half)));
    }
    Some(compressed(MOp::Base(BaseOp::Lui), rd(half), 0, 0, ci_imm(half)))
}

fn arithmetic(flags: IsaFlags, half: u16) -> Option<Decoded>
    ensures value { result ≡ decode_arithmetic flags half }
    ensures registers { IfSome result HasFileRegisters }
{
    let amount = i64::from(ci_bits(half));
    match half >> 10 & 3 {
        0 => Some(layouts::short_immediate(half, MOp::Alu(AluOp::Int(IntOp::Srli)), amount)),
        1 => Some(layouts::short_immediate(half, MOp::Alu(AluOp::Int(IntOp::Srai)), amount)),
        2 => Some(layouts::short_immediate(half, MOp::Alu(AluOp::Int(IntOp::Andi)), ci_imm(half))),
        _ => two_registers(flags, half),
    }
}

fn two_registers(flags: IsaFlags, half: u16) -> Option<Decoded>
    ensures value { result ≡ decode_two_registers flags half }
    ensures registers { IfSome result HasFileRegisters }
{
    let op = match (half >> 12 & 1, half >> 5 & 3) {
        (0, 0) => AluOp::Int(IntOp::Sub),
        (0, 1) => AluOp::Int(IntOp::Xor),
        (0, 2) => AluOp::Int(IntOp::Or),
        (0, 3) => AluOp::Int(IntOp::And),
        (1, 0) => AluOp::Int(IntOp::Subw),
        (1, 1) => AluOp::Int(IntOp::Addw),
        (1, 2) if flags.has_zcb && flags.has_m => AluOp::Mul(MulOp::Mul),
        (1, 3) if flags.has_zcb => return zcb_unary(flags, half),
        _ => return None,
    };
    Some(layouts::arithmetic(half, MOp::Alu(op)))
}

fn zcb_unary(flags: IsaFlags, half: u16) -> Option<Decoded>
    ensures value { result ≡ decode_zcb_unary flags half }
    ensures registers { IfSome result HasFileRegisters }
{
    let (op, imm) = match half >> 2 & 7 {
        0 => (AluOp::Int(IntOp::Andi), 255),
        1 if flags.has_zbb => (AluOp::Bit(BitOp::SextB), 0),
        2 if flags.has_zbb => (AluOp::Bit(BitOp::ZextH), 0),
        3 if flags.has_zbb => (AluOp::Bit(BitOp::SextH), 0),
        4 if flags.has_zba => (AluOp::Bit(BitOp::AddUw), 0),
        5 => (AluOp::Int(IntOp::Xori), -1),
        _ => return None,
    };
    Some(layouts::unary(half, MOp::Alu(op), imm))
}

fn jump(half: u16) -> Decoded
    ensures value { result ≡ decode_j half }
    ensures registers { HasFileRegisters result }
{
    compressed(MOp::Base(BaseOp::Jal), 0, 0, 0, cj_imm(half))
}

// ---- quadrant 2

fn quadrant_2(half: u16) -> Option<Decoded>
    ensures value { result ≡ quadrant_2 half }
    ensures registers { IfSome result HasFileRegisters }
{
    match funct3(half) {
        0 => Some(slli(half)),
        2 => load_sp(half, MOp::Load(LoadOp::Lw), lwsp_imm(half)),
        3 => load_sp(half, MOp::Load(LoadOp::Ld), ldsp_imm(half)),
        4 if half >> 12 & 1 == 0 => jr_mv(half),
        4 => jalr_add(half),
        6 => Some(layouts::store_sp(half, MOp::Store(StoreOp::Sw), swsp_imm(half))),
        7 => Some(layouts::store_sp(half, MOp::Store(StoreOp::Sd), sdsp_imm(half))),
        _ => None,
    }
}

fn slli(half: u16) -> Decoded
    ensures value { result ≡ decode_slli half }
    ensures registers { HasFileRegisters result }
{
    let slli = MOp::Alu(AluOp::Int(IntOp::Slli));
    compressed(slli, rd(half), rd(half), 0, i64::from(ci_bits(half)))
}

fn load_sp(half: u16, op: MOp, offset: u16) -> Option<Decoded>
    ensures value { result ≡ decode_load_sp half op offset }
    ensures registers { IfSome result HasFileRegisters }
{
    if rd(half) == 0 {
        return None;
    }
    Some(layouts::load_sp(half, op, offset))
}

fn jr_mv(half: u16) -> Option<Decoded>
    ensures value { result ≡ decode_jr_mv half }
    ensures registers { IfSome result HasFileRegisters }
{
    match (rd(half), rs2(half)) {
        (0, 0) => None,
        (base, 0) => Some(compressed(MOp::Base(BaseOp::Jalr), 0, base, 0, 0)),
        (rd, rs2) => Some(compressed(MOp::Alu(AluOp::Int(IntOp::Add)), rd, 0, rs2, 0)),
    }
}

fn jalr_add(half: u16) -> Option<Decoded>
    ensures value { result ≡ decode_jalr_add half }
    ensures registers { IfSome result HasFileRegisters }
{
    match (rd(half), rs2(half)) {
        (0, 0) => Some(compressed(MOp::Base(BaseOp::Ebreak), 0, 0, 0, 0)),
        (base, 0) => Some(compressed(MOp::Base(BaseOp::Jalr), 1, base, 0, 0)),
        _ => Some(layouts::register(half, MOp::Alu(AluOp::Int(IntOp::Add)))),
    }
}

// ---- the units'

/// The floating-point load or store that an instruction of 16 bits expands to.
#[tactic(auto, unfolding(crate::specs::Compressed::unit_decode_half))]
pub fn unit_decode_half(flags: IsaFlags, half: u16) -> Option<Decoded>
    ensures value { result ≡ unit_decode_half flags half }
    ensures registers { IfSome result HasFileRegisters }
{
    if flags.has_zca && flags.has_zcd {
        unit_by_quadrant(half)
    } else {
        None
    }
}

fn unit_by_quadrant(half: u16) -> Option<Decoded>
    ensures value { result ≡ unit_by_quadrant half }
    ensures registers { IfSome result HasFileRegisters }
{
    let load = MOp::FloatLoad(FloatFormat::D);
    let store = MOp::FloatStore(FloatFormat::D);
    match (op(half), funct3(half)) {
        (0, 1) => Some(layouts::load(half, load, ld_imm(half))),
        (0, 5) => Some(layouts::store(half, store, ld_imm(half))),
        (2, 1) => Some(layouts::load_sp(half, load, ldsp_imm(half))),
        (2, 5) => Some(layouts::store_sp(half, store, sdsp_imm(half))),
        _ => None,
    }
}
