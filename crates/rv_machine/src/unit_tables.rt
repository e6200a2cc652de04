//! The operation of a unit that the funct fields of a word name, by the opcode.

ghost use Rattle.std.specs.Prelude.{◌≡◌};
ghost use Rattle.rv_machine.specs.UnitTables.{csr_entry, carry_unary_entry, carry_entry, carry_32_entry, atomic_entry, atomic_width_entry, format_entry, width_entry, rounded_entry, rounded_unary_entry, fixed_entry, fixed_unary_entry, fused_entry, is_own_format, vector_load_entry, vector_store_entry};

use crate::opcodes::{MADD, MSUB, NMADD, NMSUB};
use crate::ops::{AtomicOp, AtomicWidth, CarryOp, CsrOp, FloatFormat, FloatOp, VecMemOp};

/// SYSTEM, of Zicsr.
pub fn csr(funct3: u8) -> Option<CsrOp>
    ensures { result ≡ csr_entry funct3 }
{
    match funct3 {
        1 => Some(CsrOp::Csrrw),
        2 => Some(CsrOp::Csrrs),
        3 => Some(CsrOp::Csrrc),
        5 => Some(CsrOp::Csrrwi),
        6 => Some(CsrOp::Csrrsi),
        7 => Some(CsrOp::Csrrci),
        _ => None,
    }
}

/// OP-IMM, of Zbkb.
pub fn carry_unary(funct12: u16, funct3: u8) -> Option<CarryOp>
    ensures { result ≡ carry_unary_entry funct12 funct3 }
{
    match funct12 {
        0x687 => match funct3 {
            5 => Some(CarryOp::Brev8),
            _ => None,
        },
        _ => None,
    }
}

/// OP, of Zbc and Zbkb.
pub fn carry(funct7: u8, funct3: u8) -> Option<CarryOp>
    ensures { result ≡ carry_entry funct7 funct3 }
{
    match funct7 {
        0x05 => match funct3 {
            1 => Some(CarryOp::Clmul),
            3 => Some(CarryOp::Clmulh),
            2 => Some(CarryOp::Clmulr),
            _ => None,
        },
        0x04 => match funct3 {
            4 => Some(CarryOp::Pack),
            7 => Some(CarryOp::Packh),
            _ => None,
        },
        _ => None,
    }
}

/// OP-32, of Zbkb.
pub fn carry_32(funct7: u8, funct3: u8) -> Option<CarryOp>
    ensures { result ≡ carry_32_entry funct7 funct3 }
{
    match funct7 {
        0x04 => match funct3 {
            4 => Some(CarryOp::Packw),
            _ => None,
        },
        _ => None,
    }
}

/// AMO.
pub fn atomic(funct5: u8) -> Option<AtomicOp>
    ensures { result ≡ atomic_entry funct5 }
{
    match funct5 {
        0x02 => Some(AtomicOp::Lr),
        0x03 => Some(AtomicOp::Sc),
        0x01 => Some(AtomicOp::Amoswap),
        0x00 => Some(AtomicOp::Amoadd),
        0x04 => Some(AtomicOp::Amoxor),
        0x0c => Some(AtomicOp::Amoand),
        0x08 => Some(AtomicOp::Amoor),
        0x10 => Some(AtomicOp::Amomin),
        0x14 => Some(AtomicOp::Amomax),
        0x18 => Some(AtomicOp::Amominu),
        0x1c => Some(AtomicOp::Amomaxu),
        _ => None,
    }
}

/// AMO, by the width.
pub fn atomic_width(funct3: u8) -> Option<AtomicWidth>
    ensures { result ≡ atomic_width_entry funct3 }
{
    match funct3 {
        2 => Some(AtomicWidth::W),
        3 => Some(AtomicWidth::D),
        _ => None,
    }
}

/// The format that the field at 26:25 names.
pub fn format(fmt: u8) -> Option<FloatFormat>
    ensures { result ≡ format_entry fmt }
{
    match fmt {
        0 => Some(FloatFormat::S),
        1 => Some(FloatFormat::D),
        2 => Some(FloatFormat::H),
        _ => None,
    }
}

/// LOAD-FP and STORE-FP, by the width of a number.
pub fn width(funct3: u8) -> Option<FloatFormat>
    ensures { result ≡ width_entry funct3 }
{
    match funct3 {
        1 => Some(FloatFormat::H),
        2 => Some(FloatFormat::S),
        3 => Some(FloatFormat::D),
        _ => None,
    }
}

/// OP-FP, of two sources, with a rounding mode.
pub fn rounded(funct5: u8) -> Option<FloatOp>
    ensures { result ≡ rounded_entry funct5 }
{
    match funct5 {
        0x00 => Some(FloatOp::Fadd),
        0x01 => Some(FloatOp::Fsub),
        0x02 => Some(FloatOp::Fmul),
        0x03 => Some(FloatOp::Fdiv),
        _ => None,
    }
}

/// OP-FP, of one source, with a rounding mode.
pub fn rounded_unary(funct5: u8, selector: u8) -> Option<FloatOp>
    ensures { result ≡ rounded_unary_entry funct5 selector }
{
    match funct5 {
        0x0b => match selector {
            0 => Some(FloatOp::Fsqrt),
            _ => None,
        },
        0x18 => match selector {
            0 => Some(FloatOp::FcvtToW),
            1 => Some(FloatOp::FcvtToWu),
            2 => Some(FloatOp::FcvtToL),
            3 => Some(FloatOp::FcvtToLu),
            _ => None,
        },
        0x1a => match selector {
            0 => Some(FloatOp::FcvtFromW),
            1 => Some(FloatOp::FcvtFromWu),
            2 => Some(FloatOp::FcvtFromL),
            3 => Some(FloatOp::FcvtFromLu),
            _ => None,
        },
        0x08 => match selector {
            2 => Some(FloatOp::FcvtFromH),
            0 => Some(FloatOp::FcvtFromS),
            1 => Some(FloatOp::FcvtFromD),
            4 => Some(FloatOp::Fround),
            _ => None,
        },
        _ => None,
    }
}

/// OP-FP, of two sources, without one.
pub fn fixed(funct5: u8, funct3: u8) -> Option<FloatOp>
    ensures { result ≡ fixed_entry funct5 funct3 }
{
    match funct5 {
        0x04 => match funct3 {
            0 => Some(FloatOp::Fsgnj),
            1 => Some(FloatOp::Fsgnjn),
            2 => Some(FloatOp::Fsgnjx),
            _ => None,
        },
        0x05 => match funct3 {
            0 => Some(FloatOp::Fmin),
            1 => Some(FloatOp::Fmax),
            2 => Some(FloatOp::Fminm),
            3 => Some(FloatOp::Fmaxm),
            _ => None,
        },
        0x14 => match funct3 {
            2 => Some(FloatOp::Feq),
            1 => Some(FloatOp::Flt),
            0 => Some(FloatOp::Fle),
            _ => None,
        },
        _ => None,
    }
}

/// OP-FP, of one source or a constant, without one.
pub fn fixed_unary(funct5: u8, selector: u8, funct3: u8) -> Option<FloatOp>
    ensures { result ≡ fixed_unary_entry funct5 selector funct3 }
{
    match (funct5, selector, funct3) {
        (0x1c, 0, 0) => Some(FloatOp::FmvToX),
        (0x1c, 0, 1) => Some(FloatOp::Fclass),
        (0x1e, 0, 0) => Some(FloatOp::FmvFromX),
        (0x1e, 1, 0) => Some(FloatOp::Fli),
        _ => None,
    }
}

/// MADD, MSUB, NMSUB and NMADD, by the opcode.
pub fn fused(opcode: u32) -> Option<FloatOp>
    ensures { result ≡ fused_entry opcode }
{
    match opcode {
        MADD => Some(FloatOp::Fmadd),
        MSUB => Some(FloatOp::Fmsub),
        NMSUB => Some(FloatOp::Fnmsub),
        NMADD => Some(FloatOp::Fnmadd),
        _ => None,
    }
}

/// Returns whether a row of OP-FP would be a conversion from the format itself.
pub fn is_own_format(format: FloatFormat, funct5: u8, selector: u8) -> bool
    ensures { result ≡ is_own_format format funct5 selector }
{
    match format {
        FloatFormat::S => funct5 == 0x08 && selector == 0,
        FloatFormat::D => funct5 == 0x08 && selector == 1,
        FloatFormat::H => funct5 == 0x08 && selector == 2,
    }
}

/// LOAD-FP, by the width of a vector's elements.
pub fn vector_load(funct3: u8) -> Option<VecMemOp>
    ensures { result ≡ vector_load_entry funct3 }
{
    match funct3 {
        0 => Some(VecMemOp::Vle8),
        5 => Some(VecMemOp::Vle16),
        6 => Some(VecMemOp::Vle32),
        7 => Some(VecMemOp::Vle64),
        _ => None,
    }
}

/// STORE-FP, by the width of a vector's elements.
pub fn vector_store(funct3: u8) -> Option<VecMemOp>
    ensures { result ≡ vector_store_entry funct3 }
{
    match funct3 {
        0 => Some(VecMemOp::Vse8),
        5 => Some(VecMemOp::Vse16),
        6 => Some(VecMemOp::Vse32),
        7 => Some(VecMemOp::Vse64),
        _ => None,
    }
}
