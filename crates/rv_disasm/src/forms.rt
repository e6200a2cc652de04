//! The row of an instruction: an operation of 32 bits, or an instruction of 16 bits.

ghost use Rattle.std.specs.Prelude.{◌≡◌, ◌%◌, ◌==◌};
ghost use Rattle.rv_machine.specs.Layout.{bits};
ghost use Rattle.rv_machine.specs.Compressed.{half_op, half_funct3};
ghost use Rattle.rv_disasm.specs.Halfwords.{short_memory, in_quadrant_0, unary, of_two_registers, arithmetic, in_quadrant_1, jumps_and_moves, in_quadrant_2, half_at, half_named};
ghost use Rattle.rv_disasm.specs.Text.{form_name, form_layout, form_at};

use crate::halfwords::HalfOp;
use crate::layouts::Layout;
use crate::mnemonics::mnemonic;
use crate::operations::layout_of;
use rv_machine::MOp;

/// A row of the manual's listings.
#[derive(Clone, Copy, Debug, PartialEq, Eq)]
pub enum Form {
    Word(MOp),
    Half(HalfOp),
}

impl Form {
    /// The mnemonic.
    pub fn name(self) -> &'static str
        ensures { result.now ≡ form_name self }
    {
        match self {
            Form::Word(op) => mnemonic(op),
            Form::Half(op) => op.name(),
        }
    }

    /// The fields that the row leaves free.
    pub fn layout(self) -> Layout
        ensures { result ≡ form_layout self }
    {
        match self {
            Form::Word(op) => layout_of(op),
            Form::Half(op) => op.layout(),
        }
    }
}

// Loads and stores of bytes and halfwords.
fn short_memory(selector: u32, bit: u32) -> Option<HalfOp>
    ensures { result ≡ short_memory selector bit }
{
    match (selector, bit) {
        (0, _) => Some(HalfOp::Lbu),
        (1, 0) => Some(HalfOp::Lhu),
        (1, 1) => Some(HalfOp::Lh),
        (2, _) => Some(HalfOp::Sb),
        (3, 0) => Some(HalfOp::Sh),
        _ => None,
    }
}

fn in_quadrant_0(funct3: u32, h: u32) -> Option<HalfOp>
    ensures { result ≡ in_quadrant_0 funct3 h }
{
    match funct3 {
        0 => Some(HalfOp::Addi4spn),
        1 => Some(HalfOp::Fld),
        2 => Some(HalfOp::Lw),
        3 => Some(HalfOp::Ld),
        4 => short_memory(h >> 10 & 7, h >> 6 & 1),
        5 => Some(HalfOp::Fsd),
        6 => Some(HalfOp::Sw),
        7 => Some(HalfOp::Sd),
        _ => None,
    }
}

// Of one source.
fn unary(selector: u32) -> Option<HalfOp>
    ensures { result ≡ unary selector }
{
    match selector {
        0 => Some(HalfOp::ZextB),
        1 => Some(HalfOp::SextB),
        2 => Some(HalfOp::ZextH),
        3 => Some(HalfOp::SextH),
        4 => Some(HalfOp::ZextW),
        5 => Some(HalfOp::Not),
        _ => None,
    }
}

fn of_two_registers(bit: u32, selector: u32, h: u32) -> Option<HalfOp>
    ensures { result ≡ of_two_registers bit selector h }
{
    match (bit, selector) {
        (0, 0) => Some(HalfOp::Sub),
        (0, 1) => Some(HalfOp::Xor),
        (0, 2) => Some(HalfOp::Or),
        (0, 3) => Some(HalfOp::And),
        (1, 0) => Some(HalfOp::Subw),
        (1, 1) => Some(HalfOp::Addw),
        (1, 2) => Some(HalfOp::Mul),
        (1, 3) => unary(h >> 2 & 7),
        _ => None,
    }
}

fn arithmetic(selector: u32, h: u32) -> Option<HalfOp>
    ensures { result ≡ arithmetic selector h }
{
    match selector {
        0 => Some(HalfOp::Srli),
        1 => Some(HalfOp::Srai),
        2 => Some(HalfOp::Andi),
        3 => of_two_registers(h >> 12 & 1, h >> 5 & 3, h),
        _ => None,
    }
}

fn in_quadrant_1(funct3: u32, h: u32) -> Option<HalfOp>
    ensures { result ≡ in_quadrant_1 funct3 h }
{
    match funct3 {
        0 => Some(HalfOp::Addi),
        1 => Some(HalfOp::Addiw),
        2 => Some(HalfOp::Li),
        3 if h >> 7 & 31 == 2 => Some(HalfOp::Addi16sp),
        3 => Some(HalfOp::Lui),
        4 => arithmetic(h >> 10 & 3, h),
        5 => Some(HalfOp::J),
        _ => None,
    }
}

fn jumps_and_moves(bit: u32, rd: u32, rs2: u32) -> Option<HalfOp>
    ensures { result ≡ jumps_and_moves bit rd rs2 }
{
    if bit == 0 && rs2 == 0 {
        Some(HalfOp::Jr)
    } else if bit == 0 {
        Some(HalfOp::Mv)
    } else if rs2 == 0 && rd == 0 {
        Some(HalfOp::Ebreak)
    } else if rs2 == 0 {
        Some(HalfOp::Jalr)
    } else {
        Some(HalfOp::Add)
    }
}

fn in_quadrant_2(funct3: u32, h: u32) -> Option<HalfOp>
    ensures { result ≡ in_quadrant_2 funct3 h }
{
    match funct3 {
        0 => Some(HalfOp::Slli),
        1 => Some(HalfOp::Fldsp),
        2 => Some(HalfOp::Lwsp),
        3 => Some(HalfOp::Ldsp),
        4 => jumps_and_moves(h >> 12 & 1, h >> 7 & 31, h >> 2 & 31),
        5 => Some(HalfOp::Fsdsp),
        6 => Some(HalfOp::Swsp),
        7 => Some(HalfOp::Sdsp),
        _ => None,
    }
}

fn half_at(op: u32, funct3: u32, h: u32) -> Option<HalfOp>
    ensures { result ≡ half_at op funct3 h }
{
    match op {
        0 => in_quadrant_0(funct3, h),
        1 => in_quadrant_1(funct3, h),
        2 => in_quadrant_2(funct3, h),
        _ => None,
    }
}

fn half_op(h: u32) -> u32
    ensures { result ≡ half_op h }
{
    h & 3
}

fn half_funct3(h: u32) -> u32
    ensures { result ≡ half_funct3 h }
{
    h >> 13 & 7
}

fn half_named(h: u32) -> Option<HalfOp>
    ensures { result ≡ half_named h }
{
    half_at(half_op(h), half_funct3(h), h)
}

fn low_half(word: u32) -> u32
    ensures { result ≡ bits word 15 0 }
{
    word & 0xffff
}

/// The row of a word that has this operation.
pub(crate) fn form_at(word: u32, op: MOp) -> Option<Form>
    ensures { result ≡ form_at word op }
{
    if word % 4 == 3 {
        return Some(Form::Word(op));
    }
    match half_named(low_half(word)) {
        Some(op) => Some(Form::Half(op)),
        None => None,
    }
}
