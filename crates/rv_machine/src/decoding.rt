//! The operation of a word, with its registers and its immediate: "RV32/64G Instruction Set Listings".

ghost use Rattle.std.specs.Prelude.{◌≡◌, IfSome};
ghost use Rattle.rv_machine.specs.Layout.{HasFileRegisters};
ghost use Rattle.rv_machine.specs.Decode.{decode_jalr, decode_branch, decode_load, decode_store, decode_op_imm, decode_op_imm_32, decode_op, decode_op_32, decode_misc_mem, decode_system, int_by_opcode, int_decode, decode};

use crate::compressed::int_decode_half;
use crate::fields::{funct3, funct6, funct7, funct12, low_half, opcode, rd, rs1};
use crate::opcodes::{
    AUIPC, BRANCH, JAL, JALR, LOAD, LUI, MISC_MEM, OP, OP_32, OP_IMM, OP_IMM_32, STORE, SYSTEM,
};
use crate::ops::{BaseOp, MOp};
use crate::unit_decoding::unit_decode;
use crate::{layouts, tables};
use rv_base::IsaFlags;

/// An operation with its registers and its immediate. A field that an operation doesn't have is 0, or false.
#[derive(Clone, Copy, Debug, PartialEq, Eq)]
pub struct Decoded {
    pub op: MOp,
    /// The numbers of the registers, below 32, each of the file that the operation reads or writes. A field `rs1` also has
    /// the immediate of five bits of an operation on a CSR, of `vsetivli`, of `fli` and of vector arithmetic.
    pub rd: u8,
    pub rs1: u8,
    pub rs2: u8,
    pub rs3: u8,
    /// Of `lui` and `auipc` the number that stands in the word's upper twenty bits, of branches and jumps the distance
    /// in bytes, of shifts the shift amount in bits, of atomic operations 2 * aq + rl, of `vsetivli` the bits of vtype.
    pub imm: i64,
    /// The rounding mode.
    pub rm: u8,
    /// Whether a vector operation has no mask.
    pub vm: bool,
    /// The word's length in bytes.
    pub len: u8,
}

impl Decoded {
    ghost use Rattle.std.specs.Prelude.{◌≡◌};
    ghost use Rattle.rv_machine.specs.Layout.{of_length};

    /// An operation with its registers and its immediate, of an instruction of so many bytes.
    pub fn new(op: MOp, rd: u8, rs1: u8, rs2: u8, imm: i64, len: u8) -> Decoded
        ensures { result ≡ of_length len op rd rs1 rs2 imm }
    {
        Decoded {
            op,
            rd,
            rs1,
            rs2,
            rs3: 0,
            imm,
            rm: 0,
            vm: false,
            len,
        }
    }
}

/// The operation of a word, where it has one under these flags. Where the two lowest bits aren't 11, it is that of the
/// low half.
#[tactic(auto, unfolding(crate::specs::Decode::decode))]
pub fn decode(flags: IsaFlags, word: u32) -> Option<Decoded>
    ensures value { result ≡ decode flags word }
    ensures registers { IfSome result HasFileRegisters }
{
    if let Some(decoded) = int_decode(flags, word) {
        return Some(decoded);
    }
    unit_decode(flags, word)
}

/// The operation of a word, where it is one that the integer machine may have a step for.
#[tactic(auto, unfolding(crate::specs::Decode::int_decode))]
pub fn int_decode(flags: IsaFlags, word: u32) -> Option<Decoded>
    ensures value { result ≡ int_decode flags word }
    ensures registers { IfSome result HasFileRegisters }
{
    let opcode = opcode(word);
    if opcode % 4 == 3 {
        int_by_opcode(opcode, word)
    } else {
        int_decode_half(flags, low_half(word))
    }
}

fn int_by_opcode(opcode: u32, word: u32) -> Option<Decoded>
    ensures value { result ≡ int_by_opcode opcode word }
    ensures registers { IfSome result HasFileRegisters }
{
    match opcode {
        LUI => Some(layouts::upper(word, MOp::Base(BaseOp::Lui))),
        AUIPC => Some(layouts::upper(word, MOp::Base(BaseOp::Auipc))),
        JAL => Some(layouts::jump(word, MOp::Base(BaseOp::Jal))),
        JALR => jalr(word),
        BRANCH => branch(word),
        LOAD => load(word),
        STORE => store(word),
        OP_IMM => op_imm(word),
        OP_IMM_32 => op_imm_32(word),
        OP => op(word),
        OP_32 => op_32(word),
        MISC_MEM => misc_mem(word),
        SYSTEM => system(word),
        _ => None,
    }
}

fn jalr(word: u32) -> Option<Decoded>
    ensures value { result ≡ decode_jalr word }
    ensures registers { IfSome result HasFileRegisters }
{
    match funct3(word) {
        0 => Some(layouts::immediate(word, MOp::Base(BaseOp::Jalr))),
        _ => None,
    }
}

fn branch(word: u32) -> Option<Decoded>
    ensures value { result ≡ decode_branch word }
    ensures registers { IfSome result HasFileRegisters }
{
    match tables::branch(funct3(word)) {
        Some(op) => Some(layouts::branch(word, MOp::Base(op))),
        None => None,
    }
}

fn load(word: u32) -> Option<Decoded>
    ensures value { result ≡ decode_load word }
    ensures registers { IfSome result HasFileRegisters }
{
    match tables::load(funct3(word)) {
        Some(op) => Some(layouts::immediate(word, MOp::Load(op))),
        None => None,
    }
}

fn store(word: u32) -> Option<Decoded>
    ensures value { result ≡ decode_store word }
    ensures registers { IfSome result HasFileRegisters }
{
    match tables::store(funct3(word)) {
        Some(op) => Some(layouts::store(word, MOp::Store(op))),
        None => None,
    }
}

fn op_imm(word: u32) -> Option<Decoded>
    ensures value { result ≡ decode_op_imm word }
    ensures registers { IfSome result HasFileRegisters }
{
    if let Some(op) = tables::imm(funct3(word)) {
        return Some(layouts::immediate(word, MOp::Alu(op)));
    }
    if let Some(op) = tables::shift(funct6(word), funct3(word)) {
        return Some(layouts::shift(word, MOp::Alu(op)));
    }
    match tables::unary(funct12(word), funct3(word)) {
        Some(op) => Some(layouts::unary(word, MOp::Alu(op))),
        None => None,
    }
}

fn op_imm_32(word: u32) -> Option<Decoded>
    ensures value { result ≡ decode_op_imm_32 word }
    ensures registers { IfSome result HasFileRegisters }
{
    if let Some(op) = tables::imm_32(funct3(word)) {
        return Some(layouts::immediate(word, MOp::Alu(op)));
    }
    if let Some(op) = tables::long_shift_32(funct6(word), funct3(word)) {
        return Some(layouts::shift(word, MOp::Alu(op)));
    }
    if let Some(op) = tables::shift_32(funct7(word), funct3(word)) {
        return Some(layouts::shift_32(word, MOp::Alu(op)));
    }
    match tables::unary_32(funct12(word), funct3(word)) {
        Some(op) => Some(layouts::unary(word, MOp::Alu(op))),
        None => None,
    }
}

fn op(word: u32) -> Option<Decoded>
    ensures value { result ≡ decode_op word }
    ensures registers { IfSome result HasFileRegisters }
{
    match tables::op(funct7(word), funct3(word)) {
        Some(op) => Some(layouts::register(word, MOp::Alu(op))),
        None => None,
    }
}

fn op_32(word: u32) -> Option<Decoded>
    ensures value { result ≡ decode_op_32 word }
    ensures registers { IfSome result HasFileRegisters }
{
    if let Some(op) = tables::op_32(funct7(word), funct3(word)) {
        return Some(layouts::register(word, MOp::Alu(op)));
    }
    match tables::unary_op_32(funct12(word), funct3(word)) {
        Some(op) => Some(layouts::unary(word, MOp::Alu(op))),
        None => None,
    }
}

fn misc_mem(word: u32) -> Option<Decoded>
    ensures value { result ≡ decode_misc_mem word }
    ensures registers { IfSome result HasFileRegisters }
{
    if funct3(word) == 0 && rd(word) == 0 && rs1(word) == 0 && word >> 28 == 0 {
        Some(layouts::fence(word, MOp::Base(BaseOp::Fence)))
    } else {
        None
    }
}

fn system(word: u32) -> Option<Decoded>
    ensures value { result ≡ decode_system word }
    ensures registers { IfSome result HasFileRegisters }
{
    if funct3(word) == 0 && rd(word) == 0 && rs1(word) == 0 && funct12(word) == 0x001 {
        Some(layouts::bare(MOp::Base(BaseOp::Ebreak)))
    } else {
        None
    }
}
