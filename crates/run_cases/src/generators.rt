//! The code of generated constants, loads, stores and moves. That of constants is as the manual's layouts of `lui` and `addi` have it.

ghost use Rattle.rv_imms.specs.Splitting.{IsSplittable};

use crate::bench::plain_code;
use crate::error::RunError;
use hex::encode;
use rv_base::{
    AMode, IrType, MemFlagsData, RegClass, WritableReg, a0, a1, f_reg, writable_a0, writable_a2,
    writable_fa1, writable_link_reg,
};
use rv_imms::{Imm12, imm_max, imm_min};
use rv_inst::{Inst, Line, SmallInstVec, gen_moves};
use std::alloc::{AllocError, Global};

/// Constants of 64 bits.
const DOUBLES: [u64; 8] = [
    0,
    5,
    0xffff_ffff_ffff_ffff,
    2048,
    4096,
    2_147_481_599,
    2_147_481_600,
    0xffff_ffff_7fff_f7ff,
];

fn lines_of(alloc: Global, insts: SmallInstVec) -> Result<Vec<Line>, AllocError> {
    let mut lines = Vec::new(alloc);
    for inst in insts.into_iter() {
        lines.push(Line::Inst(inst))?;
    }
    Ok(lines)
}

/// The bytes of instructions, in hexadecimal digits.
fn code_of(alloc: Global, insts: SmallInstVec) -> Result<String, RunError> {
    let lines = lines_of(alloc, insts)?;
    let code = plain_code(alloc, &lines)?;
    Ok(encode(alloc, code.bytes.as_slice())?)
}

/// Writes the bytes of instructions after what they are.
fn write_code(
    alloc: Global,
    text: &mut String,
    what: &str,
    insts: SmallInstVec,
) -> Result<(), RunError> {
    let code = code_of(alloc, insts)?;
    Ok(writeln!(text, "{what}: {code}")?)
}

fn only(alloc: Global, inst: Inst) -> Result<SmallInstVec, AllocError> {
    let mut insts = SmallInstVec::new(alloc);
    insts.push(inst)?;
    Ok(insts)
}

/// The same of one instruction.
fn write_inst(alloc: Global, text: &mut String, what: &str, inst: Inst) -> Result<(), RunError> {
    let insts = only(alloc, inst)?;
    write_code(alloc, text, what, insts)
}

fn double(alloc: Global, text: &mut String, value: u64) -> Result<(), RunError> {
    writeln!(text, "constant {value:x} of 64 bits")?;
    let insts = Inst::load_constant_u64(alloc, writable_a0(), value)?;
    write_code(alloc, text, "code", insts)
}

fn word(alloc: Global, text: &mut String, value: u64) -> Result<(), RunError> {
    writeln!(text, "constant {value:x} of 32 bits")?;
    let insts = Inst::load_constant_u32(alloc, writable_a0(), value)?;
    write_code(alloc, text, "code", insts)
}

fn constants(alloc: Global, text: &mut String) -> Result<(), RunError> {
    for value in DOUBLES {
        double(alloc, text, value)?;
    }
    for value in [5, 0x8000_0000] {
        word(alloc, text, value)?;
    }
    let inst = Inst::load_imm12(writable_a0(), Imm12::from_i16(-1));
    write_inst(alloc, text, "an immediate of -1", inst)
}

/// The instructions of a jump by an offset.
fn jump_insts(
    alloc: Global,
    link: Option<WritableReg>,
    tmp: WritableReg,
    offset: i64,
) -> Result<SmallInstVec, AllocError>
    requires { IsSplittable offset }
{
    let mut insts = SmallInstVec::new(alloc);
    for inst in Inst::construct_auipc_and_jalr(link, tmp, offset) {
        insts.push(inst)?;
    }
    Ok(insts)
}

fn jump(
    alloc: Global,
    text: &mut String,
    link: Option<WritableReg>,
    tmp: WritableReg,
    offset: i64,
) -> Result<(), RunError>
    requires { IsSplittable offset }
{
    writeln!(text, "jump by {offset}")?;
    let insts = jump_insts(alloc, link, tmp, offset)?;
    write_code(alloc, text, "code", insts)
}

fn jumps(alloc: Global, text: &mut String) -> Result<(), RunError> {
    jump(
        alloc,
        text,
        Some(writable_link_reg()),
        writable_link_reg(),
        0,
    )?;
    jump(alloc, text, None, writable_a2(), imm_max())?;
    jump(alloc, text, None, writable_a2(), imm_min())
}

fn accesses(alloc: Global, text: &mut String) -> Result<(), RunError> {
    let at = AMode::RegOffset(a1(), 100);
    let load = Inst::gen_load(writable_a0(), at, IrType::I32, MemFlagsData::new());
    write_inst(alloc, text, "a load of I32 at 100(a1)", load)?;
    let store = Inst::gen_store(AMode::SPOffset(100), a0(), IrType::I8, MemFlagsData::new());
    write_inst(alloc, text, "a store of I8 at 100(sp)", store)
}

fn types(text: &mut String) -> Result<(), RunError> {
    for class in [RegClass::Int, RegClass::Float, RegClass::Vector] {
        let ty = Inst::canonical_type_for_rc(class);
        writeln!(text, "a register of class {class:?} holds {ty}")?;
    }
    Ok(())
}

/// Moves of integers in order, and of five floats, as many as no inline storage holds.
fn moves(alloc: Global, text: &mut String) -> Result<(), RunError> {
    let alloc = alloc;
    let ints = gen_moves(alloc, &[writable_a2(), writable_a0()], &[a0(), a1()])?;
    write_code(alloc, text, "a2 and a0 from a0 and a1", ints)?;
    let from = [f_reg(0), f_reg(1), f_reg(2), f_reg(3), f_reg(4)];
    let floats = gen_moves(alloc, &[writable_fa1(); 5], &from)?;
    write_code(alloc, text, "fa1 from ft0 to ft4", floats)
}

pub(crate) fn write(alloc: Global, text: &mut String) -> Result<(), RunError> {
    constants(alloc, text)?;
    jumps(alloc, text)?;
    accesses(alloc, text)?;
    types(text)?;
    moves(alloc, text)
}
