//! A function of as many lines as wanted, and how it is assembled many times, for `bench/assemble`.

use crate::code_of;
use rv_base::{
    AMode, IntCC, IrType, IsaFlags, MachLabel, MemFlagsData, OutOfMemory, a0, a1, a2, stack_reg,
    writable_a0, writable_a2,
};
use rv_imms::Imm12;
use rv_inst::{CondBrTarget, EmitError, Inst, Line};
use rv_ops::{AluOPRRI, AluOPRRR, IntegerCompare, LoadOP};
use std::alloc::Global;

/// Five lines that compute, and go to the label where two registers differ.
fn push_block(lines: &mut Vec<Line>, label: MachLabel) -> Result<(), OutOfMemory> {
    lines.push(Line::Inst(Inst::AluRRR {
        alu_op: AluOPRRR::Add,
        rd: writable_a0(),
        rs1: a0(),
        rs2: a1(),
    }))?;
    lines.push(Line::Inst(Inst::AluRRImm12 {
        alu_op: AluOPRRI::Addi,
        rd: writable_a2(),
        rs: a2(),
        imm12: Imm12::ONE,
    }))?;
    lines.push(Line::Inst(Inst::Mov {
        rd: writable_a2(),
        rm: a0(),
        ty: IrType::I64,
    }))?;
    lines.push(Line::Inst(Inst::Load {
        rd: writable_a0(),
        op: LoadOP::Ld,
        flags: MemFlagsData::trusted(),
        from: AMode::RegOffset(stack_reg(), 16),
    }))?;
    lines.push(Line::Inst(Inst::CondBr {
        taken: CondBrTarget::Label(label),
        not_taken: CondBrTarget::Fallthrough,
        kind: IntegerCompare {
            kind: IntCC::NotEqual,
            rs1: a0(),
            rs2: a2(),
        },
    }))?;
    Ok(())
}

/// A function of so many blocks of six lines, each of which begins with a label and may go to the next one, the end and a return.
fn function_of(alloc: Global, blocks: u32) -> Result<Vec<Line>, OutOfMemory> {
    let mut lines = Vec::new(alloc);
    for block in 0..blocks {
        lines.push(Line::Bind(MachLabel::from_u32(block)))?;
        push_block(&mut lines, MachLabel::from_u32(block + 1))?;
    }
    lines.push(Line::Bind(MachLabel::from_u32(blocks)))?;
    lines.push(Line::Inst(Inst::Ret))?;
    Ok(lines)
}

/// Assembles a function of so many blocks so many times, and returns how many bytes its code has.
pub fn assemble_again(alloc: Global, times: u32, blocks: u32) -> Result<usize, EmitError> {
    let Ok(lines) = function_of(alloc, blocks) else {
        return Err(EmitError::OutOfMemory);
    };
    let mut size = 0;
    for _ in 0..times {
        size = code_of(alloc, &lines, IsaFlags::none(), &[])?.bytes.len();
    }
    Ok(size)
}
