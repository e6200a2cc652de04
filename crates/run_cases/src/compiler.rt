//! A caller of `assemble` as a compiler is one: lines made in code, and their bytes.

use crate::bench::plain_code;
use crate::error::RunError;
use hex::encode;
use rv_base::{IntCC, IrType, MachLabel, a0, a1, writable_a0};
use rv_inst::{Code, CondBrTarget, Inst, Line};
use rv_ops::IntegerCompare;
use std::alloc::{AllocError, Global};

/// The greater of a0 and a1, signed, in a0.
fn greater(alloc: Global) -> Result<Vec<Line>, AllocError> {
    let done = MachLabel::from_u32(0);
    let mut lines = Vec::new(alloc);
    lines.push(Line::Inst(Inst::CondBr {
        taken: CondBrTarget::Label(done),
        not_taken: CondBrTarget::Fallthrough,
        kind: IntegerCompare {
            kind: IntCC::SignedGreaterThanOrEqual,
            rs1: a0(),
            rs2: a1(),
        },
    }))?;
    lines.push(Line::Inst(Inst::Mov {
        rd: writable_a0(),
        rm: a1(),
        ty: IrType::I64,
    }))?;
    lines.push(Line::Bind(done))?;
    lines.push(Line::Inst(Inst::Ret))?;
    Ok(lines)
}

fn code(alloc: Global) -> Result<Code, RunError> {
    let lines = greater(alloc)?;
    plain_code(alloc, &lines)
}

fn write_code(alloc: Global, text: &mut String, code: &Code) -> Result<(), RunError> {
    let digits = encode(alloc, code.bytes.as_slice())?;
    Ok(writeln!(text, "the greater of two: {digits}, end {}", code.end)?)
}

// bge a0, a1, 8; addi a0, a1, 0; jalr zero, 0(ra): by the manual's tables, by hand
pub(crate) fn write(alloc: Global, text: &mut String) -> Result<(), RunError> {
    let code = code(alloc)?;
    write_code(alloc, text, &code)
}
