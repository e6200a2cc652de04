//! The forms of lines: a token for each field.

ghost use Rattle.std.specs.Prelude.{◌≡◌};
ghost use Rattle.rv_listing.specs.Tokens.{words_after};
ghost use Rattle.rv_listing.specs.Fields.{Makes};
ghost use Rattle.rv_listing.specs.Forms.{by_form, line_form};
ghost use Rattle.rv_listing.specs.declared.form_names.Form.TheVariants as forms;

use crate::atomic_forms::atomic_line;
use crate::calls::call_info;
use crate::fields::{LineError, allowed, boxed, field, whole};
use crate::float_forms::float_line;
use crate::form_fields::{put, put_boxed};
use crate::form_names::{Form, form_named};
use crate::hex_digits::SomeBytes;
use crate::loop_forms::loop_line;
use crate::operands::Signedness;
use crate::unwind_steps::step;
use rv_base::ReturnCallInfo;
use rv_inst::{Inst, Line, SelectInfo};
use rv_ops::IntegerCompare;
use std::alloc::Global;

// ---- those of which a part of another kind stands after the name

#[tactic(auto, unfolding(crate::specs::Forms::form_of))]
#[inline(never)]
fn unwind(rest: &[u8]) -> Result<Line, LineError>
    ensures { Makes result (by_form forms.Unwind (words_after rest.now)) }
{
    let inst = allowed(step(rest))?;
    Ok(Line::Inst(Inst::Unwind { inst }))
}

#[tactic(auto, unfolding(crate::specs::Forms::form_of))]
#[inline(never)]
fn call(alloc: Global, rest: &[u8]) -> Result<Line, LineError>
    ensures { Makes result (by_form forms.Call (words_after rest.now)) }
{
    let info = call_info(alloc, rest)?;
    let info = boxed(alloc, info)?;
    Ok(Line::Inst(Inst::Call { info }))
}

#[tactic(auto, unfolding(crate::specs::Forms::form_of))]
#[inline(never)]
fn call_ind(alloc: Global, rest: &[u8]) -> Result<Line, LineError>
    ensures { Makes result (by_form forms.CallInd (words_after rest.now)) }
{
    let info = call_info(alloc, rest)?;
    let info = boxed(alloc, info)?;
    Ok(Line::Inst(Inst::CallInd { info }))
}

#[tactic(auto, unfolding(crate::specs::Forms::form_of))]
#[inline(never)]
fn bind(rest: &[u8]) -> Result<Line, LineError>
    ensures { Makes result (by_form forms.Bind (words_after rest.now)) }
{
    let (label, rest) = allowed(field(rest))?;
    allowed(whole(Line::Bind(label), rest))
}

// ---- a form a row: the instruction of its fields, in their order in a line

#[tactic(auto, unfolding(crate::specs::Forms::form_of))]
fn line_of(alloc: Global, form: Form, rest: &[u8]) -> Result<Line, LineError>
    ensures { Makes result (by_form form (words_after rest.now)) }
{
    match form {
        Form::Nop0 => put(alloc, rest, |()| Inst::Nop0),
        Form::Nop4 => put(alloc, rest, |()| Inst::Nop4),
        Form::EBreak => put(alloc, rest, |()| Inst::EBreak),
        Form::SequencePoint => put(alloc, rest, |()| Inst::SequencePoint),
        Form::DummyUse => put(alloc, rest, |(reg,)| Inst::DummyUse { reg }),
        Form::Unwind => unwind(rest),
        Form::EmitIsland => put(
            alloc,
            rest,
            |(needed_space,)| Inst::EmitIsland { needed_space },
        ),
        Form::Args => put(alloc, rest, |(args,)| Inst::Args { args }),
        Form::Rets => put(alloc, rest, |(rets,)| Inst::Rets { rets }),
        Form::RawData => put(
            alloc,
            rest,
            |(SomeBytes { bytes },)| Inst::RawData { bytes },
        ),
        Form::Lui => put(alloc, rest, |(rd, imm)| Inst::Lui { rd, imm }),
        Form::Auipc => put(alloc, rest, |(rd, imm)| Inst::Auipc { rd, imm }),
        Form::LoadInlineConst => put(
            alloc,
            rest,
            |(rd, ty, imm)| Inst::LoadInlineConst { rd, ty, imm },
        ),
        Form::AluRRR => put(
            alloc,
            rest,
            |(alu_op, rd, rs1, rs2)| Inst::AluRRR {
                alu_op,
                rd,
                rs1,
                rs2,
            },
        ),
        Form::AluRRImm12 => put(
            alloc,
            rest,
            |(alu_op, rd, rs, imm12)| Inst::AluRRImm12 {
                alu_op,
                rd,
                rs,
                imm12,
            },
        ),
        Form::Mov => put(alloc, rest, |(rd, rm, ty)| Inst::Mov { rd, rm, ty }),
        Form::MovFromPReg => put(alloc, rest, |(rd, rm)| Inst::MovFromPReg { rd, rm }),
        Form::Extend => put(
            alloc,
            rest,
            |(rd, rn, Signedness { signed }, from_bits, to_bits)| Inst::Extend {
                rd,
                rn,
                signed,
                from_bits,
                to_bits,
            },
        ),
        Form::Select => put_boxed(
            alloc,
            rest,
            |(dst, kind, rs1, rs2, x, y)| SelectInfo {
                dst,
                condition: IntegerCompare { kind, rs1, rs2 },
                x,
                y,
            },
            |info| Inst::Select { info },
        ),
        Form::Load => put(
            alloc,
            rest,
            |(rd, op, flags, from)| Inst::Load {
                rd,
                op,
                flags,
                from,
            },
        ),
        Form::Store => put(
            alloc,
            rest,
            |(to, op, flags, src)| Inst::Store { src, op, flags, to },
        ),
        Form::LoadAddr => put(alloc, rest, |(rd, mem)| Inst::LoadAddr { rd, mem }),
        Form::LabelAddress => put(
            alloc,
            rest,
            |(dst, label)| Inst::LabelAddress { dst, label },
        ),
        Form::Ret => put(alloc, rest, |()| Inst::Ret),
        Form::TrapIf => put(
            alloc,
            rest,
            |(kind, rs1, rs2, trap_code)| Inst::TrapIf {
                cmp: IntegerCompare { kind, rs1, rs2 },
                trap_code,
            },
        ),
        Form::Jal => put(alloc, rest, |(label,)| Inst::Jal { label }),
        Form::CondBr => put(
            alloc,
            rest,
            |(kind, rs1, rs2, taken, not_taken)| Inst::CondBr {
                taken,
                not_taken,
                kind: IntegerCompare { kind, rs1, rs2 },
            },
        ),
        Form::BrTable => put(
            alloc,
            rest,
            |(index, tmp1, tmp2, targets)| Inst::BrTable {
                index,
                tmp1,
                tmp2,
                targets,
            },
        ),
        Form::Udf => put(alloc, rest, |(trap_code,)| Inst::Udf { trap_code }),
        Form::Jalr => put(
            alloc,
            rest,
            |(rd, base, offset)| Inst::Jalr { rd, base, offset },
        ),
        Form::Loop(form) => loop_line(alloc, form, rest),
        Form::LoadExtNameGot => put(alloc, rest, |(rd, name)| Inst::LoadExtNameGot { rd, name }),
        Form::LoadExtNameNear => put(
            alloc,
            rest,
            |(rd, name, offset)| Inst::LoadExtNameNear { rd, name, offset },
        ),
        Form::LoadExtNameFar => put(
            alloc,
            rest,
            |(rd, name, offset)| Inst::LoadExtNameFar { rd, name, offset },
        ),
        Form::Call => call(alloc, rest),
        Form::CallInd => call_ind(alloc, rest),
        Form::ReturnCall => put_boxed(
            alloc,
            rest,
            |(dest, uses, new_stack_arg_size)| ReturnCallInfo {
                dest,
                uses,
                new_stack_arg_size,
            },
            |info| Inst::ReturnCall { info },
        ),
        Form::ReturnCallInd => put_boxed(
            alloc,
            rest,
            |(dest, uses, new_stack_arg_size)| ReturnCallInfo {
                dest,
                uses,
                new_stack_arg_size,
            },
            |info| Inst::ReturnCallInd { info },
        ),
        Form::Float(form) => float_line(alloc, form, rest),
        Form::Atomic(form) => atomic_line(alloc, form, rest),
        Form::Bind => bind(rest),
    }
}

/// The line of this name, with these fields after the name.
#[tactic(auto, unfolding(crate::specs::Forms::line_form))]
pub fn line(alloc: Global, name: &[u8], rest: &[u8]) -> Result<Line, LineError>
    ensures { Makes result (line_form name.now (words_after rest.now)) }
{
    match form_named(name) {
        Some(form) => line_of(alloc, form, rest),
        None => Err(LineError::NotAllowed),
    }
}
