//! Whether types and numbers are those that an instruction takes.

ghost use Rattle.std.specs.Prelude.{◌≡◌, ◌^◌, not, nat_le, ◌||◌};
ghost use Rattle.std.specs.List.{list_any};
ghost use Rattle.rv_base.specs.Regs.{class_of};
ghost use Rattle.rv_ops.specs.Operations.{immediate_of, shift_limit};
ghost use Rattle.rv_inst.specs.Faults.{has_bad_type, is_out_of_range, has_empty_table, has_bad_size};
ghost use Rattle.rv_inst.specs.Rules.{is_float_type, is_high, is_int_type, is_movable, is_word_type, is_beyond};

use crate::addresses::is_distant;
use crate::inst::{Family, Inst};
use crate::results::{any_is_high, any_is_unloadable};
use crate::sequence::sequence_has_bad_type;
use crate::units::{facts_are_beyond, facts_are_mistyped};
use rv_base::{CallRetPair as Def, IrType, Reg, RegClass};
use rv_imms::Imm12;
use rv_ops::AluOPRRI;

/// Returns whether a type is an integer of at most 64 bits.
pub fn is_int_type(ty: IrType) -> bool
    ensures { result ≡ is_int_type ty }
{
    match ty {
        IrType::I8 | IrType::I16 | IrType::I32 | IrType::I64 => true,
        IrType::I128 | IrType::F16 | IrType::F32 | IrType::F64 | IrType::F128 => false,
        IrType::Vector(_) => false,
    }
}

/// Returns whether a type is an integer of 32 or 64 bits.
pub fn is_word_type(ty: IrType) -> bool
    ensures { result ≡ is_word_type ty }
{
    match ty {
        IrType::I32 | IrType::I64 => true,
        IrType::I8 | IrType::I16 | IrType::I128 => false,
        IrType::F16 | IrType::F32 | IrType::F64 | IrType::F128 => false,
        IrType::Vector(_) => false,
    }
}

/// Returns whether a type is a floating-point number of at most 64 bits.
fn is_float_type(ty: IrType) -> bool
    ensures { result ≡ is_float_type ty }
{
    match ty {
        IrType::F16 | IrType::F32 | IrType::F64 => true,
        IrType::I8 | IrType::I16 | IrType::I32 | IrType::I64 | IrType::I128 => false,
        IrType::F128 => false,
        IrType::Vector(_) => false,
    }
}

fn is_bad_move(rm: Reg, ty: IrType) -> bool
    ensures { result ≡ not (is_movable (class_of rm) ty) }
{
    match rm.class() {
        RegClass::Int => !is_int_type(ty),
        RegClass::Float => !is_float_type(ty),
        RegClass::Vector => true,
    }
}

/// Returns whether the instruction has a type that it doesn't take.
pub fn has_bad_type(inst: &Inst) -> bool
    ensures { result ≡ has_bad_type inst.now }
{
    match inst {
        Inst::Mov { rd: _, rm, ty } => is_bad_move(*rm, *ty),
        Inst::Call { info } => any_is_unloadable(info.as_ref().defs.as_slice()),
        Inst::CallInd { info } => any_is_unloadable(info.as_ref().defs.as_slice()),
        _ => match inst.family() {
            Family::Loop => sequence_has_bad_type(inst),
            Family::Integer | Family::Memory | Family::Control | Family::Symbols =>
                facts_are_mistyped(inst),
            _ => false,
        },
    }
}

/// Returns whether the immediate is no shift amount or bit's index of the operation, where it takes one.
pub fn is_amount_beyond(op: AluOPRRI, imm12: Imm12) -> bool
    ensures { result ≡ is_beyond (shift_limit (immediate_of op)) imm12.value }
{
    match op.shift_limit() {
        Some(limit) => imm12.value < 0 || imm12.value as u32 >= limit,
        None => false,
    }
}

/// Returns whether the stack pointer falls by 2^31 bytes or more, or a result is too far above it.
fn is_call_beyond(popped: u32, defs: &[Def]) -> bool
    ensures { result ≡ (nat_le (2 ^ 31) popped || list_any is_high defs.now) }
{
    popped >= 1 << 31 || any_is_high(defs)
}

/// Returns whether the instruction has a number outside its range.
pub fn is_out_of_range(inst: &Inst) -> bool
    ensures { result ≡ is_out_of_range inst.now }
{
    match inst {
        Inst::AluRRImm12 {
            alu_op,
            rd: _,
            rs: _,
            imm12,
        } => is_amount_beyond(*alu_op, *imm12),
        Inst::Load {
            rd: _,
            op: _,
            flags: _,
            from,
        } => is_distant(*from),
        Inst::Store {
            to,
            op: _,
            flags: _,
            src: _,
        } => is_distant(*to),
        Inst::LoadAddr { rd: _, mem } => is_distant(*mem),
        Inst::Call { info } => {
            let info = info.as_ref();
            is_call_beyond(info.callee_pop_size, info.defs.as_slice())
        }
        Inst::CallInd { info } => {
            let info = info.as_ref();
            is_call_beyond(info.callee_pop_size, info.defs.as_slice())
        }
        _ => facts_are_beyond(inst),
    }
}

/// Returns whether the instruction has a table without a label.
pub fn has_empty_table(inst: &Inst) -> bool
    ensures { result ≡ has_empty_table inst.now }
{
    match inst {
        Inst::BrTable {
            index: _,
            tmp1: _,
            tmp2: _,
            targets,
        } => targets.as_ref().len() == 0,
        _ => false,
    }
}

/// Returns whether the instruction is data of a length that isn't taken.
pub fn has_bad_size(inst: &Inst) -> bool
    ensures { result ≡ has_bad_size inst.now }
{
    match inst {
        Inst::RawData { bytes } => !(bytes.len() == 4 || bytes.len() == 8),
        _ => false,
    }
}
