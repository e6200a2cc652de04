//! What lines of traps, data, constants, choices, tables, counts and probes say.

use crate::fields::shown;
use crate::numbers::{number, numbers, written_numbers};
use rv_base::{IntCC, IrType, MachLabel, TrapCode, ValueRegs};
use rv_inst::Inst;
use std::alloc::{AllocError, Global};

/// What a line of one of these forms says.
#[derive(Clone, Copy, Debug, PartialEq, Eq)]
enum Fields {
    Udf(TrapCode),
    TrapIf(IntCC, u8, u8, TrapCode),
    RawData(usize, u8, u8),
    LoadInlineConst(u8, IrType, u64),
    Extend(u8, u8, bool, u8, u8),
    Select(ValueRegs<u8>, IntCC, u8, u8, ValueRegs<u8>, ValueRegs<u8>),
    BrTable(u8, u8, u8, Labels),
    Popcnt(u8, u8, u8, u8, IrType),
    Cltz(u8, u8, u8, u8, bool, IrType),
    Brev8(u8, IrType, u8, u8, u8, u8),
    StackProbeLoop(u32, u32, u8),
}

/// How many labels a line names, and the numbers of the first and the last.
#[derive(Clone, Copy, Debug, PartialEq, Eq)]
struct Labels {
    count: usize,
    first: u32,
    last: u32,
}

fn labels_of(all: &[MachLabel]) -> Labels {
    let (first, last) = match all {
        [first, .., last] => (first.number, last.number),
        [only] => (only.number, only.number),
        [] => (0, 0),
    };
    Labels {
        count: all.len(),
        first,
        last,
    }
}

fn fields_of(inst: &Inst) -> Option<Fields> {
    let fields = match inst {
        Inst::Udf { trap_code } => Fields::Udf(*trap_code),
        Inst::TrapIf { cmp, trap_code } => {
            Fields::TrapIf(cmp.kind, number(cmp.rs1), number(cmp.rs2), *trap_code)
        }
        Inst::RawData { bytes } => match bytes.as_slice() {
            [first, .., last] => Fields::RawData(bytes.len(), *first, *last),
            [only] => Fields::RawData(1, *only, *only),
            [] => Fields::RawData(0, 0, 0),
        },
        Inst::LoadInlineConst { rd, ty, imm } => {
            Fields::LoadInlineConst(number(rd.reg), *ty, *imm)
        }
        Inst::Extend {
            rd,
            rn,
            signed,
            from_bits,
            to_bits,
        } => Fields::Extend(number(rd.reg), number(*rn), *signed, *from_bits, *to_bits),
        Inst::Select { info } => {
            let info = info.as_ref();
            Fields::Select(
                written_numbers(info.dst),
                info.condition.kind,
                number(info.condition.rs1),
                number(info.condition.rs2),
                numbers(info.x),
                numbers(info.y),
            )
        }
        Inst::BrTable {
            index,
            tmp1,
            tmp2,
            targets,
        } => Fields::BrTable(
            number(*index),
            number(tmp1.reg),
            number(tmp2.reg),
            labels_of(targets.as_ref().as_slice()),
        ),
        _ => return loop_fields(inst),
    };
    Some(fields)
}

fn loop_fields(inst: &Inst) -> Option<Fields> {
    let fields = match inst {
        Inst::Popcnt { info } => {
            let info = info.as_ref();
            Fields::Popcnt(
                number(info.sum.reg),
                number(info.tmp.reg),
                number(info.step.reg),
                number(info.rs),
                info.ty,
            )
        }
        Inst::Cltz { leading, info } => {
            let info = info.as_ref();
            Fields::Cltz(
                number(info.sum.reg),
                number(info.tmp.reg),
                number(info.step.reg),
                number(info.rs),
                *leading,
                info.ty,
            )
        }
        Inst::Brev8 { info } => {
            let info = info.as_ref();
            Fields::Brev8(
                number(info.rs),
                info.ty,
                number(info.step.reg),
                number(info.tmp.reg),
                number(info.tmp2.reg),
                number(info.rd.reg),
            )
        }
        Inst::StackProbeLoop {
            guard_size,
            probe_count,
            tmp,
        } => Fields::StackProbeLoop(*guard_size, *probe_count, number(tmp.reg)),
        _ => return None,
    };
    Some(fields)
}

/// What an instruction of one of these forms says; of another none.
pub(crate) fn said(alloc: Global, inst: &Inst) -> Result<Option<String>, AllocError> {
    shown(alloc, fields_of(inst))
}
