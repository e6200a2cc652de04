//! What lines of symbols and of the frame's making say.

use crate::fields::shown;
use crate::numbers::number;
use rv_base::{RegClass, UnwindInst};
use rv_inst::Inst;
use std::alloc::{AllocError, Global};

/// What a line of one of these forms says: registers by their numbers.
#[derive(Clone, Copy, Debug, PartialEq, Eq)]
enum Fields {
    Got(u8, u32),
    Near(u8, u32, i64),
    Far(u8, u32, i64),
    Push(u32),
    Frame(u32, u32),
    Alloc(u32),
    Save(u32, RegClass, u8),
}

fn step_fields(step: UnwindInst) -> Fields {
    match step {
        UnwindInst::PushFrameRegs {
            offset_upward_to_caller_sp,
        } => Fields::Push(offset_upward_to_caller_sp),
        UnwindInst::DefineNewFrame {
            offset_upward_to_caller_sp,
            offset_downward_to_clobbers,
        } => Fields::Frame(offset_upward_to_caller_sp, offset_downward_to_clobbers),
        UnwindInst::StackAlloc { size } => Fields::Alloc(size),
        UnwindInst::SaveReg {
            clobber_offset,
            reg,
        } => Fields::Save(clobber_offset, reg.class(), number(reg)),
    }
}

fn fields_of(inst: &Inst) -> Option<Fields> {
    let fields = match inst {
        Inst::LoadExtNameGot { rd, name } => Fields::Got(number(rd.reg), name.number),
        Inst::LoadExtNameNear { rd, name, offset } => {
            Fields::Near(number(rd.reg), name.number, *offset)
        }
        Inst::LoadExtNameFar { rd, name, offset } => {
            Fields::Far(number(rd.reg), name.number, *offset)
        }
        Inst::Unwind { inst } => step_fields(*inst),
        _ => return None,
    };
    Some(fields)
}

/// What an instruction of one of these forms says; of another none.
pub(crate) fn said(alloc: Global, inst: &Inst) -> Result<Option<String>, AllocError> {
    shown(alloc, fields_of(inst))
}
