//! What lines of tail calls say.

use crate::fields::shown;
use crate::numbers::{Pairs, number, pairs_of};
use rv_inst::Inst;
use std::alloc::{AllocError, Global};

/// What a line of one of these forms says: registers by their numbers.
#[derive(Clone, Copy, Debug, PartialEq, Eq)]
enum Fields {
    ReturnCall(u32, Pairs, u32),
    ReturnCallInd(u8, Pairs, u32),
}

fn fields_of(inst: &Inst) -> Option<Fields> {
    let fields = match inst {
        Inst::ReturnCall { info } => {
            let info = info.as_ref();
            Fields::ReturnCall(
                info.dest.number,
                pairs_of(info.uses.as_slice()),
                info.new_stack_arg_size,
            )
        }
        Inst::ReturnCallInd { info } => {
            let info = info.as_ref();
            Fields::ReturnCallInd(
                number(info.dest),
                pairs_of(info.uses.as_slice()),
                info.new_stack_arg_size,
            )
        }
        _ => return None,
    };
    Some(fields)
}

/// What an instruction of one of these forms says; of another none.
pub(crate) fn said(alloc: Global, inst: &Inst) -> Result<Option<String>, AllocError> {
    shown(alloc, fields_of(inst))
}
