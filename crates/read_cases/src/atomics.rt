//! What lines say that order what is read and written, or read and write memory atomically.

use crate::fields::shown;
use crate::numbers::number;
use rv_base::IrType;
use rv_inst::Inst;
use rv_ops::{AMO, AtomicOP};
use std::alloc::{AllocError, Global};

/// What a line of one of these forms says: registers by their numbers.
#[derive(Clone, Copy, Debug)]
enum Fields {
    Fence(u8, u8),
    AtomicLoad(u8, IrType, u8),
    AtomicStore(u8, IrType, u8),
    Atomic(AtomicOP, u8, u8, u8, AMO),
}

fn fields_of(inst: &Inst) -> Option<Fields> {
    let fields = match inst {
        Inst::Fence { pred, succ } => Fields::Fence(*pred, *succ),
        Inst::AtomicLoad { rd, ty, p } => Fields::AtomicLoad(number(rd.reg), *ty, number(*p)),
        Inst::AtomicStore { src, ty, p } => Fields::AtomicStore(number(*src), *ty, number(*p)),
        Inst::Atomic {
            op,
            rd,
            addr,
            src,
            amo,
        } => Fields::Atomic(*op, number(rd.reg), number(*addr), number(*src), *amo),
        _ => return None,
    };
    Some(fields)
}

/// What an instruction of one of these forms says; of another none.
pub(crate) fn said(alloc: Global, inst: &Inst) -> Result<Option<String>, AllocError> {
    shown(alloc, fields_of(inst))
}
