//! What lines say that read or write memory, or compute an address.

use crate::fields::shown;
use crate::numbers::number;
use rv_base::{AMode, TrapCode};
use rv_inst::Inst;
use rv_ops::{LoadOP, StoreOP};
use std::alloc::{AllocError, Global};

/// An address, by the numbers in it.
#[derive(Clone, Copy, Debug, PartialEq, Eq)]
enum Address {
    RegOffset(u8, i64),
    SPOffset(i64),
    FPOffset(i64),
    SlotOffset(i64),
    IncomingArg(i64),
    Const(u32),
    Label(u32),
}

fn address_of(mode: AMode) -> Address {
    match mode {
        AMode::RegOffset(reg, offset) => Address::RegOffset(number(reg), offset),
        AMode::SPOffset(offset) => Address::SPOffset(offset),
        AMode::FPOffset(offset) => Address::FPOffset(offset),
        AMode::SlotOffset(offset) => Address::SlotOffset(offset),
        AMode::IncomingArg(offset) => Address::IncomingArg(offset),
        AMode::Const(constant) => Address::Const(constant.number),
        AMode::Label(label) => Address::Label(label.number),
    }
}

/// What a line of one of these forms says.
#[derive(Clone, Copy, Debug, PartialEq, Eq)]
enum Fields {
    Load(u8, LoadOP, Option<TrapCode>, Address),
    Store(Address, StoreOP, Option<TrapCode>, u8),
    LoadAddr(u8, Address),
    LabelAddress(u8, u32),
}

fn fields_of(inst: &Inst) -> Option<Fields> {
    let fields = match inst {
        Inst::Load {
            rd,
            op,
            flags,
            from,
        } => Fields::Load(number(rd.reg), *op, flags.trap_code(), address_of(*from)),
        Inst::Store { to, op, flags, src } => {
            Fields::Store(address_of(*to), *op, flags.trap_code(), number(*src))
        }
        Inst::LoadAddr { rd, mem } => Fields::LoadAddr(number(rd.reg), address_of(*mem)),
        Inst::LabelAddress { dst, label } => Fields::LabelAddress(number(dst.reg), label.number),
        _ => return None,
    };
    Some(fields)
}

/// What an instruction of one of these forms says; of another none.
pub(crate) fn said(alloc: Global, inst: &Inst) -> Result<Option<String>, AllocError> {
    shown(alloc, fields_of(inst))
}
