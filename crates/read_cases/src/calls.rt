//! What lines of calls that return say.

use crate::fields::shown;
use crate::numbers::{Pairs, number, pairs_of};
use rv_base::{
    CallInfo, CallRetPair, IrType, PReg, PRegSet, RegClass, RetLocation, TryCallHandler,
    TryCallInfo, UserStackMap,
};
use rv_inst::Inst;
use std::alloc::{AllocError, Global};

/// What a line of one of these forms says: registers by their numbers.
#[derive(Clone, Copy, Debug, PartialEq, Eq)]
enum Fields {
    Call(u32, Parts),
    CallInd(u8, Parts),
}

/// The parts of a call, but for what is called.
#[derive(Clone, Copy, Debug, PartialEq, Eq)]
struct Parts {
    uses: Pairs,
    defs: Results,
    clobbers: Numbers,
    pop: u32,
    patchable: bool,
    map: Option<Values>,
    after: Option<After>,
}

/// How many values on the stack a map names, and the first and the last of them.
#[derive(Clone, Copy, Debug, PartialEq, Eq)]
struct Values {
    count: usize,
    first: Option<(IrType, u32)>,
    last: Option<(IrType, u32)>,
}

/// Where control goes after a call that ends its block, by the number of the label where it returns: how many handlers there are,
/// and the first and the last of them.
#[derive(Clone, Copy, Debug, PartialEq, Eq)]
struct After {
    continuation: u32,
    count: usize,
    first: Option<TryCallHandler>,
    last: Option<TryCallHandler>,
}

/// How many results a call has, and the first and the last of them.
#[derive(Clone, Copy, Debug, PartialEq, Eq)]
struct Results {
    count: usize,
    first: Place,
    last: Place,
}

/// Where a result is left, after the register that the caller's code reads.
#[derive(Clone, Copy, Debug, PartialEq, Eq)]
enum Place {
    None,
    Reg(u8, u8),
    Stack(u8, u32, IrType),
}

/// The numbers of a set's registers, each as a bit.
#[derive(Clone, Copy, Debug, PartialEq, Eq)]
struct Numbers {
    int: u32,
    float: u32,
    vector: u32,
}

fn place_of(def: CallRetPair) -> Place {
    let vreg = number(def.vreg.reg);
    match def.location {
        RetLocation::Reg(preg) => Place::Reg(vreg, number(preg)),
        RetLocation::Stack { offset, ty } => Place::Stack(vreg, offset, ty),
    }
}

fn results_of(all: &[CallRetPair]) -> Results {
    let (first, last) = match all {
        [first, .., last] => (place_of(*first), place_of(*last)),
        [only] => (place_of(*only), place_of(*only)),
        [] => (Place::None, Place::None),
    };
    Results {
        count: all.len(),
        first,
        last,
    }
}

fn numbers_in(set: PRegSet, class: RegClass) -> u32 {
    let mut numbers = 0;
    for number in 0..32u8 {
        if set.contains(PReg { class, number }) {
            numbers |= 1 << number;
        }
    }
    numbers
}

fn values_of(map: &UserStackMap) -> Values {
    let all = map.entries.as_slice();
    Values {
        count: all.len(),
        first: all.first().copied(),
        last: all.last().copied(),
    }
}

fn after_of(info: &TryCallInfo) -> After {
    let all = info.handlers.as_slice();
    After {
        continuation: info.continuation.number,
        count: all.len(),
        first: all.first().copied(),
        last: all.last().copied(),
    }
}

fn parts_of<T>(info: &CallInfo<T>) -> Parts {
    Parts {
        uses: pairs_of(info.uses.as_slice()),
        defs: results_of(info.defs.as_slice()),
        clobbers: Numbers {
            int: numbers_in(info.clobbers, RegClass::Int),
            float: numbers_in(info.clobbers, RegClass::Float),
            vector: numbers_in(info.clobbers, RegClass::Vector),
        },
        pop: info.callee_pop_size,
        patchable: info.patchable,
        map: info.stack_map.as_ref().map(values_of),
        after: info.try_call_info.as_ref().map(after_of),
    }
}

fn fields_of(inst: &Inst) -> Option<Fields> {
    let fields = match inst {
        Inst::Call { info } => {
            let info = info.as_ref();
            Fields::Call(info.dest.number, parts_of(info))
        }
        Inst::CallInd { info } => {
            let info = info.as_ref();
            Fields::CallInd(number(info.dest), parts_of(info))
        }
        _ => return None,
    };
    Some(fields)
}

/// What an instruction of one of these forms says; of another none.
pub(crate) fn said(alloc: Global, inst: &Inst) -> Result<Option<String>, AllocError> {
    shown(alloc, fields_of(inst))
}
