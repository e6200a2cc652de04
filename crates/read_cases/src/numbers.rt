//! Registers by their numbers.

use rv_base::{CallArgPair, Reg, ValueRegs, WritableReg};

/// The number of a register; 255 for a virtual one.
pub(crate) fn number(reg: Reg) -> u8 {
    match reg {
        Reg::Real(real) => real.number,
        Reg::Virtual { .. } => 255,
    }
}

/// The numbers of a value's registers.
pub(crate) fn numbers(value: ValueRegs<Reg>) -> ValueRegs<u8> {
    match value {
        ValueRegs::One(reg) => ValueRegs::One(number(reg)),
        ValueRegs::Two(low, high) => ValueRegs::Two(number(low), number(high)),
    }
}

/// Those of a value that is written.
pub(crate) fn written_numbers(value: ValueRegs<WritableReg>) -> ValueRegs<u8> {
    match value {
        ValueRegs::One(reg) => ValueRegs::One(number(reg.reg)),
        ValueRegs::Two(low, high) => ValueRegs::Two(number(low.reg), number(high.reg)),
    }
}

/// How many pairs of an argument a line has, and the first and the last of them, by the numbers of their registers.
#[derive(Clone, Copy, Debug, PartialEq, Eq)]
pub(crate) struct Pairs {
    pub(crate) count: usize,
    pub(crate) first: (u8, u8),
    pub(crate) last: (u8, u8),
}

fn pair_of(pair: CallArgPair) -> (u8, u8) {
    (number(pair.vreg), number(pair.preg))
}

pub(crate) fn pairs_of(all: &[CallArgPair]) -> Pairs {
    let (first, last) = match all {
        [first, .., last] => (pair_of(*first), pair_of(*last)),
        [only] => (pair_of(*only), pair_of(*only)),
        [] => ((0, 0), (0, 0)),
    };
    Pairs {
        count: all.len(),
        first,
        last,
    }
}
