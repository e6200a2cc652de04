//! What the unit answers for an operation.

ghost use Rattle.std.specs.Prelude.{◌≡◌};
ghost use Rattle.rv_host.specs.Host.{static_rounding, rounding_of, nearest, exact, from_single, from_double, float_answer, in_format, op_answer, answer_of};

use crate::arithmetic::{
    difference_of, fused, narrowed, product_of, quotient_of, root_of, sum_of, widened,
};
use crate::choices::{
    at_most, equal, is_minus, less, maximum, minimum, sign_injected, sign_product, unless_nan,
};
use crate::classes::class_of;
use crate::integers::{Integer, from_integer, to_integer};
use crate::numbers::{Operands, Precision, precision_of};
use rv_machine::{Decoded, FloatFormat, FloatOp, MOp};

/// The modes of rounding, in the order of their numbers.
#[derive(Clone, Copy, Debug, PartialEq, Eq)]
pub enum Rounding {
    /// To nearest, ties to even.
    NearestEven,
    TowardZero,
    Down,
    Up,
    /// To nearest, ties away from zero.
    NearestAway,
}

fn static_rounding(rm: u8) -> Option<Rounding>
    ensures { result ≡ static_rounding rm }
{
    match rm {
        0 => Some(Rounding::NearestEven),
        1 => Some(Rounding::TowardZero),
        2 => Some(Rounding::Down),
        3 => Some(Rounding::Up),
        4 => Some(Rounding::NearestAway),
        _ => None,
    }
}

// By an instruction's field, where 7 says that it is the mode in frm.
fn rounding_of(rm: u8, frm: u8) -> Option<Rounding>
    ensures { result ≡ rounding_of rm frm }
{
    static_rounding(if rm == 7 { frm } else { rm })
}

/// What is computed to nearest alone.
pub(crate) fn nearest(mode: Option<Rounding>, bits: u64) -> Option<u64>
    ensures { result ≡ nearest mode bits }
{
    match mode? {
        Rounding::NearestEven => Some(bits),
        Rounding::TowardZero | Rounding::Down | Rounding::Up | Rounding::NearestAway => None,
    }
}

/// What is exact, whatever the mode is.
pub(crate) fn exact(mode: Option<Rounding>, bits: u64) -> Option<u64>
    ensures { result ≡ exact mode bits }
{
    match mode {
        Some(_) => Some(bits),
        None => None,
    }
}

fn from_single(precision: Precision, mode: Option<Rounding>, o: Operands) -> Option<u64>
    ensures { result ≡ from_single precision mode o }
{
    match precision {
        Precision::Single => None,
        Precision::Double => exact(mode, widened(o)),
    }
}

fn from_double(precision: Precision, mode: Option<Rounding>, o: Operands) -> Option<u64>
    ensures { result ≡ from_double precision mode o }
{
    match precision {
        Precision::Single => nearest(mode, narrowed(o)),
        Precision::Double => None,
    }
}

fn float_answer(op: FloatOp, p: Precision, mode: Option<Rounding>, o: Operands) -> Option<u64>
    ensures { result ≡ float_answer op p mode o }
{
    match op {
        FloatOp::Fmadd => nearest(mode, fused(p, false, false, o)),
        FloatOp::Fmsub => nearest(mode, fused(p, false, true, o)),
        FloatOp::Fnmsub => nearest(mode, fused(p, true, false, o)),
        FloatOp::Fnmadd => nearest(mode, fused(p, true, true, o)),
        FloatOp::Fadd => nearest(mode, sum_of(p, o)),
        FloatOp::Fsub => nearest(mode, difference_of(p, o)),
        FloatOp::Fmul => nearest(mode, product_of(p, o)),
        FloatOp::Fdiv => nearest(mode, quotient_of(p, o)),
        FloatOp::Fsqrt => nearest(mode, root_of(p, o)),
        FloatOp::Fsgnj => Some(sign_injected(p, is_minus(p, o.second), o)),
        FloatOp::Fsgnjn => Some(sign_injected(p, !is_minus(p, o.second), o)),
        FloatOp::Fsgnjx => {
            let minus = sign_product(is_minus(p, o.first), is_minus(p, o.second));
            Some(sign_injected(p, minus, o))
        }
        FloatOp::Fmin => Some(minimum(p, o)),
        FloatOp::Fmax => Some(maximum(p, o)),
        FloatOp::FcvtToW => to_integer(Integer::W, p, mode, o),
        FloatOp::FcvtToWu => to_integer(Integer::Wu, p, mode, o),
        FloatOp::FcvtToL => to_integer(Integer::L, p, mode, o),
        FloatOp::FcvtToLu => to_integer(Integer::Lu, p, mode, o),
        FloatOp::Feq => Some(equal(p, o)),
        FloatOp::Flt => Some(less(p, o)),
        FloatOp::Fle => Some(at_most(p, o)),
        FloatOp::Fclass => Some(class_of(p, o)),
        FloatOp::FcvtFromW => from_integer(Integer::W, p, mode, o),
        FloatOp::FcvtFromWu => from_integer(Integer::Wu, p, mode, o),
        FloatOp::FcvtFromL => from_integer(Integer::L, p, mode, o),
        FloatOp::FcvtFromLu => from_integer(Integer::Lu, p, mode, o),
        FloatOp::FcvtFromS => from_single(p, mode, o),
        FloatOp::FcvtFromD => from_double(p, mode, o),
        FloatOp::Fminm => Some(unless_nan(p, o, minimum(p, o))),
        FloatOp::Fmaxm => Some(unless_nan(p, o, maximum(p, o))),
        FloatOp::FmvToX | FloatOp::FmvFromX | FloatOp::FcvtFromH | FloatOp::Fli | FloatOp::Fround =>
            None,
    }
}

// The unit has single and double precision.
fn in_format(format: FloatFormat, op: FloatOp, mode: Option<Rounding>, o: Operands) -> Option<u64>
    ensures { result ≡ in_format format op mode o }
{
    match precision_of(format) {
        Some(precision) => float_answer(op, precision, mode, o),
        None => None,
    }
}

/// The number that goes to rd, of what an operation reads and the rounding mode in frm; none where the unit doesn't compute it.
pub fn answer_of(d: Decoded, operands: Operands, frm: u8) -> Option<u64>
    ensures { result ≡ answer_of d operands frm }
{
    match d.op {
        MOp::Float(format, op) => in_format(format, op, rounding_of(d.rm, frm), operands),
        MOp::Base(_)
        | MOp::Load(_)
        | MOp::Store(_)
        | MOp::Alu(_)
        | MOp::Carry(_)
        | MOp::Atomic(_, _)
        | MOp::Csr(_)
        | MOp::FloatLoad(_)
        | MOp::FloatStore(_)
        | MOp::VecMem(_)
        | MOp::Vec { .. } => None,
    }
}
