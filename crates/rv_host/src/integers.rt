//! Conversions to and from integers.

ghost use Rattle.std.specs.Prelude.{◌≡◌, pos};
ghost use lib.Ieee.{of_int};
ghost use Rattle.std.specs.Int.{w32};
ghost use Rattle.rv_machine.specs.Memory.{sign_extend};
ghost use Rattle.rv_host.specs.Numbers.{ieee, put};
ghost use Rattle.rv_host.specs.Host.{whole, integer_of, to_integer, integer_in, number_of, from_integer};

use crate::numbers::{Operands, Precision, number, put_double, put_single};
use crate::unit::{Rounding, exact, nearest};
use std::num::{
    nearest_i64_to_f32, nearest_i64_to_f64, nearest_u64_to_f32, nearest_u64_to_f64,
    saturating_f64_to_i32, saturating_f64_to_i64, saturating_f64_to_u32, saturating_f64_to_u64,
};

/// An integer in a register: 32 bits or 64, with a sign or without one.
#[derive(Clone, Copy, Debug, PartialEq, Eq)]
pub enum Integer {
    W,
    Wu,
    L,
    Lu,
}

// A number rounded to a whole one.
fn whole(mode: Rounding, x: f64) -> f64
    ensures { result ≡ whole mode x }
{
    match mode {
        Rounding::NearestEven => x.round_ties_even(),
        Rounding::TowardZero => x.trunc(),
        Rounding::Down => x.floor(),
        Rounding::Up => x.ceil(),
        Rounding::NearestAway => x.round(),
    }
}

fn sign_extended(n: u32) -> u64
    ensures { result ≡ sign_extend w32 n }
{
    i64::from(n.cast_signed()).cast_unsigned()
}

// A whole number as an integer in a register: the nearest of its range, which is the upper end for a NaN.
fn integer_of(kind: Integer, x: f64) -> u64
    ensures { result ≡ integer_of kind x }
{
    match kind {
        Integer::W => if x.is_nan() {
            0x7fff_ffff
        } else {
            i64::from(saturating_f64_to_i32(x)).cast_unsigned()
        },
        Integer::Wu => if x.is_nan() {
            u64::MAX
        } else {
            sign_extended(saturating_f64_to_u32(x))
        },
        Integer::L => if x.is_nan() {
            0x7fff_ffff_ffff_ffff
        } else {
            saturating_f64_to_i64(x).cast_unsigned()
        },
        Integer::Lu => if x.is_nan() {
            u64::MAX
        } else {
            saturating_f64_to_u64(x)
        },
    }
}

/// The first number as an integer, rounded in a mode.
pub(crate) fn to_integer(
    kind: Integer,
    precision: Precision,
    mode: Option<Rounding>,
    o: Operands,
) -> Option<u64>
    ensures { result ≡ to_integer kind precision mode o }
{
    match mode {
        Some(mode) => Some(integer_of(kind, whole(mode, number(precision, o.first)))),
        None => None,
    }
}

fn put_signed(precision: Precision, n: i64) -> u64
    ensures { result ≡ put (ieee precision) (of_int (ieee precision) n) }
{
    match precision {
        Precision::Single => put_single(nearest_i64_to_f32(n)),
        Precision::Double => put_double(nearest_i64_to_f64(n)),
    }
}

fn put_unsigned(precision: Precision, n: u64) -> u64
    ensures { result ≡ put (ieee precision) (of_int (ieee precision) (pos n)) }
{
    match precision {
        Precision::Single => put_single(nearest_u64_to_f32(n)),
        Precision::Double => put_double(nearest_u64_to_f64(n)),
    }
}

// The integer in a register, as a number.
fn number_of(kind: Integer, precision: Precision, o: Operands) -> u64
    ensures { result ≡ number_of kind precision o }
{
    let low = (o.integer & 0xffff_ffff) as u32;
    match kind {
        Integer::W => put_signed(precision, i64::from(low.cast_signed())),
        Integer::Wu => put_unsigned(precision, u64::from(low)),
        Integer::L => put_signed(precision, o.integer.cast_signed()),
        Integer::Lu => put_unsigned(precision, o.integer),
    }
}

/// The integer as a number, rounded in a mode; a double holds each integer of 32 bits.
pub(crate) fn from_integer(
    kind: Integer,
    precision: Precision,
    mode: Option<Rounding>,
    o: Operands,
) -> Option<u64>
    ensures { result ≡ from_integer kind precision mode o }
{
    let number = number_of(kind, precision, o);
    match (kind, precision) {
        (Integer::W | Integer::Wu, Precision::Double) => exact(mode, number),
        (Integer::L | Integer::Lu, Precision::Double) => nearest(mode, number),
        (_, Precision::Single) => nearest(mode, number),
    }
}
