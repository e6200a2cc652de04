//! Minimum and maximum, comparisons, and signs.

ghost use Rattle.std.specs.Prelude.{◌≡◌};
ghost use lib.Ieee.{binary32, binary64, eq, lt, le, nan};
ghost use Rattle.std.specs.Int.{from_bool};
ghost use Rattle.rv_host.specs.Numbers.{ieee, boxed, put, first, second};
ghost use Rattle.rv_host.specs.Host.{is_negative, is_minus, size_of, with_sign, sign_injected, sign_product, is_least, is_greatest, passed, minimum, maximum, unless_nan};

use crate::numbers::{
    Operands, Precision, double, number, put_double, put_single, single, unboxed,
};

// The first of two is the less: -0 is below +0, and a number is taken before a NaN.
fn is_least(x: f64, y: f64) -> bool
    ensures { result ≡ is_least x y }
{
    if x.is_nan() {
        false
    } else if y.is_nan() {
        true
    } else if x == y {
        x.is_sign_negative()
    } else {
        x < y
    }
}

fn is_greatest(x: f64, y: f64) -> bool
    ensures { result ≡ is_greatest x y }
{
    if x.is_nan() {
        false
    } else if y.is_nan() {
        true
    } else if x == y {
        !x.is_sign_negative()
    } else {
        y < x
    }
}

// The number in a register, put in a register.
fn passed(precision: Precision, register: u64) -> u64
    ensures { result ≡ passed precision register }
{
    match precision {
        Precision::Single => put_single(single(register)),
        Precision::Double => put_double(double(register)),
    }
}

pub(crate) fn minimum(precision: Precision, o: Operands) -> u64
    ensures { result ≡ minimum precision o }
{
    if is_least(number(precision, o.first), number(precision, o.second)) {
        passed(precision, o.first)
    } else {
        passed(precision, o.second)
    }
}

pub(crate) fn maximum(precision: Precision, o: Operands) -> u64
    ensures { result ≡ maximum precision o }
{
    if is_greatest(number(precision, o.first), number(precision, o.second)) {
        passed(precision, o.first)
    } else {
        passed(precision, o.second)
    }
}

// The canonical NaN in a register.
fn no_number(precision: Precision) -> u64
    ensures { result ≡ put (ieee precision) nan }
{
    match precision {
        Precision::Single => 0xffff_ffff_7fc0_0000,
        Precision::Double => 0x7ff8_0000_0000_0000,
    }
}

/// This, or the canonical NaN where one of the two is a NaN.
pub(crate) fn unless_nan(precision: Precision, o: Operands, chosen: u64) -> u64
    ensures { result ≡ unless_nan precision o chosen }
{
    if number(precision, o.first).is_nan() || number(precision, o.second).is_nan() {
        no_number(precision)
    } else {
        chosen
    }
}

/// Whether the first of two numbers and the second are equal.
pub(crate) fn equal(precision: Precision, o: Operands) -> u64
    ensures { result ≡ from_bool (eq (first precision o) (second precision o)) }
{
    u64::from(number(precision, o.first) == number(precision, o.second))
}

/// Whether the first of two numbers is below the second.
pub(crate) fn less(precision: Precision, o: Operands) -> u64
    ensures { result ≡ from_bool (lt (first precision o) (second precision o)) }
{
    u64::from(number(precision, o.first) < number(precision, o.second))
}

/// Whether the first of two numbers is at most the second.
pub(crate) fn at_most(precision: Precision, o: Operands) -> u64
    ensures { result ≡ from_bool (le (first precision o) (second precision o)) }
{
    u64::from(number(precision, o.first) <= number(precision, o.second))
}

/// Whether the number in a register has a minus.
pub(crate) fn is_minus(precision: Precision, register: u64) -> bool
    ensures { result ≡ is_minus precision register }
{
    let bits = unboxed(precision, register);
    match precision {
        Precision::Single => 1 << 31 <= bits,
        Precision::Double => 1 << 63 <= bits,
    }
}

fn single_with_sign(minus: bool, bits: u64) -> u64
    ensures { result ≡ boxed binary32 (with_sign binary32 minus bits) }
{
    let size = bits % 0x8000_0000;
    if minus {
        size + 0xffff_ffff_8000_0000
    } else {
        size + 0xffff_ffff_0000_0000
    }
}

fn double_with_sign(minus: bool, bits: u64) -> u64
    ensures { result ≡ boxed binary64 (with_sign binary64 minus bits) }
{
    let size = bits % 0x8000_0000_0000_0000;
    if minus {
        size + 0x8000_0000_0000_0000
    } else {
        size
    }
}

/// The first number with this sign, all else of it as it was.
pub(crate) fn sign_injected(precision: Precision, minus: bool, o: Operands) -> u64
    ensures { result ≡ sign_injected minus precision o }
{
    let bits = unboxed(precision, o.first);
    match precision {
        Precision::Single => single_with_sign(minus, bits),
        Precision::Double => double_with_sign(minus, bits),
    }
}

/// The sign of a product.
pub(crate) fn sign_product(a: bool, b: bool) -> bool
    ensures { result ≡ sign_product a b }
{
    if a { !b } else { b }
}
