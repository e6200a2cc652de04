//! Sums, products, quotients and roots, rounded once, to nearest with ties to even.

ghost use Rattle.std.specs.Prelude.{◌≡◌};
ghost use Rattle.rv_host.specs.Host.{signed, fused, sum_of, difference_of, product_of, quotient_of, root_of, widened, narrowed};

use crate::numbers::{Operands, Precision, double, put_double, put_single, single};
use std::num::{f32_to_f64_with_nan, nearest_f64_to_f32_with_nan};

fn signed_single(minus: bool, x: f32) -> f32
    ensures { result ≡ signed minus x }
{
    if minus { -x } else { x }
}

fn signed_double(minus: bool, x: f64) -> f64
    ensures { result ≡ signed minus x }
{
    if minus { -x } else { x }
}

pub(crate) fn fused(
    precision: Precision,
    minus_product: bool,
    minus_addend: bool,
    o: Operands,
) -> u64
    ensures { result ≡ fused precision minus_product minus_addend o }
{
    match precision {
        Precision::Single => {
            let x = signed_single(minus_product, single(o.first));
            let addend = signed_single(minus_addend, single(o.third));
            put_single(x.mul_add(single(o.second), addend))
        }
        Precision::Double => {
            let x = signed_double(minus_product, double(o.first));
            let addend = signed_double(minus_addend, double(o.third));
            put_double(x.mul_add(double(o.second), addend))
        }
    }
}

pub(crate) fn sum_of(precision: Precision, o: Operands) -> u64
    ensures { result ≡ sum_of precision o }
{
    match precision {
        Precision::Single => put_single(single(o.first) + single(o.second)),
        Precision::Double => put_double(double(o.first) + double(o.second)),
    }
}

pub(crate) fn difference_of(precision: Precision, o: Operands) -> u64
    ensures { result ≡ difference_of precision o }
{
    match precision {
        Precision::Single => put_single(single(o.first) - single(o.second)),
        Precision::Double => put_double(double(o.first) - double(o.second)),
    }
}

pub(crate) fn product_of(precision: Precision, o: Operands) -> u64
    ensures { result ≡ product_of precision o }
{
    match precision {
        Precision::Single => put_single(single(o.first) * single(o.second)),
        Precision::Double => put_double(double(o.first) * double(o.second)),
    }
}

pub(crate) fn quotient_of(precision: Precision, o: Operands) -> u64
    ensures { result ≡ quotient_of precision o }
{
    match precision {
        Precision::Single => put_single(single(o.first) / single(o.second)),
        Precision::Double => put_double(double(o.first) / double(o.second)),
    }
}

pub(crate) fn root_of(precision: Precision, o: Operands) -> u64
    ensures { result ≡ root_of precision o }
{
    match precision {
        Precision::Single => put_single(single(o.first).sqrt()),
        Precision::Double => put_double(double(o.first).sqrt()),
    }
}

/// A single as a double.
pub(crate) fn widened(o: Operands) -> u64
    ensures { result ≡ widened o }
{
    put_double(f32_to_f64_with_nan(single(o.first)))
}

/// A double as a single.
pub(crate) fn narrowed(o: Operands) -> u64
    ensures { result ≡ narrowed o }
{
    put_single(nearest_f64_to_f32_with_nan(double(o.first)))
}
