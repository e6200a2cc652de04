//! Classes of numbers.

ghost use Rattle.std.specs.Prelude.{◌≡◌};
ghost use lib.Ieee.{binary32, binary64};
ghost use Rattle.std.specs.Float.{classify};
ghost use Rattle.rv_host.specs.Numbers.{ieee, first};
ghost use Rattle.rv_host.specs.Host.{is_quiet, class_bit, class_of};

use crate::choices::is_minus;
use crate::numbers::{Operands, Precision, double, single, unboxed};
use std::num::FpCategory;

fn category(precision: Precision, o: Operands) -> FpCategory
    ensures { result ≡ classify (ieee precision) (first precision o) }
{
    match precision {
        Precision::Single => single(o.first).classify(),
        Precision::Double => double(o.first).classify(),
    }
}

// The highest digit of a NaN's tells that it is quiet.
fn is_quiet(precision: Precision, bits: u64) -> bool
    ensures { result ≡ is_quiet (ieee precision) bits }
{
    match precision {
        Precision::Single => (bits >> 22) % 2 == 1,
        Precision::Double => (bits >> 51) % 2 == 1,
    }
}

// One bit of ten.
fn class_bit(category: FpCategory, minus: bool, quiet: bool) -> u64
    ensures { result ≡ class_bit category minus quiet }
{
    match (category, minus) {
        (FpCategory::Infinite, true) => 0x001,
        (FpCategory::Normal, true) => 0x002,
        (FpCategory::Subnormal, true) => 0x004,
        (FpCategory::Zero, true) => 0x008,
        (FpCategory::Zero, false) => 0x010,
        (FpCategory::Subnormal, false) => 0x020,
        (FpCategory::Normal, false) => 0x040,
        (FpCategory::Infinite, false) => 0x080,
        (FpCategory::Nan, _) => if quiet { 0x200 } else { 0x100 },
    }
}

/// The class of the first number, as one bit of ten.
pub(crate) fn class_of(precision: Precision, o: Operands) -> u64
    ensures { result ≡ class_of precision o }
{
    let quiet = is_quiet(precision, unboxed(precision, o.first));
    class_bit(category(precision, o), is_minus(precision, o.first), quiet)
}
