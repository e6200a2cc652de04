//! Numbers in floating-point registers: "NaN Boxing of Narrower Values" and "NaN Generation and Propagation".

ghost use Rattle.std.specs.Prelude.{◌≡◌};
ghost use lib.Ieee.{binary32, binary64};
ghost use Rattle.rv_host.specs.Numbers.{unboxed, boxed, number, put, ieee, precision_of, first, second, third};

use rv_machine::FloatFormat;
use std::num::{
    f32_from_bits_with_nan, f32_to_bits_with_nan, f32_to_f64_with_nan, f64_from_bits_with_nan,
    f64_to_bits_with_nan,
};

/// A precision that the unit has.
#[derive(Clone, Copy, Debug, PartialEq, Eq)]
pub enum Precision {
    Single,
    Double,
}

/// The values of the registers that an operation may read.
#[derive(Clone, Copy, Debug, PartialEq, Eq)]
pub struct Operands {
    /// The integer register rs1.
    pub integer: u64,
    /// The floating-point registers rs1, rs2 and rs3.
    pub first: u64,
    pub second: u64,
    pub third: u64,
}

/// The precision of a format, if the unit has it.
pub(crate) fn precision_of(format: FloatFormat) -> Option<Precision>
    ensures { result ≡ precision_of format }
{
    match format {
        FloatFormat::H => None,
        FloatFormat::S => Some(Precision::Single),
        FloatFormat::D => Some(Precision::Double),
    }
}

/// The bits of a single-precision number in a register, a NaN's where there are not only ones above it.
fn unboxed_single(register: u64) -> u32
    ensures { result ≡ unboxed binary32 register }
{
    if register >> 32 == 0xffff_ffff {
        (register & 0xffff_ffff) as u32
    } else {
        0x7fc0_0000
    }
}

/// The bits of a number in a register.
pub(crate) fn unboxed(precision: Precision, register: u64) -> u64
    ensures { result ≡ unboxed (ieee precision) register }
{
    match precision {
        Precision::Single => u64::from(unboxed_single(register)),
        Precision::Double => register,
    }
}

/// A register that has a number of these bits.
fn boxed_single(bits: u32) -> u64
    ensures { result ≡ boxed binary32 bits }
{
    u64::from(bits) + 0xffff_ffff_0000_0000
}

pub(crate) fn single(register: u64) -> f32
    ensures { result ≡ number binary32 register }
{
    f32_from_bits_with_nan(unboxed_single(register))
}

pub(crate) fn double(register: u64) -> f64
    ensures { result ≡ number binary64 register }
{
    f64_from_bits_with_nan(register)
}

/// The number in a register; a double holds each single.
pub(crate) fn number(precision: Precision, register: u64) -> f64
    ensures { result ≡ number (ieee precision) register }
{
    match precision {
        Precision::Single => f32_to_f64_with_nan(single(register)),
        Precision::Double => double(register),
    }
}

/// A register that has the number.
pub(crate) fn put_single(x: f32) -> u64
    ensures { result ≡ put binary32 x }
{
    boxed_single(f32_to_bits_with_nan(x))
}

pub(crate) fn put_double(x: f64) -> u64
    ensures { result ≡ put binary64 x }
{
    f64_to_bits_with_nan(x)
}
