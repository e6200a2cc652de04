//! "M", Integer Multiplication and Division: what the operations compute.

ghost use Rattle.std.specs.Prelude.{◌≡◌};
ghost use Rattle.rv_machine.specs.MulDiv.{mul_result};

use crate::arithmetic::{extend, extend_word, high64, low_word, signed_word};
use crate::ops::MulOp;

/// What an operation computes of rs1 and rs2.
pub fn mul_result(op: MulOp, x: u64, y: u64) -> u64
    ensures { result ≡ mul_result op x y }
{
    match op {
        MulOp::Mul => x.wrapping_mul(y),
        MulOp::Mulh => mulh(x, y),
        MulOp::Mulhsu => mulhsu(x, y),
        MulOp::Mulhu => mulhu(x, y),
        MulOp::Div => div(x, y),
        MulOp::Divu => if y == 0 { u64::MAX } else { x / y },
        MulOp::Rem => rem(x, y),
        MulOp::Remu => if y == 0 { x } else { x % y },
        MulOp::Mulw => extend_word(x.wrapping_mul(y)),
        MulOp::Divw => divw(x, y),
        MulOp::Divuw => divuw(x, y),
        MulOp::Remw => remw(x, y),
        MulOp::Remuw => remuw(x, y),
    }
}

fn mulh(x: u64, y: u64) -> u64
    ensures { result ≡ mul_result MulOp.Mulh x y }
{
    high64(i128::from(x.cast_signed()) * i128::from(y.cast_signed()))
}

fn mulhsu(x: u64, y: u64) -> u64
    ensures { result ≡ mul_result MulOp.Mulhsu x y }
{
    high64(i128::from(x.cast_signed()) * i128::from(y))
}

fn mulhu(x: u64, y: u64) -> u64
    ensures { result ≡ mul_result MulOp.Mulhu x y }
{
    (u128::from(x) * u128::from(y) >> 64) as u64
}

fn div(x: u64, y: u64) -> u64
    ensures { result ≡ mul_result MulOp.Div x y }
{
    if y == 0 {
        return u64::MAX;
    }
    x.cast_signed()
        .wrapping_div(y.cast_signed())
        .cast_unsigned()
}

fn rem(x: u64, y: u64) -> u64
    ensures { result ≡ mul_result MulOp.Rem x y }
{
    if y == 0 {
        return x;
    }
    x.cast_signed()
        .wrapping_rem(y.cast_signed())
        .cast_unsigned()
}

fn divw(x: u64, y: u64) -> u64
    ensures { result ≡ mul_result MulOp.Divw x y }
{
    if low_word(y) == 0 {
        return u64::MAX;
    }
    extend(signed_word(x).wrapping_div(signed_word(y)))
}

fn divuw(x: u64, y: u64) -> u64
    ensures { result ≡ mul_result MulOp.Divuw x y }
{
    if low_word(y) == 0 {
        return u64::MAX;
    }
    extend_word(u64::from(low_word(x) / low_word(y)))
}

fn remw(x: u64, y: u64) -> u64
    ensures { result ≡ mul_result MulOp.Remw x y }
{
    if low_word(y) == 0 {
        return extend_word(x);
    }
    extend(signed_word(x).wrapping_rem(signed_word(y)))
}

fn remuw(x: u64, y: u64) -> u64
    ensures { result ≡ mul_result MulOp.Remuw x y }
{
    if low_word(y) == 0 {
        return extend_word(x);
    }
    extend_word(u64::from(low_word(x) % low_word(y)))
}
