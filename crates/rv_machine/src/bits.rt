//! "B", Bit Manipulation: what the operations of Zba, Zbb and Zbs compute.

ghost use Rattle.std.specs.Prelude.{◌≡◌, ◌%◌, ◌^◌};
ghost use Rattle.rv_machine.specs.Bits.{bit_result, spread};

use crate::arithmetic::{amount32, amount64, extend_word, is_signed_below, low_word};
use crate::ops::BitOp;

/// What an operation computes of rs1, rs2 and its immediate.
pub fn bit_result(op: BitOp, x: u64, y: u64, imm: u64) -> u64
    ensures { result ≡ bit_result op x y imm }
{
    match op {
        BitOp::AddUw => y.wrapping_add(u64::from(low_word(x))),
        BitOp::Sh1add => y.wrapping_add(x << 1),
        BitOp::Sh1addUw => y.wrapping_add(u64::from(low_word(x)) << 1),
        BitOp::Sh2add => y.wrapping_add(x << 2),
        BitOp::Sh2addUw => y.wrapping_add(u64::from(low_word(x)) << 2),
        BitOp::Sh3add => y.wrapping_add(x << 3),
        BitOp::Sh3addUw => y.wrapping_add(u64::from(low_word(x)) << 3),
        BitOp::SlliUw => u64::from(low_word(x)) << amount64(imm),
        BitOp::Andn => x & !y,
        BitOp::Orn => x | !y,
        BitOp::Xnor => !(x ^ y),
        BitOp::Clz => u64::from(x.leading_zeros()),
        BitOp::Clzw => u64::from(low_word(x).leading_zeros()),
        BitOp::Ctz => u64::from(x.trailing_zeros()),
        BitOp::Ctzw => u64::from(low_word(x).trailing_zeros()),
        BitOp::Cpop => u64::from(x.count_ones()),
        BitOp::Cpopw => u64::from(low_word(x).count_ones()),
        BitOp::Max => if is_signed_below(x, y) { y } else { x },
        BitOp::Maxu => x.max(y),
        BitOp::Min => if is_signed_below(x, y) { x } else { y },
        BitOp::Minu => x.min(y),
        BitOp::SextB => i64::from(((x & 0xff) as u8).cast_signed()).cast_unsigned(),
        BitOp::SextH => i64::from(((x & 0xffff) as u16).cast_signed()).cast_unsigned(),
        BitOp::ZextH => x & 0xffff,
        BitOp::Rol => x.rotate_left(amount64(y)),
        BitOp::Rolw => extend_word(u64::from(low_word(x).rotate_left(amount32(y)))),
        BitOp::Ror => x.rotate_right(amount64(y)),
        BitOp::Rori => x.rotate_right(amount64(imm)),
        BitOp::Roriw => extend_word(u64::from(low_word(x).rotate_right(amount32(imm)))),
        BitOp::Rorw => extend_word(u64::from(low_word(x).rotate_right(amount32(y)))),
        BitOp::OrcB => orc_b(x),
        BitOp::Rev8 => x.swap_bytes(),
        BitOp::Bclr => x & !single_bit(y),
        BitOp::Bclri => x & !single_bit(imm),
        BitOp::Bext => x >> amount64(y) & 1,
        BitOp::Bexti => x >> amount64(imm) & 1,
        BitOp::Binv => x ^ single_bit(y),
        BitOp::Binvi => x ^ single_bit(imm),
        BitOp::Bset => x | single_bit(y),
        BitOp::Bseti => x | single_bit(imm),
    }
}

/// The number with one bit, whose index is the low six bits of n.
fn single_bit(n: u64) -> u64
    ensures { result ≡ 2 ^ (n % 64) }
{
    1 << amount64(n)
}

/// All ones where any bit of a byte is.
fn spread(b: u8) -> u8
    ensures { result ≡ spread b }
{
    if b == 0 { 0 } else { 255 }
}

/// Each byte spread.
fn orc_b(x: u64) -> u64
    ensures { result ≡ bit_result BitOp.OrcB x 0 0 }
{
    let [a, b, c, d, e, f, g, h] = x.to_le_bytes();
    u64::from_le_bytes([
        spread(a),
        spread(b),
        spread(c),
        spread(d),
        spread(e),
        spread(f),
        spread(g),
        spread(h),
    ])
}
