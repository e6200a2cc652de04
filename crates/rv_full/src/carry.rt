//! "Zbc", Carry-less Multiplication, and "Zbkb", Bit Manipulation for Cryptography: what the operations compute.

ghost use Rattle.std.specs.Prelude.{◌≡◌, ◌<◌, ◌^◌};
ghost use Rattle.rv_machine.specs.Arithmetic.{extend_word};
ghost use Rattle.rv_full.specs.Carry.{partial, product, carry_result};

use rv_machine::CarryOp;

/// The low 32 bits, sign-extended to 64.
pub fn extend_word(x: u64) -> u64
    ensures { result ≡ extend_word x }
{
    i64::from(((x & 0xffff_ffff) as u32).cast_signed()).cast_unsigned()
}

/// x shifted by i, below 64, where bit i of y is 1.
fn partial(x: u64, y: u64, i: u32) -> u128
    requires { i < 64 }
    ensures { result ≡ partial x y i }
{
    if (y >> i) % 2 == 1 {
        u128::from(x) << i
    } else {
        0
    }
}

/// The carry-less product.
fn product(x: u64, y: u64) -> u128
    ensures { result ≡ product x y 64 }
{
    let mut sum: u128 = 0;
    for i in 0..64u32 {
        sum ^= partial(x, y, i);
    }
    sum
}

/// What an operation computes of rs1 and rs2.
pub fn carry_result(op: CarryOp, x: u64, y: u64) -> u64
    ensures { result ≡ carry_result op x y }
{
    match op {
        CarryOp::Clmul => (product(x, y) % (1 << 64)) as u64,
        CarryOp::Clmulh => (product(x, y) >> 64) as u64,
        CarryOp::Clmulr => (product(x, y) / (1 << 63) % (1 << 64)) as u64,
        CarryOp::Pack => (x & 0xffff_ffff) + (y & 0xffff_ffff) * (1 << 32),
        CarryOp::Packh => (x & 0xff) + (y & 0xff) * 256,
        CarryOp::Packw => extend_word((x & 0xffff) + (y & 0xffff) * 65536),
        CarryOp::Brev8 => x.reverse_bits().swap_bytes(),
    }
}
