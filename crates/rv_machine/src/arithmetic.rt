//! Registers of 64 bits, and their low words of 32, as integers: "4.2 Integer Computational Instructions" of RV64I.

ghost use Rattle.std.specs.Prelude.{◌≡◌, ◌<◌, ◌%◌};
ghost use Rattle.rv_machine.specs.State.{low64};
ghost use Rattle.rv_machine.specs.Arithmetic.{signed_below, low_word, signed32, extend_word, high64};

/// Returns whether x is below y where both are read as signed integers.
pub fn is_signed_below(x: u64, y: u64) -> bool
    ensures { result ≡ signed_below x y }
{
    x.cast_signed() < y.cast_signed()
}

/// The low 32 bits.
pub fn low_word(x: u64) -> u32
    ensures { result ≡ low_word x }
{
    (x & 0xffff_ffff) as u32
}

/// The low 32 bits, read as a signed number.
pub fn signed_word(x: u64) -> i32
    ensures { result ≡ signed32 x }
{
    low_word(x).cast_signed()
}

/// A signed number of 32 bits in 64.
pub fn extend(z: i32) -> u64
    ensures { result ≡ low64 z }
{
    i64::from(z).cast_unsigned()
}

/// The low 32 bits, sign-extended to 64.
pub fn extend_word(x: u64) -> u64
    ensures { result ≡ extend_word x }
{
    extend(signed_word(x))
}

/// The upper 64 of 128 bits.
pub fn high64(z: i128) -> u64
    ensures { result ≡ high64 z }
{
    (z.cast_unsigned() >> 64) as u64
}

/// The shift amount of an operation of 64 bits: the low six bits.
pub fn amount64(n: u64) -> u32
    ensures value { result ≡ n % 64 }
    ensures below { result < 64 }
{
    (n % 64) as u32
}

/// The shift amount of an operation of 32 bits: the low five bits.
pub fn amount32(n: u64) -> u32
    ensures value { result ≡ n % 32 }
    ensures below { result < 32 }
{
    (n % 32) as u32
}
