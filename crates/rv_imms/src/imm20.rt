//! Signed immediates of twenty bits: those of the U-type layout, which count 4096s (the manual's chapter "RV32I Base
//! Integer Instruction Set", "Immediate Encoding Variants").

ghost use Rattle.std.specs.Prelude.{◌≡◌, ◌<◌, ◌^◌, ◌≤ℤ◌, pos, negsuc, Some, MatchOption};
ghost use Rattle.std.specs.Int.{cast_signed, w64};
ghost use Rattle.std.specs.Fmt.{decimal, signed_decimal};
ghost use Rattle.rv_imms.specs.Bits.{low_bits, IsSigned};

use std::fmt;

/// An immediate from -524288 to 524287.
#[derive(Clone, Copy, PartialEq, Eq)]
pub struct Imm20 {
    pub value: i32,
    ghost low: { negsuc 524287 ≤ℤ value },
    ghost high: { value ≤ℤ pos 524287 },
}

impl Imm20 {
    pub const ZERO: Imm20 = Imm20 { value: 0 };

    /// The immediate of the value that the 64 bits are in two's complement; none outside -524288 to 524287.
    pub fn maybe_from_u64(value: u64) -> Option<Imm20>
        ensures { MatchOption result (¬ (IsSigned 20 (cast_signed w64 value))) (λ imm. imm.value ≡ cast_signed w64 value) }
    {
        Imm20::maybe_from_i64(value.cast_signed())
    }

    /// The immediate of this value; none outside -524288 to 524287.
    pub fn maybe_from_i64(value: i64) -> Option<Imm20>
        ensures { MatchOption result (¬ (IsSigned 20 value)) (λ imm. imm.value ≡ value) }
    {
        if value >= -524288 && value <= 524287 {
            Some(Imm20 {
                value: value as i32,
            })
        } else {
            None
        }
    }

    /// The immediate of this value, which is from -524288 to 524287.
    pub fn from_i32(value: i32) -> Imm20
        requires low { negsuc 524287 ≤ℤ value }
        requires high { value ≤ℤ pos 524287 }
        ensures { result.value ≡ value }
    {
        Imm20 { value }
    }

    /// Its value.
    pub fn as_i32(&self) -> i32
        ensures { result ≡ self.now.value }
    {
        self.value
    }

    /// Its twenty bits in two's complement, as an instruction's field holds them.
    pub fn bits(&self) -> u32
        ensures value { result ≡ low_bits (2 ^ 20) self.now.value }
        ensures small { result < 2 ^ 20 }
    {
        self.value.cast_unsigned() & 0xf_ffff
    }
}

impl Default for Imm20 {
    ghost is_default = { λ imm. imm.value ≡ pos 0 };

    fn default() -> Imm20 {
        Imm20::ZERO
    }
}

/// The value, with a sign where it is negative.
impl fmt::Debug for Imm20 {
    ghost debug_output = { λ imm. Some (signed_decimal imm.value) };

    fn fmt<W: fmt::Write>(&self, f: &mut fmt::Formatter<W>) -> fmt::Result {
        let value = self.value;
        write!(f, "{value}")
    }
}

/// Its twenty bits as an unsigned number.
impl fmt::Display for Imm20 {
    ghost output = { λ imm. Some (decimal (low_bits (2 ^ 20) imm.value)) };

    fn fmt<W: fmt::Write>(&self, f: &mut fmt::Formatter<W>) -> fmt::Result {
        let bits = self.bits();
        write!(f, "{bits}")
    }
}

// The constant is the number of its name.
fn zero_holds() {
    prove!(Imm20::ZERO.value == 0);
}
