//! Signed immediates of twelve bits: those of the I-type and S-type layouts (the manual's chapter "RV32I Base Integer
//! Instruction Set", "Immediate Encoding Variants").

ghost use Rattle.std.specs.Prelude.{◌≡◌, ◌<◌, ◌^◌, ◌≤ℤ◌, pos, negsuc, Some, MatchOption};
ghost use Rattle.std.specs.Int.{cast_signed, w64};
ghost use Rattle.rv_imms.specs.Bits.{low_bits, IsSigned, text_with_sign};

use std::fmt;

/// An immediate from -2048 to 2047.
#[derive(Clone, Copy, Debug, PartialEq, Eq)]
pub struct Imm12 {
    pub value: i16,
    ghost low: { negsuc 2047 ≤ℤ value },
    ghost high: { value ≤ℤ pos 2047 },
}

impl Imm12 {
    pub const ZERO: Imm12 = Imm12 { value: 0 };

    pub const ONE: Imm12 = Imm12 { value: 1 };

    /// The immediate of the value that the 64 bits are in two's complement; none outside -2048 to 2047.
    pub fn maybe_from_u64(value: u64) -> Option<Imm12>
        ensures { MatchOption result (¬ (IsSigned 12 (cast_signed w64 value))) (λ imm. imm.value ≡ cast_signed w64 value) }
    {
        Imm12::maybe_from_i64(value.cast_signed())
    }

    /// The immediate of this value; none outside -2048 to 2047.
    pub fn maybe_from_i64(value: i64) -> Option<Imm12>
        ensures { MatchOption result (¬ (IsSigned 12 value)) (λ imm. imm.value ≡ value) }
    {
        if value >= -2048 && value <= 2047 {
            Some(Imm12 {
                value: value as i16,
            })
        } else {
            None
        }
    }

    /// The immediate of this value, which is from -2048 to 2047.
    pub fn from_i16(value: i16) -> Imm12
        requires low { negsuc 2047 ≤ℤ value }
        requires high { value ≤ℤ pos 2047 }
        ensures { result.value ≡ value }
    {
        Imm12 { value }
    }

    /// Its value.
    pub fn as_i16(self) -> i16
        ensures { result ≡ self.value }
    {
        self.value
    }

    /// Its twelve bits in two's complement, as an instruction's field holds them.
    pub fn bits(&self) -> u32
        ensures value { result ≡ low_bits (2 ^ 12) self.now.value }
        ensures small { result < 2 ^ 12 }
    {
        i32::from(self.value).cast_unsigned() & 0xfff
    }
}

impl Default for Imm12 {
    ghost is_default = { λ imm. imm.value ≡ pos 0 };

    fn default() -> Imm12 {
        Imm12::ZERO
    }
}

impl From<Imm12> for i64 {
    ghost from_gives = { λ imm number. number ≡ imm.value };

    fn from(imm: Imm12) -> i64 {
        i64::from(imm.value)
    }
}

impl fmt::Display for Imm12 {
    ghost output = { λ imm. Some (text_with_sign imm.value) };

    fn fmt<W: fmt::Write>(&self, f: &mut fmt::Formatter<W>) -> fmt::Result {
        let value = self.value;
        if value < 0 {
            write!(f, "{value}")
        } else {
            write!(f, "+{value}")
        }
    }
}

// Each constant is the number of its name.
fn constants_hold() {
    prove!(Imm12::ZERO.value == 0);
    prove!(Imm12::ONE.value == 1);
}
