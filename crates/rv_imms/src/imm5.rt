//! Signed immediates of five bits: those of vector instructions (the manual's chapter "V", "Vector Instruction Formats").

ghost use Rattle.std.specs.Prelude.{◌≡◌, ◌<◌, ◌^◌, ◌≤ℤ◌, pos, negsuc, Some, MatchOption};
ghost use Rattle.std.specs.Fmt.{signed_decimal};
ghost use Rattle.rv_imms.specs.Bits.{low_bits, IsSigned};

use std::fmt;

/// An immediate from -16 to 15.
#[derive(Clone, Copy, Debug, PartialEq)]
pub struct Imm5 {
    pub value: i8,
    ghost low: { negsuc 15 ≤ℤ value },
    ghost high: { value ≤ℤ pos 15 },
}

impl Imm5 {
    /// The immediate of this value; none outside -16 to 15.
    pub fn maybe_from_i8(value: i8) -> Option<Imm5>
        ensures { MatchOption result (¬ (IsSigned 5 value)) (λ imm. imm.value ≡ value) }
    {
        if value >= -16 && value <= 15 {
            Some(Imm5 { value })
        } else {
            None
        }
    }

    /// The immediate of these five bits, which are below 32 as an unsigned number.
    pub fn from_bits(value: u8) -> Imm5
        requires { value < 32 }
        ensures { low_bits (2 ^ 5) result.value ≡ value }
    {
        let value = value as i8;
        Imm5 {
            value: if value < 16 { value } else { value - 32 },
        }
    }

    /// Its five bits in two's complement, as an instruction's field holds them.
    pub fn bits(&self) -> u8
        ensures value { result ≡ low_bits (2 ^ 5) self.now.value }
        ensures small { result < 2 ^ 5 }
    {
        self.value.cast_unsigned() & 0x1f
    }
}

impl fmt::Display for Imm5 {
    ghost output = { λ imm. Some (signed_decimal imm.value) };

    fn fmt<W: fmt::Write>(&self, f: &mut fmt::Formatter<W>) -> fmt::Result {
        let value = self.value;
        write!(f, "{value}")
    }
}
