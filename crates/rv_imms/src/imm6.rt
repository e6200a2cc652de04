//! Signed immediates of six bits: those of compressed instructions (the manual's chapter "C", "Integer Computational
//! Instructions").

ghost use Rattle.std.specs.Prelude.{◌≡◌, ◌<◌, ◌^◌, ◌≤ℤ◌, pos, negsuc, Some, MatchOption};
ghost use Rattle.std.specs.Fmt.{signed_decimal};
ghost use Rattle.rv_imms.specs.Bits.{low_bits, IsSigned};

use crate::imm12::Imm12;
use std::fmt;

/// An immediate from -32 to 31.
#[derive(Clone, Copy, Debug, PartialEq)]
pub struct Imm6 {
    pub value: i8,
    ghost low: { negsuc 31 ≤ℤ value },
    ghost high: { value ≤ℤ pos 31 },
}

impl Imm6 {
    /// The immediate of this value; none outside -32 to 31.
    pub fn maybe_from_i16(value: i16) -> Option<Imm6>
        ensures { MatchOption result (¬ (IsSigned 6 value)) (λ imm. imm.value ≡ value) }
    {
        Imm6::maybe_from_i32(i32::from(value))
    }

    /// The immediate of this value; none outside -32 to 31.
    pub fn maybe_from_i32(value: i32) -> Option<Imm6>
        ensures { MatchOption result (¬ (IsSigned 6 value)) (λ imm. imm.value ≡ value) }
    {
        if value >= -32 && value <= 31 {
            Some(Imm6 { value: value as i8 })
        } else {
            None
        }
    }

    /// The immediate of this value; none outside -32 to 31.
    pub fn maybe_from_imm12(value: Imm12) -> Option<Imm6>
        ensures { MatchOption result (¬ (IsSigned 6 value.value)) (λ imm. imm.value ≡ value.value) }
    {
        Imm6::maybe_from_i16(value.as_i16())
    }

    /// Its six bits in two's complement, as an instruction's field holds them.
    pub fn bits(&self) -> u8
        ensures value { result ≡ low_bits (2 ^ 6) self.now.value }
        ensures small { result < 2 ^ 6 }
    {
        self.value.cast_unsigned() & 0x3f
    }
}

impl fmt::Display for Imm6 {
    ghost output = { λ imm. Some (signed_decimal imm.value) };

    fn fmt<W: fmt::Write>(&self, f: &mut fmt::Formatter<W>) -> fmt::Result {
        let value = self.value;
        write!(f, "{value}")
    }
}
