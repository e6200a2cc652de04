//! Unsigned immediates of compressed loads and stores (the manual's chapters "C" and "Zcb"), which count what the access moves.

ghost use Rattle.std.specs.Prelude.{◌≡◌, ◌<◌, ◌≤◌, Some, MatchOption};
ghost use Rattle.std.specs.Fmt.{decimal};

use std::fmt;

/// An immediate of two bits, from 0 to 3: of loads and stores of bytes and halfwords.
#[derive(Clone, Copy, Debug, PartialEq)]
pub struct Uimm2 {
    pub value: u8,
    ghost small: { value < 4 },
}

impl Uimm2 {
    /// The immediate of this value; none from 4 on.
    pub fn maybe_from_u8(value: u8) -> Option<Uimm2>
        ensures { MatchOption result (4 ≤ value) (λ imm. imm.value ≡ value) }
    {
        if value < 4 {
            Some(Uimm2 { value })
        } else {
            None
        }
    }

    /// Its bits: its value, below 4.
    pub fn bits(&self) -> u8
        ensures value { result ≡ self.now.value }
        ensures small { result < 4 }
    {
        self.value
    }
}

impl fmt::Display for Uimm2 {
    ghost output = { λ imm. Some (decimal imm.value) };

    fn fmt<W: fmt::Write>(&self, f: &mut fmt::Formatter<W>) -> fmt::Result {
        let value = self.value;
        write!(f, "{value}")
    }
}

/// An immediate of five bits, from 0 to 31: of those past a register from x8 to x15.
#[derive(Clone, Copy, Debug, PartialEq)]
pub struct Uimm5 {
    pub value: u8,
    ghost small: { value < 32 },
}

impl Uimm5 {
    /// The immediate of this value; none from 32 on.
    pub fn maybe_from_u8(value: u8) -> Option<Uimm5>
        ensures { MatchOption result (32 ≤ value) (λ imm. imm.value ≡ value) }
    {
        if value < 32 {
            Some(Uimm5 { value })
        } else {
            None
        }
    }

    /// Its bits: its value, below 32.
    pub fn bits(&self) -> u8
        ensures value { result ≡ self.now.value }
        ensures small { result < 32 }
    {
        self.value
    }
}

impl fmt::Display for Uimm5 {
    ghost output = { λ imm. Some (decimal imm.value) };

    fn fmt<W: fmt::Write>(&self, f: &mut fmt::Formatter<W>) -> fmt::Result {
        let value = self.value;
        write!(f, "{value}")
    }
}

/// An immediate of six bits, from 0 to 63: of those past the stack pointer.
#[derive(Clone, Copy, Debug, PartialEq)]
pub struct Uimm6 {
    pub value: u8,
    ghost small: { value < 64 },
}

impl Uimm6 {
    /// The immediate of this value; none from 64 on.
    pub fn maybe_from_u8(value: u8) -> Option<Uimm6>
        ensures { MatchOption result (64 ≤ value) (λ imm. imm.value ≡ value) }
    {
        if value < 64 {
            Some(Uimm6 { value })
        } else {
            None
        }
    }

    /// Its bits: its value, below 64.
    pub fn bits(&self) -> u8
        ensures value { result ≡ self.now.value }
        ensures small { result < 64 }
    {
        self.value
    }
}

impl fmt::Display for Uimm6 {
    ghost output = { λ imm. Some (decimal imm.value) };

    fn fmt<W: fmt::Write>(&self, f: &mut fmt::Formatter<W>) -> fmt::Result {
        let value = self.value;
        write!(f, "{value}")
    }
}
