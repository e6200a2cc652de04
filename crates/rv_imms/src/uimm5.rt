//! The unsigned immediate of `vsetivli` and of CSR instructions (the manual's chapters "V" and "Zicsr").

ghost use Rattle.std.specs.Prelude.{◌≡◌, ◌<◌, ◌≤◌, Some, MatchOption};
ghost use Rattle.std.specs.Fmt.{decimal};

use std::fmt;

/// An immediate from 0 to 31: the number of elements that `vsetivli` holds, or the number that a CSR instruction writes, sets or
/// clears.
#[derive(Clone, Copy, Debug, PartialEq)]
pub struct UImm5 {
    pub value: u8,
    ghost small: { value < 32 },
}

impl UImm5 {
    /// The immediate of this value; none from 32 on.
    pub fn maybe_from_u8(value: u8) -> Option<UImm5>
        ensures { MatchOption result (32 ≤ value) (λ imm. imm.value ≡ value) }
    {
        if value < 32 {
            Some(UImm5 { value })
        } else {
            None
        }
    }

    /// Its five bits: its value, below 32.
    pub fn bits(&self) -> u32
        ensures value { result ≡ self.now.value }
        ensures small { result < 32 }
    {
        u32::from(self.value)
    }
}

impl fmt::Display for UImm5 {
    ghost output = { λ imm. Some (decimal imm.value) };

    fn fmt<W: fmt::Write>(&self, f: &mut fmt::Formatter<W>) -> fmt::Result {
        let value = self.value;
        write!(f, "{value}")
    }
}
