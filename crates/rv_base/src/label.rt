//! Labels of a listing and of a buffer.

ghost use Rattle.std.specs.Prelude.{◌≡◌, ◌++◌, Some, codes};
ghost use Rattle.std.specs.Fmt.{decimal};

use std::fmt;

/// A label, by its number. A listing's labels are below 2^30: those from there on are the ones that a buffer allocates.
#[derive(Clone, Copy, PartialEq, Eq, PartialOrd, Ord, Hash)]
pub struct MachLabel {
    pub number: u32,
}

impl MachLabel {
    pub fn from_u32(number: u32) -> MachLabel
        ensures { result.number ≡ number }
    {
        MachLabel { number }
    }

    pub fn as_u32(self) -> u32
        ensures { result ≡ self.number }
    {
        self.number
    }
}

impl fmt::Display for MachLabel {
    ghost output = { λ label. Some (codes "label" ++ decimal label.number) };

    fn fmt<W: fmt::Write>(&self, f: &mut fmt::Formatter<W>) -> fmt::Result {
        let number = self.number;
        write!(f, "label{number}")
    }
}

impl fmt::Debug for MachLabel {
    ghost debug_output = { λ label. Some (codes "MachLabel(" ++ decimal label.number ++ codes ")") };

    fn fmt<W: fmt::Write>(&self, f: &mut fmt::Formatter<W>) -> fmt::Result {
        let number = self.number;
        write!(f, "MachLabel({number})")
    }
}
