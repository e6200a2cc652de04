//! Symbols outside the code.

ghost use Rattle.std.specs.Prelude.{◌≡◌, ◌++◌, Some, codes};
ghost use Rattle.std.specs.Fmt.{decimal};

use std::fmt;

/// A symbol, by its number in the user's table.
#[derive(Clone, Copy, PartialEq, Eq, PartialOrd, Ord, Hash)]
pub struct ExternalName {
    pub number: u32,
}

impl ExternalName {
    pub fn from_u32(number: u32) -> ExternalName
        ensures { result.number ≡ number }
    {
        ExternalName { number }
    }

    pub fn as_u32(self) -> u32
        ensures { result ≡ self.number }
    {
        self.number
    }
}

impl fmt::Display for ExternalName {
    ghost output = { λ name. Some (codes "userextname" ++ decimal name.number) };

    fn fmt<W: fmt::Write>(&self, f: &mut fmt::Formatter<W>) -> fmt::Result {
        let number = self.number;
        write!(f, "userextname{number}")
    }
}

impl fmt::Debug for ExternalName {
    ghost debug_output = { λ name. Some (codes "User(userextname" ++ decimal name.number ++ codes ")") };

    fn fmt<W: fmt::Write>(&self, f: &mut fmt::Formatter<W>) -> fmt::Result {
        let number = self.number;
        write!(f, "User(userextname{number})")
    }
}
