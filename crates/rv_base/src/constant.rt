//! Constants that are placed with the code.

ghost use Rattle.std.specs.Prelude.{◌≡◌};

use crate::list::List;

/// What a constant's offset is a multiple of, in bytes.
#[derive(Clone, Copy, Debug, PartialEq, Eq)]
pub enum ConstAlign {
    A1,
    A2,
    A4,
    A8,
    A16,
}

/// A constant's bytes, and the alignment of their offset.
#[derive(Drop)]
pub struct Constant {
    pub bytes: List<u8>,
    pub align: ConstAlign,
}

/// A constant of the code, by its index in the job's list of constants.
#[derive(Clone, Copy, Debug, PartialEq, Eq, PartialOrd, Ord, Hash)]
pub struct VCodeConstant {
    pub number: u32,
}

impl VCodeConstant {
    pub fn from_u32(number: u32) -> VCodeConstant
        ensures { result.number ≡ number }
    {
        VCodeConstant { number }
    }

    pub fn as_u32(self) -> u32
        ensures { result ≡ self.number }
    {
        self.number
    }
}
