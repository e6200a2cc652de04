//! What becomes of the elements that a vector instruction doesn't compute (the manual's chapter "V", "Vector Tail Agnostic and
//! Vector Mask Agnostic").

use std::fmt;

/// Whether the elements past the vector length keep their values (undisturbed), or may also become all ones (agnostic).
#[derive(Clone, Copy, Debug, PartialEq, Eq)]
pub enum VecTailMode {
    Agnostic,
    Undisturbed,
}

impl VecTailMode {
    ghost use Rattle.std.specs.Prelude.{◌≡◌, ◌<◌};
    ghost use Rattle.rv_vector.specs.Modes.{tail_of};

    /// Bit 6 of vtype, `vta`.
    pub fn encode(&self) -> u32
        ensures value { result ≡ tail_of self.now }
        ensures width { result < 2 }
    {
        match self {
            VecTailMode::Agnostic => 1,
            VecTailMode::Undisturbed => 0,
        }
    }
}

/// The assembler's name: `ta` or `tu`.
impl fmt::Display for VecTailMode {
    ghost use Rattle.std.specs.Prelude.{Some};
    ghost use Rattle.rv_vector.specs.Modes.{tail_name};

    ghost output = { λ mode. Some (tail_name mode) };

    fn fmt<W: fmt::Write>(&self, f: &mut fmt::Formatter<W>) -> fmt::Result {
        match self {
            VecTailMode::Agnostic => f.write_str("ta"),
            VecTailMode::Undisturbed => f.write_str("tu"),
        }
    }
}

/// Whether the elements that the mask turns off keep their values (undisturbed), or may also become all ones (agnostic).
#[derive(Clone, Copy, Debug, PartialEq, Eq)]
pub enum VecMaskMode {
    Agnostic,
    Undisturbed,
}

impl VecMaskMode {
    ghost use Rattle.std.specs.Prelude.{◌≡◌, ◌<◌};
    ghost use Rattle.rv_vector.specs.Modes.{mask_of};

    /// Bit 7 of vtype, `vma`.
    pub fn encode(&self) -> u32
        ensures value { result ≡ mask_of self.now }
        ensures width { result < 2 }
    {
        match self {
            VecMaskMode::Agnostic => 1,
            VecMaskMode::Undisturbed => 0,
        }
    }
}

/// The assembler's name: `ma` or `mu`.
impl fmt::Display for VecMaskMode {
    ghost use Rattle.std.specs.Prelude.{Some};
    ghost use Rattle.rv_vector.specs.Modes.{mask_name};

    ghost output = { λ mode. Some (mask_name mode) };

    fn fmt<W: fmt::Write>(&self, f: &mut fmt::Formatter<W>) -> fmt::Result {
        match self {
            VecMaskMode::Agnostic => f.write_str("ma"),
            VecMaskMode::Undisturbed => f.write_str("mu"),
        }
    }
}
