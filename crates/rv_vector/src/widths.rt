//! How wide the elements of vector registers are, and how many registers make a group (the manual's chapter "V", "Vector
//! Selected Element Width" and "Vector Register Grouping").

use rv_base::IrType;
use std::fmt;

/// The selected element width.
#[derive(Clone, Copy, Debug, PartialEq, Eq)]
pub enum VecElementWidth {
    E8,
    E16,
    E32,
    E64,
}

impl VecElementWidth {
    ghost use Rattle.std.specs.Prelude.{◌≡◌, ◌<◌, ◌^◌, Some, IsSome};
    ghost use Rattle.rv_base.specs.IrType.{lane_bits_of};
    ghost use Rattle.rv_vector.specs.Widths.{bits_of, width_of, sew_of};

    /// The width of a type's lanes, or of the type itself where it is a scalar: 8, 16, 32 or 64 bits.
    pub fn from_type(ty: IrType) -> VecElementWidth
        requires { IsSome (width_of (lane_bits_of ty)) }
        ensures { width_of (lane_bits_of ty) ≡ Some result }
    {
        VecElementWidth::from_bits(ty.lane_bits())
    }

    /// The width of 8, 16, 32 or 64 bits.
    pub fn from_bits(bits: u32) -> VecElementWidth
        requires { IsSome (width_of bits) }
        ensures row { width_of bits ≡ Some result }
        ensures bits { bits_of result ≡ bits }
    {
        match bits {
            8 => VecElementWidth::E8,
            16 => VecElementWidth::E16,
            32 => VecElementWidth::E32,
            _ => VecElementWidth::E64,
        }
    }

    /// How many bits an element has. `from_bits` gives the width back.
    pub fn bits(&self) -> u32
        ensures value { result ≡ bits_of self.now }
        ensures back { width_of result ≡ Some self.now }
    {
        match self {
            VecElementWidth::E8 => 8,
            VecElementWidth::E16 => 16,
            VecElementWidth::E32 => 32,
            VecElementWidth::E64 => 64,
        }
    }

    /// Bits 5 to 3 of vtype, `vsew`.
    pub fn encode(&self) -> u32
        ensures value { result ≡ sew_of self.now }
        ensures width { result < 2 ^ 3 }
    {
        match self {
            VecElementWidth::E8 => 0b000,
            VecElementWidth::E16 => 0b001,
            VecElementWidth::E32 => 0b010,
            VecElementWidth::E64 => 0b011,
        }
    }
}

/// The assembler's name: `e8`, `e16`, `e32` or `e64`.
impl fmt::Display for VecElementWidth {
    ghost use Rattle.std.specs.Prelude.{Some};
    ghost use Rattle.rv_vector.specs.Widths.{width_name};

    ghost output = { λ width. Some (width_name width) };

    fn fmt<W: fmt::Write>(&self, f: &mut fmt::Formatter<W>) -> fmt::Result {
        match self {
            VecElementWidth::E8 => f.write_str("e8"),
            VecElementWidth::E16 => f.write_str("e16"),
            VecElementWidth::E32 => f.write_str("e32"),
            VecElementWidth::E64 => f.write_str("e64"),
        }
    }
}

/// The vector register group multiplier: 1/8, 1/4, 1/2, 1, 2, 4 or 8 registers.
#[derive(Clone, Copy, Debug, PartialEq, Eq)]
pub enum VecLmul {
    LmulF8,
    LmulF4,
    LmulF2,
    Lmul1,
    Lmul2,
    Lmul4,
    Lmul8,
}

impl VecLmul {
    ghost use Rattle.std.specs.Prelude.{◌≡◌, ◌<◌, ◌^◌};
    ghost use Rattle.rv_vector.specs.Widths.{lmul_of};

    /// Bits 2 to 0 of vtype, `vlmul`.
    pub fn encode(&self) -> u32
        ensures value { result ≡ lmul_of self.now }
        ensures width { result < 2 ^ 3 }
    {
        match self {
            VecLmul::LmulF8 => 0b101,
            VecLmul::LmulF4 => 0b110,
            VecLmul::LmulF2 => 0b111,
            VecLmul::Lmul1 => 0b000,
            VecLmul::Lmul2 => 0b001,
            VecLmul::Lmul4 => 0b010,
            VecLmul::Lmul8 => 0b011,
        }
    }
}

/// The assembler's name: `m` and the multiplier, or `mf` and the divisor.
impl fmt::Display for VecLmul {
    ghost use Rattle.std.specs.Prelude.{Some};
    ghost use Rattle.rv_vector.specs.Widths.{lmul_name};

    ghost output = { λ lmul. Some (lmul_name lmul) };

    fn fmt<W: fmt::Write>(&self, f: &mut fmt::Formatter<W>) -> fmt::Result {
        match self {
            VecLmul::LmulF8 => f.write_str("mf8"),
            VecLmul::LmulF4 => f.write_str("mf4"),
            VecLmul::LmulF2 => f.write_str("mf2"),
            VecLmul::Lmul1 => f.write_str("m1"),
            VecLmul::Lmul2 => f.write_str("m2"),
            VecLmul::Lmul4 => f.write_str("m4"),
            VecLmul::Lmul8 => f.write_str("m8"),
        }
    }
}
