//! The types of values.

ghost use Rattle.std.specs.Prelude.{◌≡◌, IsTrue};
ghost use Rattle.rv_base.specs.LaneCount.{is_lane_count};

use std::fmt;

/// An integer, a floating-point number, or a vector of them, by its width in bits.
#[derive(Clone, Copy, Debug, PartialEq, Eq)]
pub enum IrType {
    I8,
    I16,
    I32,
    I64,
    I128,
    F16,
    F32,
    F64,
    F128,
    Vector(VectorType),
}

/// `I64`, the type of a whole integer register.
impl Default for IrType {
    ghost use Rattle.std.specs.Prelude.{◌≡◌};
    ghost use Rattle.rv_base.specs.declared.ir_type.IrType.TheVariants.{I64};

    ghost is_default = { λ type. type ≡ I64 };

    fn default() -> IrType {
        IrType::I64
    }
}

/// The types that the lanes of a vector may have.
#[derive(Clone, Copy, Debug, PartialEq, Eq)]
pub enum LaneType {
    I8,
    I16,
    I32,
    I64,
    F16,
    F32,
    F64,
}

/// A vector: the type of its lanes and how many there are, a power of two from 2 to 256.
#[derive(Clone, Copy, Debug, PartialEq, Eq)]
pub struct VectorType {
    pub lane: LaneType,
    pub lanes: u32,
    ghost counted: { IsTrue (is_lane_count lanes) },
}

impl LaneType {
    ghost use Rattle.std.specs.Prelude.{◌≡◌};
    ghost use Rattle.rv_base.specs.IrType.{bits_of_lane, name_of_lane};

    fn bits(self) -> u32
        ensures { result ≡ bits_of_lane self }
    {
        match self {
            LaneType::I8 => 8,
            LaneType::I16 | LaneType::F16 => 16,
            LaneType::I32 | LaneType::F32 => 32,
            LaneType::I64 | LaneType::F64 => 64,
        }
    }

    fn name(self) -> &'static str
        ensures { result.now ≡ name_of_lane self }
    {
        match self {
            LaneType::I8 => "i8",
            LaneType::I16 => "i16",
            LaneType::I32 => "i32",
            LaneType::I64 => "i64",
            LaneType::F16 => "f16",
            LaneType::F32 => "f32",
            LaneType::F64 => "f64",
        }
    }
}

impl IrType {
    ghost use Rattle.std.specs.Prelude.{◌≡◌, ◌/◌, ◌↔◌, IsTrue, IsSome, IfSome};
    ghost use Rattle.rv_base.specs.LaneCount.{is_lane_count};
    ghost use Rattle.rv_base.specs.IrType.{is_lane, IsVectorOf, bits_of, lane_bits_of, lane_count_of, is_scalar_int, is_vector_type};

    /// The vector of so many lanes of a type. None for a lane of 128 bits or a vector, and where the lanes are no power
    /// of two from 2 to 256.
    pub fn vector(lane: IrType, lanes: u32) -> Option<IrType>
        ensures some { IsSome result ↔ (IsTrue (is_lane lane) × IsTrue (is_lane_count lanes)) }
        ensures is { IfSome result (IsVectorOf lane lanes) }
    {
        let lane = match lane {
            IrType::I8 => LaneType::I8,
            IrType::I16 => LaneType::I16,
            IrType::I32 => LaneType::I32,
            IrType::I64 => LaneType::I64,
            IrType::F16 => LaneType::F16,
            IrType::F32 => LaneType::F32,
            IrType::F64 => LaneType::F64,
            IrType::I128 | IrType::F128 | IrType::Vector(_) => return None,
        };
        match lanes {
            2 | 4 | 8 | 16 | 32 | 64 | 128 | 256 => Some(IrType::Vector(VectorType {
                lane,
                lanes,
            })),
            _ => None,
        }
    }

    /// Its width in bits.
    pub fn bits(self) -> u32
        ensures { result ≡ bits_of self }
    {
        self.lane_bits() * self.lane_count()
    }

    /// Its width in bytes.
    pub fn bytes(self) -> u32
        ensures { result ≡ bits_of self / 8 }
    {
        self.bits() / 8
    }

    /// The width of a lane in bits; of a scalar, its own.
    pub fn lane_bits(self) -> u32
        ensures { result ≡ lane_bits_of self }
    {
        match self {
            IrType::I8 => 8,
            IrType::I16 | IrType::F16 => 16,
            IrType::I32 | IrType::F32 => 32,
            IrType::I64 | IrType::F64 => 64,
            IrType::I128 | IrType::F128 => 128,
            IrType::Vector(vector) => vector.lane.bits(),
        }
    }

    /// How many lanes a vector has; 1 for a scalar.
    pub fn lane_count(self) -> u32
        ensures { result ≡ lane_count_of self }
    {
        match self {
            IrType::I8
            | IrType::I16
            | IrType::I32
            | IrType::I64
            | IrType::I128
            | IrType::F16
            | IrType::F32
            | IrType::F64
            | IrType::F128 => 1,
            IrType::Vector(vector) => vector.lanes,
        }
    }

    /// Returns whether it is a scalar integer.
    pub fn is_int(self) -> bool
        ensures { result ≡ is_scalar_int self }
    {
        match self {
            IrType::I8 | IrType::I16 | IrType::I32 | IrType::I64 | IrType::I128 => true,
            IrType::F16 | IrType::F32 | IrType::F64 | IrType::F128 | IrType::Vector(_) => false,
        }
    }

    /// Returns whether it is a vector.
    pub fn is_vector(self) -> bool
        ensures { result ≡ is_vector_type self }
    {
        match self {
            IrType::Vector(_) => true,
            _ => false,
        }
    }
}

impl fmt::Display for IrType {
    ghost use Rattle.std.specs.Prelude.{Some};
    ghost use Rattle.rv_base.specs.IrType.{name_of};

    ghost output = { λ type. Some (name_of type) };

    fn fmt<W: fmt::Write>(&self, f: &mut fmt::Formatter<W>) -> fmt::Result {
        match self {
            IrType::I8 => f.write_str("i8"),
            IrType::I16 => f.write_str("i16"),
            IrType::I32 => f.write_str("i32"),
            IrType::I64 => f.write_str("i64"),
            IrType::I128 => f.write_str("i128"),
            IrType::F16 => f.write_str("f16"),
            IrType::F32 => f.write_str("f32"),
            IrType::F64 => f.write_str("f64"),
            IrType::F128 => f.write_str("f128"),
            IrType::Vector(vector) => {
                let lane = vector.lane.name();
                let lanes = vector.lanes;
                write!(f, "{lane}x{lanes}")
            }
        }
    }
}
