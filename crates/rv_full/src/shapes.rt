//! Which registers the operations of the floating-point and vector units read and write.

ghost use Rattle.std.specs.Prelude.{◌≡◌};
ghost use Rattle.rv_full.specs.Floats.{float_shape};
ghost use Rattle.rv_full.specs.Vectors.{vector_shape};

use rv_machine::FloatOp;

/// What a floating-point operation reads: a constant, an integer register, or so many floating-point registers.
#[derive(Clone, Copy, Debug, PartialEq, Eq)]
pub enum Sources {
    Constant,
    Integer,
    One,
    Two,
    Three,
}

/// The file of the register that an operation writes.
#[derive(Clone, Copy, Debug, PartialEq, Eq)]
pub enum Target {
    Integer,
    Float,
}

/// How a floating-point operation acts.
#[derive(Clone, Copy, Debug, PartialEq, Eq)]
pub enum FloatShape {
    /// It takes an answer.
    Answered(Sources, Target),
    /// It moves a floating-point register to an integer one.
    ToInteger,
    /// It moves an integer register to a floating-point one.
    ToFloat,
    /// It takes an answer, but for doublewords of one source, which it moves.
    Sign,
}

/// How vector arithmetic acts.
#[derive(Clone, Copy, Debug, PartialEq, Eq)]
pub enum VectorShape {
    /// It takes vector registers.
    Arithmetic,
    /// It takes a number for an integer register.
    ToInteger,
    /// It takes a number for a floating-point register.
    ToFloat,
    /// It moves whole registers.
    Move,
}

pub fn float_shape(op: FloatOp) -> FloatShape
    ensures { result ≡ float_shape op }
{
    match op {
        FloatOp::Fmadd | FloatOp::Fmsub | FloatOp::Fnmsub | FloatOp::Fnmadd => FloatShape::Answered(
            Sources::Three,
            Target::Float,
        ),
        FloatOp::Fadd
        | FloatOp::Fsub
        | FloatOp::Fmul
        | FloatOp::Fdiv
        | FloatOp::Fsgnjn
        | FloatOp::Fsgnjx
        | FloatOp::Fmin
        | FloatOp::Fmax
        | FloatOp::Fminm
        | FloatOp::Fmaxm => FloatShape::Answered(Sources::Two, Target::Float),
        FloatOp::Fsqrt
        | FloatOp::FcvtFromH
        | FloatOp::FcvtFromS
        | FloatOp::FcvtFromD
        | FloatOp::Fround => FloatShape::Answered(Sources::One, Target::Float),
        FloatOp::FcvtToW
        | FloatOp::FcvtToWu
        | FloatOp::FcvtToL
        | FloatOp::FcvtToLu
        | FloatOp::Fclass => FloatShape::Answered(Sources::One, Target::Integer),
        FloatOp::Feq | FloatOp::Flt | FloatOp::Fle => FloatShape::Answered(
            Sources::Two,
            Target::Integer,
        ),
        FloatOp::FcvtFromW | FloatOp::FcvtFromWu | FloatOp::FcvtFromL | FloatOp::FcvtFromLu =>
            FloatShape::Answered(Sources::Integer, Target::Float),
        FloatOp::Fli => FloatShape::Answered(Sources::Constant, Target::Float),
        FloatOp::Fsgnj => FloatShape::Sign,
        FloatOp::FmvToX => FloatShape::ToInteger,
        FloatOp::FmvFromX => FloatShape::ToFloat,
    }
}

/// By the fields at 31:26 and 14:12.
pub fn vector_shape(funct6: u8, funct3: u8) -> VectorShape
    ensures { result ≡ vector_shape funct6 funct3 }
{
    match (funct6, funct3) {
        (0x10, 2) => VectorShape::ToInteger,
        (0x10, 1) => VectorShape::ToFloat,
        (0x27, 3) => VectorShape::Move,
        _ => VectorShape::Arithmetic,
    }
}
