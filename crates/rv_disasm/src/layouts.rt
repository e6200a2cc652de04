//! The fields that the rows of the manual's listings leave free, in the order in which a text has them.

ghost use Rattle.std.specs.Prelude.{◌≡◌};
ghost use Rattle.rv_disasm.specs.Layouts.{fields_of};

/// How the number of a register field is written.
#[derive(Clone, Copy, Debug, PartialEq, Eq)]
pub enum File {
    /// As an integer register.
    X,
    /// As a floating-point register.
    F,
    /// As a vector register.
    V,
    /// As a number.
    Number,
}

/// A field of a word.
#[derive(Clone, Copy, Debug, PartialEq, Eq)]
pub enum Field {
    Rd(File),
    Rs1(File),
    Rs2(File),
    Rs3(File),
    /// The immediate, as the operation uses it.
    Imm,
    /// The rounding field.
    Rounding,
    /// The bits aq and rl.
    Ordering,
    /// The mask bit, which is 1 where there is no mask.
    Mask,
    /// The predecessor set of a fence.
    Pred,
    /// The successor set of a fence.
    Succ,
    Funct6,
    Funct3,
}

/// Which fields a row leaves free.
#[derive(Clone, Copy, Debug, PartialEq, Eq)]
pub enum Layout {
    /// rd and an immediate.
    Upper,
    /// rd, rs1 and an immediate.
    Immediate,
    /// rs1, rs2 and an immediate, which may be a distance.
    Stored,
    /// The two sets of a fence.
    Sets,
    /// No field.
    None,
    /// rd, rs1 and rs2.
    Registers,
    /// rd and rs1.
    Source,
    /// rd, and a number of five bits.
    CsrNumber,
    /// `lr`: rd, rs1 and the ordering bits.
    Reserved,
    /// rd, rs1, rs2 and the ordering bits.
    Atomic,
    /// A load to a floating-point register.
    FloatLoad,
    /// A store of a floating-point register.
    FloatStore,
    /// Of floating-point registers: rd, rs1, rs2, rs3 and the rounding field.
    Fused,
    /// Of floating-point registers: rd, rs1, rs2 and the rounding field.
    Rounded,
    /// Of floating-point registers: rd, rs1 and the rounding field.
    RoundedSource,
    /// Of floating-point registers: rd, rs1 and rs2.
    Floats,
    /// From a floating-point register to an integer register, with the rounding field.
    ToInteger,
    /// From an integer register to a floating-point register, with the rounding field.
    FromInteger,
    /// From a floating-point register to an integer register.
    BitsOfFloat,
    /// From an integer register to a floating-point register.
    FloatOfBits,
    /// An integer register, and two floating-point registers.
    Compared,
    /// `fli`: a floating-point register, and the constant's number.
    Constant,
    /// `vsetivli`: rd, the number of elements, and the bits of vtype.
    Length,
    /// A load or a store of a vector: the vector register, rs1 and the mask bit.
    VectorMemory,
    /// Vector arithmetic: funct6, funct3, vd, vs2, vs1 and the mask bit, all as numbers.
    Vector,
    /// An immediate alone.
    Distance,
    /// rd, which is rs1 too, and rs2.
    Two,
    /// rd, which is rs1 too.
    One,
    /// rs1 alone.
    Target,
    /// A floating-point register and an immediate.
    FloatUpper,
    /// rs2 and an immediate.
    StackStore,
    /// A floating-point register as rs2, and an immediate.
    FloatStackStore,
}

impl Layout {
    /// The free fields, in the order in which a text has them.
    pub fn fields(self) -> &'static [Field]
        ensures { result.now ≡ fields_of self }
    {
        match self {
            Layout::Upper => &[Field::Rd(File::X), Field::Imm],
            Layout::Immediate => &[Field::Rd(File::X), Field::Rs1(File::X), Field::Imm],
            Layout::Stored => &[Field::Rs1(File::X), Field::Rs2(File::X), Field::Imm],
            Layout::Sets => &[Field::Pred, Field::Succ],
            Layout::None => &[],
            Layout::Registers => &[Field::Rd(File::X), Field::Rs1(File::X), Field::Rs2(File::X)],
            Layout::Source => &[Field::Rd(File::X), Field::Rs1(File::X)],
            Layout::CsrNumber => &[Field::Rd(File::X), Field::Rs1(File::Number)],
            Layout::Reserved => &[Field::Rd(File::X), Field::Rs1(File::X), Field::Ordering],
            Layout::Atomic => &[
                Field::Rd(File::X),
                Field::Rs1(File::X),
                Field::Rs2(File::X),
                Field::Ordering,
            ],
            Layout::FloatLoad => &[Field::Rd(File::F), Field::Rs1(File::X), Field::Imm],
            Layout::FloatStore => &[Field::Rs1(File::X), Field::Rs2(File::F), Field::Imm],
            Layout::Fused => &[
                Field::Rd(File::F),
                Field::Rs1(File::F),
                Field::Rs2(File::F),
                Field::Rs3(File::F),
                Field::Rounding,
            ],
            Layout::Rounded => &[
                Field::Rd(File::F),
                Field::Rs1(File::F),
                Field::Rs2(File::F),
                Field::Rounding,
            ],
            Layout::RoundedSource => &[Field::Rd(File::F), Field::Rs1(File::F), Field::Rounding],
            Layout::Floats => &[Field::Rd(File::F), Field::Rs1(File::F), Field::Rs2(File::F)],
            Layout::ToInteger => &[Field::Rd(File::X), Field::Rs1(File::F), Field::Rounding],
            Layout::FromInteger => &[Field::Rd(File::F), Field::Rs1(File::X), Field::Rounding],
            Layout::BitsOfFloat => &[Field::Rd(File::X), Field::Rs1(File::F)],
            Layout::FloatOfBits => &[Field::Rd(File::F), Field::Rs1(File::X)],
            Layout::Compared => &[Field::Rd(File::X), Field::Rs1(File::F), Field::Rs2(File::F)],
            Layout::Constant => &[Field::Rd(File::F), Field::Rs1(File::Number)],
            Layout::Length => &[Field::Rd(File::X), Field::Rs1(File::Number), Field::Imm],
            Layout::VectorMemory => &[Field::Rd(File::V), Field::Rs1(File::X), Field::Mask],
            Layout::Vector => &[
                Field::Funct6,
                Field::Funct3,
                Field::Rd(File::Number),
                Field::Rs2(File::Number),
                Field::Rs1(File::Number),
                Field::Mask,
            ],
            Layout::Distance => &[Field::Imm],
            Layout::Two => &[Field::Rd(File::X), Field::Rs2(File::X)],
            Layout::One => &[Field::Rd(File::X)],
            Layout::Target => &[Field::Rs1(File::X)],
            Layout::FloatUpper => &[Field::Rd(File::F), Field::Imm],
            Layout::StackStore => &[Field::Rs2(File::X), Field::Imm],
            Layout::FloatStackStore => &[Field::Rs2(File::F), Field::Imm],
        }
    }
}
