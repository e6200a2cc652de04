//! The instructions of 16 bits by their own mnemonics: "RVC Instruction Set Listings" of RV64, and "Zcb".

ghost use Rattle.std.specs.Prelude.{◌≡◌, ◌<◌, ◌^◌};
ghost use Rattle.rv_disasm.specs.Halfwords.{half_name, half_layout};

use crate::layouts::Layout;

/// An instruction of 16 bits.
#[derive(Clone, Copy, Debug, PartialEq, Eq)]
pub enum HalfOp {
    Addi4spn,
    Fld,
    Lw,
    Ld,
    Lbu,
    Lhu,
    Lh,
    Sb,
    Sh,
    Fsd,
    Sw,
    Sd,
    Addi,
    Addiw,
    Li,
    Addi16sp,
    Lui,
    Srli,
    Srai,
    Andi,
    Sub,
    Xor,
    Or,
    And,
    Subw,
    Addw,
    Mul,
    ZextB,
    SextB,
    ZextH,
    SextH,
    ZextW,
    Not,
    J,
    Slli,
    Fldsp,
    Lwsp,
    Ldsp,
    Jr,
    Mv,
    Ebreak,
    Jalr,
    Add,
    Fsdsp,
    Swsp,
    Sdsp,
}

impl HalfOp {
    /// The mnemonic.
    pub fn name(self) -> &'static str
        ensures { result.now ≡ half_name self }
    {
        match self {
            HalfOp::Addi4spn => "c.addi4spn",
            HalfOp::Fld => "c.fld",
            HalfOp::Lw => "c.lw",
            HalfOp::Ld => "c.ld",
            HalfOp::Lbu => "c.lbu",
            HalfOp::Lhu => "c.lhu",
            HalfOp::Lh => "c.lh",
            HalfOp::Sb => "c.sb",
            HalfOp::Sh => "c.sh",
            HalfOp::Fsd => "c.fsd",
            HalfOp::Sw => "c.sw",
            HalfOp::Sd => "c.sd",
            HalfOp::Addi => "c.addi",
            HalfOp::Addiw => "c.addiw",
            HalfOp::Li => "c.li",
            HalfOp::Addi16sp => "c.addi16sp",
            HalfOp::Lui => "c.lui",
            HalfOp::Srli => "c.srli",
            HalfOp::Srai => "c.srai",
            HalfOp::Andi => "c.andi",
            HalfOp::Sub => "c.sub",
            HalfOp::Xor => "c.xor",
            HalfOp::Or => "c.or",
            HalfOp::And => "c.and",
            HalfOp::Subw => "c.subw",
            HalfOp::Addw => "c.addw",
            HalfOp::Mul => "c.mul",
            HalfOp::ZextB => "c.zext.b",
            HalfOp::SextB => "c.sext.b",
            HalfOp::ZextH => "c.zext.h",
            HalfOp::SextH => "c.sext.h",
            HalfOp::ZextW => "c.zext.w",
            HalfOp::Not => "c.not",
            HalfOp::J => "c.j",
            HalfOp::Slli => "c.slli",
            HalfOp::Fldsp => "c.fldsp",
            HalfOp::Lwsp => "c.lwsp",
            HalfOp::Ldsp => "c.ldsp",
            HalfOp::Jr => "c.jr",
            HalfOp::Mv => "c.mv",
            HalfOp::Ebreak => "c.ebreak",
            HalfOp::Jalr => "c.jalr",
            HalfOp::Add => "c.add",
            HalfOp::Fsdsp => "c.fsdsp",
            HalfOp::Swsp => "c.swsp",
            HalfOp::Sdsp => "c.sdsp",
        }
    }

    /// The fields that its row leaves free.
    pub fn layout(self) -> Layout
        ensures { result ≡ half_layout self }
    {
        match self {
            HalfOp::Addi4spn
            | HalfOp::Addi
            | HalfOp::Addiw
            | HalfOp::Li
            | HalfOp::Lui
            | HalfOp::Srli
            | HalfOp::Srai
            | HalfOp::Andi
            | HalfOp::Slli
            | HalfOp::Lwsp
            | HalfOp::Ldsp => Layout::Upper,
            HalfOp::Fld => Layout::FloatLoad,
            HalfOp::Lw | HalfOp::Ld | HalfOp::Lbu | HalfOp::Lhu | HalfOp::Lh => Layout::Immediate,
            HalfOp::Sb | HalfOp::Sh | HalfOp::Sw | HalfOp::Sd => Layout::Stored,
            HalfOp::Fsd => Layout::FloatStore,
            HalfOp::Addi16sp | HalfOp::J => Layout::Distance,
            HalfOp::Sub
            | HalfOp::Xor
            | HalfOp::Or
            | HalfOp::And
            | HalfOp::Subw
            | HalfOp::Addw
            | HalfOp::Mul
            | HalfOp::Mv
            | HalfOp::Add => Layout::Two,
            HalfOp::ZextB
            | HalfOp::SextB
            | HalfOp::ZextH
            | HalfOp::SextH
            | HalfOp::ZextW
            | HalfOp::Not => Layout::One,
            HalfOp::Fldsp => Layout::FloatUpper,
            HalfOp::Jr | HalfOp::Jalr => Layout::Target,
            HalfOp::Ebreak => Layout::None,
            HalfOp::Fsdsp => Layout::FloatStackStore,
            HalfOp::Swsp | HalfOp::Sdsp => Layout::StackStore,
        }
    }
}
