//! Integer operations of two registers (R-type), and of a register and an immediate (I-type): those of RV64I, M, Zba, Zbb,
//! Zbs, Zicond, Zbc and Zbkb. The fields are those of the manual's chapter "RV32/64G Instruction Set Listings" and of the extensions'
//! own chapters.

use rv_imms::Imm12;
use rv_machine::{OP, OP_32, OP_IMM, OP_IMM_32};

/// An operation of two source registers, by its mnemonic. `Sgt` and `Sgtu` are pseudo-instructions.
#[derive(Clone, Copy, Debug, PartialEq, Eq)]
pub enum AluOPRRR {
    Add,
    Sub,
    Sll,
    Slt,
    Sgt,
    SltU,
    Sgtu,
    Xor,
    Srl,
    Sra,
    Or,
    And,
    Addw,
    Subw,
    Sllw,
    Srlw,
    Sraw,
    Mul,
    Mulh,
    Mulhsu,
    Mulhu,
    Div,
    DivU,
    Rem,
    RemU,
    Mulw,
    Divw,
    Divuw,
    Remw,
    Remuw,
    Adduw,
    Andn,
    Bclr,
    Bext,
    Binv,
    Bset,
    Max,
    Maxu,
    Min,
    Minu,
    Orn,
    Rol,
    Rolw,
    Ror,
    Rorw,
    Sh1add,
    Sh1adduw,
    Sh2add,
    Sh2adduw,
    Sh3add,
    Sh3adduw,
    Xnor,
    CzeroEqz,
    CzeroNez,
    Clmul,
    Clmulh,
    Clmulr,
    Pack,
    Packw,
    Packh,
}

impl AluOPRRR {
    ghost use Rattle.std.specs.Prelude.{◌≡◌, ◌<◌, ◌^◌};
    ghost use Rattle.rv_ops.specs.Alu.{rrr_name, rrr_numbers};
    ghost use Rattle.rv_ops.specs.Operations.{is_exchanged};

    /// The mnemonic.
    pub fn op_name(self) -> &'static str
        ensures { result.now ≡ rrr_name self }
    {
        match self {
            Self::Add => "add",
            Self::Sub => "sub",
            Self::Sll => "sll",
            Self::Slt => "slt",
            Self::Sgt => "sgt",
            Self::SltU => "sltu",
            Self::Sgtu => "sgtu",
            Self::Xor => "xor",
            Self::Srl => "srl",
            Self::Sra => "sra",
            Self::Or => "or",
            Self::And => "and",
            Self::Addw => "addw",
            Self::Subw => "subw",
            Self::Sllw => "sllw",
            Self::Srlw => "srlw",
            Self::Sraw => "sraw",
            Self::Mul => "mul",
            Self::Mulh => "mulh",
            Self::Mulhsu => "mulhsu",
            Self::Mulhu => "mulhu",
            Self::Div => "div",
            Self::DivU => "divu",
            Self::Rem => "rem",
            Self::RemU => "remu",
            Self::Mulw => "mulw",
            Self::Divw => "divw",
            Self::Divuw => "divuw",
            Self::Remw => "remw",
            Self::Remuw => "remuw",
            Self::Adduw => "add.uw",
            Self::Andn => "andn",
            Self::Bclr => "bclr",
            Self::Bext => "bext",
            Self::Binv => "binv",
            Self::Bset => "bset",
            Self::Max => "max",
            Self::Maxu => "maxu",
            Self::Min => "min",
            Self::Minu => "minu",
            Self::Orn => "orn",
            Self::Rol => "rol",
            Self::Rolw => "rolw",
            Self::Ror => "ror",
            Self::Rorw => "rorw",
            Self::Sh1add => "sh1add",
            Self::Sh1adduw => "sh1add.uw",
            Self::Sh2add => "sh2add",
            Self::Sh2adduw => "sh2add.uw",
            Self::Sh3add => "sh3add",
            Self::Sh3adduw => "sh3add.uw",
            Self::Xnor => "xnor",
            Self::CzeroEqz => "czero.eqz",
            Self::CzeroNez => "czero.nez",
            Self::Clmul => "clmul",
            Self::Clmulh => "clmulh",
            Self::Clmulr => "clmulr",
            Self::Pack => "pack",
            Self::Packw => "packw",
            Self::Packh => "packh",
        }
    }

    /// Bits 14 to 12 of the word.
    pub fn funct3(self) -> u32
        ensures value { result ≡ (rrr_numbers self).funct3 }
        ensures width { result < 2 ^ 3 }
    {
        match self {
            Self::Add
            | Self::Sub
            | Self::Addw
            | Self::Subw
            | Self::Mul
            | Self::Mulw
            | Self::Adduw => 0b000,
            Self::Sll
            | Self::Sllw
            | Self::Mulh
            | Self::Bclr
            | Self::Binv
            | Self::Bset
            | Self::Rol
            | Self::Rolw
            | Self::Clmul => 0b001,
            Self::Slt | Self::Sgt | Self::Mulhsu | Self::Sh1add | Self::Sh1adduw | Self::Clmulr =>
                0b010,
            Self::SltU | Self::Sgtu | Self::Mulhu | Self::Clmulh => 0b011,
            Self::Xor
            | Self::Div
            | Self::Divw
            | Self::Min
            | Self::Sh2add
            | Self::Sh2adduw
            | Self::Xnor
            | Self::Pack
            | Self::Packw => 0b100,
            Self::Srl
            | Self::Sra
            | Self::Srlw
            | Self::Sraw
            | Self::DivU
            | Self::Divuw
            | Self::Bext
            | Self::Minu
            | Self::Ror
            | Self::Rorw
            | Self::CzeroEqz => 0b101,
            Self::Or
            | Self::Rem
            | Self::Remw
            | Self::Max
            | Self::Orn
            | Self::Sh3add
            | Self::Sh3adduw => 0b110,
            Self::And
            | Self::RemU
            | Self::Remuw
            | Self::Andn
            | Self::Maxu
            | Self::CzeroNez
            | Self::Packh => 0b111,
        }
    }

    /// Bits 6 to 0 of the word.
    pub fn op_code(self) -> u32
        ensures value { result ≡ (rrr_numbers self).opcode }
        ensures width { result < 2 ^ 7 }
    {
        match self {
            Self::Add
            | Self::Sub
            | Self::Sll
            | Self::Slt
            | Self::Sgt
            | Self::SltU
            | Self::Sgtu
            | Self::Xor
            | Self::Srl
            | Self::Sra
            | Self::Or
            | Self::And
            | Self::Mul
            | Self::Mulh
            | Self::Mulhsu
            | Self::Mulhu
            | Self::Div
            | Self::DivU
            | Self::Rem
            | Self::RemU
            | Self::Andn
            | Self::Bclr
            | Self::Bext
            | Self::Binv
            | Self::Bset
            | Self::Max
            | Self::Maxu
            | Self::Min
            | Self::Minu
            | Self::Orn
            | Self::Rol
            | Self::Ror
            | Self::Sh1add
            | Self::Sh2add
            | Self::Sh3add
            | Self::Xnor
            | Self::CzeroEqz
            | Self::CzeroNez
            | Self::Clmul
            | Self::Clmulh
            | Self::Clmulr
            | Self::Pack
            | Self::Packh => OP,
            Self::Addw
            | Self::Subw
            | Self::Sllw
            | Self::Srlw
            | Self::Sraw
            | Self::Mulw
            | Self::Divw
            | Self::Divuw
            | Self::Remw
            | Self::Remuw
            | Self::Adduw
            | Self::Rolw
            | Self::Rorw
            | Self::Sh1adduw
            | Self::Sh2adduw
            | Self::Sh3adduw
            | Self::Packw => OP_32,
        }
    }

    /// Bits 31 to 25 of the word.
    pub fn funct7(self) -> u32
        ensures value { result ≡ (rrr_numbers self).funct7 }
        ensures width { result < 2 ^ 7 }
    {
        match self {
            Self::Add
            | Self::Sll
            | Self::Slt
            | Self::Sgt
            | Self::SltU
            | Self::Sgtu
            | Self::Xor
            | Self::Srl
            | Self::Or
            | Self::And
            | Self::Addw
            | Self::Sllw
            | Self::Srlw => 0b0000000,
            Self::Mul
            | Self::Mulh
            | Self::Mulhsu
            | Self::Mulhu
            | Self::Div
            | Self::DivU
            | Self::Rem
            | Self::RemU
            | Self::Mulw
            | Self::Divw
            | Self::Divuw
            | Self::Remw
            | Self::Remuw => 0b0000001,
            Self::Adduw | Self::Pack | Self::Packw | Self::Packh => 0b0000100,
            Self::Max
            | Self::Maxu
            | Self::Min
            | Self::Minu
            | Self::Clmul
            | Self::Clmulh
            | Self::Clmulr => 0b0000101,
            Self::CzeroEqz | Self::CzeroNez => 0b0000111,
            Self::Sh1add
            | Self::Sh1adduw
            | Self::Sh2add
            | Self::Sh2adduw
            | Self::Sh3add
            | Self::Sh3adduw => 0b0010000,
            Self::Bset => 0b0010100,
            Self::Sub | Self::Sra | Self::Subw | Self::Sraw | Self::Andn | Self::Orn | Self::Xnor =>
                0b0100000,
            Self::Bclr | Self::Bext => 0b0100100,
            Self::Rol | Self::Rolw | Self::Ror | Self::Rorw => 0b0110000,
            Self::Binv => 0b0110100,
        }
    }

    /// Returns whether its word has the sources exchanged: `sgt` and `sgtu` are `slt` and `sltu` of them.
    pub fn reverse_rs(self) -> bool
        ensures { result ≡ is_exchanged self }
    {
        matches!(self, Self::Sgt | Self::Sgtu)
    }
}

/// An operation of a source register and an immediate or a shift amount, or of a source register alone, by its mnemonic.
#[derive(Clone, Copy, Debug, PartialEq, Eq)]
pub enum AluOPRRI {
    Addi,
    Slti,
    SltiU,
    Xori,
    Ori,
    Andi,
    Slli,
    Srli,
    Srai,
    Addiw,
    Slliw,
    SrliW,
    Sraiw,
    Bclri,
    Bexti,
    Binvi,
    Bseti,
    Rori,
    Roriw,
    SlliUw,
    Clz,
    Clzw,
    Cpop,
    Cpopw,
    Ctz,
    Ctzw,
    Rev8,
    Sextb,
    Sexth,
    Zexth,
    Orcb,
    Brev8,
}

impl AluOPRRI {
    ghost use Rattle.std.specs.Prelude.{◌≡◌, ◌<◌, ◌^◌};
    ghost use Rattle.rv_imms.specs.Bits.{low_bits};
    ghost use Rattle.rv_ops.specs.Alu.{rri_name, rri_numbers, funct6_of, funct7_of, funct12_of, imm12_of};
    ghost use Rattle.rv_ops.specs.Operations.{immediate_of, shift_limit};

    /// The mnemonic.
    pub fn op_name(self) -> &'static str
        ensures { result.now ≡ rri_name self }
    {
        match self {
            Self::Addi => "addi",
            Self::Slti => "slti",
            Self::SltiU => "sltiu",
            Self::Xori => "xori",
            Self::Ori => "ori",
            Self::Andi => "andi",
            Self::Slli => "slli",
            Self::Srli => "srli",
            Self::Srai => "srai",
            Self::Addiw => "addiw",
            Self::Slliw => "slliw",
            Self::SrliW => "srliw",
            Self::Sraiw => "sraiw",
            Self::Bclri => "bclri",
            Self::Bexti => "bexti",
            Self::Binvi => "binvi",
            Self::Bseti => "bseti",
            Self::Rori => "rori",
            Self::Roriw => "roriw",
            Self::SlliUw => "slli.uw",
            Self::Clz => "clz",
            Self::Clzw => "clzw",
            Self::Cpop => "cpop",
            Self::Cpopw => "cpopw",
            Self::Ctz => "ctz",
            Self::Ctzw => "ctzw",
            Self::Rev8 => "rev8",
            Self::Sextb => "sext.b",
            Self::Sexth => "sext.h",
            Self::Zexth => "zext.h",
            Self::Orcb => "orc.b",
            Self::Brev8 => "brev8",
        }
    }

    /// Bits 14 to 12 of the word.
    pub fn funct3(self) -> u32
        ensures value { result ≡ (rri_numbers self).funct3 }
        ensures width { result < 2 ^ 3 }
    {
        match self {
            Self::Addi | Self::Addiw => 0b000,
            Self::Slli
            | Self::Slliw
            | Self::Bclri
            | Self::Binvi
            | Self::Bseti
            | Self::SlliUw
            | Self::Clz
            | Self::Clzw
            | Self::Cpop
            | Self::Cpopw
            | Self::Ctz
            | Self::Ctzw
            | Self::Sextb
            | Self::Sexth => 0b001,
            Self::Slti => 0b010,
            Self::SltiU => 0b011,
            Self::Xori | Self::Zexth => 0b100,
            Self::Srli
            | Self::Srai
            | Self::SrliW
            | Self::Sraiw
            | Self::Bexti
            | Self::Rori
            | Self::Roriw
            | Self::Rev8
            | Self::Orcb
            | Self::Brev8 => 0b101,
            Self::Ori => 0b110,
            Self::Andi => 0b111,
        }
    }

    /// Bits 6 to 0 of the word.
    pub fn op_code(self) -> u32
        ensures value { result ≡ (rri_numbers self).opcode }
        ensures width { result < 2 ^ 7 }
    {
        match self {
            Self::Addi
            | Self::Slti
            | Self::SltiU
            | Self::Xori
            | Self::Ori
            | Self::Andi
            | Self::Slli
            | Self::Srli
            | Self::Srai
            | Self::Bclri
            | Self::Bexti
            | Self::Binvi
            | Self::Bseti
            | Self::Rori
            | Self::Clz
            | Self::Cpop
            | Self::Ctz
            | Self::Rev8
            | Self::Sextb
            | Self::Sexth
            | Self::Orcb
            | Self::Brev8 => OP_IMM,
            Self::Addiw
            | Self::Slliw
            | Self::SrliW
            | Self::Sraiw
            | Self::Roriw
            | Self::SlliUw
            | Self::Clzw
            | Self::Cpopw
            | Self::Ctzw => OP_IMM_32,
            Self::Zexth => OP_32,
        }
    }

    /// Bits 31 to 26 of the word, where a shift amount of six bits is below them.
    pub fn option_funct6(self) -> Option<u32>
        ensures { result ≡ funct6_of (rri_numbers self).upper }
    {
        match self {
            Self::Slli | Self::Srli => Some(0b000000),
            Self::SlliUw => Some(0b000010),
            Self::Bseti => Some(0b001010),
            Self::Srai => Some(0b010000),
            Self::Bclri | Self::Bexti => Some(0b010010),
            Self::Rori => Some(0b011000),
            Self::Binvi => Some(0b011010),
            _ => None,
        }
    }

    /// Bits 31 to 25 of the word, where a shift amount of five bits is below them.
    pub fn option_funct7(self) -> Option<u32>
        ensures { result ≡ funct7_of (rri_numbers self).upper }
    {
        match self {
            Self::Slliw | Self::SrliW => Some(0b0000000),
            Self::Sraiw => Some(0b0100000),
            Self::Roriw => Some(0b0110000),
            _ => None,
        }
    }

    /// Bits 31 to 20 of the word, where the operation takes no immediate.
    pub fn option_funct12(self) -> Option<u32>
        ensures { result ≡ funct12_of (rri_numbers self).upper }
    {
        match self {
            Self::Zexth => Some(0b000010000000),
            Self::Orcb => Some(0b001010000111),
            Self::Clz | Self::Clzw => Some(0b011000000000),
            Self::Ctz | Self::Ctzw => Some(0b011000000001),
            Self::Cpop | Self::Cpopw => Some(0b011000000010),
            Self::Sextb => Some(0b011000000100),
            Self::Sexth => Some(0b011000000101),
            Self::Brev8 => Some(0b011010000111),
            Self::Rev8 => Some(0b011010111000),
            _ => None,
        }
    }

    /// One more than the largest immediate, where that is a shift amount or a bit's index.
    pub fn shift_limit(self) -> Option<u32>
        ensures { result ≡ shift_limit (immediate_of self) }
    {
        match self {
            Self::Slli
            | Self::Srli
            | Self::Srai
            | Self::Bclri
            | Self::Bexti
            | Self::Binvi
            | Self::Bseti
            | Self::Rori
            | Self::SlliUw => Some(64),
            Self::Slliw | Self::SrliW | Self::Sraiw | Self::Roriw => Some(32),
            _ => None,
        }
    }

    /// Bits 31 to 20 of the word: the immediate, or the shift amount below the operation's own bits, or those bits alone.
    pub fn imm12(self, imm12: Imm12) -> u32
        ensures value { result ≡ imm12_of (rri_numbers self).upper (low_bits (2 ^ 12) imm12.value) }
        ensures width { result < 2 ^ 12 }
    {
        let bits = imm12.bits();
        if let Some(funct6) = self.option_funct6() {
            funct6 << 6 | bits & 0x3f
        } else if let Some(funct7) = self.option_funct7() {
            funct7 << 5 | bits & 0x1f
        } else if let Some(funct12) = self.option_funct12() {
            funct12
        } else {
            bits
        }
    }
}
