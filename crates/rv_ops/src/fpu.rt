//! Floating-point operations of two and of three source registers: those of the manual's chapters "F", "D", "Zfh" and "Zfa". The fields are those of the
//! chapter "RV32/64G Instruction Set Listings" and of Zfa's own chapter.

ghost use Rattle.std.specs.Prelude.{◌≡◌, ◌<◌, ◌^◌};
ghost use Rattle.rv_ops.specs.Fpu.{with_width};

use crate::float_fields::{FRM, FpuOPWidth};
use rv_base::{OutOfMemory, RegClass};
use rv_machine::{MADD, MSUB, NMADD, NMSUB, OP_FP};
use std::alloc::Global;

/// Bits 31 to 25 of a word of OP-FP.
///
/// ```text
/// 31     27 26 25
/// | funct5 | fmt |
/// ```
pub(crate) fn with_width(funct5: u32, width: FpuOPWidth) -> u32
    requires { funct5 < 2 ^ 5 }
    ensures value { result ≡ with_width funct5 width }
    ensures width { result < 2 ^ 7 }
{
    width.as_u32() | funct5 << 2
}

/// An operation of two source registers, by its mnemonic.
#[derive(Clone, Copy, Debug, PartialEq, Eq)]
pub enum FpuOPRRR {
    Fadd,
    Fsub,
    Fmul,
    Fdiv,
    Fsgnj,
    Fsgnjn,
    Fsgnjx,
    Fmin,
    Fmax,
    Feq,
    Flt,
    Fle,
    Fminm,
    Fmaxm,
}

impl FpuOPRRR {
    ghost use Rattle.std.specs.Prelude.{◌≡◌, ◌<◌, ◌^◌, IfOk, string_bytes};
    ghost use Rattle.rv_machine.specs.Opcodes.{OP_FP};
    ghost use Rattle.rv_ops.specs.FloatFields.{own_number, takes_frm};
    ghost use Rattle.rv_ops.specs.Fpu.{fpu_rrr_numbers, fpu_rrr_shows_frm, fpu_rrr_result, fpu_rrr_listed, fpu_rrr_stem, name_with_width};

    /// The mnemonic with its format, as `fadd.s`.
    pub fn op_name(self, alloc: Global, width: FpuOPWidth) -> Result<String, OutOfMemory>
        ensures { IfOk result (λ name. string_bytes name ≡ name_with_width (fpu_rrr_stem self) width) }
    {
        let stem = self.stem();
        Ok(format!(in alloc; "{stem}.{width}")?)
    }

    /// The mnemonic without its format.
    pub fn stem(self) -> &'static str
        ensures { result.now ≡ fpu_rrr_stem self }
    {
        match self {
            Self::Fadd => "fadd",
            Self::Fsub => "fsub",
            Self::Fmul => "fmul",
            Self::Fdiv => "fdiv",
            Self::Fsgnj => "fsgnj",
            Self::Fsgnjn => "fsgnjn",
            Self::Fsgnjx => "fsgnjx",
            Self::Fmin => "fmin",
            Self::Fmax => "fmax",
            Self::Feq => "feq",
            Self::Flt => "flt",
            Self::Fle => "fle",
            Self::Fminm => "fminm",
            Self::Fmaxm => "fmaxm",
        }
    }

    /// The name in a listing, as `Fadd`.
    pub fn listed_name(self) -> &'static str
        ensures { result.now ≡ fpu_rrr_listed self }
    {
        match self {
            Self::Fadd => "Fadd",
            Self::Fsub => "Fsub",
            Self::Fmul => "Fmul",
            Self::Fdiv => "Fdiv",
            Self::Fsgnj => "Fsgnj",
            Self::Fsgnjn => "Fsgnjn",
            Self::Fsgnjx => "Fsgnjx",
            Self::Fmin => "Fmin",
            Self::Fmax => "Fmax",
            Self::Feq => "Feq",
            Self::Flt => "Flt",
            Self::Fle => "Fle",
            Self::Fminm => "Fminm",
            Self::Fmaxm => "Fmaxm",
        }
    }

    /// Bits 6 to 0 of the word: OP-FP.
    pub fn opcode(self) -> u32
        ensures { result ≡ OP_FP }
    {
        OP_FP
    }

    /// Bits 31 to 27 of the word.
    pub fn funct5(self) -> u32
        ensures value { result ≡ (fpu_rrr_numbers self).funct5 }
        ensures width { result < 2 ^ 5 }
    {
        match self {
            Self::Fadd => 0b00000,
            Self::Fsub => 0b00001,
            Self::Fmul => 0b00010,
            Self::Fdiv => 0b00011,
            Self::Fsgnj | Self::Fsgnjn | Self::Fsgnjx => 0b00100,
            Self::Fmin | Self::Fmax | Self::Fminm | Self::Fmaxm => 0b00101,
            Self::Feq | Self::Flt | Self::Fle => 0b10100,
        }
    }

    /// Bits 31 to 25 of the word.
    pub fn funct7(self, width: FpuOPWidth) -> u32
        ensures value { result ≡ with_width (fpu_rrr_numbers self).funct5 width }
        ensures width { result < 2 ^ 7 }
    {
        with_width(self.funct5(), width)
    }

    /// Bits 14 to 12 of the word, where the operation has a number of its own there and no rounding mode.
    pub fn own_number(self) -> Option<u8>
        ensures { result ≡ own_number (fpu_rrr_numbers self).rounding }
    {
        match self {
            Self::Fsgnj | Self::Fmin | Self::Fle => Some(0b000),
            Self::Fsgnjn | Self::Fmax | Self::Flt => Some(0b001),
            Self::Fsgnjx | Self::Feq | Self::Fminm => Some(0b010),
            Self::Fmaxm => Some(0b011),
            Self::Fadd | Self::Fsub | Self::Fmul | Self::Fdiv => None,
        }
    }

    /// Returns whether the operation may be listed with this rounding mode: with any where it rounds, else with the one of
    /// its own number.
    pub fn takes_frm(self, frm: FRM) -> bool
        ensures { result ≡ takes_frm (fpu_rrr_numbers self).rounding frm }
    {
        match self.own_number() {
            Some(number) => frm.bits() == number,
            None => true,
        }
    }

    /// Returns whether the operation's text shows the rounding mode; that of `fminm` and `fmaxm` does, though they don't round.
    pub fn has_frm(self) -> bool
        ensures { result ≡ fpu_rrr_shows_frm self }
    {
        match self {
            Self::Fadd | Self::Fsub | Self::Fmul | Self::Fdiv | Self::Fminm | Self::Fmaxm => true,
            Self::Fsgnj
            | Self::Fsgnjn
            | Self::Fsgnjx
            | Self::Fmin
            | Self::Fmax
            | Self::Feq
            | Self::Flt
            | Self::Fle => false,
        }
    }

    /// The file of the result: the integer registers for comparisons. The sources are floating-point registers.
    pub fn dst_regclass(self) -> RegClass
        ensures { result ≡ fpu_rrr_result self }
    {
        match self {
            Self::Feq | Self::Flt | Self::Fle => RegClass::Int,
            _ => RegClass::Float,
        }
    }
}

/// A fused multiplication, by its mnemonic: the product of two source registers, to which the third is added or from which it
/// is taken. Each rounds.
#[derive(Clone, Copy, Debug, PartialEq, Eq)]
pub enum FpuOPRRRR {
    Fmadd,
    Fmsub,
    Fnmsub,
    Fnmadd,
}

impl FpuOPRRRR {
    ghost use Rattle.std.specs.Prelude.{◌≡◌, ◌<◌, ◌^◌, IfOk, string_bytes};
    ghost use Rattle.rv_ops.specs.Fpu.{fpu_rrrr_opcode, fpu_rrrr_listed, fpu_rrrr_stem, name_with_width};

    /// The mnemonic with its format, as `fmadd.s`.
    pub fn op_name(self, alloc: Global, width: FpuOPWidth) -> Result<String, OutOfMemory>
        ensures { IfOk result (λ name. string_bytes name ≡ name_with_width (fpu_rrrr_stem self) width) }
    {
        let stem = self.stem();
        Ok(format!(in alloc; "{stem}.{width}")?)
    }

    /// The mnemonic without its format.
    fn stem(self) -> &'static str
        ensures { result.now ≡ fpu_rrrr_stem self }
    {
        match self {
            Self::Fmadd => "fmadd",
            Self::Fmsub => "fmsub",
            Self::Fnmsub => "fnmsub",
            Self::Fnmadd => "fnmadd",
        }
    }

    /// The name in a listing, as `Fmadd`.
    pub fn listed_name(self) -> &'static str
        ensures { result.now ≡ fpu_rrrr_listed self }
    {
        match self {
            Self::Fmadd => "Fmadd",
            Self::Fmsub => "Fmsub",
            Self::Fnmsub => "Fnmsub",
            Self::Fnmadd => "Fnmadd",
        }
    }

    /// Bits 6 to 0 of the word.
    pub fn opcode(self) -> u32
        ensures value { result ≡ fpu_rrrr_opcode self }
        ensures width { result < 2 ^ 7 }
    {
        match self {
            Self::Fmadd => MADD,
            Self::Fmsub => MSUB,
            Self::Fnmsub => NMSUB,
            Self::Fnmadd => NMADD,
        }
    }
}
