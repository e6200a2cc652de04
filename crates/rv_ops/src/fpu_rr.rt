//! Floating-point operations of one source register: conversions, moves of bits, classification, roots and rounding to an
//! integer, of the manual's chapters "F", "D", "Zfh" and "Zfa".

use crate::float_fields::{FRM, FpuOPWidth};
use crate::fpu::with_width;
use rv_base::{OutOfMemory, RegClass};
use rv_machine::OP_FP;
use std::alloc::Global;

/// An operation of one source register, by its mnemonic: `Fmt` is the format, `X` an integer register, `W` and `L` an integer of
/// 32 or 64 bits there, `Wu` and `Lu` an unsigned one; `H`, `S` and `D` are the two formats of a conversion, the result's first.
#[derive(Clone, Copy, Debug, PartialEq, Eq)]
pub enum FpuOPRR {
    Fsqrt,
    Fround,
    Fclass,
    FcvtWFmt,
    FcvtWuFmt,
    FcvtLFmt,
    FcvtLuFmt,
    FcvtFmtW,
    FcvtFmtWu,
    FcvtFmtL,
    FcvtFmtLu,
    FmvXFmt,
    FmvFmtX,
    FcvtSH,
    FcvtHS,
    FcvtSD,
    FcvtDS,
    FcvtDH,
    FcvtHD,
}

impl FpuOPRR {
    ghost use Rattle.std.specs.Prelude.{◌≡◌, ◌<◌, ◌^◌, ◌++◌, IfOk, string_bytes};
    ghost use Rattle.rv_machine.specs.Opcodes.{OP_FP};
    ghost use Rattle.rv_ops.specs.FloatFields.{own_number, takes_frm};
    ghost use Rattle.rv_ops.specs.Fpu.{with_width, fpu_rr_numbers, fpu_rr_widths, takes_width, is_to_integer, fpu_rr_shows_frm, fpu_rr_files, fpu_rr_listed, fpu_rr_name};

    /// The mnemonic with its format, as `fsqrt.s`, `fcvt.s.w` or `fmv.x.w`.
    pub fn op_name(self, alloc: Global, width: FpuOPWidth) -> Result<String, OutOfMemory>
        ensures { IfOk result (λ name. string_bytes name ≡ fpu_rr_name self width) }
    {
        let (before, format, after) = self.name_parts(width);
        Ok(format!(in alloc; "{before}{format}{after}")?)
    }

    /// The mnemonic in three parts, with the format in the middle where the operation alone doesn't say it.
    fn name_parts(self, width: FpuOPWidth) -> (&'static str, &'static str, &'static str)
        ensures { result.0.now ++ result.1.now ++ result.2.now ≡ fpu_rr_name self width }
    {
        let format = width.to_static_str();
        match self {
            Self::Fsqrt => ("fsqrt.", format, ""),
            Self::Fround => ("fround.", format, ""),
            Self::Fclass => ("fclass.", format, ""),
            Self::FcvtWFmt => ("fcvt.w.", format, ""),
            Self::FcvtWuFmt => ("fcvt.wu.", format, ""),
            Self::FcvtLFmt => ("fcvt.l.", format, ""),
            Self::FcvtLuFmt => ("fcvt.lu.", format, ""),
            Self::FcvtFmtW => ("fcvt.", format, ".w"),
            Self::FcvtFmtWu => ("fcvt.", format, ".wu"),
            Self::FcvtFmtL => ("fcvt.", format, ".l"),
            Self::FcvtFmtLu => ("fcvt.", format, ".lu"),
            Self::FmvXFmt => ("fmv.x.", width.move_name(), ""),
            Self::FmvFmtX => ("fmv.", width.move_name(), ".x"),
            Self::FcvtSH => ("fcvt.s.h", "", ""),
            Self::FcvtHS => ("fcvt.h.s", "", ""),
            Self::FcvtSD => ("fcvt.s.d", "", ""),
            Self::FcvtDS => ("fcvt.d.s", "", ""),
            Self::FcvtDH => ("fcvt.d.h", "", ""),
            Self::FcvtHD => ("fcvt.h.d", "", ""),
        }
    }

    /// The name in a listing, as `FcvtWFmt`.
    pub fn listed_name(self) -> &'static str
        ensures { result.now ≡ fpu_rr_listed self }
    {
        match self {
            Self::Fsqrt => "Fsqrt",
            Self::Fround => "Fround",
            Self::Fclass => "Fclass",
            Self::FcvtWFmt => "FcvtWFmt",
            Self::FcvtWuFmt => "FcvtWuFmt",
            Self::FcvtLFmt => "FcvtLFmt",
            Self::FcvtLuFmt => "FcvtLuFmt",
            Self::FcvtFmtW => "FcvtFmtW",
            Self::FcvtFmtWu => "FcvtFmtWu",
            Self::FcvtFmtL => "FcvtFmtL",
            Self::FcvtFmtLu => "FcvtFmtLu",
            Self::FmvXFmt => "FmvXFmt",
            Self::FmvFmtX => "FmvFmtX",
            Self::FcvtSH => "FcvtSH",
            Self::FcvtHS => "FcvtHS",
            Self::FcvtSD => "FcvtSD",
            Self::FcvtDS => "FcvtDS",
            Self::FcvtDH => "FcvtDH",
            Self::FcvtHD => "FcvtHD",
        }
    }

    /// Returns whether it converts to an integer.
    pub fn is_convert_to_int(self) -> bool
        ensures { result ≡ is_to_integer self }
    {
        matches!(
            self,
            Self::FcvtWFmt | Self::FcvtWuFmt | Self::FcvtLFmt | Self::FcvtLuFmt
        )
    }

    /// Returns whether the operation's text shows the rounding mode, as that of each that rounds does.
    pub fn has_frm(self) -> bool
        ensures { result ≡ fpu_rr_shows_frm self }
    {
        !matches!(self, Self::FmvXFmt | Self::FmvFmtX | Self::Fclass)
    }

    /// Bits 6 to 0 of the word: OP-FP.
    pub fn opcode(self) -> u32
        ensures { result ≡ OP_FP }
    {
        OP_FP
    }

    /// Bits 24 to 20 of the word, which select the operation among those of its `funct5`.
    pub fn rs2(self) -> u32
        ensures value { result ≡ (fpu_rr_numbers self).selector }
        ensures width { result < 2 ^ 5 }
    {
        match self {
            Self::Fsqrt
            | Self::Fclass
            | Self::FcvtWFmt
            | Self::FcvtFmtW
            | Self::FmvXFmt
            | Self::FmvFmtX
            | Self::FcvtHS
            | Self::FcvtDS => 0b00000,
            Self::FcvtWuFmt | Self::FcvtFmtWu | Self::FcvtSD | Self::FcvtHD => 0b00001,
            Self::FcvtLFmt | Self::FcvtFmtL | Self::FcvtSH | Self::FcvtDH => 0b00010,
            Self::FcvtLuFmt | Self::FcvtFmtLu => 0b00011,
            Self::Fround => 0b00100,
        }
    }

    /// Bits 31 to 27 of the word.
    pub fn funct5(self) -> u32
        ensures value { result ≡ (fpu_rr_numbers self).funct5 }
        ensures width { result < 2 ^ 5 }
    {
        match self {
            Self::Fround
            | Self::FcvtSH
            | Self::FcvtHS
            | Self::FcvtSD
            | Self::FcvtDS
            | Self::FcvtDH
            | Self::FcvtHD => 0b01000,
            Self::Fsqrt => 0b01011,
            Self::FcvtWFmt | Self::FcvtWuFmt | Self::FcvtLFmt | Self::FcvtLuFmt => 0b11000,
            Self::FcvtFmtW | Self::FcvtFmtWu | Self::FcvtFmtL | Self::FcvtFmtLu => 0b11010,
            Self::Fclass | Self::FmvXFmt => 0b11100,
            Self::FmvFmtX => 0b11110,
        }
    }

    /// Bits 31 to 25 of the word.
    pub fn funct7(self, width: FpuOPWidth) -> u32
        ensures value { result ≡ with_width (fpu_rr_numbers self).funct5 width }
        ensures width { result < 2 ^ 7 }
    {
        with_width(self.funct5(), width)
    }

    /// Bits 14 to 12 of the word, where the operation has a number of its own there and no rounding mode.
    pub fn own_number(self) -> Option<u8>
        ensures { result ≡ own_number (fpu_rr_numbers self).rounding }
    {
        match self {
            Self::FmvXFmt | Self::FmvFmtX => Some(0b000),
            Self::Fclass => Some(0b001),
            _ => None,
        }
    }

    /// Returns whether the operation may be listed with this rounding mode: with any where it rounds, else with the one of
    /// its own number.
    pub fn takes_frm(self, frm: FRM) -> bool
        ensures { result ≡ takes_frm (fpu_rr_numbers self).rounding frm }
    {
        match self.own_number() {
            Some(number) => frm.bits() == number,
            None => true,
        }
    }

    /// Returns whether the operation has this format: a conversion between two formats has that of its result alone.
    pub fn takes_width(self, width: FpuOPWidth) -> bool
        ensures { result ≡ takes_width (fpu_rr_widths self) width }
    {
        match self {
            Self::FcvtSH | Self::FcvtSD => width.as_u32() == FpuOPWidth::S.as_u32(),
            Self::FcvtHS | Self::FcvtHD => width.as_u32() == FpuOPWidth::H.as_u32(),
            Self::FcvtDS | Self::FcvtDH => width.as_u32() == FpuOPWidth::D.as_u32(),
            _ => width.is_supported(),
        }
    }

    /// The file of the result.
    pub fn dst_regclass(self) -> RegClass
        ensures { result ≡ (fpu_rr_files self).result }
    {
        match self {
            Self::Fclass
            | Self::FmvXFmt
            | Self::FcvtWFmt
            | Self::FcvtWuFmt
            | Self::FcvtLFmt
            | Self::FcvtLuFmt => RegClass::Int,
            _ => RegClass::Float,
        }
    }

    /// The file of the source.
    pub fn src_regclass(self) -> RegClass
        ensures { result ≡ (fpu_rr_files self).source }
    {
        match self {
            Self::FmvFmtX | Self::FcvtFmtW | Self::FcvtFmtWu | Self::FcvtFmtL | Self::FcvtFmtLu =>
                RegClass::Int,
            _ => RegClass::Float,
        }
    }
}
