//! What the words of all floating-point operations have: the format of the numbers and the rounding mode (the manual's chapter
//! "F", "Floating-Point Control and Status Register" and "Single-Precision Floating-Point Computational Instructions").

use rv_base::IrType;
use std::convert::TryFrom;
use std::fmt;

/// The format of the numbers: of 16, 32, 64 or 128 bits. No operation of this project has `Q`.
#[derive(Clone, Copy, Debug, PartialEq, Eq)]
pub enum FpuOPWidth {
    H,
    S,
    D,
    Q,
}

impl FpuOPWidth {
    ghost use Rattle.std.specs.Prelude.{◌≡◌, ◌<◌, ◌^◌};
    ghost use Rattle.rv_ops.specs.FloatFields.{width_name, move_name, width_bits, is_width};

    /// Its name: `h`, `s`, `d` or `q`.
    pub fn to_static_str(self) -> &'static str
        ensures { result.now ≡ width_name self }
    {
        match self {
            FpuOPWidth::H => "h",
            FpuOPWidth::S => "s",
            FpuOPWidth::D => "d",
            FpuOPWidth::Q => "q",
        }
    }

    /// Its name in those of moves of bits, where `w` stands for 32 bits.
    pub(crate) fn move_name(self) -> &'static str
        ensures { result.now ≡ move_name self }
    {
        match self {
            FpuOPWidth::H => "h",
            FpuOPWidth::S => "w",
            FpuOPWidth::D => "d",
            FpuOPWidth::Q => "q",
        }
    }

    /// Bits 26 to 25 of the word, `fmt`.
    pub fn as_u32(&self) -> u32
        ensures value { result ≡ width_bits self.now }
        ensures width { result < 2 ^ 2 }
    {
        match self {
            FpuOPWidth::S => 0b00,
            FpuOPWidth::D => 0b01,
            FpuOPWidth::H => 0b10,
            FpuOPWidth::Q => 0b11,
        }
    }

    /// Returns whether operations have it: all but `Q`.
    pub fn is_supported(self) -> bool
        ensures { result ≡ is_width self }
    {
        !matches!(self, FpuOPWidth::Q)
    }
}

impl fmt::Display for FpuOPWidth {
    ghost use Rattle.std.specs.Prelude.{Some};
    ghost use Rattle.rv_ops.specs.FloatFields.{width_name};

    ghost output = { λ width. Some (width_name width) };

    fn fmt<W: fmt::Write>(&self, f: &mut fmt::Formatter<W>) -> fmt::Result {
        f.write_str(self.to_static_str())
    }
}

/// The format of a type of floating-point numbers.
impl TryFrom<IrType> for FpuOPWidth {
    ghost use Rattle.std.specs.Prelude.{◌≡◌, Some, None, IfOk, IfErr};
    ghost use Rattle.rv_ops.specs.FloatFields.{width_of, width_refusal};

    type Error = &'static str;

    ghost try_from_gives = { λ ty r. IfOk r (λ width. width_of ty ≡ Some width) × IfErr r (λ error. (width_of ty ≡ None) × (error.now ≡ width_refusal)) };

    fn try_from(ty: IrType) -> Result<FpuOPWidth, &'static str> {
        match ty {
            IrType::F16 => Ok(FpuOPWidth::H),
            IrType::F32 => Ok(FpuOPWidth::S),
            IrType::F64 => Ok(FpuOPWidth::D),
            IrType::F128 => Ok(FpuOPWidth::Q),
            _ => Err("Invalid type for FpuOPWidth"),
        }
    }
}

/// A rounding mode, by the manual's mnemonic; `Fcsr` is the dynamic one, which the register `frm` holds.
#[derive(Clone, Copy, Debug, PartialEq, Eq)]
pub enum FRM {
    RNE,
    RTZ,
    RDN,
    RUP,
    RMM,
    Fcsr,
}

impl FRM {
    ghost use Rattle.std.specs.Prelude.{◌≡◌, ◌<◌, ◌^◌};
    ghost use Rattle.rv_ops.specs.FloatFields.{frm_name, frm_bits};

    /// Its name in texts and listings: `rne`, `rtz`, `rdn`, `rup`, `rmm` or `fcsr`.
    pub fn to_static_str(self) -> &'static str
        ensures { result.now ≡ frm_name self }
    {
        match self {
            FRM::RNE => "rne",
            FRM::RTZ => "rtz",
            FRM::RDN => "rdn",
            FRM::RUP => "rup",
            FRM::RMM => "rmm",
            FRM::Fcsr => "fcsr",
        }
    }

    /// Bits 14 to 12 of the word, `rm`.
    pub fn bits(self) -> u8
        ensures value { result ≡ frm_bits self }
        ensures width { result < 2 ^ 3 }
    {
        match self {
            FRM::RNE => 0b000,
            FRM::RTZ => 0b001,
            FRM::RDN => 0b010,
            FRM::RUP => 0b011,
            FRM::RMM => 0b100,
            FRM::Fcsr => 0b111,
        }
    }

    /// The same bits.
    pub fn as_u32(self) -> u32
        ensures value { result ≡ frm_bits self }
        ensures width { result < 2 ^ 3 }
    {
        u32::from(self.bits())
    }
}

/// The dynamic mode.
impl Default for FRM {
    ghost use Rattle.std.specs.Prelude.{◌≡◌};
    ghost use Rattle.rv_ops.specs.declared.float_fields.FRM.TheVariants.{Fcsr};

    ghost is_default = { λ frm. frm ≡ Fcsr };

    fn default() -> FRM {
        FRM::Fcsr
    }
}

/// What `fclass` finds: each result is one bit of it.
#[derive(Clone, Copy, Debug, PartialEq, Eq)]
pub enum FClassResult {
    NegInfinite,
    NegNormal,
    NegSubNormal,
    NegZero,
    PosZero,
    PosSubNormal,
    PosNormal,
    PosInfinite,
    SNaN,
    QNaN,
}

impl FClassResult {
    ghost use Rattle.std.specs.Prelude.{◌≡◌, ◌+◌};
    ghost use Rattle.rv_ops.specs.FloatFields.{class_bit};
    ghost use Rattle.rv_ops.specs.declared.float_fields.FClassResult.TheVariants as class;

    /// Its bit, in place.
    pub fn bit(self) -> u32
        ensures { result ≡ class_bit self }
    {
        match self {
            FClassResult::NegInfinite => 1 << 0,
            FClassResult::NegNormal => 1 << 1,
            FClassResult::NegSubNormal => 1 << 2,
            FClassResult::NegZero => 1 << 3,
            FClassResult::PosZero => 1 << 4,
            FClassResult::PosSubNormal => 1 << 5,
            FClassResult::PosNormal => 1 << 6,
            FClassResult::PosInfinite => 1 << 7,
            FClassResult::SNaN => 1 << 8,
            FClassResult::QNaN => 1 << 9,
        }
    }

    /// The bits of what is no number.
    pub fn is_nan_bits() -> u32
        ensures { result ≡ class_bit class.SNaN + class_bit class.QNaN }
    {
        FClassResult::SNaN.bit() | FClassResult::QNaN.bit()
    }

    /// The bits of both zeros.
    pub fn is_zero_bits() -> u32
        ensures { result ≡ class_bit class.NegZero + class_bit class.PosZero }
    {
        FClassResult::NegZero.bit() | FClassResult::PosZero.bit()
    }

    /// The bits of both infinities.
    pub fn is_infinite_bits() -> u32
        ensures { result ≡ class_bit class.NegInfinite + class_bit class.PosInfinite }
    {
        FClassResult::PosInfinite.bit() | FClassResult::NegInfinite.bit()
    }
}

/// The exceptions that `fflags` accrues, by the manual's mnemonic.
#[derive(Clone, Copy, Debug, PartialEq, Eq)]
pub enum FFlagsException {
    NV,
    DZ,
    OF,
    UF,
    NX,
}

impl FFlagsException {
    ghost use Rattle.std.specs.Prelude.{◌≡◌};
    ghost use Rattle.rv_ops.specs.FloatFields.{flag_bit};

    /// Its bit of `fflags`, in place.
    pub fn mask(self) -> u32
        ensures { result ≡ flag_bit self }
    {
        match self {
            FFlagsException::NV => 1 << 4,
            FFlagsException::DZ => 1 << 3,
            FFlagsException::OF => 1 << 2,
            FFlagsException::UF => 1 << 1,
            FFlagsException::NX => 1 << 0,
        }
    }
}
