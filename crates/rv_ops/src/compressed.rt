//! Compressed operations, by the layout of their halfword (the manual's chapters "C" and "Zcb"), with their fixed fields.

/// The quadrants of compressed instructions, which their two lowest bits name. The fourth, 11, is that of words of 32 bits.
#[derive(Clone, Copy, Debug, PartialEq, Eq)]
pub enum COpcodeSpace {
    C0,
    C1,
    C2,
}

impl COpcodeSpace {
    ghost use Rattle.std.specs.Prelude.{◌≡◌, ◌<◌};
    ghost use Rattle.rv_ops.specs.Compressed.{space_bits};

    /// Bits 1 to 0 of the halfword.
    pub fn bits(&self) -> u32
        ensures value { result ≡ space_bits self.now }
        ensures width { result < 3 }
    {
        match self {
            COpcodeSpace::C0 => 0b00,
            COpcodeSpace::C1 => 0b01,
            COpcodeSpace::C2 => 0b10,
        }
    }
}

/// An operation in the layout CR, of two registers.
#[derive(Clone, Copy, Debug, PartialEq, Eq)]
pub enum CrOp {
    CJr,
    CMv,
    CEbreak,
    CJalr,
    CAdd,
}

impl CrOp {
    ghost use Rattle.std.specs.Prelude.{◌≡◌, ◌<◌, ◌^◌};
    ghost use Rattle.rv_ops.specs.Compressed.{cr_numbers};

    /// Bits 15 to 12 of the halfword.
    pub fn funct4(&self) -> u32
        ensures value { result ≡ (cr_numbers self.now).funct4 }
        ensures width { result < 2 ^ 4 }
    {
        match self {
            CrOp::CMv | CrOp::CJr => 0b1000,
            CrOp::CAdd | CrOp::CJalr | CrOp::CEbreak => 0b1001,
        }
    }

    /// Its quadrant.
    pub fn op(&self) -> COpcodeSpace
        ensures { result ≡ (cr_numbers self.now).space }
    {
        match self {
            CrOp::CMv | CrOp::CAdd | CrOp::CJr | CrOp::CJalr | CrOp::CEbreak => COpcodeSpace::C2,
        }
    }
}

/// An operation in the layout CA, of two registers from x8 to x15.
#[derive(Clone, Copy, Debug, PartialEq, Eq)]
pub enum CaOp {
    CSub,
    CXor,
    COr,
    CAnd,
    CSubw,
    CAddw,
    CMul,
}

impl CaOp {
    ghost use Rattle.std.specs.Prelude.{◌≡◌, ◌<◌, ◌^◌};
    ghost use Rattle.rv_ops.specs.Compressed.{ca_numbers};

    /// Bits 6 to 5 of the halfword.
    pub fn funct2(&self) -> u32
        ensures value { result ≡ (ca_numbers self.now).funct2 }
        ensures width { result < 2 ^ 2 }
    {
        match self {
            CaOp::CSub | CaOp::CSubw => 0b00,
            CaOp::CXor | CaOp::CAddw => 0b01,
            CaOp::COr | CaOp::CMul => 0b10,
            CaOp::CAnd => 0b11,
        }
    }

    /// Bits 15 to 10 of the halfword.
    pub fn funct6(&self) -> u32
        ensures value { result ≡ (ca_numbers self.now).funct6 }
        ensures width { result < 2 ^ 6 }
    {
        match self {
            CaOp::CAnd | CaOp::COr | CaOp::CXor | CaOp::CSub => 0b100_011,
            CaOp::CAddw | CaOp::CSubw | CaOp::CMul => 0b100_111,
        }
    }

    /// Its quadrant.
    pub fn op(&self) -> COpcodeSpace
        ensures { result ≡ (ca_numbers self.now).space }
    {
        match self {
            CaOp::CAnd
            | CaOp::COr
            | CaOp::CXor
            | CaOp::CSub
            | CaOp::CAddw
            | CaOp::CSubw
            | CaOp::CMul => COpcodeSpace::C1,
        }
    }
}

/// The jump, in the layout CJ.
#[derive(Clone, Copy, Debug, PartialEq, Eq)]
pub enum CjOp {
    CJ,
}

impl CjOp {
    ghost use Rattle.std.specs.Prelude.{◌≡◌, ◌<◌, ◌^◌};
    ghost use Rattle.rv_ops.specs.Compressed.{cj_numbers};

    /// Bits 15 to 13 of the halfword.
    pub fn funct3(&self) -> u32
        ensures value { result ≡ (cj_numbers self.now).funct3 }
        ensures width { result < 2 ^ 3 }
    {
        match self {
            CjOp::CJ => 0b101,
        }
    }

    /// Its quadrant.
    pub fn op(&self) -> COpcodeSpace
        ensures { result ≡ (cj_numbers self.now).space }
    {
        match self {
            CjOp::CJ => COpcodeSpace::C1,
        }
    }
}

/// An operation in the layout CI, of a register and an immediate of six bits.
#[derive(Clone, Copy, Debug, PartialEq, Eq)]
pub enum CiOp {
    CAddi,
    CAddiw,
    CLi,
    CAddi16sp,
    CLui,
    CSlli,
    CLwsp,
    CLdsp,
}

impl CiOp {
    ghost use Rattle.std.specs.Prelude.{◌≡◌, ◌<◌, ◌^◌};
    ghost use Rattle.rv_ops.specs.Compressed.{ci_numbers};

    /// Bits 15 to 13 of the halfword.
    pub fn funct3(&self) -> u32
        ensures value { result ≡ (ci_numbers self.now).funct3 }
        ensures width { result < 2 ^ 3 }
    {
        match self {
            CiOp::CAddi | CiOp::CSlli => 0b000,
            CiOp::CAddiw => 0b001,
            CiOp::CLi | CiOp::CLwsp => 0b010,
            CiOp::CAddi16sp | CiOp::CLui | CiOp::CLdsp => 0b011,
        }
    }

    /// Its quadrant.
    pub fn op(&self) -> COpcodeSpace
        ensures { result ≡ (ci_numbers self.now).space }
    {
        match self {
            CiOp::CAddi | CiOp::CAddiw | CiOp::CAddi16sp | CiOp::CLi | CiOp::CLui =>
                COpcodeSpace::C1,
            CiOp::CSlli | CiOp::CLwsp | CiOp::CLdsp => COpcodeSpace::C2,
        }
    }
}

/// The addition in the layout CIW, of the stack pointer and an immediate of eight bits.
#[derive(Clone, Copy, Debug, PartialEq, Eq)]
pub enum CiwOp {
    CAddi4spn,
}

impl CiwOp {
    ghost use Rattle.std.specs.Prelude.{◌≡◌, ◌<◌, ◌^◌};
    ghost use Rattle.rv_ops.specs.Compressed.{ciw_numbers};

    /// Bits 15 to 13 of the halfword.
    pub fn funct3(&self) -> u32
        ensures value { result ≡ (ciw_numbers self.now).funct3 }
        ensures width { result < 2 ^ 3 }
    {
        match self {
            CiwOp::CAddi4spn => 0b000,
        }
    }

    /// Its quadrant.
    pub fn op(&self) -> COpcodeSpace
        ensures { result ≡ (ciw_numbers self.now).space }
    {
        match self {
            CiwOp::CAddi4spn => COpcodeSpace::C0,
        }
    }
}

/// An operation in the layout CB, of a register from x8 to x15 and an immediate of six bits.
#[derive(Clone, Copy, Debug, PartialEq, Eq)]
pub enum CbOp {
    CSrli,
    CSrai,
    CAndi,
}

impl CbOp {
    ghost use Rattle.std.specs.Prelude.{◌≡◌, ◌<◌, ◌^◌};
    ghost use Rattle.rv_ops.specs.Compressed.{cb_numbers};

    /// Bits 15 to 13 of the halfword.
    pub fn funct3(&self) -> u32
        ensures value { result ≡ (cb_numbers self.now).funct3 }
        ensures width { result < 2 ^ 3 }
    {
        match self {
            CbOp::CSrli | CbOp::CSrai | CbOp::CAndi => 0b100,
        }
    }

    /// Bits 11 to 10 of the halfword.
    pub fn funct2(&self) -> u32
        ensures value { result ≡ (cb_numbers self.now).funct2 }
        ensures width { result < 2 ^ 2 }
    {
        match self {
            CbOp::CSrli => 0b00,
            CbOp::CSrai => 0b01,
            CbOp::CAndi => 0b10,
        }
    }

    /// Its quadrant.
    pub fn op(&self) -> COpcodeSpace
        ensures { result ≡ (cb_numbers self.now).space }
    {
        match self {
            CbOp::CSrli | CbOp::CSrai | CbOp::CAndi => COpcodeSpace::C1,
        }
    }
}

/// A store past the stack pointer, in the layout CSS.
#[derive(Clone, Copy, Debug, PartialEq, Eq)]
pub enum CssOp {
    CSwsp,
    CSdsp,
}

impl CssOp {
    ghost use Rattle.std.specs.Prelude.{◌≡◌, ◌<◌, ◌^◌};
    ghost use Rattle.rv_ops.specs.Compressed.{css_numbers};

    /// Bits 15 to 13 of the halfword.
    pub fn funct3(&self) -> u32
        ensures value { result ≡ (css_numbers self.now).funct3 }
        ensures width { result < 2 ^ 3 }
    {
        match self {
            CssOp::CSwsp => 0b110,
            CssOp::CSdsp => 0b111,
        }
    }

    /// Its quadrant.
    pub fn op(&self) -> COpcodeSpace
        ensures { result ≡ (css_numbers self.now).space }
    {
        match self {
            CssOp::CSwsp | CssOp::CSdsp => COpcodeSpace::C2,
        }
    }
}

/// A store in the layout CS, of registers from x8 to x15.
#[derive(Clone, Copy, Debug, PartialEq, Eq)]
pub enum CsOp {
    CSw,
    CSd,
}

impl CsOp {
    ghost use Rattle.std.specs.Prelude.{◌≡◌, ◌<◌, ◌^◌};
    ghost use Rattle.rv_ops.specs.Compressed.{cs_numbers};

    /// Bits 15 to 13 of the halfword.
    pub fn funct3(&self) -> u32
        ensures value { result ≡ (cs_numbers self.now).funct3 }
        ensures width { result < 2 ^ 3 }
    {
        match self {
            CsOp::CSw => 0b110,
            CsOp::CSd => 0b111,
        }
    }

    /// Its quadrant.
    pub fn op(&self) -> COpcodeSpace
        ensures { result ≡ (cs_numbers self.now).space }
    {
        match self {
            CsOp::CSw | CsOp::CSd => COpcodeSpace::C0,
        }
    }
}

/// A load in the layout CL, of registers from x8 to x15.
#[derive(Clone, Copy, Debug, PartialEq, Eq)]
pub enum ClOp {
    CLw,
    CLd,
}

impl ClOp {
    ghost use Rattle.std.specs.Prelude.{◌≡◌, ◌<◌, ◌^◌};
    ghost use Rattle.rv_ops.specs.Compressed.{cl_numbers};

    /// Bits 15 to 13 of the halfword.
    pub fn funct3(&self) -> u32
        ensures value { result ≡ (cl_numbers self.now).funct3 }
        ensures width { result < 2 ^ 3 }
    {
        match self {
            ClOp::CLw => 0b010,
            ClOp::CLd => 0b011,
        }
    }

    /// Its quadrant.
    pub fn op(&self) -> COpcodeSpace
        ensures { result ≡ (cl_numbers self.now).space }
    {
        match self {
            ClOp::CLw | ClOp::CLd => COpcodeSpace::C0,
        }
    }
}

/// A load or a store of a doubleword of the floating-point registers: `c.fld`, `c.fsd`, and `c.fldsp` and `c.fsdsp` past the
/// stack pointer.
#[derive(Clone, Copy, Debug, PartialEq, Eq)]
pub enum CFloatOp {
    CFld,
    CFsd,
    CFldsp,
    CFsdsp,
}

impl CFloatOp {
    ghost use Rattle.std.specs.Prelude.{◌≡◌, ◌<◌, ◌^◌};
    ghost use Rattle.rv_ops.specs.Compressed.{c_float_numbers};

    /// Bits 15 to 13 of the halfword.
    pub fn funct3(&self) -> u32
        ensures value { result ≡ (c_float_numbers self.now).funct3 }
        ensures width { result < 2 ^ 3 }
    {
        match self {
            CFloatOp::CFld | CFloatOp::CFldsp => 0b001,
            CFloatOp::CFsd | CFloatOp::CFsdsp => 0b101,
        }
    }

    /// Its quadrant.
    pub fn op(&self) -> COpcodeSpace
        ensures { result ≡ (c_float_numbers self.now).space }
    {
        match self {
            CFloatOp::CFld | CFloatOp::CFsd => COpcodeSpace::C0,
            CFloatOp::CFldsp | CFloatOp::CFsdsp => COpcodeSpace::C2,
        }
    }
}

/// An operation of Zcb that has one register, from x8 to x15, as source and destination.
#[derive(Clone, Copy, Debug, PartialEq, Eq)]
pub enum CsznOp {
    CZextb,
    CSextb,
    CZexth,
    CSexth,
    CZextw,
    CNot,
}

impl CsznOp {
    ghost use Rattle.std.specs.Prelude.{◌≡◌, ◌<◌, ◌^◌};
    ghost use Rattle.rv_ops.specs.Compressed.{cszn_numbers};

    /// Bits 15 to 10 of the halfword.
    pub fn funct6(&self) -> u32
        ensures value { result ≡ (cszn_numbers self.now).funct6 }
        ensures width { result < 2 ^ 6 }
    {
        match self {
            CsznOp::CNot
            | CsznOp::CZextb
            | CsznOp::CZexth
            | CsznOp::CZextw
            | CsznOp::CSextb
            | CsznOp::CSexth => 0b100_111,
        }
    }

    /// Bits 6 to 2 of the halfword.
    pub fn funct5(&self) -> u32
        ensures value { result ≡ (cszn_numbers self.now).funct5 }
        ensures width { result < 2 ^ 5 }
    {
        match self {
            CsznOp::CZextb => 0b11_000,
            CsznOp::CSextb => 0b11_001,
            CsznOp::CZexth => 0b11_010,
            CsznOp::CSexth => 0b11_011,
            CsznOp::CZextw => 0b11_100,
            CsznOp::CNot => 0b11_101,
        }
    }

    /// Its quadrant.
    pub fn op(&self) -> COpcodeSpace
        ensures { result ≡ (cszn_numbers self.now).space }
    {
        match self {
            CsznOp::CNot
            | CsznOp::CZextb
            | CsznOp::CZexth
            | CsznOp::CZextw
            | CsznOp::CSextb
            | CsznOp::CSexth => COpcodeSpace::C1,
        }
    }
}

/// A load or a store of Zcb, of registers from x8 to x15.
#[derive(Clone, Copy, Debug, PartialEq, Eq)]
pub enum ZcbMemOp {
    CLbu,
    CLhu,
    CLh,
    CSb,
    CSh,
}

impl ZcbMemOp {
    ghost use Rattle.std.specs.Prelude.{◌≡◌, ◌<◌, ◌^◌};
    ghost use Rattle.rv_ops.specs.Compressed.{zcb_numbers};

    /// Bits 15 to 10 of the halfword.
    pub fn funct6(&self) -> u32
        ensures value { result ≡ (zcb_numbers self.now).funct6 }
        ensures width { result < 2 ^ 6 }
    {
        match self {
            ZcbMemOp::CLbu => 0b100_000,
            ZcbMemOp::CLhu | ZcbMemOp::CLh => 0b100_001,
            ZcbMemOp::CSb => 0b100_010,
            ZcbMemOp::CSh => 0b100_011,
        }
    }

    /// How many bits its immediate has: two where it counts bytes, one where it counts halfwords.
    pub fn imm_bits(&self) -> u8
        ensures { result ≡ (zcb_numbers self.now).imm_bits }
    {
        match self {
            ZcbMemOp::CLhu | ZcbMemOp::CLh | ZcbMemOp::CSh => 1,
            ZcbMemOp::CLbu | ZcbMemOp::CSb => 2,
        }
    }

    /// Its quadrant.
    pub fn op(&self) -> COpcodeSpace
        ensures { result ≡ (zcb_numbers self.now).space }
    {
        match self {
            ZcbMemOp::CLbu | ZcbMemOp::CLhu | ZcbMemOp::CLh | ZcbMemOp::CSb | ZcbMemOp::CSh =>
                COpcodeSpace::C0,
        }
    }
}
