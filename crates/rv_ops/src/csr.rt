//! Operations on control and status registers, and the one of them that this project reads and writes (the manual's chapters
//! "Zicsr" and "F", "Floating-Point Control and Status Register").

use rv_imms::Imm12;
use rv_machine::SYSTEM;
use std::fmt;

/// An operation that takes an integer register: it writes the CSR, or sets or clears bits of it.
#[derive(Clone, Copy, Debug, PartialEq, Eq)]
pub enum CsrRegOP {
    CsrRW,
    CsrRS,
    CsrRC,
}

impl CsrRegOP {
    ghost use Rattle.std.specs.Prelude.{◌≡◌, ◌<◌, ◌^◌};
    ghost use Rattle.rv_machine.specs.Opcodes.{SYSTEM};
    ghost use Rattle.rv_ops.specs.Csr.{csr_reg_funct3, csr_reg_name};

    /// Bits 14 to 12 of the word.
    pub fn funct3(self) -> u32
        ensures value { result ≡ csr_reg_funct3 self }
        ensures width { result < 2 ^ 3 }
    {
        match self {
            CsrRegOP::CsrRW => 0b001,
            CsrRegOP::CsrRS => 0b010,
            CsrRegOP::CsrRC => 0b011,
        }
    }

    /// Bits 6 to 0 of the word: SYSTEM.
    pub fn opcode(self) -> u32
        ensures { result ≡ SYSTEM }
    {
        SYSTEM
    }

    /// The mnemonic.
    pub fn name(self) -> &'static str
        ensures { result.now ≡ csr_reg_name self }
    {
        match self {
            CsrRegOP::CsrRW => "csrrw",
            CsrRegOP::CsrRS => "csrrs",
            CsrRegOP::CsrRC => "csrrc",
        }
    }
}

impl fmt::Display for CsrRegOP {
    ghost use Rattle.std.specs.Prelude.{Some};
    ghost use Rattle.rv_ops.specs.Csr.{csr_reg_name};

    ghost output = { λ op. Some (csr_reg_name op) };

    fn fmt<W: fmt::Write>(&self, f: &mut fmt::Formatter<W>) -> fmt::Result {
        f.write_str(self.name())
    }
}

/// An operation that takes an immediate of five bits: it writes the CSR, or sets or clears bits of it.
#[derive(Clone, Copy, Debug, PartialEq, Eq)]
pub enum CsrImmOP {
    CsrRWI,
    CsrRSI,
    CsrRCI,
}

impl CsrImmOP {
    ghost use Rattle.std.specs.Prelude.{◌≡◌, ◌<◌, ◌^◌};
    ghost use Rattle.rv_machine.specs.Opcodes.{SYSTEM};
    ghost use Rattle.rv_ops.specs.Csr.{csr_imm_funct3, csr_imm_name};

    /// Bits 14 to 12 of the word.
    pub fn funct3(self) -> u32
        ensures value { result ≡ csr_imm_funct3 self }
        ensures width { result < 2 ^ 3 }
    {
        match self {
            CsrImmOP::CsrRWI => 0b101,
            CsrImmOP::CsrRSI => 0b110,
            CsrImmOP::CsrRCI => 0b111,
        }
    }

    /// Bits 6 to 0 of the word: SYSTEM.
    pub fn opcode(self) -> u32
        ensures { result ≡ SYSTEM }
    {
        SYSTEM
    }

    /// The mnemonic.
    pub fn name(self) -> &'static str
        ensures { result.now ≡ csr_imm_name self }
    {
        match self {
            CsrImmOP::CsrRWI => "csrrwi",
            CsrImmOP::CsrRSI => "csrrsi",
            CsrImmOP::CsrRCI => "csrrci",
        }
    }
}

impl fmt::Display for CsrImmOP {
    ghost use Rattle.std.specs.Prelude.{Some};
    ghost use Rattle.rv_ops.specs.Csr.{csr_imm_name};

    ghost output = { λ op. Some (csr_imm_name op) };

    fn fmt<W: fmt::Write>(&self, f: &mut fmt::Formatter<W>) -> fmt::Result {
        f.write_str(self.name())
    }
}

/// A control and status register: `frm`, the dynamic rounding mode.
#[derive(Clone, Copy, Debug, PartialEq, Eq)]
pub enum CSR {
    Frm,
}

impl CSR {
    ghost use Rattle.std.specs.Prelude.{◌≡◌, pos};
    ghost use Rattle.rv_ops.specs.Csr.{csr_number, csr_name};

    /// Its number, as bits 31 to 20 of a word hold it.
    pub fn bits(self) -> Imm12
        ensures { result.value ≡ pos (csr_number self) }
    {
        match self {
            CSR::Frm => Imm12::from_i16(0x002),
        }
    }

    /// Its name.
    pub fn name(self) -> &'static str
        ensures { result.now ≡ csr_name self }
    {
        match self {
            CSR::Frm => "frm",
        }
    }
}

impl fmt::Display for CSR {
    ghost use Rattle.std.specs.Prelude.{Some};
    ghost use Rattle.rv_ops.specs.Csr.{csr_name};

    ghost output = { λ csr. Some (csr_name csr) };

    fn fmt<W: fmt::Write>(&self, f: &mut fmt::Formatter<W>) -> fmt::Result {
        f.write_str(self.name())
    }
}
