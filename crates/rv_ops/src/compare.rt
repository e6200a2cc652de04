//! Comparisons of two registers, as conditional branches (the manual's chapter "RV32I Base Integer Instruction Set",
//! "Conditional Branches").

ghost use Rattle.std.specs.Prelude.{◌≡◌, ◌<◌, ◌^◌};
ghost use Rattle.rv_base.specs.Regs.{number_of};

use rv_base::{IntCC, Reg};
use rv_machine::BRANCH;

/// The manual's branches: `beq`, `bne`, `blt`, `bge`, `bltu` and `bgeu`.
#[derive(Clone, Copy, Debug, PartialEq, Eq)]
pub enum BranchFunct3 {
    Eq,
    Ne,
    Lt,
    Ge,
    Ltu,
    Geu,
}

impl BranchFunct3 {
    ghost use Rattle.std.specs.Prelude.{◌≡◌, ◌<◌, ◌^◌};
    ghost use Rattle.rv_ops.specs.Compare.{funct3_of};

    /// Bits 14 to 12 of the word.
    pub fn funct3(self) -> u32
        ensures value { result ≡ funct3_of self }
        ensures width { result < 2 ^ 3 }
    {
        match self {
            BranchFunct3::Eq => 0b000,
            BranchFunct3::Ne => 0b001,
            BranchFunct3::Lt => 0b100,
            BranchFunct3::Ge => 0b101,
            BranchFunct3::Ltu => 0b110,
            BranchFunct3::Geu => 0b111,
        }
    }
}

/// The number of a real register, as a word's field holds it.
fn number(reg: Reg) -> u32
    ensures value { result ≡ number_of reg }
    ensures width { result < 2 ^ 5 }
{
    match reg {
        Reg::Real(reg) => u32::from(reg.number),
        Reg::Virtual { .. } => 0,
    }
}

/// A comparison of two registers of 64 bits, `rs1` on the left.
#[derive(Clone, Copy, Debug)]
pub struct IntegerCompare {
    pub kind: IntCC,
    pub rs1: Reg,
    pub rs2: Reg,
}

impl IntegerCompare {
    ghost use Rattle.std.specs.Prelude.{◌≡◌, [], ◌∷◌, IsSome};
    ghost use Rattle.rv_base.specs.CondCodes.{complement_of};
    ghost use Rattle.rv_base.specs.Regs.{real_of};
    ghost use Rattle.rv_machine.specs.Opcodes.{BRANCH};
    ghost use Rattle.rv_ops.specs.Compare.{branch_of, is_reversed, branch_name, branch_word};

    /// Bits 6 to 0 of the word: BRANCH.
    pub fn op_code(self) -> u32
        ensures { result ≡ BRANCH }
    {
        BRANCH
    }

    /// The manual's branch, and whether its word has the registers exchanged.
    pub fn funct3(&self) -> (BranchFunct3, bool)
        ensures branch { result.0 ≡ branch_of self.now.kind }
        ensures reversed { result.1 ≡ is_reversed self.now.kind }
    {
        match self.kind {
            IntCC::Equal => (BranchFunct3::Eq, false),
            IntCC::NotEqual => (BranchFunct3::Ne, false),
            IntCC::SignedLessThan => (BranchFunct3::Lt, false),
            IntCC::SignedGreaterThanOrEqual => (BranchFunct3::Ge, false),
            IntCC::SignedGreaterThan => (BranchFunct3::Lt, true),
            IntCC::SignedLessThanOrEqual => (BranchFunct3::Ge, true),
            IntCC::UnsignedLessThan => (BranchFunct3::Ltu, false),
            IntCC::UnsignedGreaterThanOrEqual => (BranchFunct3::Geu, false),
            IntCC::UnsignedGreaterThan => (BranchFunct3::Ltu, true),
            IntCC::UnsignedLessThanOrEqual => (BranchFunct3::Geu, true),
        }
    }

    /// The mnemonic; for a branch with exchanged registers, the pseudo-instruction's.
    pub fn op_name(&self) -> &'static str
        ensures { result.now ≡ branch_name self.now.kind }
    {
        match self.kind {
            IntCC::Equal => "beq",
            IntCC::NotEqual => "bne",
            IntCC::SignedLessThan => "blt",
            IntCC::SignedGreaterThanOrEqual => "bge",
            IntCC::SignedGreaterThan => "bgt",
            IntCC::SignedLessThanOrEqual => "ble",
            IntCC::UnsignedLessThan => "bltu",
            IntCC::UnsignedGreaterThanOrEqual => "bgeu",
            IntCC::UnsignedGreaterThan => "bgtu",
            IntCC::UnsignedLessThanOrEqual => "bleu",
        }
    }

    /// The word of the branch with offset 0. The registers are real.
    pub fn emit(self) -> u32
        requires rs1 { IsSome (real_of self.rs1) }
        requires rs2 { IsSome (real_of self.rs2) }
        ensures { result ≡ branch_word self }
    {
        let (branch, is_reversed) = self.funct3();
        let (rs1, rs2) = if is_reversed {
            (self.rs2, self.rs1)
        } else {
            (self.rs1, self.rs2)
        };
        self.op_code() | branch.funct3() << 12 | number(rs1) << 15 | number(rs2) << 20
    }

    /// The comparison that holds where this one doesn't, and nowhere else.
    pub fn inverse(self) -> IntegerCompare
        ensures { result ≡ record self { kind = complement_of self.kind } }
    {
        IntegerCompare {
            kind: self.kind.complement(),
            ..self
        }
    }

    /// Both registers, in order.
    pub fn regs(&self) -> [Reg; 2]
        ensures { result ≡ self.now.rs1 ∷ self.now.rs2 ∷ [] }
    {
        [self.rs1, self.rs2]
    }
}
