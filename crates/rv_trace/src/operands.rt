//! In which form an assembler writes the operands of an instruction.

ghost use Rattle.std.specs.Prelude.{◌≡◌};
ghost use Rattle.rv_trace.specs.Operands.{base_operands, operands_of};

use rv_disasm::{Field, File};
use rv_machine::{BaseOp, MOp};

/// The form of the operands of an instruction.
#[derive(Clone, Copy, Debug, PartialEq, Eq)]
pub enum Operands {
    /// All fields, in the order of the manual's listings.
    Fields,
    /// rd and the upper immediate of twenty bits.
    Upper,
    /// A register, and an immediate with rs1 in parentheses.
    Based(Field),
    /// The predecessor and the successor set of a fence.
    Sets,
}

fn base_operands(op: BaseOp) -> Operands
    ensures { result ≡ base_operands op }
{
    match op {
        BaseOp::Lui | BaseOp::Auipc => Operands::Upper,
        BaseOp::Jalr => Operands::Based(Field::Rd(File::X)),
        BaseOp::Fence => Operands::Sets,
        BaseOp::Jal
        | BaseOp::Beq
        | BaseOp::Bne
        | BaseOp::Blt
        | BaseOp::Bge
        | BaseOp::Bltu
        | BaseOp::Bgeu
        | BaseOp::Ebreak => Operands::Fields,
    }
}

/// In which form the operands of an instruction are written.
pub fn operands_of(op: MOp) -> Operands
    ensures { result ≡ operands_of op }
{
    match op {
        MOp::Base(op) => base_operands(op),
        MOp::Load(_) => Operands::Based(Field::Rd(File::X)),
        MOp::Store(_) => Operands::Based(Field::Rs2(File::X)),
        MOp::FloatLoad(_) => Operands::Based(Field::Rd(File::F)),
        MOp::FloatStore(_) => Operands::Based(Field::Rs2(File::F)),
        MOp::Alu(_)
        | MOp::Carry(_)
        | MOp::Atomic(_, _)
        | MOp::Csr(_)
        | MOp::Float(_, _)
        | MOp::VecMem(_)
        | MOp::Vec { .. } => Operands::Fields,
    }
}
