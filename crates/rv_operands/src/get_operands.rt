//! The registers of an instruction, which a register allocator is asked for. An instruction is taken apart, its registers are handed
//! over, and it is put together of those that were given.

ghost use Rattle.std.specs.Prelude.{◌≡◌};
ghost use Rattle.rv_inst.specs.Operands.{family_of};
ghost use Rattle.rv_inst.specs.declared.inst.Family.TheVariants.{Pseudo, Integer, Memory, Control, Loop, Symbols, Calls, Float};
ghost use Rattle.rv_operands.specs.Visits.{AreHandedOver};
ghost use Rattle.rv_inst.specs.Descriptions.{described_regs};
ghost use Rattle.rv_operands.specs.Operands.{constraints_of, regs_requests};
ghost use Rattle.rv_operands.specs.Shapes.{shape_of};

use crate::calls::{calls, calls_through, tail_calls_through};
use crate::groups::{
    addresses_and_reads, addresses_and_writes, addresses_and_writes_early, chooses, compares,
    reads_and_computes, reads_and_writes, reads_and_writes_two_early, reads_one,
    reads_sources_and_writes, reads_two_and_writes, writes_one,
};
use crate::pairs::hand_all;
use rv_base::{OperandVisitor, OutOfMemory};
use rv_inst::{Family, Inst};

/// An instruction with the registers that were given, and whether there was memory for all.
type Handed = (Inst, Result<(), OutOfMemory>);

/// Of a pseudo-instruction.
fn pseudo_operands<V: OperandVisitor>(inst: Inst, collector: &mut V) -> Handed
    ensures handed { family_of inst ≡ Pseudo → AreHandedOver V.recorded V.given result.1 collector.old collector.new (constraints_of inst) (constraints_of result.0) }
    ensures same { family_of inst ≡ Pseudo → shape_of result.0 ≡ shape_of inst }
{
    match inst {
        Inst::Args { mut args } => {
            let handed = hand_all(&mut args, collector);
            (Inst::Args { args }, handed)
        }
        Inst::Rets { mut rets } => {
            let handed = hand_all(&mut rets, collector);
            (Inst::Rets { rets }, handed)
        }
        Inst::DummyUse { mut reg } => {
            let handed = reads_one(&mut reg, collector);
            (Inst::DummyUse { reg }, handed)
        }
        other => (other, Ok(())),
    }
}

/// Of one that computes an integer register.
fn integer_operands<V: OperandVisitor>(inst: Inst, collector: &mut V) -> Handed
    ensures handed { family_of inst ≡ Integer → AreHandedOver V.recorded V.given result.1 collector.old collector.new (constraints_of inst) (constraints_of result.0) }
    ensures same { family_of inst ≡ Integer → shape_of result.0 ≡ shape_of inst }
{
    match inst {
        Inst::Lui { mut rd, imm } => {
            let handed = writes_one(&mut rd, collector);
            (Inst::Lui { rd, imm }, handed)
        }
        Inst::AluRRR {
            alu_op,
            mut rd,
            mut rs1,
            mut rs2,
        } => {
            let handed = reads_two_and_writes(&mut rs1, &mut rs2, &mut rd, collector);
            (
                Inst::AluRRR {
                    alu_op,
                    rd,
                    rs1,
                    rs2,
                },
                handed,
            )
        }
        Inst::AluRRImm12 {
            alu_op,
            mut rd,
            mut rs,
            imm12,
        } => {
            let handed = reads_and_writes(&mut rs, &mut rd, collector);
            (
                Inst::AluRRImm12 {
                    alu_op,
                    rd,
                    rs,
                    imm12,
                },
                handed,
            )
        }
        Inst::Mov { mut rd, mut rm, ty } => {
            let handed = reads_and_writes(&mut rm, &mut rd, collector);
            (Inst::Mov { rd, rm, ty }, handed)
        }
        Inst::MovFromPReg { mut rd, rm } => {
            let handed = writes_one(&mut rd, collector);
            (Inst::MovFromPReg { rd, rm }, handed)
        }
        Inst::Select { mut info } => {
            let handed = chooses(info.as_mut(), collector);
            (Inst::Select { info }, handed)
        }
        other => described_operands(other, collector),
    }
}

/// Of one that reads or writes memory, or computes an address.
fn memory_operands<V: OperandVisitor>(inst: Inst, collector: &mut V) -> Handed
    ensures handed { family_of inst ≡ Memory → AreHandedOver V.recorded V.given result.1 collector.old collector.new (constraints_of inst) (constraints_of result.0) }
    ensures same { family_of inst ≡ Memory → shape_of result.0 ≡ shape_of inst }
{
    match inst {
        Inst::Load {
            mut rd,
            op,
            flags,
            mut from,
        } => {
            let handed = addresses_and_writes(&mut from, &mut rd, collector);
            (
                Inst::Load {
                    rd,
                    op,
                    flags,
                    from,
                },
                handed,
            )
        }
        Inst::Store {
            mut src,
            op,
            flags,
            mut to,
        } => {
            let handed = addresses_and_reads(&mut to, &mut src, collector);
            (Inst::Store { src, op, flags, to }, handed)
        }
        Inst::LoadAddr { mut rd, mut mem } => {
            let handed = addresses_and_writes_early(&mut mem, &mut rd, collector);
            (Inst::LoadAddr { rd, mem }, handed)
        }
        other => described_operands(other, collector),
    }
}

/// Of one that goes elsewhere.
fn control_operands<V: OperandVisitor>(inst: Inst, collector: &mut V) -> Handed
    ensures handed { family_of inst ≡ Control → AreHandedOver V.recorded V.given result.1 collector.old collector.new (constraints_of inst) (constraints_of result.0) }
    ensures same { family_of inst ≡ Control → shape_of result.0 ≡ shape_of inst }
{
    match inst {
        Inst::CondBr {
            taken,
            not_taken,
            mut kind,
        } => {
            let handed = compares(&mut kind, collector);
            (
                Inst::CondBr {
                    taken,
                    not_taken,
                    kind,
                },
                handed,
            )
        }
        Inst::BrTable {
            mut index,
            mut tmp1,
            mut tmp2,
            targets,
        } => {
            let handed = reads_and_writes_two_early(&mut index, &mut tmp1, &mut tmp2, collector);
            (
                Inst::BrTable {
                    index,
                    tmp1,
                    tmp2,
                    targets,
                },
                handed,
            )
        }
        Inst::Jalr {
            mut rd,
            mut base,
            offset,
        } => {
            let handed = reads_and_writes(&mut base, &mut rd, collector);
            (Inst::Jalr { rd, base, offset }, handed)
        }
        other => described_operands(other, collector),
    }
}

/// Of one that computes by a loop of its own: of a sequence.
fn loop_operands<V: OperandVisitor>(inst: Inst, collector: &mut V) -> Handed
    ensures handed { family_of inst ≡ Loop → AreHandedOver V.recorded V.given result.1 collector.old collector.new (constraints_of inst) (constraints_of result.0) }
    ensures same { family_of inst ≡ Loop → shape_of result.0 ≡ shape_of inst }
{
    match inst.sequence() {
        Some(mut sequence) => {
            let handed = reads_and_computes(&mut sequence, collector);
            (inst.with_sequence(sequence), handed)
        }
        None => (inst, Ok(())),
    }
}

/// Of one that depends on a symbol.
fn symbol_operands<V: OperandVisitor>(inst: Inst, collector: &mut V) -> Handed
    ensures handed { family_of inst ≡ Symbols → AreHandedOver V.recorded V.given result.1 collector.old collector.new (constraints_of inst) (constraints_of result.0) }
    ensures same { family_of inst ≡ Symbols → shape_of result.0 ≡ shape_of inst }
{
    described_operands(inst, collector)
}

/// Of a call.
fn call_operands<V: OperandVisitor>(inst: Inst, collector: &mut V) -> Handed
    ensures handed { family_of inst ≡ Calls → AreHandedOver V.recorded V.given result.1 collector.old collector.new (constraints_of inst) (constraints_of result.0) }
    ensures same { family_of inst ≡ Calls → shape_of result.0 ≡ shape_of inst }
{
    match inst {
        Inst::Call { mut info } => {
            let handed = calls(info.as_mut(), collector);
            (Inst::Call { info }, handed)
        }
        Inst::CallInd { mut info } => {
            let handed = calls_through(info.as_mut(), collector);
            (Inst::CallInd { info }, handed)
        }
        Inst::ReturnCall { mut info } => {
            let handed = hand_all(&mut info.as_mut().uses, collector);
            (Inst::ReturnCall { info }, handed)
        }
        Inst::ReturnCallInd { mut info } => {
            let handed = tail_calls_through(info.as_mut(), collector);
            (Inst::ReturnCallInd { info }, handed)
        }
        other => (other, Ok(())),
    }
}

/// Of one word of a unit.
fn unit_operands<V: OperandVisitor>(inst: Inst, collector: &mut V) -> Handed
    ensures handed { family_of inst ≡ Float → AreHandedOver V.recorded V.given result.1 collector.old collector.new (constraints_of inst) (constraints_of result.0) }
    ensures same { family_of inst ≡ Float → shape_of result.0 ≡ shape_of inst }
{
    described_operands(inst, collector)
}

/// Of one that is described by its registers, which are all that are asked for, a temporary apart that its maker chooses; or of one for
/// which none is.
#[inline(never)]
fn described_operands<V: OperandVisitor>(inst: Inst, collector: &mut V) -> Handed
    ensures handed { constraints_of inst ≡ regs_requests (described_regs inst) → AreHandedOver V.recorded V.given result.1 collector.old collector.new (constraints_of inst) (constraints_of result.0) }
    ensures same { shape_of result.0 ≡ shape_of inst }
{
    let mut registers = inst.described_regs();
    let handed = reads_sources_and_writes(&mut registers, collector);
    (inst.with_registers(registers), handed)
}

/// Hands over the registers of an instruction, which comes back with those that were given.
pub fn handed_over<V: OperandVisitor>(inst: Inst, collector: &mut V) -> Handed
    ensures handed { AreHandedOver V.recorded V.given result.1 collector.old collector.new (constraints_of inst) (constraints_of result.0) }
    ensures same { shape_of result.0 ≡ shape_of inst }
{
    match inst.family() {
        Family::Pseudo => pseudo_operands(inst, collector),
        Family::Integer => integer_operands(inst, collector),
        Family::Memory => memory_operands(inst, collector),
        Family::Control => control_operands(inst, collector),
        Family::Loop => loop_operands(inst, collector),
        Family::Symbols => symbol_operands(inst, collector),
        Family::Calls => call_operands(inst, collector),
        Family::Float => unit_operands(inst, collector),
    }
}
