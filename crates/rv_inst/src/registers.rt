//! Tests over the registers of an instruction.

ghost use Rattle.std.specs.Prelude.{◌≡◌, [], ◌∷◌, ◌++◌};
ghost use Rattle.std.specs.List.{list_any};
ghost use Rattle.rv_inst.specs.Operands.{family_of, arg_registers, ret_registers, use_registers, location_registers, def_registers, all_of, written_in, unwind_registers, inst_registers};
ghost use Rattle.rv_inst.specs.declared.inst.Family.TheVariants.{Pseudo, Integer, Memory, Control, Loop, Symbols, Calls};
ghost use Rattle.rv_inst.specs.RegisterTests.{test_of};
ghost use Rattle.rv_inst.specs.Rules.{is_x, is_real_x, is_reserved_x, is_stack_or_frame};

use crate::addresses::address_has;
use crate::inst::{Family, Inst, SelectInfo};
use crate::sequence::sequence_has;
use crate::units::{facts_have, unit_has};
use rv_base::{
    ArgPair, CallArgPair, CallRetPair, PReg, Reg, RegClass, RetLocation, RetPair, UnwindInst,
    ValueRegs, WritableReg,
};
use rv_ops::IntegerCompare;

/// What is asked of a register.
#[derive(Clone, Copy, Debug, PartialEq, Eq)]
pub enum RegisterTest {
    /// None of the machine's was chosen for it.
    Virtual,
    /// It isn't an integer register.
    OtherClass,
    /// It is x30 or x31.
    Reserved,
}

/// Returns whether the test holds of a register.
pub fn holds(test: RegisterTest, reg: Reg) -> bool
    ensures { result ≡ test_of test reg }
{
    match test {
        RegisterTest::Virtual => is_virtual(reg),
        RegisterTest::OtherClass => is_other_class(reg),
        RegisterTest::Reserved => is_reserved(reg),
    }
}

fn is_virtual(reg: Reg) -> bool
    ensures { result ≡ test_of RegisterTest.Virtual reg }
{
    match reg {
        Reg::Real(_) => false,
        Reg::Virtual { .. } => true,
    }
}

/// Returns whether a register isn't an integer register.
pub fn is_other_class(reg: Reg) -> bool
    ensures { result ≡ test_of RegisterTest.OtherClass reg }
{
    match reg.class() {
        RegClass::Int => false,
        RegClass::Float | RegClass::Vector => true,
    }
}

/// Returns whether a register of the machine is x30 or x31, which veneers and expansions change.
pub fn is_reserved_x(reg: PReg) -> bool
    ensures { result ≡ is_reserved_x reg }
{
    match reg.class {
        RegClass::Int => reg.number >= 30,
        RegClass::Float | RegClass::Vector => false,
    }
}

fn is_reserved(reg: Reg) -> bool
    ensures { result ≡ test_of RegisterTest.Reserved reg }
{
    match reg {
        Reg::Real(real) => is_reserved_x(real),
        Reg::Virtual { .. } => false,
    }
}

/// Returns whether a register of the machine is the integer register of a number.
pub fn is_x(reg: PReg, number: u8) -> bool
    ensures { result ≡ is_x number reg }
{
    match reg.class {
        RegClass::Int => reg.number == number,
        RegClass::Float | RegClass::Vector => false,
    }
}

/// Returns whether a register of the machine is sp or fp.
pub fn is_stack_or_frame(reg: PReg) -> bool
    ensures { result ≡ is_stack_or_frame reg }
{
    is_x(reg, 2) || is_x(reg, 8)
}

/// Returns whether a register is the machine's integer register of a number.
pub fn is_real_x(reg: Reg, number: u8) -> bool
    ensures { result ≡ is_real_x number reg }
{
    match reg {
        Reg::Real(real) => is_x(real, number),
        Reg::Virtual { .. } => false,
    }
}

pub fn any_of(test: RegisterTest, registers: &[Reg]) -> bool
    ensures { result ≡ list_any (test_of test) registers.now }
{
    registers.iter().any(|r| holds(test, *r))
}

fn any_of_args(test: RegisterTest, pairs: &[ArgPair]) -> bool
    ensures { result ≡ list_any (test_of test) (arg_registers pairs.now) }
{
    for pair in pairs {
        if holds(test, pair.vreg.reg) || holds(test, pair.preg) {
            return true;
        }
    }
    false
}

fn any_of_rets(test: RegisterTest, pairs: &[RetPair]) -> bool
    ensures { result ≡ list_any (test_of test) (ret_registers pairs.now) }
{
    for pair in pairs {
        if holds(test, pair.vreg) || holds(test, pair.preg) {
            return true;
        }
    }
    false
}

fn any_of_uses(test: RegisterTest, pairs: &[CallArgPair]) -> bool
    ensures { result ≡ list_any (test_of test) (use_registers pairs.now) }
{
    for pair in pairs {
        if holds(test, pair.vreg) || holds(test, pair.preg) {
            return true;
        }
    }
    false
}

fn any_of_defs(test: RegisterTest, defs: &[CallRetPair]) -> bool
    ensures { result ≡ list_any (test_of test) (def_registers defs.now) }
{
    for def in defs {
        if holds(test, def.vreg.reg) || location_has(test, def.location) {
            return true;
        }
    }
    false
}

fn location_has(test: RegisterTest, location: RetLocation) -> bool
    ensures { result ≡ list_any (test_of test) (location_registers location) }
{
    match location {
        RetLocation::Reg(reg) => any_of(test, &[reg]),
        RetLocation::Stack { .. } => false,
    }
}

/// Returns whether the test holds of a register of an argument or of a result.
fn either_of(test: RegisterTest, uses: &[CallArgPair], defs: &[CallRetPair]) -> bool
    ensures { result ≡ list_any (test_of test) (use_registers uses.now ++ def_registers defs.now) }
{
    any_of_uses(test, uses) || any_of_defs(test, defs)
}

/// Returns whether the test holds of the register that a step in the making of a frame saves.
fn unwind_has(test: RegisterTest, inst: UnwindInst) -> bool
    ensures { result ≡ list_any (test_of test) (unwind_registers inst) }
{
    match inst {
        UnwindInst::SaveReg {
            clobber_offset: _,
            reg,
        } => any_of(test, &[reg]),
        UnwindInst::PushFrameRegs { .. }
        | UnwindInst::DefineNewFrame { .. }
        | UnwindInst::StackAlloc { .. } => false,
    }
}

fn pseudo_has(test: RegisterTest, inst: &Inst) -> bool
    ensures { family_of inst.now ≡ Pseudo → result ≡ list_any (test_of test) (inst_registers inst.now) }
{
    match inst {
        Inst::Args { args } => any_of_args(test, args.as_slice()),
        Inst::Rets { rets } => any_of_rets(test, rets.as_slice()),
        Inst::DummyUse { reg } => any_of(test, &[*reg]),
        Inst::Unwind { inst } => unwind_has(test, *inst),
        _ => false,
    }
}

/// Returns whether the test holds of a register of an integer instruction.
pub fn integer_has(test: RegisterTest, inst: &Inst) -> bool
    ensures { family_of inst.now ≡ Integer → result ≡ list_any (test_of test) (inst_registers inst.now) }
{
    match inst {
        Inst::Lui { rd, imm: _ } => any_of(test, &[rd.reg]),
        Inst::AluRRR {
            alu_op: _,
            rd,
            rs1,
            rs2,
        } => any_of(test, &[rd.reg, *rs1, *rs2]),
        Inst::AluRRImm12 {
            alu_op: _,
            rd,
            rs,
            imm12: _,
        } => any_of(test, &[rd.reg, *rs]),
        Inst::Mov { rd, rm, ty: _ } => any_of(test, &[rd.reg, *rm]),
        Inst::MovFromPReg { rd, rm } => any_of(test, &[rd.reg, Reg::Real(*rm)]),
        Inst::Select { info } => select_has(test, info.as_ref()),
        _ => facts_have(test, inst),
    }
}

/// Returns whether the test holds of a register of a value.
fn value_has(test: RegisterTest, value: ValueRegs<Reg>) -> bool
    ensures { result ≡ list_any (test_of test) (all_of value) }
{
    match value {
        ValueRegs::One(r) => any_of(test, &[r]),
        ValueRegs::Two(r, s) => any_of(test, &[r, s]),
    }
}

/// Returns whether the test holds of a register that is written.
fn written_has(test: RegisterTest, value: ValueRegs<WritableReg>) -> bool
    ensures { result ≡ list_any (test_of test) (written_in value) }
{
    match value {
        ValueRegs::One(r) => any_of(test, &[r.reg]),
        ValueRegs::Two(r, s) => any_of(test, &[r.reg, s.reg]),
    }
}

fn either_has(test: RegisterTest, x: ValueRegs<Reg>, y: ValueRegs<Reg>) -> bool
    ensures { result ≡ list_any (test_of test) (all_of x ++ all_of y) }
{
    value_has(test, x) || value_has(test, y)
}

/// Returns whether the test holds of a register that a choice reads.
fn inputs_have(
    test: RegisterTest,
    condition: IntegerCompare,
    x: ValueRegs<Reg>,
    y: ValueRegs<Reg>,
) -> bool
    ensures { result ≡ list_any (test_of test) (condition.rs1 ∷ condition.rs2 ∷ all_of x ++ all_of y) }
{
    holds(test, condition.rs1) || holds(test, condition.rs2) || either_has(test, x, y)
}

/// Returns whether the test holds of a register that is compared.
pub fn compare_has(test: RegisterTest, condition: IntegerCompare) -> bool
    ensures { result ≡ list_any (test_of test) (condition.rs1 ∷ condition.rs2 ∷ []) }
{
    any_of(test, &[condition.rs1, condition.rs2])
}

fn select_has(test: RegisterTest, info: &SelectInfo) -> bool
    ensures { result ≡ list_any (test_of test) (written_in info.now.dst ++ info.now.condition.rs1 ∷ info.now.condition.rs2 ∷ all_of info.now.x ++ all_of info.now.y) }
{
    written_has(test, info.dst) || inputs_have(test, info.condition, info.x, info.y)
}

/// Returns whether the test holds of a register of an instruction that reads or writes memory.
pub fn memory_has(test: RegisterTest, inst: &Inst) -> bool
    ensures { family_of inst.now ≡ Memory → result ≡ list_any (test_of test) (inst_registers inst.now) }
{
    match inst {
        Inst::Load {
            rd,
            op: _,
            flags: _,
            from,
        } => holds(test, rd.reg) || address_has(test, *from),
        Inst::Store {
            to,
            op: _,
            flags: _,
            src,
        } => holds(test, *src) || address_has(test, *to),
        Inst::LoadAddr { rd, mem } => holds(test, rd.reg) || address_has(test, *mem),
        _ => facts_have(test, inst),
    }
}

/// Returns whether the test holds of a register of an instruction that goes elsewhere.
pub fn control_has(test: RegisterTest, inst: &Inst) -> bool
    ensures { family_of inst.now ≡ Control → result ≡ list_any (test_of test) (inst_registers inst.now) }
{
    match inst {
        Inst::CondBr {
            taken: _,
            not_taken: _,
            kind,
        } => any_of(test, &[kind.rs1, kind.rs2]),
        Inst::BrTable {
            index,
            tmp1,
            tmp2,
            targets: _,
        } => any_of(test, &[*index, tmp1.reg, tmp2.reg]),
        Inst::Jalr {
            rd,
            base,
            offset: _,
        } => any_of(test, &[rd.reg, *base]),
        _ => facts_have(test, inst),
    }
}

/// Returns whether the test holds of a register of an instruction that computes by a loop.
pub fn loop_has(test: RegisterTest, inst: &Inst) -> bool
    ensures { family_of inst.now ≡ Loop → result ≡ list_any (test_of test) (inst_registers inst.now) }
{
    sequence_has(test, inst)
}

/// Returns whether the test holds of a register of an instruction that depends on a symbol.
pub fn symbol_has(test: RegisterTest, inst: &Inst) -> bool
    ensures { family_of inst.now ≡ Symbols → result ≡ list_any (test_of test) (inst_registers inst.now) }
{
    facts_have(test, inst)
}

/// Returns whether the test holds of a register of a call.
fn call_has(test: RegisterTest, inst: &Inst) -> bool
    ensures { family_of inst.now ≡ Calls → result ≡ list_any (test_of test) (inst_registers inst.now) }
{
    match inst {
        Inst::Call { info } => {
            let info = info.as_ref();
            either_of(test, info.uses.as_slice(), info.defs.as_slice())
        }
        Inst::CallInd { info } => {
            let info = info.as_ref();
            holds(test, info.dest) || either_of(test, info.uses.as_slice(), info.defs.as_slice())
        }
        Inst::ReturnCall { info } => any_of_uses(test, info.as_ref().uses.as_slice()),
        Inst::ReturnCallInd { info } => {
            let info = info.as_ref();
            holds(test, info.dest) || any_of_uses(test, info.uses.as_slice())
        }
        _ => false,
    }
}

/// Returns whether the test holds of a register of the instruction.
pub fn has_register(test: RegisterTest, inst: &Inst) -> bool
    ensures { result ≡ list_any (test_of test) (inst_registers inst.now) }
{
    match inst.family() {
        Family::Pseudo => pseudo_has(test, inst),
        Family::Integer => integer_has(test, inst),
        Family::Memory => memory_has(test, inst),
        Family::Control => control_has(test, inst),
        Family::Loop => loop_has(test, inst),
        Family::Symbols => symbol_has(test, inst),
        Family::Calls => call_has(test, inst),
        Family::Float => unit_has(test, inst),
    }
}
