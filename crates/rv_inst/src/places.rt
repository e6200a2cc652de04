//! Whether each register has the class that its place asks.

ghost use Rattle.std.specs.Prelude.{◌≡◌, [], ◌∷◌, ◌++◌, ◌||◌};
ghost use Rattle.std.specs.List.{list_any};
ghost use Rattle.rv_base.specs.declared.call.ArgPair.{ArgPair};
ghost use Rattle.rv_base.specs.declared.call.RetPair.{RetPair};
ghost use Rattle.rv_base.specs.declared.call.CallArgPair.{CallArgPair};
ghost use Rattle.rv_base.specs.declared.call.CallRetPair.{CallRetPair};
ghost use Rattle.rv_inst.specs.Faults.{is_misplaced};
ghost use Rattle.rv_inst.specs.Rules.{differ_in_class, is_stack_or_frame, is_fifth, class_for, is_outside, location_differs, call_differs, is_other_class, is_vector, differ_at_places, values_differ};
ghost use Rattle.rv_inst.specs.declared.inst.Family.TheVariants.{Pseudo, Integer, Memory, Calls};
ghost use Rattle.rv_inst.specs.Operands.{family_of, all_of, written_in};

use crate::addresses::address_has;
use crate::clashes::same_class;
use crate::inst::{Family, Inst, SelectInfo};
use crate::registers::{
    RegisterTest, compare_has, control_has, integer_has, is_other_class, is_real_x,
    is_stack_or_frame, loop_has, memory_has, symbol_has,
};
use crate::units::{is_not_of, unit_misplaced};
use rv_base::{
    ArgPair as Arg, CallArgPair as Use, CallRetPair as Def, IrType, Reg, RegClass, RetLocation,
    RetPair as Ret, ValueRegs, WritableReg,
};

/// Returns whether two registers are of different classes.
pub fn differ_in_class(first: Reg, second: Reg) -> bool
    ensures { result ≡ differ_in_class first second }
{
    match (first.class(), second.class()) {
        (RegClass::Int, RegClass::Int)
        | (RegClass::Float, RegClass::Float)
        | (RegClass::Vector, RegClass::Vector) => false,
        _ => true,
    }
}

fn any_arg_differs(args: &[Arg]) -> bool
    ensures { result ≡ list_any (λ (p : ArgPair). differ_in_class p.vreg.reg p.preg) args.now }
{
    args.iter().any(|p| differ_in_class(p.vreg.reg, p.preg))
}

fn any_ret_differs(rets: &[Ret]) -> bool
    ensures { result ≡ list_any (λ (p : RetPair). differ_in_class p.vreg p.preg) rets.now }
{
    rets.iter().any(|p| differ_in_class(p.vreg, p.preg))
}

fn any_use_differs(uses: &[Use]) -> bool
    ensures { result ≡ list_any (λ (p : CallArgPair). differ_in_class p.vreg p.preg) uses.now }
{
    uses.iter().any(|p| differ_in_class(p.vreg, p.preg))
}

fn is_fifth(reg: Reg) -> bool
    ensures { result ≡ is_fifth reg }
{
    is_real_x(reg, 5)
}

fn pseudo_misplaced(inst: &Inst) -> bool
    ensures { family_of inst.now ≡ Pseudo → result ≡ is_misplaced inst.now }
{
    match inst {
        Inst::Args { args } => any_arg_differs(args.as_slice()),
        Inst::Rets { rets } => any_ret_differs(rets.as_slice()),
        _ => false,
    }
}

fn is_vector(reg: Reg) -> bool
    ensures { result ≡ is_vector reg }
{
    match reg.class() {
        RegClass::Int | RegClass::Float => false,
        RegClass::Vector => true,
    }
}

fn any_is_vector(registers: &[Reg]) -> bool
    ensures { result ≡ list_any is_vector registers.now }
{
    registers.iter().any(|r| is_vector(*r))
}

/// The registers that are written.
fn written(value: ValueRegs<WritableReg>) -> ValueRegs<Reg>
    ensures { all_of result ≡ written_in value }
{
    match value {
        ValueRegs::One(r) => ValueRegs::One(r.reg),
        ValueRegs::Two(r, s) => ValueRegs::Two(r.reg, s.reg),
    }
}

fn value_has_vector(value: ValueRegs<Reg>) -> bool
    ensures { result ≡ list_any is_vector (all_of value) }
{
    match value {
        ValueRegs::One(r) => any_is_vector(&[r]),
        ValueRegs::Two(r, s) => any_is_vector(&[r, s]),
    }
}

fn either_has_vector(x: ValueRegs<Reg>, y: ValueRegs<Reg>) -> bool
    ensures { result ≡ list_any is_vector (all_of x ++ all_of y) }
{
    value_has_vector(x) || value_has_vector(y)
}

fn any_has_vector(dst: ValueRegs<Reg>, x: ValueRegs<Reg>, y: ValueRegs<Reg>) -> bool
    ensures { result ≡ list_any is_vector (all_of dst ++ all_of x ++ all_of y) }
{
    value_has_vector(dst) || either_has_vector(x, y)
}

/// Returns whether registers at one place differ in class, of the places that both values have.
fn differ_at_places(first: ValueRegs<Reg>, second: ValueRegs<Reg>) -> bool
    ensures { result ≡ differ_at_places (all_of first) (all_of second) }
{
    match (first, second) {
        (ValueRegs::One(r), ValueRegs::One(t)) => differ_in_class(r, t),
        (ValueRegs::One(r), ValueRegs::Two(t, _)) => differ_in_class(r, t),
        (ValueRegs::Two(r, _), ValueRegs::One(t)) => differ_in_class(r, t),
        (ValueRegs::Two(r, s), ValueRegs::Two(t, u)) => {
            differ_in_class(r, t) || differ_in_class(s, u)
        }
    }
}

/// Returns whether values of which one is chosen differ in class at a place, or have a vector register.
fn values_differ(dst: ValueRegs<Reg>, x: ValueRegs<Reg>, y: ValueRegs<Reg>) -> bool
    ensures { result ≡ values_differ (all_of dst) (all_of x) (all_of y) }
{
    differ_at_places(dst, x)
        || (differ_at_places(dst, y) || (differ_at_places(x, y) || any_has_vector(dst, x, y)))
}

fn select_misplaced(info: &SelectInfo) -> bool
    ensures { result ≡ (list_any is_other_class (info.now.condition.rs1 ∷ info.now.condition.rs2 ∷ []) || values_differ (written_in info.now.dst) (all_of info.now.x) (all_of info.now.y)) }
{
    compare_has(RegisterTest::OtherClass, info.condition)
        || values_differ(written(info.dst), info.x, info.y)
}

fn integer_misplaced(inst: &Inst) -> bool
    ensures { family_of inst.now ≡ Integer → result ≡ is_misplaced inst.now }
{
    match inst {
        Inst::Mov { rd, rm, ty: _ } => differ_in_class(rd.reg, *rm),
        Inst::MovFromPReg { rd, rm } => is_other_class(rd.reg) || !is_stack_or_frame(*rm),
        Inst::Select { info } => select_misplaced(info.as_ref()),
        _ => integer_has(RegisterTest::OtherClass, inst),
    }
}

fn memory_misplaced(inst: &Inst) -> bool
    ensures { family_of inst.now ≡ Memory → result ≡ is_misplaced inst.now }
{
    match inst {
        Inst::Load {
            rd,
            op,
            flags: _,
            from,
        } => is_not_of(op.class(), rd.reg) || address_has(RegisterTest::OtherClass, *from),
        Inst::Store {
            to,
            op,
            flags: _,
            src,
        } => is_not_of(op.class(), *src) || address_has(RegisterTest::OtherClass, *to),
        _ => memory_has(RegisterTest::OtherClass, inst),
    }
}

fn call_misplaced(inst: &Inst) -> bool
    ensures { family_of inst.now ≡ Calls → result ≡ is_misplaced inst.now }
{
    match inst {
        Inst::Call { info } => {
            let info = info.as_ref();
            call_differs(info.uses.as_slice(), info.defs.as_slice())
        }
        Inst::CallInd { info } => {
            let info = info.as_ref();
            is_other_class(info.dest) || call_differs(info.uses.as_slice(), info.defs.as_slice())
        }
        Inst::ReturnCall { info } => any_use_differs(info.as_ref().uses.as_slice()),
        Inst::ReturnCallInd { info } => {
            let info = info.as_ref();
            !is_fifth(info.dest) || any_use_differs(info.uses.as_slice())
        }
        _ => false,
    }
}

fn any_def_differs(defs: &[Def]) -> bool
    ensures { result ≡ list_any (λ (d : CallRetPair). location_differs d.vreg.reg d.location) defs.now }
{
    defs.iter()
        .any(|d| location_differs(d.vreg.reg, d.location))
}

fn location_differs(reg: Reg, location: RetLocation) -> bool
    ensures { result ≡ location_differs reg location }
{
    match location {
        RetLocation::Reg(preg) => differ_in_class(reg, preg),
        RetLocation::Stack { offset: _, ty } => is_outside(class_for(ty), reg.class()),
    }
}

/// The class of a type's registers, where it has one.
fn class_for(ty: IrType) -> Option<RegClass>
    ensures { result ≡ class_for ty }
{
    match ty {
        IrType::I8 | IrType::I16 | IrType::I32 | IrType::I64 => Some(RegClass::Int),
        IrType::F16 | IrType::F32 | IrType::F64 => Some(RegClass::Float),
        IrType::Vector(_) => Some(RegClass::Vector),
        IrType::I128 | IrType::F128 => None,
    }
}

fn is_outside(asked: Option<RegClass>, class: RegClass) -> bool
    ensures { result ≡ is_outside asked class }
{
    match asked {
        Some(asked) => !same_class(class, asked),
        None => false,
    }
}

fn call_differs(uses: &[Use], defs: &[Def]) -> bool
    ensures { result ≡ call_differs uses.now defs.now }
{
    any_use_differs(uses) || any_def_differs(defs)
}

/// Returns whether some register has another class than its place asks.
pub fn is_misplaced(inst: &Inst) -> bool
    ensures { result ≡ is_misplaced inst.now }
{
    match inst.family() {
        Family::Pseudo => pseudo_misplaced(inst),
        Family::Integer => integer_misplaced(inst),
        Family::Memory => memory_misplaced(inst),
        Family::Control => control_has(RegisterTest::OtherClass, inst),
        Family::Loop => loop_has(RegisterTest::OtherClass, inst),
        Family::Symbols => symbol_has(RegisterTest::OtherClass, inst),
        Family::Calls => call_misplaced(inst),
        Family::Float => unit_misplaced(inst),
    }
}
