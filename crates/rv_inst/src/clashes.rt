//! Whether an instruction that computes in steps has a register of its own for each.

ghost use Rattle.std.specs.Prelude.{◌≡◌, [], ◌∷◌, ◌++◌};
ghost use Rattle.std.specs.List.{list_any};
ghost use Rattle.rv_inst.specs.Operands.{all_of};
ghost use Rattle.rv_inst.specs.Faults.{has_zero, has_clash};
ghost use Rattle.rv_inst.specs.Rules.{is_zero, same_class, same_register, is_base, is_one_of, clash, is_uneven, select_clash, is_stack};

use crate::inst::{Family, Inst};
use crate::registers::is_real_x;
use crate::results::results_clash;
use crate::sequence::{sequence_has_clash, sequence_has_zero};
use crate::units::{facts_have_clash, facts_have_zero};
use rv_base::{Reg, RegClass, ValueRegs, WritableReg};
use rv_ops::IntegerCompare;

fn is_zero(reg: Reg) -> bool
    ensures { result ≡ is_zero reg }
{
    is_real_x(reg, 0)
}

/// Returns whether two classes are the same one.
pub fn same_class(first: RegClass, second: RegClass) -> bool
    ensures { result ≡ same_class first second }
{
    match (first, second) {
        (RegClass::Int, RegClass::Int)
        | (RegClass::Float, RegClass::Float)
        | (RegClass::Vector, RegClass::Vector) => true,
        _ => false,
    }
}

/// Returns whether two registers are the same one.
pub fn same_register(first: Reg, second: Reg) -> bool
    ensures { result ≡ same_register first second }
{
    match (first, second) {
        (Reg::Real(p), Reg::Real(q)) => same_class(p.class, q.class) && p.number == q.number,
        (Reg::Virtual { class: c, index: i }, Reg::Virtual { class: d, index: j }) => {
            same_class(c, d) && i.value == j.value
        }
        (Reg::Real(_), Reg::Virtual { .. }) | (Reg::Virtual { .. }, Reg::Real(_)) => false,
    }
}

fn is_base(reg: Reg, base: Option<Reg>) -> bool
    ensures { result ≡ is_base reg base }
{
    match base {
        Some(base) => same_register(reg, base),
        None => false,
    }
}

pub fn is_one_of(reg: Reg, others: &[Reg]) -> bool
    ensures { result ≡ is_one_of reg others.now }
{
    others.iter().any(|other| same_register(reg, *other))
}

pub fn any_is_zero(registers: &[Reg]) -> bool
    ensures { result ≡ list_any is_zero registers.now }
{
    registers.iter().any(|r| is_zero(*r))
}

/// Two registers that are written while one is still read.
fn two_clash(first: Reg, second: Reg, input: Reg) -> bool
    ensures { result ≡ clash (first ∷ second ∷ []) (input ∷ []) }
{
    is_one_of(first, &[second, input]) || is_one_of(second, &[input])
}

/// Three registers that are written while one is still read.
pub fn three_clash(first: Reg, second: Reg, third: Reg, input: Reg) -> bool
    ensures { result ≡ clash (first ∷ second ∷ third ∷ []) (input ∷ []) }
{
    is_one_of(first, &[second, third, input])
        || is_one_of(second, &[third, input])
        || is_one_of(third, &[input])
}

/// Four registers that are written while one is still read.
pub fn four_clash(first: Reg, second: Reg, third: Reg, fourth: Reg, input: Reg) -> bool
    ensures { result ≡ clash (first ∷ second ∷ third ∷ fourth ∷ []) (input ∷ []) }
{
    is_one_of(first, &[second, third, fourth, input]) || three_clash(second, third, fourth, input)
}

/// Returns whether values are held in other numbers of registers.
fn is_uneven(dst: ValueRegs<WritableReg>, x: ValueRegs<Reg>, y: ValueRegs<Reg>) -> bool
    ensures { result ≡ is_uneven dst x y }
{
    !(dst.len() == x.len() && dst.len() == y.len())
}

fn value_is(reg: Reg, value: ValueRegs<Reg>) -> bool
    ensures { result ≡ is_one_of reg (all_of value) }
{
    match value {
        ValueRegs::One(r) => is_one_of(reg, &[r]),
        ValueRegs::Two(r, s) => is_one_of(reg, &[r, s]),
    }
}

fn is_either(reg: Reg, x: ValueRegs<Reg>, y: ValueRegs<Reg>) -> bool
    ensures { result ≡ is_one_of reg (all_of x ++ all_of y) }
{
    value_is(reg, x) || value_is(reg, y)
}

/// Returns whether a register is read by a choice.
fn is_chosen_by(reg: Reg, condition: IntegerCompare, x: ValueRegs<Reg>, y: ValueRegs<Reg>) -> bool
    ensures { result ≡ is_one_of reg ((condition.rs1 ∷ condition.rs2 ∷ []) ++ (all_of x ++ all_of y)) }
{
    same_register(reg, condition.rs1) || same_register(reg, condition.rs2) || is_either(reg, x, y)
}

/// Returns whether a result that is chosen is a compared register; of two results, whether they clash.
fn select_clash(
    dst: ValueRegs<WritableReg>,
    condition: IntegerCompare,
    x: ValueRegs<Reg>,
    y: ValueRegs<Reg>,
) -> bool
    ensures { result ≡ select_clash dst (condition.rs1 ∷ condition.rs2 ∷ []) (all_of x ++ all_of y) }
{
    match dst {
        ValueRegs::One(r) => is_one_of(r.reg, &[condition.rs1, condition.rs2]),
        ValueRegs::Two(r, s) => {
            same_register(r.reg, s.reg)
                || is_chosen_by(r.reg, condition, x, y)
                || is_chosen_by(s.reg, condition, x, y)
        }
    }
}

pub fn is_stack(reg: Reg) -> bool
    ensures { result ≡ is_stack reg }
{
    is_real_x(reg, 2)
}

/// Returns whether x0 stands where a result is computed in steps.
pub fn has_zero(inst: &Inst) -> bool
    ensures { result ≡ has_zero inst.now }
{
    match inst {
        Inst::Load {
            rd,
            op: _,
            flags: _,
            from,
        } => from.get_base_register().is_none() && is_zero(rd.reg),
        Inst::LoadAddr { rd, mem: _ } => is_zero(rd.reg),
        Inst::BrTable {
            index: _,
            tmp1,
            tmp2,
            targets: _,
        } => any_is_zero(&[tmp1.reg, tmp2.reg]),
        _ => match inst.family() {
            Family::Loop => sequence_has_zero(inst),
            Family::Integer | Family::Memory | Family::Control | Family::Symbols => facts_have_zero(
                inst,
            ),
            _ => false,
        },
    }
}

/// Returns whether a register that is written before all inputs are read is an input, or another such register; or a result on the
/// stack is loaded into the stack pointer, or into a register of another result; or a temporary that no allocator chooses is the stack
/// pointer.
pub fn has_clash(inst: &Inst) -> bool
    ensures { result ≡ has_clash inst.now }
{
    match inst {
        Inst::Select { info } => {
            let info = info.as_ref();
            is_uneven(info.dst, info.x, info.y)
                || select_clash(info.dst, info.condition, info.x, info.y)
        }
        Inst::LoadAddr { rd, mem } => is_base(rd.reg, mem.get_base_register()),
        Inst::BrTable {
            index,
            tmp1,
            tmp2,
            targets: _,
        } => two_clash(tmp1.reg, tmp2.reg, *index),
        Inst::Call { info } => results_clash(info.as_ref().defs.as_slice()),
        Inst::CallInd { info } => results_clash(info.as_ref().defs.as_slice()),
        _ => match inst.family() {
            Family::Loop => sequence_has_clash(inst),
            Family::Integer | Family::Memory | Family::Control | Family::Symbols =>
                facts_have_clash(inst),
            _ => false,
        },
    }
}
