//! The constraints of an instruction as a text: `use a1; def a0`.

use rv_base::{Constraint, OperandList, OutOfMemory, PReg, PRegSet, Reg, RegClass};
use rv_inst::Inst;
use rv_operands::MachInst;
use std::alloc::{AllocError, Global};

/// Appends the registers of a class that are in a set, with commas between all.
fn push_members(
    alloc: Global,
    text: &mut String,
    set: PRegSet,
    class: RegClass,
) -> Result<(), AllocError> {
    for number in 0..32u8 {
        let reg = PReg::new(number, class);
        if set.contains(reg) {
            let reg = Reg::from_preg(reg);
            let between = if text.is_empty() { " " } else { "," };
            text.push_str(&format!(in alloc; "{between}{reg}")?)?;
        }
    }
    Ok(())
}

/// The registers of a set, after a space, or nothing.
fn set_text(alloc: Global, set: PRegSet) -> Result<String, AllocError> {
    let mut text = String::new(alloc);
    push_members(alloc, &mut text, set, RegClass::Int)?;
    push_members(alloc, &mut text, set, RegClass::Float)?;
    push_members(alloc, &mut text, set, RegClass::Vector)?;
    Ok(text)
}

/// A constraint's word and its registers.
fn constraint_text(alloc: Global, constraint: &Constraint) -> Result<String, AllocError> {
    match constraint {
        Constraint::RegUse(r) => format!(in alloc; "use {r}"),
        Constraint::RegLateUse(r) => format!(in alloc; "late_use {r}"),
        Constraint::RegFixedUse(r, fixed) => format!(in alloc; "fixed_use {r} {fixed}"),
        Constraint::RegFixedLateUse(r, fixed) => format!(in alloc; "fixed_late_use {r} {fixed}"),
        Constraint::RegDef(w) => format!(in alloc; "def {}", w.reg),
        Constraint::RegEarlyDef(w) => format!(in alloc; "early_def {}", w.reg),
        Constraint::RegFixedDef(w, fixed) => format!(in alloc; "fixed_def {} {fixed}", w.reg),
        Constraint::RegReuseDef(w, index) => format!(in alloc; "reuse_def {} {index}", w.reg),
        Constraint::AnyDef(w) => format!(in alloc; "any_def {}", w.reg),
        Constraint::RegClobbers(set) => {
            let members = set_text(alloc, *set)?;
            format!(in alloc; "clobbers{members}")
        }
    }
}

/// What an instruction asks of a register allocator, in order, with `; ` between.
pub(crate) fn asked(alloc: Global, inst: &mut Inst) -> Result<String, AllocError> {
    let mut list = OperandList::new(alloc);
    let handed: Result<(), OutOfMemory> = inst.get_operands(&mut list);
    if handed.is_err() {
        return String::from_str(alloc, "out of memory");
    }
    let mut text = String::new(alloc);
    for constraint in list.constraints().as_slice() {
        if !text.is_empty() {
            text.push_str("; ")?;
        }
        text.push_str(&constraint_text(alloc, constraint)?)?;
    }
    Ok(text)
}
