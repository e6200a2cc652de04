//! What a visitor of operands is asked for.

use crate::error::RunError;
use rv_base::{
    AMode, Constraint, List, OperandList, OperandVisitor, OutOfMemory, PRegSet, a0, a1, a2,
    writable_a0,
};
use rv_ops::VecAMode;
use std::alloc::Global;

/// Asks to read the register of an address, and a1 in three ways.
fn ask_reads(visitor: &mut OperandList) -> Result<(), OutOfMemory> {
    let mut mode = AMode::RegOffset(a0(), 8);
    mode.get_operands(visitor)?;
    let mut read = a1();
    visitor.reg_late_use(&mut read)?;
    visitor.reg_fixed_use(&mut read, a2())?;
    visitor.reg_fixed_late_use(&mut read, a2())
}

/// Asks to write a0, in five ways, and for no clobbers.
fn ask_writes(visitor: &mut OperandList) -> Result<(), OutOfMemory> {
    let mut written = writable_a0();
    visitor.reg_def(&mut written)?;
    visitor.reg_early_def(&mut written)?;
    visitor.reg_fixed_def(&mut written, a2())?;
    visitor.reg_reuse_def(&mut written, 1)?;
    visitor.any_def(&mut written)?;
    visitor.reg_clobbers(PRegSet::new())
}

/// Whether requests are recorded in order.
fn are_recorded(alloc: Global) -> Result<bool, OutOfMemory> {
    let mut visitor = OperandList::new(alloc);
    ask_reads(&mut visitor)?;
    ask_writes(&mut visitor)?;
    let expected = [
        Constraint::RegUse(a0()),
        Constraint::RegLateUse(a1()),
        Constraint::RegFixedUse(a1(), a2()),
        Constraint::RegFixedLateUse(a1(), a2()),
        Constraint::RegDef(writable_a0()),
        Constraint::RegEarlyDef(writable_a0()),
        Constraint::RegFixedDef(writable_a0(), a2()),
        Constraint::RegReuseDef(writable_a0(), 1),
        Constraint::AnyDef(writable_a0()),
        Constraint::RegClobbers(PRegSet::new()),
    ];
    Ok(visitor.constraints().as_slice() == expected.as_slice())
}

/// Whether the base of a vector's address is read.
fn is_base_read(alloc: Global) -> Result<bool, OutOfMemory> {
    let mut visitor = OperandList::new(alloc);
    let mut mode = VecAMode {
        base: AMode::RegOffset(a0(), 8),
    };
    mode.get_operands(&mut visitor)?;
    Ok(visitor.constraints().as_slice() == [Constraint::RegUse(a0())].as_slice())
}

/// Whether a list grows by what is pushed.
fn is_grown(alloc: Global) -> Result<bool, OutOfMemory> {
    let mut list = List::new(alloc);
    list.push(3)?;
    list.push(4)?;
    Ok(list.as_slice() == [3, 4].as_slice())
}

pub(crate) fn write(alloc: Global, text: &mut String) -> Result<(), RunError> {
    let are_recorded = are_recorded(alloc)?;
    writeln!(text, "requests are recorded in order: {are_recorded}")?;
    let is_base_read = is_base_read(alloc)?;
    writeln!(
        text,
        "the base of a vector's address is read: {is_base_read}"
    )?;
    let is_grown = is_grown(alloc)?;
    writeln!(text, "a list grows: {is_grown}")?;
    Ok(())
}
