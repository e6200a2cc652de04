//! Results that a callee leaves on the stack.

ghost use Rattle.std.specs.Prelude.{◌≡◌, ◌∷◌, is_some};
ghost use Rattle.std.specs.List.{list_any};
ghost use Rattle.rv_inst.specs.Operands.{location_registers, result_registers};
ghost use Rattle.rv_inst.specs.Returns.{result_load};
ghost use Rattle.rv_inst.specs.Rules.{is_one_of, is_on_stack, is_loaded_from, is_loaded, is_unloadable, is_high_at, is_high, is_into_stack, is_into_result, either_into, results_clash};

use crate::clashes::{is_one_of, is_stack, same_register};
use rv_base::{CallRetPair as Def, IrType, Reg, RetLocation};

/// Returns whether a callee leaves a result on the stack.
pub fn is_on_stack(location: RetLocation) -> bool
    ensures { result ≡ is_on_stack location }
{
    match location {
        RetLocation::Reg(_) => false,
        RetLocation::Stack { .. } => true,
    }
}

/// Returns whether a result is on the stack, and of a type that is loaded from there.
fn is_loaded(location: RetLocation) -> bool
    ensures { result ≡ is_loaded_from location }
{
    match location {
        RetLocation::Reg(_) => false,
        RetLocation::Stack { offset: _, ty } => has_result_load(ty),
    }
}

/// Returns whether results of a type are loaded from the stack.
fn has_result_load(ty: IrType) -> bool
    ensures { result ≡ is_some (result_load ty) }
{
    match ty {
        IrType::I8 | IrType::I16 | IrType::I32 | IrType::I64 => true,
        IrType::F16 | IrType::F32 | IrType::F64 => true,
        IrType::I128 | IrType::F128 => false,
        IrType::Vector(_) => false,
    }
}

/// Returns whether a result is loaded.
pub fn any_is_loaded(defs: &[Def]) -> bool
    ensures { result ≡ list_any is_loaded defs.now }
{
    defs.iter().any(|d| is_loaded(d.location))
}

/// Returns whether a result is on the stack, and of a type that isn't loaded from there.
pub fn any_is_unloadable(defs: &[Def]) -> bool
    ensures { result ≡ list_any is_unloadable defs.now }
{
    defs.iter()
        .any(|d| is_on_stack(d.location) && !is_loaded(d.location))
}

fn is_high(location: RetLocation) -> bool
    ensures { result ≡ is_high_at location }
{
    match location {
        RetLocation::Reg(_) => false,
        RetLocation::Stack { offset, ty: _ } => offset > 1 << 30,
    }
}

/// Returns whether a result is further above the stack pointer than 2^30 bytes.
pub fn any_is_high(defs: &[Def]) -> bool
    ensures { result ≡ list_any is_high defs.now }
{
    defs.iter().any(|d| is_high(d.location))
}

/// Returns whether a result on the stack is loaded into the stack pointer, or into a register of another result.
pub fn results_clash(defs: &[Def]) -> bool
    ensures { result ≡ results_clash defs.now }
{
    for index in 0..defs.len() {
        let def = defs[index];
        if is_into_stack(def) || any_either_into(def, &defs[index + 1..]) {
            return true;
        }
    }
    false
}

fn is_into_stack(def: Def) -> bool
    ensures { result ≡ is_into_stack def }
{
    is_on_stack(def.location) && is_stack(def.vreg.reg)
}

fn any_either_into(def: Def, others: &[Def]) -> bool
    ensures { result ≡ list_any (either_into def) others.now }
{
    others.iter().any(|other| either_into(def, *other))
}

fn either_into(def: Def, other: Def) -> bool
    ensures { result ≡ either_into def other }
{
    is_into_result(def, other) || is_into_result(other, def)
}

fn is_into_result(def: Def, other: Def) -> bool
    ensures { result ≡ is_into_result def other }
{
    is_on_stack(def.location) && is_of_result(def.vreg.reg, other)
}

/// Returns whether a register is one of a result's.
fn is_of_result(reg: Reg, other: Def) -> bool
    ensures { result ≡ is_one_of reg (result_registers other) }
{
    same_register(reg, other.vreg.reg) || is_of_location(reg, other.location)
}

fn is_of_location(reg: Reg, location: RetLocation) -> bool
    ensures { result ≡ is_one_of reg (location_registers location) }
{
    match location {
        RetLocation::Reg(other) => is_one_of(reg, &[other]),
        RetLocation::Stack { .. } => false,
    }
}
