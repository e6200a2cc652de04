//! Callees: functions outside of the code, each of which returns at once.

ghost use Rattle.std.specs.Prelude.{◌≡◌, ◌≤◌, ◌++◌, IfOk, OnOk, codes, option_map, string_bytes};
ghost use Rattle.std.specs.Fmt.{decimal};
ghost use Rattle.rv_full.specs.Steps.{with_full};
ghost use Rattle.rv_steps.specs.Callees.{callee_at, call_at, returned};
ghost use Rattle.rv_steps.specs.Tracing.{set_text, sets_text, callee_line};

use crate::files::{Style, put_float};
use crate::starting::put_registers;
use crate::written::put_integer;
use rv_base::{OutOfMemory, RegClass};
use rv_full::FullMachine;
use rv_load::{Callee, RegisterValue};
use std::alloc::Global;

/// The callee that stands at an address, the first of them.
pub(crate) fn callee_at(callees: &[Callee], address: u64) -> Option<&Callee>
    ensures { option_map (λ c. c.now) result ≡ callee_at callees.now address }
{
    callees.iter().find(|callee| callee.address == address)
}

/// 1 where a callee stands at the program counter.
pub(crate) fn call_at(callees: &[Callee], machine: &FullMachine) -> u64
    ensures is { result ≡ call_at callees.now machine.now.full }
    ensures few { result ≤ 1 }
{
    match callee_at(callees, machine.pc()) {
        Some(_) => 1,
        None => 0,
    }
}

/// A callee returns to ra, whose bit 0 counts as 0, with its registers set.
pub(crate) fn return_from(machine: &mut FullMachine, callee: &Callee)
    ensures { machine.new ≡ with_full machine.old (returned callee.now machine.old.full) }
{
    machine.set_pc(machine.reg(1) / 2 * 2);
    put_registers(machine, callee.registers.as_slice());
}

// ---- the line of such a step

fn put_set(alloc: Global, out: &mut Vec<u8>, register: RegisterValue) -> Result<(), OutOfMemory>
    ensures { OnOk result (out.new.items ≡ out.old.items ++ set_text register.register.class register.register.number register.value) }
{
    let number = register.register.number;
    match register.register.class {
        RegClass::Int => put_integer(alloc, out, number, register.value),
        RegClass::Float => put_float(alloc, out, Style::Step, number, register.value),
        RegClass::Vector => Ok(()),
    }
}

fn put_sets(
    alloc: Global,
    out: &mut Vec<u8>,
    registers: &[RegisterValue],
) -> Result<(), OutOfMemory>
    ensures { OnOk result (out.new.items ≡ out.old.items ++ sets_text registers.now) }
{
    for register in registers {
        put_set(alloc, out, *register)?;
    }
    Ok(())
}

fn returns_text(alloc: Global, number: u32) -> Result<String, OutOfMemory>
    ensures { IfOk result (λ text. string_bytes text ≡ codes "userextname" ++ decimal number ++ codes ": returns") }
{
    Ok(format!(in alloc; "userextname{number}: returns")?)
}

/// Puts the line of a callee's step: its name, and the registers that it sets.
pub(crate) fn put_callee(
    alloc: Global,
    out: &mut Vec<u8>,
    callee: &Callee,
) -> Result<(), OutOfMemory>
    ensures { OnOk result (out.new.items ≡ out.old.items ++ callee_line callee.now) }
{
    let text = returns_text(alloc, callee.name.number)?;
    out.extend_from_slice(text.as_bytes())?;
    put_sets(alloc, out, callee.registers.as_slice())?;
    out.extend_from_slice(b"\n")?;
    Ok(())
}
