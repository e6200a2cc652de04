//! Assembled code in the machine: what the headline asks of a state is so of the machine's.

ghost use Rattle.std.specs.Prelude.{◌≡◌, ◌+◌, ◌≤◌, ◌%◌, ◌^◌, length, IfOk};
ghost use Rattle.rv_asm.specs.Reported.{start_of};
ghost use Rattle.run_cases.specs.Loaded.{IsBefore};

use crate::error::RunError;
use rv_asm::assemble;
use rv_base::{FrameLayout, IsaFlags};
use rv_inst::{Code, Inst, Line};
use rv_machine::{IntMachine, Step};
use std::alloc::Global;

/// A machine that holds code at an address, and stands at its start. Refuses code that a linker has to fill.
fn loaded(alloc: Global, code: &Code, base: u64) -> Result<IntMachine, RunError>
    requires aligned { base % 4 ≡ 0 }
    requires room { base + length code.now.bytes ≤ 2 ^ 64 }
    requires first { start_of code.now.lines 0 ≡ 0 }
    ensures { IfOk result (IsBefore code.now base 0) }
{
    if !code.relocs.as_slice().is_empty() {
        return Err(RunError::Link("code that a linker has to fill"));
    }
    let mut machine = IntMachine::new(alloc, IsaFlags::none(), base);
    machine.load_image(base, code.bytes.as_slice())?;
    machine.pc();
    Ok(machine)
}

/// A machine before the code of a listing.
fn started(alloc: Global, lines: &[Line], base: u64) -> Result<IntMachine, RunError>
    requires aligned { base % 4 ≡ 0 }
    requires room { base + 2 ^ 32 ≤ 2 ^ 64 }
{
    let frame = FrameLayout::none(alloc);
    let code = assemble(alloc, lines, IsaFlags::none(), &frame, &[])?;
    loaded(alloc, &code, base)
}

pub(crate) fn write(alloc: Global, text: &mut String) -> Result<(), RunError> {
    let mut machine = started(alloc, &[Line::Inst(Inst::Nop4)], 0x1000)?;
    let before = machine.pc();
    let is_stepped = machine.step()? == Step::Stepped;
    writeln!(
        text,
        "a step of assembled code from {before:x} to {:x}: {is_stepped}",
        machine.pc()
    )?;
    Ok(())
}
