//! One call of code on the machine.

use rv_base::{IsaFlags, OutOfMemory};
use rv_machine::{IntMachine, Step};
use std::alloc::Global;

const BASE: u64 = 0x10000;
/// What is in ra: its bit 0 is cleared on the return.
const RETURN: u64 = 0x20001;
/// More steps than the code of 254 operations has.
const MOST_STEPS: usize = 4096;
/// The registers that a callee keeps: ra, sp, gp, tp, s0 to s11.
const KEPT: [u8; 16] = [1, 2, 3, 4, 8, 9, 18, 19, 20, 21, 22, 23, 24, 25, 26, 27];

pub(crate) enum Ended {
    /// To ra, with this in a0.
    Returned(u64),
    /// It returned, but a register that a callee keeps has changed.
    Changed,
    /// It didn't return.
    Lost,
}

/// What a register holds before the call, the arguments aside.
fn marked(register: u8) -> u64 {
    match register {
        1 => RETURN,
        2 => 0x7fff_ff00,
        _ => 0x5a5a_0000_0000_0000 | u64::from(register),
    }
}

/// Runs until the program counter is at an address; returns whether it came there.
fn run_to(machine: &mut IntMachine, target: u64) -> Result<bool, OutOfMemory> {
    for _ in 0..MOST_STEPS {
        if machine.pc() == target {
            return Ok(true);
        }
        match machine.step()? {
            Step::Stepped => {}
            Step::Stopped => return Ok(false),
        }
    }
    Ok(false)
}

fn has_kept(machine: &IntMachine) -> bool {
    KEPT.iter().all(|register| *register < 32 && machine.reg(*register) == marked(*register))
}

/// Puts the argument of a number into its register.
fn set_argument(machine: &mut IntMachine, index: usize, argument: u64) {
    if index < 8 {
        machine.set_reg(10 + index as u8, argument);
    }
}

/// Calls code with arguments in a0 and on.
pub(crate) fn run_code(
    alloc: Global,
    flags: IsaFlags,
    bytes: &[u8],
    args: &[u64],
) -> Result<Ended, OutOfMemory> {
    let mut machine = IntMachine::new(alloc, flags, BASE);
    machine.load_image(BASE, bytes)?;
    for register in 1..32u8 {
        machine.set_reg(register, marked(register));
    }
    for (index, argument) in args.iter().enumerate() {
        set_argument(&mut machine, index, *argument);
    }
    if !run_to(&mut machine, RETURN - 1)? {
        return Ok(Ended::Lost);
    }
    if has_kept(&machine) {
        Ok(Ended::Returned(machine.reg(10)))
    } else {
        Ok(Ended::Changed)
    }
}
