//! Runs code until it goes no further.

ghost use Rattle.std.specs.Prelude.{◌≡◌, ◌<◌, IfOk, Some, None, ℕ, Bool, false, []};
ghost use Rattle.rv_base.specs.declared.flags.IsaFlags.{IsaFlags as Flags};
ghost use Rattle.rv_steps.specs.Running.{offset_in, word_at, is_break_base, is_break_op, is_break, stop_of};
ghost use Rattle.rv_full.specs.Units.{FullState};
ghost use Rattle.rv_steps.specs.Callees.{StepOrEnding, ending_with};
ghost use Rattle.rv_steps.specs.Computed.{IsUnanswered, RunsTo};

use crate::callees::{call_at, callee_at, return_from};
use crate::ending::{Ending, Place};
use crate::host::host_turn;
use crate::progress::{Progress, note_steps};
use rv_base::{IsaFlags, OutOfMemory};
use rv_full::{FullMachine, FullStep};
use rv_load::Callee;
use rv_machine::{BaseOp, MOp, int_decode};

fn offset_in(place: Place, address: u64) -> Option<u64>
    ensures { result ≡ offset_in place.base place.len address }
{
    if place.base <= address && address - place.base < place.len {
        Some(address - place.base)
    } else {
        None
    }
}

// The word at the program counter.
pub(crate) fn word_at(machine: &FullMachine) -> u32
    ensures { result ≡ word_at machine.now.full.state }
{
    machine.word(machine.pc())
}

fn is_break_base(op: BaseOp) -> bool
    ensures { result ≡ is_break_base op }
{
    match op {
        BaseOp::Ebreak => true,
        BaseOp::Lui
        | BaseOp::Auipc
        | BaseOp::Jal
        | BaseOp::Jalr
        | BaseOp::Beq
        | BaseOp::Bne
        | BaseOp::Blt
        | BaseOp::Bge
        | BaseOp::Bltu
        | BaseOp::Bgeu
        | BaseOp::Fence => false,
    }
}

fn is_break_op(op: MOp) -> bool
    ensures { result ≡ is_break_op op }
{
    match op {
        MOp::Base(op) => is_break_base(op),
        MOp::Load(_)
        | MOp::Store(_)
        | MOp::Alu(_)
        | MOp::Carry(_)
        | MOp::Atomic(_, _)
        | MOp::Csr(_)
        | MOp::FloatLoad(_)
        | MOp::FloatStore(_)
        | MOp::Float(_, _)
        | MOp::VecMem(_)
        | MOp::Vec { .. } => false,
    }
}

fn is_break(flags: IsaFlags, machine: &FullMachine) -> bool
    ensures { result ≡ is_break flags machine.now.full.state }
{
    match int_decode(flags, word_at(machine)) {
        Some(decoded) => machine.pc() % 2 == 0 && is_break_op(decoded.op),
        None => false,
    }
}

// Why the machine has no step.
fn stop_of(flags: IsaFlags, machine: &FullMachine, offset: u64) -> Ending
    ensures { result ≡ stop_of flags offset machine.now.full.state }
{
    if is_break(flags, machine) {
        Ending::Break { offset }
    } else {
        Ending::NoOperation {
            offset,
            word: word_at(machine),
        }
    }
}

// One step of the machine, or why there is none; after so many steps, fewer than the limit.
fn own_turn(
    flags: IsaFlags,
    machine: &mut FullMachine,
    place: Place,
    limit: u64,
    done: u64,
) -> Result<Option<Ending>, OutOfMemory>
    requires below { done < limit }
    requires flags { machine.old.flags ≡ flags }
    ensures { IfOk result (StepOrEnding [] place.base place.len limit done machine.old machine.new) }
{
    let Some(offset) = offset_in(place, machine.pc()) else {
        return Ok(Some(Ending::Left {
            address: machine.pc(),
        }));
    };
    match machine.step()? {
        FullStep::Stepped => Ok(None),
        FullStep::Stopped => Ok(Some(stop_of(flags, machine, offset))),
        FullStep::NeedsAnswer => Ok(Some(Ending::NeedsAnswer {
            offset,
            word: word_at(machine),
        })),
    }
}

// One step, which is a callee's where one stands at the program counter, or why there is none.
pub(crate) fn turn(
    callees: &[Callee],
    flags: IsaFlags,
    machine: &mut FullMachine,
    place: Place,
    limit: u64,
    done: u64,
) -> Result<Option<Ending>, OutOfMemory>
    requires below { done < limit }
    requires flags { machine.old.flags ≡ flags }
    ensures { IfOk result (StepOrEnding callees.now place.base place.len limit done machine.old machine.new) }
{
    match callee_at(callees, machine.pc()) {
        Some(callee) => {
            return_from(machine, callee);
            Ok(None)
        }
        None => own_turn(flags, machine, place, limit, done),
    }
}

// Why a run goes no further after as many steps as it may have.
pub(crate) fn last_ending(callees: &[Callee], machine: &FullMachine, place: Place) -> Ending
    ensures ends { (flags : Flags) (limit : ℕ) → ending_with callees.now flags place.base place.len limit limit machine.now.full ≡ Some result }
    ensures unanswered { (host : Bool) (flags : Flags) (last : FullState) → IsUnanswered host flags last result }
{
    match callee_at(callees, machine.pc()) {
        Some(_) => Ending::Limit,
        None => own_last_ending(machine, place),
    }
}

fn own_last_ending(machine: &FullMachine, place: Place) -> Ending
    ensures ends { (flags : Flags) (limit : ℕ) → ending_with [] flags place.base place.len limit limit machine.now.full ≡ Some result }
    ensures unanswered { (host : Bool) (flags : Flags) (last : FullState) → IsUnanswered host flags last result }
{
    match offset_in(place, machine.pc()) {
        Some(_) => Ending::Limit,
        None => Ending::Left {
            address: machine.pc(),
        },
    }
}

/// Runs the code at its place among callees, with at most so many steps of both, and with what the host answers where it is to. Returns how
/// many steps of its own it had, how many of the callees, and why it went no further.
pub fn run_code<P: Progress>(
    host: bool,
    callees: &[Callee],
    flags: IsaFlags,
    machine: &mut FullMachine,
    place: Place,
    limit: u64,
    progress: &mut P,
) -> Result<(u64, u64, Ending), OutOfMemory>
    requires { machine.old.flags ≡ flags }
    ensures { IfOk result (λ r. RunsTo host false callees.now place.base place.len limit machine.old r.0 r.1 machine.new r.2 []) }
{
    let mut calls = 0u64;
    for done in 0..limit {
        note_steps(progress, done);
        let call = call_at(callees, machine);
        match host_turn(host, callees, flags, machine, place, limit, done)? {
            None => calls += call,
            Some(ending) => return Ok((done - calls, calls, ending)),
        }
    }
    Ok((limit - calls, calls, last_ending(callees, machine, place)))
}
