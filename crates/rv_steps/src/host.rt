//! What the host computes where an operation needs an answer and none is left.

ghost use Rattle.std.specs.Prelude.{◌≡◌, ◌<◌, IfOk};
ghost use Rattle.rv_machine.specs.Layout.{HasFileRegisters};
ghost use Rattle.rv_full.specs.Units.{values_of};
ghost use Rattle.rv_steps.specs.Computed.{operands_at, answer_for, host_answer, computed, wants_answer, is_wanting, Turns};

use crate::ending::{Ending, Place};
use crate::running::{turn, word_at};
use rv_base::{IsaFlags, OutOfMemory};
use rv_full::{Answer, FullMachine};
use rv_host::{Operands, answer_of};
use rv_load::Callee;
use rv_machine::{Decoded, decode};

// The registers that an operation may read.
fn operands_at(machine: &FullMachine, d: Decoded) -> Operands
    requires { HasFileRegisters d }
    ensures { result ≡ operands_at d (values_of machine.now.full) }
{
    Operands {
        integer: machine.reg(d.rs1),
        first: machine.freg(d.rs1),
        second: machine.freg(d.rs2),
        third: machine.freg(d.rs3),
    }
}

fn answer_for(machine: &FullMachine, d: Decoded) -> Option<Answer>
    requires { HasFileRegisters d }
    ensures { result ≡ answer_for d machine.now.full }
{
    match answer_of(d, operands_at(machine, d), machine.frm()) {
        Some(bits) => Some(Answer::Bits(bits)),
        None => None,
    }
}

// What the host answers for the operation at the program counter.
fn host_answer(flags: IsaFlags, machine: &FullMachine) -> Option<Answer>
    ensures { result ≡ host_answer flags machine.now.full }
{
    match decode(flags, word_at(machine)) {
        Some(d) => answer_for(machine, d),
        None => None,
    }
}

// The host is asked where the words name it, once no answer is left.
fn computed(host: bool, flags: IsaFlags, machine: &FullMachine) -> Option<Answer>
    ensures { result ≡ computed host flags machine.now.full }
{
    if host && machine.answers_left() == 0 {
        host_answer(flags, machine)
    } else {
        None
    }
}

fn wants_answer(ending: Ending) -> bool
    ensures { result ≡ wants_answer ending }
{
    match ending {
        Ending::NeedsAnswer { offset: _, word: _ } => true,
        Ending::Left { address: _ }
        | Ending::Limit
        | Ending::Break { offset: _ }
        | Ending::NoOperation { offset: _, word: _ } => false,
    }
}

fn is_wanting(stop: Option<Ending>) -> bool
    ensures { result ≡ is_wanting stop }
{
    match stop {
        Some(ending) => wants_answer(ending),
        None => false,
    }
}

/// One step, with what the host answers where that is wanted, or why there is none; after so many steps, fewer than the limit.
pub(crate) fn host_turn(
    host: bool,
    callees: &[Callee],
    flags: IsaFlags,
    machine: &mut FullMachine,
    place: Place,
    limit: u64,
    done: u64,
) -> Result<Option<Ending>, OutOfMemory>
    requires below { done < limit }
    requires flags { machine.old.flags ≡ flags }
    ensures { IfOk result (Turns host callees.now place.base place.len limit done machine.old machine.new) }
{
    let stop = turn(callees, flags, machine, place, limit, done)?;
    if !is_wanting(stop) {
        return Ok(stop);
    }
    match computed(host, flags, machine) {
        Some(answer) => {
            machine.give(answer)?;
            turn(callees, flags, machine, place, limit, done)
        }
        None => Ok(stop),
    }
}
