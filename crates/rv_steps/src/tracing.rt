//! Runs code, and writes a line for each step.

ghost use Rattle.std.specs.Prelude.{◌≡◌, ◌++◌, ◌<◌, [], length, option_map, IfOk, IfSome, OnOk, true};
ghost use Rattle.rv_machine.specs.Decode as decoding;
ghost use Rattle.rv_machine.specs.Layout.{HasFileRegisters};
ghost use Rattle.rv_steps.specs.Computed.{RunsTo, TurnsTraced};
ghost use Rattle.rv_steps.specs.Tracing.{unit_line, operation_line, line_after, line_to, PutsLine};

use crate::callees::{call_at, callee_at, put_callee};
use crate::ending::{Ending, Place};
use crate::host::host_turn;
use crate::progress::{Progress, note_steps};
use crate::running::{last_ending, word_at};
use crate::written::put_unit_written;
use rv_base::{IsaFlags, OutOfMemory};
use rv_disasm::put_place;
use rv_full::FullMachine;
use rv_load::Callee;
use rv_machine::{Decoded, decode, int_decode};
use rv_trace::{put_instruction, put_step};
use std::alloc::Global;

// The line of a step of a unit's operation; the vector registers are those before it, and the machine stands after it.
fn put_unit(
    alloc: Global,
    flags: IsaFlags,
    out: &mut Vec<u8>,
    offset: u64,
    word: u32,
    vectors: &[u128],
    machine: &FullMachine,
) -> Result<(), OutOfMemory>
    requires { length vectors.now ≡ 32 }
    ensures { OnOk result (out.new.items ≡ out.old.items ++ unit_line offset word (decoding.decode flags word) vectors.now machine.now.full) }
{
    match decode(flags, word) {
        Some(d) => {
            let mut text = String::new(alloc);
            put_place(alloc, &mut text, offset, d.len, word)?;
            put_instruction(&mut text, &d)?;
            out.extend_from_slice(text.as_bytes())?;
            put_unit_written(alloc, out, d, vectors, machine)?;
            out.extend_from_slice(b"\n")?;
            Ok(())
        }
        None => Ok(()),
    }
}

// The line of a step of this integer operation, or where there is none, of a unit's.
fn put_operation(
    alloc: Global,
    flags: IsaFlags,
    out: &mut Vec<u8>,
    offset: u64,
    word: u32,
    decoded: Option<Decoded>,
    vectors: &[u128],
    machine: &FullMachine,
) -> Result<(), OutOfMemory>
    requires registers { IfSome decoded HasFileRegisters }
    requires count { length vectors.now ≡ 32 }
    ensures { OnOk result (out.new.items ≡ out.old.items ++ operation_line flags offset word decoded vectors.now machine.now.full) }
{
    match decoded {
        Some(d) => put_step(alloc, out, offset, word, d, machine.reg(d.rd)),
        None => put_unit(alloc, flags, out, offset, word, vectors, machine),
    }
}

// The line of a step of a callee, or where none stood at the program counter, of the machine.
fn put_line(
    alloc: Global,
    flags: IsaFlags,
    out: &mut Vec<u8>,
    callee: Option<&Callee>,
    offset: u64,
    word: u32,
    vectors: &[u128],
    machine: &FullMachine,
) -> Result<(), OutOfMemory>
    requires count { length vectors.now ≡ 32 }
    ensures { OnOk result (out.new.items ≡ out.old.items ++ line_after (option_map (λ c. c.now) callee.entry) flags offset word vectors.now machine.now.full) }
{
    match callee {
        Some(callee) => put_callee(alloc, out, callee),
        None => {
            let decoded = int_decode(flags, word);
            put_operation(alloc, flags, out, offset, word, decoded, vectors, machine)
        }
    }
}

// One step, and its line.
fn traced_turn(
    alloc: Global,
    host: bool,
    callees: &[Callee],
    flags: IsaFlags,
    machine: &mut FullMachine,
    place: Place,
    limit: u64,
    done: u64,
    out: &mut Vec<u8>,
) -> Result<Option<Ending>, OutOfMemory>
    requires below { done < limit }
    requires flags { machine.old.flags ≡ flags }
    ensures { IfOk result (TurnsTraced host callees.now flags place.base place.len limit done machine.old machine.new out.old.items out.new.items) }
{
    let word = word_at(machine);
    let offset = machine.pc().saturating_sub(place.base);
    let vectors = *machine.vectors();
    let callee = callee_at(callees, machine.pc());
    match host_turn(host, callees, flags, machine, place, limit, done)? {
        Some(ending) => Ok(Some(ending)),
        None => {
            put_line(alloc, flags, out, callee, offset, word, &vectors, machine)?;
            Ok(None)
        }
    }
}

/// Runs the code as `run_code` does, and puts a line for each step after nothing.
pub fn run_traced<P: Progress>(
    alloc: Global,
    host: bool,
    callees: &[Callee],
    flags: IsaFlags,
    machine: &mut FullMachine,
    place: Place,
    limit: u64,
    out: &mut Vec<u8>,
    progress: &mut P,
) -> Result<(u64, u64, Ending), OutOfMemory>
    requires flags { machine.old.flags ≡ flags }
    requires empty { out.old.items ≡ [] }
    ensures { IfOk result (λ r. RunsTo host true callees.now place.base place.len limit machine.old r.0 r.1 machine.new r.2 out.new.items) }
{
    let mut calls = 0u64;
    for done in 0..limit {
        note_steps(progress, done);
        let call = call_at(callees, machine);
        match traced_turn(
            alloc, host, callees, flags, machine, place, limit, done, out,
        )? {
            None => calls += call,
            Some(ending) => return Ok((done - calls, calls, ending)),
        }
    }
    Ok((limit - calls, calls, last_ending(callees, machine, place)))
}
