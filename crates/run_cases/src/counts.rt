//! Ones and zeros counted and bits reversed by code on the machine, at the edges and of a thousand random numbers each.

use crate::bench::{arrives, code_of};
use crate::error::{RunError, told};
use case_files::{CaseError, EMPTY_DIGEST, digest_with, next_random, number};
use rv_base::{IsaFlags, OutOfMemory};
use rv_machine::IntMachine;
use std::alloc::Global;

/// Where the code is.
const BASE: u64 = 0x1000;

/// Where it returns to.
const CALLER: u64 = 0x20000;

/// Numbers with ones at the ends of each type, or at every second place.
const EDGES: &str =
    "0 1 2 3 7f 80 ff 100 7fff 8000 ffff 10000 7fffffff 80000000 ffffffff 100000000 7fffffffffffffff 8000000000000000 ffffffffffffffff 102040810204080 5555555555555555 aaaaaaaaaaaaaaaa";

/// A machine that holds the code of the line and of a return.
fn machine_of(alloc: Global, line: &str) -> Result<IntMachine, RunError> {
    let text = format!(in alloc; "{line}\nRet\n")?;
    let (_, code) = code_of(alloc, &text)?;
    let mut machine = IntMachine::new(alloc, IsaFlags::none(), BASE);
    machine.load_image(BASE, code.bytes.as_slice())?;
    Ok(machine)
}

/// The digest with one result more; none where the code doesn't return.
fn with_result(
    machine: &mut IntMachine,
    hash: u64,
    number: u64,
) -> Result<Option<u64>, OutOfMemory> {
    machine.set_pc(BASE);
    machine.set_reg(1, CALLER);
    machine.set_reg(13, number);
    if !arrives(machine, CALLER)? {
        return Ok(None);
    }
    Ok(Some(digest_with(hash, machine.reg(10))))
}

/// The i-th of a thousand random numbers, from a state: fewer and fewer bits at the upper end, or at the lower.
fn random_number(state: u64, i: u32) -> u64 {
    let bits = state.rotate_left(32);
    let amount = i / 2 % 64;
    if i % 2 == 0 {
        bits >> amount
    } else {
        bits << amount
    }
}

/// FNV-1a over the results of the edges in place of bytes.
fn digest_of_edges(machine: &mut IntMachine) -> Result<Option<u64>, OutOfMemory> {
    let mut hash = EMPTY_DIGEST;
    for edge in EDGES.split(' ') {
        match with_result(machine, hash, number(edge))? {
            Some(more) => hash = more,
            None => return Ok(None),
        }
    }
    Ok(Some(hash))
}

/// The digest with the results of the random numbers.
fn with_random_numbers(machine: &mut IntMachine, hash: u64) -> Result<Option<u64>, OutOfMemory> {
    let mut hash = hash;
    let mut state = 1u64;
    for i in 0..1000 {
        state = next_random(state);
        match with_result(machine, hash, random_number(state, i))? {
            Some(more) => hash = more,
            None => return Ok(None),
        }
    }
    Ok(Some(hash))
}

/// The digest of all results.
fn digest(machine: &mut IntMachine) -> Result<Option<u64>, OutOfMemory> {
    match digest_of_edges(machine)? {
        Some(hash) => with_random_numbers(machine, hash),
        None => Ok(None),
    }
}

/// The digest of the results of a line, in hexadecimal digits.
fn digest_of(alloc: Global, line: &str) -> Result<String, RunError> {
    let mut machine = machine_of(alloc, line)?;
    match digest(&mut machine)? {
        Some(digest) => Ok(format!(in alloc; "{digest:x}")?),
        None => Err(RunError::Link("the code doesn't return")),
    }
}

/// The digest of the results of a line, in hexadecimal digits, or what keeps it from running.
pub(crate) fn digest_text(alloc: Global, line: &str) -> Result<String, CaseError> {
    told(alloc, digest_of(alloc, line))
}
