//! Single steps of the machine.

use case_files::word_number;
use rv_base::{IsaFlags, OutOfMemory};
use rv_machine::{IntMachine, Step};
use std::alloc::{AllocError, Global};

/// What a1 has before a store.
const STORED: u64 = 0x8091a2b3c4d5e6f7;

/// A machine with no extension, whose registers and bytes are all 0.
fn new_machine(alloc: Global) -> IntMachine {
    IntMachine::new(alloc, IsaFlags::none(), 0)
}

/// Does the operation of a word once, with these numbers in a0 and a1; returns whether it is done.
fn is_done(machine: &mut IntMachine, word: u64, x: u64, y: u64) -> Result<bool, OutOfMemory> {
    machine.load_image(0x1000, &word.to_le_bytes())?;
    machine.set_pc(0x1000);
    machine.set_reg(10, x);
    machine.set_reg(11, y);
    Ok(machine.step()? == Step::Stepped && machine.pc() == 0x1004)
}

/// The digits of a number; of a word that isn't done, that it isn't.
fn digits(alloc: Global, is_done: bool, value: u64) -> Result<String, AllocError> {
    if is_done {
        format!(in alloc; "{value:x}")
    } else {
        String::from_str(alloc, "not done")
    }
}

/// What a2 has after `NAME WORD A0 A1`.
pub(crate) fn stepped(alloc: Global, given: &str) -> Result<String, OutOfMemory> {
    let mut machine = new_machine(alloc);
    let mut columns = given.split(' ').skip(1);
    let word = word_number(columns.next());
    let x = word_number(columns.next());
    let y = word_number(columns.next());
    let is_done = is_done(&mut machine, word, x, y)?;
    Ok(digits(alloc, is_done, machine.reg(12))?)
}

/// What a2 has after `NAME WORD A0 ADDRESS BYTES`, a load.
pub(crate) fn loaded(alloc: Global, given: &str) -> Result<String, OutOfMemory> {
    let mut machine = new_machine(alloc);
    let mut columns = given.split(' ').skip(1);
    let word = word_number(columns.next());
    let x = word_number(columns.next());
    let at = word_number(columns.next());
    let bytes = word_number(columns.next());
    machine.load_image(at, &bytes.to_be_bytes())?;
    let is_done = is_done(&mut machine, word, x, 0)?;
    Ok(digits(alloc, is_done, machine.reg(12))?)
}

/// The eight bytes from an address on, as a number with the first as the highest.
fn doubleword(machine: &IntMachine, at: u64) -> u64 {
    let mut value = 0u64;
    for k in 0..8u64 {
        value = value << 8 | u64::from(machine.byte(at.wrapping_add(k)));
    }
    value
}

/// Whether the bytes before and after the eight from an address on are 5a.
fn is_beside_kept(machine: &IntMachine, at: u64) -> bool {
    machine.byte(at.wrapping_sub(1)) == 0x5a && machine.byte(at.wrapping_add(8)) == 0x5a
}

/// The eight bytes at `ADDRESS` after `NAME WORD A0 ADDRESS`, a store, where each was 5a, and those beside them.
pub(crate) fn stored(alloc: Global, given: &str) -> Result<String, OutOfMemory> {
    let mut machine = new_machine(alloc);
    let mut columns = given.split(' ').skip(1);
    let word = word_number(columns.next());
    let x = word_number(columns.next());
    let at = word_number(columns.next());
    machine.load_image(at.wrapping_sub(1), &[0x5a; 10])?;
    let is_done = is_done(&mut machine, word, x, STORED)?;
    let is_well = is_done && is_beside_kept(&machine, at);
    Ok(digits(alloc, is_well, doubleword(&machine, at))?)
}
