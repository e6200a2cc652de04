//! The machine where it stops, and calls of rvrun over noise and over streams that fail.

use crate::calls::status_of;
use crate::error::RunError;
use case_files::next_random;
use rv_base::{IsaFlags, OutOfMemory};
use rv_machine::{IntMachine, Step};
use rv_stream::{MemSink, MemSource, SureSink, SureSource};
use std::alloc::{AllocError, Global};

/// A machine with the loop `addi a0, a0, -1; bne a0, zero, -4; jalr zero, 0(ra)`, before two turns of it.
fn looping(alloc: Global) -> Result<IntMachine, OutOfMemory> {
    let mut machine = IntMachine::new(alloc, IsaFlags::none(), 0x1000);
    machine.load_image(
        0x1000,
        &[
            0x13, 0x05, 0xf5, 0xff, 0xe3, 0x1e, 0x05, 0xfe, 0x67, 0x80, 0, 0,
        ],
    )?;
    machine.set_reg(10, 2);
    machine.set_reg(1, 0x2001);
    machine.set_reg(0, 7);
    Ok(machine)
}

/// The loop after five steps and three more: how many are done, pc, a0, zero, and how many more are done.
fn ran(alloc: Global) -> Result<([u64; 5], Step), OutOfMemory> {
    let mut machine = looping(alloc)?;
    let done = machine.run(5)?;
    let (pc, a0, zero) = (machine.pc(), machine.reg(10), machine.reg(0));
    let more = machine.run(3)?;
    Ok(([done, pc, a0, zero, more], machine.step()?))
}

/// The step at an odd pc.
fn odd_step(alloc: Global) -> Result<Step, OutOfMemory> {
    let mut machine = looping(alloc)?;
    machine.set_pc(0x1001);
    machine.step()
}

/// The step at `ebreak`, which wraps round the end of the memory, and its last two bytes.
fn break_step(alloc: Global) -> Result<(Step, [u8; 2]), OutOfMemory> {
    let mut machine = looping(alloc)?;
    machine.load_image(0xffff_ffff_ffff_fffe, &[0x73, 0x00, 0x10, 0x00])?;
    machine.set_pc(0xffff_ffff_ffff_fffe);
    let step = machine.step()?;
    Ok((step, [machine.byte(0), machine.byte(1)]))
}

fn write_loop(alloc: Global, text: &mut String) -> Result<(), RunError> {
    let ([done, pc, a0, zero, more], last) = ran(alloc)?;
    Ok(writeln!(
        text,
        "five steps of a loop: {done}, pc {pc:x}, a0 {a0}, zero {zero}, then {more}, {last:?}"
    )?)
}

fn write_stops(alloc: Global, text: &mut String) -> Result<(), RunError> {
    let odd = odd_step(alloc)?;
    let (step, [low, high]) = break_step(alloc)?;
    writeln!(text, "a step at an odd pc: {odd:?}")?;
    Ok(writeln!(
        text,
        "a step at ebreak round the end of memory, whose bytes at 0 are {low:x} and {high:x}: {step:?}"
    )?)
}

/// The report of a loop that counts a0 down.
const COUNTDOWN: &str =
    "code 12\n00000000 1305f5ffe31e05fe67800000\nline 0 0 0\nline 1 0 4\nline 2 4 8\nline 3 8 12\nlabel L0 0\nend 12\n";

/// Puts bytes that look random.
fn put_noise(noise: &mut Vec<u8>, count: usize) -> Result<(), AllocError> {
    let mut state = 1u64;
    for _ in 0..count {
        state = next_random(state);
        noise.push((state >> 56) as u8)?;
    }
    Ok(())
}

/// The status of a call with these words over a million such bytes.
fn status_of_noise(alloc: Global, words: &str) -> Result<u8, AllocError> {
    let mut noise = Vec::new(alloc);
    put_noise(&mut noise, 1000000)?;
    let mut sink = SureSink::new(alloc);
    let mut errors = SureSink::new(alloc);
    status_of(
        alloc,
        words,
        &mut SureSource::new(&noise),
        &mut sink,
        &mut errors,
    )
}

/// The status of a call whose second read fails.
fn status_of_bad_read(alloc: Global) -> Result<u8, AllocError> {
    let failing = [1];
    let mut source = MemSource::new(COUNTDOWN.as_bytes(), 8, &failing);
    let mut sink = SureSink::new(alloc);
    let mut errors = SureSink::new(alloc);
    status_of(alloc, "a0=5", &mut source, &mut sink, &mut errors)
}

/// The status of a call whose second write fails.
fn status_of_bad_write(alloc: Global) -> Result<u8, AllocError> {
    let failing = [1];
    let mut source = SureSource::new(COUNTDOWN.as_bytes());
    let mut sink = MemSink::new(alloc, 4, &failing);
    let mut errors = SureSink::new(alloc);
    status_of(alloc, "a0=5", &mut source, &mut sink, &mut errors)
}

fn write_statuses(alloc: Global, text: &mut String) -> Result<(), AllocError> {
    let (noise, digits) = (
        status_of_noise(alloc, "")?,
        status_of_noise(alloc, "--hex")?,
    );
    writeln!(text, "rvrun over noise: {noise}, with --hex: {digits}")?;
    let (read, written) = (status_of_bad_read(alloc)?, status_of_bad_write(alloc)?);
    writeln!(
        text,
        "rvrun where the second read fails: {read}, where the second write: {written}"
    )
}

pub(crate) fn write(alloc: Global, text: &mut String) -> Result<(), RunError> {
    write_loop(alloc, text)?;
    write_stops(alloc, text)?;
    Ok(write_statuses(alloc, text)?)
}
