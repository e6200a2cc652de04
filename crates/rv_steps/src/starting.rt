//! The machine that a run begins with.

ghost use Rattle.std.specs.Prelude.{◌≡◌, ◌+◌, ◌^◌, nat_le, OnOk, IfOk};
ghost use Rattle.rv_full.specs.Steps.{with_full};
ghost use Rattle.rv_load.specs.Words.{Reads};
ghost use Rattle.rv_steps.specs.Starting.{outside, line_start, start_offset, start_word, with_memory_of, set_register, with_registers_of, with_setting, with_answers_of, first_machine, begin};

use rv_base::{List, OutOfMemory, RegClass};
use rv_full::{Answer, FullMachine, Setting};
use rv_inst::LineSpan;
use rv_load::{BadWord, Data, Program, RegisterValue, Settings, SettingsError, Start};
use std::alloc::Global;

// Where the line of this number begins.
fn line_start(lines: &[LineSpan], index: u64) -> Option<u64>
    ensures { result ≡ line_start lines.now index }
{
    match lines.iter().find(|line| line.index as u64 == index) {
        Some(line) => Some(u64::from(line.start)),
        None => None,
    }
}

fn start_offset(start: Start, program: &Program) -> Option<u64>
    ensures { result ≡ start_offset start program.now }
{
    match start {
        Start::Beginning => Some(0),
        Start::Offset { offset } => {
            if offset < program.bytes.len() as u64 {
                Some(offset)
            } else {
                None
            }
        }
        Start::Line { index } => line_start(program.lines.as_slice(), index),
    }
}

// The word that says where to begin.
fn start_word(start: Start) -> BadWord
    ensures { result ≡ start_word start }
{
    match start {
        Start::Line { index: _ } => BadWord::From,
        Start::Beginning | Start::Offset { offset: _ } => BadWord::At,
    }
}

fn put_memory(machine: &mut FullMachine, memory: &[Data]) -> Result<(), OutOfMemory>
    ensures put { OnOk result (machine.new ≡ with_memory_of machine.old memory.now) }
    ensures flags { OnOk result (machine.new.flags ≡ machine.old.flags) }
{
    for data in memory {
        machine.load_image(data.address, data.bytes.as_slice())?;
    }
    Ok(())
}

fn put_register(machine: &mut FullMachine, register: RegisterValue)
    ensures put { machine.new ≡ with_full machine.old (set_register machine.old.full register.register.class register.register.number register.value) }
    ensures flags { machine.new.flags ≡ machine.old.flags }
{
    match register.register.class {
        RegClass::Int => machine.set_reg(register.register.number, register.value),
        RegClass::Float => machine.set_freg(register.register.number, register.value),
        RegClass::Vector => {}
    }
}

/// Sets registers, one after the other.
pub(crate) fn put_registers(machine: &mut FullMachine, registers: &[RegisterValue])
    ensures put { machine.new ≡ with_registers_of machine.old registers.now }
    ensures flags { machine.new.flags ≡ machine.old.flags }
{
    for register in registers {
        put_register(machine, *register);
    }
}

fn put_setting(machine: &mut FullMachine, setting: Setting)
    ensures put { machine.new ≡ with_setting machine.old setting }
    ensures flags { machine.new.flags ≡ machine.old.flags }
{
    machine.set_setting(setting.avl % 32, setting.vtype);
}

fn copy_of(alloc: Global, answer: &Answer) -> Result<Answer, OutOfMemory>
    ensures { IfOk result (λ copy. copy ≡ answer.now) }
{
    match answer {
        Answer::Bits(bits) => Ok(Answer::Bits(*bits)),
        Answer::Vectors(registers) => Ok(Answer::Vectors(List::from_slice(
            alloc,
            registers.as_slice(),
        )?)),
        Answer::Stored(bytes) => Ok(Answer::Stored(List::from_slice(alloc, bytes.as_slice())?)),
        Answer::Success(success) => Ok(Answer::Success(*success)),
        Answer::Length(length) => Ok(Answer::Length(*length)),
    }
}

fn give_answers(
    alloc: Global,
    machine: &mut FullMachine,
    answers: &[Answer],
) -> Result<(), OutOfMemory>
    ensures given { OnOk result (machine.new ≡ with_answers_of machine.old answers.now) }
    ensures flags { OnOk result (machine.new.flags ≡ machine.old.flags) }
{
    for answer in answers {
        let answer = copy_of(alloc, answer)?;
        machine.give(answer)?;
    }
    Ok(())
}

fn first_machine(
    alloc: Global,
    settings: &Settings,
    program: &Program,
    offset: u64,
) -> Result<FullMachine, OutOfMemory>
    ensures made { IfOk result (λ machine. machine ≡ first_machine settings.now program.now offset) }
    ensures flags { IfOk result (λ machine. machine.flags ≡ settings.now.flags) }
{
    let base = settings.base;
    let mut machine = FullMachine::new(alloc, settings.flags, base.wrapping_add(offset));
    machine.set_reg(1, base.wrapping_add(1 << 63));
    machine.load_image(base, program.bytes.as_slice())?;
    put_memory(&mut machine, settings.memory.as_slice())?;
    put_registers(&mut machine, settings.registers.as_slice());
    put_setting(&mut machine, settings.setting);
    give_answers(alloc, &mut machine, settings.answers.as_slice())?;
    Ok(machine)
}

// Returns whether so many bytes from an address on end at 2^64 or below it.
fn fits(base: u64, len: u64) -> bool
    ensures { result ≡ nat_le (base + len) (2 ^ 64) }
{
    len == 0 || len - 1 <= u64::MAX - base
}

/// The machine that a run of the program begins with, or the word that doesn't fit the program.
pub fn begin(
    alloc: Global,
    settings: &Settings,
    program: &Program,
) -> Result<FullMachine, SettingsError>
    ensures made { Reads (begin settings.now program.now) result }
    ensures flags { IfOk result (λ machine. machine.flags ≡ settings.now.flags) }
{
    if !fits(settings.base, program.bytes.len() as u64) {
        return Err(SettingsError::Bad {
            word: BadWord::Base,
        });
    }
    let Some(offset) = start_offset(settings.start, program) else {
        return Err(SettingsError::Bad {
            word: start_word(settings.start),
        });
    };
    match first_machine(alloc, settings, program, offset) {
        Ok(machine) => Ok(machine),
        Err(OutOfMemory) => Err(SettingsError::OutOfMemory),
    }
}
