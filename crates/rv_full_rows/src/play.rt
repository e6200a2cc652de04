//! What a line does to a machine, and what it shows.

ghost use Rattle.std.specs.Prelude.{◌<◌};

use crate::digests::{digest_of_edges, digest_of_halves, digest_of_words, flags_of};
use rv_base::{List, OutOfMemory};
use rv_full::{Answer, Entry, FullMachine};
use rv_machine::decode;
use std::alloc::Global;

/// Where the words stand that are stepped over.
const START: u64 = 0x1000;

/// A number in hex, 0 where there is none.
fn number(text: &str) -> u64 {
    u64::from_str_radix(text, 16).unwrap_or(0)
}

fn wide(text: &str) -> u128 {
    u128::from_str_radix(text, 16).unwrap_or(0)
}

/// The first word of a line, and the others.
fn split(line: &str) -> (&str, &str) {
    line.split_once(' ').unwrap_or((line, ""))
}

fn register(text: &str) -> u8
    ensures { result < 32 }
{
    (number(text) % 32) as u8
}

fn text_of(alloc: Global, text: &str) -> Result<String, OutOfMemory> {
    Ok(String::from_str(alloc, text)?)
}

/// The bytes, or `-` where none is written, of a word.
fn stored_of(alloc: Global, text: &str) -> Result<List<Option<u8>>, OutOfMemory> {
    let mut bytes = List::new(alloc);
    for byte in text.split(' ') {
        match byte {
            "-" => bytes.push(None)?,
            _ => bytes.push(Some((number(byte) % 256) as u8))?,
        }
    }
    Ok(bytes)
}

/// Registers and what they hold, in turn.
fn vectors_of(alloc: Global, text: &str) -> Result<List<(u8, u128)>, OutOfMemory> {
    let mut registers = List::new(alloc);
    let mut named: Option<u8> = None;
    for word in text.split(' ') {
        match named {
            None => named = Some((number(word) % 256) as u8),
            Some(n) => {
                registers.push((n, wide(word)))?;
                named = None;
            }
        }
    }
    Ok(registers)
}

fn answer_of(alloc: Global, kind: &str, rest: &str) -> Result<Option<Answer>, OutOfMemory> {
    match kind {
        "bits" => Ok(Some(Answer::Bits(number(rest)))),
        "success" => Ok(Some(Answer::Success(rest == "true"))),
        "length" => Ok(Some(Answer::Length((number(rest) % 256) as u8))),
        "stored" => Ok(Some(Answer::Stored(stored_of(alloc, rest)?))),
        "vectors" => Ok(Some(Answer::Vectors(vectors_of(alloc, rest)?))),
        _ => Ok(None),
    }
}

/// An answer as a line gives it.
fn answer_text(alloc: Global, answer: &Answer) -> Result<String, OutOfMemory> {
    match answer {
        Answer::Bits(bits) => Ok(format!(in alloc; "bits {bits:x}")?),
        Answer::Success(success) => Ok(format!(in alloc; "success {success}")?),
        Answer::Length(length) => Ok(format!(in alloc; "length {length:x}")?),
        Answer::Stored(bytes) => stored_text(alloc, bytes.as_slice()),
        Answer::Vectors(registers) => vectors_text(alloc, registers.as_slice()),
    }
}

fn stored_text(alloc: Global, bytes: &[Option<u8>]) -> Result<String, OutOfMemory> {
    let mut text = text_of(alloc, "stored")?;
    for byte in bytes {
        let more = match byte {
            Some(byte) => format!(in alloc; " {byte:x}")?,
            None => text_of(alloc, " -")?,
        };
        text.push_str(more.as_str())?;
    }
    Ok(text)
}

fn vectors_text(alloc: Global, registers: &[(u8, u128)]) -> Result<String, OutOfMemory> {
    let mut text = text_of(alloc, "vectors")?;
    for (register, value) in registers {
        let more = format!(in alloc; " {register:x} {value:x}")?;
        text.push_str(more.as_str())?;
    }
    Ok(text)
}

fn entry_text(alloc: Global, entry: &Entry) -> Result<String, OutOfMemory> {
    let mut text = format!(in alloc;
        "{:?} avl {} vtype {:x} frm {} inputs",
        entry.decoded.op, entry.avl, entry.vtype, entry.frm
    )?;
    for input in entry.inputs.as_slice() {
        let more = format!(in alloc; " {input:x}")?;
        text.push_str(more.as_str())?;
    }
    text.push_str(" span")?;
    for byte in entry.span.as_slice() {
        let more = format!(in alloc; " {byte:x}")?;
        text.push_str(more.as_str())?;
    }
    let answer = answer_text(alloc, &entry.answer)?;
    text.push_str(" answer ")?;
    text.push_str(answer.as_str())?;
    Ok(text)
}

/// The last entry of the trace, after their number.
fn trace_text(alloc: Global, machine: &FullMachine) -> Result<String, OutOfMemory> {
    let trace = machine.trace();
    let count = trace.len();
    match trace.as_slice().last() {
        Some(entry) => {
            let entry = entry_text(alloc, entry)?;
            Ok(format!(in alloc; "{count}: {entry}")?)
        }
        None => Ok(format!(in alloc; "{count}")?),
    }
}

/// Puts a word at the start, and steps over it.
fn step_over(alloc: Global, machine: &mut FullMachine, word: u64) -> Result<String, OutOfMemory> {
    machine.load_image(START, &((word & 0xffff_ffff) as u32).to_le_bytes())?;
    machine.set_pc(START);
    let step = machine.step()?;
    Ok(format!(in alloc; "{step:?}")?)
}

fn shown(
    alloc: Global,
    machine: &FullMachine,
    what: &str,
    rest: &str,
) -> Result<String, OutOfMemory> {
    match what {
        "x" => Ok(format!(in alloc; "{:x}", machine.reg(register(rest)))?),
        "f" => Ok(format!(in alloc; "{:x}", machine.freg(register(rest)))?),
        "v" => Ok(format!(in alloc; "{:x}", machine.vreg(register(rest)))?),
        "byte" => Ok(format!(in alloc; "{:x}", machine.byte(number(rest)))?),
        "pc" => Ok(format!(in alloc; "{:x}", machine.pc())?),
        "frm" => Ok(format!(in alloc; "{:x}", machine.frm())?),
        "setting" => {
            let (avl, vtype) = machine.setting();
            Ok(format!(in alloc; "{avl:x} {vtype:x}")?)
        }
        "trace" => trace_text(alloc, machine),
        _ => text_of(alloc, "?"),
    }
}

fn set(machine: &mut FullMachine, what: &str, rest: &str) -> Result<(), OutOfMemory> {
    let (first, second) = split(rest);
    match what {
        "x" => machine.set_reg(register(first), number(second)),
        "f" => machine.set_freg(register(first), number(second)),
        "v" => machine.set_vreg(register(first), wide(second)),
        "setting" => machine.set_setting(register(first), (number(second) % 256) as u8),
        "bytes" => machine.load_image(number(first), &number(second).to_le_bytes())?,
        "foreign" => machine.foreign_write(number(first), (number(second) % 256) as u8)?,
        _ => {}
    }
    Ok(())
}

fn digest(alloc: Global, what: &str, rest: &str) -> Result<String, OutOfMemory> {
    match what {
        "halves" => Ok(format!(in alloc; "{:016x}", digest_of_halves(alloc, flags_of(rest))?)?),
        "words" => {
            let (seed, rest) = split(rest);
            let (count, names) = split(rest);
            let hash = digest_of_words(alloc, number(seed), number(count), flags_of(names))?;
            Ok(format!(in alloc; "{hash:016x}")?)
        }
        "edges" => {
            let (names, words) = rest.split_once(" of ").unwrap_or((rest, ""));
            let hash = digest_of_edges(alloc, words, flags_of(names))?;
            Ok(format!(in alloc; "{hash:016x}")?)
        }
        _ => text_of(alloc, "?"),
    }
}

/// Does what a line says, and returns what it shows.
pub fn play(alloc: Global, machine: &mut FullMachine, line: &str) -> Result<String, OutOfMemory> {
    let (verb, rest) = split(line);
    let (what, last) = split(rest);
    match verb {
        "new" => {
            *machine = FullMachine::new(alloc, flags_of("m zba zbb zca zcb zcd zfhmin"), START);
            text_of(alloc, "")
        }
        "set" => {
            set(machine, what, last)?;
            text_of(alloc, "")
        }
        "give" => {
            if let Some(answer) = answer_of(alloc, what, last)? {
                machine.give(answer)?;
            }
            text_of(alloc, "")
        }
        "run" => Ok(format!(in alloc; "{:x}", machine.run(number(what))?)?),
        "step" => step_over(alloc, machine, number(what)),
        "show" => shown(alloc, machine, what, last),
        "decode" => match decode(flags_of(last), (number(what) & 0xffff_ffff) as u32) {
            Some(decoded) => Ok(format!(in alloc; "{decoded:?}")?),
            None => text_of(alloc, "-"),
        },
        "digest" => digest(alloc, what, last),
        _ => text_of(alloc, "?"),
    }
}
