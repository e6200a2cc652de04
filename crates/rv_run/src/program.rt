//! The program's call: reads the words and the input, runs the code, and writes the text of the run.

ghost use Rattle.std.specs.Prelude.{◌≡◌, ◌<◌, length, map, string_bytes, IfOk, OnOk, OnErr, Ok, Err, []};
ghost use Rattle.rv_fill.specs.Refusal.{Finds};
ghost use Rattle.rv_run.specs.Memory.{memory_lines};
ghost use Rattle.rv_run.specs.Output.{file};
ghost use Rattle.rv_steps.specs.Computed.{RunsTo};
ghost use Rattle.rv_run.specs.Settled.{IsSettled};
ghost use Rattle.rv_steps.specs.Starting.{begin};
ghost use Rattle.rv_run.specs.Outcomes.{Loads, IsRun, given_text, listed_text, word_text, addresses_of, unplaced, IsLinked, reloc_of, OfLinked, OfProgram, Means, Words, call, taken, Asked, AskRun, Ended, WritesTo, WritesText};

use crate::memory::memory_lines;
use crate::outcome::{Outcome, text_of};
use crate::result::Run;
use rv_base::{List, OutOfMemory};
use rv_fill::{PlaceError, fill};
use rv_full::{FullMachine, integer_runs};
use rv_inst::MachReloc;
use rv_load::{
    BadWord, Given, Named, Program, ProgramError, Settings, SettingsError, WordsError, read_hex,
    read_report, read_words, settings_of,
};
use rv_steps::{Ending, Place, Progress, begin, files_of, run_code, run_traced, unit_lines};
use rv_stream::{ReadAllError, Sink, Source, WriteError, read_all, write_all};
use std::alloc::Global;

fn load(alloc: Global, hex: bool, input: &[u8]) -> Result<Program, ProgramError>
    ensures { Loads hex input.now result }
{
    if hex {
        read_hex(alloc, input)
    } else {
        read_report(alloc, input)
    }
}

// The registers x1 to x31.
fn registers_of(alloc: Global, machine: &FullMachine) -> Result<List<u64>, OutOfMemory>
    ensures values { IfOk result (λ registers. registers ≡ file 31 machine.now.full.state.values) }
    ensures count { IfOk result (λ registers. length registers ≡ 31) }
{
    let mut registers = List::new(alloc);
    for n in 0u8..31 {
        registers.push(machine.reg(n + 1))?;
    }
    Ok(registers)
}

// Runs the code, and writes its steps where that is asked for.
fn run_asked<P: Progress>(
    alloc: Global,
    settings: &Settings,
    machine: &mut FullMachine,
    place: Place,
    lines: &mut Vec<u8>,
    progress: &mut P,
) -> Result<(u64, u64, Ending), OutOfMemory>
    requires flags { machine.old.flags ≡ settings.now.flags }
    requires empty { lines.old.items ≡ [] }
    ensures { IfOk result (λ r. RunsTo settings.now.host settings.now.trace settings.now.callees place.base place.len settings.now.steps machine.old r.0 r.1 machine.new r.2 lines.new.items) }
{
    if settings.trace {
        run_traced(
            alloc,
            settings.host,
            settings.callees.as_slice(),
            settings.flags,
            machine,
            place,
            settings.steps,
            lines,
            progress,
        )
    } else {
        run_code(
            settings.host,
            settings.callees.as_slice(),
            settings.flags,
            machine,
            place,
            settings.steps,
            progress,
        )
    }
}

fn run_from<P: Progress>(
    alloc: Global,
    settings: &Settings,
    program: &Program,
    mut machine: FullMachine,
    progress: &mut P,
) -> Result<Run, OutOfMemory>
    requires begins { begin settings.now program.now ≡ Ok machine }
    requires flags { machine.flags ≡ settings.now.flags }
    ensures { IfOk result (IsRun settings.now program.now) }
{
    let place = Place {
        base: settings.base,
        len: program.bytes.len() as u64,
    };
    let mut lines = Vec::new(alloc);
    integer_runs();
    let first = machine.integers().clone()?;
    let files = files_of(&machine);
    let before = registers_of(alloc, &machine)?;
    let (steps, calls, ending) = run_asked(
        alloc,
        settings,
        &mut machine,
        place,
        &mut lines,
        progress,
    )?;
    let after = registers_of(alloc, &machine)?;
    let units = unit_lines(alloc, &files, &machine)?;
    let memory = memory_lines(alloc, &first, machine.integers())?;
    Ok(Run {
        flags: settings.flags,
        ending,
        steps,
        calls,
        has_callees: settings.callees.len() > 0,
        before,
        after,
        units: List::from_vec(units),
        memory: List::from_vec(memory),
        trace: List::from_vec(lines),
    })
}

fn copy_of(alloc: Global, text: &str) -> Result<List<u8>, OutOfMemory>
    ensures { IfOk result (λ copy. copy ≡ text.now) }
{
    Ok(List::from_vec(Vec::from_slice(alloc, text.as_bytes())?))
}

fn given_text(alloc: Global, given: Option<&str>) -> Result<List<u8>, OutOfMemory>
    ensures { IfOk result (λ text. text ≡ given_text given.entry) }
{
    match given {
        Some(text) => copy_of(alloc, text),
        None => Ok(List::new(alloc)),
    }
}

fn listed_text(alloc: Global, words: &[&str], index: usize) -> Result<List<u8>, OutOfMemory>
    ensures { IfOk result (λ text. text ≡ listed_text words.now index) }
{
    match words.get(index) {
        Some(text) => copy_of(alloc, text),
        None => Ok(List::new(alloc)),
    }
}

fn addresses_of<'a, 'b>(given: &'b Given<'a>, named: Named) -> &'b [&'a str]
    ensures { result.now ≡ addresses_of given.now named }
{
    match named {
        Named::Symbol => given.symbols.as_slice(),
        Named::Slot => given.slots.as_slice(),
    }
}

fn word_text(alloc: Global, given: &Given, cause: BadWord) -> Result<List<u8>, OutOfMemory>
    ensures { IfOk result (λ text. text ≡ word_text given.now cause) }
{
    match cause {
        BadWord::Base => given_text(alloc, given.base),
        BadWord::Flags => given_text(alloc, given.flags),
        BadWord::From => given_text(alloc, given.from),
        BadWord::At => given_text(alloc, given.at),
        BadWord::Steps => given_text(alloc, given.steps),
        BadWord::Data { index } => listed_text(alloc, given.memory.as_slice(), index),
        BadWord::Register { index } => listed_text(alloc, given.registers.as_slice(), index),
        BadWord::Twice { index } => listed_text(alloc, given.registers.as_slice(), index),
        BadWord::Callee { index } | BadWord::CalleeTwice { index } => listed_text(
            alloc,
            given.callees.as_slice(),
            index,
        ),
        BadWord::Setting => given_text(alloc, given.setting),
        BadWord::Answer { index } => listed_text(alloc, given.answers.as_slice(), index),
        BadWord::Unit => given_text(alloc, given.unit),
        BadWord::Address { named, index } | BadWord::AddressTwice { named, index } => listed_text(
            alloc,
            addresses_of(given, named),
            index,
        ),
    }
}

// Fills the relocations of a program, for where it is to stand.
fn link(alloc: Global, settings: &Settings, program: &mut Program) -> Result<(), PlaceError>
    ensures linked { OnOk result (IsLinked settings.now program.old program.new) }
    ensures refused { Finds (unplaced settings.now program.old) result }
    ensures kept { OnErr result (program.new ≡ program.old) }
{
    let bytes = fill(
        alloc,
        program.bytes.as_slice(),
        program.relocs.as_slice(),
        settings.base,
        settings.symbols.as_slice(),
        settings.slots.as_slice(),
    )?;
    program.bytes = bytes;
    Ok(())
}

fn reloc_of(error: PlaceError, relocs: &[MachReloc]) -> Option<MachReloc>
    ensures { result ≡ reloc_of error relocs.now }
{
    match error {
        PlaceError::BadRecord { index }
        | PlaceError::NoSymbol { index }
        | PlaceError::OutOfReach { index } => relocs.get(index).copied(),
        PlaceError::BadBase | PlaceError::OutOfMemory => None,
    }
}

// The outcome of a program that can't stand at its base with these addresses.
fn outcome_of_unplaced(
    alloc: Global,
    given: &Given,
    settings: &Settings,
    program: &Program,
    error: PlaceError,
) -> Result<Outcome, OutOfMemory>
    requires { Finds {X = Unit} (unplaced settings.now program.now) (Err error) }
    ensures { IfOk result (OfProgram given.now settings.now program.now) }
{
    match error {
        PlaceError::BadBase => {
            let word = word_text(alloc, given, BadWord::Base)?;
            Ok(Outcome::BadWord {
                cause: BadWord::Base,
                word,
            })
        }
        PlaceError::OutOfMemory => Err(OutOfMemory),
        PlaceError::BadRecord { index: _ }
        | PlaceError::NoSymbol { index: _ }
        | PlaceError::OutOfReach { index: _ } => Ok(Outcome::Unplaced {
            error,
            reloc: reloc_of(error, program.relocs.as_slice()),
        }),
    }
}

// The outcome of a program whose relocations are filled.
fn outcome_of_linked<P: Progress>(
    alloc: Global,
    given: &Given,
    settings: &Settings,
    program: &Program,
    progress: &mut P,
) -> Result<Outcome, OutOfMemory>
    ensures { IfOk result (OfLinked given.now settings.now program.now) }
{
    match begin(alloc, settings, program) {
        Ok(machine) => {
            let run = run_from(alloc, settings, program, machine, progress)?;
            Ok(Outcome::Ran { run })
        }
        Err(SettingsError::Bad { word: cause }) => {
            let word = word_text(alloc, given, cause)?;
            Ok(Outcome::BadWord { cause, word })
        }
        Err(SettingsError::OutOfMemory) => Err(OutOfMemory),
    }
}

fn outcome_of_program<P: Progress>(
    alloc: Global,
    given: &Given,
    settings: &Settings,
    mut program: Program,
    progress: &mut P,
) -> Result<Outcome, OutOfMemory>
    ensures { IfOk result (OfProgram given.now settings.now program) }
{
    match link(alloc, settings, &mut program) {
        Ok(()) => outcome_of_linked(alloc, given, settings, &program, progress),
        Err(error) => outcome_of_unplaced(alloc, given, settings, &program, error),
    }
}

/// The outcome of an input.
fn outcome_of_input<P: Progress>(
    alloc: Global,
    given: &Given,
    settings: &Settings,
    input: &[u8],
    progress: &mut P,
) -> Result<Outcome, OutOfMemory>
    ensures { IfOk result (Means given.now settings.now input.now) }
{
    match load(alloc, given.hex, input) {
        Ok(program) => outcome_of_program(alloc, given, settings, program, progress),
        Err(ProgramError::NotReport { line }) => Ok(Outcome::NotReport { line }),
        Err(ProgramError::NotHex) => Ok(Outcome::NotHex),
        Err(ProgramError::OutOfMemory) => Err(OutOfMemory),
    }
}

/// Writes the text of an outcome, and returns how the call ends.
fn write_text<K: Sink>(alloc: Global, sink: &mut K, outcome: Outcome) -> Outcome
    ensures { WritesTo outcome (taken (K.taken sink.old) (K.taken sink.new) (K.faults sink.old) (K.faults sink.new)) result }
{
    let text = match text_of(alloc, &outcome) {
        Ok(text) => text,
        Err(_) => return Outcome::OutOfMemory,
    };
    match write_all(sink, &text) {
        Ok(()) => outcome,
        Err(WriteError::Failed) => Outcome::WriteFault,
        Err(WriteError::OutOfMemory) => Outcome::OutOfMemory,
    }
}

/// Writes what was asked for to the one sink, and why there is none of it to the other.
fn tell<K: Sink, E: Sink>(alloc: Global, sink: &mut K, errors: &mut E, outcome: Outcome) -> Outcome
    ensures { WritesText outcome (taken (K.taken sink.old) (K.taken sink.new) (K.faults sink.old) (K.faults sink.new)) (taken (E.taken errors.old) (E.taken errors.new) (E.faults errors.old) (E.faults errors.new)) result }
{
    if outcome.is_asked() {
        write_text(alloc, sink, outcome)
    } else {
        write_text(alloc, errors, outcome)
    }
}

// Runs what the words and the input give, and writes the text of the outcome.
fn run_given<S: Source, K: Sink, E: Sink, P: Progress>(
    alloc: Global,
    given: &Given,
    settings: &Settings,
    source: &mut S,
    sink: &mut K,
    errors: &mut E,
    progress: &mut P,
) -> Outcome
    ensures { (words : Words) → Asked words given.now settings.now → Ended (call words (S.left source.old) (S.left source.new) (S.faults source.old) (S.faults source.new) (taken (K.taken sink.old) (K.taken sink.new) (K.faults sink.old) (K.faults sink.new)) (taken (E.taken errors.old) (E.taken errors.new) (E.faults errors.old) (E.faults errors.new))) result }
{
    let input = match read_all(alloc, source) {
        Ok(input) => input,
        Err(ReadAllError::Failed) => return Outcome::ReadFault,
        Err(ReadAllError::TooLong) => return tell(alloc, sink, errors, Outcome::TooLong),
        Err(ReadAllError::OutOfMemory) => return Outcome::OutOfMemory,
    };
    match outcome_of_input(alloc, given, settings, &input, progress) {
        Ok(outcome) => tell(alloc, sink, errors, outcome),
        Err(OutOfMemory) => Outcome::OutOfMemory,
    }
}

// Does what the words ask for.
fn run_words<S: Source, K: Sink, E: Sink, P: Progress>(
    alloc: Global,
    words: &[String],
    source: &mut S,
    sink: &mut K,
    errors: &mut E,
    progress: &mut P,
) -> Outcome
    ensures unread { ¬ AskRun (map string_bytes words.now) → source.new ≡ source.old }
    ensures ended { Ended (call (map string_bytes words.now) (S.left source.old) (S.left source.new) (S.faults source.old) (S.faults source.new) (taken (K.taken sink.old) (K.taken sink.new) (K.faults sink.old) (K.faults sink.new)) (taken (E.taken errors.old) (E.taken errors.new) (E.faults errors.old) (E.faults errors.new))) result }
{
    let given = match read_words(alloc, words) {
        Ok(given) => given,
        Err(WordsError::Help { text }) => return tell(alloc, sink, errors, Outcome::Help { text }),
        Err(WordsError::Version { text }) => return tell(
            alloc,
            sink,
            errors,
            Outcome::Version { text },
        ),
        Err(WordsError::Wrong { text }) => return tell(
            alloc,
            sink,
            errors,
            Outcome::Usage { text },
        ),
        Err(WordsError::OutOfMemory) => return Outcome::OutOfMemory,
    };
    let cause = match settings_of(alloc, &given) {
        Ok(settings) => return run_given(alloc, &given, &settings, source, sink, errors, progress),
        Err(SettingsError::Bad { word }) => word,
        Err(SettingsError::OutOfMemory) => return Outcome::OutOfMemory,
    };
    match word_text(alloc, &given, cause) {
        Ok(word) => tell(alloc, sink, errors, Outcome::BadWord { cause, word }),
        Err(OutOfMemory) => Outcome::OutOfMemory,
    }
}

/// Runs the code that the input gives, as the words ask for, and writes to the sink how the run ended, how many steps it had, and the
/// registers and the memory that it changed, or what else the words ask for; or it writes to the sink of errors why there is no run. The
/// words are those after the program's name. Of a long run it ticks the progress now and then.
pub fn run<S: Source, K: Sink, E: Sink, P: Progress>(
    alloc: Global,
    words: &[String],
    source: &mut S,
    sink: &mut K,
    errors: &mut E,
    progress: &mut P,
) -> Outcome
    ensures unread { ¬ AskRun (map string_bytes words.now) → source.new ≡ source.old }
    ensures ended { Ended (call (map string_bytes words.now) (S.left source.old) (S.left source.new) (S.faults source.old) (S.faults source.new) (taken (K.taken sink.old) (K.taken sink.new) (K.faults sink.old) (K.faults sink.new)) (taken (E.taken errors.old) (E.taken errors.new) (E.faults errors.old) (E.faults errors.new))) result }
    ensures settled { IsSettled (call (map string_bytes words.now) (S.left source.old) (S.left source.new) (S.faults source.old) (S.faults source.new) (taken (K.taken sink.old) (K.taken sink.new) (K.faults sink.old) (K.faults sink.new)) (taken (E.taken errors.old) (E.taken errors.new) (E.faults errors.old) (E.faults errors.new))) result }
{
    run_words(alloc, words, source, sink, errors, progress)
}
