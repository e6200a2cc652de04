//! How a call of the program ends, with its status and its text.

ghost use Rattle.std.specs.Prelude.{◌≡◌, ◌++◌, IfOk, OnOk, codes, string_bytes};
ghost use Rattle.rv_run.specs.Outcomes.{run_status, cause_text, word_line, index_of, is_of_slot, is_slot_kind, missing_text, unplaced_text, reloc_text, unplaced_line, text_of, status_of};
ghost use Rattle.rv_listing.specs.Relocations.{target_text};
ghost use Rattle.std.specs.Fmt.{decimal};
ghost use Rattle.rv_run.specs.Output.{run_text};

use crate::output::put_run;
use crate::result::Run;
use mach_records::{FinalizedRelocTarget, MachReloc};
use rv_base::{List, OutOfMemory, Reloc};
use rv_fill::PlaceError;
use rv_load::BadWord;
use rv_steps::Ending;
use std::alloc::Global;
use std::process::ExitCode;

/// How a call of the program ended.
#[derive(Drop)]
pub enum Outcome {
    /// The code ran, and the text of its run was written.
    Ran {
        run: Run,
    },
    /// The words ask for help.
    Help {
        text: List<u8>,
    },
    /// The words ask for the version.
    Version {
        text: List<u8>,
    },
    /// The words are none of the command.
    Usage {
        text: List<u8>,
    },
    /// A word says nothing of this run.
    BadWord {
        cause: BadWord,
        word: List<u8>,
    },
    /// The first line of the input, counted from 1, that no report has there.
    NotReport {
        line: usize,
    },
    /// The input is not hexadecimal digits in pairs.
    NotHex,
    /// The code has a relocation that the words don't fill.
    Unplaced {
        error: PlaceError,
        reloc: Option<MachReloc>,
    },
    ReadFault,
    WriteFault,
    /// The input has more than 16777216 bytes.
    TooLong,
    OutOfMemory,
}

impl Outcome {
    ghost use Rattle.std.specs.Process.{exit_status};
    ghost use Rattle.rv_run.specs.Outcomes.{is_asked, status_of};

    /// Whether its text is what was asked for, and not why there is none.
    pub fn is_asked(&self) -> bool
        ensures { result ≡ is_asked self.now }
    {
        match self {
            Outcome::Ran { run: _ } | Outcome::Help { text: _ } | Outcome::Version { text: _ } =>
                true,
            Outcome::Usage { text: _ }
            | Outcome::BadWord { cause: _, word: _ }
            | Outcome::NotReport { line: _ }
            | Outcome::NotHex
            | Outcome::Unplaced { error: _, reloc: _ }
            | Outcome::TooLong
            | Outcome::ReadFault
            | Outcome::WriteFault
            | Outcome::OutOfMemory => false,
        }
    }

    /// The status that the process ends with.
    pub fn status(&self) -> u8
        ensures { result ≡ status_of self.now }
    {
        match self {
            Outcome::Ran { run } => run_status(run.ending),
            Outcome::Help { text: _ } => 0,
            Outcome::Version { text: _ } => 0,
            Outcome::Usage { text: _ } => 2,
            Outcome::BadWord { cause: _, word: _ } => 2,
            Outcome::NotReport { line: _ } => 3,
            Outcome::NotHex => 3,
            Outcome::Unplaced { error: _, reloc: _ } => 4,
            Outcome::ReadFault => 5,
            Outcome::WriteFault => 6,
            Outcome::TooLong => 7,
            Outcome::OutOfMemory => 8,
        }
    }

    /// That status, as `main` returns it.
    pub fn exit_code(&self) -> ExitCode
        ensures { exit_status result ≡ status_of self.now }
    {
        ExitCode::from(self.status())
    }
}

// 9 where an operation wants an answer.
fn run_status(ending: Ending) -> u8
    ensures { result ≡ run_status ending }
{
    match ending {
        Ending::NeedsAnswer { offset: _, word: _ } => 9,
        Ending::Left { address: _ }
        | Ending::Limit
        | Ending::Break { offset: _ }
        | Ending::NoOperation { offset: _, word: _ } => 0,
    }
}

// What a word should have been.
fn cause_text(cause: BadWord) -> &'static str
    ensures { result.now ≡ cause_text cause }
{
    match cause {
        BadWord::Base => "no multiple of 4 with room for the code below 2^64",
        BadWord::Flags =>
            "no distinct names of m, zba, zbb, zca, zcb, zcd and zfhmin with commas between",
        BadWord::From => "no number of a line of the listing",
        BadWord::At => "no offset within the code, or one beside --from",
        BadWord::Steps => "no number below 2^64",
        BadWord::Data { index: _ } =>
            "no ADDRESS=HEX with an address below 2^64 and pairs of digits",
        BadWord::Register { index: _ } =>
            "no REGISTER=VALUE with a register x1 to x31 or f0 to f31 and a value of 64 bits",
        BadWord::Twice { index: _ } => "sets a register that an earlier word sets",
        BadWord::Address { named: _, index: _ } =>
            "no NAME=ADDRESS with a name as userextname0 and an address below 2^64",
        BadWord::AddressTwice { named: _, index: _ } => "gives a name that an earlier word gives",
        BadWord::Callee { index: _ } =>
            "no NAME or NAME:REGISTER=VALUE,.. with a name whose address a --symbol gives, and each register once",
        BadWord::CalleeTwice { index: _ } => "gives a name that an earlier word gives",
        BadWord::Setting => "no AVL,VTYPE with a vector length below 32 and a vtype below 256",
        BadWord::Answer { index: _ } =>
            "no success, failure, bits:VALUE, length:N, vector:N=0xBITS or stored:HEX",
        BadWord::Unit => "no unit, which host is",
    }
}

fn put(out: &mut Vec<u8>, text: &[u8]) -> Result<(), OutOfMemory>
    ensures { OnOk result (out.new.items ≡ out.old.items ++ text.now) }
{
    out.extend_from_slice(text)?;
    Ok(())
}

fn word_line(alloc: Global, cause: BadWord, word: &[u8]) -> Result<Vec<u8>, OutOfMemory>
    ensures { IfOk result (λ bytes. bytes.items ≡ word_line cause word.now) }
{
    let mut out = Vec::new(alloc);
    put(&mut out, b"rvrun: ")?;
    put(&mut out, word)?;
    put(&mut out, b": ")?;
    put(&mut out, cause_text(cause).as_bytes())?;
    put(&mut out, b"\n")?;
    Ok(out)
}

fn report_line(alloc: Global, line: usize) -> Result<String, OutOfMemory>
    ensures { IfOk result (λ text. string_bytes text ≡ codes "rvrun: no report at line " ++ decimal line ++ codes "\n") }
{
    Ok(format!(in alloc; "rvrun: no report at line {line}\n")?)
}

fn index_of(error: PlaceError) -> usize
    ensures { result ≡ index_of error }
{
    match error {
        PlaceError::BadRecord { index } => index,
        PlaceError::NoSymbol { index } => index,
        PlaceError::OutOfReach { index } => index,
        PlaceError::BadBase | PlaceError::OutOfMemory => 0,
    }
}

fn is_of_slot(reloc: Option<MachReloc>) -> bool
    ensures { result ≡ is_of_slot reloc }
{
    match reloc {
        Some(reloc) => is_slot_kind(reloc.kind),
        None => false,
    }
}

fn is_slot_kind(kind: Reloc) -> bool
    ensures { result ≡ is_slot_kind kind }
{
    match kind {
        Reloc::RiscvGotHi20 => true,
        Reloc::RiscvCallPlt | Reloc::RiscvPCRelHi20 | Reloc::RiscvPCRelLo12I | Reloc::Abs8 => false,
    }
}

fn missing_text(of_slot: bool) -> &'static str
    ensures { result.now ≡ missing_text of_slot }
{
    if of_slot {
        "no --slot gives its address"
    } else {
        "no --symbol gives its address"
    }
}

// Why a relocation isn't filled.
fn unplaced_text(error: PlaceError, reloc: Option<MachReloc>) -> &'static str
    ensures { result.now ≡ unplaced_text error reloc }
{
    match error {
        PlaceError::BadBase => "the code has no room",
        PlaceError::BadRecord { index: _ } => "none that code of a listing has",
        PlaceError::NoSymbol { index: _ } => missing_text(is_of_slot(reloc)),
        PlaceError::OutOfReach { index: _ } => "out of reach",
        PlaceError::OutOfMemory => "out of memory",
    }
}

fn target_text(alloc: Global, target: FinalizedRelocTarget) -> Result<String, OutOfMemory>
    ensures { IfOk result (λ text. string_bytes text ≡ target_text target) }
{
    match target {
        FinalizedRelocTarget::ExternalName(name) => {
            let number = name.number;
            Ok(format!(in alloc; "userextname{number}")?)
        }
        FinalizedRelocTarget::Func(offset) => Ok(format!(in alloc; "@{offset}")?),
    }
}

// Where a relocation stands, and what it refers to.
fn reloc_text(alloc: Global, reloc: Option<MachReloc>) -> Result<String, OutOfMemory>
    ensures { IfOk result (λ text. string_bytes text ≡ reloc_text reloc) }
{
    match reloc {
        None => Ok(String::new(alloc)),
        Some(reloc) => {
            let offset = reloc.offset;
            let target = target_text(alloc, reloc.target)?;
            let mut text = format!(in alloc; " at {offset} (")?;
            text.push_str(target.as_str())?;
            text.push_str(")")?;
            Ok(text)
        }
    }
}

fn unplaced_line(
    alloc: Global,
    error: PlaceError,
    reloc: Option<MachReloc>,
) -> Result<String, OutOfMemory>
    ensures { IfOk result (λ text. string_bytes text ≡ unplaced_line error reloc) }
{
    let index = index_of(error);
    let place = reloc_text(alloc, reloc)?;
    let why = unplaced_text(error, reloc);
    let mut text = format!(in alloc; "rvrun: relocation {index}")?;
    text.push_str(place.as_str())?;
    text.push_str(": ")?;
    text.push_str(why)?;
    text.push_str("\n")?;
    Ok(text)
}

fn bytes_of(alloc: Global, text: &[u8]) -> Result<Vec<u8>, OutOfMemory>
    ensures { IfOk result (λ bytes. bytes.items ≡ text.now) }
{
    let mut bytes = Vec::new(alloc);
    bytes.extend_from_slice(text)?;
    Ok(bytes)
}

fn run_text(alloc: Global, run: &Run) -> Result<Vec<u8>, OutOfMemory>
    ensures { IfOk result (λ bytes. bytes.items ≡ run_text run.now) }
{
    let mut out = Vec::new(alloc);
    put_run(alloc, &mut out, run)?;
    Ok(out)
}

/// The text that a call with this outcome writes: that of the run, or what the words ask for, or one line; nothing for
/// faults.
pub fn text_of(alloc: Global, outcome: &Outcome) -> Result<Vec<u8>, OutOfMemory>
    ensures { IfOk result (λ bytes. bytes.items ≡ text_of outcome.now) }
{
    match outcome {
        Outcome::Ran { run } => run_text(alloc, run),
        Outcome::Help { text } => bytes_of(alloc, text.as_slice()),
        Outcome::Version { text } => bytes_of(alloc, text.as_slice()),
        Outcome::Usage { text } => bytes_of(alloc, text.as_slice()),
        Outcome::BadWord { cause, word } => word_line(alloc, *cause, word.as_slice()),
        Outcome::NotReport { line } => Ok(report_line(alloc, *line)?.into_bytes()),
        Outcome::NotHex => bytes_of(alloc, b"rvrun: no hexadecimal digits in pairs\n"),
        Outcome::Unplaced { error, reloc } => Ok(unplaced_line(
            alloc, *error, *reloc,
        )?.into_bytes()),
        Outcome::TooLong => bytes_of(alloc, b"rvrun: too long\n"),
        Outcome::ReadFault | Outcome::WriteFault | Outcome::OutOfMemory => Ok(Vec::new(alloc)),
    }
}
