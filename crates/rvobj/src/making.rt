//! The object of a report.

ghost use Rattle.std.specs.Prelude.{◌≡◌, ◌==◌, [], find, IfOk};
ghost use Rattle.rv_obj.specs.Elf.{object_file};
ghost use Rattle.rv_obj.specs.Symbols.{object_of};
ghost use Rattle.rvobj.specs.Making.{e_flags, place_of, with_symbol, symbols_from, Finds, Leaves, OfProgram, OfMade, Makes};

use crate::floats::uses_floats;
use mach_uses::LabelPlace;
use rv_base::{IsaFlags, List, OutOfMemory};
use rv_load::{Program, ProgramError, read_report};
use rv_obj::{Import, Symbol, object_file, object_of};
use std::alloc::Global;

/// How floating-point arguments are passed: in integer registers, or those of up to double precision in registers of their own.
#[derive(Clone, Copy, Debug, PartialEq, Eq)]
pub enum Abi {
    Lp64,
    Lp64d,
}

/// A symbol that others see.
#[derive(Clone, Copy)]
pub struct Export<'a> {
    /// The number of its label, or none where it stands at the code's first byte.
    pub label: Option<u32>,
    pub name: &'a str,
}

/// What the words ask for.
#[derive(Drop)]
pub struct Given<'a> {
    pub exports: List<Export<'a>>,
    /// What symbols that are elsewhere are called there.
    pub imports: List<Import>,
    pub flags: IsaFlags,
    pub abi: Abi,
}

/// The bytes of an object.
#[derive(Drop)]
pub struct Made {
    pub bytes: List<u8>,
    /// Whether the code uses floating-point registers, and the convention passes nothing in them.
    pub lacks_abi: bool,
}

/// Why there is no object.
#[derive(Clone, Copy, Debug, PartialEq, Eq)]
pub enum MakeError {
    /// The first line, counted from 1, that no report has there.
    NotReport { line: usize },
    /// The first label of the words that the report hasn't.
    NoLabel { label: u32 },
    OutOfMemory,
}

fn e_flags(flags: IsaFlags, abi: Abi) -> u32
    ensures { result ≡ e_flags flags abi }
{
    let compressed = if flags.has_zca { 1 } else { 0 };
    let float = match abi {
        Abi::Lp64 => 0,
        Abi::Lp64d => 4,
    };
    compressed + float
}

fn label_at(labels: &[LabelPlace], number: u32) -> Option<LabelPlace>
    ensures { result ≡ find (λ l. l.label.number == number) labels.now }
{
    for label in labels {
        if label.label.number == number {
            return Some(*label);
        }
    }
    None
}

fn place_of(labels: &[LabelPlace], label: Option<u32>) -> Result<u32, MakeError>
    ensures { Finds (place_of labels.now label) result }
{
    let Some(number) = label else {
        return Ok(0);
    };
    match label_at(labels, number) {
        Some(found) => Ok(found.offset),
        None => Err(MakeError::NoLabel { label: number }),
    }
}

fn copy_of(alloc: Global, text: &str) -> Result<List<u8>, OutOfMemory>
    ensures { IfOk result (λ copy. copy ≡ text.now) }
{
    Ok(List::from_vec(Vec::from_slice(alloc, text.as_bytes())?))
}

// Appends the symbol that a word asks for.
fn put_symbol(
    alloc: Global,
    labels: &[LabelPlace],
    symbols: &mut List<Symbol>,
    export: Export,
) -> Result<(), MakeError>
    ensures { Leaves (with_symbol labels.now symbols.old export.entry) symbols.new result }
{
    let offset = place_of(labels, export.label)?;
    let name = copy_of(alloc, export.name)?;
    symbols.push(Symbol {
        name,
        place: Some(offset),
        is_global: true,
    })?;
    Ok(())
}

fn symbols_of(
    alloc: Global,
    labels: &[LabelPlace],
    exports: &[Export],
) -> Result<List<Symbol>, MakeError>
    ensures { Finds (symbols_from labels.now [] exports.now) result }
{
    let mut symbols = List::new(alloc);
    for export in exports {
        put_symbol(alloc, labels, &mut symbols, *export)?;
    }
    Ok(symbols)
}

fn file_of(
    alloc: Global,
    program: Program,
    imports: &[Import],
    symbols: List<Symbol>,
    flags: u32,
) -> Result<List<u8>, OutOfMemory>
    ensures { IfOk result (λ bytes. bytes ≡ object_file (object_of program.bytes program.relocs imports.now symbols flags)) }
{
    let object = object_of(
        alloc,
        program.bytes,
        program.relocs.as_slice(),
        imports,
        symbols,
        flags,
    )?;
    let file = object_file(alloc, &object)?;
    Ok(List::from_vec(file))
}

fn object_of_program(alloc: Global, given: &Given, program: Program) -> Result<List<u8>, MakeError>
    ensures { OfProgram given.now program result }
{
    let symbols = symbols_of(alloc, program.labels.as_slice(), given.exports.as_slice())?;
    let flags = e_flags(given.flags, given.abi);
    let bytes = file_of(alloc, program, given.imports.as_slice(), symbols, flags)?;
    Ok(bytes)
}

fn lacks_abi(given: &Given, program: &Program) -> bool {
    match given.abi {
        Abi::Lp64 => uses_floats(given.flags, program),
        Abi::Lp64d => false,
    }
}

fn made_of(alloc: Global, given: &Given, program: Program) -> Result<Made, MakeError>
    ensures { OfMade given.now program result }
{
    let lacks_abi = lacks_abi(given, &program);
    match object_of_program(alloc, given, program) {
        Ok(bytes) => Ok(Made { bytes, lacks_abi }),
        Err(error) => Err(error),
    }
}

/// The bytes of the object of a report: the code's bytes, its relocations, and the symbols that are asked for.
pub fn object_bytes(alloc: Global, given: &Given, input: &[u8]) -> Result<Made, MakeError>
    ensures { Makes given.now input.now result }
{
    match read_report(alloc, input) {
        Ok(program) => made_of(alloc, given, program),
        Err(ProgramError::NotReport { line }) => Err(MakeError::NotReport { line }),
        Err(ProgramError::NotHex) | Err(ProgramError::OutOfMemory) => Err(MakeError::OutOfMemory),
    }
}

impl From<OutOfMemory> for MakeError {
    ghost use Rattle.rvobj.specs.declared.making.MakeError.TheVariants as errors;

    ghost from_gives = { λ word e. e ≡ errors.OutOfMemory };

    fn from(_: OutOfMemory) -> MakeError {
        MakeError::OutOfMemory
    }
}
