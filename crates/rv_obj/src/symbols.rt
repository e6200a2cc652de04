//! The symbols and the relocations of an object, by those of a code.

ghost use Rattle.std.specs.Prelude.{◌≡◌, ◌+◌, ◌%◌, ◌^◌, ◌≤◌, ◌==◌, ◌++◌, ◌∷◌, [], length, find, map, option_map, codes, IfOk, OnOk};
ghost use Rattle.std.specs.Fmt.{decimal};
ghost use Rattle.std.specs.List.{list_any, position_or_len};
ghost use Rattle.rv_obj.specs.Symbols.{kind_number, local_of, locals_from, with_number, with_name, names_after, name_in, undefined, symbol_number, rela_of, relas_from, object_of};

use crate::elf::{Object, Rela, Symbol};
use crate::numbers::{
    R_RISCV_64, R_RISCV_CALL_PLT, R_RISCV_GOT_HI20, R_RISCV_PCREL_HI20, R_RISCV_PCREL_LO12_I,
};
use crate::tables::low;
use mach_records::{FinalizedRelocTarget, MachReloc};
use rv_base::{List, OutOfMemory, Reloc};
use std::alloc::Global;

/// A symbol that is elsewhere, and the name that it has there.
#[derive(Drop)]
pub struct Import {
    /// The number of its name in the report, `userextname` and this number.
    pub number: u32,
    pub name: List<u8>,
}

// The psABI's number of a kind.
fn kind_number(kind: Reloc) -> u32
    ensures { result ≡ kind_number kind }
{
    match kind {
        Reloc::RiscvCallPlt => R_RISCV_CALL_PLT,
        Reloc::RiscvGotHi20 => R_RISCV_GOT_HI20,
        Reloc::RiscvPCRelHi20 => R_RISCV_PCREL_HI20,
        Reloc::RiscvPCRelLo12I => R_RISCV_PCREL_LO12_I,
        Reloc::Abs8 => R_RISCV_64,
    }
}

fn is_among(number: u32, names: &[u32]) -> bool
    ensures { result ≡ list_any (λ n. n == number) names.now }
{
    names.iter().any(|n| *n == number)
}

// One more name, where it isn't among them.
fn put_number(names: &mut List<u32>, number: u32) -> Result<(), OutOfMemory>
    ensures { OnOk result (names.new ≡ with_number number names.old) }
{
    if is_among(number, names.as_slice()) {
        Ok(())
    } else {
        names.push(number)
    }
}

fn put_name(names: &mut List<u32>, target: FinalizedRelocTarget) -> Result<(), OutOfMemory>
    ensures { OnOk result (names.new ≡ with_name target names.old) }
{
    match target {
        FinalizedRelocTarget::Func(_) => Ok(()),
        FinalizedRelocTarget::ExternalName(name) => put_number(names, name.number),
    }
}

// The names of relocations, each once, in the order of their first use.
fn names_of(alloc: Global, relocs: &[MachReloc]) -> Result<List<u32>, OutOfMemory>
    ensures { IfOk result (λ names. names ≡ names_after [] relocs.now) }
{
    let mut names = List::new(alloc);
    for reloc in relocs {
        put_name(&mut names, reloc.target)?;
    }
    Ok(names)
}

// ---- symbols

fn local_name(alloc: Global, number: usize) -> Result<List<u8>, OutOfMemory>
    ensures { IfOk result (λ name. name ≡ codes ".Lpcrel_hi" ++ decimal number) }
{
    let text = format!(in alloc; ".Lpcrel_hi{number}")?;
    Ok(List::from_vec(text.into_bytes()))
}

fn own_name(alloc: Global, number: u32) -> Result<List<u8>, OutOfMemory>
    ensures { IfOk result (λ name. name ≡ codes "userextname" ++ decimal number) }
{
    let text = format!(in alloc; "userextname{number}")?;
    Ok(List::from_vec(text.into_bytes()))
}

fn import_of(imports: &[Import], number: u32) -> Option<&Import>
    ensures { option_map (λ i. i.now) result ≡ find (λ i. i.number == number) imports.now }
{
    imports.iter().find(|import| import.number == number)
}

fn undefined_name(alloc: Global, imports: &[Import], number: u32) -> Result<List<u8>, OutOfMemory>
    ensures { IfOk result (λ name. name ≡ name_in imports.now number) }
{
    match import_of(imports, number) {
        Some(import) => List::from_slice(alloc, import.name.as_slice()),
        None => own_name(alloc, number),
    }
}

fn put_local(
    alloc: Global,
    symbols: &mut List<Symbol>,
    target: FinalizedRelocTarget,
) -> Result<(), OutOfMemory>
    ensures { OnOk result (symbols.new ≡ symbols.old ++ local_of (length symbols.old) target) }
{
    match target {
        FinalizedRelocTarget::ExternalName(_) => Ok(()),
        FinalizedRelocTarget::Func(at) => {
            let name = local_name(alloc, symbols.len())?;
            symbols.push(Symbol {
                name,
                place: Some(at),
                is_global: false,
            })
        }
    }
}

// The local labels that relocations name.
fn locals_of(alloc: Global, relocs: &[MachReloc]) -> Result<List<Symbol>, OutOfMemory>
    ensures { IfOk result (λ symbols. symbols ≡ locals_from 0 relocs.now) }
{
    let mut symbols = List::new(alloc);
    for reloc in relocs {
        put_local(alloc, &mut symbols, reloc.target)?;
    }
    Ok(symbols)
}

fn put_undefined(
    alloc: Global,
    symbols: &mut Vec<Symbol>,
    imports: &[Import],
    names: &[u32],
) -> Result<(), OutOfMemory>
    ensures { OnOk result (symbols.new.items ≡ symbols.old.items ++ map (undefined imports.now) names.now) }
{
    for number in names {
        let name = undefined_name(alloc, imports, *number)?;
        symbols.push(Symbol {
            name,
            place: None,
            is_global: true,
        })?;
    }
    Ok(())
}

// ---- relocations

fn position_of(number: u32, names: &[u32]) -> usize
    ensures { result ≡ position_or_len (λ n. n == number) names.now }
{
    for (index, name) in names.iter().enumerate() {
        if *name == number {
            return index;
        }
    }
    names.len()
}

fn symbol_number(defined: usize, names: &[u32], k: usize, target: FinalizedRelocTarget) -> u32
    ensures { result ≡ symbol_number defined names.now k target % 2 ^ 32 }
{
    match target {
        FinalizedRelocTarget::Func(_) => low(k.wrapping_add(1)),
        FinalizedRelocTarget::ExternalName(name) => {
            low(defined.wrapping_add(position_of(name.number, names)))
        }
    }
}

fn rela_of(defined: usize, names: &[u32], k: usize, reloc: MachReloc) -> Rela
    ensures { result ≡ rela_of defined names.now k reloc }
{
    Rela {
        offset: reloc.offset,
        kind: kind_number(reloc.kind),
        symbol: symbol_number(defined, names, k, reloc.target),
        addend: reloc.addend,
    }
}

fn count_of(target: FinalizedRelocTarget) -> usize
    ensures count { result ≡ length (local_of 0 target) }
    ensures small { result ≤ 1 }
{
    match target {
        FinalizedRelocTarget::ExternalName(_) => 0,
        FinalizedRelocTarget::Func(_) => 1,
    }
}

fn relas_of(
    alloc: Global,
    defined: usize,
    names: &[u32],
    relocs: &[MachReloc],
) -> Result<List<Rela>, OutOfMemory>
    ensures { IfOk result (λ relas. relas ≡ relas_from defined names.now 0 relocs.now) }
{
    let mut relas = List::new(alloc);
    let mut k = 0;
    for reloc in relocs {
        relas.push(rela_of(defined, names, k, *reloc))?;
        k += count_of(reloc.target);
    }
    Ok(relas)
}

/// The object of a code: its bytes and its relocations; a local symbol at each place that a relocation names, the symbols given, which
/// are to be global and defined, and an undefined global symbol for each name of a relocation, under the name of its import where there is
/// one.
pub fn object_of(
    alloc: Global,
    text: List<u8>,
    relocs: &[MachReloc],
    imports: &[Import],
    exports: List<Symbol>,
    flags: u32,
) -> Result<Object, OutOfMemory>
    ensures { IfOk result (λ object. object ≡ object_of text relocs.now imports.now exports flags) }
{
    let names = names_of(alloc, relocs)?;
    let locals = locals_of(alloc, relocs)?;
    let first_global = 1 + locals.len();
    let defined = first_global + exports.len();
    let relas = relas_of(alloc, defined, names.as_slice(), relocs)?;
    let mut symbols = locals.into_vec();
    symbols.append(&mut exports.into_vec())?;
    put_undefined(alloc, &mut symbols, imports, names.as_slice())?;
    Ok(Object {
        text,
        relas,
        symbols: List::from_vec(symbols),
        locals: low(first_global),
        flags,
    })
}
