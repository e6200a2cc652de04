//! The contents of an object's sections, one after the other.

ghost use Rattle.std.specs.Prelude.{◌≡◌, ◌+◌, ◌-◌, ◌%◌, ◌≤◌, ◌<◌, ◌^◌, ◌++◌, ◌∷◌, [], length, replicate, IfOk, OnOk};
ghost use Rattle.std.specs.List.{flat_map};
ghost use Rattle.rv_obj.specs.Ends.{AreEnds};
ghost use Rattle.rv_obj.specs.Elf.{bytes_2, bytes_4, bytes_8, name_of, info_of, section_of, value_of, symbol_entry, entries_from, symbol_table, string_table, rela_entry, padding, section_names, before_relas, before_symbols, before_strings, before_names, named, contents};

use crate::elf::{Object, Rela, Symbol};
use crate::numbers::{SHN_UNDEF, STB_GLOBAL, STB_LOCAL, STT_NOTYPE, SYM_SIZE};
use rv_base::OutOfMemory;
use std::alloc::Global;

/// The number of the section of the code, the first of them.
pub(crate) const TEXT_SECTION: u16 = 1;

/// How many bytes of the contents come before each of these, and in all.
#[derive(Clone, Copy)]
pub(crate) struct Ends {
    pub relas: u64,
    pub symbols: u64,
    pub strings: u64,
    pub names: u64,
    pub named: u64,
    pub all: u64,
}

/// Appends bytes.
pub(crate) fn put(out: &mut Vec<u8>, bytes: &[u8]) -> Result<(), OutOfMemory>
    ensures { OnOk result (out.new.items ≡ out.old.items ++ bytes.now) }
{
    out.extend_from_slice(bytes)?;
    Ok(())
}

/// Appends a number of two bytes.
#[tactic(auto, unfolding(crate::specs::Elf::bytes_2))]
pub(crate) fn put_2(out: &mut Vec<u8>, n: u16) -> Result<(), OutOfMemory>
    ensures { OnOk result (out.new.items ≡ out.old.items ++ bytes_2 n) }
{
    put(out, &n.to_le_bytes())
}

/// Appends a number of four bytes.
#[tactic(auto, unfolding(crate::specs::Elf::bytes_4))]
pub(crate) fn put_4(out: &mut Vec<u8>, n: u32) -> Result<(), OutOfMemory>
    ensures { OnOk result (out.new.items ≡ out.old.items ++ bytes_4 n) }
{
    put(out, &n.to_le_bytes())
}

/// Appends a number of eight bytes.
#[tactic(auto, unfolding(crate::specs::Elf::bytes_8))]
pub(crate) fn put_8(out: &mut Vec<u8>, n: u64) -> Result<(), OutOfMemory>
    ensures { OnOk result (out.new.items ≡ out.old.items ++ bytes_8 n) }
{
    put(out, &n.to_le_bytes())
}

// ---- relocations

fn put_rela(out: &mut Vec<u8>, rela: &Rela) -> Result<(), OutOfMemory>
    ensures { OnOk result (out.new.items ≡ out.old.items ++ rela_entry rela.now) }
{
    put_8(out, u64::from(rela.offset))?;
    put_4(out, rela.kind)?;
    put_4(out, rela.symbol)?;
    put_8(out, rela.addend.cast_unsigned())?;
    Ok(())
}

fn put_relas(out: &mut Vec<u8>, relas: &[Rela]) -> Result<(), OutOfMemory>
    ensures { OnOk result (out.new.items ≡ out.old.items ++ flat_map rela_entry relas.now) }
{
    for rela in relas {
        put_rela(out, rela)?;
    }
    Ok(())
}

// ---- symbols

/// The bindings, each with no type in the low four bits.
const GLOBAL_INFO: u8 = STB_GLOBAL << 4 | STT_NOTYPE;

const LOCAL_INFO: u8 = STB_LOCAL << 4 | STT_NOTYPE;

fn info_of(symbol: &Symbol) -> u8
    ensures { result ≡ info_of symbol.now }
{
    if symbol.is_global {
        GLOBAL_INFO
    } else {
        LOCAL_INFO
    }
}

fn section_of(place: Option<u32>) -> u16
    ensures { result ≡ section_of place }
{
    match place {
        None => SHN_UNDEF,
        Some(_) => TEXT_SECTION,
    }
}

fn value_of(place: Option<u32>) -> u64
    ensures { result ≡ value_of place }
{
    match place {
        None => 0,
        Some(offset) => u64::from(offset),
    }
}

fn put_symbol(out: &mut Vec<u8>, at: u32, symbol: &Symbol) -> Result<(), OutOfMemory>
    ensures { OnOk result (out.new.items ≡ out.old.items ++ symbol_entry at symbol.now) }
{
    put_4(out, at)?;
    put(out, &[info_of(symbol), 0])?;
    put_2(out, section_of(symbol.place))?;
    put_8(out, value_of(symbol.place))?;
    put_8(out, 0)
}

fn put_name(out: &mut Vec<u8>, symbol: &Symbol) -> Result<(), OutOfMemory>
    ensures { OnOk result (out.new.items ≡ out.old.items ++ name_of symbol.now) }
{
    put(out, symbol.name.as_slice())?;
    put(out, b"\0")
}

pub(crate) fn low(n: usize) -> u32
    ensures { result ≡ n % 2 ^ 32 }
{
    (n & 0xffff_ffff) as u32
}

/// The entries of symbols, and their names.
fn put_symbols(
    entries: &mut Vec<u8>,
    names: &mut Vec<u8>,
    symbols: &[Symbol],
) -> Result<(), OutOfMemory>
    ensures entries { OnOk result (entries.new.items ≡ entries.old.items ++ entries_from (length names.old.items) symbols.now) }
    ensures names { OnOk result (names.new.items ≡ names.old.items ++ flat_map name_of symbols.now) }
{
    for symbol in symbols {
        put_symbol(entries, low(names.len()), symbol)?;
        put_name(names, symbol)?;
    }
    Ok(())
}

// ---- all of them

/// Zero bytes up to a multiple of eight.
fn pad(out: &mut Vec<u8>) -> Result<(), OutOfMemory>
    ensures { OnOk result (out.new.items ≡ out.old.items ++ padding (length out.old.items)) }
{
    let zeros = [0u8; 8];
    let count = (8 - out.len() % 8) % 8;
    put(out, &zeros[..count])
}

fn put_names(out: &mut Vec<u8>) -> Result<(), OutOfMemory>
    ensures { OnOk result (out.new.items ≡ out.old.items ++ section_names) }
{
    put(out, b"\0.text\0.rela.text\0.symtab\0.strtab\0.shstrtab\0")
}

fn tables(alloc: Global, symbols: &[Symbol]) -> Result<(Vec<u8>, Vec<u8>), OutOfMemory>
    ensures { IfOk result (λ made. (made.0.items ≡ symbol_table symbols.now) × (made.1.items ≡ string_table symbols.now)) }
{
    let mut entries = Vec::new(alloc);
    let mut names = Vec::new(alloc);
    put(&mut entries, &[0u8; SYM_SIZE])?;
    put(&mut names, b"\0")?;
    put_symbols(&mut entries, &mut names, symbols)?;
    Ok((entries, names))
}

/// Appends the contents of all sections to nothing, and returns where they end.
pub(crate) fn put_contents(
    alloc: Global,
    out: &mut Vec<u8>,
    object: &Object,
) -> Result<Ends, OutOfMemory>
    requires { out.old.items ≡ [] }
    ensures bytes { OnOk result (out.new.items ≡ contents object.now) }
    ensures ends { IfOk result (AreEnds object.now) }
{
    let (entries, strings) = tables(alloc, object.symbols.as_slice())?;
    put(out, object.text.as_slice())?;
    pad(out)?;
    let relas = out.len() as u64;
    put_relas(out, object.relas.as_slice())?;
    let symbols = out.len() as u64;
    put(out, &entries)?;
    let at_strings = out.len() as u64;
    put(out, &strings)?;
    let names = out.len() as u64;
    put_names(out)?;
    let named = out.len() as u64;
    pad(out)?;
    Ok(Ends {
        relas,
        symbols,
        strings: at_strings,
        names,
        named,
        all: out.len() as u64,
    })
}
