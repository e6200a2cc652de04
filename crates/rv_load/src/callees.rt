//! What `--callee` says: a function outside of the code, which returns at once with registers set.

ghost use Rattle.std.specs.Prelude.{◌≡◌, ◌==◌, [], option_map};
ghost use Rattle.std.specs.List.{list_any};
ghost use Rattle.rv_listing.specs.Tokens.{parts_of};
ghost use Rattle.rv_load.specs.Words.{or_bad, with_set, sets_after, address_of, named_callee, callee_of, with_callee, put_callee, callees_from, is_same, put_set, Reads, Leaves};

use crate::settings::{BadWord, RegisterValue, SettingsError, is_among, register_value};
use rv_base::{ExternalName, List, OutOfMemory};
use rv_listing::{first_part, next_part, symbol_named, two_parts};
use std::alloc::Global;

/// A function outside of the code: control that comes to its address returns to ra, with these registers set.
#[derive(Drop)]
pub struct Callee {
    pub name: ExternalName,
    pub address: u64,
    /// The registers that it leaves, each once.
    pub registers: List<RegisterValue>,
}

// One more register, where it isn't among those that there are.
fn add_set(
    registers: &mut List<RegisterValue>,
    register: RegisterValue,
    word: BadWord,
) -> Result<(), SettingsError>
    ensures { Leaves (or_bad word (with_set registers.old register)) registers.new result }
{
    if is_among(registers.as_slice(), register.register) {
        return Err(SettingsError::Bad { word });
    }
    match registers.push(register) {
        Ok(()) => Ok(()),
        Err(OutOfMemory) => Err(SettingsError::OutOfMemory),
    }
}

// One more register, by its word.
fn put_set(
    registers: &mut List<RegisterValue>,
    w: &[u8],
    word: BadWord,
) -> Result<(), SettingsError>
    ensures { Leaves (or_bad word (put_set registers.old w.now)) registers.new result }
{
    match register_value(w) {
        Some(register) => add_set(registers, register, word),
        None => Err(SettingsError::Bad { word }),
    }
}

// The registers of words a comma apart.
fn sets_of(alloc: Global, w: &[u8], word: BadWord) -> Result<List<RegisterValue>, SettingsError>
    ensures { Reads (or_bad word (sets_after [] (parts_of 44 w.now))) result }
{
    let mut registers = List::new(alloc);
    let (first, mut rest) = first_part(b',', w);
    put_set(&mut registers, first, word)?;
    'words: while let Some((next, after)) = next_part(b',', rest) {
        put_set(&mut registers, next, word)?;
        rest = after;
    }
    Ok(registers)
}

fn address_of(symbols: &[(ExternalName, u64)], number: u32) -> Option<u64>
    ensures { result ≡ address_of symbols.now (record { number = number }) }
{
    for symbol in symbols {
        if symbol.0.number == number {
            return Some(symbol.1);
        }
    }
    None
}

fn named_callee(
    symbols: &[(ExternalName, u64)],
    w: &[u8],
    registers: List<RegisterValue>,
) -> Option<Callee>
    ensures { result ≡ named_callee symbols.now w.now registers }
{
    let name = symbol_named(w)?;
    let address = address_of(symbols, name.number)?;
    Some(Callee {
        name,
        address,
        registers,
    })
}

fn or_bad(word: BadWord, callee: Option<Callee>) -> Result<Callee, SettingsError>
    ensures { Reads (or_bad word callee) result }
{
    match callee {
        Some(callee) => Ok(callee),
        None => Err(SettingsError::Bad { word }),
    }
}

// The callee of a word.
fn callee_of(
    alloc: Global,
    symbols: &[(ExternalName, u64)],
    w: &[u8],
    word: BadWord,
) -> Result<Callee, SettingsError>
    ensures { Reads (or_bad word (callee_of symbols.now w.now)) result }
{
    match two_parts(b':', w) {
        Some((name, sets)) => {
            let registers = sets_of(alloc, sets, word)?;
            or_bad(word, named_callee(symbols, name, registers))
        }
        None => or_bad(word, named_callee(symbols, w, List::new(alloc))),
    }
}

fn is_named(callees: &[Callee], number: u32) -> bool
    ensures { result ≡ list_any (λ o. o.name.number == number) callees.now }
{
    callees.iter().any(|o| o.name.number == number)
}

// One more callee, by the word of this number, where no earlier one gives its name.
fn add_callee(callees: &mut List<Callee>, index: usize, callee: Callee) -> Result<(), SettingsError>
    ensures { Leaves (with_callee index callees.old callee) callees.new result }
{
    if is_named(callees.as_slice(), callee.name.number) {
        return Err(SettingsError::Bad {
            word: BadWord::CalleeTwice { index },
        });
    }
    match callees.push(callee) {
        Ok(()) => Ok(()),
        Err(OutOfMemory) => Err(SettingsError::OutOfMemory),
    }
}

fn put_callee(
    alloc: Global,
    symbols: &[(ExternalName, u64)],
    callees: &mut List<Callee>,
    index: usize,
    w: &[u8],
) -> Result<(), SettingsError>
    ensures { Leaves (put_callee symbols.now index callees.old w.now) callees.new result }
{
    let callee = callee_of(alloc, symbols, w, BadWord::Callee { index })?;
    add_callee(callees, index, callee)
}

/// The callees that words give, each at the address of its symbol.
pub(crate) fn callees_of(
    alloc: Global,
    symbols: &[(ExternalName, u64)],
    words: &[&str],
) -> Result<List<Callee>, SettingsError>
    ensures { Reads (callees_from symbols.now 0 [] words.now) result }
{
    let mut callees = List::new(alloc);
    for (index, w) in words.iter().enumerate() {
        put_callee(alloc, symbols, &mut callees, index, w.as_bytes())?;
    }
    Ok(callees)
}
