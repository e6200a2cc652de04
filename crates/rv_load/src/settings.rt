//! What the words of a command say of a run.

ghost use Rattle.std.specs.Prelude.{◌≡◌, ℕ, ◌==◌, []};
ghost use Rattle.std.specs.List.{list_any};
ghost use Rattle.std.specs.Str.{bytes_eq};
ghost use Rattle.rv_listing.specs.Tokens.{parts_of};
ghost use Rattle.rv_listing.specs.FlagsHeader.{flags_form};
ghost use Rattle.rv_load.specs.Words.{value, number_or, aligned, base_of, steps_of, start_of, flags_of, file_register, is_same_file, is_same, named_register, register_value, with_register, put_register, registers_from, or_bad, data_bytes, data_from, name_address, with_address, put_address, addresses_from, host_of, settings_of, Reads, Leaves};

use crate::answers::{answers_of, setting_of};
use crate::callees::{Callee, callees_of};
use crate::given::Given;
use rv_base::{ExternalName, IsaFlags, List, OutOfMemory, PReg, Reg, RegClass};
use rv_full::{Answer, Setting};
use rv_listing::{
    LineError, first_part, hex_bytes, natural, next_part, register, starts, symbol_named, tail,
    two_parts, with_flag,
};
use std::alloc::Global;
use thiserror::Error;

/// Where a run begins.
#[derive(Clone, Copy, Debug, PartialEq, Eq)]
pub enum Start {
    /// At the code's first byte.
    Beginning,
    /// At an offset in bytes from the code's start.
    Offset { offset: u64 },
    /// Where the line of this number begins.
    Line { index: u64 },
}

/// A register, x1 to x31 or f0 to f31, and its value.
#[derive(Clone, Copy, Debug, PartialEq, Eq)]
pub struct RegisterValue {
    pub register: PReg,
    pub value: u64,
}

/// Bytes in memory from an address on.
#[derive(Drop)]
pub struct Data {
    pub address: u64,
    pub bytes: List<u8>,
}

/// What an address is of.
#[derive(Clone, Copy, Debug, PartialEq, Eq)]
pub enum Named {
    /// A symbol.
    Symbol,
    /// The slot that holds a symbol's address.
    Slot,
}

/// What a run begins with, the code aside.
#[derive(Drop)]
pub struct Settings {
    /// The code's address, a multiple of 4.
    pub base: u64,
    pub flags: IsaFlags,
    pub start: Start,
    /// How many steps there may be.
    pub steps: u64,
    pub trace: bool,
    pub registers: List<RegisterValue>,
    pub memory: List<Data>,
    /// The addresses of symbols, and of the slots that hold such addresses.
    pub symbols: List<(ExternalName, u64)>,
    pub slots: List<(ExternalName, u64)>,
    /// The functions outside of the code.
    pub callees: List<Callee>,
    pub setting: Setting,
    /// What the units answer, in order.
    pub answers: List<Answer>,
    /// Whether the host computes what no answer is left for.
    pub host: bool,
}

/// A word that says nothing of a run. Data, registers, symbols, slots, callees and answers are counted from 0.
#[derive(Clone, Copy, Debug, PartialEq, Eq, Error)]
pub enum BadWord {
    #[error("the code's address")]
    Base,
    #[error("the flags")]
    Flags,
    #[error("the line to start from")]
    From,
    #[error("the offset to start at")]
    At,
    #[error("the number of steps")]
    Steps,
    #[error("the data with number {index}")]
    Data { index: usize },
    #[error("the register with number {index}")]
    Register { index: usize },
    /// A register that an earlier word sets.
    #[error("the register with number {index}, which an earlier word sets")]
    Twice { index: usize },
    #[error("the address with number {index}")]
    Address { named: Named, index: usize },
    /// An address whose name an earlier word gives.
    #[error("the address with number {index}, whose name an earlier word gives")]
    AddressTwice { named: Named, index: usize },
    #[error("the callee with number {index}")]
    Callee { index: usize },
    /// A callee whose name an earlier word gives.
    #[error("the callee with number {index}, whose name an earlier word gives")]
    CalleeTwice { index: usize },
    #[error("the vector setting")]
    Setting,
    #[error("the answer with number {index}")]
    Answer { index: usize },
    #[error("the unit")]
    Unit,
}

/// Why words give no settings.
#[derive(Clone, Copy, Debug, PartialEq, Eq, Error)]
pub enum SettingsError {
    #[error("a word says nothing of a run: {word}")]
    Bad { word: BadWord },
    #[error("out of memory")]
    OutOfMemory,
}

/// A value of 64 bits: decimal, or `0x` and lower-case hex digits, or a minus and such a number up to 2^63.
pub fn value(w: &[u8]) -> Option<u64>
    ensures { result ≡ value w.now }
{
    if starts(b'-', w) {
        let n = natural(tail(w))?;
        if n <= 1 << 63 {
            Some(0u64.wrapping_sub(n))
        } else {
            None
        }
    } else {
        natural(w)
    }
}

fn number_or(default: u64, word: BadWord, given: Option<&str>) -> Result<u64, BadWord>
    ensures { result ≡ number_or default word given.entry }
{
    match given {
        None => Ok(default),
        Some(w) => match natural(w.as_bytes()) {
            Some(n) => Ok(n),
            None => Err(word),
        },
    }
}

fn aligned(base: u64) -> Result<u64, BadWord>
    ensures { result ≡ aligned base }
{
    if base % 4 == 0 {
        Ok(base)
    } else {
        Err(BadWord::Base)
    }
}

fn base_of(given: &Given) -> Result<u64, BadWord>
    ensures { result ≡ base_of given.now }
{
    aligned(number_or(0x10000, BadWord::Base, given.base)?)
}

fn steps_of(given: &Given) -> Result<u64, BadWord>
    ensures { result ≡ steps_of given.now }
{
    number_or(10000000, BadWord::Steps, given.steps)
}

fn start_of(from: Option<&str>, at: Option<&str>) -> Result<Start, BadWord>
    ensures { result ≡ start_of from.entry at.entry }
{
    match (from, at) {
        (None, None) => Ok(Start::Beginning),
        (Some(line), None) => match natural(line.as_bytes()) {
            Some(index) => Ok(Start::Line { index }),
            None => Err(BadWord::From),
        },
        (None, Some(offset)) => match natural(offset.as_bytes()) {
            Some(offset) => Ok(Start::Offset { offset }),
            None => Err(BadWord::At),
        },
        (Some(_), Some(_)) => Err(BadWord::At),
    }
}

pub(crate) fn is(word: &[u8], w: &[u8]) -> bool
    ensures { result ≡ bytes_eq w.now word.now }
{
    w == word
}

fn with_flags(names: &[u8]) -> Option<IsaFlags>
    ensures { result ≡ flags_form (parts_of 44 names.now) }
{
    let (first, mut rest) = first_part(b',', names);
    let mut flags = with_flag(IsaFlags::none(), first)?;
    'names: while let Some((name, after)) = next_part(b',', rest) {
        flags = with_flag(flags, name)?;
        rest = after;
    }
    Some(flags)
}

fn flags_of(given: Option<&str>) -> Result<IsaFlags, BadWord>
    ensures { result ≡ flags_of given.entry }
{
    match given {
        None => Ok(IsaFlags::none()),
        Some(names) => match with_flags(names.as_bytes()) {
            Some(flags) => Ok(flags),
            None => Err(BadWord::Flags),
        },
    }
}

fn file_register(reg: Reg) -> Option<PReg>
    ensures { result ≡ file_register reg }
{
    match reg {
        Reg::Real(reg) => match reg.class {
            RegClass::Int if reg.number > 0 => Some(reg),
            RegClass::Int => None,
            RegClass::Float => Some(reg),
            RegClass::Vector => None,
        },
        Reg::Virtual { .. } => None,
    }
}

fn named_register(w: &[u8]) -> Option<PReg>
    ensures { result ≡ named_register w.now }
{
    let reg = if is(b"s0", w) {
        register(b"fp")?
    } else {
        register(w)?
    };
    file_register(reg)
}

pub(crate) fn register_value(w: &[u8]) -> Option<RegisterValue>
    ensures { result ≡ register_value w.now }
{
    let (name, text) = two_parts(b'=', w)?;
    let register = named_register(name)?;
    let value = value(text)?;
    Some(RegisterValue { register, value })
}

fn is_same_file(a: RegClass, b: RegClass) -> bool
    ensures { result ≡ is_same_file a b }
{
    match a {
        RegClass::Int => matches!(b, RegClass::Int),
        RegClass::Float => matches!(b, RegClass::Float),
        RegClass::Vector => matches!(b, RegClass::Vector),
    }
}

fn is_same(a: PReg, b: PReg) -> bool
    ensures { result ≡ is_same a b }
{
    a.number == b.number && is_same_file(a.class, b.class)
}

pub(crate) fn is_among(registers: &[RegisterValue], register: PReg) -> bool
    ensures { result ≡ list_any (λ r. is_same r.register register) registers.now }
{
    registers.iter().any(|r| is_same(r.register, register))
}

// One more register, by the word of this number, where no earlier one names it.
fn add_register(
    registers: &mut List<RegisterValue>,
    index: usize,
    register: RegisterValue,
) -> Result<(), SettingsError>
    ensures { Leaves (with_register index registers.old register) registers.new result }
{
    if is_among(registers.as_slice(), register.register) {
        return Err(SettingsError::Bad {
            word: BadWord::Twice { index },
        });
    }
    match registers.push(register) {
        Ok(()) => Ok(()),
        Err(OutOfMemory) => Err(SettingsError::OutOfMemory),
    }
}

// The register that the word of this number sets.
fn put_register(
    registers: &mut List<RegisterValue>,
    index: usize,
    w: &[u8],
) -> Result<(), SettingsError>
    ensures { Leaves (put_register index registers.old w.now) registers.new result }
{
    match register_value(w) {
        Some(register) => add_register(registers, index, register),
        None => Err(SettingsError::Bad {
            word: BadWord::Register { index },
        }),
    }
}

fn registers_of(alloc: Global, words: &[&str]) -> Result<List<RegisterValue>, SettingsError>
    ensures { Reads (registers_from 0 [] words.now) result }
{
    let mut registers = List::new(alloc);
    for (index, w) in words.iter().enumerate() {
        put_register(&mut registers, index, w.as_bytes())?;
    }
    Ok(registers)
}

fn data_bytes(alloc: Global, w: &[u8], word: BadWord) -> Result<Data, SettingsError>
    ensures { Reads (or_bad word (data_bytes w.now)) result }
{
    let Some((address, digits)) = two_parts(b'=', w) else {
        return Err(SettingsError::Bad { word });
    };
    let Some(address) = natural(address) else {
        return Err(SettingsError::Bad { word });
    };
    match hex_bytes(alloc, digits) {
        Ok(bytes) => Ok(Data { address, bytes }),
        Err(LineError::NotAllowed) => Err(SettingsError::Bad { word }),
        Err(LineError::OutOfMemory) => Err(SettingsError::OutOfMemory),
    }
}

fn memory_of(alloc: Global, words: &[&str]) -> Result<List<Data>, SettingsError>
    ensures { Reads (data_from 0 [] words.now) result }
{
    let mut memory = List::new(alloc);
    for (index, w) in words.iter().enumerate() {
        let data = data_bytes(alloc, w.as_bytes(), BadWord::Data { index })?;
        match memory.push(data) {
            Ok(()) => {}
            Err(OutOfMemory) => return Err(SettingsError::OutOfMemory),
        }
    }
    Ok(memory)
}

fn name_address(w: &[u8]) -> Option<(ExternalName, u64)>
    ensures { result ≡ name_address w.now }
{
    let (name, address) = two_parts(b'=', w)?;
    let name = symbol_named(name)?;
    let address = natural(address)?;
    Some((name, address))
}

fn is_given(addresses: &[(ExternalName, u64)], number: u32) -> bool
    ensures { result ≡ list_any (λ o. o.0.number == number) addresses.now }
{
    addresses.iter().any(|o| o.0.number == number)
}

// One more address, by the word of this number, where no earlier one gives its name.
fn add_address(
    named: Named,
    addresses: &mut List<(ExternalName, u64)>,
    index: usize,
    address: (ExternalName, u64),
) -> Result<(), SettingsError>
    ensures { Leaves (with_address named index addresses.old address) addresses.new result }
{
    if is_given(addresses.as_slice(), address.0.number) {
        return Err(SettingsError::Bad {
            word: BadWord::AddressTwice { named, index },
        });
    }
    match addresses.push(address) {
        Ok(()) => Ok(()),
        Err(OutOfMemory) => Err(SettingsError::OutOfMemory),
    }
}

fn put_address(
    named: Named,
    addresses: &mut List<(ExternalName, u64)>,
    index: usize,
    w: &[u8],
) -> Result<(), SettingsError>
    ensures { Leaves (put_address named index addresses.old w.now) addresses.new result }
{
    match name_address(w) {
        Some(address) => add_address(named, addresses, index, address),
        None => Err(SettingsError::Bad {
            word: BadWord::Address { named, index },
        }),
    }
}

fn addresses_of(
    alloc: Global,
    named: Named,
    words: &[&str],
) -> Result<List<(ExternalName, u64)>, SettingsError>
    ensures { Reads (addresses_from named 0 [] words.now) result }
{
    let mut addresses = List::new(alloc);
    for (index, w) in words.iter().enumerate() {
        put_address(named, &mut addresses, index, w.as_bytes())?;
    }
    Ok(addresses)
}

impl From<BadWord> for SettingsError {
    ghost use Rattle.rv_load.specs.declared.settings.SettingsError.TheVariants as errors;

    ghost from_gives = { λ word e. e ≡ errors.Bad word };

    fn from(word: BadWord) -> SettingsError {
        SettingsError::Bad { word }
    }
}

/// Whether the host is the unit.
fn host_of(given: Option<&str>) -> Result<bool, BadWord>
    ensures { result ≡ host_of given.entry }
{
    match given {
        None => Ok(false),
        Some(w) => {
            if is(b"host", w.as_bytes()) {
                Ok(true)
            } else {
                Err(BadWord::Unit)
            }
        }
    }
}

/// What the words say; or the first bad one, in the order of base, flags, start, steps, data, registers, symbols, slots,
/// callees, setting, answers and unit.
pub fn settings_of(alloc: Global, given: &Given) -> Result<Settings, SettingsError>
    ensures { Reads (settings_of given.now) result }
{
    let base = base_of(given)?;
    let flags = flags_of(given.flags)?;
    let start = start_of(given.from, given.at)?;
    let steps = steps_of(given)?;
    let memory = memory_of(alloc, given.memory.as_slice())?;
    let registers = registers_of(alloc, given.registers.as_slice())?;
    let symbols = addresses_of(alloc, Named::Symbol, given.symbols.as_slice())?;
    let slots = addresses_of(alloc, Named::Slot, given.slots.as_slice())?;
    let callees = callees_of(alloc, symbols.as_slice(), given.callees.as_slice())?;
    let setting = setting_of(given.setting)?;
    let answers = answers_of(alloc, given.answers.as_slice())?;
    let host = host_of(given.unit)?;
    Ok(Settings {
        base,
        flags,
        start,
        steps,
        trace: given.trace,
        registers,
        memory,
        symbols,
        slots,
        callees,
        setting,
        answers,
        host,
    })
}
