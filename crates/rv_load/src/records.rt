//! The words of a report's lines of labels, of relocations, of calls that may throw, of values on the stack and of steps in the making of the
//! frame.

ghost use Rattle.std.specs.Prelude.{◌≡◌, ◌≤◌, ◌^◌, pos, ◌-ℤ◌};
ghost use Rattle.rv_listing.specs.Tokens.{words_after, decimal};
ghost use Rattle.rv_listing.specs.Fields.{field, no_more, Takes};
ghost use Rattle.rv_listing.specs.Operands.{real_register};
ghost use Rattle.rv_load.specs.Records.{label, label_words, addend, alloc_step, are_entries, are_handlers, frame, frame_step, handler, handler_at, is_placed, is_within, map_entry, map_words, number_32, push_step, reloc_target, reloc_words, save_step, step_of, step_of_kind, try_words, unwind_words};

use mach_records::{FinalizedMachExceptionHandler, FinalizedRelocTarget, MachReloc};
use mach_uses::LabelPlace;
use rv_base::{IrType, MachLabel, PReg, Reg, UnwindInst};
use rv_listing::{
    decimal, next_part, next_word, real_register, reloc_named, starts, symbol_named, tail,
    two_parts, type_named,
};

/// The next word, as a decimal number.
pub fn number(rest: &[u8]) -> Option<(u64, &[u8])>
    ensures { Takes result (field decimal (words_after rest.now)) }
{
    let (w, rest) = next_word(rest)?;
    let n = decimal(w)?;
    Some((n, rest))
}

/// A decimal number of 32 bits.
pub fn number_32(w: &[u8]) -> Option<u32>
    ensures { result ≡ number_32 w.now }
{
    let n = decimal(w)?;
    if n < 1 << 32 { Some(n as u32) } else { None }
}

// The next word, as a decimal number of 32 bits.
fn size(rest: &[u8]) -> Option<(u32, &[u8])>
    ensures { Takes result (field number_32 (words_after rest.now)) }
{
    let (w, rest) = next_word(rest)?;
    let n = number_32(w)?;
    Some((n, rest))
}

// What was made, where no word is left.
fn whole<T: Copy>(made: T, rest: &[u8]) -> Option<T>
    ensures { result ≡ no_more (made, words_after rest.now) }
{
    match next_word(rest) {
        None => Some(made),
        Some(_) => None,
    }
}

// ---- relocations

fn reloc_target(w: &[u8]) -> Option<FinalizedRelocTarget>
    ensures { result ≡ reloc_target w.now }
{
    if starts(b'@', w) {
        Some(FinalizedRelocTarget::Func(number_32(tail(w))?))
    } else {
        Some(FinalizedRelocTarget::ExternalName(symbol_named(w)?))
    }
}

fn negative(n: u64) -> i64
    requires { n ≤ 2 ^ 63 }
    ensures { result ≡ pos 0 -ℤ pos n }
{
    (-i128::from(n)) as i64
}

fn addend(w: &[u8]) -> Option<i64>
    ensures { result ≡ addend w.now }
{
    if starts(b'-', w) {
        let n = decimal(tail(w))?;
        if n <= 1 << 63 {
            Some(negative(n))
        } else {
            None
        }
    } else {
        let n = decimal(w)?;
        if n < 1 << 63 { Some(n as i64) } else { None }
    }
}

/// A relocation.
pub fn reloc_words(rest: &[u8]) -> Option<MachReloc>
    ensures { result ≡ reloc_words (words_after rest.now) }
{
    let (offset, rest) = size(rest)?;
    let (w, rest) = next_word(rest)?;
    let kind = reloc_named(w)?;
    let (w, rest) = next_word(rest)?;
    let target = reloc_target(w)?;
    let (w, rest) = next_word(rest)?;
    let addend = addend(w)?;
    whole(
        MachReloc {
            offset,
            kind,
            target,
            addend,
        },
        rest,
    )
}

// ---- labels

fn label(w: &[u8]) -> Option<u32>
    ensures { result ≡ label w.now }
{
    if starts(b'L', w) {
        number_32(tail(w))
    } else {
        None
    }
}

/// A label and its offset.
pub fn label_words(rest: &[u8]) -> Option<LabelPlace>
    ensures { result ≡ label_words (words_after rest.now) }
{
    let (w, rest) = next_word(rest)?;
    let number = label(w)?;
    let (offset, rest) = size(rest)?;
    whole(
        LabelPlace {
            label: MachLabel::from_u32(number),
            offset,
        },
        rest,
    )
}

/// Returns whether a place in the code of so many bytes is at most their number.
pub fn is_within(count: u64, target: FinalizedRelocTarget) -> bool
    ensures { result ≡ is_within count target }
{
    match target {
        FinalizedRelocTarget::ExternalName(_) => true,
        FinalizedRelocTarget::Func(offset) => offset as u64 <= count,
    }
}

// ---- calls that may throw

// How far the frame pointer is above the stack pointer, where that is known.
fn frame(w: &[u8]) -> Option<Option<u32>>
    ensures { result ≡ frame w.now }
{
    if w == b"-".as_slice() {
        Some(None)
    } else {
        Some(Some(number_32(w)?))
    }
}

/// The offset of a call that may throw, and its handlers' words.
pub fn try_words(rest: &[u8]) -> Option<(u64, &[u8])>
    ensures { Takes result (try_words (words_after rest.now)) }
{
    let (offset, rest) = number(rest)?;
    let (w, rest) = next_word(rest)?;
    frame(w)?;
    Some((offset, rest))
}

fn handler_at(w: &[u8], offset: u32) -> Option<FinalizedMachExceptionHandler>
    ensures { result ≡ handler_at w.now offset }
{
    if w == b"default".as_slice() {
        return Some(FinalizedMachExceptionHandler::Default(offset));
    }
    let tag = number_32(w.strip_prefix(b"tag")?)?;
    Some(FinalizedMachExceptionHandler::Tag(tag, offset))
}

fn handler(w: &[u8]) -> Option<FinalizedMachExceptionHandler>
    ensures { result ≡ handler w.now }
{
    let (exceptions, offset) = two_parts(b':', w)?;
    let offset = number_32(offset)?;
    handler_at(exceptions, offset)
}

fn is_placed(count: u64, handler: Option<FinalizedMachExceptionHandler>) -> bool
    ensures { result ≡ is_placed count handler }
{
    match handler {
        Some(FinalizedMachExceptionHandler::Tag(_, offset)) => offset as u64 <= count,
        Some(FinalizedMachExceptionHandler::Default(offset)) => offset as u64 <= count,
        None => false,
    }
}

/// Returns whether the words are handlers, each at most at the end of the code of so many bytes.
pub fn are_handlers(count: u64, rest: &[u8]) -> bool
    ensures { result ≡ are_handlers count (words_after rest.now) }
{
    let mut rest = rest;
    while let Some((w, after)) = next_part(b' ', rest) {
        if !is_placed(count, handler(w)) {
            return false;
        }
        rest = after;
    }
    true
}

// ---- values on the stack

/// The offset where a call returns, and the words of the values that its map names.
pub fn map_words(rest: &[u8]) -> Option<(u64, &[u8])>
    ensures { Takes result (map_words (words_after rest.now)) }
{
    let (offset, rest) = number(rest)?;
    let (_, rest) = size(rest)?;
    Some((offset, rest))
}

fn map_entry(w: &[u8]) -> Option<(IrType, u32)>
    ensures { result ≡ map_entry w.now }
{
    let (ty, offset) = two_parts(b'@', w)?;
    let ty = type_named(ty)?;
    let offset = number_32(offset)?;
    Some((ty, offset))
}

/// Returns whether the words are values of a map.
pub fn are_entries(rest: &[u8]) -> bool
    ensures { result ≡ are_entries (words_after rest.now) }
{
    let mut rest = rest;
    while let Some((w, after)) = next_part(b' ', rest) {
        if map_entry(w).is_none() {
            return false;
        }
        rest = after;
    }
    true
}

// ---- steps in the making of the frame

// The next word, as a register of the machine.
fn saved(rest: &[u8]) -> Option<(PReg, &[u8])>
    ensures { Takes result (field real_register (words_after rest.now)) }
{
    let (w, rest) = next_word(rest)?;
    let reg = real_register(w)?;
    Some((reg, rest))
}

fn push_step(rest: &[u8]) -> Option<UnwindInst>
    ensures { result ≡ push_step (words_after rest.now) }
{
    let (offset_upward_to_caller_sp, rest) = size(rest)?;
    whole(
        UnwindInst::PushFrameRegs {
            offset_upward_to_caller_sp,
        },
        rest,
    )
}

fn frame_step(rest: &[u8]) -> Option<UnwindInst>
    ensures { result ≡ frame_step (words_after rest.now) }
{
    let (offset_upward_to_caller_sp, rest) = size(rest)?;
    let (offset_downward_to_clobbers, rest) = size(rest)?;
    whole(
        UnwindInst::DefineNewFrame {
            offset_upward_to_caller_sp,
            offset_downward_to_clobbers,
        },
        rest,
    )
}

fn alloc_step(rest: &[u8]) -> Option<UnwindInst>
    ensures { result ≡ alloc_step (words_after rest.now) }
{
    let (size, rest) = size(rest)?;
    whole(UnwindInst::StackAlloc { size }, rest)
}

fn save_step(rest: &[u8]) -> Option<UnwindInst>
    ensures { result ≡ save_step (words_after rest.now) }
{
    let (clobber_offset, rest) = size(rest)?;
    let (reg, rest) = saved(rest)?;
    whole(
        UnwindInst::SaveReg {
            clobber_offset,
            reg: Reg::Real(reg),
        },
        rest,
    )
}

fn step_of_kind(kind: &[u8], rest: &[u8]) -> Option<UnwindInst>
    ensures { result ≡ step_of_kind kind.now (words_after rest.now) }
{
    if kind == b"push".as_slice() {
        push_step(rest)
    } else if kind == b"frame".as_slice() {
        frame_step(rest)
    } else if kind == b"alloc".as_slice() {
        alloc_step(rest)
    } else if kind == b"save".as_slice() {
        save_step(rest)
    } else {
        None
    }
}

/// An offset, and the step that is done there.
pub fn unwind_words(rest: &[u8]) -> Option<(u64, UnwindInst)>
    ensures { result ≡ unwind_words (words_after rest.now) }
{
    let (offset, rest) = number(rest)?;
    let (kind, rest) = next_word(rest)?;
    let step = step_of_kind(kind, rest)?;
    Some((offset, step))
}
