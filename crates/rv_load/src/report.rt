//! A report read back, line by line.

ghost use Rattle.std.specs.Prelude.{◌≡◌, ◌+◌, ◌<◌, ◌≤◌, ◌^◌, ◌++◌, length, Some, OnOk};
ghost use Rattle.std.specs.Str.{bytes_eq};
ghost use Rattle.hex.specs.Hex.{encode_lower};
ghost use Rattle.std.specs.Int.{w32, to_be_bytes};
ghost use Rattle.rv_listing.specs.Tokens.{words_after, words_of, lines_of, decimal};
ghost use Rattle.rv_listing.specs.Fields.{field, Takes, Makes};
ghost use Rattle.rv_load.specs.Report.{rank, blank, may_have, is_offset, one_number, head_line, last_bytes, with_bytes, row_line, three_numbers, span_of, span_line, at_offset, return_offset, return_line, with_label, label_line, const_offset, const_line, with_reloc, reloc_line, trap_words, trap_line, call_line, try_line, patch_words, patch_line, map_line, unwind_line, has_text, text_line, end_line, with_line, MakesDraft, ReadsReport};

use crate::program::{Program, ProgramError};
use crate::records::{
    are_entries, are_handlers, is_within, label_words, map_words, number, number_32, reloc_words,
    try_words, unwind_words,
};
use rv_base::{List, OutOfMemory, TrapCode};
use rv_inst::{LabelPlace, LineSpan, MachReloc};
use rv_listing::{LineError, decimal, first_word, hex_bytes, next_line, next_word, trap_named};
use std::alloc::Global;

/// The parts of a report, in their order.
#[derive(Clone, Copy, Debug, PartialEq, Eq)]
pub enum Part {
    Nothing,
    Bytes,
    Lines,
    Returns,
    Labels,
    Constants,
    Relocations,
    Traps,
    Calls,
    Tries,
    Patches,
    Maps,
    Unwinds,
    Texts,
    End,
}

/// What the lines of a report gave so far: the part that they came to, how many bytes the code has, those that came, the
/// spans of lines, labels and relocations.
#[derive(Drop)]
pub struct Draft {
    pub part: Part,
    pub count: u64,
    pub bytes: List<u8>,
    pub lines: List<LineSpan>,
    pub labels: List<LabelPlace>,
    pub relocs: List<MachReloc>,
}

fn blank(alloc: Global) -> Draft
    ensures { result ≡ blank }
{
    Draft {
        part: Part::Nothing,
        count: 0,
        bytes: List::new(alloc),
        lines: List::new(alloc),
        labels: List::new(alloc),
        relocs: List::new(alloc),
    }
}

fn rank(part: Part) -> u8
    ensures { result ≡ rank part }
{
    match part {
        Part::Nothing => 0,
        Part::Bytes => 1,
        Part::Lines => 2,
        Part::Returns => 3,
        Part::Labels => 4,
        Part::Constants => 5,
        Part::Relocations => 6,
        Part::Traps => 7,
        Part::Calls => 8,
        Part::Tries => 9,
        Part::Patches => 10,
        Part::Maps => 11,
        Part::Unwinds => 12,
        Part::Texts => 13,
        Part::End => 14,
    }
}

fn is(word: &[u8], w: &[u8]) -> bool
    ensures { result ≡ bytes_eq w.now word.now }
{
    w == word
}

// Returns whether a line of this part may come next, once all bytes have come.
fn may_have(part: Part, draft: &Draft) -> bool
    ensures { result ≡ may_have part draft.now }
{
    let so_far = rank(draft.part);
    0 < so_far && so_far <= rank(part) && draft.bytes.len() as u64 == draft.count
}

// The next word as a decimal number, where it is the last.
fn last_number(rest: &[u8]) -> Option<u64>
    ensures { result ≡ one_number (words_after rest.now) }
{
    let (n, rest) = number(rest)?;
    match next_word(rest) {
        None => Some(n),
        Some(_) => None,
    }
}

fn head_line(draft: &mut Draft, rest: &[u8]) -> Result<(), LineError>
    ensures { MakesDraft (head_line draft.old (words_after rest.now)) draft.new result }
{
    match last_number(rest) {
        Some(count) if count < 1 << 32 && rank(draft.part) == 0 => {
            draft.part = Part::Bytes;
            draft.count = count;
            Ok(())
        }
        _ => Err(LineError::NotAllowed),
    }
}

// Returns whether the word is this offset in eight hexadecimal digits.
fn is_offset(w: &[u8], offset: usize) -> bool
    ensures { result ≡ is_offset w.now offset }
{
    let Ok(offset) = u32::try_from(offset) else {
        return false;
    };
    let mut digits = [0u8; 8];
    let bytes = offset.to_be_bytes();
    let _ = hex::encode_to_slice(bytes.as_slice(), &mut digits[..]);
    is(&digits, w)
}

// The next word's bytes, where it is the last.
fn last_bytes(alloc: Global, rest: &[u8]) -> Result<List<u8>, LineError>
    ensures { Makes result (last_bytes (words_after rest.now)) }
{
    let Some((w, rest)) = next_word(rest) else {
        return Err(LineError::NotAllowed);
    };
    let bytes = hex_bytes(alloc, w)?;
    match next_word(rest) {
        None => Ok(bytes),
        Some(_) => Err(LineError::NotAllowed),
    }
}

fn extend(list: &mut List<u8>, bytes: &[u8]) -> Result<(), OutOfMemory>
    ensures { OnOk result (list.new ≡ list.old ++ bytes.now) }
{
    for byte in bytes {
        list.push(*byte)?;
    }
    Ok(())
}

fn put_bytes(draft: &mut Draft, bytes: &[u8]) -> Result<(), LineError>
    ensures { MakesDraft (with_bytes draft.old bytes.now) draft.new result }
{
    let missing = draft.count.saturating_sub(draft.bytes.len() as u64);
    if bytes.is_empty() || bytes.len() as u64 != missing.min(16) {
        return Err(LineError::NotAllowed);
    }
    match extend(&mut draft.bytes, bytes) {
        Ok(()) => Ok(()),
        Err(OutOfMemory) => Err(LineError::OutOfMemory),
    }
}

fn row_line(alloc: Global, draft: &mut Draft, offset: &[u8], rest: &[u8]) -> Result<(), LineError>
    ensures { MakesDraft (row_line draft.old offset.now (words_after rest.now)) draft.new result }
{
    let bytes = last_bytes(alloc, rest)?;
    if rank(draft.part) == 1 && is_offset(offset, draft.bytes.len()) {
        put_bytes(draft, bytes.as_slice())
    } else {
        Err(LineError::NotAllowed)
    }
}

// Three numbers, where they are the last words.
fn three_numbers(rest: &[u8]) -> Option<(u64, u64, u64)>
    ensures { result ≡ three_numbers (words_after rest.now) }
{
    let (a, rest) = number(rest)?;
    let (b, rest) = number(rest)?;
    let (c, rest) = number(rest)?;
    match next_word(rest) {
        None => Some((a, b, c)),
        Some(_) => None,
    }
}

fn span_of(draft: &Draft, numbers: (u64, u64, u64)) -> Option<LineSpan>
    ensures { result ≡ span_of draft.now numbers }
{
    let (index, start, end) = numbers;
    if may_have(Part::Lines, draft) && start <= end && end <= draft.count && end < 1 << 32 {
        Some(LineSpan {
            index: index as usize,
            start: start as u32,
            end: end as u32,
        })
    } else {
        None
    }
}

fn span_line(draft: &mut Draft, rest: &[u8]) -> Result<(), LineError>
    ensures { MakesDraft (span_line draft.old (words_after rest.now)) draft.new result }
{
    let Some(numbers) = three_numbers(rest) else {
        return Err(LineError::NotAllowed);
    };
    let Some(span) = span_of(draft, numbers) else {
        return Err(LineError::NotAllowed);
    };
    match draft.lines.push(span) {
        Ok(()) => {
            draft.part = Part::Lines;
            Ok(())
        }
        Err(OutOfMemory) => Err(LineError::OutOfMemory),
    }
}

// A line of this part for an offset.
fn at_offset(part: Part, draft: &mut Draft, offset: u64) -> Result<(), LineError>
    ensures { MakesDraft (at_offset part draft.old offset) draft.new result }
{
    if may_have(part, draft) && offset <= draft.count {
        draft.part = part;
        Ok(())
    } else {
        Err(LineError::NotAllowed)
    }
}

// The offset after a line's number.
fn return_offset(rest: &[u8]) -> Option<u64>
    ensures { result ≡ return_offset (words_after rest.now) }
{
    let (_, rest) = number(rest)?;
    last_number(rest)
}

fn return_line(draft: &mut Draft, rest: &[u8]) -> Result<(), LineError>
    ensures { MakesDraft (return_line draft.old (words_after rest.now)) draft.new result }
{
    match return_offset(rest) {
        Some(offset) => at_offset(Part::Returns, draft, offset),
        None => Err(LineError::NotAllowed),
    }
}

fn put_label(draft: &mut Draft, place: LabelPlace) -> Result<(), LineError>
    ensures { MakesDraft (Some (with_label place draft.old)) draft.new result }
{
    match draft.labels.push(place) {
        Ok(()) => Ok(()),
        Err(OutOfMemory) => Err(LineError::OutOfMemory),
    }
}

fn label_line(draft: &mut Draft, rest: &[u8]) -> Result<(), LineError>
    ensures { MakesDraft (label_line draft.old (words_after rest.now)) draft.new result }
{
    let Some(place) = label_words(rest) else {
        return Err(LineError::NotAllowed);
    };
    at_offset(Part::Labels, draft, u64::from(place.offset))?;
    put_label(draft, place)
}

// The offset after a constant's number.
fn const_offset(rest: &[u8]) -> Option<u64>
    ensures { result ≡ const_offset (words_after rest.now) }
{
    let (w, rest) = next_word(rest)?;
    number_32(w)?;
    last_number(rest)
}

fn const_line(draft: &mut Draft, rest: &[u8]) -> Result<(), LineError>
    ensures { MakesDraft (const_line draft.old (words_after rest.now)) draft.new result }
{
    match const_offset(rest) {
        Some(offset) => at_offset(Part::Constants, draft, offset),
        None => Err(LineError::NotAllowed),
    }
}

fn put_reloc(draft: &mut Draft, reloc: MachReloc) -> Result<(), LineError>
    ensures { MakesDraft (Some (with_reloc reloc draft.old)) draft.new result }
{
    match draft.relocs.push(reloc) {
        Ok(()) => Ok(()),
        Err(OutOfMemory) => Err(LineError::OutOfMemory),
    }
}

fn reloc_line(draft: &mut Draft, rest: &[u8]) -> Result<(), LineError>
    ensures { MakesDraft (reloc_line draft.old (words_after rest.now)) draft.new result }
{
    let Some(reloc) = reloc_words(rest) else {
        return Err(LineError::NotAllowed);
    };
    if !is_within(draft.count, reloc.target) {
        return Err(LineError::NotAllowed);
    }
    at_offset(Part::Relocations, draft, u64::from(reloc.offset))?;
    put_reloc(draft, reloc)
}

// An offset and a cause, where they are the last words.
fn trap_words(rest: &[u8]) -> Option<(u64, TrapCode)>
    ensures { result ≡ trap_words (words_after rest.now) }
{
    let (offset, rest) = number(rest)?;
    let (w, rest) = next_word(rest)?;
    let code = trap_named(w)?;
    match next_word(rest) {
        None => Some((offset, code)),
        Some(_) => None,
    }
}

fn trap_line(draft: &mut Draft, rest: &[u8]) -> Result<(), LineError>
    ensures { MakesDraft (trap_line draft.old (words_after rest.now)) draft.new result }
{
    match trap_words(rest) {
        Some((offset, _)) => at_offset(Part::Traps, draft, offset),
        None => Err(LineError::NotAllowed),
    }
}

fn call_line(draft: &mut Draft, rest: &[u8]) -> Result<(), LineError>
    ensures { MakesDraft (call_line draft.old (words_after rest.now)) draft.new result }
{
    match last_number(rest) {
        Some(offset) => at_offset(Part::Calls, draft, offset),
        None => Err(LineError::NotAllowed),
    }
}

fn try_line(draft: &mut Draft, rest: &[u8]) -> Result<(), LineError>
    ensures { MakesDraft (try_line draft.old (words_after rest.now)) draft.new result }
{
    match try_words(rest) {
        Some((offset, handlers)) if are_handlers(draft.count, handlers) => {
            at_offset(Part::Tries, draft, offset)
        }
        _ => Err(LineError::NotAllowed),
    }
}

// An offset and a length, where they are the last words.
fn patch_words(rest: &[u8]) -> Option<(u64, u32)>
    ensures { result ≡ patch_words (words_after rest.now) }
{
    let (offset, rest) = number(rest)?;
    let (w, rest) = next_word(rest)?;
    let length = number_32(w)?;
    match next_word(rest) {
        None => Some((offset, length)),
        Some(_) => None,
    }
}

fn patch_line(draft: &mut Draft, rest: &[u8]) -> Result<(), LineError>
    ensures { MakesDraft (patch_line draft.old (words_after rest.now)) draft.new result }
{
    match patch_words(rest) {
        Some((offset, _)) => at_offset(Part::Patches, draft, offset),
        None => Err(LineError::NotAllowed),
    }
}

fn map_line(draft: &mut Draft, rest: &[u8]) -> Result<(), LineError>
    ensures { MakesDraft (map_line draft.old (words_after rest.now)) draft.new result }
{
    match map_words(rest) {
        Some((offset, entries)) if are_entries(entries) => at_offset(Part::Maps, draft, offset),
        _ => Err(LineError::NotAllowed),
    }
}

fn unwind_line(draft: &mut Draft, rest: &[u8]) -> Result<(), LineError>
    ensures { MakesDraft (unwind_line draft.old (words_after rest.now)) draft.new result }
{
    match unwind_words(rest) {
        Some((offset, _)) => at_offset(Part::Unwinds, draft, offset),
        None => Err(LineError::NotAllowed),
    }
}

// Returns whether the number of a line stands here, with a word after it.
fn has_text(rest: &[u8]) -> bool
    ensures { result ≡ has_text (words_after rest.now) }
{
    match number(rest) {
        Some((_, rest)) => next_word(rest).is_some(),
        None => false,
    }
}

fn text_line(draft: &mut Draft, rest: &[u8]) -> Result<(), LineError>
    ensures { MakesDraft (text_line draft.old (words_after rest.now)) draft.new result }
{
    if has_text(rest) && may_have(Part::Texts, draft) {
        draft.part = Part::Texts;
        Ok(())
    } else {
        Err(LineError::NotAllowed)
    }
}

fn end_line(draft: &mut Draft, rest: &[u8]) -> Result<(), LineError>
    ensures { MakesDraft (end_line draft.old (words_after rest.now)) draft.new result }
{
    match last_number(rest) {
        Some(offset) if may_have(Part::Texts, draft) && offset <= draft.count => {
            draft.part = Part::End;
            Ok(())
        }
        _ => Err(LineError::NotAllowed),
    }
}

#[tactic(auto, unfolding(crate::specs::Report::with_line))]
fn take_line(alloc: Global, draft: &mut Draft, line: &[u8]) -> Result<(), LineError>
    ensures { MakesDraft (with_line draft.old line.now) draft.new result }
{
    let (name, rest) = first_word(line);
    if is(b"line", name) {
        span_line(draft, rest)
    } else if is(b"return", name) {
        return_line(draft, rest)
    } else if is(b"label", name) {
        label_line(draft, rest)
    } else if is(b"const", name) {
        const_line(draft, rest)
    } else if is(b"reloc", name) {
        reloc_line(draft, rest)
    } else if is(b"trap", name) {
        trap_line(draft, rest)
    } else if is(b"call", name) {
        call_line(draft, rest)
    } else if is(b"try", name) {
        try_line(draft, rest)
    } else if is(b"patch", name) {
        patch_line(draft, rest)
    } else if is(b"map", name) {
        map_line(draft, rest)
    } else if is(b"unwind", name) {
        unwind_line(draft, rest)
    } else if is(b"text", name) {
        text_line(draft, rest)
    } else if is(b"code", name) {
        head_line(draft, rest)
    } else if is(b"end", name) {
        end_line(draft, rest)
    } else {
        row_line(alloc, draft, name, rest)
    }
}

fn read_lines(alloc: Global, text: &[u8]) -> Result<Program, ProgramError>
    ensures { ReadsReport text.now result }
{
    let mut draft = blank(alloc);
    let mut rest = text;
    let mut number = 1;
    while let Some((line, after)) = next_line(rest) {
        match take_line(alloc, &mut draft, line) {
            Ok(()) => {}
            Err(LineError::NotAllowed) => return Err(ProgramError::NotReport { line: number }),
            Err(LineError::OutOfMemory) => return Err(ProgramError::OutOfMemory),
        }
        number += 1;
        rest = after;
    }
    if rank(draft.part) == 14 {
        Ok(Program {
            bytes: draft.bytes,
            lines: draft.lines,
            labels: draft.labels,
            relocs: draft.relocs,
        })
    } else {
        Err(ProgramError::NotReport { line: number })
    }
}

/// The code that a report gives, in lines that LF ends; the last LF may be missing.
pub fn read_report(alloc: Global, text: &[u8]) -> Result<Program, ProgramError>
    ensures { ReadsReport text.now result }
{
    read_lines(alloc, text)
}
