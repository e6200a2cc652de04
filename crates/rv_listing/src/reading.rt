//! A whole listing: the job that it means, or its first bad line.

ghost use Rattle.std.specs.Prelude.{◌≡◌, ℕ, IfErr};
ghost use Rattle.rv_listing.specs.Tokens.{words_after, words_of, lines_of};
ghost use Rattle.std.specs.List.{list_all};
ghost use Rattle.rv_listing.specs.Fields.{Makes};
ghost use Rattle.rv_listing.specs.ConstantHeader.{constant_form};
ghost use Rattle.rv_listing.specs.declared.reading.Place.TheVariants.{AtConstants};
ghost use Rattle.rv_listing.specs.Reading.{no_draft, is_plain, up_to, with_flags, with_frame, with_constant, with_form, with_named, with_line, reading, Becomes, reads, Reads, IsBadLine};

use crate::fields::{LineError, allowed};
use crate::tokens::{first_word, is, next_line};
use crate::{constant_header, flags_header, forms, frame_header};
use rv_base::{Constant, FrameLayout, IsaFlags, List};
use rv_inst::Job;
use std::alloc::Global;
use thiserror::Error;

/// Why a text is no job.
#[derive(Clone, Copy, Debug, PartialEq, Eq, Error)]
pub enum ReadError {
    /// The first line, counted from 1, that isn't of a form allowed there.
    #[error("syntax at line {line}")]
    Syntax { line: usize },
    #[error("out of memory")]
    OutOfMemory,
}

/// Where in a listing one is, by the lines that may come next. Header lines come before all others: that of the flags, that of the
/// frame, and those of constants.
#[derive(Clone, Copy, Debug, PartialEq, Eq)]
pub enum Place {
    /// The flags' header line or any line after it.
    AtFlags,
    /// The frame's header line or any line after it.
    AtFrame,
    /// A constant's header line or any line after it.
    AtConstants,
    /// Instructions and labels alone.
    AtLines,
}

/// What was read so far.
#[derive(Drop)]
pub struct Draft {
    job: Job,
    place: Place,
}

fn no_draft(alloc: Global) -> Draft
    ensures { result ≡ no_draft }
{
    let job = Job {
        lines: List::new(alloc),
        flags: IsaFlags::none(),
        frame: FrameLayout::none(alloc),
        constants: List::new(alloc),
    };
    Draft {
        job,
        place: Place::AtFlags,
    }
}

fn is_comment(line: &[u8]) -> bool
    ensures { result ≡ list_all is_plain line.now }
{
    line.iter().all(|c| *c < 128 && *c != 13)
}

fn take_flags(draft: &mut Draft, rest: &[u8]) -> Result<(), LineError>
    ensures { Becomes (with_flags draft.old (words_after rest.now)) draft.new result }
{
    match draft.place {
        Place::AtFlags => {
            draft.job.flags = allowed(flags_header::flags(rest))?;
            draft.place = Place::AtFrame;
            Ok(())
        }
        Place::AtFrame | Place::AtConstants | Place::AtLines => Err(LineError::NotAllowed),
    }
}

fn take_frame(alloc: Global, draft: &mut Draft, rest: &[u8]) -> Result<(), LineError>
    ensures { Becomes (with_frame draft.old (words_after rest.now)) draft.new result }
{
    match draft.place {
        Place::AtFlags | Place::AtFrame => {
            draft.job.frame = frame_header::frame(alloc, rest)?;
            draft.place = Place::AtConstants;
            Ok(())
        }
        Place::AtConstants | Place::AtLines => Err(LineError::NotAllowed),
    }
}

fn constant_at(alloc: Global, place: Place, rest: &[u8]) -> Result<Constant, LineError>
    ensures { Makes result (up_to AtConstants place (constant_form (words_after rest.now))) }
{
    match place {
        Place::AtFlags | Place::AtFrame | Place::AtConstants => {
            constant_header::constant(alloc, rest)
        }
        Place::AtLines => Err(LineError::NotAllowed),
    }
}

fn take_constant(alloc: Global, draft: &mut Draft, rest: &[u8]) -> Result<(), LineError>
    ensures { Becomes (with_constant draft.old (words_after rest.now)) draft.new result }
{
    let constant = constant_at(alloc, draft.place, rest)?;
    match draft.job.constants.push(constant) {
        Ok(()) => {
            draft.place = Place::AtConstants;
            Ok(())
        }
        Err(_) => Err(LineError::OutOfMemory),
    }
}

fn take_form(alloc: Global, draft: &mut Draft, name: &[u8], rest: &[u8]) -> Result<(), LineError>
    ensures { Becomes (with_form draft.old name.now (words_after rest.now)) draft.new result }
{
    let line = forms::line(alloc, name, rest)?;
    match draft.job.lines.push(line) {
        Ok(()) => {
            draft.place = Place::AtLines;
            Ok(())
        }
        Err(_) => Err(LineError::OutOfMemory),
    }
}

#[tactic(auto, unfolding(crate::specs::Reading::with_named))]
fn take_named(alloc: Global, draft: &mut Draft, name: &[u8], rest: &[u8]) -> Result<(), LineError>
    ensures { Becomes (with_named draft.old name.now (words_after rest.now)) draft.new result }
{
    if is(b"flags", name) {
        take_flags(draft, rest)
    } else if is(b"frame", name) {
        take_frame(alloc, draft, rest)
    } else if is(b"const", name) {
        take_constant(alloc, draft, rest)
    } else {
        take_form(alloc, draft, name, rest)
    }
}

#[tactic(auto, unfolding(crate::specs::Reading::with_line))]
fn take_line(alloc: Global, draft: &mut Draft, line: &[u8]) -> Result<(), LineError>
    ensures { Becomes (with_line draft.old line.now) draft.new result }
{
    if line.is_empty() {
        return Ok(());
    }
    if line[0] == b'#' {
        return if is_comment(line) {
            Ok(())
        } else {
            Err(LineError::NotAllowed)
        };
    }
    let (name, rest) = first_word(line);
    take_named(alloc, draft, name, rest)
}

fn read_lines(alloc: Global, text: &[u8]) -> Result<Job, ReadError>
    ensures { Reads text.now result }
{
    let mut draft = no_draft(alloc);
    let mut rest = text;
    let mut number = 1;
    while let Some((line, after)) = next_line(rest) {
        match take_line(alloc, &mut draft, line) {
            Ok(()) => {}
            Err(LineError::NotAllowed) => return Err(ReadError::Syntax { line: number }),
            Err(LineError::OutOfMemory) => return Err(ReadError::OutOfMemory),
        }
        number += 1;
        rest = after;
    }
    Ok(draft.job)
}

/// The job that a listing means. The text is ASCII in lines that LF ends; the last LF may be missing. The flags' header line
/// stands first, then the frame's, and those of constants before all instructions and labels; without their lines all flags are
/// off, and the frame has no bytes.
pub fn read_job(alloc: Global, text: &[u8]) -> Result<Job, ReadError>
    ensures reads { Reads text.now result }
    ensures bad_line { IfErr result (λ e. (n : ℕ) → e ≡ ReadError.Syntax n → IsBadLine text.now n) }
{
    read_lines(alloc, text)
}
