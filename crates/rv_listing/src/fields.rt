//! The fields of a line: a token for each.

ghost use Rattle.std.specs.Prelude.{◌≡◌, ℕ, List, Option, Some};
ghost use Rattle.rv_listing.specs.Tokens.{words_after};
ghost use Rattle.rv_listing.specs.Fields.{field, no_more, Takes, Makes};
ghost use Rattle.rv_listing.specs.Operands.{either};

use crate::tokens::{is, next_word};
use rv_inst::Boxed;
use std::alloc::Global;
use thiserror::Error;

/// What one word of a line stands for.
pub trait Token: Copy {
    ghost reads: { List ℕ → Option Self };

    fn read(w: &[u8]) -> Option<Self>
        ensures { result ≡ reads w.now };
}

/// Why a line isn't taken.
#[derive(Clone, Copy, Debug, PartialEq, Eq, Error)]
pub enum LineError {
    #[error("not a line of a form allowed here")]
    NotAllowed,
    #[error("out of memory")]
    OutOfMemory,
}

/// The next word, as a token.
#[inline(always)]
pub fn field<T: Token>(rest: &[u8]) -> Option<(T, &[u8])>
    ensures { Takes result (field T.reads (words_after rest.now)) }
{
    let (w, rest) = next_word(rest)?;
    let x = T::read(w)?;
    Some((x, rest))
}

/// A word, as one of two: whether it is the first.
pub fn either(first: &[u8], second: &[u8], w: &[u8]) -> Option<bool>
    ensures { result ≡ either first.now second.now w.now }
{
    if is(first, w) {
        Some(true)
    } else if is(second, w) {
        Some(false)
    } else {
        None
    }
}

/// The next word, as the same.
pub fn flag<'a>(first: &[u8], second: &[u8], rest: &'a [u8]) -> Option<(bool, &'a [u8])>
    ensures { Takes result (field (either first.now second.now) (words_after rest.now)) }
{
    let (w, rest) = next_word(rest)?;
    let is_first = either(first, second, w)?;
    Some((is_first, rest))
}

/// What was made, where no word is left.
#[inline(always)]
pub fn whole<T: Drop>(made: T, rest: &[u8]) -> Option<T>
    ensures { result ≡ no_more (made, words_after rest.now) }
{
    match next_word(rest) {
        None => Some(made),
        Some(_) => None,
    }
}

/// What was made, where the line is allowed.
#[inline(always)]
pub fn allowed<T: Drop>(made: Option<T>) -> Result<T, LineError>
    ensures { Makes result made }
{
    match made {
        Some(made) => Ok(made),
        None => Err(LineError::NotAllowed),
    }
}

/// A value on the heap.
#[inline(always)]
pub fn boxed<T: Drop>(alloc: Global, value: T) -> Result<Boxed<T>, LineError>
    ensures { Makes result (Some value) }
{
    match Boxed::new(alloc, value) {
        Ok(value) => Ok(value),
        Err(_) => Err(LineError::OutOfMemory),
    }
}
