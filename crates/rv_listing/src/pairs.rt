//! Pairs of registers, and lists of them.

ghost use Rattle.std.specs.Prelude.{◌≡◌, [], List as AList};
ghost use Rattle.rv_listing.specs.Fields.{Makes, Pushes, TakesFirst, field};
ghost use Rattle.rv_listing.specs.Tokens.{parts_after, parts_of, words_after};
ghost use Rattle.rv_listing.specs.Pairs.{arg_pair, call_arg_pair, each_after, listed, ret_pair};

use crate::fields::{LineError, Token};
use crate::form_fields::FormField;
use crate::registers::register;
use crate::tokens::{first_part, is, next_part, next_word, two_parts};
use rv_base::{ArgPair, CallArgPair, List, RetPair, Writable};
use std::alloc::Global;

impl Token for ArgPair {
    ghost reads = { arg_pair };

    #[tactic(auto, unfolding(crate::specs::Pairs::arg_pair))]
    fn read(w: &[u8]) -> Option<ArgPair> {
        let (vreg, preg) = two_parts(b':', w)?;
        let reg = register(vreg)?;
        let preg = register(preg)?;
        Some(ArgPair {
            vreg: Writable { reg },
            preg,
        })
    }
}

impl Token for RetPair {
    ghost reads = { ret_pair };

    #[tactic(auto, unfolding(crate::specs::Pairs::ret_pair))]
    fn read(w: &[u8]) -> Option<RetPair> {
        let (vreg, preg) = two_parts(b':', w)?;
        let vreg = register(vreg)?;
        let preg = register(preg)?;
        Some(RetPair { vreg, preg })
    }
}

impl Token for CallArgPair {
    ghost reads = { call_arg_pair };

    #[tactic(auto, unfolding(crate::specs::Pairs::call_arg_pair))]
    fn read(w: &[u8]) -> Option<CallArgPair> {
        let (vreg, preg) = two_parts(b':', w)?;
        let vreg = register(vreg)?;
        let preg = register(preg)?;
        Some(CallArgPair { vreg, preg })
    }
}

// One more element of a list.
fn put<T: Token + Drop>(made: &mut List<T>, w: &[u8]) -> Result<(), LineError>
    ensures { Pushes made.old made.new (T.reads w.now) result }
{
    let Some(element) = T::read(w) else {
        return Err(LineError::NotAllowed);
    };
    match made.push(element) {
        Ok(()) => Ok(()),
        Err(_) => Err(LineError::OutOfMemory),
    }
}

/// Tokens with a separator before each, after those so far.
pub fn others<T: Token + Drop>(
    separator: u8,
    sofar: List<T>,
    rest: &[u8],
) -> Result<List<T>, LineError>
    ensures { Makes result (each_after T.reads sofar (parts_after separator rest.now)) }
{
    let mut made = sofar;
    let mut rest = rest;
    while let Some((part, after)) = next_part(separator, rest) {
        put(&mut made, part)?;
        rest = after;
    }
    Ok(made)
}

/// Tokens a separator apart.
pub fn separated<T: Token + Drop>(
    alloc: Global,
    separator: u8,
    w: &[u8],
) -> Result<List<T>, LineError>
    ensures { Makes result (each_after T.reads [] (parts_of separator w.now)) }
{
    let mut made = List::new(alloc);
    let (part, rest) = first_part(separator, w);
    put(&mut made, part)?;
    others(separator, made, rest)
}

/// Tokens a comma apart, or `-` for none.
pub fn listed<T: Token + Drop>(alloc: Global, w: &[u8]) -> Result<List<T>, LineError>
    ensures { Makes result (listed T.reads w.now) }
{
    if is(b"-", w) {
        return Ok(List::new(alloc));
    }
    separated(alloc, b',', w)
}

impl<T: Token + Drop> FormField for List<T> {
    ghost Value = { AList T };

    ghost reads = { listed T.reads };

    ghost value = { λ made. made };

    fn of_word(alloc: Global, w: &[u8]) -> Result<List<T>, LineError> {
        listed(alloc, w)
    }
}

/// The next word, as a list of tokens.
pub fn listed_field<T: Token + Drop>(
    alloc: Global,
    rest: &[u8],
) -> Result<(List<T>, &[u8]), LineError>
    ensures { TakesFirst result (field (listed T.reads) (words_after rest.now)) }
{
    let Some((w, rest)) = next_word(rest) else {
        return Err(LineError::NotAllowed);
    };
    let made = listed(alloc, w)?;
    Ok((made, rest))
}
