//! What `--answer` and `--setting` say: what a unit answers, and the vector setting.

ghost use Rattle.std.specs.Prelude.{◌≡◌, ℕ, ◌+◌, ◌*◌, ◌^◌, ◌<◌, ◌∷◌, [], nat_lt, true, length, IfSome, MatchOption};
ghost use Rattle.rv_listing.specs.Tokens.{below, digit, parts_of};
ghost use Rattle.rv_load.specs.Answers.{number_below, setting_pair, wide_after, wide, vector_register, registers_after, stored_byte, stored_after, bits_answer, length_answer, vector_answer, stored_answer, answer_of_kind, answer};
ghost use Rattle.rv_load.specs.Words.{or_bad, setting_of, answers_from, with_vector_register, Reads, Leaves};

use crate::settings::{BadWord, SettingsError, is};
use rv_base::{List, OutOfMemory};
use rv_full::{Answer, Setting};
use rv_listing::{first_part, natural, next_part, starts, tail, two_parts};
use std::alloc::Global;

fn number_below(limit: u64, w: &[u8]) -> Option<u64>
    ensures { result ≡ number_below limit w.now }
{
    match natural(w) {
        Some(n) if n < limit => Some(n),
        _ => None,
    }
}

// ---- the vector setting

fn setting_pair(w: &[u8]) -> Option<Setting>
    ensures { result ≡ setting_pair w.now }
{
    let (avl, vtype) = two_parts(b',', w)?;
    let avl = number_below(32, avl)? as u8;
    let vtype = number_below(256, vtype)? as u8;
    Some(Setting { avl, vtype })
}

pub(crate) fn setting_of(given: Option<&str>) -> Result<Setting, BadWord>
    ensures { result ≡ setting_of given.entry }
{
    match given {
        None => Ok(Setting { avl: 0, vtype: 0 }),
        Some(w) => match setting_pair(w.as_bytes()) {
            Some(setting) => Ok(setting),
            None => Err(BadWord::Setting),
        },
    }
}

// ---- vector registers

fn hex_digit(c: u8) -> Option<u8>
    ensures value { result ≡ digit 16 c }
    ensures low { IfSome result (λ d. d < 16) }
{
    if 48 <= c && c < 58 {
        Some(c - 48)
    } else if 97 <= c && c < 103 {
        Some(c - 87)
    } else {
        None
    }
}

fn with_digit(n: u128, d: u8) -> Option<u128>
    ensures { result ≡ below (2 ^ 128) (n * 16 + d) }
{
    match n.checked_mul(16) {
        Some(m) => m.checked_add(u128::from(d)),
        None => None,
    }
}

fn wide_after(w: &[u8]) -> Option<u128>
    ensures { result ≡ wide_after 0 w.now }
{
    let mut n = 0;
    for c in w {
        let d = hex_digit(*c)?;
        n = with_digit(n, d)?;
    }
    Some(n)
}

fn wide(w: &[u8]) -> Option<u128>
    ensures { result ≡ wide w.now }
{
    if w.len() > 2 && starts(b'0', w) && starts(b'x', tail(w)) {
        wide_after(tail(tail(w)))
    } else {
        None
    }
}

fn vector_register(w: &[u8]) -> Option<(u8, u128)>
    ensures { result ≡ vector_register w.now }
{
    let (number, bits) = two_parts(b'=', w)?;
    let number = number_below(32, number)? as u8;
    let bits = wide(bits)?;
    Some((number, bits))
}

// One more register, by a word.
fn put_vector_register(
    registers: &mut List<(u8, u128)>,
    w: &[u8],
    word: BadWord,
) -> Result<(), SettingsError>
    ensures { Leaves (with_vector_register word registers.old w.now) registers.new result }
{
    let Some(register) = vector_register(w) else {
        return Err(SettingsError::Bad { word });
    };
    match registers.push(register) {
        Ok(()) => Ok(()),
        Err(OutOfMemory) => Err(SettingsError::OutOfMemory),
    }
}

fn vector_registers(
    alloc: Global,
    w: &[u8],
    word: BadWord,
) -> Result<List<(u8, u128)>, SettingsError>
    ensures { Reads (or_bad word (registers_after [] (parts_of 44 w.now))) result }
{
    let mut registers = List::new(alloc);
    let (first, mut rest) = first_part(b',', w);
    put_vector_register(&mut registers, first, word)?;
    'words: while let Some((next, after)) = next_part(b',', rest) {
        put_vector_register(&mut registers, next, word)?;
        rest = after;
    }
    Ok(registers)
}

// ---- bytes of a store

fn stored_byte(c: u8, d: u8) -> Option<Option<u8>>
    ensures { result ≡ stored_byte c d }
{
    if c == b'-' && d == b'-' {
        return Some(None);
    }
    let high = hex_digit(c)?;
    let low = hex_digit(d)?;
    Some(Some(high * 16 + low))
}

// The next two bytes of a word, and what is after them.
fn next_two(w: &[u8]) -> Option<(u8, u8, &[u8])>
    ensures { MatchOption result (nat_lt (length w.now) 2 ≡ true) (λ p. w.now ≡ p.0 ∷ p.1 ∷ p.2.now) }
{
    match w {
        [c, d, rest @ ..] => Some((*c, *d, rest)),
        _ => None,
    }
}

fn stored_bytes(alloc: Global, w: &[u8], word: BadWord) -> Result<List<Option<u8>>, SettingsError>
    ensures { Reads (or_bad word (stored_after [] w.now)) result }
{
    let mut bytes = List::new(alloc);
    let mut rest = w;
    'pairs: while let Some((c, d, after)) = next_two(rest) {
        let Some(byte) = stored_byte(c, d) else {
            return Err(SettingsError::Bad { word });
        };
        match bytes.push(byte) {
            Ok(()) => {}
            Err(OutOfMemory) => return Err(SettingsError::OutOfMemory),
        }
        rest = after;
    }
    if rest.is_empty() {
        Ok(bytes)
    } else {
        Err(SettingsError::Bad { word })
    }
}

// ---- answers

fn bits_answer(w: &[u8]) -> Option<Answer>
    ensures { result ≡ bits_answer w.now }
{
    let bits = natural(w)?;
    Some(Answer::Bits(bits))
}

fn length_answer(w: &[u8]) -> Option<Answer>
    ensures { result ≡ length_answer w.now }
{
    let length = number_below(256, w)?;
    Some(Answer::Length(length as u8))
}

fn or_bad<A: Drop>(word: BadWord, read: Option<A>) -> Result<A, SettingsError>
    ensures { Reads (or_bad word read) result }
{
    match read {
        Some(x) => Ok(x),
        None => Err(SettingsError::Bad { word }),
    }
}

fn vector_answer(alloc: Global, w: &[u8], word: BadWord) -> Result<Answer, SettingsError>
    ensures { Reads (or_bad word (vector_answer w.now)) result }
{
    let registers = vector_registers(alloc, w, word)?;
    Ok(Answer::Vectors(registers))
}

fn stored_answer(alloc: Global, w: &[u8], word: BadWord) -> Result<Answer, SettingsError>
    ensures { Reads (or_bad word (stored_answer w.now)) result }
{
    match stored_bytes(alloc, w, word) {
        Ok(bytes) => Ok(Answer::Stored(bytes)),
        Err(error) => Err(error),
    }
}

fn answer_of_kind(
    alloc: Global,
    kind: &[u8],
    w: &[u8],
    word: BadWord,
) -> Result<Answer, SettingsError>
    ensures { Reads (or_bad word (answer_of_kind kind.now w.now)) result }
{
    if is(b"bits", kind) {
        or_bad(word, bits_answer(w))
    } else if is(b"length", kind) {
        or_bad(word, length_answer(w))
    } else if is(b"vector", kind) {
        vector_answer(alloc, w, word)
    } else if is(b"stored", kind) {
        stored_answer(alloc, w, word)
    } else {
        Err(SettingsError::Bad { word })
    }
}

fn answer(alloc: Global, w: &[u8], word: BadWord) -> Result<Answer, SettingsError>
    ensures { Reads (or_bad word (answer w.now)) result }
{
    if is(b"success", w) {
        return Ok(Answer::Success(true));
    }
    if is(b"failure", w) {
        return Ok(Answer::Success(false));
    }
    match two_parts(b':', w) {
        Some((kind, what)) => answer_of_kind(alloc, kind, what, word),
        None => Err(SettingsError::Bad { word }),
    }
}

pub(crate) fn answers_of(alloc: Global, words: &[&str]) -> Result<List<Answer>, SettingsError>
    ensures { Reads (answers_from 0 [] words.now) result }
{
    let mut answers = List::new(alloc);
    for (index, w) in words.iter().enumerate() {
        let answer = answer(alloc, w.as_bytes(), BadWord::Answer { index })?;
        match answers.push(answer) {
            Ok(()) => {}
            Err(OutOfMemory) => return Err(SettingsError::OutOfMemory),
        }
    }
    Ok(answers)
}
