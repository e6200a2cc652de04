//! Texts to words.

ghost use Rattle.std.specs.Prelude.{◌≡◌, ℕ, ◌++◌, ◌∷◌, ◌<◌, ◌≤◌, ◌^◌, ◌==◌, List, codes, length, take, drop, ℤ, pos, unsigned_abs, MatchOption, IfSome, Some};
ghost use Rattle.std.specs.Int.{w16, w32, to_be_bytes};
ghost use Rattle.hex.specs.Hex.{encode_lower};
ghost use Rattle.std.specs.List.{position, position_or_len};
ghost use Rattle.std.specs.Fmt.{signed_decimal};
ghost use Rattle.rv_base.specs.declared.regs.RegClass.TheVariants.{Int, Float as FloatClass, Vector};
ghost use Rattle.rv_base.specs.RegNames.{real_name};
ghost use Rattle.rv_machine.specs.declared.decoding.Decoded.{Decoded};
ghost use Rattle.rv_disasm.specs.declared.forms.Form.{Form};
ghost use Rattle.rv_disasm.specs.Text.{number_text, fields_text, form_fields, text_of, data_text, space, word_at, word_text};
ghost use Rattle.rv_disasm.specs.Placing.{form_fixed};
ghost use Rattle.rv_disasm.specs.Reading.{Fine, Begins, filled, plain};
ghost use Rattle.rv_disasm.specs.Text.{IsNamed};

use crate::forms::Form;
use crate::layouts::File;
use crate::naming::form_named;
use crate::stripping::is_text;
use crate::word::{Word, word_at};
use rv_base::{IsaFlags, float_reg_name, int_reg_name};
use std::str;

// Where the byte first stands.
fn find(byte: u8, text: &[u8]) -> Option<usize>
    ensures { result ≡ position (λ c. c == byte) text.now }
{
    text.iter().position(|c| *c == byte)
}

// Where the byte first stands, or the text's length.
fn index_or_len(byte: u8, text: &[u8]) -> usize
    ensures place { result ≡ position_or_len (λ c. c == byte) text.now }
    ensures within { result ≤ length text.now }
{
    match find(byte, text) {
        Some(at) => at,
        None => text.len(),
    }
}

/// What stands before the byte, and the rest from it on.
pub fn cut(byte: u8, text: &[u8]) -> (&[u8], &[u8])
    ensures before { result.0.now ≡ take (position_or_len (λ c. c == byte) text.now) text.now }
    ensures from { result.1.now ≡ drop (position_or_len (λ c. c == byte) text.now) text.now }
{
    text.split_at(index_or_len(byte, text))
}

fn int_register(token: &[u8]) -> Option<i64>
    ensures { (n : ℕ) → n < 32 → token.now ≡ real_name Int n → result ≡ Some (pos n) }
{
    for number in 0..32u64 {
        if int_reg_name(number).as_bytes() == token {
            return Some(number as i64);
        }
    }
    None
}

fn float_register(token: &[u8]) -> Option<i64>
    ensures { (n : ℕ) → n < 32 → token.now ≡ real_name FloatClass n → result ≡ Some (pos n) }
{
    for number in 0..32u64 {
        if float_reg_name(number).as_bytes() == token {
            return Some(number as i64);
        }
    }
    None
}

fn signed(token: &[u8]) -> Option<i64>
    ensures { (z : ℤ) → unsigned_abs z < 2 ^ 62 → token.now ≡ signed_decimal z → result ≡ Some z }
{
    match str::from_utf8(token) {
        Ok(text) => match text.parse::<i64>() {
            Ok(number) => Some(number),
            Err(_) => None,
        },
        Err(_) => None,
    }
}

fn vector_register(token: &[u8]) -> Option<i64>
    ensures { (n : ℕ) → n < 32 → token.now ≡ real_name Vector n → result ≡ Some (pos n) }
{
    signed(token.strip_prefix(b"v")?)
}

// The number that a token of this file stands for.
fn read(file: File, token: &[u8]) -> Option<i64>
    ensures { (z : ℤ) → IsNamed file z → unsigned_abs z < 2 ^ 62 → token.now ≡ number_text file z → result ≡ Some z }
{
    match file {
        File::X => int_register(token),
        File::F => float_register(token),
        File::V => vector_register(token),
        File::Number => signed(token),
    }
}

// What is after the first byte.
fn tail(text: &[u8]) -> &[u8]
    ensures { result.now ≡ drop 1 text.now }
{
    match text {
        [] => text,
        [_, rest @ ..] => rest,
    }
}

// The number after the byte that leads, and what is after it.
fn next_number(file: File, text: &[u8]) -> Option<(i64, &[u8])>
    ensures { (lead : ℕ) (z : ℤ) (rest : List ℕ) → IsNamed file z → unsigned_abs z < 2 ^ 62 → Begins 44 rest → text.now ≡ lead ∷ (number_text file z ++ rest) → MatchOption result ⊥ (λ r. (r.0 ≡ z) × (r.1.now ≡ rest)) }
{
    let (token, rest) = cut(b',', tail(text));
    match read(file, token) {
        Some(number) => Some((number, rest)),
        None => None,
    }
}

// The bits of a row with the numbers of its fields.
fn word_of(form: Form, text: &[u8]) -> Option<u64>
    ensures { (d : Decoded) → Fine d → text.now ≡ fields_text space (form_fields form) d → result ≡ Some (filled form (form_fields form) d (form_fixed form)) }
{
    let mut word = form.fixed();
    let mut rest = text;
    let fields = form.layout().fields();
    for field in fields {
        let (number, after) = next_number(field.file(), rest)?;
        word = (word + form.place(*field, number.cast_unsigned())) % 0x1_0000_0000;
        rest = after;
    }
    Some(word)
}

fn word_digits(digits: &[u8]) -> Option<u64>
    ensures { (n : ℕ) → n < 2 ^ 32 → digits.now ≡ encode_lower (to_be_bytes w32 n) → result ≡ Some n }
{
    let mut bytes = [0u8; 4];
    match hex::decode_to_slice(digits, &mut bytes[..]) {
        Ok(()) => Some(u64::from(u32::from_be_bytes(bytes))),
        Err(_) => None,
    }
}

fn half_digits(digits: &[u8]) -> Option<u64>
    ensures { (n : ℕ) → n < 2 ^ 16 → digits.now ≡ encode_lower (to_be_bytes w16 n) → result ≡ Some n }
{
    let mut bytes = [0u8; 2];
    match hex::decode_to_slice(digits, &mut bytes[..]) {
        Ok(()) => Some(u64::from(u16::from_be_bytes(bytes))),
        Err(_) => None,
    }
}

fn data_of(name: &[u8], rest: &[u8]) -> Option<u64>
    ensures word { (n : ℕ) → n < 2 ^ 32 → name.now ≡ codes ".4byte" → rest.now ≡ codes " 0x" ++ encode_lower (to_be_bytes w32 n) → result ≡ Some n }
    ensures half { (n : ℕ) → n < 2 ^ 16 → name.now ≡ codes ".2byte" → rest.now ≡ codes " 0x" ++ encode_lower (to_be_bytes w16 n) → result ≡ Some n }
{
    let digits = tail(tail(tail(rest)));
    if name == b".4byte".as_slice() {
        word_digits(digits)
    } else {
        half_digits(digits)
    }
}

// The one word that may have the text.
fn candidate(text: &[u8]) -> Option<u64>
    ensures instruction { (form : Form) (d : Decoded) → Fine d → text.now ≡ text_of (form, d) → result ≡ Some (filled (plain form) (form_fields (plain form)) d (form_fixed (plain form))) }
    ensures word { (n : ℕ) → n < 2 ^ 32 → text.now ≡ codes ".4byte 0x" ++ encode_lower (to_be_bytes w32 n) → result ≡ Some n }
    ensures half { (n : ℕ) → n < 2 ^ 16 → text.now ≡ codes ".2byte 0x" ++ encode_lower (to_be_bytes w16 n) → result ≡ Some n }
{
    let (name, rest) = cut(b' ', text);
    match form_named(name) {
        Some(form) => word_of(form, rest),
        None => data_of(name, rest),
    }
}

// The word of these bits, where the text is its text.
fn checked(flags: IsaFlags, bits: u32, text: &[u8]) -> Option<Word>
    ensures sound { IfSome result (λ w. (word : ℕ) × (word < 2 ^ 32) × (w ≡ word_at word) × (text.now ≡ word_text flags word)) }
    ensures complete { (word : ℕ) → word < 2 ^ 32 → bits ≡ (word_at word).bits → text.now ≡ word_text flags word → result ≡ Some (word_at word) }
{
    if is_text(flags, bits, text) {
        Some(word_at(bits))
    } else {
        None
    }
}

/// The word of a text, where it is the text of one under these flags. It takes no memory.
pub fn reasm(flags: IsaFlags, text: &[u8]) -> Option<Word>
    ensures sound { IfSome result (λ w. (word : ℕ) × (word < 2 ^ 32) × (w ≡ word_at word) × (text.now ≡ word_text flags word)) }
    ensures complete { (word : ℕ) → word < 2 ^ 32 → text.now ≡ word_text flags word → result ≡ Some (word_at word) }
{
    match candidate(text) {
        Some(bits) => {
            if bits < 0x1_0000_0000 {
                checked(flags, bits as u32, text)
            } else {
                None
            }
        }
        None => None,
    }
}
