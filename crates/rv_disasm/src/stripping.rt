//! A word's text taken from the front of a text, without memory.

ghost use Rattle.std.specs.Prelude.{◌≡◌, ◌++◌, ◌∷◌, pos, unsigned_abs};
ghost use Rattle.std.specs.Fmt.{decimal, signed_decimal};
ghost use Rattle.std.specs.List.{flat_map};
ghost use Rattle.std.specs.Bool.{Decides};
ghost use Rattle.hex.specs.Hex.{encode_lower};
ghost use Rattle.std.specs.Int.{w16, w32, to_be_bytes};
ghost use Rattle.rv_machine.specs.Layout.{HasFileRegisters, bits};
ghost use Rattle.rv_disasm.specs.declared.layouts.File.TheVariants as File;
ghost use Rattle.rv_disasm.specs.Text.{number_text, field_text, further_text, fields_text, space, text_of, digits_text, data_text, word_text};
ghost use Rattle.rv_disasm.specs.Strip.{Strips};
ghost use Rattle.rv_disasm.specs.Text.{IsNamed};

use crate::disassembly::instruction;
use crate::forms::Form;
use crate::layouts::{Field, File};
use itoa::Buffer;
use rv_base::{IsaFlags, float_reg_name, int_reg_name};
use rv_machine::Decoded;

/// What follows a piece, where the text begins with it.
pub fn strip<'a>(text: &'a [u8], piece: &[u8]) -> Option<&'a [u8]>
    ensures { Strips piece.now text.now result }
{
    text.strip_prefix(piece)
}

/// What follows a number in decimal.
pub fn strip_decimal(text: &[u8], n: u64) -> Option<&[u8]>
    ensures { Strips (decimal n) text.now result }
{
    let mut buffer = Buffer::new();
    strip(text, buffer.format(n).as_bytes())
}

fn strip_signed(text: &[u8], n: i64) -> Option<&[u8]>
    ensures { Strips (signed_decimal n) text.now result }
{
    let mut buffer = Buffer::new();
    strip(text, buffer.format(n).as_bytes())
}

fn strip_vector(text: &[u8], n: u64) -> Option<&[u8]>
    ensures { Strips (number_text File.V (pos n)) text.now result }
{
    strip_decimal(strip(text, b"v")?, n)
}

fn strip_number(text: &[u8], file: File, n: i64) -> Option<&[u8]>
    requires { IsNamed file n }
    ensures { Strips (number_text file n) text.now result }
{
    match file {
        File::X => strip(text, int_reg_name(n.unsigned_abs()).as_bytes()),
        File::F => strip(text, float_reg_name(n.unsigned_abs()).as_bytes()),
        File::V => strip_vector(text, n.unsigned_abs()),
        File::Number => strip_signed(text, n),
    }
}

fn strip_field<'a>(text: &'a [u8], field: Field, d: &Decoded) -> Option<&'a [u8]>
    requires { HasFileRegisters d.now }
    ensures { Strips (field_text d.now field) text.now result }
{
    strip_number(text, field.file(), field.number(d))
}

fn strip_further_field<'a>(text: &'a [u8], field: Field, d: &Decoded) -> Option<&'a [u8]>
    requires { HasFileRegisters d.now }
    ensures { Strips (further_text d.now field) text.now result }
{
    strip_field(strip(text, b",")?, field, d)
}

#[tactic(auto, using(crate::proofs::Fronts::strip_parts))]
fn strip_further<'a>(text: &'a [u8], fields: &[Field], d: &Decoded) -> Option<&'a [u8]>
    requires { HasFileRegisters d.now }
    ensures { Strips (flat_map (further_text d.now) fields.now) text.now result }
{
    let mut rest = text;
    for field in fields {
        rest = strip_further_field(rest, *field, d)?;
    }
    Some(rest)
}

#[tactic(auto, using(crate::proofs::Fronts::strip_first))]
fn strip_fields<'a>(text: &'a [u8], fields: &[Field], d: &Decoded) -> Option<&'a [u8]>
    requires { HasFileRegisters d.now }
    ensures { Strips (fields_text space fields.now d.now) text.now result }
{
    match fields {
        [] => Some(text),
        [first, further @ ..] => {
            let rest = strip_field(strip(text, b" ")?, *first, d)?;
            strip_further(rest, further, d)
        }
    }
}

#[tactic(auto, using(crate::proofs::Fronts::strip_parts))]
fn strip_instruction<'a>(text: &'a [u8], form: Form, d: &Decoded) -> Option<&'a [u8]>
    requires { HasFileRegisters d.now }
    ensures { Strips (text_of (form, d.now)) text.now result }
{
    let rest = strip(text, form.name().as_bytes())?;
    strip_fields(rest, form.layout().fields(), d)
}

fn strip_word(text: &[u8], word: u32) -> Option<&[u8]>
    ensures { Strips (encode_lower (to_be_bytes w32 word)) text.now result }
{
    let mut digits = [0u8; 8];
    let bytes = word.to_be_bytes();
    let _ = hex::encode_to_slice(bytes.as_slice(), &mut digits[..]);
    strip(text, &digits)
}

fn strip_half(text: &[u8], half: u16) -> Option<&[u8]>
    ensures { Strips (encode_lower (to_be_bytes w16 half)) text.now result }
{
    let mut digits = [0u8; 4];
    let bytes = half.to_be_bytes();
    let _ = hex::encode_to_slice(bytes.as_slice(), &mut digits[..]);
    strip(text, &digits)
}

/// What follows the digits of an instruction of so many bytes, with which the word begins.
pub fn strip_digits(text: &[u8], len: u8, word: u32) -> Option<&[u8]>
    ensures { Strips (digits_text len word) text.now result }
{
    if len == 2 {
        strip_half(text, (word & 0xffff) as u16)
    } else {
        strip_word(text, word)
    }
}

fn low_half(word: u32) -> u16
    ensures { result ≡ bits word 15 0 }
{
    (word & 0xffff) as u16
}

#[tactic(auto, using(crate::proofs::Fronts::strip_parts))]
fn strip_data(text: &[u8], word: u32) -> Option<&[u8]>
    ensures { Strips (data_text word) text.now result }
{
    if word % 4 == 3 {
        strip_word(strip(text, b".4byte 0x")?, word)
    } else {
        strip_half(strip(text, b".2byte 0x")?, low_half(word))
    }
}

/// What follows the word's text under these flags.
pub fn strip_text(flags: IsaFlags, word: u32, text: &[u8]) -> Option<&[u8]>
    ensures { Strips (word_text flags word) text.now result }
{
    match instruction(flags, word) {
        Some((form, d)) => strip_instruction(text, form, &d),
        None => strip_data(text, word),
    }
}

/// Returns whether this is the word's text under these flags.
pub(crate) fn is_text(flags: IsaFlags, word: u32, text: &[u8]) -> bool
    ensures { Decides result (text.now ≡ word_text flags word) }
{
    match strip_text(flags, word, text) {
        Some(rest) => rest.is_empty(),
        None => false,
    }
}
