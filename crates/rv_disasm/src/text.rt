//! The text of an instruction, written and taken from the front of a text.

ghost use Rattle.std.specs.Prelude.{◌≡◌, ◌++◌, ◌<◌, ◌%◌, ◌^◌, pos, OnOk, unsigned_abs, string_bytes};
ghost use Rattle.std.specs.List.{flat_map};
ghost use Rattle.std.specs.Fmt.{decimal, signed_decimal};
ghost use Rattle.std.specs.Int.{w16, w32, to_be_bytes};
ghost use Rattle.hex.specs.Hex.{encode_lower};
ghost use Rattle.rv_machine.specs.Layout.{HasFileRegisters};
ghost use Rattle.rv_disasm.specs.declared.layouts.File.TheVariants as File;
ghost use Rattle.rv_disasm.specs.Text.{number, functs, file_of, number_text, field_text, further_text, fields_text, space, text_of, digits_text, place_text, data_text};
ghost use Rattle.rv_disasm.specs.Text.{IsNamed};

use crate::forms::Form;
use crate::layouts::{Field, File};
use itoa::Buffer;
use rv_base::{OutOfMemory, float_reg_name, int_reg_name};
use rv_machine::{Decoded, MOp};
use std::alloc::Global;

fn functs(d: &Decoded) -> (u8, u8)
    ensures { (result.0, result.1) ≡ functs d.now.op }
{
    match d.op {
        MOp::Vec { funct6, funct3 } => (funct6, funct3),
        MOp::Base(_)
        | MOp::Load(_)
        | MOp::Store(_)
        | MOp::Alu(_)
        | MOp::Carry(_)
        | MOp::Atomic(_, _)
        | MOp::Csr(_)
        | MOp::FloatLoad(_)
        | MOp::FloatStore(_)
        | MOp::Float(_, _)
        | MOp::VecMem(_) => (0, 0),
    }
}

impl Field {
    /// The number in the field.
    pub(crate) fn number(self, d: &Decoded) -> i64
        ensures { result ≡ number self d.now }
    {
        match self {
            Field::Rd(_) => i64::from(d.rd),
            Field::Rs1(_) => i64::from(d.rs1),
            Field::Rs2(_) => i64::from(d.rs2),
            Field::Rs3(_) => i64::from(d.rs3),
            Field::Imm | Field::Ordering => d.imm,
            Field::Rounding => i64::from(d.rm),
            Field::Mask => i64::from(d.vm),
            Field::Pred => (d.imm.unsigned_abs() / 16) as i64,
            Field::Succ => (d.imm.unsigned_abs() % 16) as i64,
            Field::Funct6 => i64::from(functs(d).0),
            Field::Funct3 => i64::from(functs(d).1),
        }
    }

    /// How its number is written.
    pub(crate) fn file(self) -> File
        ensures { result ≡ file_of self }
    {
        match self {
            Field::Rd(file) | Field::Rs1(file) | Field::Rs2(file) | Field::Rs3(file) => file,
            Field::Imm
            | Field::Rounding
            | Field::Ordering
            | Field::Mask
            | Field::Pred
            | Field::Succ
            | Field::Funct6
            | Field::Funct3 => File::Number,
        }
    }
}

// ---- written

/// Appends a text.
pub fn put(out: &mut String, text: &str) -> Result<(), OutOfMemory>
    ensures { OnOk result (string_bytes out.new ≡ string_bytes out.old ++ text.now) }
{
    out.push_str(text)?;
    Ok(())
}

/// Appends a number in decimal.
pub fn put_decimal(out: &mut String, n: u64) -> Result<(), OutOfMemory>
    ensures { OnOk result (string_bytes out.new ≡ string_bytes out.old ++ decimal n) }
{
    let mut buffer = Buffer::new();
    put(out, buffer.format(n))
}

/// Appends a number in decimal, with a minus before one below 0.
pub fn put_signed(out: &mut String, n: i64) -> Result<(), OutOfMemory>
    ensures { OnOk result (string_bytes out.new ≡ string_bytes out.old ++ signed_decimal n) }
{
    let mut buffer = Buffer::new();
    put(out, buffer.format(n))
}

fn put_vector(out: &mut String, n: u64) -> Result<(), OutOfMemory>
    ensures { OnOk result (string_bytes out.new ≡ string_bytes out.old ++ number_text File.V (pos n)) }
{
    put(out, "v")?;
    put_decimal(out, n)
}

fn put_number(out: &mut String, file: File, n: i64) -> Result<(), OutOfMemory>
    requires { IsNamed file n }
    ensures { OnOk result (string_bytes out.new ≡ string_bytes out.old ++ number_text file n) }
{
    match file {
        File::X => put(out, int_reg_name(n.unsigned_abs())),
        File::F => put(out, float_reg_name(n.unsigned_abs())),
        File::V => put_vector(out, n.unsigned_abs()),
        File::Number => put_signed(out, n),
    }
}

/// Appends a field of an operation: a register by its name, any other number in decimal.
pub fn put_field(out: &mut String, field: Field, d: &Decoded) -> Result<(), OutOfMemory>
    requires { HasFileRegisters d.now }
    ensures { OnOk result (string_bytes out.new ≡ string_bytes out.old ++ field_text d.now field) }
{
    put_number(out, field.file(), field.number(d))
}

fn put_further_field(out: &mut String, field: Field, d: &Decoded) -> Result<(), OutOfMemory>
    requires { HasFileRegisters d.now }
    ensures { OnOk result (string_bytes out.new ≡ string_bytes out.old ++ further_text d.now field) }
{
    put(out, ",")?;
    put_field(out, field, d)
}

fn put_further(out: &mut String, fields: &[Field], d: &Decoded) -> Result<(), OutOfMemory>
    requires { HasFileRegisters d.now }
    ensures { OnOk result (string_bytes out.new ≡ string_bytes out.old ++ flat_map (further_text d.now) fields.now) }
{
    for field in fields {
        put_further_field(out, *field, d)?;
    }
    Ok(())
}

/// Appends these fields of an operation: a space, and the fields with a comma between each two; nothing where there is none.
pub fn put_fields(out: &mut String, fields: &[Field], d: &Decoded) -> Result<(), OutOfMemory>
    requires { HasFileRegisters d.now }
    ensures { OnOk result (string_bytes out.new ≡ string_bytes out.old ++ fields_text space fields.now d.now) }
{
    match fields {
        [] => Ok(()),
        [first, further @ ..] => {
            put(out, " ")?;
            put_field(out, *first, d)?;
            put_further(out, further, d)
        }
    }
}

/// Appends an instruction's text.
pub(crate) fn put_instruction(out: &mut String, form: Form, d: &Decoded) -> Result<(), OutOfMemory>
    requires { HasFileRegisters d.now }
    ensures { OnOk result (string_bytes out.new ≡ string_bytes out.old ++ text_of (form, d.now)) }
{
    put(out, form.name())?;
    put_fields(out, form.layout().fields(), d)
}

fn put_hex(alloc: Global, out: &mut String, bytes: &[u8]) -> Result<(), OutOfMemory>
    ensures { OnOk result (string_bytes out.new ≡ string_bytes out.old ++ encode_lower bytes.now) }
{
    let digits = hex::encode(alloc, bytes)?;
    put(out, &digits)
}

fn put_half(alloc: Global, out: &mut String, word: u32) -> Result<(), OutOfMemory>
    ensures { OnOk result (string_bytes out.new ≡ string_bytes out.old ++ encode_lower (to_be_bytes w16 (word % 2 ^ 16))) }
{
    let half = (word & 0xffff) as u16;
    put_hex(alloc, out, half.to_be_bytes().as_slice())
}

fn put_digits(alloc: Global, out: &mut String, len: u8, word: u32) -> Result<(), OutOfMemory>
    ensures { OnOk result (string_bytes out.new ≡ string_bytes out.old ++ digits_text len word) }
{
    if len == 2 {
        put_half(alloc, out, word)
    } else {
        put_hex(alloc, out, word.to_be_bytes().as_slice())
    }
}

/// Appends where an instruction of so many bytes stands, and its digits, with which the word begins, the highest first.
pub fn put_place(
    alloc: Global,
    out: &mut String,
    place: u64,
    len: u8,
    word: u32,
) -> Result<(), OutOfMemory>
    ensures { OnOk result (string_bytes out.new ≡ string_bytes out.old ++ place_text place len word) }
{
    put_decimal(out, place)?;
    put(out, ": ")?;
    put_digits(alloc, out, len, word)?;
    put(out, " ")
}

/// Appends a word as data.
pub(crate) fn put_data(alloc: Global, out: &mut String, word: u32) -> Result<(), OutOfMemory>
    ensures { OnOk result (string_bytes out.new ≡ string_bytes out.old ++ data_text word) }
{
    if word % 4 == 3 {
        put(out, ".4byte 0x")?;
        put_hex(alloc, out, word.to_be_bytes().as_slice())
    } else {
        put(out, ".2byte 0x")?;
        put_hex(
            alloc,
            out,
            ((word & 0xffff) as u16).to_be_bytes().as_slice(),
        )
    }
}
