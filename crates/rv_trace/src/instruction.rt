//! The text of an instruction, and of a step.

ghost use Rattle.std.specs.Prelude.{◌≡◌, ◌++◌, ◌<◌, OnOk, string_bytes};
ghost use Rattle.rv_machine.specs.Layout.{HasFileRegisters};
ghost use Rattle.rv_trace.specs.Instruction.{access, accesses, set, two_sets, based, upper, operands_text, instruction_text, written_text, step_line};

use crate::operands::{Operands, operands_of};
use rv_base::{OutOfMemory, int_reg_name};
use rv_disasm::{
    Field, File, layout_of, mnemonic, put, put_decimal, put_field, put_fields, put_place,
    put_signed,
};
use rv_machine::Decoded;
use std::alloc::Global;

fn put_access(out: &mut String, bit: u64, name: &str) -> Result<(), OutOfMemory>
    ensures { OnOk result (string_bytes out.new ≡ string_bytes out.old ++ access bit name.now) }
{
    if bit == 1 { put(out, name) } else { Ok(()) }
}

fn put_accesses(out: &mut String, n: u64) -> Result<(), OutOfMemory>
    ensures { OnOk result (string_bytes out.new ≡ string_bytes out.old ++ accesses n) }
{
    put_access(out, n / 8 % 2, "i")?;
    put_access(out, n / 4 % 2, "o")?;
    put_access(out, n / 2 % 2, "r")?;
    put_access(out, n % 2, "w")
}

fn put_set(out: &mut String, n: u64) -> Result<(), OutOfMemory>
    ensures { OnOk result (string_bytes out.new ≡ string_bytes out.old ++ set n) }
{
    if n == 0 {
        put(out, "0")
    } else {
        put_accesses(out, n)
    }
}

fn put_two_sets(out: &mut String, a: u64, b: u64) -> Result<(), OutOfMemory>
    ensures { OnOk result (string_bytes out.new ≡ string_bytes out.old ++ two_sets a b) }
{
    put(out, " ")?;
    put_set(out, a)?;
    put(out, ",")?;
    put_set(out, b)
}

fn put_sets(out: &mut String, d: &Decoded) -> Result<(), OutOfMemory>
    ensures { OnOk result (string_bytes out.new ≡ string_bytes out.old ++ operands_text Operands.Sets d.now) }
{
    let sets = d.imm.cast_unsigned() % (1 << 8);
    put_two_sets(out, sets / 16, sets % 16)
}

// The register of a field, and an immediate with rs1 in parentheses.
fn put_based(out: &mut String, field: Field, d: &Decoded) -> Result<(), OutOfMemory>
    requires { HasFileRegisters d.now }
    ensures { OnOk result (string_bytes out.new ≡ string_bytes out.old ++ based field d.now) }
{
    put(out, " ")?;
    put_field(out, field, d)?;
    put(out, ",")?;
    put_field(out, Field::Imm, d)?;
    put(out, "(")?;
    put_field(out, Field::Rs1(File::X), d)?;
    put(out, ")")
}

fn put_upper(out: &mut String, d: &Decoded) -> Result<(), OutOfMemory>
    requires { HasFileRegisters d.now }
    ensures { OnOk result (string_bytes out.new ≡ string_bytes out.old ++ upper d.now) }
{
    put(out, " ")?;
    put_field(out, Field::Rd(File::X), d)?;
    put(out, ",")?;
    put_decimal(out, d.imm.cast_unsigned() % (1 << 20))
}

fn put_operands(out: &mut String, operands: Operands, d: &Decoded) -> Result<(), OutOfMemory>
    requires { HasFileRegisters d.now }
    ensures { OnOk result (string_bytes out.new ≡ string_bytes out.old ++ operands_text operands d.now) }
{
    match operands {
        Operands::Fields => put_fields(out, layout_of(d.op).fields(), d),
        Operands::Upper => put_upper(out, d),
        Operands::Based(field) => put_based(out, field, d),
        Operands::Sets => put_sets(out, d),
    }
}

/// The mnemonic of an instruction with its operands, as an assembler writes them; distances in bytes from the
/// instruction.
pub fn put_instruction(out: &mut String, d: &Decoded) -> Result<(), OutOfMemory>
    requires { HasFileRegisters d.now }
    ensures { OnOk result (string_bytes out.new ≡ string_bytes out.old ++ instruction_text d.now) }
{
    put(out, mnemonic(d.op))?;
    put_operands(out, operands_of(d.op), d)
}

// What the instruction wrote to its register, if it has one.
fn put_written(out: &mut String, rd: u8, value: u64) -> Result<(), OutOfMemory>
    requires { rd < 32 }
    ensures { OnOk result (string_bytes out.new ≡ string_bytes out.old ++ written_text rd value) }
{
    if rd == 0 {
        return Ok(());
    }
    put(out, "  ")?;
    put(out, int_reg_name(u64::from(rd)))?;
    put(out, "=")?;
    put_signed(out, value.cast_signed())
}

fn put_line(
    alloc: Global,
    line: &mut String,
    offset: u64,
    word: u32,
    d: &Decoded,
    value: u64,
) -> Result<(), OutOfMemory>
    requires { HasFileRegisters d.now }
    ensures { OnOk result (string_bytes line.new ≡ string_bytes line.old ++ step_line offset word d.now value) }
{
    put_place(alloc, line, offset, d.len, word)?;
    put_instruction(line, d)?;
    put_written(line, d.rd, value)?;
    put(line, "\n")
}

/// The line of a step: its offset, its instruction in hexadecimal digits (of two bytes or four, which the word begins
/// with) and as text, and the value that the instruction's register has after it.
pub fn put_step(
    alloc: Global,
    out: &mut Vec<u8>,
    offset: u64,
    word: u32,
    d: Decoded,
    value: u64,
) -> Result<(), OutOfMemory>
    requires { HasFileRegisters d }
    ensures { OnOk result (out.new.items ≡ out.old.items ++ step_line offset word d value) }
{
    let mut line = String::new(alloc);
    put_line(alloc, &mut line, offset, word, &d, value)?;
    out.extend_from_slice(line.as_bytes())?;
    Ok(())
}
