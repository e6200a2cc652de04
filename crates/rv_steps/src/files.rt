//! Registers of the units, as text.

ghost use Rattle.std.specs.Prelude.{◌≡◌, ◌++◌, ◌<◌, ◌≤◌, length, IfOk, OnOk, codes, string_bytes};
ghost use Rattle.std.specs.Fmt.{decimal};
ghost use Rattle.std.specs.Int.{w128, to_be_bytes};
ghost use Rattle.hex.specs.Hex.{encode_lower};
ghost use Rattle.rv_steps.specs.Files.{hex, before_name, before_value, after_value, register_text, float_text, vector_text, file_changes, frm_line, setting_line, lines_from};
ghost use Rattle.rv_steps.specs.declared.files.Style.TheVariants as styles;

use rv_base::{OutOfMemory, PReg, Reg, RegClass, reg_name};
use rv_full::{FullMachine, Setting};
use std::alloc::Global;

/// How a register is shown: in a line of its own, or in the line of a step.
#[derive(Clone, Copy, Debug, PartialEq, Eq)]
pub enum Style {
    Line,
    Step,
}

/// The registers of the units, as they are at a time.
#[derive(Drop)]
pub struct Files {
    floats: [u64; 32],
    vectors: [u128; 32],
    frm: u8,
    setting: Setting,
}

fn put(out: &mut Vec<u8>, text: &str) -> Result<(), OutOfMemory>
    ensures { OnOk result (out.new.items ≡ out.old.items ++ text.now) }
{
    out.extend_from_slice(text.as_bytes())?;
    Ok(())
}

fn before_name(style: Style) -> &'static str
    ensures { result.now ≡ before_name style }
{
    match style {
        Style::Line => "",
        Style::Step => "  ",
    }
}

fn before_value(style: Style) -> &'static str
    ensures { result.now ≡ before_value style }
{
    match style {
        Style::Line => " 0x",
        Style::Step => "=0x",
    }
}

fn after_value(style: Style) -> &'static str
    ensures { result.now ≡ after_value style }
{
    match style {
        Style::Line => "\n",
        Style::Step => "",
    }
}

// The digits of a value.
fn hex_text(alloc: Global, value: u64) -> Result<String, OutOfMemory>
    ensures { IfOk result (λ text. string_bytes text ≡ hex value) }
{
    Ok(format!(in alloc; "{value:x}")?)
}

// A register's name, and the digits of its value.
fn put_register(
    alloc: Global,
    out: &mut Vec<u8>,
    style: Style,
    class: RegClass,
    number: u8,
    digits: &[u8],
) -> Result<(), OutOfMemory>
    requires { number < 32 }
    ensures { OnOk result (out.new.items ≡ out.old.items ++ register_text style class number digits.now) }
{
    let register = Reg::Real(PReg::new(number, class));
    put(out, before_name(style))?;
    put(out, reg_name(alloc, register)?.as_str())?;
    put(out, before_value(style))?;
    out.extend_from_slice(digits)?;
    put(out, after_value(style))
}

/// Puts a floating-point register's name and its value.
pub(crate) fn put_float(
    alloc: Global,
    out: &mut Vec<u8>,
    style: Style,
    number: u8,
    value: u64,
) -> Result<(), OutOfMemory>
    requires { number < 32 }
    ensures { OnOk result (out.new.items ≡ out.old.items ++ float_text style number value) }
{
    let digits = hex_text(alloc, value)?;
    put_register(
        alloc,
        out,
        style,
        RegClass::Float,
        number,
        digits.as_bytes(),
    )
}

fn vector_digits(value: u128) -> [u8; 32]
    ensures { result ≡ encode_lower (to_be_bytes w128 value) }
{
    let mut digits = [0u8; 32];
    let bytes = value.to_be_bytes();
    let _ = hex::encode_to_slice(bytes.as_slice(), &mut digits[..]);
    digits
}

fn put_vector(
    alloc: Global,
    out: &mut Vec<u8>,
    style: Style,
    number: u8,
    value: u128,
) -> Result<(), OutOfMemory>
    requires { number < 32 }
    ensures { OnOk result (out.new.items ≡ out.old.items ++ vector_text style number value) }
{
    let digits = vector_digits(value);
    put_register(alloc, out, style, RegClass::Vector, number, &digits)
}

// A line for each floating-point register that changed.
fn put_floats(
    alloc: Global,
    out: &mut Vec<u8>,
    before: &[u64],
    after: &[u64],
) -> Result<(), OutOfMemory>
    requires few { length before.now ≤ 32 }
    requires same { length after.now ≡ length before.now }
    ensures { OnOk result (out.new.items ≡ out.old.items ++ file_changes (float_text styles.Line) 0 before.now after.now) }
{
    for n in 0..before.len() {
        let value = after[n];
        if before[n] != value {
            put_float(alloc, out, Style::Line, n as u8, value)?;
        }
    }
    Ok(())
}

/// Puts each vector register that changed.
pub(crate) fn put_vectors(
    alloc: Global,
    out: &mut Vec<u8>,
    style: Style,
    before: &[u128],
    after: &[u128],
) -> Result<(), OutOfMemory>
    requires few { length before.now ≤ 32 }
    requires same { length after.now ≡ length before.now }
    ensures { OnOk result (out.new.items ≡ out.old.items ++ file_changes (vector_text style) 0 before.now after.now) }
{
    for n in 0..before.len() {
        let value = after[n];
        if before[n] != value {
            put_vector(alloc, out, style, n as u8, value)?;
        }
    }
    Ok(())
}

fn frm_line(alloc: Global, old: u8, new: u8) -> Result<String, OutOfMemory>
    ensures { IfOk result (λ text. string_bytes text ≡ frm_line old new) }
{
    if old == new {
        Ok(String::new(alloc))
    } else {
        Ok(format!(in alloc; "frm {new}\n")?)
    }
}

fn setting_text(alloc: Global, avl: u8, vtype: u8) -> Result<String, OutOfMemory>
    ensures { IfOk result (λ text. string_bytes text ≡ codes "setting " ++ decimal avl ++ codes ",0x" ++ hex vtype ++ codes "\n") }
{
    Ok(format!(in alloc; "setting {avl},0x{vtype:x}\n")?)
}

fn setting_line(alloc: Global, old: Setting, new: Setting) -> Result<String, OutOfMemory>
    ensures { IfOk result (λ text. string_bytes text ≡ setting_line old new) }
{
    if old.avl == new.avl && old.vtype == new.vtype {
        Ok(String::new(alloc))
    } else {
        setting_text(alloc, new.avl, new.vtype)
    }
}

fn setting_of(machine: &FullMachine) -> Setting
    ensures { result ≡ machine.now.full.units.setting }
{
    let (avl, vtype) = machine.setting();
    Setting { avl, vtype }
}

/// The units' registers as they are.
pub fn files_of(machine: &FullMachine) -> Files
    ensures floats { result.floats ≡ machine.now.full.units.floats }
    ensures vectors { result.vectors ≡ machine.now.full.units.vectors }
    ensures frm { result.frm ≡ machine.now.full.units.frm }
    ensures setting { result.setting ≡ machine.now.full.units.setting }
{
    Files {
        floats: *machine.floats(),
        vectors: *machine.vectors(),
        frm: machine.frm(),
        setting: setting_of(machine),
    }
}

/// A line for each of them that has another value.
pub fn unit_lines(
    alloc: Global,
    before: &Files,
    machine: &FullMachine,
) -> Result<Vec<u8>, OutOfMemory>
    ensures { IfOk result (λ lines. lines.items ≡ lines_from before.now.floats before.now.vectors before.now.frm before.now.setting machine.now.full.units) }
{
    let mut out = Vec::new(alloc);
    put_floats(alloc, &mut out, &before.floats, machine.floats())?;
    put_vectors(
        alloc,
        &mut out,
        Style::Line,
        &before.vectors,
        machine.vectors(),
    )?;
    put(
        &mut out,
        frm_line(alloc, before.frm, machine.frm())?.as_str(),
    )?;
    put(
        &mut out,
        setting_line(alloc, before.setting, setting_of(machine))?.as_str(),
    )?;
    Ok(out)
}
