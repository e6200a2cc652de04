//! How operands are written.

ghost use Rattle.std.specs.Prelude.{◌≡◌, ◌++◌, OnOk, string_bytes};
ghost use Rattle.std.specs.Fmt.{signed_decimal};
ghost use Rattle.rv_base.specs.RegNames.{name_of};
ghost use Rattle.rv_inst.specs.Rules.{is_zero};
ghost use Rattle.rv_text.specs.Operands.{two, three, compare_text, value_text};

use rv_base::{OutOfMemory, Reg, RegClass, ValueRegs};
use rv_inst::same_register;
use rv_ops::IntegerCompare;
use std::fmt::Write;

/// Returns whether a register is x0.
pub(crate) fn is_zero(reg: Reg) -> bool
    ensures { result ≡ is_zero reg }
{
    match reg {
        Reg::Real(real) => match real.class {
            RegClass::Int => real.number == 0,
            RegClass::Float | RegClass::Vector => false,
        },
        Reg::Virtual { .. } => false,
    }
}

/// A text as it is.
pub(crate) fn put(out: &mut String, text: &str) -> Result<(), OutOfMemory>
    ensures { OnOk result (string_bytes out.new ≡ string_bytes out.old ++ text.now) }
{
    out.push_str(text)?;
    Ok(())
}

/// A name, and two registers.
pub(crate) fn put_two(out: &mut String, name: &str, a: Reg, b: Reg) -> Result<(), OutOfMemory>
    ensures { OnOk result (string_bytes out.new ≡ string_bytes out.old ++ two name.now (name_of a) (name_of b)) }
{
    write!(out, "{name} {a},{b}")?;
    Ok(())
}

/// A name, and three registers.
pub(crate) fn put_three(
    out: &mut String,
    name: &str,
    a: Reg,
    b: Reg,
    c: Reg,
) -> Result<(), OutOfMemory>
    ensures { OnOk result (string_bytes out.new ≡ string_bytes out.old ++ three name.now (name_of a) (name_of b) (name_of c)) }
{
    write!(out, "{name} {a},{b},{c}")?;
    Ok(())
}

/// A name, a register and a number.
pub(crate) fn put_number(out: &mut String, name: &str, a: Reg, n: i64) -> Result<(), OutOfMemory>
    ensures { OnOk result (string_bytes out.new ≡ string_bytes out.old ++ two name.now (name_of a) (signed_decimal n)) }
{
    write!(out, "{name} {a},{n}")?;
    Ok(())
}

/// A name, two registers and a number.
pub(crate) fn put_immediate(
    out: &mut String,
    name: &str,
    a: Reg,
    b: Reg,
    n: i64,
) -> Result<(), OutOfMemory>
    ensures { OnOk result (string_bytes out.new ≡ string_bytes out.old ++ three name.now (name_of a) (name_of b) (signed_decimal n)) }
{
    write!(out, "{name} {a},{b},{n}")?;
    Ok(())
}

/// A comparison.
pub(crate) fn put_compare(out: &mut String, compare: &IntegerCompare) -> Result<(), OutOfMemory>
    ensures { OnOk result (string_bytes out.new ≡ string_bytes out.old ++ compare_text compare.now) }
{
    let rs1 = compare.rs1;
    let rs2 = compare.rs2;
    let kind = compare.kind;
    write!(out, "({rs1} {kind} {rs2})")?;
    Ok(())
}

/// The registers of a value.
pub(crate) fn put_value(out: &mut String, value: ValueRegs<Reg>) -> Result<(), OutOfMemory>
    ensures { OnOk result (string_bytes out.new ≡ string_bytes out.old ++ value_text value) }
{
    match value {
        ValueRegs::One(r) => write!(out, "{r}")?,
        ValueRegs::Two(r, s) => {
            if same_register(r, s) {
                write!(out, "[{r}{s}]")?
            } else {
                write!(out, "[{r},{s}]")?
            }
        }
    }
    Ok(())
}
