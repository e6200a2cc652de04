//! The texts of instructions that depend on a symbol outside the code.

ghost use Rattle.std.specs.Prelude.{◌≡◌, ◌++◌, OnOk, string_bytes};
ghost use Rattle.rv_base.specs.RegNames.{name_of};
ghost use Rattle.rv_imms.specs.Bits.{text_with_sign};
ghost use Rattle.rv_inst.specs.Operands.{family_of};
ghost use Rattle.rv_inst.specs.declared.inst.Family.TheVariants.{Symbols};
ghost use Rattle.rv_text.specs.Operands.{two};
ghost use Rattle.rv_text.specs.Texts.{text_of, symbol_text};

use rv_base::{ExternalName, OutOfMemory, Reg};
use rv_inst::Inst;
use std::fmt::Write;

fn put_name(out: &mut String, form: &str, rd: Reg, name: ExternalName) -> Result<(), OutOfMemory>
    ensures { OnOk result (string_bytes out.new ≡ string_bytes out.old ++ two form.now (name_of rd) (symbol_text name)) }
{
    write!(out, "{form} {rd},{name}")?;
    Ok(())
}

// A number with its sign.
fn put_offset(out: &mut String, offset: i64) -> Result<(), OutOfMemory>
    ensures { OnOk result (string_bytes out.new ≡ string_bytes out.old ++ text_with_sign offset) }
{
    if offset < 0 {
        write!(out, "{offset}")?
    } else {
        write!(out, "+{offset}")?
    }
    Ok(())
}

fn put_name_and_offset(
    out: &mut String,
    form: &str,
    rd: Reg,
    name: ExternalName,
    offset: i64,
) -> Result<(), OutOfMemory>
    ensures { OnOk result (string_bytes out.new ≡ string_bytes out.old ++ two form.now (name_of rd) (symbol_text name ++ text_with_sign offset)) }
{
    put_name(out, form, rd, name)?;
    put_offset(out, offset)?;
    Ok(())
}

/// Appends the text of an instruction of this family; of others nothing.
pub(crate) fn put_symbol(out: &mut String, inst: &Inst) -> Result<(), OutOfMemory>
    ensures { family_of inst.now ≡ Symbols → OnOk result (string_bytes out.new ≡ string_bytes out.old ++ text_of inst.now) }
{
    match inst {
        Inst::LoadExtNameGot { rd, name } => put_name(out, "load_ext_name_got", rd.reg, *name),
        Inst::LoadExtNameNear { rd, name, offset } => {
            put_name_and_offset(out, "load_ext_name_near", rd.reg, *name, *offset)
        }
        Inst::LoadExtNameFar { rd, name, offset } => {
            put_name_and_offset(out, "load_ext_name_far", rd.reg, *name, *offset)
        }
        _ => Ok(()),
    }
}
