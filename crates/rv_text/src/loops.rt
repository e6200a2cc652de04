//! The texts of instructions that compute by a loop of their own.

ghost use Rattle.std.specs.Prelude.{◌≡◌, ◌++◌, OnOk, string_bytes};
ghost use Rattle.rv_inst.specs.Operands.{family_of};
ghost use Rattle.rv_inst.specs.declared.inst.Family.TheVariants.{Loop};
ghost use Rattle.rv_text.specs.Texts.{text_of, count_text, zeros_name, brev8_text};

use rv_base::OutOfMemory;
use rv_inst::{Brev8Info, CountInfo, Inst};
use std::fmt::Write;

fn put_count(out: &mut String, name: &str, info: &CountInfo) -> Result<(), OutOfMemory>
    ensures { OnOk result (string_bytes out.new ≡ string_bytes out.old ++ count_text name.now info.now) }
{
    let sum = info.sum.reg;
    let rs = info.rs;
    let ty = info.ty;
    let tmp = info.tmp.reg;
    let step = info.step.reg;
    write!(out, "{name} {sum},{rs}##ty={ty} tmp={tmp} step={step}")?;
    Ok(())
}

fn zeros_name(leading: bool) -> &'static str
    ensures { result.now ≡ zeros_name leading }
{
    if leading { "clz" } else { "ctz" }
}

fn put_reverse(out: &mut String, info: &Brev8Info) -> Result<(), OutOfMemory>
    ensures { OnOk result (string_bytes out.new ≡ string_bytes out.old ++ brev8_text info.now) }
{
    let rd = info.rd.reg;
    let rs = info.rs;
    let tmp = info.tmp.reg;
    let tmp2 = info.tmp2.reg;
    let step = info.step.reg;
    let ty = info.ty;
    write!(
        out,
        "brev8 {rd},{rs}##tmp={tmp} tmp2={tmp2} step={step} ty={ty}"
    )?;
    Ok(())
}

/// Appends the text of an instruction of this family; of others nothing.
pub(crate) fn put_loop(out: &mut String, inst: &Inst) -> Result<(), OutOfMemory>
    ensures { family_of inst.now ≡ Loop → OnOk result (string_bytes out.new ≡ string_bytes out.old ++ text_of inst.now) }
{
    match inst {
        Inst::Popcnt { info } => put_count(out, "popcnt", info.as_ref()),
        Inst::Cltz { leading, info } => put_count(out, zeros_name(*leading), info.as_ref()),
        Inst::Brev8 { info } => put_reverse(out, info.as_ref()),
        _ => Ok(()),
    }
}
