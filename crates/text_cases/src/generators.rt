//! What the generators of parts of registers give, as the texts of their instructions, and the letters of a fence's sets.

ghost use Rattle.std.specs.Prelude.{IfSome, IsTrue};
ghost use Rattle.rv_inst.specs.Classes.{is_int_type};

use case_files::first_word;
use rv_base::{IrType, OutOfMemory, Reg, Writable, a0};
use rv_inst::{Inst, SmallInstVec};
use rv_listing::register;
use rv_text::ToText;
use std::alloc::Global;

fn int_type(word: &str) -> Option<IrType>
    ensures { IfSome result (λ ty. IsTrue (is_int_type ty)) }
{
    match word {
        "i8" => Some(IrType::I8),
        "i16" => Some(IrType::I16),
        "i32" => Some(IrType::I32),
        "i64" => Some(IrType::I64),
        _ => None,
    }
}

/// The register of this name; of another word a0.
fn named(word: &str) -> Reg {
    register(word.as_bytes()).unwrap_or(a0())
}

/// The texts of instructions, with semicolons between them.
fn joined(alloc: Global, insts: &SmallInstVec) -> Result<String, OutOfMemory> {
    let mut text = String::new(alloc);
    for inst in insts.iter() {
        if !text.is_empty() {
            text.push_str("; ")?;
        }
        text.push_str(&inst.to_text(alloc)?)?;
    }
    Ok(text)
}

fn made(
    alloc: Global,
    name: &str,
    regs: [Reg; 4],
    ty: IrType,
) -> Result<Option<SmallInstVec>, OutOfMemory>
    requires { IsTrue (is_int_type ty) }
{
    let [first, second, third, fourth] = regs;
    let rd = Writable::from_reg(first);
    let tmp = Writable::from_reg(second);
    Ok(Some(match name {
        "load_int_mask" => Inst::load_int_mask(alloc, rd, ty)?,
        "extract" => Inst::extract(alloc, rd, second, third, ty)?,
        "extract_sext" => Inst::extract_sext(alloc, rd, second, third, ty)?,
        "unset" => Inst::unset(alloc, rd, tmp, third, ty)?,
        "set" => Inst::set(alloc, rd, tmp, third, fourth, ty)?,
        "merge" => Inst::merge(alloc, rd, tmp, third, fourth, ty)?,
        _ => return Ok(None),
    }))
}

/// What a call of this name makes: its words are a type, and registers in the order of its parameters, or a number.
pub(crate) fn generated(alloc: Global, given: &str) -> Result<String, OutOfMemory> {
    let (name, rest) = first_word(given);
    let (word, rest) = first_word(rest);
    if name == "fence_req_to_string" {
        return Inst::fence_req_to_string(alloc, word.parse::<u8>().unwrap_or(0));
    }
    let (first, rest) = first_word(rest);
    let (second, rest) = first_word(rest);
    let (third, fourth) = first_word(rest);
    let regs = [named(first), named(second), named(third), named(fourth)];
    if name == "construct_bit_not" {
        let inst = Inst::construct_bit_not(Writable::from_reg(regs[0]), regs[1]);
        return inst.to_text(alloc);
    }
    let Some(ty) = int_type(word) else {
        return Ok(String::from_str(alloc, "no type")?);
    };
    match made(alloc, name, regs, ty)? {
        Some(insts) => joined(alloc, &insts),
        None => Ok(String::from_str(alloc, "no generator")?),
    }
}
