//! The texts of calls and tail calls.

ghost use Rattle.std.specs.Prelude.{◌≡◌, ◌++◌, OnOk, string_bytes, codes};
ghost use Rattle.std.specs.List.{flat_map};
ghost use Rattle.std.specs.Fmt.{decimal};
ghost use Rattle.rv_base.specs.RegNames.{name_of};
ghost use Rattle.rv_inst.specs.Operands.{family_of};
ghost use Rattle.rv_inst.specs.declared.inst.Family.TheVariants.{Calls};
ghost use Rattle.rv_text.specs.Operands.{label_text, use_text, handler_text, try_text, listed, after_comma};
ghost use Rattle.rv_text.specs.Texts.{text_of, symbol_text};

use crate::operands::put;
use crate::pseudo::put_pair;
use rv_base::{
    CallArgPair, CallInfo, ExternalName, MachLabel, OutOfMemory, Reg, ReturnCallInfo,
    TryCallHandler, TryCallInfo,
};
use rv_inst::Inst;
use std::fmt::Write;

fn put_tag(out: &mut String, tag: u32, label: MachLabel) -> Result<(), OutOfMemory>
    ensures { OnOk result (string_bytes out.new ≡ string_bytes out.old ++ codes "tag" ++ decimal tag ++ codes ": " ++ label_text label) }
{
    write!(out, "tag{tag}: {label:?}")?;
    Ok(())
}

fn put_default(out: &mut String, label: MachLabel) -> Result<(), OutOfMemory>
    ensures { OnOk result (string_bytes out.new ≡ string_bytes out.old ++ codes "default: " ++ label_text label) }
{
    write!(out, "default: {label:?}")?;
    Ok(())
}

fn put_handler(out: &mut String, handler: TryCallHandler) -> Result<(), OutOfMemory>
    ensures { OnOk result (string_bytes out.new ≡ string_bytes out.old ++ handler_text handler) }
{
    match handler {
        TryCallHandler::Tag(tag, label) => put_tag(out, tag, label),
        TryCallHandler::Default(label) => put_default(out, label),
    }
}

fn put_further_handler(out: &mut String, handler: TryCallHandler) -> Result<(), OutOfMemory>
    ensures { OnOk result (string_bytes out.new ≡ string_bytes out.old ++ after_comma handler_text handler) }
{
    put(out, ", ")?;
    put_handler(out, handler)
}

fn put_further_handlers(out: &mut String, handlers: &[TryCallHandler]) -> Result<(), OutOfMemory>
    ensures { OnOk result (string_bytes out.new ≡ string_bytes out.old ++ flat_map (after_comma handler_text) handlers.now) }
{
    for handler in handlers {
        put_further_handler(out, *handler)?;
    }
    Ok(())
}

fn put_handlers(out: &mut String, handlers: &[TryCallHandler]) -> Result<(), OutOfMemory>
    ensures { OnOk result (string_bytes out.new ≡ string_bytes out.old ++ listed handler_text handlers.now) }
{
    match handlers {
        [] => Ok(()),
        [first, further @ ..] => {
            put_handler(out, *first)?;
            put_further_handlers(out, further)
        }
    }
}

fn put_try(out: &mut String, info: &Option<TryCallInfo>) -> Result<(), OutOfMemory>
    ensures { OnOk result (string_bytes out.new ≡ string_bytes out.old ++ try_text info.now) }
{
    match info {
        None => Ok(()),
        Some(info) => {
            let continuation = info.continuation;
            write!(out, "; j {continuation:?}; catch [")?;
            put_handlers(out, info.handlers.as_slice())?;
            put(out, "]")
        }
    }
}

fn put_uses(out: &mut String, uses: &[CallArgPair]) -> Result<(), OutOfMemory>
    ensures { OnOk result (string_bytes out.new ≡ string_bytes out.old ++ flat_map use_text uses.now) }
{
    for pair in uses {
        put_pair(out, pair.vreg, pair.preg)?;
    }
    Ok(())
}

fn put_named(out: &mut String, info: &CallInfo<ExternalName>) -> Result<(), OutOfMemory>
    ensures { OnOk result (string_bytes out.new ≡ string_bytes out.old ++ codes "call " ++ symbol_text info.now.dest ++ try_text info.now.try_call_info) }
{
    let dest = info.dest;
    write!(out, "call {dest}")?;
    put_try(out, &info.try_call_info)
}

fn put_indirect(out: &mut String, info: &CallInfo<Reg>) -> Result<(), OutOfMemory>
    ensures { OnOk result (string_bytes out.new ≡ string_bytes out.old ++ codes "callind " ++ name_of info.now.dest ++ try_text info.now.try_call_info) }
{
    let dest = info.dest;
    write!(out, "callind {dest}")?;
    put_try(out, &info.try_call_info)
}

fn put_named_tail(out: &mut String, info: &ReturnCallInfo<ExternalName>) -> Result<(), OutOfMemory>
    ensures { OnOk result (string_bytes out.new ≡ string_bytes out.old ++ codes "return_call User(" ++ symbol_text info.now.dest ++ codes ") new_stack_arg_size:" ++ decimal info.now.new_stack_arg_size ++ flat_map use_text info.now.uses) }
{
    let dest = info.dest;
    let size = info.new_stack_arg_size;
    write!(out, "return_call {dest:?} new_stack_arg_size:{size}")?;
    put_uses(out, info.uses.as_slice())?;
    Ok(())
}

fn put_indirect_tail(out: &mut String, info: &ReturnCallInfo<Reg>) -> Result<(), OutOfMemory>
    ensures { OnOk result (string_bytes out.new ≡ string_bytes out.old ++ codes "return_call_ind " ++ name_of info.now.dest ++ codes " new_stack_arg_size:" ++ decimal info.now.new_stack_arg_size ++ flat_map use_text info.now.uses) }
{
    let dest = info.dest;
    let size = info.new_stack_arg_size;
    write!(out, "return_call_ind {dest} new_stack_arg_size:{size}")?;
    put_uses(out, info.uses.as_slice())?;
    Ok(())
}

/// Appends the text of an instruction of this family; of others nothing.
pub(crate) fn put_call(out: &mut String, inst: &Inst) -> Result<(), OutOfMemory>
    ensures { family_of inst.now ≡ Calls → OnOk result (string_bytes out.new ≡ string_bytes out.old ++ text_of inst.now) }
{
    match inst {
        Inst::Call { info } => put_named(out, info.as_ref()),
        Inst::CallInd { info } => put_indirect(out, info.as_ref()),
        Inst::ReturnCall { info } => put_named_tail(out, info.as_ref()),
        Inst::ReturnCallInd { info } => put_indirect_tail(out, info.as_ref()),
        _ => Ok(()),
    }
}
