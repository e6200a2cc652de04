//! What an instruction is to a back end, as a text: `safepoint call branch clobbers`.

use rv_base::{CodegenError, IrType, Reg, RegClass, WritableReg};
use rv_inst::Inst;
use rv_operands::{CallType, MachInst, MachTerminator};
use std::alloc::{AllocError, Global};

fn call_word(call: CallType) -> &'static str {
    match call {
        CallType::None => "",
        CallType::Regular => " call",
        CallType::TailCall => " tail_call",
    }
}

fn end_word(end: MachTerminator) -> &'static str {
    match end {
        MachTerminator::None => "",
        MachTerminator::Branch => " branch",
        MachTerminator::Ret => " ret",
        MachTerminator::RetCall => " ret_call",
    }
}

fn word_if(holds: bool, word: &'static str) -> &'static str {
    if holds { word } else { "" }
}

/// The registers of a move, the written one first.
fn move_words(alloc: Global, moved: Option<(WritableReg, Reg)>) -> Result<String, AllocError> {
    let Some(pair) = moved else {
        return Ok(String::new(alloc));
    };
    let (to, from) = pair;
    let to = to.to_reg();
    format!(in alloc; " move {to} {from}")
}

/// The words of all that it is.
pub(crate) fn roles(alloc: Global, inst: &Inst) -> Result<String, AllocError> {
    let moved = move_words(alloc, inst.is_move())?;
    let call = call_word(inst.call_type());
    let end = end_word(inst.is_term());
    let safepoint = word_if(inst.is_safepoint(), " safepoint");
    let trap = word_if(inst.is_trap(), " trap");
    let args = word_if(inst.is_args(), " args");
    let clobbers = word_if(inst.is_included_in_clobbers(), " clobbers");
    format!(in alloc; "is{moved}{safepoint}{call}{end}{trap}{args}{clobbers}")
}

fn class_word(class: RegClass) -> &'static str {
    match class {
        RegClass::Int => "Int",
        RegClass::Float => "Float",
        RegClass::Vector => "Vector",
    }
}

/// The classes of the registers that hold a type, and the types of their parts.
pub(crate) fn classes(alloc: Global, ty: IrType) -> Result<String, AllocError> {
    let (classes, types) = match Inst::rc_for_type(alloc, ty) {
        Ok(held) => held,
        Err(CodegenError::Unsupported) => return String::from_str(alloc, "unsupported"),
        Err(CodegenError::OutOfMemory) => return String::from_str(alloc, "out of memory"),
    };
    let mut text = String::new(alloc);
    for (class, ty) in classes.as_slice().iter().zip(types.as_slice()) {
        let word = class_word(*class);
        if !text.is_empty() {
            text.push(' ')?;
        }
        text.push_str(&format!(in alloc; "{word} {ty}")?)?;
    }
    Ok(text)
}
