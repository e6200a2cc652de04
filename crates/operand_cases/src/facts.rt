//! What a back end makes, and what it knows of all instructions, as texts.

use crate::constraints::asked;
use crate::roles::roles;
use rv_base::{IrType, MachLabel, RegClass, a0, a1, writable_a0};
use rv_inst::Inst;
use rv_operands::MachInst;
use std::alloc::{AllocError, Global};

/// The digits of four bytes.
fn digits(alloc: Global, bytes: [u8; 4]) -> Result<String, AllocError> {
    let [b0, b1, b2, b3] = bytes;
    format!(in alloc; "{b0:02x}{b1:02x}{b2:02x}{b3:02x}")
}

/// Which instruction without effect is made for a size.
fn nop_word(preferred_size: usize) -> &'static str {
    let inst = if preferred_size < 4 {
        Inst::gen_nop(0)
    } else {
        Inst::gen_nop(preferred_size)
    };
    match inst {
        Inst::Nop0 => "Nop0",
        Inst::Nop4 => "Nop4",
        _ => "another",
    }
}

/// The types of whole registers.
fn canonical_types(alloc: Global) -> Result<String, AllocError> {
    let int = Inst::canonical_type_for_rc(RegClass::Int);
    let float = Inst::canonical_type_for_rc(RegClass::Float);
    let vector = Inst::canonical_type_for_rc(RegClass::Vector);
    format!(in alloc; "{int} {float} {vector}")
}

/// What is asked of an instruction, and what it is.
fn both(alloc: Global, mut inst: Inst) -> Result<String, AllocError> {
    let operands = asked(alloc, &mut inst)?;
    let roles = roles(alloc, &inst)?;
    format!(in alloc; "{operands}: {roles}")
}

/// A fact by its name.
pub(crate) fn fact(alloc: Global, name: &str) -> Result<String, AllocError> {
    match name {
        "TRAP_OPCODE" => digits(alloc, Inst::TRAP_OPCODE),
        "gen_nop_units" => {
            let [unit] = Inst::gen_nop_units();
            digits(alloc, unit)
        }
        "gen_nop 0" => String::from_str(alloc, nop_word(0)),
        "gen_nop 4" => String::from_str(alloc, nop_word(4)),
        "gen_nop 100" => String::from_str(alloc, nop_word(100)),
        "gen_move a0 a1 i64" => both(alloc, Inst::gen_move(writable_a0(), a1(), IrType::I64)),
        "gen_jump label7" => both(alloc, Inst::gen_jump(MachLabel::from_u32(7))),
        "gen_dummy_use a0" => both(alloc, Inst::gen_dummy_use(a0())),
        "canonical_type_for_rc" => canonical_types(alloc),
        "worst_case_size" => format!(in alloc; "{}", Inst::worst_case_size()),
        "worst_case_island_growth" => format!(in alloc; "{}", Inst::worst_case_island_growth()),
        "function_alignment" => {
            let (least, preferred) = Inst::function_alignment();
            format!(in alloc; "{least} {preferred}")
        }
        _ => String::from_str(alloc, "no fact"),
    }
}
