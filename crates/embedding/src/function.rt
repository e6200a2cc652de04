//! The lines of one function, made from values.

use rv_base::{
    AMode, CallArgPair, CallInfo, CallRetPair, ConstAlign, Constant, ExternalName, IntCC, IrType,
    List, MachLabel, MemFlagsData, OutOfMemory, PRegSet, RetLocation, TrapCode, VCodeConstant,
    Writable, a0, a1, link_reg, px_reg, stack_reg, writable_a0, writable_link_reg,
    writable_stack_reg, zero_reg,
};
use rv_imms::Imm12;
use rv_inst::{Boxed, CondBrTarget, Inst, Line};
use rv_ops::{AluOPRRI, AluOPRRR, IntegerCompare, LoadOP, StoreOP};
use std::alloc::Global;

/// Goes to the label where a0 is at least a1, signed, and else to the next line.
fn branch_if_greater(label: MachLabel) -> Inst {
    Inst::CondBr {
        taken: CondBrTarget::Label(label),
        not_taken: CondBrTarget::Fallthrough,
        kind: IntegerCompare {
            kind: IntCC::SignedGreaterThanOrEqual,
            rs1: a0(),
            rs2: a1(),
        },
    }
}

/// Moves the stack pointer by so many bytes.
fn move_stack_pointer(by: Imm12) -> Inst {
    Inst::AluRRImm12 {
        alu_op: AluOPRRI::Addi,
        rd: writable_stack_reg(),
        rs: stack_reg(),
        imm12: by,
    }
}

/// Saves the return address eight bytes above the stack pointer.
fn save_return_address() -> Inst {
    Inst::Store {
        src: link_reg(),
        op: StoreOP::Sd,
        flags: MemFlagsData::trusted(),
        to: AMode::SPOffset(8),
    }
}

/// Restores it.
fn restore_return_address() -> Inst {
    Inst::Load {
        rd: writable_link_reg(),
        op: LoadOP::Ld,
        flags: MemFlagsData::trusted(),
        from: AMode::SPOffset(8),
    }
}

/// The registers that a function of the host may write, but for its result: ra, t0 to t6 and a1 to a7.
fn caller_saved() -> PRegSet {
    let mut set = PRegSet::new();
    set.add(px_reg(1));
    for number in 5..8 {
        set.add(px_reg(number));
    }
    for number in 11..18 {
        set.add(px_reg(number));
    }
    for number in 28..32 {
        set.add(px_reg(number));
    }
    set
}

/// Calls a function with a0 as its argument and its result.
fn call(alloc: Global, dest: ExternalName) -> Result<Inst, OutOfMemory> {
    let mut uses = List::new(alloc);
    uses.push(CallArgPair {
        vreg: a0(),
        preg: a0(),
    })?;
    let mut defs = List::new(alloc);
    defs.push(CallRetPair {
        vreg: writable_a0(),
        location: RetLocation::Reg(a0()),
    })?;
    let info = CallInfo {
        dest,
        uses,
        defs,
        clobbers: caller_saved(),
        callee_pop_size: 0,
        patchable: false,
        stack_map: None,
        try_call_info: None,
    };
    Ok(Inst::Call {
        info: Boxed::new(alloc, info)?,
    })
}

/// The constant that the function names: a number of eight bytes.
pub fn constants(alloc: Global) -> Result<Vec<Constant>, OutOfMemory> {
    let mut bytes = List::new(alloc);
    for byte in 1000u64.to_le_bytes() {
        bytes.push(byte)?;
    }
    let mut constants = Vec::new(alloc);
    constants.push(Constant {
        bytes,
        align: ConstAlign::A8,
    })?;
    Ok(constants)
}

/// Traps where a0 is negative.
fn trap_if_negative() -> Inst {
    Inst::TrapIf {
        cmp: IntegerCompare {
            kind: IntCC::SignedLessThan,
            rs1: a0(),
            rs2: zero_reg(),
        },
        trap_code: TrapCode::IntegerOverflow,
    }
}

/// Loads the first of the constants into a1.
fn load_constant() -> Inst {
    Inst::Load {
        rd: Writable::from_reg(a1()),
        op: LoadOP::Ld,
        flags: MemFlagsData::trusted(),
        from: AMode::Const(VCodeConstant::from_u32(0)),
    }
}

/// Hands the greater of a0 and a1, signed, to a function of the host. Traps where that returns a negative number, and else returns it
/// times the constant.
pub fn lines(alloc: Global, host: ExternalName) -> Result<Vec<Line>, OutOfMemory> {
    let done = MachLabel::from_u32(0);
    let mut lines = Vec::new(alloc);
    // the function's entry: no bytes, and an offset in the report
    lines.push(Line::Inst(Inst::default()))?;
    lines.push(Line::Inst(move_stack_pointer(Imm12::from_i16(-16))))?;
    lines.push(Line::Inst(save_return_address()))?;
    lines.push(Line::Inst(branch_if_greater(done)))?;
    lines.push(Line::Inst(Inst::Mov {
        rd: writable_a0(),
        rm: a1(),
        ty: IrType::I64,
    }))?;
    lines.push(Line::Bind(done))?;
    lines.push(Line::Inst(call(alloc, host)?))?;
    lines.push(Line::Inst(restore_return_address()))?;
    lines.push(Line::Inst(move_stack_pointer(Imm12::from_i16(16))))?;
    lines.push(Line::Inst(trap_if_negative()))?;
    lines.push(Line::Inst(load_constant()))?;
    lines.push(Line::Inst(Inst::AluRRR {
        alu_op: AluOPRRR::Mul,
        rd: writable_a0(),
        rs1: a0(),
        rs2: a1(),
    }))?;
    lines.push(Line::Inst(Inst::Ret))?;
    Ok(lines)
}
