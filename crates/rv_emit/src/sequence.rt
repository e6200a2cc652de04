//! The words of an instruction, and its uses of labels.

ghost use Rattle.std.specs.Prelude.{◌≡◌, ◌+◌, ◌^◌, ◌<◌, length, List, OnOk, OnErr, None, true};
ghost use Rattle.rv_base.specs.declared.constant.Constant.{Constant};
ghost use Rattle.rv_base.specs.declared.flags.IsaFlags.{IsaFlags};
ghost use Rattle.rv_base.specs.declared.frame.FrameLayout.{FrameLayout};
ghost use Rattle.rv_base.specs.Frame.{sp_to_args_end};
ghost use Rattle.rv_base.specs.LabelUse.{code_limit};
ghost use Rattle.rv_inst.specs.Context.{context_by};
ghost use Rattle.mach_buffer.specs.Buffer.{bytes_of, allocated_of, registered_of, spoiled_of};
ghost use Rattle.rv_code.specs.Usable.{KeepsRules};
ghost use Rattle.rv_sequences.specs.Emitted.{IsSoundBuffer};
ghost use Rattle.rv_emit.specs.Emission.{Emits, EmitsAnyhow};
ghost use Rattle.rv_emit.specs.StackMaps.{with_map};
ghost use Rattle.rv_inst.specs.Limits.{sequence_limit};
ghost use Rattle.rv_inst.specs.Sizes.{request_of};
ghost use Rattle.rv_inst.specs.Operands.{family_of};
ghost use Rattle.rv_inst.specs.declared.inst.Family.TheVariants.{Pseudo, Integer, Memory, Control, Loop, Calls};

use crate::calls::{put_call, put_call_ind};
use crate::symbols::{put_symbol, put_unwind};
use crate::units::put_unit;
use mach_buffer::MachBuffer;
use rv_base::{
    FrameLayout, IrType, IsaFlags, OutOfMemory, Reg, UserStackMap, link_reg, writable_zero_reg,
    zero_reg,
};
use rv_encode::{enc_auipc, encode_alu_rr_imm12};
use rv_imms::Imm12;
use rv_inst::{Family, Inst, LabelUse};
use rv_ops::AluOPRRI;
use rv_sequences::{
    put_address, put_atomic_load, put_atomic_store, put_branch, put_bytes, put_computation,
    put_constant, put_ebreak, put_extend, put_fence, put_jalr, put_jump, put_label_address,
    put_load_line, put_lui, put_move, put_probe_loop, put_rri, put_rrr, put_select, put_store_line,
    put_trap, put_trap_if, put_word, resolved_address,
};

/// Puts the sequence of an instruction that breaks no rule in its context, with the map given to it.
pub(crate) fn put_sequence(
    sink: &mut MachBuffer<LabelUse>,
    flags: IsaFlags,
    frame: &FrameLayout,
    inst: &Inst,
    stack_map: &Option<UserStackMap>,
) -> Result<(), OutOfMemory>
    requires rule { KeepsRules (registered_of sink.old) inst.now }
    requires frame { sp_to_args_end frame.now < 2 ^ 31 }
    requires few { allocated_of sink.old < 2 ^ 29 }
    requires room { length (bytes_of sink.old) + sequence_limit < code_limit }
    requires sound { IsSoundBuffer sink.old }
    ensures parts { request_of (context_by flags frame.now (registered_of sink.old)) inst.now ≡ None → OnOk result (Emits (context_by flags frame.now (registered_of sink.old)) (with_map stack_map.now inst.now) sink.old sink.new) }
    ensures refused { OnErr result (spoiled_of sink.new ≡ true) }
{
    match inst.family() {
        Family::Pseudo => put_pseudo(sink, flags, inst),
        Family::Integer => put_integer(sink, flags, inst),
        Family::Memory => put_memory(sink, flags, frame, inst),
        Family::Control => put_control(sink, flags, inst),
        Family::Loop => put_loop(sink, flags, inst),
        Family::Symbols => put_symbol(sink, flags, inst),
        Family::Calls => put_calls(sink, flags, frame, inst, stack_map),
        Family::Float => put_unit(sink, inst),
    }
}

/// Those calls that ask for no island.
#[inline(never)]
fn put_calls(
    sink: &mut MachBuffer<LabelUse>,
    flags: IsaFlags,
    frame: &FrameLayout,
    inst: &Inst,
    stack_map: &Option<UserStackMap>,
) -> Result<(), OutOfMemory>
    requires rule { KeepsRules (registered_of sink.old) inst.now }
    requires frame { sp_to_args_end frame.now < 2 ^ 31 }
    requires room { length (bytes_of sink.old) + sequence_limit < code_limit }
    requires sound { IsSoundBuffer sink.old }
    ensures parts { family_of inst.now ≡ Calls → (constants : List Constant) → request_of (context_by flags frame.now constants) inst.now ≡ None → OnOk result (Emits (context_by flags frame.now constants) (with_map stack_map.now inst.now) sink.old sink.new) }
    ensures refused { OnErr result (spoiled_of sink.new ≡ true) }
{
    match inst {
        Inst::Call { info } => put_call(sink, flags, frame, info.as_ref(), stack_map),
        Inst::CallInd { info } => put_call_ind(sink, flags, frame, info.as_ref(), stack_map),
        _ => Ok(()),
    }
}

#[inline(never)]
fn put_pseudo(
    sink: &mut MachBuffer<LabelUse>,
    flags: IsaFlags,
    inst: &Inst,
) -> Result<(), OutOfMemory>
    requires rule { KeepsRules (registered_of sink.old) inst.now }
    requires room { length (bytes_of sink.old) + sequence_limit < code_limit }
    requires sound { IsSoundBuffer sink.old }
    ensures parts { family_of inst.now ≡ Pseudo → (frame : FrameLayout) (constants : List Constant) → request_of (context_by flags frame constants) inst.now ≡ None → OnOk result (Emits (context_by flags frame constants) inst.now sink.old sink.new) }
    ensures refused { OnErr result (spoiled_of sink.new ≡ true) }
{
    match inst {
        Inst::Nop4 => put_word(
            sink,
            encode_alu_rr_imm12(AluOPRRI::Addi, writable_zero_reg(), zero_reg(), Imm12::ZERO),
        ),
        Inst::EBreak => put_ebreak(sink, flags),
        Inst::Unwind { inst: step } => put_unwind(sink, *step),
        Inst::RawData { bytes } => put_bytes(sink, bytes.as_slice()),
        _ => Ok(()),
    }
}

fn put_integer(
    sink: &mut MachBuffer<LabelUse>,
    flags: IsaFlags,
    inst: &Inst,
) -> Result<(), OutOfMemory>
    requires rule { KeepsRules (registered_of sink.old) inst.now }
    requires few { allocated_of sink.old < 2 ^ 29 }
    requires room { length (bytes_of sink.old) + sequence_limit < code_limit }
    requires sound { IsSoundBuffer sink.old }
    ensures parts { family_of inst.now ≡ Integer → OnOk result (EmitsAnyhow flags inst.now sink.old sink.new) }
    ensures refused { OnErr result (spoiled_of sink.new ≡ true) }
{
    match inst {
        Inst::Lui { rd, imm } => put_lui(sink, flags, *rd, *imm),
        Inst::Auipc { rd, imm } => put_word(sink, enc_auipc(*rd, *imm)),
        Inst::LoadInlineConst { rd, ty, imm } => put_constant(sink, flags, *rd, *ty, *imm),
        Inst::AluRRR {
            alu_op,
            rd,
            rs1,
            rs2,
        } => put_rrr(sink, flags, *alu_op, *rd, *rs1, *rs2),
        Inst::AluRRImm12 {
            alu_op,
            rd,
            rs,
            imm12,
        } => put_rri(sink, flags, *alu_op, *rd, *rs, *imm12),
        Inst::Mov { rd, rm, ty } => put_move(sink, flags, *rd, *rm, *ty),
        Inst::MovFromPReg { rd, rm } => put_move(sink, flags, *rd, Reg::Real(*rm), IrType::I64),
        Inst::Extend {
            rd,
            rn,
            signed,
            from_bits,
            to_bits: _,
        } => put_extend(sink, flags, *rd, *rn, *signed, *from_bits),
        Inst::Select { info } => {
            let info = info.as_ref();
            put_select(sink, flags, info.dst, info.condition, info.x, info.y)
        }
        _ => Ok(()),
    }
}

fn put_control(
    sink: &mut MachBuffer<LabelUse>,
    flags: IsaFlags,
    inst: &Inst,
) -> Result<(), OutOfMemory>
    requires rule { KeepsRules (registered_of sink.old) inst.now }
    requires few { allocated_of sink.old < 2 ^ 29 }
    requires room { length (bytes_of sink.old) + sequence_limit < code_limit }
    requires sound { IsSoundBuffer sink.old }
    ensures parts { family_of inst.now ≡ Control → (frame : FrameLayout) (constants : List Constant) → request_of (context_by flags frame constants) inst.now ≡ None → OnOk result (Emits (context_by flags frame constants) inst.now sink.old sink.new) }
    ensures refused { OnErr result (spoiled_of sink.new ≡ true) }
{
    match inst {
        Inst::Ret => put_jalr(sink, flags, writable_zero_reg(), link_reg(), Imm12::ZERO),
        Inst::TrapIf { cmp, trap_code } => put_trap_if(sink, flags, *cmp, *trap_code),
        Inst::Jal { label } => put_jump(sink, flags, *label),
        Inst::CondBr {
            taken,
            not_taken,
            kind,
        } => put_branch(sink, flags, *kind, *taken, *not_taken),
        Inst::Udf { trap_code } => put_trap(sink, flags, *trap_code),
        Inst::Jalr { rd, base, offset } => put_jalr(sink, flags, *rd, *base, *offset),
        _ => Ok(()),
    }
}

fn put_memory(
    sink: &mut MachBuffer<LabelUse>,
    flags: IsaFlags,
    frame: &FrameLayout,
    inst: &Inst,
) -> Result<(), OutOfMemory>
    requires rule { KeepsRules (registered_of sink.old) inst.now }
    requires frame { sp_to_args_end frame.now < 2 ^ 31 }
    requires few { allocated_of sink.old < 2 ^ 29 }
    requires room { length (bytes_of sink.old) + sequence_limit < code_limit }
    requires sound { IsSoundBuffer sink.old }
    ensures parts { family_of inst.now ≡ Memory → OnOk result (Emits (context_by flags frame.now (registered_of sink.old)) inst.now sink.old sink.new) }
    ensures refused { OnErr result (spoiled_of sink.new ≡ true) }
{
    match inst {
        Inst::Load {
            rd,
            op,
            flags: access,
            from,
        } => {
            let place = resolved_address(sink, frame, *from)?;
            put_load_line(sink, flags, *rd, *op, access.trap_code(), place)
        }
        Inst::Store {
            to,
            op,
            flags: access,
            src,
        } => {
            let place = resolved_address(sink, frame, *to)?;
            put_store_line(sink, flags, *op, *src, access.trap_code(), place)
        }
        Inst::LoadAddr { rd, mem } => {
            let place = resolved_address(sink, frame, *mem)?;
            put_address(sink, flags, *rd, place)
        }
        Inst::LabelAddress { dst, label } => put_label_address(sink, *dst, *label),
        Inst::StackProbeLoop {
            guard_size,
            probe_count,
            tmp,
        } => put_probe_loop(sink, flags, *guard_size, *probe_count, *tmp),
        Inst::Fence { pred, succ } => put_fence(sink, flags, *pred, *succ),
        Inst::AtomicLoad { rd, ty, p } => put_atomic_load(sink, flags, *rd, *ty, *p),
        Inst::AtomicStore { src, ty, p } => put_atomic_store(sink, flags, *src, *ty, *p),
        _ => Ok(()),
    }
}

#[inline(never)]
fn put_loop(
    sink: &mut MachBuffer<LabelUse>,
    flags: IsaFlags,
    inst: &Inst,
) -> Result<(), OutOfMemory>
    requires rule { KeepsRules (registered_of sink.old) inst.now }
    requires few { allocated_of sink.old < 2 ^ 29 }
    requires room { length (bytes_of sink.old) + sequence_limit < code_limit }
    requires sound { IsSoundBuffer sink.old }
    ensures parts { family_of inst.now ≡ Loop → OnOk result (EmitsAnyhow flags inst.now sink.old sink.new) }
    ensures refused { OnErr result (spoiled_of sink.new ≡ true) }
{
    match inst.sequence() {
        Some(sequence) => put_computation(sink, flags, sequence),
        None => Ok(()),
    }
}
