//! Tail calls: what a frame saved is restored, the frame is taken away, and another function takes its place.

ghost use Rattle.std.specs.Prelude.{◌≡◌, ◌∷◌, [], ◌+◌, ◌*◌, ◌^◌, ◌<◌, ◌≤◌, ◌-ℤ◌, ◌≢◌, length, pos, None, OnOk, OnErr, IfOk, true};
ghost use Rattle.rv_base.specs.Frame.{sp_to_args_end};
ghost use Rattle.rv_base.specs.LabelUse.{code_limit};
ghost use Rattle.rv_base.specs.Regs.{number_of};
ghost use Rattle.rv_ops.specs.declared.memory.LoadOP.TheVariants.{Ld};
ghost use Rattle.rv_encode.specs.Registers.{IsIntRegister, IsRealRegister};
ghost use Rattle.mach_buffer.specs.Buffer.{shape_of, bytes_of, allocated_of, spoiled_of};
ghost use Rattle.mach_buffer.specs.Constants.{reserve_of};
ghost use Rattle.mach_uses.specs.Reach.{CanReach};
ghost use Rattle.mach_uses.specs.Labels.{inner_count};
ghost use Rattle.rv_inst.specs.Addresses.{Based};
ghost use Rattle.rv_inst.specs.Returns.{saved_load, saves_from, setup_loads, frame_above};
ghost use Rattle.rv_sequences.specs.Parts.{PutsAlone, PutsParts};
ghost use Rattle.rv_sequences.specs.Emitted.{IsSoundBuffer, pending};
ghost use Rattle.rv_code.specs.InstParts.{load_line_slots, stack_load_slots, far_step_slots, stack_step_slots, return_size, return_slots, tail_slots, t0_slots};
ghost use Rattle.rv_code.specs.Slots.{Ask, Slots};

use crate::island::emit_island_if_needed;
use crate::symbols::{put_call_site, put_call_to};
use mach_buffer::MachBuffer;
use rv_base::{
    ExternalName, FrameLayout, IsaFlags, OutOfMemory, PReg, Reg, RegClass, ReturnCallInfo,
    Writable, WritableReg, spilltmp_reg, stack_reg, writable_fp_reg, writable_link_reg,
    writable_spilltmp_reg, writable_stack_reg, writable_zero_reg,
};
use rv_imms::Imm12;
use rv_inst::LabelUse;
use rv_ops::{AluOPRRI, AluOPRRR, LoadOP};
use rv_sequences::{
    Place, has_load, put_based_load, put_half_load, put_jalr, put_number, put_rri, put_rrr,
};
use std::alloc::Global;

/// Another function, a symbol, takes the place of the frame's; after an island where one is needed before so many bytes.
pub(crate) fn put_tail_call(
    sink: &mut MachBuffer<LabelUse>,
    alloc: Global,
    flags: IsaFlags,
    frame: &FrameLayout,
    info: &ReturnCallInfo<ExternalName>,
) -> Result<(), OutOfMemory>
    requires frame { sp_to_args_end frame.now < 2 ^ 31 }
    requires arguments { info.now.new_stack_arg_size ≤ frame.now.tail_args_size }
    requires reach { CanReach (length (bytes_of sink.old)) (pending sink.old) }
    requires few { allocated_of sink.old < inner_count }
    requires room { length (bytes_of sink.old) + 32 * length frame.now.clobbered_callee_saves + reserve_of (shape_of sink.old) + 8 * length (pending sink.old) + 160 < code_limit }
    requires sound { IsSoundBuffer sink.old }
    ensures parts { OnOk result (PutsParts flags (Ask (return_size flags frame.now info.now.new_stack_arg_size + 8) ∷ Slots (tail_slots flags frame.now info.now.new_stack_arg_size info.now.dest) ∷ []) sink.old sink.new) }
    ensures refused { OnErr result (spoiled_of sink.new ≡ true) }
{
    let size = measured(sink, alloc, flags, frame, info.new_stack_arg_size)?;
    emit_island_if_needed(sink, size + 8)?;
    put_return(sink, flags, frame, info.new_stack_arg_size)?;
    put_call_site(sink)?;
    put_call_to(
        sink,
        writable_zero_reg(),
        writable_spilltmp_reg(),
        info.dest,
    )?;
    Ok(())
}

/// So does the function at the address in t0.
pub(crate) fn put_tail_jump(
    sink: &mut MachBuffer<LabelUse>,
    alloc: Global,
    flags: IsaFlags,
    frame: &FrameLayout,
    info: &ReturnCallInfo<Reg>,
) -> Result<(), OutOfMemory>
    requires frame { sp_to_args_end frame.now < 2 ^ 31 }
    requires arguments { info.now.new_stack_arg_size ≤ frame.now.tail_args_size }
    requires target { IsIntRegister info.now.dest }
    requires fifth { number_of info.now.dest ≡ 5 }
    requires reach { CanReach (length (bytes_of sink.old)) (pending sink.old) }
    requires few { allocated_of sink.old < inner_count }
    requires room { length (bytes_of sink.old) + 32 * length frame.now.clobbered_callee_saves + reserve_of (shape_of sink.old) + 8 * length (pending sink.old) + 160 < code_limit }
    requires sound { IsSoundBuffer sink.old }
    ensures parts { OnOk result (PutsParts flags (Ask (return_size flags frame.now info.now.new_stack_arg_size + 4) ∷ Slots (t0_slots flags frame.now info.now.new_stack_arg_size) ∷ []) sink.old sink.new) }
    ensures refused { OnErr result (spoiled_of sink.new ≡ true) }
{
    let size = measured(sink, alloc, flags, frame, info.new_stack_arg_size)?;
    emit_island_if_needed(sink, size + 4)?;
    put_return(sink, flags, frame, info.new_stack_arg_size)?;
    put_jalr(sink, flags, writable_zero_reg(), info.dest, Imm12::ZERO)?;
    Ok(())
}

/// How many bytes it takes to take the frame away. Where that is out of memory, the buffer is spoiled.
fn measured(
    sink: &mut MachBuffer<LabelUse>,
    alloc: Global,
    flags: IsaFlags,
    frame: &FrameLayout,
    arguments: u32,
) -> Result<u32, OutOfMemory>
    requires frame { sp_to_args_end frame.now < 2 ^ 31 }
    requires arguments { arguments ≤ frame.now.tail_args_size }
    requires room { 28 * length frame.now.clobbered_callee_saves + 80 < code_limit }
    ensures size { IfOk result (λ size. size ≡ return_size flags frame.now arguments) }
    ensures same { OnOk result (sink.new ≡ sink.old) }
    ensures refused { OnErr result (spoiled_of sink.new ≡ true) }
{
    match return_length(alloc, flags, frame, arguments) {
        Ok(size) => Ok(size),
        Err(OutOfMemory) => {
            sink.spoil();
            Err(OutOfMemory)
        }
    }
}

/// How many bytes it takes to take the frame away: those that a buffer of its own has then.
fn return_length(
    alloc: Global,
    flags: IsaFlags,
    frame: &FrameLayout,
    arguments: u32,
) -> Result<u32, OutOfMemory>
    requires frame { sp_to_args_end frame.now < 2 ^ 31 }
    requires arguments { arguments ≤ frame.now.tail_args_size }
    requires room { 28 * length frame.now.clobbered_callee_saves + 80 < code_limit }
    ensures { IfOk result (λ size. size ≡ return_size flags frame.now arguments) }
{
    let mut buffer = MachBuffer::new(alloc);
    put_return(&mut buffer, flags, frame, arguments)?;
    Ok(buffer.cur_offset())
}

/// Restores what the frame saved, and takes the frame away but for so many bytes of arguments.
fn put_return(
    sink: &mut MachBuffer<LabelUse>,
    flags: IsaFlags,
    frame: &FrameLayout,
    arguments: u32,
) -> Result<(), OutOfMemory>
    requires frame { sp_to_args_end frame.now < 2 ^ 31 }
    requires arguments { arguments ≤ frame.now.tail_args_size }
    requires room { length (bytes_of sink.old) + 28 * length frame.now.clobbered_callee_saves + 80 < code_limit }
    requires sound { IsSoundBuffer sink.old }
    ensures slots { OnOk result (PutsAlone flags (return_slots flags frame.now arguments) sink.old sink.new) }
    ensures refused { OnErr result (spoiled_of sink.new ≡ true) }
{
    put_saves(
        sink,
        flags,
        frame.sp_to_fp(),
        frame.clobbered_callee_saves.as_slice(),
    )?;
    put_setup(sink, flags, frame)?;
    put_stack_step(sink, flags, i64::from(frame_above(frame, arguments)))?;
    Ok(())
}

/// How far the stack pointer rises, in bytes.
fn frame_above(frame: &FrameLayout, arguments: u32) -> u32
    requires frame { sp_to_args_end frame.now < 2 ^ 31 }
    requires arguments { arguments ≤ frame.now.tail_args_size }
    ensures { result ≡ frame_above frame.now arguments }
{
    frame.sp_to_fp() + frame.setup_area_size + (frame.tail_args_size - arguments)
}

/// Loads eight bytes for each register that a frame saves, from below the frame pointer downwards; that is so far above the stack
/// pointer.
fn put_saves(
    sink: &mut MachBuffer<LabelUse>,
    flags: IsaFlags,
    below: u32,
    saves: &[Writable<PReg>],
) -> Result<(), OutOfMemory>
    requires room { length (bytes_of sink.old) + 28 * length saves.now + 12 < code_limit }
    requires sound { IsSoundBuffer sink.old }
    ensures slots { OnOk result (PutsAlone flags (stack_load_slots flags (saves_from (pos below -ℤ pos 8) saves.now)) sink.old sink.new) }
    ensures refused { OnErr result (spoiled_of sink.new ≡ true) }
{
    for (index, save) in saves.iter().enumerate() {
        put_save(sink, flags, *save, below, index as u32)?;
    }
    Ok(())
}

/// Loads the register of an index among those.
fn put_save(
    sink: &mut MachBuffer<LabelUse>,
    flags: IsaFlags,
    save: Writable<PReg>,
    below: u32,
    index: u32,
) -> Result<(), OutOfMemory>
    requires room { length (bytes_of sink.old) + 40 < code_limit }
    requires sound { IsSoundBuffer sink.old }
    ensures slots { OnOk result (PutsAlone flags (load_line_slots flags save.reg.number (saved_load save.reg.class) None (Based 2 (pos below -ℤ pos 8 -ℤ pos (8 * index)))) sink.old sink.new) }
    ensures refused { OnErr result (spoiled_of sink.new ≡ true) }
{
    let rd = Writable {
        reg: Reg::Real(save.reg),
    };
    put_stack_load(
        sink,
        flags,
        rd,
        saved_load(save.reg.class),
        saved_offset(below, index),
    )
}

/// The load of a register that a frame saves, by its class: no frame saves a vector register.
fn saved_load(class: RegClass) -> LoadOP
    ensures { result ≡ saved_load class }
{
    match class {
        RegClass::Int | RegClass::Vector => LoadOP::Ld,
        RegClass::Float => LoadOP::Fld,
    }
}

/// Where a frame has a register that it saves, by its index, in bytes above the stack pointer.
fn saved_offset(below: u32, index: u32) -> i64
    ensures { result ≡ pos below -ℤ pos 8 -ℤ pos (8 * index) }
{
    i64::from(below) - 8 - 8 * i64::from(index)
}

/// Loads the return address and the caller's frame pointer, where the frame has room for them.
fn put_setup(
    sink: &mut MachBuffer<LabelUse>,
    flags: IsaFlags,
    frame: &FrameLayout,
) -> Result<(), OutOfMemory>
    requires frame { sp_to_args_end frame.now < 2 ^ 31 }
    requires room { length (bytes_of sink.old) + 68 < code_limit }
    requires sound { IsSoundBuffer sink.old }
    ensures slots { OnOk result (PutsAlone flags (stack_load_slots flags (setup_loads frame.now)) sink.old sink.new) }
    ensures refused { OnErr result (spoiled_of sink.new ≡ true) }
{
    if frame.setup_area_size == 0 {
        return Ok(());
    }
    let below = frame.sp_to_fp();
    put_above(sink, flags, writable_link_reg(), below + 8)?;
    put_above(sink, flags, writable_fp_reg(), below)?;
    Ok(())
}

fn put_above(
    sink: &mut MachBuffer<LabelUse>,
    flags: IsaFlags,
    rd: WritableReg,
    above: u32,
) -> Result<(), OutOfMemory>
    requires rd { IsRealRegister rd.reg }
    requires room { length (bytes_of sink.old) + 40 < code_limit }
    requires sound { IsSoundBuffer sink.old }
    ensures slots { OnOk result (PutsAlone flags (load_line_slots flags (number_of rd.reg) Ld None (Based 2 (pos above))) sink.old sink.new) }
    ensures refused { OnErr result (spoiled_of sink.new ≡ true) }
{
    put_stack_load(sink, flags, rd, LoadOP::Ld, i64::from(above))
}

/// Loads from so far above the stack pointer: a half by integer registers, where the machine has no load of halves.
pub(crate) fn put_stack_load(
    sink: &mut MachBuffer<LabelUse>,
    flags: IsaFlags,
    rd: WritableReg,
    op: LoadOP,
    offset: i64,
) -> Result<(), OutOfMemory>
    requires rd { IsRealRegister rd.reg }
    requires room { length (bytes_of sink.old) + 40 < code_limit }
    requires sound { IsSoundBuffer sink.old }
    ensures slots { OnOk result (PutsAlone flags (load_line_slots flags (number_of rd.reg) op None (Based 2 offset)) sink.old sink.new) }
    ensures refused { OnErr result (spoiled_of sink.new ≡ true) }
{
    if has_load(flags, op) {
        put_based_load(sink, flags, rd, op, None, stack_reg(), offset)
    } else {
        put_half_load(sink, flags, rd, None, Place::Based(stack_reg(), offset))
    }
}

/// The stack pointer rises by so many bytes.
pub(crate) fn put_stack_step(
    sink: &mut MachBuffer<LabelUse>,
    flags: IsaFlags,
    size: i64,
) -> Result<(), OutOfMemory>
    requires room { length (bytes_of sink.old) + 24 < code_limit }
    requires sound { IsSoundBuffer sink.old }
    ensures slots { OnOk result (PutsAlone flags (stack_step_slots flags size) sink.old sink.new) }
    ensures refused { OnErr result (spoiled_of sink.new ≡ true) }
{
    if size == 0 {
        return Ok(());
    }
    put_some_step(sink, flags, size)
}

fn put_some_step(
    sink: &mut MachBuffer<LabelUse>,
    flags: IsaFlags,
    size: i64,
) -> Result<(), OutOfMemory>
    requires some { size ≢ pos 0 }
    requires room { length (bytes_of sink.old) + 24 < code_limit }
    requires sound { IsSoundBuffer sink.old }
    ensures slots { OnOk result (PutsAlone flags (stack_step_slots flags size) sink.old sink.new) }
    ensures refused { OnErr result (spoiled_of sink.new ≡ true) }
{
    match Imm12::maybe_from_i64(size) {
        Some(imm12) => put_rri(
            sink,
            flags,
            AluOPRRI::Addi,
            writable_stack_reg(),
            stack_reg(),
            imm12,
        ),
        None => put_far_step(sink, flags, size),
    }
}

/// By a number in x31.
fn put_far_step(
    sink: &mut MachBuffer<LabelUse>,
    flags: IsaFlags,
    size: i64,
) -> Result<(), OutOfMemory>
    requires room { length (bytes_of sink.old) + 24 < code_limit }
    requires sound { IsSoundBuffer sink.old }
    ensures slots { OnOk result (PutsAlone flags (far_step_slots flags size) sink.old sink.new) }
    ensures refused { OnErr result (spoiled_of sink.new ≡ true) }
{
    put_number(sink, flags, writable_spilltmp_reg(), size.cast_unsigned())?;
    put_rrr(
        sink,
        flags,
        AluOPRRR::Add,
        writable_stack_reg(),
        stack_reg(),
        spilltmp_reg(),
    )?;
    Ok(())
}
