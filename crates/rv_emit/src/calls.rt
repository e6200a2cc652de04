//! Calls that return, each with the map of the values on the stack that is given to it.

ghost use Rattle.std.specs.Prelude.{◌≡◌, ◌∷◌, [], ◌+◌, ◌*◌, ◌^◌, ◌<◌, ◌-ℤ◌, length, pos, count_by, OnOk, OnErr, true, false};
ghost use Rattle.rv_base.specs.LabelUse.{code_limit};
ghost use Rattle.rv_base.specs.Frame.{sp_to_args_end};
ghost use Rattle.rv_base.specs.Regs.{number_of};
ghost use Rattle.rv_base.specs.declared.flags.IsaFlags.{IsaFlags};
ghost use Rattle.rv_encode.specs.Registers.{IsIntRegister};
ghost use Rattle.mach_buffer.specs.Buffer.{shape_of, bytes_of, allocated_of, spoiled_of};
ghost use Rattle.mach_buffer.specs.Constants.{reserve_of};
ghost use Rattle.mach_uses.specs.Reach.{is_needed};
ghost use Rattle.mach_uses.specs.Labels.{inner_count};
ghost use Rattle.mach_records.specs.declared.records.Event.TheVariants.{PatchableCallSite};
ghost use Rattle.rv_inst.specs.Records.{site_event};
ghost use Rattle.rv_inst.specs.Returns.{result_loads};
ghost use Rattle.rv_inst.specs.Rules.{is_stacked};
ghost use Rattle.rv_inst.specs.Limits.{sequence_limit};
ghost use Rattle.rv_inst.specs.Sizes.{fall, line_space};
ghost use Rattle.rv_sequences.specs.Parts.{PutsAlone, PutsParts};
ghost use Rattle.rv_sequences.specs.Emitted.{IsSoundBuffer, pending};
ghost use Rattle.rv_emit.specs.StackMaps.{call_given};
ghost use Rattle.rv_code.specs.Calls.{map_notes, return_notes, patch_notes, try_pieces, call_pieces, call_ind_pieces};
ghost use Rattle.rv_code.specs.InstParts.{try_slots, call_slots, call_ind_slots, loading_parts};
ghost use Rattle.rv_code.specs.Pieces.{Note, slots_of};
ghost use Rattle.rv_code.specs.Usable.{IsFineTry, AreFineResults};

use crate::results::put_results;
use crate::stack::put_stack_step;
use crate::symbols::{put_call_site, put_call_to};
use mach_buffer::MachBuffer;
use rv_base::{
    CallInfo, ExternalName, FrameLayout, IsaFlags, OutOfMemory, Reg, TryCallInfo, UserStackMap,
    writable_link_reg,
};
use rv_imms::Imm12;
use rv_inst::LabelUse;
use rv_sequences::{put_jalr, put_jump};

/// A call of a symbol that loads no result: control goes on after it, or at a label.
pub(crate) fn put_call(
    sink: &mut MachBuffer<LabelUse>,
    flags: IsaFlags,
    frame: &FrameLayout,
    info: &CallInfo<ExternalName>,
    stack_map: &Option<UserStackMap>,
) -> Result<(), OutOfMemory>
    requires frame { sp_to_args_end frame.now < 2 ^ 31 }
    requires fine { IsFineTry info.now.try_call_info }
    requires room { length (bytes_of sink.old) + sequence_limit < code_limit }
    requires sound { IsSoundBuffer sink.old }
    ensures slots { OnOk result (PutsAlone flags (call_slots flags frame.now (call_given stack_map.now info.now) (try_pieces info.now.try_call_info)) sink.old sink.new) }
    ensures refused { OnErr result (spoiled_of sink.new ≡ true) }
{
    begin_call(sink, flags, frame, info, stack_map)?;
    put_continuation(sink, flags, &info.try_call_info)?;
    Ok(())
}

/// A call of the function at the address in a register, where it loads no result.
pub(crate) fn put_call_ind(
    sink: &mut MachBuffer<LabelUse>,
    flags: IsaFlags,
    frame: &FrameLayout,
    info: &CallInfo<Reg>,
    stack_map: &Option<UserStackMap>,
) -> Result<(), OutOfMemory>
    requires frame { sp_to_args_end frame.now < 2 ^ 31 }
    requires fine { IsFineTry info.now.try_call_info }
    requires dest { IsIntRegister info.now.dest }
    requires room { length (bytes_of sink.old) + sequence_limit < code_limit }
    requires sound { IsSoundBuffer sink.old }
    ensures slots { OnOk result (PutsAlone flags (call_ind_slots flags frame.now (call_given stack_map.now info.now) (try_pieces info.now.try_call_info)) sink.old sink.new) }
    ensures refused { OnErr result (spoiled_of sink.new ≡ true) }
{
    begin_call_ind(sink, flags, frame, info, stack_map)?;
    put_continuation(sink, flags, &info.try_call_info)?;
    Ok(())
}

/// A call of a symbol that loads results: before the loads comes an island where one is needed.
pub(crate) fn put_loading_call(
    sink: &mut MachBuffer<LabelUse>,
    flags: IsaFlags,
    frame: &FrameLayout,
    info: &CallInfo<ExternalName>,
    stack_map: &Option<UserStackMap>,
) -> Result<(), OutOfMemory>
    requires frame { sp_to_args_end frame.now < 2 ^ 31 }
    requires fine { IsFineTry info.now.try_call_info }
    requires results { AreFineResults info.now.defs }
    requires calm { is_needed (length (bytes_of sink.old)) line_space (pending sink.old) ≡ false }
    requires few { allocated_of sink.old < inner_count }
    requires room { length (bytes_of sink.old) + 32 * count_by is_stacked info.now.defs + reserve_of (shape_of sink.old) + 8 * length (pending sink.old) + 160 < code_limit }
    requires sound { IsSoundBuffer sink.old }
    ensures parts { OnOk result (PutsParts flags (loading_parts flags (call_pieces flags frame.now (call_given stack_map.now info.now)) (result_loads info.now.defs) info.now.try_call_info) sink.old sink.new) }
    ensures refused { OnErr result (spoiled_of sink.new ≡ true) }
{
    begin_call(sink, flags, frame, info, stack_map)?;
    put_results(sink, flags, info.defs.as_slice(), &info.try_call_info)
}

/// One of the function at the address in a register.
pub(crate) fn put_loading_call_ind(
    sink: &mut MachBuffer<LabelUse>,
    flags: IsaFlags,
    frame: &FrameLayout,
    info: &CallInfo<Reg>,
    stack_map: &Option<UserStackMap>,
) -> Result<(), OutOfMemory>
    requires frame { sp_to_args_end frame.now < 2 ^ 31 }
    requires fine { IsFineTry info.now.try_call_info }
    requires dest { IsIntRegister info.now.dest }
    requires results { AreFineResults info.now.defs }
    requires calm { is_needed (length (bytes_of sink.old)) line_space (pending sink.old) ≡ false }
    requires few { allocated_of sink.old < inner_count }
    requires room { length (bytes_of sink.old) + 32 * count_by is_stacked info.now.defs + reserve_of (shape_of sink.old) + 8 * length (pending sink.old) + 160 < code_limit }
    requires sound { IsSoundBuffer sink.old }
    ensures parts { OnOk result (PutsParts flags (loading_parts flags (call_ind_pieces frame.now (call_given stack_map.now info.now)) (result_loads info.now.defs) info.now.try_call_info) sink.old sink.new) }
    ensures refused { OnErr result (spoiled_of sink.new ≡ true) }
{
    begin_call_ind(sink, flags, frame, info, stack_map)?;
    put_results(sink, flags, info.defs.as_slice(), &info.try_call_info)
}

/// The two words of a call of a symbol, which comes back to the byte after them, and the fall of the stack pointer there.
fn begin_call(
    sink: &mut MachBuffer<LabelUse>,
    flags: IsaFlags,
    frame: &FrameLayout,
    info: &CallInfo<ExternalName>,
    stack_map: &Option<UserStackMap>,
) -> Result<(), OutOfMemory>
    requires frame { sp_to_args_end frame.now < 2 ^ 31 }
    requires room { length (bytes_of sink.old) + sequence_limit < code_limit }
    requires sound { IsSoundBuffer sink.old }
    ensures slots { OnOk result (PutsAlone flags (call_slots flags frame.now (call_given stack_map.now info.now) []) sink.old sink.new) }
    ensures refused { OnErr result (spoiled_of sink.new ≡ true) }
{
    let start = sink.cur_offset();
    put_call_to(sink, writable_link_reg(), writable_link_reg(), info.dest)?;
    put_return(sink, frame, stack_map, &info.try_call_info)?;
    put_stack_step(sink, flags, fallen(info.callee_pop_size))?;
    let end = sink.cur_offset();
    put_patchable(sink, info.patchable, end - start)?;
    Ok(())
}

/// The word of a call of the function at the address in a register, and the fall of the stack pointer after it.
fn begin_call_ind(
    sink: &mut MachBuffer<LabelUse>,
    flags: IsaFlags,
    frame: &FrameLayout,
    info: &CallInfo<Reg>,
    stack_map: &Option<UserStackMap>,
) -> Result<(), OutOfMemory>
    requires frame { sp_to_args_end frame.now < 2 ^ 31 }
    requires dest { IsIntRegister info.now.dest }
    requires room { length (bytes_of sink.old) + sequence_limit < code_limit }
    requires sound { IsSoundBuffer sink.old }
    ensures slots { OnOk result (PutsAlone flags (call_ind_slots flags frame.now (call_given stack_map.now info.now) []) sink.old sink.new) }
    ensures refused { OnErr result (spoiled_of sink.new ≡ true) }
{
    put_jalr(sink, flags, writable_link_reg(), info.dest, Imm12::ZERO)?;
    put_return(sink, frame, stack_map, &info.try_call_info)?;
    put_stack_step(sink, flags, fallen(info.callee_pop_size))?;
    Ok(())
}

/// How far the stack pointer rises where it falls so far.
fn fallen(popped: u32) -> i64
    ensures { result ≡ fall popped }
{
    -i64::from(popped)
}

/// The records of a call where it returns.
fn put_return(
    sink: &mut MachBuffer<LabelUse>,
    frame: &FrameLayout,
    stack_map: &Option<UserStackMap>,
    try_call_info: &Option<TryCallInfo>,
) -> Result<(), OutOfMemory>
    requires frame { sp_to_args_end frame.now < 2 ^ 31 }
    requires sound { IsSoundBuffer sink.old }
    ensures slots { OnOk result ((flags : IsaFlags) → PutsAlone flags (slots_of flags (return_notes frame.now stack_map.now try_call_info.now)) sink.old sink.new) }
    ensures refused { OnErr result (spoiled_of sink.new ≡ true) }
{
    put_stack_map(sink, frame, stack_map)?;
    put_site(sink, frame, try_call_info)?;
    Ok(())
}

/// The record of the values on the stack, where there is a map of them: of the frame up to its pointer.
fn put_stack_map(
    sink: &mut MachBuffer<LabelUse>,
    frame: &FrameLayout,
    stack_map: &Option<UserStackMap>,
) -> Result<(), OutOfMemory>
    requires frame { sp_to_args_end frame.now < 2 ^ 31 }
    requires sound { IsSoundBuffer sink.old }
    ensures slots { OnOk result ((flags : IsaFlags) → PutsAlone flags (slots_of flags (map_notes frame.now stack_map.now)) sink.old sink.new) }
    ensures refused { OnErr result (spoiled_of sink.new ≡ true) }
{
    match stack_map {
        Some(map) => {
            let offset = sink.cur_offset();
            sink.push_user_stack_map(offset, frame.sp_to_fp(), map)?;
            Ok(())
        }
        None => Ok(()),
    }
}

/// The record of a call site, with its handlers where the call ends its block.
fn put_site(
    sink: &mut MachBuffer<LabelUse>,
    frame: &FrameLayout,
    try_call_info: &Option<TryCallInfo>,
) -> Result<(), OutOfMemory>
    requires frame { sp_to_args_end frame.now < 2 ^ 31 }
    requires sound { IsSoundBuffer sink.old }
    ensures slots { OnOk result ((flags : IsaFlags) → PutsAlone flags (slots_of flags (Note (site_event frame.now try_call_info.now) ∷ [])) sink.old sink.new) }
    ensures refused { OnErr result (spoiled_of sink.new ≡ true) }
{
    match try_call_info {
        Some(info) => {
            sink.add_try_call_site(Some(frame.sp_to_fp()), info.handlers.as_slice())?;
            Ok(())
        }
        None => put_call_site(sink),
    }
}

/// The record of a call of so many bytes that may be patched, where it is one.
fn put_patchable(
    sink: &mut MachBuffer<LabelUse>,
    patchable: bool,
    size: u32,
) -> Result<(), OutOfMemory>
    requires sound { IsSoundBuffer sink.old }
    ensures slots { OnOk result ((flags : IsaFlags) → PutsAlone flags (slots_of flags (patch_notes patchable size)) sink.old sink.new) }
    ensures refused { OnErr result (spoiled_of sink.new ≡ true) }
{
    if patchable {
        put_patch(sink, size)?;
    }
    Ok(())
}

fn put_patch(sink: &mut MachBuffer<LabelUse>, size: u32) -> Result<(), OutOfMemory>
    requires sound { IsSoundBuffer sink.old }
    ensures slots { OnOk result ((flags : IsaFlags) → PutsAlone flags (slots_of flags (Note (PatchableCallSite size) ∷ [])) sink.old sink.new) }
    ensures refused { OnErr result (spoiled_of sink.new ≡ true) }
{
    sink.add_patchable_call_site(size)?;
    Ok(())
}

/// A jump to where a call goes on, where it ends its block.
pub(crate) fn put_continuation(
    sink: &mut MachBuffer<LabelUse>,
    flags: IsaFlags,
    try_call_info: &Option<TryCallInfo>,
) -> Result<(), OutOfMemory>
    requires fine { IsFineTry try_call_info.now }
    requires room { length (bytes_of sink.old) + 4 < code_limit }
    requires sound { IsSoundBuffer sink.old }
    ensures slots { OnOk result (PutsAlone flags (try_slots flags try_call_info.now) sink.old sink.new) }
    ensures refused { OnErr result (spoiled_of sink.new ≡ true) }
{
    match try_call_info {
        Some(info) => put_jump(sink, flags, info.continuation),
        None => Ok(()),
    }
}
