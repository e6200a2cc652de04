//! One line after another into the buffer.

ghost use Rattle.std.specs.Prelude.{◌≡◌, ◌+◌, ◌*◌, ◌<◌, length, IfOk, OnOk, None};
ghost use Rattle.rv_base.specs.LabelUse.{code_limit};
ghost use Rattle.rv_inst.specs.declared.inst.Line.TheVariants.{Inst as Put, Bind};
ghost use Rattle.rv_inst.specs.Context.{context_by};
ghost use Rattle.rv_inst.specs.Sizes.{line_space};
ghost use Rattle.mach_uses.specs.Reach.{CanReach, is_needed};
ghost use Rattle.mach_buffer.specs.Buffer.{shape_of, bytes_of, allocated_of, place_of, registered_of};
ghost use Rattle.mach_buffer.specs.Constants.{reserve_of};
ghost use Rattle.mach_uses.specs.Labels.{inner_count};
ghost use Rattle.mach_labels.specs.Table.{first_inner};
ghost use Rattle.rv_sequences.specs.Emitted.{IsSoundBuffer, pending, IslandIfNeeded, CanEmit};
ghost use Rattle.rv_emit.specs.Emission.{EmitsIn};
ghost use Rattle.rv_emit.specs.StackMaps.{with_map};
ghost use Rattle.rv_code.specs.declared.state.EmitVState.TheVariants.{Unknown};
ghost use Rattle.rv_emit.specs.State.{setting_after, setting_beyond};
ghost use Rattle.rv_listing.specs.CodeRanges.{SpanFits};
ghost use Rattle.rv_asm.specs.LinesInBuffer.{CanPut, InstPut, BindPut, InstSetting, LinePut, LineSetting};

use mach_buffer::{LINE_SPACE, MachBuffer};
use mach_records::copy_of_map;
use rv_base::{MachLabel, OutOfMemory, UserStackMap};
use rv_emit::{EmitInfo, EmitState, MachInstEmit, MachInstEmitState, emit_island_if_needed};
use rv_inst::{Inst, LabelUse, Line, LineSpan};
use std::alloc::Global;

/// Puts a line, after an island where one is needed, and gives its span.
pub fn put_line(
    alloc: Global,
    sink: &mut MachBuffer<LabelUse>,
    info: &EmitInfo,
    state: &mut EmitState,
    index: usize,
    line: &Line,
) -> Result<LineSpan, OutOfMemory>
    requires { CanPut (context_by info.now.isa_flags state.old.frame (registered_of sink.old)) line.now sink.old }
    ensures index { IfOk result (λ span. span.index ≡ index) }
    ensures fits { IfOk result SpanFits }
    ensures put { IfOk result (λ span. LinePut (context_by info.now.isa_flags state.old.frame (registered_of sink.old)) state.old.vstate line.now sink.old sink.new span) }
    ensures frame { state.new.frame ≡ state.old.frame }
    ensures setting { OnOk result (LineSetting (context_by info.now.isa_flags state.old.frame (registered_of sink.old)) line.now sink.old state.old.vstate state.new.vstate) }
{
    match line {
        Line::Inst(inst) => put_inst(alloc, sink, info, state, index, inst),
        Line::Bind(label) => put_bind(sink, state, index, *label),
    }
}

/// Binds a label here.
fn put_bind(
    sink: &mut MachBuffer<LabelUse>,
    state: &mut EmitState,
    index: usize,
    label: MachLabel,
) -> Result<LineSpan, OutOfMemory>
    requires listed { label.number < first_inner }
    requires unbound { place_of sink.old label.number ≡ None }
    requires sound { IsSoundBuffer sink.old }
    ensures index { IfOk result (λ span. span.index ≡ index) }
    ensures fits { IfOk result SpanFits }
    ensures put { IfOk result (λ span. BindPut label sink.old sink.new span) }
    ensures frame { state.new.frame ≡ state.old.frame }
    ensures setting { OnOk result (state.new.vstate ≡ Unknown) }
{
    let here = sink.cur_offset();
    sink.bind_label(label)?;
    state.on_new_block();
    Ok(LineSpan {
        index,
        start: here,
        end: here,
    })
}

/// Emits an instruction, after an island where one is needed.
fn put_inst(
    alloc: Global,
    sink: &mut MachBuffer<LabelUse>,
    info: &EmitInfo,
    state: &mut EmitState,
    index: usize,
    inst: &Inst,
) -> Result<LineSpan, OutOfMemory>
    requires { CanPut (context_by info.now.isa_flags state.old.frame (registered_of sink.old)) (Put inst.now) sink.old }
    ensures index { IfOk result (λ span. span.index ≡ index) }
    ensures fits { IfOk result SpanFits }
    ensures put { IfOk result (λ span. InstPut (context_by info.now.isa_flags state.old.frame (registered_of sink.old)) state.old.vstate inst.now sink.old sink.new span) }
    ensures frame { state.new.frame ≡ state.old.frame }
    ensures setting { OnOk result (InstSetting (context_by info.now.isa_flags state.old.frame (registered_of sink.old)) inst.now sink.old state.old.vstate state.new.vstate) }
{
    emit_needed_island(sink, state)?;
    let start = sink.cur_offset();
    emit(alloc, sink, info, state, inst)?;
    let end = sink.cur_offset();
    Ok(LineSpan { index, start, end })
}

/// Puts an island where one is needed before a line. Returns whether one was put.
fn emit_needed_island(
    sink: &mut MachBuffer<LabelUse>,
    state: &mut EmitState,
) -> Result<bool, OutOfMemory>
    requires sound { IsSoundBuffer sink.old }
    requires reach { CanReach (length (bytes_of sink.old)) (pending sink.old) }
    requires few { allocated_of sink.old < inner_count }
    requires room { length (bytes_of sink.old) + reserve_of (shape_of sink.old) + 8 * length (pending sink.old) + 32 < code_limit }
    ensures room { IfOk result (λ made. IslandIfNeeded line_space sink.old sink.new made) }
    ensures frame { state.new.frame ≡ state.old.frame }
    ensures setting { OnOk result (state.new.vstate ≡ setting_beyond (is_needed (length (bytes_of sink.old)) line_space (pending sink.old)) state.old.vstate) }
{
    let made = emit_island_if_needed(sink, LINE_SPACE)?;
    if made {
        state.on_new_block();
    }
    Ok(made)
}

/// Emits an instruction: a call with the map of the values on the stack that it lists.
fn emit(
    alloc: Global,
    sink: &mut MachBuffer<LabelUse>,
    info: &EmitInfo,
    state: &mut EmitState,
    inst: &Inst,
) -> Result<(), OutOfMemory>
    requires { CanEmit (context_by info.now.isa_flags state.old.frame (registered_of sink.old)) inst.now sink.old }
    ensures emitted { OnOk result (EmitsIn (context_by info.now.isa_flags state.old.frame (registered_of sink.old)) state.old.vstate inst.now sink.old sink.new) }
    ensures reach { OnOk result (CanReach (length (bytes_of sink.new)) (pending sink.new)) }
    ensures frame { state.new.frame ≡ state.old.frame }
    ensures setting { OnOk result (state.new.vstate ≡ setting_after (context_by info.now.isa_flags state.old.frame (registered_of sink.old)) sink.old inst.now state.old.vstate) }
{
    give_stack_map(alloc, state, inst)?;
    match inst.emit(alloc, sink, info, state) {
        Ok(()) => Ok(()),
        Err(_) => Err(OutOfMemory),
    }
}

/// Makes the map of the values on the stack pending that a call lists.
fn give_stack_map(alloc: Global, state: &mut EmitState, inst: &Inst) -> Result<(), OutOfMemory>
    ensures safepoint { OnOk result (with_map state.new.user_stack_map inst.now ≡ inst.now) }
    ensures frame { state.new.frame ≡ state.old.frame }
    ensures setting { state.new.vstate ≡ state.old.vstate }
{
    match inst {
        Inst::Call { info } => set_stack_map(alloc, state, &info.as_ref().stack_map),
        Inst::CallInd { info } => set_stack_map(alloc, state, &info.as_ref().stack_map),
        _ => Ok(()),
    }
}

fn set_stack_map(
    alloc: Global,
    state: &mut EmitState,
    stack_map: &Option<UserStackMap>,
) -> Result<(), OutOfMemory>
    ensures safepoint { OnOk result (state.new.user_stack_map ≡ stack_map.now) }
    ensures frame { state.new.frame ≡ state.old.frame }
    ensures setting { state.new.vstate ≡ state.old.vstate }
{
    match stack_map {
        Some(map) => {
            let copy = copy_of_map(map, alloc)?;
            state.pre_safepoint(Some(copy));
            Ok(())
        }
        None => {
            state.pre_safepoint(None);
            Ok(())
        }
    }
}
