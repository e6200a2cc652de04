//! Emission of an instruction.

ghost use Rattle.std.specs.Prelude.{◌≡◌, ◌≤◌, ◌^◌, is_some, length, OnOk, OnErr, IfOk, true};
ghost use Rattle.mach_uses.specs.Reach.{CanReach};
ghost use Rattle.mach_buffer.specs.Buffer.{bytes_of, registered_of, spoiled_of};
ghost use Rattle.rv_sequences.specs.Emitted.{pending, CanEmit, IsBounded};
ghost use Rattle.rv_emit.specs.Emission.{Emits};
ghost use Rattle.rv_emit.specs.StackMaps.{with_map, map_given, map_after};
ghost use Rattle.rv_emit.specs.State.{setting_after, setting_beyond};
ghost use Rattle.rv_code.specs.declared.state.EmitVState.{EmitVState as Setting};
ghost use Rattle.rv_inst.specs.Context.{context_by};
ghost use Rattle.rv_inst.specs.Limits.{table_space};
ghost use Rattle.rv_inst.specs.Sizes.{request_of};

use crate::calls::{put_loading_call, put_loading_call_ind};
use crate::island::emit_island_if_needed;
use crate::sequence::put_sequence;
use crate::setting::forgets_setting;
use crate::stack::{put_tail_call, put_tail_jump};
use crate::state::{EmitInfo, EmitState};
use crate::table::put_table;
use mach_buffer::MachBuffer;
use rv_base::{FrameLayout, IsaFlags, OutOfMemory, UserStackMap};
use rv_inst::{EmitError, Inst, LabelUse};
use std::alloc::Global;

/// What can be emitted into a buffer.
pub trait MachInstEmit {
    ghost use Rattle.std.specs.Prelude.{◌≡◌, length, Option as Maybe, OnOk, OnErr, IfErr, true};
    ghost use Rattle.rv_base.specs.declared.call.UserStackMap.{UserStackMap as StackMap};
    ghost use Rattle.rv_inst.specs.declared.error.EmitError.TheVariants as error;
    ghost use Rattle.mach_uses.specs.Reach.{CanReach};
    ghost use Rattle.mach_buffer.specs.Buffer.{bytes_of, registered_of, spoiled_of};
    ghost use Rattle.rv_inst.specs.Context.{Context, context_by};
    ghost use Rattle.rv_sequences.specs.Emitted.{Buffer, pending};
    ghost use Rattle.rv_code.specs.declared.state.EmitVState.{EmitVState as Setting};

    /// What emission asks of the buffer, in a context.
    ghost asks: { Context → Self → Buffer → Type 0 };

    /// What it puts there, in a context, by the vector unit's setting known and the map pending before it.
    ghost puts: { Context → Setting → Maybe StackMap → Self → Buffer → Buffer → Type 0 };

    /// What a compiler may rest on once it is put, in a context, by the map pending before it.
    ghost promises: { Context → Maybe StackMap → Self → Buffer → Buffer → Type 0 };

    /// How much it puts there at most.
    ghost bounds: { Context → Self → Buffer → Buffer → Type 0 };

    /// By the buffer and the vector unit's setting known before it, that known after it, in a context.
    ghost setting_after: { Context → Buffer → Self → Setting → Setting };

    /// By the map that was pending before it, the one that is after it.
    ghost map_after: { Self → Maybe StackMap → Maybe StackMap };

    /// Puts the sequence. A call that returns takes the pending map of the values on the stack, in place of the one that it lists. It
    /// fails only when out of memory; the buffer is then spoiled.
    fn emit(
        &self,
        alloc: Global,
        sink: &mut MachBuffer<LabelUse>,
        info: &EmitInfo,
        state: &mut EmitState,
    ) -> Result<(), EmitError>
        requires { asks (context_by info.now.isa_flags state.old.frame (registered_of sink.old)) self.now sink.old }
        ensures emitted { OnOk result (puts (context_by info.now.isa_flags state.old.frame (registered_of sink.old)) state.old.vstate state.old.user_stack_map self.now sink.old sink.new) }
        ensures promised { OnOk result (promises (context_by info.now.isa_flags state.old.frame (registered_of sink.old)) state.old.user_stack_map self.now sink.old sink.new) }
        ensures bounds { OnOk result (bounds (context_by info.now.isa_flags state.old.frame (registered_of sink.old)) self.now sink.old sink.new) }
        ensures reach { OnOk result (CanReach (length (bytes_of sink.new)) (pending sink.new)) }
        ensures frame { state.new.frame ≡ state.old.frame }
        ensures safepoint { state.new.user_stack_map ≡ map_after self.now state.old.user_stack_map }
        ensures setting { OnOk result (state.new.vstate ≡ setting_after (context_by info.now.isa_flags state.old.frame (registered_of sink.old)) sink.old self.now state.old.vstate) }
        ensures wanting { IfErr result (λ e. e ≡ error.OutOfMemory) }
        ensures spoiled { OnErr result (spoiled_of sink.new ≡ true) };
}

impl MachInstEmit for Inst {
    ghost use Rattle.rv_sequences.specs.Emitted.{CanEmit, IsBounded};
    ghost use Rattle.rv_emit.specs.Emission.{EmitsGiven};
    ghost use Rattle.rv_emit.specs.EmitRuns.{Promises};
    ghost use Rattle.rv_emit.specs.StackMaps.{map_after as left};
    ghost use Rattle.rv_emit.specs.State.{setting_after as after};

    ghost asks = { CanEmit };

    ghost puts = { EmitsGiven };

    ghost promises = { Promises };

    ghost bounds = { IsBounded };

    ghost setting_after = { after };

    ghost map_after = { left };

    fn emit(
        &self,
        alloc: Global,
        sink: &mut MachBuffer<LabelUse>,
        info: &EmitInfo,
        state: &mut EmitState,
    ) -> Result<(), EmitError> {
        let map = take_stack_map(self, &mut state.user_stack_map);
        match put(sink, alloc, info.isa_flags, &state.frame, self, &map) {
            Ok(forgets) => {
                if forgets {
                    state.clobber_vstate();
                }
                Ok(())
            }
            Err(OutOfMemory) => Err(EmitError::OutOfMemory),
        }
    }
}

/// Takes the pending map of the values on the stack, where the instruction is a call that returns.
fn take_stack_map(inst: &Inst, pending: &mut Option<UserStackMap>) -> Option<UserStackMap>
    ensures taken { result ≡ map_given inst.now pending.old }
    ensures left { pending.new ≡ map_after inst.now pending.old }
{
    match inst {
        Inst::Call { .. } => pending.take(),
        Inst::CallInd { .. } => pending.take(),
        _ => None,
    }
}

/// Puts the sequence of an instruction, with the map given to it, or an island where the instruction asks for one. Returns whether
/// nothing is known of the vector unit's setting after it.
fn put(
    sink: &mut MachBuffer<LabelUse>,
    alloc: Global,
    flags: IsaFlags,
    frame: &FrameLayout,
    inst: &Inst,
    stack_map: &Option<UserStackMap>,
) -> Result<bool, OutOfMemory>
    requires { CanEmit (context_by flags frame.now (registered_of sink.old)) inst.now sink.old }
    ensures emitted { OnOk result (Emits (context_by flags frame.now (registered_of sink.old)) (with_map stack_map.now inst.now) sink.old sink.new) }
    ensures bounds { OnOk result (IsBounded (context_by flags frame.now (registered_of sink.old)) inst.now sink.old sink.new) }
    ensures reach { OnOk result (CanReach (length (bytes_of sink.new)) (pending sink.new)) }
    ensures setting { IfOk result (λ forgets. (setting : Setting) → setting_after (context_by flags frame.now (registered_of sink.old)) sink.old inst.now setting ≡ setting_beyond forgets setting) }
    ensures spoiled { OnErr result (spoiled_of sink.new ≡ true) }
{
    if inst.asks_for_island() {
        put_asking(sink, alloc, flags, frame, inst, stack_map)
    } else {
        put_sequence(sink, flags, frame, inst, stack_map)?;
        Ok(forgets_setting(flags, frame, inst))
    }
}

/// Puts an island where one is needed before so many bytes, and the sequence of a branch by a table, of a tail call, or of a call
/// that loads results, whose island is put before x31 is used. Returns whether nothing is known of the vector unit's setting after it.
#[inline(never)]
fn put_asking(
    sink: &mut MachBuffer<LabelUse>,
    alloc: Global,
    flags: IsaFlags,
    frame: &FrameLayout,
    inst: &Inst,
    stack_map: &Option<UserStackMap>,
) -> Result<bool, OutOfMemory>
    requires { CanEmit (context_by flags frame.now (registered_of sink.old)) inst.now sink.old }
    ensures emitted { is_some (request_of (context_by flags frame.now (registered_of sink.old)) inst.now) ≡ true → OnOk result (Emits (context_by flags frame.now (registered_of sink.old)) (with_map stack_map.now inst.now) sink.old sink.new) }
    ensures setting { is_some (request_of (context_by flags frame.now (registered_of sink.old)) inst.now) ≡ true → IfOk result (λ forgets. (setting : Setting) → setting_after (context_by flags frame.now (registered_of sink.old)) sink.old inst.now setting ≡ setting_beyond forgets setting) }
    ensures spoiled { OnErr result (spoiled_of sink.new ≡ true) }
{
    match inst {
        Inst::EmitIsland { needed_space } => {
            let made = emit_island_if_needed(sink, *needed_space)?;
            Ok(made)
        }
        Inst::BrTable {
            index,
            tmp1,
            tmp2,
            targets,
        } => {
            let targets = targets.as_ref();
            let space = table_space(targets.len());
            emit_island_if_needed(sink, space)?;
            put_table(sink, flags, *index, *tmp1, *tmp2, targets.as_slice())?;
            Ok(true)
        }
        Inst::Call { info } => {
            put_loading_call(sink, flags, frame, info.as_ref(), stack_map)?;
            Ok(true)
        }
        Inst::CallInd { info } => {
            put_loading_call_ind(sink, flags, frame, info.as_ref(), stack_map)?;
            Ok(true)
        }
        Inst::ReturnCall { info } => {
            put_tail_call(sink, alloc, flags, frame, info.as_ref())?;
            Ok(true)
        }
        Inst::ReturnCallInd { info } => {
            put_tail_jump(sink, alloc, flags, frame, info.as_ref())?;
            Ok(true)
        }
        _ => Ok(false),
    }
}

/// How many bytes a branch by a table of so many labels may need, with a jump over an island before it.
fn table_space(labels: usize) -> u32
    requires some { 1 ≤ labels }
    requires few { labels ≤ 2 ^ 28 }
    ensures { result ≡ table_space labels }
{
    4 * (12 + 2 * (labels as u32 - 1))
}
