//! What emission still knows of the vector unit's setting after an instruction's sequence.

ghost use Rattle.std.specs.Prelude.{◌≡◌, ◌<◌, ◌^◌, ◌&&◌, not, List, None};
ghost use Rattle.rv_base.specs.declared.constant.Constant.{Constant};
ghost use Rattle.rv_base.specs.Frame.{sp_to_args_end};
ghost use Rattle.rv_inst.specs.Addresses.{location_of, is_splittable};
ghost use Rattle.rv_inst.specs.Context.{context_by};
ghost use Rattle.rv_inst.specs.Descriptions.{asked_of};
ghost use Rattle.rv_inst.specs.Operands.{family_of};
ghost use Rattle.rv_inst.specs.Sizes.{request_of};
ghost use Rattle.rv_inst.specs.declared.inst.Family.TheVariants.{Memory, Control};
ghost use Rattle.rv_code.specs.declared.state.EmitVState.{EmitVState as Setting};
ghost use Rattle.rv_sequences.specs.Emitted.{Buffer};
ghost use Rattle.rv_code.specs.Forgetting.{is_inline};
ghost use Rattle.rv_emit.specs.State.{setting_after, setting_beyond};
ghost use Rattle.rv_code.specs.Usable.{IsFineAddress, KeepsRules};

use rv_base::{AMode, FrameLayout, IsaFlags};
use rv_imms::{imm_max, imm_min};
use rv_inst::{CondBrTarget, Family, Inst};

/// Returns whether nothing is known of the setting after the sequence of an instruction that asks for no island: a `jalr` stands
/// in it, or a `jal` of four bytes.
#[tactic(auto, using(crate::proofs::Forgetting::calls_forget))]
pub(crate) fn forgets_setting(flags: IsaFlags, frame: &FrameLayout, inst: &Inst) -> bool
    requires frame { sp_to_args_end frame.now < 2 ^ 31 }
    requires rule { (constants : List Constant) × KeepsRules constants inst.now }
    ensures { (constants : List Constant) → request_of (context_by flags frame.now constants) inst.now ≡ None → (b : Buffer) (setting : Setting) → setting_after (context_by flags frame.now constants) b inst.now setting ≡ setting_beyond result setting }
{
    match inst.family() {
        Family::Pseudo => false,
        Family::Integer => facts_jump(flags, inst),
        Family::Memory => memory_forgets(flags, frame, inst),
        Family::Control => control_forgets(flags, inst),
        // Each loop jumps back to its start.
        Family::Loop => !flags.has_zca,
        Family::Symbols => facts_jump(flags, inst),
        Family::Calls => true,
        Family::Float => false,
    }
}

/// Returns whether the code of an instruction whose description gives it jumps in four bytes, over a constant that stands among it or back.
fn facts_jump(flags: IsaFlags, inst: &Inst) -> bool
    ensures { result ≡ ((asked_of inst.now).jumps && not flags.has_zca) }
{
    inst.asked().jumps && !flags.has_zca
}

fn memory_forgets(flags: IsaFlags, frame: &FrameLayout, inst: &Inst) -> bool
    requires frame { sp_to_args_end frame.now < 2 ^ 31 }
    requires rule { (constants : List Constant) × KeepsRules constants inst.now }
    ensures { family_of inst.now ≡ Memory → (constants : List Constant) (b : Buffer) (setting : Setting) → setting_after (context_by flags frame.now constants) b inst.now setting ≡ setting_beyond result setting }
{
    match inst {
        Inst::Load { from, .. } => offset_forgets(flags, frame, *from),
        Inst::Store { to, .. } => offset_forgets(flags, frame, *to),
        Inst::LoadAddr { mem, .. } => offset_forgets(flags, frame, *mem),
        _ => facts_jump(flags, inst),
    }
}

/// An offset that stands there is jumped over, too.
fn offset_forgets(flags: IsaFlags, frame: &FrameLayout, mode: AMode) -> bool
    requires frame { sp_to_args_end frame.now < 2 ^ 31 }
    requires fine { (constants : List Constant) × IsFineAddress constants mode }
    ensures { result ≡ (is_inline (location_of frame.now mode) && not flags.has_zca) }
{
    has_inline_offset(frame, mode) && !flags.has_zca
}

fn control_forgets(flags: IsaFlags, inst: &Inst) -> bool
    ensures { family_of inst.now ≡ Control → (frame : FrameLayout) (constants : List Constant) → request_of (context_by flags frame constants) inst.now ≡ None → (b : Buffer) (setting : Setting) → setting_after (context_by flags frame constants) b inst.now setting ≡ setting_beyond result setting }
{
    match inst {
        Inst::Ret | Inst::BrTable { .. } | Inst::Jalr { .. } => true,
        Inst::Jal { label: _ } => !flags.has_zca,
        Inst::CondBr {
            taken: CondBrTarget::Label(_),
            not_taken: CondBrTarget::Label(_),
            ..
        } => !flags.has_zca,
        _ => false,
    }
}

/// Returns whether the offset of an address stands among the code.
fn has_inline_offset(frame: &FrameLayout, mode: AMode) -> bool
    requires frame { sp_to_args_end frame.now < 2 ^ 31 }
    requires fine { (constants : List Constant) × IsFineAddress constants mode }
    ensures { result ≡ is_inline (location_of frame.now mode) }
{
    match mode {
        AMode::RegOffset(_, offset) => is_unsplittable(offset),
        AMode::SPOffset(offset) => is_unsplittable(offset),
        AMode::FPOffset(offset) => is_unsplittable(offset),
        AMode::SlotOffset(_) => is_unsplittable(mode.get_offset(frame)),
        AMode::IncomingArg(_) => is_unsplittable(mode.get_offset(frame)),
        AMode::Const(_) | AMode::Label(_) => false,
    }
}

/// Returns whether no two immediates make an offset.
fn is_unsplittable(offset: i64) -> bool
    ensures { result ≡ not (is_splittable offset) }
{
    offset < imm_min() || offset > imm_max()
}
