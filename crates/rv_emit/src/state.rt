//! What emission knows beside the buffer: the flags, the frame, the setting of the vector unit, and the map of the values on the stack
//! that the next call takes.

use rv_base::{FrameLayout, IsaFlags, UserStackMap};
use rv_code::EmitVState;

/// What is the same for all of a listing.
#[derive(Clone, Copy, Debug)]
pub struct EmitInfo {
    pub isa_flags: IsaFlags,
}

impl EmitInfo {
    ghost use Rattle.std.specs.Prelude.{◌≡◌};

    pub fn new(isa_flags: IsaFlags) -> EmitInfo
        ensures { result.isa_flags ≡ isa_flags }
    {
        EmitInfo { isa_flags }
    }
}

/// What changes from line to line.
pub trait MachInstEmitState {
    ghost use Rattle.std.specs.Prelude.{◌≡◌, Option as Maybe, None};
    ghost use Rattle.rv_base.specs.declared.call.UserStackMap.{UserStackMap as StackMap};
    ghost use Rattle.rv_base.specs.declared.frame.FrameLayout.{FrameLayout as Frame};
    ghost use Rattle.rv_code.specs.declared.state.EmitVState.{EmitVState as Setting};
    ghost use Rattle.rv_code.specs.declared.state.EmitVState.TheVariants.{Unknown};

    /// The frame of the function.
    ghost frame_of: { Self → Frame };

    /// What is known of the vector unit's setting.
    ghost setting: { Self → Setting };

    /// The map of the values on the stack that the next call takes.
    ghost pending_map: { Self → Maybe StackMap };

    fn new(frame: FrameLayout) -> Self
        ensures frame { frame_of result ≡ frame }
        ensures setting { setting result ≡ Unknown }
        ensures safepoint { pending_map result ≡ None };

    /// The next call takes this map of the values on the stack, or none: it is in place of the one that was pending.
    fn pre_safepoint(&mut self, user_stack_map: Option<UserStackMap>)
        ensures frame { frame_of self.new ≡ frame_of self.old }
        ensures setting { setting self.new ≡ setting self.old }
        ensures safepoint { pending_map self.new ≡ user_stack_map };

    /// A label is bound here, or code comes here from elsewhere.
    fn on_new_block(&mut self)
        ensures frame { frame_of self.new ≡ frame_of self.old }
        ensures setting { setting self.new ≡ Unknown }
        ensures safepoint { pending_map self.new ≡ pending_map self.old };

    fn frame_layout(&self) -> &FrameLayout
        ensures { result.now ≡ frame_of self.now };
}

/// The state of emission.
#[derive(Drop)]
pub struct EmitState {
    pub(crate) user_stack_map: Option<UserStackMap>,
    pub(crate) frame: FrameLayout,
    pub(crate) vstate: EmitVState,
}

impl MachInstEmitState for EmitState {
    ghost frame_of = { λ state. state.frame };

    ghost setting = { λ state. state.vstate };

    ghost pending_map = { λ state. state.user_stack_map };

    fn new(frame: FrameLayout) -> EmitState {
        EmitState {
            user_stack_map: None,
            frame,
            vstate: EmitVState::Unknown,
        }
    }

    fn pre_safepoint(&mut self, user_stack_map: Option<UserStackMap>) {
        self.user_stack_map = user_stack_map;
    }

    fn on_new_block(&mut self) {
        self.clobber_vstate();
    }

    fn frame_layout(&self) -> &FrameLayout {
        &self.frame
    }
}

impl EmitState {
    ghost use Rattle.std.specs.Prelude.{◌≡◌};
    ghost use Rattle.rv_code.specs.declared.state.EmitVState.TheVariants.{Unknown};

    /// What is known of the vector unit's setting.
    pub fn vstate(&self) -> EmitVState
        ensures { result ≡ self.now.vstate }
    {
        match self.vstate {
            EmitVState::Unknown => EmitVState::Unknown,
            EmitVState::Known(state) => EmitVState::Known(state),
        }
    }

    /// Forgets what is known of the vector unit's setting.
    pub(crate) fn clobber_vstate(&mut self)
        ensures frame { self.new.frame ≡ self.old.frame }
        ensures setting { self.new.vstate ≡ Unknown }
        ensures safepoint { self.new.user_stack_map ≡ self.old.user_stack_map }
    {
        self.vstate = EmitVState::Unknown;
    }
}
