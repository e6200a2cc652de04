//! What the lines of a job are read in.

ghost use Rattle.rv_inst.specs.Context.{Context as Shown, context_by};

use rv_base::{Constant, FrameLayout, IsaFlags};
use std::marker::Model;

/// The machine's flags, the frame and the constants: what the lines of a job are read in.
#[derive(Drop)]
pub struct Context<'a> {
    pub flags: IsaFlags,
    pub frame: &'a FrameLayout,
    pub constants: &'a [Constant],
}

impl<'a> Model for Context<'a> {
    ghost Value = { Shown };

    ghost view = { λ c. context_by c.flags c.frame.now c.constants.now };
}
