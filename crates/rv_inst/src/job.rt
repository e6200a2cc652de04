//! A job: lines to emit, and for which machine and frame.

use crate::inst::Line;
use rv_base::{Constant, FrameLayout, IsaFlags, List};

/// Lines in order, with the flags of the machine, the frame and the constants that they stand on.
#[derive(Drop)]
pub struct Job {
    pub lines: List<Line>,
    pub flags: IsaFlags,
    pub frame: FrameLayout,
    pub constants: List<Constant>,
}
