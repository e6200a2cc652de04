//! What is shown of a run.

ghost use Rattle.std.specs.Prelude.{◌≡◌, length};

use rv_base::{IsaFlags, List};
use rv_steps::Ending;

/// A run: under which flags, how it ended, after how many steps of its own and of callees, the registers x1 to x31 before and after it,
/// and the text of its steps.
#[derive(Drop)]
pub struct Run {
    pub flags: IsaFlags,
    pub ending: Ending,
    pub steps: u64,
    pub calls: u64,
    /// Whether callees were given, so that the steps of these are shown.
    pub has_callees: bool,
    pub before: List<u64>,
    pub after: List<u64>,
    /// A line for each register of the units that changed.
    pub units: List<u8>,
    /// A line for each row of 16 bytes of memory that changed.
    pub memory: List<u8>,
    /// A line for each step, where that was asked for.
    pub trace: List<u8>,
    ghost before_count: { length before ≡ 31 },
    ghost after_count: { length after ≡ 31 },
}
