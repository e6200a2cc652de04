//! How many bytes a line counts for.

ghost use Rattle.std.specs.Prelude.{◌≡◌, ◌+◌, ◌*◌, is_some, count_by, List};
ghost use Rattle.rv_base.specs.declared.constant.Constant.{Constant};
ghost use Rattle.rv_base.specs.declared.flags.IsaFlags.{IsaFlags};
ghost use Rattle.rv_inst.specs.Context.{Context, context_by};
ghost use Rattle.rv_inst.specs.Rules.{is_stacked};
ghost use Rattle.rv_inst.specs.Sizes.{request_of, line_size, inst_sum, line_sum};

use crate::inst::{Inst, Line};
use crate::results::{any_is_loaded, is_on_stack};
use rv_base::{CallRetPair as Def, FrameLayout};

/// What each line counts for, in bytes, whatever it counts for beside. The code of a line that asks for no island, and the veneers of
/// its labels, take at most 84 of them; an island before a line and one inside it take 17 each, the veneers of other lines apart.
pub const LINE_SIZE: u128 = 128;

impl Inst {
    /// Returns whether the instruction asks for an island, where one is needed before so many bytes.
    pub fn asks_for_island(&self) -> bool
        ensures { (context : Context) → result ≡ is_some (request_of context self.now) }
    {
        match self {
            Inst::EmitIsland { needed_space: _ } => true,
            Inst::BrTable {
                index: _,
                tmp1: _,
                tmp2: _,
                targets: _,
            } => true,
            Inst::Call { info } => {
                let info = info.as_ref();
                !info.patchable && any_is_loaded(info.defs.as_slice())
            }
            Inst::CallInd { info } => any_is_loaded(info.as_ref().defs.as_slice()),
            Inst::ReturnCall { info: _ } | Inst::ReturnCallInd { info: _ } => true,
            _ => false,
        }
    }

    fn size_sum(&self, frame: &FrameLayout) -> u128
        ensures { (flags : IsaFlags) (constants : List Constant) → result ≡ inst_sum (context_by flags frame.now constants) self.now }
    {
        match self {
            Inst::EmitIsland { needed_space } => LINE_SIZE + u128::from(*needed_space),
            Inst::BrTable {
                index: _,
                tmp1: _,
                tmp2: _,
                targets,
            } => LINE_SIZE + 8 * (targets.as_ref().len() as u128),
            Inst::Call { info } => results_sum(info.as_ref().defs.as_slice()),
            Inst::CallInd { info } => results_sum(info.as_ref().defs.as_slice()),
            Inst::ReturnCall { info: _ } | Inst::ReturnCallInd { info: _ } => {
                LINE_SIZE + 32 * (frame.clobbered_callee_saves.len() as u128)
            }
            _ => LINE_SIZE,
        }
    }
}

impl Line {
    /// The bytes that the line counts for: no line's code, with what is put for its labels, is longer.
    pub fn size_sum(&self, frame: &FrameLayout) -> u128
        ensures { (flags : IsaFlags) (constants : List Constant) → result ≡ line_sum (context_by flags frame.now constants) self.now }
    {
        match self {
            Line::Inst(inst) => inst.size_sum(frame),
            Line::Bind(_) => LINE_SIZE,
        }
    }
}

/// The bytes that a call with these results counts for.
fn results_sum(defs: &[Def]) -> u128
    ensures { result ≡ line_size + 32 * count_by is_stacked defs.now }
{
    LINE_SIZE + 32 * (defs.iter().filter(|d| is_on_stack(d.location)).count() as u128)
}
