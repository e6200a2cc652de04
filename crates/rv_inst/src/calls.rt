//! Calls that return.

ghost use Rattle.std.specs.Prelude.{◌≡◌, option_map, pos, length};
ghost use Rattle.rv_base.specs.Regs.{number_of};
ghost use Rattle.rv_inst.specs.Operands.{Return, return_of};
ghost use Rattle.rv_inst.specs.Forms.{short_jalr};

use crate::inst::Inst;
use rv_base::{IsaFlags, Reg};
use rv_encode::number_of;

impl Inst {
    /// How many bytes after the start of its line a call returns; none where the instruction is none that returns.
    pub fn return_offset(&self, flags: IsaFlags) -> Option<u32>
        ensures { result ≡ option_map (λ (r : Return). r.offset) (return_of flags self.now) }
    {
        match self {
            Inst::Call { info: _ } => Some(8),
            Inst::CallInd { info } => Some(jump_length(flags, info.as_ref().dest)),
            _ => None,
        }
    }
}

/// How many bytes a call through a register has.
fn jump_length(flags: IsaFlags, dest: Reg) -> u32
    ensures { result ≡ (short_jalr flags 1 (number_of dest) (pos 0)).len }
{
    if flags.has_zca && number_of(dest) != 0 {
        2
    } else {
        4
    }
}
