//! Steps in the making of a frame.

ghost use Rattle.std.specs.Prelude.{◌≡◌, codes};
ghost use Rattle.rv_listing.specs.Tokens.{words_after};
ghost use Rattle.rv_listing.specs.UnwindSteps.{by_kind, step_of};

use crate::fields::{field, whole};
use crate::tokens::{is, next_word};
use rv_base::UnwindInst;

#[tactic(auto, unfolding(crate::specs::UnwindSteps::by_kind))]
fn push(rest: &[u8]) -> Option<UnwindInst>
    ensures { result ≡ by_kind (codes "push") (words_after rest.now) }
{
    let (offset_upward_to_caller_sp, rest) = field(rest)?;
    whole(
        UnwindInst::PushFrameRegs {
            offset_upward_to_caller_sp,
        },
        rest,
    )
}

#[tactic(auto, unfolding(crate::specs::UnwindSteps::by_kind))]
fn new_frame(rest: &[u8]) -> Option<UnwindInst>
    ensures { result ≡ by_kind (codes "frame") (words_after rest.now) }
{
    let (offset_upward_to_caller_sp, rest) = field(rest)?;
    let (offset_downward_to_clobbers, rest) = field(rest)?;
    whole(
        UnwindInst::DefineNewFrame {
            offset_upward_to_caller_sp,
            offset_downward_to_clobbers,
        },
        rest,
    )
}

#[tactic(auto, unfolding(crate::specs::UnwindSteps::by_kind))]
fn alloc(rest: &[u8]) -> Option<UnwindInst>
    ensures { result ≡ by_kind (codes "alloc") (words_after rest.now) }
{
    let (size, rest) = field(rest)?;
    whole(UnwindInst::StackAlloc { size }, rest)
}

#[tactic(auto, unfolding(crate::specs::UnwindSteps::by_kind))]
fn save(rest: &[u8]) -> Option<UnwindInst>
    ensures { result ≡ by_kind (codes "save") (words_after rest.now) }
{
    let (clobber_offset, rest) = field(rest)?;
    let (reg, rest) = field(rest)?;
    whole(
        UnwindInst::SaveReg {
            clobber_offset,
            reg,
        },
        rest,
    )
}

// The step of a kind, with these fields after it.
#[tactic(auto, unfolding(crate::specs::UnwindSteps::by_kind))]
fn by_kind(kind: &[u8], rest: &[u8]) -> Option<UnwindInst>
    ensures { result ≡ by_kind kind.now (words_after rest.now) }
{
    if is(b"push", kind) {
        push(rest)
    } else if is(b"frame", kind) {
        new_frame(rest)
    } else if is(b"alloc", kind) {
        alloc(rest)
    } else if is(b"save", kind) {
        save(rest)
    } else {
        None
    }
}

/// The step that these words say: its kind, and its fields.
pub fn step(rest: &[u8]) -> Option<UnwindInst>
    ensures { result ≡ step_of (words_after rest.now) }
{
    let (kind, rest) = next_word(rest)?;
    by_kind(kind, rest)
}
