//! The header line of the frame.

ghost use Rattle.std.specs.Prelude.{◌≡◌};
ghost use Rattle.rv_listing.specs.Tokens.{words_after};
ghost use Rattle.rv_listing.specs.Fields.{Makes};
ghost use Rattle.rv_listing.specs.FrameHeader.{saved_register, frame_form};

use crate::fields::{LineError, Token, allowed, field, whole};
use crate::pairs::listed_field;
use rv_base::{FrameLayout, PReg, Writable};
use std::alloc::Global;

impl Token for Writable<PReg> {
    ghost reads = { saved_register };

    #[tactic(auto, unfolding(crate::specs::FrameHeader::saved_register))]
    fn read(w: &[u8]) -> Option<Writable<PReg>> {
        Some(Writable {
            reg: PReg::read(w)?,
        })
    }
}

/// The frame of a header line, with these fields after its name.
#[tactic(auto, unfolding(crate::specs::FrameHeader::frame_form))]
pub fn frame(alloc: Global, rest: &[u8]) -> Result<FrameLayout, LineError>
    ensures { Makes result (frame_form (words_after rest.now)) }
{
    let (tail_args_size, rest) = allowed(field(rest))?;
    let (setup_area_size, rest) = allowed(field(rest))?;
    let (clobber_size, rest) = allowed(field(rest))?;
    let (fixed_frame_storage_size, rest) = allowed(field(rest))?;
    let (stackslots_size, rest) = allowed(field(rest))?;
    let (outgoing_args_size, rest) = allowed(field(rest))?;
    let (clobbered_callee_saves, rest) = listed_field(alloc, rest)?;
    let frame = FrameLayout {
        tail_args_size,
        setup_area_size,
        clobber_size,
        fixed_frame_storage_size,
        stackslots_size,
        outgoing_args_size,
        clobbered_callee_saves,
    };
    allowed(whole(frame, rest))
}
