//! The frame of a job.

ghost use Rattle.std.specs.Prelude.{◌≡◌, IfOk};

use rv_base::{FrameLayout, List, OutOfMemory};
use std::alloc::Global;

/// The same frame once more.
pub fn copy_of(alloc: Global, frame: &FrameLayout) -> Result<FrameLayout, OutOfMemory>
    ensures { IfOk result (λ copy. copy ≡ frame.now) }
{
    let mut saves = Vec::new(alloc);
    saves.extend_from_slice(frame.clobbered_callee_saves.as_slice())?;
    Ok(FrameLayout {
        tail_args_size: frame.tail_args_size,
        setup_area_size: frame.setup_area_size,
        clobber_size: frame.clobber_size,
        fixed_frame_storage_size: frame.fixed_frame_storage_size,
        stackslots_size: frame.stackslots_size,
        outgoing_args_size: frame.outgoing_args_size,
        clobbered_callee_saves: List::from_vec(saves),
    })
}
