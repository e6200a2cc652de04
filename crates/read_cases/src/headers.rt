//! What a listing's header says.

use rv_base::{ConstAlign, Constant, FrameLayout, RegClass};
use std::alloc::{AllocError, Global};

/// What the header of a listing says.
#[derive(Clone, Copy, Debug, PartialEq, Eq)]
enum Header {
    /// The frame's sizes in the order of the line, how many registers are saved, and the last of them.
    Frame([u32; 6], usize, Option<(RegClass, u8)>),
    /// How many constants there are, and the last of them.
    Constants(usize, Option<Ends>),
}

/// A constant, by its alignment, its length, and its first byte and its last.
type Ends = (ConstAlign, usize, u8, u8);

fn sizes_of(frame: &FrameLayout) -> [u32; 6] {
    [
        frame.tail_args_size,
        frame.setup_area_size,
        frame.clobber_size,
        frame.fixed_frame_storage_size,
        frame.stackslots_size,
        frame.outgoing_args_size,
    ]
}

fn saved(frame: &FrameLayout) -> (usize, Option<(RegClass, u8)>) {
    let saves = frame.clobbered_callee_saves.as_slice();
    match saves {
        [] => (0, None),
        [.., last] => (saves.len(), Some((last.reg.class, last.reg.number))),
    }
}

/// What the line of a frame says.
pub(crate) fn frame_said(alloc: Global, frame: &FrameLayout) -> Result<String, AllocError> {
    let (count, last) = saved(frame);
    let header = Header::Frame(sizes_of(frame), count, last);
    format!(in alloc; "{header:?}")
}

fn ends_of(constant: &Constant) -> Ends {
    let bytes = constant.bytes.as_slice();
    match bytes {
        [first, .., last] => (constant.align, bytes.len(), *first, *last),
        [only] => (constant.align, 1, *only, *only),
        [] => (constant.align, 0, 0, 0),
    }
}

/// What the lines of constants say.
pub(crate) fn constants_said(alloc: Global, constants: &[Constant]) -> Result<String, AllocError> {
    let last = match constants {
        [] => None,
        [.., last] => Some(ends_of(last)),
    };
    let header = Header::Constants(constants.len(), last);
    format!(in alloc; "{header:?}")
}
