//! The code of a job, and what is reported of it. Offsets and lengths are in bytes from the code's start.

ghost use Rattle.std.specs.Prelude.{length, ◌<◌, ◌^◌};

pub use mach_records::{
    ConstPlace, FinalizedMachExceptionHandler, MachPatchable, MachReloc, MachStackMap, MachTrap,
    MachTryCallSite, MachUnwind,
};
pub use mach_uses::LabelPlace;
use rv_base::List;

/// Where the bytes of a line begin and end.
#[derive(Clone, Copy, Debug, PartialEq, Eq)]
pub struct LineSpan {
    /// The line's index in the listing, from 0.
    pub index: usize,
    /// The offset of its first byte, in bytes from the code's start. An island before the line is not its own.
    pub start: u32,
    /// The offset after its last byte; that of a line without bytes is its start.
    pub end: u32,
}

/// Where a call returns to.
#[derive(Clone, Copy, Debug, PartialEq, Eq)]
pub struct CallReturn {
    /// The index of its line.
    pub index: usize,
    /// In bytes from the code's start.
    pub offset: u32,
}

/// Machine code, with a span for each line, a place for each label and each constant, a record for each place that a linker
/// fills, each instruction that may trap, each call and each step in the making of the frame, and where the last line ends.
#[derive(Drop)]
pub struct Code {
    pub bytes: List<u8>,
    /// One span a line, in order.
    pub lines: List<LineSpan>,
    /// The return of each call, in the order of their lines.
    pub returns: List<CallReturn>,
    /// The offset of each label that the listing binds, in order of binding.
    pub labels: List<LabelPlace>,
    /// The offset of each constant that is named, in order of place.
    pub constants: List<ConstPlace>,
    /// What a linker fills, in the order in which it was recorded.
    pub relocs: List<MachReloc>,
    /// The offset and the cause of each instruction that may trap, in the order in which they were recorded.
    pub traps: List<MachTrap>,
    /// The offset of each call site, in the order in which they were recorded: of a tail call, that of its last eight bytes.
    pub call_sites: List<u32>,
    /// The call sites of calls that may throw, with their handlers, in the order in which they were recorded.
    pub try_call_sites: List<MachTryCallSite>,
    /// The calls that may be patched, in the order in which they were recorded.
    pub patchable_call_sites: List<MachPatchable>,
    /// The values on the stack where calls return, in the order in which they were recorded.
    pub stack_maps: List<MachStackMap>,
    /// The steps in the making of the frame, in the order in which they were recorded.
    pub unwinds: List<MachUnwind>,
    /// The offset after the last line; veneers may stand after it.
    pub end: u32,
    ghost small: { length bytes < 2 ^ 32 },
}
