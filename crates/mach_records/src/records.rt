//! What is recorded at offsets, beside uses of labels.

use rv_base::{
    ExternalName, List, Reloc, TrapCode, TryCallHandler, UnwindInst, UserStackMap, VCodeConstant,
};

/// What a relocation refers to, once labels have their places.
#[derive(Clone, Copy, Debug, PartialEq, Eq)]
pub enum FinalizedRelocTarget {
    /// A symbol.
    ExternalName(ExternalName),
    /// A place in the code itself, in bytes from its start.
    Func(u32),
}

/// Where control goes where a callee throws, once labels have their places: the tag, where it asks for one, and an offset in bytes
/// from the code's start.
#[derive(Clone, Copy, Debug, PartialEq, Eq)]
pub enum FinalizedMachExceptionHandler {
    /// An exception with the tag.
    Tag(u32, u32),
    /// Any exception that no handler before it takes.
    Default(u32),
}

/// What a record reports of the code at its offset.
#[derive(Drop)]
pub enum Event {
    /// The instruction there may trap, for this cause.
    Trap(TrapCode),
    /// The bytes there depend on a symbol's address plus an addend.
    Reloc(Reloc, FinalizedRelocTarget, i64),
    /// There a step in the making of the frame is done.
    Unwind(UnwindInst),
    /// A call stands before it, whose return address it is; of a tail call, it begins there.
    CallSite,
    /// So does a call that may throw, with its handlers, and how far above the stack pointer the frame pointer is, in bytes, where
    /// that is known.
    TryCallSite(Option<u32>, List<TryCallHandler>),
    /// A call that may be patched ends there, of so many bytes.
    PatchableCallSite(u32),
    /// A call returns there; the map covers so many bytes of the frame, from the stack pointer upwards.
    StackMap(u32, UserStackMap),
}

/// A record, at an offset in bytes from the code's start.
#[derive(Drop)]
pub struct MachRecord {
    pub offset: u32,
    pub event: Event,
}

/// An instruction that may trap, by its offset in bytes from the code's start, and the cause.
#[derive(Clone, Copy, Debug, PartialEq, Eq)]
pub struct MachTrap {
    pub offset: u32,
    pub code: TrapCode,
}

/// Bytes that a linker fills, by their offset in bytes from the code's start.
#[derive(Clone, Copy, Debug, PartialEq, Eq)]
pub struct MachReloc {
    pub offset: u32,
    pub kind: Reloc,
    pub target: FinalizedRelocTarget,
    pub addend: i64,
}

/// A step in the making of a frame, by the offset in bytes from the code's start where it is done.
#[derive(Clone, Copy, Debug, PartialEq, Eq)]
pub struct MachUnwind {
    pub offset: u32,
    pub inst: UnwindInst,
}

/// A call that may be patched, by the offset in bytes from the code's start where it ends, and its length in bytes.
#[derive(Clone, Copy, Debug, PartialEq, Eq)]
pub struct MachPatchable {
    pub offset: u32,
    pub len: u32,
}

/// A call that may throw, by the offset in bytes from the code's start to which it returns.
#[derive(Drop)]
pub struct MachTryCallSite {
    pub offset: u32,
    /// How far above the stack pointer the frame pointer is, in bytes, where that is known.
    pub frame_offset: Option<u32>,
    pub handlers: List<FinalizedMachExceptionHandler>,
}

/// The values on the stack that a collector must find, by the offset in bytes from the code's start to which the call returns.
#[derive(Drop)]
pub struct MachStackMap {
    pub offset: u32,
    /// How many bytes of the frame it covers, from the stack pointer upwards.
    pub span: u32,
    pub map: UserStackMap,
}

/// Where a constant stands: the offset of its first byte, in bytes from the code's start.
#[derive(Clone, Copy, Debug, PartialEq, Eq)]
pub struct ConstPlace {
    pub constant: VCodeConstant,
    pub offset: u32,
}

/// Records by what they report: the relocations, the traps, the offsets of call sites, the call sites of calls that may throw, the
/// calls that may be patched, the values on the stack where calls return and the steps in the making of the frame, in the order in
/// which they were recorded.
#[derive(Drop)]
pub struct Recorded {
    pub relocs: List<MachReloc>,
    pub traps: List<MachTrap>,
    pub call_sites: List<u32>,
    pub try_call_sites: List<MachTryCallSite>,
    pub patchable_call_sites: List<MachPatchable>,
    pub stack_maps: List<MachStackMap>,
    pub unwinds: List<MachUnwind>,
}
