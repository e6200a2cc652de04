//! Records split by what they report. Each number is read where its record is made, so its range is known.
#![tactic(auto, using(std::proofs::lemmas::Grind::common_steps))]

ghost use Rattle.std.specs.Prelude.{◌≡◌, map, IfOk};
ghost use Rattle.mach_labels.specs.Table.{entry_of};
ghost use Rattle.std.specs.List.{AllByRecursion};
ghost use Rattle.mach_records.specs.Ranges.{TargetFits, RelocFits, TrapFits, CallFits, FrameFits, HandlerFits, TryFits, EntryFits, MapFits, PatchFits, StepRanged, UnwindRanged, RecordedFits};
ghost use Rattle.mach_records.specs.Collected.{both, collected, reported};
ghost use Rattle.mach_records.specs.Records as records_of;

use crate::records::{
    Event, FinalizedMachExceptionHandler, FinalizedRelocTarget, MachPatchable, MachRecord,
    MachReloc, MachStackMap, MachTrap, MachTryCallSite, MachUnwind, Recorded,
};
use mach_labels::LabelTable;
use rv_base::{
    ExternalName, IrType, List, MachLabel, OutOfMemory, Reloc, RelocTarget, TrapCode,
    TryCallHandler, UnwindInst, UserStackMap,
};
use std::alloc::Global;

/// A copy of a relocation's target.
fn copy_of_target(target: &FinalizedRelocTarget) -> FinalizedRelocTarget
    ensures copy { result ≡ target.now }
    ensures fits { TargetFits result }
{
    match target {
        FinalizedRelocTarget::ExternalName(name) => {
            FinalizedRelocTarget::ExternalName(ExternalName::from_u32(name.number))
        }
        FinalizedRelocTarget::Func(offset) => FinalizedRelocTarget::Func(*offset),
    }
}

/// A relocation at an offset.
fn reloc_at(offset: u32, kind: Reloc, target: &FinalizedRelocTarget, addend: i64) -> MachReloc
    ensures made { result ≡ record { offset = offset; kind = kind; target = target.now; addend = addend } }
    ensures fits { RelocFits result }
{
    MachReloc {
        offset,
        kind,
        target: copy_of_target(target),
        addend,
    }
}

/// A trap at an offset.
fn trap_at(offset: u32, code: TrapCode) -> MachTrap
    ensures made { result ≡ record { offset = offset; code = code } }
    ensures fits { TrapFits result }
{
    MachTrap { offset, code }
}

/// A copy of a step in the making of the frame.
fn copy_of_step(step: &UnwindInst) -> UnwindInst
    ensures copy { result ≡ step.now }
    ensures fits { StepRanged result }
{
    match step {
        UnwindInst::PushFrameRegs {
            offset_upward_to_caller_sp,
        } => UnwindInst::PushFrameRegs {
            offset_upward_to_caller_sp: *offset_upward_to_caller_sp,
        },
        UnwindInst::DefineNewFrame {
            offset_upward_to_caller_sp,
            offset_downward_to_clobbers,
        } => UnwindInst::DefineNewFrame {
            offset_upward_to_caller_sp: *offset_upward_to_caller_sp,
            offset_downward_to_clobbers: *offset_downward_to_clobbers,
        },
        UnwindInst::StackAlloc { size } => UnwindInst::StackAlloc { size: *size },
        UnwindInst::SaveReg {
            clobber_offset,
            reg,
        } => UnwindInst::SaveReg {
            clobber_offset: *clobber_offset,
            reg: *reg,
        },
    }
}

/// A step at an offset.
fn unwind_at(offset: u32, inst: &UnwindInst) -> MachUnwind
    ensures made { result ≡ record { offset = offset; inst = inst.now } }
    ensures fits { UnwindRanged result }
{
    MachUnwind {
        offset,
        inst: copy_of_step(inst),
    }
}

/// A call that may be patched.
fn patch_at(offset: u32, len: u32) -> MachPatchable
    ensures made { result ≡ record { offset = offset; len = len } }
    ensures fits { PatchFits result }
{
    MachPatchable { offset, len }
}

/// A label's place, or 0 where it has none.
fn offset_or_zero(label: MachLabel, places: &LabelTable<u32>) -> u32
    ensures { result ≡ records_of.offset_or_zero (entry_of places.now) label.number }
{
    match places.get(label.number) {
        Some(offset) => offset,
        None => 0,
    }
}

/// A relocation's target: a label by its place, or by 0 where it has none.
pub fn finalized(target: RelocTarget, places: &LabelTable<u32>) -> FinalizedRelocTarget
    ensures { result ≡ records_of.finalized (entry_of places.now) target }
{
    match target {
        RelocTarget::Name(name) => FinalizedRelocTarget::ExternalName(name),
        RelocTarget::Label(label) => FinalizedRelocTarget::Func(offset_or_zero(label, places)),
    }
}

/// A handler's label by its place, or by 0 where it has none.
fn finalized_handler(
    handler: &TryCallHandler,
    places: &LabelTable<u32>,
) -> FinalizedMachExceptionHandler
    ensures finalized { result ≡ records_of.finalized_handler (records_of.offset_or_zero (entry_of places.now)) handler.now }
    ensures fits { HandlerFits result }
{
    match handler {
        TryCallHandler::Tag(tag, label) => {
            FinalizedMachExceptionHandler::Tag(*tag, offset_or_zero(*label, places))
        }
        TryCallHandler::Default(label) => {
            FinalizedMachExceptionHandler::Default(offset_or_zero(*label, places))
        }
    }
}

fn finalized_handlers(
    handlers: &[TryCallHandler],
    places: &LabelTable<u32>,
    alloc: Global,
) -> Result<List<FinalizedMachExceptionHandler>, OutOfMemory>
    ensures finalized { IfOk result (λ found. found ≡ map (records_of.finalized_handler (records_of.offset_or_zero (entry_of places.now))) handlers.now) }
    ensures fits { IfOk result (AllByRecursion HandlerFits) }
{
    let mut found = Vec::new(alloc);
    for handler in handlers {
        found.push(finalized_handler(handler, places))?;
    }
    Ok(List::from_vec(found))
}

/// A copy of how far above the stack pointer the frame pointer is.
fn copy_of_distance(distance: &Option<u32>) -> Option<u32>
    ensures copy { result ≡ distance.now }
    ensures fits { FrameFits result }
{
    match distance {
        Some(distance) => Some(*distance),
        None => None,
    }
}

/// A call that may throw.
fn try_at(
    offset: u32,
    frame_offset: &Option<u32>,
    handlers: List<FinalizedMachExceptionHandler>,
) -> MachTryCallSite
    requires { AllByRecursion HandlerFits handlers }
    ensures made { result ≡ record { offset = offset; frame_offset = frame_offset.now; handlers = handlers } }
    ensures fits { TryFits result }
{
    MachTryCallSite {
        offset,
        frame_offset: copy_of_distance(frame_offset),
        handlers,
    }
}

/// The values on the stack where a call returns.
fn map_at(offset: u32, span: u32, map: UserStackMap) -> MachStackMap
    requires { AllByRecursion EntryFits map.entries }
    ensures made { result ≡ record { offset = offset; span = span; map = map } }
    ensures fits { MapFits result }
{
    MachStackMap { offset, span, map }
}

/// A copy of an entry of a map.
fn copy_of_entry(entry: &(IrType, u32)) -> (IrType, u32)
    ensures copy { result ≡ entry.now }
    ensures fits { EntryFits result }
{
    let (ty, offset) = entry;
    (*ty, *offset)
}

/// A copy of a map.
pub fn copy_of_map(map: &UserStackMap, alloc: Global) -> Result<UserStackMap, OutOfMemory>
    ensures copy { IfOk result (λ copy. copy ≡ map.now) }
    ensures fits { IfOk result (λ copy. AllByRecursion EntryFits copy.entries) }
{
    let mut entries = Vec::with_capacity(alloc, map.entries.len())?;
    for entry in map.entries.as_slice() {
        entries.push(copy_of_entry(entry))?;
    }
    Ok(UserStackMap {
        entries: List::from_vec(entries),
    })
}

/// What is collected of records, a list for each kind.
#[derive(Drop)]
struct Collected {
    relocs: Vec<MachReloc>,
    traps: Vec<MachTrap>,
    call_sites: Vec<u32>,
    try_call_sites: Vec<MachTryCallSite>,
    patchable_call_sites: Vec<MachPatchable>,
    stack_maps: Vec<MachStackMap>,
    unwinds: Vec<MachUnwind>,
}

impl Collected {
    /// Nothing yet. No list allocates before it has an element.
    fn new(alloc: Global) -> Self
        ensures { collected result ≡ records_of.nothing }
    {
        Collected {
            relocs: Vec::new(alloc),
            traps: Vec::new(alloc),
            call_sites: Vec::new(alloc),
            try_call_sites: Vec::new(alloc),
            patchable_call_sites: Vec::new(alloc),
            stack_maps: Vec::new(alloc),
            unwinds: Vec::new(alloc),
        }
    }

    /// Adds what a record reports to the list of its kind.
    fn add(
        &mut self,
        r: &MachRecord,
        places: &LabelTable<u32>,
        alloc: Global,
    ) -> Result<(), OutOfMemory>
        ensures added { IfOk result (λ done. collected self.new ≡ both (collected self.old) (reported (entry_of places.now) r.now)) }
        ensures fits { IfOk result (λ done. RecordedFits (reported (entry_of places.now) r.now)) }
    {
        let offset = r.offset;
        match &r.event {
            Event::Trap(code) => self.traps.push(trap_at(offset, *code))?,
            Event::Reloc(kind, target, addend) => {
                self.relocs.push(reloc_at(offset, *kind, target, *addend))?;
            }
            Event::Unwind(inst) => self.unwinds.push(unwind_at(offset, inst))?,
            Event::CallSite => self.call_sites.push(offset)?,
            Event::TryCallSite(frame_offset, handlers) => {
                let handlers = finalized_handlers(handlers.as_slice(), places, alloc)?;
                self.try_call_sites
                    .push(try_at(offset, frame_offset, handlers))?;
            }
            Event::PatchableCallSite(len) => {
                self.patchable_call_sites.push(patch_at(offset, *len))?;
            }
            Event::StackMap(span, map) => {
                let map = copy_of_map(map, alloc)?;
                self.stack_maps.push(map_at(offset, *span, map))?;
            }
        }
        Ok(())
    }

    /// The lists as they stand.
    fn into_recorded(self) -> Recorded
        ensures { result ≡ collected self }
    {
        Recorded {
            relocs: List::from_vec(self.relocs),
            traps: List::from_vec(self.traps),
            call_sites: List::from_vec(self.call_sites),
            try_call_sites: List::from_vec(self.try_call_sites),
            patchable_call_sites: List::from_vec(self.patchable_call_sites),
            stack_maps: List::from_vec(self.stack_maps),
            unwinds: List::from_vec(self.unwinds),
        }
    }
}

/// The records, by what they report. The labels of handlers are by their places, or by 0 where they have none.
pub fn by_kind(
    records: &[MachRecord],
    places: &LabelTable<u32>,
    alloc: Global,
) -> Result<Recorded, OutOfMemory>
    ensures found { IfOk result (λ found. found ≡ records_of.by_kind (entry_of places.now) records.now) }
    ensures fits { IfOk result RecordedFits }
{
    let mut found = Collected::new(alloc);
    for r in records {
        found.add(r, places, alloc)?;
    }
    Ok(found.into_recorded())
}
