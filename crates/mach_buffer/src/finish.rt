//! The end of a buffer: the last veneers, and the patches.

ghost use Rattle.std.specs.Prelude.{◌≡◌, ◌<◌};
ghost use Rattle.std.specs.List.{AllByRecursion};

use crate::buffer::MachBuffer;
use crate::code::Code;
use crate::constants::Constants;
use crate::patches::patch_all;
use mach_records::{
    ConstPlace, MachPatchable, MachReloc, MachStackMap, MachTrap, MachTryCallSite, MachUnwind,
    by_kind,
};
use mach_uses::LabelPlace;
use rv_base::{Constant, List, MachInstLabelUse, OutOfMemory};

/// Patched code; where the labels below 2^30 stand, in order of binding; where the constants stand that it names, in order of
/// place; and the relocations, the traps, the offsets of call sites, the call sites of calls that may throw, the calls that may be
/// patched, the values on the stack where calls return and the steps in the making of the frame, in the order in which they were
/// recorded.
#[derive(Drop)]
pub struct Finished {
    pub bytes: List<u8>,
    pub labels: List<LabelPlace>,
    pub constants: List<ConstPlace>,
    pub relocs: List<MachReloc>,
    pub traps: List<MachTrap>,
    pub call_sites: List<u32>,
    pub try_call_sites: List<MachTryCallSite>,
    pub patchable_call_sites: List<MachPatchable>,
    pub stack_maps: List<MachStackMap>,
    pub unwinds: List<MachUnwind>,
}

/// Bytes as a list: each is below 256.
fn list_of(bytes: Vec<u8>) -> List<u8>
    ensures list { result ≡ bytes.items }
    ensures fits { AllByRecursion (λ b. b < 256) result }
{
    List::from_vec(bytes)
}

impl<L: MachInstLabelUse> MachBuffer<L> {
    ghost use Rattle.std.specs.Prelude.{◌≡◌, ◌≢◌, ◌<◌, length, OnOk, IfOk, false};
    ghost use Rattle.rv_base.specs.LabelUse.{code_limit};
    ghost use Rattle.mach_buffer.specs.Islands.{aligned};
    ghost use Rattle.mach_buffer.specs.Finish.{padded_for, CanFinish, Finishes};
    ghost use Rattle.mach_buffer.specs.LastVeneers.{LastPut};
    ghost use Rattle.std.specs.List.{AllByRecursion};
    ghost use Rattle.mach_records.specs.Ranges.{RecordedFits};
    ghost use Rattle.mach_records.specs.Records.{by_kind as records_by_kind, calls_in, maps_in, offset_or_zero, patches_in, relocs_in, traps_in, tries_in, unwinds_in};
    ghost use Rattle.mach_buffer.specs.Buffer.{shape_of, bytes_of, labels_of, place_of, registered_of, records_of, spoiled_of, Unless, IsSound};

    /// Puts a veneer for each use that is pending, by deadline, then by place, then as recorded; then the constants that
    /// don't stand yet; and patches every window: a use then goes by its veneer, and straight to its label where it has none. The constants are
    /// those that were registered. The labels of handlers are by their places before that, or by 0 where they have none.
    pub fn finish(self, constants: &[Constant]) -> Result<Finished, OutOfMemory>
        requires registered { Unless (spoiled_of self) (registered_of self ≡ constants.now) }
        requires sound { Unless (spoiled_of self) (IsSound L.kinds self) }
        requires ready { Unless (spoiled_of self) (CanFinish L.kinds (shape_of self)) }
        ensures code { IfOk result (λ f. (finishes : Finishes L.kinds (shape_of self) f.bytes) × (f.constants ≡ finishes.put.constants)) }
        ensures labels { IfOk result (λ f. f.labels ≡ labels_of self) }
        ensures relocs { IfOk result (λ f. f.relocs ≡ relocs_in (records_of self)) }
        ensures traps { IfOk result (λ f. f.traps ≡ traps_in (records_of self)) }
        ensures call_sites { IfOk result (λ f. f.call_sites ≡ calls_in (records_of self)) }
        ensures try_call_sites { IfOk result (λ f. f.try_call_sites ≡ tries_in (offset_or_zero (place_of self)) (records_of self)) }
        ensures patchable_call_sites { IfOk result (λ f. f.patchable_call_sites ≡ patches_in (records_of self)) }
        ensures stack_maps { IfOk result (λ f. f.stack_maps ≡ maps_in (records_of self)) }
        ensures unwinds { IfOk result (λ f. f.unwinds ≡ unwinds_in (records_of self)) }
        ensures bytes { IfOk result (λ f. AllByRecursion (λ b. b < 256) f.bytes) }
        ensures fits { OnOk result (RecordedFits (records_by_kind (place_of self) (records_of self))) }
        ensures unspoiled { OnOk result (spoiled_of self ≡ false) }
    {
        self.check()?;
        self.end()
    }

    #[tactic(auto, unfolding(crate::specs::Buffer::IsSound))]
    fn end(mut self) -> Result<Finished, OutOfMemory>
        requires sound { IsSound L.kinds self }
        requires ready { CanFinish L.kinds (shape_of self) }
        ensures code { IfOk result (λ f. (finishes : Finishes L.kinds (shape_of self) f.bytes) × (f.constants ≡ finishes.put.constants)) }
        ensures labels { IfOk result (λ f. f.labels ≡ labels_of self) }
        ensures relocs { IfOk result (λ f. f.relocs ≡ relocs_in (records_of self)) }
        ensures traps { IfOk result (λ f. f.traps ≡ traps_in (records_of self)) }
        ensures call_sites { IfOk result (λ f. f.call_sites ≡ calls_in (records_of self)) }
        ensures try_call_sites { IfOk result (λ f. f.try_call_sites ≡ tries_in (offset_or_zero (place_of self)) (records_of self)) }
        ensures patchable_call_sites { IfOk result (λ f. f.patchable_call_sites ≡ patches_in (records_of self)) }
        ensures stack_maps { IfOk result (λ f. f.stack_maps ≡ maps_in (records_of self)) }
        ensures unwinds { IfOk result (λ f. f.unwinds ≡ unwinds_in (records_of self)) }
        ensures bytes { IfOk result (λ f. AllByRecursion (λ b. b < 256) f.bytes) }
        ensures fits { OnOk result (RecordedFits (records_by_kind (place_of self) (records_of self))) }
    {
        let recorded = by_kind(&self.records, self.labels.places(), self.alloc)?;
        self.put_last()?;
        let MachBuffer {
            alloc,
            code,
            labels,
            constants,
            pending,
            records,
            spoiled,
        } = self;
        let Code { mut bytes, uses } = code;
        patch_all(&mut bytes, &uses, &labels);
        let Constants {
            registered,
            seen,
            named,
            placed,
        } = constants;
        Ok(Finished {
            bytes: list_of(bytes),
            labels: List::from_vec(labels.into_bound()),
            constants: List::from_vec(placed),
            relocs: recorded.relocs,
            traps: recorded.traps,
            call_sites: recorded.call_sites,
            try_call_sites: recorded.try_call_sites,
            patchable_call_sites: recorded.patchable_call_sites,
            stack_maps: recorded.stack_maps,
            unwinds: recorded.unwinds,
        })
    }

    /// Puts the last veneers, after zero bytes to a multiple of four, where some use is pending; and the constants that
    /// don't stand yet.
    #[tactic(auto, unfolding(crate::specs::Buffer::IsSound))]
    fn put_last(&mut self) -> Result<(), OutOfMemory>
        requires sound { IsSound L.kinds self.old }
        requires ready { CanFinish L.kinds (shape_of self.old) }
        ensures { OnOk result (LastPut L.kinds (shape_of self.old) (shape_of self.new)) }
    {
        let order = self
            .pending
            .order(&self.code.uses, &self.labels, None, self.alloc)?;
        self.pad_last(order.len())?;
        self.put_pending(false, &order)?;
        Ok(())
    }

    /// Puts zero bytes to a multiple of four, where some veneers are to come.
    fn pad_last(&mut self, count: usize) -> Result<(), OutOfMemory>
        requires room { count ≢ 0 → aligned (length (bytes_of self.old)) < code_limit }
        ensures shape { OnOk result (shape_of self.new ≡ padded_for count (shape_of self.old)) }
    {
        if count == 0 {
            return Ok(());
        }
        self.pad()
    }
}
