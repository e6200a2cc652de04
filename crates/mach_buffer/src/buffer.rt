//! The buffer: bytes, uses of labels, and the places of labels.

use crate::code::Code;
use crate::constants::Constants;
use mach_records::{Event, FinalizedRelocTarget, MachRecord, copy_of_map, finalized};
use mach_uses::{INNER_COUNT, ISLAND_MARGIN, Labels, Pending, Use, constant_label};
use rv_base::{
    Constant, List, MachInstLabelUse, MachLabel, OutOfMemory, Reloc, RelocTarget, TrapCode,
    TryCallHandler, UnwindInst, UserStackMap, VCodeConstant,
};
use std::alloc::Global;

/// Code is shorter than this many bytes: an `auipc` and the twelve signed bits of the instruction after it reach each distance
/// below it.
const CODE_LIMIT: u128 = (1 << 31) - 4096;

/// Before so many bytes an island is asked for at each line: at most 84 of an instruction that asks for none, and 4 to jump over one.
pub const LINE_SPACE: u32 = 88;

/// How many bytes past the end are counted for when queues are tidied, so that an instruction's island is asked for of tidy ones.
const AHEAD: u64 = LINE_SPACE as u64 + ISLAND_MARGIN;

/// What is kept for the alignment of a constant that doesn't stand yet: less than that many zero bytes are put before it.
const ALIGNMENT_RESERVE: u128 = 16;

/// A buffer of code whose uses of labels are of the kinds `L`. Offsets are in bytes from the code's start.
///
/// Where a call runs out of memory, the buffer is spoiled: from then on each call that allocates is refused, and asks nothing
/// else of the buffer.
#[derive(Drop)]
pub struct MachBuffer<L> {
    pub(crate) alloc: Global,
    pub(crate) code: Code<L>,
    pub(crate) labels: Labels,
    pub(crate) constants: Constants,
    pub(crate) pending: Pending,
    pub(crate) records: Vec<MachRecord>,
    pub(crate) spoiled: bool,
}

impl<L: MachInstLabelUse> MachBuffer<L> {
    ghost use Rattle.std.specs.Prelude.{◌≡◌, ◌≢◌, ℕ, ◌+◌, ◌*◌, ◌/◌, ◌%◌, ◌^◌, ◌<◌, ◌≤◌, ◌++◌, ◌∷◌, [], length, slice_get, OnOk, OnErr, IfOk, None, Some, true, false, ◌&&◌, ◌||◌, nat_lt};
    ghost use Rattle.std.specs.Int.{to_le_bytes};
    ghost use mir.Syntax.{w16, w32, w64};
    ghost use Rattle.rv_base.specs.LabelUse.{code_limit};
    ghost use Rattle.mach_labels.specs.Table.{first_inner};
    ghost use Rattle.mach_buffer.specs.Shape.{with_bytes, with_use, with_label, with_allocated, with_record, with_registered, with_named, IsKnown, IsUsable};
    ghost use Rattle.mach_uses.specs.Labels.{constant_label, inner_count};
    ghost use Rattle.mach_buffer.specs.Constants.{reserve_of};
    ghost use Rattle.mach_records.specs.Records.{finalized};
    ghost use Rattle.mach_records.specs.declared.records.Event.TheVariants.{Trap, Reloc as Relocates, Unwind, CallSite, TryCallSite, PatchableCallSite, StackMap};
    ghost use Rattle.mach_records.specs.declared.records.FinalizedRelocTarget.TheVariants.{Func};
    ghost use Rattle.mach_uses.specs.Reach.{island_margin, is_needed, due_by};
    ghost use Rattle.mach_buffer.specs.Inside.{inside_of};
    ghost use Rattle.mach_buffer.specs.Buffer.{shape_of, bytes_of, uses_of, place_of, allocated_of, records_of, registered_of, named_of, constants_of, spoiled_of, pending_of, Unless, Takes, IsSound};

    /// An empty buffer. Takes no memory.
    #[tactic(auto, using(crate::proofs::Sound::sound_none), unfolding(crate::specs::Buffer::IsSound))]
    pub fn new(alloc: Global) -> MachBuffer<L>
        ensures bytes { bytes_of result ≡ [] }
        ensures uses { uses_of result ≡ [] }
        ensures places { (label : ℕ) → place_of result label ≡ None }
        ensures labels { (shape_of result).labels ≡ [] }
        ensures allocated { allocated_of result ≡ 0 }
        ensures records { records_of result ≡ [] }
        ensures registered { registered_of result ≡ [] }
        ensures named { named_of result ≡ [] }
        ensures constants { constants_of result ≡ [] }
        ensures spoiled { spoiled_of result ≡ false }
        ensures sound { IsSound L.kinds result }
    {
        MachBuffer {
            alloc,
            code: Code::new(alloc),
            labels: Labels::new(alloc),
            constants: Constants::new(alloc),
            pending: Pending::new(alloc),
            records: Vec::new(alloc),
            spoiled: false,
        }
    }

    /// Makes the constants known that code may name: none are known so far. Keeps copies of them.
    #[tactic(auto, unfolding(crate::specs::Buffer::IsSound))]
    pub fn register_constants(&mut self, constants: &[Constant]) -> Result<(), OutOfMemory>
        requires none { Unless (spoiled_of self.old) (registered_of self.old ≡ []) }
        requires few { Unless (spoiled_of self.old) (length constants.now ≤ inner_count) }
        requires sound { Unless (spoiled_of self.old) (IsSound L.kinds self.old) }
        ensures registered { Takes result (with_registered constants.now) self.old self.new }
        ensures sound { OnOk result (IsSound L.kinds self.new) }
    {
        self.check()?;
        match self.constants.register(constants, self.alloc) {
            Ok(()) => Ok(()),
            Err(error) => {
                self.spoiled = true;
                Err(error)
            }
        }
    }

    /// The label of a constant, which is put with the next island or at the end, unless it stands already.
    #[tactic(auto, unfolding(crate::specs::Buffer::IsSound))]
    pub fn get_label_for_constant(
        &mut self,
        constant: VCodeConstant,
    ) -> Result<MachLabel, OutOfMemory>
        requires known { Unless (spoiled_of self.old) (constant.number < length (registered_of self.old)) }
        requires sound { Unless (spoiled_of self.old) (IsSound L.kinds self.old) }
        ensures label { IfOk result (λ label. label ≡ constant_label constant) }
        ensures named { Takes result (with_named constant) self.old self.new }
        ensures usable { IfOk result (λ label. IsUsable (shape_of self.new) label.number) }
        ensures sound { OnOk result (IsSound L.kinds self.new) }
    {
        self.check()?;
        match self.constants.name(constant) {
            Ok(()) => Ok(constant_label(constant)),
            Err(error) => {
                self.spoiled = true;
                Err(error)
            }
        }
    }

    /// Refuses where the buffer is spoiled.
    pub(crate) fn check(&self) -> Result<(), OutOfMemory>
        ensures ok { OnOk result (spoiled_of self.now ≡ false) }
        ensures err { OnErr result (spoiled_of self.now ≡ true) }
    {
        if self.spoiled {
            return Err(OutOfMemory);
        }
        Ok(())
    }

    /// Spoils the buffer, where memory ran out elsewhere. Takes no memory.
    pub fn spoil(&mut self)
        ensures spoiled { spoiled_of self.new ≡ true }
        ensures shape { shape_of self.new ≡ shape_of self.old }
    {
        self.spoiled = true;
    }

    /// How many bytes there are so far.
    pub fn cur_offset(&self) -> u32
        ensures { result ≡ length (bytes_of self.now) }
    {
        self.code.bytes.len() as u32
    }

    /// Where a label is bound.
    pub fn label_offset(&self, label: MachLabel) -> Option<u32>
        ensures { result ≡ place_of self.now label.number }
    {
        self.labels.place(label)
    }

    /// Appends two bytes, the low one first.
    pub fn put2(&mut self, value: u16) -> Result<(), OutOfMemory>
        requires room { Unless (spoiled_of self.old) (length (bytes_of self.old) + 2 < code_limit) }
        requires sound { Unless (spoiled_of self.old) (IsSound L.kinds self.old) }
        ensures put { Takes result (with_bytes (to_le_bytes w16 value)) self.old self.new }
        ensures sound { OnOk result (IsSound L.kinds self.new) }
    {
        self.append(&value.to_le_bytes())
    }

    /// Appends four bytes, the low one first.
    pub fn put4(&mut self, value: u32) -> Result<(), OutOfMemory>
        requires room { Unless (spoiled_of self.old) (length (bytes_of self.old) + 4 < code_limit) }
        requires sound { Unless (spoiled_of self.old) (IsSound L.kinds self.old) }
        ensures put { Takes result (with_bytes (to_le_bytes w32 value)) self.old self.new }
        ensures sound { OnOk result (IsSound L.kinds self.new) }
    {
        self.append(&value.to_le_bytes())
    }

    /// Appends eight bytes, the low one first.
    pub fn put8(&mut self, value: u64) -> Result<(), OutOfMemory>
        requires room { Unless (spoiled_of self.old) (length (bytes_of self.old) + 8 < code_limit) }
        requires sound { Unless (spoiled_of self.old) (IsSound L.kinds self.old) }
        ensures put { Takes result (with_bytes (to_le_bytes w64 value)) self.old self.new }
        ensures sound { OnOk result (IsSound L.kinds self.new) }
    {
        self.append(&value.to_le_bytes())
    }

    /// Appends an even number of bytes.
    pub fn put_data(&mut self, bytes: &[u8]) -> Result<(), OutOfMemory>
        requires room { Unless (spoiled_of self.old) (length (bytes_of self.old) + length bytes.now < code_limit) }
        requires even { Unless (spoiled_of self.old) (length bytes.now % 2 ≡ 0) }
        requires sound { Unless (spoiled_of self.old) (IsSound L.kinds self.old) }
        ensures put { Takes result (with_bytes bytes.now) self.old self.new }
        ensures sound { OnOk result (IsSound L.kinds self.new) }
    {
        self.append(bytes)
    }

    fn append(&mut self, bytes: &[u8]) -> Result<(), OutOfMemory>
        requires room { Unless (spoiled_of self.old) (length (bytes_of self.old) + length bytes.now < code_limit) }
        requires even { Unless (spoiled_of self.old) (length bytes.now % 2 ≡ 0) }
        requires sound { Unless (spoiled_of self.old) (IsSound L.kinds self.old) }
        ensures put { Takes result (with_bytes bytes.now) self.old self.new }
        ensures sound { OnOk result (IsSound L.kinds self.new) }
    {
        self.check()?;
        match self.add_bytes(bytes) {
            Ok(()) => Ok(()),
            Err(error) => {
                self.spoiled = true;
                Err(error)
            }
        }
    }

    #[tactic(auto, unfolding(crate::specs::Buffer::IsSound))]
    fn add_bytes(&mut self, bytes: &[u8]) -> Result<(), OutOfMemory>
        requires room { length (bytes_of self.old) + length bytes.now < code_limit }
        requires even { length bytes.now % 2 ≡ 0 }
        requires sound { IsSound L.kinds self.old }
        ensures shape { OnOk result (shape_of self.new ≡ with_bytes bytes.now (shape_of self.old)) }
        ensures sound { OnOk result (IsSound L.kinds self.new) }
        ensures spoiled { spoiled_of self.new ≡ spoiled_of self.old }
    {
        self.code.append(bytes)?;
        let ahead = self.code.bytes.len() as u64 + AHEAD;
        self.pending
            .tidy(&self.code.uses, &self.labels, ahead, self.alloc)?;
        Ok(())
    }

    /// A label that nothing names yet.
    #[tactic(auto, unfolding(crate::specs::Buffer::IsSound))]
    pub fn get_label(&mut self) -> Result<MachLabel, OutOfMemory>
        requires few { Unless (spoiled_of self.old) (allocated_of self.old < inner_count) }
        requires sound { Unless (spoiled_of self.old) (IsSound L.kinds self.old) }
        ensures number { IfOk result (λ label. label.number ≡ first_inner + allocated_of self.old) }
        ensures unbound { IfOk result (λ label. place_of self.new label.number ≡ None) }
        ensures unnamed { IfOk result (λ label. (j : ℕ) (u : Use L) → slice_get (uses_of self.new) j ≡ Some u → u.label.number ≢ label.number) }
        ensures allocated { Takes result with_allocated self.old self.new }
        ensures sound { OnOk result (IsSound L.kinds self.new) }
    {
        self.check()?;
        let label = self.labels.allocate();
        Ok(label)
    }

    /// Binds a label here.
    #[tactic(auto, unfolding(crate::specs::Buffer::IsSound))]
    pub fn bind_label(&mut self, label: MachLabel) -> Result<(), OutOfMemory>
        requires known { Unless (spoiled_of self.old) (IsKnown label.number (allocated_of self.old)) }
        requires unbound { Unless (spoiled_of self.old) (place_of self.old label.number ≡ None) }
        requires sound { Unless (spoiled_of self.old) (IsSound L.kinds self.old) }
        ensures bound { Takes result (with_label label) self.old self.new }
        ensures fewer { OnOk result ((end : ℕ) → due_by end (pending_of L.kinds self.new) ≤ due_by end (pending_of L.kinds self.old)) }
        ensures sound { OnOk result (IsSound L.kinds self.new) }
    {
        self.check()?;
        match self.place_label(label) {
            Ok(()) => Ok(()),
            Err(error) => {
                self.spoiled = true;
                Err(error)
            }
        }
    }

    /// Notes that a label stands here.
    pub(crate) fn place_label(&mut self, label: MachLabel) -> Result<(), OutOfMemory>
        ensures shape { OnOk result (shape_of self.new ≡ with_label label (shape_of self.old)) }
        ensures inside { inside_of self.new ≡ inside_of self.old }
        ensures spoiled { spoiled_of self.new ≡ spoiled_of self.old }
    {
        let here = self.code.bytes.len() as u32;
        self.labels.bind(label, here)
    }

    /// Records a use, whose window is put next or stands there.
    pub fn use_label_at_offset(
        &mut self,
        offset: u32,
        label: MachLabel,
        kind: L,
    ) -> Result<(), OutOfMemory>
        requires there { Unless (spoiled_of self.old) (offset ≤ length (bytes_of self.old)) }
        requires known { Unless (spoiled_of self.old) (IsUsable (shape_of self.old) label.number) }
        requires sound { Unless (spoiled_of self.old) (IsSound L.kinds self.old) }
        ensures recorded { Takes result (with_use (record { offset = offset; label = label; kind = kind; veneer = None })) self.old self.new }
        ensures sound { OnOk result (IsSound L.kinds self.new) }
    {
        self.check()?;
        let u = Use {
            offset,
            label,
            kind,
            veneer: None,
        };
        match self.add_use(u) {
            Ok(()) => Ok(()),
            Err(error) => {
                self.spoiled = true;
                Err(error)
            }
        }
    }

    #[tactic(auto, unfolding(crate::specs::Buffer::IsSound))]
    fn add_use(&mut self, u: Use<L>) -> Result<(), OutOfMemory>
        requires there { u.offset ≤ length (bytes_of self.old) }
        requires bare { u.veneer ≡ None }
        requires known { IsUsable (shape_of self.old) u.label.number }
        requires sound { IsSound L.kinds self.old }
        ensures shape { OnOk result (shape_of self.new ≡ with_use u (shape_of self.old)) }
        ensures sound { OnOk result (IsSound L.kinds self.new) }
        ensures spoiled { spoiled_of self.new ≡ spoiled_of self.old }
    {
        self.pending.push(&self.code.uses, &self.labels, &u)?;
        self.code.record_use(u)?;
        Ok(())
    }

    /// Records a trap at the current offset.
    pub fn add_trap(&mut self, code: TrapCode) -> Result<(), OutOfMemory>
        requires sound { Unless (spoiled_of self.old) (IsSound L.kinds self.old) }
        ensures recorded { Takes result (with_record (Trap code)) self.old self.new }
        ensures sound { OnOk result (IsSound L.kinds self.new) }
    {
        self.add_record(Event::Trap(code))
    }

    /// Records a relocation of the bytes that are put next. A label that it refers to is bound already.
    pub fn add_reloc(
        &mut self,
        kind: Reloc,
        target: RelocTarget,
        addend: i64,
    ) -> Result<(), OutOfMemory>
        requires sound { Unless (spoiled_of self.old) (IsSound L.kinds self.old) }
        ensures recorded { Takes result (with_record (Relocates kind (finalized (place_of self.old) target) addend)) self.old self.new }
        ensures sound { OnOk result (IsSound L.kinds self.new) }
    {
        let target = finalized(target, self.labels.places());
        self.add_record(Event::Reloc(kind, target, addend))
    }

    /// Records a relocation of the bytes that are put next, which refers to a place in the code by its offset.
    pub fn add_reloc_to(&mut self, kind: Reloc, offset: u32, addend: i64) -> Result<(), OutOfMemory>
        requires sound { Unless (spoiled_of self.old) (IsSound L.kinds self.old) }
        ensures recorded { Takes result (with_record (Relocates kind (Func offset) addend)) self.old self.new }
        ensures sound { OnOk result (IsSound L.kinds self.new) }
    {
        self.add_record(Event::Reloc(kind, FinalizedRelocTarget::Func(offset), addend))
    }

    /// Records a step in the making of the frame at the current offset.
    pub fn add_unwind(&mut self, inst: UnwindInst) -> Result<(), OutOfMemory>
        requires sound { Unless (spoiled_of self.old) (IsSound L.kinds self.old) }
        ensures recorded { Takes result (with_record (Unwind inst)) self.old self.new }
        ensures sound { OnOk result (IsSound L.kinds self.new) }
    {
        self.add_record(Event::Unwind(inst))
    }

    /// Records a call site at the current offset.
    pub fn add_call_site(&mut self) -> Result<(), OutOfMemory>
        requires sound { Unless (spoiled_of self.old) (IsSound L.kinds self.old) }
        ensures recorded { Takes result (with_record CallSite) self.old self.new }
        ensures sound { OnOk result (IsSound L.kinds self.new) }
    {
        self.add_record(Event::CallSite)
    }

    /// Records the call site of a call that may throw at the current offset, with copies of its handlers, and how far above the
    /// stack pointer the frame pointer is, in bytes, where that is known.
    pub fn add_try_call_site(
        &mut self,
        frame_offset: Option<u32>,
        handlers: &[TryCallHandler],
    ) -> Result<(), OutOfMemory>
        requires sound { Unless (spoiled_of self.old) (IsSound L.kinds self.old) }
        ensures recorded { Takes result (with_record (TryCallSite frame_offset handlers.now)) self.old self.new }
        ensures sound { OnOk result (IsSound L.kinds self.new) }
    {
        match List::from_slice(self.alloc, handlers) {
            Ok(handlers) => self.add_record(Event::TryCallSite(frame_offset, handlers)),
            Err(error) => {
                self.spoiled = true;
                Err(error)
            }
        }
    }

    /// Records the values on the stack where a call returns, at the current offset: `return_offset` is there, and `span` is how
    /// many bytes of the frame the map covers, from the stack pointer upwards. Keeps a copy of the map.
    pub fn push_user_stack_map(
        &mut self,
        return_offset: u32,
        span: u32,
        map: &UserStackMap,
    ) -> Result<(), OutOfMemory>
        requires here { Unless (spoiled_of self.old) (return_offset ≡ length (bytes_of self.old)) }
        requires sound { Unless (spoiled_of self.old) (IsSound L.kinds self.old) }
        ensures recorded { Takes result (with_record (StackMap span map.now)) self.old self.new }
        ensures sound { OnOk result (IsSound L.kinds self.new) }
    {
        match copy_of_map(map, self.alloc) {
            Ok(copy) => self.add_record(Event::StackMap(span, copy)),
            Err(error) => {
                self.spoiled = true;
                Err(error)
            }
        }
    }

    /// Records that a call of so many bytes ends at the current offset, and may be patched.
    pub fn add_patchable_call_site(&mut self, len: u32) -> Result<(), OutOfMemory>
        requires sound { Unless (spoiled_of self.old) (IsSound L.kinds self.old) }
        ensures recorded { Takes result (with_record (PatchableCallSite len)) self.old self.new }
        ensures sound { OnOk result (IsSound L.kinds self.new) }
    {
        self.add_record(Event::PatchableCallSite(len))
    }

    fn add_record(&mut self, event: Event) -> Result<(), OutOfMemory>
        requires sound { Unless (spoiled_of self.old) (IsSound L.kinds self.old) }
        ensures recorded { Takes result (with_record event) self.old self.new }
        ensures sound { OnOk result (IsSound L.kinds self.new) }
    {
        self.check()?;
        match self.record(event) {
            Ok(()) => Ok(()),
            Err(error) => {
                self.spoiled = true;
                Err(error)
            }
        }
    }

    #[tactic(auto, unfolding(crate::specs::Buffer::IsSound))]
    fn record(&mut self, event: Event) -> Result<(), OutOfMemory>
        requires sound { IsSound L.kinds self.old }
        ensures shape { OnOk result (shape_of self.new ≡ with_record event (shape_of self.old)) }
        ensures sound { OnOk result (IsSound L.kinds self.new) }
        ensures spoiled { spoiled_of self.new ≡ spoiled_of self.old }
    {
        let offset = self.cur_offset();
        self.records.push(MachRecord { offset, event })?;
        Ok(())
    }

    /// Tells of an unconditional branch that ends at the current offset, for later folding.
    pub fn add_uncond_branch(
        &mut self,
        start: u32,
        end: u32,
        target: MachLabel,
    ) -> Result<(), OutOfMemory>
        ensures same { self.new ≡ self.old }
        ensures ok { OnOk result (spoiled_of self.old ≡ false) }
        ensures err { OnErr result (spoiled_of self.old ≡ true) }
    {
        self.check()
    }

    /// Tells of a conditional branch that ends at the current offset, for later folding.
    pub fn add_cond_branch(
        &mut self,
        start: u32,
        end: u32,
        target: MachLabel,
        inverted: &[u8],
    ) -> Result<(), OutOfMemory>
        ensures same { self.new ≡ self.old }
        ensures ok { OnOk result (spoiled_of self.old ≡ false) }
        ensures err { OnErr result (spoiled_of self.old ≡ true) }
    {
        self.check()
    }

    /// Returns whether an island is needed before so many bytes; of a spoiled buffer, that one is, so that the call which begins it
    /// refuses.
    #[tactic(auto, unfolding(crate::specs::Buffer::IsSound))]
    pub fn island_needed(&self, distance: u32) -> bool
        requires sound { Unless (spoiled_of self.now) (IsSound L.kinds self.now) }
        ensures { result ≡ (spoiled_of self.now || is_needed (length (bytes_of self.now)) distance (pending_of L.kinds self.now)) }
    {
        let start = self.code.bytes.len() as u64 + distance as u64 + ISLAND_MARGIN;
        self.spoiled || self.pending.is_tight(&self.code.uses, &self.labels, start)
    }

    /// Returns whether so many bytes, and what is still to be put, end below the limit, and half of the inner labels are left; of a
    /// spoiled buffer, that they do, so that the call which puts them refuses.
    pub fn has_room(&self, part: u64) -> bool
        requires sound { Unless (spoiled_of self.now) (IsSound L.kinds self.now) }
        ensures { result ≡ (spoiled_of self.now || nat_lt (allocated_of self.now) (inner_count / 2) && nat_lt (length (bytes_of self.now) + part + reserve_of (shape_of self.now) + 8 * length (pending_of L.kinds self.now) + island_margin + 2) code_limit) }
    {
        self.spoiled || self.fits(part)
    }

    /// Returns what `has_room` does of a buffer that isn't spoiled.
    #[tactic(auto, unfolding(crate::specs::Buffer::IsSound))]
    fn fits(&self, part: u64) -> bool
        requires sound { IsSound L.kinds self.now }
        ensures { result ≡ (nat_lt (allocated_of self.now) (inner_count / 2) && nat_lt (length (bytes_of self.now) + part + reserve_of (shape_of self.now) + 8 * length (pending_of L.kinds self.now) + island_margin + 2) code_limit) }
    {
        if self.labels.allocated() >= INNER_COUNT / 2 {
            return false;
        }
        let end = self.code.bytes.len() as u128 + part as u128 + self.reserve();
        let veneers = 8 * self.pending.count(&self.code.uses, &self.labels);
        end + veneers + ISLAND_MARGIN as u128 + 2 < CODE_LIMIT
    }

    /// The bytes of the constants that don't stand yet, and what is kept for the alignment of each.
    fn reserve(&self) -> u128
        requires { length (registered_of self.now) ≤ inner_count }
        ensures value { result ≡ reserve_of (shape_of self.now) }
        ensures small { result < 2 ^ 96 }
    {
        let mut sum = 0;
        let mut number = 0;
        for constant in &self.constants.registered {
            let label = constant_label(VCodeConstant::from_u32(number));
            if self.labels.place(label).is_none() {
                sum += constant.bytes.len() as u128 + ALIGNMENT_RESERVE;
            }
            number += 1;
        }
        sum
    }
}
