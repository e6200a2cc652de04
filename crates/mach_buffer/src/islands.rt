//! Islands: veneers that stand among the code, and the end of an island's jump.

use crate::buffer::MachBuffer;
use crate::constants::aligned_to;
use mach_records::ConstPlace;
use mach_uses::{PendingKey, deadline};
use rv_base::{ConstAlign, MachInstLabelUse, MachLabel, OutOfMemory, VCodeConstant};

impl<L: MachInstLabelUse> MachBuffer<L> {
    ghost use Rattle.std.specs.Prelude.{◌≡◌, ℕ, ◌+◌, ◌-◌, ◌*◌, ◌%◌, ◌<◌, ◌≤◌, [], length, map, OnOk, IsSomeAnd, Some, slice_get, true};
    ghost use Rattle.rv_base.specs.LabelUse.{code_limit};
    ghost use Rattle.mach_buffer.specs.Shape.{Shape, with_label};
    ghost use Rattle.mach_uses.specs.Labels.{inner_count};
    ghost use Rattle.mach_buffer.specs.Constants.{constant_end, end_after, put_constant, put_constants, AllStand};
    ghost use Rattle.mach_buffer.specs.Windows.{AreWindows};
    ghost use Rattle.mach_uses.specs.Reach.{deadline as last_of};
    ghost use Rattle.mach_buffer.specs.Veneers.{put_veneer as veneered, put_all};
    ghost use Rattle.mach_buffer.specs.Islands.{aligned, padded, needs_own as own_needed, with_own, CanIsland, Islanded, AddsOwn};
    ghost use Rattle.mach_buffer.specs.Inside.{inside_of, IsOrdered};
    ghost use Rattle.mach_buffer.specs.Growth.{Grows};
    ghost use Rattle.mach_uses.specs.Queues.{key_number};
    ghost use Rattle.mach_buffer.specs.VeneerConditions.{CanPutAll};
    ghost use Rattle.mach_uses.specs.Order.{CanPut};
    ghost use Rattle.mach_buffer.specs.Buffer.{shape_of, bytes_of, uses_of, place_of, registered_of, spoiled_of, Unless, TakesAs, IsSound};

    /// Makes an island after its jump, whose four bytes stand last: zero bytes to a multiple of four, the jump's own veneer
    /// where it needs one; a veneer for each other pending use, by deadline, then by place, then as recorded; the constants that
    /// don't stand yet, each after zero bytes to its alignment, in the order of their first use; and zero bytes to a multiple of four. Binds
    /// `after_island` at the end.
    pub fn emit_island(&mut self, after_island: MachLabel) -> Result<(), OutOfMemory>
        requires sound { Unless (spoiled_of self.old) (IsSound L.kinds self.old) }
        requires ready { Unless (spoiled_of self.old) (CanIsland L.kinds (shape_of self.old) after_island) }
        ensures island { TakesAs result (λ (old new : Shape L). Islanded L.kinds after_island old new) self.old self.new }
        ensures grows { OnOk result (Grows (bytes_of self.old) (uses_of self.old) (place_of self.old) (bytes_of self.new) (uses_of self.new) (place_of self.new)) }
        ensures own { OnOk result (AddsOwn L.kinds (length (bytes_of self.old)) (uses_of self.old) (uses_of self.new)) }
        ensures windows { OnOk result (AreWindows L.kinds (bytes_of self.old) (uses_of self.old) → AreWindows L.kinds (bytes_of self.new) (uses_of self.new)) }
        ensures constants { OnOk result (AreWindows L.kinds (bytes_of self.old) (uses_of self.old) → AllStand L.kinds (shape_of self.old) → AllStand L.kinds (shape_of self.new)) }
        ensures sound { OnOk result (IsSound L.kinds self.new) }
    {
        self.check()?;
        match self.put_island(after_island) {
            Ok(()) => Ok(()),
            Err(error) => {
                self.spoiled = true;
                Err(error)
            }
        }
    }

    #[tactic(auto, unfolding(crate::specs::Buffer::IsSound))]
    fn put_island(&mut self, after_island: MachLabel) -> Result<(), OutOfMemory>
        requires sound { IsSound L.kinds self.old }
        requires ready { CanIsland L.kinds (shape_of self.old) after_island }
        ensures island { OnOk result (Islanded L.kinds after_island (shape_of self.old) (shape_of self.new)) }
        ensures grows { OnOk result (Grows (bytes_of self.old) (uses_of self.old) (place_of self.old) (bytes_of self.new) (uses_of self.new) (place_of self.new)) }
        ensures own { OnOk result (AddsOwn L.kinds (length (bytes_of self.old)) (uses_of self.old) (uses_of self.new)) }
        ensures windows { OnOk result (AreWindows L.kinds (bytes_of self.old) (uses_of self.old) → AreWindows L.kinds (bytes_of self.new) (uses_of self.new)) }
        ensures constants { OnOk result (AreWindows L.kinds (bytes_of self.old) (uses_of self.old) → AllStand L.kinds (shape_of self.old) → AllStand L.kinds (shape_of self.new)) }
        ensures sound { OnOk result (IsSound L.kinds self.new) }
        ensures spoiled { spoiled_of self.new ≡ spoiled_of self.old }
    {
        self.pad()?;
        let order = self.pending.order(
            &self.code.uses,
            &self.labels,
            Some(after_island),
            self.alloc,
        )?;
        let needed = self.needs_own(order.len());
        self.put_pending(needed, &order)?;
        self.pad()?;
        self.pending.clear();
        self.place_label(after_island)?;
        Ok(())
    }

    /// Puts zero bytes to a multiple of four.
    pub(crate) fn pad(&mut self) -> Result<(), OutOfMemory>
        requires room { aligned (length (bytes_of self.old)) < code_limit }
        ensures shape { OnOk result (shape_of self.new ≡ padded (shape_of self.old)) }
        ensures inside { inside_of self.new ≡ inside_of self.old }
        ensures spoiled { spoiled_of self.new ≡ spoiled_of self.old }
    {
        let end = aligned_to(ConstAlign::A4, self.code.bytes.len() as u64);
        self.code.pad_to(end as usize)
    }

    /// Puts the veneer of the use at `index`.
    fn put_veneer(&mut self, index: usize) -> Result<(), OutOfMemory>
        requires may { IsSomeAnd (slice_get (uses_of self.old) index) (λ u. L.kinds.has_veneer u.kind ≡ true) }
        requires room { length (bytes_of self.old) + 8 < code_limit }
        requires even { length (bytes_of self.old) % 2 ≡ 0 }
        ensures shape { OnOk result (shape_of self.new ≡ veneered L.kinds index (shape_of self.old)) }
        ensures inside { inside_of self.new ≡ inside_of self.old }
        ensures spoiled { spoiled_of self.new ≡ spoiled_of self.old }
    {
        self.code.put_veneer(index)
    }

    /// Returns whether an island with `count` veneers from here on, and the constants that don't stand yet, ends out of reach
    /// of the use that was recorded last.
    #[tactic(auto, using(std::proofs::lemmas::Option::gets, crate::proofs::ConstantsPut::ends_is))]
    fn needs_own(&self, count: usize) -> bool
        requires some { 1 ≤ length (uses_of self.now) }
        requires room { end_after (shape_of self.now) (length (bytes_of self.now) + 8 * count) < code_limit }
        ensures { IsSomeAnd (slice_get (uses_of self.now) (length (uses_of self.now) - 1)) (λ u. result ≡ own_needed (end_after (shape_of self.now)) (length (bytes_of self.now)) count (last_of L.kinds u)) }
    {
        let veneers_end = self.code.bytes.len() as u64 + 8 * count as u64;
        let end = aligned_to(ConstAlign::A4, self.constants.end_after(veneers_end));
        let last = &self.code.uses[self.code.uses.len() - 1];
        deadline(last) < end
    }

    /// Puts the veneer of the use that was recorded last, where it needs one; the veneers of uses in their order; and the
    /// constants that don't stand yet.
    pub(crate) fn put_pending(
        &mut self,
        needed: bool,
        order: &[PendingKey],
    ) -> Result<(), OutOfMemory>
        requires { CanPutAll L.kinds (shape_of self.old) (with_own needed (length (uses_of self.old) - 1) (map key_number order.now)) }
        ensures put { OnOk result (shape_of self.new ≡ put_constants (put_all L.kinds (with_own needed (length (uses_of self.old) - 1) (map key_number order.now)) (shape_of self.old))) }
        ensures inside { inside_of self.new ≡ inside_of self.old }
        ensures spoiled { spoiled_of self.new ≡ spoiled_of self.old }
    {
        self.put_own(needed)?;
        self.put_veneers(order)?;
        self.put_constants()?;
        Ok(())
    }

    /// Puts the veneer of the use that was recorded last, where it needs one.
    fn put_own(&mut self, needed: bool) -> Result<(), OutOfMemory>
        requires some { needed ≡ true → 1 ≤ length (uses_of self.old) }
        requires may { needed ≡ true → IsSomeAnd (slice_get (uses_of self.old) (length (uses_of self.old) - 1)) (λ u. L.kinds.has_veneer u.kind ≡ true) }
        requires room { needed ≡ true → length (bytes_of self.old) + 8 < code_limit }
        requires even { length (bytes_of self.old) % 2 ≡ 0 }
        ensures shape { OnOk result (shape_of self.new ≡ put_all L.kinds (with_own needed (length (uses_of self.old) - 1) []) (shape_of self.old)) }
        ensures inside { inside_of self.new ≡ inside_of self.old }
        ensures spoiled { spoiled_of self.new ≡ spoiled_of self.old }
    {
        if needed {
            let index = self.code.uses.len() - 1;
            self.put_veneer(index)?;
        }
        Ok(())
    }

    /// Puts the veneers of uses in their order.
    #[tactic(auto, using(crate::proofs::VeneersAndConstants::going_may, crate::proofs::VeneersAndConstants::going_room, mach_uses::proofs::Lists::drop_mapped))]
    fn put_veneers(&mut self, order: &[PendingKey]) -> Result<(), OutOfMemory>
        requires can { CanPut L.kinds (uses_of self.old) (length (bytes_of self.old)) (map key_number order.now) }
        requires room { length (bytes_of self.old) + 8 * length order.now < code_limit }
        requires even { length (bytes_of self.old) % 2 ≡ 0 }
        ensures put { OnOk result (shape_of self.new ≡ put_all L.kinds (map key_number order.now) (shape_of self.old)) }
        ensures inside { inside_of self.new ≡ inside_of self.old }
        ensures spoiled { spoiled_of self.new ≡ spoiled_of self.old }
    {
        for key in order {
            self.put_veneer(key.index)?;
        }
        Ok(())
    }

    /// Puts the constants that don't stand yet, in the order of their first use.
    fn put_constants(&mut self) -> Result<(), OutOfMemory>
        requires ordered { IsOrdered (shape_of self.old) }
        requires room { end_after (shape_of self.old) (length (bytes_of self.old)) < code_limit }
        ensures put { OnOk result (shape_of self.new ≡ put_constants (shape_of self.old)) }
        ensures inside { inside_of self.new ≡ inside_of self.old }
        ensures spoiled { spoiled_of self.new ≡ spoiled_of self.old }
    {
        for index in self.constants.placed.len()..self.constants.named.len() {
            let constant = self.constants.named[index];
            self.put_constant(constant)?;
        }
        Ok(())
    }

    /// Puts a constant after zero bytes to its alignment, and binds its label where it begins.
    fn put_constant(&mut self, constant: VCodeConstant) -> Result<(), OutOfMemory>
        requires known { constant.number < length (registered_of self.old) }
        requires few { constant.number < inner_count }
        requires room { constant_end (slice_get (registered_of self.old) constant.number) (length (bytes_of self.old)) < code_limit }
        ensures shape { OnOk result (shape_of self.new ≡ put_constant constant (shape_of self.old)) }
        ensures named { self.new.constants.named ≡ self.old.constants.named }
        ensures inside { inside_of self.new ≡ inside_of self.old }
        ensures spoiled { spoiled_of self.new ≡ spoiled_of self.old }
    {
        let data = &self.constants.registered[constant.number as usize];
        let offset = aligned_to(data.align, self.code.bytes.len() as u64);
        self.code.pad_to(offset as usize)?;
        self.code.append(data.bytes.as_slice())?;
        self.labels.bind_constant(constant, offset as u32)?;
        self.constants.placed.push(ConstPlace {
            constant,
            offset: offset as u32,
        })?;
        Ok(())
    }
}
