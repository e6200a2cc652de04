//! Constants: those that code may name, those that it names, and those that stand among it.

ghost use Rattle.std.specs.Prelude.{◌≡◌, ◌<◌, ◌≤◌, ◌+◌, ℕ, length, slice_get, IfOk};
ghost use Rattle.rv_base.specs.LabelUse.{code_limit};
ghost use Rattle.mach_buffer.specs.Constants.{aligned_to as next_multiple, constant_end};

use mach_records::ConstPlace;
use rv_base::{ConstAlign, Constant, List, OutOfMemory, VCodeConstant};
use std::alloc::Global;

/// The constants that code may name, and for each whether it does; those that it names, in the order of their first use; and
/// those that stand, which are the first of these.
#[derive(Drop)]
pub struct Constants {
    pub(crate) registered: Vec<Constant>,
    pub(crate) seen: Vec<bool>,
    pub(crate) named: Vec<VCodeConstant>,
    pub(crate) placed: Vec<ConstPlace>,
}

/// The next multiple of an alignment, of two at least.
pub(crate) fn aligned_to(align: ConstAlign, offset: u64) -> u64
    requires { offset < code_limit }
    ensures value { result ≡ next_multiple align offset }
    ensures after { offset ≤ result }
    ensures near { result ≤ offset + 15 }
{
    match align {
        ConstAlign::A1 | ConstAlign::A2 => (offset + 1) / 2 * 2,
        ConstAlign::A4 => (offset + 3) / 4 * 4,
        ConstAlign::A8 => (offset + 7) / 8 * 8,
        ConstAlign::A16 => (offset + 15) / 16 * 16,
    }
}

/// A constant with the same bytes and alignment.
fn copy_of(constant: &Constant, alloc: Global) -> Result<Constant, OutOfMemory>
    ensures { IfOk result (λ copy. copy ≡ constant.now) }
{
    Ok(Constant {
        bytes: List::from_slice(alloc, constant.bytes.as_slice())?,
        align: constant.align,
    })
}

/// Where a constant ends that is put at an offset or after it.
fn end_of(registered: &[Constant], constant: VCodeConstant, offset: u64) -> u64
    requires { constant_end (slice_get registered.now constant.number) offset < code_limit }
    ensures { result ≡ constant_end (slice_get registered.now constant.number) offset }
{
    match registered.get(constant.number as usize) {
        Some(constant) => aligned_to(constant.align, offset) + constant.bytes.len() as u64,
        None => offset,
    }
}

impl Constants {
    ghost use Rattle.std.specs.Prelude.{◌≡◌, ◌<◌, ◌≤◌, [], drop, length, OnOk};
    ghost use Rattle.mach_uses.specs.Labels.{name_more};
    ghost use Rattle.mach_buffer.specs.Constants.{constants_end};
    ghost use Rattle.mach_buffer.specs.Inside.{AreNoted};

    pub(crate) fn new(alloc: Global) -> Constants
        ensures registered { result.registered.items ≡ [] }
        ensures seen { result.seen.items ≡ [] }
        ensures named { result.named.items ≡ [] }
        ensures placed { result.placed.items ≡ [] }
    {
        Constants {
            registered: Vec::new(alloc),
            seen: Vec::new(alloc),
            named: Vec::new(alloc),
            placed: Vec::new(alloc),
        }
    }

    /// Keeps copies of the constants that code may name. There are none so far.
    #[tactic(auto, using(std::proofs::lemmas::Grind::common_steps, crate::proofs::ConstantOrder::noted_none))]
    pub(crate) fn register(
        &mut self,
        constants: &[Constant],
        alloc: Global,
    ) -> Result<(), OutOfMemory>
        requires registered { self.old.registered.items ≡ [] }
        requires seen { self.old.seen.items ≡ [] }
        requires named { self.old.named.items ≡ [] }
        ensures registered { OnOk result (self.new.registered.items ≡ constants.now) }
        ensures named { self.new.named ≡ self.old.named }
        ensures placed { self.new.placed ≡ self.old.placed }
        ensures noted { OnOk result (AreNoted self.new.registered.items self.new.named.items self.new.seen.items) }
    {
        for constant in constants {
            self.registered.push(copy_of(constant, alloc)?)?;
            self.seen.push(false)?;
        }
        Ok(())
    }

    /// Notes that code names a constant.
    pub(crate) fn name(&mut self, constant: VCodeConstant) -> Result<(), OutOfMemory>
        requires known { constant.number < length self.old.registered.items }
        requires noted { AreNoted self.old.registered.items self.old.named.items self.old.seen.items }
        ensures named { OnOk result (self.new.named.items ≡ name_more constant self.old.named.items) }
        ensures registered { self.new.registered ≡ self.old.registered }
        ensures placed { self.new.placed ≡ self.old.placed }
        ensures noted { OnOk result (AreNoted self.new.registered.items self.new.named.items self.new.seen.items) }
    {
        let index = constant.number as usize;
        if !self.seen[index] {
            self.named.push(constant)?;
            self.seen[index] = true;
        }
        Ok(())
    }

    /// Where the constants that don't stand yet end, when they are put from an offset on.
    #[tactic(auto, using(std::proofs::lemmas::Grind::common_steps, crate::proofs::ConstantsPut::ends_is))]
    pub(crate) fn end_after(&self, start: u64) -> u64
        requires { constants_end self.now.registered.items (drop (length self.now.placed.items) self.now.named.items) start < code_limit }
        ensures { result ≡ constants_end self.now.registered.items (drop (length self.now.placed.items) self.now.named.items) start }
    {
        let mut end = start;
        for index in self.placed.len()..self.named.len() {
            end = end_of(&self.registered, self.named[index], end);
        }
        end
    }
}
