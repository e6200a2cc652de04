//! The places of labels, and the labels that a buffer gives out.

ghost use Rattle.std.specs.Prelude.{◌≡◌, ◌<◌, ◌≤◌};
ghost use Rattle.mach_uses.specs.Labels.{constant_label, inner_count};

use crate::uses::LabelPlace;
use mach_labels::{FIRST_CONSTANT, FIRST_INNER, LabelTable};
use rv_base::{MachLabel, OutOfMemory, VCodeConstant};
use std::alloc::Global;

/// How many labels a buffer can give out.
pub const INNER_COUNT: u32 = 0x40000000;

/// The label of a constant.
pub fn constant_label(constant: VCodeConstant) -> MachLabel
    requires { constant.number < inner_count }
    ensures { result ≡ constant_label constant }
{
    MachLabel::from_u32(FIRST_CONSTANT + constant.number)
}

/// Where each bound label stands, the listing's labels in order of binding, and how many labels were given out.
#[derive(Drop)]
pub struct Labels {
    pub(crate) table: LabelTable<u32>,
    pub(crate) bound: Vec<LabelPlace>,
    pub(crate) allocated: u32,
    ghost few: { allocated ≤ inner_count },
}

impl Labels {
    ghost use Rattle.std.specs.Prelude.{◌≡◌, ◌+◌, ◌<◌, ◌++◌, [], ℕ, OnOk, None};
    ghost use Rattle.mach_labels.specs.Table.{first_inner};
    ghost use Rattle.mach_uses.specs.Labels.{placed, listed, constant_label};
    ghost use Rattle.mach_uses.specs.Places.{place_in};

    /// No labels. Takes no memory.
    pub fn new(alloc: Global) -> Labels
        ensures places { (label : ℕ) → place_in result label ≡ None }
        ensures bound { result.bound.items ≡ [] }
        ensures allocated { result.allocated ≡ 0 }
    {
        Labels {
            table: LabelTable::new(alloc),
            bound: Vec::new(alloc),
            allocated: 0,
        }
    }

    /// Where a label is bound.
    pub fn place(&self, label: MachLabel) -> Option<u32>
        ensures { result ≡ place_in self.now label.number }
    {
        self.table.get(label.number)
    }

    /// Where labels are bound, by their numbers.
    pub fn places(&self) -> &LabelTable<u32>
        ensures { result.now ≡ self.now.table }
    {
        &self.table
    }

    /// How many labels were given out.
    pub fn allocated(&self) -> u32
        ensures { result ≡ self.now.allocated }
    {
        self.allocated
    }

    /// The listing's labels that are bound, in order of binding.
    pub fn into_bound(self) -> Vec<LabelPlace>
        ensures { result ≡ self.bound }
    {
        let Labels {
            table,
            bound,
            allocated,
        } = self;
        bound
    }

    /// Gives out a label.
    pub fn allocate(&mut self) -> MachLabel
        requires { self.old.allocated < inner_count }
        ensures number { result.number ≡ first_inner + self.old.allocated }
        ensures allocated { self.new.allocated ≡ self.old.allocated + 1 }
        ensures places { place_in self.new ≡ place_in self.old }
        ensures bound { self.new.bound ≡ self.old.bound }
    {
        let label = MachLabel::from_u32(FIRST_INNER + self.allocated);
        self.allocated += 1;
        label
    }

    /// Binds a label at an offset.
    pub fn bind(&mut self, label: MachLabel, at: u32) -> Result<(), OutOfMemory>
        ensures places { OnOk result (place_in self.new ≡ placed (place_in self.old) label.number at) }
        ensures bound { OnOk result (self.new.bound.items ≡ self.old.bound.items ++ listed label at) }
        ensures allocated { self.new.allocated ≡ self.old.allocated }
    {
        self.list(label, at)?;
        self.table.set(label.number, at)?;
        Ok(())
    }

    /// Binds the label of a constant at an offset.
    pub fn bind_constant(&mut self, constant: VCodeConstant, at: u32) -> Result<(), OutOfMemory>
        requires { constant.number < inner_count }
        ensures places { OnOk result (place_in self.new ≡ placed (place_in self.old) (constant_label constant).number at) }
        ensures bound { self.new.bound ≡ self.old.bound }
        ensures allocated { self.new.allocated ≡ self.old.allocated }
    {
        self.table.set(constant_label(constant).number, at)?;
        Ok(())
    }

    /// Adds a listing's label to those in order of binding.
    fn list(&mut self, label: MachLabel, at: u32) -> Result<(), OutOfMemory>
        ensures bound { OnOk result (self.new.bound.items ≡ self.old.bound.items ++ listed label at) }
        ensures table { self.new.table ≡ self.old.table }
        ensures allocated { self.new.allocated ≡ self.old.allocated }
    {
        if label.number < FIRST_INNER {
            self.bound.push(LabelPlace { label, offset: at })?;
        }
        Ok(())
    }
}
