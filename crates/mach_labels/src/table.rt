//! The table: three vectors for the numbers that lie close together, and a map for the others.

use crate::slots::{put, slot};
use rv_base::OutOfMemory;
use std::alloc::Global;
use std::collections::BTreeMap;

/// The number of the first label that a buffer gives out. A listing names only labels below, so the two never meet.
pub const FIRST_INNER: u32 = 0x40000000;

/// The number of the first constant's label. Listings and buffers give out only numbers below.
pub const FIRST_CONSTANT: u32 = 0x80000000;

/// What is known of each label, where something is.
///
/// Its memory is in proportion to the number of its entries, whatever their labels.
#[derive(Drop)]
pub struct LabelTable<T> {
    own: Vec<Option<T>>,
    inner: Vec<Option<T>>,
    constants: Vec<Option<T>>,
    sparse: BTreeMap<u32, T>,
    entries: usize,
}

impl<T: Copy> LabelTable<T> {
    ghost use Rattle.std.specs.Prelude.{◌≡◌, ◌<◌, ◌≤◌, ℕ, None, Some, OnOk, OnErr, nat_eq, if◌then◌else◌};
    ghost use Rattle.mach_labels.specs.Table.{first_inner, first_constant, dense_of, entry_of, Puts, Same};

    /// A table with no entries. Takes no memory.
    #[tactic(auto, unfolding(crate::specs::Table::entry_of))]
    pub fn new(alloc: Global) -> LabelTable<T>
        ensures { (label : ℕ) → entry_of result label ≡ None }
    {
        LabelTable {
            own: Vec::new(alloc),
            inner: Vec::new(alloc),
            constants: Vec::new(alloc),
            sparse: BTreeMap::new(alloc),
            entries: 0,
        }
    }

    /// What the table has for a label.
    #[tactic(auto, unfolding(crate::specs::Table::entry_of))]
    pub fn get(&self, label: u32) -> Option<T>
        ensures { result ≡ entry_of self.now label }
    {
        let dense = if label < FIRST_INNER {
            slot(&self.own, label as usize)
        } else if label < FIRST_CONSTANT {
            slot(&self.inner, (label - FIRST_INNER) as usize)
        } else {
            slot(&self.constants, (label - FIRST_CONSTANT) as usize)
        };
        match dense {
            Some(value) => Some(value),
            None => self.sparse.get(&label).copied(),
        }
    }

    /// Gives a label a value, in place of the one that it has. After a refusal each label has what it had.
    pub fn set(&mut self, label: u32, value: T) -> Result<(), OutOfMemory>
        ensures ok { OnOk result ((n : ℕ) → entry_of self.new n ≡ (if nat_eq n label then Some value else entry_of self.old n)) }
        ensures err { OnErr result ((n : ℕ) → entry_of self.new n ≡ entry_of self.old n) }
    {
        if self.get(label).is_none() {
            self.count_entry();
        }
        if label < FIRST_INNER {
            self.set_own(label, value)
        } else if label < FIRST_CONSTANT {
            self.set_inner(label, value)
        } else {
            self.set_constant(label, value)
        }
    }

    #[tactic(auto, unfolding(crate::specs::Table::entry_of))]
    fn count_entry(&mut self)
        ensures { Same self.old self.new }
    {
        self.entries = self.entries.saturating_add(1);
    }

    /// The index from which on labels stand in the map: a vector grows only in proportion to the entries.
    fn room(&self) -> usize {
        self.entries.saturating_mul(4).saturating_add(64)
    }

    fn set_own(&mut self, label: u32, value: T) -> Result<(), OutOfMemory>
        requires { label < first_inner }
        ensures ok { OnOk result (Puts label value self.old self.new) }
        ensures err { OnErr result (Same self.old self.new) }
    {
        let index = label as usize;
        if index < self.own.len() || index < self.room() {
            put(&mut self.own, index, value)
        } else {
            self.set_sparse(label, value)
        }
    }

    fn set_inner(&mut self, label: u32, value: T) -> Result<(), OutOfMemory>
        requires from { first_inner ≤ label }
        requires below { label < first_constant }
        ensures ok { OnOk result (Puts label value self.old self.new) }
        ensures err { OnErr result (Same self.old self.new) }
    {
        let index = (label - FIRST_INNER) as usize;
        if index < self.inner.len() || index < self.room() {
            put(&mut self.inner, index, value)
        } else {
            self.set_sparse(label, value)
        }
    }

    fn set_constant(&mut self, label: u32, value: T) -> Result<(), OutOfMemory>
        requires { first_constant ≤ label }
        ensures ok { OnOk result (Puts label value self.old self.new) }
        ensures err { OnErr result (Same self.old self.new) }
    {
        let index = (label - FIRST_CONSTANT) as usize;
        if index < self.constants.len() || index < self.room() {
            put(&mut self.constants, index, value)
        } else {
            self.set_sparse(label, value)
        }
    }

    // A label that has no slot.
    fn set_sparse(&mut self, label: u32, value: T) -> Result<(), OutOfMemory>
        requires { dense_of self.old label ≡ None }
        ensures ok { OnOk result (Puts label value self.old self.new) }
        ensures err { OnErr result (Same self.old self.new) }
    {
        self.sparse.insert(label, value)?;
        Ok(())
    }
}
