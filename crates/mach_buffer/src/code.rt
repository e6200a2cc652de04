//! The bytes of code, and the uses of labels among them.

ghost use Rattle.std.specs.Prelude.{◌≡◌, ◌+◌, ◌%◌, ◌<◌, vec_len, true};
ghost use Rattle.rv_base.specs.LabelUse.{code_limit};
ghost use Rattle.mach_buffer.specs.Shape.{veneer_use};

use mach_uses::Use;
use rv_base::{MachInstLabelUse, OutOfMemory};
use std::alloc::Global;

/// Bytes, and uses in the order in which they were recorded.
#[derive(Drop)]
pub struct Code<L> {
    pub(crate) bytes: Vec<u8>,
    pub(crate) uses: Vec<Use<L>>,
    ghost in_range: { vec_len bytes < code_limit },
}

impl<L: MachInstLabelUse> Code<L> {
    ghost use Rattle.std.specs.Prelude.{◌≡◌, ◌+◌, ◌-◌, ◌≤◌, ◌%◌, ◌++◌, ◌∷◌, [], length, OnOk, IsSomeAnd, Some, true, slice_get, slice_set};
    ghost use Rattle.mach_buffer.specs.Shape.{veneer_use};
    ghost use Rattle.mach_buffer.specs.Constants.{zeros};

    pub(crate) fn new(alloc: Global) -> Code<L>
        ensures bytes { result.bytes.items ≡ [] }
        ensures uses { result.uses.items ≡ [] }
    {
        Code {
            bytes: Vec::new(alloc),
            uses: Vec::new(alloc),
        }
    }

    /// Appends bytes.
    pub(crate) fn append(&mut self, bytes: &[u8]) -> Result<(), OutOfMemory>
        requires { length self.old.bytes.items + length bytes.now < code_limit }
        ensures bytes { OnOk result (self.new.bytes.items ≡ self.old.bytes.items ++ bytes.now) }
        ensures uses { self.new.uses ≡ self.old.uses }
    {
        self.bytes.extend_from_slice(bytes)?;
        Ok(())
    }

    /// Appends zero bytes up to an offset, which is at most 15 bytes ahead.
    pub(crate) fn pad_to(&mut self, offset: usize) -> Result<(), OutOfMemory>
        requires ahead { length self.old.bytes.items ≤ offset }
        requires near { offset ≤ length self.old.bytes.items + 15 }
        requires room { offset < code_limit }
        ensures bytes { OnOk result (self.new.bytes.items ≡ self.old.bytes.items ++ zeros (offset - length self.old.bytes.items)) }
        ensures uses { self.new.uses ≡ self.old.uses }
    {
        let count = offset - self.bytes.len();
        self.append(&[0; 15][..count])
    }

    /// Records a use.
    pub(crate) fn record_use(&mut self, u: Use<L>) -> Result<(), OutOfMemory>
        ensures uses { OnOk result (self.new.uses.items ≡ self.old.uses.items ++ u ∷ []) }
        ensures bytes { self.new.bytes ≡ self.old.bytes }
    {
        self.uses.push(u)?;
        Ok(())
    }

    /// Puts the veneer of the use at `index`, and records the veneer's own use.
    pub(crate) fn put_veneer(&mut self, index: usize) -> Result<(), OutOfMemory>
        requires may { IsSomeAnd (slice_get self.old.uses.items index) (λ u. L.kinds.has_veneer u.kind ≡ true) }
        requires room { length self.old.bytes.items + 8 < code_limit }
        requires even { length self.old.bytes.items % 2 ≡ 0 }
        ensures bytes { OnOk result (IsSomeAnd (slice_get self.old.uses.items index) (λ u. self.new.bytes.items ≡ self.old.bytes.items ++ (L.kinds.veneer u.kind).bytes)) }
        ensures uses { OnOk result (IsSomeAnd (slice_get self.old.uses.items index) (λ u. self.new.uses.items ≡ slice_set self.old.uses.items index (record u { veneer = Some (length self.old.bytes.items) }) ++ veneer_use (L.kinds.veneer u.kind) (length self.old.bytes.items) u.label ∷ [])) }
    {
        let at = self.bytes.len() as u32;
        let (code, own) = veneer_at(&self.uses[index], at);
        self.append(&code)?;
        self.uses[index].veneer = Some(at);
        self.record_use(own)?;
        Ok(())
    }
}

/// The veneer of a use that stands at `at`, and the veneer's own use.
fn veneer_at<L: MachInstLabelUse>(u: &Use<L>, at: u32) -> ([u8; 8], Use<L>)
    requires may { L.kinds.has_veneer u.now.kind ≡ true }
    requires even { at % 2 ≡ 0 }
    requires room { at + 8 < code_limit }
    ensures bytes { result.0 ≡ (L.kinds.veneer u.now.kind).bytes }
    ensures own { result.1 ≡ veneer_use (L.kinds.veneer u.now.kind) at u.now.label }
{
    let mut code = [0; 8];
    let (offset, kind) = u.kind.generate_veneer(&mut code, at);
    let own = Use {
        offset,
        label: u.label,
        kind,
        veneer: None,
    };
    (code, own)
}
