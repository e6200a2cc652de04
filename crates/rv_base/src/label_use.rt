//! What a buffer of code asks of the kinds of use by which code refers to labels.

use crate::reloc::Reloc;

/// A kind of use. Some bits of its window, the fields, hold the distance from the use to its label, in bytes.
///
/// A window is fresh while all bits of its fields are 0.
pub trait MachInstLabelUse: Copy + Eq {
    ghost use Rattle.std.specs.Prelude.{◌≡◌, ℕ, ◌+◌, ◌%◌, ◌≤◌, List, length, drop, take, ℤ, pos, ◌-ℤ◌, Bool, IsTrue, Option};
    ghost use Rattle.rv_base.specs.LabelUse.{IsFresh, SameOutside, Kinds, IsVeneer};
    ghost use Rattle.rv_base.specs.declared.reloc.Reloc.{Reloc as Relocation};

    /// Which windows encode which distance, which bits hold it, how far a use reaches, and by which veneer it may go. Of
    /// a kind that holds one part of a distance the window encodes that part.
    ghost kinds: { Kinds Self };

    /// Which kind is as a relocation with this addend, where one is.
    ghost of_reloc: { Relocation → ℤ → Option Self };

    ghost ALIGN: { ℕ };

    /// What a veneer's place is a multiple of, in bytes.
    const ALIGN: u32;

    fn max_pos_range(self) -> u32
        ensures { result ≡ kinds.forward self };

    fn max_neg_range(self) -> u32
        ensures { result ≡ kinds.backward self };

    /// The length of the window, in bytes.
    fn patch_size(self) -> u32
        ensures { result ≡ length (kinds.fields self) };

    /// Puts the distance from `use_offset` to `label_offset` into the fresh window that the buffer begins with.
    fn patch(self, buffer: &mut [u8], use_offset: u32, label_offset: u32)
        requires forward_in { label_offset ≤ use_offset + kinds.forward self }
        requires backward_in { use_offset ≤ label_offset + kinds.backward self }
        requires use_even { use_offset % 2 ≡ 0 }
        requires label_even { label_offset % 2 ≡ 0 }
        requires long { length (kinds.fields self) ≤ length buffer.old }
        requires fresh { IsFresh (kinds.fields self) buffer.old }
        ensures aims { kinds.aims self (take (length (kinds.fields self)) buffer.new) (pos label_offset -ℤ pos use_offset) }
        ensures others { SameOutside (kinds.fields self) buffer.old buffer.new }
        ensures rest { drop (length (kinds.fields self)) buffer.new ≡ drop (length (kinds.fields self)) buffer.old };

    fn supports_veneer(self) -> bool
        ensures { result ≡ kinds.has_veneer self };

    /// The length of the veneer, in bytes.
    fn veneer_size(self) -> u32
        requires { IsTrue (kinds.has_veneer self) }
        ensures { result ≡ 8 };

    fn worst_case_veneer_size() -> u32
        ensures { result ≡ 8 };

    /// Writes the veneer that is to stand at `veneer_offset`, and gives the place and the kind of its own use.
    fn generate_veneer(self, buffer: &mut [u8], veneer_offset: u32) -> (u32, Self)
        requires supported { IsTrue (kinds.has_veneer self) }
        requires eight { length buffer.old ≡ 8 }
        requires even { veneer_offset % 2 ≡ 0 }
        ensures bytes { buffer.new ≡ (kinds.veneer self).bytes }
        ensures place { result.0 ≡ veneer_offset + (kinds.veneer self).place }
        ensures kind { result.1 ≡ (kinds.veneer self).kind };

    /// The kind of use that fills the same bits as this relocation, where there is one.
    fn from_reloc(reloc: Reloc, addend: i64) -> Option<Self>
        ensures { result ≡ of_reloc reloc addend };

    ghost align_ok: { ALIGN ≡ 4 };

    /// A veneer's own use is fresh, needs no veneer, and reaches as far as code goes.
    ghost veneer_ok: { (kind : Self) → IsTrue (kinds.has_veneer kind) → IsVeneer kinds (kinds.veneer kind) };
}
