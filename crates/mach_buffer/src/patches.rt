//! Patches: windows of code, with the offsets that they are to aim at.

ghost use Rattle.std.specs.Prelude.{◌≡◌, ◌-ℤ◌, pos, length};
ghost use Rattle.rv_base.specs.LabelUse.{SameOutside};
ghost use Rattle.mach_buffer.specs.Windows.{CanPatch, ChangesOnly, CanPatchAll, AllAim, AllKept, KeepsOthers, patch_of, patches_of};
ghost use Rattle.mach_uses.specs.Windows.{window};
ghost use Rattle.mach_uses.specs.Places.{place_in};

use mach_uses::{Labels, Use};
use rv_base::MachInstLabelUse;

/// The window at `offset` is to aim at `target`.
#[derive(Clone, Copy)]
pub struct Patch<L> {
    pub offset: u32,
    pub kind: L,
    pub target: u32,
}

/// Patches one window.
#[tactic(auto, using(crate::proofs::Windows::fresh_in_prefix, crate::proofs::Windows::kept_in_part))]
fn patch_one<L: MachInstLabelUse>(bytes: &mut [u8], patch: &Patch<L>)
    requires { CanPatch L.kinds bytes.old patch.now }
    ensures aims { L.kinds.aims patch.now.kind (window bytes.new patch.now.offset (length (L.kinds.fields patch.now.kind))) (pos patch.now.target -ℤ pos patch.now.offset) }
    ensures kept { SameOutside (L.kinds.fields patch.now.kind) (window bytes.old patch.now.offset (length (L.kinds.fields patch.now.kind))) (window bytes.new patch.now.offset (length (L.kinds.fields patch.now.kind))) }
    ensures others { ChangesOnly bytes.old bytes.new patch.now.offset (length (L.kinds.fields patch.now.kind)) }
{
    let start = patch.offset as usize;
    patch
        .kind
        .patch(&mut bytes[start..], patch.offset, patch.target);
}

/// The patch of a use: to its veneer, or else to its label's place.
fn resolve<L: MachInstLabelUse>(u: &Use<L>, labels: &Labels) -> Patch<L>
    ensures { result ≡ patch_of (place_in labels.now) u.now }
{
    let target = match u.veneer {
        Some(at) => at,
        None => labels.place(u.label).unwrap_or(0),
    };
    Patch {
        offset: u.offset,
        kind: u.kind,
        target,
    }
}

/// Patches the window of each use.
pub(crate) fn patch_all<L: MachInstLabelUse>(bytes: &mut [u8], uses: &[Use<L>], labels: &Labels)
    requires { CanPatchAll L.kinds bytes.old (patches_of (place_in labels.now) uses.now) }
    ensures aims { AllAim L.kinds bytes.new (patches_of (place_in labels.now) uses.now) }
    ensures kept { AllKept L.kinds bytes.old bytes.new (patches_of (place_in labels.now) uses.now) }
    ensures others { KeepsOthers L.kinds bytes.old bytes.new (patches_of (place_in labels.now) uses.now) }
    ensures same_length { length bytes.new ≡ length bytes.old }
{
    for u in uses {
        let patch = resolve(u, labels);
        patch_one(bytes, &patch);
    }
}
