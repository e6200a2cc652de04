//! Kinds of relocations by their names.

ghost use Rattle.std.specs.Prelude.{◌≡◌, Some};
ghost use Rattle.rv_listing.specs.Relocations.{kind_name, kind_named};

use crate::tokens::is;
use rv_base::Reloc;

/// The name of a kind.
pub fn kind_name(kind: Reloc) -> &'static str
    ensures { result.now ≡ kind_name kind }
{
    match kind {
        Reloc::RiscvCallPlt => "RiscvCallPlt",
        Reloc::RiscvGotHi20 => "RiscvGotHi20",
        Reloc::RiscvPCRelHi20 => "RiscvPCRelHi20",
        Reloc::RiscvPCRelLo12I => "RiscvPCRelLo12I",
        Reloc::Abs8 => "Abs8",
    }
}

#[tactic(auto, unfolding(crate::specs::Relocations::kind_named))]
fn find(w: &[u8]) -> Option<Reloc>
    ensures { result ≡ kind_named w.now }
{
    if is(b"RiscvCallPlt", w) {
        Some(Reloc::RiscvCallPlt)
    } else if is(b"RiscvGotHi20", w) {
        Some(Reloc::RiscvGotHi20)
    } else if is(b"RiscvPCRelHi20", w) {
        Some(Reloc::RiscvPCRelHi20)
    } else if is(b"RiscvPCRelLo12I", w) {
        Some(Reloc::RiscvPCRelLo12I)
    } else if is(b"Abs8", w) {
        Some(Reloc::Abs8)
    } else {
        None
    }
}

/// The kind of this name.
#[tactic(auto, using(crate::proofs::RecordLines::kind_found))]
pub fn reloc_named(w: &[u8]) -> Option<Reloc>
    ensures reads { result ≡ kind_named w.now }
    ensures named { (kind : Reloc) → w.now ≡ kind_name kind → result ≡ Some kind }
{
    find(w)
}
