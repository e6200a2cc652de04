//! Atomic operations by their mnemonics, and orderings by their names.

ghost use Rattle.std.specs.Prelude.{◌≡◌, Some};
ghost use Rattle.rv_ops.specs.Atomic.{atomic_name};
ghost use Rattle.rv_listing.specs.Atomics.{amo, amo_name, atomic_op};

use crate::fields::Token;
use crate::named::{Named, one_named};
use rv_ops::{AMO, AtomicOP};

const EVERY_ATOMIC: [AtomicOP; 22] = [
    AtomicOP::LrW,
    AtomicOP::ScW,
    AtomicOP::AmoswapW,
    AtomicOP::AmoaddW,
    AtomicOP::AmoxorW,
    AtomicOP::AmoandW,
    AtomicOP::AmoorW,
    AtomicOP::AmominW,
    AtomicOP::AmomaxW,
    AtomicOP::AmominuW,
    AtomicOP::AmomaxuW,
    AtomicOP::LrD,
    AtomicOP::ScD,
    AtomicOP::AmoswapD,
    AtomicOP::AmoaddD,
    AtomicOP::AmoxorD,
    AtomicOP::AmoandD,
    AtomicOP::AmoorD,
    AtomicOP::AmominD,
    AtomicOP::AmomaxD,
    AtomicOP::AmominuD,
    AtomicOP::AmomaxuD,
];

impl Named for AtomicOP {
    ghost named = { atomic_name };

    fn name(self) -> &'static str {
        AtomicOP::name(self)
    }
}

/// The operation that has this mnemonic, without an ordering.
#[tactic(auto, using(crate::proofs::ByName::atomic_found), unfolding(crate::specs::Atomics::atomic_op, crate::specs::Atomics::every_atomic))]
pub fn atomic_named(w: &[u8]) -> Option<AtomicOP>
    ensures reads { result ≡ atomic_op w.now }
    ensures named { (x : AtomicOP) → w.now ≡ atomic_name x → result ≡ Some x }
{
    one_named(&EVERY_ATOMIC, w)
}

impl Token for AtomicOP {
    ghost reads = { atomic_op };

    fn read(w: &[u8]) -> Option<AtomicOP> {
        atomic_named(w)
    }
}

const EVERY_AMO: [AMO; 4] = [AMO::Relax, AMO::Release, AMO::Acquire, AMO::SeqCst];

impl Named for AMO {
    ghost named = { amo_name };

    fn name(self) -> &'static str {
        match self {
            AMO::Relax => "relax",
            AMO::Release => "rel",
            AMO::Acquire => "acq",
            AMO::SeqCst => "seqcst",
        }
    }
}

/// The ordering of this name.
#[tactic(auto, using(crate::proofs::ByName::amo_found), unfolding(crate::specs::Atomics::amo))]
pub fn amo_named(w: &[u8]) -> Option<AMO>
    ensures reads { result ≡ amo w.now }
    ensures named { (x : AMO) → w.now ≡ amo_name x → result ≡ Some x }
{
    one_named(&EVERY_AMO, w)
}

impl Token for AMO {
    ghost reads = { amo };

    fn read(w: &[u8]) -> Option<AMO> {
        amo_named(w)
    }
}
