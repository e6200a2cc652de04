//! Comparisons by their names.

ghost use Rattle.std.specs.Prelude.{◌≡◌, Some};
ghost use Rattle.rv_base.specs.CondCodes.{name_of};
ghost use Rattle.rv_listing.specs.Comparisons.{cond_code};

use crate::fields::Token;
use crate::named::{Named, slot_named};
use rv_base::IntCC;

/// The ten comparisons.
const EVERY: [IntCC; 10] = [
    IntCC::Equal,
    IntCC::NotEqual,
    IntCC::SignedLessThan,
    IntCC::SignedGreaterThanOrEqual,
    IntCC::SignedGreaterThan,
    IntCC::SignedLessThanOrEqual,
    IntCC::UnsignedLessThan,
    IntCC::UnsignedGreaterThanOrEqual,
    IntCC::UnsignedGreaterThan,
    IntCC::UnsignedLessThanOrEqual,
];

/// The indices in `EVERY` by the names' slots.
const SLOTS: [u8; 256] = [
    0, 0, 0, 0, 0, 0, 0, 0, 0, 0, 0, 0, 0, 0, 0, 0, 0, 0, 0, 0, 0, 0, 0, 0, 0, 0, 0, 0, 0, 0, 6, 0,
    0, 0, 0, 0, 0, 0, 0, 0, 0, 0, 0, 0, 0, 0, 0, 0, 0, 0, 0, 0, 0, 0, 0, 0, 0, 0, 0, 0, 0, 0, 0, 0,
    0, 0, 0, 0, 0, 0, 0, 0, 0, 0, 0, 0, 0, 0, 0, 0, 0, 0, 0, 0, 0, 0, 0, 0, 0, 0, 0, 0, 0, 0, 0, 0,
    0, 0, 0, 0, 0, 0, 0, 0, 0, 0, 0, 0, 0, 0, 0, 0, 0, 0, 0, 0, 0, 0, 0, 0, 0, 0, 0, 0, 0, 0, 0, 0,
    0, 0, 3, 0, 0, 0, 1, 0, 0, 0, 0, 0, 0, 0, 0, 0, 0, 0, 0, 0, 0, 0, 0, 0, 0, 0, 0, 0, 0, 0, 0, 0,
    0, 0, 0, 0, 0, 0, 7, 0, 0, 0, 0, 0, 0, 0, 0, 0, 0, 0, 0, 4, 0, 0, 0, 0, 0, 0, 0, 0, 0, 0, 0, 0,
    0, 0, 0, 0, 0, 0, 0, 0, 0, 0, 5, 0, 0, 0, 0, 0, 0, 0, 0, 0, 0, 0, 0, 8, 0, 0, 0, 0, 0, 0, 0, 0,
    0, 0, 0, 0, 0, 0, 0, 0, 0, 0, 0, 0, 0, 0, 9, 0, 0, 0, 0, 0, 0, 0, 0, 0, 0, 0, 2, 0, 0, 0, 0, 0,
];

const FACTOR: u64 = 10517972530174996981;

impl Named for IntCC {
    ghost named = { name_of };

    fn name(self) -> &'static str {
        self.to_static_str()
    }
}

#[tactic(auto, using(crate::proofs::BySlot::cc_by_slot), unfolding(crate::specs::Comparisons::every))]
fn find(w: &[u8]) -> Option<IntCC>
    ensures { result ≡ cond_code w.now }
{
    slot_named(&EVERY, &SLOTS, FACTOR, w)
}

/// The comparison of this name.
#[tactic(auto, using(crate::proofs::BySlot::cc_found))]
pub fn cc_named(w: &[u8]) -> Option<IntCC>
    ensures reads { result ≡ cond_code w.now }
    ensures named { (code : IntCC) → w.now ≡ name_of code → result ≡ Some code }
{
    find(w)
}

impl Token for IntCC {
    ghost reads = { cond_code };

    fn read(w: &[u8]) -> Option<IntCC> {
        cc_named(w)
    }
}
