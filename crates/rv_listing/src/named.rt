//! Tokens that are names: few are tried in order, and more are found by their slots.

ghost use Rattle.std.specs.Prelude.{◌≡◌, ℕ, List};
ghost use Rattle.std.specs.List.{find};
ghost use Rattle.std.specs.Str.{bytes_eq};
ghost use Rattle.rv_listing.specs.Slots.{candidate, checked};

use crate::slots::candidate;
use crate::tokens::is;

/// What a name stands for.
pub(crate) trait Named: Copy {
    ghost named: { Self → List ℕ };

    /// Its name.
    fn name(self) -> &'static str
        ensures { result.now ≡ named self };
}

/// The one that has this name.
pub(crate) fn one_named<T: Named>(every: &[T], w: &[u8]) -> Option<T>
    ensures { result ≡ find (λ x. bytes_eq w.now (T.named x)) every.now }
{
    every.iter().copied().find(|x| is(x.name().as_bytes(), w))
}

/// The same, by the names' slots.
#[tactic(auto, unfolding(crate::specs::Slots::checked))]
pub(crate) fn slot_named<T: Named>(
    every: &[T],
    slots: &[u8; 256],
    factor: u64,
    w: &[u8],
) -> Option<T>
    ensures { result ≡ checked T.named w.now (candidate every.now slots.now factor w.now) }
{
    let x = candidate(every, slots, factor, w)?;
    if is(x.name().as_bytes(), w) {
        Some(x)
    } else {
        None
    }
}
