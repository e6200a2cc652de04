//! Names by a table of slots: a word's slot holds the index of the one name that it may be. `bench/slots` makes tables.

ghost use Rattle.std.specs.Prelude.{◌≡◌, ℕ, ◌<◌, ◌≤◌, ◌-◌, ◌/◌, ◌^◌, length, slice_get, slice_index};
ghost use Rattle.rv_listing.specs.Slots.{key, slot, candidate};

// The byte at an index, or 0 where there is none.
#[inline(always)]
fn byte(w: &[u8], index: usize) -> u64
    ensures value { result ≡ slice_index w.now index }
    ensures small { result < 256 }
{
    if index < w.len() {
        u64::from(w[index])
    } else {
        0
    }
}

// The byte at an index that the word has.
#[inline(always)]
fn byte_in(w: &[u8], index: usize) -> u64
    requires { index < length w.now }
    ensures value { result ≡ slice_index w.now index }
    ensures small { result < 256 }
{
    u64::from(w[index])
}

/// The number of a word: five of its bytes and its length, which tell any two names of a table apart.
#[inline(always)]
fn key(w: &[u8]) -> u64
    ensures { result ≡ key w.now }
{
    if w.len() < 2 {
        key_of_letter(w)
    } else {
        key_of_more(w)
    }
}

// The same of a word of one letter, or of none.
#[inline(never)]
#[tactic(auto, unfolding(crate::specs::Slots::key))]
fn key_of_letter(w: &[u8]) -> u64
    ensures { result ≡ key w.now }
{
    byte(w, 0)
        + byte(w, 1) * 0x100
        + byte(w, 2) * 0x1_0000
        + byte(w, w.len().saturating_sub(2)) * 0x100_0000
        + byte(w, w.len().saturating_sub(1)) * 0x1_0000_0000
        + w.len() as u64 % 0x100 * 0x100_0000_0000
}

// The same of one of two letters or more, nearly all of whose bytes are known to be there.
#[inline(always)]
#[tactic(auto, unfolding(crate::specs::Slots::key))]
fn key_of_more(w: &[u8]) -> u64
    requires { 2 ≤ length w.now }
    ensures { result ≡ key w.now }
{
    byte_in(w, 0)
        + byte_in(w, 1) * 0x100
        + byte(w, 2) * 0x1_0000
        + byte_in(w, w.len() - 2) * 0x100_0000
        + byte_in(w, w.len() - 1) * 0x1_0000_0000
        + w.len() as u64 % 0x100 * 0x100_0000_0000
}

#[inline(always)]
#[tactic(auto, unfolding(crate::specs::Slots::slot))]
fn slot(factor: u64, w: &[u8]) -> usize
    ensures value { result ≡ slot factor w.now }
    ensures small { result < 256 }
{
    (key(w).wrapping_mul(factor) >> 56) as usize
}

/// The one of `every` that may have this name: of all the names, only its own can stand in the word's slot.
#[inline(always)]
#[tactic(auto, unfolding(crate::specs::Slots::candidate))]
pub(crate) fn candidate<T: Copy>(every: &[T], slots: &[u8; 256], factor: u64, w: &[u8]) -> Option<T>
    ensures { result ≡ candidate every.now slots.now factor w.now }
{
    every.get(slots[slot(factor, w)] as usize).copied()
}
