//! How far uses reach, and which of them are pending.

ghost use Rattle.std.specs.Prelude.{◌≡◌, ◌<◌, ◌^◌};
ghost use Rattle.mach_uses.specs.Reach.{deadline as last_of, is_reached as reached, is_pending as pending, names as names_label};
ghost use Rattle.mach_uses.specs.Queues.{queue_of as queue_number};
ghost use Rattle.mach_uses.specs.Places.{place_in};

use crate::labels::Labels;
use crate::uses::Use;
use rv_base::{MachInstLabelUse, MachLabel};

/// The reach, in bytes, from which on a use belongs to the second queue. Compressed jumps reach less far, branches further.
const NEAR_REACH: u32 = 1 << 11;

/// The reach, in bytes, from which on a use belongs to the third queue. Branches reach less far, jumps further.
const FAR_REACH: u32 = 1 << 16;

/// What stands in an island before the veneers of pending uses: its jump, at most two bytes of padding, and the jump's own veneer.
const ISLAND_FRONT: u64 = 4 + 2 + 8;

/// What is kept free for an island: its front, and the veneers of two uses more.
pub const ISLAND_MARGIN: u64 = ISLAND_FRONT + 8 * 2;

/// The last offset that a use reaches.
pub fn deadline<L: MachInstLabelUse>(u: &Use<L>) -> u64
    ensures value { result ≡ last_of L.kinds u.now }
    ensures small { result < 2 ^ 33 }
{
    u.offset as u64 + u.kind.max_pos_range() as u64
}

/// Returns whether the label of a use is bound within its reach.
fn is_reached<L: MachInstLabelUse>(u: &Use<L>, labels: &Labels) -> bool
    ensures { result ≡ reached L.kinds (place_in labels.now u.now.label.number) u.now }
{
    match labels.place(u.label) {
        Some(at) => {
            let forward = u.offset as u64 + u.kind.max_pos_range() as u64;
            let backward = at as u64 + u.kind.max_neg_range() as u64;
            at as u64 <= forward && u.offset as u64 <= backward
        }
        None => false,
    }
}

/// Returns whether a use has neither its label in reach nor a veneer, and may go by one.
pub(crate) fn is_pending<L: MachInstLabelUse>(u: &Use<L>, labels: &Labels) -> bool
    ensures { result ≡ pending L.kinds (place_in labels.now) u.now }
{
    u.kind.supports_veneer() && u.veneer.is_none() && !is_reached(u, labels)
}

/// The number of the queue that a use belongs to.
pub(crate) fn queue_of<L: MachInstLabelUse>(u: &Use<L>) -> usize
    ensures { result ≡ queue_number L.kinds u.now }
{
    let reach = u.kind.max_pos_range();
    if reach < NEAR_REACH {
        0
    } else if reach < FAR_REACH {
        1
    } else {
        2
    }
}

/// Returns whether a use names this label.
pub(crate) fn names<L: MachInstLabelUse>(label: Option<MachLabel>, u: &Use<L>) -> bool
    ensures { result ≡ names_label label u.now }
{
    match label {
        Some(named) => u.label.number == named.number,
        None => false,
    }
}
