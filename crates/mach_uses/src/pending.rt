//! The queues of pending uses.

use crate::labels::Labels;
use crate::reach::{deadline, is_pending, names, queue_of};
use crate::uses::{PendingKey, Use};
use rv_base::{MachInstLabelUse, MachLabel, OutOfMemory};
use std::alloc::Global;

/// The numbers of uses, in the order in which they were recorded, among them all that are pending; and a number from which
/// on the veneers of all of them still end by their deadlines. It is 0 where that isn't known.
#[derive(Drop)]
pub struct Queue {
    pub(crate) numbers: Vec<usize>,
    pub(crate) slack: u64,
}

/// A queue for each kind that supports a veneer: that of compressed jumps, that of branches and that of jumps. A kind has one
/// reach, so each is in order of deadlines where it is in order of place.
#[derive(Drop)]
pub struct Pending {
    pub(crate) short: Queue,
    pub(crate) near: Queue,
    pub(crate) far: Queue,
}

/// Returns whether a use is pending, and belongs to the queue of a number.
fn is_queued<L: MachInstLabelUse>(u: &Use<L>, labels: &Labels, queue: usize) -> bool
    ensures { result ≡ queued L.kinds (place_in labels.now) queue u.now }
{
    queue_of(u) == queue && is_pending(u, labels)
}

/// The use of a number.
fn use_at<L: MachInstLabelUse>(uses: &[Use<L>], number: usize) -> Option<&Use<L>>
    ensures { MatchOption result (slice_get uses.now number ≡ None) (λ u. slice_get uses.now number ≡ Some u.now) }
{
    uses.get(number)
}

/// The deadline of a use, where it is pending and belongs to a queue.
fn deadline_if<L: MachInstLabelUse>(u: &Use<L>, labels: &Labels, queue: usize) -> Option<u64>
    ensures { result ≡ cond (queued L.kinds (place_in labels.now) queue u.now) (Some (last_of L.kinds u.now)) None }
{
    if is_queued(u, labels, queue) {
        Some(deadline(u))
    } else {
        None
    }
}

/// The deadline of the use of a number, where it is pending and belongs to a queue.
fn queued_deadline<L: MachInstLabelUse>(
    uses: &[Use<L>],
    labels: &Labels,
    queue: usize,
    number: usize,
) -> Option<u64>
    ensures { result ≡ option_map (last_of L.kinds) (use_where (queued L.kinds (place_in labels.now) queue) uses.now number) }
{
    match use_at(uses, number) {
        Some(u) => deadline_if(u, labels, queue),
        None => None,
    }
}

ghost use Rattle.std.specs.Prelude.{◌≡◌, Some, None, cond, option_map, slice_get, MatchOption};
ghost use Rattle.mach_uses.specs.Reach.{deadline as last_of};
ghost use Rattle.mach_uses.specs.Queues.{is_queued as queued, is_other_queued, use_where, is_due_at, key_if, key_at};
ghost use Rattle.mach_uses.specs.Places.{place_in};

/// Returns whether the use of a number is in a queue and due by an offset.
fn is_due<L: MachInstLabelUse>(
    uses: &[Use<L>],
    labels: &Labels,
    queue: usize,
    end: u128,
    number: usize,
) -> bool
    ensures { result ≡ is_due_at L.kinds (queued L.kinds (place_in labels.now) queue) uses.now end number }
{
    match queued_deadline(uses, labels, queue, number) {
        Some(last) => last as u128 <= end,
        None => false,
    }
}

/// Returns whether a use is in a queue and names another label than this one.
fn is_other<L: MachInstLabelUse>(
    u: &Use<L>,
    labels: &Labels,
    queue: usize,
    after_island: Option<MachLabel>,
) -> bool
    ensures { result ≡ is_other_queued L.kinds (place_in labels.now) queue after_island u.now }
{
    is_queued(u, labels, queue) && !names(after_island, u)
}

/// The key of a use, by its number.
fn key_at<L: MachInstLabelUse>(u: &Use<L>, number: usize) -> PendingKey
    ensures { result ≡ key_at L.kinds number u.now }
{
    PendingKey {
        deadline: deadline(u),
        offset: u.offset,
        index: number,
    }
}

/// The key of the use of a number, where it is in a queue and names another label than this one.
fn key_of<L: MachInstLabelUse>(
    uses: &[Use<L>],
    labels: &Labels,
    queue: usize,
    after_island: Option<MachLabel>,
    number: usize,
) -> Option<PendingKey>
    ensures { result ≡ key_if L.kinds number (use_where (is_other_queued L.kinds (place_in labels.now) queue after_island) uses.now number) }
{
    match use_at(uses, number) {
        Some(u) => {
            if is_other(u, labels, queue, after_island) {
                Some(key_at(u, number))
            } else {
                None
            }
        }
        None => None,
    }
}

impl Queue {
    ghost use Rattle.std.specs.Prelude.{◌≡◌, ◌+◌, ◌<◌, ◌≤◌, ◌++◌, ◌∷◌, ◌^◌, [], length, map, filter, count_by, is_some, OnOk, IfOk, ℕ};
    ghost use Rattle.mach_uses.specs.Queues.{is_queued as queued, is_other_queued, use_where, is_due_at, keys_where, slack_after, Keeps};
    ghost use Rattle.mach_uses.specs.Places.{place_in};

    pub(crate) fn new(alloc: Global) -> Queue
        ensures numbers { result.numbers.items ≡ [] }
        ensures slack { result.slack < 2 ^ 64 }
    {
        Queue {
            numbers: Vec::new(alloc),
            slack: u64::MAX,
        }
    }

    /// Takes out all uses.
    fn clear(&mut self)
        ensures { self.new.numbers.items ≡ [] }
    {
        self.numbers.clear();
        self.slack = u64::MAX;
    }

    /// Adds the use of a number, with its deadline.
    pub(crate) fn push(&mut self, number: usize, deadline: u64) -> Result<(), OutOfMemory>
        ensures numbers { OnOk result (self.new.numbers.items ≡ self.old.numbers.items ++ number ∷ []) }
        ensures slack { OnOk result (self.new.slack ≡ slack_after self.old.slack deadline (length self.old.numbers.items + 1)) }
    {
        let count = self.numbers.len() as u128 + 1;
        let rest = (deadline as u128).saturating_sub(8 * count) as u64;
        let less = self.slack.saturating_sub(8).min(deadline.saturating_sub(8));
        self.numbers.push(number)?;
        self.slack = less.max(self.slack.min(rest));
        Ok(())
    }

    /// Adds the use that is recorded next, where it is pending and belongs to this queue.
    fn add<L: MachInstLabelUse>(
        &mut self,
        uses: &[Use<L>],
        labels: &Labels,
        queue: usize,
        u: &Use<L>,
    ) -> Result<(), OutOfMemory>
        requires { Keeps L.kinds (queued L.kinds (place_in labels.now) queue) uses.now self.old.numbers.items self.old.slack }
        ensures { OnOk result (Keeps L.kinds (queued L.kinds (place_in labels.now) queue) (uses.now ++ u.now ∷ []) self.new.numbers.items self.new.slack) }
    {
        if !is_queued(u, labels, queue) {
            return Ok(());
        }
        self.push(uses.len(), deadline(u))?;
        Ok(())
    }

    /// How many of the uses are pending and due by an offset.
    pub(crate) fn count_due<L: MachInstLabelUse>(
        &self,
        uses: &[Use<L>],
        labels: &Labels,
        queue: usize,
        end: u128,
    ) -> usize
        ensures { result ≡ count_by (λ number. is_due_at L.kinds (queued L.kinds (place_in labels.now) queue) uses.now end number) self.now.numbers.items }
    {
        self.numbers
            .iter()
            .filter(|number| is_due(uses, labels, queue, end, **number))
            .count()
    }

    /// How many of the uses are pending.
    pub(crate) fn count<L: MachInstLabelUse>(
        &self,
        uses: &[Use<L>],
        labels: &Labels,
        queue: usize,
    ) -> usize
        ensures { result ≡ count_by (λ number. is_some (use_where (queued L.kinds (place_in labels.now) queue) uses.now number)) self.now.numbers.items }
    {
        self.numbers
            .iter()
            .filter(|number| queued_deadline(uses, labels, queue, **number).is_some())
            .count()
    }

    /// A queue of those of the uses that are still pending.
    fn tidied<L: MachInstLabelUse>(
        &self,
        uses: &[Use<L>],
        labels: &Labels,
        queue: usize,
        alloc: Global,
    ) -> Result<Queue, OutOfMemory>
        requires { Keeps L.kinds (queued L.kinds (place_in labels.now) queue) uses.now self.now.numbers.items self.now.slack }
        ensures { IfOk result (λ tidied. Keeps L.kinds (queued L.kinds (place_in labels.now) queue) uses.now tidied.numbers.items tidied.slack) }
    {
        let mut tidied = Queue::new(alloc);
        for number in &self.numbers {
            match queued_deadline(uses, labels, queue, *number) {
                Some(last) => tidied.push(*number, last)?,
                None => {}
            }
        }
        Ok(tidied)
    }

    /// Takes out the uses that are no longer pending, where the slack ends before an offset.
    fn tidy<L: MachInstLabelUse>(
        &mut self,
        uses: &[Use<L>],
        labels: &Labels,
        queue: usize,
        start: u64,
        alloc: Global,
    ) -> Result<(), OutOfMemory>
        requires { Keeps L.kinds (queued L.kinds (place_in labels.now) queue) uses.now self.old.numbers.items self.old.slack }
        ensures { OnOk result (Keeps L.kinds (queued L.kinds (place_in labels.now) queue) uses.now self.new.numbers.items self.new.slack) }
    {
        if self.slack < start {
            *self = self.tidied(uses, labels, queue, alloc)?;
        }
        Ok(())
    }

    /// Adds the keys of those of the uses that are pending and name another label than this one.
    pub(crate) fn collect<L: MachInstLabelUse>(
        &self,
        uses: &[Use<L>],
        labels: &Labels,
        queue: usize,
        after_island: Option<MachLabel>,
        keys: &mut Vec<PendingKey>,
    ) -> Result<(), OutOfMemory>
        ensures { OnOk result (keys.new.items ≡ keys.old.items ++ keys_where L.kinds (is_other_queued L.kinds (place_in labels.now) queue after_island) uses.now self.now.numbers.items) }
    {
        for number in &self.numbers {
            match key_of(uses, labels, queue, after_island, *number) {
                Some(key) => keys.push(key)?,
                None => {}
            }
        }
        Ok(())
    }
}

impl Pending {
    ghost use Rattle.std.specs.Prelude.{◌≡◌, ◌+◌, ◌-◌, ◌<◌, ◌≤◌, ◌^◌, ◌++◌, ◌∷◌, [], length, map, OnOk, IfOk, Some};
    ghost use Rattle.mach_uses.specs.Reach.{is_pending as pending, is_other, deadlines, island_margin, is_needed_from};
    ghost use Rattle.mach_uses.specs.Order.{IsOrder};
    ghost use Rattle.mach_uses.specs.Queues.{is_queued as queued, AreKept, HoldNone, due_in, key_number, shows_slack};
    ghost use Rattle.mach_uses.specs.Places.{place_in};

    /// No uses. Takes no memory.
    pub fn new(alloc: Global) -> Pending
        ensures { HoldNone result }
    {
        Pending {
            short: Queue::new(alloc),
            near: Queue::new(alloc),
            far: Queue::new(alloc),
        }
    }

    /// Adds the use that is recorded next, where it is pending.
    pub fn push<L: MachInstLabelUse>(
        &mut self,
        uses: &[Use<L>],
        labels: &Labels,
        u: &Use<L>,
    ) -> Result<(), OutOfMemory>
        requires { AreKept L.kinds (place_in labels.now) uses.now self.old }
        ensures { OnOk result (AreKept L.kinds (place_in labels.now) (uses.now ++ u.now ∷ []) self.new) }
    {
        self.short.add(uses, labels, 0, u)?;
        self.near.add(uses, labels, 1, u)?;
        self.far.add(uses, labels, 2, u)?;
        Ok(())
    }

    /// Takes out the uses that are no longer pending, from each queue whose slack ends before an offset.
    pub fn tidy<L: MachInstLabelUse>(
        &mut self,
        uses: &[Use<L>],
        labels: &Labels,
        start: u64,
        alloc: Global,
    ) -> Result<(), OutOfMemory>
        requires { AreKept L.kinds (place_in labels.now) uses.now self.old }
        ensures { OnOk result (AreKept L.kinds (place_in labels.now) uses.now self.new) }
    {
        if start <= self.short.slack && start <= self.near.slack && start <= self.far.slack {
            return Ok(());
        }
        self.short.tidy(uses, labels, 0, start, alloc)?;
        self.near.tidy(uses, labels, 1, start, alloc)?;
        self.far.tidy(uses, labels, 2, start, alloc)?;
        Ok(())
    }

    /// Takes out all uses.
    pub fn clear(&mut self)
        ensures { HoldNone self.new }
    {
        self.short.clear();
        self.near.clear();
        self.far.clear();
    }

    /// How many uses are pending.
    #[tactic(auto, using(crate::proofs::QueueContents::kept_count, crate::proofs::QueueContents::count_parts))]
    pub fn count<L: MachInstLabelUse>(&self, uses: &[Use<L>], labels: &Labels) -> u128
        requires { AreKept L.kinds (place_in labels.now) uses.now self.now }
        ensures value { result ≡ length (deadlines (pending L.kinds (place_in labels.now)) L.kinds uses.now) }
        ensures small { result < 2 ^ 66 }
    {
        self.short.count(uses, labels, 0) as u128
            + self.near.count(uses, labels, 1) as u128
            + self.far.count(uses, labels, 2) as u128
    }

    /// How many pending uses are due by an offset.
    #[tactic(auto, using(crate::proofs::QueueContents::kept_due, crate::proofs::QueueContents::due_parts))]
    fn count_due<L: MachInstLabelUse>(&self, uses: &[Use<L>], labels: &Labels, end: u128) -> u128
        requires { AreKept L.kinds (place_in labels.now) uses.now self.now }
        ensures { result ≡ due_in L.kinds (place_in labels.now) uses.now end }
    {
        self.short.count_due(uses, labels, 0, end) as u128
            + self.near.count_due(uses, labels, 1, end) as u128
            + self.far.count_due(uses, labels, 2, end) as u128
    }

    /// Returns whether the slack of all queues shows that all veneers, put from `start` on, end by their deadlines.
    fn has_slack(&self, start: u64) -> bool
        ensures { result ≡ shows_slack self.now start }
    {
        let short = self.short.numbers.len() as u128;
        let near = self.near.numbers.len() as u128;
        start <= self.short.slack
            && start as u128 + 8 * short <= self.near.slack as u128
            && start as u128 + 8 * (short + near) <= self.far.slack as u128
    }

    /// Returns whether the veneers of all that is due by some deadline, put from `start` on, end past it.
    #[tactic(auto, using(crate::proofs::QueueContents::slack_shown))]
    pub fn is_tight<L: MachInstLabelUse>(
        &self,
        uses: &[Use<L>],
        labels: &Labels,
        start: u64,
    ) -> bool
        requires kept { AreKept L.kinds (place_in labels.now) uses.now self.now }
        requires margin { island_margin ≤ start }
        ensures { result ≡ is_needed_from (start - island_margin) (deadlines (pending L.kinds (place_in labels.now)) L.kinds uses.now) (deadlines (pending L.kinds (place_in labels.now)) L.kinds uses.now) }
    {
        if self.has_slack(start) {
            return false;
        }
        self.is_tight_by_count(uses, labels, start)
    }

    /// The same, by the numbers of uses that are due.
    #[inline(never)]
    #[tactic(auto, using(crate::proofs::Slack::due_le_length, crate::proofs::Slack::due_mono, crate::proofs::Slack::deadlines_few, crate::proofs::QueueContents::bound_none))]
    fn is_tight_by_count<L: MachInstLabelUse>(
        &self,
        uses: &[Use<L>],
        labels: &Labels,
        start: u64,
    ) -> bool
        requires kept { AreKept L.kinds (place_in labels.now) uses.now self.now }
        requires margin { island_margin ≤ start }
        ensures { result ≡ is_needed_from (start - island_margin) (deadlines (pending L.kinds (place_in labels.now)) L.kinds uses.now) (deadlines (pending L.kinds (place_in labels.now)) L.kinds uses.now) }
    {
        let mut count = uses.len();
        'fewer: while count > 0 {
            let due = self.count_due(uses, labels, start as u128 + 8 * count as u128 - 1);
            if due >= count as u128 {
                return true;
            }
            count = due as usize;
        }
        false
    }

    /// The keys of the pending uses that name another label than this one, in order.
    pub fn order<L: MachInstLabelUse>(
        &self,
        uses: &[Use<L>],
        labels: &Labels,
        after_island: Option<MachLabel>,
        alloc: Global,
    ) -> Result<Vec<PendingKey>, OutOfMemory>
        requires { AreKept L.kinds (place_in labels.now) uses.now self.now }
        ensures { IfOk result (λ keys. IsOrder L.kinds (is_other L.kinds (place_in labels.now) after_island) uses.now (map key_number keys.items)) }
    {
        let mut keys = Vec::new(alloc);
        self.short
            .collect(uses, labels, 0, after_island, &mut keys)?;
        self.near.collect(uses, labels, 1, after_island, &mut keys)?;
        self.far.collect(uses, labels, 2, after_island, &mut keys)?;
        keys.sort_unstable();
        Ok(keys)
    }
}
