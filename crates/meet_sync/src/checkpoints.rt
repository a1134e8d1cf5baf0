//! Compaction of a queue's log (checkpoints): the records so far are replaced by a snapshot (a base), and the seats can
//! drop their receipts for them. So a long-lived queue never fills for good.

ghost use Rattle.std.specs.Prelude.{◌≡◌, ◌≤◌, ℕ, None, IfOk, IfErr};
ghost use Rattle.meet_tickets.specs.Limits.{most_gone};
ghost use Rattle.meet_place.specs.Seats.{Checkpoints, Trims, TrimsPending, share_in};
ghost use Rattle.meet_sync.specs.Told.{IsCutWhy};

use crate::asked::SeatRefused;
use crate::queue::Queue;
use meet_book::Bases;
use meet_core::QueuePlace;
use meet_place::{Ledgers, Pending, Place, Seat};
use meet_tickets::{Deed, Marked, Refusal};
use std::sync::Wait;

/// Folds the records of a place away, and counts them for the seat.
fn cut<O: Bases, G, N: Ledgers, R: Wait>(
    rt: &R,
    place: &Place<O, G, N>,
    seat: &mut Seat<O::Deed, N>,
) -> Result<u64, Refusal>
where
    O::Base: Drop,
    ensures gone { IfOk result (λ gone. gone ≤ most_gone) }
    ensures counted { IfOk result (λ gone. (more : ℕ) × (more ≤ gone) × Checkpoints more seat.old seat.new) }
    ensures all { IfOk result (λ gone. share_in seat.new ≤ gone) }
    ensures why { IfErr result IsCutWhy }
    ensures same { IfErr result (λ _. seat.new ≡ seat.old) }
{
    place.locked_cut(rt, seat)
}

impl<O: QueuePlace + Bases, G, N: Ledgers> Queue<O, G, N> {
    /// Compacts the log: replaces the records so far by the queue's base, in one critical section. Returns how many
    /// were compacted since the queue was created: all that there are, so no fewer than the seat ever got receipts. The
    /// records of this compaction count for the seat. It logs nothing.
    ///
    /// # Errors
    /// Nothing has changed.
    /// - HistoryFull, if more than 2^63 - 1 records would be compacted.
    /// - Memory, if the base can't grow.
    ///
    /// # Example
    /// From `crates/meet_sync_tests/src/checkpoints.rt`:
    ///
    ///     Some(Back::Free(seat)) => match shop.checkpoint(rt, seat) {
    ///         Ok((seat, gone)) => {
    pub fn checkpoint<R: Wait>(
        &self,
        rt: &R,
        mut seat: Seat<Deed, N>,
    ) -> Result<(Seat<Deed, N>, u64), SeatRefused<O::Item, N>>
        ensures seat { IfOk result (λ made. (more : ℕ) × (more ≤ made.1) × Checkpoints more seat made.0) }
        ensures gone { IfOk result (λ made. made.1 ≤ most_gone) }
        ensures all { IfOk result (λ made. share_in made.0 ≤ made.1) }
        ensures back { IfErr result (λ refused. refused.seat ≡ seat) }
        ensures item { IfErr result (λ refused. refused.item ≡ None) }
        ensures why { IfErr result (λ refused. IsCutWhy refused.why) }
    {
        match cut(rt, &self.place, &mut seat) {
            Ok(gone) => Ok((seat, gone)),
            Err(why) => Err(SeatRefused {
                why,
                seat,
                item: None,
            }),
        }
    }
}

impl<O: QueuePlace, G, N: Ledgers> Queue<O, G, N> {
    /// Drops the seat's receipts for the records that are compacted by now, and no other: at least those that its own
    /// checkpoints compacted. It waits only for the lock, and doesn't allocate.
    pub fn trim<R: Wait>(&self, rt: &R, mut seat: Seat<Deed, N>) -> Seat<Deed, N>
        ensures { (gone : ℕ) × Trims gone seat result × (seat.past.folded ≤ gone) }
    {
        self.place.trim(rt, &mut seat);
        seat
    }

    /// Drops the receipts of a seat whose request is pending, and stays so, as `trim` does.
    pub fn trim_pending<R: Wait>(&self, rt: &R, pending: Pending<Deed, N>) -> Pending<Deed, N>
        ensures { (gone : ℕ) × TrimsPending gone pending result × (pending.past.folded ≤ gone) }
    {
        self.place.trim_pending(rt, pending)
    }
}
