//! The calls for long-lived queues: compaction of the log, and of the seats' receipts.

ghost use Rattle.std.specs.Prelude.{◌≡◌, ◌+◌, ◌⊎◌, ◌≤◌, ℕ, None, true, false, length, IsOkAnd, IfOk, IfErr};
ghost use Rattle.meet_tickets.specs.Limits.{most_gone};
ghost use Rattle.meet_place.specs.Seats.{Checkpoints, Trims, TrimsPending, share_in};
ghost use Rattle.meet_place.specs.Tending.{Tends, is_to_look, may_lie};
ghost use Rattle.meet_tickets.specs.declared.refusals.Refusal.TheVariants.{Memory};
ghost use Rattle.meet_sync.specs.Chronicles.{IsChapter};
ghost use Rattle.meet_sync.specs.Told.{IsCutWhy};
ghost use Rattle.meet_chosen.specs.Chosen.{kind_of};

use crate::queue::{ChosenQueue, whichever};
use meet_place::{Ledgers, Pending, Seat};
use meet_sync::{Chapter, SeatRefused};
use meet_tickets::{Deed, Marked, Record, Refusal};
use std::sync::Wait;

impl<T: Marked, G, N: Ledgers> ChosenQueue<T, G, N> {
    /// Compacts the log, as `Queue::checkpoint`: the records so far are replaced by a snapshot (a base). Returns how
    /// many records were compacted since the queue was created.
    ///
    /// # Errors
    /// Nothing has changed.
    /// - HistoryFull, if more than 2^63 - 1 records would be compacted.
    /// - Memory, if the base can't grow.
    pub fn checkpoint<R: Wait>(
        &self,
        rt: &R,
        seat: Seat<Deed, N>,
    ) -> Result<(Seat<Deed, N>, u64), SeatRefused<T, N>>
        ensures seat { IfOk result (λ made. (more : ℕ) × (more ≤ made.1) × Checkpoints more seat made.0) }
        ensures gone { IfOk result (λ made. made.1 ≤ most_gone) }
        ensures all { IfOk result (λ made. share_in made.0 ≤ made.1) }
        ensures back { IfErr result (λ refused. refused.seat ≡ seat) }
        ensures item { IfErr result (λ refused. refused.item ≡ None) }
        ensures why { IfErr result (λ refused. IsCutWhy refused.why) }
    {
        whichever!(self, queue => queue.checkpoint(rt, seat))
    }

    /// Compacts the log if it is more than half full, as `Queue::tend`. The log doesn't fill if each seat calls this
    /// after each of its calls (tested, not proved).
    ///
    /// # Errors
    /// The records stay; the seat's receipts for what was compacted before are dropped.
    /// - HistoryFull, if more than 2^63 - 1 records would be compacted.
    /// - Memory, if the base can't grow.
    #[inline(always)]
    pub fn tend<R: Wait>(
        &self,
        rt: &R,
        seat: Seat<Deed, N>,
    ) -> Result<Seat<Deed, N>, SeatRefused<T, N>>
        ensures few { length seat.list ≤ may_lie N.cap N.parts → IsOkAnd result (λ tended. tended ≡ seat) }
        ensures idle { is_to_look N.cap N.parts seat ≡ false → IsOkAnd result (λ tended. tended ≡ seat) }
        ensures looked { is_to_look N.cap N.parts seat ≡ true → IfOk result (Tends seat) }
        ensures tended { IfOk result (λ tended. (tended ≡ seat) ⊎ Tends seat tended) }
        ensures trimmed { IfErr result (λ refused. (gone : ℕ) × Trims gone seat refused.seat) }
        ensures item { IfErr result (λ refused. refused.item ≡ None) }
        ensures why { IfErr result (λ refused. IsCutWhy refused.why) }
    {
        whichever!(self, queue => queue.tend(rt, seat))
    }

    /// Rotates the log, as `Queue::rotate`: compacts it, and returns the records so far with the base on which they
    /// stand. `room` becomes the list of the records to come, and its own records are dropped.
    ///
    /// # Errors
    /// The seat is returned and `room` is dropped; else nothing has changed.
    /// - HistoryFull, if more than 2^63 - 1 records would be compacted.
    /// - Memory, if an allocation fails.
    pub fn rotate<R: Wait>(
        &self,
        rt: &R,
        seat: Seat<Deed, N>,
        room: Vec<Record<Deed>>,
    ) -> Result<(Seat<Deed, N>, Chapter), SeatRefused<T, N>>
        ensures chapter { IfOk result (λ made. IsChapter (kind_of self.now) made.1.base made.1.records.items) }
        ensures counted { IfOk result (λ made. Checkpoints (length made.1.records.items) seat made.0) }
        ensures few { IfOk result (λ made. made.1.base.gone + length made.1.records.items ≤ most_gone) }
        ensures cap { IfOk result (λ made. length made.1.records.items ≤ N.cap) }
        ensures back { IfErr result (λ refused. refused.seat ≡ seat) }
        ensures item { IfErr result (λ refused. refused.item ≡ None) }
        ensures why { IfErr result (λ refused. IsCutWhy refused.why) }
    {
        whichever!(self, queue => queue.rotate(rt, seat, room))
    }

    /// Copies the records so far, and the base on which they stand, as `Queue::history`. Nothing changes.
    ///
    /// # Errors
    /// - Memory, if an allocation fails.
    pub fn history<R: Wait>(&self, rt: &R) -> Result<Chapter, Refusal>
        ensures chapter { IfOk result (λ chapter. IsChapter (kind_of self.now) chapter.base chapter.records.items) }
        ensures cap { IfOk result (λ chapter. length chapter.records.items ≤ N.cap) }
        ensures why { IfErr result (λ why. why ≡ Memory) }
    {
        whichever!(self, queue => queue.history(rt))
    }

    /// Drops the seat's receipts for the records that are compacted by now, and no other. It doesn't allocate.
    pub fn trim<R: Wait>(&self, rt: &R, seat: Seat<Deed, N>) -> Seat<Deed, N>
        ensures { (gone : ℕ) × Trims gone seat result × (seat.past.folded ≤ gone) }
    {
        whichever!(self, queue => queue.trim(rt, seat))
    }

    /// Drops the receipts of a seat whose request is pending, and stays so, as `trim` does.
    pub fn trim_pending<R: Wait>(&self, rt: &R, pending: Pending<Deed, N>) -> Pending<Deed, N>
        ensures { (gone : ℕ) × TrimsPending gone pending result × (pending.past.folded ≤ gone) }
    {
        whichever!(self, queue => queue.trim_pending(rt, pending))
    }
}
