//! Compaction of a pool's log (checkpoints): the records so far are replaced by a snapshot (a base), and callers' seats
//! can drop their receipts for them. So a long-lived pool never fills for good.

ghost use Rattle.std.specs.Prelude.{◌≡◌, ◌+◌, ◌<◌, ◌≤◌, ◌^◌, ℕ, length, IfOk, IfErr};
ghost use Rattle.std.specs.Sync.Mutex.{mutex_guard_value};
ghost use Rattle.meet_book.specs.Booking.{cut_refusal};
ghost use Rattle.meet_tickets.specs.Refusals.{IsWhy};
ghost use Rattle.meet_tickets.specs.Limits.{most_gone};
ghost use Rattle.meet_place.specs.Seats.{Checkpoints, Trims, share_in};
ghost use Rattle.pool_threads.specs.Told.{IsCutWhy};

use crate::jobs::Work;
use crate::ledgers::PoolLedgers;
use crate::pool::Pool;
use crate::refusals::SeatRefused;
use crate::shared::PoolShared;
use crate::worth::WorkerSeat;
use meet_cells::Gate;
use meet_place::{Seat, hold};
use pool_core::PoolDeed;
use std::sync::atomic::Ordering;
use std::sync::{MutexGuard, Wait};

impl<W: Work, C: Drop, N: PoolLedgers> PoolShared<W, C, N> {
    /// Folds the records away, counts them for the seat, and returns how many were folded away since the pool was made.
    /// It refuses HistoryFull or Memory; then nothing has changed.
    fn checkpoint(
        &mut self,
        mut seat: Seat<PoolDeed<u64>, N>,
    ) -> Result<(Seat<PoolDeed<u64>, N>, u64), SeatRefused<N>>
        ensures is { IfOk result (λ made. made.1 ≡ self.old.base.gone + length self.old.records) }
        ensures folds { IfOk result (λ made. Checkpoints (length self.old.records) seat made.0) }
        ensures seat { IfOk result (λ made. (more : ℕ) × (more ≤ made.1) × Checkpoints more seat made.0) }
        ensures all { IfOk result (λ made. share_in made.0 ≤ made.1) }
        ensures gone { IfOk result (λ made. made.1 ≤ most_gone) }
        ensures back { IfErr result (λ refused. refused.seat ≡ seat) }
        ensures exact { IfErr result (λ refused. IsWhy (cut_refusal self.old.base.gone self.old) refused.why) }
        ensures why { IfErr result (λ refused. IsCutWhy refused.why) }
    {
        match self.shared.cut(&mut seat) {
            Ok(gone) => Ok((seat, gone)),
            Err(why) => Err(SeatRefused { why, seat }),
        }
    }

    /// How many records were folded away, looked at for a seat, whose share is no more than all records.
    fn gone_for(&mut self, seat: &mut Seat<PoolDeed<u64>, N>) -> u64
        ensures gone { result ≡ self.old.base.gone }
        ensures folded { seat.old.past.folded ≤ result }
        ensures fits { share_in seat.new < 2 ^ 64 }
        ensures seat { seat.new ≡ seat.old }
    {
        self.shared.gone_for(seat)
    }

    /// The same, looked at for a worker's seat.
    pub(crate) fn gone_for_worker(&mut self, seat: &mut WorkerSeat<W, N>) -> u64
        ensures fits { share_in seat.new < 2 ^ 64 }
        ensures seat { seat.new ≡ seat.old }
    {
        seat.gone_in(&mut self.shared)
    }
}

/// Drops a seat's receipts for the records that the book under this lock folded away. It releases the lock first.
fn trim_after<W: Work, C: Drop, N: PoolLedgers>(
    mut shared: MutexGuard<'_, PoolShared<W, C, N>>,
    mut seat: Seat<PoolDeed<u64>, N>,
) -> Seat<PoolDeed<u64>, N>
    ensures trims { Trims (mutex_guard_value shared.entry).base.gone seat result }
    ensures folded { seat.past.folded ≤ (mutex_guard_value shared.entry).base.gone }
{
    let gone = shared.gone_for(&mut seat);
    drop(shared);
    seat.forget(gone);
    seat
}

impl<W: Work, C: Drop, G: Gate + Drop, S: Drop, N: PoolLedgers> Pool<W, C, G, S, N> {
    /// Compacts the log: replaces the records so far by the pool's base, in one critical section. Returns how many were
    /// compacted since the pool was created: all that there are, so no fewer than the seat ever got receipts. The
    /// records of this compaction count for the seat. It logs nothing.
    ///
    /// # Errors
    /// Nothing has changed.
    /// - HistoryFull, if more than 2^63 - 1 records would be compacted.
    /// - Memory, if the base can't grow.
    pub fn checkpoint<R: Wait>(
        &self,
        rt: &R,
        seat: Seat<PoolDeed<u64>, N>,
    ) -> Result<(Seat<PoolDeed<u64>, N>, u64), SeatRefused<N>>
        ensures seat { IfOk result (λ made. (more : ℕ) × (more ≤ made.1) × Checkpoints more seat made.0) }
        ensures all { IfOk result (λ made. share_in made.0 ≤ made.1) }
        ensures gone { IfOk result (λ made. made.1 ≤ most_gone) }
        ensures back { IfErr result (λ refused. refused.seat ≡ seat) }
        ensures why { IfErr result (λ refused. IsCutWhy refused.why) }
    {
        let mut shared = hold(rt, &self.home.shared);
        let made = shared.checkpoint(seat);
        if let Ok((_, gone)) = &made {
            self.home.folded.store(*gone, Ordering::Relaxed);
        }
        drop(shared);
        made
    }

    /// Drops the seat's receipts for the records that are compacted by now, and no other: at least those that its own
    /// checkpoints compacted. It waits only for the lock, and doesn't allocate.
    pub fn trim<R: Wait>(&self, rt: &R, seat: Seat<PoolDeed<u64>, N>) -> Seat<PoolDeed<u64>, N>
        ensures { (gone : ℕ) × Trims gone seat result × (seat.past.folded ≤ gone) }
    {
        trim_after(hold(rt, &self.home.shared), seat)
    }
}
