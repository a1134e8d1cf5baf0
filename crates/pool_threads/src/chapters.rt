//! A long-lived pool: its log is compacted by its callers, rotated, or copied, while its workers go on.

ghost use Rattle.std.specs.Prelude.{◌≡◌, ◌⊎◌, ◌+◌, ◌<◌, ◌≤◌, ◌^◌, ℕ, true, false, length, IsOkAnd, IfOk, IfErr};
ghost use Rattle.std.specs.Sync.Mutex.{mutex_guard_value};
ghost use Rattle.meet_tickets.specs.Limits.{most_gone, most_records};
ghost use Rattle.meet_tickets.specs.declared.refusals.Refusal.TheVariants.{Memory};
ghost use Rattle.meet_place.specs.Seats.{Checkpoints, Trims, share_in};
ghost use Rattle.meet_place.specs.Tending.{LooksAfter, Tends, is_to_look, may_lie, to_fold};
ghost use Rattle.pool_core.specs.Bases.{LeadsTo};
ghost use Rattle.pool_core.specs.Histories.{no_base};
ghost use Rattle.pool_core.specs.Shown.{Shown};
ghost use Rattle.pool_threads.specs.Told.{IsCutWhy};

use crate::jobs::Work;
use crate::ledgers::PoolLedgers;
use crate::pool::Pool;
use crate::refusals::SeatRefused;
use crate::shared::PoolShared;
use meet_book::Chapter;
use meet_cells::Gate;
use meet_place::{Seat, hold};
use meet_tickets::{MOST_RECORDS, Record, Refusal};
use pool_core::{PoolBase, PoolCore, PoolDeed};
use std::sync::atomic::{AtomicU64, Ordering};
use std::sync::{MutexGuard, Wait};

/// A segment of a pool's log: records that followed one another, and the snapshot of all before them.
#[derive(Debug, Drop)]
pub struct PoolChapter {
    /// The snapshot of the records before these.
    pub base: PoolBase,
    /// The records since, in order.
    pub records: Vec<Record<PoolDeed<u64>>>,
}

impl<W: Work, C: Drop, N: PoolLedgers> PoolShared<W, C, N> {
    /// A seat looks at the book: a checkpoint where it is more than half full, and how many records are folded away
    /// then. It refuses HistoryFull or Memory; then nothing has changed.
    fn look_after(&mut self, seat: &mut Seat<PoolDeed<u64>, N>) -> (Result<(), Refusal>, u64)
        ensures fits { share_in seat.new < 2 ^ 64 }
        ensures gone { IfOk result.0 (λ _. result.1 ≡ self.old.base.gone + to_fold self.old) }
        ensures counted { IfOk result.0 (λ _. Checkpoints (to_fold self.old) seat.old seat.new) }
        ensures none { IfErr result.0 (λ _. result.1 ≡ self.old.base.gone) }
        ensures why { IfErr result.0 IsCutWhy }
        ensures same { IfErr result.0 (λ _. seat.new ≡ seat.old) }
    {
        self.shared.look_after(seat)
    }

    /// A checkpoint of a seat that hands out what it folds away. It refuses HistoryFull or Memory; then nothing has
    /// changed.
    fn rotate(
        &mut self,
        seat: &mut Seat<PoolDeed<u64>, N>,
        room: Vec<Record<PoolDeed<u64>>>,
    ) -> Result<Chapter<PoolCore<u64>>, Refusal>
        ensures legal { IfOk result (λ chapter. (core : Shown ℕ) × (core.settings ≡ N.settings)
            × LeadsTo (λ tag. tag) chapter.base chapter.records.items core) }
        ensures first { IfOk result (λ chapter. chapter.base.gone ≡ 0 → chapter.base ≡ no_base) }
        ensures taken { IfOk result (λ chapter. (chapter.base ≡ self.old.base)
            × (chapter.records.items ≡ self.old.records)) }
        ensures counted { IfOk result (λ chapter. Checkpoints (length chapter.records.items) seat.old seat.new) }
        ensures few { IfOk result (λ chapter. chapter.base.gone + length chapter.records.items ≤ most_gone) }
        ensures cap { IfOk result (λ chapter. length chapter.records.items ≤ N.cap) }
        ensures why { IfErr result IsCutWhy }
        ensures same { IfErr result (λ _. seat.new ≡ seat.old) }
    {
        self.shared.rotate(seat, room)
    }

    /// Copies base and records.
    ///
    /// # Errors
    /// - Memory, if an allocation fails.
    fn copy(&self) -> Result<Chapter<PoolCore<u64>>, Refusal>
        ensures copied { IfOk result (λ chapter. (chapter.base ≡ self.now.base)
            × (chapter.records.items ≡ self.now.records)) }
        ensures legal { IfOk result (λ chapter. (core : Shown ℕ) × (core.settings ≡ N.settings)
            × LeadsTo (λ tag. tag) chapter.base chapter.records.items core) }
        ensures first { IfOk result (λ chapter. chapter.base.gone ≡ 0 → chapter.base ≡ no_base) }
        ensures cap { IfOk result (λ chapter. length chapter.records.items ≤ N.cap) }
        ensures why { IfErr result (λ why. why ≡ Memory) }
    {
        self.shared.copy()
    }
}

/// Looks at the book under this lock for a seat, and publishes how many records are folded away then. With the lock
/// free, it drops the seat's receipts for these. It refuses HistoryFull or Memory.
fn look_after<W: Work, C: Drop, N: PoolLedgers>(
    published: &AtomicU64,
    mut shared: MutexGuard<'_, PoolShared<W, C, N>>,
    mut seat: Seat<PoolDeed<u64>, N>,
) -> Result<Seat<PoolDeed<u64>, N>, SeatRefused<N>>
    ensures looked { IfOk result (LooksAfter (λ base. base.gone) (mutex_guard_value shared.entry) seat) }
    ensures trimmed { IfErr result (λ refused. Trims (mutex_guard_value shared.entry).base.gone seat refused.seat) }
    ensures why { IfErr result (λ refused. IsCutWhy refused.why) }
{
    let (folded, gone) = shared.look_after(&mut seat);
    drop(shared);
    published.store(gone, Ordering::Relaxed);
    seat.forget(gone);
    match folded {
        Ok(()) => Ok(seat),
        Err(why) => Err(SeatRefused { why, seat }),
    }
}

/// A checkpoint of a seat that hands out what the book under this lock holds, and publishes how many records are folded
/// away then. It refuses HistoryFull or Memory; then nothing has changed but the room, which is dropped.
fn rotate<W: Work, C: Drop, N: PoolLedgers>(
    published: &AtomicU64,
    mut shared: MutexGuard<'_, PoolShared<W, C, N>>,
    mut seat: Seat<PoolDeed<u64>, N>,
    room: Vec<Record<PoolDeed<u64>>>,
) -> Result<(Seat<PoolDeed<u64>, N>, PoolChapter), SeatRefused<N>>
    ensures base { IfOk result (λ made. made.1.base ≡ (mutex_guard_value shared.entry).base) }
    ensures records { IfOk result (λ made. made.1.records.items ≡ (mutex_guard_value shared.entry).records) }
    ensures legal { IfOk result (λ made. (core : Shown ℕ) × (core.settings ≡ N.settings)
        × LeadsTo (λ tag. tag) made.1.base made.1.records.items core) }
    ensures first { IfOk result (λ made. made.1.base.gone ≡ 0 → made.1.base ≡ no_base) }
    ensures counted { IfOk result (λ made. Checkpoints (length made.1.records.items) seat made.0) }
    ensures few { IfOk result (λ made. made.1.base.gone + length made.1.records.items ≤ most_gone) }
    ensures cap { IfOk result (λ made. length made.1.records.items ≤ N.cap) }
    ensures back { IfErr result (λ refused. refused.seat ≡ seat) }
    ensures why { IfErr result (λ refused. IsCutWhy refused.why) }
{
    match shared.rotate(&mut seat, room) {
        Ok(chapter) => {
            let Chapter { base, records } = chapter;
            let gone = base.gone.saturating_add(records.len() as u64);
            published.store(gone, Ordering::Relaxed);
            Ok((seat, PoolChapter { base, records }))
        }
        Err(why) => Err(SeatRefused { why, seat }),
    }
}

/// Copies what the book under this lock holds.
///
/// # Errors
/// - Memory, if an allocation fails.
fn copy<W: Work, C: Drop, N: PoolLedgers>(
    shared: MutexGuard<'_, PoolShared<W, C, N>>,
) -> Result<PoolChapter, Refusal>
    ensures base { IfOk result (λ chapter. chapter.base ≡ (mutex_guard_value shared.entry).base) }
    ensures records { IfOk result (λ chapter. chapter.records.items ≡ (mutex_guard_value shared.entry).records) }
    ensures legal { IfOk result (λ chapter. (core : Shown ℕ) × (core.settings ≡ N.settings)
        × LeadsTo (λ tag. tag) chapter.base chapter.records.items core) }
    ensures first { IfOk result (λ chapter. chapter.base.gone ≡ 0 → chapter.base ≡ no_base) }
    ensures cap { IfOk result (λ chapter. length chapter.records.items ≤ N.cap) }
    ensures why { IfErr result (λ why. why ≡ Memory) }
{
    match shared.copy() {
        Ok(chapter) => {
            let Chapter { base, records } = chapter;
            Ok(PoolChapter { base, records })
        }
        Err(why) => Err(why),
    }
}

impl<W: Work, C: Drop, G: Gate + Drop, S: Drop, N: PoolLedgers> Pool<W, C, G, S, N> {
    /// Compacts the log if it is more than half full. The log doesn't fill if each caller calls this after each of its
    /// calls (tested, not proved). Most calls do nothing, and take no lock. The lock is taken only on two conditions:
    /// the seat's list has more receipts than a quarter of its share of 1,048,576, and the last of them shows that the
    /// log may be more than half full (`is_to_look`). Then the seat's receipts for all that is compacted are dropped.
    ///
    /// # Errors
    /// The records stay; the seat's receipts for what was compacted before are dropped.
    /// - HistoryFull, if more than 2^63 - 1 records would be compacted.
    /// - Memory, if the base can't grow.
    pub fn tend<R: Wait>(
        &self,
        rt: &R,
        seat: Seat<PoolDeed<u64>, N>,
    ) -> Result<Seat<PoolDeed<u64>, N>, SeatRefused<N>>
        ensures few { length seat.list ≤ may_lie most_records N.parts → IsOkAnd result (λ tended. tended ≡ seat) }
        ensures idle { is_to_look most_records N.parts seat ≡ false → IsOkAnd result (λ tended. tended ≡ seat) }
        ensures looked { is_to_look most_records N.parts seat ≡ true → IfOk result (Tends seat) }
        ensures tended { IfOk result (λ tended. (tended ≡ seat) ⊎ Tends seat tended) }
        ensures trimmed { IfErr result (λ refused. (gone : ℕ) × Trims gone seat refused.seat) }
        ensures why { IfErr result (λ refused. IsCutWhy refused.why) }
    {
        if !seat.is_to_look(MOST_RECORDS, self.home.made.count() as u64) {
            return Ok(seat);
        }
        look_after(&self.home.folded, hold(rt, &self.home.shared), seat)
    }

    /// Rotates the log: compacts it as `checkpoint` does, and returns the records so far with the base on which they
    /// stand. They count for the seat. `room` becomes the list of the records to come, and its own records are dropped:
    /// so a list is used again after what it held is kept elsewhere.
    ///
    /// # Errors
    /// The seat is returned and `room` is dropped; else nothing has changed.
    /// - HistoryFull, if more than 2^63 - 1 records would be compacted.
    /// - Memory, if an allocation fails.
    pub fn rotate<R: Wait>(
        &self,
        rt: &R,
        seat: Seat<PoolDeed<u64>, N>,
        room: Vec<Record<PoolDeed<u64>>>,
    ) -> Result<(Seat<PoolDeed<u64>, N>, PoolChapter), SeatRefused<N>>
        ensures legal { IfOk result (λ made. (core : Shown ℕ) × (core.settings ≡ N.settings)
            × LeadsTo (λ tag. tag) made.1.base made.1.records.items core) }
        ensures first { IfOk result (λ made. made.1.base.gone ≡ 0 → made.1.base ≡ no_base) }
        ensures counted { IfOk result (λ made. Checkpoints (length made.1.records.items) seat made.0) }
        ensures few { IfOk result (λ made. made.1.base.gone + length made.1.records.items ≤ most_gone) }
        ensures cap { IfOk result (λ made. length made.1.records.items ≤ N.cap) }
        ensures back { IfErr result (λ refused. refused.seat ≡ seat) }
        ensures why { IfErr result (λ refused. IsCutWhy refused.why) }
    {
        rotate(&self.home.folded, hold(rt, &self.home.shared), seat, room)
    }

    /// Copies the records so far, and the base on which they stand, in one critical section. Nothing changes. It needs
    /// no seat, so it also returns what happened if a seat is lost, after which `close` always fails.
    ///
    /// # Errors
    /// - Memory, if an allocation fails.
    pub fn history<R: Wait>(&self, rt: &R) -> Result<PoolChapter, Refusal>
        ensures legal { IfOk result (λ chapter. (core : Shown ℕ) × (core.settings ≡ N.settings)
            × LeadsTo (λ tag. tag) chapter.base chapter.records.items core) }
        ensures first { IfOk result (λ chapter. chapter.base.gone ≡ 0 → chapter.base ≡ no_base) }
        ensures cap { IfOk result (λ chapter. length chapter.records.items ≤ N.cap) }
        ensures why { IfErr result (λ why. why ≡ Memory) }
    {
        copy(hold(rt, &self.home.shared))
    }
}
