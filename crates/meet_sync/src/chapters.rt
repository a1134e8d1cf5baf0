//! A long-lived queue for threads: its log is compacted, rotated, or copied, while its threads go on.

ghost use Rattle.std.specs.Prelude.{◌≡◌, ◌⊎◌, ◌+◌, ◌<◌, ◌≤◌, ℕ, None, true, false, length, IsOk, IsOkAnd, IfOk, IfErr};
ghost use Rattle.meet_tickets.specs.Limits.{most_gone};
ghost use Rattle.meet_tickets.specs.declared.refusals.Refusal.TheVariants.{Memory};
ghost use Rattle.meet_place.specs.Seats.{Checkpoints, Trims};
ghost use Rattle.meet_place.specs.Tending.{Tends, is_to_look, may_lie};
ghost use Rattle.meet_sync.specs.Chronicles.{IsChapter};
ghost use Rattle.meet_sync.specs.Told.{IsCutWhy};

use crate::asked::SeatRefused;
use crate::queue::Queue;
use meet_book as book;
use meet_book::Bases;
use meet_core::QueuePlace;
use meet_place::{Ledgers, Place, Seat};
use meet_tickets::{Base, Deed, Marked, Record, Refusal};
use std::sync::Wait;

/// A segment of a log: records that followed one another, and the snapshot of all before them. Chapters that a queue
/// returned one after another are one history: each ends as the next one's base states.
#[derive(Debug, Drop)]
pub struct Chapter {
    /// The snapshot of the records before these.
    pub base: Base,
    /// The records since, in order: with the base one legal history.
    pub records: Vec<Record<Deed>>,
}

/// A seat compacts the log of a place if it is more than half full.
fn tend<O: Bases, G, N: Ledgers, R: Wait>(
    rt: &R,
    place: &Place<O, G, N>,
    seat: &mut Seat<O::Deed, N>,
) -> Result<(), Refusal>
where
    O::Base: Drop,
    ensures few { length seat.old.list ≤ may_lie N.cap N.parts → IsOk result × (seat.new ≡ seat.old) }
    ensures idle { is_to_look N.cap N.parts seat.old ≡ false → IsOk result × (seat.new ≡ seat.old) }
    ensures looked { is_to_look N.cap N.parts seat.old ≡ true → IfOk result (λ _. Tends seat.old seat.new) }
    ensures tended { IfOk result (λ _. (seat.new ≡ seat.old) ⊎ Tends seat.old seat.new) }
    ensures trimmed { IfErr result (λ _. (gone : ℕ) × Trims gone seat.old seat.new) }
    ensures why { IfErr result IsCutWhy }
{
    place.tend(rt, seat)
}

/// A checkpoint of a place that returns what it compacts.
fn rotate<O: Bases, G, N: Ledgers, R: Wait>(
    rt: &R,
    place: &Place<O, G, N>,
    seat: &mut Seat<O::Deed, N>,
    room: Vec<Record<O::Deed>>,
) -> Result<book::Chapter<O>, Refusal>
where
    O::Base: Drop,
    ensures legal { IfOk result (λ chapter. (object : O) × (O.seat_count_of object ≡ N.parts)
        × O.leads chapter.base chapter.records.items object) }
    ensures first { IfOk result (λ chapter. O.gone_of chapter.base ≡ 0 → chapter.base ≡ O.no_base) }
    ensures counted { IfOk result (λ chapter. Checkpoints (length chapter.records.items) seat.old seat.new) }
    ensures few { IfOk result (λ chapter. O.gone_of chapter.base + length chapter.records.items ≤ most_gone) }
    ensures cap { IfOk result (λ chapter. length chapter.records.items ≤ N.cap) }
    ensures why { IfErr result IsCutWhy }
    ensures same { IfErr result (λ _. seat.new ≡ seat.old) }
{
    place.locked_rotate(rt, seat, room)
}

impl<O: QueuePlace + Bases, G, N: Ledgers> Queue<O, G, N> {
    /// Compacts the log if it is more than half full. The log doesn't fill if each seat calls this after each of its
    /// calls (tested, not proved). Most calls do nothing, and take no lock. The lock is taken only on two conditions:
    /// the seat's list has more receipts than a quarter of its share of the capacity, and the last of them shows that
    /// the log may be more than half full (`is_to_look`). Then the seat's receipts for all that is compacted are
    /// dropped.
    ///
    /// # Errors
    /// The records stay; the seat's receipts for what was compacted before are dropped.
    /// - HistoryFull, if more than 2^63 - 1 records would be compacted.
    /// - Memory, if the base can't grow.
    ///
    /// # Example
    /// From `crates/examples/src/parcels/passing.rt`:
    ///
    ///     match counter.tend(rt, ended.seat) {
    ///         Ok(tended) => seat = tended,
    ///         Err(refused) => return stopped(refused, hand),
    ///     }
    pub fn tend<R: Wait>(
        &self,
        rt: &R,
        mut seat: Seat<Deed, N>,
    ) -> Result<Seat<Deed, N>, SeatRefused<O::Item, N>>
        ensures few { length seat.list ≤ may_lie N.cap N.parts → IsOkAnd result (λ tended. tended ≡ seat) }
        ensures idle { is_to_look N.cap N.parts seat ≡ false → IsOkAnd result (λ tended. tended ≡ seat) }
        ensures looked { is_to_look N.cap N.parts seat ≡ true → IfOk result (Tends seat) }
        ensures tended { IfOk result (λ tended. (tended ≡ seat) ⊎ Tends seat tended) }
        ensures trimmed { IfErr result (λ refused. (gone : ℕ) × Trims gone seat refused.seat) }
        ensures item { IfErr result (λ refused. refused.item ≡ None) }
        ensures why { IfErr result (λ refused. IsCutWhy refused.why) }
    {
        match tend(rt, &self.place, &mut seat) {
            Ok(()) => Ok(seat),
            Err(why) => Err(SeatRefused {
                why,
                seat,
                item: None,
            }),
        }
    }

    /// Rotates the log: compacts it as `checkpoint` does, and returns the records so far with the base on which they
    /// stand. They count for the seat. `room` becomes the list of the records to come, and its own records are dropped:
    /// so a list is used again after what it held is kept elsewhere.
    ///
    /// # Errors
    /// The seat is returned and `room` is dropped; else nothing has changed.
    /// - HistoryFull, if more than 2^63 - 1 records would be compacted.
    /// - Memory, if an allocation fails.
    ///
    /// # Example
    /// From `crates/meet_sync_tests/src/chapters.rt`:
    ///
    ///     match queue.rotate(rt, seat, list) {
    ///         Ok(handed) => handed,
    pub fn rotate<R: Wait>(
        &self,
        rt: &R,
        mut seat: Seat<Deed, N>,
        room: Vec<Record<Deed>>,
    ) -> Result<(Seat<Deed, N>, Chapter), SeatRefused<O::Item, N>>
        ensures chapter { IfOk result (λ made. IsChapter O.kind made.1.base made.1.records.items) }
        ensures counted { IfOk result (λ made. Checkpoints (length made.1.records.items) seat made.0) }
        ensures few { IfOk result (λ made. made.1.base.gone + length made.1.records.items ≤ most_gone) }
        ensures cap { IfOk result (λ made. length made.1.records.items ≤ N.cap) }
        ensures back { IfErr result (λ refused. refused.seat ≡ seat) }
        ensures item { IfErr result (λ refused. refused.item ≡ None) }
        ensures why { IfErr result (λ refused. IsCutWhy refused.why) }
    {
        match rotate(rt, &self.place, &mut seat, room) {
            Ok(chapter) => {
                let book::Chapter { base, records } = chapter;
                Ok((seat, Chapter { base, records }))
            }
            Err(why) => Err(SeatRefused {
                why,
                seat,
                item: None,
            }),
        }
    }

    /// Copies the records so far, and the base on which they stand, in one critical section. Nothing changes. It needs
    /// no seat, so it also returns what happened if a seat is lost, after which `close` always fails.
    ///
    /// # Errors
    /// - Memory, if an allocation fails.
    ///
    /// # Example
    /// From `crates/meet_sync_tests/src/chapters.rt`:
    ///
    ///     match queue.history(rt) {
    ///         Ok(chapter) => chapter,
    pub fn history<R: Wait>(&self, rt: &R) -> Result<Chapter, Refusal>
        ensures chapter { IfOk result (λ chapter. IsChapter O.kind chapter.base chapter.records.items) }
        ensures cap { IfOk result (λ chapter. length chapter.records.items ≤ N.cap) }
        ensures why { IfErr result (λ why. why ≡ Memory) }
    {
        match self.place.history(rt) {
            Ok(chapter) => {
                let book::Chapter { base, records } = chapter;
                Ok(Chapter { base, records })
            }
            Err(why) => Err(why),
        }
    }
}
