//! Segments of a place's log, returned whole while its threads go on.

ghost use Rattle.std.specs.Prelude.{◌≡◌, ◌+◌, ◌<◌, ◌≤◌, [], length, IfOk, IfErr};
ghost use Rattle.meet_tickets.specs.Limits.{most_gone};
ghost use Rattle.meet_tickets.specs.Refusals.{IsWhy};
ghost use Rattle.meet_tickets.specs.declared.refusals.Refusal.TheVariants.{Memory};
ghost use Rattle.meet_book.specs.Booked.{Booked};
ghost use Rattle.meet_book.specs.Booking.{cut_refusal};
ghost use Rattle.meet_place.specs.Seats.{Checkpoints};

use crate::ledgers::Ledgers;
use crate::place::Place;
use crate::seats::Seat;
use crate::shared::Shared;
use meet_book::{Bases, Chapter};
use meet_tickets::{Record, Refusal};
use std::sync::Wait;

impl<O: Bases, N: Ledgers> Shared<O, N>
where
    O::Base: Drop,
{
    /// Rotates the log for a seat, as the book's `rotate`: compacts the records, and returns them with their base. If
    /// there never was a record, nothing is compacted, and the base of no records stays.
    ///
    /// # Errors
    /// Nothing has changed.
    /// - HistoryFull, if more than 2^63 - 1 records would be compacted.
    /// - Memory, if an allocation fails.
    pub fn rotate(
        &mut self,
        seat: &mut Seat<O::Deed, N>,
        room: Vec<Record<O::Deed>>,
    ) -> Result<Chapter<O>, Refusal>
        ensures counted { IfOk result (λ _. Checkpoints (length self.old.records) seat.old seat.new) }
        ensures taken { IfOk result (λ chapter. (chapter.base ≡ self.old.base)
            × (chapter.records.items ≡ self.old.records)) }
        ensures leads { O.leads self.old.base self.old.records self.old.object }
        ensures first { O.gone_of self.old.base ≡ 0 → self.old.base ≡ O.no_base }
        ensures cap { length self.old.records ≤ N.cap }
        ensures seats { O.seat_count_of self.old.object ≡ N.parts }
        ensures gone { IfOk result (λ _. O.gone_of self.new.base
            ≡ O.gone_of self.old.base + length self.old.records) }
        ensures base { IfOk result (λ _. 0 < O.gone_of self.new.base
            → O.is_base self.old.object (O.gone_of self.new.base) self.new.base) }
        ensures records { IfOk result (λ _. self.new.records ≡ []) }
        ensures object { self.new.object ≡ self.old.object }
        ensures few { IfOk result (λ _. O.gone_of self.old.base + length self.old.records ≤ most_gone) }
        ensures why { IfErr result (IsWhy (cut_refusal (O.gone_of self.old.base) self.old)) }
        ensures same { IfErr result (λ _. seat.new ≡ seat.old) }
        ensures unchanged { IfErr result (λ _. self.new ≡ self.old) }
    {
        let Seat { past, share, .. } = seat;
        let Shared { book, total, .. } = self;
        if book.written() == 0 {
            return book.copy();
        }
        let more = book.records().len() as u64;
        match book.rotate(room) {
            Ok(chapter) => {
                total.fold(share, more);
                past.folded += more;
                Ok(chapter)
            }
            Err(refused) => Err(refused.why),
        }
    }

    /// Copies base and records.
    ///
    /// # Errors
    /// - Memory, if an allocation fails.
    pub fn copy(&self) -> Result<Chapter<O>, Refusal>
        ensures copied { IfOk result (λ chapter. (chapter.base ≡ self.now.base)
            × (chapter.records.items ≡ self.now.records)) }
        ensures leads { O.leads self.now.base self.now.records self.now.object }
        ensures first { O.gone_of self.now.base ≡ 0 → self.now.base ≡ O.no_base }
        ensures cap { length self.now.records ≤ N.cap }
        ensures seats { O.seat_count_of self.now.object ≡ N.parts }
        ensures memory { IfErr result (λ why. why ≡ Memory) }
    {
        self.book.copy()
    }
}

impl<O: Bases, G, N: Ledgers> Place<O, G, N>
where
    O::Base: Drop,
{
    /// Rotates the log for a seat in one critical section: compacts the records so far, and returns them with the base
    /// on which they stand. They count for the seat. `room` becomes the list of the records to come, and its own
    /// records are dropped.
    ///
    /// # Errors
    /// The seat hasn't changed.
    /// - HistoryFull, if more than 2^63 - 1 records would be compacted.
    /// - Memory, if an allocation fails.
    pub fn locked_rotate<R: Wait>(
        &self,
        rt: &R,
        seat: &mut Seat<O::Deed, N>,
        room: Vec<Record<O::Deed>>,
    ) -> Result<Chapter<O>, Refusal>
        ensures legal { IfOk result (λ chapter. (object : O) × (O.seat_count_of object ≡ N.parts)
            × O.leads chapter.base chapter.records.items object) }
        ensures first { IfOk result (λ chapter. O.gone_of chapter.base ≡ 0 → chapter.base ≡ O.no_base) }
        ensures counted { IfOk result (λ chapter. Checkpoints (length chapter.records.items) seat.old seat.new) }
        ensures few { IfOk result (λ chapter. O.gone_of chapter.base + length chapter.records.items ≤ most_gone) }
        ensures cap { IfOk result (λ chapter. length chapter.records.items ≤ N.cap) }
        ensures why { IfErr result (λ why. (book : Booked O O.Base O.Deed)
            × IsWhy (cut_refusal (O.gone_of book.base) book) why) }
        ensures same { IfErr result (λ _. seat.new ≡ seat.old) }
    {
        let mut shared = self.hold(rt);
        shared.rotate(seat, room)
    }

    /// Copies the records so far, with the base on which they stand, in one critical section. Nothing changes, and no
    /// seat is needed.
    ///
    /// # Errors
    /// - Memory, if an allocation fails.
    pub fn history<R: Wait>(&self, rt: &R) -> Result<Chapter<O>, Refusal>
        ensures legal { IfOk result (λ chapter. (object : O) × (O.seat_count_of object ≡ N.parts)
            × O.leads chapter.base chapter.records.items object) }
        ensures first { IfOk result (λ chapter. O.gone_of chapter.base ≡ 0 → chapter.base ≡ O.no_base) }
        ensures cap { IfOk result (λ chapter. length chapter.records.items ≤ N.cap) }
        ensures memory { IfErr result (λ why. why ≡ Memory) }
    {
        let shared = self.hold(rt);
        shared.copy()
    }
}
