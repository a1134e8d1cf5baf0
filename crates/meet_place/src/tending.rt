//! Compaction by the seats of a place: if each calls `tend` after each call, the log doesn't fill (tested, not proved),
//! and the lists stay short.

ghost use Rattle.std.specs.Prelude.{◌≡◌, ◌⊎◌, ◌+◌, ◌<◌, ◌≤◌, ◌^◌, length, true, false, IsOk, IfOk, IfErr};
ghost use Rattle.meet_tickets.specs.Refusals.{IsWhy};
ghost use Rattle.meet_book.specs.Booked.{Booked};
ghost use Rattle.meet_book.specs.Booking.{cut_refusal};
ghost use Rattle.meet_place.specs.Holds.{IsBookOf};
ghost use Rattle.meet_place.specs.Seats.{Checkpoints, share_in};
ghost use Rattle.meet_place.specs.Tending.{FoldsNone, LooksAfter, is_half_full, is_to_look, may_lie, to_fold};

use crate::ledgers::Ledgers;
use crate::place::Place;
use crate::seats::Seat;
use crate::shared::Shared;
use meet_book::Bases;
use meet_tickets::Refusal;
use std::sync::Wait;

impl<O: Bases, N: Ledgers> Shared<O, N>
where
    O::Base: Drop,
{
    /// A checkpoint of a seat where the book is more than half full, and nothing else. It is refused as `cut` is, and
    /// then nothing has changed.
    fn fold_if_half_full(&mut self, seat: &mut Seat<O::Deed, N>) -> Result<(), Refusal>
        ensures counted { IfOk result (λ _. Checkpoints (to_fold self.old) seat.old seat.new) }
        ensures gone { IfOk result (λ _. O.gone_of self.new.base ≡ O.gone_of self.old.base + to_fold self.old) }
        ensures place { IsBookOf O.seat_count_of N.parts N.cap self.old }
        ensures object { self.new.object ≡ self.old.object }
        ensures full { IfErr result (λ _. is_half_full self.old ≡ true) }
        ensures why { IfErr result (IsWhy (cut_refusal (O.gone_of self.old.base) self.old)) }
        ensures same { IfErr result (λ _. seat.new ≡ seat.old) }
        ensures unchanged { IfErr result (λ _. self.new ≡ self.old) }
    {
        let _ = &self.book;
        if self.is_half_full() {
            match self.cut(seat) {
                Ok(_) => Ok(()),
                Err(why) => Err(why),
            }
        } else {
            Ok(())
        }
    }

    /// Compacts the book if it is more than half full (a checkpoint of the seat). Returns how many records are
    /// compacted then.
    ///
    /// # Errors
    /// Nothing has changed.
    /// - HistoryFull, if more than 2^63 - 1 records would be compacted.
    /// - Memory, if the base can't grow.
    pub fn look_after(&mut self, seat: &mut Seat<O::Deed, N>) -> (Result<(), Refusal>, u64)
        ensures fits { share_in seat.new < 2 ^ 64 }
        ensures gone { IfOk result.0 (λ _. result.1 ≡ O.gone_of self.old.base + to_fold self.old) }
        ensures counted { IfOk result.0 (λ _. Checkpoints (to_fold self.old) seat.old seat.new) }
        ensures place { IsBookOf O.seat_count_of N.parts N.cap self.old }
        ensures object { self.new.object ≡ self.old.object }
        ensures none { IfErr result.0 (λ _. result.1 ≡ O.gone_of self.old.base) }
        ensures full { IfErr result.0 (λ _. is_half_full self.old ≡ true) }
        ensures why { IfErr result.0 (IsWhy (cut_refusal (O.gone_of self.old.base) self.old)) }
        ensures same { IfErr result.0 (λ _. seat.new ≡ seat.old) }
    {
        let folded = self.fold_if_half_full(seat);
        let gone = self.gone_for(seat);
        (folded, gone)
    }
}

impl<O: Bases, G, N: Ledgers> Place<O, G, N>
where
    O::Base: Drop,
{
    /// The same under one hold of the lock.
    fn look_after<R: Wait>(&self, rt: &R, seat: &mut Seat<O::Deed, N>) -> (Result<(), Refusal>, u64)
        ensures fits { share_in seat.new < 2 ^ 64 }
        ensures looked { IfOk result.0 (λ _. (book : Booked O O.Base O.Deed)
            × IsBookOf O.seat_count_of N.parts N.cap book × (result.1 ≡ O.gone_of book.base + to_fold book)
            × Checkpoints (to_fold book) seat.old seat.new) }
        ensures refused { IfErr result.0 (λ why. (book : Booked O O.Base O.Deed)
            × IsBookOf O.seat_count_of N.parts N.cap book × (result.1 ≡ O.gone_of book.base)
            × (is_half_full book ≡ true) × IsWhy (cut_refusal (O.gone_of book.base) book) why) }
        ensures same { IfErr result.0 (λ _. seat.new ≡ seat.old) }
    {
        let mut shared = self.hold(rt);
        shared.look_after(seat)
    }

    /// Compacts the log if it is more than half full. It takes the lock, once, only on two conditions: the seat's own
    /// list has more receipts than may lie there, and the last of them shows that the log may be more than half full
    /// (`is_to_look`). Then the seat's receipts for all that is compacted are dropped. Otherwise it does nothing. It
    /// allocates only for the base.
    ///
    /// # Errors
    /// The records stay; the seat's receipts for what was compacted before are dropped.
    /// - HistoryFull, if more than 2^63 - 1 records would be compacted.
    /// - Memory, if the base can't grow.
    pub fn tend<R: Wait>(&self, rt: &R, seat: &mut Seat<O::Deed, N>) -> Result<(), Refusal>
        ensures few { length seat.old.list ≤ may_lie N.cap N.parts → IsOk result × (seat.new ≡ seat.old) }
        ensures idle { is_to_look N.cap N.parts seat.old ≡ false → IsOk result × (seat.new ≡ seat.old) }
        ensures looked { is_to_look N.cap N.parts seat.old ≡ true → IfOk result (λ _. (book : Booked O O.Base O.Deed)
            × IsBookOf O.seat_count_of N.parts N.cap book × LooksAfter O.gone_of book seat.old seat.new) }
        ensures tended { IfOk result (λ _. (seat.new ≡ seat.old) ⊎ ((book : Booked O O.Base O.Deed)
            × IsBookOf O.seat_count_of N.parts N.cap book × LooksAfter O.gone_of book seat.old seat.new)) }
        ensures why { IfErr result (λ why. (book : Booked O O.Base O.Deed)
            × IsBookOf O.seat_count_of N.parts N.cap book × FoldsNone O.gone_of book why seat.old seat.new) }
    {
        if !seat.is_to_look(self.cap, self.gates.len() as u64) {
            return Ok(());
        }
        let (folded, gone) = self.look_after(rt, seat);
        seat.forget(gone);
        folded
    }
}
