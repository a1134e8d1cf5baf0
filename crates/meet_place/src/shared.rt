//! What the lock guards.

ghost use Rattle.std.specs.Prelude.{◌≡◌, ◌+◌, ◌<◌, ◌≤◌, ◌++◌, ◌^◌, None, [], length, option_to_list, IsOk, IfOk, IfErr};
ghost use Rattle.meet_book.specs.Booked.{Booked};
ghost use Rattle.meet_book.specs.Booking.{book_refusal, cut_refusal};
ghost use Rattle.meet_tickets.specs.Refusals.{IsWhy};
ghost use Rattle.meet_place.specs.Seats.{Adds, Checkpoints, IsLater, share_in};
ghost use Rattle.meet_place.specs.Holds.{BookRefuses, IsBookOf, IsSince};
ghost use Rattle.meet_place.specs.Tending.{is_half_full};

use crate::ledgers::{Ledgers, Moment, Stake, Totals};
use crate::seats::Seat;
use meet_book::{Bases, Book, Object};
use meet_tickets::{Refusal, Refused};
use std::marker::Model;

/// A book beside two ledgers: the total of the one is the number of the book's records, the compacted ones included,
/// that of the other the number of the compacted ones. If none were compacted, the base is that of no records. The
/// book's object has as many seats as the ledgers have parts, and the book the cap that they state. A contract sees it
/// as the book.
///
/// 64 bytes of padding (kept by `repr(C)`) put the mutex word and the book on different cache lines, against false
/// sharing.
#[derive(Drop)]
#[repr(C)]
pub struct Shared<O: Object, N: Ledgers> {
    apart: [u64; 8],
    pub(crate) book: Book<O>,
    pub(crate) total: Totals<N>,
    rest: Stake<N>,
}

impl<O: Object, N: Ledgers> Model for Shared<O, N> {
    ghost use Rattle.std.specs.Prelude.{◌≡◌, ◌+◌, length};
    ghost use Rattle.meet_book.specs.Booked.{Booked};
    ghost use Rattle.meet_place.specs.Holds.{IsBookOf};

    ghost Value = { Booked O O.Base O.Deed };

    ghost view = { λ s. s.book };

    ghost invariant = { λ s.
        (O.gone_of s.book.base + length s.book.records ≡ s.total.total)
        × (O.gone_of s.book.base ≡ s.total.folds)
        × (O.gone_of s.book.base ≡ 0 → s.book.base ≡ O.no_base)
        × (s.rest.parts ≡ 0) × (s.rest.amount ≡ 0) × (s.rest.folds ≡ 0)
        × IsBookOf O.seat_count_of N.parts N.cap s.book };
}

impl<O: Object, N: Ledgers> Shared<O, N> {
    /// Puts a book, whose object has a seat for each part, beside the totals of both ledgers and a share that has no
    /// part.
    pub fn new(book: Book<O>, total: Totals<N>, rest: Stake<N>) -> Self
        requires total { O.gone_of book.base + length book.records ≡ total.total }
        requires folds { O.gone_of book.base ≡ total.folds }
        requires first { O.gone_of book.base ≡ 0 → book.base ≡ O.no_base }
        requires rest { (rest.parts ≡ 0) × (rest.amount ≡ 0) × (rest.folds ≡ 0) }
        requires seats { O.seat_count_of book.object ≡ N.parts }
        requires cap { book.cap ≡ N.cap }
        ensures { result ≡ book }
    {
        Shared {
            apart: [0; 8],
            book,
            total,
            rest,
        }
    }

    /// Returns the object itself, to be read.
    pub fn probe(&self) -> &O
        ensures object { result.now ≡ self.now.object }
        ensures seats { O.seat_count_of result.now ≡ N.parts }
    {
        self.book.probe()
    }

    /// Changes nothing, and states that the book isn't older than a moment.
    pub fn audit_moment(&mut self, moment: &Moment<N>)
        ensures since { IsSince O.leads O.gone_of moment.now self.old }
        ensures same { self.new ≡ self.old }
    {
        let Shared { book, total, .. } = self;
        total.audit_moment(moment);
        let _legal = book.records();
    }

    /// How many records the book may hold.
    pub(crate) fn cap(&self) -> u64
        ensures { result ≡ N.cap }
    {
        self.book.cap()
    }

    /// Whether the book holds more than half of the records that it may hold.
    pub(crate) fn is_half_full(&self) -> bool
        ensures { result ≡ is_half_full self.now }
    {
        self.book.cap() < 2 * self.book.records().len() as u64
    }

    /// Returns the book, the totals of both ledgers, and a share that has no part.
    pub fn into_parts(self) -> (Book<O>, Totals<N>, Stake<N>)
        ensures book { result.0 ≡ self }
        ensures total { O.gone_of result.0.base + length result.0.records ≡ result.1.total }
        ensures folds { O.gone_of result.0.base ≡ result.1.folds }
        ensures first { O.gone_of result.0.base ≡ 0 → result.0.base ≡ O.no_base }
        ensures rest { (result.2.parts ≡ 0) × (result.2.amount ≡ 0) × (result.2.folds ≡ 0) }
        ensures place { IsBookOf O.seat_count_of N.parts N.cap result.0 }
    {
        let Shared {
            book,
            total,
            rest,
            ..
        } = self;
        (book, total, rest)
    }

    /// Makes a call of a seat, whose list has room for its receipt.
    ///
    /// # Errors
    /// The seat is as it was, and the call is returned.
    /// - The object's own reasons, for this call.
    /// - HistoryFull, if the log has no room for the reserved and the required records.
    /// - Memory, if the object or the log can't grow.
    #[inline(always)]
    pub fn step(
        &mut self,
        seat: &mut Seat<O::Deed, N>,
        call: O::Call,
    ) -> Result<O::Answer, Refused<O::Call>>
        requires room { 0 < seat.old.room }
        ensures number { seat.new.number ≡ seat.old.number }
        ensures past { seat.new.past ≡ seat.old.past }
        ensures room { length seat.new.list + seat.new.room ≡ length seat.old.list + seat.old.room }
        ensures adds { IfOk result (λ answer. Adds seat.old.list seat.new.list
            (option_to_list (O.record_of seat.old.number call answer))) }
        ensures later { IsLater seat.old.moment seat.new.moment seat.old.list seat.new.list }
        ensures still { IfOk result (λ answer. O.record_of seat.old.number call answer ≡ None
            → seat.new.moment ≡ seat.old.moment) }
        ensures step { IfOk result (λ answer. O.steps self.old.object seat.old.number call answer self.new.object) }
        ensures records { IfOk result (λ answer. self.new.records
            ≡ self.old.records ++ option_to_list (O.record_of seat.old.number call answer)) }
        ensures admitted { IfOk result (λ _. book_refusal (O.refusal_of self.old.object seat.old.number call)
            (O.owed_of self.old.object) (O.need_of call) self.old ≡ None) }
        ensures place { IsBookOf O.seat_count_of N.parts N.cap self.old }
        ensures within { seat.old.number < N.parts }
        ensures why { IfErr result (λ refused. BookRefuses (O.refusal_of self.old.object seat.old.number call)
            (O.owed_of self.old.object) (O.need_of call) (O.spare self.old.object) (O.room_of call) self.old
            refused.why) }
        ensures back { IfErr result (λ refused. refused.back ≡ call) }
        ensures unchanged { IfErr result (λ _. self.new ≡ record self.old { room = self.new.room }) }
        ensures same { IfErr result (λ _. seat.new ≡ seat.old) }
        ensures cap { self.new.cap ≡ self.old.cap }
        ensures base { self.new.base ≡ self.old.base }
        ensures enough { O.owed_of self.old.object + O.need_of call ≤ self.old.room
            → O.room_of call ≤ O.spare self.old.object
            → book_refusal (O.refusal_of self.old.object seat.old.number call) (O.owed_of self.old.object)
            (O.need_of call) self.old ≡ None → IsOk result }
    {
        let Seat {
            number,
            list,
            share,
            moment,
            ..
        } = seat;
        let Shared { book, total, .. } = self;
        let (answer, made) = match book.step(*number, call) {
            Ok(stepped) => stepped,
            Err(refused) => return Err(refused),
        };
        let receipt = match made {
            Some(receipt) => receipt,
            None => return Ok(answer),
        };
        total.add(share, moment, 1);
        list.push_reserved(receipt);
        Ok(answer)
    }

    /// Returns how many records were compacted, checked for a seat, whose share is no more than all records.
    pub fn gone_for(&mut self, seat: &mut Seat<O::Deed, N>) -> u64
        ensures gone { result ≡ O.gone_of self.old.base }
        ensures folded { seat.old.past.folded ≤ result }
        ensures fits { share_in seat.new < 2 ^ 64 }
        ensures seat { seat.new ≡ seat.old }
        ensures same { self.new ≡ self.old }
    {
        let Seat { share, .. } = seat;
        let Shared { book, total, .. } = self;
        total.audit(share);
        let gone = O::gone(book.base());
        let _written = book.written();
        gone
    }
}

impl<O: Bases, N: Ledgers> Shared<O, N>
where
    O::Base: Drop,
{
    /// Compacts the log for a seat (a checkpoint), as the book's `cut`, and counts the records for the seat. If there
    /// never was a record, nothing is compacted, and the base of no records stays.
    ///
    /// # Errors
    /// Nothing has changed.
    /// - HistoryFull, if more than 2^63 - 1 records would be compacted.
    /// - Memory, if the base can't grow.
    pub fn cut(&mut self, seat: &mut Seat<O::Deed, N>) -> Result<u64, Refusal>
        ensures counted { IfOk result (λ _. Checkpoints (length self.old.records) seat.old seat.new) }
        ensures same { IfErr result (λ _. seat.new ≡ seat.old) }
        ensures gone { IfOk result (λ gone. gone ≡ O.gone_of self.old.base + length self.old.records) }
        ensures all { IfOk result (λ gone. share_in seat.new ≤ gone) }
        ensures folded { IfOk result (λ gone. O.gone_of self.new.base ≡ gone) }
        ensures base { IfOk result (λ gone. 0 < gone → O.is_base self.old.object gone self.new.base) }
        ensures records { IfOk result (λ _. self.new.records ≡ []) }
        ensures object { self.new.object ≡ self.old.object }
        ensures cap { self.new.cap ≡ self.old.cap }
        ensures admitted { IfOk result (λ _. cut_refusal (O.gone_of self.old.base) self.old ≡ None) }
        ensures why { IfErr result (IsWhy (cut_refusal (O.gone_of self.old.base) self.old)) }
        ensures unchanged { IfErr result (λ _. self.new ≡ self.old) }
    {
        let Seat { past, share, .. } = seat;
        let Shared { book, total, .. } = self;
        total.audit(share);
        if book.written() == 0 {
            return Ok(0);
        }
        let more = book.records().len() as u64;
        match book.cut() {
            Ok(gone) => {
                total.fold(share, more);
                past.folded += more;
                Ok(gone)
            }
            Err(why) => Err(why),
        }
    }
}
