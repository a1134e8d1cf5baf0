//! A bulk poll (a drain): one logged poll after another, with no other step in between.

ghost use Rattle.std.specs.Prelude.{◌≡◌, ◌+◌, ◌<◌, ◌≤◌, ◌^◌, Some, None, [], ◌∷◌, ◌++◌, length, map, min, vec_len};
ghost use Rattle.std.specs.Prelude.{IfNone, IsOk, IfOk, IfErr};
ghost use Rattle.std.specs.Vec.{vec_capacity};
ghost use Rattle.meet_book.specs.Draining.{book_drain_refusal, TakesOne, TakingPolls, AreNumbered};
ghost use Rattle.meet_tickets.specs.Refusals.{IsWhy};
ghost use Rattle.meet_tickets.specs.declared.refusals.Refusal.TheVariants.{Memory};

use super::{Book, write};
use crate::object::{Drains, Unwatched, Watch};
use crate::receipt::Receipt;
use meet_tickets::{Record, Refusal, Refused, SeatNo};
use std::alloc::Global;

impl<O: Drains> Book<O> {
    /// Why a drain of k items is refused, Memory aside: the first that applies.
    fn drain_refusal(&self, seat: SeatNo, k: u64) -> Option<Refusal>
        ensures first { result ≡ book_drain_refusal (O.refusal_of self.now.object seat O.poll)
            (O.unspent_of self.now.object) (O.owed_of self.now.object) self.now k }
        ensures fits { IfNone result (0 < k → length self.now.records + O.owed_of self.now.object + k < self.now.cap) }
        ensures free { IfNone result (0 < k → O.refusal_of self.now.object seat O.poll ≡ None) }
        ensures tickets { IfNone result (k ≤ O.unspent_of self.now.object) }
    {
        match self.object.admit_poll(seat) {
            Ok(()) | Err(Refusal::TicketsSpent) => {}
            Err(why) => return Some(why),
        }
        if k == 0 {
            return None;
        }
        if self.object.tickets_left() < k {
            return Some(Refusal::TicketsSpent);
        }
        let free = self.cap - self.records.len() as u64 - self.object.owed();
        if free <= k {
            Some(Refusal::HistoryFull)
        } else {
            None
        }
    }

    /// Takes up to `max` items, one logged poll after another, and returns the results in order. Let k be the lesser of
    /// `max` and the items that are there.
    ///
    /// # Errors
    /// Nothing but room has changed. The first that applies:
    /// - NoSuchSeat or SeatOpen, as the seat's poll, for k = 0 too.
    /// - TicketsSpent, if k is above 0 and fewer than k tickets are left.
    /// - HistoryFull, if k is above 0, and the records, the reserved ones and k + 1 are more than the capacity.
    /// - Memory, if an allocation fails.
    ///
    /// # Example
    /// From `crates/examples/src/one_thread/recorded.rt`:
    ///
    ///     let taken = book.drain(rt.alloc(), seat, 10)?; // up to ten items, an answer and a receipt for each
    ///     println!(rt; "drained {}", taken.len())?;
    ///
    /// Java: `BlockingQueue.drainTo`.
    pub fn drain(
        &mut self,
        alloc: Global,
        seat: SeatNo,
        max: u64,
    ) -> Result<Vec<(O::Answer, Receipt<O::Deed>)>, Refusal>
        ensures count { IfOk result (λ got. length got.items ≡ min max (O.available_of self.old.object)) }
        ensures polls { IfOk result (λ got. TakingPolls (λ old answer new.
            O.steps old seat O.poll answer new) (O.record_of seat O.poll) (λ o. O.refusal_of o seat O.poll)
            O.available_of O.unspent_of O.owed_of self.old.object got.items self.new.object) }
        ensures records { IfOk result (λ got. self.new.records ≡ self.old.records
            ++ map (λ one. one.1.entry) got.items) }
        ensures places { IfOk result (λ got. AreNumbered (O.gone_of self.old.base + length self.old.records)
            got.items) }
        ensures admitted { IfOk result (λ _. book_drain_refusal (O.refusal_of self.old.object seat O.poll)
            (O.unspent_of self.old.object) (O.owed_of self.old.object) self.old
            (min max (O.available_of self.old.object)) ≡ None) }
        ensures why { IfErr result (IsWhy (book_drain_refusal (O.refusal_of self.old.object seat O.poll)
            (O.unspent_of self.old.object) (O.owed_of self.old.object) self.old
            (min max (O.available_of self.old.object)))) }
        ensures unchanged { IfErr result (λ _. self.new ≡ record self.old { room = self.new.room }) }
        ensures room { length self.old.records + self.old.room ≤ length self.new.records + self.new.room }
        ensures spare { O.spare self.old.object ≤ O.spare self.new.object }
        ensures cap { self.new.cap ≡ self.old.cap }
        ensures base { self.new.base ≡ self.old.base }
        ensures none { min max (O.available_of self.old.object) ≡ 0
            → book_drain_refusal (O.refusal_of self.old.object seat O.poll) (O.unspent_of self.old.object)
            (O.owed_of self.old.object) self.old 0 ≡ None → IsOk result }
    {
        let k = max.min(self.object.available());
        match self.drain_refusal(seat, k) {
            Some(why) => return Err(why),
            None => {}
        }
        if k == 0 {
            return Ok(Vec::new(alloc));
        }
        let Ok(got) = Vec::with_capacity(alloc, k as usize) else {
            return Err(Refusal::Memory);
        };
        match self.drain_reserved(seat, k, got, &mut Unwatched {}) {
            Ok(got) => Ok(got),
            Err(refused) => {
                refused.back.destroy_empty();
                Err(refused.why)
            }
        }
    }

    /// Drains into an empty list that is moved in, no more items than the list has room for. It allocates only the room
    /// that the book's records lack: so it never fails with Memory if they have it. The watch is notified of each seat
    /// that may go on.
    ///
    /// # Errors
    /// Nothing but room has changed, and the list is returned.
    /// - Those of `drain`, for as many items.
    pub fn drain_into<W: Watch>(
        &mut self,
        seat: SeatNo,
        max: u64,
        empty: Vec<(O::Answer, Receipt<O::Deed>)>,
        watch: &mut W,
    ) -> Result<Vec<(O::Answer, Receipt<O::Deed>)>, Refused<Vec<(O::Answer, Receipt<O::Deed>)>>>
        requires empty { empty.items ≡ [] }
        ensures count { IfOk result (λ got. length got.items
            ≡ min (min max (vec_capacity empty)) (O.available_of self.old.object)) }
        ensures polls { IfOk result (λ got. TakingPolls (λ old answer new. O.steps old seat O.poll answer new)
            (O.record_of seat O.poll) (λ o. O.refusal_of o seat O.poll)
            O.available_of O.unspent_of O.owed_of self.old.object got.items self.new.object) }
        ensures records { IfOk result (λ got. self.new.records ≡ self.old.records
            ++ map (λ one. one.1.entry) got.items) }
        ensures places { IfOk result (λ got. AreNumbered (O.gone_of self.old.base + length self.old.records)
            got.items) }
        ensures admitted { IfOk result (λ _. book_drain_refusal (O.refusal_of self.old.object seat O.poll)
            (O.unspent_of self.old.object) (O.owed_of self.old.object) self.old
            (min (min max (vec_capacity empty)) (O.available_of self.old.object)) ≡ None) }
        ensures why { IfErr result (λ refused. IsWhy (book_drain_refusal (O.refusal_of self.old.object seat O.poll)
            (O.unspent_of self.old.object) (O.owed_of self.old.object) self.old
            (min (min max (vec_capacity empty)) (O.available_of self.old.object))) refused.why) }
        ensures back { IfErr result (λ refused. refused.back ≡ empty) }
        ensures unchanged { IfErr result (λ _. self.new ≡ record self.old { room = self.new.room }) }
        ensures room { length self.old.records + self.old.room ≤ length self.new.records + self.new.room }
        ensures spare { O.spare self.old.object ≤ O.spare self.new.object }
        ensures cap { self.new.cap ≡ self.old.cap }
        ensures base { self.new.base ≡ self.old.base }
        ensures enough { O.owed_of self.old.object
            + min (min max (vec_capacity empty)) (O.available_of self.old.object) ≤ self.old.room
            → book_drain_refusal (O.refusal_of self.old.object seat O.poll) (O.unspent_of self.old.object)
            (O.owed_of self.old.object) self.old
            (min (min max (vec_capacity empty)) (O.available_of self.old.object)) ≡ None → IsOk result }
    {
        let k = max
            .min(empty.capacity() as u64)
            .min(self.object.available());
        match self.drain_refusal(seat, k) {
            Some(why) => return Err(Refused { why, back: empty }),
            None => {}
        }
        if k == 0 {
            return Ok(empty);
        }
        self.drain_reserved(seat, k, empty, watch)
    }

    /// Makes an admitted drain of k items into a list with room for them.
    ///
    /// # Errors
    /// - Memory, if the book's records can't grow.
    fn drain_reserved<W: Watch>(
        &mut self,
        seat: SeatNo,
        k: u64,
        empty: Vec<(O::Answer, Receipt<O::Deed>)>,
        watch: &mut W,
    ) -> Result<Vec<(O::Answer, Receipt<O::Deed>)>, Refused<Vec<(O::Answer, Receipt<O::Deed>)>>>
        requires empty { empty.items ≡ [] }
        requires list { k ≤ vec_capacity empty }
        requires there { k ≤ O.available_of self.old.object }
        requires tickets { k ≤ O.unspent_of self.old.object }
        requires free { O.refusal_of self.old.object seat O.poll ≡ None }
        requires fits { length self.old.records + O.owed_of self.old.object + k < self.old.cap }
        ensures count { IfOk result (λ got. length got.items ≡ k) }
        ensures polls { IfOk result (λ got. TakingPolls (λ old answer new. O.steps old seat O.poll answer new)
            (O.record_of seat O.poll) (λ o. O.refusal_of o seat O.poll)
            O.available_of O.unspent_of O.owed_of self.old.object got.items self.new.object) }
        ensures records { IfOk result (λ got. self.new.records ≡ self.old.records
            ++ map (λ one. one.1.entry) got.items) }
        ensures places { IfOk result (λ got. AreNumbered (O.gone_of self.old.base + length self.old.records)
            got.items) }
        ensures why { IfErr result (λ refused. refused.why ≡ Memory) }
        ensures back { IfErr result (λ refused. refused.back ≡ empty) }
        ensures unchanged { IfErr result (λ _. self.new ≡ record self.old { room = self.new.room }) }
        ensures room { length self.old.records + self.old.room ≤ length self.new.records + self.new.room }
        ensures spare { O.spare self.old.object ≤ O.spare self.new.object }
        ensures cap { self.new.cap ≡ self.old.cap }
        ensures base { self.new.base ≡ self.old.base }
        ensures enough { O.owed_of self.old.object + k ≤ self.old.room → IsOk result }
    {
        let wanted = self.object.owed() + k;
        if self.records.reserve(wanted as usize).is_err() {
            return Err(Refused {
                why: Refusal::Memory,
                back: empty,
            });
        }
        let gone = O::gone(&self.base);
        Ok(poll_all(
            &mut self.object,
            &mut self.records,
            gone,
            seat,
            k,
            empty,
            watch,
        ))
    }
}

/// Polls so many times, where so many items, tickets and places are there, and this empty list has room for what comes;
/// the watch is told of each seat that may go on.
fn poll_all<O: Drains, W: Watch>(
    object: &mut O,
    records: &mut Vec<Record<O::Deed>>,
    gone: u64,
    seat: SeatNo,
    count: u64,
    empty: Vec<(O::Answer, Receipt<O::Deed>)>,
    watch: &mut W,
) -> Vec<(O::Answer, Receipt<O::Deed>)>
    requires empty { empty.items ≡ [] }
    requires room { count ≤ vec_capacity empty }
    requires few { gone + length records.old.items + count < 2 ^ 64 }
    requires there { count ≤ O.available_of object.old }
    requires tickets { count ≤ O.unspent_of object.old }
    requires free { O.refusal_of object.old seat O.poll ≡ None }
    requires places { vec_len records.old + count ≤ vec_capacity records.old }
    ensures count { length result.items ≡ count }
    ensures polls { TakingPolls (λ old answer new. O.steps old seat O.poll answer new)
        (O.record_of seat O.poll) (λ o. O.refusal_of o seat O.poll)
        O.available_of O.unspent_of O.owed_of object.old result.items object.new }
    ensures records { records.new.items ≡ records.old.items ++ map (λ one. one.1.entry) result.items }
    ensures places { AreNumbered (gone + length records.old.items) result.items }
    ensures len { vec_len records.new ≡ vec_len records.old + count }
    ensures leads { (base : O.Base) → O.leads base records.old.items object.old
        → O.leads base records.new.items object.new }
    ensures owed { O.owed_of object.new ≡ O.owed_of object.old }
    ensures capacity { vec_capacity records.new ≡ vec_capacity records.old }
    ensures spare { O.spare object.old ≤ O.spare object.new }
{
    let mut got = empty;
    for _ in 0..count {
        got.push_reserved(poll_one(object, records, gone, seat));
        watch.tell(object.met());
    }
    got
}

/// One poll, where an item, a ticket and a place are there.
fn poll_one<O: Drains>(
    object: &mut O,
    records: &mut Vec<Record<O::Deed>>,
    gone: u64,
    seat: SeatNo,
) -> (O::Answer, Receipt<O::Deed>)
    requires few { gone + length records.old.items + 1 < 2 ^ 64 }
    requires there { 0 < O.available_of object.old }
    requires free { O.refusal_of object.old seat O.poll ≡ None }
    requires places { vec_len records.old + 1 ≤ vec_capacity records.old }
    ensures step { O.steps object.old seat O.poll result.0 object.new }
    ensures record { O.record_of seat O.poll result.0 ≡ Some result.1.entry }
    ensures records { records.new.items ≡ records.old.items ++ result.1.entry ∷ [] }
    ensures place { result.1.place ≡ gone + length records.old.items + 1 }
    ensures leads { (base : O.Base) → O.leads base records.old.items object.old
        → O.leads base records.new.items object.new }
    ensures takes { TakesOne O.available_of O.unspent_of O.owed_of
        (λ o. O.refusal_of o seat O.poll) (O.record_of seat O.poll result.0) object.old object.new }
    ensures spare { O.spare object.old ≤ O.spare object.new }
    ensures capacity { vec_capacity records.new ≡ vec_capacity records.old }
{
    let call = object.poll_call();
    let (answer, record) = object.step(seat, call);
    let receipt = write(gone, records, record).unwrap(); // a poll that meets is logged
    (answer, receipt)
}
