//! The transfer queue of one thread (`LinkedTransferQueue`), with a bound on the items that it buffers, or none.
//!
//! Its wait queue is that of a synchronous queue in fair mode, but for the nodes of buffered items. Their producer went
//! on, so nobody follows them up, and none can interrupt them or take them back. A bound is on these alone.

ghost use Rattle.std.specs.Prelude.{◌≡◌, ◌≤◌, ◌<◌, ◌↔◌, Some, None, IsOk, IsTrue, IfOk, IfErr, nat_lt};
ghost use Rattle.std.specs.Prelude.{option_map, slice_get};
ghost use Rattle.std.specs.Option.{option_and_then};
ghost use Rattle.meet_tickets.specs.BySeat.{nobody};
ghost use Rattle.meet_tickets.specs.Limits.{most_seats, last_ticket, told_capacity};
ghost use Rattle.meet_tickets.specs.Meeting.{count_on};
ghost use Rattle.meet_tickets.specs.Refusals.{IsWhy};
ghost use Rattle.meet_tickets.specs.declared.places.End.TheVariants.{Front};
ghost use Rattle.meet_tickets.specs.declared.places.Side.TheVariants.{Giver, Taker};

use crate::answers::{Gave, Offered, Put};
use crate::local_queue::{LocalQueue, UpTo};
use meet_line::TransferLine;
use meet_tickets::{Marked, Refusal, Refused, SeatNo, TOLD_CAPACITY};
use std::alloc::Global;

/// A transfer queue of one thread, with a bound on the items that it buffers, or none.
///
/// Java: `LinkedTransferQueue`.
pub type Transfer<T> = LocalQueue<T, TransferLine<T>, UpTo>;

impl<T: Marked> LocalQueue<T, TransferLine<T>, UpTo> {
    ghost use Rattle.meet_core.specs.Queue.{seats_of, count_of, places_of, admit_refusal};
    ghost use Rattle.meet_core.specs.Steps.{GiveStep, PutStep, OfferStep};
    ghost use Rattle.meet_tickets.specs.declared.refusals.Refusal.TheVariants.{Memory};

    /// Creates a queue without a bound and with no room yet, with this many seats, at most 65,536, and this first
    /// ticket, 1 to 2^63 - 1.
    ///
    /// # Errors
    /// - Memory, if an allocation fails.
    pub fn new(alloc: Global, seats: u64, first: u64) -> Result<Self, Refusal>
        requires seats { seats ≤ most_seats }
        requires first_from { 0 < first }
        requires first_to { first ≤ last_ticket }
        ensures fresh { IfOk result (λ made. seats_of made.queue ≡ nobody) }
        ensures seats { IfOk result (λ made. count_of made.queue ≡ seats) }
        ensures unused { IfOk result (λ made. made.queue.last ≡ 0) }
        ensures first { IfOk result (λ made. made.queue.next ≡ first) }
        ensures room { IfOk result (λ made. made.queue.room ≡ 0) }
        ensures bound { IfOk result (λ made. made.bound ≡ None) }
        ensures memory { IfErr result (λ why. why ≡ Memory) }
    {
        LocalQueue::with(alloc, seats, first, None)
    }

    /// Creates a queue that buffers at most `bound` items: with 0 it buffers none. Seats and first ticket are as in
    /// `new`.
    ///
    /// # Errors
    /// - Memory, if an allocation fails.
    ///
    /// # Example
    /// From `crates/examples/src/one_thread/transfers.rt`:
    ///
    ///     let mut queue: Transfer<Parcel> = Transfer::with_bound(alloc, 3, 1, 100)?; // keeps at most 100 items
    pub fn with_bound(alloc: Global, seats: u64, first: u64, bound: u64) -> Result<Self, Refusal>
        requires seats { seats ≤ most_seats }
        requires first_from { 0 < first }
        requires first_to { first ≤ last_ticket }
        ensures fresh { IfOk result (λ made. seats_of made.queue ≡ nobody) }
        ensures seats { IfOk result (λ made. count_of made.queue ≡ seats) }
        ensures unused { IfOk result (λ made. made.queue.last ≡ 0) }
        ensures first { IfOk result (λ made. made.queue.next ≡ first) }
        ensures room { IfOk result (λ made. made.queue.room ≡ 0) }
        ensures bound { IfOk result (λ made. made.bound ≡ Some bound) }
        ensures memory { IfErr result (λ why. why ≡ Memory) }
    {
        LocalQueue::with(alloc, seats, first, Some(bound))
    }

    /// Puts an item. It goes to the consumer that is met, or is buffered, and its producer goes on. The put fails if as
    /// many items are buffered as the bound allows. It looks at no pending interrupt.
    ///
    /// # Errors
    /// Nothing has changed, and the item is returned.
    /// - NoSuchSeat, SeatOpen or TicketsSpent, as `admit`.
    /// - Memory, if an allocation fails, and never if there is room.
    ///
    /// Java: `LinkedTransferQueue.put`, `offer` and `offer` with a timeout, which are the same.
    pub fn put(&mut self, seat: SeatNo, item: T) -> Result<Put<T>, Refused<T>>
        ensures step { IfOk result (λ answer. PutStep T.mark_of Front self.old.bound self.old.queue seat item answer
            self.new.queue) }
        ensures admitted { IfOk result (λ _. admit_refusal self.old.queue seat ≡ None) }
        ensures enough { 0 < self.old.queue.room → admit_refusal self.old.queue seat ≡ None → IsOk result }
        ensures places { places_of self.old.queue ≤ places_of self.new.queue }
        ensures bound { self.new.bound ≡ self.old.bound }
        ensures why { IfErr result (λ refused. IsWhy (admit_refusal self.old.queue seat) refused.why) }
        ensures back { IfErr result (λ refused. refused.back ≡ item) }
        ensures unchanged { IfErr result (λ _. self.new ≡ self.old) }
    {
        self.meetings.put(seat, item, self.bound)
    }

    /// Gives an item. It goes to the consumer that is met, or its producer goes to the end of the wait queue, or the
    /// request is refused at entry if the seat is flagged.
    ///
    /// # Errors
    /// Nothing has changed, and the item is returned.
    /// - NoSuchSeat, SeatOpen or TicketsSpent, as `admit`.
    /// - Memory, if an allocation fails, and never if there is room.
    ///
    /// # Example
    /// From `crates/examples/src/one_thread/transfers.rt`:
    ///
    ///     let gave = queue.transfer(seat_0, second).map_err(Refused::into_why)?; // Gave::Waits(ticket), ..
    ///
    /// Java: `LinkedTransferQueue.transfer` up to its wait.
    pub fn transfer(&mut self, seat: SeatNo, item: T) -> Result<Gave<T>, Refused<T>>
        ensures step { IfOk result (λ answer. GiveStep T.mark_of Front self.old.queue seat item answer self.new.queue) }
        ensures admitted { IfOk result (λ _. admit_refusal self.old.queue seat ≡ None) }
        ensures enough { 0 < self.old.queue.room → admit_refusal self.old.queue seat ≡ None → IsOk result }
        ensures places { places_of self.old.queue ≤ places_of self.new.queue }
        ensures bound { self.new.bound ≡ self.old.bound }
        ensures why { IfErr result (λ refused. IsWhy (admit_refusal self.old.queue seat) refused.why) }
        ensures back { IfErr result (λ refused. refused.back ≡ item) }
        ensures unchanged { IfErr result (λ _. self.new ≡ self.old) }
    {
        self.give(seat, item)
    }

    /// Offers an item. It goes to the consumer that is met, or is returned. It doesn't allocate.
    ///
    /// # Errors
    /// Nothing has changed, and the item is returned.
    /// - NoSuchSeat, SeatOpen or TicketsSpent, as `admit`.
    ///
    /// # Example
    /// From `crates/examples/src/one_thread/transfers.rt`:
    ///
    ///     let offered = queue.try_transfer(seat_1, third);
    ///
    /// Java: `LinkedTransferQueue.tryTransfer`.
    pub fn try_transfer(&mut self, seat: SeatNo, item: T) -> Result<Offered<T>, Refused<T>>
        ensures step { IfOk result (λ answer. OfferStep T.mark_of Front self.old.queue item answer self.new.queue) }
        ensures admitted { IfOk result (λ _. admit_refusal self.old.queue seat ≡ None) }
        ensures places { places_of self.new.queue ≡ places_of self.old.queue }
        ensures bound { self.new.bound ≡ self.old.bound }
        ensures why { IfErr result (λ refused. admit_refusal self.old.queue seat ≡ Some refused.why) }
        ensures back { IfErr result (λ refused. refused.back ≡ item) }
        ensures unchanged { IfErr result (λ _. self.new ≡ self.old) }
    {
        self.offer(seat, item)
    }

    /// Returns how many producers stand in the wait queue, buffered items included.
    ///
    /// # Example
    /// From `crates/examples/src/one_thread/transfers.rt`:
    ///
    ///     let size = queue.size(); // the givers in the line, kept or waiting
    ///
    /// Java: `LinkedTransferQueue.size`.
    pub fn size(&self) -> u64
        ensures { result ≡ count_on Giver self.now.queue.line }
    {
        self.givers()
    }

    /// Returns true if no producer stands in the wait queue, and no item is buffered.
    ///
    /// Java: `LinkedTransferQueue.isEmpty`.
    pub fn is_empty(&self) -> bool
        ensures { IsTrue result ↔ (count_on Giver self.now.queue.line ≡ 0) }
    {
        self.size() == 0
    }

    /// Returns the mark of the oldest item, buffered or waiting.
    ///
    /// Java: `LinkedTransferQueue.peek`, here by the item's mark.
    pub fn peek_mark(&self) -> Option<u64>
        ensures { result ≡ option_and_then (λ e. option_map T.mark_of e.item) (slice_get self.now.queue.line 0) }
    {
        self.first_mark()
    }

    /// Returns how many consumers stand in the wait queue, exactly.
    ///
    /// Java: `LinkedTransferQueue.getWaitingConsumerCount`.
    pub fn waiting_consumers(&self) -> u64
        ensures { result ≡ count_on Taker self.now.queue.line }
    {
        self.takers()
    }

    /// Returns true if a consumer stands in the wait queue.
    ///
    /// Java: `LinkedTransferQueue.hasWaitingConsumer`.
    pub fn has_waiting_consumer(&self) -> bool
        ensures { result ≡ nat_lt 0 (count_on Taker self.now.queue.line) }
    {
        self.takers() > 0
    }

    /// Returns 2,147,483,647, with a bound too (implementation-defined).
    ///
    /// Java: `LinkedTransferQueue.remainingCapacity`.
    pub fn remaining_capacity(&self) -> u64
        ensures { result ≡ told_capacity }
    {
        TOLD_CAPACITY
    }
}
