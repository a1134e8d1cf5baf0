//! The whole calls, by the names that `BlockingQueue` has for them, and the bulk poll (the drain).

ghost use Rattle.std.specs.Prelude.{◌≡◌, ◌<◌, ⊤, None, length, IfOk, IfErr, if◌then◌else◌};
ghost use Rattle.meet_tickets.specs.Meeting.{keeps};
ghost use Rattle.meet_place.specs.Seats.{IsLater};
ghost use Rattle.meet_sync.specs.Asking.{item_of, RefusedAs};
ghost use Rattle.meet_sync.specs.Drained.{DrainedTo, IsLeastFor};
ghost use Rattle.meet_sync.specs.Ending.{EndedAs, MayRunOut};
ghost use Rattle.meet_sync.specs.Told.{IsRequestWhy};
ghost use Rattle.meet_sync.specs.declared.asked.Request.TheVariants.{Put, Offer, Take, Poll};
ghost use Rattle.meet_chosen.specs.Chosen.{kind_of, order_of};

use crate::queue::{ChosenQueue, whichever};
use meet_place::{Gate, Ledgers, Seat};
use meet_sync::{DrainedItems, Ended, Request, SeatRefused};
use meet_tickets::{Deed, Marked};
use std::alloc::Global;
use std::sync::Wait;
use std::time::Clock;

impl<T: Marked, G: Gate, N: Ledgers> ChosenQueue<T, G, N> {
    /// Makes a whole call, as `Queue::ask`: a request, and the wait for its completion. `limit` is in milliseconds;
    /// without one it may wait for ever.
    ///
    /// # Errors
    /// - Memory, SeatOpen, TicketsSpent or HistoryFull, as `request`.
    #[inline(always)]
    pub fn ask<R: Wait + Clock>(
        &self,
        rt: &R,
        seat: Seat<Deed, N>,
        request: Request<T>,
        limit: Option<u64>,
    ) -> Result<Ended<T, N>, SeatRefused<T, N>>
        ensures ended { IfOk result (λ ended. EndedAs (kind_of self.now) (MayRunOut limit) T.mark_of seat request
            ended) }
        ensures refused { IfErr result (RefusedAs IsRequestWhy seat (item_of request)) }
    {
        whichever!(self, queue => queue.ask(rt, seat, request, limit))
    }

    /// Puts an item. If the queue buffers none, it waits until the item is taken, which may be never. It ends as that
    /// queue's `put`.
    ///
    /// # Errors
    /// - Memory, SeatOpen, TicketsSpent or HistoryFull, as `request`.
    ///
    /// Java: `BlockingQueue.put`.
    pub fn put<R: Wait + Clock>(
        &self,
        rt: &R,
        seat: Seat<Deed, N>,
        item: T,
    ) -> Result<Ended<T, N>, SeatRefused<T, N>>
        ensures ended { IfOk result (λ ended. EndedAs (kind_of self.now) ⊥ T.mark_of seat (Put item) ended) }
        ensures refused { IfErr result (RefusedAs IsRequestWhy seat (item_of (Put item))) }
    {
        self.ask(rt, seat, Request::Put(item), None)
    }

    /// Gives an item to a consumer that waits, or returns `End::Failed` with it, if the queue buffers no items;
    /// otherwise it is `put`. It doesn't wait.
    ///
    /// # Errors
    /// - Memory, SeatOpen, TicketsSpent or HistoryFull, as `request`.
    ///
    /// Java: `BlockingQueue.offer`.
    pub fn offer<R: Wait + Clock>(
        &self,
        rt: &R,
        seat: Seat<Deed, N>,
        item: T,
    ) -> Result<Ended<T, N>, SeatRefused<T, N>>
        ensures ended { IfOk result (λ ended. EndedAs (kind_of self.now) ⊥ T.mark_of seat
            (if keeps (order_of self.now) then Put item else Offer item) ended) }
        ensures refused { IfErr result (RefusedAs IsRequestWhy seat (item_of (Offer item))) }
    {
        let request = if self.order().keeps() {
            Request::Put(item)
        } else {
            Request::Offer(item)
        };
        self.ask(rt, seat, request, None)
    }

    /// Takes an item, and waits until there is one, which may be never. It ends as `Queue::take`.
    ///
    /// # Errors
    /// - Memory, SeatOpen, TicketsSpent or HistoryFull, as `request`.
    ///
    /// Java: `BlockingQueue.take`.
    pub fn take<R: Wait + Clock>(
        &self,
        rt: &R,
        seat: Seat<Deed, N>,
    ) -> Result<Ended<T, N>, SeatRefused<T, N>>
        ensures ended { IfOk result (λ ended. EndedAs (kind_of self.now) ⊥ T.mark_of seat Take ended) }
        ensures refused { IfErr result (RefusedAs IsRequestWhy seat (item_of Take)) }
    {
        self.ask(rt, seat, Request::Take, None)
    }

    /// Takes an item from a producer that is there, or returns `End::Failed`. It doesn't wait.
    ///
    /// # Errors
    /// - Memory, SeatOpen, TicketsSpent or HistoryFull, as `request`.
    ///
    /// Java: `Queue.poll`.
    pub fn poll<R: Wait + Clock>(
        &self,
        rt: &R,
        seat: Seat<Deed, N>,
    ) -> Result<Ended<T, N>, SeatRefused<T, N>>
        ensures ended { IfOk result (λ ended. EndedAs (kind_of self.now) ⊥ T.mark_of seat Poll ended) }
        ensures refused { IfErr result (RefusedAs IsRequestWhy seat (item_of Poll)) }
    {
        self.ask(rt, seat, Request::Poll, None)
    }

    /// Takes an item, and waits for one for `limit` milliseconds at most. With a limit of 0 it is `poll`.
    ///
    /// # Errors
    /// - Memory, SeatOpen, TicketsSpent or HistoryFull, as `request`.
    ///
    /// Java: `BlockingQueue.poll` with a timeout.
    pub fn poll_for<R: Wait + Clock>(
        &self,
        rt: &R,
        seat: Seat<Deed, N>,
        limit: u64,
    ) -> Result<Ended<T, N>, SeatRefused<T, N>>
        ensures now { limit ≡ 0 → IfOk result (λ ended. EndedAs (kind_of self.now) ⊥ T.mark_of seat Poll ended) }
        ensures timed { 0 < limit → IfOk result (λ ended. EndedAs (kind_of self.now) ⊤ T.mark_of seat Take ended) }
        ensures refused { IfErr result (RefusedAs IsRequestWhy seat (item_of Take)) }
    {
        if limit == 0 {
            return self.ask(rt, seat, Request::Poll, None);
        }
        self.ask(rt, seat, Request::Take, Some(limit))
    }

    /// Takes up to `max` items that producers in the wait queue brought, as `Queue::drain`.
    ///
    /// # Errors
    /// Nothing is taken. The first that applies:
    /// - Memory, if a list can't grow.
    /// - SeatOpen, if the seat has a pending request (an open ticket).
    /// - TicketsSpent, if fewer request ids (tickets) are left than items to take.
    /// - HistoryFull, if the log has no room for the records.
    /// - Memory, if the queue can't grow.
    ///
    /// Java: `BlockingQueue.drainTo`.
    pub fn drain<R: Wait>(
        &self,
        rt: &R,
        alloc: Global,
        seat: Seat<Deed, N>,
        max: u64,
    ) -> Result<DrainedItems<T, N>, SeatRefused<T, N>>
        ensures number { IfOk result (λ drained. drained.seat.number ≡ seat.number) }
        ensures past { IfOk result (λ drained. drained.seat.past ≡ seat.past) }
        ensures count { IfOk result (λ drained. IsLeastFor T N.parts max (length drained.items.items)) }
        ensures drained { IfOk result (λ drained. DrainedTo T.mark_of seat drained.seat drained.items.items) }
        ensures later { IfOk result (λ drained. IsLater seat.moment drained.seat.moment seat.list drained.seat.list) }
        ensures refused { IfErr result (RefusedAs IsRequestWhy seat None) }
    {
        whichever!(self, queue => queue.drain(rt, alloc, seat, max))
    }
}
