//! The whole calls of a queue: a request, and if that waits, the wait for its completion.

ghost use Rattle.std.specs.Prelude.{◌≡◌, ◌<◌, ⊤, None, IfOk, IfErr, IfNone};
ghost use Rattle.meet_sync.specs.Asking.{call_of, item_of, RefusedAs};
ghost use Rattle.meet_sync.specs.Ending.{EndedAs, MayRunOut, OutcomeOf, NotExpired};
ghost use Rattle.meet_sync.specs.Told.{IsRequestWhy, RefusedSince};
ghost use Rattle.meet_sync.specs.declared.asked.Request.TheVariants.{Give, Offer, Take, Poll};

use crate::asked::{Asked, End, Ended, Followed, Request, SeatRefused, TakenBack};
use crate::queue::Queue;
use meet_cells::Deadline;
use meet_core::QueuePlace;
use meet_place::{Gate, Ledgers, Pending, Seat, Turn};
use meet_tickets::Deed;
use std::sync::Wait;
use std::time::Clock;

/// How many milliseconds remain of a limit until its deadline; none where there is no limit.
fn remaining_until<R: Clock>(rt: &R, deadline: Option<Deadline>) -> Option<u64>
    ensures untimed { IfNone deadline (result ≡ None) }
{
    match deadline {
        None => None,
        Some(deadline) => Some(deadline.remaining(rt)),
    }
}

impl<O: QueuePlace, G: Gate, N: Ledgers> Queue<O, G, N> {
    /// Follows an open ticket up: how it ended, or the ticket as it was.
    #[inline(always)]
    fn look<R: Wait>(
        &self,
        rt: &R,
        pending: Pending<Deed, N>,
    ) -> Result<Ended<O::Item, N>, Pending<Deed, N>>
        ensures outcome { IfOk result (λ ended. OutcomeOf O.Item.mark_of pending ended) }
        ensures untimed { IfOk result (λ ended. NotExpired ended.end) }
        ensures again { IfErr result (λ again. again ≡ pending) }
    {
        match self.follow_up(rt, pending) {
            Followed::Done(seat) => Ok(Ended {
                seat,
                end: End::Done,
            }),
            Followed::Got(seat, with, item) => Ok(Ended {
                seat,
                end: End::Got(with, item),
            }),
            Followed::Interrupted(seat, back) => Ok(Ended {
                seat,
                end: End::Interrupted(back),
            }),
            Followed::NotYet(again) => Err(again),
        }
    }

    /// The time of an open ticket ran out: it is withdrawn, or ends as it was met or cut.
    fn run_out<R: Wait>(
        &self,
        rt: &R,
        pending: Pending<Deed, N>,
    ) -> Result<Ended<O::Item, N>, Pending<Deed, N>>
        ensures outcome { IfOk result (λ ended. OutcomeOf O.Item.mark_of pending ended) }
        ensures again { IfErr result (λ again. again ≡ pending) }
    {
        match self.expire(rt, pending) {
            TakenBack::Back(seat, back) => Ok(Ended {
                seat,
                end: End::TimedOut(back),
            }),
            TakenBack::Late(again) => self.look(rt, again),
        }
    }

    /// One wait at the seat's gate, for as many milliseconds as remain where there is a limit, and a look at how the
    /// ticket ended; where the time is up, it is withdrawn.
    fn turn<R: Wait + Clock>(
        &self,
        rt: &R,
        pending: Pending<Deed, N>,
        remaining: Option<u64>,
    ) -> Result<Ended<O::Item, N>, Pending<Deed, N>>
        ensures outcome { IfOk result (λ ended. OutcomeOf O.Item.mark_of pending ended) }
        ensures untimed { IfNone remaining (IfOk result (λ ended. NotExpired ended.end)) }
        ensures again { IfErr result (λ again. again ≡ pending) }
    {
        match remaining {
            None => {
                let _ = self.wait(rt, &pending, None);
                self.look(rt, pending)
            }
            Some(time) => {
                if time == 0 || self.wait(rt, &pending, remaining) == Turn::Elapsed {
                    self.run_out(rt, pending)
                } else {
                    self.look(rt, pending)
                }
            }
        }
    }

    /// Waits until an open ticket ends, or its time runs out where there is a limit in milliseconds, however often it
    /// is woken in between.
    fn await_end<R: Wait + Clock>(
        &self,
        rt: &R,
        first: Pending<Deed, N>,
        limit: Option<u64>,
    ) -> Ended<O::Item, N>
        ensures outcome { OutcomeOf O.Item.mark_of first result }
        ensures untimed { IfNone limit (NotExpired result.end) }
    {
        let deadline = Deadline::after(rt, limit);
        let mut remaining = limit;
        let mut pending = first;
        for _ in rt.forever() {
            match self.turn(rt, pending, remaining) {
                Ok(ended) => return ended,
                Err(again) => pending = again,
            }
            remaining = remaining_until(rt, deadline);
        }
        unreachable!()
    }

    /// Makes a whole call, of a queue of any kind: a request, and the wait for its completion. `limit` is in
    /// milliseconds; without one it may wait for ever. Put is `BlockingQueue.put`, Give `TransferQueue.transfer`, Offer
    /// `TransferQueue.tryTransfer`. In a synchronous queue the first two are the same, and the last is its `offer`.
    ///
    /// # Errors
    /// - Memory, SeatOpen, TicketsSpent or HistoryFull, as `request`.
    #[inline(always)]
    pub fn ask<R: Wait + Clock>(
        &self,
        rt: &R,
        seat: Seat<Deed, N>,
        request: Request<O::Item>,
        limit: Option<u64>,
    ) -> Result<Ended<O::Item, N>, SeatRefused<O::Item, N>>
        ensures ended { IfOk result (λ ended. EndedAs O.kind (MayRunOut limit) O.Item.mark_of seat request ended) }
        ensures refused { IfErr result (RefusedAs IsRequestWhy seat (item_of request)) }
        ensures since { IfErr result (λ refused. RefusedSince O.kind O.Item.mark_of seat.moment seat.number
            (call_of request) refused.why) }
    {
        let asked = match self.request(rt, seat, request) {
            Ok(asked) => asked,
            Err(refused) => return Err(refused),
        };
        match asked {
            Asked::Settled(seat, answer) => Ok(Ended {
                seat,
                end: answer.into_end(),
            }),
            Asked::Parked(pending) => Ok(self.await_end(rt, pending, limit)),
        }
    }

    /// A give that waits for so many milliseconds; with a limit of 0 it is an offer.
    pub(crate) fn give_for<R: Wait + Clock>(
        &self,
        rt: &R,
        seat: Seat<Deed, N>,
        item: O::Item,
        limit: u64,
    ) -> Result<Ended<O::Item, N>, SeatRefused<O::Item, N>>
        ensures now { limit ≡ 0 → IfOk result (λ ended. EndedAs O.kind ⊥ O.Item.mark_of seat (Offer item) ended) }
        ensures timed { 0 < limit → IfOk result (λ ended. EndedAs O.kind ⊤ O.Item.mark_of seat (Give item) ended) }
        ensures refused { IfErr result (RefusedAs IsRequestWhy seat (item_of (Give item))) }
    {
        if limit == 0 {
            return self.ask(rt, seat, Request::Offer(item), None);
        }
        self.ask(rt, seat, Request::Give(item), Some(limit))
    }

    /// Takes an item, and waits until there is one, which may be never. It ends with Got. If its seat is interrupted,
    /// it ends with EntryInterrupted or Interrupted.
    ///
    /// # Errors
    /// - Memory, SeatOpen, TicketsSpent or HistoryFull, as `request`.
    ///
    /// # Example
    /// From `crates/examples/src/pipeline/stages.rt`:
    ///
    ///     let taken = numbers.take(rt, from).map_err(SeatRefused::into_why)?;
    ///     from = taken.seat;
    ///     let End::Got(_, number) = taken.end else {
    ///         break;
    ///     };
    ///
    /// Java: `BlockingQueue.take`.
    pub fn take<R: Wait + Clock>(
        &self,
        rt: &R,
        seat: Seat<Deed, N>,
    ) -> Result<Ended<O::Item, N>, SeatRefused<O::Item, N>>
        ensures ended { IfOk result (λ ended. EndedAs O.kind ⊥ O.Item.mark_of seat Take ended) }
        ensures refused { IfErr result (RefusedAs IsRequestWhy seat (item_of Take)) }
    {
        self.ask(rt, seat, Request::Take, None)
    }

    /// Takes an item from a producer that is there, and ends with Got; otherwise it ends with Failed. It doesn't wait.
    ///
    /// # Errors
    /// - Memory, SeatOpen, TicketsSpent or HistoryFull, as `request`.
    ///
    /// # Example
    /// From `crates/examples/src/moments.rt`:
    ///
    ///     let mut seat = seat;
    ///     seat.learn(&note.moment);
    ///     match queue.poll(rt, seat) {
    ///         Ok(Ended { seat, end }) => {
    ///
    /// Java: `Queue.poll`.
    pub fn poll<R: Wait + Clock>(
        &self,
        rt: &R,
        seat: Seat<Deed, N>,
    ) -> Result<Ended<O::Item, N>, SeatRefused<O::Item, N>>
        ensures ended { IfOk result (λ ended. EndedAs O.kind ⊥ O.Item.mark_of seat Poll ended) }
        ensures refused { IfErr result (RefusedAs IsRequestWhy seat (item_of Poll)) }
    {
        self.ask(rt, seat, Request::Poll, None)
    }

    /// Takes an item, and waits for one for `limit` milliseconds at most. It ends as `take`, or with TimedOut. With a
    /// limit of 0 it is `poll`.
    ///
    /// # Errors
    /// - Memory, SeatOpen, TicketsSpent or HistoryFull, as `request`.
    ///
    /// # Example
    /// From `crates/examples/src/parcels/passing.rt`:
    ///
    ///     match counter.poll_for(rt, seat, plan.patience) {
    ///         Ok(ended) => {
    ///             hand = hand.with(parcel_of(ended.end)); // End::Got(with, parcel), End::TimedOut(None), ..
    ///
    /// Java: `BlockingQueue.poll` with a timeout.
    pub fn poll_for<R: Wait + Clock>(
        &self,
        rt: &R,
        seat: Seat<Deed, N>,
        limit: u64,
    ) -> Result<Ended<O::Item, N>, SeatRefused<O::Item, N>>
        ensures now { limit ≡ 0 → IfOk result (λ ended. EndedAs O.kind ⊥ O.Item.mark_of seat Poll ended) }
        ensures timed { 0 < limit → IfOk result (λ ended. EndedAs O.kind ⊤ O.Item.mark_of seat Take ended) }
        ensures refused { IfErr result (RefusedAs IsRequestWhy seat (item_of Take)) }
    {
        if limit == 0 {
            return self.ask(rt, seat, Request::Poll, None);
        }
        self.ask(rt, seat, Request::Take, Some(limit))
    }
}
