//! The split calls: requests, the completion of pending requests, and interrupts.

ghost use Rattle.std.specs.Prelude.{◌≡◌, ◌<◌, ℕ, None, IfOk, IfErr};
ghost use Rattle.meet_tickets.specs.declared.records.Cause.TheVariants.{Cancelled, Expired};
ghost use Rattle.meet_sync.specs.Asking.{item_of, RefusedAs, AskedAs, InterruptedAs, FollowedAs, TakenBackAs};
ghost use Rattle.meet_sync.specs.Stopping.{Interrupts, others};
ghost use Rattle.meet_sync.specs.Told.{IsRequestWhy, IsInterruptWhy, IsCutWhy};
ghost use Rattle.meet_chosen.specs.Chosen.{kind_of};

use crate::queue::{ChosenQueue, whichever};
use meet_place::{Gate, Ledgers, Pending, Seat};
use meet_sync::{Asked, Followed, Interrupted, Request, SeatRefused, TakenBack};
use meet_tickets::{Deed, Marked, SeatNo};
use std::sync::Wait;

impl<T: Marked, G: Gate, N: Ledgers> ChosenQueue<T, G, N> {
    /// Makes a request, as `Queue::request`: it is settled at once, or it waits with its ticket pending (open).
    ///
    /// # Errors
    /// Seat and item are returned, and nothing is logged. The first that applies:
    /// - Memory, if the seat's list can't grow.
    /// - SeatOpen, if the seat has a pending request (an open ticket).
    /// - TicketsSpent, if all 2^63 - 1 request ids (tickets) are used.
    /// - HistoryFull, if two records, for the request and its completion, can't be reserved.
    /// - Memory, if the queue can't grow.
    pub fn request<R: Wait>(
        &self,
        rt: &R,
        seat: Seat<Deed, N>,
        request: Request<T>,
    ) -> Result<Asked<T, N>, SeatRefused<T, N>>
        ensures asked { IfOk result (λ asked. AskedAs (kind_of self.now) T.mark_of seat request asked) }
        ensures refused { IfErr result (RefusedAs IsRequestWhy seat (item_of request)) }
    {
        whichever!(self, queue => queue.request(rt, seat, request))
    }

    /// Interrupts a target by the number of its seat, as `Queue::interrupt`.
    ///
    /// # Errors
    /// The seat is returned, and nothing is logged. The first that applies:
    /// - Memory, if the seat's list can't grow.
    /// - NoSuchSeat, if the queue has no seat of this number.
    /// - HistoryFull, if the log has no room for the record.
    /// - Memory, if the queue can't grow.
    ///
    /// Java: `Thread.interrupt`.
    pub fn interrupt<R: Wait>(
        &self,
        rt: &R,
        seat: Seat<Deed, N>,
        target: SeatNo,
    ) -> Result<Interrupted<N>, SeatRefused<T, N>>
        ensures interrupted { IfOk result (λ interrupted. InterruptedAs seat target interrupted) }
        ensures there { IfOk result (λ _. target < N.parts) }
        ensures refused { IfErr result (RefusedAs (IsInterruptWhy N.parts target) seat None) }
    {
        whichever!(self, queue => queue.interrupt(rt, seat, target))
    }

    /// Interrupts every other seat, as `Queue::interrupt_all`: one after another, each by a record of its own.
    ///
    /// # Errors
    /// The seats below some number were interrupted, and no others; the returned seat has their receipts.
    /// - HistoryFull, if the log has no room for a record.
    /// - Memory, if an allocation fails.
    pub fn interrupt_all<R: Wait>(
        &self,
        rt: &R,
        seat: Seat<Deed, N>,
    ) -> Result<Seat<Deed, N>, SeatRefused<T, N>>
        ensures all { IfOk result (λ after. Interrupts seat after (others seat.number N.parts)) }
        ensures some { IfErr result (λ refused. (below : ℕ) × (below < N.parts)
            × Interrupts seat refused.seat (others seat.number below)) }
        ensures why { IfErr result (λ refused. IsCutWhy refused.why) }
        ensures item { IfErr result (λ refused. refused.item ≡ None) }
    {
        whichever!(self, queue => queue.interrupt_all(rt, seat))
    }

    /// Follows a pending request up: returns how it ended, or NotYet while it waits in the wait queue. It can't fail.
    pub fn follow_up<R: Wait>(&self, rt: &R, pending: Pending<Deed, N>) -> Followed<T, N>
        ensures { FollowedAs (kind_of self.now) T.mark_of pending result }
    {
        whichever!(self, queue => queue.follow_up(rt, pending))
    }

    /// Takes a pending request back, or returns Late if it was matched or interrupted before. It can't fail.
    pub fn cancel<R: Wait>(&self, rt: &R, pending: Pending<Deed, N>) -> TakenBack<T, N>
        ensures { TakenBackAs (kind_of self.now) T.mark_of pending Cancelled result }
    {
        whichever!(self, queue => queue.cancel(rt, pending))
    }

    /// Takes a pending request back as `cancel` does, and logs an expiry: its time ran out. It can't fail.
    pub fn expire<R: Wait>(&self, rt: &R, pending: Pending<Deed, N>) -> TakenBack<T, N>
        ensures { TakenBackAs (kind_of self.now) T.mark_of pending Expired result }
    {
        whichever!(self, queue => queue.expire(rt, pending))
    }
}
