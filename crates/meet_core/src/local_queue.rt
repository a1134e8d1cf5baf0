//! The queue of one thread, over a wait queue and what it buffers: its requests.

ghost use Rattle.std.specs.Prelude.{◌≡◌, ◌≤◌, ◌<◌, Some, None, IsOk, IfOk, IfErr, OnOk, OnErr};
ghost use Rattle.meet_tickets.specs.Bases.{IsBaseOf};
ghost use Rattle.meet_tickets.specs.BySeat.{nobody};
ghost use Rattle.meet_tickets.specs.Limits.{most_seats, last_ticket};
ghost use Rattle.meet_tickets.specs.Refusals.{IsWhy};
ghost use Rattle.meet_core.specs.Seen.{moment_of_queue};

use crate::answers::{Gave, Offered, Polled, Took};
use crate::meetings::Meetings;
use meet_line::Line;
use meet_tickets::{Base, Marked, Refusal, Refused, SeatNo, Ticket};
use std::alloc::Global;
use std::marker::{Model, PhantomData};

mod buffers;
mod dual;
mod endings;
mod leaving;
mod place;
mod probes;
mod transfer;
mod unbounded;

pub use buffers::{AnyNumber, Buffers, Nothing, OneKind, UpTo};
pub use dual::Dual;
pub use transfer::Transfer;
pub use unbounded::Unbounded;

/// A queue of one thread (a dual data structure): producers and consumers that meet in this wait queue, which buffers
/// what `K` says. `Dual`, `Transfer` and `Unbounded` are its names for users.
#[derive(Drop)]
pub struct LocalQueue<T: Marked, L: Line<T>, K: Buffers<T, L>> {
    meetings: Meetings<T, L>,
    bound: Option<u64>,
    buffers: PhantomData<K>,
}

impl<T: Marked, L: Line<T>, K: Buffers<T, L>> Model for LocalQueue<T, L, K> {
    ghost use Rattle.meet_tickets.specs.Meeting.{kept_count};
    ghost use Rattle.meet_core.specs.Bounded.{Bounded};

    ghost Value = { Bounded T };

    ghost view = { λ local. record { queue = local.meetings; bound = local.bound } };

    ghost invariant = { λ local. K.allows (kept_count local.meetings.line) };
}

impl<T: Marked, L: Line<T>, K: Buffers<T, L>> LocalQueue<T, L, K> {
    ghost use Rattle.meet_core.specs.Queue.{seats_of, count_of, places_of, admit_refusal};
    ghost use Rattle.meet_core.specs.Steps.{GiveStep, TakeStep, OfferStep, PollStep};
    ghost use Rattle.meet_tickets.specs.declared.refusals.Refusal.TheVariants.{Memory};

    /// Creates a queue with this bound and with no room yet, with this many seats, at most 65,536, and this first
    /// ticket, 1 to 2^63 - 1.
    ///
    /// # Errors
    /// - Memory, if an allocation fails.
    pub(crate) fn with(
        alloc: Global,
        seats: u64,
        first: u64,
        bound: Option<u64>,
    ) -> Result<Self, Refusal>
        requires seats { seats ≤ most_seats }
        requires first_from { 0 < first }
        requires first_to { first ≤ last_ticket }
        ensures fresh { IfOk result (λ made. seats_of made.queue ≡ nobody) }
        ensures seats { IfOk result (λ made. count_of made.queue ≡ seats) }
        ensures unused { IfOk result (λ made. made.queue.last ≡ 0) }
        ensures first { IfOk result (λ made. made.queue.next ≡ first) }
        ensures room { IfOk result (λ made. made.queue.room ≡ 0) }
        ensures bound { IfOk result (λ made. made.bound ≡ bound) }
        ensures memory { IfErr result (λ why. why ≡ Memory) }
    {
        let meetings = Meetings::new(alloc, seats, first)?;
        Ok(LocalQueue {
            meetings,
            bound,
            buffers: PhantomData,
        })
    }

    /// Returns the ticket that a request of this seat would use.
    ///
    /// # Errors
    /// The first that applies:
    /// - NoSuchSeat, if the queue has no such seat.
    /// - SeatOpen, if the seat has a pending request (an open ticket).
    /// - TicketsSpent, if all tickets are used.
    pub fn admit(&self, seat: SeatNo) -> Result<Ticket, Refusal>
        ensures admitted { IfOk result (λ ticket. (admit_refusal self.now.queue seat ≡ None)
            × (ticket ≡ self.now.queue.next)) }
        ensures refused { IfErr result (λ why. admit_refusal self.now.queue seat ≡ Some why) }
    {
        self.meetings.admit(seat)
    }

    /// Makes room for this many requests that wait or leave their item buffered.
    ///
    /// # Errors
    /// - Memory, if an allocation fails: nothing has changed.
    pub fn reserve(&mut self, requests: u64) -> Result<(), Refusal>
        ensures same { self.new.queue ≡ record self.old.queue { room = self.new.queue.room } }
        ensures room { OnOk result (requests ≤ self.new.queue.room) }
        ensures more { self.old.queue.room ≤ self.new.queue.room }
        ensures bound { self.new.bound ≡ self.old.bound }
        ensures unchanged { OnErr result (self.new ≡ self.old) }
        ensures memory { IfErr result (λ why. why ≡ Memory) }
        ensures enough { requests ≤ self.old.queue.room → IsOk result }
    {
        self.meetings.reserve(requests)
    }

    /// Gives an item. It goes to the consumer that is met, or its producer goes to the end of the wait queue, or the
    /// request is refused at entry if the seat is flagged.
    ///
    /// # Errors
    /// Nothing has changed, and the item is returned.
    /// - NoSuchSeat, SeatOpen or TicketsSpent, as `admit`.
    /// - Memory, if an allocation fails, and never if there is room.
    ///
    /// # Example
    /// From `crates/examples/src/one_thread/handoff.rt`:
    ///
    ///     let gave = queue.give(seat_0, item).map_err(Refused::into_why)?; // Gave::Waits(ticket), Gave::Meets(..), ..
    ///
    /// Java: `SynchronousQueue.put` or `LinkedTransferQueue.transfer` up to its wait.
    pub fn give(&mut self, seat: SeatNo, item: T) -> Result<Gave<T>, Refused<T>>
        ensures step { IfOk result (λ answer. GiveStep T.mark_of L.end self.old.queue seat item answer self.new.queue) }
        ensures admitted { IfOk result (λ _. admit_refusal self.old.queue seat ≡ None) }
        ensures enough { 0 < self.old.queue.room → admit_refusal self.old.queue seat ≡ None → IsOk result }
        ensures places { places_of self.old.queue ≤ places_of self.new.queue }
        ensures bound { self.new.bound ≡ self.old.bound }
        ensures why { IfErr result (λ refused. IsWhy (admit_refusal self.old.queue seat) refused.why) }
        ensures back { IfErr result (λ refused. refused.back ≡ item) }
        ensures unchanged { IfErr result (λ _. self.new ≡ self.old) }
    {
        self.meetings.give(seat, item)
    }

    /// Takes an item. It comes from the producer that is met, buffered or waiting, or the consumer goes to the wait
    /// queue, or the request is refused at entry if the seat is flagged.
    ///
    /// # Errors
    /// Nothing has changed.
    /// - NoSuchSeat, SeatOpen or TicketsSpent, as `admit`.
    /// - Memory, if an allocation fails, and never if there is room.
    ///
    /// # Example
    /// From `crates/examples/src/one_thread/handoff.rt`:
    ///
    ///     let took = queue.take(seat_1)?; // Took::Meets(ticket, with, item), Took::Waits(ticket), ..
    ///
    /// Java: `BlockingQueue.take` up to its wait.
    pub fn take(&mut self, seat: SeatNo) -> Result<Took<T>, Refusal>
        ensures step { IfOk result (λ answer. TakeStep T.mark_of L.end self.old.queue seat answer self.new.queue) }
        ensures admitted { IfOk result (λ _. admit_refusal self.old.queue seat ≡ None) }
        ensures enough { 0 < self.old.queue.room → admit_refusal self.old.queue seat ≡ None → IsOk result }
        ensures places { places_of self.old.queue ≤ places_of self.new.queue }
        ensures bound { self.new.bound ≡ self.old.bound }
        ensures why { IfErr result (IsWhy (admit_refusal self.old.queue seat)) }
        ensures unchanged { IfErr result (λ _. self.new ≡ self.old) }
    {
        self.meetings.take(seat)
    }

    /// Offers an item. It goes to the consumer that is met, or is returned. It doesn't allocate.
    ///
    /// # Errors
    /// Nothing has changed, and the item is returned.
    /// - NoSuchSeat, SeatOpen or TicketsSpent, as `admit`.
    ///
    /// Java: `SynchronousQueue.offer`, `LinkedTransferQueue.tryTransfer`.
    pub fn offer(&mut self, seat: SeatNo, item: T) -> Result<Offered<T>, Refused<T>>
        ensures step { IfOk result (λ answer. OfferStep T.mark_of L.end self.old.queue item answer self.new.queue) }
        ensures admitted { IfOk result (λ _. admit_refusal self.old.queue seat ≡ None) }
        ensures places { places_of self.new.queue ≡ places_of self.old.queue }
        ensures bound { self.new.bound ≡ self.old.bound }
        ensures why { IfErr result (λ refused. admit_refusal self.old.queue seat ≡ Some refused.why) }
        ensures back { IfErr result (λ refused. refused.back ≡ item) }
        ensures unchanged { IfErr result (λ _. self.new ≡ self.old) }
    {
        self.meetings.offer(seat, item)
    }

    /// Polls: the item comes from the producer that is met, buffered or waiting, if one is there. It doesn't allocate.
    ///
    /// # Errors
    /// Nothing has changed.
    /// - NoSuchSeat, SeatOpen or TicketsSpent, as `admit`.
    ///
    /// # Example
    /// From `crates/examples/src/one_thread/handoff.rt`:
    ///
    ///     match queue.poll(seat)? {
    ///
    /// Java: `BlockingQueue.poll`.
    pub fn poll(&mut self, seat: SeatNo) -> Result<Polled<T>, Refusal>
        ensures step { IfOk result (λ answer. PollStep T.mark_of L.end self.old.queue answer self.new.queue) }
        ensures admitted { IfOk result (λ _. admit_refusal self.old.queue seat ≡ None) }
        ensures places { places_of self.new.queue ≡ places_of self.old.queue }
        ensures bound { self.new.bound ≡ self.old.bound }
        ensures why { IfErr result (λ why. admit_refusal self.old.queue seat ≡ Some why) }
        ensures unchanged { IfErr result (λ _. self.new ≡ self.old) }
    {
        self.meetings.poll(seat)
    }

    /// Returns the base of the queue, after `gone` records were compacted.
    ///
    /// # Errors
    /// - Memory, if an allocation fails.
    pub fn base(&self, alloc: Global, gone: u64) -> Result<Base, Refusal>
        ensures base { IfOk result (IsBaseOf (moment_of_queue T.mark_of self.now.queue) gone) }
        ensures memory { IfErr result (λ why. why ≡ Memory) }
    {
        self.meetings.base(alloc, gone)
    }
}
