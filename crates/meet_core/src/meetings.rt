//! What the queues of one thread share: producers and consumers that meet in one wait queue, and items that are
//! buffered there.

ghost use Rattle.std.specs.Prelude.{◌≡◌, ◌≤◌, ◌<◌, Some, None, IsOk, IfOk, IfErr, OnOk, OnErr};
ghost use Rattle.meet_tickets.specs.Meeting.{kept_count};
ghost use Rattle.meet_tickets.specs.BySeat.{nobody};
ghost use Rattle.meet_tickets.specs.Limits.{most_seats, last_ticket};
ghost use Rattle.meet_tickets.specs.Refusals.{IsWhy};
ghost use Rattle.meet_core.specs.Bounded.{IsBuffering};

use crate::answers::{Gave, Offered, Polled, Put, Took};
use crate::seats::SeatTable;
use meet_line::Line;
use meet_tickets::{Marked, Refusal, Refused, SeatNo, Ticket};
use std::alloc::Global;
use std::marker::Model;

mod admitted;
mod bases;
mod endings;
mod leaving;
mod moves;
mod partners;
mod probes;

/// The meetings of one thread's queue: its wait queue, its seats, its last ticket and the next. It counts the producers
/// that stand in the wait queue, those of buffered items included, and the items that are buffered there.
///
/// What each call writes stands together, at the end of the wait queue, here, and at the head of the seats. Fields lie
/// in memory in their order, and each cache line that a call writes has to come from the thread that called before.
#[derive(Drop)]
pub struct Meetings<T: Marked, L: Line<T>> {
    line: L,
    givers: u64,
    last: Ticket,
    next: u64,
    seats: SeatTable<T>,
    kept: u64,
}

impl<T: Marked, L: Line<T>> Model for Meetings<T, L> {
    ghost use Rattle.std.specs.Prelude.{◌≡◌, ◌<◌, ◌≤◌, length};
    ghost use Rattle.meet_tickets.specs.Meeting.{kept_count, count_on};
    ghost use Rattle.meet_tickets.specs.declared.places.Side.TheVariants.{Giver};
    ghost use Rattle.meet_core.specs.Table.{hold_at};
    ghost use Rattle.meet_line.specs.Sound.{IsSound};
    ghost use Rattle.meet_core.specs.Queue.{Queue};

    ghost Value = { Queue T };

    ghost view = { λ meetings. record {
      line = L.entries meetings.line;
      room = L.spare meetings.line;
      table = meetings.seats;
      last = meetings.last;
      next = meetings.next;
    } };

    ghost invariant = { λ meetings.
        IsSound (L.entries meetings.line) (hold_at meetings.seats.holds) meetings.next
        × (meetings.kept ≡ kept_count (L.entries meetings.line))
        × (meetings.kept < meetings.next)
        × (meetings.givers ≡ count_on Giver (L.entries meetings.line))
        × (length meetings.seats.holds ≤ L.width meetings.line) };
}

impl<T: Marked, L: Line<T>> Meetings<T, L> {
    ghost use Rattle.meet_core.specs.Queue.{seats_of, count_of, places_of, admit_refusal};
    ghost use Rattle.meet_core.specs.Steps.{GiveStep, PutStep, TakeStep, OfferStep, PollStep};
    ghost use Rattle.meet_tickets.specs.declared.refusals.Refusal.TheVariants.{Memory};

    /// Creates a queue with no room yet, with this many seats, at most 65,536, and this first ticket, 1 to 2^63 - 1.
    ///
    /// # Errors
    /// - Memory, if an allocation fails.
    pub fn new(alloc: Global, seats: u64, first: u64) -> Result<Self, Refusal>
        requires seats { seats ≤ most_seats }
        requires first_from { 0 < first }
        requires first_to { first ≤ last_ticket }
        ensures fresh { IfOk result (λ queue. seats_of queue ≡ nobody) }
        ensures seats { IfOk result (λ queue. count_of queue ≡ seats) }
        ensures unused { IfOk result (λ queue. queue.last ≡ 0) }
        ensures first { IfOk result (λ queue. queue.next ≡ first) }
        ensures room { IfOk result (λ queue. queue.room ≡ 0) }
        ensures nothing_kept { IfOk result (λ queue. kept_count queue.line ≡ 0) }
        ensures memory { IfErr result (λ why. why ≡ Memory) }
    {
        let mut line = L::empty(alloc);
        if line.widen(seats).is_err() {
            line.destroy_empty();
            return Err(Refusal::Memory);
        }
        let seats = match SeatTable::new(alloc, seats) {
            Ok(seats) => seats,
            Err(_) => {
                line.destroy_empty();
                return Err(Refusal::Memory);
            }
        };
        Ok(Meetings {
            line,
            seats,
            last: Ticket::new(0).unwrap(),
            next: first,
            givers: 0,
            kept: 0,
        })
    }

    /// Returns the ticket that a request of this seat would use.
    ///
    /// # Errors
    /// The first that applies:
    /// - NoSuchSeat, if the queue has no such seat.
    /// - SeatOpen, if the seat has a pending request (an open ticket).
    /// - TicketsSpent, if all tickets are used.
    pub fn admit(&self, seat: SeatNo) -> Result<Ticket, Refusal>
        ensures admitted { IfOk result (λ ticket. (admit_refusal self.now seat ≡ None) × (ticket ≡ self.now.next)) }
        ensures refused { IfErr result (λ why. admit_refusal self.now seat ≡ Some why) }
    {
        if seat.number() >= self.seats.count() {
            return Err(Refusal::NoSuchSeat);
        }
        if self.seats.hold(seat).is_open() {
            return Err(Refusal::SeatOpen);
        }
        Ticket::new(self.next).ok_or(Refusal::TicketsSpent)
    }

    /// Makes room for this many pending requests.
    ///
    /// # Errors
    /// - Memory, if an allocation fails: nothing has changed.
    pub fn reserve(&mut self, requests: u64) -> Result<(), Refusal>
        ensures same { self.new ≡ record self.old { room = self.new.room } }
        ensures room { OnOk result (requests ≤ self.new.room) }
        ensures more { self.old.room ≤ self.new.room }
        ensures unchanged { OnErr result (self.new ≡ self.old) }
        ensures memory { IfErr result (λ why. why ≡ Memory) }
        ensures enough { requests ≤ self.old.room → IsOk result }
    {
        self.line.reserve(requests)
    }

    /// Gives an item. It goes to the consumer that is met, or its producer goes to the wait queue, or the request is
    /// refused at entry if the seat is flagged.
    ///
    /// # Errors
    /// Nothing has changed, and the item is returned.
    /// - NoSuchSeat, SeatOpen or TicketsSpent, as `admit`.
    /// - Memory, if an allocation fails, and never if there is room.
    ///
    /// Java: `SynchronousQueue.put` up to its wait.
    pub fn give(&mut self, seat: SeatNo, item: T) -> Result<Gave<T>, Refused<T>>
        ensures step { IfOk result (λ answer. GiveStep T.mark_of L.end self.old seat item answer self.new) }
        ensures admitted { IfOk result (λ _. admit_refusal self.old seat ≡ None) }
        ensures enough { 0 < self.old.room → admit_refusal self.old seat ≡ None → IsOk result }
        ensures places { places_of self.old ≤ places_of self.new }
        ensures kept { kept_count self.new.line ≡ kept_count self.old.line }
        ensures why { IfErr result (λ refused. IsWhy (admit_refusal self.old seat) refused.why) }
        ensures back { IfErr result (λ refused. refused.back ≡ item) }
        ensures unchanged { IfErr result (λ _. self.new ≡ self.old) }
    {
        if let Err(why) = self.admit(seat) {
            return Err(Refused { why, back: item });
        }
        if let Err(why) = self.reserve(1) {
            return Err(Refused { why, back: item });
        }
        Ok(self.give_admitted(seat, item))
    }

    /// Takes an item. It comes from the producer that is met, or the consumer goes to the wait queue, or the request is
    /// refused at entry if the seat is flagged.
    ///
    /// # Errors
    /// Nothing has changed.
    /// - NoSuchSeat, SeatOpen or TicketsSpent, as `admit`.
    /// - Memory, if an allocation fails, and never if there is room.
    ///
    /// Java: `SynchronousQueue.take` up to its wait.
    pub fn take(&mut self, seat: SeatNo) -> Result<Took<T>, Refusal>
        ensures step { IfOk result (λ answer. TakeStep T.mark_of L.end self.old seat answer self.new) }
        ensures admitted { IfOk result (λ _. admit_refusal self.old seat ≡ None) }
        ensures enough { 0 < self.old.room → admit_refusal self.old seat ≡ None → IsOk result }
        ensures places { places_of self.old ≤ places_of self.new }
        ensures kept { kept_count self.new.line ≤ kept_count self.old.line }
        ensures why { IfErr result (IsWhy (admit_refusal self.old seat)) }
        ensures unchanged { IfErr result (λ _. self.new ≡ self.old) }
    {
        self.admit(seat)?;
        self.reserve(1)?;
        Ok(self.take_admitted(seat))
    }

    /// Offers an item. It goes to the consumer that is met, or is returned. It doesn't allocate.
    ///
    /// # Errors
    /// Nothing has changed, and the item is returned.
    /// - NoSuchSeat, SeatOpen or TicketsSpent, as `admit`.
    ///
    /// Java: `SynchronousQueue.offer`.
    pub fn offer(&mut self, seat: SeatNo, item: T) -> Result<Offered<T>, Refused<T>>
        ensures step { IfOk result (λ answer. OfferStep T.mark_of L.end self.old item answer self.new) }
        ensures admitted { IfOk result (λ _. admit_refusal self.old seat ≡ None) }
        ensures places { places_of self.new ≡ places_of self.old }
        ensures kept { kept_count self.new.line ≡ kept_count self.old.line }
        ensures why { IfErr result (λ refused. admit_refusal self.old seat ≡ Some refused.why) }
        ensures back { IfErr result (λ refused. refused.back ≡ item) }
        ensures unchanged { IfErr result (λ _. self.new ≡ self.old) }
    {
        if let Err(why) = self.admit(seat) {
            return Err(Refused { why, back: item });
        }
        Ok(self.offer_admitted(seat, item))
    }

    /// Polls: the item comes from the producer that is met, if one is there. It doesn't allocate.
    ///
    /// # Errors
    /// Nothing has changed.
    /// - NoSuchSeat, SeatOpen or TicketsSpent, as `admit`.
    ///
    /// Java: `SynchronousQueue.poll`.
    pub fn poll(&mut self, seat: SeatNo) -> Result<Polled<T>, Refusal>
        ensures step { IfOk result (λ answer. PollStep T.mark_of L.end self.old answer self.new) }
        ensures admitted { IfOk result (λ _. admit_refusal self.old seat ≡ None) }
        ensures places { places_of self.new ≡ places_of self.old }
        ensures kept { kept_count self.new.line ≤ kept_count self.old.line }
        ensures why { IfErr result (λ why. admit_refusal self.old seat ≡ Some why) }
        ensures unchanged { IfErr result (λ _. self.new ≡ self.old) }
    {
        self.admit(seat)?;
        Ok(self.poll_admitted(seat))
    }

    /// Puts an item. It goes to the consumer that is met, or is buffered, and its producer goes on. The put fails if as
    /// many items are buffered as the bound allows. It requires a wait queue that buffers.
    ///
    /// # Errors
    /// Nothing has changed, and the item is returned.
    /// - NoSuchSeat, SeatOpen or TicketsSpent, as `admit`.
    /// - Memory, if an allocation fails, and never if there is room.
    ///
    /// Java: `LinkedTransferQueue.put`.
    pub fn put(&mut self, seat: SeatNo, item: T, bound: Option<u64>) -> Result<Put<T>, Refused<T>>
        requires buffers { IsBuffering L.fits }
        ensures step { IfOk result (λ answer. PutStep T.mark_of L.end bound self.old seat item answer self.new) }
        ensures admitted { IfOk result (λ _. admit_refusal self.old seat ≡ None) }
        ensures enough { 0 < self.old.room → admit_refusal self.old seat ≡ None → IsOk result }
        ensures places { places_of self.old ≤ places_of self.new }
        ensures why { IfErr result (λ refused. IsWhy (admit_refusal self.old seat) refused.why) }
        ensures back { IfErr result (λ refused. refused.back ≡ item) }
        ensures unchanged { IfErr result (λ _. self.new ≡ self.old) }
    {
        if let Err(why) = self.admit(seat) {
            return Err(Refused { why, back: item });
        }
        if let Err(why) = self.reserve(1) {
            return Err(Refused { why, back: item });
        }
        Ok(self.put_admitted(seat, item, bound))
    }
}
