//! The requests of a queue after they are admitted: none of them fails.

ghost use Rattle.std.specs.Prelude.{◌≡◌, ◌<◌, ◌≤◌, None};
ghost use Rattle.meet_tickets.specs.Meeting.{kept_count};
ghost use Rattle.meet_core.specs.Bounded.{IsBuffering};

use crate::answers::{Gave, Offered, Polled, Put, Took};
use crate::meetings::Meetings;
use meet_line::Line;
use meet_tickets::{Marked, SeatNo};

impl<T: Marked, L: Line<T>> Meetings<T, L> {
    ghost use Rattle.meet_core.specs.Queue.{places_of, admit_refusal};
    ghost use Rattle.meet_core.specs.Steps.{GiveStep, PutStep, TakeStep, OfferStep, PollStep};

    /// Gives an item: it goes to the consumer that is met, or its producer goes to the wait queue, or the request is
    /// refused at entry if the seat is flagged. It requires that `admit` succeeds, and that there is room. It can't
    /// fail.
    ///
    /// Java: `SynchronousQueue.put` or `LinkedTransferQueue.transfer` up to its wait.
    #[inline(always)]
    pub fn give_admitted(&mut self, seat: SeatNo, item: T) -> Gave<T>
        requires admitted { admit_refusal self.old seat ≡ None }
        requires room { 0 < self.old.room }
        ensures step { GiveStep T.mark_of L.end self.old seat item result self.new }
        ensures places { places_of self.new ≡ places_of self.old }
        ensures kept { kept_count self.new.line ≡ kept_count self.old.line }
    {
        let ticket = self.draw();
        match self.hand(ticket, item) {
            Ok(with) => Gave::Meets(ticket, with),
            Err(item) if self.seats.is_flagged(seat) => {
                self.seats.set_flag(seat, false);
                Gave::EntryInterrupted(ticket, item)
            }
            Err(item) => {
                self.wait(seat, ticket, Some(item));
                Gave::Waits(ticket)
            }
        }
    }

    /// Takes an item: it comes from the producer that is met, or the consumer goes to the wait queue, or the request is
    /// refused at entry if the seat is flagged. It requires that `admit` succeeds, and that there is room. It can't
    /// fail.
    ///
    /// Java: `BlockingQueue.take` up to its wait.
    #[inline(always)]
    pub fn take_admitted(&mut self, seat: SeatNo) -> Took<T>
        requires admitted { admit_refusal self.old seat ≡ None }
        requires room { 0 < self.old.room }
        ensures step { TakeStep T.mark_of L.end self.old seat result self.new }
        ensures places { places_of self.new ≡ places_of self.old }
        ensures kept { kept_count self.new.line ≤ kept_count self.old.line }
    {
        let ticket = self.draw();
        match self.fetch(ticket) {
            Some((with, item)) => Took::Meets(ticket, with, item),
            None if self.seats.is_flagged(seat) => {
                self.seats.set_flag(seat, false);
                Took::EntryInterrupted(ticket)
            }
            None => {
                self.wait(seat, ticket, None);
                Took::Waits(ticket)
            }
        }
    }

    /// Offers an item: it goes to the consumer that is met, or is returned. It requires that `admit` succeeds. It can't
    /// fail.
    ///
    /// Java: `SynchronousQueue.offer` or `LinkedTransferQueue.tryTransfer`.
    pub fn offer_admitted(&mut self, seat: SeatNo, item: T) -> Offered<T>
        requires { admit_refusal self.old seat ≡ None }
        ensures step { OfferStep T.mark_of L.end self.old item result self.new }
        ensures places { places_of self.new ≡ places_of self.old }
        ensures kept { kept_count self.new.line ≡ kept_count self.old.line }
    {
        let ticket = self.draw();
        match self.hand(ticket, item) {
            Ok(with) => Offered::Meets(ticket, with),
            Err(item) => Offered::Fails(ticket, item),
        }
    }

    /// Polls: the item comes from the producer that is met, if one is there. It requires that `admit` succeeds. It
    /// can't fail.
    ///
    /// Java: `BlockingQueue.poll`.
    pub fn poll_admitted(&mut self, seat: SeatNo) -> Polled<T>
        requires { admit_refusal self.old seat ≡ None }
        ensures step { PollStep T.mark_of L.end self.old result self.new }
        ensures places { places_of self.new ≡ places_of self.old }
        ensures kept { kept_count self.new.line ≤ kept_count self.old.line }
    {
        let ticket = self.draw();
        match self.fetch(ticket) {
            Some((with, item)) => Polled::Meets(ticket, with, item),
            None => Polled::Fails(ticket),
        }
    }

    /// Puts an item: it goes to the consumer that is met, or is buffered, or is returned if as many as the bound are
    /// buffered. It requires a wait queue that buffers, that `admit` succeeds, and that there is room. It can't fail.
    ///
    /// Java: `LinkedTransferQueue.put`.
    pub fn put_admitted(&mut self, seat: SeatNo, item: T, bound: Option<u64>) -> Put<T>
        requires buffers { IsBuffering L.fits }
        requires admitted { admit_refusal self.old seat ≡ None }
        requires room { 0 < self.old.room }
        ensures step { PutStep T.mark_of L.end bound self.old seat item result self.new }
        ensures places { places_of self.new ≡ places_of self.old }
    {
        let ticket = self.draw();
        match self.hand(ticket, item) {
            Ok(with) => Put::Meets(ticket, with),
            Err(item) if self.is_full(bound) => Put::Fails(ticket, item),
            Err(item) => {
                self.keep(seat, ticket, item);
                Put::Kept(ticket)
            }
        }
    }
}
