//! The completions of a pending request, and interrupts. None of them allocates.

ghost use Rattle.std.specs.Prelude.{◌≡◌, ◌↔◌, ◌<◌, Some, IsOk, IfOk, IfErr};
ghost use Rattle.meet_tickets.specs.Meeting.{kept_count};
ghost use Rattle.meet_tickets.specs.BySeat.{open_ticket};

use crate::answers::{Followed, Interrupted, TakenBack};
use crate::meetings::Meetings;
use meet_line::Line;
use meet_tickets::{Entry, Hold, Marked, Refusal, SeatNo, Ticket};

impl<T: Marked, L: Line<T>> Meetings<T, L> {
    ghost use Rattle.meet_core.specs.Queue.{seats_of, count_of, places_of};
    ghost use Rattle.meet_core.specs.Steps.{FollowStep, WithdrawStep, InterruptStep, CutsWaiting};
    ghost use Rattle.meet_tickets.specs.declared.refusals.Refusal.TheVariants.{NoSuchSeat, NotOpen};

    /// Follows the seat's open ticket up.
    ///
    /// # Errors
    /// - NotOpen, if the ticket isn't the open one of that seat, or the seat isn't there: nothing has changed.
    #[inline(always)]
    pub fn follow_up(&mut self, seat: SeatNo, ticket: Ticket) -> Result<Followed<T>, Refusal>
        ensures step { IfOk result (λ answer. FollowStep self.old seat ticket answer self.new) }
        ensures open { IsOk result ↔ (open_ticket ((seats_of self.old).holds seat) ≡ Some ticket) }
        ensures places { places_of self.new ≡ places_of self.old }
        ensures kept { kept_count self.new.line ≡ kept_count self.old.line }
        ensures why { IfErr result (λ why. why ≡ NotOpen) }
        ensures unchanged { IfErr result (λ _. self.new ≡ self.old) }
    {
        if self.open_ticket(seat) != Some(ticket) {
            return Err(Refusal::NotOpen);
        }
        if !self.seats.hold(seat).is_settled() {
            return Ok(Followed::NotYet);
        }
        Ok(Followed::of(self.seats.free_up(seat)))
    }

    /// Takes the seat's open ticket back, with a producer's item, if it stands in the wait queue; otherwise it is late.
    ///
    /// # Errors
    /// - NotOpen, as `follow_up`.
    pub fn cancel(&mut self, seat: SeatNo, ticket: Ticket) -> Result<TakenBack<T>, Refusal>
        ensures step { IfOk result (λ answer. WithdrawStep self.old seat ticket answer self.new) }
        ensures open { IsOk result ↔ (open_ticket ((seats_of self.old).holds seat) ≡ Some ticket) }
        ensures places { places_of self.new ≡ places_of self.old }
        ensures kept { kept_count self.new.line ≡ kept_count self.old.line }
        ensures why { IfErr result (λ why. why ≡ NotOpen) }
        ensures unchanged { IfErr result (λ _. self.new ≡ self.old) }
    {
        if self.open_ticket(seat) != Some(ticket) {
            return Err(Refusal::NotOpen);
        }
        match self.withdraw(seat) {
            Some(
                Entry {
                    ticket: _,
                    seat: _,
                    item,
                    waits: _,
                },
            ) => Ok(TakenBack::Back(item)),
            None => Ok(TakenBack::Late),
        }
    }

    /// Takes the seat's open ticket back as `cancel` does, since its time ran out.
    ///
    /// # Errors
    /// - NotOpen, as `follow_up`.
    ///
    /// Java: the timeout of `SynchronousQueue.offer` and `poll`.
    pub fn expire(&mut self, seat: SeatNo, ticket: Ticket) -> Result<TakenBack<T>, Refusal>
        ensures step { IfOk result (λ answer. WithdrawStep self.old seat ticket answer self.new) }
        ensures open { IsOk result ↔ (open_ticket ((seats_of self.old).holds seat) ≡ Some ticket) }
        ensures places { places_of self.new ≡ places_of self.old }
        ensures kept { kept_count self.new.line ≡ kept_count self.old.line }
        ensures why { IfErr result (λ why. why ≡ NotOpen) }
        ensures unchanged { IfErr result (λ _. self.new ≡ self.old) }
    {
        self.cancel(seat, ticket)
    }

    /// Interrupts the target. A ticket that stands in the wait queue leaves it, and awaits its follow-up; otherwise the
    /// interrupt becomes pending (the target is flagged).
    ///
    /// # Errors
    /// - NoSuchSeat, if the target isn't there: nothing has changed.
    ///
    /// Java: `Thread.interrupt`.
    pub fn interrupt(&mut self, target: SeatNo) -> Result<Interrupted, Refusal>
        ensures step { IfOk result (λ answer. InterruptStep self.old target answer self.new) }
        ensures waited { IfOk result (λ answer. CutsWaiting self.old target answer) }
        ensures there { IsOk result ↔ (target < count_of self.old) }
        ensures places { places_of self.new ≡ places_of self.old }
        ensures kept { kept_count self.new.line ≡ kept_count self.old.line }
        ensures why { IfErr result (λ why. why ≡ NoSuchSeat) }
        ensures unchanged { IfErr result (λ _. self.new ≡ self.old) }
    {
        if target.number() >= self.seats.count() {
            return Err(Refusal::NoSuchSeat);
        }
        match self.withdraw(target) {
            Some(entry) => {
                let Entry {
                    ticket,
                    seat: _,
                    item,
                    waits: _,
                } = entry;
                self.seats.put(target, Hold::Cut(ticket, item));
                Ok(Interrupted::Cut(ticket))
            }
            None => {
                self.seats.set_flag(target, true);
                Ok(Interrupted::Flagged)
            }
        }
    }
}
