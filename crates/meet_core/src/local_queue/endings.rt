//! The completions of a pending request, and interrupts. None of them allocates.

ghost use Rattle.std.specs.Prelude.{◌≡◌, ◌↔◌, ◌<◌, Some, IsOk, IfOk, IfErr};
ghost use Rattle.meet_tickets.specs.BySeat.{open_ticket};

use crate::answers::{Followed, Interrupted, TakenBack};
use crate::local_queue::{Buffers, LocalQueue};
use meet_line::Line;
use meet_tickets::{Marked, Refusal, SeatNo, Ticket};

impl<T: Marked, L: Line<T>, K: Buffers<T, L>> LocalQueue<T, L, K> {
    ghost use Rattle.meet_core.specs.Queue.{seats_of, count_of, places_of};
    ghost use Rattle.meet_core.specs.Steps.{FollowStep, WithdrawStep, InterruptStep, CutsWaiting};
    ghost use Rattle.meet_tickets.specs.declared.refusals.Refusal.TheVariants.{NoSuchSeat, NotOpen};

    /// Follows the seat's open ticket up.
    ///
    /// # Errors
    /// - NotOpen, if the ticket isn't the open one of that seat, or the seat isn't there: nothing has changed. The
    ///   ticket of a buffered item is never open.
    ///
    /// # Example
    /// From `crates/examples/src/one_thread/handoff.rt`:
    ///
    ///     let followed = queue.follow_up(seat_0, ticket)?; // Followed::Done, Followed::Got(with, item), ..
    pub fn follow_up(&mut self, seat: SeatNo, ticket: Ticket) -> Result<Followed<T>, Refusal>
        ensures step { IfOk result (λ answer. FollowStep self.old.queue seat ticket answer self.new.queue) }
        ensures open { IsOk result ↔ (open_ticket ((seats_of self.old.queue).holds seat) ≡ Some ticket) }
        ensures places { places_of self.new.queue ≡ places_of self.old.queue }
        ensures bound { self.new.bound ≡ self.old.bound }
        ensures why { IfErr result (λ why. why ≡ NotOpen) }
        ensures unchanged { IfErr result (λ _. self.new ≡ self.old) }
    {
        self.meetings.follow_up(seat, ticket)
    }

    /// Takes the seat's open ticket back, with a producer's item, if it stands in the wait queue; otherwise it is late.
    ///
    /// # Errors
    /// - NotOpen, as `follow_up`.
    ///
    /// # Example
    /// From `crates/examples/src/one_thread/handoff.rt`:
    ///
    ///     let back = queue.cancel(seat_0, ticket)?; // TakenBack::Back(Some(item)), TakenBack::Late, ..
    pub fn cancel(&mut self, seat: SeatNo, ticket: Ticket) -> Result<TakenBack<T>, Refusal>
        ensures step { IfOk result (λ answer. WithdrawStep self.old.queue seat ticket answer self.new.queue) }
        ensures open { IsOk result ↔ (open_ticket ((seats_of self.old.queue).holds seat) ≡ Some ticket) }
        ensures places { places_of self.new.queue ≡ places_of self.old.queue }
        ensures bound { self.new.bound ≡ self.old.bound }
        ensures why { IfErr result (λ why. why ≡ NotOpen) }
        ensures unchanged { IfErr result (λ _. self.new ≡ self.old) }
    {
        self.meetings.cancel(seat, ticket)
    }

    /// Takes the seat's open ticket back as `cancel` does, since its time ran out. It leaves nothing there.
    ///
    /// # Errors
    /// - NotOpen, as `follow_up`.
    ///
    /// Java: the timeout of `SynchronousQueue.offer` and `poll`, and of `LinkedTransferQueue.tryTransfer` and `poll`.
    pub fn expire(&mut self, seat: SeatNo, ticket: Ticket) -> Result<TakenBack<T>, Refusal>
        ensures step { IfOk result (λ answer. WithdrawStep self.old.queue seat ticket answer self.new.queue) }
        ensures open { IsOk result ↔ (open_ticket ((seats_of self.old.queue).holds seat) ≡ Some ticket) }
        ensures places { places_of self.new.queue ≡ places_of self.old.queue }
        ensures bound { self.new.bound ≡ self.old.bound }
        ensures why { IfErr result (λ why. why ≡ NotOpen) }
        ensures unchanged { IfErr result (λ _. self.new ≡ self.old) }
    {
        self.meetings.expire(seat, ticket)
    }

    /// Interrupts the target. A ticket that waits in the wait queue leaves it, and awaits its follow-up; otherwise the
    /// interrupt becomes pending (the target is flagged). Its buffered items stay.
    ///
    /// # Errors
    /// - NoSuchSeat, if the target isn't there: nothing has changed.
    ///
    /// # Example
    /// From `crates/examples/src/one_thread/handoff.rt`:
    ///
    ///     let interrupted = queue.interrupt(seat_0)?; // Interrupted::Cut(ticket), Interrupted::Flagged
    ///
    /// Java: `Thread.interrupt`.
    pub fn interrupt(&mut self, target: SeatNo) -> Result<Interrupted, Refusal>
        ensures step { IfOk result (λ answer. InterruptStep self.old.queue target answer self.new.queue) }
        ensures waited { IfOk result (λ answer. CutsWaiting self.old.queue target answer) }
        ensures there { IsOk result ↔ (target < count_of self.old.queue) }
        ensures places { places_of self.new.queue ≡ places_of self.old.queue }
        ensures bound { self.new.bound ≡ self.old.bound }
        ensures why { IfErr result (λ why. why ≡ NoSuchSeat) }
        ensures unchanged { IfErr result (λ _. self.new ≡ self.old) }
    {
        self.meetings.interrupt(target)
    }
}
