//! The synchronous queue: a parcel goes from one seat to another.

ghost use Rattle.std.specs.Prelude.{◌≡◌, ◌↔◌, None, IsNone, IfOk};
ghost use Rattle.std.specs.Option.{option_and_then};
ghost use Rattle.meet_tickets.specs.Meeting.{partner};
ghost use Rattle.meet_tickets.specs.declared.places.Side.TheVariants.{Taker};

use crate::one_thread::parcel_of;
use crate::one_thread::telling::{
    tell_back, tell_followed, tell_gave, tell_interrupted, tell_taken, tell_took,
};
use crate::parcels::passing::Parcel;
use anyhow::Result;
use meet_core::{Dual, Polled};
use meet_line::{FairLine, Line};
use meet_tickets::{Refusal, Refused, SeatNo, Ticket};

/// Takes the parcel of a producer that waits; None if none does. It fails as `Dual::poll` does. Java:
/// `SynchronousQueue.poll`.
pub fn take_now<L: Line<Parcel>>(
    queue: &mut Dual<Parcel, L>,
    seat: SeatNo,
) -> Result<Option<Parcel>, Refusal>
    ensures came { IfOk result (λ taken. taken ≡ option_and_then (λ e. e.item) (partner L.end queue.old.queue.line Taker)) }
    ensures nobody { IfOk result (λ taken. IsNone taken ↔ (partner L.end queue.old.queue.line Taker ≡ None)) }
{
    match queue.poll(seat)? {
        Polled::Meets(_, _, parcel) => Ok(Some(parcel)),
        Polled::Fails(_) => Ok(None),
    }
}

/// A synchronous queue of parcels in fair mode.
type Counter = Dual<Parcel, FairLine<Parcel>>;

/// One seat gives a parcel, another takes it, and the first follows up. Then it gives another, and cancels that.
pub fn hand_over(rt: &HostRuntime, seat_0: SeatNo, seat_1: SeatNo) -> Result<()> {
    let alloc = rt.alloc();
    let mut queue: Dual<Parcel, FairLine<Parcel>> = Dual::new(alloc, 3, 1)?; // seats 0 to 2, first ticket 1
    two_parcels(rt, &mut queue, seat_0, seat_1)
}

/// The calls of both seats, one after another.
fn two_parcels(
    rt: &HostRuntime,
    queue: &mut Counter,
    seat_0: SeatNo,
    seat_1: SeatNo,
) -> Result<()> {
    let ticket = give(rt, queue, seat_0, 5)?;
    take(rt, queue, seat_1)?;
    follow_up(rt, queue, seat_0, ticket)?;
    let ticket = give(rt, queue, seat_0, 6)?;
    cancel(rt, queue, seat_0, ticket)?;
    interrupt(rt, queue, seat_0)
}

/// Gives the parcel of this number, and returns the ticket.
fn give(rt: &HostRuntime, queue: &mut Counter, seat_0: SeatNo, mark: u64) -> Result<Ticket> {
    let item = parcel_of(mark);
    // A refusal would bring the parcel back; `into_why` lets it go.
    let gave = queue.give(seat_0, item).map_err(Refused::into_why)?; // Gave::Waits(ticket), Gave::Meets(..), ..
    tell_gave(rt, gave)
}

/// A seat takes.
fn take(rt: &HostRuntime, queue: &mut Counter, seat_1: SeatNo) -> Result<()> {
    let took = queue.take(seat_1)?; // Took::Meets(ticket, with, item), Took::Waits(ticket), ..
    tell_took(rt, took)
}

/// A seat asks whether its ticket was matched.
fn follow_up(rt: &HostRuntime, queue: &mut Counter, seat_0: SeatNo, ticket: Ticket) -> Result<()> {
    let followed = queue.follow_up(seat_0, ticket)?; // Followed::Done, Followed::Got(with, item), ..
    tell_followed(rt, followed)
}

/// A seat cancels its ticket.
fn cancel(rt: &HostRuntime, queue: &mut Counter, seat_0: SeatNo, ticket: Ticket) -> Result<()> {
    let back = queue.cancel(seat_0, ticket)?; // TakenBack::Back(Some(item)), TakenBack::Late, ..
    tell_back(rt, back)
}

/// A seat is interrupted.
fn interrupt(rt: &HostRuntime, queue: &mut Counter, seat_0: SeatNo) -> Result<()> {
    let interrupted = queue.interrupt(seat_0)?; // Interrupted::Cut(ticket), Interrupted::Flagged
    tell_interrupted(rt, interrupted)
}

/// A seat polls, and prints what it got.
fn poll(rt: &HostRuntime, queue: &mut Counter, seat: SeatNo) -> Result<()> {
    let taken = take_now(queue, seat)?;
    tell_taken(rt, taken)
}

/// A seat polls twice: if no seat gives, and if another seat does.
pub fn poll_twice(rt: &HostRuntime, seat_0: SeatNo, seat_1: SeatNo) -> Result<()> {
    let mut queue: Counter = Dual::new(rt.alloc(), 3, 1)?;
    two_polls(rt, &mut queue, seat_0, seat_1)
}

/// The calls of both seats, one after another.
fn two_polls(rt: &HostRuntime, queue: &mut Counter, seat_0: SeatNo, seat_1: SeatNo) -> Result<()> {
    poll(rt, queue, seat_1)?;
    give(rt, queue, seat_0, 7)?;
    poll(rt, queue, seat_1)
}
