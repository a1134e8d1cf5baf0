//! Whether a record may come next after a base.

ghost use Rattle.std.specs.Prelude.{◌≡◌, ℕ, ◌<◌, ◌↔◌, Option, true, false, IsTrue, IsSome};
ghost use Rattle.meet_tickets.specs.Bases.{moment_of_base};
ghost use Rattle.meet_tickets.specs.BySeat.{Allows, IsFree, entry_of, is_request};
ghost use Rattle.meet_tickets.specs.Meeting.{Alone, Finds, MayKeep};
ghost use Rattle.meet_tickets.specs.declared.lines.Hold.TheVariants.{Waiting, Handed, Served, Cut};
ghost use Rattle.meet_tickets.specs.declared.places.Side.TheVariants.{Giver};
ghost use Rattle.meet_tickets.specs.declared.records.Deed.TheVariants.{Withdrawn};
ghost use Rattle.meet_explain.specs.Answers.{MayCome};

use crate::coming::holding::{cut_by, hold, is_flagged, whom};
use meet_tickets::{Base, Cause, Deed, Hold, Kind, SeatNo, Side, Ticket};

/// Whether a request of this side finds no counterpart.
fn is_alone(kind: Kind, base: &Base, side: Side) -> bool
    ensures { IsTrue result ↔ Alone kind base.now.line side }
{
    whom(kind, base, side).is_none()
}

/// Whether a request of this side finds this ticket, and this item of a producer.
fn finds(kind: Kind, base: &Base, side: Side, ticket: Ticket, item: Option<u64>) -> bool
    ensures { IsTrue result ↔ Finds kind base.now.line side ticket item }
{
    match whom(kind, base, side) {
        Some((met, presented)) => met == ticket && presented == item,
        None => false,
    }
}

/// Whether a seat has nothing open, and a ticket is above all so far.
fn is_new(base: &Base, seat: SeatNo, ticket: Ticket) -> bool
    ensures { IsTrue result ↔ (IsFree (moment_of_base base.now).seats seat × (base.now.last < ticket)) }
{
    match hold(base, seat) {
        Hold::Free => base.last.number() < ticket.number(),
        _ => false,
    }
}

/// Whether a request that would wait may: it finds no counterpart, and its seat has no pending interrupt.
fn may_wait(kind: Kind, base: &Base, seat: SeatNo, side: Side) -> bool
    ensures { IsTrue result ↔ (Alone kind base.now.line side × ((moment_of_base base.now).seats.flags seat ≡ false)) }
{
    is_alone(kind, base, side) && !is_flagged(base, seat)
}

/// Whether a request may be interrupted at its entry: it finds no counterpart, and its seat has a pending interrupt.
fn may_stop(kind: Kind, base: &Base, seat: SeatNo, side: Side) -> bool
    ensures { IsTrue result ↔ (Alone kind base.now.line side × ((moment_of_base base.now).seats.flags seat ≡ true)) }
{
    is_alone(kind, base, side) && is_flagged(base, seat)
}

/// Whether an item that finds no consumer may be buffered.
fn may_be_kept(kind: Kind, base: &Base) -> bool
    ensures { IsTrue result ↔ (Alone kind base.now.line Giver × MayKeep kind base.now.line) }
{
    is_alone(kind, base, Side::Giver) && kind.may_keep(base.line.as_slice())
}

/// Whether this is a request's deed, and the specification allows it to a seat that has nothing open.
fn may_request(kind: Kind, base: &Base, seat: SeatNo, ticket: Ticket, deed: Deed) -> bool
    requires { IsFree (moment_of_base base.now).seats seat }
    ensures { IsTrue result ↔ ((is_request deed ≡ true)
        × Allows kind (moment_of_base base.now).seats seat ticket deed) }
{
    match deed {
        Deed::GiveWaits(_) => may_wait(kind, base, seat, Side::Giver),
        Deed::TakeWaits => may_wait(kind, base, seat, Side::Taker),
        Deed::GiveMeets(_, with) => finds(kind, base, Side::Giver, with, None),
        Deed::TakeMeets(mark, with) => finds(kind, base, Side::Taker, with, Some(mark)),
        Deed::GiveFails(_) => is_alone(kind, base, Side::Giver),
        Deed::TakeFails => is_alone(kind, base, Side::Taker),
        Deed::GiveKept(_) => may_be_kept(kind, base),
        Deed::EntryInterrupted(side) => may_stop(kind, base, seat, side),
        _ => false,
    }
}

/// Whether a seat waits with this ticket.
fn holds(base: &Base, seat: SeatNo, ticket: Ticket) -> bool
    ensures { IsTrue result ↔ ((moment_of_base base.now).seats.holds seat ≡ Waiting ticket) }
{
    match hold(base, seat) {
        Hold::Waiting(open) => open == ticket,
        _ => false,
    }
}

/// The same; then the ticket stands in the wait queue.
fn waits(base: &Base, seat: SeatNo, ticket: Ticket) -> bool
    ensures { IsTrue result ↔ (((moment_of_base base.now).seats.holds seat ≡ Waiting ticket)
        × IsSome (entry_of base.now.line ((moment_of_base base.now).seats.holds seat))) }
{
    holds(base, seat, ticket)
}

/// Whether a producer's ticket was matched.
fn is_handed(base: &Base, seat: SeatNo, ticket: Ticket) -> bool
    ensures { IsTrue result ↔ ((u : ℕ) × (mark : ℕ)
        × ((moment_of_base base.now).seats.holds seat ≡ Handed ticket u mark)) }
{
    match hold(base, seat) {
        Hold::Handed(open, _, _) => open == ticket,
        _ => false,
    }
}

/// Whether a consumer's ticket was matched by this producer, whose item has this mark.
fn is_served(base: &Base, seat: SeatNo, ticket: Ticket, giver: Ticket, mark: u64) -> bool
    ensures { IsTrue result ↔ ((moment_of_base base.now).seats.holds seat ≡ Served ticket giver mark) }
{
    match hold(base, seat) {
        Hold::Served(open, with, item) => open == ticket && with == giver && item == mark,
        _ => false,
    }
}

/// Whether a ticket was interrupted.
fn is_cut(base: &Base, seat: SeatNo, ticket: Ticket) -> bool
    ensures { IsTrue result ↔ ((item : Option ℕ) × ((moment_of_base base.now).seats.holds seat ≡ Cut ticket item)) }
{
    match hold(base, seat) {
        Hold::Cut(open, _) => open == ticket,
        _ => false,
    }
}

/// Whether a ticket may be withdrawn for this cause.
fn may_leave(kind: Kind, base: &Base, seat: SeatNo, ticket: Ticket, cause: Cause) -> bool
    ensures { IsTrue result ↔ Allows kind (moment_of_base base.now).seats seat ticket (Withdrawn cause) }
{
    match cause {
        Cause::Cancelled => waits(base, seat, ticket),
        Cause::Expired => waits(base, seat, ticket),
        Cause::Interrupted => is_cut(base, seat, ticket),
    }
}

/// Whether this deed completes a ticket, and the specification allows it.
fn may_end(kind: Kind, base: &Base, seat: SeatNo, ticket: Ticket, deed: Deed) -> bool
    ensures { IsTrue result ↔ ((is_request deed ≡ false)
        × Allows kind (moment_of_base base.now).seats seat ticket deed) }
{
    match deed {
        Deed::Done => is_handed(base, seat, ticket),
        Deed::Got(mark, giver) => is_served(base, seat, ticket, giver, mark),
        Deed::Withdrawn(cause) => may_leave(kind, base, seat, ticket, cause),
        Deed::Interrupt(target) => ticket.number() == cut_by(base, target),
        _ => false,
    }
}

/// Whether this is a request's deed that the specification allows to this seat with this ticket.
fn may_ask(kind: Kind, base: &Base, seat: SeatNo, ticket: Ticket, deed: Deed) -> bool
    ensures { IsTrue result ↔ ((is_request deed ≡ true)
        × MayCome kind base.now seat ticket deed) }
{
    if !is_new(base, seat, ticket) {
        return false;
    }
    may_request(kind, base, seat, ticket, deed)
}

/// Returns true exactly if a record of this seat with this ticket and deed may come next after a base.
pub fn may_come(kind: Kind, base: &Base, seat: SeatNo, ticket: Ticket, deed: Deed) -> bool
    ensures { IsTrue result ↔ MayCome kind base.now seat ticket deed }
{
    match deed {
        Deed::Done | Deed::Got(_, _) | Deed::Withdrawn(_) | Deed::Interrupt(_) => may_end(
            kind, base, seat, ticket, deed,
        ),
        _ => may_ask(kind, base, seat, ticket, deed),
    }
}
