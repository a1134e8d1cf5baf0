//! What a record leaves of a place.

ghost use Rattle.std.specs.Prelude.{◌≡◌, OnOk};
ghost use Rattle.meet_tickets.specs.BySeat.{queued, meets, released, withdrawn, interrupted, paired_hold};
ghost use Rattle.meet_tickets.specs.BySeat.{entry_of, moment_after};
ghost use Rattle.meet_overlap.specs.Places.{scene};

use crate::place::{Place, hold, partner, put_flag, put_hold};
use meet_tickets::{Cause, Deed, Entry, Hold, Kind, Record, SeatNo, Side, Ticket};
use std::alloc::AllocError;

/// An entry goes to the line's end; where it waits, its ticket is what its seat holds. Fails only if an
/// allocation fails.
fn queue(
    place: &mut Place,
    seat: SeatNo,
    ticket: Ticket,
    item: Option<u64>,
    waits: bool,
) -> Result<(), AllocError>
    ensures { OnOk result (scene place.new
        ≡ record { last = ticket; seats = queued (scene place.old).seats seat ticket item waits }) }
{
    place.last = ticket.number();
    place.line.push(Entry {
        ticket,
        seat,
        item,
        waits,
    })?;
    if waits {
        put_hold(&mut place.holds, seat, Hold::Waiting(ticket))?;
    }
    Ok(())
}

/// What the seat of a ticket that was met holds.
fn paired(ticket: Ticket, own: Option<u64>, with: Ticket, brought: Option<u64>) -> Hold<u64>
    ensures { result ≡ paired_hold (λ mark. mark) ticket own with brought }
{
    match own {
        Some(mark) => Hold::Handed(ticket, with, mark),
        None => match brought {
            Some(mark) => Hold::Served(ticket, with, mark),
            None => Hold::Free,
        },
    }
}

/// A request meets its partner, if it has one. Fails only if an allocation fails.
fn meet(
    kind: Kind,
    place: &mut Place,
    ticket: Ticket,
    item: Option<u64>,
    side: Side,
) -> Result<(), AllocError>
    ensures { OnOk result (scene place.new
        ≡ record { last = ticket; seats = meets kind (scene place.old).seats ticket item side }) }
{
    place.last = ticket.number();
    let Some(met) = partner(kind, place.line.as_slice(), side) else {
        return Ok(());
    };
    place.line.leave_met(kind.order.end());
    if met.waits {
        put_hold(
            &mut place.holds,
            met.seat,
            paired(met.ticket, met.item, ticket, item),
        )?;
    }
    Ok(())
}

/// A seat's ticket ends. Fails only if an allocation fails.
fn release(place: &mut Place, seat: SeatNo) -> Result<(), AllocError>
    ensures { OnOk result (scene place.new
        ≡ record { last = place.old.last; seats = released (scene place.old).seats seat }) }
{
    put_hold(&mut place.holds, seat, Hold::Free)
}

/// A seat's ticket leaves the line and ends. Fails only if an allocation fails.
fn withdraw(place: &mut Place, seat: SeatNo, ticket: Ticket) -> Result<(), AllocError>
    ensures { OnOk result (scene place.new
        ≡ record { last = place.old.last; seats = withdrawn (scene place.old).seats seat ticket }) }
{
    place.line.leave(ticket);
    put_hold(&mut place.holds, seat, Hold::Free)
}

/// The entry of what a seat holds, where it stands in the line.
pub(crate) fn entry_held(place: &Place, seat: SeatNo) -> Option<Entry<u64>>
    ensures { result ≡ entry_of (scene place.now).seats.line ((scene place.now).seats.holds seat) }
{
    match hold(&place.holds, seat) {
        Hold::Free => None,
        Hold::Waiting(ticket) => place.line.entry(ticket),
        Hold::Handed(_, _, _) => None,
        Hold::Served(_, _, _) => None,
        Hold::Cut(_, _) => None,
    }
}

/// A seat is interrupted: its ticket is cut, or the seat is flagged. Fails only if an allocation fails.
fn interrupt(place: &mut Place, target: SeatNo) -> Result<(), AllocError>
    ensures { OnOk result (scene place.new
        ≡ record { last = place.old.last; seats = interrupted (scene place.old).seats target }) }
{
    match entry_held(place, target) {
        Some(cut) => {
            place.line.leave(cut.ticket);
            put_hold(&mut place.holds, target, Hold::Cut(cut.ticket, cut.item))
        }
        None => put_flag(&mut place.flags, target, true),
    }
}

/// A record is made. Fails only if an allocation fails.
pub(crate) fn make(kind: Kind, place: &mut Place, entry: Record<Deed>) -> Result<(), AllocError>
    ensures { OnOk result (scene place.new ≡ moment_after kind (scene place.old) entry) }
{
    let Record { seat, ticket, deed } = entry;
    match deed {
        Deed::GiveWaits(mark) => queue(place, seat, ticket, Some(mark), true),
        Deed::GiveMeets(mark, _) => meet(kind, place, ticket, Some(mark), Side::Giver),
        Deed::GiveFails(_) => {
            place.last = ticket.number();
            Ok(())
        }
        Deed::GiveKept(mark) => queue(place, seat, ticket, Some(mark), false),
        Deed::TakeWaits => queue(place, seat, ticket, None, true),
        Deed::TakeMeets(_, _) => meet(kind, place, ticket, None, Side::Taker),
        Deed::TakeFails => {
            place.last = ticket.number();
            Ok(())
        }
        Deed::EntryInterrupted(_) => {
            place.last = ticket.number();
            put_flag(&mut place.flags, seat, false)
        }
        Deed::Done => release(place, seat),
        Deed::Got(_, _) => release(place, seat),
        Deed::Withdrawn(cause) => match cause {
            Cause::Cancelled => withdraw(place, seat, ticket),
            Cause::Expired => withdraw(place, seat, ticket),
            Cause::Interrupted => release(place, seat),
        },
        Deed::Interrupt(target) => interrupt(place, target),
    }
}
