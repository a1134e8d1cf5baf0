//! What happens to a partner that was met.

ghost use Rattle.std.specs.Prelude.{◌≡◌, ◌<◌, None, Some, IsSome, length};
ghost use Rattle.meet_tickets.specs.BySeat.{put_at};
ghost use Rattle.meet_tickets.specs.declared.lines.Hold.TheVariants.{Waiting, Handed, Served};
ghost use Rattle.meet_core.specs.Table.{hold_at};

use crate::seats::SeatTable;
use meet_line::let_go_none;
use meet_tickets::{Entry, Hold, Marked, Ticket};

/// Leaves this giver's item with the seat of a taker that waited, and answers the taker's ticket.
#[inline(always)]
pub(super) fn serve<T>(seats: &mut SeatTable<T>, taker: Entry<T>, giver: Ticket, item: T) -> Ticket
    requires side { taker.item ≡ None }
    requires seat { taker.seat < length seats.old.holds }
    requires waited { hold_at seats.old.holds taker.seat ≡ Waiting taker.ticket }
    ensures ticket { result ≡ taker.ticket }
    ensures held { hold_at seats.new.holds ≡ put_at (hold_at seats.old.holds) taker.seat
        (Served taker.ticket giver item) }
    ensures count { length seats.new.holds ≡ length seats.old.holds }
    ensures flags { seats.new.flags ≡ seats.old.flags }
{
    let Entry {
        ticket,
        seat,
        item: brought,
        waits: _,
    } = taker;
    let_go_none(brought);
    seats.settle(seat, Hold::Served(ticket, giver, item));
    ticket
}

/// Takes the item of a giver that waited, whose seat learns the mark that went, and answers its ticket and the item.
#[inline(always)]
pub(super) fn collect<T: Marked>(
    seats: &mut SeatTable<T>,
    giver: Entry<T>,
    taker: Ticket,
) -> (Ticket, T)
    requires side { IsSome giver.item }
    requires seat { giver.seat < length seats.old.holds }
    requires waited { hold_at seats.old.holds giver.seat ≡ Waiting giver.ticket }
    ensures ticket { result.0 ≡ giver.ticket }
    ensures item { giver.item ≡ Some result.1 }
    ensures held { hold_at seats.new.holds ≡ put_at (hold_at seats.old.holds) giver.seat
        (Handed giver.ticket taker (T.mark_of result.1)) }
    ensures count { length seats.new.holds ≡ length seats.old.holds }
    ensures flags { seats.new.flags ≡ seats.old.flags }
{
    let Entry {
        ticket,
        seat,
        item,
        waits: _,
    } = giver;
    let item = item.unwrap();
    seats.settle(seat, Hold::Handed(ticket, taker, item.mark()));
    (ticket, item)
}

/// The ticket and the item of a giver that went on: nobody is to learn of the meeting.
pub(super) fn release<T>(giver: Entry<T>) -> (Ticket, T)
    requires { IsSome giver.item }
    ensures ticket { result.0 ≡ giver.ticket }
    ensures item { giver.item ≡ Some result.1 }
{
    let Entry {
        ticket,
        seat: _,
        item,
        waits: _,
    } = giver;
    (ticket, item.unwrap())
}
