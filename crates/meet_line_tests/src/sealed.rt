//! Items that can't be dropped, in wait queues that find tickets in buckets or by seats. The empty wait queues are dropped.

ghost use Rattle.std.specs.Prelude.{◌≡◌, true};

use crate::parcels::{seat, ticket};
use meet_line::{FairLine, FairSeats, Line, StackLine, StackSeats};
use meet_tickets::{Entry, SeatNo, Ticket};
use std::alloc::Global;
use std::process::Abort;

/// An item that has to be opened.
pub struct Sealed {
    serial: u64,
}

/// An entry with such an item.
fn entry_of(ticket: Ticket, seat: SeatNo, serial: u64) -> Entry<Sealed>
    ensures seat { result.seat ≡ seat }
    ensures waits { result.waits ≡ true }
{
    Entry {
        ticket,
        seat,
        item: Some(Sealed { serial }),
        waits: true,
    }
}

/// The serial number of an entry's item, which is opened.
fn opened(entry: Option<Entry<Sealed>>) -> Option<u64> {
    let Entry {
        ticket: _,
        seat: _,
        item,
        waits: _,
    } = entry?;
    let Sealed { serial } = item?;
    Some(serial)
}

/// The serial number of the one item of a line, which is met; then the line is dropped empty.
pub fn goes_through<L: Line<Sealed>>(rt: &impl Abort, alloc: Global) -> Option<u64> {
    let (ticket, seat) = (ticket(rt, 7), seat(rt, 0));
    let mut line = L::empty(alloc);
    line.widen(1).expect(rt, "memory");
    line.reserve(1).expect(rt, "memory");
    line.push_back(entry_of(ticket, seat, 70));
    let met = opened(line.meet());
    line.destroy_empty();
    met
}

#[test]
fn a_fair_line_of_sealed_items(rt: HostRuntime) {
    let met = goes_through::<FairLine<Sealed>>(&rt, rt.alloc());
    assert_eq!(rt; met, Some(70));
}

#[test]
fn a_stack_of_sealed_items(rt: HostRuntime) {
    let met = goes_through::<StackLine<Sealed>>(&rt, rt.alloc());
    assert_eq!(rt; met, Some(70));
}

#[test]
fn a_line_of_seats_of_sealed_items(rt: HostRuntime) {
    let met = goes_through::<FairSeats<Sealed>>(&rt, rt.alloc());
    assert_eq!(rt; met, Some(70));
}

#[test]
fn a_stack_of_seats_of_sealed_items(rt: HostRuntime) {
    let met = goes_through::<StackSeats<Sealed>>(&rt, rt.alloc());
    assert_eq!(rt; met, Some(70));
}
