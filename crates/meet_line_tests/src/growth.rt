//! Lines and tables bear one refusal of memory: nothing is lost by it, and the call that is made again succeeds.
//! `dev/check/refuse` runs these tests with each allocation refused in turn.

ghost use Rattle.std.specs.Prelude.{◌≡◌, ◌≤◌};
ghost use Rattle.meet_tickets.specs.Limits.{most_seats};

use crate::parcels::{Parcel, first_serial, join, meets_in_order, seat, ticket};
use meet_core::SeatTable;
use meet_line::{FairLine, FairRing, FairSeats, Line, StackLine, StackRing, StackSeats};
use meet_tickets::Refusal;
use std::alloc::Global;
use std::process::Abort;

/// Room for so many entries more, at the second try where there was no memory at first.
fn reserves<L: Line<Parcel>>(rt: &impl Abort, line: &mut L, count: u64)
    ensures room { count ≤ L.spare line.new }
    ensures width { L.width line.old ≤ L.width line.new }
    ensures same { L.entries line.new ≡ L.entries line.old }
{
    let before = (line.len(), line.room(), first_serial(line));
    if let Err(why) = line.reserve(count) {
        assert!(rt; why == Refusal::Memory);
        assert_eq!(rt; (line.len(), line.room(), first_serial(line)), before);
        line.reserve(count).expect(rt, "memory");
    }
}

/// Makes places for this number of seats, at the second try if the first allocation fails.
fn widens<L: Line<Parcel>>(rt: &impl Abort, line: &mut L, seats: u64)
    requires { seats ≤ most_seats }
    ensures width { seats ≤ L.width line.new }
    ensures same { L.entries line.new ≡ L.entries line.old }
{
    let before = (line.len(), line.room(), first_serial(line));
    if let Err(why) = line.widen(seats) {
        assert!(rt; why == Refusal::Memory);
        assert_eq!(rt; (line.len(), line.room(), first_serial(line)), before);
        line.widen(seats).expect(rt, "memory");
    }
}

/// Three are in the line, the tickets 1 to 3, of which the first has the item 10.
fn has_three<L: Line<Parcel>>(rt: &impl Abort, line: &L) {
    assert_eq!(rt; line.len(), 3);
    assert_eq!(rt; first_serial(line), Some(10));
    assert!(rt; line.entry(ticket(rt, 2)).is_some());
    assert!(rt; line.entry(ticket(rt, 4)).is_none());
}

/// A line that grows three times, each time while others stand in it but the first, and meets in this order.
pub fn grows<L: Line<Parcel> + Drop>(rt: &impl Abort, alloc: Global, serials: &[u64]) {
    let mut line = L::empty(alloc);
    widens(rt, &mut line, 4);
    reserves(rt, &mut line, 1);
    join(rt, &mut line, 1, 10);
    reserves(rt, &mut line, 2);
    join(rt, &mut line, 2, 20);
    reserves(rt, &mut line, 30);
    join(rt, &mut line, 3, 30);
    has_three(rt, &line);
    meets_in_order(rt, &mut line, serials);
}

#[test]
fn a_fair_line_grows(rt: HostRuntime) {
    grows::<FairLine<Parcel>>(&rt, rt.alloc(), &[10, 20, 30]);
}

#[test]
fn a_stack_grows(rt: HostRuntime) {
    grows::<StackLine<Parcel>>(&rt, rt.alloc(), &[30, 20, 10]);
}

#[test]
fn a_fair_list_grows(rt: HostRuntime) {
    grows::<FairRing<Parcel>>(&rt, rt.alloc(), &[10, 20, 30]);
}

#[test]
fn a_list_of_a_stack_grows(rt: HostRuntime) {
    grows::<StackRing<Parcel>>(&rt, rt.alloc(), &[30, 20, 10]);
}

#[test]
fn a_fair_line_of_seats_grows(rt: HostRuntime) {
    grows::<FairSeats<Parcel>>(&rt, rt.alloc(), &[10, 20, 30]);
}

#[test]
fn a_stack_of_seats_grows(rt: HostRuntime) {
    grows::<StackSeats<Parcel>>(&rt, rt.alloc(), &[30, 20, 10]);
}

/// A table of so many seats, at the second try where there was no memory at first.
fn table(rt: &impl Abort, alloc: Global, count: u64) -> SeatTable<Parcel>
    requires { count ≤ most_seats }
{
    match SeatTable::new(alloc, count) {
        Ok(table) => table,
        Err(_) => SeatTable::new(alloc, count).expect(rt, "memory"),
    }
}

#[test]
fn a_table_of_seats(rt: HostRuntime) {
    let table = table(&rt, rt.alloc(), 65_536);
    assert_eq!(rt; table.count(), 65_536);
    assert_eq!(rt; table.owed(), 0);
}

/// Seats up to this one, at the second try where there was no memory at first, are so many.
fn reaches(rt: &impl Abort, table: &mut SeatTable<Parcel>, number: u64, seats: u64) {
    let count = seat(rt, number).number() + 1;
    let before = table.count();
    if table.grow(count).is_err() {
        assert_eq!(rt; table.count(), before);
        table.grow(count).expect(rt, "memory");
    }
    assert_eq!(rt; table.count(), seats);
}

/// The last seats that a table grows to, and how many seats it then has.
const GROWN: [(u64, u64); 8] = [
    (0, 1),
    (1, 2),
    (2, 4),
    (3, 4),
    (99, 100),
    (100, 200),
    (65_534, 65_535),
    (65_535, 65_536),
];

#[test]
fn a_table_of_seats_grows(rt: HostRuntime) {
    let mut table = table(&rt, rt.alloc(), 0);
    for (number, seats) in &GROWN {
        reaches(&rt, &mut table, *number, *seats);
    }
}
