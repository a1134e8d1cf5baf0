//! The line of a transfer queue: what all fair lines do; and nodes that wait among buffered ones, many of one seat.

ghost use Rattle.std.specs.Prelude.{◌≡◌, ◌+◌, ◌<◌, All};

use crate::growth::grows;
use crate::leavings;
use crate::leavings::{LEFT_BY_FIRST, MIXED, Seal, TAKERS, goes_empty};
use crate::lines::serves;
use crate::looks::{FIRST, lists_many, plays};
use crate::parcels::{Parcel, buffered_of, join, meets_in_order, seat, ticket};
use crate::sealed::{Sealed, goes_through};
use crate::seats::{Leaving, leave, leaves, widens};
use meet_line::{BufferLine, FairLine, FairRing, Line, TransferLine};
use std::alloc::Global;
use std::process::Abort;

#[test]
fn a_transfer_line_meets_who_came_first(rt: HostRuntime) {
    serves::<TransferLine<Parcel>>(&rt, rt.alloc(), &[10, 20, 30], &[10, 30]);
}

#[test]
fn a_transfer_line_grows(rt: HostRuntime) {
    grows::<TransferLine<Parcel>>(&rt, rt.alloc(), &[10, 20, 30]);
}

#[test]
fn who_leaves_a_transfer_line_by_a_seat(rt: HostRuntime) {
    leaves::<TransferLine<Parcel>>(&rt, rt.alloc(), &[10, 40, 50]);
}

#[test]
fn a_transfer_line_widens(rt: HostRuntime) {
    widens::<TransferLine<Parcel>>(&rt, rt.alloc());
}

#[test]
fn a_transfer_line_does_as_fair_lines_do(rt: HostRuntime) {
    plays::<TransferLine<Parcel>>(&rt, rt.alloc(), &FIRST, &[250, 330, 340]);
}

#[test]
fn a_large_transfer_line_is_listed(rt: HostRuntime) {
    lists_many::<TransferLine<Parcel>>(&rt, rt.alloc());
}

#[test]
fn a_transfer_line_of_sealed_items(rt: HostRuntime) {
    let met = goes_through::<TransferLine<Sealed>>(&rt, rt.alloc());
    assert_eq!(rt; met, Some(70));
}

/// An entry whose ticket is the newest comes to a line that buffers, and doesn't wait; its seat is 0.
fn buffer<L: BufferLine<Parcel>>(rt: &impl Abort, line: &mut L, number: u64, serial: u64)
    requires room { 0 < L.spare line.old }
    requires some { 0 < number }
    requires newest { All (λ e. e.ticket < number) (L.entries line.old) }
    requires seats { All (λ e. e.seat < number) (L.entries line.old) }
    ensures room { L.spare line.new + 1 ≡ L.spare line.old }
    ensures width { L.width line.new ≡ L.width line.old }
    ensures newest { All (λ e. e.ticket < number + 1) (L.entries line.new) }
    ensures seats { All (λ e. e.seat < number + 1) (L.entries line.new) }
{
    line.push_back(buffered_of(ticket(rt, number), seat(rt, 0), serial));
}

/// The tickets 1 to 6, whose items are numbered 10 to 60; of these 1, 4 and 5 wait, each at the seat of its number, and
/// the others are buffered, all of seat 0.
fn mixed_line<L: BufferLine<Parcel> + Drop>(rt: &impl Abort, alloc: Global) -> L {
    let mut line = L::empty(alloc);
    line.widen(6).expect(rt, "memory");
    line.reserve(6).expect(rt, "memory");
    join(rt, &mut line, 1, 10);
    buffer(rt, &mut line, 2, 20);
    buffer(rt, &mut line, 3, 30);
    join(rt, &mut line, 4, 40);
    join(rt, &mut line, 5, 50);
    buffer(rt, &mut line, 6, 60);
    line
}

/// The line lists the tickets 1 to 6, and finds each, and no other.
fn lists_six<L: Line<Parcel>>(rt: &impl Abort, alloc: Global, line: &L) {
    assert_eq!(rt; line.len(), 6);
    let list = line.list(alloc).expect(rt, "memory");
    assert_eq!(rt; list.len(), 6);
    for (at, entry) in list.iter().enumerate() {
        assert_eq!(rt; entry.ticket.number(), (at as u64).saturating_add(1));
        assert!(rt; line.entry(entry.ticket).is_some());
    }
    assert!(rt; line.entry(ticket(rt, 7)).is_none());
}

/// From the middle: one that waits, by its seat; a buffered one, by its ticket alone and by the seat of all of them; one
/// that waits, by another's seat.
const LEAVINGS: [Leaving; 6] = [
    (4, Some(4), Some(40)),
    (4, Some(4), None),
    (3, None, Some(30)),
    (2, Some(0), Some(20)),
    (2, Some(1), None),
    (5, Some(1), Some(50)),
];

/// Nodes that wait and buffered ones are met in the order in which they came, whoever leaves from the middle.
fn mixes<L: BufferLine<Parcel> + Drop>(rt: &impl Abort, alloc: Global) {
    let mut line: L = mixed_line(rt, alloc);
    lists_six(rt, alloc, &line);
    meets_in_order(rt, &mut line, &[10, 20, 30, 40, 50, 60]);
    let mut line: L = mixed_line(rt, alloc);
    leave(rt, &mut line, &LEAVINGS);
    meets_in_order(rt, &mut line, &[10, 60]);
}

#[test]
fn those_who_wait_among_buffered_ones(rt: HostRuntime) {
    mixes::<TransferLine<Parcel>>(&rt, rt.alloc());
    mixes::<FairLine<Parcel>>(&rt, rt.alloc());
    mixes::<FairRing<Parcel>>(&rt, rt.alloc());
}

/// The room that nodes which wait give back is there for buffered ones.
#[test]
fn room_is_for_either(rt: HostRuntime) {
    let mut line: TransferLine<Parcel> = mixed_line(&rt, rt.alloc());
    meets_in_order(&rt, &mut line, &[10, 20, 30, 40, 50, 60]);
    assert_eq!(rt; line.len(), 0);
    let room = line.room();
    assert!(rt; room >= 6);
    buffer(&rt, &mut line, 7, 70);
    buffer(&rt, &mut line, 8, 80);
    buffer(&rt, &mut line, 9, 90);
    buffer(&rt, &mut line, 10, 100);
    buffer(&rt, &mut line, 11, 110);
    buffer(&rt, &mut line, 12, 120);
    assert_eq!(rt; room - line.room(), 6);
    meets_in_order(&rt, &mut line, &[70, 80, 90, 100, 110, 120]);
}

#[test]
fn of_a_transfer_line_who_came_first_is_first(rt: HostRuntime) {
    leavings::leaves::<TransferLine<Seal>>(&rt, rt.alloc(), &MIXED, &LEFT_BY_FIRST);
    leavings::leaves::<TransferLine<Seal>>(&rt, rt.alloc(), &TAKERS, &[]);
    goes_empty::<TransferLine<Seal>>(&rt, rt.alloc());
}
