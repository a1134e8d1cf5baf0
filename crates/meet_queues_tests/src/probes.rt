//! What the queues show of themselves.

use crate::parcels::{Ask, Parcel, Told, seat};
use crate::places::{Fair, plays};
use meet_core::Dual;
use meet_tickets::Ticket;
use meet_transfer::Transfer;
use std::process::Abort;

/// The number of a ticket.
fn number(ticket: Option<Ticket>) -> Option<u64> {
    ticket.map(|ticket| ticket.number())
}

const FIRST: u64 = 9223372036854775800;

/// A synchronous queue shows so many of seats and of open tickets; of these so many wait, and so many were met or
/// cut; so many givers in the line, and so many tickets that are left.
fn counts(rt: &impl Abort, queue: &Fair, wanted: [u64; 6]) {
    queue.stays_sound();
    let numbers = [
        queue.seats(),
        queue.owed(),
        queue.waiting(),
        queue.uncollected(),
        queue.givers(),
        queue.tickets_left(),
    ];
    assert_eq!(rt; numbers, wanted);
}

/// A synchronous queue shows no item, whoever waits.
fn shows_none(rt: &impl Abort, queue: &Fair) {
    assert!(rt; queue.is_empty());
    assert_eq!(rt; queue.size(), 0);
    assert_eq!(rt; queue.remaining_capacity(), 0);
    assert_eq!(rt; queue.peek_mark(), None);
}

/// The queue's seats 0 and 2 have these open tickets.
fn opens(rt: &impl Abort, queue: &Fair, wanted: [Option<u64>; 2]) {
    let tickets = [
        number(queue.open_ticket(seat(rt, 0))),
        number(queue.open_ticket(seat(rt, 2))),
    ];
    assert_eq!(rt; tickets, wanted);
}

#[test]
fn of_a_synchronous_queue(rt: HostRuntime) {
    let mut queue: Fair = Dual::new(rt.alloc(), 65_536, FIRST).expect(&rt, "memory");
    // Two givers come, and one is met.
    let rows = [
        (0, Ask::Give(10), Told::Waits(9223372036854775800)),
        (1, Ask::Give(20), Told::Waits(9223372036854775801)),
        (2, Ask::Poll, Told::Got(9223372036854775802, FIRST, 10)),
    ];
    plays(&rt, &mut queue, &rows);
    counts(&rt, &queue, [65_536, 2, 1, 1, 1, 5]);
    shows_none(&rt, &queue);
    opens(&rt, &queue, [Some(FIRST), None]);
}

/// A transfer queue shows so many of seats and of open tickets; of these so many wait, and so many were met or cut;
/// so many items are kept, so many givers and so many takers stand in the line, and so many tickets are left.
fn counts_kept(rt: &impl Abort, queue: &Transfer<Parcel>, wanted: [u64; 8]) {
    queue.stays_sound();
    let numbers = [
        queue.seats(),
        queue.owed(),
        queue.waiting(),
        queue.uncollected(),
        queue.kept(),
        queue.size(),
        queue.waiting_consumers(),
        queue.tickets_left(),
    ];
    assert_eq!(rt; numbers, wanted);
}

/// The first item has this mark, a taker waits or doesn't, and so many items may be kept.
fn looks(
    rt: &impl Abort,
    queue: &Transfer<Parcel>,
    mark: Option<u64>,
    taker: bool,
    bound: Option<u64>,
) {
    assert_eq!(rt; queue.peek_mark(), mark);
    assert_eq!(rt; queue.is_empty(), mark.is_none());
    assert_eq!(rt; queue.has_waiting_consumer(), taker);
    assert_eq!(rt; queue.remaining_capacity(), 2147483647);
    assert_eq!(rt; queue.bound(), bound);
}

/// The transfer queue's seats 0 and 1 have these open tickets.
fn opens_kept(rt: &impl Abort, queue: &Transfer<Parcel>, wanted: [Option<u64>; 2]) {
    let tickets = [
        number(queue.open_ticket(seat(rt, 0))),
        number(queue.open_ticket(seat(rt, 1))),
    ];
    assert_eq!(rt; tickets, wanted);
}

#[test]
fn of_a_transfer_queue(rt: HostRuntime) {
    let mut queue: Transfer<Parcel> = Transfer::new(rt.alloc(), 65_536, FIRST).expect(
        &rt, "memory",
    );
    let rows = [
        (0, Ask::Put(10), Told::Kept(9223372036854775800)),
        (1, Ask::Give(20), Told::Waits(9223372036854775801)),
        (2, Ask::Put(30), Told::Kept(9223372036854775802)),
    ];
    plays(&rt, &mut queue, &rows);
    counts_kept(&rt, &queue, [65_536, 1, 1, 0, 2, 3, 0, 5]);
    looks(&rt, &queue, Some(7), false, None);
    opens_kept(&rt, &queue, [None, Some(9223372036854775801)]);
}

#[test]
fn of_a_transfer_queue_with_a_bound(rt: HostRuntime) {
    let mut queue: Transfer<Parcel> = Transfer::with_bound(rt.alloc(), 2, 1, 4).expect(
        &rt, "memory",
    );
    looks(&rt, &queue, None, false, Some(4));
    plays(&rt, &mut queue, &[(1, Ask::Take, Told::Waits(1))]);
    counts_kept(&rt, &queue, [2, 1, 1, 0, 0, 0, 1, 9223372036854775806]);
    looks(&rt, &queue, None, true, Some(4));
}
