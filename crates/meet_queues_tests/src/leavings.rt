//! What is left in a queue comes out of it: the line's parcels as they would be met, and then those that nobody
//! collected.

use crate::parcels::{Ask, Parcel, Row, Told};
use crate::places::plays;
use meet_core::{Dual, Left, LeftStanding};
use meet_line::{FairLine, Line, StackLine};
use meet_transfer::Transfer;
use std::alloc::Global;
use std::process::Abort;

/// A giver's ticket, its parcel's serial number, and how that stood in the queue.
type Found = (u64, u64, LeftStanding);

/// The list has these parcels, and nothing else.
fn has(rt: &impl Abort, list: Vec<Left<Parcel>>, wanted: &[Found]) {
    assert_eq!(rt; list.len(), wanted.len());
    for (left, found) in list.into_iter().zip(wanted) {
        let seen = (left.ticket.number(), left.item.serial, left.standing);
        assert_eq!(rt; seen, *found);
    }
}

/// Seats ask a synchronous queue, one after another, and then these parcels are left.
fn leaves<L: Line<Parcel> + Drop>(rt: &impl Abort, alloc: Global, rows: &[Row], wanted: &[Found]) {
    let mut queue: Dual<Parcel, L> = Dual::new(alloc, 6, 1).expect(rt, "memory");
    plays(rt, &mut queue, rows);
    let room = Vec::with_capacity(alloc, queue.left() as usize).expect(rt, "memory");
    has(rt, queue.into_left(room), wanted);
}

/// The same of a transfer queue.
fn leaves_kept(rt: &impl Abort, alloc: Global, rows: &[Row], wanted: &[Found]) {
    let mut queue: Transfer<Parcel> = Transfer::new(alloc, 6, 1).expect(rt, "memory");
    plays(rt, &mut queue, rows);
    let room = Vec::with_capacity(alloc, queue.left() as usize).expect(rt, "memory");
    has(rt, queue.into_left(room), wanted);
}

/// A taker that waited was met and hasn't collected, another has; a giver was cut; and three givers wait.
const OFFERED: [Row; 10] = [
    (4, Ask::Take, Told::Waits(1)),
    (0, Ask::Give(10), Told::Gave(2, 1)),
    (5, Ask::Take, Told::Waits(3)),
    (0, Ask::Offer(20), Told::Gave(4, 3)),
    (5, Ask::Follow(3), Told::Collected(4, 20)),
    (3, Ask::Give(30), Told::Waits(5)),
    (0, Ask::Interrupt(3), Told::Cut(5)),
    (2, Ask::Give(40), Told::Waits(6)),
    (0, Ask::Give(50), Told::Waits(7)),
    (1, Ask::Give(60), Told::Waits(8)),
];

/// Two takers wait.
const TAKERS: [Row; 2] = [
    (0, Ask::Take, Told::Waits(1)),
    (1, Ask::Take, Told::Waits(2)),
];

#[test]
fn a_fair_queue(rt: HostRuntime) {
    let wanted = [
        (6, 40, LeftStanding::Offered),
        (7, 50, LeftStanding::Offered),
        (8, 60, LeftStanding::Offered),
        (5, 30, LeftStanding::Ready),
        (2, 10, LeftStanding::Ready),
    ];
    leaves::<FairLine<Parcel>>(&rt, rt.alloc(), &OFFERED, &wanted);
    leaves::<FairLine<Parcel>>(&rt, rt.alloc(), &TAKERS, &[]);
}

#[test]
fn an_unfair_queue(rt: HostRuntime) {
    let wanted = [
        (8, 60, LeftStanding::Offered),
        (7, 50, LeftStanding::Offered),
        (6, 40, LeftStanding::Offered),
        (5, 30, LeftStanding::Ready),
        (2, 10, LeftStanding::Ready),
    ];
    leaves::<StackLine<Parcel>>(&rt, rt.alloc(), &OFFERED, &wanted);
    leaves::<StackLine<Parcel>>(&rt, rt.alloc(), &TAKERS, &[]);
}

/// The same with one that is kept, among those that wait.
const KEPT: [Row; 10] = [
    (4, Ask::Take, Told::Waits(1)),
    (0, Ask::Put(10), Told::Gave(2, 1)),
    (5, Ask::Take, Told::Waits(3)),
    (0, Ask::Offer(20), Told::Gave(4, 3)),
    (5, Ask::Follow(3), Told::Collected(4, 20)),
    (3, Ask::Give(30), Told::Waits(5)),
    (0, Ask::Interrupt(3), Told::Cut(5)),
    (2, Ask::Give(40), Told::Waits(6)),
    (0, Ask::Put(50), Told::Kept(7)),
    (1, Ask::Give(60), Told::Waits(8)),
];

#[test]
fn a_transfer_queue(rt: HostRuntime) {
    let wanted = [
        (6, 40, LeftStanding::Offered),
        (7, 50, LeftStanding::Kept),
        (8, 60, LeftStanding::Offered),
        (5, 30, LeftStanding::Ready),
        (2, 10, LeftStanding::Ready),
    ];
    leaves_kept(&rt, rt.alloc(), &KEPT, &wanted);
    leaves_kept(&rt, rt.alloc(), &TAKERS, &[]);
}
