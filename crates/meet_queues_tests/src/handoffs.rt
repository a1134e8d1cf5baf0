//! The very parcel comes to whom it should, in each call that hands one on or back.

use crate::parcels::{Ask, Parcel, Row, Told};
use crate::places::{Place, plays};
use meet_book::Book;
use meet_core::Dual;
use meet_line::{FairLine, FairRing, Line, StackLine, StackRing};
use meet_queues::{queue_book, transfer_book};
use meet_tickets::Refusal;
use meet_transfer::Transfer;
use std::alloc::Global;
use std::process::Abort;

/// One waits at most, so that these are the same in each queue.
const ALIKE: [Row; 40] = [
    // At once, and by a poll.
    (0, Ask::Give(10), Told::Waits(1)),
    (0, Ask::Follow(1), Told::NotYet),
    (1, Ask::Take, Told::Got(2, 1, 10)),
    (0, Ask::Cancel(1), Told::Late),
    (0, Ask::Follow(1), Told::Done),
    (0, Ask::Follow(1), Told::Refused(Refusal::NotOpen, None)),
    (0, Ask::Give(20), Told::Waits(3)),
    (1, Ask::Poll, Told::Got(4, 3, 20)),
    (1, Ask::Poll, Told::Fails(5, None)),
    (0, Ask::Follow(3), Told::Done),
    // Collected later, and offered.
    (1, Ask::Take, Told::Waits(6)),
    (0, Ask::Give(30), Told::Gave(7, 6)),
    (1, Ask::Follow(6), Told::Collected(7, 30)),
    (0, Ask::Offer(40), Told::Fails(8, Some(40))),
    (1, Ask::Take, Told::Waits(9)),
    (0, Ask::Offer(50), Told::Gave(10, 9)),
    (1, Ask::Expire(9), Told::Late),
    (1, Ask::Follow(9), Told::Collected(10, 50)),
    // Taken back.
    (0, Ask::Give(60), Told::Waits(11)),
    (0, Ask::Cancel(11), Told::Back(Some(60))),
    (0, Ask::Give(70), Told::Waits(12)),
    (0, Ask::Expire(12), Told::Back(Some(70))),
    (1, Ask::Take, Told::Waits(13)),
    (1, Ask::Cancel(13), Told::Back(None)),
    (1, Ask::Take, Told::Waits(14)),
    (1, Ask::Expire(14), Told::Back(None)),
    // Cut where it waits.
    (0, Ask::Give(80), Told::Waits(15)),
    (1, Ask::Interrupt(0), Told::Cut(15)),
    (0, Ask::Cancel(15), Told::Late),
    (0, Ask::Follow(15), Told::WasCut(Some(80))),
    (1, Ask::Take, Told::Waits(16)),
    (1, Ask::Interrupt(1), Told::Cut(16)),
    (0, Ask::Offer(85), Told::Fails(17, Some(85))),
    (1, Ask::Follow(16), Told::WasCut(None)),
    // Stopped at entry, once.
    (1, Ask::Interrupt(0), Told::Flagged),
    (0, Ask::Give(90), Told::Stopped(18, Some(90))),
    (1, Ask::Interrupt(1), Told::Flagged),
    (1, Ask::Take, Told::Stopped(19, None)),
    (0, Ask::Give(95), Told::Waits(20)),
    (0, Ask::Cancel(20), Told::Back(Some(95))),
];

/// Who came first is met first. These come behind those that are alike.
const FIRST: [Row; 12] = [
    (0, Ask::Give(100), Told::Waits(21)),
    (1, Ask::Give(110), Told::Waits(22)),
    (2, Ask::Take, Told::Got(23, 21, 100)),
    (2, Ask::Poll, Told::Got(24, 22, 110)),
    (3, Ask::Take, Told::Waits(25)),
    (4, Ask::Take, Told::Waits(26)),
    (2, Ask::Give(120), Told::Gave(27, 25)),
    (2, Ask::Offer(130), Told::Gave(28, 26)),
    (4, Ask::Follow(26), Told::Collected(28, 130)),
    (3, Ask::Follow(25), Told::Collected(27, 120)),
    (0, Ask::Follow(21), Told::Done),
    (1, Ask::Follow(22), Told::Done),
];

/// Who came last is met first.
const LAST: [Row; 12] = [
    (0, Ask::Give(100), Told::Waits(21)),
    (1, Ask::Give(110), Told::Waits(22)),
    (2, Ask::Take, Told::Got(23, 22, 110)),
    (2, Ask::Poll, Told::Got(24, 21, 100)),
    (3, Ask::Take, Told::Waits(25)),
    (4, Ask::Take, Told::Waits(26)),
    (2, Ask::Give(120), Told::Gave(27, 26)),
    (2, Ask::Offer(130), Told::Gave(28, 25)),
    (4, Ask::Follow(26), Told::Collected(27, 120)),
    (3, Ask::Follow(25), Told::Collected(28, 130)),
    (0, Ask::Follow(21), Told::Done),
    (1, Ask::Follow(22), Told::Done),
];

/// Where three are kept at most. Only those count that are kept, and a flag stops no put.
const KEPT: [Row; 15] = [
    (0, Ask::Put(200), Told::Kept(29)),
    (0, Ask::Follow(29), Told::Refused(Refusal::NotOpen, None)),
    (5, Ask::Give(210), Told::Waits(30)),
    (0, Ask::Put(220), Told::Kept(31)),
    (2, Ask::Interrupt(2), Told::Flagged),
    (2, Ask::Put(230), Told::Kept(32)),
    (3, Ask::Put(240), Told::Fails(33, Some(240))),
    (3, Ask::Offer(250), Told::Fails(34, Some(250))),
    (4, Ask::Take, Told::Got(35, 29, 200)),
    (4, Ask::Poll, Told::Got(36, 30, 210)),
    (4, Ask::Take, Told::Got(37, 31, 220)),
    (4, Ask::Poll, Told::Got(38, 32, 230)),
    (4, Ask::Take, Told::Waits(39)),
    (3, Ask::Put(260), Told::Gave(40, 39)),
    (4, Ask::Follow(39), Told::Collected(40, 260)),
];

/// What is refused comes back. Seat 6 isn't there.
const REFUSED: [Row; 5] = [
    (
        6,
        Ask::Give(300),
        Told::Refused(Refusal::NoSuchSeat, Some(300)),
    ),
    (
        6,
        Ask::Put(310),
        Told::Refused(Refusal::NoSuchSeat, Some(310)),
    ),
    (
        6,
        Ask::Offer(320),
        Told::Refused(Refusal::NoSuchSeat, Some(320)),
    ),
    (6, Ask::Take, Told::Refused(Refusal::NoSuchSeat, None)),
    (6, Ask::Poll, Told::Refused(Refusal::NoSuchSeat, None)),
];

/// A place refuses, and hands on what is alike, and then this.
fn hands_on<P: Place>(rt: &impl Abort, place: &mut P, rows: &[Row]) {
    plays(rt, place, &REFUSED);
    plays(rt, place, &ALIKE);
    plays(rt, place, rows);
}

/// A synchronous queue, called directly.
fn meets<L: Line<Parcel> + Drop>(rt: &impl Abort, alloc: Global, rows: &[Row]) {
    let mut queue: Dual<Parcel, L> = Dual::new(alloc, 6, 1).expect(rt, "memory");
    hands_on(rt, &mut queue, rows);
}

/// A synchronous queue under a book.
fn meets_in_a_book<L: Line<Parcel> + Drop>(rt: &impl Abort, alloc: Global, rows: &[Row]) {
    let mut book: Book<Dual<Parcel, L>> = queue_book(alloc, 6, 1, 99).expect(rt, "memory");
    hands_on(rt, &mut book, rows);
}

#[test]
fn a_fair_queue(rt: HostRuntime) {
    meets::<FairLine<Parcel>>(&rt, rt.alloc(), &FIRST);
    meets_in_a_book::<FairLine<Parcel>>(&rt, rt.alloc(), &FIRST);
}

#[test]
fn an_unfair_queue(rt: HostRuntime) {
    meets::<StackLine<Parcel>>(&rt, rt.alloc(), &LAST);
    meets_in_a_book::<StackLine<Parcel>>(&rt, rt.alloc(), &LAST);
}

#[test]
fn queues_over_a_list_that_is_walked(rt: HostRuntime) {
    meets_in_a_book::<FairRing<Parcel>>(&rt, rt.alloc(), &FIRST);
    meets_in_a_book::<StackRing<Parcel>>(&rt, rt.alloc(), &LAST);
}

/// It hands on what others do, and what is kept.
fn keeps<P: Place>(rt: &impl Abort, place: &mut P) {
    hands_on(rt, place, &FIRST);
    plays(rt, place, &KEPT);
}

#[test]
fn a_transfer_queue(rt: HostRuntime) {
    let mut queue: Transfer<Parcel> = Transfer::with_bound(rt.alloc(), 6, 1, 3).expect(
        &rt, "memory",
    );
    keeps(&rt, &mut queue);
}

#[test]
fn a_book_of_a_transfer_queue(rt: HostRuntime) {
    let mut book: Book<Transfer<Parcel>> = transfer_book(rt.alloc(), 6, 1, Some(3), 99).expect(
        &rt, "memory",
    );
    keeps(&rt, &mut book);
}
