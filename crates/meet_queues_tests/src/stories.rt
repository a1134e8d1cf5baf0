//! Short stories of a synchronous queue under a book: its seats are told the same over each kind of line.

use crate::parcels::{Ask, Parcel, Row, Told};
use crate::places::plays;
use meet_book::Book;
use meet_core::Dual;
use meet_line::{FairLine, FairRing, Line, StackLine, StackRing};
use meet_queues::queue_book;
use std::alloc::Global;
use std::process::Abort;

/// A giver waits, is met, and is told so.
const HANDOFF: [Row; 3] = [
    (0, Ask::Give(5), Told::Waits(1)),
    (1, Ask::Take, Told::Got(2, 1, 5)),
    (0, Ask::Follow(1), Told::Done),
];

/// Of two givers the one who came first is met, in fair mode.
const FIRST: [Row; 3] = [
    (0, Ask::Give(1), Told::Waits(1)),
    (1, Ask::Give(2), Told::Waits(2)),
    (2, Ask::Take, Told::Got(3, 1, 1)),
];

/// In the default mode the one who came last is.
const LAST: [Row; 3] = [
    (0, Ask::Give(1), Told::Waits(1)),
    (1, Ask::Give(2), Told::Waits(2)),
    (2, Ask::Take, Told::Got(3, 2, 2)),
];

/// A giver takes its item back, and a poll finds nobody.
const TAKEN_BACK: [Row; 3] = [
    (0, Ask::Give(5), Told::Waits(1)),
    (0, Ask::Cancel(1), Told::Back(Some(5))),
    (1, Ask::Poll, Told::Fails(2, None)),
];

/// A giver who was met is too late to take its item back.
const TOO_LATE: [Row; 4] = [
    (0, Ask::Give(5), Told::Waits(1)),
    (1, Ask::Take, Told::Got(2, 1, 5)),
    (0, Ask::Cancel(1), Told::Late),
    (0, Ask::Follow(1), Told::Done),
];

/// Of two takers the one who came first is met.
const TAKERS: [Row; 5] = [
    (0, Ask::Take, Told::Waits(1)),
    (1, Ask::Take, Told::Waits(2)),
    (2, Ask::Give(9), Told::Gave(3, 1)),
    (1, Ask::Follow(2), Told::NotYet),
    (0, Ask::Follow(1), Told::Collected(3, 9)),
];

/// An offer finds nobody, and then one who waits.
const OFFERS: [Row; 3] = [
    (0, Ask::Offer(7), Told::Fails(1, Some(7))),
    (1, Ask::Take, Told::Waits(2)),
    (0, Ask::Offer(7), Told::Gave(3, 2)),
];

/// The time of one of three givers runs out, and the others are met in their order.
const EXPIRED: [Row; 6] = [
    (0, Ask::Give(1), Told::Waits(1)),
    (1, Ask::Give(2), Told::Waits(2)),
    (2, Ask::Give(3), Told::Waits(3)),
    (1, Ask::Expire(2), Told::Back(Some(2))),
    (3, Ask::Take, Told::Got(4, 1, 1)),
    (4, Ask::Take, Told::Got(5, 3, 3)),
];

/// A taker is cut, and an offer behind it finds nobody.
const TAKER_CUT: [Row; 4] = [
    (0, Ask::Take, Told::Waits(1)),
    (1, Ask::Interrupt(0), Told::Cut(1)),
    (0, Ask::Follow(1), Told::WasCut(None)),
    (2, Ask::Offer(4), Told::Fails(2, Some(4))),
];

/// A taker who was met is flagged, and its next take is stopped.
const FLAGGED: [Row; 5] = [
    (0, Ask::Take, Told::Waits(1)),
    (1, Ask::Give(4), Told::Gave(2, 1)),
    (2, Ask::Interrupt(0), Told::Flagged),
    (0, Ask::Follow(1), Told::Collected(2, 4)),
    (0, Ask::Take, Told::Stopped(3, None)),
];

/// A giver is cut, has its item back, and gives another.
const GIVER_CUT: [Row; 5] = [
    (0, Ask::Give(5), Told::Waits(1)),
    (1, Ask::Interrupt(0), Told::Cut(1)),
    (0, Ask::Cancel(1), Told::Late),
    (0, Ask::Follow(1), Told::WasCut(Some(5))),
    (0, Ask::Give(6), Told::Waits(2)),
];

/// The stories of a queue in fair mode.
const FAIR: [&[Row]; 10] = [
    &HANDOFF,
    &FIRST,
    &TAKEN_BACK,
    &TOO_LATE,
    &TAKERS,
    &OFFERS,
    &EXPIRED,
    &TAKER_CUT,
    &FLAGGED,
    &GIVER_CUT,
];

/// A story takes place at a new queue over this line, under a book.
fn happens<L: Line<Parcel> + Drop>(rt: &impl Abort, alloc: Global, rows: &[Row]) {
    let mut book: Book<Dual<Parcel, L>> = queue_book(alloc, 5, 1, 99).expect(rt, "memory");
    plays(rt, &mut book, rows);
}

/// So does each of these.
fn happen<L: Line<Parcel> + Drop>(rt: &impl Abort, alloc: Global, stories: &[&[Row]]) {
    for rows in stories {
        happens::<L>(rt, alloc, rows);
    }
}

#[test]
fn over_linked_lines(rt: HostRuntime) {
    happen::<FairLine<Parcel>>(&rt, rt.alloc(), &FAIR);
    happen::<StackLine<Parcel>>(&rt, rt.alloc(), &[&LAST]);
}

#[test]
fn over_lists_that_are_walked(rt: HostRuntime) {
    happen::<FairRing<Parcel>>(&rt, rt.alloc(), &FAIR);
    happen::<StackRing<Parcel>>(&rt, rt.alloc(), &[&LAST]);
}
