//! A drain of a book hands out the very parcels, in the order of its queue, with a receipt for each.

use crate::answers::queue;
use crate::parcels::{Ask, Parcel, Row, Told, seat, ticket};
use crate::places::plays;
use meet_book::{Book, Receipt, Unwatched};
use meet_core::Dual;
use meet_line::{FairLine, Line, StackLine};
use meet_queues::{QueueAnswer, queue_book, transfer_book};
use meet_tickets::{Deed, Marked, Record, Refusal, SeatNo};
use meet_transfer::Transfer;
use std::alloc::Global;
use std::process::Abort;

/// Three parcels stand in the line.
const THREE: [Row; 3] = [
    (0, Ask::Put(10), Told::Waits(1)),
    (1, Ask::Put(20), Told::Waits(2)),
    (2, Ask::Put(30), Told::Waits(3)),
];

/// The same where they are kept.
const THREE_KEPT: [Row; 3] = [
    (0, Ask::Put(10), Told::Kept(1)),
    (0, Ask::Put(20), Told::Kept(2)),
    (1, Ask::Put(30), Told::Kept(3)),
];

/// The tickets of a drained parcel, seat 3's own and the giver's, and its serial number.
type Taken = (u64, u64, u64);

/// Seat 3 is told this of a drained parcel, and its receipt is for the record whose number is that of its ticket.
fn is_taken(rt: &impl Abort, told: Told, receipt: &Receipt<Deed>, taken: Taken) {
    let (own, with, serial) = taken;
    let record = Record {
        seat: seat(rt, 3),
        ticket: ticket(rt, own),
        deed: Deed::TakeMeets(7, ticket(rt, with)),
    };
    assert!(rt; told == Told::Got(own, with, serial));
    assert_eq!(rt; receipt.place(), own);
    assert!(rt; receipt.entry() == record);
}

/// A drain handed out these parcels.
pub fn are_taken(rt: &impl Abort, got: Vec<(QueueAnswer<Parcel>, Receipt<Deed>)>, rows: &[Taken]) {
    assert_eq!(rt; got.len(), rows.len());
    for ((answer, receipt), taken) in got.into_iter().zip(rows) {
        is_taken(rt, queue(answer), &receipt, *taken);
    }
}

/// A drain lets nothing go: it asks neither of the items nor of the line that they may be.
fn drained<T: Marked, L: Line<T>>(
    alloc: Global,
    book: &mut Book<Dual<T, L>>,
    seat: SeatNo,
    most: u64,
) -> Result<Vec<(QueueAnswer<T>, Receipt<Deed>)>, Refusal> {
    book.drain(alloc, seat, most)
}

/// A drain of seat 3 from a synchronous queue hands out these parcels.
fn drains_dual<L: Line<Parcel>>(
    rt: &impl Abort,
    alloc: Global,
    book: &mut Book<Dual<Parcel, L>>,
    most: u64,
    rows: &[Taken],
) {
    let got = drained(alloc, book, seat(rt, 3), most).expect(rt, "refused");
    are_taken(rt, got, rows);
}

/// What a seat drains from a transfer queue.
pub fn drained_kept(
    rt: &impl Abort,
    alloc: Global,
    book: &mut Book<Transfer<Parcel>>,
    seat: SeatNo,
    most: u64,
) -> Vec<(QueueAnswer<Parcel>, Receipt<Deed>)> {
    book.drain(alloc, seat, most).expect(rt, "refused")
}

/// A drain of seat 3 from a transfer queue hands out these parcels.
fn drains_kept(
    rt: &impl Abort,
    alloc: Global,
    book: &mut Book<Transfer<Parcel>>,
    most: u64,
    rows: &[Taken],
) {
    are_taken(rt, drained_kept(rt, alloc, book, seat(rt, 3), most), rows);
}

/// What a book of a synchronous queue hands out in two drains.
fn drains<L: Line<Parcel> + Drop>(rt: &impl Abort, alloc: Global, rows: &[Taken], rest: &[Taken]) {
    let mut book: Book<Dual<Parcel, L>> = queue_book(alloc, 4, 1, 20).expect(rt, "memory");
    plays(rt, &mut book, &THREE);
    drains_dual(rt, alloc, &mut book, 2, rows);
    drains_dual(rt, alloc, &mut book, 9, rest);
}

#[test]
fn of_a_fair_queue(rt: HostRuntime) {
    let rows = [(4, 1, 10), (5, 2, 20)];
    drains::<FairLine<Parcel>>(&rt, rt.alloc(), &rows, &[(6, 3, 30)]);
}

#[test]
fn of_an_unfair_queue(rt: HostRuntime) {
    let rows = [(4, 3, 30), (5, 2, 20)];
    drains::<StackLine<Parcel>>(&rt, rt.alloc(), &rows, &[(6, 1, 10)]);
}

/// What a drain of seat 3 lays into a list with room for so many.
fn filled(
    rt: &impl Abort,
    alloc: Global,
    book: &mut Book<Dual<Parcel, FairLine<Parcel>>>,
    count: usize,
) -> Vec<(QueueAnswer<Parcel>, Receipt<Deed>)> {
    let room = Vec::with_capacity(alloc, count).expect(rt, "memory");
    match book.drain_into(seat(rt, 3), 9, room, &mut Unwatched {}) {
        Ok(got) => got,
        Err(_) => panic!(rt; "refused"),
    }
}

/// A drain of seat 3 into such a list hands out these parcels.
fn fills(
    rt: &impl Abort,
    alloc: Global,
    book: &mut Book<Dual<Parcel, FairLine<Parcel>>>,
    count: usize,
    rows: &[Taken],
) {
    are_taken(rt, filled(rt, alloc, book, count), rows);
}

#[test]
fn into_a_lent_list(rt: HostRuntime) {
    let mut book: Book<Dual<Parcel, FairLine<Parcel>>> = queue_book(rt.alloc(), 4, 1, 20).expect(
        &rt, "memory",
    );
    plays(&rt, &mut book, &THREE);
    fills(&rt, rt.alloc(), &mut book, 2, &[(4, 1, 10), (5, 2, 20)]);
    fills(&rt, rt.alloc(), &mut book, 9, &[(6, 3, 30)]);
}

#[test]
fn of_a_transfer_queue(rt: HostRuntime) {
    let mut book: Book<Transfer<Parcel>> = transfer_book(rt.alloc(), 4, 1, None, 20).expect(
        &rt, "memory",
    );
    plays(&rt, &mut book, &THREE_KEPT);
    drains_kept(&rt, rt.alloc(), &mut book, 2, &[(4, 1, 10), (5, 2, 20)]);
    drains_kept(&rt, rt.alloc(), &mut book, 9, &[(6, 3, 30)]);
    is_drained(&rt, book);
}

/// Nothing is kept in a book of six records.
fn is_drained(rt: &impl Abort, book: Book<Transfer<Parcel>>) {
    let (queue, base, records) = book.into_parts();
    assert_eq!(rt; (queue.kept(), base.gone, records.len()), (0, 0, 6));
}
