//! Queues and their books bear one refusal of memory: nothing is lost by it, and the call that is made again succeeds.
//! `dev/check/refuse` runs these tests with each allocation refused in turn.

use crate::drains::are_taken;
use crate::parcels::{Ask, Parcel, Row, Told, seat};
use crate::places::{Fair, Shown, Unfair, plays};
use meet_book::{Book, Receipt};
use meet_core::{Dual, QueuePlace};
use meet_line::Line;
use meet_queues::{QueueAnswer, queue_book, ready_book, transfer_book};
use meet_tickets::{Deed, Record, Refusal};
use meet_transfer::{Transfer, Unbounded};
use std::alloc::Global;
use std::process::Abort;

/// A synchronous queue, at the second try where there was no memory at first.
fn queue<L: Line<Parcel>>(rt: &impl Abort, alloc: Global) -> Dual<Parcel, L> {
    match Dual::new(alloc, 6, 1) {
        Ok(queue) => queue,
        Err(_) => Dual::new(alloc, 6, 1).expect(rt, "memory"),
    }
}

/// The same of a transfer queue.
fn transfer(rt: &impl Abort, alloc: Global) -> Transfer<Parcel> {
    match Transfer::new(alloc, 6, 1) {
        Ok(queue) => queue,
        Err(_) => Transfer::new(alloc, 6, 1).expect(rt, "memory"),
    }
}

/// The same of a transfer queue with a bound.
fn bounded(rt: &impl Abort, alloc: Global) -> Transfer<Parcel> {
    match Transfer::with_bound(alloc, 6, 1, 5) {
        Ok(queue) => queue,
        Err(_) => Transfer::with_bound(alloc, 6, 1, 5).expect(rt, "memory"),
    }
}

/// The same of a synchronous queue's book.
fn book_of_queue(rt: &impl Abort, alloc: Global) -> Book<Fair> {
    match queue_book(alloc, 6, 1, 40) {
        Ok(book) => book,
        Err(_) => queue_book(alloc, 6, 1, 40).expect(rt, "memory"),
    }
}

/// The same of a transfer queue's book.
fn book_of_transfer(rt: &impl Abort, alloc: Global) -> Book<Transfer<Parcel>> {
    match transfer_book(alloc, 6, 1, None, 40) {
        Ok(book) => book,
        Err(_) => transfer_book(alloc, 6, 1, None, 40).expect(rt, "memory"),
    }
}

/// The same of a queue's book that is ready.
fn readied<O: QueuePlace>(rt: &impl Abort, alloc: Global) -> Book<O> {
    match ready_book(alloc, 6, 40) {
        Ok(book) => book,
        Err(_) => ready_book(alloc, 6, 40).expect(rt, "memory"),
    }
}

/// The serial number of the parcel that is given.
fn given(ask: Ask) -> Option<u64> {
    match ask {
        Ask::Give(serial) => Some(serial),
        Ask::Put(serial) => Some(serial),
        Ask::Offer(serial) => Some(serial),
        _ => None,
    }
}

/// Seats ask, one after another, once more where there was no memory, and are told this.
fn bears<P: Shown>(rt: &impl Abort, place: &mut P, rows: &[Row]) {
    for (number, ask, wanted) in rows {
        let at = seat(rt, *number);
        let before = place.shown();
        let mut told = place.answer(rt, at, *ask);
        if told == Told::Refused(Refusal::Memory, given(*ask)) {
            assert_eq!(rt; place.shown(), before);
            told = place.answer(rt, at, *ask);
        }
        assert_eq!(rt; told, *wanted);
    }
}

const GIVEN: [Row; 5] = [
    (0, Ask::Give(10), Told::Waits(1)),
    (1, Ask::Give(20), Told::Waits(2)),
    (2, Ask::Give(30), Told::Waits(3)),
    (4, Ask::Give(40), Told::Waits(4)),
    (5, Ask::Give(50), Told::Waits(5)),
];

const TAKEN: [Row; 6] = [
    (0, Ask::Take, Told::Waits(1)),
    (1, Ask::Take, Told::Waits(2)),
    (2, Ask::Take, Told::Waits(3)),
    (3, Ask::Take, Told::Waits(4)),
    (4, Ask::Take, Told::Waits(5)),
    (5, Ask::Offer(60), Told::Gave(6, 5)),
];

const KEPT: [Row; 6] = [
    (0, Ask::Put(10), Told::Kept(1)),
    (1, Ask::Give(20), Told::Waits(2)),
    (0, Ask::Put(30), Told::Kept(3)),
    (2, Ask::Give(40), Told::Waits(4)),
    (0, Ask::Put(50), Told::Kept(5)),
    (3, Ask::Take, Told::Got(6, 1, 10)),
];

#[test]
fn givers_that_wait(rt: HostRuntime) {
    let mut queue: Fair = queue(&rt, rt.alloc());
    bears(&rt, &mut queue, &GIVEN);
    bears(&rt, &mut queue, &[(3, Ask::Take, Told::Got(6, 1, 10))]);
}

#[test]
fn takers_that_wait(rt: HostRuntime) {
    let mut queue: Unfair = queue(&rt, rt.alloc());
    bears(&rt, &mut queue, &TAKEN);
}

#[test]
fn items_that_are_kept(rt: HostRuntime) {
    let mut queue = bounded(&rt, rt.alloc());
    bears(&rt, &mut queue, &KEPT);
}

/// Room for six is made, at the second try where there was no memory at first.
fn makes_room(rt: &impl Abort, queue: &mut Transfer<Parcel>) {
    let before = queue.shown();
    if let Err(why) = queue.reserve(6) {
        assert!(rt; why == Refusal::Memory);
        assert_eq!(rt; queue.shown(), before);
        assert!(rt; queue.reserve(6).is_ok());
    }
}

#[test]
fn room_that_is_made_first(rt: HostRuntime) {
    let mut queue = transfer(&rt, rt.alloc());
    makes_room(&rt, &mut queue);
    plays(&rt, &mut queue, &KEPT);
}

/// What seat 3 drains from a synchronous queue's book, at the second try where there was no memory at first.
fn drained(
    rt: &impl Abort,
    alloc: Global,
    book: &mut Book<Fair>,
) -> Vec<(QueueAnswer<Parcel>, Receipt<Deed>)> {
    let at = seat(rt, 3);
    let before = book.shown();
    match book.drain(alloc, at, 9) {
        Ok(got) => got,
        Err(why) => {
            assert!(rt; why == Refusal::Memory);
            assert_eq!(rt; book.shown(), before);
            book.drain(alloc, at, 9).expect(rt, "memory")
        }
    }
}

#[test]
fn a_book_of_givers_that_wait(rt: HostRuntime) {
    let alloc = rt.alloc();
    let mut book = book_of_queue(&rt, alloc);
    bears(&rt, &mut book, &GIVEN);
    let rows = [(6, 1, 10), (7, 2, 20), (8, 3, 30), (9, 4, 40), (10, 5, 50)];
    are_taken(&rt, drained(&rt, alloc, &mut book), &rows);
}

/// A list with room for one record, at the second try where there was no memory at first.
fn small_list(rt: &impl Abort, alloc: Global) -> Vec<Record<Deed>> {
    match Vec::with_capacity(alloc, 1) {
        Ok(list) => list,
        Err(_) => Vec::with_capacity(alloc, 1).expect(rt, "memory"),
    }
}

/// Hands the records of a book out, and lends it a list: the records. Where there was no memory the list comes back
/// with its room, and is borrowed again.
fn handed_out(rt: &impl Abort, alloc: Global, book: &mut Book<Fair>) -> Vec<Record<Deed>> {
    let lent = small_list(rt, alloc);
    let room = lent.capacity();
    match book.rotate(lent) {
        Ok(chapter) => chapter.records,
        Err(refused) => {
            assert!(rt; refused.why == Refusal::Memory);
            assert!(rt; refused.back.capacity() >= room);
            match book.rotate(refused.back) {
                Ok(chapter) => chapter.records,
                Err(_) => panic!(rt; "memory"),
            }
        }
    }
}

#[test]
fn a_list_that_is_lent_to_a_book(rt: HostRuntime) {
    let alloc = rt.alloc();
    let mut book = book_of_queue(&rt, alloc);
    bears(&rt, &mut book, &GIVEN);
    assert_eq!(rt; handed_out(&rt, alloc, &mut book).len(), 5);
    let rows = [(6, 1, 10), (7, 2, 20), (8, 3, 30), (9, 4, 40), (10, 5, 50)];
    are_taken(&rt, drained(&rt, alloc, &mut book), &rows);
}

#[test]
fn a_book_of_items_that_are_kept(rt: HostRuntime) {
    let mut book = book_of_transfer(&rt, rt.alloc());
    bears(&rt, &mut book, &KEPT);
}

/// Once it is made, nothing is refused.
#[test]
fn a_ready_book_of_givers_that_wait(rt: HostRuntime) {
    let mut book = readied::<Fair>(&rt, rt.alloc());
    plays(&rt, &mut book, &GIVEN);
}

/// Nor here.
#[test]
fn a_ready_book_of_items_that_are_kept(rt: HostRuntime) {
    let mut book = readied::<Unbounded<Parcel>>(&rt, rt.alloc());
    plays(&rt, &mut book, &KEPT);
}
