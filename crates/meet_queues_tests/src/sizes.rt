//! Memory is found for many seats, much room, long drains and long histories.

use crate::answers::queue;
use crate::drains::drained_kept;
use crate::parcels::{Ask, Parcel, Told, seat};
use crate::places::{Place, plays};
use meet_book::Book;
use meet_core::Dual;
use meet_history::{Standing, check};
use meet_line::{FairLine, Line, StackLine};
use meet_queues::transfer_book;
use meet_tickets::{Base, Deed, Kind, Order, Record, Refusal};
use meet_transfer::Transfer;
use std::alloc::Global;
use std::process::Abort;

/// The room of a synchronous queue, once there is some for a hundred thousand requests.
fn room_of<L: Line<Parcel> + Drop>(rt: &impl Abort, alloc: Global) -> u64 {
    let mut queue: Dual<Parcel, L> = Dual::new(alloc, 1, 1).expect(rt, "memory");
    queue.reserve(100_000).expect(rt, "memory");
    queue.room()
}

/// The same of a transfer queue.
fn room_of_transfer(rt: &impl Abort, alloc: Global) -> u64 {
    let mut queue: Transfer<Parcel> = Transfer::new(alloc, 1, 1).expect(rt, "memory");
    queue.reserve(100_000).expect(rt, "memory");
    queue.room()
}

#[test]
fn much_room(rt: HostRuntime) {
    let rooms = [
        room_of::<FairLine<Parcel>>(&rt, rt.alloc()),
        room_of::<StackLine<Parcel>>(&rt, rt.alloc()),
        room_of_transfer(&rt, rt.alloc()),
    ];
    for room in rooms {
        assert!(rt; room >= 100_000);
    }
}

/// So many parcels are kept.
fn keeps(rt: &impl Abort, book: &mut Book<Transfer<Parcel>>, count: u64) {
    let at = seat(rt, 0);
    for serial in 0..count {
        let told = book.answer(rt, at, Ask::Put(serial));
        assert_eq!(rt; told, Told::Kept(serial.wrapping_add(1)));
    }
}

/// So many parcels are drained at once.
fn drains(rt: &impl Abort, alloc: Global, book: &mut Book<Transfer<Parcel>>, count: u64) {
    let got = drained_kept(rt, alloc, book, seat(rt, 0), 18446744073709551615);
    assert_eq!(rt; got.len() as u64, count);
    for ((answer, _), serial) in got.into_iter().zip(0..count) {
        let with = serial.wrapping_add(1);
        let own = with.wrapping_add(count);
        assert_eq!(rt; queue(answer), Told::Got(own, with, serial));
    }
}

/// So many polls find nothing.
fn polls(rt: &impl Abort, book: &mut Book<Transfer<Parcel>>, count: u64) {
    let at = seat(rt, 1);
    for _ in 0..count {
        let told = book.answer(rt, at, Ask::Poll);
        assert!(rt; matches!(told, Told::Fails(_, None)));
    }
}

/// The records are as many as can be, and legal, and leave nobody and nothing there.
fn is_legal(rt: &impl Abort, alloc: Global, records: &[Record<Deed>]) {
    assert_eq!(rt; records.len(), 1_048_575);
    let kind = Kind {
        order: Order::Transfer,
        bound: None,
    };
    let standing = Standing {
        waiting: 0,
        uncollected: 0,
        kept: 0,
    };
    assert!(rt; check(alloc, kind, &Base::empty(alloc), records) == Ok(standing));
}

/// A request needs a place for its own record and one for the ending that it may owe: so one place stays free.
#[test]
fn a_long_history(rt: HostRuntime) {
    let mut book: Book<Transfer<Parcel>> = transfer_book(rt.alloc(), 2, 1, None, 1_048_576).expect(
        &rt, "memory",
    );
    keeps(&rt, &mut book, 20_000);
    drains(&rt, rt.alloc(), &mut book, 20_000);
    polls(&rt, &mut book, 1_008_575);
    let full = Told::Refused(Refusal::HistoryFull, None);
    plays(&rt, &mut book, &[(1, Ask::Poll, full)]);
    is_legal(&rt, rt.alloc(), book.records());
}
