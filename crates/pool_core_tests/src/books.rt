//! Books of pools: what they refuse, whom a step wakes, and which jobs are left.

use crate::plays::{Ask, Recorded, Told, book_of, counts, plays, seat_of, sizes};
use meet_book::{Leaves, Object, Wakes};
use meet_tickets::{Refusal, SeatNo};
use pool_core::{Policy, PoolCall, PoolQueue, Task};
use std::alloc::Global;
use std::process::Abort;
use std::test::*;

#[test]
fn what_a_book_of_a_pool_refuses(rt: HostRuntime) {
    let mut book = book_of(
        &rt,
        rt.alloc(),
        sizes(1, 1),
        PoolQueue::Unbounded,
        Policy::Abort,
        10,
    );
    plays(
        &rt,
        &mut book,
        &[
            (Ask::Ready(0), Told::Refused(Refusal::NotOpen)),
            (Ask::Ready(1), Told::Refused(Refusal::NoSuchSeat)),
            (Ask::Execute(1), Told::Started(0)),
            (Ask::Execute(2), Told::Refused(Refusal::HistoryFull)),
            (Ask::Ready(0), Told::Run(1)),
            (Ask::Finish(0), Told::Done),
            (Ask::Leave(0), Told::Done),
        ],
    );
    assert_eq!(&rt; book.records().len(), 4);
    assert!(&rt; book.cut() == Ok(4));
    plays(
        &rt,
        &mut book,
        &[
            (Ask::Execute(3), Told::Started(0)),
            (Ask::StartFailed(0), Told::Back(1, 3)),
        ],
    );
    assert_eq!(&rt; book.records().len(), 2);
    assert_eq!(&rt; book.base().back, 0);
    assert_eq!(&rt; book.base().done, 1);
}

/// A seat makes a call: whom the answer wakes.
fn wakes(
    rt: &impl Abort,
    book: &mut Recorded,
    seat: SeatNo,
    call: PoolCall<u64>,
) -> Option<SeatNo> {
    match book.step(seat, call) {
        Ok((answer, _)) => book.probe().wakes(&answer),
        Err(_) => panic!(rt; "refused"),
    }
}

#[test]
fn cut_workers_wake_each_other(rt: HostRuntime) {
    let mut book = book_of(
        &rt,
        rt.alloc(),
        sizes(2, 2),
        PoolQueue::Unbounded,
        Policy::Abort,
        100,
    );
    plays(
        &rt,
        &mut book,
        &[
            (Ask::Execute(1), Told::Started(0)),
            (Ask::Execute(2), Told::Started(1)),
            (Ask::Ready(0), Told::Run(1)),
            (Ask::Ready(1), Told::Run(2)),
            (Ask::Finish(0), Told::Done),
            (Ask::Finish(1), Told::Done),
            (Ask::Ready(0), Told::Waits),
            (Ask::Ready(1), Told::Waits),
        ],
    );
    let first = wakes(&rt, &mut book, seat_of(&rt, 0), PoolCall::ShutDown);
    let first = first.expect(&rt, "nobody is woken");
    assert_eq!(&rt; first.number(), 1);
    let second = wakes(&rt, &mut book, first, PoolCall::Follow);
    let second = second.expect(&rt, "nobody is woken");
    assert_eq!(&rt; second.number(), 2);
    assert!(&rt; wakes(&rt, &mut book, second, PoolCall::Follow).is_none());
    assert_eq!(&rt; counts(&book), (0, 0, 0, 2, 2));
}

/// The three jobs that are left of a pool, in the order of their tickets.
fn left_of(rt: &impl Abort, alloc: Global, book: Recorded) -> Vec<Task<u64>> {
    let (pool, _, _) = book.into_parts();
    assert_eq!(rt; pool.left(), 3);
    let list = Vec::with_capacity(alloc, 3).expect(rt, "no memory");
    pool.into_left_by_ticket(list)
}

/// What is left has this ticket and this job at this place.
fn is_left(rt: &impl Abort, left: &[Task<u64>], index: usize, ticket: u64, job: u64) {
    let task = left.get(index).expect(rt, "nothing is left there");
    assert_eq!(rt; task.job, job);
    assert_eq!(rt; task.ticket.number(), ticket);
}

#[test]
fn what_is_left(rt: HostRuntime) {
    let mut book = book_of(
        &rt,
        rt.alloc(),
        sizes(1, 1),
        PoolQueue::Unbounded,
        Policy::Abort,
        100,
    );
    plays(
        &rt,
        &mut book,
        &[
            (Ask::Execute(7), Told::Started(0)),
            (Ask::Execute(8), Told::Kept),
            (Ask::Execute(9), Told::Kept),
        ],
    );
    let left = left_of(&rt, rt.alloc(), book);
    assert_eq!(&rt; left.len(), 3);
    for (index, ticket, job) in [(0, 1, 7), (1, 2, 8), (2, 3, 9)] {
        is_left(&rt, left.as_slice(), index, ticket, job);
    }
}
