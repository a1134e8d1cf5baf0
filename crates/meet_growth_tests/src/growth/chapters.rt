//! A queue that is tended, whose records are handed out and looked at, bears a refusal too.

ghost use Rattle.std.specs.Prelude.{◌≡◌, vec_len};
ghost use Rattle.meet_place.specs.Ledgers.{AreOf};

use crate::growth::{list, open};
use meet_book::Bases;
use meet_core::{QueueLeaves, QueuePlace};
use meet_line::FairLine;
use meet_shop::{Idle, gates};
use meet_sync::{
    Asked, Back, Blanks, Chapter, Chronicle, Ledgers, NewQueue, Pending, Queue, Request, Seat,
    SyncQueue, TakenBack,
};
use meet_tickets::{Deed, Record, Refusal};
use std::alloc::Global;
use std::marker::Brand;
use std::process::Abort;
use std::sync::Wait;
use std::test::*;

/// A fair queue. Who makes it knows that it is one; all others, that numbers go through it.
type Fair<N> = SyncQueue<u64, FairLine<u64>, Idle, N>;

/// How many polls and a take are more than half of 16 records.
const POLLS: u64 = 8;

/// A take that waits, at the second try where there was no memory at first.
fn waits<O: QueuePlace<Item = u64>, N: Ledgers, R: Abort + Wait>(
    rt: &R,
    queue: &Queue<O, Idle, N>,
    seat: Seat<Deed, N>,
) -> Pending<Deed, N> {
    let asked = match queue.request(rt, seat, Request::Take) {
        Ok(asked) => asked,
        Err(refused) => match queue.request(rt, refused.seat, Request::Take) {
            Ok(asked) => asked,
            Err(_) => panic!(rt; "it is refused"),
        },
    };
    match asked {
        Asked::Parked(pending) => pending,
        _ => panic!(rt; "it doesn't wait"),
    }
}

/// A poll in vain, at the second try where there was no memory at first.
fn polls<O: QueuePlace<Item = u64>, N: Ledgers, R: Abort + Wait>(
    rt: &R,
    queue: &Queue<O, Idle, N>,
    seat: Seat<Deed, N>,
) -> Seat<Deed, N> {
    let asked = match queue.request(rt, seat, Request::Poll) {
        Ok(asked) => asked,
        Err(refused) => match queue.request(rt, refused.seat, Request::Poll) {
            Ok(asked) => asked,
            Err(_) => panic!(rt; "it is refused"),
        },
    };
    match asked {
        Asked::Settled(seat, _) => seat,
        _ => panic!(rt; "it waits"),
    }
}

/// The seat tends, at the second try where there was no memory at first: then nothing was folded away.
fn tends<O: QueuePlace<Item = u64> + Bases, N: Ledgers, R: Abort + Wait>(
    rt: &R,
    queue: &Queue<O, Idle, N>,
    seat: Seat<Deed, N>,
) -> Seat<Deed, N> {
    match queue.tend(rt, seat) {
        Ok(seat) => seat,
        Err(refused) => {
            assert!(rt; refused.why == Refusal::Memory);
            assert_eq!(rt;
                (refused.seat.folded(), refused.seat.receipts().len()),
                (0, 8)
            );
            match queue.tend(rt, refused.seat) {
                Ok(seat) => seat,
                Err(_) => panic!(rt; "it isn't tended"),
            }
        }
    }
}

/// The seat hands out the records so far, at the second try where there was no memory at first: then they stayed.
fn rotates<O: QueuePlace<Item = u64> + Bases, N: Ledgers, R: Abort + Wait>(
    rt: &R,
    alloc: Global,
    queue: &Queue<O, Idle, N>,
    seat: Seat<Deed, N>,
) -> (Seat<Deed, N>, Chapter) {
    match queue.rotate(rt, seat, Vec::new(alloc)) {
        Ok(made) => made,
        Err(refused) => {
            assert!(rt; refused.why == Refusal::Memory);
            assert_eq!(rt; refused.seat.folded(), 9);
            match queue.rotate(rt, refused.seat, Vec::new(alloc)) {
                Ok(made) => made,
                Err(_) => panic!(rt; "nothing is handed out"),
            }
        }
    }
}

/// A look at the records, at the second try where there was no memory at first.
fn looks<O: QueuePlace<Item = u64> + Bases, N: Ledgers, R: Abort + Wait>(
    rt: &R,
    queue: &Queue<O, Idle, N>,
) -> Chapter {
    match queue.history(rt) {
        Ok(chapter) => chapter,
        Err(_) => match queue.history(rt) {
            Ok(chapter) => chapter,
            Err(_) => panic!(rt; "there is nothing to be looked at"),
        },
    }
}

/// A chapter has so many records behind it, and so many of its own; one waits on its base.
fn has(rt: &impl Abort, chapter: &Chapter, gone: u64, count: usize) {
    let records: &[Record<Deed>] = chapter.records.as_slice();
    assert_eq!(rt; (chapter.base.gone, records.len()), (gone, count));
    assert_eq!(rt; chapter.base.line.len(), 1);
}

/// Seat 1 waits to take, and seat 0 polls and tends until the records are folded away; one more is handed out, and then
/// there is none to be looked at. Seat 1 takes its ticket back.
fn lives<O: QueuePlace<Item = u64> + Bases, N: Ledgers, R: Abort + Wait>(
    rt: &R,
    alloc: Global,
    queue: &Queue<O, Idle, N>,
    first: Seat<Deed, N>,
    second: Seat<Deed, N>,
) -> (Seat<Deed, N>, Seat<Deed, N>) {
    let pending = waits(rt, queue, second);
    let mut seat = first;
    for _ in 0..POLLS {
        let polled = polls(rt, queue, seat);
        seat = tends(rt, queue, polled);
    }
    assert_eq!(rt; (seat.folded(), seat.receipts().len()), (9, 0));
    let seat = polls(rt, queue, seat);
    let (seat, chapter) = rotates(rt, alloc, queue, seat);
    has(rt, &chapter, 9, 1);
    has(rt, &looks(rt, queue), 10, 0);
    match queue.cancel(rt, pending) {
        TakenBack::Back(second, _) => (seat, second),
        _ => panic!(rt; "it doesn't come back"),
    }
}

/// A queue with room for 16 records, at the second try where there was no memory at first.
fn made<N: Ledgers>(
    rt: &impl Abort,
    alloc: Global,
    parts: NewQueue<Idle>,
) -> (Fair<N>, Vec<Seat<Deed, N>>)
    requires ledgers { AreOf N.name N.folds N.moments N.parts parts.blanks }
    requires one_each { N.parts ≡ vec_len parts.gates }
    requires cap { N.cap ≡ 16 }
{
    match Fair::<N>::with_cap(alloc, parts, 16) {
        Ok(made) => made,
        Err(refused) => match Fair::<N>::with_cap(alloc, refused.back, 16) {
            Ok(made) => made,
            Err(_) => panic!(rt; "it isn't made"),
        },
    }
}

/// The queue is closed, at the second try where there was no memory at first.
fn closed<O: QueueLeaves<Item = u64> + Drop, N: Ledgers>(
    rt: &impl Abort,
    alloc: Global,
    queue: Queue<O, Idle, N>,
    backs: Vec<Back<Deed, N>>,
) -> Chronicle<u64> {
    match queue.close(alloc, backs) {
        Ok(chronicle) => chronicle,
        Err(fault) => {
            let (queue, seats) = open(rt, fault);
            match queue.close(alloc, seats) {
                Ok(chronicle) => chronicle,
                Err(_) => panic!(rt; "it isn't closed"),
            }
        }
    }
}

/// A queue of two seats is made, lives on, and is closed: what it leaves.
fn of_two_seats<N: Ledgers, R: Abort + Wait>(
    rt: &R,
    alloc: Global,
    parts: NewQueue<Idle>,
) -> Chronicle<u64>
    requires ledgers { AreOf N.name N.folds N.moments N.parts parts.blanks }
    requires one_each { N.parts ≡ vec_len parts.gates }
    requires cap { N.cap ≡ 16 }
{
    let mut backs = list(rt, alloc, 2);
    let (queue, mut seats) = made::<N>(rt, alloc, parts);
    let second = seats.pop().expect(rt, "no seat");
    let first = seats.pop().expect(rt, "no seat");
    let (first, second) = lives(rt, alloc, &queue, first, second);
    backs.push(Back::Free(first)).expect(rt, "no room");
    backs.push(Back::Free(second)).expect(rt, "no room");
    closed(rt, alloc, queue, backs)
}

#[test]
fn a_queue_that_lives_on(rt: HostRuntime) {
    let alloc = rt.alloc();
    let gates = match gates::<Idle>(alloc, 2) {
        Ok(gates) => gates,
        Err(_) => gates::<Idle>(alloc, 2).expect(&rt, "memory"),
    };
    let blanks = Blanks::new(gates.len() as u64);
    let chronicle = of_two_seats::<Brand, _>(&rt, alloc, NewQueue { gates, blanks });
    assert_eq!(&rt; (chronicle.base.gone, chronicle.records.len()), (10, 1));
    assert_eq!(&rt; chronicle.left.len(), 0);
}
