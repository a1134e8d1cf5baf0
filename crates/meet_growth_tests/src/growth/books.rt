//! A queue's book grows by each request, by an interrupt and by a drain, and bears a refusal then.

use crate::growth::{Day, Turn, passes};
use meet_shop::{Ask, Found, Told};
use meet_sync::LeftStanding;
use meet_tickets::Order;
use std::alloc::Global;
use std::process::Abort;
use std::sync::Wait;
use std::test::*;

/// There are 4,095 records, and one is owed to the giver that waits: so many as a new queue has room for. An offer asks
/// for room for two, and so it is an interrupt that fills the last.
const FILLED: [Turn; 3] = [
    (1, Ask::Give(10), Told::Parks(1)),
    (4_093, Ask::Offer(20), Told::Failed(Some(20))),
    (1, Ask::Interrupt(1), Told::Flagged),
];

/// So the book of a queue of this order grows where a seat has this turn; and these items are drained and left.
fn grows<R: Abort + Wait>(
    rt: &R,
    alloc: Global,
    order: Order,
    turn: Turn,
    drained: &[u64],
    left: &[Found],
) {
    let day = Day {
        order,
        cap: 10_000,
        turns: &[FILLED[0], FILLED[1], FILLED[2], turn],
        drained,
        left,
    };
    passes(rt, alloc, day);
}

/// The book of a queue of this order grows by each request, by an interrupt, and by a drain.
fn book<R: Abort + Wait>(rt: &R, alloc: Global, order: Order, both: &[u64]) {
    let give = (1, Ask::Give(30), Told::Parks(4_095));
    grows(rt, alloc, order, give, both, &[]);
    grows(rt, alloc, order, (1, Ask::Take, Told::Got(1, 10)), &[], &[]);
    let offer = (1, Ask::Offer(30), Told::Failed(Some(30)));
    grows(rt, alloc, order, offer, &[10], &[]);
    grows(rt, alloc, order, (1, Ask::Poll, Told::Got(1, 10)), &[], &[]);
    let interrupt = (1, Ask::Interrupt(0), Told::Cut(1));
    grows(
        rt,
        alloc,
        order,
        interrupt,
        &[],
        &[(1, 10, LeftStanding::Ready)],
    );
    let day = Day {
        order,
        cap: 10_000,
        turns: &FILLED,
        drained: &[10],
        left: &[],
    };
    passes(rt, alloc, day);
}

#[test]
fn book_of_a_fair_queue(rt: HostRuntime) {
    book(&rt, rt.alloc(), Order::Fair, &[10, 30]);
}

#[test]
fn book_of_an_unfair_queue(rt: HostRuntime) {
    book(&rt, rt.alloc(), Order::Unfair, &[30, 10]);
}

#[test]
fn book_of_a_transfer_queue(rt: HostRuntime) {
    book(&rt, rt.alloc(), Order::Transfer, &[10, 30]);
    let put = (1, Ask::Put(30), Told::Kept);
    grows(&rt, rt.alloc(), Order::Transfer, put, &[10, 30], &[]);
}
