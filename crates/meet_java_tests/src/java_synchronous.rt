//! What the documentation of `SynchronousQueue` says of each call, shown at queues for threads of both modes.

use meet_shop::{Ask, Call, Probe, Row, Step, Told, happens, told};
use meet_tickets::Order;
use std::alloc::Global;
use std::process::Abort;
use std::sync::Wait;
use std::test::*;
use std::time::Clock;

/// Seats ask a queue of either mode the same, and it has so many records then.
pub fn both<R: Abort + Wait>(
    rt: &R,
    alloc: Global,
    rows: &[Row],
    records: usize,
) -> Result<(), Fail> {
    told(rt, alloc, Order::Fair, rows, records)?;
    told(rt, alloc, Order::Unfair, rows, records)
}

/// The same steps are made at a queue of either mode.
pub fn in_both<R: Abort + Wait + Clock>(
    rt: &R,
    alloc: Global,
    steps: &[Step<'_>],
) -> Result<(), Fail> {
    happens(rt, alloc, Order::Fair, steps)?;
    happens(rt, alloc, Order::Unfair, steps)
}

/// A giver waits, is met, and leaves nothing.
pub const PUT_WAITS: [Row; 5] = [
    (0, Ask::Give(5), Told::Parks(1)),
    (0, Ask::Follow, Told::NotYet),
    (1, Ask::Take, Told::Got(1, 5)),
    (1, Ask::Poll, Told::Failed(None)),
    (0, Ask::Follow, Told::Done),
];

/// `put` waits for another thread to receive its element.
#[test]
fn a_put_waits_for_a_take(rt: HostRuntime) -> Result<(), Fail> {
    both(&rt, rt.alloc(), &PUT_WAITS, 4)
}

/// A taker waits, and is met by a giver that goes on.
const TAKE_WAITS: [Row; 5] = [
    (0, Ask::Take, Told::Parks(1)),
    (0, Ask::Follow, Told::NotYet),
    (1, Ask::Give(5), Told::Gave(1)),
    (0, Ask::Follow, Told::Got(2, 5)),
    (1, Ask::Offer(6), Told::Failed(Some(6))),
];

/// `take` waits for another thread to insert an element.
#[test]
fn a_take_waits_for_a_put(rt: HostRuntime) -> Result<(), Fail> {
    both(&rt, rt.alloc(), &TAKE_WAITS, 4)
}

/// Nobody takes what is offered.
const OFFER_FAILS: [Row; 3] = [
    (0, Ask::Offer(5), Told::Failed(Some(5))),
    (1, Ask::Poll, Told::Failed(None)),
    (0, Ask::Offer(6), Told::Failed(Some(6))),
];

/// `offer` inserts only where another thread waits to receive, and so leaves nothing where it fails.
#[test]
fn an_offer_with_nobody_there_leaves_nothing(rt: HostRuntime) -> Result<(), Fail> {
    both(&rt, rt.alloc(), &OFFER_FAILS, 3)
}

/// Another giver waits.
const OFFER_BESIDE: [Row; 4] = [
    (0, Ask::Give(5), Told::Parks(1)),
    (1, Ask::Offer(6), Told::Failed(Some(6))),
    (2, Ask::Take, Told::Got(1, 5)),
    (0, Ask::Follow, Told::Done),
];

/// `offer` fails beside a thread that waits to put, since none waits to receive.
#[test]
fn an_offer_beside_a_put_fails(rt: HostRuntime) -> Result<(), Fail> {
    both(&rt, rt.alloc(), &OFFER_BESIDE, 4)
}

/// A taker waits for what is offered.
const OFFER_REACHES: [Row; 4] = [
    (0, Ask::Take, Told::Parks(1)),
    (1, Ask::Offer(7), Told::Gave(1)),
    (1, Ask::Offer(8), Told::Failed(Some(8))),
    (0, Ask::Follow, Told::Got(2, 7)),
];

/// `offer` inserts where another thread waits to receive, once for each that does.
#[test]
fn an_offer_reaches_a_take_that_waits(rt: HostRuntime) -> Result<(), Fail> {
    both(&rt, rt.alloc(), &OFFER_REACHES, 4)
}

/// Nobody gives, and another taker waits.
const POLL_FAILS: [Row; 4] = [
    (0, Ask::Poll, Told::Failed(None)),
    (1, Ask::Take, Told::Parks(2)),
    (0, Ask::Poll, Told::Failed(None)),
    (1, Ask::Cancel, Told::Back(None)),
];

/// `poll` takes only where another thread makes an element available.
#[test]
fn a_poll_with_nobody_there_fails(rt: HostRuntime) -> Result<(), Fail> {
    both(&rt, rt.alloc(), &POLL_FAILS, 4)
}

/// A giver waits for a poll.
const POLL_TAKES: [Row; 4] = [
    (0, Ask::Give(5), Told::Parks(1)),
    (1, Ask::Poll, Told::Got(1, 5)),
    (1, Ask::Poll, Told::Failed(None)),
    (0, Ask::Follow, Told::Done),
];

/// `poll` takes what another thread makes available, once.
#[test]
fn a_poll_takes_from_a_put_that_waits(rt: HostRuntime) -> Result<(), Fail> {
    both(&rt, rt.alloc(), &POLL_TAKES, 4)
}

/// Nobody takes what is offered for a while.
const OFFER_TIMES_OUT: [Step<'static>; 3] = [
    Step::Calls(0, Call::OfferFor(5, 1), Told::TimedOut(Some(5))),
    Step::Calls(1, Call::Poll, Told::Failed(None)),
    Step::Drains(1, 10, &[]),
];

/// `offer` with a time ends without success once that has elapsed, and leaves nothing.
#[test]
fn a_timed_offer_times_out(rt: HostRuntime) -> Result<(), Fail> {
    in_both(&rt, rt.alloc(), &OFFER_TIMES_OUT)
}

/// Nobody gives to a poll for a while.
const POLL_TIMES_OUT: [Step<'static>; 2] = [
    Step::Calls(0, Call::PollFor(1), Told::TimedOut(None)),
    Step::Calls(1, Call::Offer(5), Told::Failed(Some(5))),
];

/// `poll` with a time ends without an element once that has elapsed, and the next offer finds nobody.
#[test]
fn a_timed_poll_times_out(rt: HostRuntime) -> Result<(), Fail> {
    in_both(&rt, rt.alloc(), &POLL_TIMES_OUT)
}

/// What a queue always shows: alone, beside a giver that waits, and beside a taker that waits.
fn always_shows<R: Abort + Wait + Clock>(rt: &R, alloc: Global, probe: Probe) -> Result<(), Fail> {
    let steps = [
        Step::Shows(probe),
        Step::Asks(0, Ask::Give(5), Told::Parks(1)),
        Step::Shows(probe),
        Step::Asks(1, Ask::Poll, Told::Got(1, 5)),
        Step::Asks(0, Ask::Follow, Told::Done),
        Step::Asks(1, Ask::Take, Told::Parks(3)),
        Step::Shows(probe),
        Step::Asks(1, Ask::Cancel, Told::Back(None)),
    ];
    in_both(rt, alloc, &steps)
}

/// `isEmpty` always returns true.
#[test]
fn it_is_always_empty(rt: HostRuntime) -> Result<(), Fail> {
    always_shows(&rt, rt.alloc(), Probe::IsEmpty(true))
}

/// `size` always returns zero.
#[test]
fn its_size_is_always_zero(rt: HostRuntime) -> Result<(), Fail> {
    always_shows(&rt, rt.alloc(), Probe::Size(0))
}

/// `remainingCapacity` always returns zero.
#[test]
fn its_remaining_capacity_is_always_zero(rt: HostRuntime) -> Result<(), Fail> {
    always_shows(&rt, rt.alloc(), Probe::Remaining(0))
}

/// `peek` always returns null.
#[test]
fn a_peek_always_shows_nothing(rt: HostRuntime) -> Result<(), Fail> {
    always_shows(&rt, rt.alloc(), Probe::Peek(None))
}

/// `contains` always returns false.
#[test]
fn it_always_contains_nothing(rt: HostRuntime) -> Result<(), Fail> {
    always_shows(&rt, rt.alloc(), Probe::Contains(5, false))
}

/// A drain finds nothing: alone, and beside another that waits to take.
pub const DRAINS_NOTHING: [Step<'static>; 4] = [
    Step::Drains(0, 10, &[]),
    Step::Asks(1, Ask::Take, Told::Parks(1)),
    Step::Drains(0, 10, &[]),
    Step::Asks(1, Ask::Cancel, Told::Back(None)),
];

/// `drainTo` removes available elements, and there are none where nobody waits to put.
#[test]
fn a_drain_of_nothing_takes_nothing(rt: HostRuntime) -> Result<(), Fail> {
    in_both(&rt, rt.alloc(), &DRAINS_NOTHING)
}

/// Three givers wait, and a drain takes up to so many of their items, and then another takes others.
fn drains<'x, R: Abort + Wait + Clock>(
    rt: &R,
    alloc: Global,
    order: Order,
    max: u64,
    items: &'x [u64],
    others: &'x [u64],
) -> Result<(), Fail> {
    let steps = [
        Step::Asks(0, Ask::Give(10), Told::Parks(1)),
        Step::Asks(1, Ask::Give(20), Told::Parks(2)),
        Step::Asks(2, Ask::Give(30), Told::Parks(3)),
        Step::Drains(3, max, items),
        Step::Drains(3, 10, others),
        Step::Asks(0, Ask::Follow, Told::Done),
        Step::Asks(1, Ask::Follow, Told::Done),
        Step::Asks(2, Ask::Follow, Told::Done),
    ];
    happens(rt, alloc, order, &steps)
}

/// `drainTo` removes all available elements, whose threads go on: of a fair queue first in, first out.
#[test]
fn a_drain_of_a_fair_queue_takes_all(rt: HostRuntime) -> Result<(), Fail> {
    drains(&rt, rt.alloc(), Order::Fair, 10, &[10, 20, 30], &[])
}

/// `drainTo` removes all available elements, whose threads go on: here last in, first out.
#[test]
fn a_drain_of_an_unfair_queue_takes_all(rt: HostRuntime) -> Result<(), Fail> {
    drains(&rt, rt.alloc(), Order::Unfair, 10, &[30, 20, 10], &[])
}

/// `drainTo` with a maximum removes at most the given number of available elements.
#[test]
fn a_drain_takes_no_more_than_its_maximum(rt: HostRuntime) -> Result<(), Fail> {
    drains(&rt, rt.alloc(), Order::Fair, 2, &[10, 20], &[30])?;
    drains(&rt, rt.alloc(), Order::Unfair, 2, &[30, 20], &[10])
}

/// `drainTo` with a maximum of zero removes nothing, and those who wait to put wait on.
#[test]
fn a_drain_of_at_most_nothing_takes_nothing(rt: HostRuntime) -> Result<(), Fail> {
    drains(&rt, rt.alloc(), Order::Fair, 0, &[], &[10, 20, 30])?;
    drains(&rt, rt.alloc(), Order::Unfair, 0, &[], &[30, 20, 10])
}
