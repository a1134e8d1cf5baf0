//! What the documentation of `LinkedTransferQueue` says of calls that never wait, of drains and of probes.

use crate::java_synchronous::DRAINS_NOTHING;
use meet_shop::{Ask, Call, Probe, Row, Step, Told, happens, told};
use meet_tickets::Order;
use std::alloc::Global;
use std::process::Abort;
use std::sync::Wait;
use std::test::*;
use std::time::Clock;

/// Seats ask a transfer queue, and it has so many records then.
pub fn asked<R: Abort + Wait>(
    rt: &R,
    alloc: Global,
    rows: &[Row],
    records: usize,
) -> Result<(), Fail> {
    told(rt, alloc, Order::Transfer, rows, records)
}

/// Steps are made at a transfer queue.
pub fn done<R: Abort + Wait + Clock>(
    rt: &R,
    alloc: Global,
    steps: &[Step<'_>],
) -> Result<(), Fail> {
    happens(rt, alloc, Order::Transfer, steps)
}

/// Nobody takes what is put.
const PUT: [Step<'static>; 4] = [
    Step::Calls(0, Call::Put(1), Told::Kept),
    Step::Calls(0, Call::Put(2), Told::Kept),
    Step::Shows(Probe::Size(2)),
    Step::Drains(1, 10, &[1, 2]),
];

/// `put` inserts at the tail, and never blocks.
#[test]
fn a_put_is_kept_at_once(rt: HostRuntime) -> Result<(), Fail> {
    done(&rt, rt.alloc(), &PUT)
}

/// Nobody takes what is offered.
const OFFER: [Step<'static>; 4] = [
    Step::Calls(0, Call::Offer(1), Told::Kept),
    Step::Calls(1, Call::Offer(2), Told::Kept),
    Step::Shows(Probe::Size(2)),
    Step::Drains(1, 10, &[1, 2]),
];

/// `offer` inserts at the tail, and never returns false.
#[test]
fn an_offer_is_kept_at_once(rt: HostRuntime) -> Result<(), Fail> {
    done(&rt, rt.alloc(), &OFFER)
}

/// Nobody takes what is offered with a time.
const TIMED_OFFER: [Step<'static>; 4] = [
    Step::Calls(0, Call::OfferFor(1, 60_000), Told::Kept),
    Step::Calls(0, Call::OfferFor(2, 0), Told::Kept),
    Step::Shows(Probe::Size(2)),
    Step::Drains(1, 10, &[1, 2]),
];

/// `offer` with a time inserts at the tail, and never blocks or returns false.
#[test]
fn a_timed_offer_is_kept_at_once(rt: HostRuntime) -> Result<(), Fail> {
    done(&rt, rt.alloc(), &TIMED_OFFER)
}

/// Three items are put by two seats, and taken.
const IN_ORDER: [Row; 7] = [
    (0, Ask::Put(10), Told::Kept),
    (1, Ask::Put(20), Told::Kept),
    (0, Ask::Put(30), Told::Kept),
    (2, Ask::Poll, Told::Got(1, 10)),
    (3, Ask::Poll, Told::Got(2, 20)),
    (2, Ask::Poll, Told::Got(3, 30)),
    (2, Ask::Poll, Told::Failed(None)),
];

/// `poll` takes the head, which has been on the queue the longest time, or returns null where there is none.
#[test]
fn polls_take_first_in_first_out(rt: HostRuntime) -> Result<(), Fail> {
    asked(&rt, rt.alloc(), &IN_ORDER, 7)
}

/// Two items are there for two takes.
const TAKES: [Row; 6] = [
    (0, Ask::Put(10), Told::Kept),
    (0, Ask::Put(20), Told::Kept),
    (1, Ask::Take, Told::Got(1, 10)),
    (1, Ask::Take, Told::Got(2, 20)),
    (1, Ask::Take, Told::Parks(5)),
    (1, Ask::Cancel, Told::Back(None)),
];

/// `take` waits only where no element is available, and takes the head.
#[test]
fn a_take_of_a_nonempty_queue_does_not_wait(rt: HostRuntime) -> Result<(), Fail> {
    asked(&rt, rt.alloc(), &TAKES, 6)
}

/// Nobody takes what is to be handed over.
const TRY: [Step<'static>; 5] = [
    Step::Calls(0, Call::TryTransfer(5), Told::Failed(Some(5))),
    Step::Shows(Probe::Size(0)),
    Step::Calls(1, Call::Put(6), Told::Kept),
    Step::Calls(0, Call::TryTransfer(7), Told::Failed(Some(7))),
    Step::Drains(1, 10, &[6]),
];

/// `tryTransfer` returns false without enqueuing the element, where no consumer waits.
#[test]
fn a_try_without_a_consumer_keeps_nothing(rt: HostRuntime) -> Result<(), Fail> {
    done(&rt, rt.alloc(), &TRY)
}

/// A taker waits for what is handed over.
const TRY_REACHES: [Step<'static>; 4] = [
    Step::Asks(0, Ask::Take, Told::Parks(1)),
    Step::Calls(1, Call::TryTransfer(5), Told::Gave(1)),
    Step::Calls(1, Call::TryTransfer(6), Told::Failed(Some(6))),
    Step::Asks(0, Ask::Follow, Told::Got(2, 5)),
];

/// `tryTransfer` transfers at once where a consumer already waits, once for each that does.
#[test]
fn a_try_reaches_a_consumer_that_waits(rt: HostRuntime) -> Result<(), Fail> {
    done(&rt, rt.alloc(), &TRY_REACHES)
}

/// Items come and go, and so do those who wait.
const SIZES: [Step<'static>; 13] = [
    Step::Shows(Probe::Size(0)),
    Step::Calls(0, Call::Put(1), Told::Kept),
    Step::Shows(Probe::Size(1)),
    Step::Asks(1, Ask::Give(2), Told::Parks(2)),
    Step::Shows(Probe::Size(2)),
    Step::Calls(2, Call::Poll, Told::Got(1, 1)),
    Step::Shows(Probe::Size(1)),
    Step::Calls(2, Call::Take, Told::Got(2, 2)),
    Step::Shows(Probe::Size(0)),
    Step::Asks(1, Ask::Follow, Told::Done),
    Step::Asks(2, Ask::Take, Told::Parks(5)),
    Step::Shows(Probe::Size(0)),
    Step::Asks(2, Ask::Cancel, Told::Back(None)),
];

/// `size` tells the number of elements, also of those that wait to be transferred.
#[test]
fn its_size_counts_elements(rt: HostRuntime) -> Result<(), Fail> {
    done(&rt, rt.alloc(), &SIZES)
}

/// An item comes and goes; then a taker waits.
const EMPTY: [Step<'static>; 8] = [
    Step::Shows(Probe::IsEmpty(true)),
    Step::Calls(0, Call::Put(1), Told::Kept),
    Step::Shows(Probe::IsEmpty(false)),
    Step::Calls(1, Call::Poll, Told::Got(1, 1)),
    Step::Shows(Probe::IsEmpty(true)),
    Step::Asks(1, Ask::Take, Told::Parks(3)),
    Step::Shows(Probe::IsEmpty(true)),
    Step::Asks(1, Ask::Cancel, Told::Back(None)),
];

/// `isEmpty` returns true where the queue contains no elements.
#[test]
fn it_is_empty_without_elements(rt: HostRuntime) -> Result<(), Fail> {
    done(&rt, rt.alloc(), &EMPTY)
}

/// The first of two items is looked at, and taken.
const PEEKS: [Step<'static>; 10] = [
    Step::Shows(Probe::Peek(None)),
    Step::Calls(0, Call::Put(1), Told::Kept),
    Step::Calls(0, Call::Put(2), Told::Kept),
    Step::Shows(Probe::Peek(Some(1))),
    Step::Shows(Probe::Peek(Some(1))),
    Step::Shows(Probe::Size(2)),
    Step::Calls(1, Call::Poll, Told::Got(1, 1)),
    Step::Shows(Probe::Peek(Some(2))),
    Step::Calls(1, Call::Poll, Told::Got(2, 2)),
    Step::Shows(Probe::Peek(None)),
];

/// `peek` retrieves the head, but doesn't remove it, and returns null of an empty queue.
#[test]
fn a_peek_shows_the_head_and_takes_nothing(rt: HostRuntime) -> Result<(), Fail> {
    done(&rt, rt.alloc(), &PEEKS)
}

/// A transfer waits, and is looked at.
const PEEKS_TRANSFER: [Step<'static>; 5] = [
    Step::Asks(0, Ask::Give(5), Told::Parks(1)),
    Step::Shows(Probe::Peek(Some(5))),
    Step::Asks(0, Ask::Follow, Told::NotYet),
    Step::Asks(0, Ask::Cancel, Told::Back(Some(5))),
    Step::Shows(Probe::Peek(None)),
];

/// `peek` doesn't receive the element of a transfer that waits.
#[test]
fn a_peek_leaves_a_transfer_waiting(rt: HostRuntime) -> Result<(), Fail> {
    done(&rt, rt.alloc(), &PEEKS_TRANSFER)
}

/// Items come, and there is as much room as before.
const ROOM: [Step<'static>; 5] = [
    Step::Shows(Probe::Remaining(2_147_483_647)),
    Step::Calls(0, Call::Put(1), Told::Kept),
    Step::Calls(0, Call::Offer(2), Told::Kept),
    Step::Shows(Probe::Remaining(2_147_483_647)),
    Step::Drains(1, 2, &[1, 2]),
];

/// `remainingCapacity` always returns `Integer.MAX_VALUE`.
#[test]
fn its_remaining_capacity_is_always_the_same(rt: HostRuntime) -> Result<(), Fail> {
    done(&rt, rt.alloc(), &ROOM)
}

/// Two takers come to wait; one is served, and the other gives up.
const CONSUMERS: [Step<'static>; 11] = [
    Step::Shows(Probe::Consumers(0)),
    Step::Asks(0, Ask::Take, Told::Parks(1)),
    Step::Shows(Probe::Consumers(1)),
    Step::Asks(1, Ask::Take, Told::Parks(2)),
    Step::Shows(Probe::Consumers(2)),
    Step::Calls(2, Call::Put(5), Told::Gave(1)),
    Step::Shows(Probe::Consumers(1)),
    Step::Asks(1, Ask::Expire, Told::Back(None)),
    Step::Shows(Probe::Consumers(0)),
    Step::Asks(0, Ask::Follow, Told::Got(3, 5)),
    Step::Shows(Probe::Consumers(0)),
];

/// `getWaitingConsumerCount` tells how many consumers wait in `take` or timed `poll`.
#[test]
fn waiting_consumers_are_counted(rt: HostRuntime) -> Result<(), Fail> {
    done(&rt, rt.alloc(), &CONSUMERS)
}

/// A giver waits, which is no consumer; then a taker does.
const CONSUMER: [Step<'static>; 9] = [
    Step::Shows(Probe::HasConsumer(false)),
    Step::Asks(0, Ask::Give(5), Told::Parks(1)),
    Step::Shows(Probe::HasConsumer(false)),
    Step::Calls(1, Call::Poll, Told::Got(1, 5)),
    Step::Asks(0, Ask::Follow, Told::Done),
    Step::Asks(1, Ask::Take, Told::Parks(3)),
    Step::Shows(Probe::HasConsumer(true)),
    Step::Asks(1, Ask::Expire, Told::Back(None)),
    Step::Shows(Probe::HasConsumer(false)),
];

/// `hasWaitingConsumer` returns true where at least one consumer waits.
#[test]
fn a_waiting_consumer_is_told(rt: HostRuntime) -> Result<(), Fail> {
    done(&rt, rt.alloc(), &CONSUMER)
}

/// `drainTo` removes available elements, and there are none in an empty queue.
#[test]
fn a_drain_of_an_empty_queue_takes_nothing(rt: HostRuntime) -> Result<(), Fail> {
    done(&rt, rt.alloc(), &DRAINS_NOTHING)
}

/// A drain takes all, and then what came after it.
const DRAINS_ALL: [Step<'static>; 8] = [
    Step::Calls(0, Call::Put(1), Told::Kept),
    Step::Calls(1, Call::Put(2), Told::Kept),
    Step::Calls(0, Call::Put(3), Told::Kept),
    Step::Drains(2, 10, &[1, 2, 3]),
    Step::Shows(Probe::Size(0)),
    Step::Calls(0, Call::Put(4), Told::Kept),
    Step::Drains(2, 10, &[4]),
    Step::Shows(Probe::IsEmpty(true)),
];

/// `drainTo` removes all available elements, the head first.
#[test]
fn a_drain_takes_all_in_order(rt: HostRuntime) -> Result<(), Fail> {
    done(&rt, rt.alloc(), &DRAINS_ALL)
}

/// A drain takes two of three, none, and the rest.
const DRAINS_SOME: [Step<'static>; 8] = [
    Step::Calls(0, Call::Put(1), Told::Kept),
    Step::Calls(0, Call::Put(2), Told::Kept),
    Step::Calls(0, Call::Put(3), Told::Kept),
    Step::Drains(1, 2, &[1, 2]),
    Step::Shows(Probe::Size(1)),
    Step::Drains(1, 0, &[]),
    Step::Shows(Probe::Peek(Some(3))),
    Step::Drains(1, 2, &[3]),
];

/// `drainTo` with a maximum removes at most the given number of available elements.
#[test]
fn a_drain_takes_no_more_than_its_maximum(rt: HostRuntime) -> Result<(), Fail> {
    done(&rt, rt.alloc(), &DRAINS_SOME)
}

/// A drain meets a put and two transfers.
const DRAINS_TRANSFERS: [Step<'static>; 6] = [
    Step::Asks(0, Ask::Give(1), Told::Parks(1)),
    Step::Calls(2, Call::Put(2), Told::Kept),
    Step::Asks(1, Ask::Give(3), Told::Parks(3)),
    Step::Drains(2, 10, &[1, 2, 3]),
    Step::Asks(0, Ask::Follow, Told::Done),
    Step::Asks(1, Ask::Follow, Told::Done),
];

/// `drainTo` removes elements of transfers that wait, which go on, since they were received.
#[test]
fn a_drain_lets_transfers_go_on(rt: HostRuntime) -> Result<(), Fail> {
    done(&rt, rt.alloc(), &DRAINS_TRANSFERS)
}
