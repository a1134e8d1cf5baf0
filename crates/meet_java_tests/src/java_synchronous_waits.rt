//! What the documentation of `SynchronousQueue` says of those who wait, one or several: whom they meet, in which order,
//! and how they time out and are interrupted.

use crate::java_synchronous::{both, in_both};
use crate::whole::{Deal, is_cut, trade};
use meet_cells::ParkGate;
use meet_shop::{Ask, Call, Row, Step, Told, told};
use meet_tickets::Order;
use std::test::*;

/// There is no time to wait, and nobody is there; then a taker is.
const OFFER_AT_ONCE: [Step<'static>; 4] = [
    Step::Calls(0, Call::OfferFor(5, 0), Told::Failed(Some(5))),
    Step::Asks(1, Ask::Take, Told::Parks(2)),
    Step::Calls(0, Call::OfferFor(6, 0), Told::Gave(2)),
    Step::Asks(1, Ask::Follow, Told::Got(3, 6)),
];

/// `offer` with a time of zero inserts where another thread waits to receive, and else fails at once.
#[test]
fn an_offer_without_time_does_not_wait(rt: HostRuntime) -> Result<(), Fail> {
    in_both(&rt, rt.alloc(), &OFFER_AT_ONCE)
}

/// There is no time to wait, and nobody is there; then a giver is.
const POLL_AT_ONCE: [Step<'static>; 4] = [
    Step::Calls(0, Call::PollFor(0), Told::Failed(None)),
    Step::Asks(1, Ask::Give(5), Told::Parks(2)),
    Step::Calls(0, Call::PollFor(0), Told::Got(2, 5)),
    Step::Asks(1, Ask::Follow, Told::Done),
];

/// `poll` with a time of zero takes where another thread waits to insert, and else fails at once.
#[test]
fn a_poll_without_time_does_not_wait(rt: HostRuntime) -> Result<(), Fail> {
    in_both(&rt, rt.alloc(), &POLL_AT_ONCE)
}

/// Those who have a time find somebody who waits.
const TIMED_MEET: [Step<'static>; 6] = [
    Step::Asks(0, Ask::Take, Told::Parks(1)),
    Step::Calls(1, Call::OfferFor(5, 60_000), Told::Gave(1)),
    Step::Asks(0, Ask::Follow, Told::Got(2, 5)),
    Step::Asks(0, Ask::Give(6), Told::Parks(3)),
    Step::Calls(1, Call::PollFor(60_000), Told::Got(3, 6)),
    Step::Asks(0, Ask::Follow, Told::Done),
];

/// `offer` and `poll` with a time wait only if necessary.
#[test]
fn timed_calls_do_not_wait_where_another_does(rt: HostRuntime) -> Result<(), Fail> {
    in_both(&rt, rt.alloc(), &TIMED_MEET)
}

/// A giver and a taker were met as their time ran out.
const IN_TIME: [Row; 8] = [
    (0, Ask::Give(5), Told::Parks(1)),
    (1, Ask::Take, Told::Got(1, 5)),
    (0, Ask::Expire, Told::Late),
    (0, Ask::Follow, Told::Done),
    (0, Ask::Take, Told::Parks(3)),
    (1, Ask::Offer(6), Told::Gave(3)),
    (0, Ask::Expire, Told::Late),
    (0, Ask::Follow, Told::Got(4, 6)),
];

/// `offer` and `poll` with a time succeed where another thread appeared before that elapsed.
#[test]
fn who_was_met_does_not_time_out(rt: HostRuntime) -> Result<(), Fail> {
    both(&rt, rt.alloc(), &IN_TIME, 6)
}

/// Two givers wait, and a fair queue has one taken after the other.
const FAIR_GIVERS: [Row; 8] = [
    (0, Ask::Give(10), Told::Parks(1)),
    (1, Ask::Give(20), Told::Parks(2)),
    (2, Ask::Take, Told::Got(1, 10)),
    (0, Ask::Follow, Told::Done),
    (1, Ask::Follow, Told::NotYet),
    (2, Ask::Take, Told::Got(2, 20)),
    (1, Ask::Follow, Told::Done),
    (2, Ask::Poll, Told::Failed(None)),
];

/// `SynchronousQueue(true)` has waiting threads put first in, first out.
#[test]
fn a_fair_queue_meets_the_first_put(rt: HostRuntime) -> Result<(), Fail> {
    told(&rt, rt.alloc(), Order::Fair, &FAIR_GIVERS, 7)
}

/// Two takers wait, and a fair queue has one served after the other.
const FAIR_TAKERS: [Row; 8] = [
    (0, Ask::Take, Told::Parks(1)),
    (1, Ask::Take, Told::Parks(2)),
    (2, Ask::Give(10), Told::Gave(1)),
    (1, Ask::Follow, Told::NotYet),
    (0, Ask::Follow, Told::Got(3, 10)),
    (2, Ask::Offer(20), Told::Gave(2)),
    (1, Ask::Follow, Told::Got(4, 20)),
    (2, Ask::Offer(30), Told::Failed(Some(30))),
];

/// `SynchronousQueue(true)` has waiting threads take first in, first out.
#[test]
fn a_fair_queue_meets_the_first_take(rt: HostRuntime) -> Result<(), Fail> {
    told(&rt, rt.alloc(), Order::Fair, &FAIR_TAKERS, 7)
}

/// Two givers wait, and the one who came last is met first.
const UNFAIR_GIVERS: [Row; 7] = [
    (0, Ask::Give(10), Told::Parks(1)),
    (1, Ask::Give(20), Told::Parks(2)),
    (2, Ask::Take, Told::Got(2, 20)),
    (0, Ask::Follow, Told::NotYet),
    (1, Ask::Follow, Told::Done),
    (2, Ask::Take, Told::Got(1, 10)),
    (0, Ask::Follow, Told::Done),
];

/// `SynchronousQueue()` specifies no order of waiting threads: here those who put are met last in, first out.
#[test]
fn an_unfair_queue_meets_the_last_put(rt: HostRuntime) -> Result<(), Fail> {
    told(&rt, rt.alloc(), Order::Unfair, &UNFAIR_GIVERS, 6)
}

/// Two takers wait, and the one who came last is met first.
const UNFAIR_TAKERS: [Row; 7] = [
    (0, Ask::Take, Told::Parks(1)),
    (1, Ask::Take, Told::Parks(2)),
    (2, Ask::Give(10), Told::Gave(2)),
    (0, Ask::Follow, Told::NotYet),
    (1, Ask::Follow, Told::Got(3, 10)),
    (2, Ask::Offer(20), Told::Gave(1)),
    (0, Ask::Follow, Told::Got(4, 20)),
];

/// `SynchronousQueue()` specifies no order of waiting threads: here those who take are met last in, first out.
#[test]
fn an_unfair_queue_meets_the_last_take(rt: HostRuntime) -> Result<(), Fail> {
    told(&rt, rt.alloc(), Order::Unfair, &UNFAIR_TAKERS, 6)
}

/// One gives up before and behind another that waits, whom a poll meets.
const GIVES_UP: [Row; 8] = [
    (0, Ask::Give(10), Told::Parks(1)),
    (1, Ask::Give(20), Told::Parks(2)),
    (0, Ask::Expire, Told::Back(Some(10))),
    (0, Ask::Give(30), Told::Parks(3)),
    (0, Ask::Expire, Told::Back(Some(30))),
    (2, Ask::Poll, Told::Got(2, 20)),
    (2, Ask::Poll, Told::Failed(None)),
    (1, Ask::Follow, Told::Done),
];

/// `offer` with a time that has elapsed leaves nothing before or behind the element of another that waits.
#[test]
fn who_times_out_leaves_the_others(rt: HostRuntime) -> Result<(), Fail> {
    both(&rt, rt.alloc(), &GIVES_UP, 8)
}

/// A take is interrupted where it waits.
const TAKE_IS_CUT: [Row; 5] = [
    (0, Ask::Take, Told::Parks(1)),
    (1, Ask::Interrupt(0), Told::Cut(1)),
    (2, Ask::Give(4), Told::Parks(2)),
    (0, Ask::Follow, Told::WasCut(None)),
    (2, Ask::Expire, Told::Back(Some(4))),
];

/// `take` that is interrupted while waiting ends so, and the next put finds nobody.
#[test]
fn an_interrupted_take_takes_nothing(rt: HostRuntime) -> Result<(), Fail> {
    both(&rt, rt.alloc(), &TAKE_IS_CUT, 5)
}

/// A put is interrupted where it waits.
const PUT_IS_CUT: [Row; 5] = [
    (0, Ask::Give(5), Told::Parks(1)),
    (1, Ask::Interrupt(0), Told::Cut(1)),
    (2, Ask::Poll, Told::Failed(None)),
    (0, Ask::Follow, Told::WasCut(Some(5))),
    (0, Ask::Offer(5), Told::Failed(Some(5))),
];

/// `put` that is interrupted while waiting ends so, and the next poll finds nobody.
#[test]
fn an_interrupted_put_gives_nothing(rt: HostRuntime) -> Result<(), Fail> {
    both(&rt, rt.alloc(), &PUT_IS_CUT, 5)
}

/// The middle one of three that wait is interrupted, and the others are met.
const CUT_BETWEEN: [Step<'static>; 7] = [
    Step::Asks(0, Ask::Give(10), Told::Parks(1)),
    Step::Asks(1, Ask::Give(20), Told::Parks(2)),
    Step::Asks(2, Ask::Give(30), Told::Parks(3)),
    Step::Asks(3, Ask::Interrupt(1), Told::Cut(2)),
    Step::Asks(1, Ask::Follow, Told::WasCut(Some(20))),
    Step::Asks(2, Ask::Cancel, Told::Back(Some(30))),
    Step::Asks(0, Ask::Cancel, Told::Back(Some(10))),
];

/// `put` that is interrupted ends alone: others that wait to put wait on.
#[test]
fn an_interrupted_put_leaves_the_others(rt: HostRuntime) -> Result<(), Fail> {
    in_both(&rt, rt.alloc(), &CUT_BETWEEN)
}

/// A seat is interrupted that doesn't wait, and then gives; the next time it waits.
pub const PUT_IS_STOPPED: [Row; 5] = [
    (1, Ask::Interrupt(0), Told::Flagged),
    (0, Ask::Give(5), Told::Stopped(Some(5))),
    (1, Ask::Poll, Told::Failed(None)),
    (0, Ask::Give(6), Told::Parks(3)),
    (0, Ask::Cancel, Told::Back(Some(6))),
];

/// `Thread.interrupt` of a thread that doesn't wait is seen, and cleared, by its next `put` that would wait.
#[test]
fn an_interrupt_is_seen_by_the_next_put(rt: HostRuntime) -> Result<(), Fail> {
    both(&rt, rt.alloc(), &PUT_IS_STOPPED, 5)
}

/// A seat is interrupted twice that doesn't wait, and then takes; the next time it waits.
pub const TAKE_IS_STOPPED: [Row; 5] = [
    (1, Ask::Interrupt(0), Told::Flagged),
    (1, Ask::Interrupt(0), Told::Flagged),
    (0, Ask::Take, Told::Stopped(None)),
    (0, Ask::Take, Told::Parks(2)),
    (0, Ask::Cancel, Told::Back(None)),
];

/// `Thread.interrupt` sets a status, once or twice alike, which the next `take` that would wait sees and clears.
#[test]
fn an_interrupt_is_seen_by_the_next_take(rt: HostRuntime) -> Result<(), Fail> {
    both(&rt, rt.alloc(), &TAKE_IS_STOPPED, 5)
}

/// A seat is interrupted that doesn't wait, and makes calls that never do; then it would wait.
const NEVER_STOPPED: [Row; 5] = [
    (1, Ask::Interrupt(0), Told::Flagged),
    (0, Ask::Offer(5), Told::Failed(Some(5))),
    (0, Ask::Poll, Told::Failed(None)),
    (0, Ask::Take, Told::Stopped(None)),
    (0, Ask::Poll, Told::Failed(None)),
];

/// `offer` and `poll` never throw `InterruptedException`, and leave the status as it was.
#[test]
fn an_interrupt_stops_no_call_that_never_waits(rt: HostRuntime) -> Result<(), Fail> {
    both(&rt, rt.alloc(), &NEVER_STOPPED, 5)
}

/// A seat is interrupted that doesn't wait, and gives to a taker that does; then it would wait.
const NOT_STOPPED: [Row; 5] = [
    (1, Ask::Take, Told::Parks(1)),
    (2, Ask::Interrupt(0), Told::Flagged),
    (0, Ask::Give(5), Told::Gave(1)),
    (1, Ask::Follow, Told::Got(2, 5)),
    (0, Ask::Give(6), Told::Stopped(Some(6))),
];

/// `put` throws `InterruptedException` where it is interrupted while waiting, and so not where it needn't wait.
#[test]
fn an_interrupt_stops_no_put_that_need_not_wait(rt: HostRuntime) -> Result<(), Fail> {
    both(&rt, rt.alloc(), &NOT_STOPPED, 5)
}

/// A thread offers, and another polls, each within a time: `offer` and `poll` with a time meet.
#[test]
fn an_offer_and_a_poll_of_two_threads_meet(rt: HostRuntime) -> Result<(), Fail> {
    let pair = Deal::Pair(Call::OfferFor(9, 60_000), Call::PollFor(60_000));
    let fair = trade::<ParkGate, _>(&rt, rt.alloc(), Order::Fair, pair)?;
    assert_eq!(rt; fair, (1, 9, 3));
    let unfair = trade::<ParkGate, _>(&rt, rt.alloc(), Order::Unfair, pair)?;
    assert_eq!(rt; unfair, (1, 9, 3));
    Ok(())
}

/// `offer` with a time throws `InterruptedException` where it is interrupted while waiting; its item comes back.
#[test]
fn a_timed_offer_of_a_thread_is_interrupted(rt: HostRuntime) -> Result<(), Fail> {
    let call = Call::OfferFor(9, 60_000);
    is_cut(&rt, rt.alloc(), Order::Fair, call, Some(9))?;
    is_cut(&rt, rt.alloc(), Order::Unfair, call, Some(9))
}

/// `poll` with a time throws `InterruptedException` where it is interrupted while waiting.
#[test]
fn a_timed_poll_of_a_thread_is_interrupted(rt: HostRuntime) -> Result<(), Fail> {
    let call = Call::PollFor(60_000);
    is_cut(&rt, rt.alloc(), Order::Fair, call, None)?;
    is_cut(&rt, rt.alloc(), Order::Unfair, call, None)
}
