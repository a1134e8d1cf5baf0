//! What the documentation of `LinkedTransferQueue` says of calls that wait, that time out, and that are interrupted.

use crate::java_synchronous::PUT_WAITS;
use crate::java_synchronous_waits::{PUT_IS_STOPPED, TAKE_IS_STOPPED};
use crate::java_transfer::{asked, done};
use crate::whole::{Deal, is_cut, trade};
use meet_cells::ParkGate;
use meet_shop::{Ask, Call, Probe, Row, Step, Told};
use meet_tickets::Order;
use std::test::*;

/// A taker waits for what is put.
const TAKE_WAITS: [Row; 5] = [
    (0, Ask::Take, Told::Parks(1)),
    (0, Ask::Follow, Told::NotYet),
    (1, Ask::Put(5), Told::Gave(1)),
    (0, Ask::Follow, Told::Got(2, 5)),
    (1, Ask::Poll, Told::Failed(None)),
];

/// `take` waits until an element becomes available, and takes it.
#[test]
fn a_take_waits_for_a_put(rt: HostRuntime) -> Result<(), Fail> {
    asked(&rt, rt.alloc(), &TAKE_WAITS, 4)
}

/// Three takers wait, and three items come.
const TAKERS: [Row; 9] = [
    (0, Ask::Take, Told::Parks(1)),
    (1, Ask::Take, Told::Parks(2)),
    (2, Ask::Take, Told::Parks(3)),
    (3, Ask::Put(10), Told::Gave(1)),
    (3, Ask::Offer(20), Told::Gave(2)),
    (3, Ask::Give(30), Told::Gave(3)),
    (2, Ask::Follow, Told::Got(6, 30)),
    (0, Ask::Follow, Told::Got(4, 10)),
    (1, Ask::Follow, Told::Got(5, 20)),
];

/// Of several that wait in `take`, each insertion is received by the one that has waited longest.
#[test]
fn waiting_takes_are_served_in_their_order(rt: HostRuntime) -> Result<(), Fail> {
    asked(&rt, rt.alloc(), &TAKERS, 9)
}

/// `transfer` waits until its element is received by a consumer.
#[test]
fn a_transfer_waits_for_a_take(rt: HostRuntime) -> Result<(), Fail> {
    asked(&rt, rt.alloc(), &PUT_WAITS, 4)
}

/// A taker waits already.
const TRANSFER_REACHES: [Row; 3] = [
    (0, Ask::Take, Told::Parks(1)),
    (1, Ask::Give(5), Told::Gave(1)),
    (0, Ask::Follow, Told::Got(2, 5)),
];

/// `transfer` transfers immediately where a consumer already waits.
#[test]
fn a_transfer_does_not_wait_where_a_consumer_does(rt: HostRuntime) -> Result<(), Fail> {
    asked(&rt, rt.alloc(), &TRANSFER_REACHES, 3)
}

/// Two items were put before a transfer.
const TRANSFER_BEHIND: [Row; 8] = [
    (0, Ask::Put(1), Told::Kept),
    (0, Ask::Put(2), Told::Kept),
    (1, Ask::Give(3), Told::Parks(3)),
    (2, Ask::Poll, Told::Got(1, 1)),
    (2, Ask::Poll, Told::Got(2, 2)),
    (1, Ask::Follow, Told::NotYet),
    (2, Ask::Poll, Told::Got(3, 3)),
    (1, Ask::Follow, Told::Done),
];

/// `transfer` inserts at the tail, and so is received after what was put before.
#[test]
fn a_transfer_waits_behind_what_is_kept(rt: HostRuntime) -> Result<(), Fail> {
    asked(&rt, rt.alloc(), &TRANSFER_BEHIND, 7)
}

/// An item is put after a transfer.
const PUT_BEHIND: [Row; 5] = [
    (0, Ask::Give(1), Told::Parks(1)),
    (1, Ask::Put(2), Told::Kept),
    (2, Ask::Poll, Told::Got(1, 1)),
    (2, Ask::Poll, Told::Got(2, 2)),
    (0, Ask::Follow, Told::Done),
];

/// `put` inserts at the tail, and so is received after a transfer that waits.
#[test]
fn a_put_is_kept_behind_a_transfer(rt: HostRuntime) -> Result<(), Fail> {
    asked(&rt, rt.alloc(), &PUT_BEHIND, 5)
}

/// Nobody takes within the time, with nothing there and with an item there.
const TRANSFER_TIMES_OUT: [Step<'static>; 6] = [
    Step::Calls(0, Call::TransferFor(5, 1), Told::TimedOut(Some(5))),
    Step::Shows(Probe::Size(0)),
    Step::Calls(1, Call::Put(6), Told::Kept),
    Step::Calls(0, Call::TransferFor(7, 1), Told::TimedOut(Some(7))),
    Step::Shows(Probe::Size(1)),
    Step::Drains(1, 10, &[6]),
];

/// `tryTransfer` with a time returns false once that has elapsed, and its element is not left enqueued.
#[test]
fn a_timed_transfer_times_out(rt: HostRuntime) -> Result<(), Fail> {
    done(&rt, rt.alloc(), &TRANSFER_TIMES_OUT)
}

/// There is no time to wait.
const TRANSFER_AT_ONCE: [Step<'static>; 5] = [
    Step::Calls(0, Call::TransferFor(5, 0), Told::Failed(Some(5))),
    Step::Shows(Probe::Size(0)),
    Step::Asks(1, Ask::Take, Told::Parks(2)),
    Step::Calls(0, Call::TransferFor(6, 0), Told::Gave(2)),
    Step::Asks(1, Ask::Follow, Told::Got(3, 6)),
];

/// `tryTransfer` with a time of zero transfers to a consumer that waits, and else returns false at once.
#[test]
fn a_transfer_without_time_does_not_wait(rt: HostRuntime) -> Result<(), Fail> {
    done(&rt, rt.alloc(), &TRANSFER_AT_ONCE)
}

/// A taker waits for what is transferred within a time.
const TIMED_TRANSFER: [Step<'static>; 3] = [
    Step::Asks(0, Ask::Take, Told::Parks(1)),
    Step::Calls(1, Call::TransferFor(5, 60_000), Told::Gave(1)),
    Step::Asks(0, Ask::Follow, Told::Got(2, 5)),
];

/// `tryTransfer` with a time transfers immediately where a consumer already waits.
#[test]
fn a_timed_transfer_reaches_a_consumer(rt: HostRuntime) -> Result<(), Fail> {
    done(&rt, rt.alloc(), &TIMED_TRANSFER)
}

/// A transfer was received as its time ran out.
const TRANSFER_IN_TIME: [Row; 4] = [
    (0, Ask::Give(5), Told::Parks(1)),
    (1, Ask::Take, Told::Got(1, 5)),
    (0, Ask::Expire, Told::Late),
    (0, Ask::Follow, Told::Done),
];

/// `tryTransfer` with a time returns true where its element was received before that elapsed.
#[test]
fn a_transfer_that_was_received_does_not_time_out(rt: HostRuntime) -> Result<(), Fail> {
    asked(&rt, rt.alloc(), &TRANSFER_IN_TIME, 3)
}

/// Nothing is there within the time; what comes then is kept.
const POLL_TIMES_OUT: [Step<'static>; 4] = [
    Step::Calls(0, Call::PollFor(1), Told::TimedOut(None)),
    Step::Shows(Probe::HasConsumer(false)),
    Step::Calls(1, Call::Put(5), Told::Kept),
    Step::Calls(0, Call::PollFor(60_000), Told::Got(2, 5)),
];

/// `poll` with a time returns null once that has elapsed, and takes at once what is available.
#[test]
fn a_timed_poll_times_out(rt: HostRuntime) -> Result<(), Fail> {
    done(&rt, rt.alloc(), &POLL_TIMES_OUT)
}

/// There is no time to wait.
const POLL_AT_ONCE: [Step<'static>; 4] = [
    Step::Calls(0, Call::PollFor(0), Told::Failed(None)),
    Step::Calls(1, Call::Put(5), Told::Kept),
    Step::Calls(0, Call::PollFor(0), Told::Got(2, 5)),
    Step::Calls(0, Call::PollFor(0), Told::Failed(None)),
];

/// `poll` with a time of zero takes what is available, and else returns null at once.
#[test]
fn a_poll_without_time_does_not_wait(rt: HostRuntime) -> Result<(), Fail> {
    done(&rt, rt.alloc(), &POLL_AT_ONCE)
}

/// A transfer is interrupted where it waits.
const TRANSFER_IS_CUT: [Step<'static>; 5] = [
    Step::Asks(0, Ask::Give(5), Told::Parks(1)),
    Step::Asks(1, Ask::Interrupt(0), Told::Cut(1)),
    Step::Shows(Probe::Size(0)),
    Step::Calls(1, Call::Poll, Told::Failed(None)),
    Step::Asks(0, Ask::Follow, Told::WasCut(Some(5))),
];

/// `transfer` that is interrupted while waiting doesn't leave its element enqueued.
#[test]
fn an_interrupted_transfer_leaves_nothing(rt: HostRuntime) -> Result<(), Fail> {
    done(&rt, rt.alloc(), &TRANSFER_IS_CUT)
}

/// A transfer between two puts is interrupted.
const CUT_BETWEEN: [Step<'static>; 6] = [
    Step::Calls(1, Call::Put(1), Told::Kept),
    Step::Asks(0, Ask::Give(2), Told::Parks(2)),
    Step::Calls(1, Call::Put(3), Told::Kept),
    Step::Asks(1, Ask::Interrupt(0), Told::Cut(2)),
    Step::Asks(0, Ask::Follow, Told::WasCut(Some(2))),
    Step::Drains(1, 10, &[1, 3]),
];

/// `transfer` that is interrupted leaves the elements of others in their order.
#[test]
fn an_interrupted_transfer_leaves_what_others_put(rt: HostRuntime) -> Result<(), Fail> {
    done(&rt, rt.alloc(), &CUT_BETWEEN)
}

/// A take is interrupted where it waits; what comes then is kept.
const TAKE_IS_CUT: [Row; 5] = [
    (0, Ask::Take, Told::Parks(1)),
    (1, Ask::Interrupt(0), Told::Cut(1)),
    (2, Ask::Put(5), Told::Kept),
    (0, Ask::Follow, Told::WasCut(None)),
    (0, Ask::Take, Told::Got(2, 5)),
];

/// `take` that is interrupted while waiting takes nothing, and its thread may take again.
#[test]
fn an_interrupted_take_takes_nothing(rt: HostRuntime) -> Result<(), Fail> {
    asked(&rt, rt.alloc(), &TAKE_IS_CUT, 5)
}

/// The first of two takers is interrupted, and an item comes.
const FIRST_IS_CUT: [Row; 6] = [
    (0, Ask::Take, Told::Parks(1)),
    (1, Ask::Take, Told::Parks(2)),
    (2, Ask::Interrupt(0), Told::Cut(1)),
    (2, Ask::Put(5), Told::Gave(2)),
    (0, Ask::Follow, Told::WasCut(None)),
    (1, Ask::Follow, Told::Got(3, 5)),
];

/// `take` that is interrupted ends alone: the next insertion is received by another that waits.
#[test]
fn an_interrupted_take_leaves_the_others(rt: HostRuntime) -> Result<(), Fail> {
    asked(&rt, rt.alloc(), &FIRST_IS_CUT, 6)
}

/// `Thread.interrupt` sets a status, once or twice alike, which the next `take` that would wait sees and clears.
#[test]
fn an_interrupt_is_seen_by_the_next_take(rt: HostRuntime) -> Result<(), Fail> {
    asked(&rt, rt.alloc(), &TAKE_IS_STOPPED, 5)
}

/// `Thread.interrupt` of a thread that doesn't wait is seen, and cleared, by its next `transfer` that would wait.
#[test]
fn an_interrupt_is_seen_by_the_next_transfer(rt: HostRuntime) -> Result<(), Fail> {
    asked(&rt, rt.alloc(), &PUT_IS_STOPPED, 5)
}

/// A seat is interrupted that doesn't wait, and makes calls that never do.
const NEVER_STOPPED: [Step<'static>; 6] = [
    Step::Asks(1, Ask::Interrupt(0), Told::Flagged),
    Step::Calls(0, Call::Put(1), Told::Kept),
    Step::Calls(0, Call::OfferFor(2, 60_000), Told::Kept),
    Step::Calls(0, Call::TryTransfer(3), Told::Failed(Some(3))),
    Step::Drains(0, 10, &[1, 2]),
    Step::Calls(0, Call::Take, Told::Stopped(None)),
];

/// `put`, `offer`, `tryTransfer` and `drainTo` never throw `InterruptedException`, and leave the status as it was.
#[test]
fn an_interrupt_stops_no_call_that_never_waits(rt: HostRuntime) -> Result<(), Fail> {
    done(&rt, rt.alloc(), &NEVER_STOPPED)
}

/// A thread transfers, and another polls, each within a time: `tryTransfer` and `poll` with a time meet.
#[test]
fn a_transfer_and_a_poll_of_two_threads_meet(rt: HostRuntime) -> Result<(), Fail> {
    let pair = Deal::Pair(Call::TransferFor(9, 60_000), Call::PollFor(60_000));
    let came = trade::<ParkGate, _>(&rt, rt.alloc(), Order::Transfer, pair)?;
    assert_eq!(rt; came, (1, 9, 3));
    Ok(())
}

/// `tryTransfer` with a time throws `InterruptedException` where it is interrupted while waiting, and leaves nothing.
#[test]
fn a_timed_transfer_of_a_thread_is_interrupted(rt: HostRuntime) -> Result<(), Fail> {
    let call = Call::TransferFor(9, 60_000);
    is_cut(&rt, rt.alloc(), Order::Transfer, call, Some(9))
}

/// `poll` with a time throws `InterruptedException` where it is interrupted while waiting.
#[test]
fn a_timed_poll_of_a_thread_is_interrupted(rt: HostRuntime) -> Result<(), Fail> {
    is_cut(
        &rt,
        rt.alloc(),
        Order::Transfer,
        Call::PollFor(60_000),
        None,
    )
}
