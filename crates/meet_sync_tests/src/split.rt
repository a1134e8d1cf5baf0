//! Split calls of one thread: what each seat is told, and what the queue's records leave.

use meet_shop::{Ask, NOTHING, Row, Story, Told, Unlike, play, told};
use meet_tickets::{Order, Refusal};
use std::alloc::Global;
use std::process::Abort;
use std::sync::Wait;
use std::test::*;

/// A giver waits, and is met.
const MET: [Row; 4] = [
    (0, Ask::Give(5), Told::Parks(1)),
    (0, Ask::Follow, Told::NotYet),
    (1, Ask::Take, Told::Got(1, 5)),
    (0, Ask::Follow, Told::Done),
];

#[test]
fn a_giver_is_met(rt: HostRuntime) -> Result<(), Fail> {
    told(&rt, rt.alloc(), Order::Fair, &MET, 3)?;
    told(&rt, rt.alloc(), Order::Unfair, &MET, 3)?;
    told(&rt, rt.alloc(), Order::Transfer, &MET, 3)
}

/// A taker waits, and is met.
const SERVED: [Row; 8] = [
    (0, Ask::Take, Told::Parks(1)),
    (1, Ask::Offer(7), Told::Gave(1)),
    (0, Ask::Expire, Told::Late),
    (0, Ask::Follow, Told::Got(2, 7)),
    (0, Ask::Take, Told::Parks(3)),
    (1, Ask::Give(8), Told::Gave(3)),
    (0, Ask::Follow, Told::Got(4, 8)),
    (1, Ask::Offer(9), Told::Failed(Some(9))),
];

#[test]
fn a_taker_is_met(rt: HostRuntime) -> Result<(), Fail> {
    told(&rt, rt.alloc(), Order::Fair, &SERVED, 7)?;
    told(&rt, rt.alloc(), Order::Unfair, &SERVED, 7)?;
    told(&rt, rt.alloc(), Order::Transfer, &SERVED, 7)
}

/// One takes its item back, one is too late for it, and one's time runs out.
const TAKEN_BACK: [Row; 9] = [
    (0, Ask::Give(5), Told::Parks(1)),
    (0, Ask::Cancel, Told::Back(Some(5))),
    (1, Ask::Poll, Told::Failed(None)),
    (0, Ask::Give(6), Told::Parks(3)),
    (1, Ask::Take, Told::Got(3, 6)),
    (0, Ask::Cancel, Told::Late),
    (0, Ask::Follow, Told::Done),
    (2, Ask::Take, Told::Parks(5)),
    (2, Ask::Expire, Told::Back(None)),
];

#[test]
fn a_ticket_is_taken_back(rt: HostRuntime) -> Result<(), Fail> {
    told(&rt, rt.alloc(), Order::Fair, &TAKEN_BACK[..3], 3)?;
    told(&rt, rt.alloc(), Order::Fair, &TAKEN_BACK, 8)?;
    told(&rt, rt.alloc(), Order::Unfair, &TAKEN_BACK, 8)?;
    told(&rt, rt.alloc(), Order::Transfer, &TAKEN_BACK, 8)
}

/// A taker is cut where it waits.
const CUT: [Row; 4] = [
    (0, Ask::Take, Told::Parks(1)),
    (1, Ask::Interrupt(0), Told::Cut(1)),
    (0, Ask::Follow, Told::WasCut(None)),
    (2, Ask::Offer(4), Told::Failed(Some(4))),
];

#[test]
fn a_taker_is_cut(rt: HostRuntime) -> Result<(), Fail> {
    told(&rt, rt.alloc(), Order::Fair, &CUT, 4)?;
    told(&rt, rt.alloc(), Order::Unfair, &CUT, 4)?;
    told(&rt, rt.alloc(), Order::Transfer, &CUT, 4)
}

/// A taker that was met is flagged, and its next take is stopped; the one after that waits.
const FLAGGED: [Row; 7] = [
    (0, Ask::Take, Told::Parks(1)),
    (1, Ask::Give(4), Told::Gave(1)),
    (2, Ask::Interrupt(0), Told::Flagged),
    (0, Ask::Follow, Told::Got(2, 4)),
    (0, Ask::Take, Told::Stopped(None)),
    (0, Ask::Take, Told::Parks(4)),
    (0, Ask::Cancel, Told::Back(None)),
];

#[test]
fn a_taker_is_flagged(rt: HostRuntime) -> Result<(), Fail> {
    told(&rt, rt.alloc(), Order::Fair, &FLAGGED, 7)?;
    told(&rt, rt.alloc(), Order::Unfair, &FLAGGED, 7)?;
    told(&rt, rt.alloc(), Order::Transfer, &FLAGGED, 7)
}

/// Who came first is met first.
const FIRST: [Row; 6] = [
    (0, Ask::Give(1), Told::Parks(1)),
    (1, Ask::Give(2), Told::Parks(2)),
    (2, Ask::Take, Told::Got(1, 1)),
    (2, Ask::Poll, Told::Got(2, 2)),
    (0, Ask::Follow, Told::Done),
    (1, Ask::Follow, Told::Done),
];

/// Who came last is met first.
const LAST: [Row; 6] = [
    (0, Ask::Give(1), Told::Parks(1)),
    (1, Ask::Give(2), Told::Parks(2)),
    (2, Ask::Take, Told::Got(2, 2)),
    (2, Ask::Poll, Told::Got(1, 1)),
    (0, Ask::Follow, Told::Done),
    (1, Ask::Follow, Told::Done),
];

#[test]
fn whom_a_taker_meets(rt: HostRuntime) -> Result<(), Fail> {
    told(&rt, rt.alloc(), Order::Fair, &FIRST, 6)?;
    told(&rt, rt.alloc(), Order::Unfair, &LAST, 6)?;
    told(&rt, rt.alloc(), Order::Transfer, &FIRST, 6)
}

/// One puts and goes on, one transfers and waits; both stand in one line.
const KEPT: [Row; 9] = [
    (0, Ask::Put(1), Told::Kept),
    (1, Ask::Give(2), Told::Parks(2)),
    (2, Ask::Offer(3), Told::Failed(Some(3))),
    (3, Ask::Poll, Told::Got(1, 1)),
    (3, Ask::Poll, Told::Got(2, 2)),
    (1, Ask::Follow, Told::Done),
    (0, Ask::Take, Told::Parks(6)),
    (2, Ask::Put(4), Told::Gave(6)),
    (0, Ask::Follow, Told::Got(7, 4)),
];

#[test]
fn a_put_is_kept(rt: HostRuntime) -> Result<(), Fail> {
    told(&rt, rt.alloc(), Order::Transfer, &KEPT, 9)
}

/// Where nothing is kept, a put waits as a give does, goes to a taker that waits, and is refused where its seat is
/// flagged.
const PUT_WAITS: [Row; 10] = [
    (0, Ask::Put(1), Told::Parks(1)),
    (1, Ask::Take, Told::Got(1, 1)),
    (0, Ask::Follow, Told::Done),
    (1, Ask::Take, Told::Parks(3)),
    (0, Ask::Put(2), Told::Gave(3)),
    (1, Ask::Follow, Told::Got(4, 2)),
    (0, Ask::Put(3), Told::Parks(5)),
    (0, Ask::Cancel, Told::Back(Some(3))),
    (1, Ask::Interrupt(0), Told::Flagged),
    (0, Ask::Put(4), Told::Stopped(Some(4))),
];

#[test]
fn a_put_waits_where_nothing_is_kept(rt: HostRuntime) -> Result<(), Fail> {
    told(&rt, rt.alloc(), Order::Fair, &PUT_WAITS, 10)?;
    told(&rt, rt.alloc(), Order::Unfair, &PUT_WAITS, 10)
}

/// A seat has one open ticket at most, but may interrupt, also itself; and no target that isn't there.
const OPEN: [Row; 8] = [
    (0, Ask::Give(5), Told::Parks(1)),
    (0, Ask::Give(6), Told::Refused(Refusal::SeatOpen, Some(6))),
    (0, Ask::Offer(7), Told::Refused(Refusal::SeatOpen, Some(7))),
    (0, Ask::Take, Told::Refused(Refusal::SeatOpen, None)),
    (0, Ask::Poll, Told::Refused(Refusal::SeatOpen, None)),
    (
        0,
        Ask::Interrupt(4),
        Told::Refused(Refusal::NoSuchSeat, None),
    ),
    (0, Ask::Interrupt(0), Told::Cut(1)),
    (0, Ask::Follow, Told::WasCut(Some(5))),
];

/// Nor does it put an item.
const OPEN_PUT: [Row; 3] = [
    (0, Ask::Give(5), Told::Parks(1)),
    (0, Ask::Put(8), Told::Refused(Refusal::SeatOpen, Some(8))),
    (0, Ask::Cancel, Told::Back(Some(5))),
];

#[test]
fn what_is_refused(rt: HostRuntime) -> Result<(), Fail> {
    told(&rt, rt.alloc(), Order::Fair, &OPEN, 3)?;
    told(&rt, rt.alloc(), Order::Unfair, &OPEN, 3)?;
    told(&rt, rt.alloc(), Order::Transfer, &OPEN, 3)?;
    told(&rt, rt.alloc(), Order::Fair, &OPEN_PUT, 2)?;
    told(&rt, rt.alloc(), Order::Transfer, &OPEN_PUT, 2)
}

/// There is room for what is owed, and for no request or interrupt more.
const FULL: [Row; 9] = [
    (0, Ask::Give(1), Told::Parks(1)),
    (1, Ask::Give(2), Told::Parks(2)),
    (2, Ask::Give(3), Told::Refused(FULL_UP, Some(3))),
    (2, Ask::Offer(4), Told::Refused(FULL_UP, Some(4))),
    (2, Ask::Take, Told::Refused(FULL_UP, None)),
    (2, Ask::Poll, Told::Refused(FULL_UP, None)),
    (2, Ask::Interrupt(0), Told::Refused(FULL_UP, None)),
    (0, Ask::Cancel, Told::Back(Some(1))),
    (1, Ask::Cancel, Told::Back(Some(2))),
];

const FULL_UP: Refusal = Refusal::HistoryFull;

/// Nor for a put.
const FULL_PUT: [Row; 5] = [
    (0, Ask::Give(1), Told::Parks(1)),
    (1, Ask::Give(2), Told::Parks(2)),
    (2, Ask::Put(3), Told::Refused(FULL_UP, Some(3))),
    (0, Ask::Cancel, Told::Back(Some(1))),
    (1, Ask::Cancel, Told::Back(Some(2))),
];

/// What is asked of a queue of three seats and four records.
fn full(order: Order, rows: &[Row]) -> Story<'_> {
    Story {
        order,
        seats: 3,
        cap: 4,
        rows,
        standing: NOTHING,
        left: &[],
    }
}

#[test]
fn a_history_is_full(rt: HostRuntime) -> Result<(), Fail> {
    assert_eq!(rt; play(&rt, rt.alloc(), full(Order::Fair, &FULL))?, 4);
    assert_eq!(rt; play(&rt, rt.alloc(), full(Order::Unfair, &FULL))?, 4);
    assert_eq!(rt; play(&rt, rt.alloc(), full(Order::Transfer, &FULL))?, 4);
    assert_eq!(rt; play(&rt, rt.alloc(), full(Order::Transfer, &FULL_PUT))?, 4);
    Ok(())
}

/// Why a queue of these sizes isn't made.
fn refusal(
    rt: &(impl Abort + Wait),
    alloc: Global,
    order: Order,
    seats: u64,
    cap: u64,
) -> Option<Unlike> {
    let story = Story {
        order,
        seats,
        cap,
        rows: &[],
        standing: NOTHING,
        left: &[],
    };
    play(rt, alloc, story).err()
}

/// The sizes that a queue of this order has.
fn sizes(rt: &(impl Abort + Wait), alloc: Global, order: Order) {
    let bad = Some(Unlike::Why("BadSizes"));
    assert_eq!(rt; refusal(rt, alloc, order, 0, 1), bad);
    assert_eq!(rt; refusal(rt, alloc, order, 65_537, 1), bad);
    assert_eq!(rt; refusal(rt, alloc, order, 1, 0), bad);
    assert_eq!(rt; refusal(rt, alloc, order, 1, 1_048_577), bad);
    assert_eq!(rt; refusal(rt, alloc, order, 1, 1), None);
    assert_eq!(rt; refusal(rt, alloc, order, 65_536, 1), None);
    assert_eq!(rt; refusal(rt, alloc, order, 1, 1_048_576), None);
}

#[test]
fn sizes_are_limited(rt: HostRuntime) -> Result<(), Fail> {
    sizes(&rt, rt.alloc(), Order::Fair);
    sizes(&rt, rt.alloc(), Order::Unfair);
    sizes(&rt, rt.alloc(), Order::Transfer);
    Ok(())
}
