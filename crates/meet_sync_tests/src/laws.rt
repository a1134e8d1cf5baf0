//! What a chronicle tells of its tickets: each give counts once, by its fate, and what is left once it is erased is
//! legal.

use meet_history::Standing;
use meet_shop::{Ask, Found, NOTHING, Row, Story, Told, played, tells};
use meet_sync::{LeftStanding, Tally};
use meet_tickets::{Deed, Order};
use std::alloc::Global;
use std::process::Abort;
use std::sync::Wait;
use std::test::*;

/// A story's tally.
fn counts<R: Abort + Wait>(
    rt: &R,
    alloc: Global,
    story: Story<'_>,
    wanted: Tally,
) -> Result<(), Fail> {
    let chronicle = played(rt, alloc, story)?;
    assert_eq!(rt; chronicle.laws(), wanted);
    tells(alloc, chronicle, story)?;
    Ok(())
}

/// One of three givers has its time run out.
const EXPIRED: [Row; 6] = [
    (0, Ask::Give(1), Told::Parks(1)),
    (1, Ask::Give(2), Told::Parks(2)),
    (2, Ask::Give(3), Told::Parks(3)),
    (1, Ask::Expire, Told::Back(Some(2))),
    (3, Ask::Take, Told::Got(1, 1)),
    (4, Ask::Take, Told::Got(3, 3)),
];

#[test]
fn a_give_that_expired(rt: HostRuntime) -> Result<(), Fail> {
    let story = Story {
        order: Order::Fair,
        seats: 5,
        cap: 100,
        rows: &EXPIRED,
        standing: Standing {
            uncollected: 2,
            ..NOTHING
        },
        left: &[],
    };
    counts(
        &rt,
        rt.alloc(),
        story,
        Tally {
            delivered: 2,
            returned: 1,
            kept: 0,
            offered: 0,
        },
    )
}

/// A giver is cut, learns so, and gives again.
const CUT: [Row; 5] = [
    (0, Ask::Give(5), Told::Parks(1)),
    (1, Ask::Interrupt(0), Told::Cut(1)),
    (0, Ask::Cancel, Told::Late),
    (0, Ask::Follow, Told::WasCut(Some(5))),
    (0, Ask::Give(6), Told::Parks(2)),
];

#[test]
fn a_give_that_was_cut(rt: HostRuntime) -> Result<(), Fail> {
    let left: [Found; 1] = [(2, 6, LeftStanding::Offered)];
    let story = Story {
        order: Order::Fair,
        seats: 2,
        cap: 100,
        rows: &CUT,
        standing: Standing {
            waiting: 1,
            ..NOTHING
        },
        left: &left,
    };
    counts(
        &rt,
        rt.alloc(),
        story,
        Tally {
            delivered: 0,
            returned: 1,
            kept: 0,
            offered: 1,
        },
    )
}

/// A taker is cut, and an offer behind it finds nobody.
const FAILED: [Row; 4] = [
    (0, Ask::Take, Told::Parks(1)),
    (1, Ask::Interrupt(0), Told::Cut(1)),
    (0, Ask::Follow, Told::WasCut(None)),
    (2, Ask::Offer(4), Told::Failed(Some(4))),
];

#[test]
fn what_is_left_of_a_take_that_was_cut(rt: HostRuntime) -> Result<(), Fail> {
    let story = Story {
        order: Order::Fair,
        seats: 3,
        cap: 100,
        rows: &FAILED,
        standing: NOTHING,
        left: &[],
    };
    let chronicle = played(&rt, rt.alloc(), story)?;
    let left = chronicle.erased(rt.alloc()).ok().ok_or("refused")?;
    assert_eq!(rt; left.len(), 1);
    for entry in left.iter() {
        assert_eq!(rt; (entry.seat.number(), entry.ticket.number()), (2, 2));
        assert_eq!(rt; entry.deed, Deed::GiveFails(4));
    }
    assert_eq!(rt; tells(rt.alloc(), chronicle, story)?, 4);
    Ok(())
}

/// A kept item and an offered one are taken.
const KEPT: [Row; 6] = [
    (0, Ask::Put(1), Told::Kept),
    (1, Ask::Give(2), Told::Parks(2)),
    (2, Ask::Offer(3), Told::Failed(Some(3))),
    (3, Ask::Poll, Told::Got(1, 1)),
    (3, Ask::Poll, Told::Got(2, 2)),
    (1, Ask::Follow, Told::Done),
];

#[test]
fn a_give_that_was_kept(rt: HostRuntime) -> Result<(), Fail> {
    let story = Story {
        order: Order::Transfer,
        seats: 4,
        cap: 100,
        rows: &KEPT,
        standing: NOTHING,
        left: &[],
    };
    counts(
        &rt,
        rt.alloc(),
        story,
        Tally {
            delivered: 2,
            returned: 1,
            kept: 0,
            offered: 0,
        },
    )
}
