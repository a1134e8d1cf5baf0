//! How queues end: without a seat and then with it, with tickets open, and with items left.

ghost use Rattle.std.specs.Prelude.{◌≡◌, vec_len};
ghost use Rattle.meet_place.specs.Ledgers.{AreOf};

use meet_history::Standing;
use meet_shop::{
    Ask, Found, Idle, Row, Seats, Shop, Story, Told, ask_all, ended, gates, given, play, seated,
    tells,
};
use meet_sync::{Back, Blanks, Chronicle, Ledgers, LeftStanding, NewQueue, QueueFault};
use meet_tickets::{Deed, Order};
use std::alloc::Global;
use std::marker::Brand;
use std::process::Abort;
use std::sync::Wait;
use std::test::*;

/// A taker that waited was met and hasn't collected, another has; a giver was cut; and three givers wait.
const OFFERED: [Row; 10] = [
    (4, Ask::Take, Told::Parks(1)),
    (0, Ask::Give(10), Told::Gave(1)),
    (5, Ask::Take, Told::Parks(3)),
    (0, Ask::Offer(20), Told::Gave(3)),
    (5, Ask::Follow, Told::Got(4, 20)),
    (3, Ask::Give(30), Told::Parks(5)),
    (0, Ask::Interrupt(3), Told::Cut(5)),
    (2, Ask::Give(40), Told::Parks(6)),
    (0, Ask::Give(50), Told::Parks(7)),
    (1, Ask::Give(60), Told::Parks(8)),
];

/// The same, but one that waits goes on.
const KEPT: [Row; 10] = [
    (4, Ask::Take, Told::Parks(1)),
    (0, Ask::Put(10), Told::Gave(1)),
    (5, Ask::Take, Told::Parks(3)),
    (0, Ask::Offer(20), Told::Gave(3)),
    (5, Ask::Follow, Told::Got(4, 20)),
    (3, Ask::Give(30), Told::Parks(5)),
    (0, Ask::Interrupt(3), Told::Cut(5)),
    (2, Ask::Give(40), Told::Parks(6)),
    (0, Ask::Put(50), Told::Kept),
    (1, Ask::Give(60), Told::Parks(8)),
];

/// Two takers wait.
const TAKERS: [Row; 2] = [
    (0, Ask::Take, Told::Parks(1)),
    (1, Ask::Take, Told::Parks(2)),
];

/// A giver that waited was met, and hasn't followed up.
const HANDED: [Row; 2] = [
    (0, Ask::Give(5), Told::Parks(1)),
    (1, Ask::Poll, Told::Got(1, 5)),
];

/// So many wait, hold what they haven't collected, or are kept.
const fn standing(waiting: u64, uncollected: u64, kept: u64) -> Standing {
    Standing {
        waiting,
        uncollected,
        kept,
    }
}

/// Six seats ask a queue of this order, and this is left.
fn leaves<R: Abort + Wait>(
    rt: &R,
    alloc: Global,
    order: Order,
    rows: &[Row],
    standing: Standing,
    left: &[Found],
) -> Result<(), Fail> {
    let story = Story {
        order,
        seats: 6,
        cap: 100,
        rows,
        standing,
        left,
    };
    assert_eq!(rt; play(rt, alloc, story)?, rows.len());
    Ok(())
}

/// What each queue leaves alike.
fn leaves_alike<R: Abort + Wait>(rt: &R, alloc: Global, order: Order) -> Result<(), Fail> {
    let wanted = [
        (2, 10, LeftStanding::Ready),
        (5, 30, LeftStanding::Ready),
        (6, 40, LeftStanding::Offered),
        (7, 50, LeftStanding::Offered),
        (8, 60, LeftStanding::Offered),
    ];
    leaves(rt, alloc, order, &OFFERED, standing(3, 2, 0), &wanted)?;
    leaves(rt, alloc, order, &TAKERS, standing(2, 0, 0), &[])?;
    leaves(rt, alloc, order, &HANDED, standing(0, 1, 0), &[])
}

#[test]
fn what_is_left(rt: HostRuntime) -> Result<(), Fail> {
    leaves_alike(&rt, rt.alloc(), Order::Fair)?;
    leaves_alike(&rt, rt.alloc(), Order::Unfair)?;
    leaves_alike(&rt, rt.alloc(), Order::Transfer)
}

#[test]
fn what_is_kept_is_left(rt: HostRuntime) -> Result<(), Fail> {
    let wanted = [
        (2, 10, LeftStanding::Ready),
        (5, 30, LeftStanding::Ready),
        (6, 40, LeftStanding::Offered),
        (7, 50, LeftStanding::Kept),
        (8, 60, LeftStanding::Offered),
    ];
    leaves(
        &rt,
        rt.alloc(),
        Order::Transfer,
        &KEPT,
        standing(2, 2, 1),
        &wanted,
    )
}

/// How many seats were given back at first, and of how many; and what was left once all were.
struct Late {
    have: u64,
    made: u64,
    chronicle: Chronicle<u64>,
}

/// A shop is closed with these seats and the last one.
fn closed_with<N: Ledgers>(
    rt: &impl Abort,
    alloc: Global,
    shop: Shop<Idle, N>,
    backs: Vec<Back<Deed, N>>,
    last: Back<Deed, N>,
) -> Chronicle<u64> {
    let mut all = backs;
    all.push(last).expect(rt, "memory");
    ended(alloc, shop, all).expect(rt, "it isn't closed")
}

/// A shop is closed without a seat, and then with it.
fn closed_late<N: Ledgers>(
    rt: &impl Abort,
    alloc: Global,
    shop: Shop<Idle, N>,
    backs: Vec<Back<Deed, N>>,
    last: Back<Deed, N>,
) -> Late {
    match shop.close(alloc, backs) {
        Ok(_) => panic!(rt; "it is closed without a seat"),
        Err(fault) => match fault {
            QueueFault::SeatMissing {
                have,
                made,
                queue,
                seats,
            } => Late {
                have,
                made,
                chronicle: closed_with(rt, alloc, queue, seats, last),
            },
            _ => panic!(rt; "it isn't told how many are missing"),
        },
    }
}

/// The same, where the last seat is the one that comes late.
fn last_is_late<N: Ledgers>(
    rt: &impl Abort,
    alloc: Global,
    shop: Shop<Idle, N>,
    first: Seats<N>,
) -> Late {
    let mut seats = first;
    match seats.pop() {
        Some(Some(last)) => {
            let backs = given(alloc, seats).expect(rt, "memory");
            closed_late(rt, alloc, shop, backs, last)
        }
        _ => panic!(rt; "there is no last seat"),
    }
}

/// A shop is made, its seats ask, and it is closed so.
fn falls_short<N: Ledgers, R: Abort + Wait>(
    rt: &R,
    alloc: Global,
    parts: NewQueue<Idle>,
    story: Story<'_>,
) -> Late
    requires ledgers { AreOf N.name N.folds N.moments N.parts parts.blanks }
    requires one_each { N.parts ≡ vec_len parts.gates }
    requires cap { N.cap ≡ story.cap }
{
    let (shop, made) = match Shop::<Idle, N>::with_cap(alloc, story.order, parts, story.cap) {
        Ok(made) => made,
        Err(_) => panic!(rt; "it isn't made"),
    };
    let mut seats = seated(alloc, made).expect(rt, "memory");
    ask_all(rt, &shop, &mut seats, story.rows).expect(rt, "they are told otherwise");
    last_is_late(rt, alloc, shop, seats)
}

/// One of two seats comes late, which collected nothing.
fn seat_is_missing<R: Abort + Wait>(rt: &R, alloc: Global, order: Order) -> Result<(), Fail> {
    let story = Story {
        order,
        seats: 2,
        cap: 100,
        rows: &[
            (1, Ask::Take, Told::Parks(1)),
            (0, Ask::Give(5), Told::Gave(1)),
        ],
        standing: standing(0, 1, 0),
        left: &[(2, 5, LeftStanding::Ready)],
    };
    let gates = gates::<Idle>(alloc, story.seats)?;
    let blanks = Blanks::new(gates.len() as u64);
    let parts = NewQueue { gates, blanks };
    let Late {
        have,
        made,
        chronicle,
    } = falls_short::<Brand, _>(rt, alloc, parts, story);
    assert_eq!(rt; (have, made), (1, 2));
    assert_eq!(rt; tells(alloc, chronicle, story)?, 2);
    Ok(())
}

#[test]
fn a_seat_is_missing(rt: HostRuntime) -> Result<(), Fail> {
    seat_is_missing(&rt, rt.alloc(), Order::Fair)?;
    seat_is_missing(&rt, rt.alloc(), Order::Unfair)?;
    seat_is_missing(&rt, rt.alloc(), Order::Transfer)
}
