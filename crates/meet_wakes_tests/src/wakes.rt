//! Whose gates are woken, and whose not.

ghost use Rattle.std.specs.Prelude.{◌≡◌, vec_len};
ghost use Rattle.meet_place.specs.Ledgers.{AreOf};

use meet_shop::{Ask, FlagGate, Flags, Row, Shop, Told, ask_all, closed, drain_one, keep, seated};
use meet_sync::{Blanks, Chronicle, Ledgers, NewQueue, Seat};
use meet_tickets::{Deed, Order};
use std::alloc::Global;
use std::marker::Brand;
use std::process::Abort;
use std::sync::{Arc, Wait};
use std::test::*;

/// What four seats do.
#[derive(Clone, Copy)]
struct Day<'a> {
    /// What they ask, and are told.
    rows: &'a [Row],
    /// How many items the last seat drains then.
    drained: u64,
    /// Whether the gate of each is woken by all that.
    woken: [bool; 4],
}

/// The seats do what they do, and the shop is closed.
fn dealt<N: Ledgers, R: Abort + Wait>(
    rt: &R,
    alloc: Global,
    shop: Shop<FlagGate, N>,
    made: Vec<Seat<Deed, N>>,
    day: Day<'_>,
) -> Result<Chronicle<u64>, &'static str> {
    match seated(alloc, made) {
        Ok(mut seats) => {
            ask_all(rt, &shop, &mut seats, day.rows).expect(rt, "they are told otherwise");
            if let Some(place) = seats.get_mut(3) {
                if let Some(items) = drain_one(rt, alloc, &shop, place, day.drained) {
                    assert_eq!(rt; items.len() as u64, day.drained);
                }
            }
            closed(alloc, shop, seats)
        }
        Err(why) => {
            keep(shop);
            Err(why)
        }
    }
}

/// A shop of this order is made, and the seats do what they do.
fn dealing<N: Ledgers, R: Abort + Wait>(
    rt: &R,
    alloc: Global,
    order: Order,
    parts: NewQueue<FlagGate>,
    day: Day<'_>,
) -> Result<Chronicle<u64>, &'static str>
    requires ledgers { AreOf N.name N.folds N.moments N.parts parts.blanks }
    requires one_each { N.parts ≡ vec_len parts.gates }
    requires cap { N.cap ≡ 100 }
{
    match Shop::<FlagGate, N>::with_cap(alloc, order, parts, 100) {
        Ok((shop, seats)) => dealt(rt, alloc, shop, seats, day),
        Err(refused) => Err(refused.why.name()),
    }
}

/// The gates of the day are woken, and no other.
fn wakes<R: Abort + Wait>(rt: &R, alloc: Global, order: Order, day: Day<'_>) -> Result<(), Fail> {
    let mut gates = Vec::new(alloc);
    let mut all_flags = Vec::new(alloc);
    for _ in 0..4 {
        let flags = Arc::new(alloc, Flags::new())?;
        gates.push(FlagGate::new(Arc::try_clone(&flags)?))?;
        all_flags.push(flags)?;
    }
    let blanks = Blanks::new(gates.len() as u64);
    let parts = NewQueue { gates, blanks };
    dealing::<Brand, _>(rt, alloc, order, parts, day)?;
    for (flags, wanted) in all_flags.iter().zip(day.woken) {
        assert_eq!(rt; flags.is_raised(), wanted);
    }
    Ok(())
}

/// Rows after which the first seat's gate is woken alone.
const fn first_is_woken(rows: &[Row]) -> Day<'_> {
    Day {
        rows,
        drained: 0,
        woken: [true, false, false, false],
    }
}

/// In queues of each order.
fn wakes_in_each<R: Abort + Wait>(rt: &R, alloc: Global, day: Day<'_>) -> Result<(), Fail> {
    wakes(rt, alloc, Order::Fair, day)?;
    wakes(rt, alloc, Order::Unfair, day)?;
    wakes(rt, alloc, Order::Transfer, day)
}

/// A giver waits, and is met.
const TAKEN: [Row; 2] = [
    (0, Ask::Give(5), Told::Parks(1)),
    (1, Ask::Take, Told::Got(1, 5)),
];

const POLLED: [Row; 2] = [
    (0, Ask::Give(5), Told::Parks(1)),
    (1, Ask::Poll, Told::Got(1, 5)),
];

/// A taker waits, and is met.
const GIVEN: [Row; 2] = [
    (0, Ask::Take, Told::Parks(1)),
    (1, Ask::Give(5), Told::Gave(1)),
];

const OFFERED: [Row; 2] = [
    (0, Ask::Take, Told::Parks(1)),
    (1, Ask::Offer(5), Told::Gave(1)),
];

const PUT: [Row; 2] = [
    (0, Ask::Take, Told::Parks(1)),
    (1, Ask::Put(5), Told::Gave(1)),
];

#[test]
fn who_is_met_is_woken(rt: HostRuntime) -> Result<(), Fail> {
    wakes_in_each(&rt, rt.alloc(), first_is_woken(&TAKEN))?;
    wakes_in_each(&rt, rt.alloc(), first_is_woken(&POLLED))?;
    wakes_in_each(&rt, rt.alloc(), first_is_woken(&GIVEN))?;
    wakes_in_each(&rt, rt.alloc(), first_is_woken(&OFFERED))?;
    wakes(&rt, rt.alloc(), Order::Transfer, first_is_woken(&PUT))
}

/// A seat that waits is interrupted; and then another, which doesn't wait.
const CUT: [Row; 3] = [
    (0, Ask::Give(5), Told::Parks(1)),
    (1, Ask::Interrupt(0), Told::Cut(1)),
    (1, Ask::Interrupt(2), Told::Flagged),
];

#[test]
fn who_is_cut_is_woken(rt: HostRuntime) -> Result<(), Fail> {
    wakes_in_each(&rt, rt.alloc(), first_is_woken(&CUT))
}

/// A ticket is taken back, and a call fails.
const ALONE: [Row; 3] = [
    (0, Ask::Give(5), Told::Parks(1)),
    (0, Ask::Cancel, Told::Back(Some(5))),
    (1, Ask::Poll, Told::Failed(None)),
];

#[test]
fn nobody_is_woken_for_nothing(rt: HostRuntime) -> Result<(), Fail> {
    let day = Day {
        rows: &ALONE,
        drained: 0,
        woken: [false; 4],
    };
    wakes_in_each(&rt, rt.alloc(), day)
}

/// Three givers wait.
const GIVERS: [Row; 3] = [
    (0, Ask::Give(10), Told::Parks(1)),
    (1, Ask::Give(20), Told::Parks(2)),
    (2, Ask::Give(30), Told::Parks(3)),
];

/// Two of three givers are drained by another.
const fn two_are_drained(woken: [bool; 4]) -> Day<'static> {
    Day {
        rows: &GIVERS,
        drained: 2,
        woken,
    }
}

#[test]
fn all_who_are_drained_are_woken(rt: HostRuntime) -> Result<(), Fail> {
    let first = two_are_drained([true, true, false, false]);
    let last = two_are_drained([false, true, true, false]);
    wakes(&rt, rt.alloc(), Order::Fair, first)?;
    wakes(&rt, rt.alloc(), Order::Unfair, last)?;
    wakes(&rt, rt.alloc(), Order::Transfer, first)
}
