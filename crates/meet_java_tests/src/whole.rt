//! Whole calls over each gate: of one thread, which find nobody; of two, which meet; and one that is cut.

ghost use Rattle.std.specs.Prelude.{◌≡◌, vec_len};
ghost use Rattle.meet_place.specs.Ledgers.{AreOf};

use meet_cells::ParkGate;
use meet_shop::{
    Ask, Call, Eager, Fresh, Idle, NOTHING, Shop, Story, Told, Unlike, answer, called, ended,
    gates, tells, two_backs, two_seats,
};
use meet_sync::{Back, Blanks, Chronicle, Ledgers, NewQueue, Seat};
use meet_tickets::{Cause, Deed, Order};
use std::alloc::Global;
use std::marker::Brand;
use std::process::Abort;
use std::sync::Wait;
use std::test::*;
use std::thread;
use std::thread::Threads;
use std::time::{Clock, Instant};

/// What two seats do, or one of them.
#[derive(Clone, Copy)]
pub enum Deal<'a> {
    /// One calls, one call after another, and is told this.
    Calls(&'a [(Call, Told)]),
    /// One thread gives 1 and so on up to this, and the other takes as many by this call.
    Meets(u64, Call),
    /// One thread makes this call, and the other that one.
    Pair(Call, Call),
    /// One thread makes this call, and the other interrupts it; this comes back.
    Cuts(Call, Option<u64>),
}

/// Two seats, with what they are given back.
struct Both<N: Ledgers> {
    first: Back<Deed, N>,
    second: Back<Deed, N>,
    /// How often the first was told that its item was taken, or whether it was cut.
    given: u64,
    /// The sum of what the second took, or whether it was told so.
    taken: u64,
}

/// A seat calls, one call after another, and is told this.
fn calls<G: Fresh, N: Ledgers, R: Abort + Wait + Clock>(
    rt: &R,
    shop: &Shop<G, N>,
    first: Back<Deed, N>,
    rows: &[(Call, Told)],
) -> Back<Deed, N> {
    let mut back = first;
    for (call, wanted) in rows {
        let (again, told) = called(rt, shop, back, *call);
        assert_eq!(rt; told, *wanted);
        back = again;
    }
    back
}

/// The give that waits, of each queue.
fn giving<G, N: Ledgers>(shop: &Shop<G, N>, item: u64) -> Call {
    match shop {
        Shop::Fair(_) => Call::Put(item),
        Shop::Unfair(_) => Call::Put(item),
        Shop::Transfer(_) => Call::Transfer(item),
    }
}

/// Gives 1 and so on: how many were taken.
fn give_all<G: Fresh, N: Ledgers, R: Wait + Clock>(
    rt: &R,
    shop: &Shop<G, N>,
    first: Back<Deed, N>,
    most: u64,
) -> (Back<Deed, N>, u64) {
    let mut back = first;
    let mut given = 0u64;
    for item in 1..=most {
        let (again, told) = called(rt, shop, back, giving(shop, item));
        match told {
            Told::Done => given = given.saturating_add(1),
            Told::Gave(_) => given = given.saturating_add(1),
            _ => {}
        }
        back = again;
    }
    (back, given)
}

/// Takes so often by this call: the sum of what it took.
fn take_all<G: Fresh, N: Ledgers, R: Wait + Clock>(
    rt: &R,
    shop: &Shop<G, N>,
    first: Back<Deed, N>,
    most: u64,
    call: Call,
) -> (Back<Deed, N>, u64) {
    let mut back = first;
    let mut sum = 0u64;
    for _ in 0..most {
        let (again, told) = called(rt, shop, back, call);
        if let Told::Got(_, item) = told {
            sum = sum.saturating_add(item);
        }
        back = again;
    }
    (back, sum)
}

/// One thread gives what the other takes.
fn meet<G: Fresh + Sync, N: Ledgers + Send + Sync, R: Threads + Wait + Clock + Sync>(
    rt: &R,
    shop: &Shop<G, N>,
    giver: Back<Deed, N>,
    taker: Back<Deed, N>,
    most: u64,
    call: Call,
) -> Both<N> {
    let (gave, took) = thread::join(
        rt,
        move || give_all(rt, shop, giver, most),
        move || take_all(rt, shop, taker, most, call),
    );
    let (first, given) = gave;
    let (second, taken) = took;
    Both {
        first,
        second,
        given,
        taken,
    }
}

/// One thread gives by a call, and the other takes by one.
fn pair<G: Fresh + Sync, N: Ledgers + Send + Sync, R: Threads + Wait + Clock + Sync>(
    rt: &R,
    shop: &Shop<G, N>,
    giver: Back<Deed, N>,
    taker: Back<Deed, N>,
    give: Call,
    take: Call,
) -> Both<N> {
    let (gave, took) = thread::join(
        rt,
        move || called(rt, shop, giver, give),
        move || called(rt, shop, taker, take),
    );
    let (first, told) = gave;
    let (second, item) = took;
    let given = match told {
        Told::Done => 1,
        Told::Gave(_) => 1,
        _ => 0,
    };
    let taken = match item {
        Told::Got(_, item) => item,
        _ => 0,
    };
    Both {
        first,
        second,
        given,
        taken,
    }
}

/// One thread calls, and the other interrupts it: it is cut where it waits, or flagged before it does.
fn cut<G: Fresh + Sync, N: Ledgers + Send + Sync, R: Threads + Wait + Clock + Sync>(
    rt: &R,
    shop: &Shop<G, N>,
    caller: Back<Deed, N>,
    other: Back<Deed, N>,
    call: Call,
    back: Option<u64>,
) -> Both<N> {
    let (came, interrupted) = thread::join(
        rt,
        move || called(rt, shop, caller, call),
        move || answer(rt, shop, other, Ask::Interrupt(0)),
    );
    let (first, told) = came;
    let (second, why) = interrupted;
    let given = if told == Told::WasCut(back) {
        1
    } else if told == Told::Stopped(back) {
        2
    } else {
        0
    };
    let taken = match why {
        Told::Cut(1) => 1,
        Told::Flagged => 2,
        _ => 0,
    };
    Both {
        first,
        second,
        given,
        taken,
    }
}

/// Two seats do this.
fn strike_deal<G: Fresh + Sync, N: Ledgers + Send + Sync, R: Abort + Threads + Wait + Clock + Sync>(
    rt: &R,
    shop: &Shop<G, N>,
    first: Back<Deed, N>,
    second: Back<Deed, N>,
    dealt: Deal<'_>,
) -> Both<N> {
    match dealt {
        Deal::Calls(rows) => Both {
            first: calls(rt, shop, first, rows),
            second,
            given: 0,
            taken: 0,
        },
        Deal::Meets(most, call) => meet(rt, shop, first, second, most, call),
        Deal::Pair(give, take) => pair(rt, shop, first, second, give, take),
        Deal::Cuts(call, back) => cut(rt, shop, first, second, call, back),
    }
}

/// What came of it.
struct Came {
    given: u64,
    taken: u64,
    chronicle: Chronicle<u64>,
}

/// Two seats do this, and the shop is closed.
fn dealt_by<G: Fresh + Sync, N: Ledgers + Send + Sync, R: Abort + Threads + Wait + Clock + Sync>(
    rt: &R,
    alloc: Global,
    shop: Shop<G, N>,
    made: Vec<Seat<Deed, N>>,
    dealt: Deal<'_>,
) -> Result<Came, &'static str> {
    let (first, second) = two_seats(made).expect(rt, "no seats");
    let Both {
        first,
        second,
        given,
        taken,
    } = strike_deal(rt, &shop, Back::Free(first), Back::Free(second), dealt);
    let backs = two_backs(alloc, first, second).expect(rt, "memory");
    let chronicle = ended(alloc, shop, backs)?;
    Ok(Came {
        given,
        taken,
        chronicle,
    })
}

/// A shop of this order is made, and two seats do this.
fn dealing<G: Fresh + Sync, N: Ledgers + Send + Sync, R: Abort + Threads + Wait + Clock + Sync>(
    rt: &R,
    alloc: Global,
    order: Order,
    parts: NewQueue<G>,
    dealt: Deal<'_>,
) -> Result<Came, &'static str>
    requires ledgers { AreOf N.name N.folds N.moments N.parts parts.blanks }
    requires one_each { N.parts ≡ vec_len parts.gates }
    requires cap { N.cap ≡ 1048576 }
{
    match Shop::<G, N>::with_cap(alloc, order, parts, 1_048_576) {
        Ok((shop, seats)) => dealt_by(rt, alloc, shop, seats, dealt),
        Err(refused) => Err(refused.why.name()),
    }
}

/// What comes of two seats over gates of this kind that do this.
fn comes_of<G: Fresh + Sync, R: Abort + Threads + Wait + Clock + Sync>(
    rt: &R,
    alloc: Global,
    order: Order,
    dealt: Deal<'_>,
) -> Result<Came, &'static str> {
    let gates = gates::<G>(alloc, 2)?;
    let blanks = Blanks::new(gates.len() as u64);
    let parts = NewQueue { gates, blanks };
    dealing::<G, Brand, _>(rt, alloc, order, parts, dealt)
}

/// Two seats over gates of this kind do this: how many items were given, the sum of what was taken, and the records.
pub fn trade<G: Fresh + Sync, R: Abort + Threads + Wait + Clock + Sync>(
    rt: &R,
    alloc: Global,
    order: Order,
    dealt: Deal<'_>,
) -> Result<(u64, u64, usize), Unlike> {
    let Came {
        given,
        taken,
        chronicle,
    } = comes_of::<G, _>(rt, alloc, order, dealt)?;
    let story = Story {
        order,
        seats: 2,
        cap: 1_048_576,
        rows: &[],
        standing: NOTHING,
        left: &[],
    };
    Ok((given, taken, tells(alloc, chronicle, story)?))
}

/// Nobody is there: calls fail, or their time runs out.
const ALONE: [(Call, Told); 6] = [
    (Call::Offer(3), Told::Failed(Some(3))),
    (Call::Poll, Told::Failed(None)),
    (Call::OfferFor(6, 0), Told::Failed(Some(6))),
    (Call::OfferFor(3, 50), Told::TimedOut(Some(3))),
    (Call::PollFor(0), Told::Failed(None)),
    (Call::PollFor(1), Told::TimedOut(None)),
];

/// The same of a transfer queue, in which an offer is kept.
const KEPT: [(Call, Told); 12] = [
    (Call::TryTransfer(4), Told::Failed(Some(4))),
    (Call::Poll, Told::Failed(None)),
    (Call::TransferFor(6, 0), Told::Failed(Some(6))),
    (Call::TransferFor(4, 50), Told::TimedOut(Some(4))),
    (Call::PollFor(0), Told::Failed(None)),
    (Call::PollFor(1), Told::TimedOut(None)),
    (Call::Put(10), Told::Kept),
    (Call::Offer(20), Told::Kept),
    (Call::OfferFor(30, 1), Told::Kept),
    (Call::Take, Told::Got(7, 10)),
    (Call::Poll, Told::Got(8, 20)),
    (Call::PollFor(1), Told::Got(9, 30)),
];

/// Calls of one seat, over gates of this kind.
fn alone<G: Fresh + Sync, R: Abort + Threads + Wait + Clock + Sync>(
    rt: &R,
    alloc: Global,
) -> Result<(), Fail> {
    let calls = Deal::Calls(&ALONE);
    assert_eq!(rt; trade::<G, _>(rt, alloc, Order::Fair, calls)?, (0, 0, 8));
    assert_eq!(rt; trade::<G, _>(rt, alloc, Order::Unfair, calls)?, (0, 0, 8));
    let calls = Deal::Calls(&KEPT);
    assert_eq!(rt;
        trade::<G, _>(rt, alloc, Order::Transfer, calls)?,
        (0, 0, 14)
    );
    Ok(())
}

#[test]
fn nobody_is_there(rt: HostRuntime) -> Result<(), Fail> {
    alone::<Idle, _>(&rt, rt.alloc())?;
    alone::<Eager, _>(&rt, rt.alloc())?;
    alone::<ParkGate, _>(&rt, rt.alloc())
}

/// A poll that waits for a while.
const LONG: [(Call, Told); 1] = [(Call::PollFor(300), Told::TimedOut(None))];

/// Wakes for nothing neither end a wait nor begin its limit anew.
#[test]
fn wakes_for_nothing_leave_the_limit(rt: HostRuntime) -> Result<(), Fail> {
    let start = Instant::now(&rt)?;
    let made = trade::<Eager, _>(&rt, rt.alloc(), Order::Fair, Deal::Calls(&LONG))?;
    let passed = start.elapsed(&rt)?.as_millis();
    assert_eq!(&rt; made, (0, 0, 2));
    assert!(&rt; passed >= 300 && passed < 100_000, "{passed} milliseconds");
    Ok(())
}

/// Calls of one seat at gates whose time is up at once, of which these deeds are recorded.
fn writes<R: Abort + Threads + Wait + Clock + Sync>(
    rt: &R,
    alloc: Global,
    order: Order,
    calls: &[(Call, Told)],
    wanted: &[Deed],
) -> Result<(), Fail> {
    let Came {
        given: _,
        taken: _,
        chronicle,
    } = comes_of::<Idle, _>(rt, alloc, order, Deal::Calls(calls))?;
    assert_eq!(rt; chronicle.records.len(), wanted.len());
    for (entry, deed) in chronicle.records.iter().zip(wanted) {
        assert_eq!(rt; entry.deed, *deed);
    }
    Ok(())
}

/// An offer that waits for 50 milliseconds, and what it writes.
const OFFERED: [(Call, Told); 1] = [(Call::OfferFor(3, 50), Told::TimedOut(Some(3)))];

const OFFERED_DEEDS: [Deed; 2] = [Deed::GiveWaits(3), Deed::Withdrawn(Cause::Expired)];

/// A poll without time.
const POLLED: [(Call, Told); 1] = [(Call::PollFor(0), Told::Failed(None))];

const POLLED_DEEDS: [Deed; 1] = [Deed::TakeFails];

/// A transfer that waits for 50 milliseconds.
const TRANSFERRED: [(Call, Told); 1] = [(Call::TransferFor(4, 50), Told::TimedOut(Some(4)))];

const TRANSFERRED_DEEDS: [Deed; 2] = [Deed::GiveWaits(4), Deed::Withdrawn(Cause::Expired)];

#[test]
fn what_a_call_writes_whose_time_is_up(rt: HostRuntime) -> Result<(), Fail> {
    writes(&rt, rt.alloc(), Order::Fair, &OFFERED, &OFFERED_DEEDS)?;
    writes(&rt, rt.alloc(), Order::Fair, &POLLED, &POLLED_DEEDS)?;
    writes(
        &rt,
        rt.alloc(),
        Order::Transfer,
        &TRANSFERRED,
        &TRANSFERRED_DEEDS,
    )
}

/// So many are given and taken by this call, over gates of this kind: each once.
fn meets<G: Fresh + Sync, R: Abort + Threads + Wait + Clock + Sync>(
    rt: &R,
    alloc: Global,
    most: u64,
    call: Call,
    wanted: (u64, u64, usize),
) -> Result<(), Fail> {
    let dealt = Deal::Meets(most, call);
    assert_eq!(rt; trade::<G, _>(rt, alloc, Order::Fair, dealt)?, wanted);
    assert_eq!(rt; trade::<G, _>(rt, alloc, Order::Unfair, dealt)?, wanted);
    assert_eq!(rt; trade::<G, _>(rt, alloc, Order::Transfer, dealt)?, wanted);
    Ok(())
}

#[test]
fn two_threads_meet(rt: HostRuntime) -> Result<(), Fail> {
    let wanted = (2_000, 2_001_000, 6_000);
    meets::<ParkGate, _>(&rt, rt.alloc(), 2_000, Call::Take, wanted)?;
    meets::<ParkGate, _>(&rt, rt.alloc(), 2_000, Call::PollFor(60_000), wanted)
}

#[test]
fn two_threads_that_never_wait_meet(rt: HostRuntime) -> Result<(), Fail> {
    let wanted = (100, 5_050, 300);
    meets::<Idle, _>(&rt, rt.alloc(), 100, Call::Take, wanted)?;
    meets::<Eager, _>(&rt, rt.alloc(), 100, Call::PollFor(60_000), wanted)
}

/// A call that waits is cut, or its seat was flagged before: it is told the same as who interrupts it.
pub fn is_cut<R: Abort + Threads + Wait + Clock + Sync>(
    rt: &R,
    alloc: Global,
    order: Order,
    call: Call,
    back: Option<u64>,
) -> Result<(), Fail> {
    let (cut, told, records) = trade::<ParkGate, _>(rt, alloc, order, Deal::Cuts(call, back))?;
    assert_eq!(rt; cut, told);
    assert!(rt; cut == 1 && records == 3 || cut == 2 && records == 2);
    Ok(())
}

#[test]
fn a_call_is_cut(rt: HostRuntime) -> Result<(), Fail> {
    is_cut(&rt, rt.alloc(), Order::Fair, Call::Take, None)?;
    is_cut(&rt, rt.alloc(), Order::Unfair, Call::Take, None)?;
    is_cut(&rt, rt.alloc(), Order::Transfer, Call::Take, None)
}
