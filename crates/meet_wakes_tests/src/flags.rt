//! How long a timed call waits, in two threads, over a gate that tells when somebody waits there.

ghost use Rattle.std.specs.Prelude.{◌≡◌, vec_len};
ghost use Rattle.meet_place.specs.Ledgers.{AreOf};

use meet_shop::{
    Call, Came, FlagGate, Flags, NOTHING, Shop, Story, Told, called, ended, tells, two_backs,
    two_seats,
};
use meet_sync::{Back, Blanks, Chronicle, Ledgers, NewQueue, Seat};
use meet_tickets::{Deed, Order};
use std::alloc::Global;
use std::marker::Brand;
use std::process::Abort;
use std::sync::{Arc, Wait};
use std::test::*;
use std::thread;
use std::thread::Threads;
use std::time::Clock;

/// A timed call of one thread, and one of another that comes once the first waits; what each is told.
#[derive(Clone, Copy)]
struct Timed {
    call: Call,
    /// For how many milliseconds it waits.
    limit: u64,
    told: Told,
    other: Call,
    other_told: Told,
}

/// One thread makes the timed call, and the other its own once the first waits.
fn pair<N: Ledgers + Send + Sync, R: Threads + Wait + Clock + Sync>(
    rt: &R,
    shop: &Shop<FlagGate, N>,
    first: Back<Deed, N>,
    second: Back<Deed, N>,
    flags: &Flags,
    timed: Timed,
) -> (Came<N>, Came<N>) {
    thread::join(
        rt,
        move || called(rt, shop, first, timed.call),
        move || {
            flags.await_entry(rt);
            called(rt, shop, second, timed.other)
        },
    )
}

/// Two seats make their calls, and the shop is closed.
fn dealt<N: Ledgers + Send + Sync, R: Abort + Threads + Wait + Clock + Sync>(
    rt: &R,
    alloc: Global,
    shop: Shop<FlagGate, N>,
    made: Vec<Seat<Deed, N>>,
    flags: &Flags,
    timed: Timed,
) -> Result<Chronicle<u64>, &'static str> {
    let (first, second) = two_seats(made).expect(rt, "no seats");
    let (one, two) = pair(
        rt,
        &shop,
        Back::Free(first),
        Back::Free(second),
        flags,
        timed,
    );
    let (first, told) = one;
    let (second, other_told) = two;
    assert_eq!(rt; told, timed.told);
    assert_eq!(rt; other_told, timed.other_told);
    let backs = two_backs(alloc, first, second).expect(rt, "memory");
    ended(alloc, shop, backs)
}

/// A shop of this order is made, and two seats make their calls.
fn dealing<N: Ledgers + Send + Sync, R: Abort + Threads + Wait + Clock + Sync>(
    rt: &R,
    alloc: Global,
    order: Order,
    parts: NewQueue<FlagGate>,
    flags: &Flags,
    timed: Timed,
) -> Result<Chronicle<u64>, &'static str>
    requires ledgers { AreOf N.name N.folds N.moments N.parts parts.blanks }
    requires one_each { N.parts ≡ vec_len parts.gates }
    requires cap { N.cap ≡ 100 }
{
    match Shop::<FlagGate, N>::with_cap(alloc, order, parts, 100) {
        Ok((shop, seats)) => dealt(rt, alloc, shop, seats, flags, timed),
        Err(refused) => Err(refused.why.name()),
    }
}

/// The timed call waits for all of its limit at first, is woken, and meets the other call.
fn meets<R: Abort + Threads + Wait + Clock + Sync>(
    rt: &R,
    alloc: Global,
    order: Order,
    timed: Timed,
) -> Result<(), Fail> {
    let flags = Arc::new(alloc, Flags::new())?;
    let mut gates = Vec::new(alloc);
    gates.push(FlagGate::new(Arc::try_clone(&flags)?))?;
    gates.push(FlagGate::new(Arc::new(alloc, Flags::new())?))?;
    let blanks = Blanks::new(gates.len() as u64);
    let parts = NewQueue { gates, blanks };
    let chronicle = dealing::<Brand, _>(rt, alloc, order, parts, &flags, timed)?;
    assert_eq!(rt; flags.limit(), timed.limit);
    assert!(rt; flags.is_raised());
    let story = Story {
        order,
        seats: 2,
        cap: 100,
        rows: &[],
        standing: NOTHING,
        left: &[],
    };
    assert_eq!(rt; tells(alloc, chronicle, story)?, 3);
    Ok(())
}

/// A timed give that a poll meets.
const fn given(call: Call, limit: u64) -> Timed {
    Timed {
        call,
        limit,
        told: Told::Done,
        other: Call::Poll,
        other_told: Told::Got(1, 3),
    }
}

/// A timed poll that an offer meets.
const POLLED: Timed = Timed {
    call: Call::PollFor(50),
    limit: 50,
    told: Told::Got(2, 3),
    other: Call::Offer(3),
    other_told: Told::Gave(1),
};

/// A poll that waits, and a transfer that meets it.
const TRANSFERRED: Timed = Timed {
    call: Call::PollFor(50),
    limit: 50,
    told: Told::Got(2, 5),
    other: Call::Transfer(5),
    other_told: Told::Gave(1),
};

#[test]
fn a_timed_offer_waits_for_a_poll(rt: HostRuntime) -> Result<(), Fail> {
    meets(
        &rt,
        rt.alloc(),
        Order::Fair,
        given(Call::OfferFor(3, 50), 50),
    )?;
    meets(
        &rt,
        rt.alloc(),
        Order::Unfair,
        given(Call::OfferFor(3, 50), 50),
    )
}

/// Also where it is longer than a second.
#[test]
fn a_timed_offer_waits_for_all_of_its_limit(rt: HostRuntime) -> Result<(), Fail> {
    let long = given(Call::OfferFor(3, 8_000), 8_000);
    meets(&rt, rt.alloc(), Order::Fair, long)?;
    meets(&rt, rt.alloc(), Order::Unfair, long)
}

#[test]
fn a_timed_poll_waits_for_an_offer(rt: HostRuntime) -> Result<(), Fail> {
    meets(&rt, rt.alloc(), Order::Fair, POLLED)?;
    meets(&rt, rt.alloc(), Order::Unfair, POLLED)?;
    meets(&rt, rt.alloc(), Order::Transfer, POLLED)?;
    meets(&rt, rt.alloc(), Order::Transfer, TRANSFERRED)
}

#[test]
fn a_timed_transfer_waits_for_a_poll(rt: HostRuntime) -> Result<(), Fail> {
    let transferred = given(Call::TransferFor(3, 50), 50);
    meets(&rt, rt.alloc(), Order::Transfer, transferred)
}
