//! Queues at size: many seats, many receipts of one seat, many kept items.

ghost use Rattle.std.specs.Prelude.{◌≡◌, vec_len};
ghost use Rattle.meet_place.specs.Ledgers.{AreOf};

use meet_shop::{Ask, Idle, Seats, Shop, Told, ask_one, closed, drain_one, gates, keep, seated};
use meet_sync::{Back, Blanks, Chronicle, Ledgers, NewQueue, Seat};
use meet_tickets::{Deed, Order};
use std::alloc::Global;
use std::marker::Brand;
use std::process::Abort;
use std::sync::Wait;
use std::test::*;

/// What the seats of a queue do: the first puts so many items, numbered from 0, and polls so often; then the last
/// drains so many.
#[derive(Clone, Copy)]
struct Load {
    order: Order,
    seats: u64,
    puts: u64,
    polls: u64,
    drained: u64,
}

/// A seat puts items, each of which is kept, and polls, and finds nothing.
fn works<N: Ledgers, R: Abort + Wait>(
    rt: &R,
    shop: &Shop<Idle, N>,
    seat: &mut Option<Back<Deed, N>>,
    load: Load,
) {
    for item in 0..load.puts {
        assert_eq!(rt; ask_one(rt, shop, seat, Ask::Put(item)), Told::Kept);
    }
    for _ in 0..load.polls {
        assert_eq!(rt; ask_one(rt, shop, seat, Ask::Poll), Told::Failed(None));
    }
}

/// A seat drains just so many items, the oldest first.
fn draws<N: Ledgers, R: Abort + Wait>(
    rt: &R,
    alloc: Global,
    shop: &Shop<Idle, N>,
    seat: &mut Option<Back<Deed, N>>,
    load: Load,
) {
    if let Some(items) = drain_one(rt, alloc, shop, seat, load.drained) {
        assert_eq!(rt; items.len() as u64, load.drained);
        for (number, item) in items.iter().enumerate() {
            assert_eq!(rt; *item, number as u64);
        }
    }
}

/// The seats work, and the shop is closed.
fn laden<N: Ledgers, R: Abort + Wait>(
    rt: &R,
    alloc: Global,
    shop: Shop<Idle, N>,
    made: Vec<Seat<Deed, N>>,
    load: Load,
) -> Result<Chronicle<u64>, &'static str> {
    match seated(alloc, made) {
        Ok(mut seats) => {
            labour(rt, alloc, &shop, &mut seats, load);
            closed(alloc, shop, seats)
        }
        Err(why) => {
            keep(shop);
            Err(why)
        }
    }
}

/// The first seat works, and then the last drains.
fn labour<N: Ledgers, R: Abort + Wait>(
    rt: &R,
    alloc: Global,
    shop: &Shop<Idle, N>,
    seats: &mut Seats<N>,
    load: Load,
) {
    if let Some(seat) = seats.get_mut(0) {
        works(rt, shop, seat, load);
    }
    if let Some(seat) = seats.last_mut() {
        draws(rt, alloc, shop, seat, load);
    }
}

/// A shop is made, and its seats work.
fn loading<N: Ledgers, R: Abort + Wait>(
    rt: &R,
    alloc: Global,
    parts: NewQueue<Idle>,
    load: Load,
) -> Result<Chronicle<u64>, &'static str>
    requires ledgers { AreOf N.name N.folds N.moments N.parts parts.blanks }
    requires one_each { N.parts ≡ vec_len parts.gates }
    requires cap { N.cap ≡ 1048576 }
{
    match Shop::<Idle, N>::with_cap(alloc, load.order, parts, 1_048_576) {
        Ok((shop, seats)) => laden(rt, alloc, shop, seats, load),
        Err(refused) => Err(refused.why.name()),
    }
}

/// The seats of a queue work. Each call has its record, each seat its list, and what isn't drained is left.
fn bears<R: Abort + Wait>(rt: &R, alloc: Global, load: Load) -> Result<(), Fail> {
    let gates = gates::<Idle>(alloc, load.seats)?;
    let blanks = Blanks::new(gates.len() as u64);
    let parts = NewQueue { gates, blanks };
    let chronicle = loading::<Brand, _>(rt, alloc, parts, load)?;
    let calls = load.puts.saturating_add(load.polls);
    assert_eq!(rt;
        chronicle.records.len() as u64,
        calls.saturating_add(load.drained)
    );
    assert_eq!(rt; chronicle.lists.len() as u64, load.seats);
    assert_eq!(rt;
        chronicle.left.len() as u64,
        load.puts.saturating_sub(load.drained)
    );
    Ok(())
}

#[test]
fn a_seat_of_many_receipts(rt: HostRuntime) -> Result<(), Fail> {
    let load = Load {
        order: Order::Fair,
        seats: 1,
        puts: 0,
        polls: 65_600,
        drained: 0,
    };
    bears(&rt, rt.alloc(), load)
}

#[test]
fn many_items_are_kept_and_drained(rt: HostRuntime) -> Result<(), Fail> {
    let load = Load {
        order: Order::Transfer,
        seats: 2,
        puts: 66_000,
        polls: 0,
        drained: 2_000,
    };
    bears(&rt, rt.alloc(), load)
}

#[test]
fn as_many_seats_as_there_can_be(rt: HostRuntime) -> Result<(), Fail> {
    let load = Load {
        order: Order::Unfair,
        seats: 65_536,
        puts: 0,
        polls: 1,
        drained: 0,
    };
    bears(&rt, rt.alloc(), load)
}
