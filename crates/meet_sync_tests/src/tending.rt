//! A queue that is tended never fills.

ghost use Rattle.std.specs.Prelude.{◌≡◌, vec_len};
ghost use Rattle.meet_place.specs.Ledgers.{AreOf};

use meet_shop::{
    Chance, Idle, Seats, Shop, Told, ask_one, closed, ending, gates, keep, request, seated,
};
use meet_sync::{Back, Blanks, Chronicle, Ledgers, NewQueue};
use meet_tickets::{Deed, Order, Refusal};
use std::alloc::Global;
use std::marker::Brand;
use std::process::Abort;
use std::sync::Wait;
use std::test::*;

/// How many calls of chance are made at a queue.
const STEPS: u64 = 1_000;

/// How many records a queue has room for, a seat: the fewest with which a tended queue never fills.
const ROOM: u64 = 16;

/// A queue that is tried, and whether its seats tend it.
#[derive(Clone, Copy)]
struct Trial {
    order: Order,
    seats: u64,
    tends: bool,
}

/// A seat that has no open ticket tends the queue.
fn tends<N: Ledgers, R: Abort + Wait>(
    rt: &R,
    shop: &Shop<Idle, N>,
    place: &mut Option<Back<Deed, N>>,
) {
    match place.take() {
        Some(Back::Free(seat)) => match shop.tend(rt, seat) {
            Ok(seat) => *place = Some(Back::Free(seat)),
            Err(_) => panic!(rt; "a tending is refused"),
        },
        other => *place = other,
    }
}

/// A seat makes a call of chance: whether it found the history full.
fn finds_full<N: Ledgers, R: Abort + Wait>(
    rt: &R,
    shop: &Shop<Idle, N>,
    place: &mut Option<Back<Deed, N>>,
    chance: &mut Chance,
    trial: Trial,
) -> bool {
    let item = chance.below(1_000);
    let ask = match place {
        Some(Back::Held(_)) => ending(chance, trial.seats),
        _ => request(chance, trial.seats, item),
    };
    match ask_one(rt, shop, place, ask) {
        Told::Refused(why, _) => {
            assert_eq!(rt; why, Refusal::HistoryFull);
            true
        }
        _ => false,
    }
}

/// How many calls of chance find the history full.
fn full_calls<N: Ledgers, R: Abort + Wait>(
    rt: &R,
    shop: &Shop<Idle, N>,
    seats: &mut Seats<N>,
    trial: Trial,
) -> u64 {
    let mut chance = Chance::new(trial.seats);
    let mut full = 0u64;
    for _ in 0..STEPS {
        let at = chance.below(trial.seats) as usize;
        if let Some(place) = seats.get_mut(at) {
            if finds_full(rt, shop, place, &mut chance, trial) {
                full = full.saturating_add(1);
            }
            if trial.tends {
                tends(rt, shop, place);
            }
        }
    }
    full
}

/// What a queue with room for so many records comes to, and how many calls found its history full.
fn tried<N: Ledgers, R: Abort + Wait>(
    rt: &R,
    alloc: Global,
    parts: NewQueue<Idle>,
    cap: u64,
    trial: Trial,
) -> Result<(Chronicle<u64>, u64), &'static str>
    requires ledgers { AreOf N.name N.folds N.moments N.parts parts.blanks }
    requires one_each { N.parts ≡ vec_len parts.gates }
    requires cap { N.cap ≡ cap }
{
    let (shop, made) = match Shop::<Idle, N>::with_cap(alloc, trial.order, parts, cap) {
        Ok(made) => made,
        Err(refused) => return Err(refused.why.name()),
    };
    match seated(alloc, made) {
        Ok(mut seats) => {
            let full = full_calls(rt, &shop, &mut seats, trial);
            match closed(alloc, shop, seats) {
                Ok(chronicle) => Ok((chronicle, full)),
                Err(why) => Err(why),
            }
        }
        Err(why) => {
            keep(shop);
            Err(why)
        }
    }
}

/// How many calls of a trial find the history full, and how many records are folded away.
fn trying<R: Abort + Wait>(
    rt: &R,
    alloc: Global,
    trial: Trial,
) -> Result<(u64, u64), &'static str> {
    let gates = gates::<Idle>(alloc, trial.seats)?;
    let blanks = Blanks::new(gates.len() as u64);
    let cap = ROOM.saturating_mul(trial.seats);
    let parts = NewQueue { gates, blanks };
    let (chronicle, full) = tried::<Brand, R>(rt, alloc, parts, cap, trial)?;
    Ok((full, chronicle.base.gone))
}

#[test]
fn tended_queues_never_fill(rt: HostRuntime) -> Result<(), Fail> {
    for order in [Order::Fair, Order::Unfair, Order::Transfer] {
        for seats in [1, 2, 7] {
            let tends = true;
            let trial = Trial {
                order,
                seats,
                tends,
            };
            let (full, gone) = trying(&rt, rt.alloc(), trial)?;
            assert_eq!(&rt; full, 0);
            assert!(&rt; gone > 2 * ROOM * seats, "{gone} were folded away");
        }
    }
    Ok(())
}

#[test]
fn untended_queues_fill(rt: HostRuntime) -> Result<(), Fail> {
    for order in [Order::Fair, Order::Unfair, Order::Transfer] {
        let (seats, tends) = (2, false);
        let trial = Trial {
            order,
            seats,
            tends,
        };
        let (full, gone) = trying(&rt, rt.alloc(), trial)?;
        assert!(&rt; full > 100, "{full} were refused");
        assert_eq!(&rt; gone, 0);
    }
    Ok(())
}
