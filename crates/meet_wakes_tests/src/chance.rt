//! Threads that make split calls of chance, all at one queue. Whatever their order, the queue is closed with one legal
//! history, which has each recorded call of each thread once.

ghost use Rattle.std.specs.Prelude.{◌≡◌, vec_len};
ghost use Rattle.meet_place.specs.Ledgers.{AreOf};

use meet_history::check;
use meet_shop::{Ask, Chance, Idle, Shop, Told, answer, ended, ending, gates, keep, request};
use meet_sync::{Back, Blanks, Chronicle, Ledgers, NewQueue};
use meet_tickets::{Base, Deed, Kind, Order};
use std::alloc::Global;
use std::marker::Brand;
use std::process::Abort;
use std::sync::Wait;
use std::sync::atomic::{AtomicU64, Ordering};
use std::test::*;
use std::thread;
use std::thread::Threads;

/// How many calls are made in all.
const STEPS: u64 = 20_000;

/// A seat makes so many calls of chance; those that were recorded are counted.
fn walk<N: Ledgers, R: Wait>(
    rt: &R,
    shop: &Shop<Idle, N>,
    first: Back<Deed, N>,
    seats: u64,
    recorded: &AtomicU64,
) -> Back<Deed, N> {
    let number = first.number().number();
    let mut chance = Chance::new(number.wrapping_add(seats));
    let mut back = first;
    let steps = STEPS.checked_div(seats).unwrap_or(0);
    for step in 0..steps {
        let item = number.wrapping_mul(STEPS).wrapping_add(step);
        let ask = match &back {
            Back::Free(_) => request(&mut chance, seats, item),
            Back::Held(_) => ending(&mut chance, seats),
        };
        let (again, told) = answer(rt, shop, back, ask);
        if told.is_recorded() {
            recorded.fetch_add(1, Ordering::SeqCst);
        }
        back = again;
    }
    back
}

/// How many seats have an open ticket.
fn held<N: Ledgers>(backs: &[Back<Deed, N>]) -> u64 {
    let mut held = 0u64;
    for back in backs {
        if let Back::Held(_) = back {
            held = held.saturating_add(1);
        }
    }
    held
}

/// What came of the calls: what the queue left, how many calls were recorded, and how many tickets stayed open.
struct Walked {
    chronicle: Chronicle<u64>,
    recorded: u64,
    open: u64,
}

/// A shop is made, each seat makes its calls in a thread of its own, and it is closed.
fn walking<N: Ledgers + Send + Sync, R: Threads + Wait + Sync>(
    rt: &R,
    alloc: Global,
    order: Order,
    parts: NewQueue<Idle>,
) -> Result<Walked, &'static str>
    requires ledgers { AreOf N.name N.folds N.moments N.parts parts.blanks }
    requires one_each { N.parts ≡ vec_len parts.gates }
    requires cap { N.cap ≡ 1048576 }
{
    let (shop, made) = match Shop::<Idle, N>::with_cap(alloc, order, parts, 1_048_576) {
        Ok(made) => made,
        Err(refused) => return Err(refused.why.name()),
    };
    let seats = made.len() as u64;
    let recorded = AtomicU64::new(0);
    let walk_one = |seat| walk(rt, &shop, Back::Free(seat), seats, &recorded);
    let Ok(backs) = thread::map_vec(rt, made, &walk_one) else {
        keep(shop);
        return Err("memory");
    };
    let open = held(backs.as_slice());
    let chronicle = ended(alloc, shop, backs)?;
    Ok(Walked {
        chronicle,
        recorded: recorded.into_inner(),
        open,
    })
}

/// So many threads walk at a queue of this order. Its records are legal, as many as the threads were told of, and leave
/// as many open tickets as the threads have.
fn wanders<R: Abort + Threads + Wait + Sync>(
    rt: &R,
    alloc: Global,
    order: Order,
    threads: u64,
) -> Result<(), Fail> {
    let gates = gates::<Idle>(alloc, threads)?;
    let blanks = Blanks::new(gates.len() as u64);
    let parts = NewQueue { gates, blanks };
    let Walked {
        chronicle,
        recorded,
        open,
    } = walking::<Brand, _>(rt, alloc, order, parts)?;
    let records = chronicle.records.as_slice();
    assert_eq!(rt; records.len() as u64, recorded);
    let standing = match check(
        alloc,
        Kind { order, bound: None },
        &Base::empty(alloc),
        records,
    ) {
        Ok(standing) => standing,
        Err(_) => return Err("the records aren't legal".into()),
    };
    assert_eq!(rt; standing.waiting.saturating_add(standing.uncollected), open);
    Ok(())
}

#[test]
fn two_threads(rt: HostRuntime) -> Result<(), Fail> {
    wanders(&rt, rt.alloc(), Order::Fair, 2)?;
    wanders(&rt, rt.alloc(), Order::Unfair, 2)?;
    wanders(&rt, rt.alloc(), Order::Transfer, 2)
}

#[test]
fn four_threads(rt: HostRuntime) -> Result<(), Fail> {
    wanders(&rt, rt.alloc(), Order::Fair, 4)?;
    wanders(&rt, rt.alloc(), Order::Unfair, 4)?;
    wanders(&rt, rt.alloc(), Order::Transfer, 4)
}

#[test]
fn eight_threads(rt: HostRuntime) -> Result<(), Fail> {
    wanders(&rt, rt.alloc(), Order::Fair, 8)?;
    wanders(&rt, rt.alloc(), Order::Unfair, 8)?;
    wanders(&rt, rt.alloc(), Order::Transfer, 8)
}
