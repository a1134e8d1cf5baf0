//! Calls of chance at gates that count. Each call wakes the seats whose open ticket it met or cut, once each, and no
//! other.

ghost use Rattle.std.specs.Prelude.{◌≡◌, vec_len};
ghost use Rattle.meet_place.specs.Ledgers.{AreOf};

use meet_shop::{
    Ask, Chance, Seats, Shop, Told, ask_one, closed, drain_one, ending, keep, request, seated,
};
use meet_sync::{Back, Blanks, Chronicle, Gate, Ledgers, NewQueue, Seat, Turn};
use meet_tickets::{Deed, Order};
use std::alloc::Global;
use std::marker::Brand;
use std::process::Abort;
use std::sync::atomic::{AtomicU64, Ordering};
use std::sync::{Arc, Wait};
use std::test::*;
use std::time::Clock;

/// How many seats ask.
const SEATS: u64 = 6;

/// How many calls are made at a queue.
const STEPS: u64 = 4_000;

/// A gate that counts how often it was woken, and where nobody waits.
#[derive(Drop)]
struct CountGate {
    wakes: Arc<AtomicU64>,
}

impl Gate for CountGate {
    fn wait<R: Wait + Clock>(&self, _rt: &R, _limit: Option<u64>) -> Turn {
        Turn::Elapsed
    }

    fn wake(&self) {
        self.wakes.fetch_add(1, Ordering::SeqCst);
    }
}

/// A ticket that is open, and the item that it gives.
#[derive(Clone, Copy)]
struct Ticketed {
    ticket: u64,
    item: Option<u64>,
}

/// What is known of a seat.
#[derive(Drop)]
struct Watched {
    open: Option<Ticketed>,
    /// How often its gate is to have been woken.
    due: u64,
    /// How often it was.
    wakes: Arc<AtomicU64>,
}

/// The seat whose open ticket is this one is to be woken.
fn meets(all: &mut Vec<Watched>, ticket: u64) {
    for seat in all.iter_mut() {
        if let Some(open) = seat.open {
            if open.ticket == ticket {
                seat.due = seat.due.saturating_add(1);
            }
        }
    }
}

/// The seat whose open ticket gives this item is to be woken.
fn drained(all: &mut Vec<Watched>, item: u64) {
    for seat in all.iter_mut() {
        if let Some(open) = seat.open {
            if open.item == Some(item) {
                seat.due = seat.due.saturating_add(1);
            }
        }
    }
}

/// The item that a request brings.
fn item_of(ask: Ask) -> Option<u64> {
    match ask {
        Ask::Give(item) => Some(item),
        Ask::Put(item) => Some(item),
        Ask::Offer(item) => Some(item),
        _ => None,
    }
}

/// A seat that had no open ticket asked this, and was told that.
fn requested(all: &mut Vec<Watched>, number: usize, ask: Ask, told: Told) {
    match told {
        Told::Parks(ticket) => {
            if let Some(seat) = all.get_mut(number) {
                seat.open = Some(Ticketed {
                    ticket,
                    item: item_of(ask),
                });
            }
        }
        Told::Gave(ticket) => meets(all, ticket),
        Told::Got(ticket, _) => meets(all, ticket),
        Told::Cut(ticket) => meets(all, ticket),
        _ => {}
    }
}

/// A seat that had an open ticket was told this.
fn followed(all: &mut Vec<Watched>, number: usize, told: Told) {
    let ended = match told {
        Told::Done => true,
        Told::Got(_, _) => true,
        Told::WasCut(_) => true,
        Told::Back(_) => true,
        _ => false,
    };
    if let Told::Cut(ticket) = told {
        meets(all, ticket);
    }
    if ended {
        if let Some(seat) = all.get_mut(number) {
            seat.open = None;
        }
    }
}

/// Each gate was woken as often as it is to have been.
fn agree(rt: &impl Abort, all: &Vec<Watched>) {
    for seat in all.iter() {
        assert_eq!(rt; seat.wakes.load(Ordering::SeqCst), seat.due);
    }
}

/// Whether a seat has an open ticket.
fn is_held<N: Ledgers>(seat: &Option<Back<Deed, N>>) -> bool {
    match seat {
        Some(Back::Held(_)) => true,
        _ => false,
    }
}

/// A seat makes a call of chance.
fn step<N: Ledgers, R: Abort + Wait>(
    rt: &R,
    shop: &Shop<CountGate, N>,
    seat: &mut Option<Back<Deed, N>>,
    chance: &mut Chance,
    all: &mut Vec<Watched>,
    number: usize,
    item: u64,
) {
    if is_held(seat) {
        let ask = ending(chance, SEATS);
        let told = ask_one(rt, shop, seat, ask);
        followed(all, number, told);
    } else {
        let ask = request(chance, SEATS, item);
        let told = ask_one(rt, shop, seat, ask);
        requested(all, number, ask, told);
    }
}

/// A seat without an open ticket drains two items at most.
fn drain<N: Ledgers, R: Abort + Wait>(
    rt: &R,
    alloc: Global,
    shop: &Shop<CountGate, N>,
    seat: &mut Option<Back<Deed, N>>,
    all: &mut Vec<Watched>,
) {
    if !is_held(seat) {
        if let Some(items) = drain_one(rt, alloc, shop, seat, 2) {
            for item in items {
                drained(all, item);
            }
        }
    }
}

/// Seats make calls of chance, one after another, and every eighth is a drain; after each the wakes are as they are to
/// be.
fn walk<N: Ledgers, R: Abort + Wait>(
    rt: &R,
    alloc: Global,
    shop: &Shop<CountGate, N>,
    seats: &mut Seats<N>,
    all: &mut Vec<Watched>,
) {
    let mut chance = Chance::new(SEATS);
    for item in 0..STEPS {
        let number = chance.below(SEATS) as usize;
        if let Some(seat) = seats.get_mut(number) {
            if chance.below(8) == 0 {
                drain(rt, alloc, shop, seat, all);
            } else {
                step(rt, shop, seat, &mut chance, all, number, item);
            }
        }
        agree(rt, all);
    }
}

/// The seats of a shop walk, and it is closed.
fn walked<N: Ledgers, R: Abort + Wait>(
    rt: &R,
    alloc: Global,
    shop: Shop<CountGate, N>,
    made: Vec<Seat<Deed, N>>,
    all: &mut Vec<Watched>,
) -> Result<Chronicle<u64>, &'static str> {
    match seated(alloc, made) {
        Ok(mut seats) => {
            walk(rt, alloc, &shop, &mut seats, all);
            closed(alloc, shop, seats)
        }
        Err(why) => {
            keep(shop);
            Err(why)
        }
    }
}

/// A shop of this order is made, and its seats walk.
fn walking<N: Ledgers, R: Abort + Wait>(
    rt: &R,
    alloc: Global,
    order: Order,
    parts: NewQueue<CountGate>,
    all: &mut Vec<Watched>,
) -> Result<Chronicle<u64>, &'static str>
    requires ledgers { AreOf N.name N.folds N.moments N.parts parts.blanks }
    requires one_each { N.parts ≡ vec_len parts.gates }
    requires cap { N.cap ≡ 100000 }
{
    match Shop::<CountGate, N>::with_cap(alloc, order, parts, 100_000) {
        Ok((shop, seats)) => walked(rt, alloc, shop, seats, all),
        Err(refused) => Err(refused.why.name()),
    }
}

/// Calls of chance at a queue of this order: how many wakes there were.
fn wakes<R: Abort + Wait>(rt: &R, alloc: Global, order: Order) -> Result<u64, Fail> {
    let mut gates = Vec::new(alloc);
    let mut all = Vec::new(alloc);
    for _ in 0..SEATS {
        let wakes = Arc::new(alloc, AtomicU64::new(0))?;
        gates.push(CountGate {
            wakes: Arc::try_clone(&wakes)?,
        })?;
        all.push(Watched {
            open: None,
            due: 0,
            wakes,
        })?;
    }
    let blanks = Blanks::new(gates.len() as u64);
    let parts = NewQueue { gates, blanks };
    walking::<Brand, _>(rt, alloc, order, parts, &mut all)?;
    let mut sum = 0u64;
    for seat in all.iter() {
        sum = sum.saturating_add(seat.due);
    }
    Ok(sum)
}

/// There are many wakes, and each is one that is due.
fn wakes_are_due<R: Abort + Wait>(rt: &R, alloc: Global, order: Order) -> Result<(), Fail> {
    let sum = wakes(rt, alloc, order)?;
    assert!(rt; sum > 100, "only {sum} wakes");
    Ok(())
}

#[test]
fn a_fair_queue_wakes_whom_it_met(rt: HostRuntime) -> Result<(), Fail> {
    wakes_are_due(&rt, rt.alloc(), Order::Fair)
}

#[test]
fn an_unfair_queue_wakes_whom_it_met(rt: HostRuntime) -> Result<(), Fail> {
    wakes_are_due(&rt, rt.alloc(), Order::Unfair)
}

#[test]
fn a_transfer_queue_wakes_whom_it_met(rt: HostRuntime) -> Result<(), Fail> {
    wakes_are_due(&rt, rt.alloc(), Order::Transfer)
}
