//! What happens at a queue, step by step: what seats ask of it and call, what they drain, and what it shows.

ghost use Rattle.std.specs.Prelude.{◌≡◌, vec_len};
ghost use Rattle.meet_place.specs.Ledgers.{AreOf};

use crate::asks::{Ask, Told};
use crate::calls::{Call, called};
use crate::drains::drained;
use crate::plays::{NOTHING, Seats, Story, ask_all, closed, seated, tells};
use crate::shops::{Shop, keep};
use crate::unlike::Unlike;
use crate::waiting::{Idle, gates};
use meet_line::Line;
use meet_sync::{Back, Blanks, Chronicle, Gate, Ledgers, NewQueue, Seat, SyncQueue, TransferQueue};
use meet_tickets::{Deed, Order};
use std::alloc::Global;
use std::marker::Brand;
use std::sync::Wait;
use std::test::Fail;
use std::time::Clock;

/// What a queue is asked to show, with its answer.
#[derive(Clone, Copy, PartialEq, Debug)]
pub enum Probe {
    Size(u64),
    IsEmpty(bool),
    Peek(Option<u64>),
    Remaining(u64),
    /// Whether it contains this item.
    Contains(u64, bool),
    /// How many takers wait.
    Consumers(u64),
    /// Whether a taker waits.
    HasConsumer(bool),
    /// There is no such probe.
    Unasked,
}

/// One thing that happens at a queue.
#[derive(Clone, Copy)]
pub enum Step<'a> {
    /// A seat asks, and is told this.
    Asks(u64, Ask, Told),
    /// A seat makes a whole call, and is told this.
    Calls(u64, Call, Told),
    /// A seat drains up to so many items, and takes these.
    Drains(u64, u64, &'a [u64]),
    /// The queue shows this.
    Shows(Probe),
}

/// What a synchronous queue shows.
fn shown_by<L: Line<u64>, G, N: Ledgers>(queue: &SyncQueue<u64, L, G, N>, probe: Probe) -> Probe {
    match probe {
        Probe::Size(_) => Probe::Size(queue.size()),
        Probe::IsEmpty(_) => Probe::IsEmpty(queue.is_empty()),
        Probe::Peek(_) => Probe::Peek(queue.peek_mark()),
        Probe::Remaining(_) => Probe::Remaining(queue.remaining_capacity()),
        Probe::Contains(item, _) => Probe::Contains(item, queue.contains(item)),
        _ => Probe::Unasked,
    }
}

/// What a transfer queue shows.
fn shown_within<G, N: Ledgers, R: Wait>(
    rt: &R,
    queue: &TransferQueue<u64, G, N>,
    probe: Probe,
) -> Probe {
    match probe {
        Probe::Size(_) => Probe::Size(queue.size(rt)),
        Probe::IsEmpty(_) => Probe::IsEmpty(queue.is_empty(rt)),
        Probe::Peek(_) => Probe::Peek(queue.peek_mark(rt)),
        Probe::Remaining(_) => Probe::Remaining(queue.remaining_capacity()),
        Probe::Consumers(_) => Probe::Consumers(queue.waiting_consumers(rt)),
        Probe::HasConsumer(_) => Probe::HasConsumer(queue.has_waiting_consumer(rt)),
        _ => Probe::Unasked,
    }
}

/// What a queue shows.
fn shown<G, N: Ledgers, R: Wait>(rt: &R, shop: &Shop<G, N>, probe: Probe) -> Probe {
    match shop {
        Shop::Fair(queue) => shown_by(queue, probe),
        Shop::Unfair(queue) => shown_by(queue, probe),
        Shop::Transfer(queue) => shown_within(rt, queue, probe),
    }
}

/// A seat drains up to so many items: those that it took.
pub fn drain_one<G: Gate, N: Ledgers, R: Wait>(
    rt: &R,
    alloc: Global,
    shop: &Shop<G, N>,
    place: &mut Option<Back<Deed, N>>,
    max: u64,
) -> Option<Vec<u64>> {
    match place.take() {
        Some(Back::Free(seat)) => {
            let (back, items) = drained(shop.drain(rt, alloc, seat, max));
            *place = Some(back);
            items
        }
        Some(Back::Held(pending)) => {
            *place = Some(Back::Held(pending));
            None
        }
        None => None,
    }
}

/// A seat makes a whole call: what it is told.
fn calls<G: Gate, N: Ledgers, R: Wait + Clock>(
    rt: &R,
    shop: &Shop<G, N>,
    place: &mut Option<Back<Deed, N>>,
    call: Call,
) -> Told {
    match place.take() {
        Some(back) => {
            let (back, told) = called(rt, shop, back, call);
            *place = Some(back);
            told
        }
        None => Told::Unasked,
    }
}

/// A seat makes a whole call, and is told this.
fn calls_so<G: Gate + Drop, N: Ledgers, R: Wait + Clock>(
    rt: &R,
    shop: &Shop<G, N>,
    seats: &mut Seats<N>,
    number: u64,
    call: Call,
    wanted: Told,
) -> Result<(), Unlike> {
    let told = match seats.get_mut(number as usize) {
        Some(place) => calls(rt, shop, place, call),
        None => Told::Unasked,
    };
    if told == wanted {
        Ok(())
    } else {
        Err(Unlike::Told(number, told))
    }
}

/// A seat drains up to so many items, and takes these.
fn drains_so<G: Gate + Drop, N: Ledgers, R: Wait>(
    rt: &R,
    alloc: Global,
    shop: &Shop<G, N>,
    seats: &mut Seats<N>,
    number: u64,
    max: u64,
    wanted: &[u64],
) -> Result<(), Unlike> {
    let items = match seats.get_mut(number as usize) {
        Some(place) => drain_one(rt, alloc, shop, place, max),
        None => None,
    };
    match items {
        Some(items) => {
            if items.as_slice() == wanted {
                Ok(())
            } else {
                Err(Unlike::Drained(number, Some(items.len())))
            }
        }
        None => Err(Unlike::Drained(number, None)),
    }
}

/// A queue shows this.
fn shows_so<G, N: Ledgers, R: Wait>(
    rt: &R,
    shop: &Shop<G, N>,
    wanted: Probe,
) -> Result<(), Unlike> {
    let probe = shown(rt, shop, wanted);
    if probe == wanted {
        Ok(())
    } else {
        Err(Unlike::Shown(probe))
    }
}

/// One step is made, and comes to what it should.
fn step_once<G: Gate + Drop, N: Ledgers, R: Wait + Clock>(
    rt: &R,
    alloc: Global,
    shop: &Shop<G, N>,
    seats: &mut Seats<N>,
    step: Step<'_>,
) -> Result<(), Unlike> {
    match step {
        Step::Asks(number, ask, wanted) => ask_all(rt, shop, seats, &[(number, ask, wanted)]),
        Step::Calls(number, call, wanted) => calls_so(rt, shop, seats, number, call, wanted),
        Step::Drains(number, max, wanted) => drains_so(rt, alloc, shop, seats, number, max, wanted),
        Step::Shows(wanted) => shows_so(rt, shop, wanted),
    }
}

/// Steps are made, one after another.
fn step_all<G: Gate + Drop, N: Ledgers, R: Wait + Clock>(
    rt: &R,
    alloc: Global,
    shop: &Shop<G, N>,
    seats: &mut Seats<N>,
    steps: &[Step<'_>],
) -> Result<(), Unlike> {
    for step in steps {
        step_once(rt, alloc, shop, seats, *step)?;
    }
    Ok(())
}

/// A shop is made, steps are made there, and it is closed.
fn stepping<N: Ledgers, R: Wait + Clock>(
    rt: &R,
    alloc: Global,
    order: Order,
    parts: NewQueue<Idle>,
    steps: &[Step<'_>],
) -> Result<Chronicle<u64>, Unlike>
    requires ledgers { AreOf N.name N.folds N.moments N.parts parts.blanks }
    requires one_each { N.parts ≡ vec_len parts.gates }
    requires cap { N.cap ≡ 100 }
{
    let (shop, made) = match Shop::<Idle, N>::with_cap(alloc, order, parts, 100) {
        Ok(made) => made,
        Err(refused) => return Err(Unlike::Why(refused.why.name())),
    };
    match seated(alloc, made) {
        Ok(mut seats) => {
            let made = step_all(rt, alloc, &shop, &mut seats, steps);
            let chronicle = closed(alloc, shop, seats)?;
            made?;
            Ok(chronicle)
        }
        Err(why) => {
            keep(shop);
            Err(Unlike::Why(why))
        }
    }
}

/// These steps are made at a queue of this order by four seats; then nobody waits, and nothing is left.
pub fn happens<R: Wait + Clock>(
    rt: &R,
    alloc: Global,
    order: Order,
    steps: &[Step<'_>],
) -> Result<(), Fail> {
    let gates = gates::<Idle>(alloc, 4)?;
    let blanks = Blanks::new(gates.len() as u64);
    let parts = NewQueue { gates, blanks };
    let chronicle = stepping::<Brand, _>(rt, alloc, order, parts, steps)?;
    let story = Story {
        order,
        seats: 4,
        cap: 100,
        rows: &[],
        standing: NOTHING,
        left: &[],
    };
    tells(alloc, chronicle, story)?;
    Ok(())
}
