//! A round: a queue, workers that make calls of chance, and one that interrupts them until they are done. Then the
//! queue is closed, its records are checked once more, and every item is looked for.

mod accounts;
mod seen;
mod work;

ghost use Rattle.std.specs.Prelude.{◌≡◌, None, IfOk, vec_len};
ghost use Rattle.meet_tickets.specs.Bases.{IsWellFormed};
ghost use Rattle.meet_place.specs.Ledgers.{AreOf};

use self::accounts::Account;
use self::seen::{sort, write_calls};
use self::work::{Done, Round, interrupts, works};
use meet_cells::{ParkGate, SpinGate};
use meet_history::check;
use meet_shop::{Fresh, Shop, gates, keep};
use meet_sync::{Back, Blanks, Chronicle, Ledgers, NewQueue, QueueFault, Seat};
use meet_tickets::{Deed, Kind, MOST_RECORDS, Order};
use std::alloc::Global;
use std::io::Write;
use std::marker::Brand;
use std::sync::Wait;
use std::sync::atomic::{AtomicU64, Ordering};
use std::thread;
use std::thread::Threads;
use std::time::Clock;

/// How many records a seat a queue has room for that is tended, so that it never fills.
const ROOM: u64 = 32;

/// The round of this number: by it the queue's order, from 2 to 8 workers, and whether the queue has room for few
/// records or for many.
fn round_of(number: u64, is_judged: bool) -> Round {
    let seats = 3 + number / 6 % 7;
    Round {
        order: match number % 3 {
            0 => Order::Fair,
            1 => Order::Unfair,
            _ => Order::Transfer,
        },
        seats,
        cap: if number / 42 % 2 == 0 {
            ROOM * seats
        } else {
            MOST_RECORDS
        },
        seed: number,
        is_judged,
    }
}

/// The workers make their calls, each in a thread of its own, and the thread with the last seat interrupts them until all
/// are done. Returns the seats, and the account of all.
fn work_all<G: Fresh + Sync, N: Ledgers + Send + Sync, R: Threads + Wait + Clock + Sync>(
    rt: &R,
    alloc: Global,
    shop: &Shop<G, N>,
    seats: Vec<Seat<Deed, N>>,
    round: Round,
) -> Result<(Vec<Back<Deed, N>>, Account), &'static str> {
    let last = round.seats.saturating_sub(1);
    let busy = AtomicU64::new(last);
    let stamps = AtomicU64::new(0);
    let job = |seat: Seat<Deed, N>| -> Done<N> {
        if seat.number().number() == last {
            return interrupts(rt, alloc, shop, &stamps, seat, round, &busy);
        }
        let done = works(rt, alloc, shop, &stamps, Back::Free(seat), round);
        busy.fetch_sub(1, Ordering::SeqCst);
        done
    };
    let all = thread::map_vec(rt, seats, &job).map_err(|_| "memory")?;
    let mut backs = Vec::new(alloc);
    let mut sum = Account::new(alloc);
    for (back, account) in all {
        sum.add(account);
        backs.push(back).map_err(|_| "memory")?;
    }
    Ok((backs, sum))
}

/// Whether these are the same items, which are sorted by that.
fn are_same(one: &mut Vec<u64>, other: &mut Vec<u64>) -> Result<bool, &'static str> {
    one.sort().map_err(|_| "memory")?;
    other.sort().map_err(|_| "memory")?;
    Ok(one.as_slice() == other.as_slice())
}

/// How many receipts behind the base stand in the seats' lists.
fn listed(chronicle: &Chronicle<u64>) -> usize {
    let gone = chronicle.base.gone;
    let mut listed = 0usize;
    for list in chronicle.lists.iter() {
        for receipt in list.iter() {
            if receipt.place() > gone {
                listed = listed.saturating_add(1);
            }
        }
    }
    listed
}

/// The records are legal behind the base, and each stands in a list.
fn stand(alloc: Global, order: Order, chronicle: &Chronicle<u64>) -> Result<(), &'static str>
    requires { IsWellFormed (record { order = order; bound = None }) chronicle.now.base }
{
    let records = chronicle.records.as_slice();
    let kind = Kind { order, bound: None };
    if check(alloc, kind, &chronicle.base, records).is_err() {
        return Err("the records aren't legal");
    }
    if listed(chronicle) != records.len() {
        return Err("a record stands in no list");
    }
    Ok(())
}

/// Every item that was given is there once: it came to somebody, or is left.
fn are_found(chronicle: &Chronicle<u64>, account: &mut Account) -> Result<(), &'static str> {
    for left in chronicle.left.iter() {
        account.came.push(left.item).map_err(|_| "memory")?;
    }
    if are_same(&mut account.given, &mut account.came)? {
        Ok(())
    } else {
        Err("an item is lost or doubled")
    }
}

/// Nothing went wrong before, the records stand, and every item is found.
fn finds_all(
    alloc: Global,
    order: Order,
    chronicle: &Chronicle<u64>,
    account: &mut Account,
) -> Result<(), &'static str>
    requires { IsWellFormed (record { order = order; bound = None }) chronicle.now.base }
{
    if let Some(fault) = account.fault {
        return Err(fault);
    }
    stand(alloc, order, chronicle)?;
    are_found(chronicle, account)
}

/// The account of all at a queue that is closed and stands, or what went wrong.
fn judged<Q: Drop, B: Drop, N: Ledgers>(
    alloc: Global,
    order: Order,
    closed: Result<Chronicle<u64>, QueueFault<Q, B, N>>,
    account: Account,
) -> Result<Account, &'static str>
    requires { IfOk closed (λ c. IsWellFormed (record { order = order; bound = None }) c.base) }
{
    match closed {
        Ok(chronicle) => {
            let mut account = account;
            finds_all(alloc, order, &chronicle, &mut account)?;
            Ok(account)
        }
        Err(fault) => {
            let why = fault.why();
            keep(fault);
            Err(why.name())
        }
    }
}

/// A shop is closed with all its seats: the account of all, or what went wrong.
fn closed<G: Fresh, N: Ledgers>(
    alloc: Global,
    shop: Shop<G, N>,
    backs: Vec<Back<Deed, N>>,
    account: Account,
) -> Result<Account, &'static str> {
    match shop {
        Shop::Fair(queue) => judged(alloc, Order::Fair, queue.close(alloc, backs), account),
        Shop::Unfair(queue) => judged(alloc, Order::Unfair, queue.close(alloc, backs), account),
        Shop::Transfer(queue) => judged(alloc, Order::Transfer, queue.close(alloc, backs), account),
    }
}

/// A round at a queue of these parts.
fn held<G: Fresh + Sync, N: Ledgers + Send + Sync, R: Threads + Wait + Clock + Sync>(
    rt: &R,
    alloc: Global,
    parts: NewQueue<G>,
    round: Round,
) -> Result<Account, &'static str>
    requires ledgers { AreOf N.name N.folds N.moments N.parts parts.blanks }
    requires one_each { N.parts ≡ vec_len parts.gates }
    requires cap { N.cap ≡ round.cap }
{
    let (shop, made) = match Shop::<G, N>::with_cap(alloc, round.order, parts, round.cap) {
        Ok(made) => made,
        Err(refused) => return Err(refused.why.name()),
    };
    match work_all(rt, alloc, &shop, made, round) {
        Ok((backs, account)) => closed(alloc, shop, backs, account),
        Err(why) => {
            keep(shop);
            Err(why)
        }
    }
}

/// Holds a round over gates of this kind: the account of all, or what went wrong.
fn hold<G: Fresh + Sync, R: Threads + Wait + Clock + Sync>(
    rt: &R,
    alloc: Global,
    round: Round,
) -> Result<Account, &'static str> {
    let gates = gates::<G>(alloc, round.seats)?;
    let blanks = Blanks::new(gates.len() as u64);
    let parts = NewQueue { gates, blanks };
    held::<G, Brand, R>(rt, alloc, parts, round)
}

/// Holds a round, over gates by its number.
fn hold_one<R: Threads + Wait + Clock + Sync>(
    rt: &R,
    alloc: Global,
    round: Round,
) -> Result<Account, &'static str> {
    if round.seed / 3 % 2 == 0 {
        hold::<ParkGate, R>(rt, alloc, round)
    } else {
        hold::<SpinGate, R>(rt, alloc, round)
    }
}

/// Holds the round of this number. Returns what went wrong, if anything did.
pub fn hold_round<R: Threads + Wait + Clock + Sync>(
    rt: &R,
    alloc: Global,
    number: u64,
) -> Result<(), &'static str> {
    hold_one(rt, alloc, round_of(number, false))?;
    Ok(())
}

/// Holds the round of this number without drains, and writes its calls. Returns how many checkpoints its seats made.
pub fn write_round<R: Threads + Wait + Clock + Sync, W: Write>(
    rt: &R,
    alloc: Global,
    number: u64,
    writer: &mut W,
) -> Result<u64, &'static str> {
    let round = round_of(number, true);
    let mut account = hold_one(rt, alloc, round)?;
    sort(&mut account.log.over);
    write_calls(alloc, round.order, account.log.over.as_slice(), writer).map_err(|why| why.name())?;
    Ok(account.checkpoints)
}
