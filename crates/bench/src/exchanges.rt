//! Threads that exchange items at one exchanger, and one that waits alone.
//!
//! THREADS threads, each of which has an item, exchange what they have EACH times, ROUNDS times, each time at a new
//! exchanger. The item of a thread is its number, from 1. A thread ends early if no other is still at work that could
//! come. A line per round says how many items the threads have in the end, and their sum. Two on standard error say how
//! many exchanges there were, each counted at both of its threads, and after how many nanoseconds the last thread but one
//! had made its last.

use crate::counting::{now, since};
use meet_exchanger::{ExchangeTask, Exchanged, Exchanger, ExchangerHandle, Unmet, run_exchanger};
use meet_tickets::Refusal;
use std::alloc::Global;
use std::sync::{Mutex, Wait};
use std::thread::Threads;
use std::time::{Clock, Instant};

/// How many milliseconds an exchange takes at most, before its thread sees whether others are still at work.
const BOUT: u64 = 50;

/// How many bouts an exchange takes at most.
const MOST_BOUTS: u64 = 1_000;

/// What threads have in the end, how many exchanges they made, and how many nanoseconds after the begin the last but
/// one of them had made its last.
#[derive(Clone, Copy, Debug)]
struct Tally {
    at_work: u64,
    items: u64,
    sum: u64,
    exchanges: u64,
    nanoseconds: u128,
}

/// What the threads do.
#[derive(Drop)]
struct Race<'r, R> {
    rt: &'r R,
    each: u64,
    begin: Instant,
    tally: Mutex<Tally>,
}

impl<'r, R: Wait + Clock> Race<'r, R> {
    /// Exchanges this item for that of another thread, and waits for one while others are at work. None if none came.
    fn exchange<X: ExchangerHandle<u64>>(&self, exchanger: &mut X, item: u64) -> Option<u64> {
        for _ in 0..MOST_BOUTS {
            match exchanger.exchange_for(item, BOUT) {
                Ok(other) => return Some(other),
                Err(Unmet::TimedOut(_)) => {}
                Err(_) => return None,
            }
            if self.tally.lock(self.rt).at_work < 2 {
                return None;
            }
        }
        None
    }

    /// Notes that a thread has ended its work, with this item and after this number of exchanges.
    fn leave(&self, item: u64, exchanges: u64) {
        let mut tally = self.tally.lock(self.rt);
        let was = *tally;
        let nanoseconds = if was.at_work > 1 {
            since(self.rt, self.begin).unwrap_or(0)
        } else {
            was.nanoseconds
        };
        *tally = Tally {
            at_work: was.at_work.saturating_sub(1),
            items: was.items.saturating_add(1),
            sum: was.sum.saturating_add(item),
            exchanges: was.exchanges.saturating_add(exchanges),
            nanoseconds,
        };
    }
}

impl<'r, R: Wait + Clock> ExchangeTask<u64> for Race<'r, R> {
    type Output = ();

    fn run<X: ExchangerHandle<u64>>(&self, exchanger: &mut X) {
        let mut item = exchanger.number().saturating_add(1);
        let mut exchanges = 0u64;
        for _ in 0..self.each {
            let Some(other) = self.exchange(exchanger, item) else {
                break;
            };
            item = other;
            exchanges = exchanges.saturating_add(1);
        }
        self.leave(item, exchanges);
    }
}

/// Runs a round, closes the exchanger, and writes what came of it.
pub fn run_round<R>(rt: &R, alloc: Global, threads: u64, each: u64) -> Result<(), Refusal>
where
    R: Threads + Wait + Clock + Print + Eprint + Sync,
{
    let race = Race {
        rt,
        each,
        begin: now(rt)?,
        tally: Mutex::new(Tally {
            at_work: threads,
            items: 0,
            sum: 0,
            exchanges: 0,
            nanoseconds: 0,
        }),
    };
    if let Err(why) = run_exchanger(rt, alloc, threads, &race)?.log {
        return Err(why);
    }
    let Tally {
        items,
        sum,
        exchanges,
        nanoseconds,
        ..
    } = *race.tally.lock(rt);
    eprintln!(rt; "exchanges {exchanges}").map_err(|_| Refusal::WriteFault)?;
    eprintln!(rt; "nanoseconds {nanoseconds}").map_err(|_| Refusal::WriteFault)?;
    println!(rt; "items {items} sum {sum}").map_err(|_| Refusal::WriteFault)
}

/// Waits this many milliseconds for a partner, and none comes: prints the item that is returned.
pub fn wait_alone<R>(rt: &R, alloc: Global, milliseconds: u64) -> Result<(), Refusal>
where
    R: Wait + Clock + Print,
{
    let (exchanger, mut seats) = Exchanger::<u64>::new(alloc, 1)?;
    let seat = seats.pop().ok_or(Refusal::SeatMissing)?;
    if let Exchanged::TimedOut(_, item) = exchanger.exchange_for(rt, seat, 7, milliseconds) {
        return println!(rt; "{item} was returned").map_err(|_| Refusal::WriteFault);
    }
    Err(Refusal::Memory)
}
