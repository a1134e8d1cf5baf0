//! A seat that makes checkpoints at a transfer queue which buffers items: how long each takes, and what a put and a take
//! cost after it.
//!
//! One seat of a queue with SEATS seats puts KEPT items. In each of ROUNDS rounds it puts an item and takes one, 16 times,
//! and then makes a checkpoint and trims its list. The items are the numbers from 1. A line says how many items were
//! taken and their sum, how many are left and their sum, and how many records were compacted. Three lines on standard
//! error say how long the checkpoints took, and the first put and the first take of a round.

ghost use Rattle.std.specs.Prelude.{◌≡◌, vec_len};
ghost use Rattle.meet_place.specs.Ledgers.{AreOf};
ghost use Rattle.meet_tickets.specs.Limits.{most_records};

use crate::counting::{Count, NOTHING, Passed, Spread, after, note, now};
use meet_cells::ParkGate;
use meet_sync::{Back, Chronicle, Ledgers, NewQueue, Seat, TransferQueue};
use meet_tickets::{Deed, Refusal};
use std::alloc::Global;
use std::marker::Brand;
use std::mem::ManuallyDrop;
use std::sync::Wait;
use std::time::Clock;

/// How many pairs of a put and a take a round has.
const PAIRS: u64 = 16;

/// The queue at which checkpoints are made.
type Buffering<N> = TransferQueue<u64, ParkGate, N>;

/// How long calls took.
#[derive(Drop)]
struct Times {
    checkpoints: Vec<u128>,
    puts: Vec<u128>,
    takes: Vec<u128>,
}

/// The seat that makes all calls. It makes none after one was refused.
#[derive(Drop)]
struct Worker<N: Ledgers> {
    seat: Seat<Deed, N>,
    /// How many items it has put.
    put: u64,
    /// What it took, and why a call was refused, if one was.
    count: Count,
}

impl<N: Ledgers> Worker<N> {
    /// The worker after a call that passed so.
    fn counted(seat: Seat<Deed, N>, put: u64, count: Count, passed: Passed) -> Worker<N> {
        let (count, _) = passed.add_to(count);
        Worker { seat, put, count }
    }

    /// Puts the next item.
    fn put<R: Wait>(self, rt: &R, queue: &Buffering<N>) -> Worker<N> {
        let Worker { seat, put, count } = self;
        let item = put.saturating_add(1);
        let (seat, passed) = after(queue.put(rt, seat, item));
        Worker::counted(seat, item, count, passed)
    }

    /// Takes an item.
    fn take<R: Wait + Clock>(self, rt: &R, queue: &Buffering<N>) -> Worker<N> {
        let Worker { seat, put, count } = self;
        let (seat, passed) = after(queue.take(rt, seat));
        Worker::counted(seat, put, count, passed)
    }

    /// Puts an item and takes one, and notes how long both took.
    fn pair<R: Wait + Clock>(self, rt: &R, queue: &Buffering<N>, times: &mut Times) -> Worker<N> {
        let start = now(rt);
        let worker = self.put(rt, queue);
        note(rt, start, &mut times.puts);
        let start = now(rt);
        let worker = worker.take(rt, queue);
        note(rt, start, &mut times.takes);
        worker
    }

    /// Makes a checkpoint, notes how long it took, and drops the receipts of what is compacted.
    fn checkpoint<R: Wait + Clock>(
        self,
        rt: &R,
        queue: &Buffering<N>,
        times: &mut Times,
    ) -> Worker<N> {
        let Worker { seat, put, count } = self;
        let start = now(rt);
        let (seat, count) = match queue.checkpoint(rt, seat) {
            Ok((seat, _)) => (seat, count),
            Err(refused) => (refused.seat, count.refused(refused.why)),
        };
        note(rt, start, &mut times.checkpoints);
        let seat = queue.trim(rt, seat);
        Worker { seat, put, count }
    }

    /// Makes the calls of a round, unless one was refused before.
    fn round<R: Wait + Clock>(self, rt: &R, queue: &Buffering<N>, times: &mut Times) -> Worker<N> {
        if self.count.why.is_some() {
            return self;
        }
        let mut worker = self.pair(rt, queue, times);
        for _ in 1..PAIRS {
            worker = worker.put(rt, queue);
            worker = worker.take(rt, queue);
        }
        worker.checkpoint(rt, queue, times)
    }

    /// Fills the queue, and makes the calls of all rounds.
    fn work<R: Wait + Clock>(
        self,
        rt: &R,
        queue: &Buffering<N>,
        kept: u64,
        rounds: u64,
        times: &mut Times,
    ) -> Worker<N> {
        let mut worker = self;
        for _ in 0..kept {
            worker = worker.put(rt, queue);
        }
        for _ in 0..rounds {
            worker = worker.round(rt, queue, times);
        }
        worker
    }
}

/// The first of these seats works, and all are given back.
fn work<N: Ledgers, R: Wait + Clock>(
    rt: &R,
    alloc: Global,
    queue: &Buffering<N>,
    seats: Vec<Seat<Deed, N>>,
    kept: u64,
    rounds: u64,
    times: &mut Times,
) -> Result<(Vec<Back<Deed, N>>, Count), Refusal> {
    let mut backs = Vec::new(alloc);
    let mut counted = None;
    for seat in seats {
        let back = match counted {
            Some(_) => seat,
            None => {
                let worker = Worker {
                    seat,
                    put: 0,
                    count: NOTHING,
                };
                let Worker { seat, count, .. } = worker.work(rt, queue, kept, rounds, times);
                counted = Some(count);
                seat
            }
        };
        backs.push(Back::Free(back)).map_err(|_| Refusal::Memory)?;
    }
    Ok((backs, counted.unwrap_or(NOTHING)))
}

/// Makes the calls at a queue of these parts, and closes it. Returns what was taken, and what is left.
fn run_at<N: Ledgers, R: Wait + Clock>(
    rt: &R,
    alloc: Global,
    parts: NewQueue<ParkGate>,
    kept: u64,
    rounds: u64,
    times: &mut Times,
) -> Result<(Count, Chronicle<u64>), Refusal>
    requires ledgers { AreOf N.name N.folds N.moments N.parts parts.blanks }
    requires one_each { N.parts ≡ vec_len parts.gates }
    requires cap { N.cap ≡ most_records }
{
    let (queue, seats) = match Buffering::<N>::new(alloc, parts) {
        Ok(made) => made,
        Err(refused) => return Err(refused.into_why()), // the gates and the ledgers are dropped
    };
    let (backs, count) = match work(rt, alloc, &queue, seats, kept, rounds, times) {
        Ok(worked) => worked,
        Err(why) => {
            let _kept = ManuallyDrop::new(queue);
            return Err(why);
        }
    };
    match queue.close(alloc, backs) {
        Ok(chronicle) => Ok((count, chronicle)),
        Err(fault) => {
            let why = fault.why();
            let _kept = ManuallyDrop::new(fault);
            Err(why)
        }
    }
}

/// Makes checkpoints, and prints what came of it.
///
/// # Errors
/// - The error of the first call that fails, or of the close.
/// - WriteFault, if a line can't be printed; Memory, if an allocation fails.
pub fn run<R>(rt: &R, alloc: Global, seats: u64, kept: u64, rounds: u64) -> Result<(), Refusal>
where
    R: Wait + Clock + Print + Eprint,
{
    let parts = NewQueue::parked(alloc, seats)?;
    let mut times = Times {
        checkpoints: Vec::new(alloc),
        puts: Vec::new(alloc),
        takes: Vec::new(alloc),
    };
    let (count, chronicle) = run_at::<Brand, R>(rt, alloc, parts, kept, rounds, &mut times)?;
    if let Some(why) = count.why {
        return Err(why);
    }
    let mut left = NOTHING;
    for node in &chronicle.left {
        left = left.and(node.item);
    }
    println!(rt;
        "taken {} sum {} left {} sum {} gone {}",
        count.items, count.sum, left.items, left.sum, chronicle.base.gone
    )
    .map_err(|_| Refusal::WriteFault)?;
    let Times {
        checkpoints,
        puts,
        takes,
    } = times;
    eprintln!(rt; "checkpoint {}", Spread::of(checkpoints)).map_err(|_| Refusal::WriteFault)?;
    eprintln!(rt; "put {}", Spread::of(puts)).map_err(|_| Refusal::WriteFault)?;
    eprintln!(rt; "take {}", Spread::of(takes)).map_err(|_| Refusal::WriteFault)
}
