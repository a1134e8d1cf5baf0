//! Seats that are missing: of a caller that lets its seat go, and of a worker that is at work. A pool isn't closed
//! without them: it says how many there are, and comes back with the seats. Meanwhile it goes on.

ghost use Rattle.std.specs.Prelude.{◌≡◌, ◌+◌, vec_len};
ghost use Rattle.meet_place.specs.Ledgers.{AreOf};
ghost use Rattle.meet_tickets.specs.Limits.{most_records};

use crate::pools::{
    CameBack, Counted, OurSeat, Parts, Seats, Task, Tasks, answers, closed, ends_with_its_seat,
    flag_of, freed, given_back, handed, held, last, made, only, parts_of, reached, stopped,
    unclosed,
};
use meet_cells::ParkGate;
use pool_threads::{PoolChronicle, PoolLedgers};
use std::alloc::Global;
use std::marker::Brand;
use std::process::Abort;
use std::sync::atomic::{AtomicBool, Ordering};
use std::sync::{Arc, Wait};
use std::test::*;
use std::thread::Threads;
use std::time::Clock;

/// The gate of one worker.
pub(crate) fn one_gate(rt: &impl Abort, alloc: Global) -> Vec<ParkGate>
    ensures { vec_len result ≡ 1 }
{
    let mut gates = Vec::new(alloc);
    gates.push(ParkGate::new()).expect(rt, "no memory");
    gates
}

/// The gates of two workers.
fn two_gates(rt: &impl Abort, alloc: Global) -> Vec<ParkGate>
    ensures { vec_len result ≡ 2 }
{
    let mut gates = one_gate(rt, alloc);
    gates.push(ParkGate::new()).expect(rt, "no memory");
    gates
}

/// What came of a pool one of whose two callers lets its seat go.
#[derive(Clone, Copy, PartialEq, Debug)]
struct Lost {
    /// Whether the job of this caller was taken.
    taken: bool,
    /// How many jobs were done before the first close, and at the end.
    done: (u64, u64),
    /// How many jobs were kept at the first close.
    kept: u64,
    /// How many seats there were then, while the worker was at work, and at the last close.
    first: Seats,
    then: Seats,
    /// How many kept jobs came back from the shutdown, and the tag of the first.
    back: (usize, Option<u64>),
    /// How many receipts the other caller's seat had in the end.
    receipts: usize,
}

/// What was seen of a pool before its first close: whether the job of the lost seat was taken, how many jobs were done,
/// and how many were kept.
type Begun = (bool, u64, u64);

/// One caller hands a job in and lets its seat go. The other hands three in, of which the second waits for a flag.
fn begins_lost<N, R>(
    rt: &R,
    pool: &Tasks<R, N>,
    made: Vec<OurSeat<N>>,
    flag: &Arc<AtomicBool>,
) -> (OurSeat<N>, Begun)
where
    N: PoolLedgers + Send + Sync + 'static,
    R: Abort + Threads + Wait + Clock + Copy + Send + Sync + 'static,
{
    let mut seats = made;
    let lost = last(rt, &mut seats);
    let seat = last(rt, &mut seats);
    let taken = ends_with_its_seat(rt, pool, lost, 1);
    let seat = handed(rt, pool, seat, Task::new(2));
    let before = reached(rt, pool, Counted::Done, 2);
    let seat = handed(rt, pool, seat, held(rt, 3, flag));
    let seat = handed(rt, pool, seat, Task::new(4));
    let kept = reached(rt, pool, Counted::Kept, 1);
    (seat, (taken, before, kept))
}

/// A caller shuts a pool down at once, and lets its job end: what came back, and how many jobs were done.
fn stops_lost<N, R>(
    rt: &R,
    pool: &Tasks<R, N>,
    seat: OurSeat<N>,
    flag: &AtomicBool,
) -> (OurSeat<N>, CameBack, u64)
where
    N: PoolLedgers,
    R: Abort + Wait + Clock + Drop,
{
    let (seat, back) = stopped(rt, pool, seat);
    flag.store(true, Ordering::SeqCst);
    pool.await_end(rt);
    (seat, back, reached(rt, pool, Counted::Done, 3))
}

/// A pool isn't closed with this seat alone: how many seats it has, and how many receipts this one has.
fn ends_lost<N, R>(rt: &R, alloc: Global, pool: Tasks<R, N>, seat: OurSeat<N>) -> (Seats, usize)
where
    N: PoolLedgers,
    R: Abort + Wait + Clock + Drop,
{
    let (_pool, backs, then) = unclosed(rt, alloc, pool, given_back(rt, alloc, seat));
    (then, freed(rt, backs).receipts().len())
}

/// One of two callers hands a job in and lets its seat go. The other hands a job in, tries to close the pool while its
/// worker is at work and a job is kept, shuts it down, and tries to close it once more.
fn play_lost<N, R>(rt: &R, alloc: Global, parts: Parts, flag: &Arc<AtomicBool>) -> Lost
where
    N: PoolLedgers + Send + Sync + 'static,
    R: Abort + Threads + Wait + Clock + Copy + Send + Sync + 'static,
    requires ledgers { AreOf N.name N.folds N.moments N.parts parts.blanks }
    requires one_each { N.parts ≡ parts.sizes.callers + parts.sizes.maximum }
    requires cap { N.cap ≡ most_records }
    requires gates { vec_len parts.gates ≡ parts.sizes.maximum }
    requires settings { N.settings ≡ record { sizes = parts.sizes; queue = parts.queue; policy = parts.policy } }
{
    let (pool, seats) = made::<N, R>(rt, alloc, parts);
    let (seat, begun) = begins_lost(rt, &pool, seats, flag);
    let (pool, backs, first) = unclosed(rt, alloc, pool, given_back(rt, alloc, seat));
    let (seat, back, after) = stops_lost(rt, &pool, freed(rt, backs), flag);
    let (then, receipts) = ends_lost(rt, alloc, pool, seat);
    let (taken, before, kept) = begun;
    Lost {
        taken,
        done: (before, after),
        kept,
        first,
        then,
        back,
        receipts,
    }
}

/// The same, with whatever ledgers.
fn with_a_lost_seat<R>(rt: &R, alloc: Global, parts: Parts) -> Lost
where
    R: Abort + Threads + Wait + Clock + Copy + Send + Sync + 'static,
    requires records { parts.blanks.records.parts ≡ parts.sizes.callers + parts.sizes.maximum }
    requires folds { parts.blanks.folds.parts ≡ parts.sizes.callers + parts.sizes.maximum }
    requires gates { vec_len parts.gates ≡ parts.sizes.maximum }
{
    let flag = flag_of(rt, alloc);
    play_lost::<Brand, R>(rt, alloc, parts, &flag)
}

#[test]
fn a_caller_lets_its_seat_go(rt: HostRuntime) {
    let alloc = rt.alloc();
    let came = with_a_lost_seat(&rt, alloc, parts_of(2, one_gate(&rt, alloc)));
    assert_eq!(rt; (came.taken, came.done), (true, (2, 3)));
    assert_eq!(rt; (came.first, came.then), ((1, 3), (2, 3)));
    assert_eq!(rt; (came.kept, came.back), (1, (1, Some(4))));
    // Three jobs, and the shutdown.
    assert_eq!(rt; came.receipts, 4);
}

/// What came of a pool one of whose two workers is at work while the other ends.
#[derive(Clone, Copy, PartialEq, Debug)]
struct Busy {
    /// How many jobs the other did, and how many workers there were once it had ended.
    done: u64,
    workers: u64,
    /// How many seats there were then.
    seats: Seats,
    /// How often a worker's records tell the answers 1, 2 and 3 in the end.
    answers: (usize, usize, usize),
    lists: usize,
    left: usize,
}

/// A job keeps a worker, and the other does two; then the pool is shut down: how many the other did, and how many
/// workers there were once it had ended.
fn begins_busy<N, R>(
    rt: &R,
    pool: &Tasks<R, N>,
    seat: OurSeat<N>,
    flag: &Arc<AtomicBool>,
) -> (OurSeat<N>, (u64, u64))
where
    N: PoolLedgers + Send + Sync + 'static,
    R: Abort + Threads + Wait + Clock + Copy + Send + 'static,
{
    let seat = handed(rt, pool, seat, held(rt, 1, flag));
    let seat = handed(rt, pool, seat, Task::new(2));
    let seat = handed(rt, pool, seat, Task::new(3));
    let done = reached(rt, pool, Counted::Done, 2);
    let (seat, _none) = stopped(rt, pool, seat);
    (seat, (done, reached(rt, pool, Counted::Workers, 1)))
}

/// What is told of a pool that is closed, of which this was seen before, and which had so many seats at first.
fn told<R>(chronicle: &PoolChronicle<Task<R>>, seen: (u64, u64), seats: Seats) -> Busy {
    let (done, workers) = seen;
    Busy {
        done,
        workers,
        seats,
        answers: (
            answers(chronicle, 1),
            answers(chronicle, 2),
            answers(chronicle, 3),
        ),
        lists: chronicle.lists.len(),
        left: chronicle.left.len(),
    }
}

/// A job keeps a worker, and the other does two. The pool is shut down, and closed without the seat of the first, and
/// then with it.
fn play_busy<N, R>(rt: &R, alloc: Global, parts: Parts, flag: &Arc<AtomicBool>) -> Busy
where
    N: PoolLedgers + Send + Sync + 'static,
    R: Abort + Threads + Wait + Clock + Copy + Send + 'static,
    requires ledgers { AreOf N.name N.folds N.moments N.parts parts.blanks }
    requires one_each { N.parts ≡ parts.sizes.callers + parts.sizes.maximum }
    requires cap { N.cap ≡ most_records }
    requires gates { vec_len parts.gates ≡ parts.sizes.maximum }
    requires settings { N.settings ≡ record { sizes = parts.sizes; queue = parts.queue; policy = parts.policy } }
{
    let (pool, seats) = made::<N, R>(rt, alloc, parts);
    let (seat, seen) = begins_busy(rt, &pool, only(rt, seats), flag);
    let (pool, backs, seats) = unclosed(rt, alloc, pool, given_back(rt, alloc, seat));
    flag.store(true, Ordering::SeqCst);
    pool.await_end(rt);
    let chronicle = closed(rt, alloc, pool, backs);
    told(&chronicle, seen, seats)
}

/// The same, with whatever ledgers.
fn with_a_busy_worker<R>(rt: &R, alloc: Global, parts: Parts) -> Busy
where
    R: Abort + Threads + Wait + Clock + Copy + Send + 'static,
    requires records { parts.blanks.records.parts ≡ parts.sizes.callers + parts.sizes.maximum }
    requires folds { parts.blanks.folds.parts ≡ parts.sizes.callers + parts.sizes.maximum }
    requires gates { vec_len parts.gates ≡ parts.sizes.maximum }
{
    let flag = flag_of(rt, alloc);
    play_busy::<Brand, R>(rt, alloc, parts, &flag)
}

#[test]
fn a_worker_is_at_work(rt: HostRuntime) {
    let alloc = rt.alloc();
    let came = with_a_busy_worker(&rt, alloc, parts_of(1, two_gates(&rt, alloc)));
    assert_eq!(rt; (came.done, came.workers), (2, 1));
    assert_eq!(rt; (came.seats, came.answers), ((2, 3), (1, 1, 1)));
    assert_eq!(rt; (came.lists, came.left), (3, 0));
}
