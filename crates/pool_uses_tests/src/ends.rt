//! How pools and their workers end.

ghost use Rattle.std.specs.Prelude.{◌≡◌, ◌+◌, vec_len};
ghost use Rattle.meet_place.specs.Ledgers.{AreOf};
ghost use Rattle.pool_threads.specs.Parts.{IsOneEach};
ghost use Rattle.meet_tickets.specs.Limits.{most_records};

use crate::chores::{Before, Chore, Flags, another};
use crate::pools::{
    AtOnce, OurSeat, Ours, answers, closed, handed, made, one_worker, only, shut, stopped,
};
use meet_cells::{Gate, ParkGate, Turn};
use meet_tickets::Order;
use pool_core::{Policy, PoolQueue};
use pool_threads::{ItsTag, Job, NewPool, Outcome, PoolFault, PoolLedgers, ThreadStarter};
use std::alloc::Global;
use std::collections::VecDeque;
use std::marker::Brand;
use std::process::Abort;
use std::sync::{Arc, Wait};
use std::test::*;
use std::thread;
use std::thread::Threads;
use std::time::{Clock, Duration};

/// Tries to close a pool without its caller's seat: the pool, how many seats it has, and how many were made.
fn unclosed<N, C, R, G, S>(
    rt: &R,
    alloc: Global,
    pool: Ours<C, G, S, N>,
) -> (Ours<C, G, S, N>, (u64, u64))
where
    N: PoolLedgers,
    C: Drop,
    R: Abort + Wait,
    G: Gate + Drop,
    S: Drop,
{
    match pool.close(rt, alloc, Vec::new(alloc)) {
        Ok(_) => panic!(rt; "closed"),
        Err(fault) => match fault {
            PoolFault::SeatMissing {
                have,
                made,
                pool,
                seats: _,
            } => (pool, (have, made)),
            _ => panic!(rt; "another fault"),
        },
    }
}

/// Closes a pool without its caller's seat, and then with it: how many seats it had, and were made, the first time.
fn play_missing<N, R>(rt: &R, alloc: Global, parts: NewPool<ParkGate, ThreadStarter>) -> (u64, u64)
where
    N: PoolLedgers,
    R: Abort + Wait + Copy,
    requires ledgers { AreOf N.name N.folds N.moments N.parts parts.blanks }
    requires one_each { N.parts ≡ parts.sizes.callers + parts.sizes.maximum }
    requires cap { N.cap ≡ most_records }
    requires gates { vec_len parts.gates ≡ parts.sizes.maximum }
    requires settings { N.settings ≡ record { sizes = parts.sizes; queue = parts.queue; policy = parts.policy } }
{
    let (pool, seats) = made::<N, Chore<R>, ParkGate, ThreadStarter>(rt, alloc, parts);
    let seat = only(rt, seats);
    let (pool, seats) = unclosed(rt, alloc, pool);
    closed(rt, alloc, pool, seat);
    seats
}

/// The same, with whatever ledgers.
fn without_its_seat<R: Abort + Wait + Copy>(
    rt: &R,
    alloc: Global,
    parts: NewPool<ParkGate, ThreadStarter>,
) -> (u64, u64)
    requires one_each { IsOneEach parts.sizes parts.blanks (vec_len parts.gates) }
{
    play_missing::<Brand, R>(rt, alloc, parts)
}

#[test]
fn a_seat_is_missing(rt: HostRuntime) {
    let alloc = rt.alloc();
    let (queue, starter) = (PoolQueue::Unbounded, ThreadStarter::new());
    let parts = one_worker(
        &rt,
        alloc,
        1,
        queue,
        Policy::Abort,
        ParkGate::new(),
        starter,
    );
    assert_eq!(rt; without_its_seat(&rt, alloc, parts), (1, 2));
}

/// A pool of one worker that never parks.
type Restless<R, N> = Ours<Chore<R>, AtOnce, ThreadStarter, N>;

/// Waits until a job is done, ten seconds at most.
fn await_done<N: PoolLedgers, R: Wait + Clock + Drop>(rt: &R, pool: &Restless<R, N>) {
    for _ in 0..10_000 {
        if pool.counters(rt).done == 1 {
            break;
        }
        thread::sleep(rt, Duration::from_millis(1));
    }
}

/// Looks at a pool a thousand times: how often it had one worker, and not another number.
fn looks_on<N: PoolLedgers, R: Wait + Clock + Drop>(rt: &R, pool: &Restless<R, N>) -> u64 {
    let mut there = 0u64;
    for _ in 0..1_000 {
        let counters = pool.counters(rt);
        if counters.workers == 1 && counters.done == 1 {
            there = there.saturating_add(1);
        }
        thread::sleep(rt, Duration::from_millis(1));
    }
    there
}

/// Starts a worker with a job, and looks at the pool often, once that is done.
fn idles<N, R>(rt: &R, pool: &Restless<R, N>, seat: OurSeat<N>) -> (OurSeat<N>, u64)
where
    N: PoolLedgers + Send + Sync + 'static,
    R: Abort + Threads + Wait + Clock + Copy + Send + 'static,
{
    let (seat, _started) = handed(rt, pool, seat, Chore::new(1));
    await_done(rt, pool);
    let there = looks_on(rt, pool);
    let (seat, _none) = stopped(rt, pool, seat);
    pool.await_end(rt);
    (seat, there)
}

/// Starts a worker with a job, and then looks at the pool often, once that is done: how often it had one worker, and
/// not another number.
fn play_idle<N, R>(rt: &R, alloc: Global, parts: NewPool<AtOnce, ThreadStarter>) -> u64
where
    N: PoolLedgers + Send + Sync + 'static,
    R: Abort + Threads + Wait + Clock + Copy + Send + 'static,
    requires ledgers { AreOf N.name N.folds N.moments N.parts parts.blanks }
    requires one_each { N.parts ≡ parts.sizes.callers + parts.sizes.maximum }
    requires cap { N.cap ≡ most_records }
    requires gates { vec_len parts.gates ≡ parts.sizes.maximum }
    requires settings { N.settings ≡ record { sizes = parts.sizes; queue = parts.queue; policy = parts.policy } }
{
    let (pool, seats) = made::<N, Chore<R>, AtOnce, ThreadStarter>(rt, alloc, parts);
    let (seat, there) = idles(rt, &pool, only(rt, seats));
    closed(rt, alloc, pool, seat);
    there
}

/// The same, with whatever ledgers.
fn left_idle<R>(rt: &R, alloc: Global, parts: NewPool<AtOnce, ThreadStarter>) -> u64
where
    R: Abort + Threads + Wait + Clock + Copy + Send + 'static,
    requires one_each { IsOneEach parts.sizes parts.blanks (vec_len parts.gates) }
{
    play_idle::<Brand, R>(rt, alloc, parts)
}

#[test]
fn an_idle_worker_stays(rt: HostRuntime) {
    let alloc = rt.alloc();
    let (queue, starter) = (PoolQueue::Hand(Order::Fair), ThreadStarter::new());
    let parts = one_worker(&rt, alloc, 0, queue, Policy::Abort, AtOnce {}, starter);
    assert_eq!(rt; left_idle(&rt, alloc, parts), 1_000);
}

/// A gate at which each limit is over at once.
#[derive(Drop)]
struct Elapsing {}

impl Gate for Elapsing {
    fn wait<R: Wait + Clock>(&self, _rt: &R, _limit: Option<u64>) -> Turn {
        thread::yield_now();
        Turn::Elapsed
    }

    fn wake(&self) {}
}

/// Starts a worker with a job, and waits until there is no worker, ten seconds at most: how many there are.
fn play_elapsed<N, R>(rt: &R, alloc: Global, parts: NewPool<Elapsing, ThreadStarter>) -> u64
where
    N: PoolLedgers + Send + Sync + 'static,
    R: Abort + Threads + Wait + Clock + Copy + Send + 'static,
    requires ledgers { AreOf N.name N.folds N.moments N.parts parts.blanks }
    requires one_each { N.parts ≡ parts.sizes.callers + parts.sizes.maximum }
    requires cap { N.cap ≡ most_records }
    requires gates { vec_len parts.gates ≡ parts.sizes.maximum }
    requires settings { N.settings ≡ record { sizes = parts.sizes; queue = parts.queue; policy = parts.policy } }
{
    let (pool, seats) = made::<N, Chore<R>, Elapsing, ThreadStarter>(rt, alloc, parts);
    let (seat, _started) = handed(rt, &pool, only(rt, seats), Chore::new(1));
    let mut workers = pool.counters(rt).workers;
    for _ in 0..10_000 {
        if workers == 0 {
            break;
        }
        thread::sleep(rt, Duration::from_millis(1));
        workers = pool.counters(rt).workers;
    }
    let seat = shut(rt, &pool, seat);
    closed(rt, alloc, pool, seat);
    workers
}

/// The same, with whatever ledgers.
fn idled_out<R>(rt: &R, alloc: Global, parts: NewPool<Elapsing, ThreadStarter>) -> u64
where
    R: Abort + Threads + Wait + Clock + Copy + Send + 'static,
    requires one_each { IsOneEach parts.sizes parts.blanks (vec_len parts.gates) }
{
    play_elapsed::<Brand, R>(rt, alloc, parts)
}

/// Excess threads are terminated if they have been idle for more than their keep-alive (`ThreadPoolExecutor`).
#[test]
fn an_excess_worker_ends(rt: HostRuntime) {
    let alloc = rt.alloc();
    let (queue, starter) = (PoolQueue::Hand(Order::Fair), ThreadStarter::new());
    let parts = one_worker(&rt, alloc, 0, queue, Policy::Abort, Elapsing {}, starter);
    assert_eq!(rt; idled_out(&rt, alloc, parts), 0);
}

/// What came of three jobs, of which the third takes the second's place, and of a shutdown that hands back what is
/// kept.
#[derive(Clone, Copy, PartialEq, Debug)]
struct Came {
    /// The tag of the job that was dropped.
    dropped: Option<u64>,
    /// How many jobs were kept before the shutdown, and behind it.
    kept: (u64, u64),
    /// How many jobs came back, and the tag of the first.
    back: (usize, Option<u64>),
    /// How often a worker's records tell the answers 1, 2 and 3.
    answers: (usize, usize, usize),
    left: usize,
}

/// The tag of the job that was dropped.
fn dropped<C>(outcome: &Outcome<C>) -> Option<u64> {
    match outcome {
        Outcome::DroppedOldest(_, job) => Some(job.tag()),
        _ => None,
    }
}

/// How many jobs these are, and the tag of the first.
fn told<C>(jobs: &VecDeque<Job<C>>) -> (usize, Option<u64>) {
    match jobs.front() {
        Some(job) => (jobs.len(), Some(job.tag())),
        None => (jobs.len(), None),
    }
}

/// A pool of chores, whose workers park.
type Chores<R, N> = Ours<Chore<R>, ParkGate, ThreadStarter, N>;

/// Hands three jobs in, the first of which waits for a flag: the tag of the one that the third drops.
fn three_jobs<N, R>(
    rt: &R,
    pool: &Chores<R, N>,
    seat: OurSeat<N>,
    flags: Arc<Flags>,
) -> (OurSeat<N>, Option<u64>)
where
    N: PoolLedgers + Send + Sync + 'static,
    R: Abort + Threads + Wait + Clock + Copy + Send + 'static,
{
    let one = Chore {
        tag: 1,
        before: Before::Go(*rt, flags),
    };
    let (seat, _started) = handed(rt, pool, seat, one);
    let (seat, _kept) = handed(rt, pool, seat, Chore::new(2));
    let (seat, third) = handed(rt, pool, seat, Chore::new(3));
    (seat, dropped(&third))
}

/// Shuts a pool down at once, and lets its first job end. No answer is told yet.
fn stops<N, R>(
    rt: &R,
    pool: &Chores<R, N>,
    seat: OurSeat<N>,
    dropped: Option<u64>,
    flags: &Flags,
) -> (OurSeat<N>, Came)
where
    N: PoolLedgers,
    R: Abort + Wait + Copy,
{
    let kept = pool.counters(rt).kept;
    let (seat, back) = stopped(rt, pool, seat);
    let then = pool.counters(rt).kept;
    flags.set();
    pool.await_end(rt);
    let came = Came {
        dropped,
        kept: (kept, then),
        back: told(&back),
        answers: (0, 0, 0),
        left: 0,
    };
    (seat, came)
}

/// Hands three jobs in, shuts the pool down at once while its worker runs the first, and lets that end.
fn play_stopped<N, R>(
    rt: &R,
    alloc: Global,
    parts: NewPool<ParkGate, ThreadStarter>,
    flags: &Arc<Flags>,
) -> Came
where
    N: PoolLedgers + Send + Sync + 'static,
    R: Abort + Threads + Wait + Clock + Copy + Send + 'static,
    requires ledgers { AreOf N.name N.folds N.moments N.parts parts.blanks }
    requires one_each { N.parts ≡ parts.sizes.callers + parts.sizes.maximum }
    requires cap { N.cap ≡ most_records }
    requires gates { vec_len parts.gates ≡ parts.sizes.maximum }
    requires settings { N.settings ≡ record { sizes = parts.sizes; queue = parts.queue; policy = parts.policy } }
{
    let (pool, seats) = made::<N, Chore<R>, ParkGate, ThreadStarter>(rt, alloc, parts);
    let (seat, dropped) = three_jobs(rt, &pool, only(rt, seats), another(rt, flags));
    let (seat, mut came) = stops(rt, &pool, seat, dropped, flags);
    let chronicle = closed(rt, alloc, pool, seat);
    came.answers = (
        answers(&chronicle, 1),
        answers(&chronicle, 2),
        answers(&chronicle, 3),
    );
    came.left = chronicle.left.len();
    came
}

/// The same, with whatever ledgers.
fn stopped_at_once<R>(rt: &R, alloc: Global, parts: NewPool<ParkGate, ThreadStarter>) -> Came
where
    R: Abort + Threads + Wait + Clock + Copy + Send + 'static,
    requires one_each { IsOneEach parts.sizes parts.blanks (vec_len parts.gates) }
{
    let flags = Flags::new(rt, alloc);
    play_stopped::<Brand, R>(rt, alloc, parts, &flags)
}

#[test]
fn kept_jobs_come_back(rt: HostRuntime) {
    let alloc = rt.alloc();
    let (queue, starter) = (PoolQueue::Bounded(1), ThreadStarter::new());
    let parts = one_worker(
        &rt,
        alloc,
        1,
        queue,
        Policy::DiscardOldest,
        ParkGate::new(),
        starter,
    );
    let came = stopped_at_once(&rt, alloc, parts);
    assert_eq!(rt; (came.dropped, came.kept), (Some(2), (1, 0)));
    assert_eq!(rt; came.back, (1, Some(3)));
    assert_eq!(rt; (came.answers, came.left), ((1, 0, 0), 0));
}
