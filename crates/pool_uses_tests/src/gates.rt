//! At which gate a worker waits, and how long.

ghost use Rattle.std.specs.Prelude.{◌≡◌, ◌+◌, vec_len};
ghost use Rattle.meet_place.specs.Ledgers.{AreOf};
ghost use Rattle.pool_threads.specs.Parts.{IsOneEach};
ghost use Rattle.meet_tickets.specs.Limits.{most_records};

use crate::chores::{Before, Chore, Flags, another};
use crate::pools::{OurSeat, Ours, closed, handed, made, one_worker, only, shut, sizes, stopped};
use meet_cells::{Gate, ParkGate, Turn};
use meet_place::Blanks;
use pool_core::{Policy, PoolQueue};
use pool_threads::{NewPool, PoolLedgers, ThreadStarter};
use std::alloc::Global;
use std::marker::Brand;
use std::process::Abort;
use std::sync::atomic::{AtomicBool, AtomicU64, Ordering};
use std::sync::{Arc, Wait};
use std::test::*;
use std::thread;
use std::thread::Threads;
use std::time::{Clock, Duration, Instant};

/// What a gate is asked for.
#[derive(Drop)]
struct Asked {
    /// Whether anybody has waited there.
    waited: AtomicBool,
    /// The limit of the last wait, in milliseconds; 0 for none.
    limit: AtomicU64,
}

/// A gate that notes the limit that it is asked for, and answers at once that it was woken.
#[derive(Drop)]
struct Noting {
    asked: Arc<Asked>,
}

impl Gate for Noting {
    fn wait<R: Wait + Clock>(&self, _rt: &R, limit: Option<u64>) -> Turn {
        self.asked.limit.store(limit.unwrap_or(0), Ordering::SeqCst);
        self.asked.waited.store(true, Ordering::SeqCst);
        thread::yield_now();
        Turn::Woken
    }

    fn wake(&self) {}
}

/// Waits until a worker waits at its gate, ten seconds at most: the limit that it asks for.
fn limit_of<R: Clock>(rt: &R, asked: &Asked) -> Option<u64> {
    for _ in 0..10_000 {
        if asked.waited.load(Ordering::SeqCst) {
            return Some(asked.limit.load(Ordering::SeqCst));
        }
        thread::sleep(rt, Duration::from_millis(1));
    }
    None
}

/// Starts a worker with a job, and looks how long it waits for the next.
fn play_noting<N, R>(
    rt: &R,
    alloc: Global,
    parts: NewPool<Noting, ThreadStarter>,
    asked: &Asked,
) -> Option<u64>
where
    N: PoolLedgers + Send + Sync + 'static,
    R: Abort + Threads + Wait + Clock + Copy + Send + 'static,
    requires ledgers { AreOf N.name N.folds N.moments N.parts parts.blanks }
    requires one_each { N.parts ≡ parts.sizes.callers + parts.sizes.maximum }
    requires cap { N.cap ≡ most_records }
    requires gates { vec_len parts.gates ≡ parts.sizes.maximum }
    requires settings { N.settings ≡ record { sizes = parts.sizes; queue = parts.queue; policy = parts.policy } }
{
    let (pool, seats) = made::<N, Chore<R>, Noting, ThreadStarter>(rt, alloc, parts);
    let (seat, _started) = handed(rt, &pool, only(rt, seats), Chore::new(1));
    let limit = limit_of(rt, asked);
    let seat = shut(rt, &pool, seat);
    closed(rt, alloc, pool, seat);
    limit
}

/// The same, with whatever ledgers.
fn noted<R>(
    rt: &R,
    alloc: Global,
    parts: NewPool<Noting, ThreadStarter>,
    asked: &Asked,
) -> Option<u64>
where
    R: Abort + Threads + Wait + Clock + Copy + Send + 'static,
    requires one_each { IsOneEach parts.sizes parts.blanks (vec_len parts.gates) }
{
    play_noting::<Brand, R>(rt, alloc, parts, asked)
}

/// A worker that is idle waits for its keep-alive, here a minute: a gate counts in milliseconds.
#[test]
fn a_worker_waits_for_its_keep_alive(rt: HostRuntime) {
    let alloc = rt.alloc();
    let asked = Asked {
        waited: AtomicBool::new(false),
        limit: AtomicU64::new(0),
    };
    let asked = Arc::new(alloc, asked).expect(&rt, "no memory");
    let gate = Noting {
        asked: Arc::try_clone(&asked).expect(&rt, "too many holds"),
    };
    let (queue, starter) = (PoolQueue::Unbounded, ThreadStarter::new());
    let parts = one_worker(&rt, alloc, 1, queue, Policy::Abort, gate, starter);
    assert_eq!(rt; noted(&rt, alloc, parts, &asked), Some(60_000));
}

/// A pool of chores, whose workers park.
type Chores<R, N> = Ours<Chore<R>, ParkGate, ThreadStarter, N>;

/// Waits until so many jobs are done, ten seconds at most, and a tenth of a second more, in which their workers come to
/// their gates.
fn rests<N: PoolLedgers, R: Wait + Clock + Drop>(rt: &R, pool: &Chores<R, N>, done: u64) {
    for _ in 0..10_000 {
        if pool.counters(rt).done == done {
            break;
        }
        thread::sleep(rt, Duration::from_millis(1));
    }
    thread::sleep(rt, Duration::from_millis(100));
}

/// Waits until two jobs have seen one another, ten seconds at most: how many saw the other.
fn met<R: Clock>(rt: &R, flags: &Flags) -> u64 {
    for _ in 0..10_000 {
        if flags.seen() == 2 {
            break;
        }
        thread::sleep(rt, Duration::from_millis(1));
    }
    flags.seen()
}

/// Starts two workers with a job each, and once they are idle hands two jobs in that look for one another: how many saw
/// the other.
fn two_again<N, R>(
    rt: &R,
    pool: &Chores<R, N>,
    first: OurSeat<N>,
    flags: &Arc<Flags>,
) -> (OurSeat<N>, u64)
where
    N: PoolLedgers + Send + Sync + 'static,
    R: Abort + Threads + Wait + Clock + Copy + Send + 'static,
{
    let (seat, _started) = handed(rt, pool, first, Chore::new(1));
    let (seat, _started) = handed(rt, pool, seat, Chore::new(2));
    rests(rt, pool, 2);
    let one = Chore {
        tag: 3,
        before: Before::First(*rt, another(rt, flags)),
    };
    let (seat, _kept) = handed(rt, pool, seat, one);
    let two = Chore {
        tag: 4,
        before: Before::Second(*rt, another(rt, flags)),
    };
    let (seat, _kept) = handed(rt, pool, seat, two);
    let seen = met(rt, flags);
    flags.set();
    (seat, seen)
}

/// A pool of two workers that were idle: how many of two jobs saw the other.
fn play_woken<N, R>(
    rt: &R,
    alloc: Global,
    parts: NewPool<ParkGate, ThreadStarter>,
    flags: &Arc<Flags>,
) -> u64
where
    N: PoolLedgers + Send + Sync + 'static,
    R: Abort + Threads + Wait + Clock + Copy + Send + 'static,
    requires ledgers { AreOf N.name N.folds N.moments N.parts parts.blanks }
    requires one_each { N.parts ≡ parts.sizes.callers + parts.sizes.maximum }
    requires cap { N.cap ≡ most_records }
    requires gates { vec_len parts.gates ≡ parts.sizes.maximum }
    requires settings { N.settings ≡ record { sizes = parts.sizes; queue = parts.queue; policy = parts.policy } }
{
    let (pool, seats) = made::<N, Chore<R>, ParkGate, ThreadStarter>(rt, alloc, parts);
    let (seat, seen) = two_again(rt, &pool, only(rt, seats), flags);
    let seat = shut(rt, &pool, seat);
    closed(rt, alloc, pool, seat);
    seen
}

/// The same, with whatever ledgers.
fn woken<R>(rt: &R, alloc: Global, parts: NewPool<ParkGate, ThreadStarter>) -> u64
where
    R: Abort + Threads + Wait + Clock + Copy + Send + 'static,
    requires one_each { IsOneEach parts.sizes parts.blanks (vec_len parts.gates) }
{
    let flags = Flags::new(rt, alloc);
    play_woken::<Brand, R>(rt, alloc, parts, &flags)
}

/// Each worker waits at its own gate, where a job that is handed to it wakes it long before its keep-alive is over.
#[test]
fn two_idle_workers_are_woken(rt: HostRuntime) {
    let alloc = rt.alloc();
    let mut gates = Vec::new(alloc);
    gates.push(ParkGate::new()).expect(&rt, "no memory");
    gates.push(ParkGate::new()).expect(&rt, "no memory");
    let parts = NewPool {
        sizes: sizes(2, 2),
        queue: PoolQueue::Unbounded,
        policy: Policy::Abort,
        gates,
        starter: ThreadStarter::new(),
        blanks: Blanks::new(3),
    };
    assert_eq!(rt; woken(&rt, alloc, parts), 2);
}

/// How a pool is shut down.
#[derive(Clone, Copy)]
enum Ending {
    Shutdown,
    ShutdownNow,
}

/// Shuts a pool down so, and waits for its end.
fn ended<N: PoolLedgers, R: Abort + Wait + Clock + Copy>(
    rt: &R,
    pool: &Chores<R, N>,
    seat: OurSeat<N>,
    ending: Ending,
) -> OurSeat<N> {
    match ending {
        Ending::Shutdown => shut(rt, pool, seat),
        Ending::ShutdownNow => {
            let (seat, _none) = stopped(rt, pool, seat);
            pool.await_end(rt);
            seat
        }
    }
}

/// Starts a worker with a job, and shuts the pool down once it is idle: how long the end took, if there is a clock.
fn play_shut<N, R>(
    rt: &R,
    alloc: Global,
    parts: NewPool<ParkGate, ThreadStarter>,
    ending: Ending,
) -> Option<Duration>
where
    N: PoolLedgers + Send + Sync + 'static,
    R: Abort + Threads + Wait + Clock + Copy + Send + 'static,
    requires ledgers { AreOf N.name N.folds N.moments N.parts parts.blanks }
    requires one_each { N.parts ≡ parts.sizes.callers + parts.sizes.maximum }
    requires cap { N.cap ≡ most_records }
    requires gates { vec_len parts.gates ≡ parts.sizes.maximum }
    requires settings { N.settings ≡ record { sizes = parts.sizes; queue = parts.queue; policy = parts.policy } }
{
    let (pool, seats) = made::<N, Chore<R>, ParkGate, ThreadStarter>(rt, alloc, parts);
    let (seat, _started) = handed(rt, &pool, only(rt, seats), Chore::new(1));
    rests(rt, &pool, 1);
    let start = Instant::now(rt).ok();
    let seat = ended(rt, &pool, seat, ending);
    let lasted = lasted(rt, start);
    closed(rt, alloc, pool, seat);
    lasted
}

/// How long ago this was, if there is a clock.
fn lasted<R: Clock>(rt: &R, start: Option<Instant>) -> Option<Duration> {
    start?.elapsed(rt).ok()
}

/// The same, with whatever ledgers.
fn shut_idle<R>(
    rt: &R,
    alloc: Global,
    parts: NewPool<ParkGate, ThreadStarter>,
    ending: Ending,
) -> Option<Duration>
where
    R: Abort + Threads + Wait + Clock + Copy + Send + 'static,
    requires one_each { IsOneEach parts.sizes parts.blanks (vec_len parts.gates) }
{
    play_shut::<Brand, R>(rt, alloc, parts, ending)
}

/// An idle worker is woken by a shutdown (`interruptIdleWorkers`), and ends long before its keep-alive of a minute is
/// over.
#[test]
fn a_shutdown_wakes_an_idle_worker(rt: HostRuntime) {
    let alloc = rt.alloc();
    for ending in [Ending::Shutdown, Ending::ShutdownNow] {
        let (queue, starter) = (PoolQueue::Unbounded, ThreadStarter::new());
        let parts = one_worker(
            &rt,
            alloc,
            1,
            queue,
            Policy::Abort,
            ParkGate::new(),
            starter,
        );
        let lasted = shut_idle(&rt, alloc, parts, ending).expect(&rt, "a clock");
        assert!(rt; lasted < Duration::from_secs(30));
    }
}
