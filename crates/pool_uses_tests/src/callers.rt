//! Callers that share a pool, and jobs that are boxed functions.

ghost use Rattle.std.specs.Prelude.{◌≡◌, ◌+◌, vec_len};
ghost use Rattle.meet_place.specs.Ledgers.{AreOf};
ghost use Rattle.pool_threads.specs.Parts.{IsOneEach};
ghost use Rattle.meet_tickets.specs.Limits.{most_records};

use crate::pools::{OurSeat, Ours, closed_by, handed, made, shut};
use meet_cells::ParkGate;
use meet_place::{Back, Blanks};
use pool_core::{Policy, PoolDeed, PoolQueue, Sizes};
use pool_threads::{Boxed, ItsTag, JobFn, NewPool, PoolLedgers, ThreadStarter};
use std::alloc::Global;
use std::marker::Brand;
use std::process::Abort;
use std::sync::Wait;
use std::test::*;
use std::thread;
use std::thread::Threads;
use std::time::Clock;

/// A pool that threads share.
type Shared<N> = Ours<Boxed, ParkGate, ThreadStarter, N>;

/// Hands jobs in, one after another.
fn hand_all<N, R>(rt: &R, pool: &Shared<N>, first: OurSeat<N>, jobs: Vec<Boxed>) -> OurSeat<N>
where
    N: PoolLedgers + Send + Sync + 'static,
    R: Abort + Threads + Wait + Clock + Copy + Send + 'static,
{
    let mut seat = first;
    for job in jobs {
        let (after, _) = handed(rt, pool, seat, job);
        seat = after;
    }
    seat
}

/// Two threads hand jobs in.
fn hand_both<N, R>(
    rt: &R,
    pool: &Shared<N>,
    seats: (OurSeat<N>, OurSeat<N>),
    one: Vec<Boxed>,
    two: Vec<Boxed>,
) -> (OurSeat<N>, OurSeat<N>)
where
    N: PoolLedgers + Send + Sync + 'static,
    R: Abort + Threads + Wait + Clock + Copy + Send + Sync + 'static,
{
    let (first, second) = seats;
    thread::scope(thread::scope_env(), rt, |scope| {
        let spawned = scope.spawn(move || hand_all(rt, pool, second, two));
        let mine = hand_all(rt, pool, first, one);
        match spawned {
            Ok(handle) => (mine, handle.join(rt)),
            Err(_) => panic!(rt; "a thread can't be started"),
        }
    })
}

/// The seats of two callers, the first and the second.
fn two_seats<N: PoolLedgers>(rt: &impl Abort, made: Vec<OurSeat<N>>) -> (OurSeat<N>, OurSeat<N>) {
    let mut seats = made;
    match (seats.pop(), seats.pop()) {
        (Some(second), Some(first)) => (first, second),
        _ => panic!(rt; "no seat"),
    }
}

/// Two seats, to be given back.
fn two_backs<N: PoolLedgers>(
    rt: &impl Abort,
    alloc: Global,
    first: OurSeat<N>,
    second: OurSeat<N>,
) -> Vec<Back<PoolDeed<u64>, N>> {
    let mut backs = Vec::new(alloc);
    backs.push(Back::Free(second)).expect(rt, "no memory");
    backs.push(Back::Free(first)).expect(rt, "no memory");
    backs
}

/// Two threads hand jobs in; then the pool is closed: how many records it has, and how many of its jobs were done.
fn play<N, R>(
    rt: &R,
    alloc: Global,
    parts: NewPool<ParkGate, ThreadStarter>,
    one: Vec<Boxed>,
    two: Vec<Boxed>,
) -> (usize, u64)
where
    N: PoolLedgers + Send + Sync + 'static,
    R: Abort + Threads + Wait + Clock + Copy + Send + Sync + 'static,
    requires ledgers { AreOf N.name N.folds N.moments N.parts parts.blanks }
    requires one_each { N.parts ≡ parts.sizes.callers + parts.sizes.maximum }
    requires cap { N.cap ≡ most_records }
    requires gates { vec_len parts.gates ≡ parts.sizes.maximum }
    requires settings { N.settings ≡ record { sizes = parts.sizes; queue = parts.queue; policy = parts.policy } }
{
    let (pool, seats) = made::<N, Boxed, ParkGate, ThreadStarter>(rt, alloc, parts);
    let (first, second) = hand_both(rt, &pool, two_seats(rt, seats), one, two);
    let first = shut(rt, &pool, first);
    let done = pool.counters(rt).done;
    let chronicle = closed_by(rt, alloc, pool, two_backs(rt, alloc, first, second));
    (chronicle.records.len(), done)
}

/// The same, with whatever ledgers.
fn two_callers<R>(
    rt: &R,
    alloc: Global,
    parts: NewPool<ParkGate, ThreadStarter>,
    one: Vec<Boxed>,
    two: Vec<Boxed>,
) -> (usize, u64)
where
    R: Abort + Threads + Wait + Clock + Copy + Send + Sync + 'static,
    requires one_each { IsOneEach parts.sizes parts.blanks (vec_len parts.gates) }
{
    play::<Brand, R>(rt, alloc, parts, one, two)
}

/// The parts of a pool of two core workers, a third and two callers, which keeps whatever comes.
fn parts_of(rt: &impl Abort, alloc: Global) -> NewPool<ParkGate, ThreadStarter>
    ensures { IsOneEach result.sizes result.blanks (vec_len result.gates) }
{
    let mut gates = Vec::new(alloc);
    gates.push(ParkGate::new()).expect(rt, "no memory");
    gates.push(ParkGate::new()).expect(rt, "no memory");
    gates.push(ParkGate::new()).expect(rt, "no memory");
    NewPool {
        sizes: Sizes {
            core: 2,
            maximum: 3,
            callers: 2,
            keep_alive: 60_000,
            core_timeout: false,
        },
        queue: PoolQueue::Unbounded,
        policy: Policy::Abort,
        gates,
        starter: ThreadStarter::new(),
        blanks: Blanks::new(5),
    }
}

/// A boxed function that answers this number, as a job of this tag.
fn boxed(rt: &impl Abort, alloc: Global, n: u64) -> Boxed {
    let call: JobFn = Box::new(
        alloc,
        move || -> u64
            ensures { result ≡ n }
        { n },
    )
    .expect(rt, "no memory");
    Boxed::new(n, call)
}

/// Fifty such jobs, of the tags from 0.
fn fifty(rt: &impl Abort, alloc: Global) -> Vec<Boxed> {
    let mut jobs = Vec::new(alloc);
    for n in 0..50u64 {
        jobs.push(boxed(rt, alloc, n)).expect(rt, "no memory");
    }
    jobs
}

#[test]
fn callers_share_a_pool(rt: HostRuntime) {
    let alloc = rt.alloc();
    let (one, two) = (fifty(&rt, alloc), fifty(&rt, alloc));
    let (records, done) = two_callers(&rt, alloc, parts_of(&rt, alloc), one, two);
    assert_eq!(rt; done, 100);
    // Each job was handed in, run and done.
    assert_eq!(rt; records > 300, true);
}
