//! A pool bears one refusal of memory: no job is lost by it, and the call that is made again succeeds.
//! `dev/check/refuse` runs this test with each allocation refused in turn.

ghost use Rattle.std.specs.Prelude.{◌≡◌, ◌+◌, IfSome, vec_len};
ghost use Rattle.meet_place.specs.Ledgers.{AreOf};
ghost use Rattle.meet_tickets.specs.Limits.{most_records};

use crate::pools::{Backs, ItsTag, OurSeat, Parts, only};
use meet_cells::ParkGate;
use meet_place::{Back, Blanks, Ledgers};
use meet_tickets::Refusal;
use pool_core::{Policy, PoolQueue, Sizes};
use pool_threads::{
    Call, Job, NewPool, Pool, PoolChronicle, PoolFault, PoolLedgers, PoolRefused, SeatRefused,
    ThreadStarter,
};
use std::alloc::Global;
use std::collections::VecDeque;
use std::marker::Brand;
use std::process::Abort;
use std::sync::Wait;
use std::test::*;
use std::thread::Threads;
use std::time::Clock;

/// A job that answers its tag.
#[derive(Drop)]
struct Tagged {
    tag: u64,
}

impl Call<ItsTag> for Tagged {
    ghost tag_of = { λ job. job.tag };

    fn tag(&self) -> u64 {
        self.tag
    }

    fn make(self) -> u64 {
        self.tag
    }
}

/// A pool of such jobs.
type Ours<N> = Pool<ItsTag, Tagged, ParkGate, ThreadStarter, N>;

/// Why a pool isn't closed.
type Fault<N> = PoolFault<ItsTag, Tagged, ParkGate, ThreadStarter, N>;

/// What a pool leaves, or why it isn't closed.
type Closed<N> = Result<PoolChronicle<Tagged>, Fault<N>>;

/// The parts of a pool of two workers and one caller, which keeps whatever comes; none where memory is short.
fn parts_of(alloc: Global) -> Option<Parts>
    ensures records { IfSome result (λ parts. parts.blanks.records.parts ≡ parts.sizes.callers + parts.sizes.maximum) }
    ensures folds { IfSome result (λ parts. parts.blanks.folds.parts ≡ parts.sizes.callers + parts.sizes.maximum) }
    ensures gates { IfSome result (λ parts. vec_len parts.gates ≡ parts.sizes.maximum) }
{
    let mut gates = Vec::with_capacity(alloc, 2).ok()?;
    gates.push(ParkGate::new()).ok()?;
    gates.push(ParkGate::new()).ok()?;
    Some(NewPool {
        sizes: Sizes {
            core: 2,
            maximum: 2,
            callers: 1,
            keep_alive: 60_000,
            core_timeout: false,
        },
        queue: PoolQueue::Unbounded,
        policy: Policy::Abort,
        gates,
        starter: ThreadStarter::new(),
        blanks: Blanks::new(3),
    })
}

/// A job is handed in. Neither this nor what follows says what it does, so that who calls it is proved fast.
fn hands<N, R>(
    rt: &R,
    pool: &Ours<N>,
    seat: OurSeat<N>,
    job: Job<Tagged>,
) -> Result<OurSeat<N>, PoolRefused<Tagged, N>>
where
    N: PoolLedgers + Send + Sync + 'static,
    R: Threads + Wait + Clock + Copy + Send + 'static,
{
    match pool.execute(rt, seat, job) {
        Ok((seat, _outcome)) => Ok(seat),
        Err(refused) => Err(refused),
    }
}

/// A job that was refused since an allocation or a start failed is returned, with the seat.
fn comes_back<N: Ledgers>(
    rt: &impl Abort,
    refused: PoolRefused<Tagged, N>,
    tag: u64,
) -> (OurSeat<N>, Job<Tagged>) {
    let PoolRefused { why, seat, job } = refused;
    assert!(rt; why == Refusal::Memory || why == Refusal::NoThread);
    let job = job.expect(rt, "it didn't come back");
    assert_eq!(rt; job.tag(), tag);
    (seat, job)
}

/// A job is handed in, once more where it came back.
fn executes<N, R>(rt: &R, pool: &Ours<N>, seat: OurSeat<N>, tag: u64) -> OurSeat<N>
where
    N: PoolLedgers + Send + Sync + 'static,
    R: Abort + Threads + Wait + Clock + Copy + Send + 'static,
{
    let refused = match hands(rt, pool, seat, Job::new::<ItsTag>(Tagged { tag })) {
        Ok(seat) => return seat,
        Err(refused) => refused,
    };
    let (seat, job) = comes_back(rt, refused, tag);
    match hands(rt, pool, seat, job) {
        Ok(seat) => seat,
        Err(_) => panic!(rt; "it isn't executed"),
    }
}

/// Jobs of the tags from the first to before the second are handed in.
fn executes_all<N, R>(rt: &R, pool: &Ours<N>, first: OurSeat<N>, from: u64, to: u64) -> OurSeat<N>
where
    N: PoolLedgers + Send + Sync + 'static,
    R: Abort + Threads + Wait + Clock + Copy + Send + 'static,
{
    let mut seat = first;
    for tag in from..to {
        seat = executes(rt, pool, seat, tag);
    }
    seat
}

/// The seat comes back where there was no memory.
fn again<N: Ledgers>(rt: &impl Abort, refused: SeatRefused<N>) -> OurSeat<N> {
    let SeatRefused { why, seat } = refused;
    assert!(rt; why == Refusal::Memory);
    seat
}

/// A checkpoint.
fn folds_once<N, R>(rt: &R, pool: &Ours<N>, seat: OurSeat<N>) -> Result<OurSeat<N>, SeatRefused<N>>
where
    N: PoolLedgers,
    R: Wait,
{
    match pool.checkpoint(rt, seat) {
        Ok((seat, _gone)) => Ok(seat),
        Err(refused) => Err(refused),
    }
}

/// A checkpoint, at the second try where there was no memory at first.
fn folds<N, R>(rt: &R, pool: &Ours<N>, seat: OurSeat<N>) -> OurSeat<N>
where
    N: PoolLedgers,
    R: Abort + Wait,
{
    let seat = match folds_once(rt, pool, seat) {
        Ok(seat) => return seat,
        Err(refused) => again(rt, refused),
    };
    match folds_once(rt, pool, seat) {
        Ok(seat) => seat,
        Err(_) => panic!(rt; "no checkpoint"),
    }
}

/// A seat, and the kept jobs that came back from a shutdown.
type Shut<N> = (OurSeat<N>, VecDeque<Job<Tagged>>);

/// A shutdown.
fn shuts_once<N, R>(rt: &R, pool: &Ours<N>, seat: OurSeat<N>) -> Result<Shut<N>, SeatRefused<N>>
where
    N: PoolLedgers,
    R: Wait,
{
    pool.shutdown_now(rt, seat)
}

/// A shutdown, at the second try where there was no memory at first: the kept jobs.
fn shuts<N, R>(rt: &R, pool: &Ours<N>, seat: OurSeat<N>) -> Shut<N>
where
    N: PoolLedgers,
    R: Abort + Wait,
{
    let seat = match shuts_once(rt, pool, seat) {
        Ok(shut) => return shut,
        Err(refused) => again(rt, refused),
    };
    match shuts_once(rt, pool, seat) {
        Ok(shut) => shut,
        Err(_) => panic!(rt; "it isn't shut down"),
    }
}

/// The pool and its seat come back where there was no memory.
fn both_back<N: PoolLedgers>(rt: &impl Abort, fault: Fault<N>) -> (Ours<N>, Backs<N>) {
    match fault {
        PoolFault::Memory { pool, seats } => {
            assert_eq!(rt; seats.len(), 1);
            (pool, seats)
        }
        _ => panic!(rt; "something else than memory was wanted"),
    }
}

/// A pool is closed.
fn closes<N, R>(rt: &R, alloc: Global, pool: Ours<N>, seats: Backs<N>) -> Closed<N>
where
    N: PoolLedgers,
    R: Wait,
{
    pool.close(rt, alloc, seats)
}

/// A pool is closed, at the second try where there was no memory at first: then the pool and the seats came back.
fn ends<N, R>(rt: &R, alloc: Global, pool: Ours<N>, seats: Backs<N>) -> PoolChronicle<Tagged>
where
    N: PoolLedgers,
    R: Abort + Wait,
{
    let (pool, seats) = match closes(rt, alloc, pool, seats) {
        Ok(chronicle) => return chronicle,
        Err(fault) => both_back(rt, fault),
    };
    match closes(rt, alloc, pool, seats) {
        Ok(chronicle) => chronicle,
        Err(_) => panic!(rt; "it isn't closed"),
    }
}

/// An empty list with room for one, at the second try where there was no memory at first.
fn list<X: Drop>(rt: &impl Abort, alloc: Global) -> Vec<X> {
    match Vec::with_capacity(alloc, 1) {
        Ok(list) => list,
        Err(_) => Vec::with_capacity(alloc, 1).expect(rt, "memory"),
    }
}

/// A pool, and the seat of its caller; none where memory is short.
fn made<N: PoolLedgers>(
    rt: &impl Abort,
    alloc: Global,
    parts: Parts,
) -> Option<(Ours<N>, Vec<OurSeat<N>>)>
    requires ledgers { AreOf N.name N.folds N.moments N.parts parts.blanks }
    requires one_each { N.parts ≡ parts.sizes.callers + parts.sizes.maximum }
    requires cap { N.cap ≡ most_records }
    requires gates { vec_len parts.gates ≡ parts.sizes.maximum }
    requires settings { N.settings ≡ record { sizes = parts.sizes; queue = parts.queue; policy = parts.policy } }
{
    match Ours::<N>::new(alloc, parts) {
        Ok(made) => Some(made),
        Err(why) => {
            assert!(rt; why == Refusal::Memory);
            None
        }
    }
}

/// A pool gets five jobs, and is shut down: how many were done or came back.
fn works<N, R>(rt: &R, pool: &Ours<N>, seat: OurSeat<N>) -> (OurSeat<N>, u64)
where
    N: PoolLedgers + Send + Sync + 'static,
    R: Abort + Threads + Wait + Clock + Copy + Send + 'static,
{
    let seat = executes_all(rt, pool, seat, 1, 4);
    let seat = folds(rt, pool, seat);
    let seat = executes_all(rt, pool, seat, 4, 6);
    let (seat, jobs) = shuts(rt, pool, seat);
    pool.await_end(rt);
    let done = pool.counters(rt).done;
    (seat, done.saturating_add(jobs.len() as u64))
}

/// A pool is made, gets five jobs, is shut down and closed: each job was done, or came back. None where the pool wasn't
/// made since an allocation failed.
fn lives<N, R>(rt: &R, alloc: Global, parts: Parts) -> Option<u64>
where
    N: PoolLedgers + Send + Sync + 'static,
    R: Abort + Threads + Wait + Clock + Copy + Send + 'static,
    requires ledgers { AreOf N.name N.folds N.moments N.parts parts.blanks }
    requires one_each { N.parts ≡ parts.sizes.callers + parts.sizes.maximum }
    requires cap { N.cap ≡ most_records }
    requires gates { vec_len parts.gates ≡ parts.sizes.maximum }
    requires settings { N.settings ≡ record { sizes = parts.sizes; queue = parts.queue; policy = parts.policy } }
{
    let mut backs = list(rt, alloc);
    let (pool, seats) = match made::<N>(rt, alloc, parts) {
        Some(made) => made,
        None => return None,
    };
    let (seat, ended) = works(rt, &pool, only(rt, seats));
    backs.push(Back::Free(seat)).expect(rt, "no room");
    let chronicle = ends(rt, alloc, pool, backs);
    assert_eq!(rt; (chronicle.lists.len(), chronicle.left.len()), (3, 0));
    Some(ended)
}

/// The same, with whatever ledgers.
fn passes<R>(rt: &R, alloc: Global, parts: Parts) -> Option<u64>
where
    R: Abort + Threads + Wait + Clock + Copy + Send + 'static,
    requires records { parts.blanks.records.parts ≡ parts.sizes.callers + parts.sizes.maximum }
    requires folds { parts.blanks.folds.parts ≡ parts.sizes.callers + parts.sizes.maximum }
    requires gates { vec_len parts.gates ≡ parts.sizes.maximum }
{
    lives::<Brand, R>(rt, alloc, parts)
}

/// A pool from new parts.
fn tries<R>(rt: &R, alloc: Global) -> Option<u64>
where
    R: Abort + Threads + Wait + Clock + Copy + Send + 'static,
{
    match parts_of(alloc) {
        Some(parts) => passes(rt, alloc, parts),
        None => None,
    }
}

#[test]
fn a_pool_of_two_workers(rt: HostRuntime) {
    let alloc = rt.alloc();
    let ended = match tries(&rt, alloc) {
        Some(ended) => ended,
        None => tries(&rt, alloc).expect(&rt, "no pool"),
    };
    assert_eq!(rt; ended, 5);
}
