//! Pools as these tests make, use and end them. Who owns a pool calls functions that borrow it. None of these says what
//! it does, and what goes wrong ends the test: so a test that calls them is proved fast.

ghost use Rattle.std.specs.Prelude.{◌≡◌, ◌<◌, ◌+◌, ◌^◌, vec_len};
ghost use Rattle.meet_place.specs.Ledgers.{AreOf};
ghost use Rattle.meet_tickets.specs.Limits.{most_records};

use meet_cells::ParkGate;
use meet_place::{Back, Blanks, Ledgers, Seat};
use pool_core::{Counters, Policy, PoolDeed, PoolQueue, Sizes};
use pool_threads::{
    Call, Job, NewPool, Pool, PoolChronicle, PoolFault, PoolLedgers, PoolRefused, ThreadStarter,
    Work,
};
use std::alloc::Global;
use std::process::Abort;
use std::sync::atomic::{AtomicBool, Ordering};
use std::sync::{Arc, Wait};
use std::test::*;
use std::thread;
use std::thread::Threads;
use std::time::{Clock, Duration};

/// How often something is looked for, a millisecond apart, before it is given up.
const LOOKS: u64 = 10_000;

/// Each job is worth its tag.
pub struct ItsTag;

impl Work for ItsTag {
    ghost worth = { λ tag. tag };
}

/// A job that answers its tag, once a flag is set where it has one.
#[derive(Drop)]
pub(crate) struct Task<R> {
    tag: u64,
    waits: Option<(R, Arc<AtomicBool>)>,
}

impl<R> Task<R> {
    /// A job that answers at once.
    pub(crate) fn new(tag: u64) -> Task<R> {
        Task { tag, waits: None }
    }

    /// A job that waits for this flag, ten seconds at most.
    fn held(tag: u64, rt: R, flag: Arc<AtomicBool>) -> Task<R> {
        Task {
            tag,
            waits: Some((rt, flag)),
        }
    }
}

/// Waits for a flag, ten seconds at most.
fn await_flag<R: Clock>(rt: &R, flag: &AtomicBool) {
    for _ in 0..LOOKS {
        if flag.load(Ordering::SeqCst) {
            return;
        }
        thread::sleep(rt, Duration::from_millis(1));
    }
}

impl<R: Clock + Drop> Call<ItsTag> for Task<R> {
    ghost tag_of = { λ task. task.tag };

    fn tag(&self) -> u64 {
        self.tag
    }

    fn make(self) -> u64 {
        let Task { tag, waits } = self;
        if let Some((rt, flag)) = waits {
            await_flag(&rt, &flag);
        }
        tag
    }
}

/// A pool of such jobs.
pub(crate) type Tasks<R, N> = Pool<ItsTag, Task<R>, ParkGate, ThreadStarter, N>;

/// A seat of it.
pub(crate) type OurSeat<N> = Seat<PoolDeed<u64>, N>;

/// Its parts.
pub(crate) type Parts = NewPool<ParkGate, ThreadStarter>;

/// Seats that are given back.
pub(crate) type Backs<N> = Vec<Back<PoolDeed<u64>, N>>;

/// How many seats a pool has, and how many were made.
pub(crate) type Seats = (u64, u64);

/// The parts of a pool of so many callers, and of a worker for each gate, which keeps whatever comes.
pub(crate) fn parts_of(callers: u64, gates: Vec<ParkGate>) -> Parts
    requires few { callers + vec_len gates < 2 ^ 64 }
    ensures records { result.blanks.records.parts ≡ result.sizes.callers + result.sizes.maximum }
    ensures folds { result.blanks.folds.parts ≡ result.sizes.callers + result.sizes.maximum }
    ensures gates { vec_len result.gates ≡ result.sizes.maximum }
{
    let maximum = gates.len() as u64;
    NewPool {
        sizes: Sizes {
            core: maximum,
            maximum,
            callers,
            keep_alive: 60_000,
            core_timeout: false,
        },
        queue: PoolQueue::Unbounded,
        policy: Policy::Abort,
        gates,
        starter: ThreadStarter::new(),
        blanks: Blanks::new(callers + maximum),
    }
}

/// A pool, and the seats of its callers.
pub(crate) fn made<N, R>(
    rt: &impl Abort,
    alloc: Global,
    parts: Parts,
) -> (Tasks<R, N>, Vec<OurSeat<N>>)
where
    N: PoolLedgers,
    R: Clock + Drop,
    requires ledgers { AreOf N.name N.folds N.moments N.parts parts.blanks }
    requires one_each { N.parts ≡ parts.sizes.callers + parts.sizes.maximum }
    requires cap { N.cap ≡ most_records }
    requires gates { vec_len parts.gates ≡ parts.sizes.maximum }
    requires settings { N.settings ≡ record { sizes = parts.sizes; queue = parts.queue; policy = parts.policy } }
{
    match Pool::new(alloc, parts) {
        Ok(made) => made,
        Err(_) => panic!(rt; "no pool"),
    }
}

/// The last of these seats.
pub(crate) fn last<N: Ledgers>(rt: &impl Abort, seats: &mut Vec<OurSeat<N>>) -> OurSeat<N> {
    match seats.pop() {
        Some(seat) => seat,
        None => panic!(rt; "no seat"),
    }
}

/// The only one of these seats.
pub(crate) fn only<N: Ledgers>(rt: &impl Abort, made: Vec<OurSeat<N>>) -> OurSeat<N> {
    let mut seats = made;
    last(rt, &mut seats)
}

/// A job is handed in: the seat, or what came back.
fn tries<N, R>(
    rt: &R,
    pool: &Tasks<R, N>,
    seat: OurSeat<N>,
    task: Task<R>,
) -> Result<OurSeat<N>, PoolRefused<Task<R>, N>>
where
    N: PoolLedgers + Send + Sync + 'static,
    R: Threads + Wait + Clock + Copy + Send + 'static,
{
    match pool.execute(rt, seat, Job::new::<ItsTag>(task)) {
        Ok((seat, _outcome)) => Ok(seat),
        Err(refused) => Err(refused),
    }
}

/// Hands a job in.
pub(crate) fn handed<N, R>(
    rt: &R,
    pool: &Tasks<R, N>,
    seat: OurSeat<N>,
    task: Task<R>,
) -> OurSeat<N>
where
    N: PoolLedgers + Send + Sync + 'static,
    R: Abort + Threads + Wait + Clock + Copy + Send + 'static,
{
    match tries(rt, pool, seat, task) {
        Ok(seat) => seat,
        Err(_) => panic!(rt; "a job was refused"),
    }
}

/// Hands a job in, and lets the seat go: whether the job was taken.
fn is_taken<N, R>(rt: &R, pool: &Tasks<R, N>, seat: OurSeat<N>, tag: u64) -> bool
where
    N: PoolLedgers + Send + Sync + 'static,
    R: Threads + Wait + Clock + Copy + Send + 'static,
{
    tries(rt, pool, seat, Task::new(tag)).is_ok()
}

/// A thread hands a job in, and ends without handing its seat back: whether the job was taken.
pub(crate) fn ends_with_its_seat<N, R>(
    rt: &R,
    pool: &Tasks<R, N>,
    seat: OurSeat<N>,
    tag: u64,
) -> bool
where
    N: PoolLedgers + Send + Sync + 'static,
    R: Threads + Wait + Clock + Copy + Send + Sync + 'static,
{
    thread::scope(thread::scope_env(), rt, |scope| {
        let spawned = scope.spawn(move || is_taken(rt, pool, seat, tag));
        match spawned {
            Ok(handle) => handle.join(rt),
            Err(_) => false,
        }
    })
}

/// How many jobs came back, and the tag of the first.
pub(crate) type CameBack = (usize, Option<u64>);

/// Shuts a pool down at once: how many kept jobs come back, and the tag of the first.
pub(crate) fn stopped<N, R>(rt: &R, pool: &Tasks<R, N>, seat: OurSeat<N>) -> (OurSeat<N>, CameBack)
where
    N: PoolLedgers,
    R: Abort + Wait + Clock + Drop,
{
    match pool.shutdown_now(rt, seat) {
        Ok((seat, jobs)) => {
            let first = jobs.front().map(|job| job.tag());
            (seat, (jobs.len(), first))
        }
        Err(_) => panic!(rt; "no shutdown"),
    }
}

/// What is counted in a pool.
#[derive(Clone, Copy)]
pub(crate) enum Counted {
    Done,
    Kept,
    Workers,
}

impl Counted {
    /// How many there are.
    fn of(self, counters: Counters) -> u64 {
        match self {
            Counted::Done => counters.done,
            Counted::Kept => counters.kept,
            Counted::Workers => counters.workers,
        }
    }
}

/// Waits until there are so many of these, ten seconds at most: how many there are.
pub(crate) fn reached<N, R>(rt: &R, pool: &Tasks<R, N>, counted: Counted, count: u64) -> u64
where
    N: PoolLedgers,
    R: Wait + Clock + Drop,
{
    for _ in 0..LOOKS {
        if counted.of(pool.counters(rt)) == count {
            return count;
        }
        thread::sleep(rt, Duration::from_millis(1));
    }
    counted.of(pool.counters(rt))
}

/// This seat, to be given back.
pub(crate) fn given_back<N: Ledgers>(rt: &impl Abort, alloc: Global, seat: OurSeat<N>) -> Backs<N> {
    let mut backs = Vec::new(alloc);
    backs.push(Back::Free(seat)).expect(rt, "no memory");
    backs
}

/// The only seat that came back, without an open ticket.
pub(crate) fn freed<N: Ledgers>(rt: &impl Abort, came: Backs<N>) -> OurSeat<N> {
    let mut backs = came;
    match backs.pop() {
        Some(back) => match back {
            Back::Free(seat) => seat,
            Back::Held(_) => panic!(rt; "a ticket is open"),
        },
        None => panic!(rt; "no seat"),
    }
}

/// Tries to close a pool with too few seats: the pool and these seats, which come back, and how many it has.
pub(crate) fn unclosed<N, R>(
    rt: &R,
    alloc: Global,
    pool: Tasks<R, N>,
    backs: Backs<N>,
) -> (Tasks<R, N>, Backs<N>, Seats)
where
    N: PoolLedgers,
    R: Abort + Wait + Clock + Drop,
{
    match pool.close(rt, alloc, backs) {
        Ok(_) => panic!(rt; "closed"),
        Err(fault) => match fault {
            PoolFault::SeatMissing {
                have,
                made,
                pool,
                seats,
            } => (pool, seats, (have, made)),
            _ => panic!(rt; "another fault"),
        },
    }
}

/// Closes a pool.
pub(crate) fn closed<N, R>(
    rt: &R,
    alloc: Global,
    pool: Tasks<R, N>,
    backs: Backs<N>,
) -> PoolChronicle<Task<R>>
where
    N: PoolLedgers,
    R: Abort + Wait + Clock + Drop,
{
    match pool.close(rt, alloc, backs) {
        Ok(chronicle) => chronicle,
        Err(_) => panic!(rt; "not closed"),
    }
}

/// A flag that isn't set.
pub(crate) fn flag_of(rt: &impl Abort, alloc: Global) -> Arc<AtomicBool> {
    Arc::new(alloc, AtomicBool::new(false)).expect(rt, "no memory")
}

/// A job of this tag that waits for this flag.
pub(crate) fn held<R: Abort + Copy>(rt: &R, tag: u64, flag: &Arc<AtomicBool>) -> Task<R> {
    Task::held(tag, *rt, Arc::try_clone(flag).expect(rt, "too many holds"))
}

/// How many workers' records tell this answer.
pub(crate) fn answers<R>(chronicle: &PoolChronicle<Task<R>>, answer: u64) -> usize {
    let told = chronicle
        .records
        .iter()
        .filter(|record| record.deed == PoolDeed::Finished(answer));
    told.count()
}
