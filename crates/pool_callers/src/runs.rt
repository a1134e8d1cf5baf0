//! A pool and its callers, from its creation to its end.

ghost use Rattle.std.specs.Prelude.{◌≡◌, ◌+◌, ◌≤◌, [], None, false, IfOk, IfErr, MatchResult, vec_len, ◌-◌};
ghost use Rattle.std.specs.Vec.{vec_capacity};
ghost use Rattle.meet_place.specs.Ledgers.{AreOf};
ghost use Rattle.meet_tickets.specs.Limits.{most_records};
ghost use Rattle.meet_tickets.specs.declared.places.Order.TheVariants.{Unfair};
ghost use Rattle.pool_core.specs.Calls.{settings_refusal};
ghost use Rattle.pool_core.specs.Limits.{most_together};
ghost use Rattle.pool_core.specs.declared.settings.PoolQueue.TheVariants.{Unbounded, Hand};
ghost use Rattle.pool_core.specs.declared.settings.Policy.TheVariants.{Abort};
ghost use Rattle.pool_callers.specs.PoolRuns.{IsPoolHistory, IsUnclosed, IsRunWhy, fixed, cached};

use crate::at::Parked;
use crate::calling::{OurSeat, given_back, seated};
use crate::handle::PoolHandle;
use crate::starting::Starting;
use meet_cells::ParkGate;
use meet_place::{Back, Blanks};
use meet_threads::{Finished, Room, Start, joined};
use meet_tickets::{Order, Refusal};
use pool_core::{MOST_TOGETHER, Policy, PoolDeed, PoolQueue, Settings, Sizes};
use pool_threads::{
    Call, NewPool, Pool, PoolChronicle, PoolLedgers, SeatRefused, ThreadStarter, Work,
};
use std::alloc::Global;
use std::marker::Brand;
use std::sync::Wait;
use std::thread::Threads;
use std::time::Clock;

/// States what the callers of a pool do: they hand jobs in, and look at the pool.
///
/// # Example
/// From `crates/examples/src/pool.rt`:
///
///     impl PoolCaller<Squares, Square> for Ten {
pub trait PoolCaller<W: Work, C: Call<W>> {
    /// The result of each thread.
    type Output;

    /// Does the work of the thread with this handle, and returns its result. In Java: the `Runnable` of a thread that
    /// calls `execute`.
    fn run<P: PoolHandle<W, C>>(&self, pool: &mut P) -> Self::Output;
}

/// Shuts a pool down from this seat. If the log is full, it is compacted before.
///
/// # Errors
/// - Memory, if an allocation fails.
fn shut<W: Work, C: Drop, N: PoolLedgers, R: Wait>(
    rt: &R,
    pool: &Parked<W, C, N>,
    seat: OurSeat<N>,
) -> Result<OurSeat<N>, Refusal>
    ensures { IfErr result IsUnclosed }
{
    let seat = match pool.shutdown(rt, seat) {
        Ok(seat) => return Ok(seat),
        Err(refused) => {
            let SeatRefused { seat, why } = refused;
            if why != Refusal::HistoryFull {
                return Err(why);
            }
            seat
        }
    };
    let (seat, _gone) = pool.checkpoint(rt, seat).map_err(SeatRefused::into_why)?;
    pool.shutdown(rt, seat).map_err(SeatRefused::into_why)
}

/// Shuts a pool down, waits until its workers have ended, and closes it with these seats, of which there is one. The
/// empty list has room for them.
fn ended<W: Work, C: Drop, N: PoolLedgers, R: Wait>(
    rt: &R,
    alloc: Global,
    pool: Parked<W, C, N>,
    seats: Vec<OurSeat<N>>,
    empty: Vec<Back<PoolDeed<u64>, N>>,
) -> Result<PoolChronicle<C>, Refusal>
    requires cap { N.cap ≡ most_records }
    requires callers { vec_len seats ≡ N.settings.sizes.callers }
    requires all { N.parts ≡ N.settings.sizes.callers + N.settings.sizes.maximum }
    requires empty { empty.items ≡ [] }
    requires room { vec_len seats ≤ vec_capacity empty }
    ensures { MatchResult result (IsPoolHistory W.worth N.settings) IsUnclosed }
{
    let mut seats = seats;
    let Some(seat) = seats.pop() else {
        return Err(Refusal::SeatMissing);
    };
    let seat = shut(rt, &pool, seat)?;
    seats.push_reserved(seat);
    pool.await_end(rt);
    match pool.close(rt, alloc, given_back(seats, empty)) {
        Ok(chronicle) => Ok(chronicle),
        Err(fault) => Err(fault.into_why()),
    }
}

/// Runs callers at a pool of these parts.
fn at_parts<W, C, N, R, V>(
    rt: &R,
    alloc: Global,
    parts: NewPool<ParkGate, ThreadStarter>,
    caller: &V,
) -> Result<Finished<PoolChronicle<C>, V::Output>, Refusal>
where
    W: Work + Send + Sync + 'static,
    C: Call<W> + Drop + Send + 'static,
    N: PoolLedgers + Send + Sync + 'static,
    R: Threads + Wait + Clock + Copy + Send + Sync + 'static,
    V: PoolCaller<W, C> + Sync,
    V::Output: Send + Drop,
    requires ledgers { AreOf N.name N.folds N.moments N.parts parts.blanks }
    requires one_each { N.parts ≡ parts.sizes.callers + parts.sizes.maximum }
    requires cap { N.cap ≡ most_records }
    requires gates { vec_len parts.gates ≡ parts.sizes.maximum }
    requires settings { N.settings ≡ record { sizes = parts.sizes; queue = parts.queue; policy = parts.policy } }
    requires fits { settings_refusal N.settings ≡ None }
    ensures results { IfOk result (λ done. vec_len done.results ≡ N.settings.sizes.callers) }
    ensures history { IfOk result (λ done. MatchResult done.log
        (IsPoolHistory W.worth N.settings) IsUnclosed) }
    ensures why { IfErr result (IsRunWhy N.settings) }
{
    let count = parts.sizes.callers as usize;
    let backs = Vec::with_capacity(alloc, count).map_err(|_| Refusal::Memory)?;
    let Room {
        threads,
        seats: empty,
        results,
    } = Room::new(alloc, count)?;
    let (pool, seats) = Pool::<W, C, ParkGate, ThreadStarter, N>::new(alloc, parts)?;
    let start = Start::new();
    let starting = Starting::new(count as u64);
    let Some(threads) = seated(rt, &pool, caller, &start, &starting, seats, threads) else {
        return Err(Refusal::NoThread);
    };
    let Some((seats, results)) = joined(rt, threads, empty, results) else {
        return Err(Refusal::NoThread);
    };
    Ok(Finished {
        results,
        log: ended(rt, alloc, pool, seats, backs),
    })
}

/// Makes a pool of these sizes, this queue and this policy, and runs a thread for each of its callers, with a handle.
/// After all of them have ended, it shuts the pool down, waits until its workers have done all buffered jobs, and closes
/// it. It waits for ever if a thread or a job never ends. The records are a legal history of a pool with these very
/// settings.
///
/// # Errors
/// - BadSizes or PolicyNeedsBuffer, exactly if no pool can be made with these settings (`Pool::new`).
/// - Memory, if an allocation fails before the first thread is started.
/// - NoThread, if a caller's thread can't be started; then none has begun to work.
///
/// Java: `new ThreadPoolExecutor(..)`, the threads that call `execute`, `shutdown` and `awaitTermination`.
pub fn run_pool<W, C, R, V>(
    rt: &R,
    alloc: Global,
    settings: Settings,
    caller: &V,
) -> Result<Finished<PoolChronicle<C>, V::Output>, Refusal>
where
    W: Work + Send + Sync + 'static,
    C: Call<W> + Drop + Send + 'static,
    R: Threads + Wait + Clock + Copy + Send + Sync + 'static,
    V: PoolCaller<W, C> + Sync,
    V::Output: Send + Drop,
    ensures results { IfOk result (λ done. vec_len done.results ≡ settings.sizes.callers) }
    ensures history { IfOk result (λ done. MatchResult done.log (IsPoolHistory W.worth settings) IsUnclosed) }
    ensures fits { IfOk result (λ _. settings_refusal settings ≡ None) }
    ensures why { IfErr result (IsRunWhy settings) }
{
    if let Some(why) = settings.refusal() {
        return Err(why);
    }
    let sizes = settings.sizes;
    let parts = NewPool {
        sizes,
        queue: settings.queue,
        policy: settings.policy,
        gates: ParkGate::many(alloc, sizes.maximum)?,
        starter: ThreadStarter::new(),
        blanks: Blanks::new(sizes.callers + sizes.maximum),
    };
    at_parts::<W, C, Brand, R, V>(rt, alloc, parts, caller)
}

/// Runs `callers` threads at a new pool of `workers` workers, which buffers any number of jobs, as `run_pool`
/// does.
///
/// # Errors
/// - BadSizes, exactly if `callers` or `workers` is 0, or they are more than 1,024 together.
/// - Memory, if an allocation fails before the first thread is started.
/// - NoThread, if a caller's thread can't be started; then none has begun to work.
///
/// # Example
/// From `crates/examples/src/pool.rt`:
///
///     let done = run_fixed_pool(rt, alloc, 1, 2, &Ten)?; // one caller, two workers
///
/// Java: `Executors.newFixedThreadPool(workers)`.
pub fn run_fixed_pool<W, C, R, V>(
    rt: &R,
    alloc: Global,
    callers: u64,
    workers: u64,
    caller: &V,
) -> Result<Finished<PoolChronicle<C>, V::Output>, Refusal>
where
    W: Work + Send + Sync + 'static,
    C: Call<W> + Drop + Send + 'static,
    R: Threads + Wait + Clock + Copy + Send + Sync + 'static,
    V: PoolCaller<W, C> + Sync,
    V::Output: Send + Drop,
    ensures results { IfOk result (λ done. vec_len done.results ≡ callers) }
    ensures history { IfOk result (λ done. MatchResult done.log (IsPoolHistory W.worth (fixed callers workers)) IsUnclosed) }
    ensures fits { IfOk result (λ _. settings_refusal (fixed callers workers) ≡ None) }
    ensures why { IfErr result (IsRunWhy (fixed callers workers)) }
{
    let settings = Settings {
        sizes: Sizes::fixed(callers, workers),
        queue: PoolQueue::Unbounded,
        policy: Policy::Abort,
    };
    run_pool(rt, alloc, settings, caller)
}

/// Runs `callers` threads at a new pool of one worker, which runs the jobs in order of arrival, as `run_pool`
/// does.
///
/// # Errors
/// - BadSizes, exactly if `callers` is 0 or more than 1,023.
/// - Memory, if an allocation fails before the first thread is started.
/// - NoThread, if a caller's thread can't be started; then none has begun to work.
///
/// Java: `Executors.newSingleThreadExecutor()`.
pub fn run_single_pool<W, C, R, V>(
    rt: &R,
    alloc: Global,
    callers: u64,
    caller: &V,
) -> Result<Finished<PoolChronicle<C>, V::Output>, Refusal>
where
    W: Work + Send + Sync + 'static,
    C: Call<W> + Drop + Send + 'static,
    R: Threads + Wait + Clock + Copy + Send + Sync + 'static,
    V: PoolCaller<W, C> + Sync,
    V::Output: Send + Drop,
    ensures results { IfOk result (λ done. vec_len done.results ≡ callers) }
    ensures history { IfOk result (λ done. MatchResult done.log (IsPoolHistory W.worth (fixed callers 1)) IsUnclosed) }
    ensures fits { IfOk result (λ _. settings_refusal (fixed callers 1) ≡ None) }
    ensures why { IfErr result (IsRunWhy (fixed callers 1)) }
{
    run_fixed_pool(rt, alloc, callers, 1, caller)
}

/// Runs `callers` threads at a new pool that starts a worker for each job that no waiting worker gets, as
/// `run_pool` does. A worker that waits a minute in vain ends. There are at most 1,024 callers and workers together; a
/// job that comes while all of them run is rejected (`Outcome::Aborted`).
///
/// # Errors
/// - BadSizes, exactly if `callers` is 0 or more than 1,023.
/// - Memory, if an allocation fails before the first thread is started.
/// - NoThread, if a caller's thread can't be started; then none has begun to work.
///
/// Java: `Executors.newCachedThreadPool()`.
pub fn run_cached_pool<W, C, R, V>(
    rt: &R,
    alloc: Global,
    callers: u64,
    caller: &V,
) -> Result<Finished<PoolChronicle<C>, V::Output>, Refusal>
where
    W: Work + Send + Sync + 'static,
    C: Call<W> + Drop + Send + 'static,
    R: Threads + Wait + Clock + Copy + Send + Sync + 'static,
    V: PoolCaller<W, C> + Sync,
    V::Output: Send + Drop,
    ensures results { IfOk result (λ done. vec_len done.results ≡ callers) }
    ensures history { IfOk result (λ done. MatchResult done.log (IsPoolHistory W.worth (cached callers)) IsUnclosed) }
    ensures fits { IfOk result (λ _. settings_refusal (cached callers) ≡ None) }
    ensures why { IfErr result (IsRunWhy (cached callers)) }
{
    if callers == 0 || callers >= MOST_TOGETHER {
        return Err(Refusal::BadSizes);
    }
    let settings = Settings {
        sizes: Sizes::cached(callers),
        queue: PoolQueue::Hand(Order::Unfair),
        policy: Policy::Abort,
    };
    run_pool(rt, alloc, settings, caller)
}
