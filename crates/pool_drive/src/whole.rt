//! A demo run from its start to its end. Each caller takes a seat out of its slot, and puts it back there at its end:
//! so a seat is returned whatever happens, also if its thread can't be started.

ghost use Rattle.std.specs.Prelude.{◌≡◌, ◌+◌, ◌≤◌, true, false, [], Some, IfOk, vec_len};
ghost use Rattle.std.specs.Vec.{vec_capacity};
ghost use Rattle.meet_place.specs.Ledgers.{AreOf};
ghost use Rattle.meet_tickets.specs.Limits.{most_records};
ghost use Rattle.meet_tickets.specs.declared.refusals.Refusal.TheVariants.{NoThread};
ghost use Rattle.pool_drive.specs.Driven.{IsPoolSized, IsPoolDriven};

use crate::answers::{count_done, sum_answered};
use crate::jobs::{ItsNumber, Numbered};
use meet_cells::ParkGate;
use meet_place::{Back, Blanks, Seat};
use meet_tickets::{Record, Refusal};
use pool_core::{Counters, Policy, PoolDeed, PoolQueue, Settings, Sizes};
use pool_history::check_pool;
use pool_threads::{Job, NewPool, Pool, PoolChronicle, PoolLedgers, PoolRefused, ThreadStarter};
use std::alloc::Global;
use std::marker::Brand;
use std::mem::ManuallyDrop;
use std::sync::{Mutex, Wait};
use std::thread::Threads;
use std::time::Clock;
use std::{mem, thread};

/// The most callers of a demo run: 64.
pub const MOST_CALLERS: u64 = 64;

/// The most jobs that each of them executes: 1,000.
pub const MOST_EACH: u64 = 1000;

/// The most workers of a demo run: 64.
pub const MOST_WORKERS: u64 = 64;

/// The outcome of a demo run.
#[derive(Clone, Copy, PartialEq, Eq, Debug)]
pub struct PoolDrive {
    /// The jobs that were executed.
    pub jobs: u64,
    /// The sum of what they returned.
    pub sum: u64,
    /// The jobs that are done by the records.
    pub done: u64,
    /// The records.
    pub records: u64,
    /// What the pool counts at its end.
    pub counters: Counters,
}

/// The pool of a demo run.
type Ours<N> = Pool<ItsNumber, Numbered, ParkGate, ThreadStarter, N>;

/// A caller's seat of it.
type OurSeat<N> = Seat<PoolDeed<u64>, N>;

/// Where a caller's seat lies before its thread starts and after it ended, and why a job of it was refused, if one was.
#[derive(Drop)]
struct Slot<N: PoolLedgers> {
    seat: Option<OurSeat<N>>,
    why: Option<Refusal>,
}

/// Slots with these seats. The empty list has room for them.
fn slots_of<N: PoolLedgers>(
    seats: Vec<OurSeat<N>>,
    empty: Vec<Mutex<Slot<N>>>,
) -> Vec<Mutex<Slot<N>>>
    requires empty { empty.items ≡ [] }
    requires room { vec_len seats ≤ vec_capacity empty }
    ensures count { vec_len result ≡ vec_len seats }
{
    let mut slots = empty;
    for seat in seats {
        slots.push_reserved(Mutex::new(Slot {
            seat: Some(seat),
            why: None,
        }));
    }
    slots
}

/// The seats of these slots, to be returned, and the first reason for which a job was refused. The empty list has room
/// for them.
fn seats_of<N: PoolLedgers>(
    slots: Vec<Mutex<Slot<N>>>,
    empty: Vec<Back<PoolDeed<u64>, N>>,
) -> (Vec<Back<PoolDeed<u64>, N>>, Option<Refusal>)
    requires empty { empty.items ≡ [] }
    requires room { vec_len slots ≤ vec_capacity empty }
{
    let mut backs = empty;
    let mut why = None;
    for slot in slots {
        let slot = slot.into_inner();
        let Slot { seat, why: own } = slot;
        why = why.or(own);
        if let Some(seat) = seat {
            backs.push_reserved(Back::Free(seat));
        }
    }
    (backs, why)
}

/// Hands the jobs of one caller in, until one is refused.
fn hand_all<N, R>(
    rt: &R,
    pool: &Ours<N>,
    first: OurSeat<N>,
    each: u64,
) -> (OurSeat<N>, Option<Refusal>)
where
    N: PoolLedgers + Send + Sync + 'static,
    R: Threads + Wait + Clock + Copy + Send + 'static,
{
    let mut seat = first;
    for number in 1..=each {
        match pool.execute(rt, seat, Job::new::<ItsNumber>(Numbered { number })) {
            Ok((after, _outcome)) => seat = after,
            Err(refused) => {
                let PoolRefused { why, seat, job: _ } = refused;
                return (seat, Some(why));
            }
        }
    }
    (seat, None)
}

/// The caller of a slot hands its jobs in.
fn call<N, R>(rt: &R, pool: &Ours<N>, slot: &Mutex<Slot<N>>, each: u64)
where
    N: PoolLedgers + Send + Sync + 'static,
    R: Threads + Wait + Clock + Copy + Send + 'static,
{
    let taken = slot.lock(rt).seat.take();
    if let Some(seat) = taken {
        let (seat, why) = hand_all(rt, pool, seat, each);
        let mut slot = slot.lock(rt);
        slot.why = why;
        let before = mem::replace(&mut slot.seat, Some(seat));
        let _empty = ManuallyDrop::new(before);
    }
}

/// Each caller in a thread of its own: whether each could be started.
fn call_all<N, R>(rt: &R, pool: &Ours<N>, slots: &[Mutex<Slot<N>>], each: u64) -> bool
where
    N: PoolLedgers + Send + Sync + 'static,
    R: Threads + Wait + Clock + Copy + Send + Sync + 'static,
{
    thread::scope(thread::scope_env(), rt, |scope| {
        let mut all_started = true;
        for slot in slots {
            let started = scope.spawn(move || call(rt, pool, slot, each));
            if started.is_err() {
                all_started = false;
            }
        }
        all_started
    })
}

/// Shuts the pool down from one of these seats, and waits until no worker is left; then the seats are there again.
fn shut<N, R>(
    rt: &R,
    pool: &Ours<N>,
    seats: Vec<Back<PoolDeed<u64>, N>>,
) -> Result<Vec<Back<PoolDeed<u64>, N>>, Refusal>
where
    N: PoolLedgers,
    R: Wait + Drop,
{
    let mut backs = seats;
    let Some(Back::Free(seat)) = backs.pop() else {
        return Err(Refusal::SeatMissing);
    };
    match pool.shutdown(rt, seat) {
        Ok(seat) => {
            pool.await_end(rt);
            backs.push_reserved(Back::Free(seat));
            Ok(backs)
        }
        Err(refused) => Err(refused.into_why()),
    }
}

/// What the records of a pool state of a demo run of this many callers, of `each` jobs each, and workers: all jobs were
/// done, and returned their numbers; otherwise it is Differs. Fails only so, or if an allocation fails.
fn told(
    alloc: Global,
    records: &[Record<PoolDeed<u64>>],
    callers: u64,
    each: u64,
    workers: u64,
) -> Result<PoolDrive, Refusal>
    requires sized { IsPoolSized callers each workers }
    ensures { IfOk result (IsPoolDriven callers each workers) }
{
    let done = count_done(records);
    let sum = sum_answered(records).ok_or(Refusal::Differs)?;
    if done != callers * each || sum.checked_mul(2) != Some(done * (each + 1)) {
        return Err(Refusal::Differs);
    }
    let settings = Settings {
        sizes: Sizes::fixed(callers, workers),
        queue: PoolQueue::Unbounded,
        policy: Policy::Abort,
    };
    match check_pool(alloc, settings, records)? {
        Ok(counters) => Ok(PoolDrive {
            jobs: callers * each,
            sum,
            done,
            records: records.len() as u64,
            counters,
        }),
        // A pool that was closed has a legal history.
        Err(_) => Err(Refusal::Differs),
    }
}

/// What the callers of a demo run leave after the end of its pool: their seats, and why it ended early, if it did.
struct CallersDone<N: PoolLedgers> {
    backs: Vec<Back<PoolDeed<u64>, N>>,
    early: Option<Refusal>,
}

/// Why a demo run ended early, if it did: a caller couldn't be started, or else why a job was refused.
fn ended_early(all_started: bool, why: Option<Refusal>) -> Option<Refusal>
    ensures unstarted { all_started ≡ false → result ≡ Some NoThread }
    ensures refused { all_started ≡ true → result ≡ why }
{
    if all_started {
        why
    } else {
        Some(Refusal::NoThread)
    }
}

/// Executes the callers' jobs, and ends the pool. It fails with Memory before the first job, or as `shutdown` fails
/// after the last one; then seats are dropped, and the pool can't be closed.
fn called<N, R>(
    rt: &R,
    alloc: Global,
    pool: &Ours<N>,
    seats: Vec<OurSeat<N>>,
    each: u64,
) -> Result<CallersDone<N>, Refusal>
where
    N: PoolLedgers + Send + Sync + 'static,
    R: Threads + Wait + Clock + Copy + Send + Sync + 'static,
{
    let count = seats.len();
    let Ok(slots) = Vec::with_capacity(alloc, count) else {
        return Err(Refusal::Memory);
    };
    let Ok(backs) = Vec::with_capacity(alloc, count) else {
        return Err(Refusal::Memory);
    };
    let slots = slots_of::<N>(seats, slots);
    let all_started = call_all(rt, pool, slots.as_slice(), each);
    let (backs, why) = seats_of(slots, backs);
    Ok(CallersDone {
        backs: shut(rt, pool, backs)?,
        early: ended_early(all_started, why),
    })
}

/// The records of a pool that has ended, and is closed with these seats.
fn closed<N, R>(
    rt: &R,
    alloc: Global,
    pool: Ours<N>,
    backs: Vec<Back<PoolDeed<u64>, N>>,
) -> Result<Vec<Record<PoolDeed<u64>>>, Refusal>
where
    N: PoolLedgers,
    R: Wait + Drop,
{
    match pool.close(rt, alloc, backs) {
        Ok(chronicle) => {
            let PoolChronicle { records, .. } = chronicle;
            Ok(records)
        }
        Err(fault) => Err(fault.into_why()),
    }
}

/// The records of a demo run at this pool.
fn driven<N, R>(
    rt: &R,
    alloc: Global,
    pool: Ours<N>,
    seats: Vec<OurSeat<N>>,
    each: u64,
) -> Result<Vec<Record<PoolDeed<u64>>>, Refusal>
where
    N: PoolLedgers + Send + Sync + 'static,
    R: Threads + Wait + Clock + Copy + Send + Sync + 'static,
{
    let CallersDone { backs, early } = called(rt, alloc, &pool, seats, each)?;
    let records = closed(rt, alloc, pool, backs)?;
    match early {
        Some(why) => Err(why),
        None => Ok(records),
    }
}

/// A demo run at a pool of these parts, with any ledgers.
fn driving<N, R>(
    rt: &R,
    alloc: Global,
    parts: NewPool<ParkGate, ThreadStarter>,
    each: u64,
) -> Result<Vec<Record<PoolDeed<u64>>>, Refusal>
where
    N: PoolLedgers + Send + Sync + 'static,
    R: Threads + Wait + Clock + Copy + Send + Sync + 'static,
    requires ledgers { AreOf N.name N.folds N.moments N.parts parts.blanks }
    requires one_each { N.parts ≡ parts.sizes.callers + parts.sizes.maximum }
    requires cap { N.cap ≡ most_records }
    requires gates { vec_len parts.gates ≡ parts.sizes.maximum }
    requires settings { N.settings ≡ record { sizes = parts.sizes; queue = parts.queue; policy = parts.policy } }
{
    let (pool, seats) = Ours::<N>::new(alloc, parts)?;
    driven(rt, alloc, pool, seats, each)
}

/// The same, with ledgers of its own.
fn driving_with<R>(
    rt: &R,
    alloc: Global,
    parts: NewPool<ParkGate, ThreadStarter>,
    each: u64,
) -> Result<Vec<Record<PoolDeed<u64>>>, Refusal>
where
    R: Threads + Wait + Clock + Copy + Send + Sync + 'static,
    requires records { parts.blanks.records.parts ≡ parts.sizes.callers + parts.sizes.maximum }
    requires folds { parts.blanks.folds.parts ≡ parts.sizes.callers + parts.sizes.maximum }
    requires gates { vec_len parts.gates ≡ parts.sizes.maximum }
{
    driving::<Brand, R>(rt, alloc, parts, each)
}

/// Makes a demo run of a pool. Each of `callers` threads executes the jobs from 1 up to `each`, one after another, on a
/// pool of this many workers that buffers them; a job returns its own number. Then the pool is shut down, its end
/// awaited, it is closed, and its records are checked.
///
/// # Errors
/// - NoThread, if a caller or a worker can't be started.
/// - The error of the first call of the pool that failed. If `shutdown` itself fails, the pool's workers go on waiting,
///   and the pool isn't closed.
/// - Differs, if its records state other jobs or values, which none of a pool do.
/// - Memory, if an allocation fails.
pub fn drive_pool<R>(
    rt: &R,
    alloc: Global,
    callers: u64,
    each: u64,
    workers: u64,
) -> Result<PoolDrive, Refusal>
where
    R: Threads + Wait + Clock + Copy + Send + Sync + 'static,
    requires sized { IsPoolSized callers each workers }
    ensures { IfOk result (IsPoolDriven callers each workers) }
{
    let parts = NewPool {
        sizes: Sizes::fixed(callers, workers),
        queue: PoolQueue::Unbounded,
        policy: Policy::Abort,
        gates: ParkGate::many(alloc, workers)?,
        starter: ThreadStarter::new(),
        blanks: Blanks::new(callers + workers),
    };
    let records = driving_with(rt, alloc, parts, each)?;
    told(alloc, records.as_slice(), callers, each, workers)
}
