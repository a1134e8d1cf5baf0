//! Jobs that callers hand to a pool as fast as they can, and how long that takes.
//!
//! Each of CALLERS callers hands in EACH jobs, which work for NANOSECONDS, to a pool as those of
//! `Executors.newFixedThreadPool` (`fixed`) or `newCachedThreadPool` (`cached`); a `bounded` pool is a fixed one that
//! buffers 1,024 jobs at most. A line per round says how many jobs ran. One on standard error says how many nanoseconds it
//! took, from before the first call until no worker was left, and how many jobs their callers ran, since there were as many
//! workers as there may be.

ghost use Rattle.std.specs.Prelude.{◌≡◌, ◌+◌, vec_len};
ghost use Rattle.meet_place.specs.Ledgers.{AreOf};
ghost use Rattle.meet_tickets.specs.Limits.{most_records};
ghost use Rattle.pool_threads.specs.Parts.{IsOneEach};

use crate::counting::{now, since};
use meet_cells::ParkGate;
use meet_place::{Back, Blanks, Seat};
use meet_tickets::Refusal;
use pool_core::{Policy, PoolDeed, PoolQueue, Sizes};
use pool_threads::{Call, ItsTag, Job, NewPool, Outcome, Pool, PoolLedgers, ThreadStarter};
use std::alloc::Global;
use std::marker::Brand;
use std::mem::ManuallyDrop;
use std::sync::atomic::{AtomicU64, Ordering};
use std::sync::{Arc, Wait};
use std::thread;
use std::thread::Threads;
use std::time::{Clock, Duration, Instant};

/// What is measured.
#[derive(Clone, Copy)]
pub struct JobRace {
    pub sizes: Sizes,
    pub queue: PoolQueue,
    /// How many jobs each caller hands in.
    pub each: u64,
    /// How long each job works.
    pub lasts: Duration,
    pub rounds: u64,
}

/// What the jobs and the callers count.
#[derive(Drop)]
struct Board {
    /// How many jobs ran.
    ran: AtomicU64,
    /// How many callers are done.
    done: AtomicU64,
}

/// A job, which works for a while and counts that it ran.
#[derive(Drop)]
struct Chore<R> {
    board: Arc<Board>,
    rt: R,
    lasts: Duration,
}

/// Looks at the clock until this time is over. It returns at once if there is no clock.
fn wait_busily<R: Clock>(rt: &R, lasts: Duration) {
    let Ok(start) = Instant::now(rt) else {
        return;
    };
    for _ in 0..lasts.as_nanos() {
        match start.elapsed(rt) {
            Ok(passed) if passed < lasts => {}
            _ => return,
        }
    }
}

impl<R: Clock + Drop> Call<ItsTag> for Chore<R> {
    ghost tag_of = { λ chore. 0 };

    fn tag(&self) -> u64 {
        0
    }

    fn make(self) -> u64 {
        let Chore { board, rt, lasts } = self;
        if lasts > Duration::ZERO {
            wait_busily(&rt, lasts);
        }
        board.ran.fetch_add(1, Ordering::SeqCst);
        0
    }
}

/// The pool of a round.
type Ours<R, N> = Pool<ItsTag, Chore<R>, ParkGate, ThreadStarter, N>;

/// A caller's seat of it.
type OurSeat<N> = Seat<PoolDeed<u64>, N>;

/// A caller's seat, how many jobs it ran itself, and why a call was refused, if one was.
#[derive(Drop)]
struct Caller<N: PoolLedgers> {
    seat: OurSeat<N>,
    ran_here: u64,
    why: Option<Refusal>,
}

/// Hands a job in, and tends the pool after that. It is a function of its own in the program too, so that
/// `dev/measure/instructions` can tell it from the loop around it.
#[inline(never)]
fn hand_in<N, R>(
    rt: &R,
    pool: &Ours<R, N>,
    caller: Caller<N>,
    board: &Arc<Board>,
    lasts: Duration,
) -> Caller<N>
where
    N: PoolLedgers + Send + Sync + 'static,
    R: Threads + Wait + Clock + Copy + Send + 'static,
{
    let Caller {
        seat,
        mut ran_here,
        mut why,
    } = caller;
    let Ok(board) = Arc::try_clone(board) else {
        return Caller {
            seat,
            ran_here,
            why: why.or(Some(Refusal::Memory)),
        };
    };
    let chore = Chore {
        board,
        rt: *rt,
        lasts,
    };
    let seat = match pool.execute(rt, seat, Job::new::<ItsTag>(chore)) {
        Ok((seat, outcome)) => {
            if matches!(outcome, Outcome::RanHere(_)) {
                ran_here = ran_here.saturating_add(1);
            }
            seat
        }
        Err(refused) => {
            why = why.or(Some(refused.why));
            refused.seat
        }
    };
    let seat = match pool.tend(rt, seat) {
        Ok(seat) => seat,
        Err(refused) => {
            why = why.or(Some(refused.why));
            refused.seat
        }
    };
    Caller {
        seat,
        ran_here,
        why,
    }
}

/// The caller with this seat hands its jobs in. The last that is done shuts the pool down.
fn call<N, R>(
    rt: &R,
    pool: &Ours<R, N>,
    board: &Arc<Board>,
    seat: OurSeat<N>,
    race: JobRace,
) -> Caller<N>
where
    N: PoolLedgers + Send + Sync + 'static,
    R: Threads + Wait + Clock + Copy + Send + 'static,
{
    let mut caller = Caller {
        seat,
        ran_here: 0,
        why: None,
    };
    for _ in 0..race.each {
        caller = hand_in(rt, pool, caller, board, race.lasts);
    }
    if board.done.fetch_add(1, Ordering::SeqCst).wrapping_add(1) != race.sizes.callers {
        return caller;
    }
    let Caller {
        seat,
        ran_here,
        why,
    } = caller;
    match pool.shutdown(rt, seat) {
        Ok(seat) => Caller {
            seat,
            ran_here,
            why,
        },
        Err(refused) => Caller {
            seat: refused.seat,
            ran_here,
            why: why.or(Some(refused.why)),
        },
    }
}

/// What came of a round: the callers' seats, how many jobs they ran, and the nanoseconds.
struct Finish<N: PoolLedgers> {
    backs: Vec<Back<PoolDeed<u64>, N>>,
    ran_here: u64,
    nanoseconds: u128,
}

/// The callers hand their jobs in, each in a thread of its own, and the pool ends.
fn call_all<N, R>(
    rt: &R,
    alloc: Global,
    pool: &Ours<R, N>,
    board: &Arc<Board>,
    seats: Vec<OurSeat<N>>,
    race: JobRace,
) -> Result<Finish<N>, Refusal>
where
    N: PoolLedgers + Send + Sync + 'static,
    R: Threads + Wait + Clock + Copy + Send + Sync + 'static,
{
    let start = now(rt)?;
    let job = |seat: OurSeat<N>| -> Caller<N> { call(rt, pool, board, seat, race) };
    let callers = thread::map_vec(rt, seats, &job).map_err(|_| Refusal::Memory)?;
    pool.await_end(rt);
    let nanoseconds = since(rt, start)?;
    let mut backs = Vec::new(alloc);
    let mut ran_here = 0u64;
    for caller in callers {
        if let Some(why) = caller.why {
            return Err(why);
        }
        ran_here = ran_here.saturating_add(caller.ran_here);
        backs
            .push(Back::Free(caller.seat))
            .map_err(|_| Refusal::Memory)?;
    }
    Ok(Finish {
        backs,
        ran_here,
        nanoseconds,
    })
}

/// Runs a round at a pool of these parts, and closes it. Returns how many jobs callers ran, and the nanoseconds.
fn run_at<N, R>(
    rt: &R,
    alloc: Global,
    parts: NewPool<ParkGate, ThreadStarter>,
    board: &Arc<Board>,
    race: JobRace,
) -> Result<(u64, u128), Refusal>
where
    N: PoolLedgers + Send + Sync + 'static,
    R: Threads + Wait + Clock + Copy + Send + Sync + 'static,
    requires ledgers { AreOf N.name N.folds N.moments N.parts parts.blanks }
    requires one_each { N.parts ≡ parts.sizes.callers + parts.sizes.maximum }
    requires cap { N.cap ≡ most_records }
    requires gates { vec_len parts.gates ≡ parts.sizes.maximum }
    requires settings { N.settings ≡ record { sizes = parts.sizes; queue = parts.queue; policy = parts.policy } }
{
    let (pool, seats) = Ours::<R, N>::new(alloc, parts)?;
    let Finish {
        backs,
        ran_here,
        nanoseconds,
    } = match call_all(rt, alloc, &pool, board, seats, race) {
        Ok(finish) => finish,
        Err(why) => {
            let _kept = ManuallyDrop::new(pool);
            return Err(why);
        }
    };
    match pool.close(rt, alloc, backs) {
        Ok(_) => Ok((ran_here, nanoseconds)),
        Err(fault) => Err(fault.into_why()),
    }
}

/// Runs a round at a pool of these parts, with whatever ledgers.
fn run_with<R>(
    rt: &R,
    alloc: Global,
    parts: NewPool<ParkGate, ThreadStarter>,
    board: &Arc<Board>,
    race: JobRace,
) -> Result<(u64, u128), Refusal>
where
    R: Threads + Wait + Clock + Copy + Send + Sync + 'static,
    requires one_each { IsOneEach parts.sizes parts.blanks (vec_len parts.gates) }
{
    run_at::<Brand, R>(rt, alloc, parts, board, race)
}

/// Runs a round, and prints what came of it. A job for which no worker is there is run by its caller.
///
/// # Errors
/// - The error of the first call that fails, or of the close.
/// - BadSizes, if there are too many callers and workers together; NoThread, if a thread can't be started.
/// - ReadFault, if the clock can't be read; WriteFault, if a line can't be printed; Memory, if an allocation fails.
pub fn run_round<R>(rt: &R, alloc: Global, race: JobRace) -> Result<(), Refusal>
where
    R: Threads + Wait + Clock + Print + Eprint + Copy + Send + Sync + 'static,
{
    let board = Board {
        ran: AtomicU64::new(0),
        done: AtomicU64::new(0),
    };
    let board = Arc::new(alloc, board).map_err(|_| Refusal::Memory)?;
    let Some(parts) = race.sizes.callers.checked_add(race.sizes.maximum) else {
        return Err(Refusal::BadSizes);
    };
    let parts = NewPool {
        sizes: race.sizes,
        queue: race.queue,
        policy: Policy::CallerRuns,
        gates: ParkGate::many(alloc, race.sizes.maximum)?,
        starter: ThreadStarter::new(),
        blanks: Blanks::new(parts),
    };
    let (ran_here, nanoseconds) = run_with(rt, alloc, parts, &board, race)?;
    let jobs = race.each.saturating_mul(race.sizes.callers);
    let ran = board.ran.load(Ordering::SeqCst);
    println!(rt; "jobs {ran} of {jobs}").map_err(|_| Refusal::WriteFault)?;
    eprintln!(rt; "nanoseconds {nanoseconds} ran-here {ran_here}").map_err(|_| Refusal::WriteFault)
}
