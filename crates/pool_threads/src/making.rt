//! A pool from its parts.

ghost use Rattle.std.specs.Prelude.{◌≡◌, ◌+◌, ◌<◌, ◌≤◌, [], All, IfOk, IfErr, vec_len, replicate, map};
ghost use Rattle.std.specs.Prelude.{None, false};
ghost use Rattle.std.specs.Vec.{vec_capacity};
ghost use Rattle.meet_tickets.specs.Limits.{most_records};
ghost use Rattle.meet_tickets.specs.Refusals.{IsWhy};
ghost use Rattle.meet_tickets.specs.declared.refusals.Refusal.TheVariants.{Memory};
ghost use Rattle.meet_place.specs.Ledgers.{AreOf};
ghost use Rattle.meet_place.specs.Seats.{AreFresh};
ghost use Rattle.pool_core.specs.Calls.{settings_refusal};
ghost use Rattle.pool_threads.specs.Mirrored.{given_tag, away};

use crate::home::{Home, Made};
use crate::jobs::{Job, Work};
use crate::ledgers::PoolLedgers;
use crate::pool::Pool;
use crate::posts::Post;
use crate::shared::PoolShared;
use crate::worth::WorkerSeat;
use crossbeam_utils::CachePadded;
use meet_place::{Blanks, Ledgers, Seat, Shared, open_seats};
use meet_tickets::{MOST_RECORDS, Refusal};
use pool_core::{Policy, PoolDeed, PoolQueue, Sizes, book_of_pool};
use std::alloc::Global;
use std::collections::VecDeque;
use std::sync::atomic::AtomicU64;
use std::sync::{Arc, Condvar, Mutex};

/// The parts of a pool.
///
/// # Example
/// From `crates/examples/src/jobs.rt`:
///
///     queue: PoolQueue::Unbounded,
///     policy: Policy::Abort,
///     gates,
///     starter: ThreadStarter::new(),
///     blanks: Blanks::new(3), // a part for each caller and each worker
#[derive(Drop)]
pub struct NewPool<G, S> {
    /// The numbers of workers and callers, and the keep-alive time.
    pub sizes: Sizes,
    /// The queue of jobs.
    pub queue: PoolQueue,
    /// What happens to a job that is rejected.
    pub policy: Policy,
    /// A gate (a parker) for each worker, by its number.
    pub gates: Vec<G>,
    /// What makes the threads of the workers.
    pub starter: S,
    /// Two ledgers with a part for each caller and each worker.
    pub blanks: Blanks,
}

/// So many places for jobs, all empty.
fn no_jobs<C>(alloc: Global, count: usize) -> Result<Vec<Option<Job<C>>>, Refusal>
    ensures none { IfOk result (λ given. map given_tag given.items ≡ replicate count None) }
    ensures memory { IfErr result (λ why. why ≡ Memory) }
{
    let mut given = match Vec::with_capacity(alloc, count) {
        Ok(given) => given,
        Err(_) => return Err(Refusal::Memory),
    };
    for _at in 0..count {
        given.push_reserved(None);
    }
    Ok(given)
}

/// The seats of workers, each where it lies while its worker isn't there. The empty list has room for them.
fn workers_of<W: Work, N: Ledgers>(
    seats: Vec<Seat<PoolDeed<u64>, N>>,
    empty: Vec<Option<WorkerSeat<W, N>>>,
) -> Vec<Option<WorkerSeat<W, N>>>
    requires empty { empty.items ≡ [] }
    requires room { vec_len seats ≤ vec_capacity empty }
    requires new { All (λ seat. seat.list ≡ []) seats.items }
    ensures { away result.items ≡ replicate (vec_len seats) false }
{
    let mut workers = empty;
    for seat in seats {
        workers.push_reserved(Some(WorkerSeat::new(seat)));
    }
    workers
}

/// The posts of the workers with these gates, each on cache lines of its own.
fn posts_of<W: Work, C: Drop, G: Drop, N: PoolLedgers>(
    alloc: Global,
    gates: Vec<G>,
) -> Result<Vec<CachePadded<Post<W, C, G, N>>>, Refusal>
    ensures { IfErr result (λ why. why ≡ Memory) }
{
    let mut posts = Vec::new(alloc);
    for gate in gates {
        if posts.push(CachePadded::new(Post::new(gate))).is_err() {
            return Err(Refusal::Memory);
        }
    }
    Ok(posts)
}

/// How often a thread that finds the lock of a pool taken lets others run before it tries again. If jobs are buffered,
/// the thread that holds the lock mostly comes back at once, and it pays to leave it to that thread for a while.
/// Implementation-defined; nothing is promised of it.
fn patience_of(queue: PoolQueue) -> u64 {
    match queue {
        PoolQueue::Hand(_) => 1,
        PoolQueue::Unbounded | PoolQueue::Bounded(_) => 32,
    }
}

/// Whether the seat of a worker that waits lies at its post, so that a caller makes the worker's next step. If jobs are
/// buffered, the callers are what an empty job waits for, and it pays that each worker makes its own steps.
/// Implementation-defined; nothing is promised of it.
fn entrusts(queue: PoolQueue) -> bool {
    match queue {
        PoolQueue::Hand(_) => true,
        PoolQueue::Unbounded | PoolQueue::Bounded(_) => false,
    }
}

impl<W: Work, C: Drop, G: Drop, S: Drop, N: PoolLedgers> Pool<W, C, G, S, N> {
    /// Creates a pool without a job, and a seat for each caller, numbered from 0.
    ///
    /// # Errors
    /// - BadSizes, exactly if one of these is so (`settings_refusal`):
    ///   - there are no callers, or the maximum of workers is 0;
    ///   - the core size is above the maximum;
    ///   - callers and maximum are more than 1,024 together;
    ///   - core workers time out, and the keep-alive time is 0;
    ///   - a bound is 0 or above 1,048,576;
    ///   - the queue hands jobs over in the order of a transfer queue.
    /// - PolicyNeedsBuffer, exactly if the sizes fit, and the policy drops the oldest job of a queue that buffers none.
    /// - Memory, if an allocation fails.
    ///
    /// # Example
    /// From `crates/examples/src/jobs/running.rt`:
    ///
    ///     let (pool, mut seats) = Pool::<ItsTag, Boxed, ParkGate, ThreadStarter, N>::new(alloc, parts)?;
    ///     let mut seat = seats.pop().unwrap(); // the one caller's
    ///
    /// Java: `new ThreadPoolExecutor(..)`.
    pub fn new(
        alloc: Global,
        parts: NewPool<G, S>,
    ) -> Result<(Self, Vec<Seat<PoolDeed<u64>, N>>), Refusal>
        requires ledgers { AreOf N.name N.folds N.moments N.parts parts.blanks }
        requires one_each { N.parts ≡ parts.sizes.callers + parts.sizes.maximum }
        requires cap { N.cap ≡ most_records }
        requires gates { vec_len parts.gates ≡ parts.sizes.maximum }
        requires settings { N.settings ≡ record { sizes = parts.sizes; queue = parts.queue; policy = parts.policy } }
        ensures count { IfOk result (λ made. vec_len made.1 ≡ parts.sizes.callers) }
        ensures numbers { IfOk result (λ made. AreFresh made.1.items) }
        ensures fits { IfOk result (λ _. settings_refusal
            (record { sizes = parts.sizes; queue = parts.queue; policy = parts.policy }) ≡ None) }
        ensures why { IfErr result (IsWhy (settings_refusal
            (record { sizes = parts.sizes; queue = parts.queue; policy = parts.policy }))) }
    {
        let NewPool {
            sizes,
            queue,
            policy,
            gates,
            starter,
            blanks,
        } = parts;
        let book = book_of_pool::<u64>(alloc, sizes, queue, policy, MOST_RECORDS)?;
        book.probe().stays_sound();
        let callers = sizes.callers as usize;
        let maximum = sizes.maximum as usize;
        let given = no_jobs(alloc, maximum)?;
        let posts = posts_of(alloc, gates)?;
        let Ok(room) = Vec::with_capacity(alloc, callers + maximum) else {
            return Err(Refusal::Memory);
        };
        let Ok(workers) = Vec::with_capacity(alloc, maximum) else {
            return Err(Refusal::Memory);
        };
        let (total, rest, mut seats) = open_seats(alloc, blanks, callers + maximum, room);
        let Ok(others) = seats.split_off(callers) else {
            return Err(Refusal::Memory);
        };
        let shared = PoolShared {
            shared: Shared::new(book, total, rest),
            kept: VecDeque::new(alloc),
            given,
            seats: workers_of(others, workers),
        };
        let home = Home {
            shared: CachePadded::new(Mutex::new(shared)),
            posts,
            moved: Condvar::new(),
            made: Made::new(callers + maximum),
            callers: sizes.callers,
            patience: patience_of(queue),
            keep_alive: sizes.keep_alive,
            entrusts: entrusts(queue),
            folded: AtomicU64::new(0),
        };
        match Arc::new(alloc, home) {
            Ok(home) => Ok((
                Pool {
                    home,
                    starter,
                    alloc,
                },
                seats,
            )),
            Err(_) => Err(Refusal::Memory),
        }
    }
}
