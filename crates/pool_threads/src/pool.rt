//! A pool.

ghost use Rattle.std.specs.Prelude.{◌≡◌, ◌≢◌, ◌+◌, ◌<◌, ◌≤◌, ℕ, IfOk};
ghost use Rattle.std.specs.Prelude.{IfErr, IfSome, Some, None};
ghost use Rattle.meet_tickets.specs.declared.refusals.Refusal.TheVariants.{NoThread};
ghost use Rattle.meet_place.specs.Seats.{SameSeat};
ghost use Rattle.pool_core.specs.declared.answers.Executed.TheVariants as answer;
ghost use Rattle.pool_threads.specs.Told.{answer_told, IsItself, Starts, IsExecuteWhy, woken_by, StartsOne};
ghost use Rattle.pool_threads.specs.Outcomes.{Handed, IsUnstarted, IsBack, answer_of, ItemFits};

use crate::home::Home;
use crate::jobs::{Call, Executed, Job, Work};
use crate::ledgers::PoolLedgers;
use crate::outcomes::{Begun, Outcome};
use crate::posts::Post;
use crate::refusals::PoolRefused;
use crate::shared::Placed;
use crate::workers::{Starter, Worker, start};
use crate::worth::WorkerSeat;
use crossbeam_utils::CachePadded;
use meet_cells::Gate;
use meet_place::{Seat, hold, hold_patiently};
use meet_tickets::{Refusal, Refused};
use pool_core::PoolDeed;
use std::alloc::Global;
use std::sync::{Arc, Wait};
use std::thread::Threads;
use std::time::Clock;

/// A pool of workers, each a thread of its own.
///
/// Java: `ThreadPoolExecutor`.
#[derive(Drop)]
pub struct Pool<W: Work, C, G, S, N: PoolLedgers> {
    pub(crate) home: Arc<Home<W, C, G, N>, Global>,
    pub(crate) starter: S,
    pub(crate) alloc: Global,
}

/// The worker that is to be woken.
fn wakes<C>(executed: &Executed<C>) -> Option<u64>
    ensures { result ≡ woken_by (answer_told executed.now) }
{
    match executed {
        Executed::Handed(w) => Some(*w),
        _ => None,
    }
}

/// Returns the tag of the job that a worker is to be started with, which is this one; None if it is to be started without
/// one, or none is to be started.
pub fn first_of<C>(executed: &Executed<C>, tag: u64) -> Option<u64>
    ensures started { (w : ℕ) → answer_told executed.now ≡ answer.Started w → result ≡ Some tag }
    ensures kept { (w : ℕ) → answer_told executed.now ≡ answer.KeptStart w → result ≡ None }
{
    match executed {
        Executed::Started(_) => Some(tag),
        _ => None,
    }
}

/// The job of this tag comes back, if it is this one.
fn back_of<C: Drop>(job: Option<Job<C>>, tag: u64) -> Begun<C>
    ensures { IsBack (Some tag) result }
{
    match job {
        Some(job) => {
            if job.tag() == tag {
                Begun::NoThread(Some(job))
            } else {
                Begun::Stands
            }
        }
        None => Begun::Stands,
    }
}

/// Returns the outcome of a job that was placed (`Pool::place`), once its worker was begun. A job that is the caller's to
/// run is run here.
pub fn outcome_of<W: Work, C: Call<W> + Drop>(executed: Executed<C>) -> Outcome<C>
    ensures told { (job : Job C) → IsItself job executed → answer_of job.tag result ≡ answer_told executed }
    ensures item { (job : Job C) → IsItself job executed → ItemFits (W.worth (C.tag_of job.call)) job result }
{
    match executed {
        Executed::Handed(w) => Outcome::Handed(w),
        Executed::Started(w) => Outcome::Started(w),
        Executed::Kept => Outcome::Kept,
        Executed::KeptStart(w) => Outcome::KeptStart(w),
        Executed::Aborted(job) => Outcome::Aborted(job),
        Executed::CallerRuns(job) => Outcome::RanHere(job.into_call().make()),
        Executed::Dropped(job) => Outcome::Dropped(job),
        Executed::DroppedOldest(ticket, job) => Outcome::DroppedOldest(ticket, job),
    }
}

impl<W: Work, C: Drop, G: Gate + Drop, S, N: PoolLedgers> Pool<W, C, G, S, N> {
    /// Hands a job in under one hold of the lock, and wakes the worker that it was handed to. In the same hold it makes the
    /// step with which that worker takes the job, if the worker's seat lies at its post.
    fn hand<R: Wait>(
        &self,
        rt: &R,
        seat: &mut Seat<PoolDeed<u64>, N>,
        job: Job<C>,
    ) -> Result<Placed<C, WorkerSeat<W, N>>, Refused<Job<C>>>
        requires room { 0 < seat.old.room }
        ensures handed { IfOk result (λ placed. Handed seat.old seat.new job.tag (answer_told placed.executed)) }
        ensures itself { IfOk result (λ placed. IsItself job placed.executed) }
        ensures worker { IfOk result (λ placed. IfSome placed.worker (λ worker. (w : ℕ)
            × Starts (answer_told placed.executed) w × (4 ≤ worker.room))) }
        ensures starts { IfOk result (λ placed. StartsOne (answer_told placed.executed) placed.worker) }
        ensures why { IfErr result (λ refused. refused.why ≢ NoThread) }
        ensures reason { IfErr result (λ refused. IsExecuteWhy N.settings.sizes.callers seat.old.number refused.why) }
        ensures back { IfErr result (λ refused. refused.back ≡ job) }
        ensures same { IfErr result (λ _. seat.new ≡ seat.old) }
    {
        let mut shared = hold_patiently(rt, &self.home.shared, self.home.patience);
        let placed = shared.execute(seat, job);
        let handed = match &placed {
            Ok(placed) => wakes(&placed.executed),
            Err(_) => None,
        };
        let post = self.post_of(handed);
        if let Some(post) = post {
            if self.home.entrusts {
                post.deliver(&mut *shared);
            }
        }
        drop(shared);
        if let Some(post) = post {
            post.gate.wake();
        }
        placed
    }

    /// Hands a job in as `execute` does, but makes no thread: a worker that is to be started is returned. It is started by
    /// `begin`. What happened to the job, and its outcome, are as of `execute` (`outcome_of`).
    ///
    /// # Errors
    /// Nothing has changed, and seat and job are returned.
    /// - Memory, NoSuchSeat, TicketsSpent or HistoryFull, as `execute`.
    pub fn place<R: Wait>(
        &self,
        rt: &R,
        mut seat: Seat<PoolDeed<u64>, N>,
        job: Job<C>,
    ) -> Result<(Seat<PoolDeed<u64>, N>, Placed<C, WorkerSeat<W, N>>), PoolRefused<C, N>>
        ensures handed { IfOk result (λ done. Handed seat done.0 job.tag (answer_told done.1.executed)) }
        ensures itself { IfOk result (λ done. IsItself job done.1.executed) }
        ensures worker { IfOk result (λ done. IfSome done.1.worker (λ worker. (w : ℕ)
            × Starts (answer_told done.1.executed) w × (4 ≤ worker.room))) }
        ensures starts { IfOk result (λ done. StartsOne (answer_told done.1.executed) done.1.worker) }
        ensures same { IfErr result (λ refused. SameSeat seat refused.seat × (refused.seat.list ≡ seat.list)) }
        ensures back { IfErr result (λ refused. refused.job ≡ Some job) }
        ensures unlike { IfErr result (λ refused. refused.why ≢ NoThread) }
        ensures why { IfErr result (λ refused. IsExecuteWhy N.settings.sizes.callers seat.number refused.why) }
    {
        if seat.reserve(1).is_err() {
            return Err(PoolRefused {
                why: Refusal::Memory,
                seat,
                job: Some(job),
            });
        }
        match self.hand(rt, &mut seat, job) {
            Ok(placed) => Ok((seat, placed)),
            Err(refused) => Err(PoolRefused {
                why: refused.why,
                seat,
                job: Some(refused.back),
            }),
        }
    }

    /// The post of a worker, if one is given and is there.
    fn post_of(&self, worker: Option<u64>) -> Option<&CachePadded<Post<W, C, G, N>>> {
        self.home.posts.get(worker? as usize)
    }

    /// A worker couldn't be started, with a job of this tag, if one is given: its job. Where the pool has another for
    /// it, which it never has, the record of its start stands.
    fn failed<R: Wait>(&self, rt: &R, seat: WorkerSeat<W, N>, first: Option<u64>) -> Begun<C>
        requires room { 0 < seat.room }
        ensures { IsBack first result }
    {
        let mut shared = hold(rt, &self.home.shared);
        let job = shared.start_failed(seat);
        drop(shared);
        self.home.moved.notify_all();
        match first {
            None => Begun::NoThread(None),
            Some(tag) => back_of(job, tag),
        }
    }
}

impl<W: Work, C: Call<W> + Drop, G: Gate + Drop, S: Starter, N: PoolLedgers> Pool<W, C, G, S, N> {
    /// Starts a worker that is to be started (`place`), with a job of this tag, if one is given (`first_of`). If its thread
    /// can't be made, the worker's end is recorded, and its job is returned.
    pub fn begin<R>(&self, rt: &R, seat: WorkerSeat<W, N>, first: Option<u64>) -> Begun<C>
    where
        R: Threads + Wait + Clock + Copy + Send + 'static,
        W: Send + Sync + 'static,
        C: Send + 'static,
        G: Send + Sync + 'static,
        N: Send + Sync + 'static,
        requires room { 4 ≤ seat.room }
        ensures { IsBack first result }
    {
        let Ok(home) = Arc::try_clone(&self.home) else {
            return self.failed(rt, seat, first);
        };
        match start(rt, self.alloc, &self.starter, Worker::new(home, seat)) {
            Ok(()) => Begun::Stands,
            Err(worker) => self.failed(rt, worker.into_seat(), first),
        }
    }

    /// Hands a job in. It waits only for the lock. If a new worker is needed, it makes the worker's thread; if the
    /// policy has the caller run the job, it runs here, and what it returned is the outcome.
    ///
    /// # Errors
    /// Nothing has changed, and seat and job are returned, but for NoThread.
    /// - Memory, if an allocation fails.
    /// - NoSuchSeat, if the seat isn't a caller's.
    /// - TicketsSpent, if fewer tickets are left than the call and the workers may need.
    /// - HistoryFull, if the log has no room for the records that may be needed.
    /// - NoThread, if the worker's thread can't be made: the record of its start stays. The job is returned exactly if
    ///   the worker was started with it; otherwise it is buffered.
    ///
    /// # Example
    /// From `crates/examples/src/jobs/running.rt`:
    ///
    ///     match pool.execute(rt, seat, Job::new::<ItsTag>(job)) {
    ///         Ok((after, _outcome)) => seat = after, // Outcome::Started(worker), Outcome::Kept, ..
    ///         Err(turned_away) => {
    ///             refused = Some(turned_away.why);
    ///             seat = turned_away.seat; // its job, turned_away.job, is dropped
    ///         }
    ///     }
    ///
    /// Java: `ThreadPoolExecutor.execute`.
    pub fn execute<R>(
        &self,
        rt: &R,
        seat: Seat<PoolDeed<u64>, N>,
        job: Job<C>,
    ) -> Result<(Seat<PoolDeed<u64>, N>, Outcome<C>), PoolRefused<C, N>>
    where
        R: Threads + Wait + Clock + Copy + Send + 'static,
        W: Send + Sync + 'static,
        C: Send + 'static,
        G: Send + Sync + 'static,
        N: Send + Sync + 'static,
        ensures handed { IfOk result (λ done. Handed seat done.0 job.tag (answer_of job.tag done.1)) }
        ensures item { IfOk result (λ done. ItemFits (W.worth (C.tag_of job.call)) job done.1) }
        ensures unstarted { IfErr result (λ refused. refused.why ≡ NoThread
            → IsUnstarted seat refused.seat job refused.job) }
        ensures back { IfErr result (λ refused. refused.why ≢ NoThread
            → SameSeat seat refused.seat × (refused.seat.list ≡ seat.list) × (refused.job ≡ Some job)) }
        ensures why { IfErr result (λ refused. refused.why ≢ NoThread
            → IsExecuteWhy N.settings.sizes.callers seat.number refused.why) }
    {
        let tag = job.tag();
        let (seat, placed) = match self.place(rt, seat, job) {
            Ok(done) => done,
            Err(refused) => return Err(refused),
        };
        let Placed { executed, worker } = placed;
        if let Some(worker) = worker {
            let first = first_of(&executed, tag);
            if let Begun::NoThread(job) = self.begin(rt, worker, first) {
                return Err(PoolRefused {
                    why: Refusal::NoThread,
                    seat,
                    job,
                });
            }
        }
        Ok((seat, outcome_of::<W, C>(executed)))
    }
}
