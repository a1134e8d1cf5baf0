//! The handles by which the callers of a pool call it.

ghost use Rattle.std.specs.Prelude.{◌≡◌, ◌≢◌, ◌+◌, ◌≤◌, ℕ, true, IfSome, IfOk, IfErr, IsSomeAnd, length};
ghost use Rattle.meet_tickets.specs.declared.refusals.Refusal.TheVariants.{NoThread, Memory as NoMemory};
ghost use Rattle.meet_tickets.specs.Limits.{most_gone};
ghost use Rattle.meet_place.specs.Seats.{Checkpoints};
ghost use Rattle.pool_core.specs.Bases.{LeadsTo};
ghost use Rattle.pool_core.specs.Histories.{no_base};
ghost use Rattle.pool_core.specs.Shown.{Shown};
ghost use Rattle.pool_core.specs.declared.settings.Settings.{Settings};
ghost use Rattle.pool_core.specs.declared.deeds.PoolDeed.TheVariants.{ShutDown, ShutDownNow};
ghost use Rattle.pool_threads.specs.Told.{IsExecuteWhy, IsShutWhy, IsCutWhy};
ghost use Rattle.pool_callers.specs.Submits.{IsTaken, Submits, FailsAs};
ghost use Rattle.pool_callers.specs.Handles.{HandleView, Does, DoesAlone, Stays, Writes, HandsIn, CallFits, StartsNone, Returns};

use crate::refused::ExecuteRefused;
use crate::submitted::{Unrun, submitted};
use meet_tickets::{Record, Refusal};
use pool_core::{Counters, PoolDeed};
use pool_threads::{Call, Job, Outcome, PoolChapter, Work};
use std::collections::VecDeque;
use std::sync::Wait;
use std::time::Clock;

/// Hands the jobs of one thread in to a pool, one after another.
///
/// Java: `ThreadPoolExecutor`, as one of its callers sees it.
///
/// # Example
/// From `crates/examples/src/pool.rt`:
///
///     pool.submit(Square { number })?;
pub trait PoolHandle<W: Work, C: Call<W>> {
    /// The runtime handle for blocking and the clock.
    type Runtime: Wait + Clock;

    /// What its pool was made with.
    ghost settings: { Settings };

    /// The number of seats of its pool: one for each caller and each worker.
    ghost count: { ℕ };

    /// Its seat, and whether it keeps the log.
    ghost handle_of: { Self → HandleView };

    /// Returns the number of its seat, from 0: which of the callers it is.
    fn number(&self) -> u64
        ensures { IfSome (handle_of self.now).seat (λ seat. result ≡ seat.number) };

    /// Keeps the log: of this handle's calls only `rotate` compacts it then. So `execute` fails with HistoryFull after
    /// 1,048,576 records, unless `rotate` returned them before. The log is kept only if each handle of the pool keeps
    /// it, as those of a `KeepLog` do.
    ///
    /// # Example
    /// From `crates/pool_callers/src/keeping.rt`:
    ///
    ///     pool.keep_log();
    ///     self.0.run(pool)
    fn keep_log(&mut self)
        ensures { handle_of self.new ≡ record (handle_of self.old) { keeps_log = true } };

    /// Hands a job in. It waits for the lock alone, and if a new worker is needed, until that is started. If the policy
    /// has the caller run the job, it runs here, and what it returned is the outcome.
    ///
    /// First it compacts the log if that is more than half full, unless the log is kept. If that fails, the records
    /// stay, and the job is handed in all the same.
    ///
    /// # Errors
    /// The job is returned, but for NoThread.
    /// - Memory, if an allocation fails.
    /// - TicketsSpent, if fewer tickets are left than the call and the workers may need.
    /// - HistoryFull, if the log has no room for the records that may be needed: those of the jobs that are buffered,
    ///   too, of which there can be some 349,500.
    /// - NoThread, if the worker's thread can't be made: the record of its start stays. The job is returned exactly if
    ///   the worker was started with it; otherwise it is buffered.
    ///
    /// # Example
    /// From `crates/pool_callers_tests/src/ends.rt`:
    ///
    ///     match pool.execute(Chore { tag, until: None }) {
    ///         Ok(Outcome::Aborted(job)) => Ok(Some(job.tag())),
    ///
    /// Java: `ThreadPoolExecutor.execute`.
    fn execute(&mut self, job: C) -> Result<Outcome<C>, ExecuteRefused<C>>
        ensures handed { IfOk result (HandsIn count (handle_of self.old) (handle_of self.new) (C.tag_of job)) }
        ensures item { IfOk result (CallFits (W.worth (C.tag_of job)) (C.tag_of job) job) }
        ensures unstarted { IfErr result (λ refused. refused.why ≡ NoThread
            → StartsNone count (handle_of self.old) (handle_of self.new) (C.tag_of job) job refused.job) }
        ensures same { IfErr result (λ refused. refused.why ≢ NoThread
            → Does count (handle_of self.old) (handle_of self.new) Stays) }
        ensures back { IfErr result (λ refused. refused.why ≢ NoThread
            → IsSomeAnd refused.job (Returns (C.tag_of job) job)) }
        ensures why { IfErr result (λ refused. refused.why ≢ NoThread → IfSome (handle_of self.old).seat (λ seat.
            IsExecuteWhy settings.sizes.callers seat.number refused.why)) };

    /// Hands a job in as `execute` does, and returns Ok if it will be run, or was: a worker has it, or it is buffered, or
    /// its caller ran it. No answer is lost, since a job returns what its tag is worth.
    ///
    /// # Errors
    /// A job that won't be run is returned.
    /// - Rejected, if the pool rejected the job: its policy is `Abort`, and it is shut down, or full.
    /// - Discarded, if the pool discarded the job, by the policy `Discard`.
    /// - Displaced, if it took the job, and returns the oldest that it had buffered, by the policy `DiscardOldest`.
    /// - Memory, TicketsSpent, HistoryFull or NoThread, as `execute`.
    ///
    /// # Example
    /// From `crates/examples/src/pool.rt`:
    ///
    ///     pool.submit(Square { number })?;
    ///
    /// Java: `ExecutorService.submit`, without a `Future`: the answers stand in the log (`answers_of`).
    final fn submit(&mut self, job: C) -> Result<(), Unrun<C>>
        ensures taken { IfOk result (λ _. Submits IsTaken count (W.worth (C.tag_of job)) (handle_of self.old)
            (handle_of self.new) (C.tag_of job) job) }
        ensures unrun { IfErr result (λ unrun. FailsAs count (W.worth (C.tag_of job)) settings.sizes.callers
            (handle_of self.old) (handle_of self.new) (C.tag_of job) job unrun.why unrun.job) }
    {
        submitted(self.execute(job))
    }

    /// Shuts the pool down: no more jobs are taken, and workers that find none end. It waits only for the lock. After
    /// its callers have ended, the pool is shut down in any case.
    ///
    /// # Errors
    /// Nothing has changed.
    /// - HistoryFull, if the log has no room for the record.
    /// - Memory, if an allocation fails.
    ///
    /// # Example
    /// From `crates/pool_callers_tests/src/ends.rt`:
    ///
    ///     pool.shutdown()?;
    ///
    /// Java: `ThreadPoolExecutor.shutdown`.
    fn shutdown(&mut self) -> Result<(), Refusal>
        ensures shut { IfOk result (λ _. DoesAlone (handle_of self.old) (handle_of self.new) (Writes ShutDown)) }
        ensures same { IfErr result (λ _. DoesAlone (handle_of self.old) (handle_of self.new) Stays) }
        ensures why { IfErr result (λ why. IfSome (handle_of self.old).seat (λ seat.
            IsShutWhy settings.sizes.callers seat.number why)) };

    /// Shuts the pool down, and returns all buffered jobs, in their order. It waits only for the lock.
    ///
    /// # Errors
    /// Nothing has changed.
    /// - HistoryFull, if the log has no room for the record.
    /// - Memory, if an allocation fails.
    ///
    /// # Example
    /// From `crates/pool_callers_tests/src/ends.rt`:
    ///
    ///     let mut jobs = pool.shutdown_now()?;
    ///
    /// Java: `ThreadPoolExecutor.shutdownNow`.
    fn shutdown_now(&mut self) -> Result<VecDeque<Job<C>>, Refusal>
        ensures shut { IfOk result (λ jobs. DoesAlone (handle_of self.old) (handle_of self.new)
            (Writes (ShutDownNow (length jobs.items)))) }
        ensures same { IfErr result (λ _. DoesAlone (handle_of self.old) (handle_of self.new) Stays) }
        ensures why { IfErr result (λ why. IfSome (handle_of self.old).seat (λ seat.
            IsShutWhy settings.sizes.callers seat.number why)) };

    /// Returns the pool's counters: its workers, the jobs that run, are buffered and were done, and the most workers
    /// that there were. It waits only for the lock.
    ///
    /// # Example
    /// From `crates/pool_callers_tests/src/ends.rt`:
    ///
    ///     let counters = pool.counters();
    ///
    /// Java: `getPoolSize`, `getActiveCount` and their kin.
    fn counters(&self) -> Counters;

    /// Rotates the log: compacts it, and returns the records so far with the base on which they stand. `room` becomes
    /// the list of the records to come, and its own records are dropped.
    ///
    /// # Errors
    /// `room` is dropped; else nothing has changed.
    /// - HistoryFull, if more than 2^63 - 1 records would be compacted.
    /// - Memory, if an allocation fails.
    ///
    /// # Example
    /// From `crates/pool_callers_tests/src/keeping.rt`:
    ///
    ///     let chapter = pool.rotate(room)?;
    fn rotate(&mut self, room: Vec<Record<PoolDeed<u64>>>) -> Result<PoolChapter, Refusal>
        ensures legal { IfOk result (λ chapter. (core : Shown ℕ) × (core.settings ≡ settings)
            × LeadsTo (λ tag. tag) chapter.base chapter.records.items core) }
        ensures first { IfOk result (λ chapter. chapter.base.gone ≡ 0 → chapter.base ≡ no_base) }
        ensures counted { IfOk result (λ chapter. DoesAlone (handle_of self.old) (handle_of self.new)
            (Checkpoints (length chapter.records.items))) }
        ensures few { IfOk result (λ chapter. chapter.base.gone + length chapter.records.items ≤ most_gone) }
        ensures same { IfErr result (λ _. handle_of self.new ≡ handle_of self.old) }
        ensures why { IfErr result (λ why. IsCutWhy why) };

    /// Copies the records so far, and the base on which they stand, in one critical section. Nothing changes.
    ///
    /// # Errors
    /// - Memory, if an allocation fails.
    ///
    /// # Example
    /// From `crates/pool_callers_tests/src/keeping.rt`:
    ///
    ///     let before = pool.history()?;
    fn history(&self) -> Result<PoolChapter, Refusal>
        ensures legal { IfOk result (λ chapter. (core : Shown ℕ) × (core.settings ≡ settings)
            × LeadsTo (λ tag. tag) chapter.base chapter.records.items core) }
        ensures first { IfOk result (λ chapter. chapter.base.gone ≡ 0 → chapter.base ≡ no_base) }
        ensures why { IfErr result (λ why. why ≡ NoMemory) };
}
