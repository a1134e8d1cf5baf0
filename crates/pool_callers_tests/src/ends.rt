//! What handles do at a pool that is shut down while a job runs.

use meet_tickets::Refusal;
use pool_callers::{PoolCaller, PoolHandle, answers_of, run_fixed_pool};
use pool_threads::{Call, ItsTag, Outcome};
use std::alloc::Global;
use std::process::Abort;
use std::sync::Arc;
use std::sync::atomic::{AtomicBool, Ordering};
use std::test::*;
use std::thread;

/// What a job and the thread that handed it in tell one another.
#[derive(Drop)]
pub(crate) struct Flags {
    pub(crate) runs: AtomicBool,
    pub(crate) may_end: AtomicBool,
}

/// No flag is set.
pub(crate) fn no_flag(rt: &impl Abort, alloc: Global) -> Arc<Flags> {
    let flags = Flags {
        runs: AtomicBool::new(false),
        may_end: AtomicBool::new(false),
    };
    Arc::new(alloc, flags).expect(rt, "no memory")
}

/// Looks for a flag, a hundred million times at most, and lets other threads run in between.
pub(crate) fn look(flag: &AtomicBool) {
    for _ in 0..100_000_000u64 {
        if flag.load(Ordering::SeqCst) {
            return;
        }
        thread::yield_now();
    }
}

/// A job of this tag. If it has flags, it runs until the second is set.
#[derive(Drop)]
pub(crate) struct Chore {
    pub(crate) tag: u64,
    pub(crate) until: Option<Arc<Flags>>,
}

impl Call<ItsTag> for Chore {
    ghost tag_of = { λ chore. chore.tag };

    fn tag(&self) -> u64 {
        self.tag
    }

    fn make(self) -> u64 {
        let Chore { tag, until } = self;
        if let Some(flags) = until {
            flags.runs.store(true, Ordering::SeqCst);
            look(&flags.may_end);
        }
        tag
    }
}

/// How the pool is shut down.
#[derive(Clone, Copy)]
enum Shut {
    Orderly,
    Now,
}

/// A caller at a pool of one worker. It hands in a job that runs until the end, and two more, and shuts the
/// pool down.
#[derive(Drop)]
struct Stopping {
    flags: Arc<Flags>,
    shut: Shut,
}

/// What the thread saw.
#[derive(Clone, Copy, PartialEq, Debug)]
struct Saw {
    /// How many jobs ran and were buffered before the shutdown.
    running: u64,
    kept: u64,
    /// The tags of the jobs that came back, if there were two or none.
    back: Option<(u64, u64)>,
    /// The tag of the job that was rejected afterwards.
    rejected: Option<u64>,
}

impl Stopping {
    /// Hands in a job that does nothing: its tag, if it is rejected.
    fn hand<P: PoolHandle<ItsTag, Chore>>(
        &self,
        pool: &mut P,
        tag: u64,
    ) -> Result<Option<u64>, Refusal> {
        match pool.execute(Chore { tag, until: None }) {
            Ok(Outcome::Aborted(job)) => Ok(Some(job.tag())),
            Ok(_) => Ok(None),
            Err(refused) => Err(refused.into_why()),
        }
    }

    /// Hands in the job that runs until the end.
    fn hand_busy<P: PoolHandle<ItsTag, Chore>>(&self, pool: &mut P) -> Result<(), Refusal> {
        let flags = Arc::try_clone(&self.flags).map_err(|_| Refusal::Memory)?;
        let busy = Chore {
            tag: 1,
            until: Some(flags),
        };
        match pool.execute(busy) {
            Ok(_) => Ok(()),
            Err(refused) => Err(refused.into_why()),
        }
    }

    /// Shuts the pool down: the tags of the jobs that come back.
    fn end<P: PoolHandle<ItsTag, Chore>>(
        &self,
        pool: &mut P,
    ) -> Result<Option<(u64, u64)>, Refusal> {
        match self.shut {
            Shut::Orderly => {
                pool.shutdown()?;
                Ok(None)
            }
            Shut::Now => {
                let mut jobs = pool.shutdown_now()?;
                match (jobs.pop_front(), jobs.pop_front()) {
                    (Some(one), Some(two)) => Ok(Some((one.tag(), two.tag()))),
                    _ => Ok(None),
                }
            }
        }
    }

    /// All of it.
    fn all<P: PoolHandle<ItsTag, Chore>>(&self, pool: &mut P) -> Result<Saw, Refusal> {
        self.hand_busy(pool)?;
        look(&self.flags.runs);
        self.hand(pool, 2)?;
        self.hand(pool, 3)?;
        let counters = pool.counters();
        let back = self.end(pool)?;
        let rejected = self.hand(pool, 4)?;
        Ok(Saw {
            running: counters.running,
            kept: counters.kept,
            back,
            rejected,
        })
    }
}

impl PoolCaller<ItsTag, Chore> for Stopping {
    type Output = Result<Saw, Refusal>;

    fn run<P: PoolHandle<ItsTag, Chore>>(&self, pool: &mut P) -> Result<Saw, Refusal> {
        let saw = self.all(pool);
        self.flags.may_end.store(true, Ordering::SeqCst);
        saw
    }
}

/// After `shutdown`, previously submitted tasks are executed, but no new tasks are accepted (`ExecutorService`).
#[test]
fn a_shutdown_lets_buffered_jobs_run(rt: HostRuntime) {
    let alloc = rt.alloc();
    let task = Stopping {
        flags: no_flag(&rt, alloc),
        shut: Shut::Orderly,
    };
    let done = run_fixed_pool(&rt, alloc, 1, 1, &task).expect(&rt, "a pool");
    let saw = Saw {
        running: 1,
        kept: 2,
        back: None,
        rejected: Some(4),
    };
    assert_eq!(rt; done.results.as_slice(), [Ok(saw)].as_slice());
    let chronicle = done.log.expect(&rt, "its history");
    let answers = answers_of(alloc, &chronicle).expect(&rt, "the answers");
    assert_eq!(rt; answers.len(), 3);
    assert_eq!(rt; chronicle.left.len(), 0);
}

/// `shutdownNow` halts the processing of waiting tasks, and returns a list of the tasks that were awaiting execution.
#[test]
fn a_shutdown_now_returns_buffered_jobs(rt: HostRuntime) {
    let alloc = rt.alloc();
    let task = Stopping {
        flags: no_flag(&rt, alloc),
        shut: Shut::Now,
    };
    let done = run_fixed_pool(&rt, alloc, 1, 1, &task).expect(&rt, "a pool");
    let saw = Saw {
        running: 1,
        kept: 2,
        back: Some((2, 3)),
        rejected: Some(4),
    };
    assert_eq!(rt; done.results.as_slice(), [Ok(saw)].as_slice());
    let chronicle = done.log.expect(&rt, "its history");
    let answers = answers_of(alloc, &chronicle).expect(&rt, "the answers");
    assert_eq!(rt; answers.len(), 1);
}
