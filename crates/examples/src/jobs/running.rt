//! A pool that runs jobs, and is closed after them.

ghost use Rattle.std.specs.Prelude.{◌≡◌, ◌+◌, IfOk, vec_len};
ghost use Rattle.ibisbookcase.specs.Histories.{IsLegalOn};
ghost use Rattle.ibisbookcase.specs.Ledgers.{AreOf};
ghost use Rattle.ibisbookcase.specs.Limits.{most_records};

use ibisbookcase::pools::{
    Back, Boxed, ItsTag, Job, NewPool, ParkGate, Pool, PoolChronicle, PoolLedgers, Refusal,
    ThreadStarter,
};
use std::alloc::Global;
use std::sync::Wait;
use std::thread::Threads;
use std::time::Clock;

/// The outcome of a pool that ran jobs.
#[derive(Drop)]
pub struct Ran {
    /// Its log, and the jobs that are left.
    pub chronicle: PoolChronicle<Boxed>,
    /// Why a job was refused, if one was.
    pub refused: Option<Refusal>,
}

/// Executes jobs on a pool of these parts, waits until all are done, and closes it: its records are a legal history of
/// a pool with these very settings. It fails as the pool does when it is made, shut down or closed.
pub fn run_all<N, R>(
    rt: &R,
    alloc: Global,
    parts: NewPool<ParkGate, ThreadStarter>,
    jobs: Vec<Boxed>,
) -> Result<Ran, Refusal>
where
    N: PoolLedgers + Send + Sync + 'static,
    R: Threads + Wait + Clock + Copy + Send + 'static,
    requires ledgers { AreOf N.name N.folds N.moments N.parts parts.blanks }
    requires one_each { N.parts ≡ parts.sizes.callers + parts.sizes.maximum }
    requires cap { N.cap ≡ most_records }
    requires gates { vec_len parts.gates ≡ parts.sizes.maximum }
    requires settings { N.settings ≡ record { sizes = parts.sizes; queue = parts.queue; policy = parts.policy } }
    requires one_caller { parts.sizes.callers ≡ 1 }
    ensures { IfOk result (λ ran. IsLegalOn (record { sizes = parts.sizes; queue = parts.queue; policy = parts.policy })
        ran.chronicle.base ran.chronicle.records.items) }
{
    let mut backs = Vec::with_capacity(alloc, 1).map_err(|_| Refusal::Memory)?;
    let (pool, mut seats) = Pool::<ItsTag, Boxed, ParkGate, ThreadStarter, N>::new(alloc, parts)?;
    let mut seat = seats.pop().unwrap(); // the one caller's
    let mut refused = None;
    for job in jobs {
        match pool.execute(rt, seat, Job::new::<ItsTag>(job)) {
            Ok((after, _outcome)) => seat = after, // Outcome::Started(worker), Outcome::Kept, ..
            Err(turned_away) => {
                refused = Some(turned_away.why);
                seat = turned_away.seat; // its job, turned_away.job, is dropped
            }
        }
    }
    match pool.shutdown(rt, seat) {
        Ok(after) => backs.push_reserved(Back::Free(after)),
        Err(turned_away) => return Err(turned_away.into_why()), // the pool is dropped, with its one seat
    }
    pool.await_end(rt); // no more jobs, no more workers
    match pool.close(rt, alloc, backs) {
        Ok(chronicle) => Ok(Ran { chronicle, refused }),
        Err(fault) => Err(fault.into_why()),
    }
}
