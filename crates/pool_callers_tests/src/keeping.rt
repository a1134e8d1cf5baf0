//! Pools whose log is compacted, and pools that keep it.

use meet_tickets::Refusal;
use pool_callers::{KeepLog, PoolCaller, PoolHandle, run_pool, run_single_pool};
use pool_core::{Policy, PoolQueue, Settings, Sizes};
use pool_threads::{Call, ItsTag};
use std::test::*;

/// A job that does nothing.
#[derive(Drop)]
struct Idle {
    tag: u64,
}

impl Call<ItsTag> for Idle {
    ghost tag_of = { λ job. job.tag };

    fn tag(&self) -> u64 {
        self.tag
    }

    fn make(self) -> u64 {
        self.tag
    }
}

/// So many jobs fill a log of 1,048,576 records: each leaves one at least.
const MANY: u64 = 1_100_000;

/// A pool of one worker, which buffers one job at most and drops what comes beyond.
fn dropping() -> Settings {
    Settings {
        sizes: Sizes::single(1),
        queue: PoolQueue::Bounded(1),
        policy: Policy::Discard,
    }
}

/// Hands many jobs in: how many were taken, and why the next one wasn't.
struct Many;

impl PoolCaller<ItsTag, Idle> for Many {
    type Output = (u64, Option<Refusal>);

    fn run<P: PoolHandle<ItsTag, Idle>>(&self, pool: &mut P) -> (u64, Option<Refusal>) {
        for tag in 0..MANY {
            if let Err(refused) = pool.execute(Idle { tag }) {
                return (tag, Some(refused.into_why()));
            }
        }
        (MANY, None)
    }
}

/// The log doesn't fill, and what the pool leaves says how much of it was compacted.
#[test]
fn a_log_never_fills(rt: HostRuntime) {
    let done = run_pool(&rt, rt.alloc(), dropping(), &Many).expect(&rt, "a pool");
    assert_eq!(rt; done.results.as_slice(), [(MANY, None)].as_slice());
    let chronicle = done.log.expect(&rt, "its history");
    let all = chronicle
        .base
        .gone
        .saturating_add(chronicle.records.len() as u64);
    assert_eq!(rt; all > MANY, true);
}

/// A log that is kept fills, and is there at the end.
#[test]
fn a_kept_log_fills(rt: HostRuntime) {
    let done = run_pool(&rt, rt.alloc(), dropping(), &KeepLog(Many)).expect(&rt, "a pool");
    let full = match done.results.as_slice() {
        [(taken, Some(Refusal::HistoryFull))] => *taken < MANY,
        _ => false,
    };
    assert_eq!(rt; full, true);
    let chronicle = done.log.expect(&rt, "its history");
    assert_eq!(rt; chronicle.base.gone, 0);
    assert_eq!(rt; chronicle.records.len() > 1_000_000, true);
}

/// A thread of a task that keeps the log hands it out chapter by chapter.
struct Rotating;

impl PoolCaller<ItsTag, Idle> for Rotating {
    type Output = Result<(u64, u64, u64), Refusal>;

    fn run<P: PoolHandle<ItsTag, Idle>>(&self, pool: &mut P) -> Result<(u64, u64, u64), Refusal> {
        pool.keep_log();
        let Ok(_) = pool.execute(Idle { tag: 1 }) else {
            return Err(Refusal::Differs);
        };
        let before = pool.history()?;
        let room = before.records;
        let seen = room.len() as u64;
        let chapter = pool.rotate(room)?;
        let after = pool.history()?;
        Ok((seen, chapter.base.gone, after.base.gone))
    }
}

/// What was handed out stands on no base, and what comes later on a base of as many records.
#[test]
fn a_log_is_handed_out(rt: HostRuntime) {
    let done = run_single_pool(&rt, rt.alloc(), 1, &Rotating).expect(&rt, "a pool");
    let handed = match done.results.as_slice() {
        [Ok((seen, 0, gone))] => *seen >= 1 && *gone >= *seen,
        _ => false,
    };
    assert_eq!(rt; handed, true);
    let chronicle = done.log.expect(&rt, "its history");
    assert_eq!(rt; chronicle.base.gone >= 1, true);
}
