//! Tasks of one thread and of several, whose jobs add to a sum.

use meet_tickets::Refusal;
use pool_callers::{
    PoolCaller, PoolHandle, Run, Task, answers_of, run_cached_pool, run_fixed_pool,
};
use pool_core::PoolDeed;
use pool_threads::ItsTag;
use std::sync::Arc;
use std::sync::atomic::{AtomicU64, Ordering};
use std::test::*;

/// What a job does: it adds a number to a sum.
#[derive(Drop)]
struct Adds {
    number: u64,
    sum: Arc<AtomicU64>,
}

impl Run for Adds {
    fn run(self) {
        self.sum.fetch_add(self.number, Ordering::SeqCst);
    }
}

/// Each thread hands ten jobs in, which add their tags to one sum, and returns its number.
#[derive(Drop)]
struct Adding {
    sum: Arc<AtomicU64>,
}

impl Adding {
    /// The job of this tag.
    fn job(&self, tag: u64) -> Result<Task<Adds>, Refusal> {
        let sum = Arc::try_clone(&self.sum).map_err(|_| Refusal::Memory)?;
        Ok(Task::new(tag, Adds { number: tag, sum }))
    }

    /// Hands in ten jobs of the tags from this one.
    fn hand<P: PoolHandle<ItsTag, Task<Adds>>>(
        &self,
        pool: &mut P,
        from: u64,
    ) -> Result<(), Refusal> {
        for n in 0..10u64 {
            let job = self.job(from.saturating_add(n))?;
            if let Err(refused) = pool.execute(job) {
                return Err(refused.into_why());
            }
        }
        Ok(())
    }
}

impl PoolCaller<ItsTag, Task<Adds>> for Adding {
    type Output = (u64, Option<Refusal>);

    fn run<P: PoolHandle<ItsTag, Task<Adds>>>(&self, pool: &mut P) -> (u64, Option<Refusal>) {
        let number = pool.number();
        (number, self.hand(pool, number.saturating_mul(10)).err())
    }
}

/// Three threads hand in the jobs 0 to 29, two workers run them: each is done once, and each thread's result stands at
/// its place.
#[test]
fn each_job_is_done_once(rt: HostRuntime) {
    let alloc = rt.alloc();
    let sum = Arc::new(alloc, AtomicU64::new(0)).expect(&rt, "no memory");
    let task = Adding { sum };
    let done = run_fixed_pool(&rt, alloc, 3, 2, &task).expect(&rt, "a pool");
    assert_eq!(rt;
        done.results.as_slice(),
        [(0, None), (1, None), (2, None)].as_slice()
    );
    let chronicle = done.log.expect(&rt, "its history");
    assert_eq!(rt; chronicle.lists.len(), 5);
    assert_eq!(rt; task.sum.load(Ordering::SeqCst), 435); // 0 + 1 + .. + 29
    let answers = answers_of(alloc, &chronicle).expect(&rt, "the answers");
    let mut done = [0u64; 30];
    for answer in answers {
        assert_eq!(rt; answer.value, answer.job);
        let at = answer.job as usize;
        if at < 30 {
            done[at] = done[at].saturating_add(1);
        }
    }
    assert_eq!(rt; done, [1u64; 30]);
}

/// A cached pool starts a worker for each job that no waiting worker gets, and buffers none
/// (`Executors.newCachedThreadPool`).
#[test]
fn a_cached_pool_buffers_none(rt: HostRuntime) {
    let alloc = rt.alloc();
    let sum = Arc::new(alloc, AtomicU64::new(0)).expect(&rt, "no memory");
    let task = Adding { sum };
    let done = run_cached_pool(&rt, alloc, 1, &task).expect(&rt, "a pool");
    assert_eq!(rt; done.results.as_slice(), [(0, None)].as_slice());
    let chronicle = done.log.expect(&rt, "its history");
    assert_eq!(rt; task.sum.load(Ordering::SeqCst), 45);
    for record in chronicle.records.as_slice() {
        let kept = matches!(record.deed, PoolDeed::Kept(_) | PoolDeed::KeptStart(_, _));
        assert_eq!(rt; kept, false);
    }
}
