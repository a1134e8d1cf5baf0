//! Which jobs a pool runs that were submitted, and which come back, by its policy.

use crate::ends::{Chore, Flags, look, no_flag};
use pool_callers::{PoolCaller, PoolHandle, Unrun, run_pool};
use pool_core::{Policy, PoolQueue, Settings, Sizes};
use pool_threads::ItsTag;
use std::alloc::Global;
use std::process::Abort;
use std::sync::atomic::Ordering;
use std::sync::{Arc, Wait};
use std::test::*;
use std::thread::Threads;
use std::time::Clock;

/// The tag of a job that came back, and why; None if none did.
type Back = Option<(&'static str, Option<u64>)>;

/// The caller of a pool of one worker, which buffers one job at most. It submits a job that runs until the end, one that is
/// buffered, and one more; then it shuts the pool down, and submits a fourth.
#[derive(Drop)]
struct Submitting {
    flags: Arc<Flags>,
}

/// What became of a job that was submitted.
fn back_of(submitted: Result<(), Unrun<Chore>>) -> Back {
    match submitted {
        Ok(()) => None,
        Err(unrun) => {
            let Unrun { why, job } = unrun;
            Some((why.name(), job.map(|job| job.tag())))
        }
    }
}

impl PoolCaller<ItsTag, Chore> for Submitting {
    type Output = [Back; 4];

    fn run<P: PoolHandle<ItsTag, Chore>>(&self, pool: &mut P) -> [Back; 4] {
        let until = Arc::try_clone(&self.flags).ok();
        let first = back_of(pool.submit(Chore { tag: 1, until }));
        look(&self.flags.runs);
        let second = back_of(pool.submit(Chore {
            tag: 2,
            until: None,
        }));
        let third = back_of(pool.submit(Chore {
            tag: 3,
            until: None,
        }));
        let shut = pool.shutdown().is_ok();
        let fourth = back_of(pool.submit(Chore {
            tag: 4,
            until: None,
        }));
        self.flags.may_end.store(shut, Ordering::SeqCst);
        [first, second, third, fourth]
    }
}

/// What comes back by this policy.
fn by_policy<R>(rt: &R, alloc: Global, policy: Policy) -> [Back; 4]
where
    R: Threads + Wait + Clock + Abort + Copy + Send + Sync + 'static,
{
    let settings = Settings {
        sizes: Sizes::single(1),
        queue: PoolQueue::Bounded(1),
        policy,
    };
    let caller = Submitting {
        flags: no_flag(rt, alloc),
    };
    let done = run_pool(rt, alloc, settings, &caller).expect(rt, "a pool");
    match done.results.as_slice() {
        [backs] => *backs,
        _ => [None; 4],
    }
}

/// The saturation policies of `ThreadPoolExecutor`: `AbortPolicy` throws `RejectedExecutionException`, `CallerRunsPolicy`
/// runs the task in the calling thread, unless the pool is shut down, and then the task is discarded, `DiscardPolicy`
/// discards the rejected task, and `DiscardOldestPolicy` the oldest unhandled one, unless the pool is shut down.
#[test]
fn jobs_come_back_by_the_policy(rt: HostRuntime) {
    let discarded = Some(("Discarded", Some(4)));
    for (policy, third, fourth) in [
        (
            Policy::Abort,
            Some(("Rejected", Some(3))),
            Some(("Rejected", Some(4))),
        ),
        (Policy::CallerRuns, None, discarded),
        (Policy::Discard, Some(("Discarded", Some(3))), discarded),
        (
            Policy::DiscardOldest,
            Some(("Displaced", Some(2))),
            discarded,
        ),
    ] {
        assert_eq!(rt;
            by_policy(&rt, rt.alloc(), policy),
            [None, None, third, fourth]
        );
    }
}
