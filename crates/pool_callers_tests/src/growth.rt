//! Tasks at pools that bear a refused allocation and a refused start of a thread anywhere: with each they succeed, or no
//! thread begins to work, or a job is refused. `dev/check/refuse` runs this test with each refused in turn.

use meet_tickets::Refusal;
use pool_callers::{PoolCaller, PoolHandle, Run, Task, run_fixed_pool};
use pool_threads::ItsTag;
use std::sync::atomic::{AtomicU64, Ordering};
use std::test::*;

/// What the jobs do.
#[derive(Drop)]
struct Nothing;

impl Run for Nothing {
    fn run(self) {}
}

/// A task that counts how many of its threads begin to work, each of which hands two jobs in.
#[derive(Drop)]
struct Counted {
    begun: AtomicU64,
}

impl Counted {
    /// Hands in a job of this tag.
    fn hand<P: PoolHandle<ItsTag, Task<Nothing>>>(
        &self,
        pool: &mut P,
        tag: u64,
    ) -> Result<(), Refusal> {
        match pool.execute(Task::new(tag, Nothing)) {
            Ok(_) => Ok(()),
            Err(refused) => Err(refused.into_why()),
        }
    }
}

impl PoolCaller<ItsTag, Task<Nothing>> for Counted {
    type Output = Option<Refusal>;

    fn run<P: PoolHandle<ItsTag, Task<Nothing>>>(&self, pool: &mut P) -> Option<Refusal> {
        self.begun.fetch_add(1, Ordering::SeqCst);
        for tag in 0..2u64 {
            if let Err(why) = self.hand(pool, tag) {
                return Some(why);
            }
        }
        None
    }
}

/// Whether this is what a refused allocation or start may lead to.
fn may_be(why: Refusal) -> bool {
    why == Refusal::Memory || why == Refusal::NoThread
}

#[test]
fn all_begin_or_none(rt: HostRuntime) {
    let alloc = rt.alloc();
    let task = Counted {
        begun: AtomicU64::new(0),
    };
    let done = run_fixed_pool(&rt, alloc, 2, 2, &task);
    let begun = task.begun.into_inner();
    match done {
        Ok(done) => {
            assert_eq!(rt; begun, 2);
            for told in done.results {
                assert!(rt; told.map_or(true, may_be));
            }
            match done.log {
                Ok(chronicle) => assert_eq!(rt; chronicle.lists.len(), 4),
                Err(why) => assert_eq!(rt; why, Refusal::Memory),
            }
        }
        Err(why) => {
            assert!(rt; may_be(why));
            assert_eq!(rt; begun, 0);
        }
    }
}
