//! Of which sizes a task's pool can be.

use meet_tickets::{Order, Refusal};
use pool_callers::{
    Finished, PoolCaller, PoolHandle, Run, Task, run_cached_pool, run_fixed_pool, run_pool,
    run_single_pool,
};
use pool_core::{Policy, PoolQueue, Settings, Sizes};
use pool_threads::{ItsTag, PoolChronicle};
use std::test::*;

/// What no job of these tasks does.
#[derive(Drop)]
struct Nothing;

impl Run for Nothing {
    fn run(self) {}
}

/// Its threads return their numbers.
struct Numbered;

impl PoolCaller<ItsTag, Task<Nothing>> for Numbered {
    type Output = u64;

    fn run<P: PoolHandle<ItsTag, Task<Nothing>>>(&self, pool: &mut P) -> u64 {
        pool.number()
    }
}

/// Why there is no such task, if there is none.
fn why(done: Result<Finished<PoolChronicle<Task<Nothing>>, u64>, Refusal>) -> Option<Refusal> {
    done.err()
}

/// IllegalArgumentException, if the number of workers is 0 (`Executors.newFixedThreadPool`); callers and workers
/// together are 1,024 at most.
#[test]
fn sizes_are_bounded(rt: HostRuntime) {
    let alloc = rt.alloc();
    let bad = Some(Refusal::BadSizes);
    assert_eq!(rt; why(run_fixed_pool(&rt, alloc, 0, 2, &Numbered)), bad);
    assert_eq!(rt; why(run_fixed_pool(&rt, alloc, 2, 0, &Numbered)), bad);
    assert_eq!(rt; why(run_fixed_pool(&rt, alloc, 1, 1_024, &Numbered)), bad);
    assert_eq!(rt; why(run_fixed_pool(&rt, alloc, 1, 1_023, &Numbered)), None);
    assert_eq!(rt;
        why(run_fixed_pool(&rt, alloc, u64::MAX, u64::MAX, &Numbered)),
        bad
    );
    assert_eq!(rt; why(run_single_pool(&rt, alloc, 0, &Numbered)), bad);
    assert_eq!(rt; why(run_single_pool(&rt, alloc, 1_024, &Numbered)), bad);
    assert_eq!(rt; why(run_cached_pool(&rt, alloc, 0, &Numbered)), bad);
    assert_eq!(rt; why(run_cached_pool(&rt, alloc, 1_024, &Numbered)), bad);
}

/// A policy that drops the oldest buffered job needs a queue that buffers jobs.
#[test]
fn a_policy_may_need_a_buffer(rt: HostRuntime) {
    let settings = Settings {
        sizes: Sizes::fixed(1, 1),
        queue: PoolQueue::Hand(Order::Fair),
        policy: Policy::DiscardOldest,
    };
    let done = run_pool::<ItsTag, Task<Nothing>, HostRuntime, Numbered>(
        &rt,
        rt.alloc(),
        settings,
        &Numbered,
    );
    assert_eq!(rt; why(done), Some(Refusal::PolicyNeedsBuffer));
}

/// Each thread has a seat of its own, and its result stands at the place of its number.
#[test]
fn results_stand_by_number(rt: HostRuntime) {
    let done = run_fixed_pool(&rt, rt.alloc(), 4, 1, &Numbered).expect(&rt, "a pool");
    assert_eq!(rt; done.results.as_slice(), [0, 1, 2, 3].as_slice());
}
