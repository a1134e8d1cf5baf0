//! Settings of which no pool is made.

use crate::plays::sizes;
use meet_tickets::{Order, Refusal};
use pool_core::{Policy, PoolCore, PoolQueue, Sizes};
use std::alloc::Global;
use std::test::*;

/// Why no pool is made of these.
pub(crate) fn refusal_of(
    alloc: Global,
    sizes: Sizes,
    queue: PoolQueue,
    policy: Policy,
) -> Option<Refusal> {
    match PoolCore::<u64>::new(alloc, sizes, queue, policy) {
        Ok(_) => None,
        Err(why) => Some(why),
    }
}

#[test]
fn what_does_not_fit(rt: HostRuntime) {
    let bad = Some(Refusal::BadSizes);
    let abort = Policy::Abort;
    assert!(&rt; refusal_of(rt.alloc(), sizes(0, 0), PoolQueue::Unbounded, abort) == bad);
    assert!(&rt; refusal_of(rt.alloc(), sizes(0, 1_024), PoolQueue::Unbounded, abort) == bad);
    assert!(&rt; refusal_of(rt.alloc(), sizes(0, 1), PoolQueue::Bounded(0), abort) == bad);
    assert!(&rt;
        refusal_of(
            rt.alloc(),
            sizes(0, 1),
            PoolQueue::Bounded(1_048_577),
            abort
        ) == bad
    );
    assert!(&rt;
        refusal_of(
            rt.alloc(),
            sizes(0, 1),
            PoolQueue::Hand(Order::Transfer),
            abort
        ) == bad
    );
    assert!(&rt;
        refusal_of(
            rt.alloc(),
            sizes(0, 1),
            PoolQueue::Bounded(1),
            Policy::DiscardOldest
        )
        .is_none()
    );
    assert!(&rt;
        refusal_of(
            rt.alloc(),
            Sizes::cached(1),
            PoolQueue::Hand(Order::Unfair),
            abort
        )
        .is_none()
    );
    assert!(&rt;
        refusal_of(
            rt.alloc(),
            sizes(2, 1),
            PoolQueue::Hand(Order::Fair),
            Policy::DiscardOldest
        ) == bad
    );
    let sleepless = Sizes {
        core: 1,
        maximum: 1,
        callers: 1,
        keep_alive: 0,
        core_timeout: true,
    };
    assert!(&rt; refusal_of(rt.alloc(), sleepless, PoolQueue::Unbounded, abort) == bad);
}
