//! Tasks that bear a refused allocation and a refused start of a thread anywhere: with each they succeed, or no thread
//! begins to work. `dev/check/refuse` runs this test with each refused in turn.

use meet_tasks::{QueueHandle, QueueTask, run_queue};
use meet_tickets::{Order, Refusal};
use std::process::Abort;
use std::sync::atomic::{AtomicU64, Ordering};
use std::test::*;

/// A task that counts how many of its threads begin to work.
#[derive(Drop)]
struct Counted {
    begun: AtomicU64,
}

impl QueueTask<u64> for Counted {
    type Output = ();

    fn run<Q: QueueHandle<u64>>(&self, _queue: &mut Q) {
        self.begun.fetch_add(1, Ordering::SeqCst);
    }
}

/// Nobody has begun yet.
fn none_begun() -> Counted {
    Counted {
        begun: AtomicU64::new(0),
    }
}

/// Of three threads all have begun, or none where one or what they need couldn't be had.
fn began(rt: &impl Abort, why: Option<Refusal>, task: Counted) {
    let begun = task.begun.into_inner();
    match why {
        None => assert_eq!(rt; begun, 3),
        Some(why) => {
            assert!(rt; why == Refusal::Memory || why == Refusal::NoThread);
            assert_eq!(rt; begun, 0);
        }
    }
}

#[test]
fn all_begin_or_none(rt: HostRuntime) {
    let task = none_begun();
    let done = run_queue(&rt, rt.alloc(), Order::Fair, 3, &task);
    began(&rt, done.err(), task);
    let task = none_begun();
    let done = run_queue(&rt, rt.alloc(), Order::Unfair, 3, &task);
    began(&rt, done.err(), task);
    let task = none_begun();
    let done = run_queue(&rt, rt.alloc(), Order::Transfer, 3, &task);
    began(&rt, done.err(), task);
}
