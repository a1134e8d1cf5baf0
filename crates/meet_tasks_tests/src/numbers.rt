//! Whose result is whose: each thread of a task returns the number of its queue.

use meet_tasks::{QueueHandle, QueueTask, run_queue};
use meet_tickets::Order;
use std::sync::atomic::{AtomicU64, Ordering};

/// A task that counts how often its threads begin to work.
#[derive(Drop)]
struct Numbers {
    begun: AtomicU64,
}

impl QueueTask<u64> for Numbers {
    type Output = u64;

    fn run<Q: QueueHandle<u64>>(&self, queue: &mut Q) -> u64 {
        self.begun.fetch_add(1, Ordering::SeqCst);
        queue.number()
    }
}

#[test]
fn results_come_in_the_order_of_the_seats(rt: HostRuntime) {
    let task = Numbers {
        begun: AtomicU64::new(0),
    };
    let done = run_queue(&rt, rt.alloc(), Order::Fair, 8, &task).expect(&rt, "a task");
    assert_eq!(&rt;
        done.results.as_slice(),
        [0, 1, 2, 3, 4, 5, 6, 7].as_slice()
    );
    let done = run_queue(&rt, rt.alloc(), Order::Unfair, 3, &task).expect(&rt, "a task");
    assert_eq!(&rt; done.results.as_slice(), [0, 1, 2].as_slice());
    let done = run_queue(&rt, rt.alloc(), Order::Transfer, 1, &task).expect(&rt, "a task");
    assert_eq!(&rt; done.results.as_slice(), [0].as_slice());
    assert_eq!(&rt; task.begun.into_inner(), 12); // each thread worked once
}

#[test]
fn no_queue_of_no_threads(rt: HostRuntime) {
    let task = Numbers {
        begun: AtomicU64::new(0),
    };
    let refused = run_queue(&rt, rt.alloc(), Order::Fair, 0, &task);
    assert_eq!(&rt; refused.err(), Some(meet_tickets::Refusal::BadSizes));
    let refused = run_queue(&rt, rt.alloc(), Order::Transfer, 65_537, &task);
    assert_eq!(&rt; refused.err(), Some(meet_tickets::Refusal::BadSizes));
    assert_eq!(&rt; task.begun.into_inner(), 0);
}
