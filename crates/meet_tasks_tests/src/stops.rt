//! A task of three that one of them stops.

use meet_tasks::{NotReceived, QueueHandle, QueueTask, run_queue};
use meet_tickets::Order;

/// For how long a thread waits for an item at most, in milliseconds.
const LIMIT: u64 = 30_000;

/// A task whose first thread interrupts all others, and these take where nobody gives.
#[derive(Drop)]
struct Stopped {}

impl QueueTask<u64> for Stopped {
    type Output = bool;

    fn run<Q: QueueHandle<u64>>(&self, queue: &mut Q) -> bool {
        if queue.number() == 0 {
            return queue.interrupt_all().is_ok();
        }
        match queue.poll_for(LIMIT) {
            Err(NotReceived::Interrupted) => true,
            _ => false,
        }
    }
}

/// A call that waits, or that would wait, ends where its thread is interrupted (`BlockingQueue.poll` with a time:
/// InterruptedException if interrupted while waiting).
#[test]
fn one_stops_the_others(rt: HostRuntime) {
    let done = run_queue(&rt, rt.alloc(), Order::Fair, 3, &Stopped {}).expect(&rt, "a task");
    assert_eq!(&rt; done.results.as_slice(), [true, true, true].as_slice());
    let done = run_queue(&rt, rt.alloc(), Order::Unfair, 3, &Stopped {}).expect(&rt, "a task");
    assert_eq!(&rt; done.results.as_slice(), [true, true, true].as_slice());
    let done = run_queue(&rt, rt.alloc(), Order::Transfer, 3, &Stopped {}).expect(&rt, "a task");
    assert_eq!(&rt; done.results.as_slice(), [true, true, true].as_slice());
}
