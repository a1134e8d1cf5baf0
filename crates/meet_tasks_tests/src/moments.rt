//! A handle that gives its moment away and is shown one calls on as before: `LinkedTransferQueue` keeps what is put, and
//! a poll gets it.

use meet_tasks::{QueueHandle, QueueTask, run_queue};
use meet_tickets::Order;

/// A task of one thread, which puts 7 and polls.
struct Showing;

impl QueueTask<u64> for Showing {
    type Output = bool;

    fn run<Q: QueueHandle<u64>>(&self, queue: &mut Q) -> bool {
        let before = queue.moment();
        let put = queue.put(7);
        let behind = queue.moment();
        queue.learn(&before);
        queue.learn(&behind);
        let polled = queue.poll();
        matches!((put, polled), (Ok(()), Ok(7)))
    }
}

#[test]
fn a_handle_that_learns_calls_on(rt: HostRuntime) {
    let done = run_queue(&rt, rt.alloc(), Order::Transfer, 1, &Showing).expect(&rt, "a task");
    assert_eq!(&rt; done.results.as_slice(), [true].as_slice());
    let chronicle = done.log.expect(&rt, "the task's history");
    assert_eq!(&rt; chronicle.records.len(), 2);
}
