//! A handle that drains its queue.

use meet_tasks::{QueueHandle, QueueTask, run_queue};
use meet_tickets::Order;

/// A task of one thread, which puts three items, and takes two, the rest, and none.
struct Draining;

impl QueueTask<u64> for Draining {
    type Output = bool;

    fn run<Q: QueueHandle<u64>>(&self, queue: &mut Q) -> bool {
        for item in 7..10 {
            let _ = queue.put(item);
        }
        let two = match queue.drain(2) {
            Ok(items) => items.as_slice() == [7, 8].as_slice(),
            Err(_) => false,
        };
        let one = match queue.drain(10) {
            Ok(items) => items.as_slice() == [9].as_slice(),
            Err(_) => false,
        };
        two && one && none_left(queue)
    }
}

/// Whether a drain takes nothing.
fn none_left<Q: QueueHandle<u64>>(queue: &mut Q) -> bool {
    match queue.drain(10) {
        Ok(items) => items.is_empty(),
        Err(_) => false,
    }
}

/// `BlockingQueue.drainTo`: "Removes at most the given number of available elements from this queue".
#[test]
fn a_drain_takes_the_oldest_first(rt: HostRuntime) {
    let done = run_queue(&rt, rt.alloc(), Order::Transfer, 1, &Draining).expect(&rt, "a task");
    assert_eq!(&rt; done.results.as_slice(), [true].as_slice());
    let chronicle = done.log.expect(&rt, "the task's history");
    assert_eq!(&rt; chronicle.records.len(), 6); // three puts, and three polls
}

/// A task whose first thread puts an item, and the second drains until it has it.
struct Meeting;

impl QueueTask<u64> for Meeting {
    type Output = bool;

    fn run<Q: QueueHandle<u64>>(&self, queue: &mut Q) -> bool {
        if queue.number() == 0 {
            return queue.transfer_for(5, 30_000).is_ok();
        }
        for _ in 0..100_000_000 {
            match queue.drain(3) {
                Ok(items) if items.is_empty() => {}
                Ok(items) => return items.as_slice() == [5].as_slice(),
                Err(_) => return false,
            }
        }
        false
    }
}

/// A producer that waits has its item taken.
#[test]
fn a_drain_meets_a_producer(rt: HostRuntime) {
    let done = run_queue(&rt, rt.alloc(), Order::Fair, 2, &Meeting).expect(&rt, "a task");
    assert_eq!(&rt; done.results.as_slice(), [true, true].as_slice());
}
