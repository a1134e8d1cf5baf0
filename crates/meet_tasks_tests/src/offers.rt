//! What `offer` is at each kind of queue, as Java's `SynchronousQueue` and `LinkedTransferQueue` say.

use meet_tasks::{NotReceived, QueueHandle, QueueTask, Unsent, run_queue};
use meet_tickets::Order;

/// A task of one thread, which offers two items to nobody at a synchronous queue.
struct Refused;

impl QueueTask<u64> for Refused {
    type Output = bool;

    fn run<Q: QueueHandle<u64>>(&self, queue: &mut Q) -> bool {
        let failed = match queue.offer(7) {
            Err(
                Unsent {
                    why: NotReceived::Nobody,
                    item,
                },
            ) => item == 7,
            _ => false,
        };
        let timed_out = match queue.offer_for(8, 20) {
            Err(
                Unsent {
                    why: NotReceived::TimedOut,
                    item,
                },
            ) => item == 8,
            _ => false,
        };
        let at_once = match queue.offer_for(9, 0) {
            Err(
                Unsent {
                    why: NotReceived::Nobody,
                    item,
                },
            ) => item == 9,
            _ => false,
        };
        failed && timed_out && at_once
    }
}

/// `SynchronousQueue.offer`: "Inserts the specified element into this queue, if another thread is waiting to receive
/// it", else false; with a timeout it waits "up to the specified wait time". Here the item is returned.
#[test]
fn an_offer_needs_a_consumer(rt: HostRuntime) {
    let done = run_queue(&rt, rt.alloc(), Order::Fair, 1, &Refused).expect(&rt, "a task");
    assert_eq!(&rt; done.results.as_slice(), [true].as_slice());
    let done = run_queue(&rt, rt.alloc(), Order::Unfair, 1, &Refused).expect(&rt, "a task");
    assert_eq!(&rt; done.results.as_slice(), [true].as_slice());
}

/// A task of one thread, which offers two items to nobody at a transfer queue, and polls them.
struct Buffered;

impl QueueTask<u64> for Buffered {
    type Output = bool;

    fn run<Q: QueueHandle<u64>>(&self, queue: &mut Q) -> bool {
        let first = matches!(queue.offer(7), Ok(()));
        let second = matches!(queue.offer_for(8, 60_000), Ok(()));
        let polled = matches!(queue.poll(), Ok(7));
        first && second && polled && matches!(queue.poll(), Ok(8))
    }
}

/// `LinkedTransferQueue.offer`, of both forms: "As the queue is unbounded, this method will never return false", and it
/// "will never block".
#[test]
fn an_offer_is_buffered(rt: HostRuntime) {
    let done = run_queue(&rt, rt.alloc(), Order::Transfer, 1, &Buffered).expect(&rt, "a task");
    assert_eq!(&rt; done.results.as_slice(), [true].as_slice());
}

/// A task whose first thread offers an item, and the second takes it.
struct Handing;

impl QueueTask<u64> for Handing {
    type Output = bool;

    fn run<Q: QueueHandle<u64>>(&self, queue: &mut Q) -> bool {
        if queue.number() == 0 {
            return match queue.offer_for(5, 30_000) {
                Ok(()) => true,
                _ => false,
            };
        }
        matches!(queue.take(), Ok(5))
    }
}

#[test]
fn an_offer_meets_a_consumer(rt: HostRuntime) {
    let done = run_queue(&rt, rt.alloc(), Order::Fair, 2, &Handing).expect(&rt, "a task");
    assert_eq!(&rt; done.results.as_slice(), [true, true].as_slice());
}
