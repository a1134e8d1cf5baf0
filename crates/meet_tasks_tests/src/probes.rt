//! What a handle sees of its queue, as Java's `SynchronousQueue` and `LinkedTransferQueue` say.

use meet_tasks::{QueueHandle, QueueTask, run_queue};
use meet_tickets::Order;

/// A task of one thread, which looks at a synchronous queue.
struct Looking;

impl QueueTask<u64> for Looking {
    type Output = bool;

    fn run<Q: QueueHandle<u64>>(&self, queue: &mut Q) -> bool {
        let items = (queue.size(), queue.is_empty(), queue.peek_mark());
        let consumers = (queue.waiting_consumers(), queue.has_waiting_consumer());
        items == (0, true, None)
            && consumers == (None, None)
            && queue.remaining_capacity() == 0
            && !queue.keeps_items()
    }
}

/// `SynchronousQueue`: `isEmpty` "Always returns true", `size` and `remainingCapacity` "Always returns zero", `peek`
/// "Always returns null".
#[test]
fn a_synchronous_queue_shows_nothing(rt: HostRuntime) {
    let done = run_queue(&rt, rt.alloc(), Order::Fair, 1, &Looking).expect(&rt, "a task");
    assert_eq!(&rt; done.results.as_slice(), [true].as_slice());
    let done = run_queue(&rt, rt.alloc(), Order::Unfair, 1, &Looking).expect(&rt, "a task");
    assert_eq!(&rt; done.results.as_slice(), [true].as_slice());
}

/// A task of one thread, which puts an item into a transfer queue, and looks at it.
struct Putting;

impl QueueTask<u64> for Putting {
    type Output = bool;

    fn run<Q: QueueHandle<u64>>(&self, queue: &mut Q) -> bool {
        let before = (queue.size(), queue.is_empty(), queue.peek_mark());
        let _ = queue.put(7);
        let shown = (queue.size(), queue.is_empty(), queue.peek_mark());
        let consumers = (queue.waiting_consumers(), queue.has_waiting_consumer());
        before == (0, true, None)
            && shown == (1, false, Some(7))
            && consumers == (Some(0), Some(false))
            && queue.remaining_capacity() == 2_147_483_647 // Integer.MAX_VALUE
            && queue.keeps_items()
    }
}

/// `LinkedTransferQueue`: `size` "Returns the number of elements in this queue", `peek` "Retrieves, but does not remove,
/// the head of this queue", `remainingCapacity` "Always returns Integer.MAX_VALUE".
#[test]
fn a_transfer_queue_shows_what_is_buffered(rt: HostRuntime) {
    let done = run_queue(&rt, rt.alloc(), Order::Transfer, 1, &Putting).expect(&rt, "a task");
    assert_eq!(&rt; done.results.as_slice(), [true].as_slice());
}

/// A task whose first thread puts an item after it saw that the second one waits.
struct Awaited;

impl QueueTask<u64> for Awaited {
    type Output = bool;

    fn run<Q: QueueHandle<u64>>(&self, queue: &mut Q) -> bool {
        if queue.number() == 1 {
            return matches!(queue.take(), Ok(5));
        }
        let mut seen = false;
        for _ in 0..1_000_000_000 {
            if queue.has_waiting_consumer() == Some(true) {
                seen = queue.waiting_consumers() == Some(1);
                break;
            }
        }
        seen && matches!(queue.put(5), Ok(()))
    }
}

/// `TransferQueue.hasWaitingConsumer`: "Returns true if there is at least one consumer waiting to receive an element".
#[test]
fn a_consumer_that_waits_is_seen(rt: HostRuntime) {
    let done = run_queue(&rt, rt.alloc(), Order::Transfer, 2, &Awaited).expect(&rt, "a task");
    assert_eq!(&rt; done.results.as_slice(), [true, true].as_slice());
}
