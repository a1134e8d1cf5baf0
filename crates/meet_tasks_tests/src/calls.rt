//! The calls of a handle that have no limit: Java's `LinkedTransferQueue` and `SynchronousQueue` say what each returns.

use meet_tasks::{NotReceived, QueueHandle, QueueTask, Unsent, run_queue};
use meet_tickets::Order;

/// A task whose first thread hands 5 to the second one.
struct Handing;

impl QueueTask<u64> for Handing {
    type Output = bool;

    fn run<Q: QueueHandle<u64>>(&self, queue: &mut Q) -> bool {
        if queue.number() == 0 {
            return match queue.transfer(5) {
                Ok(()) => true,
                _ => false,
            };
        }
        match queue.take() {
            Ok(item) => item == 5,
            _ => false,
        }
    }
}

/// "Transfers the element to a consumer, waiting if necessary to do so" (`TransferQueue.transfer`), and the consumer has
/// it.
#[test]
fn one_hands_over_and_one_takes(rt: HostRuntime) {
    let done = run_queue(&rt, rt.alloc(), Order::Fair, 2, &Handing).expect(&rt, "a task");
    assert_eq!(&rt; done.results.as_slice(), [true, true].as_slice());
    let done = run_queue(&rt, rt.alloc(), Order::Transfer, 2, &Handing).expect(&rt, "a task");
    assert_eq!(&rt; done.results.as_slice(), [true, true].as_slice());
}

/// A task of one thread, which offers an item to nobody.
struct Offering;

impl QueueTask<u64> for Offering {
    type Output = bool;

    fn run<Q: QueueHandle<u64>>(&self, queue: &mut Q) -> bool {
        match queue.try_transfer(7) {
            Err(
                Unsent {
                    why: NotReceived::Nobody,
                    item,
                },
            ) => item == 7,
            _ => false,
        }
    }
}

/// "Transfers the element to a waiting consumer immediately, if possible", and else returns false
/// (`TransferQueue.tryTransfer`). Here the item is returned.
#[test]
fn an_offer_to_nobody_fails(rt: HostRuntime) {
    let done = run_queue(&rt, rt.alloc(), Order::Transfer, 1, &Offering).expect(&rt, "a task");
    assert_eq!(&rt; done.results.as_slice(), [true].as_slice());
}

/// A task whose first thread interrupts the second one, which takes where nobody gives.
struct Interrupting;

impl QueueTask<u64> for Interrupting {
    type Output = bool;

    fn run<Q: QueueHandle<u64>>(&self, queue: &mut Q) -> bool {
        if queue.number() == 0 {
            return queue.interrupt(1).is_ok();
        }
        match queue.take() {
            Err(NotReceived::Interrupted) => true,
            _ => false,
        }
    }
}

/// `BlockingQueue.take`: InterruptedException if interrupted while waiting.
#[test]
fn one_interrupts_the_other(rt: HostRuntime) {
    let done = run_queue(&rt, rt.alloc(), Order::Fair, 2, &Interrupting).expect(&rt, "a task");
    assert_eq!(&rt; done.results.as_slice(), [true, true].as_slice());
}
