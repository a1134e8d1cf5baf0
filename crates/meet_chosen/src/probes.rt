//! The read-only queries (probes) of a queue whose order was chosen. Of those that look under a transfer queue's lock
//! nothing is promised: when they return, other threads may have changed what they saw.

ghost use Rattle.std.specs.Prelude.{◌≡◌, None, IsSome, true, false};
ghost use Rattle.meet_tickets.specs.Meeting.{keeps};
ghost use Rattle.meet_chosen.specs.Chosen.{order_of};

use crate::queue::ChosenQueue;
use meet_place::Ledgers;
use meet_tickets::Marked;
use std::sync::Wait;

impl<T: Marked, G, N: Ledgers> ChosenQueue<T, G, N> {
    /// Returns the number of producers in the wait queue, buffered items included. At a synchronous queue it returns 0,
    /// even if requests wait.
    ///
    /// Java: `size` of the queue.
    pub fn size<R: Wait>(&self, rt: &R) -> u64
        ensures { keeps (order_of self.now) ≡ false → result ≡ 0 }
    {
        match self {
            ChosenQueue::Fair(queue) => queue.size(),
            ChosenQueue::Unfair(queue) => queue.size(),
            ChosenQueue::Transfer(queue) => queue.size(rt),
        }
    }

    /// Returns the mark of the first producer's item. At a synchronous queue it returns none, even if requests wait.
    ///
    /// Java: `peek` of the queue, here by the item's mark.
    pub fn peek_mark<R: Wait>(&self, rt: &R) -> Option<u64>
        ensures { keeps (order_of self.now) ≡ false → result ≡ None }
    {
        match self {
            ChosenQueue::Fair(queue) => queue.peek_mark(),
            ChosenQueue::Unfair(queue) => queue.peek_mark(),
            ChosenQueue::Transfer(queue) => queue.peek_mark(rt),
        }
    }

    /// Returns the number of consumers in the wait queue, or none at a synchronous queue: `SynchronousQueue` doesn't
    /// count them.
    ///
    /// Java: `LinkedTransferQueue.getWaitingConsumerCount`.
    pub fn waiting_consumers<R: Wait>(&self, rt: &R) -> Option<u64>
        ensures uncounted { keeps (order_of self.now) ≡ false → result ≡ None }
        ensures counted { keeps (order_of self.now) ≡ true → IsSome result }
    {
        match self {
            ChosenQueue::Fair(_) => None,
            ChosenQueue::Unfair(_) => None,
            ChosenQueue::Transfer(queue) => Some(queue.waiting_consumers(rt)),
        }
    }
}
