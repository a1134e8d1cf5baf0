//! The read-only queries (probes) of a handle. Of those that look at a transfer queue nothing is promised: when they
//! return, other threads may have changed what they saw.

ghost use Rattle.std.specs.Prelude.{◌≡◌, Bool, None, IsSome, true, false, if◌then◌else◌};
ghost use Rattle.meet_tickets.specs.Limits.{told_capacity};
ghost use Rattle.meet_tickets.specs.Meeting.{keeps};
ghost use Rattle.meet_tickets.specs.declared.places.Kind.{Kind};

use meet_tickets::TOLD_CAPACITY;

/// Looks at the queue of a handle, without a record. A synchronous queue has the constants that `SynchronousQueue` has.
///
/// # Example
/// From `crates/meet_tasks_tests/src/probes.rt`:
///
///     let _ = queue.put(7);
///     let shown = (queue.size(), queue.is_empty(), queue.peek_mark());
pub trait Probes {
    /// The kind of its queue.
    ghost kind: { Kind };

    /// Returns true if the queue buffers items, so if it is a transfer queue.
    fn keeps_items(&self) -> bool
        ensures { result ≡ keeps kind.order };

    /// Returns the number of producers in the wait queue, buffered items included. At a synchronous queue it returns 0,
    /// even if requests wait.
    ///
    /// Java: `size` of the queue.
    fn size(&self) -> u64
        ensures { keeps kind.order ≡ false → result ≡ 0 };

    /// Returns the mark of the first producer's item. At a synchronous queue it returns none, even if requests wait.
    ///
    /// Java: `peek` of the queue, here by the item's mark.
    fn peek_mark(&self) -> Option<u64>
        ensures { keeps kind.order ≡ false → result ≡ None };

    /// Returns the number of consumers in the wait queue, or none at a synchronous queue: `SynchronousQueue` doesn't
    /// count them.
    ///
    /// Java: `LinkedTransferQueue.getWaitingConsumerCount`.
    fn waiting_consumers(&self) -> Option<u64>
        ensures uncounted { keeps kind.order ≡ false → result ≡ None }
        ensures counted { keeps kind.order ≡ true → IsSome result };

    /// Returns true if no producer is in the wait queue. At a synchronous queue it returns true, even if requests wait.
    ///
    /// Java: `isEmpty` of the queue.
    final fn is_empty(&self) -> bool
        ensures { keeps kind.order ≡ false → result ≡ true }
    {
        self.size() == 0
    }

    /// Returns whether a consumer is in the wait queue, or none at a synchronous queue.
    ///
    /// Java: `LinkedTransferQueue.hasWaitingConsumer`.
    final fn has_waiting_consumer(&self) -> Option<bool>
        ensures uncounted { keeps kind.order ≡ false → result ≡ None }
        ensures counted { keeps kind.order ≡ true → IsSome result }
    {
        match self.waiting_consumers() {
            Some(waiting) => Some(waiting > 0),
            None => None,
        }
    }

    /// Returns 2,147,483,647 at a transfer queue, and 0 at a synchronous queue.
    ///
    /// Java: `remainingCapacity` of the queue.
    final fn remaining_capacity(&self) -> u64
        ensures { result ≡ (if keeps kind.order then told_capacity else 0) }
    {
        if self.keeps_items() { TOLD_CAPACITY } else { 0 }
    }
}
