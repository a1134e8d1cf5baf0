//! The read-only queries (probes) of a queue for threads. None allocates. Of those that look under the lock nothing is
//! promised: when they return, other threads may have changed what they saw.

ghost use Rattle.std.specs.Prelude.{◌≡◌, true, false, None};
ghost use Rattle.meet_tickets.specs.Limits.{told_capacity};

use crate::queue::Queue;
use meet_core::Dual;
use meet_line::Line;
use meet_place::Ledgers;
use meet_tickets::{Marked, TOLD_CAPACITY};
use meet_transfer::Unbounded;
use std::sync::Wait;

impl<T: Marked, L: Line<T>, G, N: Ledgers> Queue<Dual<T, L>, G, N> {
    /// Returns true, even if requests wait.
    ///
    /// Java: `SynchronousQueue.isEmpty`.
    pub fn is_empty(&self) -> bool
        ensures { result ≡ true }
    {
        true
    }

    /// Returns 0, even if requests wait.
    ///
    /// Java: `SynchronousQueue.size`.
    pub fn size(&self) -> u64
        ensures { result ≡ 0 }
    {
        0
    }

    /// Returns 0.
    ///
    /// Java: `SynchronousQueue.remainingCapacity`.
    pub fn remaining_capacity(&self) -> u64
        ensures { result ≡ 0 }
    {
        0
    }

    /// Returns none.
    ///
    /// Java: `SynchronousQueue.peek`, here by the item's mark.
    pub fn peek_mark(&self) -> Option<u64>
        ensures { result ≡ None }
    {
        None
    }

    /// Returns false, for each mark.
    ///
    /// Java: `SynchronousQueue.contains`, here by the item's mark.
    pub fn contains(&self, _mark: u64) -> bool
        ensures { result ≡ false }
    {
        false
    }
}

impl<T: Marked, G, N: Ledgers> Queue<Unbounded<T>, G, N> {
    /// Returns 2,147,483,647.
    ///
    /// Java: `LinkedTransferQueue.remainingCapacity`.
    pub fn remaining_capacity(&self) -> u64
        ensures { result ≡ told_capacity }
    {
        TOLD_CAPACITY
    }

    /// Returns the number of producers in the wait queue, buffered items included.
    ///
    /// Java: `LinkedTransferQueue.size`.
    pub fn size<R: Wait>(&self, rt: &R) -> u64 {
        self.place.hold(rt).probe().givers()
    }

    /// Returns true if no producer is in the wait queue.
    ///
    /// Java: `LinkedTransferQueue.isEmpty`.
    pub fn is_empty<R: Wait>(&self, rt: &R) -> bool {
        self.place.hold(rt).probe().givers() == 0
    }

    /// Returns the mark of the first producer's item.
    ///
    /// Java: `LinkedTransferQueue.peek`.
    pub fn peek_mark<R: Wait>(&self, rt: &R) -> Option<u64> {
        self.place.hold(rt).probe().first_mark()
    }

    /// Returns the number of consumers in the wait queue.
    ///
    /// Java: `LinkedTransferQueue.getWaitingConsumerCount`.
    pub fn waiting_consumers<R: Wait>(&self, rt: &R) -> u64 {
        self.place.hold(rt).probe().takers()
    }

    /// Returns true if a consumer is in the wait queue.
    ///
    /// Java: `LinkedTransferQueue.hasWaitingConsumer`.
    pub fn has_waiting_consumer<R: Wait>(&self, rt: &R) -> bool {
        self.place.hold(rt).probe().takers() > 0
    }
}
