//! The synchronous queue of one thread (`SynchronousQueue`): producers and consumers that meet. It buffers no items.

ghost use Rattle.std.specs.Prelude.{◌≡◌, ◌≤◌, ◌<◌, true, None, IfOk, IfErr};
ghost use Rattle.meet_tickets.specs.BySeat.{nobody};
ghost use Rattle.meet_tickets.specs.Limits.{most_seats, last_ticket};

use crate::local_queue::{LocalQueue, Nothing};
use meet_line::Line;
use meet_tickets::{Marked, Refusal};
use std::alloc::Global;

/// A synchronous queue of one thread: over `FairSeats` or a `FairLine` in fair mode, over `StackSeats` or a `StackLine`
/// in the default mode.
///
/// Java: `SynchronousQueue`.
pub type Dual<T, L> = LocalQueue<T, L, Nothing>;

impl<T: Marked, L: Line<T>> LocalQueue<T, L, Nothing> {
    ghost use Rattle.meet_core.specs.Queue.{seats_of, count_of};
    ghost use Rattle.meet_tickets.specs.declared.refusals.Refusal.TheVariants.{Memory};

    /// Creates a queue with no room yet, with this many seats, at most 65,536, and this first ticket, 1 to 2^63 - 1.
    ///
    /// # Errors
    /// - Memory, if an allocation fails.
    ///
    /// # Example
    /// From `crates/examples/src/one_thread/handoff.rt`:
    ///
    ///     let mut queue: Counter = Dual::new(rt.alloc(), 3, 1)?;
    pub fn new(alloc: Global, seats: u64, first: u64) -> Result<Self, Refusal>
        requires seats { seats ≤ most_seats }
        requires first_from { 0 < first }
        requires first_to { first ≤ last_ticket }
        ensures fresh { IfOk result (λ made. seats_of made.queue ≡ nobody) }
        ensures seats { IfOk result (λ made. count_of made.queue ≡ seats) }
        ensures unused { IfOk result (λ made. made.queue.last ≡ 0) }
        ensures first { IfOk result (λ made. made.queue.next ≡ first) }
        ensures room { IfOk result (λ made. made.queue.room ≡ 0) }
        ensures bound { IfOk result (λ made. made.bound ≡ None) }
        ensures memory { IfErr result (λ why. why ≡ Memory) }
    {
        LocalQueue::with(alloc, seats, first, None)
    }

    /// Returns true, even if requests wait.
    ///
    /// Java: `SynchronousQueue.isEmpty`.
    pub fn is_empty(&self) -> bool
        ensures { result ≡ true }
    {
        true
    }

    /// Returns 0, even if requests wait.
    ///
    /// Java: `SynchronousQueue.size`.
    pub fn size(&self) -> u64
        ensures { result ≡ 0 }
    {
        0
    }

    /// Returns 0.
    ///
    /// Java: `SynchronousQueue.remainingCapacity`.
    pub fn remaining_capacity(&self) -> u64
        ensures { result ≡ 0 }
    {
        0
    }

    /// Returns none.
    ///
    /// Java: `SynchronousQueue.peek`, here by the item's mark.
    pub fn peek_mark(&self) -> Option<u64>
        ensures { result ≡ None }
    {
        None
    }
}
