//! The transfer queue without a bound, as `LinkedTransferQueue` is: a put always finds a place.

ghost use Rattle.std.specs.Prelude.{◌≡◌, ◌≤◌, ◌<◌, None, IfOk, IfErr};
ghost use Rattle.meet_tickets.specs.BySeat.{nobody};
ghost use Rattle.meet_tickets.specs.Limits.{most_seats, last_ticket};

use crate::local_queue::{AnyNumber, LocalQueue};
use meet_line::TransferLine;
use meet_tickets::{Marked, Refusal};
use std::alloc::Global;

/// A transfer queue of one thread that buffers any number of items. As a book's object its history is that of a queue
/// without a bound. Its puts are those of the book.
pub type Unbounded<T> = LocalQueue<T, TransferLine<T>, AnyNumber>;

impl<T: Marked> LocalQueue<T, TransferLine<T>, AnyNumber> {
    ghost use Rattle.meet_core.specs.Queue.{seats_of, count_of};
    ghost use Rattle.meet_tickets.specs.declared.refusals.Refusal.TheVariants.{Memory};

    /// Creates a queue with no room yet, with this many seats, at most 65,536, and this first ticket, 1 to 2^63 - 1.
    ///
    /// # Errors
    /// - Memory, if an allocation fails.
    ///
    /// Java: `new LinkedTransferQueue()`.
    pub fn new(alloc: Global, seats: u64, first: u64) -> Result<Self, Refusal>
        requires seats { seats ≤ most_seats }
        requires first_from { 0 < first }
        requires first_to { first ≤ last_ticket }
        ensures fresh { IfOk result (λ made. seats_of made.queue ≡ nobody) }
        ensures seats { IfOk result (λ made. count_of made.queue ≡ seats) }
        ensures unused { IfOk result (λ made. made.queue.last ≡ 0) }
        ensures first { IfOk result (λ made. made.queue.next ≡ first) }
        ensures room { IfOk result (λ made. made.queue.room ≡ 0) }
        ensures bound { IfOk result (λ made. made.bound ≡ None) }
        ensures memory { IfErr result (λ why. why ≡ Memory) }
    {
        LocalQueue::with(alloc, seats, first, None)
    }
}
