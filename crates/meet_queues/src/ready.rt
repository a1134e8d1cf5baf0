//! Logs of new queues with room for what is coming: so that no call, below a number of records, allocates.

ghost use Rattle.std.specs.Prelude.{◌≡◌, ◌<◌, ◌≤◌, [], IfOk, IfErr};
ghost use Rattle.meet_tickets.specs.BySeat.{nobody};
ghost use Rattle.meet_tickets.specs.Limits.{most_seats, most_records};
ghost use Rattle.meet_tickets.specs.declared.refusals.Refusal.TheVariants.{Memory};
ghost use Rattle.meet_core.specs.Queue.{seats_of, count_of};
ghost use Rattle.meet_queues.specs.Ready.{ready_room};

use meet_book::Book;
use meet_core::QueuePlace;
use meet_tickets::{Marked, Refusal};
use std::alloc::Global;

/// The records for which a ready book has room at first, if its cap isn't less.
pub const READY_RECORDS: u64 = 4_096;

/// Creates the log of a new queue with this many seats, at most 65,536; its first ticket is 1. `cap` is its capacity in
/// records, 1 to 1,048,576. The wait queue has room for a waiting request of every seat, and the book for the records
/// up to its cap or `READY_RECORDS`, the lesser. It requires no `Drop` of the items or the wait queue.
///
/// # Errors
/// - Memory, if an allocation fails.
pub fn ready_book<O: QueuePlace>(alloc: Global, seats: u64, cap: u64) -> Result<Book<O>, Refusal>
    requires seats { seats ≤ most_seats }
    requires cap_from { 0 < cap }
    requires cap_to { cap ≤ most_records }
    ensures fresh { IfOk result (λ book. seats_of (O.queue_of book.object) ≡ nobody) }
    ensures seats { IfOk result (λ book. count_of (O.queue_of book.object) ≡ seats) }
    ensures unused { IfOk result (λ book. (O.queue_of book.object).last ≡ 0) }
    ensures first { IfOk result (λ book. (O.queue_of book.object).next ≡ 1) }
    ensures base { IfOk result (λ book. book.base ≡ O.no_base) }
    ensures records { IfOk result (λ book. book.records ≡ []) }
    ensures cap { IfOk result (λ book. book.cap ≡ cap) }
    ensures room { IfOk result (λ book. ready_room cap ≤ book.room) }
    ensures line { IfOk result (λ book. seats ≤ (O.queue_of book.object).room) }
    ensures memory { IfErr result (λ why. why ≡ Memory) }
{
    let mut book = Book::new(alloc, O::unused(alloc, seats)?, cap);
    match book.reserve(ready_room(cap), seats) {
        Ok(()) => Ok(book),
        Err(why) => {
            let (queue, _, _) = book.into_parts();
            queue.destroy_empty();
            Err(why)
        }
    }
}

/// For how many records a ready book with this cap has room at first.
fn ready_room(cap: u64) -> u64
    ensures { result ≡ ready_room cap }
{
    cap.min(READY_RECORDS)
}
