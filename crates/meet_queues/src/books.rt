//! The logs (the books) of new queues.

ghost use Rattle.std.specs.Prelude.{◌≡◌, ◌<◌, ◌≤◌, [], IfOk, IfErr};
ghost use Rattle.meet_tickets.specs.BySeat.{nobody};
ghost use Rattle.meet_tickets.specs.Limits.{most_seats, most_records, last_ticket};
ghost use Rattle.meet_tickets.specs.Bases.{no_base};
ghost use Rattle.meet_tickets.specs.declared.refusals.Refusal.TheVariants.{Memory};
ghost use Rattle.meet_core.specs.Queue.{seats_of, count_of};

use meet_book::Book;
use meet_core::Dual;
use meet_line::Line;
use meet_tickets::{Marked, Refusal};
use meet_transfer::Transfer;
use std::alloc::Global;

/// Creates the log of a new synchronous queue with this many seats, at most 65,536, and this first ticket, 1 to 2^63 -
/// 1. `cap` is its capacity in records, 1 to 1,048,576.
///
/// # Errors
/// - Memory, if an allocation fails.
///
/// # Example
/// From `crates/examples/src/one_thread/recorded.rt`:
///
///     let mut book: Book<Dual<Parcel, FairLine<Parcel>>> = queue_book(alloc, 3, 1, 1_000)?; // at most 1,000 records
pub fn queue_book<T: Marked, L: Line<T>>(
    alloc: Global,
    seats: u64,
    first: u64,
    cap: u64,
) -> Result<Book<Dual<T, L>>, Refusal>
    requires seats { seats ≤ most_seats }
    requires first_from { 0 < first }
    requires first_to { first ≤ last_ticket }
    requires cap_from { 0 < cap }
    requires cap_to { cap ≤ most_records }
    ensures fresh { IfOk result (λ book. seats_of book.object.queue ≡ nobody) }
    ensures seats { IfOk result (λ book. count_of book.object.queue ≡ seats) }
    ensures unused { IfOk result (λ book. book.object.queue.last ≡ 0) }
    ensures first { IfOk result (λ book. book.object.queue.next ≡ first) }
    ensures base { IfOk result (λ book. book.base ≡ no_base) }
    ensures records { IfOk result (λ book. book.records ≡ []) }
    ensures cap { IfOk result (λ book. book.cap ≡ cap) }
    ensures memory { IfErr result (λ why. why ≡ Memory) }
{
    let queue = Dual::new(alloc, seats, first)?;
    Ok(Book::new(alloc, queue, cap))
}

/// Creates the log of a new transfer queue with this many seats, at most 65,536, and this first ticket, 1 to 2^63 - 1.
/// `bound` is the most items that it buffers, if there is a bound. `cap` is its capacity in records, 1 to 1,048,576.
///
/// # Errors
/// - Memory, if an allocation fails.
pub fn transfer_book<T: Marked>(
    alloc: Global,
    seats: u64,
    first: u64,
    bound: Option<u64>,
    cap: u64,
) -> Result<Book<Transfer<T>>, Refusal>
    requires seats { seats ≤ most_seats }
    requires first_from { 0 < first }
    requires first_to { first ≤ last_ticket }
    requires cap_from { 0 < cap }
    requires cap_to { cap ≤ most_records }
    ensures fresh { IfOk result (λ book. seats_of book.object.queue ≡ nobody) }
    ensures seats { IfOk result (λ book. count_of book.object.queue ≡ seats) }
    ensures unused { IfOk result (λ book. book.object.queue.last ≡ 0) }
    ensures first { IfOk result (λ book. book.object.queue.next ≡ first) }
    ensures bound { IfOk result (λ book. book.object.bound ≡ bound) }
    ensures base { IfOk result (λ book. book.base ≡ no_base) }
    ensures records { IfOk result (λ book. book.records ≡ []) }
    ensures cap { IfOk result (λ book. book.cap ≡ cap) }
    ensures memory { IfErr result (λ why. why ≡ Memory) }
{
    match bound {
        None => {
            let queue = Transfer::new(alloc, seats, first)?;
            Ok(Book::new(alloc, queue, cap))
        }
        Some(most) => {
            let queue = Transfer::with_bound(alloc, seats, first, most)?;
            Ok(Book::new(alloc, queue, cap))
        }
    }
}
