//! A queue under its log (a book), as the exports call it.

ghost use Rattle.std.specs.Prelude.{◌≡◌, ◌≢◌, ◌<◌, ◌≤◌, Some, None, IfSome, IfOk, IfErr, OnErr, [], ℕ};
ghost use Rattle.meet_tickets.specs.Bases.{no_base};
ghost use Rattle.meet_tickets.specs.BySeat.{nobody};
ghost use Rattle.meet_tickets.specs.declared.refusals.Refusal.TheVariants.{Memory};
ghost use Rattle.meet_core.specs.Queue.{seats_of, count_of};
ghost use Rattle.meet_queues.specs.Ready.{ready_room};
ghost use Rattle.meet_history.specs.Limits.{IsInLimits};
ghost use Rattle.meet_c.specs.Stepped.{HasStepped, WasRefused, HasCut, WasNotCut};
ghost use Rattle.meet_c.specs.Looks.{look_at, open_at, count_of_option};

use crate::answers::{Answer, failed, tell};
use meet_book::{Book, Drains};
use meet_history::Setup;
use meet_queues::{AnyQueue, QueueCall, READY_RECORDS};
use meet_tickets::{Refusal, SeatNo};
use std::alloc::Global;

/// The state of a queue. What it hasn't is 0.
#[repr(C)]
#[derive(Clone, Copy, PartialEq, Eq, Debug)]
pub struct Look {
    /// Java: `Collection.size`.
    pub size: u64,
    /// Java: `BlockingQueue.remainingCapacity`.
    pub remaining_capacity: u64,
    /// 1 if there is a first item.
    pub has_first: u64,
    /// The first item. Java: `Queue.peek`.
    pub first: u64,
    /// Pending requests that wait.
    pub waiting: u64,
    /// Pending requests that were matched or interrupted, and need a follow-up.
    pub uncollected: u64,
    /// Items that are buffered.
    pub kept: u64,
    /// The records since the last cut.
    pub records: u64,
    /// The records since the first.
    pub written: u64,
}

/// Makes the log of a new queue, with room for a waiting request of every seat, and for the records up to its cap or
/// 4,096, the lesser. Fails only if an allocation fails.
pub(crate) fn new_book(alloc: Global, setup: Setup) -> Result<Book<AnyQueue>, Refusal>
    requires { IsInLimits setup }
    ensures kind { IfOk result (λ book. book.object.kind ≡ setup.kind) }
    ensures fresh { IfOk result (λ book. seats_of book.object.queue ≡ nobody) }
    ensures seats { IfOk result (λ book. count_of book.object.queue ≡ setup.seats) }
    ensures first { IfOk result (λ book. book.object.queue.next ≡ setup.first) }
    ensures base { IfOk result (λ book. book.base ≡ no_base) }
    ensures records { IfOk result (λ book. book.records ≡ []) }
    ensures cap { IfOk result (λ book. book.cap ≡ setup.cap) }
    ensures room { IfOk result (λ book. ready_room setup.cap ≤ book.room) }
    ensures line { IfOk result (λ book. setup.seats ≤ book.object.queue.room) }
    ensures memory { IfErr result (λ why. why ≡ Memory) }
{
    let queue = AnyQueue::new(alloc, setup.kind, setup.seats, setup.first)?;
    let mut book = Book::new(alloc, queue, setup.cap);
    match book.reserve(setup.cap.min(READY_RECORDS), setup.seats) {
        Ok(()) => Ok(book),
        Err(why) => Err(why),
    }
}

/// Returns one more than the seat's number, or 0.
fn wake_of(seat: Option<SeatNo>) -> u64 {
    match seat {
        None => 0,
        Some(seat) => seat.number() + 1,
    }
}

/// Makes a seat's call.
pub(crate) fn step(book: &mut Book<AnyQueue>, seat: SeatNo, call: QueueCall<u64>) -> Answer
    ensures made { result.status ≡ 0 → HasStepped book.old seat call result book.new }
    ensures refused { result.status ≢ 0 → WasRefused book.old seat call result book.new }
{
    match book.step(seat, call) {
        Ok((answer, _)) => {
            let frees = answer.frees();
            let told = tell(answer);
            let wake = if frees {
                wake_of(book.probe().met())
            } else {
                0
            };
            Answer { wake, ..told }
        }
        Err(refused) => failed(refused.into_why().number()),
    }
}

/// Returns 1 if there is a number, else 0.
fn count_of_option(number: Option<u64>) -> u64
    ensures { result ≡ count_of_option number }
{
    match number {
        None => 0,
        Some(_) => 1,
    }
}

/// Looks at a queue.
pub(crate) fn see(book: &Book<AnyQueue>) -> Look
    ensures { result ≡ look_at book.now }
{
    let queue = book.probe();
    let first = queue.peek_mark();
    Look {
        size: queue.size(),
        remaining_capacity: queue.remaining_capacity(),
        has_first: count_of_option(first),
        first: first.unwrap_or(0),
        waiting: queue.waiting(),
        uncollected: queue.uncollected(),
        kept: queue.kept(),
        records: book.records().len() as u64,
        written: book.written(),
    }
}

/// Returns the seat's open ticket, or 0.
pub(crate) fn open_at(book: &Book<AnyQueue>, seat: SeatNo) -> u64
    ensures { result ≡ open_at book.now seat }
{
    match book.probe().open_ticket(seat) {
        None => 0,
        Some(ticket) => ticket.number(),
    }
}

/// Compacts the records, and returns a status, and how many records are compacted since the first.
pub(crate) fn cut(book: &mut Book<AnyQueue>) -> (u64, u64)
    ensures made { result.0 ≡ 0 → HasCut book.old result.1 book.new }
    ensures refused { result.0 ≢ 0 → WasNotCut book.old result.0 book.new }
{
    match book.cut() {
        Ok(gone) => (0, gone),
        Err(why) => (why.number(), 0),
    }
}
