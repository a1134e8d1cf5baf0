//! Creation of queues for threads.

ghost use Rattle.std.specs.Prelude.{◌≡◌, Some, None, [], vec_len, IfOk, IfErr, if◌then◌else◌};
ghost use Rattle.meet_tickets.specs.declared.refusals.Refusal.TheVariants.{BadSizes, Memory};
ghost use Rattle.meet_core.specs.Queue.{seats_of, count_of};
ghost use Rattle.meet_tickets.specs.BySeat.{nobody};
ghost use Rattle.meet_tickets.specs.Limits.{most_records};
ghost use Rattle.meet_tickets.specs.Refusals.{IsWhy};
ghost use Rattle.meet_place.specs.Ledgers.{AreOf};
ghost use Rattle.meet_place.specs.Seats.{AreFresh};
ghost use Rattle.meet_sync.specs.Making.{making_refusal};

use crate::queue::Queue;
use meet_book::Book;
use meet_cells::{ParkGate, SpinGate};
use meet_core::QueuePlace;
use meet_place::{Blanks, Ledgers, NewPlace, Place, Seat};
use meet_queues::ready_book;
use meet_tickets::{Deed, MOST_RECORDS, MOST_SEATS, Refusal, Refused};
use std::alloc::Global;

/// The parts of a queue for threads. Beside the names and the parts of the ledgers (ghost counters), the code that
/// creates a queue chooses `N.cap`: the capacity of its log, in records.
#[derive(Drop)]
pub struct NewQueue<G> {
    /// A gate (a parker) for each seat.
    pub gates: Vec<G>,
    /// Two ledgers with a part for each seat.
    pub blanks: Blanks,
}

impl<G> NewQueue<G> {
    /// Makes the parts of a queue with these gates: two ledgers with a part for each gate are added.
    pub fn of(gates: Vec<G>) -> Self
        ensures gates { result.gates ≡ gates }
        ensures records { result.blanks.records.parts ≡ vec_len gates }
        ensures folds { result.blanks.folds.parts ≡ vec_len gates }
    {
        let blanks = Blanks::new(gates.len() as u64);
        NewQueue { gates, blanks }
    }
}

impl NewQueue<ParkGate> {
    /// Makes the parts of a queue with `seats` seats, whose threads park.
    ///
    /// # Errors
    /// - Memory, if an allocation fails.
    ///
    /// # Example
    /// From `crates/examples/src/parcels.rt`:
    ///
    ///     let parts = NewQueue::parked(alloc, 2)?; // two seats, each with a gate
    ///     pass::<Brand, R>(rt, alloc, parts, plan)
    pub fn parked(alloc: Global, seats: u64) -> Result<Self, Refusal>
        ensures gates { IfOk result (λ parts. vec_len parts.gates ≡ seats) }
        ensures records { IfOk result (λ parts. parts.blanks.records.parts ≡ seats) }
        ensures folds { IfOk result (λ parts. parts.blanks.folds.parts ≡ seats) }
        ensures memory { IfErr result (λ why. why ≡ Memory) }
    {
        let gates = ParkGate::many(alloc, seats)?;
        Ok(NewQueue::of(gates))
    }
}

impl NewQueue<SpinGate> {
    /// Makes the parts of a queue with `seats` seats, whose threads spin for `turns` turns before they park.
    ///
    /// # Errors
    /// - Memory, if an allocation fails.
    pub fn spinning(alloc: Global, seats: u64, turns: u64) -> Result<Self, Refusal>
        ensures gates { IfOk result (λ parts. vec_len parts.gates ≡ seats) }
        ensures records { IfOk result (λ parts. parts.blanks.records.parts ≡ seats) }
        ensures folds { IfOk result (λ parts. parts.blanks.folds.parts ≡ seats) }
        ensures memory { IfErr result (λ why. why ≡ Memory) }
    {
        let gates = SpinGate::many(alloc, seats, turns)?;
        Ok(NewQueue::of(gates))
    }
}

/// Whether so many gates and records are within the limits.
fn fits(gates: usize, cap: u64) -> bool
    ensures { making_refusal gates cap ≡ (if result then None else Some BadSizes) }
{
    gates != 0 && gates as u64 <= MOST_SEATS && cap != 0 && cap <= MOST_RECORDS
}

impl<O: QueuePlace, G: Drop, N: Ledgers> Queue<O, G, N> {
    /// Creates a queue with a seat for each gate, over the book of a queue that has no history yet.
    ///
    /// # Errors
    /// - Memory, if an allocation fails; the gates and the ledgers are returned.
    fn over(
        alloc: Global,
        parts: NewQueue<G>,
        book: Book<O>,
    ) -> Result<(Self, Vec<Seat<Deed, N>>), Refused<NewQueue<G>>>
        requires fresh { seats_of (O.queue_of book.object) ≡ nobody }
        requires first { book.base ≡ O.no_base }
        requires unwritten { book.records ≡ [] }
        requires seats { count_of (O.queue_of book.object) ≡ vec_len parts.gates }
        requires book_cap { book.cap ≡ N.cap }
        requires gates { making_refusal (vec_len parts.gates) N.cap ≡ None }
        requires ledgers { AreOf N.name N.folds N.moments N.parts parts.blanks }
        requires one_each { N.parts ≡ vec_len parts.gates }
        ensures count { IfOk result (λ made. made.0 ≡ vec_len parts.gates) }
        ensures seats { IfOk result (λ made. vec_len made.1 ≡ vec_len parts.gates) }
        ensures numbers { IfOk result (λ made. AreFresh made.1.items) }
        ensures why { IfErr result (λ refused. refused.why ≡ Memory) }
        ensures back { IfErr result (λ refused. refused.back ≡ parts) }
    {
        let NewQueue { gates, blanks } = parts;
        let whole = NewPlace {
            book,
            gates,
            blanks,
        };
        match Place::new(alloc, whole) {
            Ok((place, seats)) => Ok((Queue { place }, seats)),
            Err(refused) => {
                let Refused { why, back } = refused;
                let NewPlace {
                    book,
                    gates,
                    blanks,
                } = back;
                let (queue, _, _) = book.into_parts();
                queue.destroy_empty();
                Err(Refused {
                    why,
                    back: NewQueue { gates, blanks },
                })
            }
        }
    }

    /// Creates a queue with a seat for each gate, numbered from 0. `cap` is the capacity of its log, in records.
    ///
    /// # Errors
    /// The parts are returned.
    /// - BadSizes, exactly if there is no gate or more than 65,536, or `cap` is 0 or more than 1,048,576.
    /// - Memory, if an allocation fails.
    ///
    /// # Example
    /// From `crates/examples/src/parcels/passing.rt`:
    ///
    ///     let made = TransferQueue::<Parcel, ParkGate, N>::with_cap(alloc, parts, plan.cap);
    ///     let (counter, mut seats) = match made {
    ///         Ok(made) => made,
    ///         Err(refused) => return Err(refused.into_why()), // the gates and the ledgers are dropped
    ///     };
    pub fn with_cap(
        alloc: Global,
        parts: NewQueue<G>,
        cap: u64,
    ) -> Result<(Self, Vec<Seat<Deed, N>>), Refused<NewQueue<G>>>
        requires ledgers { AreOf N.name N.folds N.moments N.parts parts.blanks }
        requires one_each { N.parts ≡ vec_len parts.gates }
        requires cap { N.cap ≡ cap }
        ensures count { IfOk result (λ made. made.0 ≡ vec_len parts.gates) }
        ensures seats { IfOk result (λ made. vec_len made.1 ≡ vec_len parts.gates) }
        ensures numbers { IfOk result (λ made. AreFresh made.1.items) }
        ensures sizes { IfOk result (λ _. making_refusal (vec_len parts.gates) cap ≡ None) }
        ensures why { IfErr result (λ refused. IsWhy (making_refusal (vec_len parts.gates) cap) refused.why) }
        ensures back { IfErr result (λ refused. refused.back ≡ parts) }
    {
        if !fits(parts.gates.len(), cap) {
            return Err(Refused {
                why: Refusal::BadSizes,
                back: parts,
            });
        }
        match ready_book(alloc, parts.gates.len() as u64, cap) {
            Ok(book) => Self::over(alloc, parts, book),
            Err(why) => Err(Refused { why, back: parts }),
        }
    }

    /// Creates a queue with a seat for each gate, numbered from 0. The capacity of its log is 1,048,576
    /// records.
    ///
    /// # Errors
    /// The parts are returned.
    /// - BadSizes, exactly if there is no gate or more than 65,536.
    /// - Memory, if an allocation fails.
    ///
    /// # Example
    /// From `crates/examples/src/pairs.rt`:
    ///
    ///     match Numbers::<N>::new(alloc, parts) {
    ///         Ok((queue, seats)) => Ok((queue, pair(seats)?)),
    ///         Err(refused) => Err(refused.into_why()),
    ///     }
    ///
    /// Java: `new SynchronousQueue(fair)`, `new LinkedTransferQueue()`.
    pub fn new(
        alloc: Global,
        parts: NewQueue<G>,
    ) -> Result<(Self, Vec<Seat<Deed, N>>), Refused<NewQueue<G>>>
        requires ledgers { AreOf N.name N.folds N.moments N.parts parts.blanks }
        requires one_each { N.parts ≡ vec_len parts.gates }
        requires cap { N.cap ≡ most_records }
        ensures count { IfOk result (λ made. made.0 ≡ vec_len parts.gates) }
        ensures seats { IfOk result (λ made. vec_len made.1 ≡ vec_len parts.gates) }
        ensures numbers { IfOk result (λ made. AreFresh made.1.items) }
        ensures sizes { IfOk result (λ _. making_refusal (vec_len parts.gates) most_records ≡ None) }
        ensures why { IfErr result (λ refused. IsWhy (making_refusal (vec_len parts.gates) most_records) refused.why) }
        ensures back { IfErr result (λ refused. refused.back ≡ parts) }
    {
        Self::with_cap(alloc, parts, MOST_RECORDS)
    }
}
