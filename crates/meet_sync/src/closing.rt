//! The end of a queue for threads: its one history.

ghost use Rattle.std.specs.Prelude.{◌≡◌, ◌+◌, ◌<◌, ◌≤◌, ◌^◌, List, length, map, vec_len, IfOk, IfErr};
ghost use Rattle.meet_place.specs.Backs.{list_of, AreOrdered, shares_in, folded_in};
ghost use Rattle.meet_place.specs.declared.seats.Back.{Back};
ghost use Rattle.meet_sync.specs.Chronicles.{IsChronicle};
ghost use Rattle.meet_sync.specs.Faults.{QueueFaultFits, missing_in, why_of};
ghost use Rattle.meet_tickets.specs.declared.refusals.Refusal.TheVariants.{Memory as NoMemory};

use crate::queue::Queue;
use meet_book::{Book, Receipt};
use meet_core::{Left, QueueLeaves};
use meet_place::{Back, CloseFault, Closed, Ledgers, missing_seats};
use meet_tickets::{Base, Deed, Record, Refusal, SeatNo};
use std::alloc::Global;
use std::fmt;
use std::fmt::{Debug, Display, Formatter, Write};

/// The final log of a closed queue.
#[derive(Debug, Drop)]
pub struct Chronicle<T> {
    /// The snapshot of the compacted records.
    pub base: Base,
    /// The records since, in order: with the base one legal history.
    pub records: Vec<Record<Deed>>,
    /// The receipts of each seat, in the order of their numbers, without those that were dropped.
    pub lists: Vec<Vec<Receipt<Deed>>>,
    /// The items that are left in the queue, by rising ticket of their producers.
    pub left: Vec<Left<T>>,
}

/// The error of a queue that wasn't closed, with all that is returned. Its text is the name of the reason. It is no
/// error type: a `?` returns it whole or doesn't compile.
#[derive(Drop)]
pub enum QueueFault<Q, B, N: Ledgers> {
    /// Fewer seats were given back than were made. The queue and the seats are returned.
    SeatMissing {
        /// How many were given back.
        have: u64,
        /// How many were made.
        made: u64,
        /// The queue, as it was.
        queue: Q,
        /// The seats that were given back.
        seats: Vec<Back<Deed, N>>,
    },
    /// An allocation failed. The queue and the seats are returned.
    Memory {
        /// The queue, as it was.
        queue: Q,
        /// The seats that were given back.
        seats: Vec<Back<Deed, N>>,
    },
    /// The records of a seat aren't those of its receipts. The log (the book) is returned, out of its lock, and the
    /// seats.
    Differs {
        /// The least such seat.
        seat: SeatNo,
        /// The first index at which they differ, counted from 0 among the seat's records.
        index: u64,
        /// The log.
        book: B,
        /// The seats, in the order of their numbers.
        seats: Vec<Back<Deed, N>>,
    },
}

impl<Q, B, N: Ledgers> QueueFault<Q, B, N> {
    /// Returns the reason: SeatMissing, Memory or Differs.
    pub fn why(&self) -> Refusal
        ensures { result ≡ why_of self.now }
    {
        match self {
            QueueFault::SeatMissing { .. } => Refusal::SeatMissing,
            QueueFault::Memory { .. } => Refusal::Memory,
            QueueFault::Differs { .. } => Refusal::Differs,
        }
    }

    /// Returns the numbers of the seats that are missing, in rising order; none if no seat is.
    ///
    /// # Errors
    /// - Memory, if an allocation fails.
    pub fn missing(&self, alloc: Global) -> Result<Vec<SeatNo>, Refusal>
        ensures numbers { IfOk result (λ list. list.items ≡ missing_in self.now) }
        ensures memory { IfErr result (λ why. why ≡ NoMemory) }
    {
        match self {
            QueueFault::SeatMissing { made, seats, .. } => missing_seats(
                alloc,
                *made,
                seats.as_slice(),
            ),
            _ => Ok(Vec::new(alloc)),
        }
    }
}

/// The name of the reason.
impl<Q, B, N: Ledgers> Display for QueueFault<Q, B, N> {
    ghost use Rattle.std.specs.Prelude.{Some};
    ghost use Rattle.meet_tickets.specs.Refusals.{name_of};
    ghost use Rattle.meet_sync.specs.Faults.{why_of};

    ghost output = { λ fault. Some (name_of (why_of fault)) };

    fn fmt<W: Write>(&self, f: &mut Formatter<W>) -> fmt::Result {
        f.write_str(self.why().name())
    }
}

/// The reason alone: what is returned need not be one that can be shown.
impl<Q, B, N: Ledgers> Debug for QueueFault<Q, B, N> {
    fn fmt<W: Write>(&self, f: &mut Formatter<W>) -> fmt::Result {
        write!(f, "QueueFault({})", self.why())
    }
}

impl<Q: Drop, B: Drop, N: Ledgers> QueueFault<Q, B, N> {
    /// Returns the reason alone, and drops the queue or its log, and the seats: match the fault to keep them.
    pub fn into_why(self) -> Refusal
        ensures { result ≡ why_of self }
    {
        self.why()
    }
}

impl<O: QueueLeaves, G: Drop, N: Ledgers> Queue<O, G, N> {
    /// Closes the queue: takes all seats, free or with an open ticket, in any order, and returns the final log (the
    /// chronicle) with the items that are left. The threads' calls, however they interleaved, have one legal history,
    /// in which each seat's calls stand once, in the seat's order, and no others. The records are compared with the
    /// seats' receipts.
    ///
    /// # Errors
    /// - SeatMissing, exactly if fewer seats are given back than were made; queue and seats are returned.
    /// - Memory, if an allocation fails; queue and seats are returned.
    /// - Differs, at the least seat whose receipts aren't its records; the log (the book) and the seats are returned.
    ///
    /// # Example
    /// From `crates/examples/src/pairs.rt`:
    ///
    ///     backs.push_reserved(Back::Free(first));
    ///     backs.push_reserved(Back::Free(second));
    ///     match queue.close(alloc, backs) {
    ///         Ok(chronicle) => Ok(chronicle.left.len()),
    ///         Err(fault) => Err(fault.into_why()),
    ///     }
    pub fn close(
        self,
        alloc: Global,
        seats: Vec<Back<Deed, N>>,
    ) -> Result<Chronicle<O::Item>, QueueFault<Self, Book<O>, N>>
        ensures history { IfOk result (λ c. IsChronicle O.Item.mark_of O.kind c.base c.records.items
            (map (λ list. list.items) c.lists.items) c.left.items) }
        ensures lists { IfOk result (λ c. (ordered : List (Back Deed N)) × AreOrdered seats.items ordered
            × (map (λ list. list.items) c.lists.items ≡ map list_of ordered)) }
        ensures count { IfOk result (λ c. vec_len c.lists ≡ self) }
        ensures shares { IfOk result (λ c. c.base.gone + length c.records.items ≡ shares_in seats.items) }
        ensures folded { IfOk result (λ c. c.base.gone ≡ folded_in seats.items) }
        ensures few { IfOk result (λ c. c.base.gone + length c.records.items < 2 ^ 64) }
        ensures cap { IfOk result (λ c. length c.records.items ≤ N.cap) }
        ensures fault { IfErr result (λ fault. QueueFaultFits self seats.items fault) }
    {
        let Queue { place } = self;
        match place.close(alloc, seats) {
            Ok(closed) => {
                let Closed {
                    base,
                    records,
                    lists,
                    left,
                } = closed;
                Ok(Chronicle {
                    base,
                    records,
                    lists,
                    left,
                })
            }
            Err(fault) => match fault {
                CloseFault::SeatMissing {
                    have,
                    made,
                    place,
                    seats,
                } => Err(QueueFault::SeatMissing {
                    have,
                    made,
                    queue: Queue { place },
                    seats,
                }),
                CloseFault::Memory { place, seats } => Err(QueueFault::Memory {
                    queue: Queue { place },
                    seats,
                }),
                CloseFault::Differs {
                    seat,
                    index,
                    book,
                    seats,
                } => Err(QueueFault::Differs {
                    seat,
                    index,
                    book,
                    seats,
                }),
            },
        }
    }
}
