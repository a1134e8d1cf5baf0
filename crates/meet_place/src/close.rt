//! The end of a place.

ghost use Rattle.std.specs.Prelude.{◌≡◌, ◌+◌, ◌<◌, ◌≤◌, ◌^◌, List, length, map, IfOk, IfErr, vec_len};
ghost use Rattle.meet_book.specs.Listed.{AreListed};
ghost use Rattle.meet_place.specs.Backs.{list_of, AreOrdered, shares_in, folded_in};
ghost use Rattle.meet_place.specs.Faults.{FaultFits, missing_in, why_of};
ghost use Rattle.meet_tickets.specs.declared.refusals.Refusal.TheVariants.{Memory as NoMemory};
ghost use Rattle.meet_place.specs.declared.seats.Back.{Back};

use crate::ledgers::Ledgers;
use crate::missing::missing_seats;
use crate::place::Place;
use crate::seats::Back;
use crate::settling::{SeatRoom, Settled, Unsettled, settle};
use meet_book::{Book, Leaves, Object, Receipt, Same};
use meet_tickets::{Record, Refusal, SeatNo};
use std::alloc::Global;
use std::fmt;
use std::fmt::{Debug, Display, Formatter, Write};

/// What a place leaves after it is closed.
#[derive(Drop)]
pub struct Closed<O: Leaves> {
    /// The snapshot of the compacted records.
    pub base: O::Base,
    /// The records since, in order.
    pub records: Vec<Record<O::Deed>>,
    /// The receipts of each seat, in the order of their numbers.
    pub lists: Vec<Vec<Receipt<O::Deed>>>,
    /// What was left in the place.
    pub left: Vec<O::Left>,
}

/// The error of a place that wasn't closed, with all that is returned. Its text is the name of the reason. It is no
/// error type: a `?` returns it whole or doesn't compile.
#[derive(Drop)]
pub enum CloseFault<O: Object, G, N: Ledgers> {
    /// Fewer seats were given back than were made. The place and the seats are returned.
    SeatMissing {
        /// How many were given back.
        have: u64,
        /// How many were made.
        made: u64,
        /// The place, as it was.
        place: Place<O, G, N>,
        /// The seats that were given back.
        seats: Vec<Back<O::Deed, N>>,
    },
    /// An allocation failed. The place and the seats are returned.
    Memory {
        /// The place, as it was.
        place: Place<O, G, N>,
        /// The seats that were given back.
        seats: Vec<Back<O::Deed, N>>,
    },
    /// The records of a seat aren't those of its receipts. The book is returned, out of its lock, and the seats.
    Differs {
        /// The least such seat.
        seat: SeatNo,
        /// The first index at which they differ, counted from 0 among the seat's records.
        index: u64,
        /// The log.
        book: Book<O>,
        /// The seats, in the order of their numbers.
        seats: Vec<Back<O::Deed, N>>,
    },
}

impl<O: Object, G, N: Ledgers> CloseFault<O, G, N> {
    /// Returns the reason: SeatMissing, Memory or Differs.
    pub fn why(&self) -> Refusal
        ensures { result ≡ why_of self.now }
    {
        match self {
            CloseFault::SeatMissing { .. } => Refusal::SeatMissing,
            CloseFault::Memory { .. } => Refusal::Memory,
            CloseFault::Differs { .. } => Refusal::Differs,
        }
    }

    /// Returns the numbers of the seats that are missing, in rising order; none if no seat is.
    ///
    /// # Errors
    /// - Memory, if an allocation fails.
    pub fn missing(&self, alloc: Global) -> Result<Vec<SeatNo>, Refusal>
        ensures numbers { IfOk result (λ list. list.items ≡ missing_in self.now) }
        ensures memory { IfErr result (λ why. why ≡ NoMemory) }
    {
        match self {
            CloseFault::SeatMissing { made, seats, .. } => missing_seats(
                alloc,
                *made,
                seats.as_slice(),
            ),
            _ => Ok(Vec::new(alloc)),
        }
    }
}

/// The name of the reason.
impl<O: Object, G, N: Ledgers> Display for CloseFault<O, G, N> {
    ghost use Rattle.std.specs.Prelude.{Some};
    ghost use Rattle.meet_tickets.specs.Refusals.{name_of};
    ghost use Rattle.meet_place.specs.Faults.{why_of};

    ghost output = { λ fault. Some (name_of (why_of fault)) };

    fn fmt<W: Write>(&self, f: &mut Formatter<W>) -> fmt::Result {
        f.write_str(self.why().name())
    }
}

/// The reason alone: what is returned need not be one that can be shown.
impl<O: Object, G, N: Ledgers> Debug for CloseFault<O, G, N> {
    fn fmt<W: Write>(&self, f: &mut Formatter<W>) -> fmt::Result {
        write!(f, "CloseFault({})", self.why())
    }
}

impl<O: Object + Drop, G: Drop, N: Ledgers> CloseFault<O, G, N>
where
    O::Base: Drop,
    O::Deed: Drop,
{
    /// Returns the reason alone, and drops the place or its book, and the seats: match the fault to keep them.
    pub fn into_why(self) -> Refusal
        ensures { result ≡ why_of self }
    {
        self.why()
    }
}

impl<O: Leaves, G: Drop, N: Ledgers> Place<O, G, N>
where
    O::Base: Drop,
    O::Deed: Same + Drop,
{
    /// Closes the place: takes all seats back, in any order, compares the records with their receipts, and takes out
    /// what is left.
    ///
    /// # Errors
    /// - SeatMissing, exactly if fewer seats are given back than were made.
    /// - Memory, if an allocation fails.
    /// - Differs, if a seat's receipts aren't its records.
    pub fn close(
        self,
        alloc: Global,
        seats: Vec<Back<O::Deed, N>>,
    ) -> Result<Closed<O>, CloseFault<O, G, N>>
        ensures listed { IfOk result (λ c. AreListed (O.gone_of c.base) c.records.items
            (map (λ list. list.items) c.lists.items)) }
        ensures first { IfOk result (λ c. O.gone_of c.base ≡ 0 → c.base ≡ O.no_base) }
        ensures legal { IfOk result (λ c. (object : O) × (O.seat_count_of object ≡ N.parts)
            × O.leads c.base c.records.items object) }
        ensures left { IfOk result (λ c. O.are_left c.base c.records.items c.left.items) }
        ensures lists { IfOk result (λ c. (ordered : List (Back O.Deed N)) × AreOrdered seats.items ordered
            × (map (λ list. list.items) c.lists.items ≡ map list_of ordered)) }
        ensures count { IfOk result (λ c. vec_len c.lists ≡ self) }
        ensures shares { IfOk result (λ c. O.gone_of c.base + length c.records.items ≡ shares_in seats.items) }
        ensures folded { IfOk result (λ c. O.gone_of c.base ≡ folded_in seats.items) }
        ensures few { IfOk result (λ c. O.gone_of c.base + length c.records.items < 2 ^ 64) }
        ensures cap { IfOk result (λ c. length c.records.items ≤ N.cap) }
        ensures fault { IfErr result (λ fault. FaultFits O.gone_of self seats.items fault) }
    {
        let made = self.seats();
        let have = seats.len() as u64;
        if have < made {
            return Err(CloseFault::SeatMissing {
                have,
                made,
                place: self,
                seats,
            });
        }
        let Some(room) = SeatRoom::new(alloc, seats.len()) else {
            return Err(CloseFault::Memory { place: self, seats });
        };
        let (gates, shared) = self.into_shared();
        let mut left = Vec::new(alloc);
        if left.reserve(shared.probe().left() as usize).is_err() {
            left.destroy_empty();
            let place = Place::of_shared(gates, shared);
            return Err(CloseFault::Memory { place, seats });
        }
        match settle(shared, seats, room) {
            Ok(settled) => {
                let Settled {
                    object,
                    base,
                    records,
                    lists,
                } = settled;
                Ok(Closed {
                    base,
                    records,
                    lists,
                    left: object.leave(left),
                })
            }
            Err(unsettled) => {
                let Unsettled {
                    seat,
                    index,
                    book,
                    seats,
                } = unsettled;
                left.destroy_empty();
                Err(CloseFault::Differs {
                    seat,
                    index,
                    book,
                    seats,
                })
            }
        }
    }
}
