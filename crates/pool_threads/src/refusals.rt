//! The errors of a pool's calls, with all that is returned. None of these is an error type, and no `From` makes one a
//! `Refusal`: so a `?` returns it whole or doesn't compile.

ghost use Rattle.std.specs.Prelude.{◌≡◌, IfOk, IfErr};
ghost use Rattle.meet_tickets.specs.declared.refusals.Refusal.TheVariants.{Memory as NoMemory};
ghost use Rattle.pool_threads.specs.Faults.{missing_in, why_of};

use crate::jobs::{Job, Work};
use crate::ledgers::PoolLedgers;
use crate::pool::Pool;
use meet_book::Book;
use meet_place::{Back, Ledgers, Seat, missing_seats};
use meet_tickets::{Refusal, SeatNo};
use pool_core::{PoolCore, PoolDeed};
use std::alloc::Global;
use std::collections::VecDeque;
use std::fmt;
use std::fmt::{Debug, Display, Formatter, Write};

/// The error of `execute`: the seat is returned, and the job. After NoThread the job is returned exactly if its worker
/// was started with it; otherwise it is buffered. Its text is the name of the reason.
#[derive(Drop)]
pub struct PoolRefused<C, N: Ledgers> {
    /// The reason.
    pub why: Refusal,
    /// The seat; after NoThread with the receipt of the job's record.
    pub seat: Seat<PoolDeed<u64>, N>,
    /// The job, if it isn't buffered.
    pub job: Option<Job<C>>,
}

/// The name of the reason.
impl<C, N: Ledgers> Display for PoolRefused<C, N> {
    ghost use Rattle.std.specs.Prelude.{Some};
    ghost use Rattle.meet_tickets.specs.Refusals.{name_of};

    ghost output = { λ refused. Some (name_of refused.why) };

    fn fmt<O: Write>(&self, f: &mut Formatter<O>) -> fmt::Result {
        f.write_str(self.why.name())
    }
}

/// The reason alone: what is returned need not be one that can be shown.
impl<C, N: Ledgers> Debug for PoolRefused<C, N> {
    fn fmt<O: Write>(&self, f: &mut Formatter<O>) -> fmt::Result {
        write!(f, "PoolRefused({})", self.why)
    }
}

impl<C: Drop, N: Ledgers> PoolRefused<C, N> {
    /// Returns the reason alone, and drops the seat and the job: match the error to keep them, since a pool is closed
    /// with all of its seats.
    pub fn into_why(self) -> Refusal
        ensures { result ≡ self.why }
    {
        let PoolRefused { why, .. } = self;
        why
    }
}

/// The error of a seat's call: the seat is returned. Its text is the name of the reason.
// The seat stands first, as in what a call that isn't refused answers, so that it lies at the same place in both. In
// `PoolRefused` it doesn't: there the job would come to lie at two places.
#[derive(Drop)]
pub struct SeatRefused<N: Ledgers> {
    /// The seat, as it was; after `tend` without the receipts for what was compacted before.
    pub seat: Seat<PoolDeed<u64>, N>,
    /// The reason.
    pub why: Refusal,
}

/// The name of the reason.
impl<N: Ledgers> Display for SeatRefused<N> {
    ghost use Rattle.std.specs.Prelude.{Some};
    ghost use Rattle.meet_tickets.specs.Refusals.{name_of};

    ghost output = { λ refused. Some (name_of refused.why) };

    fn fmt<O: Write>(&self, f: &mut Formatter<O>) -> fmt::Result {
        f.write_str(self.why.name())
    }
}

/// The reason alone.
impl<N: Ledgers> Debug for SeatRefused<N> {
    fn fmt<O: Write>(&self, f: &mut Formatter<O>) -> fmt::Result {
        write!(f, "SeatRefused({})", self.why)
    }
}

impl<N: Ledgers> SeatRefused<N> {
    /// Returns the reason alone, and drops the seat: match the error to keep it, since a pool is closed with all of its
    /// seats.
    pub fn into_why(self) -> Refusal
        ensures { result ≡ self.why }
    {
        let SeatRefused { why, seat: _ } = self;
        why
    }
}

/// The error of a pool that wasn't closed. Its text is the name of the reason.
#[derive(Drop)]
pub enum PoolFault<W: Work, C, G, S, N: PoolLedgers> {
    /// Fewer seats were given back, or lie in the pool, than were made. The pool and the seats are returned.
    SeatMissing {
        /// How many were given back, or lie in the pool.
        have: u64,
        /// How many were made.
        made: u64,
        /// The pool.
        pool: Pool<W, C, G, S, N>,
        /// The seats that were given back.
        seats: Vec<Back<PoolDeed<u64>, N>>,
    },
    /// An allocation failed. The pool and the seats are returned.
    Memory {
        /// The pool.
        pool: Pool<W, C, G, S, N>,
        /// The seats that were given back.
        seats: Vec<Back<PoolDeed<u64>, N>>,
    },
    /// The records of a seat aren't those of its receipts. The log (the book) is returned, out of its lock, with all
    /// seats and the buffered jobs.
    Differs {
        /// The least such seat.
        seat: SeatNo,
        /// The first index at which they differ, counted from 0 among the seat's records.
        index: u64,
        /// The log.
        book: Book<PoolCore<u64>>,
        /// The seats of callers and workers, in the order of their numbers.
        seats: Vec<Back<PoolDeed<u64>, N>>,
        /// The buffered jobs, in order of arrival.
        left: VecDeque<Job<C>>,
    },
}

impl<W: Work, C, G, S, N: PoolLedgers> PoolFault<W, C, G, S, N> {
    /// Returns the reason: SeatMissing, Memory or Differs.
    pub fn why(&self) -> Refusal
        ensures { result ≡ why_of self.now }
    {
        match self {
            PoolFault::SeatMissing { .. } => Refusal::SeatMissing,
            PoolFault::Memory { .. } => Refusal::Memory,
            PoolFault::Differs { .. } => Refusal::Differs,
        }
    }

    /// Returns the numbers of those of `callers` callers' seats that weren't given back, in rising order; none if no
    /// seat is missing.
    ///
    /// # Errors
    /// - Memory, if an allocation fails.
    pub fn missing(&self, alloc: Global, callers: u64) -> Result<Vec<SeatNo>, Refusal>
        ensures numbers { IfOk result (λ list. list.items ≡ missing_in callers self.now) }
        ensures memory { IfErr result (λ why. why ≡ NoMemory) }
    {
        match self {
            PoolFault::SeatMissing { seats, .. } => missing_seats(alloc, callers, seats.as_slice()),
            _ => Ok(Vec::new(alloc)),
        }
    }
}

/// The name of the reason.
impl<W: Work, C, G, S, N: PoolLedgers> Display for PoolFault<W, C, G, S, N> {
    ghost use Rattle.std.specs.Prelude.{Some};
    ghost use Rattle.meet_tickets.specs.Refusals.{name_of};
    ghost use Rattle.pool_threads.specs.Faults.{why_of};

    ghost output = { λ fault. Some (name_of (why_of fault)) };

    fn fmt<O: Write>(&self, f: &mut Formatter<O>) -> fmt::Result {
        f.write_str(self.why().name())
    }
}

/// The reason alone: what is returned need not be one that can be shown.
impl<W: Work, C, G, S, N: PoolLedgers> Debug for PoolFault<W, C, G, S, N> {
    fn fmt<O: Write>(&self, f: &mut Formatter<O>) -> fmt::Result {
        write!(f, "PoolFault({})", self.why())
    }
}

impl<W: Work, C: Drop, G: Drop, S: Drop, N: PoolLedgers> PoolFault<W, C, G, S, N> {
    /// Returns the reason alone, and drops the pool or its log, the seats and the buffered jobs: match the fault to
    /// keep them.
    pub fn into_why(self) -> Refusal
        ensures { result ≡ why_of self }
    {
        self.why()
    }
}
