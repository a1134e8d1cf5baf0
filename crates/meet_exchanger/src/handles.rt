//! The handles by which the threads of a task call their exchanger.

ghost use Rattle.std.specs.Prelude.{◌≡◌, ⊤, ℕ, Option, IfSome, Some};
ghost use Rattle.meet_exchange.specs.Seats.{SeatView, ArenaView};
ghost use Rattle.meet_exchanger.specs.Tries.{MayTimeOut};
ghost use Rattle.meet_exchanger.specs.Handles.{CalledAs, item_of, told};

use meet_exchange::{Exchanged, Seat};
use meet_tickets::Marked;
use std::fmt;
use std::fmt::{Display, Formatter, Write};
use std::sync::Wait;
use std::time::Clock;

/// An exchange that came to no partner. Its text is the name of the reason. It is no error type: a `?` returns it whole
/// or doesn't compile.
#[derive(Debug, Drop)]
pub enum Unmet<T> {
    /// The time was up. The item is returned.
    TimedOut(T),
    /// A slot had its last round, of 2^44. The item is returned.
    Worn(T),
    /// The seat's list can't grow. The item is returned.
    Memory(T),
}

impl<T> Unmet<T> {
    /// Returns the item that the call brought.
    ///
    /// # Example
    /// From `crates/meet_exchanger_tests/src/runs.rt`:
    ///
    ///     Err(unmet) => unmet.into_item(),
    pub fn into_item(self) -> T
        ensures { result ≡ item_of self }
    {
        match self {
            Unmet::TimedOut(item) => item,
            Unmet::Worn(item) => item,
            Unmet::Memory(item) => item,
        }
    }

    /// Returns the name of the reason.
    pub fn why(&self) -> &'static str {
        match self {
            Unmet::TimedOut(_) => "TimedOut",
            Unmet::Worn(_) => "Worn",
            Unmet::Memory(_) => "Memory",
        }
    }
}

/// The name of the reason.
impl<T> Display for Unmet<T> {
    fn fmt<W: Write>(&self, f: &mut Formatter<W>) -> fmt::Result {
        f.write_str(self.why())
    }
}

/// The seat of an exchange that has ended, and what a handle returns of it.
pub(crate) fn apart<T>(end: Exchanged<T>) -> (Seat<T>, Result<T, Unmet<T>>)
    ensures { result ≡ told end }
{
    match end {
        Exchanged::Swapped(seat, item) => (seat, Ok(item)),
        Exchanged::TimedOut(seat, item) => (seat, Err(Unmet::TimedOut(item))),
        Exchanged::Worn(seat, item) => (seat, Err(Unmet::Worn(item))),
        Exchanged::Memory(seat, item) => (seat, Err(Unmet::Memory(item))),
    }
}

/// Makes the exchanges of one thread, one after another (a worker's handle).
pub trait ExchangerHandle<T: Marked> {
    /// The runtime handle for blocking and the clock.
    type Runtime: Wait + Clock;

    /// Its exchanger.
    ghost site: { ArenaView };

    /// Its seat, which is absent only during a call.
    ghost seat_of: { Self → Option SeatView };

    /// Returns the number of its seat, from 0.
    fn number(&self) -> u64
        ensures { IfSome (seat_of self.now) (λ seat. result ≡ seat.number) };

    /// Returns the number of seats of its exchanger.
    fn seats(&self) -> u64
        ensures { result ≡ site.seats };

    /// Exchanges an item for another seat's, and waits for one, for `limit` milliseconds at most if there is a limit.
    ///
    /// # Errors
    /// The item is returned.
    /// - TimedOut, if no partner came in time, and only with a limit.
    /// - Worn, if a slot had its last round, of 2^44.
    /// - Memory, if the seat's list can't grow.
    fn exchange_within(&mut self, item: T, limit: Option<u64>) -> Result<T, Unmet<T>>
        ensures called { CalledAs T.mark_of site.slots (MayTimeOut limit) (seat_of self.old) (seat_of self.new)
            (T.mark_of item) result };

    /// Exchanges an item for another seat's, and waits until one comes.
    ///
    /// # Errors
    /// - Worn or Memory, as `exchange_within`.
    ///
    /// # Example
    /// From `crates/meet_exchanger_tests/src/runs.rt`:
    ///
    ///     item = match exchanger.exchange(item) {
    ///         Ok(other) => other,
    ///         Err(unmet) => unmet.into_item(),
    ///     };
    ///
    /// Java: `Exchanger.exchange(V)`.
    final fn exchange(&mut self, item: T) -> Result<T, Unmet<T>>
        ensures called { CalledAs T.mark_of site.slots ⊥ (seat_of self.old) (seat_of self.new) (T.mark_of item) result }
    {
        self.exchange_within(item, None)
    }

    /// Exchanges an item for another seat's, and waits for one for `milliseconds` at most. With 0 it doesn't wait.
    ///
    /// # Errors
    /// - TimedOut, Worn or Memory, as `exchange_within`.
    ///
    /// # Example
    /// From `crates/examples/src/exchanger.rt`:
    ///
    ///     exchanger.exchange_for(exchanger.number(), 60_000) // milliseconds
    ///
    /// Java: `Exchanger.exchange(V, long, TimeUnit)`.
    final fn exchange_for(&mut self, item: T, milliseconds: u64) -> Result<T, Unmet<T>>
        ensures called { CalledAs T.mark_of site.slots ⊤ (seat_of self.old) (seat_of self.new) (T.mark_of item) result }
    {
        self.exchange_within(item, Some(milliseconds))
    }
}
