//! The ledgers of a queue whose order is chosen, and its sizes.

ghost use Rattle.std.specs.Prelude.{◌≡◌};
ghost use Rattle.meet_tickets.specs.Limits.{most_records};
ghost use Rattle.meet_tickets.specs.declared.places.Order.{Order};
ghost use Rattle.meet_tickets.specs.declared.places.Order.TheVariants.{Fair};

use meet_sync::Ledgers;
use std::marker::{Brand, Model, PhantomData};

/// Distinguishes the ledgers of one queue from those of others, and states the order that was chosen for it.
pub(crate) trait QueueLedgers: Ledgers {
    /// The order of the queue.
    ghost order: { Order };
}

impl QueueLedgers for Brand {
    ghost order = { Fair };
}

/// How many seats a queue has, whose log holds 1,048,576 records.
#[derive(Drop)]
pub(crate) struct SeatCount<N: Ledgers> {
    count: u64,
    of: PhantomData<N>,
}

impl<N: Ledgers> Model for SeatCount<N> {
    ghost use Rattle.std.specs.Prelude.{◌≡◌, ℕ};
    ghost use Rattle.meet_tickets.specs.Limits.{most_records};

    ghost Value = { ℕ };

    ghost view = { λ seats. seats.count };

    ghost invariant = { λ seats. (seats.count ≡ N.parts) × (N.cap ≡ most_records) };
}

impl<N: Ledgers> SeatCount<N> {
    /// This number of seats.
    pub(crate) fn new(count: u64) -> Self
        requires count { count ≡ N.parts }
        requires cap { N.cap ≡ most_records }
    {
        SeatCount {
            count,
            of: PhantomData,
        }
    }

    /// Returns the number.
    pub(crate) fn count(&self) -> u64
        ensures count { result ≡ N.parts }
        ensures cap { N.cap ≡ most_records }
    {
        self.count
    }
}
