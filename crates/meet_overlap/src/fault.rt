//! The errors of the checker: no verdict.

ghost use Rattle.std.specs.Prelude.{◌≡◌};
ghost use Rattle.meet_overlap.specs.declared.fault.Fault.TheVariants.{Memory};

use std::alloc::{AllocError, AllocFailed};

/// Why there is no verdict.
#[derive(Clone, Copy, PartialEq, Eq, Debug)]
pub enum Fault {
    /// An allocation failed.
    Memory,
    /// The limit of search steps wasn't enough.
    Limit,
    /// There are more calls than tickets.
    TicketsSpent,
    /// An order was found that can't be written as a history. It was never seen, and no proof states that it can't
    /// happen.
    Unsure,
}

impl From<AllocError> for Fault {
    ghost from_gives = { λ _ e. e ≡ Memory };

    fn from(_e: AllocError) -> Fault {
        Fault::Memory
    }
}

impl<T: Drop> From<AllocFailed<T>> for Fault {
    ghost from_gives = { λ _ e. e ≡ Memory };

    fn from(_e: AllocFailed<T>) -> Fault {
        Fault::Memory
    }
}
