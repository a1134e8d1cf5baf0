//! The place that a script is about.

ghost use Rattle.std.specs.Prelude.{◌≡◌, ◌↔◌, IsTrue, IsSome, IfSome};
ghost use Rattle.meet_tickets.specs.Meeting.{FitsBound};
ghost use Rattle.meet_history.specs.Limits.{IsInLimits};

use meet_tickets::{Kind, LAST_TICKET, MOST_KEPT, MOST_RECORDS, MOST_SEATS};

/// The setup of a place.
#[derive(Clone, Copy, PartialEq, Eq, Debug)]
pub struct Setup {
    /// Its kind.
    pub kind: Kind,
    /// The number of its seats, 1 to 65,536.
    pub seats: u64,
    /// The capacity of its log in records, 1 to 1,048,576.
    pub cap: u64,
    /// Its first ticket, 1 to 2^63 - 1.
    pub first: u64,
}

/// Whether a place of this kind may have its bound.
fn fits_bound(kind: Kind) -> bool
    ensures { IsTrue result ↔ FitsBound kind.order kind.bound }
{
    match kind.bound {
        None => true,
        Some(most) => kind.order.keeps() && 1 <= most && most <= MOST_KEPT,
    }
}

impl Setup {
    /// Returns the setup of a place of this kind, with this many seats, 1 to 65,536, this first ticket, 1 to 2^63 - 1,
    /// and this capacity in records, 1 to 1,048,576. Only a transfer queue may have a bound, 1 to 1,048,576. Returns
    /// None if any of these is out of its limits.
    pub fn new(kind: Kind, seats: u64, first: u64, cap: u64) -> Option<Setup>
        ensures given { IfSome result (λ setup. setup
            ≡ record { kind = kind; seats = seats; cap = cap; first = first }) }
        ensures limits { IsSome result ↔ IsInLimits (record { kind = kind; seats = seats; cap = cap; first = first }) }
    {
        let setup = Setup {
            kind,
            seats,
            cap,
            first,
        };
        if setup.is_in_limits() {
            Some(setup)
        } else {
            None
        }
    }

    /// Whether each of its numbers is in its limits.
    fn is_in_limits(&self) -> bool
        ensures { IsTrue result ↔ IsInLimits self.now }
    {
        let seats = 1 <= self.seats && self.seats <= MOST_SEATS;
        let cap = 1 <= self.cap && self.cap <= MOST_RECORDS;
        let first = 1 <= self.first && self.first <= LAST_TICKET;
        seats && cap && first && fits_bound(self.kind)
    }
}
