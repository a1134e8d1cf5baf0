//! The records (log entries) of a place's steps.

ghost use Rattle.std.specs.Prelude.{◌≡◌};

use crate::names::{SeatNo, Ticket};
use crate::places::Side;

/// Why a request was withdrawn.
#[derive(Clone, Copy, PartialEq, Eq, PartialOrd, Ord, Hash, Debug)]
pub enum Cause {
    /// Its seat cancelled it.
    Cancelled,
    /// Its time ran out.
    Expired,
    /// Its seat was interrupted.
    Interrupted,
}

/// The event of a logged step (its deed). Items are named by their marks, partners by their tickets.
#[derive(Clone, Copy, PartialEq, Eq, Hash, Debug)]
pub enum Deed {
    /// A producer with this mark goes to the wait queue and waits.
    GiveWaits(u64),
    /// A producer with this mark meets this consumer.
    GiveMeets(u64, Ticket),
    /// A producer with this mark finds no consumer and doesn't wait.
    GiveFails(u64),
    /// An item with this mark is buffered, and its producer goes on.
    GiveKept(u64),
    /// A consumer goes to the wait queue and waits.
    TakeWaits,
    /// A consumer meets this producer, whose item has this mark.
    TakeMeets(u64, Ticket),
    /// A consumer finds no producer and doesn't wait.
    TakeFails,
    /// A request that would have waited is refused, since its seat has a pending interrupt.
    EntryInterrupted(Side),
    /// A producer that waited is completed as matched.
    Done,
    /// A consumer that waited collects the item with this mark from this producer.
    Got(u64, Ticket),
    /// A request is withdrawn.
    Withdrawn(Cause),
    /// This seat is interrupted: its waiting request, or else its interrupt becomes pending.
    Interrupt(SeatNo),
}

impl Deed {
    ghost use Rattle.meet_tickets.specs.BySeat.{is_request};

    /// Returns true if this is a request's deed: it enters a ticket. The others complete one, or interrupt.
    pub fn is_request(&self) -> bool
        ensures { result ≡ is_request self.now }
    {
        !matches!(
            self,
            Deed::Done | Deed::Got(_, _) | Deed::Withdrawn(_) | Deed::Interrupt(_)
        )
    }
}

/// One logged step of a place (a log entry).
#[derive(Clone, Copy, PartialEq, Eq, Hash, Debug)]
pub struct Record<D> {
    /// The seat that made it.
    pub seat: SeatNo,
    /// The ticket of the request that it is about; of an interrupt, the ticket that it cut. 0 if there is none.
    pub ticket: Ticket,
    /// What it did.
    pub deed: D,
}
