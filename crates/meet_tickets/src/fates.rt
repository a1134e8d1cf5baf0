//! The outcome of a request, and what one record states of it.

ghost use Rattle.std.specs.Prelude.{◌≡◌, ◌==◌, ◌&&◌, nat_lt, is_some, None};
ghost use Rattle.std.specs.Prelude.{if◌then◌else◌};
ghost use Rattle.meet_tickets.specs.Fates.{named_by, meets_it, tells_of_meeting, withdrawn_by, interrupts};

use crate::names::Ticket;
use crate::records::{Cause, Deed, Record};

/// The outcome of a request (its fate), computed from the log alone (`specs/Fates`).
#[derive(Clone, Copy, PartialEq, Eq, Hash, Debug)]
pub enum Fate {
    /// No request has this ticket.
    Never,
    /// It found no counterpart, and didn't wait.
    Failed,
    /// It was refused at its entry, since its seat had a pending interrupt.
    EntryRefused,
    /// It met this ticket, and isn't completed; a request that didn't wait needs no completion.
    Paired(Ticket),
    /// It waited, met this ticket, and is completed.
    Collected(Ticket),
    /// It was withdrawn.
    Withdrawn(Cause),
    /// It was interrupted in the wait queue, and isn't completed.
    Cut,
    /// Its item is buffered.
    Kept,
    /// It waits in the wait queue.
    Waiting,
    /// It came before the base, which has no entry for it.
    Past,
}

impl Deed {
    /// Returns the ticket that a request names as its partner, if it met one.
    pub fn partner(&self) -> Option<Ticket>
        ensures { result ≡ named_by self.now }
    {
        match self {
            Deed::GiveMeets(_, partner) | Deed::TakeMeets(_, partner) => Some(*partner),
            _ => None,
        }
    }

    /// Returns true if it completes its ticket, which waited, as matched.
    pub fn tells_of_meeting(&self) -> bool
        ensures { result ≡ tells_of_meeting self.now }
    {
        matches!(self, Deed::Done | Deed::Got(_, _))
    }

    /// Returns true if it interrupts a seat.
    pub fn interrupts(&self) -> bool
        ensures { result ≡ interrupts self.now }
    {
        matches!(self, Deed::Interrupt(_))
    }
}

impl Record<Deed> {
    /// Returns true if it is a request that meets this ticket.
    pub fn meets(&self, ticket: Ticket) -> bool
        ensures { result ≡ meets_it ticket self.now }
    {
        match self.deed.partner() {
            Some(partner) => partner == ticket,
            None => false,
        }
    }

    /// Returns why it withdraws this ticket, if it does.
    pub fn takes_back(&self, ticket: Ticket) -> Option<Cause>
        ensures { result ≡ (if is_some (withdrawn_by self.now.deed) && (self.now.ticket == ticket)
            then withdrawn_by self.now.deed else None) }
    {
        match &self.deed {
            Deed::Withdrawn(cause) if self.ticket == ticket => Some(*cause),
            _ => None,
        }
    }

    /// Returns true if it interrupts this ticket. The record of an interrupt that becomes pending names ticket 0.
    pub fn cuts(&self, ticket: Ticket) -> bool
        ensures { result ≡ (interrupts self.now.deed && nat_lt 0 ticket && (self.now.ticket == ticket)) }
    {
        self.deed.interrupts() && ticket.number() > 0 && self.ticket == ticket
    }
}
