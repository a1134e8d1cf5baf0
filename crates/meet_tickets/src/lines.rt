//! The nodes of a place's wait queue, and what each seat holds.

ghost use Rattle.std.specs.Prelude.{◌≡◌};

use crate::names::{SeatNo, Ticket};
use crate::places::Side;

/// A node (an entry) of the wait queue: an unmatched ticket. A producer presents an item, a consumer none.
#[derive(Clone, Debug, Drop)]
pub struct Entry<T> {
    /// The ticket.
    pub ticket: Ticket,
    /// Its seat.
    pub seat: SeatNo,
    /// A producer's item.
    pub item: Option<T>,
    /// Whether the ticket is pending (open): its seat waits for it. The ticket of a buffered item isn't.
    pub waits: bool,
}

impl<T> Entry<T> {
    ghost use Rattle.meet_tickets.specs.Meeting.{is_on};

    /// Returns true if the node is of this side.
    pub fn is_on(&self, side: Side) -> bool
        ensures { result ≡ is_on side self.now }
    {
        match side {
            Side::Giver => self.item.is_some(),
            Side::Taker => self.item.is_none(),
        }
    }
}

/// The pending request (the open ticket) of a seat: one at most.
#[derive(Debug, Drop)]
pub enum Hold<T> {
    /// No request is pending.
    Free,
    /// This ticket stands in the wait queue.
    Waiting(Ticket),
    /// This producer's ticket was matched with that consumer, which got the item with this mark.
    Handed(Ticket, Ticket, u64),
    /// This consumer's ticket was matched with that producer, whose item is here.
    Served(Ticket, Ticket, T),
    /// This ticket was interrupted; a producer's item is here.
    Cut(Ticket, Option<T>),
}

impl<T> Hold<T> {
    ghost use Rattle.meet_tickets.specs.BySeat.{open_ticket, is_open, is_settled};

    /// Returns the open ticket, if there is one.
    pub fn open_ticket(&self) -> Option<Ticket>
        ensures { result ≡ open_ticket self.now }
    {
        match self {
            Hold::Free => None,
            Hold::Waiting(ticket) => Some(*ticket),
            Hold::Handed(ticket, _, _) => Some(*ticket),
            Hold::Served(ticket, _, _) => Some(*ticket),
            Hold::Cut(ticket, _) => Some(*ticket),
        }
    }

    /// Returns true if a ticket is open.
    pub fn is_open(&self) -> bool
        ensures { result ≡ is_open self.now }
    {
        self.open_ticket().is_some()
    }

    /// Returns true if a ticket is open and not in the wait queue: matched, or interrupted.
    pub fn is_settled(&self) -> bool
        ensures { result ≡ is_settled self.now }
    {
        match self {
            Hold::Free | Hold::Waiting(_) => false,
            Hold::Handed(_, _, _) | Hold::Served(_, _, _) | Hold::Cut(_, _) => true,
        }
    }
}
