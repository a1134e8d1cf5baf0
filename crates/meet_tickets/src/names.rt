//! Tickets (request ids) and seat numbers: the two kinds of number by which a place's records name things.

ghost use Rattle.std.specs.Prelude.{◌≡◌, ℕ, ◌≤◌, ◌<◌, SomeIff};
ghost use Rattle.meet_tickets.specs.Limits.{most_seats, last_ticket};

use crate::limits::{LAST_TICKET, MOST_SEATS};
use std::marker::Model;

/// A request id (a ticket), 1 to 2^63 - 1; 0 names no ticket.
#[derive(Clone, Copy, PartialEq, Eq, PartialOrd, Ord, Hash, Debug)]
pub struct Ticket {
    number: u64,
}

impl Model for Ticket {
    ghost Value = { ℕ };

    ghost view = { λ ticket. ticket.number };

    ghost invariant = { λ ticket. ticket.number ≤ last_ticket };

    ghost inverse = { λ number. record { number = number } };
}

impl Ticket {
    /// Returns the ticket of this number, or None if the number is 2^63 or more.
    pub fn new(number: u64) -> Option<Self>
        ensures { SomeIff result (number ≤ last_ticket) number }
    {
        if number <= LAST_TICKET {
            Some(Ticket { number })
        } else {
            None
        }
    }

    /// Returns the ticket's number.
    pub fn number(&self) -> u64
        ensures value { result ≡ self.now }
        ensures in_range { self.now ≤ last_ticket }
    {
        self.number
    }
}

/// The number of a seat, 0 to 65,535.
#[derive(Clone, Copy, PartialEq, Eq, PartialOrd, Ord, Hash, Debug)]
pub struct SeatNo {
    number: u64,
}

impl Model for SeatNo {
    ghost Value = { ℕ };

    ghost view = { λ seat. seat.number };

    ghost invariant = { λ seat. seat.number < most_seats };

    ghost inverse = { λ number. record { number = number } };
}

impl SeatNo {
    /// Returns the seat number of this number, or None if it is 65,536 or more.
    pub fn new(number: u64) -> Option<Self>
        ensures { SomeIff result (number < most_seats) number }
    {
        if number < MOST_SEATS {
            Some(SeatNo { number })
        } else {
            None
        }
    }

    /// Returns the number.
    pub fn number(&self) -> u64
        ensures value { result ≡ self.now }
        ensures in_range { self.now < most_seats }
    {
        self.number
    }
}
