//! Tickets by their numbers.

ghost use Rattle.std.specs.Prelude.{◌≡◌, ◌≤◌};
ghost use Rattle.meet_tickets.specs.Limits.{last_ticket};

use meet_tickets::Ticket;

/// Returns the ticket of this number, which there is.
#[inline(always)]
pub(crate) fn ticket_of(number: u64) -> Ticket
    requires { number ≤ last_ticket }
    ensures value { result ≡ number }
    ensures in_range { number ≤ last_ticket }
{
    Ticket::new(number).unwrap()
}
