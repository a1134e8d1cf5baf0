//! Numbers, read as the names of the library.

ghost use Rattle.std.specs.Prelude.{◌≡◌};
ghost use Rattle.meet_c.specs.Names.{ticket_in, seat_in, call_of, ending_of, kind_of};

use meet_core::QueueCall;
use meet_tickets::{Kind, Order, SeatNo, Ticket};

/// Reads the ticket of this number.
#[tactic(auto, unfolding(crate::specs::Names::ticket_in))]
pub(crate) fn ticket_in(number: u64) -> Option<Ticket>
    ensures { result ≡ ticket_in number }
{
    Ticket::new(number)
}

/// Reads the seat of this number.
#[tactic(auto, unfolding(crate::specs::Names::seat_in))]
pub(crate) fn seat_in(number: u64) -> Option<SeatNo>
    ensures { result ≡ seat_in number }
{
    SeatNo::new(number)
}

/// Reads an ending, or an interrupt, by its number.
#[tactic(auto, unfolding(crate::specs::Names::ending_of))]
fn read_ending(verb: u64, value: u64) -> Option<QueueCall<u64>>
    ensures { result ≡ ending_of verb value }
{
    if verb == 6 {
        let ticket = ticket_in(value)?;
        Some(QueueCall::FollowUp(ticket))
    } else if verb == 7 {
        let ticket = ticket_in(value)?;
        Some(QueueCall::Cancel(ticket))
    } else if verb == 8 {
        let ticket = ticket_in(value)?;
        Some(QueueCall::Expire(ticket))
    } else if verb == 9 {
        let target = seat_in(value)?;
        Some(QueueCall::Interrupt(target))
    } else {
        None
    }
}

/// Reads the call of this number, with its item, ticket or target.
#[tactic(auto, unfolding(crate::specs::Names::call_of))]
pub(crate) fn read_call(verb: u64, value: u64) -> Option<QueueCall<u64>>
    ensures { result ≡ call_of verb value }
{
    if verb == 1 {
        Some(QueueCall::Put(value))
    } else if verb == 2 {
        Some(QueueCall::Give(value))
    } else if verb == 3 {
        Some(QueueCall::Offer(value))
    } else if verb == 4 {
        Some(QueueCall::Take)
    } else if verb == 5 {
        Some(QueueCall::Poll)
    } else {
        read_ending(verb, value)
    }
}

/// Reads a kind of place: 1 fair, 2 unfair, 3 transfer. A bound of 0 is none.
#[tactic(auto, unfolding(crate::specs::Names::kind_of))]
pub(crate) fn read_kind(order: u64, bound: u64) -> Option<Kind>
    ensures { result ≡ kind_of order bound }
{
    let bound = if bound == 0 { None } else { Some(bound) };
    if order == 1 {
        Some(Kind {
            order: Order::Fair,
            bound,
        })
    } else if order == 2 {
        Some(Kind {
            order: Order::Unfair,
            bound,
        })
    } else if order == 3 {
        Some(Kind {
            order: Order::Transfer,
            bound,
        })
    } else {
        None
    }
}
