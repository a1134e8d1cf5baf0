//! The results of a queue's calls.

ghost use Rattle.std.specs.Prelude.{◌≡◌};

use meet_tickets::{Hold, Ticket};

/// The result of a give: the first ticket is its own.
#[derive(Debug, Drop)]
pub enum Gave<T> {
    /// The producer waits in the wait queue.
    Waits(Ticket),
    /// The item went to the consumer with the second ticket.
    Meets(Ticket, Ticket),
    /// The producer would have waited, and was flagged: its item is returned.
    EntryInterrupted(Ticket, T),
}

/// The result of a put: the first ticket is its own.
#[derive(Debug, Drop)]
pub enum Put<T> {
    /// The item is buffered, and its producer goes on.
    Kept(Ticket),
    /// The item went to the consumer with the second ticket.
    Meets(Ticket, Ticket),
    /// No consumer was there, and no more items may be buffered: the item is returned.
    Fails(Ticket, T),
}

/// The result of a take: the first ticket is its own.
#[derive(Debug, Drop)]
pub enum Took<T> {
    /// The consumer waits in the wait queue.
    Waits(Ticket),
    /// The item came from the producer with the second ticket.
    Meets(Ticket, Ticket, T),
    /// The consumer would have waited, and was flagged.
    EntryInterrupted(Ticket),
}

/// The result of an offer: the first ticket is its own.
#[derive(Debug, Drop)]
pub enum Offered<T> {
    /// The item went to the consumer with the second ticket.
    Meets(Ticket, Ticket),
    /// No consumer was there: the item is returned.
    Fails(Ticket, T),
}

/// The result of a poll: the first ticket is its own.
#[derive(Debug, Drop)]
pub enum Polled<T> {
    /// The item came from the producer with the second ticket.
    Meets(Ticket, Ticket, T),
    /// No producer was there.
    Fails(Ticket),
}

/// The result of a follow-up.
#[derive(Debug, Drop)]
pub enum Followed<T> {
    /// The producer was matched.
    Done,
    /// The consumer was matched: the item came from the producer with this ticket.
    Got(Ticket, T),
    /// The request was interrupted; a producer's item is returned.
    Interrupted(Option<T>),
    /// The ticket still stands in the wait queue, and stays open.
    NotYet,
}

/// The result of a cancel or an expiry.
#[derive(Debug, Drop)]
pub enum TakenBack<T> {
    /// The ticket left the wait queue and ended; a producer's item is returned.
    Back(Option<T>),
    /// The ticket was matched or interrupted before, and stays open.
    Late,
}

/// The result of an interrupt.
#[derive(Clone, Copy, PartialEq, Eq, Debug)]
pub enum Interrupted {
    /// This ticket of the target's left the wait queue, and awaits its follow-up.
    Cut(Ticket),
    /// The target doesn't wait: its interrupt is pending (it is flagged).
    Flagged,
}

impl<T> Followed<T> {
    ghost use Rattle.meet_core.specs.Answers.{followed_by};

    /// What a seat that holds this learns.
    pub(crate) fn of(hold: Hold<T>) -> Self
        ensures { result ≡ followed_by hold }
    {
        match hold {
            Hold::Free | Hold::Waiting(_) => Followed::NotYet,
            Hold::Handed(_, _, _) => Followed::Done,
            Hold::Served(_, with, item) => Followed::Got(with, item),
            Hold::Cut(_, item) => Followed::Interrupted(item),
        }
    }
}
