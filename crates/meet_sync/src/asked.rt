//! What a seat asks of a queue, and the results. Each result returns the seat, free or with a pending request (an open
//! ticket).

ghost use Rattle.std.specs.Prelude.{◌≡◌};
ghost use Rattle.meet_sync.specs.Asking.{item_of, call_of, brought};
ghost use Rattle.meet_sync.specs.Ending.{end_of};

use meet_core::QueueCall;
use meet_place::{Ledgers, Pending, Seat};
use meet_tickets::{Deed, Marked, Refusal, Ticket};
use std::fmt;
use std::fmt::{Debug, Display, Formatter, Write};

/// A request, which a queue settles at once or lets wait.
#[derive(Debug, Drop)]
pub enum Request<T> {
    /// Gives an item. In a transfer queue it never waits, since the item is buffered: `LinkedTransferQueue.put`. In a
    /// synchronous queue it waits: `SynchronousQueue.put`.
    Put(T),
    /// Gives an item, and waits for a consumer: `SynchronousQueue.put`, `LinkedTransferQueue.transfer`.
    Give(T),
    /// Gives an item to a consumer that waits: `SynchronousQueue.offer`, `LinkedTransferQueue.tryTransfer`.
    Offer(T),
    /// Takes an item, and waits for a producer: `take` of both.
    Take,
    /// Takes an item from a producer that is there: `poll` of both.
    Poll,
}

/// The result of a request that was settled at once.
#[derive(Debug, Drop)]
pub enum Answer<T> {
    /// The item went to the consumer with this ticket.
    Gave(Ticket),
    /// The item came from the producer with this ticket.
    Got(Ticket, T),
    /// No counterpart was there; a producer's item is returned.
    Failed(Option<T>),
    /// The item is buffered, and its producer goes on.
    Kept,
    /// It would have waited, and its seat had a pending interrupt (was flagged); a producer's item is returned.
    EntryInterrupted(Option<T>),
}

/// A request that was made.
#[derive(Debug, Drop)]
pub enum Asked<T, N: Ledgers> {
    /// It was settled at once.
    Settled(Seat<Deed, N>, Answer<T>),
    /// It waits in the wait queue: its ticket is pending (open).
    Parked(Pending<Deed, N>),
}

/// The error of a call: the seat and the item are returned. Nothing was logged, but for the interrupts that
/// `interrupt_all` had made before. Its text is the name of the reason. It is no error type, and no `From` makes it a
/// `Refusal`: a `?` returns it whole or doesn't compile.
// The seat stands first, as in `Ended` and `Asked`, so that it lies at the same place in both variants of a result. Were
// it a word further here, each layer that hands a result on would take the seat's words apart, into one byte and seven.
#[derive(Drop)]
pub struct SeatRefused<T, N: Ledgers> {
    /// The seat as it was, with room for more receipts perhaps. After `interrupt_all` it has the receipts of the
    /// interrupts that were made; after `tend` the receipts for what was compacted before are dropped.
    pub seat: Seat<Deed, N>,
    /// The item that the call brought.
    pub item: Option<T>,
    /// The reason.
    pub why: Refusal,
}

/// The name of the reason.
impl<T, N: Ledgers> Display for SeatRefused<T, N> {
    ghost use Rattle.std.specs.Prelude.{Some};
    ghost use Rattle.meet_tickets.specs.Refusals.{name_of};

    ghost output = { λ refused. Some (name_of refused.why) };

    fn fmt<W: Write>(&self, f: &mut Formatter<W>) -> fmt::Result {
        f.write_str(self.why.name())
    }
}

/// The reason alone: what is returned need not be one that can be shown.
impl<T, N: Ledgers> Debug for SeatRefused<T, N> {
    fn fmt<W: Write>(&self, f: &mut Formatter<W>) -> fmt::Result {
        write!(f, "SeatRefused({})", self.why)
    }
}

impl<T: Drop, N: Ledgers> SeatRefused<T, N> {
    /// Returns the reason alone, and drops the seat and the item: match the error to keep them, since a queue is closed
    /// with all of its seats.
    pub fn into_why(self) -> Refusal
        ensures { result ≡ self.why }
    {
        self.why
    }
}

/// The result of a follow-up.
#[derive(Debug, Drop)]
pub enum Followed<T, N: Ledgers> {
    /// The producer was matched.
    Done(Seat<Deed, N>),
    /// The consumer was matched: the item came from the producer with this ticket.
    Got(Seat<Deed, N>, Ticket, T),
    /// The request was interrupted; a producer's item is returned.
    Interrupted(Seat<Deed, N>, Option<T>),
    /// The request still waits in the wait queue, and nothing was logged.
    NotYet(Pending<Deed, N>),
}

/// The result of a cancel or an expiry.
#[derive(Debug, Drop)]
pub enum TakenBack<T, N: Ledgers> {
    /// The request left the wait queue; a producer's item is returned.
    Back(Seat<Deed, N>, Option<T>),
    /// The request was matched or interrupted before, and nothing was logged: a follow-up completes it.
    Late(Pending<Deed, N>),
}

/// The result of an interrupt.
#[derive(Debug, Drop)]
pub enum Interrupted<N: Ledgers> {
    /// This request of the target's, which waited, was interrupted.
    Cut(Seat<Deed, N>, Ticket),
    /// The target doesn't wait: its interrupt is pending (it is flagged).
    Flagged(Seat<Deed, N>),
}

/// How a whole call ended.
#[derive(Debug, Drop)]
pub enum End<T> {
    /// The item went to the consumer with this ticket.
    Gave(Ticket),
    /// The item came from the producer with this ticket.
    Got(Ticket, T),
    /// No counterpart was there; a producer's item is returned.
    Failed(Option<T>),
    /// The item is buffered, and its producer goes on.
    Kept,
    /// It would have waited, and its seat had a pending interrupt (was flagged); a producer's item is returned.
    EntryInterrupted(Option<T>),
    /// The producer waited, and was matched.
    Done,
    /// The request waited, and was interrupted; a producer's item is returned.
    Interrupted(Option<T>),
    /// The request waited, and its time ran out; a producer's item is returned.
    TimedOut(Option<T>),
}

/// A seat, and how its call ended.
#[derive(Debug, Drop)]
pub struct Ended<T, N: Ledgers> {
    /// The seat, with the call's receipts.
    pub seat: Seat<Deed, N>,
    /// How the call ended.
    pub end: End<T>,
}

impl<T> Request<T> {
    /// Returns the item that it brings.
    pub fn into_item(self) -> Option<T>
        ensures { result ≡ item_of self }
    {
        match self {
            Request::Put(item) | Request::Give(item) | Request::Offer(item) => Some(item),
            Request::Take | Request::Poll => None,
        }
    }

    /// The call of a queue that makes it.
    pub(crate) fn into_call(self) -> QueueCall<T>
        ensures { result ≡ call_of self }
    {
        match self {
            Request::Put(item) => QueueCall::Put(item),
            Request::Give(item) => QueueCall::Give(item),
            Request::Offer(item) => QueueCall::Offer(item),
            Request::Take => QueueCall::Take,
            Request::Poll => QueueCall::Poll,
        }
    }
}

impl<T: Marked> Request<T> {
    /// The mark of the item that it brings.
    pub(crate) fn mark(&self) -> Option<u64>
        ensures { result ≡ brought T.mark_of self.now }
    {
        match self {
            Request::Put(item) | Request::Give(item) | Request::Offer(item) => Some(item.mark()),
            Request::Take | Request::Poll => None,
        }
    }
}

impl<T> Answer<T> {
    /// Returns the end of a whole call that was settled so.
    pub fn into_end(self) -> End<T>
        ensures { result ≡ end_of self }
    {
        match self {
            Answer::Gave(with) => End::Gave(with),
            Answer::Got(with, item) => End::Got(with, item),
            Answer::Failed(back) => End::Failed(back),
            Answer::Kept => End::Kept,
            Answer::EntryInterrupted(back) => End::EntryInterrupted(back),
        }
    }
}
