//! A seat's calls of a queue, and their results.

ghost use Rattle.std.specs.Prelude.{◌≡◌};

use crate::answers::{Followed, Gave, Interrupted, Offered, Polled, Put, TakenBack, Took};
use meet_tickets::{SeatNo, Ticket};

/// A call of a queue, of any kind.
#[derive(Debug, Drop)]
pub enum QueueCall<T> {
    /// `BlockingQueue.put`: a transfer queue buffers the item, a synchronous queue waits for a consumer, as with a
    /// give.
    Put(T),
    /// Gives an item, and waits for a consumer.
    Give(T),
    /// Gives an item to a consumer that waits.
    Offer(T),
    /// Takes an item, and waits for a producer.
    Take,
    /// Takes an item from a producer that is there.
    Poll,
    /// Follows the seat's open ticket up.
    FollowUp(Ticket),
    /// Takes the seat's open ticket back.
    Cancel(Ticket),
    /// Takes the seat's open ticket back, since its time ran out.
    Expire(Ticket),
    /// `Thread.interrupt` of this seat.
    Interrupt(SeatNo),
}

impl<T> QueueCall<T> {
    ghost use Rattle.meet_core.specs.QueueSteps.{item_in, queue_need, queue_room};

    /// Returns the item that it brings.
    pub fn into_item(self) -> Option<T>
        ensures { result ≡ item_in self }
    {
        match self {
            QueueCall::Put(item) | QueueCall::Give(item) | QueueCall::Offer(item) => Some(item),
            QueueCall::Take | QueueCall::Poll | QueueCall::Interrupt(_) => None,
            QueueCall::FollowUp(_) | QueueCall::Cancel(_) | QueueCall::Expire(_) => None,
        }
    }

    /// Returns how many records this call may need.
    pub fn need(&self) -> u64
        ensures { result ≡ queue_need self.now }
    {
        match self {
            QueueCall::Put(_) | QueueCall::Give(_) | QueueCall::Offer(_) => 2,
            QueueCall::Take | QueueCall::Poll => 2,
            QueueCall::Interrupt(_) => 1,
            QueueCall::FollowUp(_) | QueueCall::Cancel(_) | QueueCall::Expire(_) => 0,
        }
    }

    /// Returns how many nodes of the wait queue this call may need.
    pub fn room(&self) -> u64
        ensures { result ≡ queue_room self.now }
    {
        match self {
            QueueCall::Put(_) | QueueCall::Give(_) | QueueCall::Take => 1,
            QueueCall::Offer(_) | QueueCall::Poll | QueueCall::Interrupt(_) => 0,
            QueueCall::FollowUp(_) | QueueCall::Cancel(_) | QueueCall::Expire(_) => 0,
        }
    }
}

/// The result of a call.
#[derive(Debug, Drop)]
pub enum QueueAnswer<T> {
    /// Of a put, at a queue that buffers items.
    Put(Put<T>),
    /// Of a give, or of a put that waits.
    Gave(Gave<T>),
    /// Of an offer.
    Offered(Offered<T>),
    /// Of a take.
    Took(Took<T>),
    /// Of a poll.
    Polled(Polled<T>),
    /// Of a follow-up.
    Followed(Followed<T>),
    /// Of a cancel or an expiry.
    TakenBack(TakenBack<T>),
    /// Of an interrupt.
    Interrupted(Interrupted),
}

impl<T> QueueAnswer<T> {
    /// Returns true if the call matched or interrupted a request, so that another seat may go on.
    pub fn frees(&self) -> bool {
        match self {
            QueueAnswer::Put(put) => match put {
                Put::Meets(_, _) => true,
                Put::Kept(_) | Put::Fails(_, _) => false,
            },
            QueueAnswer::Gave(gave) => match gave {
                Gave::Meets(_, _) => true,
                Gave::Waits(_) | Gave::EntryInterrupted(_, _) => false,
            },
            QueueAnswer::Offered(offered) => match offered {
                Offered::Meets(_, _) => true,
                Offered::Fails(_, _) => false,
            },
            QueueAnswer::Took(took) => match took {
                Took::Meets(_, _, _) => true,
                Took::Waits(_) | Took::EntryInterrupted(_) => false,
            },
            QueueAnswer::Polled(polled) => match polled {
                Polled::Meets(_, _, _) => true,
                Polled::Fails(_) => false,
            },
            QueueAnswer::Interrupted(interrupted) => match interrupted {
                Interrupted::Cut(_) => true,
                Interrupted::Flagged => false,
            },
            QueueAnswer::Followed(_) | QueueAnswer::TakenBack(_) => false,
        }
    }
}
