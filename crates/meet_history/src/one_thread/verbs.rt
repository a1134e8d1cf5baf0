//! The calls of a script.

ghost use Rattle.std.specs.Prelude.{◌≡◌};
ghost use Rattle.meet_history.specs.Served.{serves};

use meet_tickets::{Order, SeatNo};

/// A call of a script.
#[derive(Clone, Copy, PartialEq, Eq, Debug)]
pub struct Call {
    /// The seat that makes it.
    pub seat: SeatNo,
    /// The operation.
    pub verb: Verb,
}

/// The operation of a call (its verb). Items are numbers, and their own marks.
#[derive(Clone, Copy, PartialEq, Eq, Debug)]
pub enum Verb {
    /// `SynchronousQueue.put` waits for a consumer; `LinkedTransferQueue.put` buffers the item.
    Put(u64),
    /// `SynchronousQueue.offer` is immediate; `LinkedTransferQueue.offer` buffers the item.
    Offer(u64),
    /// `BlockingQueue.take`.
    Take,
    /// `BlockingQueue.poll`.
    Poll,
    /// `LinkedTransferQueue.transfer`.
    Transfer(u64),
    /// `LinkedTransferQueue.tryTransfer`.
    Try(u64),
    /// The follow-up of the seat's open ticket.
    Follow,
    /// The seat takes its open ticket back.
    Cancel,
    /// The time of the seat's open ticket ran out.
    Expire,
    /// `Thread.interrupt` of this seat.
    Interrupt(SeatNo),
    /// `BlockingQueue.drainTo` with this many items at most.
    Drain(u64),
    /// A read-only query (a probe).
    Look(Probe),
    /// The records so far are compacted.
    Checkpoint,
}

/// A read-only query.
#[derive(Clone, Copy, PartialEq, Eq, Debug)]
pub enum Probe {
    /// `Collection.size`.
    Size,
    /// `BlockingQueue.remainingCapacity`.
    Room,
    /// `Queue.peek`.
    Peek,
    /// `LinkedTransferQueue.getWaitingConsumerCount`.
    Consumers,
}

/// Returns true if a place of this order has the operation: a transfer queue has all, a synchronous queue all but those
/// that only `LinkedTransferQueue` has.
pub fn is_served(order: Order, verb: Verb) -> bool
    ensures { result ≡ serves order verb }
{
    order.keeps()
        || !matches!(
            verb,
            Verb::Transfer(_) | Verb::Try(_) | Verb::Look(Probe::Consumers)
        )
}
