//! Calls as they were seen from outside.

ghost use Rattle.std.specs.Prelude.{◌≡◌, ◌++◌, ◌∷◌, [], OnOk};

use meet_tickets::{Kind, SeatNo, Ticket};
use std::alloc::{AllocError, Global};

/// The timeout mode of a request: how long it waits for a counterpart.
#[derive(Clone, Copy, PartialEq, Eq, Debug)]
pub enum Patience {
    /// It doesn't wait: `offer`, `poll`, `tryTransfer`.
    Now,
    /// It waits until one comes: `put`, `transfer`, `take`.
    Forever,
    /// It waits for a time: `offer`, `poll` and `tryTransfer` with a limit.
    Timed,
}

/// The operation of a call (its verb). Items are named by their marks.
#[derive(Clone, Copy, PartialEq, Eq, Debug)]
pub enum Verb {
    /// Gives an item, which is buffered if no consumer waits: `put` and `offer` of a transfer queue.
    Keep(u64),
    /// Gives an item.
    Give(Patience, u64),
    /// Takes an item.
    Take(Patience),
    /// Interrupts a seat.
    Interrupt(SeatNo),
}

/// What a call returned.
#[derive(Clone, Copy, PartialEq, Eq, Debug)]
pub enum Answer {
    /// The item went.
    Went,
    /// An item with this mark came.
    Got(u64),
    /// No counterpart was there.
    Nothing,
    /// No counterpart came in time.
    Expired,
    /// The call was interrupted.
    Interrupted,
    /// The interrupt was made.
    Made,
}

/// How a call ended.
#[derive(Clone, Copy, PartialEq, Eq, Debug)]
pub struct Returned {
    /// When it ended.
    pub at: u64,
    /// What it returned.
    pub answer: Answer,
}

/// A call as it was seen. Times are numbers of one clock.
#[derive(Clone, Copy, PartialEq, Eq, Debug)]
pub struct Call {
    /// The seat that made it.
    pub seat: SeatNo,
    /// When it began.
    pub begin: u64,
    /// A time by which it was seen to wait, if there is one.
    pub waits: Option<u64>,
    /// How it ended; None if it never did.
    pub returned: Option<Returned>,
    /// The operation.
    pub verb: Verb,
}

/// How far a call is.
#[derive(Clone, Copy, PartialEq, Eq, Debug)]
pub enum Stage {
    /// Its first record is still to come.
    Ahead,
    /// It waits by this ticket.
    Open(Ticket),
    /// Its last record is made.
    Over,
}

/// The queue at which calls were seen.
#[derive(Clone, Copy, PartialEq, Eq, Debug)]
pub enum Queue {
    /// A place of a kind, where calls meet.
    Place(Kind),
    /// A buffer, which keeps what is put, first in, first out, and no more items than its bound, if it has one.
    Buffer(Option<u64>),
}

/// Calls that were seen at a queue. They may overlap, and stand in any order; if they stand by their begins they are
/// judged fastest.
#[derive(Debug, Drop)]
pub struct Calls {
    /// The queue.
    pub queue: Queue,
    /// The calls.
    pub list: Vec<Call>,
}

impl Calls {
    /// Creates an empty list of calls, at this queue.
    pub fn none(alloc: Global, queue: Queue) -> Calls
        ensures queue { result.queue ≡ queue }
        ensures list { result.list.items ≡ [] }
    {
        Calls {
            queue,
            list: Vec::new(alloc),
        }
    }

    /// Puts a call at the end.
    ///
    /// # Errors
    /// - `AllocError`, if an allocation fails.
    pub fn push(&mut self, call: Call) -> Result<(), AllocError>
        ensures queue { self.new.queue ≡ self.old.queue }
        ensures list { OnOk result (self.new.list.items ≡ self.old.list.items ++ call ∷ []) }
    {
        self.list.extend_from_slice([call].as_slice())
    }

    /// Returns the calls, in their order.
    pub fn as_slice(&self) -> &[Call]
        ensures { result.now ≡ self.now.list.items }
    {
        self.list.as_slice()
    }
}
