//! The kinds of place, and the two sides that meet there.

ghost use Rattle.std.specs.Prelude.{◌≡◌};

/// The two sides of a match.
#[derive(Clone, Copy, PartialEq, Eq, PartialOrd, Ord, Hash, Debug)]
pub enum Side {
    /// The producer.
    Giver,
    /// The consumer.
    Taker,
}

/// The queueing discipline: whom a request meets, and whether a producer's item may be buffered.
#[derive(Clone, Copy, PartialEq, Eq, PartialOrd, Ord, Hash, Debug)]
pub enum Order {
    /// `SynchronousQueue` in fair mode: the one that waited longest.
    Fair,
    /// `SynchronousQueue` in its default mode: the one that came last.
    Unfair,
    /// `LinkedTransferQueue`: the one that stands there longest; items may be buffered.
    Transfer,
}

/// The two ends of a place's wait queue.
#[derive(Clone, Copy, PartialEq, Eq, Hash, Debug)]
pub enum End {
    /// The end of the one that waited longest.
    Front,
    /// The end of the one that came last.
    Back,
}

impl Order {
    ghost use Rattle.meet_tickets.specs.Meeting.{end_of, keeps};

    /// Returns the end of the wait queue at which a place's nodes are met.
    pub fn end(self) -> End
        ensures { result ≡ end_of self }
    {
        match self {
            Order::Fair => End::Front,
            Order::Unfair => End::Back,
            Order::Transfer => End::Front,
        }
    }

    /// Returns true if a place buffers the items of producers that went on.
    pub fn keeps(self) -> bool
        ensures { result ≡ keeps self }
    {
        match self {
            Order::Fair => false,
            Order::Unfair => false,
            Order::Transfer => true,
        }
    }
}

/// The type of a place: its order and, for a transfer queue, how many items it buffers at most.
#[derive(Clone, Copy, PartialEq, Eq, Hash, Debug)]
pub struct Kind {
    /// The queueing discipline.
    pub order: Order,
    /// The most items that are buffered; none if there is no bound.
    pub bound: Option<u64>,
}
