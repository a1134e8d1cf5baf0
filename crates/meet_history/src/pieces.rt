//! The pieces of a base, in the order in which a trace has them.

use meet_tickets::{Entry, OpenCut, OpenPair, SeatNo};

/// A piece of a base.
#[derive(Debug, Drop)]
pub enum Piece {
    /// A node (an entry) of the wait queue.
    Stands(Entry<u64>),
    /// A pending request (an open ticket) that was matched.
    Met(OpenPair),
    /// A pending request that was interrupted.
    Cut(OpenCut),
    /// A seat with a pending interrupt.
    Flagged(SeatNo),
}
