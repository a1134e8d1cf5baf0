//! What the threads at a place leave.

use meet_tickets::Refusal;

/// What is there after all threads have ended: their results, and the final log of their place.
#[derive(Debug, Drop)]
pub struct Finished<L, A> {
    /// The result of each thread, in the order of their seats.
    pub results: Vec<A>,
    /// The final log of the place. If the place couldn't be closed, it is dropped, and this is the reason.
    pub log: Result<L, Refusal>,
}
