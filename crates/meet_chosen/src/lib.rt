//! Queues for threads whose order is chosen at run time: `new SynchronousQueue(fair)` with a flag that is read from
//! somewhere, or a `LinkedTransferQueue` in its place. The crate knows which queue it is, and nothing of what a queue
//! does: each call is that queue's, with that queue's contract.
#![tactic(auto)]

mod asking;
mod living;
mod probes;
mod queue;
mod whole;

pub use queue::{ChosenBook, ChosenQueue};
