//! An exchanger whose calls wait: it chooses the slot of an arena itself, and a thread that waits for long parks.
//!
//! The arena's contracts state what a slot is, and what happens there (`meet_exchange`). This crate decides which slot
//! is tried next, when a thread parks, and which thread wakes it. `specs/Tries` defines how an exchange ends, and what
//! it did before.
#![tactic(auto)]

mod at;
mod attempts;
mod exchanger;
mod exchanging;
mod handles;
mod runs;
mod waiters;
mod watching;

pub use exchanger::{Exchanger, ExchangerFault};
pub use handles::{ExchangerHandle, Unmet};
pub use meet_exchange::{
    Back, Closed, Exchanged, LeftIn, Part, Pending, Round, RoundEnd, Seat, SlotDeed, Standing,
};
pub use meet_threads::Finished;
pub use runs::{ExchangeTask, run_exchanger};
