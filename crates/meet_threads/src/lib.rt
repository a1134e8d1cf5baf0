//! The threads of a task: how they begin together, what they return, and the labels of their items. A task has a seat
//! for each of its threads, of whatever place it shares.
#![tactic(auto)]

mod finished;
mod joining;
mod labels;
mod start;

pub use finished::Finished;
pub use joining::{Returned, Room, joined};
pub use labels::{Labelled, Labels};
pub use start::Start;
