//! Where threads wait, and what they learn while they wait: gates (parkers), bells (one-shot flags with a payload), and
//! deadlines. The crate names no queue.
//!
//! A gate keeps one wake, as a permit of `LockSupport.park` and `unpark`: a wake that comes before the wait ends it.
//! Both gates and bells are hints: a thread that was woken, or wasn't, looks at the place, so no result of any place
//! rests on them.
#![tactic(auto)]

mod bells;
mod deadline;
mod gates;
mod parking;
mod spinning;

pub use bells::{Bell, Envelope, Verdict, notes_agree};
pub use deadline::Deadline;
pub use gates::{Gate, Turn};
pub use once_cell::race::Note;
pub use parking::ParkGate;
pub use spinning::SpinGate;
