//! Scoped threads at a queue that is made for them: `run_queue` makes the queue, runs a task in each thread, and closes
//! the queue. Each thread borrows a handle, which keeps its seat. So every seat is there when the queue is closed,
//! whatever the thread did.
//!
//! What a call of a handle does, the queue's contracts state (`meet_sync`).
#![tactic(auto)]

mod at;
mod calls;
mod handle;
mod handoffs;
mod ledgers;
mod outcomes;
mod probes;
mod refused;
mod seating;
mod tasks;

pub use handle::QueueHandle;
pub use handoffs::{HandedOff, Handoff, run_handoff};
pub use meet_threads::{Finished, Labelled};
pub use outcomes::{NotReceived, Unsent};
pub use probes::Probes;
pub use refused::CallRefused;
pub use tasks::{KeepLog, QueueTask, run_queue};
