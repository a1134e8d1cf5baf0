//! A demo run of a pool: callers, each a thread, execute numbered jobs on a fixed pool of workers. The pool's own
//! records, which are checked, state the outcome.
#![tactic(auto)]

mod answers;
mod jobs;
mod whole;

pub use whole::{MOST_CALLERS, MOST_EACH, MOST_WORKERS, PoolDrive, drive_pool};
