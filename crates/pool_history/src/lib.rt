//! The checker of a pool's records, and the calls of a pool by one thread, for any of its seats.
#![tactic(auto)]

pub mod checker;
pub mod one_thread;

pub use checker::{PoolChecker, PoolFault, PoolWhy, check_pool};
pub use one_thread::{PoolOutcome, PoolReply, PoolRequest, PoolStepper, PoolVerb};
