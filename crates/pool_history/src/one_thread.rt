//! The calls of a pool by one thread, for any of its seats, and the replies.

mod replies;
mod stepper;
mod verbs;

pub use replies::{PoolOutcome, PoolReply};
pub use stepper::PoolStepper;
pub use verbs::{PoolRequest, PoolVerb};
