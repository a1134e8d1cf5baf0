//! The calls of a place by one thread, for any of its seats, and the replies.

mod all_calls;
mod laws;
mod replies;
mod setup;
mod stepper;
mod verbs;

pub use all_calls::{Run, run_all};
pub use laws::{calls_have_one_deed, legal_histories_are_made, one_thread_is_recorded};
pub use replies::{Answer, Outcome, Reply};
pub use setup::Setup;
pub use stepper::Stepper;
pub use verbs::{Call, Probe, Verb, is_served};
