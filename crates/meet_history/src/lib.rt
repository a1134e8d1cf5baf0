//! The checker of logs (histories), and the replies of one thread.
//!
//! A checker knows only records, and not the queue that wrote them. It plays each on a state of its own, of a wait
//! queue of marks and a table of seats, and stops at the first that can't stand there.
#![tactic(auto)]

mod checker;
mod ground;
mod numbers;
mod one_thread;
mod pieces;

pub use checker::{CheckFault, Checker, Standing, Why, check};
pub use ground::Ground;
pub use one_thread::{
    Answer, Call, Outcome, Probe, Reply, Run, Setup, Stepper, Verb, calls_have_one_deed, is_served,
    legal_histories_are_made, one_thread_is_recorded, run_all,
};
pub use pieces::Piece;
