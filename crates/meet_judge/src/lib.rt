//! The linearizability checker for calls as text (`meet judge`). It reads the calls, and writes the trace of a history
//! that explains them, or a line that states how far they can be explained.
//!
//! What is read is what stands there: a text that isn't the one spelling of calls is an error, with its line.
#![tactic(auto)]

mod judging;
mod reading;
mod writing;

pub use judging::{MOST_MOVES, judge_calls};
pub use reading::read_calls;
pub use writing::push_calls;
