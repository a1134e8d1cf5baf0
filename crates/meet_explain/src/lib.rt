//! Explains traces that aren't legal: the line of the record that can't stand, what may come in its place, and the
//! state of the place there, a line each. Beside that, of records without a text: which may come next (`coming`).
//!
//! What it finds of a trace is what the checker finds, to the byte. The state is read from the base to which the
//! records before lead.
#![tactic(auto)]

mod coming;
mod explaining;
mod faulty;
mod flaws;
mod lines;
mod onward;
mod tee;
mod wording;
mod words;

pub use coming::{
    Attempt, Instead, answers, comers_are_legal, comes_instead, cut_by, hold, may_come,
};
pub use explaining::explain_trace;
