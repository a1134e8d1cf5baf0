//! The records that may come next in a history: of what a seat tries, each answer that the specification allows after a
//! base, and no other. So a reader of a trace that isn't legal can learn what may stand in the place of the record that
//! can't.
//!
//! It knows the specification and a base, and neither the records before it nor any text.

mod answering;
mod attempts;
mod holding;
mod laws;
mod may;
mod replacing;

pub use answering::answers;
pub use attempts::Attempt;
pub use holding::{cut_by, hold};
pub use laws::comers_are_legal;
pub use may::may_come;
pub use replacing::{Instead, comes_instead};
