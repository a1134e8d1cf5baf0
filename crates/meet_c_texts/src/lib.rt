//! The exports of the checkers of texts, for programs in C and in all languages that call C: traces that are checked
//! and explained, and concurrent histories that are judged. Each reads memory and writes memory, and keeps nothing
//! between two calls.
#![tactic(auto)]

mod checks;
mod judges;
mod pools;

pub use checks::{Verdict, ibis_check};
pub use judges::{Written, ibis_explain, ibis_judge};
pub use pools::ibis_pool_check;
