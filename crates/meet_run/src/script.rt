//! Scripts: one thread's calls on a place, line by line, and their replies.

pub mod first_line;
pub mod grammar;
pub mod laws;
pub mod next;
pub(crate) mod run;
pub mod spellings;
