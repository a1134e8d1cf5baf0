//! Traces: a place's log as text, with a snapshot (a base) or without; written, checked, erased (projected), and
//! chained chapter by chapter.

pub mod base_grammar;
pub mod base_spellings;
pub mod base_wording;
pub(crate) mod based;
pub(crate) mod chain;
pub(crate) mod chains;
pub mod check;
pub(crate) mod erase;
pub mod grammar;
pub(crate) mod kept;
pub mod next;
pub(crate) mod run;
pub mod spellings;
pub mod wording;
