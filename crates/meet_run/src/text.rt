//! What texts of every kind have in common: lines that are read without an allocation, words and numbers, what is
//! written, and what stops a text.

pub(crate) mod blocks;
pub mod faults;
pub mod grammar;
pub mod next;
pub mod output;
pub mod reading;
pub mod room;
pub mod wording;
pub mod words;
