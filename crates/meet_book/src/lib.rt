//! The log (the book) that a place keeps of its steps, and its receipts. A place (a shared object) is anything whose
//! calls are atomic steps (trait `Object`): the book knows neither queues nor threads.
//!
//! A call makes one step, and its record goes to the end of the book with the next number (a log of what was done,
//! written as it is done). The caller gets a receipt of it, which only the book makes. Room for the record, and for
//! those that pending requests may still need, is reserved before the step: so no completion ever fails. A book is
//! compacted by a checkpoint, which puts a base (a snapshot) in the place of its records.
//!
//! `#[inline(always)]` stands where a call passes on its way down to the place. So a call is one function from where a
//! program makes it, and the kind of call is tested once, not in each layer anew. What is rare, as the growth of the
//! records, is `#[cold]` and out of line.
#![tactic(auto)]

mod book;
mod comparing;
mod object;
mod receipt;

pub use book::{Book, Chapter};
pub use comparing::{Holds, Same, compare};
pub use object::{Bases, Drains, Leaves, Object, Unwatched, Wakes, Watch};
pub use receipt::Receipt;
