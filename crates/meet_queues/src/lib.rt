//! A queue of any kind as a book's object, and the books of new queues: what stands on both kinds of queue.
#![tactic(auto)]

mod any_queue;
mod books;
mod ready;

pub use any_queue::AnyQueue;
pub use books::{queue_book, transfer_book};
pub use meet_core::{Dual, QueueAnswer, QueueCall};
pub use meet_transfer::{Transfer, Unbounded};
pub use ready::{READY_RECORDS, ready_book};
