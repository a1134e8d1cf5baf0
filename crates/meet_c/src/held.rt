//! What a handle holds.

use crate::followers::Follower;
use meet_book::Book;
use meet_queues::AnyQueue;

/// What a handle holds, if anything.
#[derive(Drop)]
pub enum Held {
    /// A queue of numbers, with its log.
    Queue(Book<AnyQueue>),
    /// A checker of records.
    Checker(Follower),
}
