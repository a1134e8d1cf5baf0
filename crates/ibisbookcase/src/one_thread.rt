//! The queues for one thread, alone or with a log (a book) that keeps their records.
//!
//! A call is one step, and says at once whether its request waits. From `crates/examples/src/one_thread/handoff.rt`:
//!
//!     let mut queue: Dual<Parcel, FairLine<Parcel>> = Dual::new(alloc, 3, 1)?; // seats 0 to 2, first ticket 1
//!     let gave = queue.give(seat_0, item).map_err(Refused::into_why)?; // Gave::Waits(ticket), Gave::Meets(..), ..
//!     let took = queue.take(seat_1)?; // Took::Meets(ticket, with, item), Took::Waits(ticket), ..
//!     let followed = queue.follow_up(seat_0, ticket)?; // Followed::Done, Followed::Got(with, item), ..
//!
//! A log (a `Book`) records each step and returns its receipt. From `crates/examples/src/one_thread/recorded.rt`:
//!
//!     let mut book: Book<Dual<Parcel, FairLine<Parcel>>> = queue_book(alloc, 3, 1, 1_000)?; // at most 1,000 records
//!     let given = book.step(seat, QueueCall::Give(item));
//!     let (_, receipt) = given.map_err(Refused::into_why)?; // QueueAnswer::Gave(..), Some(receipt)
//!     let entry = receipt.entry(); // the record; receipt.place() is its number
//!     let taken = book.drain(rt.alloc(), seat, 10)?; // up to ten items, an answer and a receipt for each
//!     let records = book.records(); // the records since the book was cut last
//!     let gone = book.cut()?; // folds them into book.base(): a book never fills for good

pub use meet_book::{Book, Receipt};
pub use meet_core::{
    Dual, Followed, Gave, Interrupted, Left, LeftStanding, Offered, Polled, Put, TakenBack, Took,
};
pub use meet_line::{FairLine, Line, StackLine};
pub use meet_queues::{AnyQueue, QueueAnswer, QueueCall, queue_book, transfer_book};
pub use meet_tickets::{Marked, Refusal, Refused, SeatNo, Ticket};
pub use meet_transfer::Transfer;
