#![tactic(auto)]
//! The queue of one thread: whom a request meets, what each seat learns of it, and the record of each call. With it
//! come the synchronous queue (`SynchronousQueue`) and the transfer queue (`LinkedTransferQueue`), each waiting call split
//! into its request and its completion. The crate knows neither threads nor locks, nor which wait queue it stands over.
//!
//! It is a dual data structure (Scherer and Scott, DISC 2004; Scherer, Lea and Scott, PPoPP 2006): its wait queue holds
//! pending requests (reservations), of producers or of consumers and never of both. A request meets the node at the end
//! of the wait queue, the oldest in fair mode and the newest in the default mode. If there is none it waits, until a
//! follow-up, cancel or expiry completes its ticket. A seat that was matched keeps the result. There, threads meet by
//! atomic steps on a list of nodes. Here, a queue for threads is this one under a lock: a call is one step, and has one
//! record. What seats hold is in `seats`, how requests meet, for all queues, in `meetings`, the calls and records in
//! `calls`, the queue over what it buffers in `local_queue`.
//!
//! `#[inline(always)]` stands where a put or a take passes on its way from `step` to the wait queue and the seats. So a
//! call is one function from where a program makes it, and nine matches on its kind fall away. The other calls are
//! called.

mod answers;
mod calls;
mod left;
mod local_queue;
mod meetings;
mod seats;

pub use answers::{Followed, Gave, Interrupted, Offered, Polled, Put, TakenBack, Took};
pub use calls::{
    Answered, QueueAnswer, QueueCall, QueueDrains, QueueLeaves, QueuePlace, admit_call,
    answered_put, handed_items_were_brought, make_call,
};
pub use left::{Left, LeftStanding};
pub use local_queue::{
    AnyNumber, Buffers, Dual, LocalQueue, Nothing, OneKind, Transfer, Unbounded, UpTo,
};
pub use meetings::Meetings;
pub use seats::{Opened, SeatTable, open_tickets};
