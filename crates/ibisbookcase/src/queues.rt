//! The queues for threads: synchronous queues and transfer queues (`SynchronousQueue`, `LinkedTransferQueue`).
//!
//! The shortest way is `run_queue`, which makes a queue, runs a task in each of its threads, and closes the queue after
//! them; or `run_handoff`, which does so with producers and consumers. From `crates/example_first/src/main.rt`:
//!
//!     let done = run_handoff(&rt, rt.alloc(), Order::Fair, 1, 1, &Seven)?;
//!
//! A `QueueHandle` has the calls of `BlockingQueue` and `TransferQueue`, and `Probes`. They compact the log, unless the
//! task is a `KeepLog`. An item that has no number of its own gets one by `QueueHandle::label`.
//!
//! The other names are for a program that holds seats, gates (parkers) and ledgers (ghost counters) itself, or a pool of
//! their seats. Each call takes a seat, and returns it. From `crates/examples/src/parcels/passing.rt`:
//!
//!     match counter.transfer_for(rt, seat, parcel, plan.patience) {
//!         Ok(ended) => {
//!             hand = hand.with(parcel_of(ended.end)); // End::Gave(with), End::Done, End::TimedOut(Some(parcel)), ..
//!
//! `docs/USING.md` ("Between two threads") has the eight steps of such a program.

pub use meet_cells::{ParkGate, SpinGate};
pub use meet_chosen::{ChosenBook, ChosenQueue};
pub use meet_seats::SeatPool;
pub use meet_sync::{
    Answer, Asked, Back, Blanks, Chapter, Chronicle, DrainedItems, End, Ended, FairLine, FairSeats,
    Followed, Gate, Interrupted, Ledgers, Left, LeftStanding, Moment, NewQueue, Pending, Queue,
    QueueFault, Request, Seat, SeatRefused, StackLine, StackSeats, SyncQueue, TakenBack, Tally,
    TransferQueue, Turn,
};
pub use meet_tasks::{
    CallRefused, Finished, HandedOff, Handoff, KeepLog, Labelled, NotReceived, Probes, QueueHandle,
    QueueTask, Unsent, run_handoff, run_queue,
};
pub use meet_tickets::{Deed, Marked, Order, Record, Refusal, Refused, SeatNo, Ticket};
