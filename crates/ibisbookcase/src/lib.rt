//! All names that a user of the library needs, in one crate: the rendezvous primitives of `java.util.concurrent`, with
//! their logs and checkers. A program lists this crate in crates.txt, and the toolchain finds those below. Each name is
//! documented in its own crate. The modules separate equal names: a queue's `Seat` and an arena's are two types.
//!
//! - `queues`: the queues for threads (`SynchronousQueue`, `LinkedTransferQueue`): tasks at a queue, the shortest way,
//!   and queues whose seats the program holds.
//! - `exchanger`: exchangers (`Exchanger`).
//! - `pools`: the pool of threads (`ThreadPoolExecutor`).
//! - `one_thread`: the queues of one thread, and their logs.
//! - `records`: the log checker, traces and what can be computed from a log.
//! - `overlapping`: the linearizability checker for concurrent histories.
#![tactic(auto)]

pub mod exchanger;
pub mod one_thread;
pub mod overlapping;
pub mod pools;
pub mod queues;
pub mod records;
