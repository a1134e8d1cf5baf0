//! The exports of the queues of one thread, for programs in C and in all languages that call C: a queue under its log
//! (a book), and a checker of records, each behind a handle. It starts no thread and takes no lock: a program that
//! shares a handle among threads calls it under a lock of its own.
#![tactic(auto)]

mod answers;
mod bases;
mod checker_exports;
mod entries;
mod followers;
mod held;
mod loose;
mod names;
mod queue_exports;
mod queues;

pub use answers::Answer;
pub use bases::{BaseRow, PlainBase};
pub use checker_exports::{
    ibis_checker_new, ibis_checker_push, ibis_checker_standing, ibis_free, ibis_queue_check,
};
pub use entries::PlainRecord;
pub use followers::{Follower, Found};
pub use held::Held;
pub use loose::{Handle, Loose, handles_may_go};
pub use queue_exports::{
    ibis_queue_base, ibis_queue_base_row, ibis_queue_cut, ibis_queue_look, ibis_queue_new,
    ibis_queue_open, ibis_queue_records, ibis_queue_step,
};
pub use queues::Look;
