//! A linearizability checker for concurrent histories of any program's synchronous queue, transfer queue or buffer: it
//! returns a legal history that explains the calls, or the reason why there is none.
//!
//! `judge` takes the calls of a synchronous or transfer queue, `judge_buffer` those of a buffer. From
//! `crates/meet_judge/src/judging.rt`:
//!
//!     Queue::Place(kind) => judge(alloc, kind, calls.as_slice(), MOST_MOVES),
//!     Queue::Buffer(bound) => judge_buffer(alloc, bound, calls.as_slice(), MOST_MOVES),
//!
//! `judge_calls` reads their text, and writes the history as a trace or the reason. From `crates/meet/src/main.rt`:
//!
//!     Task::Judge => judge_calls(alloc, reader, writer),

pub use meet_judge::{MOST_MOVES, judge_calls, push_calls, read_calls};
pub use meet_overlap::{
    Answer, Call, Calls, Fault, Patience, Queue, Reason, Returned, Stuck, Verb, buffer_kind, judge,
    judge_buffer, times_are_order,
};
pub use meet_run::RunFault;
pub use meet_tickets::{Deed, Kind, Order, Record, Refusal, SeatNo};
