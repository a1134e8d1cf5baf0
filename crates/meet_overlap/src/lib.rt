//! A linearizability checker for concurrent histories of a synchronous queue, a transfer queue or a buffer: is there a
//! legal history that explains the calls (a linearization)? The crate knows the specification of histories, and no queue,
//! text or thread. `specs/Calls` defines which records a call makes, `specs/Explaining` what explains calls,
//! `specs/Buffers` which effects the calls of a buffer have, and `specs/Reasons` why nothing explains calls.
//!
//! An order of the calls is guessed (`guess`), and each of its records is checked (`judging`). If one can't stand,
//! reasons are looked for (`reasons`). What they leave open is searched for (`search`).
#![tactic(auto)]

mod alike;
mod buffer;
mod calls;
mod due;
mod fault;
mod fits;
mod guess;
mod judging;
mod laws;
mod line;
mod making;
mod misled;
mod moving;
mod next;
mod place;
mod reasons;
mod search;
mod seen;
mod settling;
mod stages;
mod turns;
mod world;

pub use buffer::{buffer_kind, judge_buffer};
pub use calls::{Answer, Call, Calls, Patience, Queue, Returned, Stage, Verb};
pub use fault::Fault;
pub use judging::judge;
pub use laws::times_are_order;
pub use reasons::Reason;
pub use search::Stuck;
