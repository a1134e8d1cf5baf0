//! A guess at the order in which calls make their records. No contract says anything of it: whoever follows the guess
//! checks each record, so a wrong guess costs time and never a wrong verdict.
//!
//! What is guessed, and why it is nearly always right:
//!
//! - **Who met whom** (`partners`): the call that gave an item and the call that got it have the same mark. Marks are
//!   mostly distinct, so there is no choice.
//! - **When they met** (`parts`, `plan`): two calls that overlap can meet as soon as the later of them has begun, the
//!   first one waiting, the other meeting it, the first one ending: three records in a row, which leave the wait queue
//!   as it was. A call that failed or timed out can do so as soon as it has begun. With begin and end alone nothing
//!   forbids this, so at a synchronous queue the guess is right whenever each pair overlaps.
//! - **What stays in the wait queue** (`stays`): items that a transfer queue keeps, and calls that were seen to wait
//!   before their partner began. They enter and leave in an order that all their spans allow, each as late and as early
//!   as it can, so that the queue is empty for as long as possible. Calls that need an empty queue come when it is
//!   empty first (`busy`). A pair that needs it empty and finds no such time stays in the queue too, and the plan is
//!   made anew.
//! - **Interrupts** (`partners`, `flags`): an interrupt that overlaps an interrupted call cuts it; an earlier one
//!   leaves its seat flagged until then.
//! - **Ties** (`ties`): of records at one time, those of one seat stand in the order of its calls.
//! - **Buffers** (`buffer`): each call makes one record, so the question is only in which order the items go through.

mod buffer;
mod busy;
mod flags;
mod partners;
mod parts;
mod plan;
mod stays;
mod ties;

pub(crate) use partners::{Partners, end, who_met};
pub(crate) use plan::guess;
