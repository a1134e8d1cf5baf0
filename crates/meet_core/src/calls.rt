//! A seat's calls of a queue, their results, and their records: one call type for all queues, defined once, over the
//! meetings that they share. `QueuePlace` is what a queue for threads requires of a queue of one thread.

mod laws;
mod make;
mod place;
mod queue_calls;
mod records;
mod refusals;

pub use laws::handed_items_were_brought;
pub use make::{admit_call, make_call};
pub use place::{QueueDrains, QueueLeaves, QueuePlace};
pub use queue_calls::{QueueAnswer, QueueCall};
pub use records::{Answered, answered_put};
