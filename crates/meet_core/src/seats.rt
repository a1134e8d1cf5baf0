//! The seats of a queue: what each holds, which have a pending interrupt (are flagged), and what of that stands outside
//! the wait queue.

mod itemless;
mod opened;
mod table;

pub use opened::{Opened, open_tickets};
pub use table::SeatTable;
