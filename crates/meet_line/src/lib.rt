//! Wait queues (lines) of unmatched tickets: producers or consumers that wait, and items that are buffered, each with
//! its ticket and its seat. The crate knows neither queues nor pools, neither books nor threads.
//!
//! A line holds producers or consumers, never both (the dual queue and the dual stack of Scherer and Scott, DISC 2004),
//! in order of arrival. It is met at one of its ends, the first node (entry) or the last; a node is found by its
//! ticket, and leaves from wherever it stands. What is true of a line beside what seats hold is defined here too
//! (`specs/Sound`), for queues and pools alike.
#![tactic(auto)]

mod bucket_table;
mod end_line;
mod itemless;
mod line;
mod linked;
mod marked;
mod meeting;
mod merged;
mod met_at;
mod nodes;
mod ring_line;
mod roll;
mod seat_line;
mod seated;
mod spots;
mod transfer_line;

pub use end_line::{EndLine, FairLine, StackLine};
pub use itemless::let_go_none;
pub use line::{BufferLine, Line};
pub use marked::{mark_of, marked_line};
pub use meeting::{is_alone, meet};
pub use met_at::{First, Last, MetAt};
pub use ring_line::{FairRing, RingLine, StackRing};
pub use seat_line::{FairSeats, SeatLine, StackSeats};
pub use transfer_line::TransferLine;
