//! The contents of a legal trace as sums: how many records have which deed and how many tickets which fate, the longest
//! wait queue, the longest wait in it, and the counts of each seat.
//!
//! `specs/` defines each of these on the list of the records. The code goes over the records with a table that has the
//! story of each ticket.
#![tactic(auto)]

mod deeds;
mod fates;
mod line;
mod openings;
mod seats;
mod stories;
mod summing;
mod sums;
mod table;
mod waits;
mod wording;

pub use deeds::{DeedCounts, count_deeds};
pub use fates::FateCounts;
pub use line::{LongestLine, longest_line};
pub use seats::SeatSum;
pub use stories::{Asked, AtOnce, Story};
pub use summing::sum_trace;
pub use sums::{Sums, count_fates, sum_records};
pub use waits::Wait;
