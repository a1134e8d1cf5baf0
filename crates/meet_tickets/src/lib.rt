//! The names that all places (shared objects) have in common, and the specification of a legal history. The crate knows
//! neither queues nor books nor threads: all that stands here is of records (log entries).
//!
//! `specs/` has the specification:
//!
//! - `Meeting` defines whom a request meets;
//! - `ByLists` defines which histories are legal, and `BySeat` the same as the code sees it;
//! - `Fates` defines what happened to each ticket;
//! - `Placed` states that this is what the place holds, and `Asked` that it holds what its tickets brought.
#![tactic(auto)]

pub mod bases;
pub mod fates;
pub mod items;
pub mod laws;
pub mod limits;
pub mod lines;
pub mod meeting;
pub mod names;
pub mod places;
pub mod records;
pub mod refusals;

pub use bases::{Base, OpenCut, OpenPair, clones_of};
pub use fates::Fate;
pub use items::Marked;
pub use laws::{
    bases_are_one, bases_fold, bases_show_fates, bases_stand, fates_are_placed,
    requests_are_remembered, tellings_agree, tellings_agree_on,
};
pub use limits::{
    LAST_ROUND, LAST_TICKET, MOST_GONE, MOST_KEPT, MOST_RECORDS, MOST_SEATS, MOST_SLOTS,
    TOLD_CAPACITY, limits_agree,
};
pub use lines::{Entry, Hold};
pub use names::{SeatNo, Ticket};
pub use places::{End, Kind, Order, Side};
pub use records::{Cause, Deed, Record};
pub use refusals::{Refusal, Refused};
