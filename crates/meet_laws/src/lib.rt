//! Laws of every legal history, with cancels that race: how fates move, which ticket is matched with which, in which
//! order tickets are matched, and what is left if those that were interrupted or withdrawn are erased. It knows records
//! alone, and no queue.
#![tactic(auto)]

mod erasing;
mod fates;
pub mod laws;
mod tally;

pub use erasing::erase;
pub use fates::fate;
pub use laws::{
    chapters_are_one, erased_is_legal, fates_move, gives_count_once, legal_begins_legal,
    partners_are_mutual, promise_is_kept, tickets_are_met_in_order, tickets_have_one_fate,
};
pub use tally::{Tally, delivered, reckon};
