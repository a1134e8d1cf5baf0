//! The exchanger's single steps: an arena of slots, in each of which two seats at a time exchange items. Each step is
//! one atomic step on the slot's word, and no lock is taken.
//!
//! `specs/` has the specification:
//!
//! - `Rounds` defines what a slot's history is, and what each seat's part in it;
//! - `Closed` defines what is known at the end;
//! - `Calls` defines what the calls return;
//! - `Ways` defines which way an exchange that waits takes, and `Waits` how it ends;
//! - `Stages`, `Rule` and `Told` are the rule that holds between any two steps, and what each step states.
#![tactic(auto)]

mod arena;
mod closing;
mod endings;
mod left;
mod offers;
mod plays;
mod rebuild;
mod records;
mod seats;
mod steps;
mod views;
mod waiting;
mod words;

pub use arena::Arena;
pub use closing::{CloseFault, Closed};
pub use endings::{Gathered, TakenBack};
pub use left::{LeftIn, Standing};
pub use offers::Offered;
pub use records::{Part, Round, RoundEnd, SlotDeed};
pub use seats::{Back, Pending, Seat};
pub use waiting::Exchanged;
