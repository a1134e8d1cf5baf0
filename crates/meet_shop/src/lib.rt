//! What tests and soaks of queues for threads have in common: numbers go through a queue whose order each of them
//! chooses, and stories tell what seats ask of it.
#![tactic(auto)]

mod answers;
mod asking;
mod asks;
mod calls;
mod checkpoints;
mod drains;
mod flags;
mod numbers;
mod obeys;
mod plays;
mod shops;
mod steps;
mod unlike;
mod waiting;

pub use answers::Came;
pub use asking::answer;
pub use asks::{Ask, Row, Told};
pub use calls::{Call, called};
pub use checkpoints::trimmed;
pub use drains::drained;
pub use flags::{FlagGate, Flags};
pub use numbers::{Chance, ending, request};
pub use plays::{
    Found, NOTHING, Seats, Story, ask_all, ask_one, closed, ended, given, has, play, played,
    seated, tells, told, two_backs, two_seats,
};
pub use shops::{Shop, keep};
pub use steps::{Probe, Step, drain_one, happens};
pub use unlike::Unlike;
pub use waiting::{Eager, Fresh, Idle, gates};
