//! The transfer queue of one thread (`LinkedTransferQueue`), with each waiting call split into its request and its
//! completion: `meet_core`'s queue, which buffers items here. The crate knows neither threads nor locks.
#![tactic(auto)]

pub use meet_core::{
    Followed, Gave, Interrupted, Left, LeftStanding, Offered, Polled, Put, QueueAnswer, QueueCall,
    TakenBack, Took, Transfer, Unbounded,
};
