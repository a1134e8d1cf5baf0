//! A pool of seats (a resource pool): any number of threads share the seats of one place, as many at a time as there
//! are seats. It knows seats alone, and neither queues nor pools of threads.
#![tactic(auto)]

mod free;
mod seat_pool;

pub use seat_pool::SeatPool;
