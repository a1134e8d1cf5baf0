//! A pool of workers (`ThreadPoolExecutor`), each a thread of its own, which run jobs that callers hand in. The crate
//! knows how a worker's thread lives, and nothing of where a job goes: that is `pool_core`, under a lock, with the jobs
//! themselves beside it.
//!
//! `#[inline(always)]` stands where a job and a worker's step pass on their way to the core. So each is one function
//! from where a thread makes it, and the kind of call is tested once.
#![tactic(auto)]

mod boxed;
mod chapters;
mod checkpoints;
mod closing;
mod home;
mod jobs;
mod laws;
mod ledgers;
mod making;
mod moving;
mod outcomes;
mod pool;
mod posts;
mod refusals;
mod rooms;
mod shared;
mod steps;
mod workers;
mod worth;

pub use boxed::{Boxed, ItsTag, JobFn};
pub use chapters::PoolChapter;
pub use closing::PoolChronicle;
pub use home::Home;
pub use jobs::{Call, Executed, Job, Work};
pub use laws::{closed_pools_keep_order, receipts_of_closed_pools_tell_places};
pub use ledgers::PoolLedgers;
pub use making::NewPool;
pub use outcomes::{Begun, Outcome};
pub use pool::{Pool, first_of, outcome_of};
pub use refusals::{PoolFault, PoolRefused, SeatRefused};
pub use shared::{Placed, PoolShared};
pub use steps::{Next, WorkerCall};
pub use workers::{Starter, ThreadStarter, Worker, start};
pub use worth::WorkerSeat;
