//! Pools in one call: a function makes a pool, runs the threads that hand jobs in (its callers), and closes the pool
//! after them. Each of them borrows a handle, which keeps its seat. So every seat is there when the pool is closed,
//! whatever the thread did.
//!
//! What a call of a handle does, the pool's contracts state (`pool_threads`).
#![tactic(auto)]

mod answers;
mod at;
mod calling;
mod handle;
mod keeping;
mod refused;
mod runs;
mod starting;
mod submitted;
mod tasks;

pub use answers::{Answer, answers_of};
pub use handle::PoolHandle;
pub use keeping::KeepLog;
pub use meet_threads::Finished;
pub use refused::ExecuteRefused;
pub use runs::{PoolCaller, run_cached_pool, run_fixed_pool, run_pool, run_single_pool};
pub use submitted::{NotRun, Unrun};
pub use tasks::{Run, Task};
