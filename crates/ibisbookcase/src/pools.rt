//! The pool of threads (`ThreadPoolExecutor`).
//!
//! A job is a closure without an argument, which is done once and returns a `u64`, in a `Box`. It is `Send`, so what it
//! captures is moved to a worker. `Boxed` gives it a tag: a number by which records name it, and which it returns. It
//! can be called at once, and ends: both are proved. From `crates/examples/src/jobs.rt`:
//!
//!     let call: JobFn = Box::new(
//!         alloc,
//!         move || -> u64
//!             ensures { result ≡ n }
//!         { n },
//!     )
//!     .map_err(|_| Refusal::Memory)?;
//!     jobs.push(Boxed::new(n, call)).map_err(|_| Refusal::Memory)?; // each is worth its tag
//!
//! A job that returns another number than its tag is a type with a `Call` of a `Work` of its own. `check_pool` and
//! `PoolChecker` check the records of a pool.

pub use meet_cells::{ParkGate, SpinGate};
pub use meet_place::{Back, Blanks, Gate, Ledgers, Moment, Seat};
pub use meet_tickets::{Record, Refusal, Ticket};
pub use pool_callers::{
    Answer, ExecuteRefused, Finished, KeepLog, NotRun, PoolCaller, PoolHandle, Run, Task, Unrun,
    answers_of, run_cached_pool, run_fixed_pool, run_pool, run_single_pool,
};
pub use pool_core::{Counters, Policy, PoolDeed, PoolQueue, Settings, Sizes};
pub use pool_history::{PoolChecker, PoolFault as IllegalPool, PoolWhy, check_pool};
pub use pool_threads::{
    Boxed, Call, ItsTag, Job, JobFn, NewPool, Outcome, Pool, PoolChapter, PoolChronicle, PoolFault,
    PoolLedgers, PoolRefused, SeatRefused, Starter, ThreadStarter, Work, Worker,
};
