//! The calls of a pool's script.

use meet_tickets::SeatNo;

/// A call. The seats of workers have the numbers after all callers'.
#[derive(Clone, Copy, PartialEq, Eq, Debug)]
pub struct PoolRequest {
    /// The seat that makes it.
    pub seat: SeatNo,
    /// The operation.
    pub verb: PoolVerb,
}

/// The operation of a call (its verb). Jobs are numbers, and their own tags.
#[derive(Clone, Copy, PartialEq, Eq, Debug)]
pub enum PoolVerb {
    /// `ThreadPoolExecutor.execute`, of the job with this tag.
    Execute(u64),
    /// A worker that starts, or has finished a job, asks for one.
    Ready,
    /// A worker whose take waits asks whether it was handed a job.
    Follow,
    /// A worker's job returned this.
    Finish(u64),
    /// A worker's keep-alive time ran out.
    Idle,
    /// A worker that starts without a job ends.
    Leave,
    /// A worker's thread couldn't be started.
    Failed,
    /// `ThreadPoolExecutor.shutdown`.
    ShutDown,
    /// `ThreadPoolExecutor.shutdownNow`.
    Now,
    /// What the pool counts (`getPoolSize`, `getActiveCount`, `getQueue().size()`, `getCompletedTaskCount`,
    /// `getLargestPoolSize`).
    Counters,
    /// The records so far are compacted.
    Checkpoint,
}
