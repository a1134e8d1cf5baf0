//! The sizes, the queue and the policy of a pool.

ghost use Rattle.std.specs.Prelude.{◌≡◌, ◌<◌, ◌-◌, false, None};
ghost use Rattle.pool_core.specs.Limits.{most_together};

use meet_tickets::{End, MOST_KEPT, Order, Refusal};

/// The most callers and workers of a pool together.
pub const MOST_TOGETHER: u64 = 1_024;

/// The numbers of workers and callers of a pool, and its keep-alive time.
///
/// # Example
/// From `crates/examples/src/jobs.rt`:
///
///     sizes: Sizes {
///         core: 2,
///         maximum: 2,
///         callers: 1,
///         keep_alive: 60_000, // milliseconds
///         core_timeout: false,
///     },
#[derive(Clone, Copy, PartialEq, Eq, Debug)]
pub struct Sizes {
    /// While there are fewer workers than this, each job starts one. Java: `corePoolSize`.
    pub core: u64,
    /// The most workers. Java: `maximumPoolSize`.
    pub maximum: u64,
    /// How many seats may execute jobs.
    pub callers: u64,
    /// How long a worker waits for a job, in milliseconds. Java: `keepAliveTime`.
    pub keep_alive: u64,
    /// Whether a worker times out even if there are no more than `core`. Java: `allowCoreThreadTimeOut`.
    pub core_timeout: bool,
}

impl Sizes {
    /// Returns the sizes of a pool for a queue `Hand(Unfair)`: no core, and as many workers as may be.
    ///
    /// Java: `Executors.newCachedThreadPool`.
    pub fn cached(callers: u64) -> Self
        requires from { 0 < callers }
        requires to { callers < most_together }
        ensures { result ≡ record {
          core = 0;
          maximum = most_together - callers;
          callers = callers;
          keep_alive = 60000;
          core_timeout = false;
        } }
    {
        Sizes {
            core: 0,
            maximum: MOST_TOGETHER - callers,
            callers,
            keep_alive: 60_000,
            core_timeout: false,
        }
    }

    /// Returns the sizes of a pool for the queue `Unbounded`: `workers` workers at most, of which none times out.
    ///
    /// Java: `Executors.newFixedThreadPool`.
    pub fn fixed(callers: u64, workers: u64) -> Self
        ensures { result ≡ record {
          core = workers;
          maximum = workers;
          callers = callers;
          keep_alive = 0;
          core_timeout = false;
        } }
    {
        Sizes {
            core: workers,
            maximum: workers,
            callers,
            keep_alive: 0,
            core_timeout: false,
        }
    }

    /// Returns the sizes of a pool for the queue `Unbounded`: one worker, which runs the jobs in order of arrival.
    ///
    /// Java: `Executors.newSingleThreadExecutor`.
    pub fn single(callers: u64) -> Self
        ensures { result ≡ record {
          core = 1;
          maximum = 1;
          callers = callers;
          keep_alive = 0;
          core_timeout = false;
        } }
    {
        Sizes::fixed(callers, 1)
    }
}

/// The queue for a job that starts no worker.
#[derive(Clone, Copy, PartialEq, Eq, Debug)]
pub enum PoolQueue {
    /// Hands the job over, in this order: a waiting worker gets it, or none. Java: `SynchronousQueue`.
    Hand(Order),
    /// Buffers any number of jobs. Java: `LinkedTransferQueue`.
    Unbounded,
    /// Buffers at most this many jobs.
    Bounded(u64),
}

impl PoolQueue {
    ghost use Rattle.pool_core.specs.Pools.{queue_end};

    /// Returns the end of its wait queue at which it meets.
    pub fn end(&self) -> End
        ensures { result ≡ queue_end self.now }
    {
        match self {
            PoolQueue::Hand(order) => order.end(),
            PoolQueue::Unbounded => End::Front,
            PoolQueue::Bounded(_) => End::Front,
        }
    }
}

/// What happens to a job that is rejected.
#[derive(Clone, Copy, PartialEq, Eq, Debug)]
pub enum Policy {
    /// It is returned. Java: `AbortPolicy`.
    Abort,
    /// Its caller runs it. Java: `CallerRunsPolicy`.
    CallerRuns,
    /// It is dropped. Java: `DiscardPolicy`.
    Discard,
    /// The oldest buffered job is dropped, and the rejected one is executed again. Java: `DiscardOldestPolicy`.
    DiscardOldest,
}

/// What a pool is made with.
#[derive(Clone, Copy, PartialEq, Eq, Debug)]
pub struct Settings {
    /// The numbers of workers and callers, and the keep-alive time.
    pub sizes: Sizes,
    /// The queue of jobs.
    pub queue: PoolQueue,
    /// What happens to a job that is rejected.
    pub policy: Policy,
}

impl Settings {
    ghost use Rattle.pool_core.specs.Calls.{settings_refusal};

    /// Returns why no pool can be made of these, if none can: BadSizes, then PolicyNeedsBuffer.
    pub fn refusal(&self) -> Option<Refusal>
        ensures { result ≡ settings_refusal self.now }
    {
        let sizes = &self.sizes;
        let bad_queue = match self.queue {
            PoolQueue::Hand(order) => order == Order::Transfer,
            PoolQueue::Unbounded => false,
            PoolQueue::Bounded(most) => most == 0 || most > MOST_KEPT,
        };
        if sizes.callers == 0
            || sizes.maximum == 0
            || sizes.maximum < sizes.core
            || sizes.callers > MOST_TOGETHER
            || sizes.maximum > MOST_TOGETHER - sizes.callers
            || (sizes.core_timeout && sizes.keep_alive == 0)
            || bad_queue
        {
            return Some(Refusal::BadSizes);
        }
        match (self.policy, self.queue) {
            (Policy::DiscardOldest, PoolQueue::Hand(_)) => Some(Refusal::PolicyNeedsBuffer),
            _ => None,
        }
    }
}
