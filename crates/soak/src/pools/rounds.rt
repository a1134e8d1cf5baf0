//! What a round at a pool is of, by its number: the pool, its jobs, and when it is shut down.

ghost use Rattle.std.specs.Prelude.{◌<◌};

use meet_shop::Chance;
use meet_tickets::Order;
use pool_core::{Policy, PoolQueue, Settings, Sizes};

/// How a pool is shut down.
#[derive(Clone, Copy)]
pub enum Stop {
    /// Kept jobs are done first.
    Later,
    /// Kept jobs come back.
    Now,
}

/// What a round is of.
#[derive(Clone, Copy)]
pub struct Round {
    pub number: u64,
    pub sizes: Sizes,
    pub queue: PoolQueue,
    pub policy: Policy,
    /// How many jobs each caller hands in.
    pub each: u64,
    /// The first caller shuts the pool down behind so many of its jobs.
    pub stops_behind: u64,
    pub stop: Stop,
}

/// One of the queues.
fn queue_of(chance: &mut Chance) -> PoolQueue {
    match chance.below(4) {
        0 => PoolQueue::Hand(Order::Fair),
        1 => PoolQueue::Hand(Order::Unfair),
        2 => PoolQueue::Bounded(chance.below(8).saturating_add(1)),
        _ => PoolQueue::Unbounded,
    }
}

/// Whether a queue keeps jobs.
fn keeps(queue: PoolQueue) -> bool {
    match queue {
        PoolQueue::Hand(_) => false,
        _ => true,
    }
}

/// One of the policies. Where no job is kept, there is none that is the oldest.
fn policy_of(queue: PoolQueue, chance: &mut Chance) -> Policy {
    match chance.below(if keeps(queue) { 4 } else { 3 }) {
        0 => Policy::Abort,
        1 => Policy::CallerRuns,
        2 => Policy::Discard,
        _ => Policy::DiscardOldest,
    }
}

/// From 1 to 8 callers and 1 to 16 workers, which wait for a job for 1 to 3 milliseconds at most.
fn sizes_of(number: u64, chance: &mut Chance) -> Sizes
    ensures { 0 < result.callers }
{
    let maximum = 1 + number / 8 % 16;
    Sizes {
        core: chance.below(maximum + 1),
        maximum,
        callers: 1 + number % 8,
        keep_alive: chance.below(3).saturating_add(1),
        core_timeout: chance.below(2) == 0,
    }
}

/// How many jobs a round has: 100 to 1,000, and one in a hundred 10,000.
fn jobs_of(number: u64, chance: &mut Chance) -> u64 {
    if number % 100 == 99 {
        10_000
    } else {
        chance.below(10).saturating_add(1).saturating_mul(100)
    }
}

impl Round {
    /// The round of this number.
    pub fn of(number: u64) -> Round {
        let mut chance = Chance::new(number);
        let sizes = sizes_of(number, &mut chance);
        let each = jobs_of(number, &mut chance).div_ceil(sizes.callers);
        let queue = queue_of(&mut chance);
        Round {
            number,
            sizes,
            queue,
            policy: policy_of(queue, &mut chance),
            each,
            stops_behind: if chance.below(2) == 0 {
                each
            } else {
                chance.below(each)
            },
            stop: if chance.below(2) == 0 {
                Stop::Later
            } else {
                Stop::Now
            },
        }
    }

    /// What its pool is made with.
    pub fn settings(self) -> Settings {
        Settings {
            sizes: self.sizes,
            queue: self.queue,
            policy: self.policy,
        }
    }

    /// How many jobs there are.
    pub fn jobs(self) -> u64 {
        self.each.saturating_mul(self.sizes.callers)
    }

    /// The numbers of chance of this caller.
    pub fn chance_of(self, caller: u64) -> Chance {
        Chance::new(self.number.wrapping_mul(64).wrapping_add(caller))
    }
}
