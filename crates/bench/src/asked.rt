//! The words of the command line.

ghost use Rattle.std.specs.Prelude.{◌≤◌, IfSome};

use crate::handoffs::{Race, Timing};
use crate::jobs::JobRace;
use meet_tickets::{MOST_RECORDS, MOST_SEATS, Order};
use pool_core::{PoolQueue, Sizes};
use std::time::Duration;

/// What is said of words that can't be read, and of numbers that are out of their limits.
pub const USAGE: &str = "\
usage: bench handoffs PAIRS EACH ROUNDS [tails | steady] [CAP]
       bench handles HANDED PASSED
       bench exchanges THREADS EACH ROUNDS
       bench alone MILLISECONDS
       bench checkpoints SEATS KEPT ROUNDS
       bench withdrawals WAITING ROUNDS
       bench jobs fixed|bounded|cached WORKERS CALLERS EACH NANOSECONDS ROUNDS
PAIRS and THREADS are 1 to 64, EACH 1 to 100000000, with tails at most 1000000, CAP 1 to 1048576, SEATS and WAITING
1 to 65536, KEPT at most 1000000, ROUNDS of checkpoints and withdrawals 1 to 100000, WORKERS and CALLERS 1 to 256";

/// How many threads put at most, how many take, and how many exchange.
const MOST_THREADS: u64 = 64;

/// How many calls a thread makes at most.
const MOST_EACH: u64 = 100_000_000;

/// How many calls a thread makes at most whose times are noted, and how many items are kept at most.
const MOST_NOTED: u64 = 1_000_000;

/// How many rounds a seat makes at most that makes all calls: the records of one fit into a log.
const MOST_ROUNDS: u64 = 100_000;

/// How many workers and callers there are at most.
const MOST_CALLERS: u64 = 256;

/// How many jobs a bounded pool buffers.
const MOST_KEPT: u64 = 1_024;

/// What a command line asks for.
#[derive(Clone, Copy)]
pub enum Measure {
    /// How long threads take to hand items on at a queue whose seats they hold.
    Handoffs(Race),
    /// That threads with handles hand items on, and that one puts and polls them.
    Handles {
        handed: u64,
        passed: u64,
    },
    /// How long threads take to exchange items.
    Exchanges {
        threads: u64,
        each: u64,
        rounds: u64,
    },
    /// What a thread takes that waits this many milliseconds for a partner.
    Alone(u64),
    /// How long checkpoints take.
    Checkpoints {
        seats: u64,
        kept: u64,
        rounds: u64,
    },
    /// How long it takes to take a request back.
    Withdrawals {
        waiting: u64,
        rounds: u64,
    },
    /// How long a pool takes to run jobs.
    Jobs(JobRace),
}

/// The number that this word spells, if it is within these limits.
fn number(word: &String, least: u64, most: u64) -> Option<u64>
    ensures { IfSome result (λ number. (least ≤ number) × (number ≤ most)) }
{
    let number: u64 = word.as_str().parse().ok()?;
    if number < least || number > most {
        return None;
    }
    Some(number)
}

/// How handoffs are timed, by the words after their numbers.
fn timing(words: &[String]) -> Option<(Timing, u64)> {
    let (word, cap) = match words {
        [] => return Some((Timing::Whole, MOST_RECORDS)),
        [word] => (word, MOST_RECORDS),
        [word, cap] => (word, number(cap, 1, MOST_RECORDS)?),
        _ => return None,
    };
    match word.as_str() {
        "tails" => Some((Timing::Tails, cap)),
        "steady" => Some((Timing::Steady, cap)),
        _ => None,
    }
}

/// The handoffs that these words ask for.
fn handoffs(words: &[String]) -> Option<Measure> {
    let [pairs, each, rounds, more @ ..] = words else {
        return None;
    };
    let (timing, cap) = timing(more)?;
    let most = match timing {
        Timing::Tails => MOST_NOTED,
        Timing::Whole | Timing::Steady => MOST_EACH,
    };
    Some(Measure::Handoffs(Race {
        pairs: number(pairs, 1, MOST_THREADS)?,
        each: number(each, 1, most)?,
        rounds: number(rounds, 1, u64::MAX)?,
        timing,
        cap,
    }))
}

/// The jobs that these words ask for.
fn jobs(words: &[String]) -> Option<Measure> {
    let [pool, workers, callers, each, lasts, rounds] = words else {
        return None;
    };
    let workers = number(workers, 1, MOST_CALLERS)?;
    let callers = number(callers, 1, MOST_CALLERS)?;
    let (sizes, queue) = match pool.as_str() {
        "fixed" => (Sizes::fixed(callers, workers), PoolQueue::Unbounded),
        "bounded" => (
            Sizes::fixed(callers, workers),
            PoolQueue::Bounded(MOST_KEPT),
        ),
        "cached" => (Sizes::cached(callers), PoolQueue::Hand(Order::Unfair)),
        _ => return None,
    };
    Some(Measure::Jobs(JobRace {
        sizes,
        queue,
        each: number(each, 1, u64::MAX)?,
        lasts: Duration::from_nanos(number(lasts, 0, u64::MAX)?),
        rounds: number(rounds, 1, u64::MAX)?,
    }))
}

/// One of the measures of three numbers.
fn by_three(name: &str, words: &[String]) -> Option<Measure> {
    let [first, second, rounds] = words else {
        return None;
    };
    match name {
        "exchanges" => Some(Measure::Exchanges {
            threads: number(first, 1, MOST_THREADS)?,
            each: number(second, 1, MOST_EACH)?,
            rounds: number(rounds, 1, u64::MAX)?,
        }),
        "checkpoints" => Some(Measure::Checkpoints {
            seats: number(first, 1, MOST_SEATS)?,
            kept: number(second, 0, MOST_NOTED)?,
            rounds: number(rounds, 1, MOST_ROUNDS)?,
        }),
        _ => None,
    }
}

impl Measure {
    /// Reads the words of a command line, the program's name first. None if they can't be read, or a number is out of its
    /// limits.
    pub fn of_words(words: &[String]) -> Option<Measure> {
        let [_, name, rest @ ..] = words else {
            return None;
        };
        match (name.as_str(), rest) {
            ("handoffs", words) => handoffs(words),
            ("jobs", words) => jobs(words),
            ("handles", [handed, passed]) => Some(Measure::Handles {
                handed: number(handed, 0, u64::MAX)?,
                passed: number(passed, 0, u64::MAX)?,
            }),
            ("withdrawals", [waiting, rounds]) => Some(Measure::Withdrawals {
                waiting: number(waiting, 1, MOST_SEATS)?,
                rounds: number(rounds, 1, MOST_ROUNDS)?,
            }),
            ("alone", [milliseconds]) => Some(Measure::Alone(number(milliseconds, 0, u64::MAX)?)),
            (name, words) => by_three(name, words),
        }
    }
}
