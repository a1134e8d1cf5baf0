//! What threads count, and how long calls take.

ghost use Rattle.std.specs.Prelude.{◌<◌};

use meet_sync::{End, Ended, Ledgers, Seat, SeatRefused};
use meet_tickets::{Deed, Refusal};
use std::fmt;
use std::fmt::{Display, Formatter, Write};
use std::time::{Clock, Instant};

/// How many items came, their sum, and why calls ended early, if they did.
#[derive(Clone, Copy, PartialEq, Eq, Debug)]
pub struct Count {
    pub items: u64,
    pub sum: u64,
    pub why: Option<Refusal>,
}

/// No items.
pub const NOTHING: Count = Count {
    items: 0,
    sum: 0,
    why: None,
};

impl Count {
    /// The same and this item.
    pub fn and(self, item: u64) -> Count {
        Count {
            items: self.items.saturating_add(1),
            sum: self.sum.saturating_add(item),
            ..self
        }
    }

    /// The same, of calls that ended early, for this reason if there was none before.
    pub fn refused(self, why: Refusal) -> Count {
        Count {
            why: self.why.or(Some(why)),
            ..self
        }
    }

    /// Both counts together, and the first reason.
    pub fn with(self, other: Count) -> Count {
        Count {
            items: self.items.saturating_add(other.items),
            sum: self.sum.saturating_add(other.sum),
            why: self.why.or(other.why),
        }
    }
}

/// How a put or a take passed.
#[derive(Clone, Copy, PartialEq, Eq, Debug)]
pub enum Passed {
    /// The item was taken, or is buffered.
    Gave,
    /// This item was got.
    Got(u64),
    /// It was interrupted, since all are to stop.
    Stopped,
    /// It was refused.
    Refused(Refusal),
}

impl Passed {
    /// How a call passed that ended so.
    pub fn of(end: End<u64>) -> Passed {
        match end {
            End::Gave(_) => Passed::Gave,
            End::Kept => Passed::Gave,
            End::Done => Passed::Gave,
            End::Got(_, item) => Passed::Got(item),
            _ => Passed::Stopped,
        }
    }

    /// The count after such a call, and whether its thread goes on.
    pub fn add_to(self, count: Count) -> (Count, bool) {
        match self {
            Passed::Gave => (count, true),
            Passed::Got(item) => (count.and(item), true),
            Passed::Stopped => (count, false),
            Passed::Refused(why) => (count.refused(why), false),
        }
    }
}

/// The seat after a call, and how that passed.
pub fn after<N: Ledgers>(
    called: Result<Ended<u64, N>, SeatRefused<u64, N>>,
) -> (Seat<Deed, N>, Passed) {
    match called {
        Ok(Ended { seat, end }) => (seat, Passed::of(end)),
        Err(refused) => (refused.seat, Passed::Refused(refused.why)),
    }
}

/// The time now.
pub fn now<R: Clock>(rt: &R) -> Result<Instant, Refusal> {
    Instant::now(rt).map_err(|_| Refusal::ReadFault)
}

/// How many nanoseconds have passed since then.
pub fn since<R: Clock>(rt: &R, start: Instant) -> Result<u128, Refusal> {
    match start.elapsed(rt) {
        Ok(passed) => Ok(passed.as_nanos()),
        Err(_) => Err(Refusal::ReadFault),
    }
}

/// Notes how many nanoseconds have passed since then. Notes nothing if the clock can't be read, or memory runs out.
pub fn note<R: Clock>(rt: &R, start: Result<Instant, Refusal>, times: &mut Vec<u128>) {
    if let Ok(nanoseconds) = start.and_then(|start| since(rt, start)) {
        let _ = times.push(nanoseconds);
    }
}

/// How long many calls took, in nanoseconds: the median, and what 99 in 100 and 999 in 1,000 didn't exceed.
#[derive(Clone, Copy, PartialEq, Eq, Debug)]
pub struct Spread {
    median: u128,
    hundredth: u128,
    thousandth: u128,
}

/// What all but one in this many of these times don't exceed. They are in rising order.
fn all_but_one_in(many: usize, times: &[u128]) -> u128
    requires { 0 < many }
{
    let ahead = times.len().saturating_sub(times.len() / many);
    match times.get(ahead.saturating_sub(1)) {
        Some(nanoseconds) => *nanoseconds,
        None => 0,
    }
}

impl Spread {
    /// That of these times.
    pub fn of(mut times: Vec<u128>) -> Spread {
        times.sort_unstable();
        let times = times.as_slice();
        Spread {
            median: all_but_one_in(2, times),
            hundredth: all_but_one_in(100, times),
            thousandth: all_but_one_in(1_000, times),
        }
    }
}

impl Display for Spread {
    fn fmt<W: Write>(&self, f: &mut Formatter<W>) -> fmt::Result {
        write!(
            f,
            "median {} p99 {} p999 {}",
            self.median, self.hundredth, self.thousandth
        )
    }
}
