//! When a wait is over.

ghost use Rattle.std.specs.Prelude.{◌≡◌, None, IfNone};

use std::time::{Clock, Duration, Instant};

/// When a wait is over: some milliseconds after it began, which isn't known if there is no clock. It is a hint: no
/// clause states when a wait is over.
#[derive(Clone, Copy, Debug)]
pub struct Deadline {
    start: Option<Instant>,
    limit: u64,
}

impl Deadline {
    /// Returns the deadline `limit` milliseconds from now; none without a limit, and then no clock is read.
    pub fn after<R: Clock>(rt: &R, limit: Option<u64>) -> Option<Deadline>
        ensures untimed { IfNone limit (result ≡ None) }
    {
        match limit {
            None => None,
            Some(limit) => Some(Deadline {
                start: Instant::now(rt).ok(),
                limit,
            }),
        }
    }

    /// How long ago it began; none where there is no clock.
    fn passed<R: Clock>(&self, rt: &R) -> Option<Duration> {
        self.start?.elapsed(rt).ok()
    }

    /// How long it is until then; none where the time is up, or where there is no clock.
    pub(crate) fn rest<R: Clock>(&self, rt: &R) -> Option<Duration> {
        let rest = Duration::from_millis(self.limit).checked_sub(self.passed(rt)?)?;
        if rest.is_zero() { None } else { Some(rest) }
    }

    /// Returns how many milliseconds remain, a begun one counted whole: 0 if the time is up, and all if there is no
    /// clock.
    pub fn remaining<R: Clock>(&self, rt: &R) -> u64 {
        match self.passed(rt) {
            None => self.limit,
            Some(passed) => {
                let passed = u64::try_from(passed.as_millis()).unwrap_or(u64::MAX);
                self.limit.saturating_sub(passed)
            }
        }
    }
}
