//! How often each outcome came.

use pool_threads::Outcome;
use std::fmt;
use std::fmt::{Display, Formatter, Write};

/// What comes of a job that is handed in; that a worker ended since it waited too long; and that records were taken out.
#[derive(Clone, Copy)]
pub enum Event {
    Handed,
    Started,
    Kept,
    KeptStart,
    Aborted,
    RanHere,
    Dropped,
    DroppedOldest,
    Expired,
    Rotated,
}

/// The names of the events, in their order.
const NAMES: [&str; 10] = [
    "handed",
    "started",
    "kept",
    "kept-start",
    "aborted",
    "ran-here",
    "dropped",
    "dropped-oldest",
    "expired",
    "rotated",
];

impl Event {
    /// The outcome of a job.
    pub fn of<C>(outcome: &Outcome<C>) -> Event {
        match outcome {
            Outcome::Handed(_) => Event::Handed,
            Outcome::Started(_) => Event::Started,
            Outcome::Kept => Event::Kept,
            Outcome::KeptStart(_) => Event::KeptStart,
            Outcome::Aborted(_) => Event::Aborted,
            Outcome::RanHere(_) => Event::RanHere,
            Outcome::Dropped(_) => Event::Dropped,
            Outcome::DroppedOldest(_, _) => Event::DroppedOldest,
        }
    }
}

/// How often each event came, in their order.
#[derive(Clone, Copy)]
pub struct Tally([u64; 10]);

/// Nothing came.
pub const NONE: Tally = Tally([0; 10]);

impl Tally {
    /// The same and this event.
    pub fn and(self, event: Event) -> Tally {
        let mut counts = self.0;
        if let Some(count) = counts.as_mut_slice().get_mut(event as usize) {
            *count = count.saturating_add(1);
        }
        Tally(counts)
    }

    /// Both together.
    pub fn with(self, other: Tally) -> Tally {
        let mut counts = self.0;
        for (count, more) in counts.iter_mut().zip(other.0.iter()) {
            *count = count.saturating_add(*more);
        }
        Tally(counts)
    }
}

impl Display for Tally {
    fn fmt<W: Write>(&self, f: &mut Formatter<W>) -> fmt::Result {
        let mut is_first = true;
        for (name, count) in NAMES.iter().zip(self.0.iter()) {
            if !is_first {
                f.write_str(" ")?;
            }
            is_first = false;
            write!(f, "{name} {count}")?;
        }
        Ok(())
    }
}
