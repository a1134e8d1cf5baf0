//! Moments: lower bounds of a count that only grows. They take no bytes, and their functions do nothing at run time.
#![tactic(auto)]

ghost use Rattle.std.specs.Prelude.{◌≡◌, ◌+◌, ◌≤◌, ℕ, max};
ghost use denote.Sharing.{said};
ghost use Rattle.meet_moments.specs.Kept.{counter_owns, moment_owns};

use std::marker::{Model, PhantomData};

/// A count that only grows, such as the number of records in a log. Each name has one counter.
pub struct Counter {
    marker: PhantomData<()>,
    /// The name, which no other counter has.
    pub ghost name: { ℕ },
    /// The count.
    pub ghost now: { ℕ },
}

impl Model for Counter {
    ghost also_owns = { λ c. counter_owns c.name c.now };
}

/// The knowledge that the counter of this name has reached at least this count. It stays true, so it may be copied and
/// sent to any thread.
pub struct Moment {
    marker: PhantomData<()>,
    /// The name of the counter.
    pub ghost name: { ℕ },
    /// The count that it has reached.
    pub ghost at: { ℕ },
}

impl Model for Moment {
    ghost also_owns = { λ m. moment_owns m.name m.at };

    ghost also_shares = { λ m _ κ. said (moment_owns m.name m.at) κ };
}

impl Counter {
    /// Creates a counter with a name of its own, at 0.
    pub fn new() -> Counter
        ensures { result.now ≡ 0 }
    {
        Counter {
            marker: PhantomData,
        }
    }

    /// Returns the moment at which the counter stands.
    pub fn moment(&mut self) -> Moment
        ensures moment { (result.name ≡ self.old.name) × (result.at ≡ self.old.now) }
        ensures same { self.new ≡ self.old }
    {
        Moment {
            marker: PhantomData,
        }
    }

    /// Raises the counter by `by`, and the moment to the counter's new count. No moment was above the old count, so a
    /// record that is logged now comes after all that the moment's owner has seen.
    pub fn advance(&mut self, moment: &mut Moment, by: u64)
        requires { moment.old.name ≡ self.old.name }
        ensures before { moment.old.at ≤ self.old.now }
        ensures counter { (self.new.name ≡ self.old.name) × (self.new.now ≡ self.old.now + by) }
        ensures moment { (moment.new.name ≡ self.old.name) × (moment.new.at ≡ self.old.now + by) }
    {}
}

impl Moment {
    /// Returns a copy.
    pub fn again(&self) -> Moment
        ensures { result ≡ self.now }
    {
        Moment {
            marker: PhantomData,
        }
    }

    /// Raises this moment to the other one, if that is later.
    pub fn learn(&mut self, other: &Moment)
        requires { other.now.name ≡ self.old.name }
        ensures name { self.new.name ≡ self.old.name }
        ensures at { self.new.at ≡ max self.old.at other.now.at }
    {}
}

impl Drop for Counter {
    fn drop(self) {
        let Self { marker: _ } = self;
    }
}

impl Drop for Moment {
    fn drop(self) {
        let Self { marker: _ } = self;
    }
}

unsafe impl Send for Counter {}

unsafe impl Send for Moment {}

unsafe impl Sync for Moment {}
