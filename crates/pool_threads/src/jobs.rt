//! Jobs, and what happens to a job that is handed in.

ghost use Rattle.std.specs.Prelude.{◌≡◌, ◌≢◌, ℕ, MatchOption};

use meet_tickets::Ticket;
use std::fmt;
use std::fmt::{Debug, Formatter, Write};

/// States what the jobs of a pool return, by their tags (job ids).
pub trait Work {
    /// The number that a job of this tag returns.
    ghost worth: { ℕ → ℕ };
}

/// States what a job does once.
pub trait Call<W: Work> {
    /// The job's tag.
    ghost tag_of: { Self → ℕ };

    /// Returns the job's tag.
    fn tag(&self) -> u64
        ensures { result ≡ tag_of self.now };

    /// Does the job, and returns what its tag is worth.
    fn make(self) -> u64
        ensures { result ≡ W.worth (tag_of self) };
}

/// A job, identified by its tag (a job id).
#[derive(Drop)]
pub struct Job<C> {
    tag: u64,
    call: C,
}

/// Its tag alone: what it does need not be such as can be shown.
impl<C> Debug for Job<C> {
    fn fmt<W: Write>(&self, f: &mut Formatter<W>) -> fmt::Result {
        write!(f, "Job({})", self.tag)
    }
}

impl<C> Job<C> {
    /// Creates the job of this call.
    ///
    /// # Example
    /// From `crates/examples/src/jobs/running.rt`:
    ///
    ///     match pool.execute(rt, seat, Job::new::<ItsTag>(job)) {
    pub fn new<W: Work>(call: C) -> Self
    where
        C: Call<W>,
        ensures tag { result.tag ≡ C.tag_of call }
        ensures call { result.call ≡ call }
    {
        let tag = call.tag();
        Job { tag, call }
    }

    /// Returns its tag.
    pub fn tag(&self) -> u64
        ensures { result ≡ self.now.tag }
    {
        self.tag
    }

    /// Returns its call.
    pub fn into_call(self) -> C
        ensures { result ≡ self.call }
    {
        let Job { tag: _, call } = self;
        call
    }

    /// Runs the job if it is of its tag, as all are that `new` made, and returns what the tag is worth; None exactly if
    /// it isn't of its tag.
    pub fn run<W: Work>(self) -> Option<u64>
    where
        C: Call<W> + Drop,
        ensures { MatchOption result (C.tag_of self.call ≢ self.tag) (λ answer. answer ≡ W.worth self.tag) }
    {
        let Job { tag, call } = self;
        if call.tag() != tag {
            return None;
        }
        Some(call.make())
    }
}

/// What happened to a job that was handed in.
#[derive(Debug, Drop)]
pub enum Executed<C> {
    /// It was handed to this worker, which waited.
    Handed(u64),
    /// This worker is to be started with it.
    Started(u64),
    /// It is buffered.
    Kept,
    /// It is buffered, and this worker is to be started.
    KeptStart(u64),
    /// It is rejected, and returned.
    Aborted(Job<C>),
    /// Its caller runs it.
    CallerRuns(Job<C>),
    /// It is dropped, and returned.
    Dropped(Job<C>),
    /// The oldest buffered job, of this ticket, is dropped and returned, and the new one is buffered.
    DroppedOldest(Ticket, Job<C>),
}
