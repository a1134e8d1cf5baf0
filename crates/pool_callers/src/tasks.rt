//! Jobs that return their tags.

ghost use Rattle.std.specs.Prelude.{◌≡◌};

use pool_threads::{Call, ItsTag};

/// States what is done once, by a job that returns its tag. What it computes it keeps where others can see it.
///
/// Java: `Runnable`.
///
/// # Example
/// From `crates/pool_callers_tests/src/jobs.rt`:
///
///     impl Run for Adds {
///         fn run(self) {
///             self.sum.fetch_add(self.number, Ordering::SeqCst);
pub trait Run {
    /// Does it.
    fn run(self);
}

/// A job of a tag, which runs this once, and returns its tag.
///
/// # Example
/// From `crates/pool_callers_tests/src/jobs.rt`:
///
///     Ok(Task::new(tag, Adds { number: tag, sum }))
#[derive(Drop)]
pub struct Task<J> {
    tag: u64,
    job: J,
}

impl<J> Task<J> {
    /// Creates the job of this tag.
    pub fn new(tag: u64, job: J) -> Self
        ensures { result.tag ≡ tag }
    {
        Task { tag, job }
    }
}

impl<J: Run> Call<ItsTag> for Task<J> {
    ghost tag_of = { λ task. task.tag };

    fn tag(&self) -> u64 {
        self.tag
    }

    fn make(self) -> u64 {
        let Task { tag, job } = self;
        job.run();
        tag
    }
}
