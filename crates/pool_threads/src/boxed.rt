//! Boxed closures as jobs.

ghost use Rattle.std.specs.Prelude.{◌≡◌, ℕ};

use crate::jobs::{Call, Work};

/// The worth of jobs that return their tags.
pub struct ItsTag;

impl Work for ItsTag {
    ghost worth = { λ tag. tag };
}

/// A boxed function, which returns a number.
pub type JobFn = Box<dyn FnOnce() -> u64 + Send>;

/// A boxed function as a job, which returns its tag.
#[derive(Drop)]
pub struct Boxed {
    tag: u64,
    call: JobFn,
    ghost ready: { JobFn.pre call },
    ghost worthy: { (answer : ℕ) → JobFn.post call answer → answer ≡ tag },
}

impl Boxed {
    /// Creates a job of this tag, which calls the function once.
    ///
    /// # Example
    /// From `crates/examples/src/jobs.rt`:
    ///
    ///     let call: JobFn = Box::new(
    ///         alloc,
    ///         move || -> u64
    ///             ensures { result ≡ n }
    ///         { n },
    ///     )
    ///     .map_err(|_| Refusal::Memory)?;
    ///     jobs.push(Boxed::new(n, call)).map_err(|_| Refusal::Memory)?; // each is worth its tag
    pub fn new(tag: u64, call: JobFn) -> Self
        requires ready { JobFn.pre call }
        requires worthy { (answer : ℕ) → JobFn.post call answer → answer ≡ tag }
        ensures { result.tag ≡ tag }
    {
        Boxed { tag, call }
    }
}

impl Call<ItsTag> for Boxed {
    ghost tag_of = { λ job. job.tag };

    fn tag(&self) -> u64 {
        self.tag
    }

    fn make(self) -> u64 {
        let Boxed { tag: _, call } = self;
        call()
    }
}
