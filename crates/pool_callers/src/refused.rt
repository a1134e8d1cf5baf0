//! Jobs that weren't taken.

ghost use Rattle.std.specs.Prelude.{◌≡◌};

use meet_tickets::Refusal;
use pool_threads::Job;
use std::fmt;
use std::fmt::{Debug, Display, Formatter, Write};

/// The error of `PoolHandle::execute`. The job is returned, unless it is buffered after NoThread. Its text is the name of
/// the reason. It is no error type, and no `From` makes it a `Refusal`, since that would drop the job: a `?` returns it
/// whole or doesn't compile.
#[derive(Drop)]
pub struct ExecuteRefused<C> {
    /// The reason.
    pub why: Refusal,
    /// The job, if it isn't buffered.
    pub job: Option<Job<C>>,
}

impl<C: Drop> ExecuteRefused<C> {
    /// Returns the reason alone, and drops the job: match the error to keep it.
    pub fn into_why(self) -> Refusal
        ensures { result ≡ self.why }
    {
        self.why
    }
}

/// The name of the reason.
impl<C> Display for ExecuteRefused<C> {
    ghost use Rattle.std.specs.Prelude.{Some};
    ghost use Rattle.meet_tickets.specs.Refusals.{name_of};

    ghost output = { λ refused. Some (name_of refused.why) };

    fn fmt<W: Write>(&self, f: &mut Formatter<W>) -> fmt::Result {
        f.write_str(self.why.name())
    }
}

/// The reason alone: the job need not be one that can be shown.
impl<C> Debug for ExecuteRefused<C> {
    fn fmt<W: Write>(&self, f: &mut Formatter<W>) -> fmt::Result {
        write!(f, "ExecuteRefused({})", self.why)
    }
}
