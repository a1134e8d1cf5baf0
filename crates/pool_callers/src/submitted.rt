//! Jobs that were handed in, and won't be run.

ghost use Rattle.std.specs.Prelude.{◌≡◌, Some, IsOkAnd, IsErrAnd, IfOk, IfErr};
ghost use Rattle.pool_callers.specs.Submits.{IsTaken, EndsFor, Gives};

use crate::refused::ExecuteRefused;
use meet_tickets::{Refusal, Ticket};
use pool_threads::{Job, Outcome};
use std::error::Error;
use std::fmt;
use std::fmt::{Debug, Display, Formatter, Write};

/// Why a job won't be run. As an error its text is its name.
#[derive(Clone, Copy, PartialEq, Eq, Debug)]
pub enum NotRun {
    /// The pool rejected it. Java: `RejectedExecutionException`, by `ThreadPoolExecutor.AbortPolicy`.
    Rejected,
    /// The pool discarded it. Java: `ThreadPoolExecutor.DiscardPolicy`.
    Discarded,
    /// The pool took the job that was handed in, and discarded the oldest that it had buffered, of this ticket. Java:
    /// `ThreadPoolExecutor.DiscardOldestPolicy`.
    Displaced(Ticket),
    /// The call was refused for this reason.
    Refused(Refusal),
}

impl NotRun {
    /// Returns its name.
    pub fn name(&self) -> &'static str {
        match self {
            NotRun::Rejected => "Rejected",
            NotRun::Discarded => "Discarded",
            NotRun::Displaced(_) => "Displaced",
            NotRun::Refused(why) => why.name(),
        }
    }
}

/// Its name.
impl Display for NotRun {
    fn fmt<W: Write>(&self, f: &mut Formatter<W>) -> fmt::Result {
        f.write_str(self.name())
    }
}

impl Error for NotRun {}

/// A job that won't be run, and why. It is no error type: so a `?` returns it whole or doesn't compile, and no job is
/// dropped in silence.
#[derive(Drop)]
pub struct Unrun<C> {
    /// The reason.
    pub why: NotRun,
    /// The job: the one that was handed in, or the one that it displaced. None if the job is buffered all the same,
    /// after NoThread.
    pub job: Option<Job<C>>,
}

impl<C: Drop> Unrun<C> {
    /// Returns the reason alone, and drops the job: match the error to keep it.
    pub fn into_why(self) -> NotRun
        ensures { result ≡ self.why }
    {
        self.why
    }
}

/// The name of the reason.
impl<C> Display for Unrun<C> {
    fn fmt<W: Write>(&self, f: &mut Formatter<W>) -> fmt::Result {
        f.write_str(self.why.name())
    }
}

/// The reason, and the job's tag: what it does need not be such as can be shown.
impl<C> Debug for Unrun<C> {
    fn fmt<W: Write>(&self, f: &mut Formatter<W>) -> fmt::Result {
        write!(f, "Unrun({}, {:?})", self.why, self.job)
    }
}

/// A job that won't be run for this reason.
fn returned<C>(why: NotRun, job: Job<C>) -> Result<(), Unrun<C>>
    ensures { IsErrAnd result (λ unrun. (unrun.why ≡ why) × (unrun.job ≡ Some job)) }
{
    Err(Unrun {
        why,
        job: Some(job),
    })
}

/// The result of `submit`, by the outcome of its job.
fn came_to<C>(outcome: Outcome<C>) -> Result<(), Unrun<C>>
    ensures taken { IfOk result (λ _. IsTaken outcome) }
    ensures unrun { IfErr result (λ unrun. EndsFor unrun.why unrun.job outcome) }
{
    match outcome {
        Outcome::Handed(_) => Ok(()),
        Outcome::Started(_) => Ok(()),
        Outcome::Kept => Ok(()),
        Outcome::KeptStart(_) => Ok(()),
        Outcome::RanHere(_) => Ok(()), // what it returned is what its tag is worth
        Outcome::Aborted(job) => returned(NotRun::Rejected, job),
        Outcome::Dropped(job) => returned(NotRun::Discarded, job),
        Outcome::DroppedOldest(ticket, oldest) => returned(NotRun::Displaced(ticket), oldest),
    }
}

/// The result of `submit`, by that of `execute`.
pub(crate) fn submitted<C>(executed: Result<Outcome<C>, ExecuteRefused<C>>) -> Result<(), Unrun<C>>
    ensures taken { IfOk result (λ _. IsOkAnd executed IsTaken) }
    ensures unrun { IfErr result (λ unrun. Gives executed unrun.why unrun.job) }
{
    match executed {
        Ok(outcome) => came_to(outcome),
        Err(refused) => {
            let ExecuteRefused { why, job } = refused;
            Err(Unrun {
                why: NotRun::Refused(why),
                job,
            })
        }
    }
}
