//! What a worker does.

use meet_tickets::Ticket;

/// A job, and the ticket that identifies it.
#[derive(Clone, Debug, Drop)]
pub struct Task<X> {
    /// The ticket.
    pub ticket: Ticket,
    /// The job.
    pub job: X,
}

/// What the worker of a number does.
#[derive(Clone, Debug, Drop)]
pub enum Stage<X> {
    /// No worker has this number.
    Absent,
    /// It starts, with its first job or with none. After each job it starts again, with none.
    Starting(Option<Task<X>>),
    /// Its take, of this ticket, waits.
    Waiting(Ticket),
    /// Its take was interrupted by a shutdown.
    Cut(Ticket),
    /// Its take was matched with this job.
    HandedOver(Ticket, Task<X>),
    /// It runs the job of this ticket.
    Running(Ticket),
}

impl<X> Stage<X> {
    ghost use Rattle.std.specs.Prelude.{◌≡◌, ◌≤◌, is_some};
    ghost use Rattle.pool_core.specs.Pools.{is_there, stage_owes, task_at};
    ghost use Rattle.pool_core.specs.Calls.{is_starting, is_at_queue, is_running, is_jobless, is_waiting, is_cut};
    ghost use Rattle.pool_core.specs.Calls.{take_of};

    /// Returns true if there is a worker.
    pub fn is_there(&self) -> bool
        ensures { result ≡ is_there self.now }
    {
        match self {
            Stage::Absent => false,
            Stage::Starting(_)
            | Stage::Waiting(_)
            | Stage::Cut(_)
            | Stage::HandedOver(_, _)
            | Stage::Running(_) => true,
        }
    }

    /// Returns how many records it may still need.
    pub fn owes(&self) -> u64
        ensures value { result ≡ stage_owes self.now }
        ensures few { result ≤ 4 }
    {
        match self {
            Stage::Absent => 0,
            Stage::Starting(None) => 2,
            Stage::Starting(Some(_)) => 4,
            Stage::Waiting(_) => 1,
            Stage::Cut(_) => 1,
            Stage::HandedOver(_, _) => 4,
            Stage::Running(_) => 3,
        }
    }

    /// Returns true if it starts.
    pub fn is_starting(&self) -> bool
        ensures { result ≡ is_starting self.now }
    {
        match self {
            Stage::Starting(_) => true,
            _ => false,
        }
    }

    /// Returns true if its take waits, was interrupted or was matched.
    pub fn is_at_queue(&self) -> bool
        ensures { result ≡ is_at_queue self.now }
    {
        match self {
            Stage::Waiting(_) | Stage::Cut(_) | Stage::HandedOver(_, _) => true,
            _ => false,
        }
    }

    /// Returns true if it has a job in hand.
    pub fn has_task(&self) -> bool
        ensures { result ≡ is_some (task_at self.now) }
    {
        match self {
            Stage::Starting(first) => first.is_some(),
            Stage::HandedOver(_, _) => true,
            Stage::Absent | Stage::Waiting(_) | Stage::Cut(_) | Stage::Running(_) => false,
        }
    }

    /// Returns the job that it has in hand.
    pub fn into_task(self) -> Option<Task<X>>
        ensures { result ≡ task_at self }
    {
        match self {
            Stage::Starting(first) => first,
            Stage::HandedOver(_, task) => Some(task),
            Stage::Absent | Stage::Waiting(_) | Stage::Cut(_) | Stage::Running(_) => None,
        }
    }

    /// Returns true if it runs a job.
    pub fn is_running(&self) -> bool
        ensures { result ≡ is_running self.now }
    {
        match self {
            Stage::Running(_) => true,
            _ => false,
        }
    }

    /// Returns true if it starts without a job.
    pub fn is_jobless(&self) -> bool
        ensures { result ≡ is_jobless self.now }
    {
        match self {
            Stage::Starting(None) => true,
            _ => false,
        }
    }

    /// Returns true if its take waits.
    pub fn is_waiting(&self) -> bool
        ensures { result ≡ is_waiting self.now }
    {
        match self {
            Stage::Waiting(_) => true,
            _ => false,
        }
    }

    /// Returns true if its take was interrupted.
    pub fn is_cut(&self) -> bool
        ensures { result ≡ is_cut self.now }
    {
        match self {
            Stage::Cut(_) => true,
            _ => false,
        }
    }

    /// Returns the ticket of its take, if it is at the queue.
    pub fn take(&self) -> Option<Ticket>
        ensures { result ≡ take_of self.now }
    {
        match self {
            Stage::Waiting(take) => Some(*take),
            Stage::Cut(take) => Some(*take),
            Stage::HandedOver(take, _) => Some(*take),
            _ => None,
        }
    }
}
