//! The workers' steps.

ghost use Rattle.std.specs.Prelude.{◌≡◌, ℕ, ◌+◌, ◌<◌, ◌≤◌, ◌↔◌, true, false, Some, IsTrue, OnOk, IfErr, length, None};
ghost use Rattle.std.specs.Prelude.{slice_index_or};
ghost use Rattle.pool_core.specs.Pools.{jobs_at, stage_of, task_at};
ghost use Rattle.pool_core.specs.Calls.{is_starting};
ghost use Rattle.pool_core.specs.Steps.{Allows, IsOwn, MayExit, draws, oldest, stage_draws};
ghost use Rattle.pool_core.specs.declared.stages.Stage.TheVariants.{Absent};
ghost use Rattle.pool_core.specs.Histories.{next_moment, IsStep};
ghost use Rattle.pool_core.specs.declared.deeds.PoolDeed.TheVariants.{Runs, Waits, Exits, Finished, IdleExit, Leaves};
ghost use Rattle.pool_core.specs.declared.deeds.PoolDeed.TheVariants.{StartFailed};
ghost use Rattle.pool_history.specs.Checking.{IsFaulty, Starts, is_callers, comes_from};

use crate::checker::PoolWhy;
use crate::checker::pool::{CheckedPool, later};
use meet_tickets::{Entry, Record, SeatNo, Side, Ticket};
use pool_core::{PoolDeed, Stage, Task};

/// Whether a step of this kind comes from a worker that does this.
fn comes_from(stage: &Stage<u64>, deed: &PoolDeed<u64>) -> bool
    requires { is_callers deed.now ≡ false }
    ensures { result ≡ comes_from stage.now deed.now }
{
    match deed {
        PoolDeed::Runs(_, _) => stage.is_starting() || stage.is_at_queue(),
        PoolDeed::Waits => stage.is_starting(),
        PoolDeed::Exits => stage.is_starting() || stage.is_at_queue(),
        PoolDeed::Finished(_) => stage.is_running(),
        PoolDeed::IdleExit => stage.is_at_queue(),
        PoolDeed::Leaves => stage.is_jobless(),
        PoolDeed::StartFailed => stage.is_starting(),
        _ => false, // a caller's deed
    }
}

/// Whether the ticket is the one that a worker that does this has open; one that starts has none yet.
fn is_own(stage: &Stage<u64>, ticket: Ticket) -> bool
    ensures { IsTrue result ↔ IsOwn stage.now ticket }
{
    match stage {
        Stage::Absent => false,
        Stage::Starting(_) => true,
        Stage::Waiting(take) => *take == ticket,
        Stage::Cut(take) => *take == ticket,
        Stage::HandedOver(take, _) => *take == ticket,
        Stage::Running(job) => *job == ticket,
    }
}

/// Whether a step of this kind brings a new ticket, of a worker that does this.
fn draws(stage: &Stage<u64>, deed: &PoolDeed<u64>) -> bool
    requires { is_callers deed.now ≡ false }
    ensures { IsTrue result ↔ (0 < draws stage.now deed.now) }
{
    match deed {
        PoolDeed::Runs(_, _) => stage.is_starting(),
        PoolDeed::Waits => stage.is_starting(),
        PoolDeed::Exits => stage.is_starting(),
        PoolDeed::Finished(_) => false,
        PoolDeed::IdleExit => false,
        PoolDeed::Leaves => false,
        PoolDeed::StartFailed => false,
        _ => false, // a caller's deed
    }
}

impl CheckedPool {
    /// Takes the next record in, which is a worker's, or returns why it can't stand: the first reason that applies.
    pub(super) fn next_of_worker(&mut self, entry: Record<PoolDeed<u64>>) -> Result<(), PoolWhy>
        requires room { 0 < self.old.room }
        requires worker { is_callers entry.deed ≡ false }
        ensures step { OnOk result (IsStep self.old.settings self.old.moment entry) }
        ensures after { OnOk result (self.new.moment ≡ next_moment self.old.settings self.old.moment entry) }
        ensures settings { self.new.settings ≡ self.old.settings }
        ensures faulty { IfErr result (IsFaulty self.old.settings self.old.moment entry) }
    {
        let Record { seat, ticket, deed } = entry;
        let Some(worker) = self.worker(seat) else {
            return Err(PoolWhy::NoSuchSeat);
        };
        let stage = self.workers.at(worker);
        if !comes_from(stage, &deed) || !is_own(stage, ticket) {
            return Err(PoolWhy::NotOpen);
        }
        if draws(stage, &deed) && ticket.number() <= self.last.number() {
            return Err(PoolWhy::TicketOrder);
        }
        if self.takes_step(seat, ticket, worker, deed) {
            Ok(())
        } else {
            Err(PoolWhy::WrongReply)
        }
    }

    /// Takes a worker's step in, if the specification allows it.
    fn takes_step(&mut self, seat: SeatNo, ticket: Ticket, worker: u64, deed: PoolDeed<u64>) -> bool
        requires room { 0 < self.old.room }
        requires worker { seat ≡ self.old.settings.sizes.callers + worker }
        requires there { worker < length self.old.moment.pool.workers }
        requires step { is_callers deed ≡ false }
        requires above { 0 < draws (stage_of self.old.settings self.old.moment.pool seat) deed
            → self.old.moment.last < ticket }
        ensures allowed { IsTrue result ↔ Allows self.old.settings self.old.moment.pool seat ticket (deed) }
        ensures after { IsTrue result → self.new.moment ≡ next_moment self.old.settings self.old.moment
            (record { seat = seat; ticket = ticket; deed = deed }) }
        ensures settings { self.new.settings ≡ self.old.settings }
    {
        match deed {
            PoolDeed::Runs(job, tag) => self.runs(seat, ticket, worker, job, tag),
            PoolDeed::Waits => self.waits(seat, ticket, worker),
            PoolDeed::Exits => self.exits(seat, ticket, worker),
            PoolDeed::Finished(_) => self.finishes(seat, ticket, worker),
            PoolDeed::IdleExit => self.expires(seat, ticket, worker),
            PoolDeed::Leaves => self.leaves(seat, ticket, worker),
            PoolDeed::StartFailed => self.fails(seat, ticket, worker),
            _ => false, // a caller's deed
        }
    }

    /// The worker runs the job that it starts with or was handed, or the oldest buffered one.
    fn runs(&mut self, seat: SeatNo, ticket: Ticket, worker: u64, job: Ticket, tag: u64) -> bool
        requires worker { seat ≡ self.old.settings.sizes.callers + worker }
        requires there { worker < length self.old.moment.pool.workers }
        requires above { 0 < stage_draws (stage_of self.old.settings self.old.moment.pool seat)
            → self.old.moment.last < ticket }
        ensures allowed { IsTrue result ↔ Allows self.old.settings self.old.moment.pool seat ticket (Runs job tag) }
        ensures after { IsTrue result → self.new.moment ≡ next_moment self.old.settings self.old.moment
            (record { seat = seat; ticket = ticket; deed = Runs job tag }) }
        ensures settings { self.new.settings ≡ self.old.settings }
    {
        if self.workers.at(worker).is_jobless() {
            return self.runs_kept(seat, ticket, worker, job, tag);
        }
        if !has_in_hand(self.workers.at(worker), ticket, job, tag) {
            return false;
        }
        self.workers.put(worker, Stage::Running(job));
        self.last = later(self.last, ticket);
        true
    }

    /// The worker, which has none in hand, runs the oldest buffered job.
    fn runs_kept(
        &mut self,
        seat: SeatNo,
        ticket: Ticket,
        worker: u64,
        job: Ticket,
        tag: u64,
    ) -> bool
        requires worker { seat ≡ self.old.settings.sizes.callers + worker }
        requires there { worker < length self.old.moment.pool.workers }
        requires jobless { slice_index_or self.old.moment.pool.workers worker Absent ≡ Stage.Starting None }
        requires above { self.old.moment.last < ticket }
        ensures allowed { IsTrue result ↔ Allows self.old.settings self.old.moment.pool seat ticket (Runs job tag) }
        ensures after { IsTrue result → self.new.moment ≡ next_moment self.old.settings self.old.moment
            (record { seat = seat; ticket = ticket; deed = Runs job tag }) }
        ensures settings { self.new.settings ≡ self.old.settings }
    {
        if !self.is_oldest(job, tag) {
            return false;
        }
        let _ = self.line.partner(Side::Taker);
        self.workers.put(worker, Stage::Running(job));
        self.last = later(self.last, ticket);
        true
    }

    /// Whether a worker that does this waits: it starts, finds no job, and the pool isn't shut.
    fn may_wait(&self, stage: &Stage<u64>) -> bool
        ensures { IsTrue result ↔ ((stage.now ≡ Stage.Starting None)
            × (oldest self.now.settings self.now.moment.pool ≡ None) × (self.now.moment.pool.shut ≡ false)) }
    {
        stage.is_jobless() && self.oldest().is_none() && !self.shut
    }

    /// The worker finds no job, and waits.
    fn waits(&mut self, seat: SeatNo, ticket: Ticket, worker: u64) -> bool
        requires room { 0 < self.old.room }
        requires worker { seat ≡ self.old.settings.sizes.callers + worker }
        requires there { worker < length self.old.moment.pool.workers }
        requires above { 0 < stage_draws (stage_of self.old.settings self.old.moment.pool seat)
            → self.old.moment.last < ticket }
        ensures allowed { IsTrue result ↔ Allows self.old.settings self.old.moment.pool seat ticket (Waits) }
        ensures after { IsTrue result → self.new.moment ≡ next_moment self.old.settings self.old.moment
            (record { seat = seat; ticket = ticket; deed = Waits }) }
        ensures settings { self.new.settings ≡ self.old.settings }
    {
        if !self.may_wait(self.workers.at(worker)) {
            return false;
        }
        self.workers.put(worker, Stage::Waiting(ticket));
        self.line.push_take(Entry {
            ticket,
            seat,
            item: None,
            waits: true,
        });
        self.last = later(self.last, ticket);
        true
    }

    /// Whether a worker that does this ends, the pool being shut: its take was interrupted, or it starts and finds no
    /// job.
    fn may_exit(&self, stage: &Stage<u64>, ticket: Ticket) -> bool
        ensures { IsTrue result ↔ (IsOwn stage.now ticket
            × MayExit self.now.settings self.now.moment.pool stage.now) }
    {
        match stage {
            Stage::Starting(first) => first.is_none() && self.shut && self.oldest().is_none(),
            Stage::Cut(take) => *take == ticket,
            _ => false,
        }
    }

    /// The worker ends, the pool being shut.
    fn exits(&mut self, seat: SeatNo, ticket: Ticket, worker: u64) -> bool
        requires worker { seat ≡ self.old.settings.sizes.callers + worker }
        requires there { worker < length self.old.moment.pool.workers }
        requires above { 0 < stage_draws (stage_of self.old.settings self.old.moment.pool seat)
            → self.old.moment.last < ticket }
        ensures allowed { IsTrue result ↔ Allows self.old.settings self.old.moment.pool seat ticket (Exits) }
        ensures after { IsTrue result → self.new.moment ≡ next_moment self.old.settings self.old.moment
            (record { seat = seat; ticket = ticket; deed = Exits }) }
        ensures settings { self.new.settings ≡ self.old.settings }
    {
        if !self.may_exit(self.workers.at(worker), ticket) {
            return false;
        }
        self.workers.put(worker, Stage::Absent);
        self.last = later(self.last, ticket);
        true
    }

    /// The worker's job returned.
    fn finishes(&mut self, seat: SeatNo, ticket: Ticket, worker: u64) -> bool
        requires worker { seat ≡ self.old.settings.sizes.callers + worker }
        requires there { worker < length self.old.moment.pool.workers }
        ensures allowed { (answer : ℕ) → IsTrue result
            ↔ Allows self.old.settings self.old.moment.pool seat ticket (Finished answer) }
        ensures after { (answer : ℕ) → IsTrue result → self.new.moment ≡ next_moment self.old.settings self.old.moment
            (record { seat = seat; ticket = ticket; deed = Finished answer }) }
        ensures settings { self.new.settings ≡ self.old.settings }
    {
        if !runs_with(self.workers.at(worker), ticket) {
            return false;
        }
        self.workers.put(worker, Stage::Starting(None));
        self.done += 1;
        self.last = later(self.last, ticket);
        true
    }

    /// The worker waited too long, and ends.
    fn expires(&mut self, seat: SeatNo, ticket: Ticket, worker: u64) -> bool
        requires worker { seat ≡ self.old.settings.sizes.callers + worker }
        requires there { worker < length self.old.moment.pool.workers }
        ensures allowed { IsTrue result ↔ Allows self.old.settings self.old.moment.pool seat ticket (IdleExit) }
        ensures after { IsTrue result → self.new.moment ≡ next_moment self.old.settings self.old.moment
            (record { seat = seat; ticket = ticket; deed = IdleExit }) }
        ensures settings { self.new.settings ≡ self.old.settings }
    {
        if !waits_with(self.workers.at(worker), ticket) || !self.may_expire() {
            return false;
        }
        self.line.remove_take(ticket);
        self.workers.put(worker, Stage::Absent);
        self.last = later(self.last, ticket);
        true
    }

    /// The worker, which starts without a job, ends.
    fn leaves(&mut self, seat: SeatNo, ticket: Ticket, worker: u64) -> bool
        requires worker { seat ≡ self.old.settings.sizes.callers + worker }
        requires there { worker < length self.old.moment.pool.workers }
        ensures allowed { IsTrue result ↔ Allows self.old.settings self.old.moment.pool seat ticket (Leaves) }
        ensures after { IsTrue result → self.new.moment ≡ next_moment self.old.settings self.old.moment
            (record { seat = seat; ticket = ticket; deed = Leaves }) }
        ensures settings { self.new.settings ≡ self.old.settings }
    {
        if !self.workers.at(worker).is_jobless() || ticket.number() != 0 {
            return false;
        }
        self.workers.put(worker, Stage::Absent);
        self.last = later(self.last, ticket);
        true
    }

    /// The worker couldn't be started, and its first job is returned.
    fn fails(&mut self, seat: SeatNo, ticket: Ticket, worker: u64) -> bool
        requires worker { seat ≡ self.old.settings.sizes.callers + worker }
        requires there { worker < length self.old.moment.pool.workers }
        ensures allowed { IsTrue result ↔ Allows self.old.settings self.old.moment.pool seat ticket (StartFailed) }
        ensures after { IsTrue result → self.new.moment ≡ next_moment self.old.settings self.old.moment
            (record { seat = seat; ticket = ticket; deed = StartFailed }) }
        ensures settings { self.new.settings ≡ self.old.settings }
    {
        let stage = self.workers.at(worker);
        if !starts_with(stage, ticket) {
            return false;
        }
        let jobs = jobs_at(stage);
        self.workers.put(worker, Stage::Absent);
        self.back += jobs;
        self.last = later(self.last, ticket);
        true
    }
}

/// Whether the take of a worker that does this waits in the wait queue, with this ticket.
fn waits_with(stage: &Stage<u64>, ticket: Ticket) -> bool
    ensures { IsTrue result ↔ (stage.now ≡ Stage.Waiting ticket) }
{
    match stage {
        Stage::Waiting(take) => *take == ticket,
        _ => false,
    }
}

/// Whether a worker that does this runs the job of this ticket.
fn runs_with(stage: &Stage<u64>, ticket: Ticket) -> bool
    ensures { IsTrue result ↔ (stage.now ≡ Stage.Running ticket) }
{
    match stage {
        Stage::Running(job) => *job == ticket,
        _ => false,
    }
}

/// Whether a worker that does this starts, with the job of this ticket, or with none if it is 0.
fn starts_with(stage: &Stage<u64>, ticket: Ticket) -> bool
    ensures { IsTrue result ↔ Starts stage.now ticket }
{
    match stage {
        Stage::Starting(first) => match first {
            None => ticket.number() == 0,
            Some(task) => task.ticket == ticket,
        },
        _ => false,
    }
}

/// One for a worker that has a job, which starts.
fn jobs_at(stage: &Stage<u64>) -> u64
    requires { is_starting stage.now ≡ true }
    ensures value { result ≡ jobs_at stage.now }
    ensures few { result ≤ 1 }
{
    match stage {
        Stage::Starting(first) => u64::from(first.is_some()),
        _ => 0,
    }
}

/// Whether a worker that does this has this job in hand, with this ticket of its own: it starts with it, or was handed
/// it.
fn has_in_hand(stage: &Stage<u64>, own: Ticket, ticket: Ticket, tag: u64) -> bool
    ensures { IsTrue result ↔ (IsOwn stage.now own
        × (task_at stage.now ≡ Some (record { ticket = ticket; job = tag }))) }
{
    match stage {
        Stage::Starting(first) => match first {
            None => false,
            Some(task) => task.ticket == ticket && task.job == tag,
        },
        Stage::HandedOver(take, task) => {
            *take == own && task.ticket == ticket && task.job == tag
        }
        Stage::Absent | Stage::Waiting(_) | Stage::Cut(_) | Stage::Running(_) => false,
    }
}
