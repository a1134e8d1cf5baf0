//! A pool as its records leave it, and which record may come next.

ghost use Rattle.std.specs.Prelude.{◌≡◌, ◌<◌, ◌≤◌, ◌↔◌, max, None, Some, IsTrue, IsOk, IfOk, IfErr, OnOk, length};
ghost use Rattle.std.specs.Prelude.{MatchOption, true, false};
ghost use Rattle.meet_tickets.specs.Limits.{last_ticket};
ghost use Rattle.meet_tickets.specs.Refusals.{IsWhy};
ghost use Rattle.meet_tickets.specs.declared.refusals.Refusal.TheVariants.{Memory};
ghost use Rattle.pool_core.specs.Calls.{settings_refusal, is_worker};
ghost use Rattle.pool_core.specs.Histories.{no_base, moment_of_base, next_moment, IsStep};
ghost use Rattle.pool_core.specs.Bases.{IsWellFormed};
ghost use Rattle.pool_history.specs.Checking.{IsFaulty, is_callers};
ghost use Rattle.pool_history.specs.Pushing.{counters_of};

use crate::checker::PoolWhy;
use meet_tickets::{Record, Refusal, SeatNo, Side, Ticket};
use pool_core::crew::Crew;
use pool_core::line::JobLine;
use pool_core::{Counters, Placement, PoolDeed, PoolQueue, Settings, Stage, Task};
use std::alloc::Global;
use std::marker::Model;

mod callers;
mod workers;

/// A pool as its records leave it, jobs by their tags.
#[derive(Drop)]
pub(super) struct CheckedPool {
    alloc: Global,
    settings: Settings,
    last: Ticket,
    shut: bool,
    line: JobLine<u64>,
    workers: Crew<u64>,
    largest: u64,
    done: u64,
    back: u64,
    dropped: u64,
    ran: u64,
}

impl Model for CheckedPool {
    ghost use Rattle.pool_history.specs.Checking.{Checked};
    ghost use Rattle.pool_history.specs.Inside.{checked, IsWell};

    ghost Value = { Checked };

    ghost view = { λ p. checked p };

    ghost invariant = { λ p. IsWell p };
}

/// The ticket that names none.
fn no_ticket() -> Ticket
    ensures { result ≡ 0 }
{
    Ticket::new(0).unwrap()
}

/// The greater of two tickets.
fn later(one: Ticket, other: Ticket) -> Ticket
    ensures greater { result ≡ max one other }
    ensures limit { other ≤ last_ticket }
{
    if one.number() < other.number() {
        other
    } else {
        one
    }
}

impl CheckedPool {
    ghost use Rattle.pool_core.specs.Pools.{worker_of};
    ghost use Rattle.pool_core.specs.Steps.{placing, may_keep, oldest, may_expire};

    /// A pool of these settings without a worker. Fails if the settings don't fit, or an allocation fails.
    pub(super) fn new(alloc: Global, settings: Settings) -> Result<Self, Refusal>
        ensures settings { IfOk result (λ pool. pool.settings ≡ settings) }
        ensures fresh { IfOk result (λ pool. pool.moment ≡ moment_of_base settings no_base) }
        ensures fits { IfOk result (λ _. settings_refusal settings ≡ None) }
        ensures well_formed { IfOk result (λ _. IsWellFormed settings no_base) }
        ensures why { IfErr result (IsWhy (settings_refusal settings)) }
    {
        if let Some(why) = settings.refusal() {
            return Err(why);
        }
        let Ok(workers) = Crew::new(alloc, settings.sizes.maximum) else {
            return Err(Refusal::Memory);
        };
        Ok(CheckedPool {
            alloc,
            settings,
            last: no_ticket(),
            shut: false,
            line: JobLine::new(alloc, settings.queue.end()),
            workers,
            largest: 0,
            done: 0,
            back: 0,
            dropped: 0,
            ran: 0,
        })
    }

    /// Makes room for one entry more in the wait queue. Fails only if an allocation fails.
    pub(super) fn reserve(&mut self) -> Result<(), Refusal>
        ensures settings { self.new.settings ≡ self.old.settings }
        ensures moment { self.new.moment ≡ self.old.moment }
        ensures room { OnOk result (0 < self.new.room) }
        ensures memory { IfErr result (λ why. why ≡ Memory) }
        ensures enough { 0 < self.old.room → IsOk result }
    {
        self.line.reserve(1)
    }

    /// What the pool counts.
    pub(super) fn counters(&self) -> Counters
        ensures { result ≡ counters_of self.now.moment.pool }
    {
        Counters {
            workers: self.workers.there(),
            running: self.workers.running(),
            kept: self.line.kept(),
            done: self.done,
            largest: self.largest,
        }
    }

    /// Whether one job more may be buffered.
    fn may_keep(&self) -> bool
        ensures { result ≡ may_keep self.now.settings self.now.moment.pool.line }
    {
        match self.settings.queue {
            PoolQueue::Hand(_) => false,
            PoolQueue::Unbounded => true,
            PoolQueue::Bounded(most) => self.line.kept() < most,
        }
    }

    /// Where a new job goes.
    fn place(&self) -> Placement
        ensures { result ≡ placing self.now.settings self.now.moment.pool }
    {
        let workers = self.workers.there();
        let few = workers < self.settings.sizes.core;
        let met = self.line.has_partner(Side::Giver);
        let keeps = self.may_keep();
        let more = workers < self.settings.sizes.maximum;
        if self.shut {
            Placement::ToPolicy
        } else if few {
            Placement::ToNew
        } else if met {
            Placement::ToTaker
        } else if keeps {
            Placement::ToLine
        } else if more {
            Placement::ToNew
        } else {
            Placement::ToPolicy
        }
    }

    /// The oldest buffered job.
    fn oldest(&self) -> Option<Task<u64>>
        ensures { result ≡ oldest self.now.settings self.now.moment.pool }
    {
        let entry = self.line.first_kept()?;
        let job = entry.item?;
        Some(Task {
            ticket: entry.ticket,
            job,
        })
    }

    /// Whether the oldest buffered job has this ticket and this tag.
    fn is_oldest(&self, ticket: Ticket, tag: u64) -> bool
        ensures { IsTrue result ↔ (oldest self.now.settings self.now.moment.pool
            ≡ Some (record { ticket = ticket; job = tag })) }
    {
        match self.oldest() {
            None => false,
            Some(task) => task.ticket == ticket && task.job == tag,
        }
    }

    /// Whether a worker that waited too long ends.
    fn may_expire(&self) -> bool
        ensures { result ≡ may_expire self.now.settings self.now.moment.pool }
    {
        self.settings.sizes.core_timeout || self.workers.there() > self.settings.sizes.core
    }

    /// The number of the worker whose seat this is, if it is a worker's.
    fn worker(&self, seat: SeatNo) -> Option<u64>
        ensures { MatchOption result (is_worker self.now.settings seat ≡ false)
            (λ worker. (is_worker self.now.settings seat ≡ true) × (worker ≡ worker_of self.now.settings seat)
            × (worker < length self.now.moment.pool.workers)) }
    {
        let worker = seat.number().checked_sub(self.settings.sizes.callers)?;
        if worker < self.settings.sizes.maximum {
            Some(worker)
        } else {
            None
        }
    }

    /// Takes the next record in, or returns why it can't stand: the first reason that applies.
    pub(super) fn next(&mut self, entry: Record<PoolDeed<u64>>) -> Result<(), PoolWhy>
        requires room { 0 < self.old.room }
        ensures step { OnOk result (IsStep self.old.settings self.old.moment entry) }
        ensures after { OnOk result (self.new.moment ≡ next_moment self.old.settings self.old.moment entry) }
        ensures settings { self.new.settings ≡ self.old.settings }
        ensures faulty { IfErr result (λ why. IsFaulty self.old.settings self.old.moment entry why) }
    {
        if is_callers(&entry.deed) {
            self.next_of_caller(entry)
        } else {
            self.next_of_worker(entry)
        }
    }
}

/// Whether a step is a caller's.
fn is_callers(deed: &PoolDeed<u64>) -> bool
    ensures { result ≡ is_callers deed.now }
{
    match deed {
        PoolDeed::Handed(_, _) => true,
        PoolDeed::Started(_, _) => true,
        PoolDeed::Kept(_) => true,
        PoolDeed::KeptStart(_, _) => true,
        PoolDeed::Aborted(_) => true,
        PoolDeed::CallerRuns(_) => true,
        PoolDeed::Dropped(_) => true,
        PoolDeed::DroppedOldest(_, _, _) => true,
        PoolDeed::Runs(_, _) => false,
        PoolDeed::Waits => false,
        PoolDeed::Exits => false,
        PoolDeed::Finished(_) => false,
        PoolDeed::IdleExit => false,
        PoolDeed::Leaves => false,
        PoolDeed::StartFailed => false,
        PoolDeed::ShutDown => true,
        PoolDeed::ShutDownNow(_) => true,
    }
}
