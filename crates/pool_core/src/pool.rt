//! The core of a pool.

ghost use Rattle.std.specs.Prelude.{◌≡◌, ◌≢◌, ◌+◌, ◌-◌, ◌<◌, ◌≤◌, false, Some, None, IsOk, IfOk, IfErr, OnOk, OnErr};
ghost use Rattle.std.specs.Prelude.{replicate, count_by};
ghost use Rattle.meet_tickets.specs.Refusals.{IsWhy};
ghost use Rattle.meet_tickets.specs.declared.refusals.Refusal.TheVariants.{Memory, HistoryFull};
ghost use Rattle.meet_tickets.specs.Meeting.{kept_count};
ghost use Rattle.pool_core.specs.declared.stages.Stage.TheVariants.{Absent};

use crate::answers::Counters;
use crate::crew::Crew;
use crate::line::JobLine;
use crate::placing::Placement;
use crate::settings::{Policy, PoolQueue, Settings, Sizes};
use crate::stages::Task;
use meet_tickets::{LAST_TICKET, Refusal, SeatNo, Side, Ticket};
use std::alloc::Global;
use std::marker::Model;

mod bases;
mod ending;
mod executing;
mod leaving;
mod waking;
mod working;

/// The core of a pool: its wait queue, its workers' stages, its counts and its next ticket. It has room for some more
/// buffered jobs, and a list for those that `shutdown_now` returns.
#[derive(Drop)]
pub struct PoolCore<J> {
    alloc: Global,
    settings: Settings,
    shut: bool,
    line: JobLine<J>,
    workers: Crew<J>,
    largest: u64,
    done: u64,
    back: u64,
    dropped: u64,
    ran: u64,
    next: u64,
    room: u64,
    list: Vec<Task<J>>,
}

impl<J> Model for PoolCore<J> {
    ghost use Rattle.pool_core.specs.Shown.{Shown};
    ghost use Rattle.pool_core.specs.Inside.{shown, IsWell};

    ghost Value = { Shown J };

    ghost view = { λ p. shown p };

    ghost invariant = { λ p. IsWell p };
}

impl<J> PoolCore<J> {
    ghost use Rattle.pool_core.specs.Histories.{nobody};
    ghost use Rattle.pool_core.specs.Pools.{working, free, owed, worker_of};
    ghost use Rattle.pool_core.specs.Steps.{placing, may_keep};
    ghost use Rattle.pool_core.specs.Sound.{IsSound};
    ghost use Rattle.pool_core.specs.Calls.{settings_refusal, execute_refusal, is_running};

    /// Creates a pool without workers.
    ///
    /// # Errors
    /// - BadSizes or PolicyNeedsBuffer, exactly if `settings_refusal` states it.
    /// - Memory, if an allocation fails.
    pub fn new(
        alloc: Global,
        sizes: Sizes,
        queue: PoolQueue,
        policy: Policy,
    ) -> Result<Self, Refusal>
        ensures fresh { IfOk result (λ made. made.pool ≡ nobody (replicate sizes.maximum Absent)) }
        ensures settings { IfOk result (λ made. made.settings
            ≡ record { sizes = sizes; queue = queue; policy = policy }) }
        ensures next { IfOk result (λ made. made.next ≡ 1) }
        ensures room { IfOk result (λ made. made.room ≡ 0) }
        ensures fits { IfOk result (λ _. settings_refusal (record { sizes = sizes; queue = queue; policy = policy })
            ≡ None) }
        ensures why { IfErr result (IsWhy (settings_refusal
            (record { sizes = sizes; queue = queue; policy = policy }))) }
    {
        let settings = Settings {
            sizes,
            queue,
            policy,
        };
        if let Some(why) = settings.refusal() {
            return Err(why);
        }
        let mut line = JobLine::new(alloc, settings.queue.end());
        match line.reserve(settings.sizes.maximum) {
            Ok(()) => {}
            Err(why) => {
                line.destroy_empty();
                return Err(why);
            }
        }
        match Crew::new(alloc, settings.sizes.maximum) {
            Ok(workers) => Ok(PoolCore {
                alloc,
                settings,
                shut: false,
                line,
                workers,
                largest: 0,
                done: 0,
                back: 0,
                dropped: 0,
                ran: 0,
                next: 1,
                room: 0,
                list: Vec::new(alloc),
            }),
            Err(_) => {
                line.destroy_empty();
                Err(Refusal::Memory)
            }
        }
    }

    /// Returns what it was made with.
    pub fn settings(&self) -> &Settings
        ensures { result.now ≡ self.now.settings }
    {
        &self.settings
    }

    /// Returns its counters.
    pub fn counters(&self) -> Counters
        ensures { result ≡ record {
          workers = working self.now.pool;
          running = count_by is_running self.now.pool.workers;
          kept = kept_count self.now.pool.line;
          done = self.now.pool.done;
          largest = self.now.pool.largest;
        } }
    {
        Counters {
            workers: self.workers(),
            running: self.running(),
            kept: self.line.kept(),
            done: self.done,
            largest: self.largest,
        }
    }

    /// Returns true if it is shut down.
    pub fn is_shut(&self) -> bool
        ensures { result ≡ self.now.pool.shut }
    {
        self.shut
    }

    /// Returns how many workers there are.
    pub fn workers(&self) -> u64
        ensures { result ≡ working self.now.pool }
    {
        self.workers.there()
    }

    /// Returns how many workers run a job.
    pub fn running(&self) -> u64
        ensures { result ≡ count_by is_running self.now.pool.workers }
    {
        self.workers.running()
    }

    /// Returns the least number that no worker has.
    pub fn free(&self) -> Option<u64>
        ensures { result ≡ free self.now.pool }
    {
        self.workers.free()
    }

    /// Returns the number of the worker whose seat this is; the callers' seats come first.
    pub fn worker_of(&self, seat: SeatNo) -> u64
        ensures { result ≡ worker_of self.now.settings seat }
    {
        seat.number().saturating_sub(self.settings.sizes.callers)
    }

    /// Returns how many jobs are buffered.
    pub fn kept(&self) -> u64
        ensures { result ≡ kept_count self.now.pool.line }
    {
        self.line.kept()
    }

    /// Returns how many records may still be needed.
    pub fn owed(&self) -> u64
        ensures { result ≡ owed self.now.pool }
    {
        self.stays_sound();
        self.workers.owes() + 3 * self.line.kept()
    }

    /// Whether one job more may be kept.
    fn may_keep(&self) -> bool
        ensures { result ≡ may_keep self.now.settings self.now.pool.line }
    {
        match self.settings.queue {
            PoolQueue::Hand(_) => false,
            PoolQueue::Unbounded => true,
            PoolQueue::Bounded(most) => self.line.kept() < most,
        }
    }

    /// Where a new job goes.
    pub(crate) fn place(&self) -> Placement
        ensures { result ≡ placing self.now.settings self.now.pool }
    {
        let workers = self.workers();
        let few = workers < self.settings.sizes.core;
        let met = self.line.has_partner(Side::Giver);
        let keeps = self.may_keep();
        let more = workers < self.settings.sizes.maximum;
        if self.shut {
            Placement::ToPolicy
        } else if few {
            Placement::ToNew
        } else if met {
            Placement::ToTaker
        } else if keeps {
            Placement::ToLine
        } else if more {
            Placement::ToNew
        } else {
            Placement::ToPolicy
        }
    }

    /// Returns whether a seat's job is admitted.
    ///
    /// # Errors
    /// The first that applies:
    /// - NoSuchSeat, if the seat isn't a caller's.
    /// - TicketsSpent, if fewer tickets are left than it and the workers may need.
    pub fn admit_execute(&self, seat: SeatNo) -> Result<(), Refusal>
        ensures admitted { IfOk result (λ _. execute_refusal self.now seat ≡ None) }
        ensures why { IfErr result (λ why. execute_refusal self.now seat ≡ Some why) }
        ensures own { IfErr result (λ why. (why ≢ Memory) × (why ≢ HistoryFull)) }
    {
        if seat.number() >= self.settings.sizes.callers {
            return Err(Refusal::NoSuchSeat);
        }
        let owed = self.owed();
        self.stays_sound();
        if LAST_TICKET + 1 - self.next < owed + 6 {
            Err(Refusal::TicketsSpent)
        } else {
            Ok(())
        }
    }

    /// Makes room for this many more buffered jobs.
    ///
    /// # Errors
    /// - Memory, if an allocation fails, and never if there is that room.
    pub fn reserve(&mut self, jobs: u64) -> Result<(), Refusal>
        ensures same { self.new ≡ record self.old { room = self.new.room } }
        ensures room { OnOk result (jobs ≤ self.new.room) }
        ensures more { self.old.room ≤ self.new.room }
        ensures unchanged { OnErr result (self.new ≡ self.old) }
        ensures memory { IfErr result (λ why. why ≡ Memory) }
        ensures enough { jobs ≤ self.old.room → IsOk result }
    {
        if jobs <= self.room {
            return Ok(());
        }
        self.line.reserve(jobs)?;
        let Some(listed) = self.line.kept().checked_add(jobs) else {
            return Err(Refusal::Memory);
        };
        if self.list.reserve(listed as usize).is_err() {
            return Err(Refusal::Memory);
        }
        self.room = jobs;
        Ok(())
    }

    /// States what is always true of a pool. It does nothing.
    pub fn stays_sound(&self)
        ensures sound { IsSound self.now.settings self.now.pool self.now.next }
        ensures tickets { owed self.now.pool + self.now.next ≤ LAST_TICKET + 1 }
    {
        let _ = &self.line;
    }
}
