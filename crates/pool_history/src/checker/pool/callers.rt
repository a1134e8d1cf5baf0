//! The callers' steps: jobs that are executed, and shutdowns.

ghost use Rattle.std.specs.Prelude.{◌≡◌, ℕ, ◌<◌, ◌↔◌, true, false, Some, IsTrue, OnOk, IfErr};
ghost use Rattle.pool_core.specs.Pools.{free, working};
ghost use Rattle.pool_core.specs.Steps.{Allows, placing};
ghost use Rattle.pool_core.specs.declared.placing.Placement.TheVariants.{ToPolicy, ToNew, ToLine};
ghost use Rattle.pool_core.specs.Standings.{executes};
ghost use Rattle.pool_core.specs.Histories.{next_moment, IsStep};
ghost use Rattle.pool_core.specs.declared.deeds.PoolDeed.TheVariants.{Handed, Started, Kept, KeptStart, DroppedOldest};
ghost use Rattle.pool_core.specs.declared.deeds.PoolDeed.TheVariants.{Aborted, Dropped, ShutDown, ShutDownNow};
ghost use Rattle.pool_core.specs.declared.deeds.PoolDeed.TheVariants.{CallerRuns as RunsIt};
ghost use Rattle.pool_history.specs.Checking.{IsFaulty, is_callers};

use crate::checker::PoolWhy;
use crate::checker::pool::{CheckedPool, later};
use meet_tickets::{Entry, Record, SeatNo, Side, Ticket};
use pool_core::crew::cut_all;
use pool_core::line::JobLine;
use pool_core::{Placement, Policy, PoolDeed, Stage, Task};

/// Whether a caller's step executes a job; else it shuts the pool.
fn executes(deed: &PoolDeed<u64>) -> bool
    requires { is_callers deed.now ≡ true }
    ensures { result ≡ executes deed.now }
{
    match deed {
        PoolDeed::ShutDown => false,
        PoolDeed::ShutDownNow(_) => false,
        PoolDeed::Handed(_, _) => true,
        PoolDeed::Started(_, _) => true,
        PoolDeed::Kept(_) => true,
        PoolDeed::KeptStart(_, _) => true,
        PoolDeed::Aborted(_) => true,
        PoolDeed::CallerRuns(_) => true,
        PoolDeed::Dropped(_) => true,
        PoolDeed::DroppedOldest(_, _, _) => true,
        _ => false, // a worker's deed
    }
}

impl CheckedPool {
    ghost use Rattle.pool_core.specs.Steps.{drops_new};

    /// Takes the next record in, which is a caller's, or returns why it can't stand: the first reason that applies.
    pub(super) fn next_of_caller(&mut self, entry: Record<PoolDeed<u64>>) -> Result<(), PoolWhy>
        requires room { 0 < self.old.room }
        requires caller { is_callers entry.deed ≡ true }
        ensures step { OnOk result (IsStep self.old.settings self.old.moment entry) }
        ensures after { OnOk result (self.new.moment ≡ next_moment self.old.settings self.old.moment entry) }
        ensures settings { self.new.settings ≡ self.old.settings }
        ensures faulty { IfErr result (IsFaulty self.old.settings self.old.moment entry) }
    {
        let Record { seat, ticket, deed } = entry;
        if seat.number() >= self.settings.sizes.callers {
            return Err(PoolWhy::NoSuchSeat);
        }
        let stands = if executes(&deed) {
            if ticket.number() <= self.last.number() {
                return Err(PoolWhy::TicketOrder);
            }
            self.takes_execute(seat, ticket, deed)
        } else {
            self.takes_shutdown(seat, ticket, deed)
        };
        if stands {
            Ok(())
        } else {
            Err(PoolWhy::WrongReply)
        }
    }

    /// Takes an execute in, if the specification allows it.
    fn takes_execute(&mut self, seat: SeatNo, ticket: Ticket, deed: PoolDeed<u64>) -> bool
        requires room { 0 < self.old.room }
        requires caller { seat < self.old.settings.sizes.callers }
        requires above { self.old.moment.last < ticket }
        requires executes { executes deed ≡ true }
        ensures allowed { IsTrue result ↔ Allows self.old.settings self.old.moment.pool seat ticket (deed) }
        ensures after { IsTrue result → self.new.moment ≡ next_moment self.old.settings self.old.moment
            (record { seat = seat; ticket = ticket; deed = deed }) }
        ensures settings { self.new.settings ≡ self.old.settings }
    {
        match deed {
            PoolDeed::Handed(worker, tag) => self.hands(seat, ticket, worker, tag),
            PoolDeed::Started(worker, tag) => self.starts(seat, ticket, worker, tag),
            PoolDeed::Kept(tag) => self.keeps(seat, ticket, tag),
            PoolDeed::KeptStart(worker, tag) => self.keeps_and_starts(seat, ticket, worker, tag),
            PoolDeed::Aborted(_) => self.aborts(seat, ticket),
            PoolDeed::CallerRuns(_) => self.leaves_to_caller(seat, ticket),
            PoolDeed::Dropped(_) => self.drops(seat, ticket),
            PoolDeed::DroppedOldest(dropped, old, tag) => {
                self.replaces(seat, ticket, dropped, old, tag)
            }
            _ => false, // no execute
        }
    }

    /// Takes a shutdown in, if the specification allows it.
    fn takes_shutdown(&mut self, seat: SeatNo, ticket: Ticket, deed: PoolDeed<u64>) -> bool
        requires caller { seat < self.old.settings.sizes.callers }
        requires callers { is_callers deed ≡ true }
        requires shuts { executes deed ≡ false }
        ensures allowed { IsTrue result ↔ Allows self.old.settings self.old.moment.pool seat ticket (deed) }
        ensures after { IsTrue result → self.new.moment ≡ next_moment self.old.settings self.old.moment
            (record { seat = seat; ticket = ticket; deed = deed }) }
        ensures settings { self.new.settings ≡ self.old.settings }
    {
        match deed {
            PoolDeed::ShutDown => self.shuts(seat, ticket),
            PoolDeed::ShutDownNow(count) => self.shuts_now(seat, ticket, count),
            _ => false, // no shutdown
        }
    }

    /// Whether a new job goes there.
    fn goes(&self, place: Placement) -> bool
        ensures { IsTrue result ↔ (placing self.now.settings self.now.moment.pool ≡ place) }
    {
        self.place() == place
    }

    /// Whether this is the least number that no worker has.
    fn is_next(&self, worker: u64) -> bool
        ensures { IsTrue result ↔ (free self.now.moment.pool ≡ Some worker) }
    {
        match self.workers.free() {
            None => false,
            Some(next) => next == worker,
        }
    }

    /// Whether this worker is the one that starts with a new job.
    fn may_start(&self, worker: u64) -> bool
        ensures { IsTrue result ↔ ((placing self.now.settings self.now.moment.pool ≡ ToNew)
            × (free self.now.moment.pool ≡ Some worker)) }
    {
        self.goes(Placement::ToNew) && self.is_next(worker)
    }

    /// Whether a new job is buffered, and there are workers.
    fn may_keep_on(&self) -> bool
        ensures { IsTrue result ↔ ((placing self.now.settings self.now.moment.pool ≡ ToLine)
            × (0 < working self.now.moment.pool)) }
    {
        self.goes(Placement::ToLine) && self.workers.there() > 0
    }

    /// Whether a new job is buffered, and this worker is the first one.
    fn may_keep_first(&self, worker: u64) -> bool
        ensures { IsTrue result ↔ ((placing self.now.settings self.now.moment.pool ≡ ToLine)
            × (working self.now.moment.pool ≡ 0) × (free self.now.moment.pool ≡ Some worker)) }
    {
        self.goes(Placement::ToLine) && self.workers.there() == 0 && self.is_next(worker)
    }

    /// The waiting worker that is met gets the job.
    fn hands(&mut self, seat: SeatNo, ticket: Ticket, worker: u64, tag: u64) -> bool
        requires caller { seat < self.old.settings.sizes.callers }
        requires above { self.old.moment.last < ticket }
        ensures allowed { IsTrue result
            ↔ Allows self.old.settings self.old.moment.pool seat ticket (Handed worker tag) }
        ensures after { IsTrue result → self.new.moment ≡ next_moment self.old.settings self.old.moment
            (record { seat = seat; ticket = ticket; deed = Handed worker tag }) }
        ensures settings { self.new.settings ≡ self.old.settings }
    {
        if !self.goes(Placement::ToTaker) {
            return false;
        }
        let Some(taker) = self.line.partner(Side::Giver) else {
            return false;
        };
        let met = taker.seat.number() - self.settings.sizes.callers;
        let task = Task { ticket, job: tag };
        self.workers.put(met, Stage::HandedOver(taker.ticket, task));
        self.last = later(self.last, ticket);
        met == worker
    }

    /// A new worker starts with the job.
    fn starts(&mut self, seat: SeatNo, ticket: Ticket, worker: u64, tag: u64) -> bool
        requires caller { seat < self.old.settings.sizes.callers }
        requires above { self.old.moment.last < ticket }
        ensures allowed { IsTrue result
            ↔ Allows self.old.settings self.old.moment.pool seat ticket (Started worker tag) }
        ensures after { IsTrue result → self.new.moment ≡ next_moment self.old.settings self.old.moment
            (record { seat = seat; ticket = ticket; deed = Started worker tag }) }
        ensures settings { self.new.settings ≡ self.old.settings }
    {
        if !self.may_start(worker) {
            return false;
        }
        let working = self.workers.there();
        let first = Some(Task { ticket, job: tag });
        self.workers.put(worker, Stage::Starting(first));
        self.largest = self.largest.max(working + 1);
        self.last = later(self.last, ticket);
        true
    }

    /// The job is buffered, and there are workers.
    fn keeps(&mut self, seat: SeatNo, ticket: Ticket, tag: u64) -> bool
        requires room { 0 < self.old.room }
        requires caller { seat < self.old.settings.sizes.callers }
        requires above { self.old.moment.last < ticket }
        ensures allowed { IsTrue result ↔ Allows self.old.settings self.old.moment.pool seat ticket (Kept tag) }
        ensures after { IsTrue result → self.new.moment ≡ next_moment self.old.settings self.old.moment
            (record { seat = seat; ticket = ticket; deed = Kept tag }) }
        ensures settings { self.new.settings ≡ self.old.settings }
    {
        if !self.may_keep_on() {
            return false;
        }
        self.line.push_kept(Entry {
            ticket,
            seat,
            item: Some(tag),
            waits: false,
        });
        self.last = later(self.last, ticket);
        true
    }

    /// The job is buffered, and the first worker starts.
    fn keeps_and_starts(&mut self, seat: SeatNo, ticket: Ticket, worker: u64, tag: u64) -> bool
        requires room { 0 < self.old.room }
        requires caller { seat < self.old.settings.sizes.callers }
        requires above { self.old.moment.last < ticket }
        ensures allowed { IsTrue result
            ↔ Allows self.old.settings self.old.moment.pool seat ticket (KeptStart worker tag) }
        ensures after { IsTrue result → self.new.moment ≡ next_moment self.old.settings self.old.moment
            (record { seat = seat; ticket = ticket; deed = KeptStart worker tag }) }
        ensures settings { self.new.settings ≡ self.old.settings }
    {
        if !self.may_keep_first(worker) {
            return false;
        }
        self.line.push_kept(Entry {
            ticket,
            seat,
            item: Some(tag),
            waits: false,
        });
        self.workers.put(worker, Stage::Starting(None));
        self.largest = self.largest.max(1);
        self.last = later(self.last, ticket);
        true
    }

    /// Whether a new job is left to this policy.
    fn is_left_to(&self, policy: Policy) -> bool
        ensures { IsTrue result ↔ ((placing self.now.settings self.now.moment.pool ≡ ToPolicy)
            × (self.now.settings.policy ≡ policy)) }
    {
        self.place() == Placement::ToPolicy && self.settings.policy == policy
    }

    /// The job is returned.
    fn aborts(&mut self, seat: SeatNo, ticket: Ticket) -> bool
        requires caller { seat < self.old.settings.sizes.callers }
        requires above { self.old.moment.last < ticket }
        ensures allowed { (tag : ℕ) → IsTrue result
            ↔ Allows self.old.settings self.old.moment.pool seat ticket (Aborted tag) }
        ensures after { (tag : ℕ) → IsTrue result → self.new.moment ≡ next_moment self.old.settings self.old.moment
            (record { seat = seat; ticket = ticket; deed = Aborted tag }) }
        ensures settings { self.new.settings ≡ self.old.settings }
    {
        if !self.is_left_to(Policy::Abort) {
            return false;
        }
        self.back += 1;
        self.last = later(self.last, ticket);
        true
    }

    /// The caller runs the job.
    fn leaves_to_caller(&mut self, seat: SeatNo, ticket: Ticket) -> bool
        requires caller { seat < self.old.settings.sizes.callers }
        requires above { self.old.moment.last < ticket }
        ensures allowed { (tag : ℕ) → IsTrue result
            ↔ Allows self.old.settings self.old.moment.pool seat ticket (RunsIt tag) }
        ensures after { (tag : ℕ) → IsTrue result → self.new.moment ≡ next_moment self.old.settings self.old.moment
            (record { seat = seat; ticket = ticket; deed = RunsIt tag }) }
        ensures settings { self.new.settings ≡ self.old.settings }
    {
        if self.shut || !self.is_left_to(Policy::CallerRuns) {
            return false;
        }
        self.ran += 1;
        self.last = later(self.last, ticket);
        true
    }

    /// Whether the policy drops a new job.
    fn drops_new(&self) -> bool
        ensures { result ≡ drops_new self.now.settings.policy self.now.moment.pool.shut }
    {
        match self.settings.policy {
            Policy::Abort => false,
            Policy::CallerRuns => self.shut,
            Policy::Discard => true,
            Policy::DiscardOldest => self.shut,
        }
    }

    /// Whether a new job is dropped.
    fn may_drop(&self) -> bool
        ensures { IsTrue result ↔ ((placing self.now.settings self.now.moment.pool ≡ ToPolicy)
            × (drops_new self.now.settings.policy self.now.moment.pool.shut ≡ true)) }
    {
        self.place() == Placement::ToPolicy && self.drops_new()
    }

    /// The job is dropped.
    fn drops(&mut self, seat: SeatNo, ticket: Ticket) -> bool
        requires caller { seat < self.old.settings.sizes.callers }
        requires above { self.old.moment.last < ticket }
        ensures allowed { (tag : ℕ) → IsTrue result
            ↔ Allows self.old.settings self.old.moment.pool seat ticket (Dropped tag) }
        ensures after { (tag : ℕ) → IsTrue result → self.new.moment ≡ next_moment self.old.settings self.old.moment
            (record { seat = seat; ticket = ticket; deed = Dropped tag }) }
        ensures settings { self.new.settings ≡ self.old.settings }
    {
        if !self.may_drop() {
            return false;
        }
        self.dropped += 1;
        self.last = later(self.last, ticket);
        true
    }

    /// The oldest buffered job is dropped, and the new one is buffered.
    fn replaces(
        &mut self,
        seat: SeatNo,
        ticket: Ticket,
        dropped: Ticket,
        old: u64,
        tag: u64,
    ) -> bool
        requires caller { seat < self.old.settings.sizes.callers }
        requires above { self.old.moment.last < ticket }
        ensures allowed { IsTrue result
            ↔ Allows self.old.settings self.old.moment.pool seat ticket (DroppedOldest dropped old tag) }
        ensures after { IsTrue result → self.new.moment ≡ next_moment self.old.settings self.old.moment
            (record { seat = seat; ticket = ticket; deed = DroppedOldest dropped old tag }) }
        ensures settings { self.new.settings ≡ self.old.settings }
    {
        if self.shut || !self.is_left_to(Policy::DiscardOldest) || !self.is_oldest(dropped, old) {
            return false;
        }
        let _ = self.line.partner(Side::Taker);
        self.line.push_kept(Entry {
            ticket,
            seat,
            item: Some(tag),
            waits: false,
        });
        self.dropped += 1;
        self.last = later(self.last, ticket);
        true
    }

    /// The pool is shut.
    fn shuts(&mut self, seat: SeatNo, ticket: Ticket) -> bool
        requires caller { seat < self.old.settings.sizes.callers }
        ensures allowed { IsTrue result ↔ Allows self.old.settings self.old.moment.pool seat ticket (ShutDown) }
        ensures after { IsTrue result → self.new.moment ≡ next_moment self.old.settings self.old.moment
            (record { seat = seat; ticket = ticket; deed = ShutDown }) }
        ensures settings { self.new.settings ≡ self.old.settings }
    {
        if ticket.number() != 0 {
            return false;
        }
        self.shut = true;
        cut_all(&mut self.workers);
        self.line.drop_takes();
        self.last = later(self.last, ticket);
        true
    }

    /// The pool is shut, and its buffered jobs are returned.
    fn shuts_now(&mut self, seat: SeatNo, ticket: Ticket, count: u64) -> bool
        requires caller { seat < self.old.settings.sizes.callers }
        ensures allowed { IsTrue result
            ↔ Allows self.old.settings self.old.moment.pool seat ticket (ShutDownNow count) }
        ensures after { IsTrue result → self.new.moment ≡ next_moment self.old.settings self.old.moment
            (record { seat = seat; ticket = ticket; deed = ShutDownNow count }) }
        ensures settings { self.new.settings ≡ self.old.settings }
    {
        if ticket.number() != 0 || self.line.kept() != count {
            return false;
        }
        self.shut = true;
        cut_all(&mut self.workers);
        self.line = JobLine::new(self.alloc, self.settings.queue.end());
        self.back += count;
        self.last = later(self.last, ticket);
        true
    }
}
