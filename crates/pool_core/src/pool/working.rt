//! The workers' steps. None of them allocates.

ghost use Rattle.std.specs.Prelude.{◌≡◌, ◌≢◌, ◌+◌, ◌-◌, ◌<◌, ◌≤◌, true, false, Some, None, IfOk, IfErr, length};
ghost use Rattle.std.specs.Prelude.{slice_index_or, slice_set};
ghost use Rattle.pool_core.specs.Calls.{is_starting, is_jobless, IsHanded, IsHandedTask};
ghost use Rattle.pool_core.specs.declared.stages.Stage.TheVariants.{Absent};
ghost use Rattle.meet_tickets.specs.declared.refusals.Refusal.TheVariants.{NoSuchSeat, Memory, HistoryFull};

use crate::answers::{Followed, IdleEnd, Ready};
use crate::crew::{Crew, set_stage, take_stage};
use crate::pool::PoolCore;
use crate::stages::{Stage, Task};
use crate::tickets::ticket_of;
use meet_tickets::{Entry, Refusal, SeatNo, Side, Ticket};

impl<J> PoolCore<J> {
    ghost use Rattle.pool_core.specs.Steps.{oldest, may_expire};
    ghost use Rattle.pool_core.specs.Calls.{Step, FollowStep, IdleStep, StartStep, is_worker, worker_refusal};
    ghost use Rattle.pool_core.specs.Calls.{is_at_queue, is_running, ready_deed};
    ghost use Rattle.pool_core.specs.declared.deeds.PoolDeed.TheVariants.{Finished, Leaves};

    /// The worker whose seat this is; NoSuchSeat for another seat.
    #[inline(always)]
    fn worker_at(&self, seat: SeatNo) -> Result<u64, Refusal>
        ensures worker { IfOk result (λ worker. seat ≡ self.now.settings.sizes.callers + worker) }
        ensures there { IfOk result (λ worker. worker < length self.now.pool.workers) }
        ensures is { IfOk result (λ _. is_worker self.now.settings seat ≡ true) }
        ensures is_not { IfErr result (λ _. is_worker self.now.settings seat ≡ false) }
        ensures why { IfErr result (λ why. why ≡ NoSuchSeat) }
    {
        let callers = self.settings.sizes.callers;
        if seat.number() < callers {
            return Err(Refusal::NoSuchSeat);
        }
        let worker = seat.number() - callers;
        if worker >= self.settings.sizes.maximum {
            return Err(Refusal::NoSuchSeat);
        }
        Ok(worker)
    }

    /// Returns whether the worker's `ready` or `start_failed` is admitted.
    ///
    /// # Errors
    /// The first that applies:
    /// - NoSuchSeat, if the seat isn't a worker's.
    /// - NotOpen, if the worker doesn't start.
    #[inline(always)]
    pub fn admit_starting(&self, seat: SeatNo) -> Result<(), Refusal>
        ensures admitted { IfOk result (λ _. worker_refusal is_starting self.now seat ≡ None) }
        ensures why { IfErr result (λ why. worker_refusal is_starting self.now seat ≡ Some why) }
        ensures own { IfErr result (λ why. (why ≢ Memory) × (why ≢ HistoryFull)) }
    {
        let worker = self.worker_at(seat)?;
        if self.workers.at(worker).is_starting() {
            Ok(())
        } else {
            Err(Refusal::NotOpen)
        }
    }

    /// Returns whether the worker's `follow` or `idle_end` is admitted.
    ///
    /// # Errors
    /// The first that applies:
    /// - NoSuchSeat, if the seat isn't a worker's.
    /// - NotOpen, if the worker isn't at the queue.
    pub fn admit_at_queue(&self, seat: SeatNo) -> Result<(), Refusal>
        ensures admitted { IfOk result (λ _. worker_refusal is_at_queue self.now seat ≡ None) }
        ensures why { IfErr result (λ why. worker_refusal is_at_queue self.now seat ≡ Some why) }
        ensures own { IfErr result (λ why. (why ≢ Memory) × (why ≢ HistoryFull)) }
    {
        let worker = self.worker_at(seat)?;
        if self.workers.at(worker).is_at_queue() {
            Ok(())
        } else {
            Err(Refusal::NotOpen)
        }
    }

    /// Returns whether the worker's `finish` is admitted.
    ///
    /// # Errors
    /// The first that applies:
    /// - NoSuchSeat, if the seat isn't a worker's.
    /// - NotOpen, if the worker runs no job.
    #[inline(always)]
    pub fn admit_finish(&self, seat: SeatNo) -> Result<(), Refusal>
        ensures admitted { IfOk result (λ _. worker_refusal is_running self.now seat ≡ None) }
        ensures why { IfErr result (λ why. worker_refusal is_running self.now seat ≡ Some why) }
        ensures own { IfErr result (λ why. (why ≢ Memory) × (why ≢ HistoryFull)) }
    {
        let worker = self.worker_at(seat)?;
        if self.workers.at(worker).is_running() {
            Ok(())
        } else {
            Err(Refusal::NotOpen)
        }
    }

    /// Returns whether the worker's `leave` is admitted.
    ///
    /// # Errors
    /// The first that applies:
    /// - NoSuchSeat, if the seat isn't a worker's.
    /// - NotOpen, if the worker doesn't start without a job.
    pub fn admit_leave(&self, seat: SeatNo) -> Result<(), Refusal>
        ensures admitted { IfOk result (λ _. worker_refusal is_jobless self.now seat ≡ None) }
        ensures why { IfErr result (λ why. worker_refusal is_jobless self.now seat ≡ Some why) }
        ensures own { IfErr result (λ why. (why ≢ Memory) × (why ≢ HistoryFull)) }
    {
        let worker = self.worker_at(seat)?;
        if self.workers.at(worker).is_jobless() {
            Ok(())
        } else {
            Err(Refusal::NotOpen)
        }
    }

    /// Records what the worker's job returned: the job is done, and the worker starts again, with none.
    ///
    /// # Errors
    /// - NoSuchSeat or NotOpen, as `admit_finish`: nothing has changed.
    #[inline(always)]
    pub fn finish(&mut self, seat: SeatNo, answer: u64) -> Result<Ticket, Refusal>
        ensures step { IfOk result (λ ticket. Step self.old seat ticket (Finished answer) self.new) }
        ensures room { self.old.room ≤ self.new.room }
        ensures admitted { IfOk result (λ _. worker_refusal is_running self.old seat ≡ None) }
        ensures why { IfErr result (λ why. worker_refusal is_running self.old seat ≡ Some why) }
        ensures unchanged { IfErr result (λ _. self.new ≡ self.old) }
    {
        let worker = self.worker_at(seat)?;
        let ticket = match self.workers.at(worker) {
            Stage::Running(ticket) => *ticket,
            _ => return Err(Refusal::NotOpen),
        };
        set_stage(&mut self.workers, worker, Stage::Starting(None));
        self.done += 1;
        Ok(ticket)
    }

    /// Ends a worker that starts without a job.
    ///
    /// # Errors
    /// - NoSuchSeat or NotOpen, as `admit_leave`: nothing has changed.
    pub fn leave(&mut self, seat: SeatNo) -> Result<Ticket, Refusal>
        ensures step { IfOk result (λ ticket. Step self.old seat ticket Leaves self.new) }
        ensures room { self.old.room ≤ self.new.room }
        ensures admitted { IfOk result (λ _. worker_refusal is_jobless self.old seat ≡ None) }
        ensures why { IfErr result (λ why. worker_refusal is_jobless self.old seat ≡ Some why) }
        ensures unchanged { IfErr result (λ _. self.new ≡ self.old) }
    {
        let worker = self.worker_at(seat)?;
        if !self.workers.at(worker).is_jobless() {
            return Err(Refusal::NotOpen);
        }
        set_stage(&mut self.workers, worker, Stage::Absent);
        Ok(ticket_of(0))
    }

    /// Ends a worker that couldn't be started, and returns its first job.
    ///
    /// # Errors
    /// - NoSuchSeat or NotOpen, as `admit_starting`: nothing has changed.
    pub fn start_failed(&mut self, seat: SeatNo) -> Result<(Ticket, Option<J>), Refusal>
        ensures step { IfOk result (λ told. StartStep self.old seat told.0 told.1 self.new) }
        ensures room { self.old.room ≤ self.new.room }
        ensures admitted { IfOk result (λ _. worker_refusal is_starting self.old seat ≡ None) }
        ensures why { IfErr result (λ why. worker_refusal is_starting self.old seat ≡ Some why) }
        ensures unchanged { IfErr result (λ _. self.new ≡ self.old) }
    {
        let worker = self.worker_at(seat)?;
        if !self.workers.at(worker).is_starting() {
            return Err(Refusal::NotOpen);
        }
        if self.workers.at(worker).is_jobless() {
            set_stage(&mut self.workers, worker, Stage::Absent);
            return Ok((ticket_of(0), None));
        }
        let Task { ticket, job } = take_first(&mut self.workers, worker);
        self.back += 1;
        Ok((ticket, Some(job)))
    }

    /// Follows the worker's take up.
    ///
    /// # Errors
    /// - NoSuchSeat or NotOpen, as `admit_at_queue`: nothing has changed.
    pub fn follow(&mut self, seat: SeatNo) -> Result<(Ticket, Followed<J>), Refusal>
        ensures step { IfOk result (λ told. FollowStep self.old seat told.0 told.1 self.new) }
        ensures room { self.old.room ≤ self.new.room }
        ensures admitted { IfOk result (λ _. worker_refusal is_at_queue self.old seat ≡ None) }
        ensures why { IfErr result (λ why. worker_refusal is_at_queue self.old seat ≡ Some why) }
        ensures unchanged { IfErr result (λ _. self.new ≡ self.old) }
    {
        let worker = self.worker_at(seat)?;
        let Some(take) = self.workers.at(worker).take() else {
            return Err(Refusal::NotOpen);
        };
        if self.workers.at(worker).is_waiting() {
            return Ok((take, Followed::NotYet));
        }
        if self.workers.at(worker).is_cut() {
            set_stage(&mut self.workers, worker, Stage::Absent);
            return Ok((take, Followed::Exit));
        }
        let Task { ticket, job } = take_handed(&mut self.workers, worker);
        set_stage(&mut self.workers, worker, Stage::Running(ticket));
        Ok((take, Followed::Run(ticket, job)))
    }

    /// Records that the keep-alive time of a worker's take ran out. If the take still waits, the worker ends if there
    /// are more than `core` or core workers time out too; otherwise it stays.
    ///
    /// # Errors
    /// - NoSuchSeat or NotOpen, as `admit_at_queue`: nothing has changed.
    pub fn idle_end(&mut self, seat: SeatNo) -> Result<(Ticket, IdleEnd), Refusal>
        ensures step { IfOk result (λ told. IdleStep self.old seat told.0 told.1 self.new) }
        ensures room { self.old.room ≤ self.new.room }
        ensures admitted { IfOk result (λ _. worker_refusal is_at_queue self.old seat ≡ None) }
        ensures why { IfErr result (λ why. worker_refusal is_at_queue self.old seat ≡ Some why) }
        ensures unchanged { IfErr result (λ _. self.new ≡ self.old) }
    {
        let worker = self.worker_at(seat)?;
        let Some(take) = self.workers.at(worker).take() else {
            return Err(Refusal::NotOpen);
        };
        if !self.workers.at(worker).is_waiting() {
            return Ok((take, IdleEnd::Late));
        }
        if !self.may_expire() {
            return Ok((take, IdleEnd::Stay));
        }
        self.line.remove_take(take);
        set_stage(&mut self.workers, worker, Stage::Absent);
        Ok((take, IdleEnd::Exit))
    }

    /// Whether a worker that waited too long ends.
    fn may_expire(&self) -> bool
        ensures { result ≡ may_expire self.now.settings self.now.pool }
    {
        self.settings.sizes.core_timeout || self.workers() > self.settings.sizes.core
    }

    /// Gives a worker that starts its first job, or the oldest buffered one; otherwise it exits if the pool is shut
    /// down, and else it waits.
    ///
    /// # Errors
    /// - NoSuchSeat or NotOpen, as `admit_starting`: nothing has changed.
    #[inline(always)]
    pub fn ready(&mut self, seat: SeatNo) -> Result<(Ticket, Ready<J>), Refusal>
        ensures step { IfOk result (λ told. Step self.old seat told.0 (ready_deed told.1) self.new) }
        ensures room { self.old.room ≤ self.new.room }
        ensures admitted { IfOk result (λ _. worker_refusal is_starting self.old seat ≡ None) }
        ensures why { IfErr result (λ why. worker_refusal is_starting self.old seat ≡ Some why) }
        ensures unchanged { IfErr result (λ _. self.new ≡ self.old) }
    {
        let worker = self.worker_at(seat)?;
        if !self.workers.at(worker).is_starting() {
            return Err(Refusal::NotOpen);
        }
        if !self.workers.at(worker).is_jobless() {
            return Ok(self.run_first(seat, worker));
        }
        if self.line.has_partner(Side::Taker) {
            return Ok(self.run_kept(seat, worker));
        }
        Ok(self.find_none(seat, worker))
    }

    /// It runs the job that it starts with.
    fn run_first(&mut self, seat: SeatNo, worker: u64) -> (Ticket, Ready<J>)
        requires worker { seat ≡ self.old.settings.sizes.callers + worker }
        requires there { worker < length self.old.pool.workers }
        requires starting { is_starting (slice_index_or self.old.pool.workers worker Absent) ≡ true }
        requires first { is_jobless (slice_index_or self.old.pool.workers worker Absent) ≡ false }
        ensures step { Step self.old seat result.0 (ready_deed result.1) self.new }
        ensures room { self.old.room ≤ self.new.room }
    {
        let take = ticket_of(self.next);
        let Task { ticket, job } = take_first(&mut self.workers, worker);
        set_stage(&mut self.workers, worker, Stage::Running(ticket));
        self.next += 1;
        (take, Ready::Run(ticket, job))
    }

    /// It runs the kept job that came first.
    #[inline(always)]
    fn run_kept(&mut self, seat: SeatNo, worker: u64) -> (Ticket, Ready<J>)
        requires worker { seat ≡ self.old.settings.sizes.callers + worker }
        requires there { worker < length self.old.pool.workers }
        requires jobless { slice_index_or self.old.pool.workers worker Absent ≡ Stage.Starting None }
        requires kept { oldest self.old.settings self.old.pool ≢ None }
        ensures step { Step self.old seat result.0 (ready_deed result.1) self.new }
        ensures room { self.old.room ≤ self.new.room }
    {
        let take = ticket_of(self.next);
        let oldest = self.line.partner(Side::Taker).unwrap(); // it was placed so
        let Entry {
            ticket,
            seat: _,
            item,
            waits: _,
        } = oldest;
        let job = item.unwrap();
        set_stage(&mut self.workers, worker, Stage::Running(ticket));
        self.next += 1;
        self.room = self.room.saturating_add(1);
        (take, Ready::Run(ticket, job))
    }

    /// It finds no job.
    fn find_none(&mut self, seat: SeatNo, worker: u64) -> (Ticket, Ready<J>)
        requires worker { seat ≡ self.old.settings.sizes.callers + worker }
        requires there { worker < length self.old.pool.workers }
        requires jobless { slice_index_or self.old.pool.workers worker Absent ≡ Stage.Starting None }
        requires none { oldest self.old.settings self.old.pool ≡ None }
        ensures step { Step self.old seat result.0 (ready_deed result.1) self.new }
        ensures room { self.old.room ≤ self.new.room }
    {
        let take = ticket_of(self.next);
        self.next += 1;
        if self.shut {
            set_stage(&mut self.workers, worker, Stage::Absent);
            return (take, Ready::Exit);
        }
        set_stage(&mut self.workers, worker, Stage::Waiting(take));
        self.line.push_take(Entry {
            ticket: take,
            seat,
            item: None,
            waits: true,
        });
        (take, Ready::Waits)
    }
}

/// Takes the job that a worker starts with out of its hands.
fn take_first<J>(workers: &mut Crew<J>, worker: u64) -> Task<J>
    requires there { worker < length workers.old }
    requires starting { is_starting (slice_index_or workers.old worker Absent) ≡ true }
    requires first { is_jobless (slice_index_or workers.old worker Absent) ≡ false }
    ensures was { slice_index_or workers.old worker Absent ≡ Stage.Starting (Some result) }
    ensures workers { workers.new ≡ slice_set workers.old worker Absent }
{
    match take_stage(workers, worker) {
        Stage::Starting(first) => first.unwrap(),
        _ => unreachable!(), // it starts
    }
}

/// Takes the job that a worker was handed out of its hands.
fn take_handed<J>(workers: &mut Crew<J>, worker: u64) -> Task<J>
    requires there { worker < length workers.old }
    requires handed { IsHanded (slice_index_or workers.old worker Absent) }
    ensures was { IsHandedTask (slice_index_or workers.old worker Absent) result }
    ensures workers { workers.new ≡ slice_set workers.old worker Absent }
{
    match take_stage(workers, worker) {
        Stage::HandedOver(_, task) => task,
        _ => unreachable!(), // it was handed one
    }
}
