//! What the lock of a pool guards.

ghost use Rattle.std.specs.Prelude.{ℕ, ◌≡◌, ◌≢◌, ◌<◌, ◌≤◌, ◌⊎◌, map, is_none, [], ◌∷◌, Some, None, true, Option, length, IfOk};
ghost use Rattle.std.specs.Prelude.{IfErr, IfSome, OnOk, IsTrue};
ghost use Rattle.meet_tickets.specs.declared.refusals.Refusal.TheVariants.{NoThread, Memory};
ghost use Rattle.meet_place.specs.Seats.{Adds, SameSeat};
ghost use Rattle.meet_book.specs.Booking.{book_refusal};
ghost use Rattle.meet_tickets.specs.Refusals.{IsWhy};
ghost use Rattle.pool_core.specs.Calls.{execute_refusal, shutdown_refusal};
ghost use Rattle.pool_core.specs.Pools.{owed};
ghost use Rattle.pool_core.specs.Moves.{jobs_of};
ghost use Rattle.pool_core.specs.declared.deeds.PoolDeed.TheVariants.{ShutDown, ShutDownNow};
ghost use Rattle.pool_threads.specs.Mirrored.{tags_of, tag_in, away, HasFour};
ghost use Rattle.pool_threads.specs.Outcomes.{Handed};
ghost use Rattle.pool_threads.specs.Told.{answer_told, IsItself, Starts, IsExecuteWhy, IsShutWhy, StartsOne};

use crate::jobs::{Executed, Job, Work};
use crate::ledgers::PoolLedgers;
use crate::moving::place;
use crate::worth::WorkerSeat;
use meet_place::{Ledgers, Seat, Shared};
use meet_tickets::{Refusal, Refused};
use pool_core::{PoolAnswer, PoolCall, PoolCore, PoolDeed};
use std::alloc::Global;
use std::collections::VecDeque;
use std::marker::Model;
use std::mem;

/// What is made of the core's answer to a call. A call has one kind of answer, which is named here.
macro_rules! told {
    ($answer:expr, $own:pat => $then:expr) => {
        match $answer {
            $own => $then,
            _ => unreachable!(), // the answer to another call
        }
    };
}

pub(crate) use told;

/// The book of a pool's core, the jobs that lie in the pool, and the seats of the workers that aren't there. The jobs
/// are those that the core knows by their tags, and the seats are of those workers that it knows to be absent. The
/// core's settings are those that the pool was made with. The fields lie in the order that is written here (`repr(C)`):
/// what each call of a worker touches lies together, and away from the lock's word.
#[derive(Drop)]
#[repr(C)]
pub struct PoolShared<W: Work, C, N: PoolLedgers> {
    pub(crate) shared: Shared<PoolCore<u64>, N>,
    pub(crate) kept: VecDeque<Job<C>>,
    pub(crate) given: Vec<Option<Job<C>>>,
    pub(crate) seats: Vec<Option<WorkerSeat<W, N>>>,
}

impl<W: Work, C, N: PoolLedgers> Model for PoolShared<W, C, N> {
    ghost use Rattle.std.specs.Prelude.{◌≡◌, ℕ};
    ghost use Rattle.meet_book.specs.Booked.{Booked};
    ghost use Rattle.pool_core.specs.Moves.{jobs_of};
    ghost use Rattle.pool_core.specs.Shown.{Shown};
    ghost use Rattle.pool_core.specs.Histories.{Based};
    ghost use Rattle.pool_core.specs.declared.deeds.PoolDeed.{PoolDeed as Told};
    ghost use Rattle.pool_threads.specs.Mirrored.{tags_of, away};

    ghost Value = { Booked (Shown ℕ) Based (Told ℕ) };

    ghost view = { λ s. s.shared };

    ghost invariant = { λ s.
        (tags_of s.kept.items s.given.items (away s.seats.items) ≡ jobs_of s.shared.object.pool)
        × (s.shared.object.settings ≡ N.settings) };
}

/// What happened to a job under the lock, and the seat of the worker that has to be started, if there is one.
#[derive(Drop)]
pub struct Placed<C, S> {
    /// What happened to the job.
    pub executed: Executed<C>,
    /// The seat of the worker that has to be started.
    pub worker: Option<S>,
}

impl<W: Work, C: Drop, N: PoolLedgers> PoolShared<W, C, N> {
    /// Returns the core, to be read.
    pub fn probe(&self) -> &PoolCore<u64>
        ensures { result.now ≡ self.now.object }
    {
        self.shared.probe()
    }

    /// Hands a job in. The seat's list has room for the receipt.
    ///
    /// # Errors
    /// Nothing has changed, and the job is returned.
    /// - Memory, if an allocation fails.
    /// - NoSuchSeat, TicketsSpent or HistoryFull, as the core and its log (`Pool::execute`).
    #[inline(always)]
    pub fn execute(
        &mut self,
        seat: &mut Seat<PoolDeed<u64>, N>,
        job: Job<C>,
    ) -> Result<Placed<C, WorkerSeat<W, N>>, Refused<Job<C>>>
        requires room { 0 < seat.old.room }
        ensures handed { IfOk result (λ placed. Handed seat.old seat.new job.tag (answer_told placed.executed)) }
        ensures itself { IfOk result (λ placed. IsItself job placed.executed) }
        ensures worker { IfOk result (λ placed. IfSome placed.worker (λ worker. (w : ℕ)
            × Starts (answer_told placed.executed) w × (4 ≤ worker.room))) }
        ensures starts { IfOk result (λ placed. StartsOne (answer_told placed.executed) placed.worker) }
        ensures why { IfErr result (λ refused. refused.why ≢ NoThread) }
        ensures exact { IfErr result (λ refused. (refused.why ≡ Memory)
            ⊎ IsWhy (book_refusal (execute_refusal self.old.object seat.old.number) (owed self.old.object.pool) 6 self.old)
            refused.why) }
        ensures reason { IfErr result (λ refused. IsExecuteWhy N.settings.sizes.callers seat.old.number refused.why) }
        ensures back { IfErr result (λ refused. refused.back ≡ job) }
        ensures same { IfErr result (λ _. seat.new ≡ seat.old) }
    {
        let PoolShared {
            shared,
            kept,
            given,
            seats,
        } = self;
        let free = shared.probe().free();
        if kept.reserve(1).is_err() || !prepared(seats, free) {
            return Err(Refused {
                why: Refusal::Memory,
                back: job,
            });
        }
        match shared.step(seat, PoolCall::Execute(job.tag())) {
            Ok(answer) => told!(answer, PoolAnswer::Executed(_ticket, answer) => {
                Ok(place(kept, given, seats, job, answer))
            }),
            Err(refused) => Err(back_with(refused, job)),
        }
    }

    /// Shuts the pool down. The seat's list has room for the receipt.
    ///
    /// # Errors
    /// Nothing has changed.
    /// - NoSuchSeat, if the seat isn't a caller's.
    /// - HistoryFull, if the log has no room for the record.
    /// - Memory, if an allocation fails.
    pub fn shutdown(&mut self, seat: &mut Seat<PoolDeed<u64>, N>) -> Result<(), Refusal>
        requires room { 0 < seat.old.room }
        ensures seat { SameSeat seat.old seat.new }
        ensures adds { OnOk result (Adds seat.old.list seat.new.list
            (record { seat = seat.old.number; ticket = 0; deed = ShutDown } ∷ [])) }
        ensures exact { IfErr result (IsWhy (book_refusal (shutdown_refusal self.old.object seat.old.number)
            (owed self.old.object.pool) 1 self.old)) }
        ensures why { IfErr result (IsShutWhy N.settings.sizes.callers seat.old.number) }
        ensures same { IfErr result (λ _. seat.new ≡ seat.old) }
    {
        match self.shared.step(seat, PoolCall::ShutDown) {
            Ok(answer) => told!(answer, PoolAnswer::WasShut => Ok(())),
            Err(refused) => Err(refused.why),
        }
    }

    /// Shuts the pool down, and returns all buffered jobs, in their order. The seat's list has room for the receipt.
    ///
    /// # Errors
    /// Nothing has changed.
    /// - NoSuchSeat, if the seat isn't a caller's.
    /// - HistoryFull, if the log has no room for the record.
    /// - Memory, if an allocation fails.
    pub fn shutdown_now(
        &mut self,
        alloc: Global,
        seat: &mut Seat<PoolDeed<u64>, N>,
    ) -> Result<VecDeque<Job<C>>, Refusal>
        requires room { 0 < seat.old.room }
        ensures seat { SameSeat seat.old seat.new }
        ensures adds { IfOk result (λ jobs. Adds seat.old.list seat.new.list
            (record { seat = seat.old.number; ticket = 0; deed = ShutDownNow (length jobs.items) } ∷ [])) }
        ensures jobs { IfOk result (λ jobs. map tag_in jobs.items ≡ (jobs_of self.old.object.pool).kept) }
        ensures exact { IfErr result (IsWhy (book_refusal (shutdown_refusal self.old.object seat.old.number)
            (owed self.old.object.pool) 1 self.old)) }
        ensures why { IfErr result (IsShutWhy N.settings.sizes.callers seat.old.number) }
        ensures same { IfErr result (λ _. seat.new ≡ seat.old) }
    {
        let PoolShared { shared, kept, .. } = self;
        match shared.step(seat, PoolCall::ShutDownNow) {
            Ok(answer) => told!(answer, PoolAnswer::Returned(_tasks) => {
                Ok(mem::replace(kept, VecDeque::new(alloc)))
            }),
            Err(refused) => Err(refused.why),
        }
    }
}

/// Returns why a call was refused, with the job that it brought.
fn back_with<A: Drop, C>(refused: Refused<A>, job: Job<C>) -> Refused<Job<C>>
    ensures why { result.why ≡ refused.why }
    ensures back { result.back ≡ job }
{
    Refused {
        why: refused.why,
        back: job,
    }
}

/// Reserves room for four receipts on the worker that this job may start; returns false if out of memory.
fn prepared<W: Work, N: Ledgers>(
    seats: &mut Vec<Option<WorkerSeat<W, N>>>,
    free: Option<u64>,
) -> bool
    ensures away { away seats.new.items ≡ away seats.old.items }
    ensures room { IsTrue result → IfSome free (λ w. HasFour seats.new.items w) }
{
    match free {
        None => true,
        Some(w) => {
            let at = w as usize;
            if at < seats.len() {
                reserved(&mut seats[at])
            } else {
                true
            }
        }
    }
}

/// Reserves room for four receipts, if a seat is here; returns false if out of memory.
fn reserved<W: Work, N: Ledgers>(slot: &mut Option<WorkerSeat<W, N>>) -> bool
    ensures here { is_none slot.new ≡ is_none slot.old }
    ensures room { IsTrue result → IfSome slot.new (λ seat. 4 ≤ seat.room) }
{
    match slot {
        Some(seat) => seat.reserve(4).is_ok(),
        None => true,
    }
}
