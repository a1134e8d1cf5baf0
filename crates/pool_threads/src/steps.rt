//! The steps of a worker under the lock of its pool.

ghost use Rattle.std.specs.Prelude.{List, ℕ, map, ◌≡◌, ◌<◌, Some, None, Option};
ghost use Rattle.pool_core.specs.Moves.{Jobs, ReadyMoves, FollowMoves, IdleMoves, FailMoves};
ghost use Rattle.pool_threads.specs.Mirrored.{tags_of, given_tag, away};
ghost use Rattle.pool_threads.specs.NextFits.{NextFits, ReadyNext, FollowNext, IdleNext};
ghost use Rattle.pool_threads.specs.Stepped.{Works, Fails, core_call};
ghost use Rattle.pool_threads.specs.Worthy.{EndsRunningWorth};
ghost use Rattle.pool_core.specs.declared.calls.PoolCall.TheVariants as core;
ghost use Rattle.pool_threads.specs.declared.steps.WorkerCall.TheVariants.{Finish as FinishCall};

use crate::jobs::{Job, Work};
use crate::ledgers::PoolLedgers;
use crate::moving::{put_back, run, take};
use crate::shared::{PoolShared, told};
use crate::worth::WorkerSeat;
use pool_core::{Followed, IdleEnd, PoolAnswer, PoolCall, Ready};
use std::collections::VecDeque;

/// A step that a worker makes.
#[derive(Drop)]
pub enum WorkerCall {
    /// It starts, or comes back for a job.
    Ready,
    /// It looks whether it was handed a job.
    Follow,
    /// Its job returned this.
    Finish(u64),
    /// Its keep-alive time ran out.
    IdleEnd,
    /// It has no job, and ends.
    Leave,
}

/// How a worker's step ended.
#[derive(Drop)]
pub enum Next<C, S> {
    /// The worker has this job to run.
    Run(S, Job<C>),
    /// The worker waits.
    Waits(S),
    /// The worker's job ended.
    Ended(S),
    /// Nothing happened.
    Stays(S),
    /// The worker isn't there any more; its seat lies in the pool.
    Gone,
    /// The step returned an error.
    Refused(S),
}

impl<W: Work, C: Drop, N: PoolLedgers> PoolShared<W, C, N> {
    /// Makes a step of a worker, whose list has room for the receipt.
    pub fn work(&mut self, seat: WorkerSeat<W, N>, call: WorkerCall) -> Next<C, WorkerSeat<W, N>>
        requires room { 0 < seat.room }
        requires finish { (answer : _) → (call ≡ FinishCall answer) → EndsRunningWorth W.worth seat.list answer }
        ensures fits { NextFits seat result }
        ensures step { Works self.old.object self.new.object seat (core_call call) result }
    {
        match call {
            WorkerCall::Ready => self.ready(seat),
            WorkerCall::Follow => self.follow(seat),
            WorkerCall::Finish(answer) => self.finish(seat, answer),
            WorkerCall::IdleEnd => self.idle_end(seat),
            WorkerCall::Leave => self.leave(seat),
        }
    }

    /// A worker's `ready`.
    #[inline(always)]
    pub(crate) fn ready(&mut self, mut seat: WorkerSeat<W, N>) -> Next<C, WorkerSeat<W, N>>
        requires room { 0 < seat.room }
        ensures fits { NextFits seat result }
        ensures step { Works self.old.object self.new.object seat core.Ready result }
    {
        let PoolShared {
            shared,
            kept,
            given,
            seats,
        } = self;
        let w = shared.probe().worker_of(seat.number()) as usize;
        match seat.step(shared, PoolCall::Ready) {
            Err(_) => Next::Refused(seat),
            Ok(answer) => told!(answer, PoolAnswer::BeReady(_ticket, answer) => {
                after_ready(kept, given, seats, w, seat, answer)
            }),
        }
    }

    /// A worker's `follow`.
    #[inline(always)]
    fn follow(&mut self, mut seat: WorkerSeat<W, N>) -> Next<C, WorkerSeat<W, N>>
        requires room { 0 < seat.room }
        ensures fits { NextFits seat result }
        ensures step { Works self.old.object self.new.object seat core.Follow result }
    {
        let PoolShared {
            shared,
            kept,
            given,
            seats,
        } = self;
        let w = shared.probe().worker_of(seat.number()) as usize;
        match seat.step(shared, PoolCall::Follow) {
            Err(_) => Next::Refused(seat),
            Ok(answer) => told!(answer, PoolAnswer::Followed(_ticket, answer) => {
                after_follow(kept, given, seats, w, seat, answer)
            }),
        }
    }

    /// A worker's job answered this.
    #[inline(always)]
    pub(crate) fn finish(
        &mut self,
        mut seat: WorkerSeat<W, N>,
        answer: u64,
    ) -> Next<C, WorkerSeat<W, N>>
        requires room { 0 < seat.room }
        requires worth { EndsRunningWorth W.worth seat.list answer }
        ensures fits { NextFits seat result }
        ensures step { Works self.old.object self.new.object seat (core.Finish answer) result }
    {
        match seat.step(&mut self.shared, PoolCall::Finish(answer)) {
            Err(_) => Next::Refused(seat),
            Ok(answer) => told!(answer, PoolAnswer::Finished(_ticket) => Next::Ended(seat)),
        }
    }

    /// A worker's time ran out.
    fn idle_end(&mut self, mut seat: WorkerSeat<W, N>) -> Next<C, WorkerSeat<W, N>>
        requires room { 0 < seat.room }
        ensures fits { NextFits seat result }
        ensures step { Works self.old.object self.new.object seat core.IdleEnd result }
    {
        let PoolShared { shared, seats, .. } = self;
        let w = shared.probe().worker_of(seat.number()) as usize;
        match seat.step(shared, PoolCall::IdleEnd) {
            Err(_) => Next::Refused(seat),
            Ok(answer) => told!(answer, PoolAnswer::Idled(_ticket, answer) => {
                after_idle(seats, w, seat, answer)
            }),
        }
    }

    /// A worker that has no job leaves.
    fn leave(&mut self, mut seat: WorkerSeat<W, N>) -> Next<C, WorkerSeat<W, N>>
        requires room { 0 < seat.room }
        ensures fits { NextFits seat result }
        ensures step { Works self.old.object self.new.object seat core.Leave result }
    {
        let PoolShared { shared, seats, .. } = self;
        let w = shared.probe().worker_of(seat.number()) as usize;
        match seat.step(shared, PoolCall::Leave) {
            Err(_) => Next::Refused(seat),
            Ok(answer) => told!(answer, PoolAnswer::Left => {
                put_back(seats, w, seat);
                Next::Gone
            }),
        }
    }

    /// Records that a worker couldn't be started, and returns the job that it was to begin with, if there was one. Its
    /// seat lies in the pool again; an error of the step, which never happens, drops it.
    pub fn start_failed(&mut self, mut seat: WorkerSeat<W, N>) -> Option<Job<C>>
        requires room { 0 < seat.room }
        ensures { Fails self.old.object self.new.object seat result }
    {
        let PoolShared {
            shared,
            given,
            seats,
            ..
        } = self;
        let w = shared.probe().worker_of(seat.number()) as usize;
        match seat.step(shared, PoolCall::StartFailed) {
            Err(_) => None,
            Ok(answer) => told!(answer, PoolAnswer::NotStarted(_ticket, first) => {
                after_failed(given, seats, w, seat, first)
            }),
        }
    }
}

/// Moves the jobs and the seat as an answer to `ready` says.
#[inline(always)]
fn after_ready<C: Drop, S: Drop>(
    kept: &mut VecDeque<Job<C>>,
    given: &mut Vec<Option<Job<C>>>,
    seats: &mut Vec<Option<S>>,
    w: usize,
    seat: S,
    answer: Ready<u64>,
) -> Next<C, S>
    requires moves { (new : Jobs ℕ)
        × ReadyMoves w answer (tags_of kept.old.items given.old.items (away seats.old.items)) new }
    ensures next { ReadyNext seat answer result }
    ensures moves { (new : Jobs ℕ)
        → ReadyMoves w answer (tags_of kept.old.items given.old.items (away seats.old.items)) new
        → tags_of kept.new.items given.new.items (away seats.new.items) ≡ new }
{
    match answer {
        Ready::Run(_, tag) => {
            let _ = tag; // the moves speak of it
            Next::Run(seat, run(kept, given, w))
        }
        Ready::Waits => Next::Waits(seat),
        Ready::Exit => {
            put_back(seats, w, seat);
            Next::Gone
        }
    }
}

/// Moves the jobs and the seat as an answer to `follow` says.
#[inline(always)]
fn after_follow<C: Drop, S: Drop>(
    kept: &mut VecDeque<Job<C>>,
    given: &mut Vec<Option<Job<C>>>,
    seats: &mut Vec<Option<S>>,
    w: usize,
    seat: S,
    answer: Followed<u64>,
) -> Next<C, S>
    requires moves { (new : Jobs ℕ)
        × FollowMoves w answer (tags_of kept.old.items given.old.items (away seats.old.items)) new }
    ensures next { FollowNext seat answer result }
    ensures moves { (new : Jobs ℕ)
        → FollowMoves w answer (tags_of kept.old.items given.old.items (away seats.old.items)) new
        → tags_of kept.new.items given.new.items (away seats.new.items) ≡ new }
{
    match answer {
        Followed::Run(_, tag) => {
            let _ = tag; // the moves speak of it
            Next::Run(seat, run(kept, given, w))
        }
        Followed::NotYet => Next::Stays(seat),
        Followed::Exit => {
            put_back(seats, w, seat);
            Next::Gone
        }
    }
}

/// Moves the seat as an answer to `idle_end` says.
fn after_idle<C: Drop, S: Drop>(
    seats: &mut Vec<Option<S>>,
    w: usize,
    seat: S,
    answer: IdleEnd,
) -> Next<C, S>
    requires moves { (kept : List ℕ) × (given : List (Option ℕ)) × (new : Jobs ℕ)
        × IdleMoves w answer (record { kept = kept; given = given; there = away seats.old.items }) new }
    ensures next { IdleNext seat answer result }
    ensures moves { (kept : List ℕ) (given : List (Option ℕ)) (new : Jobs ℕ)
        → IdleMoves w answer (record { kept = kept; given = given; there = away seats.old.items }) new
        → record { kept = kept; given = given; there = away seats.new.items } ≡ new }
{
    match answer {
        IdleEnd::Stay | IdleEnd::Late => Next::Stays(seat),
        IdleEnd::Exit => {
            put_back(seats, w, seat);
            Next::Gone
        }
    }
}

/// Moves the job and the seat of a worker that couldn't be started.
fn after_failed<C: Drop, S: Drop>(
    given: &mut Vec<Option<Job<C>>>,
    seats: &mut Vec<Option<S>>,
    w: usize,
    seat: S,
    first: Option<u64>,
) -> Option<Job<C>>
    requires moves { (kept : List ℕ) × (new : Jobs ℕ)
        × FailMoves w first
        (record { kept = kept; given = map given_tag given.old.items; there = away seats.old.items }) new }
    ensures job { given_tag result ≡ first }
    ensures moves { (kept : List ℕ) (new : Jobs ℕ)
        → FailMoves w first
        (record { kept = kept; given = map given_tag given.old.items; there = away seats.old.items }) new
        → record { kept = kept; given = map given_tag given.new.items; there = away seats.new.items } ≡ new }
{
    put_back(seats, w, seat);
    match first {
        Some(_) => Some(take(given, w)),
        None => None,
    }
}
