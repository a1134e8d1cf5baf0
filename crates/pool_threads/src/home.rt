//! What the callers and the workers of a pool share, and what a worker does there.

ghost use Rattle.std.specs.Prelude.{◌≡◌, ◌<◌, ◌≤◌, IfSome};
ghost use Rattle.meet_tickets.specs.Limits.{most_seats};
ghost use Rattle.pool_threads.specs.Duties.{DutyFits, IsStepped};
ghost use Rattle.pool_threads.specs.NextFits.{NextFits};
ghost use Rattle.pool_threads.specs.Worthy.{EndsRunning, EndsRunningWorth};
ghost use Rattle.pool_threads.specs.declared.steps.WorkerCall.TheVariants.{Finish};

use crate::jobs::{Call, Job, Work};
use crate::ledgers::PoolLedgers;
use crate::posts::Post;
use crate::shared::PoolShared;
use crate::steps::{Next, WorkerCall};
use crate::worth::WorkerSeat;
use crossbeam_utils::CachePadded;
use meet_cells::{Gate, Turn};
use meet_place::{Ledgers, hold_patiently};
use std::marker::{Model, PhantomData};
use std::sync::atomic::{AtomicU64, Ordering};
use std::sync::{Condvar, Mutex, Wait};
use std::time::Clock;

/// A pool's core under a lock, with the jobs and seats beside it; a post for each worker; and how long a worker waits
/// there at a time, in milliseconds.
#[derive(Drop)]
pub struct Home<W: Work, C, G, N: PoolLedgers> {
    pub(crate) shared: CachePadded<Mutex<PoolShared<W, C, N>>>,
    pub(crate) posts: Vec<CachePadded<Post<W, C, G, N>>>,
    pub(crate) moved: Condvar,
    pub(crate) made: Made<N>,
    pub(crate) callers: u64,
    /// How often a thread that finds the lock taken lets others run at most, before it tries again.
    pub(crate) patience: u64,
    pub(crate) keep_alive: u64,
    /// Whether the seat of a worker that waits lies at its post.
    pub(crate) entrusts: bool,
    /// How many records callers folded away or had handed out so far: a hint, by which workers let go of receipts.
    pub(crate) folded: AtomicU64,
}

/// How many seats were made.
#[derive(Drop)]
pub struct Made<N: Ledgers> {
    count: usize,
    of: PhantomData<N>,
}

impl<N: Ledgers> Model for Made<N> {
    ghost use Rattle.std.specs.Prelude.{◌≡◌, ◌≤◌, ℕ};
    ghost use Rattle.meet_tickets.specs.Limits.{most_seats};

    ghost Value = { ℕ };

    ghost view = { λ m. m.count };

    ghost invariant = { λ m. (m.count ≡ N.parts) × (m.count ≤ most_seats) };
}

impl<N: Ledgers> Made<N> {
    pub(crate) fn new(count: usize) -> Self
        requires all { count ≡ N.parts }
        requires limit { count ≤ most_seats }
        ensures { result ≡ count }
    {
        Made {
            count,
            of: PhantomData,
        }
    }

    /// Returns how many.
    pub(crate) fn count(&self) -> usize
        ensures same { result ≡ self.now }
        ensures all { result ≡ N.parts }
        ensures limit { result ≤ most_seats }
    {
        self.count
    }
}

/// What a worker does next.
#[derive(Drop)]
pub enum Duty<C, S> {
    /// It is ready for a job.
    BeReady(S),
    /// It runs this job.
    Run(S, Job<C>),
    /// It waits for a job.
    Await(S),
}

/// What a worker does after it was ready, or looked whether it was handed a job; none if it is gone.
#[inline(always)]
pub(crate) fn duty_of<W: Work, C: Drop, N: PoolLedgers>(
    next: Next<C, WorkerSeat<W, N>>,
) -> Option<Duty<C, WorkerSeat<W, N>>>
    requires { IsStepped next }
    ensures { IfSome result DutyFits }
{
    match next {
        Next::Run(seat, job) => Some(Duty::Run(seat, job)),
        Next::Waits(seat) => Some(Duty::Await(seat)),
        Next::Stays(seat) => Some(Duty::Await(seat)),
        _ => None,
    }
}

impl<W: Work, C: Drop, G, N: PoolLedgers> Home<W, C, G, N> {
    /// Makes a step of a worker under one hold of the lock.
    fn step<R: Wait>(
        &self,
        rt: &R,
        seat: WorkerSeat<W, N>,
        call: WorkerCall,
    ) -> Next<C, WorkerSeat<W, N>>
        requires room { 0 < seat.room }
        requires finish { (answer : _) → (call ≡ Finish answer) → EndsRunningWorth W.worth seat.list answer }
        ensures { NextFits seat result }
    {
        let mut shared = hold_patiently(rt, &self.shared, self.patience);
        let next = shared.work(seat, call);
        drop(shared);
        next
    }

    /// Records what a worker's job answered, and that it is ready for the next, under one hold of the lock: what it
    /// does then; none where it has gone, or a step is refused.
    fn step_twice<R: Wait>(
        &self,
        rt: &R,
        seat: WorkerSeat<W, N>,
        answer: u64,
    ) -> Option<Duty<C, WorkerSeat<W, N>>>
        requires room { 5 ≤ seat.room }
        requires worth { EndsRunningWorth W.worth seat.list answer }
        ensures { IfSome result DutyFits }
    {
        let mut shared = hold_patiently(rt, &self.shared, self.patience);
        let next = match shared.finish(seat, answer) {
            Next::Ended(seat) => shared.ready(seat),
            _ => return None,
        };
        drop(shared);
        duty_of(next)
    }

    /// Whether a worker is to let go of receipts.
    fn is_to_forget(&self, seat: &WorkerSeat<W, N>) -> bool {
        seat.is_to_forget(self.folded.load(Ordering::Relaxed))
    }

    /// Lets go of a worker's receipts for records that were folded away, where there are many.
    fn forget<R: Wait>(&self, rt: &R, seat: &mut WorkerSeat<W, N>)
        ensures { seat.old.room ≤ seat.new.room }
    {
        if self.is_to_forget(seat) {
            let mut shared = hold_patiently(rt, &self.shared, self.patience);
            let gone = shared.gone_for_worker(seat);
            drop(shared);
            seat.forget(gone);
        }
    }
}

impl<W: Work, C: Call<W> + Drop, G: Gate, N: PoolLedgers> Home<W, C, G, N> {
    /// A worker is ready for a job, or leaves where its list has no room for what that takes.
    fn be_ready<R: Wait>(
        &self,
        rt: &R,
        mut seat: WorkerSeat<W, N>,
    ) -> Option<Duty<C, WorkerSeat<W, N>>>
        requires room { 0 < seat.room }
        ensures { IfSome result DutyFits }
    {
        self.forget(rt, &mut seat);
        if seat.reserve(4).is_err() {
            let _ended = self.step(rt, seat, WorkerCall::Leave);
            return None;
        }
        let next = self.step(rt, seat, WorkerCall::Ready);
        duty_of(next)
    }

    /// Runs a job outside the lock, and records its answer; and where there is room for what comes then, and no
    /// receipts are to be let go, that its worker is ready for the next. A job that isn't of its tag, which none is, is
    /// let go, and its worker is then missing in the end.
    fn perform<R: Wait>(
        &self,
        rt: &R,
        mut seat: WorkerSeat<W, N>,
        job: Job<C>,
    ) -> Option<Duty<C, WorkerSeat<W, N>>>
        requires room { 2 ≤ seat.room }
        requires runs { EndsRunning seat.list job.tag }
        ensures { IfSome result DutyFits }
    {
        let answer = job.run::<W>()?;
        if !self.is_to_forget(&seat) && seat.reserve(5).is_ok() {
            return self.step_twice(rt, seat, answer);
        }
        match self.step(rt, seat, WorkerCall::Finish(answer)) {
            Next::Ended(seat) => Some(Duty::BeReady(seat)),
            _ => None,
        }
    }

    /// Waits at the worker's post until it is handed a job, or ends. The thread that hands it a job may leave it there with
    /// the worker's seat; otherwise the worker takes its seat, and makes its steps itself.
    fn await_job<R: Wait + Clock>(
        &self,
        rt: &R,
        first: WorkerSeat<W, N>,
    ) -> Option<Duty<C, WorkerSeat<W, N>>>
        requires room { 3 ≤ first.room }
        ensures { IfSome result DutyFits }
    {
        let mut seat = first;
        for _ in rt.forever() {
            let (duty, turn) = self.stand_by(rt, seat);
            let waiting = match duty? {
                Duty::Await(waiting) => waiting,
                handed => return Some(handed),
            };
            match self.step(rt, waiting, WorkerCall::Follow) {
                Next::Run(seat, job) => return Some(Duty::Run(seat, job)),
                Next::Stays(again) => seat = again,
                _ => return None,
            }
            if turn == Turn::Elapsed {
                match self.step(rt, seat, WorkerCall::IdleEnd) {
                    Next::Stays(again) => seat = again,
                    _ => return None,
                }
            }
        }
        unreachable!() // it loops for ever
    }

    /// Waits once at the worker's post, where its seat lies meanwhile if the pool entrusts it. Returns what the worker does
    /// next; none if it is gone.
    fn stand_by<R: Wait + Clock>(
        &self,
        rt: &R,
        seat: WorkerSeat<W, N>,
    ) -> (Option<Duty<C, WorkerSeat<W, N>>>, Turn)
        requires room { 3 ≤ seat.room }
        ensures { IfSome result.0 DutyFits }
    {
        let at = seat.number().number().saturating_sub(self.callers) as usize;
        let Some(post) = self.posts.get(at) else {
            return (Some(Duty::Await(seat)), Turn::Woken);
        };
        if !self.entrusts {
            let turn = post.gate.wait(rt, Some(self.keep_alive));
            return (Some(Duty::Await(seat)), turn);
        }
        post.entrust(rt, seat);
        let turn = post.gate.wait(rt, Some(self.keep_alive));
        (post.collect(rt), turn)
    }

    /// What a worker does, from its start to its end. Then who waits for the pool's end looks again.
    pub(crate) fn serve<R: Wait + Clock>(&self, rt: &R, first: WorkerSeat<W, N>)
        requires room { 0 < first.room }
    {
        let mut duty = Duty::BeReady(first);
        for _ in rt.forever() {
            let next = match duty {
                Duty::BeReady(seat) => self.be_ready(rt, seat),
                Duty::Run(seat, job) => self.perform(rt, seat, job),
                Duty::Await(seat) => self.await_job(rt, seat),
            };
            match next {
                Some(next) => duty = next,
                None => {
                    self.moved.notify_all();
                    return;
                }
            }
        }
    }
}
