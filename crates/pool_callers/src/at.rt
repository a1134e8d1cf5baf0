//! A handle at a pool.

ghost use Rattle.std.specs.Prelude.{◌≡◌, ◌≢◌, ℕ, true, false, Ok, Err, Some, IsOk, IsSome, IsSomeAnd, IfOk, IfErr, length};
ghost use Rattle.meet_place.specs.Seats.{Trims};
ghost use Rattle.meet_place.specs.Tending.{Tends, is_to_look};
ghost use Rattle.meet_tickets.specs.Limits.{most_records};
ghost use Rattle.meet_tickets.specs.declared.refusals.Refusal.TheVariants.{NoThread};
ghost use Rattle.pool_threads.specs.Outcomes.{Handed, IsUnstarted, ItemFits, answer_of};
ghost use Rattle.pool_threads.specs.Told.{IsExecuteWhy, IsShutWhy};
ghost use Rattle.pool_core.specs.declared.deeds.PoolDeed.TheVariants.{ShutDownNow};
ghost use Rattle.pool_callers.specs.Handles.{Readies, is_time, Stays, Writes, CallFits, IsUnbegun, Returns};

use crate::handle::PoolHandle;
use crate::refused::ExecuteRefused;
use crate::starting::Starting;
use meet_cells::ParkGate;
use meet_place::Seat;
use meet_tickets::{Record, Refusal};
use pool_core::{Counters, PoolDeed};
use pool_threads::{
    Begun, Call, Job, Outcome, Placed, Pool, PoolChapter, PoolLedgers, PoolRefused, SeatRefused,
    ThreadStarter, Work, first_of, outcome_of,
};
use std::collections::VecDeque;
use std::sync::Wait;
use std::time::Clock;

/// A pool whose workers park, each in a thread of its own.
pub(crate) type Parked<W, C, N> = Pool<W, C, ParkGate, ThreadStarter, N>;

/// A seat beside its pool. It is taken out for a call alone.
#[derive(Drop)]
pub(crate) struct At<'p, W: Work, C, N: PoolLedgers, R> {
    rt: &'p R,
    pool: &'p Parked<W, C, N>,
    starting: &'p Starting<W, C, N>,
    seat: Option<Seat<PoolDeed<u64>, N>>,
    keeps_log: bool,
    ghost seated: { IsSome seat },
}

impl<'p, W: Work, C, N: PoolLedgers, R> At<'p, W, C, N, R> {
    /// A handle with this seat at its pool. Its calls compact the log.
    pub(crate) fn new(
        rt: &'p R,
        pool: &'p Parked<W, C, N>,
        starting: &'p Starting<W, C, N>,
        seat: Seat<PoolDeed<u64>, N>,
    ) -> Self
        ensures seat { result.seat ≡ Some seat }
        ensures compacts { result.keeps_log ≡ false }
    {
        At {
            rt,
            pool,
            starting,
            seat: Some(seat),
            keeps_log: false,
        }
    }

    /// The seat.
    pub(crate) fn into_seat(self) -> Seat<PoolDeed<u64>, N> {
        self.seat.unwrap()
    }
}

/// Splits the result of a seat's call into the seat and what its caller gets.
fn apart<A, N: PoolLedgers>(
    called: Result<(Seat<PoolDeed<u64>, N>, A), SeatRefused<N>>,
) -> (Seat<PoolDeed<u64>, N>, Result<A, Refusal>)
    ensures done { IfOk called (λ done. (result.0 ≡ done.0) × (result.1 ≡ Ok done.1)) }
    ensures refused { IfErr called (λ refused. (result.0 ≡ refused.seat) × (result.1 ≡ Err refused.why)) }
{
    match called {
        Ok((seat, answer)) => (seat, Ok(answer)),
        Err(refused) => {
            let SeatRefused { seat, why } = refused;
            (seat, Err(why))
        }
    }
}

/// Splits the result of a seat's call that tells nothing else.
fn seat_apart<N: PoolLedgers>(
    called: Result<Seat<PoolDeed<u64>, N>, SeatRefused<N>>,
) -> (Seat<PoolDeed<u64>, N>, Result<(), Refusal>)
    ensures done { IfOk called (λ seat. (result.0 ≡ seat) × IsOk result.1) }
    ensures refused { IfErr called (λ refused. (result.0 ≡ refused.seat) × (result.1 ≡ Err refused.why)) }
{
    match called {
        Ok(seat) => (seat, Ok(())),
        Err(refused) => {
            let SeatRefused { seat, why } = refused;
            (seat, Err(why))
        }
    }
}

/// The seat after it has tended its pool: whether that could be done.
fn tended<W: Work, C: Drop, N: PoolLedgers, R: Wait>(
    rt: &R,
    pool: &Parked<W, C, N>,
    seat: Seat<PoolDeed<u64>, N>,
) -> (Seat<PoolDeed<u64>, N>, Result<(), Refusal>)
    ensures idle { is_to_look most_records N.parts seat ≡ false → IsOk result.1 × (result.0 ≡ seat) }
    ensures looked { is_to_look most_records N.parts seat ≡ true → IfOk result.1 (λ _. Tends seat result.0) }
    ensures trimmed { IfErr result.1 (λ _. (gone : ℕ) × Trims gone seat result.0) }
{
    seat_apart(pool.tend(rt, seat))
}

/// The seat for a job that is handed in: it compacts the log first if the handle doesn't keep it, and it is time to.
/// If that fails the records stay, and the job is handed in all the same.
fn readied<W: Work, C: Drop, N: PoolLedgers, R: Wait>(
    rt: &R,
    pool: &Parked<W, C, N>,
    seat: Seat<PoolDeed<u64>, N>,
    keeps_log: bool,
) -> Seat<PoolDeed<u64>, N>
    ensures ready { Readies (is_time N.parts keeps_log seat) seat result }
    ensures number { result.number ≡ seat.number }
{
    if keeps_log {
        return seat;
    }
    let (seat, _told) = tended(rt, pool, seat);
    seat
}

/// The seat after a job was handed in, and what its caller gets.
fn placed<W, C, N, R>(
    rt: &R,
    pool: &Parked<W, C, N>,
    starting: &Starting<W, C, N>,
    seat: Seat<PoolDeed<u64>, N>,
    job: Job<C>,
) -> (
    Seat<PoolDeed<u64>, N>,
    Result<Outcome<C>, ExecuteRefused<C>>,
)
where
    W: Work,
    C: Call<W> + Drop,
    N: PoolLedgers,
    R: Wait,
    ensures handed { IfOk result.1 (λ outcome. Handed seat result.0 job.tag (answer_of job.tag outcome)) }
    ensures item { IfOk result.1 (ItemFits (W.worth (C.tag_of job.call)) job) }
    ensures unstarted { IfErr result.1 (λ refused. refused.why ≡ NoThread
        → IsUnstarted seat result.0 job refused.job) }
    ensures same { IfErr result.1 (λ refused. refused.why ≢ NoThread → Stays seat result.0) }
    ensures back { IfErr result.1 (λ refused. refused.why ≢ NoThread → refused.job ≡ Some job) }
    ensures why { IfErr result.1 (λ refused. refused.why ≢ NoThread
        → IsExecuteWhy N.settings.sizes.callers seat.number refused.why) }
{
    let tag = job.tag();
    let (seat, placed) = match pool.place(rt, seat, job) {
        Ok(done) => done,
        Err(refused) => {
            let PoolRefused { why, seat, job } = refused;
            return (seat, Err(ExecuteRefused { why, job }));
        }
    };
    let Placed { executed, worker } = placed;
    if let Some(worker) = worker {
        let first = first_of(&executed, tag);
        if let Begun::NoThread(job) = starting.begin(rt, worker, first) {
            let why = Refusal::NoThread;
            return (seat, Err(ExecuteRefused { why, job }));
        }
    }
    (seat, Ok(outcome_of::<W, C>(executed)))
}

/// The seat after this was handed in as a job, and what its caller gets.
fn handed<W, C, N, R>(
    rt: &R,
    pool: &Parked<W, C, N>,
    starting: &Starting<W, C, N>,
    seat: Seat<PoolDeed<u64>, N>,
    call: C,
) -> (
    Seat<PoolDeed<u64>, N>,
    Result<Outcome<C>, ExecuteRefused<C>>,
)
where
    W: Work,
    C: Call<W> + Drop,
    N: PoolLedgers,
    R: Wait,
    ensures handed { IfOk result.1 (λ outcome. Handed seat result.0 (C.tag_of call)
        (answer_of (C.tag_of call) outcome)) }
    ensures item { IfOk result.1 (CallFits (W.worth (C.tag_of call)) (C.tag_of call) call) }
    ensures unstarted { IfErr result.1 (λ refused. refused.why ≡ NoThread
        → IsUnbegun seat result.0 (C.tag_of call) call refused.job) }
    ensures same { IfErr result.1 (λ refused. refused.why ≢ NoThread → Stays seat result.0) }
    ensures back { IfErr result.1 (λ refused. refused.why ≢ NoThread
        → IsSomeAnd refused.job (Returns (C.tag_of call) call)) }
    ensures why { IfErr result.1 (λ refused. refused.why ≢ NoThread
        → IsExecuteWhy N.settings.sizes.callers seat.number refused.why) }
{
    placed(rt, pool, starting, seat, Job::new::<W>(call))
}

/// The seat after the pool was shut down at once, and what its caller gets.
fn shut_now<W: Work, C: Drop, N: PoolLedgers, R: Wait>(
    rt: &R,
    pool: &Parked<W, C, N>,
    seat: Seat<PoolDeed<u64>, N>,
) -> (Seat<PoolDeed<u64>, N>, Result<VecDeque<Job<C>>, Refusal>)
    ensures shut { IfOk result.1 (λ jobs. Writes (ShutDownNow (length jobs.items)) seat result.0) }
    ensures same { IfErr result.1 (λ _. Stays seat result.0) }
    ensures why { IfErr result.1 (IsShutWhy N.settings.sizes.callers seat.number) }
{
    match pool.shutdown_now(rt, seat) {
        Ok((seat, jobs)) => (seat, Ok(jobs)),
        Err(refused) => {
            let SeatRefused { seat, why } = refused;
            (seat, Err(why))
        }
    }
}

impl<'p, W, C, N, R> PoolHandle<W, C> for At<'p, W, C, N, R>
where
    W: Work,
    C: Call<W> + Drop,
    N: PoolLedgers,
    R: Wait + Clock,
{
    type Runtime = R;

    ghost settings = { N.settings };

    ghost count = { N.parts };

    ghost handle_of = { λ at. record { seat = at.seat; keeps_log = at.keeps_log } };

    fn number(&self) -> u64 {
        self.seat.as_ref().unwrap().number().number()
    }

    fn keep_log(&mut self) {
        self.keeps_log = true;
    }

    fn execute(&mut self, job: C) -> Result<Outcome<C>, ExecuteRefused<C>> {
        let seat = self.seat.take().unwrap();
        let seat = readied(self.rt, self.pool, seat, self.keeps_log);
        let (seat, told) = handed(self.rt, self.pool, self.starting, seat, job);
        self.seat = Some(seat);
        told
    }

    fn shutdown(&mut self) -> Result<(), Refusal> {
        let seat = self.seat.take().unwrap();
        let (seat, told) = seat_apart(self.pool.shutdown(self.rt, seat));
        self.seat = Some(seat);
        told
    }

    fn shutdown_now(&mut self) -> Result<VecDeque<Job<C>>, Refusal> {
        let seat = self.seat.take().unwrap();
        let (seat, told) = shut_now(self.rt, self.pool, seat);
        self.seat = Some(seat);
        told
    }

    fn counters(&self) -> Counters {
        self.pool.counters(self.rt)
    }

    fn rotate(&mut self, room: Vec<Record<PoolDeed<u64>>>) -> Result<PoolChapter, Refusal> {
        let seat = self.seat.take().unwrap();
        let (seat, told) = apart(self.pool.rotate(self.rt, seat, room));
        self.seat = Some(seat);
        told
    }

    fn history(&self) -> Result<PoolChapter, Refusal> {
        self.pool.history(self.rt)
    }
}
