//! Pools as the tests make, use and end them. Who owns a pool calls functions that borrow it. None of these says what
//! it does, and what goes wrong ends the test: so a test that calls them knows no more than what they answer, and is
//! proved fast.

ghost use Rattle.std.specs.Prelude.{◌≡◌, ◌+◌, false, vec_len};
ghost use Rattle.meet_place.specs.Ledgers.{AreOf};
ghost use Rattle.pool_threads.specs.Parts.{IsOneEach};
ghost use Rattle.meet_tickets.specs.Limits.{most_records};

use meet_cells::{Gate, Turn};
use meet_place::{Back, Blanks, Ledgers, Seat};
use pool_core::{Policy, PoolDeed, PoolQueue, Sizes};
use pool_threads::{
    Call, ItsTag, Job, NewPool, Outcome, Pool, PoolChronicle, PoolLedgers, PoolRefused, Starter,
};
use std::alloc::Global;
use std::collections::VecDeque;
use std::process::Abort;
use std::sync::Wait;
use std::test::*;
use std::thread;
use std::thread::Threads;
use std::time::Clock;

/// A pool whose jobs are worth their tags.
pub(crate) type Ours<C, G, S, N> = Pool<ItsTag, C, G, S, N>;

/// A seat of it.
pub(crate) type OurSeat<N> = Seat<PoolDeed<u64>, N>;

/// A gate that answers at once that it was woken.
#[derive(Drop)]
pub(crate) struct AtOnce {}

impl Gate for AtOnce {
    fn wait<R: Wait + Clock>(&self, _rt: &R, _limit: Option<u64>) -> Turn {
        thread::yield_now();
        Turn::Woken
    }

    fn wake(&self) {}
}

/// So many workers, and one caller; who is idle for a minute may end.
pub(crate) fn sizes(core: u64, maximum: u64) -> Sizes
    ensures { result ≡ record {
      core = core;
      maximum = maximum;
      callers = 1;
      keep_alive = 60000;
      core_timeout = false;
    } }
{
    Sizes {
        core,
        maximum,
        callers: 1,
        keep_alive: 60_000,
        core_timeout: false,
    }
}

/// The parts of a pool with one worker at most, at this gate, and one caller.
pub(crate) fn one_worker<G: Drop, S: Drop>(
    rt: &impl Abort,
    alloc: Global,
    core: u64,
    queue: PoolQueue,
    policy: Policy,
    gate: G,
    starter: S,
) -> NewPool<G, S>
    ensures { IsOneEach result.sizes result.blanks (vec_len result.gates) }
{
    let mut gates = Vec::new(alloc);
    gates.push(gate).expect(rt, "no memory");
    NewPool {
        sizes: sizes(core, 1),
        queue,
        policy,
        gates,
        starter,
        blanks: Blanks::new(2),
    }
}

/// A pool, and the seats of its callers.
pub(crate) fn made<N, C, G, S>(
    rt: &impl Abort,
    alloc: Global,
    parts: NewPool<G, S>,
) -> (Ours<C, G, S, N>, Vec<OurSeat<N>>)
where
    N: PoolLedgers,
    C: Drop,
    G: Drop,
    S: Drop,
    requires ledgers { AreOf N.name N.folds N.moments N.parts parts.blanks }
    requires one_each { N.parts ≡ parts.sizes.callers + parts.sizes.maximum }
    requires cap { N.cap ≡ most_records }
    requires gates { vec_len parts.gates ≡ parts.sizes.maximum }
    requires settings { N.settings ≡ record { sizes = parts.sizes; queue = parts.queue; policy = parts.policy } }
{
    match Pool::new(alloc, parts) {
        Ok(made) => made,
        Err(_) => panic!(rt; "no pool"),
    }
}

/// The seat of a pool of one caller.
pub(crate) fn only<N: Ledgers>(rt: &impl Abort, made: Vec<OurSeat<N>>) -> OurSeat<N> {
    let mut seats = made;
    match seats.pop() {
        Some(seat) => seat,
        None => panic!(rt; "no seat"),
    }
}

/// A job is handed in: the seat and what became of it, or what came back.
pub(crate) fn tries<N, C, R, G, S>(
    rt: &R,
    pool: &Ours<C, G, S, N>,
    seat: OurSeat<N>,
    job: C,
) -> Result<(OurSeat<N>, Outcome<C>), PoolRefused<C, N>>
where
    N: PoolLedgers + Send + Sync + 'static,
    C: Call<ItsTag> + Drop + Send + 'static,
    R: Threads + Wait + Clock + Copy + Send + 'static,
    G: Gate + Drop + Send + Sync + 'static,
    S: Starter,
{
    pool.execute(rt, seat, Job::new::<ItsTag>(job))
}

/// Hands a job in.
pub(crate) fn handed<N, C, R, G, S>(
    rt: &R,
    pool: &Ours<C, G, S, N>,
    seat: OurSeat<N>,
    job: C,
) -> (OurSeat<N>, Outcome<C>)
where
    N: PoolLedgers + Send + Sync + 'static,
    C: Call<ItsTag> + Drop + Send + 'static,
    R: Abort + Threads + Wait + Clock + Copy + Send + 'static,
    G: Gate + Drop + Send + Sync + 'static,
    S: Starter,
{
    match tries(rt, pool, seat, job) {
        Ok(done) => done,
        Err(_) => panic!(rt; "a job was refused"),
    }
}

/// Shuts a pool down, and waits for its end.
pub(crate) fn shut<N, C, R, G, S>(rt: &R, pool: &Ours<C, G, S, N>, seat: OurSeat<N>) -> OurSeat<N>
where
    N: PoolLedgers,
    C: Drop,
    R: Abort + Wait,
    G: Gate + Drop,
    S: Drop,
{
    match pool.shutdown(rt, seat) {
        Ok(seat) => {
            pool.await_end(rt);
            seat
        }
        Err(_) => panic!(rt; "no shutdown"),
    }
}

/// Shuts a pool down at once: the kept jobs come back.
pub(crate) fn stopped<N, C, R, G, S>(
    rt: &R,
    pool: &Ours<C, G, S, N>,
    seat: OurSeat<N>,
) -> (OurSeat<N>, VecDeque<Job<C>>)
where
    N: PoolLedgers,
    C: Drop,
    R: Abort + Wait,
    G: Gate + Drop,
    S: Drop,
{
    match pool.shutdown_now(rt, seat) {
        Ok(stopped) => stopped,
        Err(_) => panic!(rt; "no shutdown"),
    }
}

/// Closes a pool with these seats.
pub(crate) fn closed_by<N, C, R, G, S>(
    rt: &R,
    alloc: Global,
    pool: Ours<C, G, S, N>,
    backs: Vec<Back<PoolDeed<u64>, N>>,
) -> PoolChronicle<C>
where
    N: PoolLedgers,
    C: Drop,
    R: Abort + Wait,
    G: Gate + Drop,
    S: Drop,
{
    match pool.close(rt, alloc, backs) {
        Ok(chronicle) => chronicle,
        Err(_) => panic!(rt; "not closed"),
    }
}

/// A seat, to be given back.
fn given_back<N: Ledgers>(
    rt: &impl Abort,
    alloc: Global,
    seat: OurSeat<N>,
) -> Vec<Back<PoolDeed<u64>, N>> {
    let mut backs = Vec::new(alloc);
    backs.push(Back::Free(seat)).expect(rt, "no memory");
    backs
}

/// Closes a pool of one caller.
pub(crate) fn closed<N, C, R, G, S>(
    rt: &R,
    alloc: Global,
    pool: Ours<C, G, S, N>,
    seat: OurSeat<N>,
) -> PoolChronicle<C>
where
    N: PoolLedgers,
    C: Drop,
    R: Abort + Wait,
    G: Gate + Drop,
    S: Drop,
{
    closed_by(rt, alloc, pool, given_back(rt, alloc, seat))
}

/// How many jobs have given this answer, as their workers' records say.
pub(crate) fn answers<C>(chronicle: &PoolChronicle<C>, answer: u64) -> usize {
    let mut count: usize = 0;
    for record in chronicle.records.as_slice() {
        if record.deed == PoolDeed::Finished(answer) {
            count = count.saturating_add(1);
        }
    }
    count
}
