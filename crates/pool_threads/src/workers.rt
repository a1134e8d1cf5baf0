//! Workers and their threads.

ghost use Rattle.std.specs.Prelude.{◌≡◌, ◌<◌, IfErr};

use crate::home::Home;
use crate::jobs::{Call, Work};
use crate::ledgers::PoolLedgers;
use crate::worth::WorkerSeat;
use meet_cells::Gate;
use std::alloc::Global;
use std::mem::ManuallyDrop;
use std::sync::{Arc, Condvar, Mutex, Wait};
use std::thread::{Builder, Threads};
use std::time::Clock;
use std::{mem, thread};

/// A worker that isn't started yet.
#[derive(Drop)]
pub struct Worker<W: Work, C, G, N: PoolLedgers> {
    home: Arc<Home<W, C, G, N>, Global>,
    seat: WorkerSeat<W, N>,
    ghost room: { 0 < seat.room },
}

impl<W: Work, C, G, N: PoolLedgers> Worker<W, C, G, N> {
    /// The worker of this seat, whose list has room for a receipt.
    pub(crate) fn new(home: Arc<Home<W, C, G, N>, Global>, seat: WorkerSeat<W, N>) -> Self
        requires { 0 < seat.room }
        ensures { result.seat ≡ seat }
    {
        Worker { home, seat }
    }

    /// Its seat.
    pub(crate) fn into_seat(self) -> WorkerSeat<W, N>
    where
        C: Drop,
        G: Drop,
        ensures same { result ≡ self.seat }
        ensures room { 0 < result.room }
    {
        let Worker { home, seat } = self;
        drop(home);
        seat
    }
}

impl<W: Work, C: Call<W> + Drop, G: Gate + Drop, N: PoolLedgers> Worker<W, C, G, N> {
    /// Works, from its start to its end: it runs jobs, and between them waits at its gate. It ends if the pool is shut
    /// down and no job is left, or if its keep-alive time ran out and it isn't needed. Then it drops its part of the
    /// pool.
    pub fn run<R: Wait + Clock>(self, rt: &R) {
        let Worker { home, seat } = self;
        home.serve(rt, seat);
        drop(home);
    }
}

/// States how the threads of a pool are made.
///
/// Java: `ThreadFactory`.
pub trait Starter {
    /// Returns how the next thread is to be made, or none if none is to be made.
    fn builder(&self) -> Option<Builder>;
}

/// Starts each worker in a thread of its own.
#[derive(Drop)]
pub struct ThreadStarter {}

impl ThreadStarter {
    /// Creates the starter.
    ///
    /// # Example
    /// From `crates/examples/src/jobs.rt`:
    ///
    ///     starter: ThreadStarter::new(),
    pub fn new() -> ThreadStarter {
        ThreadStarter {}
    }
}

impl Starter for ThreadStarter {
    fn builder(&self) -> Option<Builder> {
        Some(Builder::new())
    }
}

/// Where a worker waits for its thread.
#[derive(Drop)]
struct Desk<W: Work, C, G, N: PoolLedgers> {
    worker: Mutex<Option<Worker<W, C, G, N>>>,
    there: Condvar,
}

impl<W: Work, C: Call<W> + Drop, G: Gate + Drop, N: PoolLedgers> Desk<W, C, G, N> {
    /// Waits for the worker, and runs it.
    fn serve<R: Wait + Clock>(&self, rt: &R) {
        let mut slot = self
            .there
            .wait_while(rt, self.worker.lock(rt), |slot| slot.is_none());
        let taken = slot.take();
        drop(slot);
        if let Some(worker) = taken {
            worker.run(rt);
        }
    }

    /// Hands the worker over.
    fn hand<R: Wait>(&self, rt: &R, worker: Worker<W, C, G, N>) {
        let mut slot = self.worker.lock(rt);
        let before = mem::replace(&mut *slot, Some(worker));
        let _none = ManuallyDrop::new(before);
        drop(slot);
        self.there.notify_one();
    }
}

/// Makes a thread, and then hands it its worker.
///
/// # Errors
/// - The worker, if the thread can't be made.
pub fn start<R, W, C, G, N, S>(
    rt: &R,
    alloc: Global,
    starter: &S,
    worker: Worker<W, C, G, N>,
) -> Result<(), Worker<W, C, G, N>>
where
    R: Threads + Wait + Clock + Copy + Send + 'static,
    W: Work + Send + Sync + 'static,
    C: Call<W> + Drop + Send + 'static,
    G: Gate + Drop + Send + Sync + 'static,
    N: PoolLedgers + Send + Sync + 'static,
    S: Starter,
    ensures { IfErr result (λ back. back ≡ worker) }
{
    let Some(builder) = starter.builder() else {
        return Err(worker);
    };
    let desk = Desk {
        worker: Mutex::new(None),
        there: Condvar::new(),
    };
    let Ok(desk) = Arc::new(alloc, desk) else {
        return Err(worker);
    };
    let Ok(theirs) = Arc::try_clone(&desk) else {
        return Err(worker);
    };
    let handle = *rt;
    if builder
        .spawn_with(rt, Anything {}, move || theirs.serve(&handle))
        .is_err()
    {
        return Err(worker);
    }
    desk.hand(rt, worker);
    Ok(())
}

/// Nothing is promised of what a thread answers.
#[derive(Drop)]
struct Anything {}

impl thread::Promise<()> for Anything {
    ghost kept_by = { λ p r. Unit {0} };
}
