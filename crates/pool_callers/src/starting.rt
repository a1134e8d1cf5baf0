//! How the workers of a pool are started. A trait's function can't start a thread (docs/DECISIONS.md, at the end),
//! and a handle's calls are such functions. So a handle hands a worker that is to be started to the thread that
//! made the pool, which starts it, and waits for the reply.

ghost use Rattle.std.specs.Prelude.{◌≤◌};
ghost use Rattle.pool_threads.specs.Outcomes.{IsBack};

use crate::at::Parked;
use pool_threads::{Begun, Call, PoolLedgers, Work, WorkerSeat};
use std::sync::{Condvar, Mutex, Wait};
use std::thread::Threads;
use std::time::Clock;

/// A worker that is to be started, and the tag of the job that it is started with, if there is one.
#[derive(Drop)]
struct Asked<W: Work, N: PoolLedgers> {
    worker: WorkerSeat<W, N>,
    first: Option<u64>,
    ghost room: { 4 ≤ worker.room },
}

/// What lies between the handles and the thread that starts workers.
#[derive(Drop)]
struct Slot<W: Work, C, N: PoolLedgers> {
    /// Whether a handle uses the slot.
    used: bool,
    asked: Option<Asked<W, N>>,
    told: Option<Begun<C>>,
    /// How many callers haven't left yet.
    present: u64,
}

/// Where handles ask for workers to be started.
#[derive(Drop)]
pub(crate) struct Starting<W: Work, C, N: PoolLedgers> {
    slot: Mutex<Slot<W, C, N>>,
    changed: Condvar,
}

/// The start of a worker as it was told, if it fits the tag of the first job, as it always does.
fn fitting<C: Drop>(told: Option<Begun<C>>, first: Option<u64>) -> Begun<C>
    ensures { IsBack first result }
{
    match told {
        Some(Begun::NoThread(None)) => match first {
            None => Begun::NoThread(None),
            Some(_) => Begun::Stands,
        },
        Some(Begun::NoThread(Some(job))) => {
            if first == Some(job.tag()) {
                Begun::NoThread(Some(job))
            } else {
                Begun::Stands
            }
        }
        Some(Begun::Stands) => Begun::Stands,
        None => Begun::Stands,
    }
}

impl<W: Work, C: Drop, N: PoolLedgers> Starting<W, C, N> {
    /// Creates it, for `present` callers.
    pub(crate) fn new(present: u64) -> Self {
        let slot = Slot {
            used: false,
            asked: None,
            told: None,
            present,
        };
        Starting {
            slot: Mutex::new(slot),
            changed: Condvar::new(),
        }
    }

    /// Has a worker started, with a job of this tag, if one is given, and waits for the reply.
    pub(crate) fn begin<R: Wait>(
        &self,
        rt: &R,
        worker: WorkerSeat<W, N>,
        first: Option<u64>,
    ) -> Begun<C>
        requires room { 4 ≤ worker.room }
        ensures { IsBack first result }
    {
        let mut slot = self
            .changed
            .wait_while(rt, self.slot.lock(rt), |slot| slot.used);
        slot.used = true;
        slot.asked = Some(Asked { worker, first });
        self.changed.notify_all();
        let mut slot = self
            .changed
            .wait_while(rt, slot, |slot| slot.told.is_none());
        let told = slot.told.take();
        slot.used = false;
        drop(slot);
        self.changed.notify_all();
        fitting(told, first)
    }

    /// Waits for the next worker that is to be started; None once all callers have left.
    fn next<R: Wait>(&self, rt: &R) -> Option<Asked<W, N>> {
        let mut slot = self.changed.wait_while(rt, self.slot.lock(rt), |slot| {
            slot.asked.is_none() && slot.present > 0
        });
        slot.asked.take()
    }

    /// Tells how the start of a worker ended.
    fn tell<R: Wait>(&self, rt: &R, begun: Begun<C>) {
        let mut slot = self.slot.lock(rt);
        slot.told = Some(begun);
        drop(slot);
        self.changed.notify_all();
    }

    /// A caller leaves.
    pub(crate) fn leave<R: Wait>(&self, rt: &R) {
        let mut slot = self.slot.lock(rt);
        slot.present = slot.present.saturating_sub(1);
        drop(slot);
        self.changed.notify_all();
    }
}

impl<W: Work, C: Call<W> + Drop, N: PoolLedgers> Starting<W, C, N> {
    /// Starts workers, until all callers have left.
    pub(crate) fn serve<R>(&self, rt: &R, pool: &Parked<W, C, N>)
    where
        R: Threads + Wait + Clock + Copy + Send + 'static,
        W: Send + Sync + 'static,
        C: Send + 'static,
        N: Send + Sync + 'static,
    {
        for _ in rt.forever() {
            let Some(asked) = self.next(rt) else {
                return;
            };
            let Asked { worker, first } = asked;
            self.tell(rt, pool.begin(rt, worker, first));
        }
    }
}
