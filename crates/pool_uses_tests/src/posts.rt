//! Jobs that are handed to a worker that waits, in a pool that buffers none.

ghost use Rattle.std.specs.Prelude.{◌≡◌, ◌+◌, vec_len};
ghost use Rattle.meet_place.specs.Ledgers.{AreOf};
ghost use Rattle.pool_threads.specs.Parts.{IsOneEach};
ghost use Rattle.meet_tickets.specs.Limits.{most_records};

use crate::chores::Chore;
use crate::pools::{OurSeat, Ours, answers, closed, handed, made, one_worker, only, shut};
use meet_cells::{Gate, Turn};
use meet_tickets::{Order, Record};
use pool_core::{Policy, PoolDeed, PoolQueue};
use pool_threads::{NewPool, Outcome, PoolChronicle, PoolLedgers, ThreadStarter};
use std::alloc::Global;
use std::marker::Brand;
use std::process::Abort;
use std::sync::atomic::{AtomicBool, Ordering};
use std::sync::{Arc, Wait};
use std::test::*;
use std::thread;
use std::thread::Threads;
use std::time::{Clock, Duration};

/// The signs between a gate and its test.
#[derive(Drop)]
struct Signs {
    /// Whether the worker waits there, or has waited.
    waited: AtomicBool,
    /// Whether its wait may end.
    go: AtomicBool,
}

/// A gate whose waits end after the test allows it, and return this.
#[derive(Drop)]
struct Held {
    signs: Arc<Signs>,
    turn: Turn,
}

/// Waits for a sign, ten seconds at most.
fn look<R: Clock>(rt: &R, sign: &AtomicBool) {
    for _ in 0..10_000 {
        if sign.load(Ordering::SeqCst) {
            return;
        }
        thread::sleep(rt, Duration::from_millis(1));
    }
}

impl Gate for Held {
    fn wait<R: Wait + Clock>(&self, rt: &R, _limit: Option<u64>) -> Turn {
        self.signs.waited.store(true, Ordering::SeqCst);
        look(rt, &self.signs.go);
        self.turn
    }

    fn wake(&self) {}
}

/// A pool of chores at such a gate.
type Chores<R, N> = Ours<Chore<R>, Held, ThreadStarter, N>;

/// Starts a worker with a job, and hands it another while it waits for one. Then its wait ends.
fn hands_on<N, R>(
    rt: &R,
    pool: &Chores<R, N>,
    first: OurSeat<N>,
    signs: &Signs,
) -> (OurSeat<N>, Outcome<Chore<R>>)
where
    N: PoolLedgers + Send + Sync + 'static,
    R: Abort + Threads + Wait + Clock + Copy + Send + 'static,
{
    let (seat, _started) = handed(rt, pool, first, Chore::new(1));
    look(rt, &signs.waited);
    let told = handed(rt, pool, seat, Chore::new(2));
    signs.go.store(true, Ordering::SeqCst);
    told
}

/// The outcome of the second job, and the final log.
#[derive(Drop)]
struct Came<R> {
    outcome: Outcome<Chore<R>>,
    chronicle: PoolChronicle<Chore<R>>,
}

/// A pool of one worker, which is handed a job while it waits.
fn play<N, R>(rt: &R, alloc: Global, parts: NewPool<Held, ThreadStarter>, signs: &Signs) -> Came<R>
where
    N: PoolLedgers + Send + Sync + 'static,
    R: Abort + Threads + Wait + Clock + Copy + Send + 'static,
    requires ledgers { AreOf N.name N.folds N.moments N.parts parts.blanks }
    requires one_each { N.parts ≡ parts.sizes.callers + parts.sizes.maximum }
    requires cap { N.cap ≡ most_records }
    requires gates { vec_len parts.gates ≡ parts.sizes.maximum }
    requires settings { N.settings ≡ record { sizes = parts.sizes; queue = parts.queue; policy = parts.policy } }
{
    let (pool, seats) = made::<N, Chore<R>, Held, ThreadStarter>(rt, alloc, parts);
    let (seat, outcome) = hands_on(rt, &pool, only(rt, seats), signs);
    let seat = shut(rt, &pool, seat);
    let chronicle = closed(rt, alloc, pool, seat);
    Came { outcome, chronicle }
}

/// The same, with any ledgers.
fn played<R>(rt: &R, alloc: Global, parts: NewPool<Held, ThreadStarter>, signs: &Signs) -> Came<R>
where
    R: Abort + Threads + Wait + Clock + Copy + Send + 'static,
    requires one_each { IsOneEach parts.sizes parts.blanks (vec_len parts.gates) }
{
    play::<Brand, R>(rt, alloc, parts, signs)
}

/// How many records stand between the one with which the second job is handed over and the one with which it is run.
fn between(records: &[Record<PoolDeed<u64>>]) -> Option<usize> {
    let mut handed = None;
    let mut at: usize = 0;
    for record in records {
        match record.deed {
            PoolDeed::Handed(0, 2) => handed = Some(at),
            PoolDeed::Runs(_, 2) => return Some(at.saturating_sub(handed?).saturating_sub(1)),
            _ => {}
        }
        at = at.saturating_add(1);
    }
    None
}

/// In a pool of this core size, a worker's wait ends with this turn after a job was handed to it. It runs the job, and
/// each of the two jobs is run once.
fn runs_both<R>(rt: &R, alloc: Global, core: u64, turn: Turn)
where
    R: Abort + Threads + Wait + Clock + Copy + Send + 'static,
{
    let signs = Signs {
        waited: AtomicBool::new(false),
        go: AtomicBool::new(false),
    };
    let signs = Arc::new(alloc, signs).expect(rt, "no memory");
    let gate = Held {
        signs: Arc::try_clone(&signs).expect(rt, "too many holds"),
        turn,
    };
    let (queue, starter) = (PoolQueue::Hand(Order::Fair), ThreadStarter::new());
    let parts = one_worker(rt, alloc, core, queue, Policy::Abort, gate, starter);
    let came = played(rt, alloc, parts, &signs);
    let is_handed = match came.outcome {
        Outcome::Handed(worker) => worker == 0,
        _ => false,
    };
    assert!(rt; is_handed);
    assert_eq!(rt; answers(&came.chronicle, 1), 1);
    assert_eq!(rt; answers(&came.chronicle, 2), 1);
    // In the critical section in which a job is handed over, the worker's step is made too.
    assert_eq!(rt; between(came.chronicle.records.as_slice()), Some(0));
}

/// A worker whose keep-alive time runs out just when it is handed a job runs the job.
#[test]
fn a_job_is_handed_over_as_the_time_runs_out(rt: HostRuntime) {
    runs_both(&rt, rt.alloc(), 0, Turn::Elapsed);
}

/// A worker that is handed a job runs it, whatever wakes it.
#[test]
fn a_job_is_handed_over_before_the_worker_is_woken(rt: HostRuntime) {
    runs_both(&rt, rt.alloc(), 1, Turn::Woken);
}
