//! Starts that are refused.

ghost use Rattle.std.specs.Prelude.{◌≡◌, ◌+◌, vec_len};
ghost use Rattle.meet_place.specs.Ledgers.{AreOf};
ghost use Rattle.pool_threads.specs.Parts.{IsOneEach};
ghost use Rattle.meet_tickets.specs.Limits.{most_records};

use crate::chores::Chore;
use crate::pools::{
    AtOnce, OurSeat, Ours, answers, closed, handed, made, one_worker, only, shut, tries,
};
use meet_cells::Gate;
use meet_tickets::Refusal;
use pool_core::{Policy, PoolQueue};
use pool_threads::{Call, ItsTag, NewPool, Outcome, PoolLedgers, PoolRefused, Starter};
use std::alloc::Global;
use std::marker::Brand;
use std::process::Abort;
use std::sync::Wait;
use std::sync::atomic::{AtomicBool, Ordering};
use std::test::*;
use std::thread::{Builder, Threads};
use std::time::Clock;

/// Refuses its first start.
#[derive(Drop)]
struct RefusesFirst {
    refused: AtomicBool,
}

impl Starter for RefusesFirst {
    fn builder(&self) -> Option<Builder> {
        if self.refused.swap(true, Ordering::SeqCst) {
            Some(Builder::new())
        } else {
            None
        }
    }
}

/// How the second job was begun.
#[derive(Clone, Copy, PartialEq, Debug)]
enum Begun {
    Started(u64),
    KeptStart(u64),
    Otherwise,
}

/// What came of a job whose worker couldn't be started, and of one behind it.
#[derive(Clone, Copy, PartialEq, Debug)]
struct Came {
    why: Refusal,
    /// The tag of the job that came back.
    back: Option<u64>,
    /// How many jobs were kept then, and how many workers there were.
    kept: u64,
    workers: u64,
    second: Begun,
    /// How often a worker's records tell the answers 1 and 2.
    answers: (usize, usize),
}

/// Hands a job in that is refused: why, and the tag of the job that came back.
fn turned_away<N, C, R, G, S>(
    rt: &R,
    pool: &Ours<C, G, S, N>,
    seat: OurSeat<N>,
    job: C,
) -> (Refusal, OurSeat<N>, Option<u64>)
where
    N: PoolLedgers + Send + Sync + 'static,
    C: Call<ItsTag> + Drop + Send + 'static,
    R: Abort + Threads + Wait + Clock + Copy + Send + 'static,
    G: Gate + Drop + Send + Sync + 'static,
    S: Starter,
{
    match tries(rt, pool, seat, job) {
        Ok(_) => panic!(rt; "it was not refused"),
        Err(refused) => {
            let PoolRefused { why, seat, job } = refused;
            let tag = match &job {
                Some(job) => Some(job.tag()),
                None => None,
            };
            (why, seat, tag)
        }
    }
}

/// How this outcome was begun.
fn begun_by<C>(outcome: &Outcome<C>) -> Begun {
    match outcome {
        Outcome::Started(worker) => Begun::Started(*worker),
        Outcome::KeptStart(worker) => Begun::KeptStart(*worker),
        _ => Begun::Otherwise,
    }
}

/// Hands two jobs in, of which the first finds no thread. No answer is told yet.
fn two_jobs<N, R>(
    rt: &R,
    pool: &Ours<Chore<R>, AtOnce, RefusesFirst, N>,
    seat: OurSeat<N>,
) -> (OurSeat<N>, Came)
where
    N: PoolLedgers + Send + Sync + 'static,
    R: Abort + Threads + Wait + Clock + Copy + Send + 'static,
{
    let (why, seat, back) = turned_away(rt, pool, seat, Chore::new(1));
    let counters = pool.counters(rt);
    let (seat, second) = handed(rt, pool, seat, Chore::new(2));
    let came = Came {
        why,
        back,
        kept: counters.kept,
        workers: counters.workers,
        second: begun_by(&second),
        answers: (0, 0),
    };
    (seat, came)
}

/// Hands two jobs in, of which the first finds no thread, and closes the pool.
fn play<N, R>(rt: &R, alloc: Global, parts: NewPool<AtOnce, RefusesFirst>) -> Came
where
    N: PoolLedgers + Send + Sync + 'static,
    R: Abort + Threads + Wait + Clock + Copy + Send + 'static,
    requires ledgers { AreOf N.name N.folds N.moments N.parts parts.blanks }
    requires one_each { N.parts ≡ parts.sizes.callers + parts.sizes.maximum }
    requires cap { N.cap ≡ most_records }
    requires gates { vec_len parts.gates ≡ parts.sizes.maximum }
    requires settings { N.settings ≡ record { sizes = parts.sizes; queue = parts.queue; policy = parts.policy } }
{
    let (pool, seats) = made::<N, Chore<R>, AtOnce, RefusesFirst>(rt, alloc, parts);
    let (seat, mut came) = two_jobs(rt, &pool, only(rt, seats));
    let seat = shut(rt, &pool, seat);
    let chronicle = closed(rt, alloc, pool, seat);
    came.answers = (answers(&chronicle, 1), answers(&chronicle, 2));
    came
}

/// The same, with whatever ledgers.
fn first_is_refused<R>(rt: &R, alloc: Global, parts: NewPool<AtOnce, RefusesFirst>) -> Came
where
    R: Abort + Threads + Wait + Clock + Copy + Send + 'static,
    requires one_each { IsOneEach parts.sizes parts.blanks (vec_len parts.gates) }
{
    play::<Brand, R>(rt, alloc, parts)
}

/// With so many core workers.
fn a_first_start<R>(rt: &R, alloc: Global, core: u64) -> Came
where
    R: Abort + Threads + Wait + Clock + Copy + Send + 'static,
{
    let starter = RefusesFirst {
        refused: AtomicBool::new(false),
    };
    let parts = one_worker(
        rt,
        alloc,
        core,
        PoolQueue::Unbounded,
        Policy::Abort,
        AtOnce {},
        starter,
    );
    first_is_refused(rt, alloc, parts)
}

#[test]
fn a_job_comes_back_with_its_worker(rt: HostRuntime) {
    let came = a_first_start(&rt, rt.alloc(), 1);
    assert_eq!(rt; (came.why, came.back), (Refusal::NoThread, Some(1)));
    assert_eq!(rt; (came.kept, came.workers), (0, 0));
    assert_eq!(rt; (came.second, came.answers), (Begun::Started(0), (0, 1)));
}

#[test]
fn a_kept_job_stays_kept(rt: HostRuntime) {
    let came = a_first_start(&rt, rt.alloc(), 0);
    assert_eq!(rt; (came.why, came.back), (Refusal::NoThread, None));
    assert_eq!(rt; (came.kept, came.workers), (1, 0));
    assert_eq!(rt; (came.second, came.answers), (Begun::KeptStart(0), (1, 1)));
}
