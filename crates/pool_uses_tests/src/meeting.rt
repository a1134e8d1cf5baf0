//! Two jobs that look for one another: they run side by side, or nobody would see the other.

ghost use Rattle.std.specs.Prelude.{◌≡◌, ◌+◌, vec_len};
ghost use Rattle.meet_place.specs.Ledgers.{AreOf};
ghost use Rattle.pool_threads.specs.Parts.{IsOneEach};
ghost use Rattle.meet_tickets.specs.Limits.{most_records};

use crate::chores::{Before, Chore, Flags, another};
use crate::pools::{AtOnce, OurSeat, Ours, answers, closed, handed, made, only, shut, sizes};
use meet_cells::{Gate, ParkGate};
use meet_place::Blanks;
use meet_tickets::Order;
use pool_core::{Policy, PoolQueue};
use pool_threads::{
    ItsTag, NewPool, Outcome, PoolChapter, PoolChronicle, PoolLedgers, ThreadStarter,
};
use std::alloc::Global;
use std::marker::Brand;
use std::process::Abort;
use std::sync::{Arc, Wait};
use std::test::*;
use std::thread::Threads;
use std::time::Clock;

/// What came of two jobs that look for one another, and of a third that finds no worker.
#[derive(Clone, Copy, PartialEq, Debug)]
struct Came {
    /// Whether the first two were started.
    started: bool,
    /// Whether the third was aborted, and came back with its tag.
    aborted: bool,
    /// What the third answered, where it was run here.
    ran_here: Option<u64>,
    /// How many jobs saw the other at work.
    seen: u64,
    /// How often a worker's records tell the answers 1 and 2.
    answers: (usize, usize),
    /// How many records were folded away, and how many came since.
    gone: u64,
    records: usize,
    lists: usize,
    left: usize,
}

/// What becomes of the records before the jobs may end.
#[derive(Clone, Copy)]
enum Keeping {
    /// They stay.
    Whole,
    /// A checkpoint folds them away.
    Folded,
    /// They are handed out, and then looked at.
    HandedOut,
}

/// A pool whose jobs are chores.
type Chores<R, G, N> = Ours<Chore<R>, G, ThreadStarter, N>;

/// The records so far are handed out.
fn rotates<N, R, G>(
    rt: &R,
    alloc: Global,
    pool: &Chores<R, G, N>,
    seat: OurSeat<N>,
) -> (OurSeat<N>, PoolChapter)
where
    N: PoolLedgers,
    R: Abort + Wait + Drop,
    G: Gate + Drop,
{
    match pool.rotate(rt, seat, Vec::new(alloc)) {
        Ok(handed) => handed,
        Err(_) => panic!(rt; "nothing is handed out"),
    }
}

/// The records so far are handed out, on the base of none: how many there are.
fn first_chapter<N, R, G>(
    rt: &R,
    alloc: Global,
    pool: &Chores<R, G, N>,
    seat: OurSeat<N>,
) -> (OurSeat<N>, u64)
where
    N: PoolLedgers,
    R: Abort + Wait + Drop,
    G: Gate + Drop,
{
    let (seat, chapter) = rotates(rt, alloc, pool, seat);
    let count = chapter.records.len() as u64;
    assert_eq!(rt; (chapter.base.gone, count >= 3 && count <= 5), (0, true));
    assert_eq!(rt; seat.folded(), count);
    (seat, count)
}

/// What is looked at stands behind so many records.
fn stands_behind<N, R, G>(rt: &R, pool: &Chores<R, G, N>, count: u64)
where
    N: PoolLedgers,
    R: Abort + Wait + Drop,
    G: Gate + Drop,
{
    match pool.history(rt) {
        Ok(since) => assert_eq!(rt; since.base.gone, count),
        Err(_) => panic!(rt; "nothing is there to be looked at"),
    }
}

/// A seat with three receipts tends a pool, which changes nothing where so few lie in the list.
fn tended<N, R, G>(rt: &R, pool: &Chores<R, G, N>, seat: OurSeat<N>) -> OurSeat<N>
where
    N: PoolLedgers,
    R: Abort + Wait + Drop,
    G: Gate + Drop,
{
    match pool.tend(rt, seat) {
        Ok(seat) => {
            assert_eq!(rt; (seat.trimmed(), seat.receipts().len()), (0, 3));
            seat
        }
        Err(_) => panic!(rt; "the pool isn't tended"),
    }
}

/// The records so far are folded away.
fn folds<N, R, G>(rt: &R, pool: &Chores<R, G, N>, seat: OurSeat<N>) -> OurSeat<N>
where
    N: PoolLedgers,
    R: Abort + Wait + Drop,
    G: Gate + Drop,
{
    match pool.checkpoint(rt, seat) {
        Ok((seat, _gone)) => seat,
        Err(_) => panic!(rt; "no checkpoint"),
    }
}

/// Keeps the records so.
fn kept<N, R, G>(
    rt: &R,
    alloc: Global,
    pool: &Chores<R, G, N>,
    seat: OurSeat<N>,
    keeping: Keeping,
) -> OurSeat<N>
where
    N: PoolLedgers,
    R: Abort + Wait + Drop,
    G: Gate + Drop,
{
    match keeping {
        Keeping::Whole => seat,
        Keeping::Folded => folds(rt, pool, seat),
        Keeping::HandedOut => {
            let (seat, count) = first_chapter(rt, alloc, pool, seat);
            stands_behind(rt, pool, count);
            tended(rt, pool, seat)
        }
    }
}

/// What became of three jobs: whether the first two were started, whether the third came back, and what it answered
/// where it was run here.
type Begun = (bool, bool, Option<u64>);

/// Hands two jobs in that look for one another, and a third.
fn three_jobs<N, R, G>(
    rt: &R,
    pool: &Chores<R, G, N>,
    seat: OurSeat<N>,
    flags: &Arc<Flags>,
) -> (OurSeat<N>, Begun)
where
    N: PoolLedgers + Send + Sync + 'static,
    G: Gate + Drop + Send + Sync + 'static,
    R: Abort + Threads + Wait + Clock + Copy + Send + 'static,
{
    let one = Chore {
        tag: 1,
        before: Before::First(*rt, another(rt, flags)),
    };
    let (seat, first) = handed(rt, pool, seat, one);
    let two = Chore {
        tag: 2,
        before: Before::Second(*rt, another(rt, flags)),
    };
    let (seat, second) = handed(rt, pool, seat, two);
    let (seat, third) = handed(rt, pool, seat, Chore::new(3));
    let started = is_started(&first) && is_started(&second);
    (seat, (started, is_aborted(&third), ran_here(&third)))
}

/// Whether a worker was started with the job.
fn is_started<C>(outcome: &Outcome<C>) -> bool {
    match outcome {
        Outcome::Started(_) => true,
        _ => false,
    }
}

/// Whether the third job came back.
fn is_aborted<C>(outcome: &Outcome<C>) -> bool {
    match outcome {
        Outcome::Aborted(job) => job.tag() == 3,
        _ => false,
    }
}

/// What the job answered, where it was run here.
fn ran_here<C>(outcome: &Outcome<C>) -> Option<u64> {
    match outcome {
        Outcome::RanHere(answer) => Some(*answer),
        _ => None,
    }
}

/// What is told of a pool that is closed, whose jobs were begun so, of which so many saw the other.
fn told<C>(chronicle: &PoolChronicle<C>, begun: Begun, seen: u64) -> Came {
    let (started, aborted, ran_here) = begun;
    Came {
        started,
        aborted,
        ran_here,
        seen,
        answers: (answers(chronicle, 1), answers(chronicle, 2)),
        gone: chronicle.base.gone,
        records: chronicle.records.len(),
        lists: chronicle.lists.len(),
        left: chronicle.left.len(),
    }
}

/// Hands two jobs in, and a third, and keeps the records so before the jobs may end; then shuts the pool down, waits
/// for its end, and closes it.
fn play<N, R, G>(
    rt: &R,
    alloc: Global,
    parts: NewPool<G, ThreadStarter>,
    keeping: Keeping,
    flags: &Arc<Flags>,
) -> Came
where
    N: PoolLedgers + Send + Sync + 'static,
    G: Gate + Drop + Send + Sync + 'static,
    R: Abort + Threads + Wait + Clock + Copy + Send + 'static,
    requires ledgers { AreOf N.name N.folds N.moments N.parts parts.blanks }
    requires one_each { N.parts ≡ parts.sizes.callers + parts.sizes.maximum }
    requires cap { N.cap ≡ most_records }
    requires gates { vec_len parts.gates ≡ parts.sizes.maximum }
    requires settings { N.settings ≡ record { sizes = parts.sizes; queue = parts.queue; policy = parts.policy } }
{
    let (pool, seats) = made::<N, Chore<R>, G, ThreadStarter>(rt, alloc, parts);
    let (seat, begun) = three_jobs(rt, &pool, only(rt, seats), flags);
    let seat = kept(rt, alloc, &pool, seat, keeping);
    flags.set();
    let seat = shut(rt, &pool, seat);
    let chronicle = closed(rt, alloc, pool, seat);
    told(&chronicle, begun, flags.seen())
}

/// The parts of a pool of two workers, at these gates, and one caller.
fn parts_of<G: Drop>(
    rt: &impl Abort,
    alloc: Global,
    policy: Policy,
    first: G,
    second: G,
) -> NewPool<G, ThreadStarter>
    ensures { IsOneEach result.sizes result.blanks (vec_len result.gates) }
{
    let mut gates = Vec::new(alloc);
    gates.push(first).expect(rt, "no memory");
    gates.push(second).expect(rt, "no memory");
    NewPool {
        sizes: sizes(2, 2),
        queue: PoolQueue::Hand(Order::Fair),
        policy,
        gates,
        starter: ThreadStarter::new(),
        blanks: Blanks::new(3),
    }
}

/// The same, with whatever ledgers.
fn two_meet<R, G>(rt: &R, alloc: Global, parts: NewPool<G, ThreadStarter>, keeping: Keeping) -> Came
where
    R: Abort + Threads + Wait + Clock + Copy + Send + 'static,
    G: Gate + Drop + Send + Sync + 'static,
    requires one_each { IsOneEach parts.sizes parts.blanks (vec_len parts.gates) }
{
    let flags = Flags::new(rt, alloc);
    play::<Brand, R, G>(rt, alloc, parts, keeping, &flags)
}

#[test]
fn two_workers_meet(rt: HostRuntime) {
    let alloc = rt.alloc();
    let parts = parts_of(&rt, alloc, Policy::Abort, ParkGate::new(), ParkGate::new());
    let came = two_meet(&rt, alloc, parts, Keeping::Whole);
    assert_eq!(rt; (came.started, came.aborted), (true, true));
    assert_eq!(rt; (came.seen, came.answers), (2, (1, 1)));
    // Two jobs with three records each, one that came back, the shutdown, and two ends. A worker that is ready before
    // the shutdown waits first, which is one record more.
    assert_eq!(rt;
        (came.gone, came.records >= 10 && came.records <= 12),
        (0, true)
    );
    assert_eq!(rt; (came.lists, came.left), (3, 0));
}

#[test]
fn the_caller_runs(rt: HostRuntime) {
    let alloc = rt.alloc();
    let parts = parts_of(
        &rt,
        alloc,
        Policy::CallerRuns,
        ParkGate::new(),
        ParkGate::new(),
    );
    let came = two_meet(&rt, alloc, parts, Keeping::Whole);
    assert_eq!(rt; (came.started, came.ran_here), (true, Some(3)));
    assert_eq!(rt; (came.seen, came.answers), (2, (1, 1)));
}

#[test]
fn a_checkpoint_among_jobs(rt: HostRuntime) {
    let alloc = rt.alloc();
    let parts = parts_of(&rt, alloc, Policy::Abort, ParkGate::new(), ParkGate::new());
    let came = two_meet(&rt, alloc, parts, Keeping::Folded);
    assert_eq!(rt; (came.started, came.aborted), (true, true));
    assert_eq!(rt; (came.seen, came.answers), (2, (1, 1)));
    // Three jobs were handed in by then, and each worker has begun to run or not.
    assert_eq!(rt; came.gone >= 3 && came.gone <= 5, true);
    assert_eq!(rt; came.gone.saturating_add(came.records as u64) >= 10, true);
    assert_eq!(rt; (came.lists, came.left), (3, 0));
}

#[test]
fn a_chapter_is_handed_out_among_jobs(rt: HostRuntime) {
    let alloc = rt.alloc();
    let parts = parts_of(&rt, alloc, Policy::Abort, ParkGate::new(), ParkGate::new());
    let came = two_meet(&rt, alloc, parts, Keeping::HandedOut);
    assert_eq!(rt; (came.seen, came.answers), (2, (1, 1)));
    assert_eq!(rt; came.gone >= 3 && came.gone <= 5, true);
    assert_eq!(rt; came.gone.saturating_add(came.records as u64) >= 10, true);
    assert_eq!(rt; (came.lists, came.left), (3, 0));
}

#[test]
fn two_workers_that_never_park(rt: HostRuntime) {
    let alloc = rt.alloc();
    let parts = parts_of(&rt, alloc, Policy::Abort, AtOnce {}, AtOnce {});
    let came = two_meet(&rt, alloc, parts, Keeping::Whole);
    assert_eq!(rt; (came.started, came.aborted), (true, true));
    assert_eq!(rt; (came.seen, came.answers), (2, (1, 1)));
    assert_eq!(rt; (came.lists, came.left), (3, 0));
}

#[test]
fn the_caller_runs_beside_workers_that_never_park(rt: HostRuntime) {
    let alloc = rt.alloc();
    let parts = parts_of(&rt, alloc, Policy::CallerRuns, AtOnce {}, AtOnce {});
    let came = two_meet(&rt, alloc, parts, Keeping::Whole);
    assert_eq!(rt; (came.started, came.ran_here), (true, Some(3)));
    assert_eq!(rt; (came.seen, came.answers), (2, (1, 1)));
}
