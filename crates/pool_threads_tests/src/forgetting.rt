//! A pool that lives long: its records are folded away between jobs, and its worker lets go of the receipts for them.
//! No contract says that it does.

ghost use Rattle.std.specs.Prelude.{◌≡◌, ◌+◌, vec_len};
ghost use Rattle.meet_place.specs.Ledgers.{AreOf};
ghost use Rattle.meet_tickets.specs.Limits.{most_records};

use crate::missing::one_gate;
use crate::pools::{
    Counted, OurSeat, Parts, Task, Tasks, closed, given_back, handed, made, only, parts_of,
    reached, stopped,
};
use pool_threads::{PoolChronicle, PoolLedgers};
use std::alloc::Global;
use std::marker::Brand;
use std::process::Abort;
use std::sync::Wait;
use std::test::*;
use std::thread::Threads;
use std::time::Clock;

/// How many jobs are done between two checkpoints.
const JOBS: u64 = 500;

/// How many checkpoints there are.
const CHECKPOINTS: u64 = 8;

/// How the records are folded away.
#[derive(Clone, Copy)]
enum Folding {
    /// They are gone.
    Checkpoint,
    /// They are handed out, and the next are written into a new list.
    Rotation(Global),
}

/// Folds the records away, and lets go of the caller's receipts for them.
fn folded<N, R>(rt: &R, pool: &Tasks<R, N>, seat: OurSeat<N>, folding: Folding) -> OurSeat<N>
where
    N: PoolLedgers,
    R: Abort + Wait + Clock + Drop,
{
    match folding {
        Folding::Checkpoint => match pool.checkpoint(rt, seat) {
            Ok((seat, _gone)) => pool.trim(rt, seat),
            Err(_) => panic!(rt; "no checkpoint"),
        },
        Folding::Rotation(alloc) => match pool.rotate(rt, seat, Vec::new(alloc)) {
            Ok((seat, _chapter)) => pool.trim(rt, seat),
            Err(_) => panic!(rt; "nothing is handed out"),
        },
    }
}

/// So many jobs are handed in, and done; then their records are folded away.
fn folds_behind_jobs<N, R>(
    rt: &R,
    pool: &Tasks<R, N>,
    first: OurSeat<N>,
    before: u64,
    folding: Folding,
) -> OurSeat<N>
where
    N: PoolLedgers + Send + Sync + 'static,
    R: Abort + Threads + Wait + Clock + Copy + Send + 'static,
{
    let mut seat = first;
    for job in 0..JOBS {
        seat = handed(rt, pool, seat, Task::new(job));
    }
    let done = before.saturating_add(JOBS);
    assert_eq!(rt; reached(rt, pool, Counted::Done, done), done);
    folded(rt, pool, seat, folding)
}

/// Jobs are done, and their records are folded away, again and again.
fn lives<N, R>(rt: &R, pool: &Tasks<R, N>, first: OurSeat<N>, folding: Folding) -> OurSeat<N>
where
    N: PoolLedgers + Send + Sync + 'static,
    R: Abort + Threads + Wait + Clock + Copy + Send + 'static,
{
    let mut seat = first;
    for checkpoint in 0..CHECKPOINTS {
        seat = folds_behind_jobs(rt, pool, seat, checkpoint.saturating_mul(JOBS), folding);
    }
    let (seat, _back) = stopped(rt, pool, seat);
    pool.await_end(rt);
    seat
}

/// How many receipts the caller of a pool has in the end, and its worker.
fn receipts_of<R>(chronicle: &PoolChronicle<Task<R>>) -> Option<(usize, usize)> {
    let caller = chronicle.lists.get(0)?.len();
    let worker = chronicle.lists.get(1)?.len();
    Some((caller, worker))
}

/// A pool of one worker that lives long: how many records were folded away, and how many receipts its seats have in the
/// end.
fn play_long<N, R>(
    rt: &R,
    alloc: Global,
    parts: Parts,
    folding: Folding,
) -> (u64, Option<(usize, usize)>)
where
    N: PoolLedgers + Send + Sync + 'static,
    R: Abort + Threads + Wait + Clock + Copy + Send + 'static,
    requires ledgers { AreOf N.name N.folds N.moments N.parts parts.blanks }
    requires one_each { N.parts ≡ parts.sizes.callers + parts.sizes.maximum }
    requires cap { N.cap ≡ most_records }
    requires gates { vec_len parts.gates ≡ parts.sizes.maximum }
    requires settings { N.settings ≡ record { sizes = parts.sizes; queue = parts.queue; policy = parts.policy } }
{
    let (pool, seats) = made::<N, R>(rt, alloc, parts);
    let seat = lives(rt, &pool, only(rt, seats), folding);
    let chronicle = closed(rt, alloc, pool, given_back(rt, alloc, seat));
    (chronicle.base.gone, receipts_of(&chronicle))
}

/// The same, with whatever ledgers.
fn lives_long<R>(
    rt: &R,
    alloc: Global,
    parts: Parts,
    folding: Folding,
) -> (u64, Option<(usize, usize)>)
where
    R: Abort + Threads + Wait + Clock + Copy + Send + 'static,
    requires records { parts.blanks.records.parts ≡ parts.sizes.callers + parts.sizes.maximum }
    requires folds { parts.blanks.folds.parts ≡ parts.sizes.callers + parts.sizes.maximum }
    requires gates { vec_len parts.gates ≡ parts.sizes.maximum }
{
    play_long::<Brand, R>(rt, alloc, parts, folding)
}

/// Of 4,000 jobs each has a record of its caller's and two of its worker's at least. All were folded away but the last
/// few, and the worker lets go of receipts once its list has 1,024: so it never has those of more than some 1,000 jobs.
fn lets_go<R>(rt: &R, alloc: Global, folding: Folding)
where
    R: Abort + Threads + Wait + Clock + Copy + Send + 'static,
{
    let gates = one_gate(rt, alloc);
    let (gone, receipts) = lives_long(rt, alloc, parts_of(1, gates), folding);
    assert!(rt; gone >= 12_000);
    let Some((caller, worker)) = receipts else {
        panic!(rt; "a list is missing")
    };
    assert!(rt; caller <= 2);
    assert!(rt; worker < 3_000);
}

#[test]
fn a_worker_lets_go_of_receipts(rt: HostRuntime) {
    lets_go(&rt, rt.alloc(), Folding::Checkpoint);
}

/// A worker is told what was handed out, too.
#[test]
fn a_worker_lets_go_of_what_is_handed_out(rt: HostRuntime) {
    lets_go(&rt, rt.alloc(), Folding::Rotation(rt.alloc()));
}
