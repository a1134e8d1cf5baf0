//! Where jobs and the seats of workers lie beside the core of a pool, and how its answers move them.

ghost use Rattle.std.specs.Prelude.{List, ℕ, Bool, map, ◌≡◌, ◌+◌, ◌<◌, ◌⊎◌, [], ◌++◌, ◌∷◌, Some, None, true, false};
ghost use Rattle.std.specs.Prelude.{Option, IfSome, slice_get, slice_set};
ghost use Rattle.std.specs.VecDeque.{deque_len, deque_capacity};
ghost use Rattle.pool_core.specs.Calls.{ComesBack};
ghost use Rattle.pool_core.specs.Moves.{Jobs, ExecuteMoves, Own, First};
ghost use Rattle.pool_threads.specs.Mirrored.{tags_of, tag_in, given_tag, away};
ghost use Rattle.pool_threads.specs.Told.{answer_told, IsItself, Starts, StartsOne};

use crate::jobs::{Executed, Job};
use crate::shared::Placed;
use pool_core::Executed as Answer;
use std::collections::VecDeque;
use std::mem;
use std::mem::ManuallyDrop;

/// Places a job beside the core as the core's answer says.
#[inline(always)]
pub(crate) fn place<C: Drop, S: Drop>(
    kept: &mut VecDeque<Job<C>>,
    given: &mut Vec<Option<Job<C>>>,
    seats: &mut Vec<Option<S>>,
    job: Job<C>,
    answer: Answer<u64>,
) -> Placed<C, S>
    requires room { deque_len kept.old < deque_capacity kept.old }
    requires back { ComesBack job.tag answer }
    requires moves { (new : Jobs ℕ)
        × ExecuteMoves job.tag answer (tags_of kept.old.items given.old.items (away seats.old.items)) new }
    ensures itself { IsItself job result.executed }
    ensures told { answer_told result.executed ≡ answer }
    ensures worker { IfSome result.worker (λ worker. (w : ℕ) × Starts answer w
        × (slice_get seats.old.items w ≡ Some (Some worker))) }
    ensures starts { StartsOne answer result.worker }
    ensures moves { (new : Jobs ℕ)
        → ExecuteMoves job.tag answer (tags_of kept.old.items given.old.items (away seats.old.items)) new
        → tags_of kept.new.items given.new.items (away seats.new.items) ≡ new }
{
    match answer {
        Answer::Handed(w) => {
            put(given, w as usize, job);
            Placed {
                executed: Executed::Handed(w),
                worker: None,
            }
        }
        Answer::Started(w) => {
            put(given, w as usize, job);
            Placed {
                executed: Executed::Started(w),
                worker: Some(take_seat(seats, w as usize)),
            }
        }
        Answer::Kept => {
            keep(kept, job);
            Placed {
                executed: Executed::Kept,
                worker: None,
            }
        }
        Answer::KeptStart(w) => {
            keep(kept, job);
            Placed {
                executed: Executed::KeptStart(w),
                worker: Some(take_seat(seats, w as usize)),
            }
        }
        Answer::Aborted(_) => Placed {
            executed: Executed::Aborted(job),
            worker: None,
        },
        Answer::CallerRuns(_) => Placed {
            executed: Executed::CallerRuns(job),
            worker: None,
        },
        Answer::Dropped(_) => Placed {
            executed: Executed::Dropped(job),
            worker: None,
        },
        Answer::DroppedOldest(ticket, _) => {
            let oldest = take_first(kept);
            keep(kept, job);
            Placed {
                executed: Executed::DroppedOldest(ticket, oldest),
                worker: None,
            }
        }
    }
}

/// Takes the seat of a worker that isn't there.
pub(crate) fn take_seat<S>(seats: &mut Vec<Option<S>>, at: usize) -> S
    requires lies { slice_get (away seats.old.items) at ≡ Some false }
    ensures seat { slice_get seats.old.items at ≡ Some (Some result) }
    ensures seats { away seats.new.items ≡ slice_set (away seats.old.items) at true }
{
    mem::replace(&mut seats[at], None).unwrap()
}

/// Puts the seat of a worker that isn't there any more back.
pub(crate) fn put_back<S: Drop>(seats: &mut Vec<Option<S>>, at: usize, seat: S)
    requires gone { slice_get (away seats.old.items) at ≡ Some true }
    ensures { away seats.new.items ≡ slice_set (away seats.old.items) at false }
{
    let before = mem::replace(&mut seats[at], Some(seat));
    let _none = ManuallyDrop::new(before);
}

/// The job that a worker runs now: the one that it was given, or the first kept one.
#[inline(always)]
pub(crate) fn run<C: Drop>(
    kept: &mut VecDeque<Job<C>>,
    given: &mut Vec<Option<Job<C>>>,
    w: usize,
) -> Job<C>
    requires moves { (there : List Bool) × (job : ℕ) × (new : Jobs ℕ)
        × (Own w job (tags_of kept.old.items given.old.items there) new
        ⊎ First w job (tags_of kept.old.items given.old.items there) new) }
    ensures moves { (there : List Bool) (job : ℕ) (new : Jobs ℕ)
        → (Own w job (tags_of kept.old.items given.old.items there) new
        ⊎ First w job (tags_of kept.old.items given.old.items there) new)
        → (result.tag ≡ job) × (tags_of kept.new.items given.new.items there ≡ new) }
{
    if given[w].is_some() {
        take(given, w)
    } else {
        take_first(kept)
    }
}

/// Gives a worker that has none a job.
#[inline(always)]
pub(crate) fn put<C: Drop>(given: &mut Vec<Option<Job<C>>>, at: usize, job: Job<C>)
    requires none { slice_get (map given_tag given.old.items) at ≡ Some None }
    ensures { map given_tag given.new.items ≡ slice_set (map given_tag given.old.items) at (Some job.tag) }
{
    let before = mem::replace(&mut given[at], Some(job));
    let _none = ManuallyDrop::new(before);
}

/// Takes the job that a worker was given.
#[inline(always)]
pub(crate) fn take<C>(given: &mut Vec<Option<Job<C>>>, at: usize) -> Job<C>
    requires some { (tag : ℕ) × (slice_get (map given_tag given.old.items) at ≡ Some (Some tag)) }
    ensures job { slice_get (map given_tag given.old.items) at ≡ Some (Some result.tag) }
    ensures given { map given_tag given.new.items ≡ slice_set (map given_tag given.old.items) at None }
{
    mem::replace(&mut given[at], None).unwrap()
}

/// Keeps a job.
#[inline(always)]
pub(crate) fn keep<C>(kept: &mut VecDeque<Job<C>>, job: Job<C>)
    requires room { deque_len kept.old < deque_capacity kept.old }
    ensures { map tag_in kept.new.items ≡ map tag_in kept.old.items ++ job.tag ∷ [] }
{
    kept.push_back_reserved(job);
}

/// Takes the first kept job.
#[inline(always)]
pub(crate) fn take_first<C>(kept: &mut VecDeque<Job<C>>) -> Job<C>
    requires some { (tag : ℕ) × (rest : List ℕ) × (map tag_in kept.old.items ≡ tag ∷ rest) }
    ensures kept { map tag_in kept.old.items ≡ result.tag ∷ map tag_in kept.new.items }
    ensures room { deque_len kept.new < deque_capacity kept.new }
{
    kept.pop_front().unwrap()
}
