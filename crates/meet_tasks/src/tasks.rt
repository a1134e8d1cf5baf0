//! Tasks at a queue, from the queue's creation to its end.

ghost use Rattle.std.specs.Prelude.{◌≡◌, None, Some, Ok, Err, IfOk, IfErr, MatchResult, vec_len, if◌then◌else◌};
ghost use Rattle.meet_tickets.specs.declared.refusals.Refusal.TheVariants.{BadSizes};
ghost use Rattle.meet_tickets.specs.Limits.{most_records};
ghost use Rattle.meet_place.specs.Ledgers.{AreOf};
ghost use Rattle.meet_sync.specs.Making.{making_refusal};
ghost use Rattle.meet_sync.specs.Faults.{why_of};
ghost use Rattle.meet_chosen.specs.Chosen.{order_of, seats_in};
ghost use Rattle.meet_tasks.specs.Handles.{kind_at};
ghost use Rattle.meet_tasks.specs.Runs.{IsHistory, IsUnclosed, IsRunWhy};

use crate::handle::QueueHandle;
use crate::ledgers::QueueLedgers;
use crate::seating::{given_back, seated};
use meet_cells::ParkGate;
use meet_chosen::ChosenQueue;
use meet_sync::{Back, Chronicle, Ledgers, NewQueue, QueueFault};
use meet_threads::{Finished, Room, Start, joined};
use meet_tickets::{Deed, MOST_SEATS, Marked, Order, Refusal};
use std::alloc::Global;
use std::marker::Brand;
use std::sync::Wait;
use std::thread::Threads;
use std::time::Clock;

/// States what the threads at a queue do.
pub trait QueueTask<T: Marked> {
    /// The result of each thread.
    type Output;

    /// Does the work of the thread with this handle, and returns its result. In Java: the `Runnable` of a thread.
    fn run<Q: QueueHandle<T>>(&self, queue: &mut Q) -> Self::Output;
}

/// A task whose handles keep the log (`QueueHandle::keep_log`): every record stands in the log of the closed queue, or
/// in a chapter that `rotate` returned.
///
/// # Example
/// From `crates/meet_tasks_tests/src/chapters.rt`:
///
///     let done = run_queue(&rt, rt.alloc(), Order::Transfer, 1, &KeepLog(Writing)).expect(
#[derive(Drop)]
pub struct KeepLog<V>(pub V);

impl<T: Marked, V: QueueTask<T>> QueueTask<T> for KeepLog<V> {
    type Output = V::Output;

    fn run<Q: QueueHandle<T>>(&self, queue: &mut Q) -> V::Output {
        queue.keep_log();
        self.0.run(queue)
    }
}

/// What a closed queue left, or why it wasn't closed.
fn log_of<T, Q: Drop, B: Drop, N: Ledgers>(
    closed: Result<Chronicle<T>, QueueFault<Q, B, N>>,
) -> Result<Chronicle<T>, Refusal>
    ensures { MatchResult closed (λ c. result ≡ Ok c) (λ fault. result ≡ Err (why_of fault)) }
{
    match closed {
        Ok(chronicle) => Ok(chronicle),
        Err(fault) => Err(fault.into_why()),
    }
}

/// Ends a queue with all its seats.
fn closed<T: Marked + Drop, N: QueueLedgers>(
    alloc: Global,
    queue: ChosenQueue<T, ParkGate, N>,
    seats: Vec<Back<Deed, N>>,
) -> Result<Chronicle<T>, Refusal>
    requires order { order_of queue ≡ N.order }
    requires whole { seats_in queue ≡ N.parts }
    requires all { vec_len seats ≡ N.parts }
    requires cap { N.cap ≡ most_records }
    ensures { MatchResult result (IsHistory T.mark_of (kind_at N.order) N.parts) IsUnclosed }
{
    log_of(queue.close(alloc, seats))
}

/// Whether a queue may have this number of threads.
pub(crate) fn fits(threads: u64) -> bool
    ensures { making_refusal threads most_records ≡ (if result then None else Some BadSizes) }
{
    threads != 0 && threads <= MOST_SEATS
}

/// Runs a task at a queue of this order and these parts.
fn run_at<T, N, R, V>(
    rt: &R,
    alloc: Global,
    order: Order,
    parts: NewQueue<ParkGate>,
    task: &V,
) -> Result<Finished<Chronicle<T>, V::Output>, Refusal>
where
    T: Marked + Drop + Send,
    N: QueueLedgers + Send + Sync,
    R: Threads + Wait + Clock + Sync,
    V: QueueTask<T> + Sync,
    V::Output: Send + Drop,
    requires ledgers { AreOf N.name N.folds N.moments N.parts parts.blanks }
    requires one_each { N.parts ≡ vec_len parts.gates }
    requires cap { N.cap ≡ most_records }
    requires order { N.order ≡ order }
    requires sizes { making_refusal N.parts most_records ≡ None }
    ensures results { IfOk result (λ done. vec_len done.results ≡ N.parts) }
    ensures history { IfOk result (λ done. MatchResult done.log (IsHistory T.mark_of (kind_at order) N.parts)
        IsUnclosed) }
    ensures why { IfErr result (IsRunWhy N.parts) }
{
    let count = parts.gates.len();
    let backs = Vec::with_capacity(alloc, count).map_err(|_| Refusal::Memory)?;
    let Room {
        threads,
        seats: empty,
        results,
    } = Room::new(alloc, count)?;
    let (queue, seats) = match ChosenQueue::<T, ParkGate, N>::new(alloc, order, parts) {
        Ok(made) => made,
        Err(refused) => return Err(refused.into_why()), // the gates and the ledgers are dropped
    };
    let start = Start::new();
    let Some(threads) = seated(rt, alloc, &queue, task, &start, seats, threads) else {
        return Err(Refusal::NoThread);
    };
    let Some((seats, results)) = joined(rt, threads, empty, results) else {
        return Err(Refusal::NoThread);
    };
    Ok(Finished {
        results,
        log: closed(alloc, queue, given_back(seats, backs)),
    })
}

/// Runs a task in each of `threads` threads at a new queue of this order, each with a handle, and closes the queue. It
/// waits until all threads have ended, for ever if one never ends. The records are a legal history, in which each
/// seat's calls stand once, in its order, and no others.
///
/// # Errors
/// - BadSizes, exactly if `threads` is 0 or more than 65,536.
/// - Memory, if an allocation fails before the first thread is started.
/// - NoThread, if a thread can't be started; then no thread has begun to work.
///
/// Java: `new SynchronousQueue<>(fair)` or `new LinkedTransferQueue<>()`, the threads, and `join` of each.
pub fn run_queue<T, R, V>(
    rt: &R,
    alloc: Global,
    order: Order,
    threads: u64,
    task: &V,
) -> Result<Finished<Chronicle<T>, V::Output>, Refusal>
where
    T: Marked + Drop + Send,
    R: Threads + Wait + Clock + Sync,
    V: QueueTask<T> + Sync,
    V::Output: Send + Drop,
    ensures results { IfOk result (λ done. vec_len done.results ≡ threads) }
    ensures history { IfOk result (λ done. MatchResult done.log (IsHistory T.mark_of (kind_at order) threads)
        IsUnclosed) }
    ensures sizes { IfOk result (λ _. making_refusal threads most_records ≡ None) }
    ensures why { IfErr result (IsRunWhy threads) }
{
    if !fits(threads) {
        return Err(Refusal::BadSizes);
    }
    let parts = NewQueue::parked(alloc, threads)?;
    run_at::<T, Brand, R, V>(rt, alloc, order, parts, task)
}
