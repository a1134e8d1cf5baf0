//! Handoffs one way: producers and consumers at a queue, each with the result of its own kind.

ghost use Rattle.std.specs.Prelude.{◌≡◌, ◌+◌, ◌≤◌, [], None, IfOk, IfErr, MatchResult, vec_len};
ghost use Rattle.std.specs.Vec.{vec_capacity};
ghost use Rattle.meet_tickets.specs.Limits.{most_records};
ghost use Rattle.meet_sync.specs.Making.{making_refusal};
ghost use Rattle.meet_tasks.specs.Handles.{kind_at};
ghost use Rattle.meet_tasks.specs.Runs.{IsHistory, IsUnclosed, IsRunWhy};

use crate::handle::QueueHandle;
use crate::tasks::{QueueTask, fits, run_queue};
use meet_sync::Chronicle;
use meet_threads::Finished;
use meet_tickets::{MOST_SEATS, Marked, Order, Refusal};
use std::alloc::Global;
use std::sync::Wait;
use std::thread::Threads;
use std::time::Clock;

/// States what the producers and the consumers at a queue do.
///
/// # Example
/// From `crates/example_first/src/main.rt`:
///
///     impl Handoff<u64> for Seven {
///         type Produced = Result<(), Unsent<u64>>;
///         type Consumed = Result<u64, NotReceived>;
pub trait Handoff<T: Marked> {
    /// The result of each producer.
    type Produced;

    /// The result of each consumer.
    type Consumed;

    /// Does the work of a producer.
    fn produce<Q: QueueHandle<T>>(&self, queue: &mut Q) -> Self::Produced;

    /// Does the work of a consumer.
    fn consume<Q: QueueHandle<T>>(&self, queue: &mut Q) -> Self::Consumed;
}

/// What is there after all producers and consumers have ended: their results, and the final log of their queue.
#[derive(Debug, Drop)]
pub struct HandedOff<L, P, C> {
    /// The result of each producer, in the order of their seats.
    pub produced: Vec<P>,
    /// The result of each consumer, in the order of their seats.
    pub consumed: Vec<C>,
    /// The final log of the queue. If the queue couldn't be closed, it is dropped, and this is the reason.
    pub log: Result<L, Refusal>,
}

/// The result of a producer or of a consumer.
#[derive(Drop)]
enum Side<P, C> {
    Produced(P),
    Consumed(C),
}

/// The task of the producers, who have the first seats, and of the consumers.
#[derive(Drop)]
struct Sides<'t, V> {
    task: &'t V,
    producers: u64,
}

impl<'t, T: Marked, V: Handoff<T>> QueueTask<T> for Sides<'t, V> {
    type Output = Side<V::Produced, V::Consumed>;

    fn run<Q: QueueHandle<T>>(&self, queue: &mut Q) -> Side<V::Produced, V::Consumed> {
        if queue.number() < self.producers {
            Side::Produced(self.task.produce(queue))
        } else {
            Side::Consumed(self.task.consume(queue))
        }
    }
}

/// Room for the results of each side.
#[derive(Drop)]
struct Both<P, C> {
    produced: Vec<P>,
    consumed: Vec<C>,
}

/// These results, by side. The empty lists have room for them.
fn by_side<P: Drop, C: Drop>(results: Vec<Side<P, C>>, empty: Both<P, C>) -> Both<P, C>
    requires empty { (empty.produced.items ≡ []) × (empty.consumed.items ≡ []) }
    requires produced { vec_len results ≤ vec_capacity empty.produced }
    requires consumed { vec_len results ≤ vec_capacity empty.consumed }
    ensures { vec_len result.produced + vec_len result.consumed ≡ vec_len results }
{
    let Both {
        mut produced,
        mut consumed,
    } = empty;
    for side in results {
        match side {
            Side::Produced(output) => produced.push_reserved(output),
            Side::Consumed(output) => consumed.push_reserved(output),
        }
    }
    Both { produced, consumed }
}

/// Runs this number of producers and of consumers at a new queue of this order, each in a thread of its own with a
/// handle, and closes the queue, as `run_queue` does.
///
/// # Errors
/// - BadSizes, exactly if there is no thread, or more than 65,536.
/// - Memory, if an allocation fails before the first thread is started.
/// - NoThread, if a thread can't be started; then no thread has begun to work.
///
/// # Example
/// From `crates/example_first/src/main.rt`:
///
///     let done = run_handoff(&rt, rt.alloc(), Order::Fair, 1, 1, &Seven)?;
pub fn run_handoff<T, R, V>(
    rt: &R,
    alloc: Global,
    order: Order,
    producers: u64,
    consumers: u64,
    task: &V,
) -> Result<HandedOff<Chronicle<T>, V::Produced, V::Consumed>, Refusal>
where
    T: Marked + Drop + Send,
    R: Threads + Wait + Clock + Sync,
    V: Handoff<T> + Sync,
    V::Produced: Send + Drop,
    V::Consumed: Send + Drop,
    ensures results { IfOk result (λ done. vec_len done.produced + vec_len done.consumed ≡ producers + consumers) }
    ensures history { IfOk result (λ done. MatchResult done.log
        (IsHistory T.mark_of (kind_at order) (producers + consumers)) IsUnclosed) }
    ensures sizes { IfOk result (λ _. making_refusal (producers + consumers) most_records ≡ None) }
    ensures why { IfErr result (IsRunWhy (producers + consumers)) }
{
    if producers > MOST_SEATS || consumers > MOST_SEATS {
        return Err(Refusal::BadSizes);
    }
    let threads = producers + consumers;
    if !fits(threads) {
        return Err(Refusal::BadSizes);
    }
    let empty = Both {
        produced: Vec::with_capacity(alloc, threads as usize).map_err(|_| Refusal::Memory)?,
        consumed: Vec::with_capacity(alloc, threads as usize).map_err(|_| Refusal::Memory)?,
    };
    let Finished { results, log } = run_queue(
        rt,
        alloc,
        order,
        threads,
        &Sides { task, producers },
    )?;
    let Both { produced, consumed } = by_side(results, empty);
    Ok(HandedOff {
        produced,
        consumed,
        log,
    })
}
