//! Threads with handles that make call after call, and nothing else: the log of their queue is compacted by the calls
//! themselves. Two threads hand HANDED items over at a fair queue; then one thread puts and polls PASSED items at a
//! transfer queue. Two lines say how many items these were.

use meet_tasks::{Handoff, NotReceived, QueueHandle, QueueTask, run_handoff, run_queue};
use meet_tickets::{Order, Refusal};
use std::alloc::Global;
use std::sync::Wait;
use std::thread::Threads;
use std::time::Clock;

/// A producer hands this many items over, and a consumer takes them.
#[derive(Drop)]
struct Handing(u64);

impl Handoff<u64> for Handing {
    type Produced = Result<(), NotReceived>;

    type Consumed = Result<u64, NotReceived>;

    fn produce<Q: QueueHandle<u64>>(&self, queue: &mut Q) -> Self::Produced {
        for item in 0..self.0 {
            if let Err(unsent) = queue.put(item) {
                return Err(unsent.into_why());
            }
        }
        Ok(())
    }

    fn consume<Q: QueueHandle<u64>>(&self, queue: &mut Q) -> Self::Consumed {
        let mut items = 0u64;
        for item in 0..self.0 {
            if queue.take()? != item {
                break;
            }
            items = item.saturating_add(1);
        }
        Ok(items)
    }
}

/// One thread, which puts this many items, and polls each.
#[derive(Drop)]
struct Alone(u64);

/// Puts an item, and polls it: returns whether it came.
fn put_and_poll<Q: QueueHandle<u64>>(queue: &mut Q, item: u64) -> Result<bool, NotReceived> {
    match queue.put(item) {
        Ok(()) => Ok(queue.poll()? == item),
        Err(unsent) => Err(unsent.into_why()),
    }
}

impl QueueTask<u64> for Alone {
    type Output = Result<u64, NotReceived>;

    fn run<Q: QueueHandle<u64>>(&self, queue: &mut Q) -> Self::Output {
        let mut items = 0u64;
        for item in 0..self.0 {
            if !put_and_poll(queue, item)? {
                break;
            }
            items = item.saturating_add(1);
        }
        Ok(items)
    }
}

/// The last of these results. A call that wasn't refused, and yet moved no item, is Differs.
fn last_of(results: &[Result<u64, NotReceived>]) -> Result<u64, Refusal> {
    match results {
        [.., Ok(items)] => Ok(*items),
        [.., Err(NotReceived::Refused(why))] => Err(*why),
        [.., Err(_)] => Err(Refusal::Differs),
        [] => Ok(0),
    }
}

/// Runs both, and prints how many items there were.
///
/// # Errors
/// - The error of the last thread's first call that fails, or of the close.
/// - NoThread, if a thread can't be started; WriteFault, if a line can't be printed; Memory, if an allocation fails.
pub fn run<R>(rt: &R, alloc: Global, handed: u64, passed: u64) -> Result<(), Refusal>
where
    R: Threads + Wait + Clock + Print + Sync,
{
    let done = run_handoff(rt, alloc, Order::Fair, 1, 1, &Handing(handed))?;
    done.log?;
    let items = last_of(done.consumed.as_slice())?;
    println!(rt; "{items} items handed from thread to thread").map_err(|_| Refusal::WriteFault)?;
    let done = run_queue(rt, alloc, Order::Transfer, 1, &Alone(passed))?;
    done.log?;
    let items = last_of(done.results.as_slice())?;
    println!(rt; "{items} items put and polled").map_err(|_| Refusal::WriteFault)
}
