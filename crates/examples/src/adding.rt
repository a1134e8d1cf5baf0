//! Producers and consumers: two threads put numbers into a transfer queue, and three others take them and add them up.

use anyhow::Result;
use ibisbookcase::queues::{Handoff, NotReceived, Order, QueueHandle, Unsent, run_handoff};
use std::alloc::Global;
use std::sync::Wait;
use std::thread::Threads;
use std::time::Clock;

/// Each producer puts the numbers from 1 to 300, and each consumer takes 200.
struct Adding;

impl Handoff<u64> for Adding {
    type Produced = Result<(), Unsent<u64>>;

    type Consumed = Result<u64, NotReceived>;

    fn produce<Q: QueueHandle<u64>>(&self, queue: &mut Q) -> Self::Produced {
        for number in 1..=300u64 {
            queue.put(number)?;
        }
        Ok(())
    }

    fn consume<Q: QueueHandle<u64>>(&self, queue: &mut Q) -> Self::Consumed {
        let mut sum = 0u64;
        for _ in 0..200 {
            sum = sum.saturating_add(queue.take()?);
        }
        Ok(sum)
    }
}

/// Runs the program.
pub fn run<R>(rt: &R, alloc: Global) -> Result<()>
where
    R: Threads + Wait + Clock + Print + Sync,
{
    let done = run_handoff(rt, alloc, Order::Transfer, 2, 3, &Adding)?;
    let left = done.log?.left.len();
    let mut sum = 0u64;
    for part in done.consumed {
        sum = sum.saturating_add(part?);
    }
    println!(rt; "{:?} {sum}, {left} left", done.produced)?;
    Ok(())
}
