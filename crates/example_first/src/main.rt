//! Two threads and a queue: one hands the number 7 over, and the other takes it.
#![tactic(auto)]

use anyhow::Result;
use ibisbookcase::queues::{Handoff, NotReceived, Order, QueueHandle, Unsent, run_handoff};

struct Seven;

impl Handoff<u64> for Seven {
    type Produced = Result<(), Unsent<u64>>;

    type Consumed = Result<u64, NotReceived>;

    fn produce<Q: QueueHandle<u64>>(&self, queue: &mut Q) -> Self::Produced {
        queue.offer_for(7, 60_000) // milliseconds
    }

    fn consume<Q: QueueHandle<u64>>(&self, queue: &mut Q) -> Self::Consumed {
        queue.poll_for(60_000)
    }
}

fn main(rt: HostRuntime) -> Result<()> {
    let done = run_handoff(&rt, rt.alloc(), Order::Fair, 1, 1, &Seven)?;
    println!(rt; "{:?} {:?}", done.produced, done.consumed)?;
    Ok(println!(rt; "{} records", done.log?.records.len())?)
}
