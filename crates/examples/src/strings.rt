//! Two threads and a queue of `String`s: one hands a text over, and the other takes it.

use anyhow::Result;
use ibisbookcase::queues::{
    Handoff, Labelled, NotReceived, Order, QueueHandle, Unsent, run_handoff,
};
use std::alloc::Global;
use std::sync::Wait;
use std::thread::Threads;
use std::time::Clock;

#[derive(Clone, Copy)]
struct Greeting(Global);

impl Handoff<Labelled<String>> for Greeting {
    type Produced = Result<()>;

    type Consumed = Result<Labelled<String>, NotReceived>;

    fn produce<Q: QueueHandle<Labelled<String>>>(&self, queue: &mut Q) -> Self::Produced {
        let item = queue.label(format!(in self.0; "an ibis")?);
        Ok(queue.put(item).map_err(Unsent::into_why)?)
    }

    fn consume<Q: QueueHandle<Labelled<String>>>(&self, queue: &mut Q) -> Self::Consumed {
        queue.poll_for(60_000) // milliseconds
    }
}

/// Runs the program.
pub fn run<R>(rt: &R, alloc: Global) -> Result<()>
where
    R: Threads + Wait + Clock + Print + Sync,
{
    let done = run_handoff(rt, alloc, Order::Fair, 1, 1, &Greeting(alloc))?;
    println!(rt; "{:?} {:?}", done.produced, done.consumed)?;
    Ok(())
}
