//! Ten jobs, each a closure, that a pool of two threads runs. Their results are collected from the records of the pool,
//! after it was shut down, has ended and was closed.
//!
//! A job ends: that each function returns is proved of it, as of every function. Nor does it end its thread alone:
//! there is no panic, and a job that stops the program, for which it needs a handle (`Abort`), stops all of it.

mod running;

ghost use Rattle.std.specs.Prelude.{◌≡◌, ◌+◌, vec_len};

use ibisbookcase::pools::{
    Blanks, Boxed, JobFn, NewPool, ParkGate, Policy, PoolChronicle, PoolDeed, PoolQueue, Refusal,
    Sizes, ThreadStarter,
};
use running::{Ran, run_all};
use std::alloc::Global;
use std::marker::Brand;
use std::sync::Wait;
use std::thread::Threads;
use std::time::Clock;

/// The pool of these parts runs jobs.
fn run_jobs<R>(
    rt: &R,
    alloc: Global,
    parts: NewPool<ParkGate, ThreadStarter>,
    jobs: Vec<Boxed>,
) -> Result<Ran, Refusal>
where
    R: Threads + Wait + Clock + Copy + Send + 'static,
    requires records { parts.blanks.records.parts ≡ parts.sizes.callers + parts.sizes.maximum }
    requires folds { parts.blanks.folds.parts ≡ parts.sizes.callers + parts.sizes.maximum }
    requires gates { vec_len parts.gates ≡ parts.sizes.maximum }
    requires one_caller { parts.sizes.callers ≡ 1 }
{
    run_all::<Brand, R>(rt, alloc, parts, jobs)
}

/// Returns how many jobs were done, and the sum of what they returned.
fn collected(chronicle: &PoolChronicle<Boxed>) -> (u64, u64) {
    let mut done = 0u64;
    let mut sum = 0u64;
    for record in chronicle.records.as_slice() {
        if let PoolDeed::Finished(answer) = record.deed {
            done = done.saturating_add(1);
            sum = sum.saturating_add(answer);
        }
    }
    (done, sum)
}

/// Runs the program.
pub fn run<R>(rt: &R, alloc: Global) -> Result<(), Refusal>
where
    R: Threads + Wait + Clock + Print + Copy + Send + 'static,
{
    let mut jobs = Vec::new(alloc);
    for n in 1..11u64 {
        let call: JobFn = Box::new(
            alloc,
            move || -> u64
                ensures { result ≡ n }
            { n },
        )
        .map_err(|_| Refusal::Memory)?;
        jobs.push(Boxed::new(n, call)).map_err(|_| Refusal::Memory)?; // each is worth its tag
    }
    let gates = ParkGate::many(alloc, 2)?; // one for each worker
    let parts = NewPool {
        sizes: Sizes {
            core: 2,
            maximum: 2,
            callers: 1,
            keep_alive: 60_000, // milliseconds
            core_timeout: false,
        },
        queue: PoolQueue::Unbounded,
        policy: Policy::Abort,
        gates,
        starter: ThreadStarter::new(),
        blanks: Blanks::new(3), // a part for each caller and each worker
    };
    let ran = run_jobs(rt, alloc, parts, jobs)?;
    let (done, sum) = collected(&ran.chronicle);
    println!(rt; "{done} jobs were done, and answered {sum} together").map_err(
        |_| Refusal::WriteFault,
    )?;
    match ran.refused {
        None => Ok(()),
        Some(why) => Err(why),
    }
}
