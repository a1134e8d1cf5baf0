//! Two threads and an exchanger: each brings a number, and gets the other's.

use anyhow::Result;
use ibisbookcase::exchanger::{ExchangeTask, ExchangerHandle, Unmet, run_exchanger};
use std::alloc::Global;
use std::sync::Wait;
use std::thread::Threads;
use std::time::Clock;

struct Swap;

impl ExchangeTask<u64> for Swap {
    type Output = Result<u64, Unmet<u64>>;

    fn run<X: ExchangerHandle<u64>>(&self, exchanger: &mut X) -> Self::Output {
        exchanger.exchange_for(exchanger.number(), 60_000) // milliseconds
    }
}

/// Runs the program.
pub fn run<R>(rt: &R, alloc: Global) -> Result<()>
where
    R: Threads + Wait + Clock + Print + Sync,
{
    let done = run_exchanger(rt, alloc, 2, &Swap)?;
    Ok(println!(rt; "{:?}", done.results)?)
}
