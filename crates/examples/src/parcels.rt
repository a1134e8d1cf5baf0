//! Parcels between threads: one thread transfers them, another takes them. Then the queue is closed. The parcels that
//! were taken, those that were returned, and the records are counted on standard output.
//!
//!     examples parcels
//!     examples parcels trace
//!     examples parcels GIVES TAKES PATIENCE CAP
//!
//! With `trace` the records are written there as a trace, which `meet check` accepts. With numbers one thread transfers
//! GIVES parcels, the other takes TAKES, each waits PATIENCE milliseconds at most for the other, and the queue has room
//! for CAP records.

pub mod passing;

use anyhow::Result;
use meet_run::write_trace;
use meet_sync::NewQueue;
use meet_tickets::{Kind, MOST_RECORDS, Order, Refusal};
use passing::{Passed, Plan, pass};
use std::alloc::Global;
use std::marker::Brand;
use std::sync::Wait;
use std::thread::Threads;
use std::time::Clock;

/// A queue without a bound, as `LinkedTransferQueue` is.
const TRANSFER: Kind = Kind {
    order: Order::Transfer,
    bound: None,
};

/// Five parcels, all of which are taken: a thread waits a minute at most for the other.
const FIVE: Plan = Plan {
    gives: 5,
    takes: 5,
    patience: 60_000,
    cap: MOST_RECORDS,
};

/// Passes parcels between two threads, and returns the outcome.
fn pass_by_plan<R>(rt: &R, alloc: Global, plan: Plan) -> Result<Passed, Refusal>
where
    R: Threads + Wait + Clock + Sync,
{
    let parts = NewQueue::parked(alloc, 2)?; // two seats, each with a gate
    pass::<Brand, R>(rt, alloc, parts, plan)
}

/// What the words of the command line ask for.
#[derive(Clone, Copy)]
pub struct Asked {
    plan: Plan,
    /// Whether the records are written as a trace.
    is_trace: bool,
}

/// What no words ask for.
pub const COUNTED: Asked = Asked {
    plan: FIVE,
    is_trace: false,
};

/// Reads the words behind the program's. None if they ask for nothing.
pub fn asked_by(words: &[String]) -> Option<Asked> {
    match words {
        [] => Some(COUNTED),
        [word] if word.as_str() == "trace" => Some(Asked {
            is_trace: true,
            ..COUNTED
        }),
        [gives, takes, patience, cap] => Some(Asked {
            plan: Plan {
                gives: gives.parse().ok()?,
                takes: takes.parse().ok()?,
                patience: patience.parse().ok()?,
                cap: cap.parse().ok()?,
            },
            is_trace: false,
        }),
        _ => None,
    }
}

/// Counts the parcels and the records, those too that the queue has compacted.
fn tell<R: Print>(rt: &R, passed: &Passed) -> Result<(), Refusal> {
    let kept = passed.chronicle.records.len() as u64;
    println!(rt;
        "{} parcels came, {} came back, {} records",
        passed.came.parcels,
        passed.back.parcels,
        passed.chronicle.base.gone.saturating_add(kept)
    )
    .map_err(|_| Refusal::WriteFault)
}

/// Runs the program, and counts. It fails after that if a thread's call failed, with its error.
pub fn run<R>(rt: &R, host: &HostRuntime, asked: Asked) -> Result<()>
where
    R: Threads + Wait + Clock + Print + Sync,
{
    let passed = pass_by_plan(rt, host.alloc(), asked.plan)?;
    if asked.is_trace {
        let records = passed.chronicle.records.as_slice();
        write_trace(host.alloc(), TRANSFER, records, &mut host.stdout())?;
    } else {
        tell(rt, &passed)?;
    }
    match passed.refused {
        None => Ok(()),
        Some(why) => Err(why.into()),
    }
}
