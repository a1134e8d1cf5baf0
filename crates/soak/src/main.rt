//! Stress tests of what threads share: rounds at queues and at pools, in each of which every item or job is looked for.
//!
//!     soak queues ROUNDS FIRST
//!     soak calls NUMBER
//!     soak pools ROUNDS FIRST
//!
//! ROUNDS rounds are held, with the random seeds FIRST, FIRST + 1 and so on; with its seed a round that fails is held
//! again, in another order of threads. `calls` holds one round at a queue, and prints its calls as `meet judge` reads them.
//! What a round does is said in `queues` and `pools`.
#![tactic(auto)]

mod pools;
mod queues;

use pools::NONE;
use std::alloc::Global;
use std::process::ExitCode;
use std::sync::Wait;
use std::thread::Threads;
use std::time::Clock;
use std::{env, io};

/// What a command line asks for.
#[derive(Clone, Copy)]
enum Asked {
    /// This many rounds at queues, from this number on.
    Queues(u64, u64),
    /// The calls of the round of this number.
    Calls(u64),
    /// This many rounds at pools, from this number on.
    Pools(u64, u64),
}

/// What went wrong, in the round of this number.
#[derive(Clone, Copy)]
struct Fault {
    round: u64,
    why: &'static str,
}

/// What these words ask for, the program's name first.
fn asked_by(words: &[String]) -> Option<Asked> {
    match words {
        [_, word, number] if word.as_str() == "calls" => Some(Asked::Calls(number.parse().ok()?)),
        [_, word, rounds, first] => {
            let (rounds, first) = (rounds.parse().ok()?, first.parse().ok()?);
            match word.as_str() {
                "queues" => Some(Asked::Queues(rounds, first)),
                "pools" => Some(Asked::Pools(rounds, first)),
                _ => None,
            }
        }
        _ => None,
    }
}

/// The words of the command line, the program's name first.
fn words(rt: &HostRuntime) -> io::Result<Vec<String>> {
    let words = env::args(rt)?.collect(rt.alloc())?;
    Ok(words)
}

/// What the command line asks for, if it can be read.
fn command(rt: &HostRuntime) -> Option<Asked> {
    match words(rt) {
        Ok(words) => asked_by(words.as_slice()),
        Err(_) => None,
    }
}

/// Holds rounds at queues, from this number on.
fn soak_queues<R: Threads + Wait + Clock + Sync>(
    rt: &R,
    alloc: Global,
    rounds: u64,
    first: u64,
) -> Result<(), Fault> {
    for round in first..first.saturating_add(rounds) {
        queues::hold_round(rt, alloc, round).map_err(|why| Fault { round, why })?;
    }
    Ok(())
}

/// Holds rounds at pools, from this number on, and prints how often each outcome came.
fn soak_pools<R>(rt: &R, alloc: Global, rounds: u64, first: u64) -> Result<(), Fault>
where
    R: Threads + Wait + Clock + Eprint + Copy + Send + Sync + 'static,
{
    let mut tally = NONE;
    for round in first..first.saturating_add(rounds) {
        match pools::hold_round(rt, alloc, round) {
            Ok(came) => tally = tally.with(came),
            Err(why) => return Err(Fault { round, why }),
        }
    }
    let _ = eprintln!(rt; "{tally}");
    Ok(())
}

/// Prints how many rounds were held, or on standard error what went wrong.
fn finish(rt: &HostRuntime, rounds: u64, held: Result<(), Fault>) -> ExitCode {
    let printed = match held {
        Ok(()) => println!(rt; "{rounds} rounds"),
        Err(Fault { round, why }) => {
            let _ = eprintln!(rt; "round {round}: {why}");
            return ExitCode::from(1);
        }
    };
    match printed {
        Ok(()) => ExitCode::from(0),
        Err(_) => ExitCode::from(1),
    }
}

fn main(rt: HostRuntime) -> ExitCode {
    match command(&rt) {
        Some(Asked::Queues(rounds, first)) => {
            let held = soak_queues(&rt, rt.alloc(), rounds, first);
            finish(&rt, rounds, held)
        }
        Some(Asked::Pools(rounds, first)) => {
            let held = soak_pools(&rt, rt.alloc(), rounds, first);
            finish(&rt, rounds, held)
        }
        Some(Asked::Calls(round)) => {
            match queues::write_round(&rt, rt.alloc(), round, &mut rt.stdout()) {
                Ok(checkpoints) => {
                    let _ = eprintln!(rt; "checkpoints {checkpoints}");
                    ExitCode::from(0)
                }
                Err(why) => finish(&rt, 0, Err(Fault { round, why })),
            }
        }
        None => {
            let _ = eprintln!(rt; "usage: soak queues|pools ROUNDS FIRST, or soak calls NUMBER");
            ExitCode::from(2)
        }
    }
}
