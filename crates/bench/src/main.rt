//! The program `bench`: how long it takes threads to hand items on, to exchange them and to run jobs, and how long a
//! checkpoint and a withdrawal take. Each measure prints what came of it, which is the same in each run, on standard
//! output, and times on standard error. Its words are in `asked`, and what it does is said in the module of its name;
//! `alone` is in `exchanges`.
#![tactic(auto)]

mod asked;
mod checkpoints;
mod counting;
mod exchanges;
mod handles;
mod handoffs;
mod jobs;
mod withdrawals;

use asked::{Measure, USAGE};
use meet_tickets::Refusal;
use std::alloc::Global;
use std::process::ExitCode;
use std::sync::Wait;
use std::thread::Threads;
use std::time::Clock;
use std::{env, io};

/// Runs a round again and again.
fn repeat<F: Fn() -> Result<(), Refusal>>(rounds: u64, run_round: F) -> Result<(), Refusal>
    requires { F.IsAlwaysCallable run_round }
{
    for _ in 0..rounds {
        run_round()?;
    }
    Ok(())
}

/// Measures what is asked for, and prints what came of it.
fn measure<R>(rt: &R, alloc: Global, asked: Measure) -> Result<(), Refusal>
where
    R: Threads + Wait + Clock + Print + Eprint + Copy + Send + Sync + 'static,
{
    match asked {
        Measure::Handoffs(race) => { repeat(race.rounds, || handoffs::run_round(rt, alloc, race)) }
        Measure::Handles { handed, passed } => handles::run(rt, alloc, handed, passed),
        Measure::Exchanges {
            threads,
            each,
            rounds,
        } => repeat(rounds, || exchanges::run_round(rt, alloc, threads, each)),
        Measure::Alone(milliseconds) => exchanges::wait_alone(rt, alloc, milliseconds),
        Measure::Checkpoints {
            seats,
            kept,
            rounds,
        } => checkpoints::run(rt, alloc, seats, kept, rounds),
        Measure::Withdrawals { waiting, rounds } => withdrawals::run(rt, alloc, waiting, rounds),
        Measure::Jobs(race) => repeat(race.rounds, || jobs::run_round(rt, alloc, race)),
    }
}

/// The words of the command line, the program's name first.
fn words(rt: &HostRuntime) -> io::Result<Vec<String>> {
    let words = env::args(rt)?.collect(rt.alloc())?;
    Ok(words)
}

/// What the command line asks for, if it can be read.
fn command(rt: &HostRuntime) -> Option<Measure> {
    match words(rt) {
        Ok(words) => Measure::of_words(words.as_slice()),
        Err(_) => None,
    }
}

fn main(rt: HostRuntime) -> ExitCode {
    let Some(asked) = command(&rt) else {
        let _ = eprintln!(rt; "{USAGE}");
        return ExitCode::from(2);
    };
    match measure(&rt, rt.alloc(), asked) {
        Ok(()) => ExitCode::from(0),
        Err(why) => {
            let _ = eprintln!(rt; "bench: {}", why.name());
            ExitCode::from(1)
        }
    }
}
