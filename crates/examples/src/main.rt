//! Programs over the library, each in a module of its own, which a word of the command line runs:
//!
//!     examples strings | adding | exchanger | pool | jobs | pipeline | server | buffers | moments | one_thread
//!     examples parcels [trace | GIVES TAKES PATIENCE CAP]
//!
//! Without a word all of them run, one after another.
#![tactic(auto)]

mod adding;
mod buffers;
mod exchanger;
mod jobs;
mod moments;
mod one_thread;
mod pairs;
mod parcels;
mod pipeline;
mod pool;
mod server;
mod strings;

use anyhow::Result;
use std::env;
use std::process::ExitCode;
use std::sync::Wait;
use std::thread::Threads;
use std::time::Clock;

/// What is said of words that name no example.
const USAGE: &str = "\
usage: examples [strings | adding | exchanger | pool | jobs | pipeline | server | buffers | moments | one_thread]
       examples parcels [trace | GIVES TAKES PATIENCE CAP]";

/// One of the programs.
#[derive(Clone, Copy)]
enum Example {
    Strings,
    Adding,
    Exchanger,
    Pool,
    Jobs,
    Pipeline,
    Server,
    Buffers,
    Moments,
    OneThread,
    Parcels,
}

/// All of the programs, in the order in which they run without a word.
const ALL: [Example; 11] = [
    Example::Strings,
    Example::Adding,
    Example::Exchanger,
    Example::Pool,
    Example::Jobs,
    Example::Pipeline,
    Example::Server,
    Example::Buffers,
    Example::Moments,
    Example::OneThread,
    Example::Parcels,
];

impl Example {
    /// Returns the program that this word names.
    fn of_word(word: &str) -> Option<Example> {
        match word {
            "strings" => Some(Example::Strings),
            "adding" => Some(Example::Adding),
            "exchanger" => Some(Example::Exchanger),
            "pool" => Some(Example::Pool),
            "jobs" => Some(Example::Jobs),
            "pipeline" => Some(Example::Pipeline),
            "server" => Some(Example::Server),
            "buffers" => Some(Example::Buffers),
            "moments" => Some(Example::Moments),
            "one_thread" => Some(Example::OneThread),
            "parcels" => Some(Example::Parcels),
            _ => None,
        }
    }

    /// Runs it.
    fn run<R>(self, rt: &R, host: &HostRuntime) -> Result<()>
    where
        R: Threads + Wait + Clock + Print + Copy + Send + Sync + 'static,
    {
        let alloc = host.alloc();
        match self {
            Example::Strings => strings::run(rt, alloc)?,
            Example::Adding => adding::run(rt, alloc)?,
            Example::Exchanger => exchanger::run(rt, alloc)?,
            Example::Pool => pool::run(rt, alloc)?,
            Example::Jobs => jobs::run(rt, alloc)?,
            Example::Pipeline => pipeline::print_sum(rt, alloc)?,
            Example::Server => server::print_served(rt, alloc)?,
            Example::Buffers => buffers::print_rounds(rt, alloc)?,
            Example::Moments => moments::print_order(rt, alloc)?,
            Example::OneThread => one_thread::run(host)?,
            Example::Parcels => parcels::run(rt, host, parcels::COUNTED)?,
        }
        Ok(())
    }
}

/// Runs all of the programs.
fn run_all<R>(rt: &R, host: &HostRuntime) -> Result<()>
where
    R: Threads + Wait + Clock + Print + Copy + Send + Sync + 'static,
{
    for example in ALL {
        example.run(rt, host)?;
    }
    Ok(())
}

/// Runs what these words ask for, the program's name first. None if they name no example.
fn perform<R>(rt: &R, host: &HostRuntime, words: &[String]) -> Option<Result<()>>
where
    R: Threads + Wait + Clock + Print + Copy + Send + Sync + 'static,
{
    match words {
        [] | [_] => Some(run_all(rt, host)),
        [_, word] => Some(Example::of_word(word.as_str())?.run(rt, host)),
        [_, word, rest @ ..] if word.as_str() == "parcels" => {
            let asked = parcels::asked_by(rest)?;
            Some(parcels::run(rt, host, asked))
        },
        _ => None,
    }
}

fn main(rt: HostRuntime) -> Result<ExitCode> {
    let words: Vec<String> = env::args(&rt)?.collect(rt.alloc())?;
    match perform(&rt, &rt, words.as_slice()) {
        Some(done) => done.map(|_| ExitCode::from(0)),
        None => {
            eprintln!(&rt; "{USAGE}")?;
            Ok(ExitCode::from(2))
        }
    }
}
