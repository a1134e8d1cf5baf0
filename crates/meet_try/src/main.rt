//! What `bin/meet` runs for queues' scripts, traces and chains while `meet` isn't built: these stand on few crates, so
//! they are compiled in a fraction of the time. It takes one word, the name of a task; its input, its output and its
//! exit statuses are those of `meet`.
#![tactic(auto)]

ghost use Rattle.std.specs.Prelude.{◌≡◌, IfSome};
ghost use Rattle.std.specs.Process.{exit_status};
ghost use Rattle.meet_run.specs.Texts.Faults.{status_of};
ghost use Rattle.meet_try.specs.Tasks.{Performs};

mod tasks;

use meet_run::{
    Blocks, RunFault, check_chain, check_trace, erase_trace, report_of, run_script, run_trace,
};
use meet_tickets::Refusal;
use std::alloc::Global;
use std::io::{Read, Write};
use std::process::ExitCode;
use std::{env, io};
use tasks::{Task, task_of};

/// The words of the command line, the program's name first.
fn words(rt: &HostRuntime) -> io::Result<Vec<String>> {
    let words = env::args(rt)?.collect(rt.alloc())?;
    Ok(words)
}

/// Does a task, with what this reader gives.
fn perform<R: Read, W: Write>(
    alloc: Global,
    reader: &mut R,
    writer: &mut W,
    task: Task,
) -> Result<bool, RunFault>
    ensures { IfSome (R.remaining reader.old) (λ input.
        Performs task input result (W.contents writer.old) (W.contents writer.new)) }
{
    match task {
        Task::Run => run_script(alloc, reader, writer),
        Task::Trace => run_trace(alloc, reader, writer),
        Task::Check => check_trace(alloc, reader, writer),
        Task::Erase => erase_trace(alloc, reader, writer),
        Task::Chain => check_chain(alloc, reader, writer),
    }
}

/// Does a task with standard input and standard output.
fn perform_here(rt: &HostRuntime, task: Task) -> Result<bool, RunFault> {
    let Ok(mut reader) = Blocks::new(rt.alloc(), rt.stdin()) else {
        return Err(RunFault {
            why: Refusal::Memory,
            line: None,
        });
    };
    perform(rt.alloc(), &mut reader, &mut rt.stdout(), task)
}

/// Says on standard error how a task failed, if it did, and gives the exit status.
fn finish(rt: &HostRuntime, outcome: &Result<bool, RunFault>) -> ExitCode
    ensures { exit_status result ≡ status_of outcome.now }
{
    let report = report_of(outcome);
    let _ = rt.stderr().write_all(report.line.as_slice());
    ExitCode::from(report.status)
}

fn main(rt: HostRuntime) -> ExitCode {
    let task = match words(&rt) {
        Ok(words) => words.get(1).and_then(|word| task_of(word.as_str())),
        Err(_) => None,
    };
    match task {
        Some(task) => finish(&rt, &perform_here(&rt, task)),
        None => {
            let _ = eprintln!(rt; "meet_try: it takes one word: run, trace, check, erase or chain");
            ExitCode::from(2)
        }
    }
}
