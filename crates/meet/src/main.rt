//! The program `meet`: a script of calls on standard input, their replies or their trace on standard output; or a trace
//! on standard input, what is found of it on standard output, as text or drawn; or calls that overlap, and a history
//! that explains them; or threads at a queue, and what came of it.
#![tactic(auto)]

ghost use Rattle.std.specs.Prelude.{◌≡◌, IfSome};
ghost use Rattle.std.specs.Process.{exit_status};
ghost use Rattle.meet_run.specs.Texts.Faults.{status_of};
ghost use Rattle.meet.specs.Tasks.{Performs};

mod command_line;

use clap::error::ErrorKind;
use command_line::{Task, Wanted, wanted_of};
use meet_draw::draw_trace;
use meet_drive::{Progress, run_drive};
use meet_explain::explain_trace;
use meet_judge::judge_calls;
use meet_run::{
    Blocks, RunFault, check_chain, check_trace, erase_trace, report_of, run_script, run_trace,
};
use meet_sum::sum_trace;
use meet_tickets::Refusal;
use pool_run::{check_pool_trace, run_pool, run_pool_drive, trace_pool};
use std::alloc::{AllocError, Global};
use std::io::{IsTerminal, Read, Write};
use std::process::ExitCode;
use std::{env, io};

/// A failed allocation outside any line.
const MEMORY: RunFault = RunFault {
    why: Refusal::Memory,
    line: None,
};

/// The words of the command line, the program's name first.
fn words(rt: &HostRuntime) -> io::Result<Vec<String>> {
    let words = env::args(rt)?.collect(rt.alloc())?;
    Ok(words)
}

/// Does what is asked, with what this reader gives.
fn perform<R: Read, W: Write>(
    alloc: Global,
    reader: &mut R,
    writer: &mut W,
    task: &Task,
) -> Result<bool, RunFault>
    ensures { IfSome (R.remaining reader.old) (λ input.
        Performs task.now input result (W.contents writer.old) (W.contents writer.new)) }
{
    match task {
        Task::Run => run_script(alloc, reader, writer),
        Task::Trace => run_trace(alloc, reader, writer),
        Task::Check => check_trace(alloc, reader, writer),
        Task::Erase => erase_trace(alloc, reader, writer),
        Task::Chain => check_chain(alloc, reader, writer),
        Task::Explain => explain_trace(alloc, reader, writer),
        Task::Draw(style, width) => draw_trace(alloc, reader, writer, *style, *width),
        Task::Sum => sum_trace(alloc, reader, writer),
        Task::Judge => judge_calls(alloc, reader, writer),
        Task::PoolRun => run_pool(alloc, reader, writer),
        Task::PoolTrace => trace_pool(alloc, reader, writer),
        Task::PoolCheck => check_pool_trace(alloc, reader, writer),
    }
}

/// Does what is asked with standard input and standard output.
fn perform_here(rt: &HostRuntime, task: &Task) -> Result<bool, RunFault> {
    let Ok(mut reader) = Blocks::new(rt.alloc(), rt.stdin()) else {
        return Err(MEMORY);
    };
    perform(rt.alloc(), &mut reader, &mut rt.stdout(), task)
}

/// Whether `meet explain` has more to say of a text: of a trace that isn't legal, and of a queue's text in which a line
/// can't be read.
fn can_be_explained(task: &Task, outcome: &Result<bool, RunFault>) -> bool {
    match outcome {
        Ok(legal) => matches!(task, Task::Check) && !*legal,
        Err(fault) => fault.line.is_some() && matches!(task, Task::Check | Task::Run | Task::Trace),
    }
}

/// The same; where a text can be explained, and standard error is a terminal, it says so there.
fn perform_told(rt: &HostRuntime, task: &Task) -> Result<bool, RunFault> {
    let outcome = perform_here(rt, task);
    if can_be_explained(task, &outcome) && rt.stderr().is_terminal() {
        let _ = eprintln!(rt; "meet: 'meet explain' says what may stand there");
    }
    outcome
}

/// Tells on standard error how far a drive is, where that is a terminal.
#[derive(Drop)]
struct Teller<'a> {
    rt: &'a HostRuntime,
}

impl Progress for Teller<'_> {
    fn tell(&self, taken: u64, all: u64) {
        if self.rt.stderr().is_terminal() {
            let _ = eprintln!(self.rt; "meet: {taken} of {all} items");
        }
    }
}

/// Whether these words end with the name of a text, or with `-`, as of who wants it read from a file: texts are read
/// from standard input alone.
fn name_a_text(words: &[String]) -> bool {
    let drives = words.iter().any(|word| word.as_str() == "drive");
    match words.last() {
        Some(word) => !drives && (word.as_str() == "-" || !word.as_str().starts_with('-')),
        None => false,
    }
}

/// Says on standard error how a run failed, if it did, and gives the exit status.
fn finish(rt: &HostRuntime, outcome: &Result<bool, RunFault>) -> ExitCode
    ensures { exit_status result ≡ status_of outcome.now }
{
    let report = report_of(outcome);
    let _ = rt.stderr().write_all(report.line.as_slice());
    ExitCode::from(report.status)
}

fn main(rt: HostRuntime) -> ExitCode {
    let words = match words(&rt) {
        Ok(words) => words,
        Err(error) if error.kind() == io::ErrorKind::OutOfMemory => {
            return finish(&rt, &Err(MEMORY));
        }
        Err(_) => {
            let _ = eprintln!(rt; "meet: the words of the command line can't be read");
            return ExitCode::from(2);
        }
    };
    match wanted_of(rt.alloc(), words.as_slice()) {
        Ok(Wanted::Text(task)) => finish(&rt, &perform_told(&rt, &task)),
        Ok(Wanted::Drive(givers, each)) => {
            finish(
                &rt,
                &run_drive(
                    &rt,
                    rt.alloc(),
                    &mut rt.stdout(),
                    givers,
                    each,
                    &Teller { rt: &rt },
                ),
            )
        }
        Ok(Wanted::PoolDrive(callers, each, workers)) => {
            finish(
                &rt,
                &run_pool_drive(&rt, rt.alloc(), &mut rt.stdout(), callers, each, workers),
            )
        }
        Err(error) if error.kind() == ErrorKind::OutOfMemory => finish(&rt, &Err(MEMORY)),
        Err(error) => {
            let _ = eprint!(rt; "{error}");
            if error.kind() == ErrorKind::UnknownArgument && name_a_text(words.as_slice()) {
                let _ = eprintln!(rt;
                    "\n  tip: a text is read from standard input, as by 'meet run < FILE'"
                );
            }
            ExitCode::from(2)
        }
    }
}
