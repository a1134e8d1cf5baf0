//! What is done with a text, and what comes of it.

use meet_run::{
    MOST_READS, RunFault, check_chain_within, check_trace_within, erase_trace_within,
    run_script_within, run_trace_within,
};
use meet_tickets::Refusal;
use std::alloc::Global;
use std::io::{Read, Write};

/// What is done with a text.
#[derive(Clone, Copy, Debug)]
pub enum Task {
    Run,
    Trace,
    Check,
    Erase,
    Chain,
}

/// A task, its text, all that is written, and what of this is written before the end of the text is read.
pub type Row = (Task, &'static [u8], &'static [u8], &'static [u8]);

const SCRIPT: &[u8] = b"fair\n0 put 5\n1 take\n0 follow\n";

const REPLIES: &[u8] = b"1 0 t1 waits\n2 1 t2 got 5 from t1\n3 0 t1 done\n";

const WHOLE: &[u8] =
    b"1 0 t1 waits\n2 1 t2 got 5 from t1\n3 0 t1 done\nlegal 3 waiting 0 uncollected 0 kept 0\n";

const TRACE: &[u8] = b"trace 1 fair\n0 1 give-waits 5\n1 2 take-meets 5 1\n0 1 done\n";

const FOUND: &[u8] = b"legal 3 waiting 0 uncollected 0 kept 0\n";

const CHAIN: &[u8] =
    b"trace 1 fair\n0 1 give-waits 5\ntrace 2 fair\nbase 1 1\nline 0 1 give 5 waits\n1 2 take-meets 5 1\n0 1 done\n";

/// A handoff, as each task has it.
pub const HANDOFF: [Row; 5] = [
    (Task::Run, SCRIPT, WHOLE, REPLIES),
    (Task::Trace, SCRIPT, TRACE, b""),
    (Task::Check, TRACE, FOUND, b""),
    (Task::Erase, TRACE, TRACE, b""),
    (Task::Chain, CHAIN, FOUND, b""),
];

/// Does a task within so many reads.
pub fn perform_within<R: Read, W: Write>(
    alloc: Global,
    task: Task,
    reader: &mut R,
    writer: &mut W,
    turns: u64,
) -> Result<bool, RunFault> {
    match task {
        Task::Run => run_script_within(alloc, reader, writer, turns),
        Task::Trace => run_trace_within(alloc, reader, writer, turns),
        Task::Check => check_trace_within(alloc, reader, writer, turns),
        Task::Erase => erase_trace_within(alloc, reader, writer, turns),
        Task::Chain => check_chain_within(alloc, reader, writer, turns),
    }
}

/// Does a task within as many reads as there may be.
pub fn perform<R: Read, W: Write>(
    alloc: Global,
    task: Task,
    reader: &mut R,
    writer: &mut W,
) -> Result<bool, RunFault> {
    perform_within(alloc, task, reader, writer, MOST_READS)
}

/// The end of a run that a fault cut short.
pub fn cut(why: Refusal) -> Result<bool, RunFault> {
    Err(RunFault { why, line: None })
}
