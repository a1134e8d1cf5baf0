//! A run that finds no memory ends with Memory, and what it wrote is a beginning of the whole text; the next run
//! writes the whole. `dev/check/refuse` runs these tests with each allocation refused in turn.

use crate::tasks::Task;
use crate::{chains, checkpoints};
use meet_run::{RunFault, check_chain, check_trace, erase_trace, run_script, run_trace};
use meet_tickets::Refusal;
use std::alloc::Global;
use std::process::Abort;
use std::test::Fail;

const SCRIPT: &[u8] =
    b"transfer bound 2\n0 put 1\n1 transfer 2\n0 put 3\n0 put 4\n2 take\n1 follow\n2 drain 5\n1 cancel\n";

const REPLIES: &[u8] =
    b"1 0 t1 kept\n2 1 t2 waits\n3 0 t3 kept\n4 0 t4 none 4\n5 2 t5 got 1 from t1\n- 1 notyet\n6 2 t6 got 2 from t2\n7 2 t7 got 3 from t3\n- 2 drained 2\n- 1 late\nlegal 7 waiting 0 uncollected 1 kept 0\n";

const TRACE: &[u8] =
    b"trace 1 transfer bound 2\n0 1 give-kept 1\n1 2 give-waits 2\n0 3 give-kept 3\n0 4 give-fails 4\n2 5 take-meets 1 1\n2 6 take-meets 2 2\n2 7 take-meets 3 3\n";

const FOUND: &[u8] = b"legal 7 waiting 0 uncollected 1 kept 0\n";

const CUT: &[u8] =
    b"trace 1 fair\n0 1 take-waits\n1 1 interrupt 0\n0 1 withdrawn interrupted\n2 2 give-fails 4\n";

/// Does a task on a text in memory.
fn perform(
    alloc: Global,
    task: Task,
    text: &[u8],
    written: &mut Vec<u8>,
) -> Result<bool, RunFault> {
    let mut reader = text;
    match task {
        Task::Run => run_script(alloc, &mut reader, written),
        Task::Trace => run_trace(alloc, &mut reader, written),
        Task::Check => check_trace(alloc, &mut reader, written),
        Task::Erase => erase_trace(alloc, &mut reader, written),
        Task::Chain => check_chain(alloc, &mut reader, written),
    }
}

/// Room for all that is written, at the second try where there was no memory at first.
fn paper(alloc: Global) -> Result<Vec<u8>, Fail> {
    match Vec::with_capacity(alloc, 1024) {
        Ok(paper) => Ok(paper),
        Err(_) => Ok(Vec::with_capacity(alloc, 1024).ok().ok_or("memory")?),
    }
}

/// What is written of a text, at the second try where there was no memory at first.
fn bears(
    rt: &impl Abort,
    alloc: Global,
    task: Task,
    text: &[u8],
    whole: &[u8],
) -> Result<(), Fail> {
    let mut written = paper(alloc)?;
    let mut end = perform(alloc, task, text, &mut written);
    if let Err(fault) = end {
        assert!(rt; fault.why == Refusal::Memory);
        assert!(rt; fault.line.is_none());
        assert!(rt; whole.starts_with(written.as_slice()));
        written.clear();
        end = perform(alloc, task, text, &mut written);
    }
    assert!(rt; end == Ok(true));
    assert!(rt; written.as_slice() == whole);
    Ok(())
}

#[test]
fn a_script(rt: HostRuntime) -> Result<(), Fail> {
    bears(&rt, rt.alloc(), Task::Run, SCRIPT, REPLIES)
}

#[test]
fn the_trace_of_a_script(rt: HostRuntime) -> Result<(), Fail> {
    bears(&rt, rt.alloc(), Task::Trace, SCRIPT, TRACE)
}

#[test]
fn a_trace(rt: HostRuntime) -> Result<(), Fail> {
    bears(&rt, rt.alloc(), Task::Check, TRACE, FOUND)
}

#[test]
fn a_chain(rt: HostRuntime) -> Result<(), Fail> {
    bears(&rt, rt.alloc(), Task::Chain, chains::CHAIN, chains::FOUND)
}

#[test]
fn a_script_with_checkpoints(rt: HostRuntime) -> Result<(), Fail> {
    bears(
        &rt,
        rt.alloc(),
        Task::Run,
        checkpoints::SCRIPT,
        checkpoints::REPLIES,
    )
}

#[test]
fn the_trace_of_a_script_with_checkpoints(rt: HostRuntime) -> Result<(), Fail> {
    bears(
        &rt,
        rt.alloc(),
        Task::Trace,
        checkpoints::SCRIPT,
        checkpoints::TRACE,
    )
}

#[test]
fn a_trace_with_a_base(rt: HostRuntime) -> Result<(), Fail> {
    bears(
        &rt,
        rt.alloc(),
        Task::Check,
        checkpoints::TRACE,
        b"legal 5 waiting 2 uncollected 0 kept 0\n",
    )
}

#[test]
fn what_is_left_of_a_trace(rt: HostRuntime) -> Result<(), Fail> {
    bears(
        &rt,
        rt.alloc(),
        Task::Erase,
        CUT,
        b"trace 1 fair\n2 2 give-fails 4\n",
    )
}
