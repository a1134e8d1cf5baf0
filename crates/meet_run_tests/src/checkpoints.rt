//! Scripts with checkpoints.

use meet_run::{RunFault, check_trace, run_script, run_trace};
use meet_tickets::Refusal;
use std::alloc::Global;
use std::process::Abort;
use std::test::Fail;

pub const SCRIPT: &[u8] =
    b"fair cap 5\n0 put 1\n1 put 2\n2 checkpoint\n2 put 3\n3 take\n4 checkpoint\n3 take\n0 follow\n";

pub const REPLIES: &[u8] =
    b"1 0 t1 waits\n2 1 t2 waits\n- 2 base 2\n3 2 t3 waits\n- 3 refused HistoryFull\n- 4 base 3\n4 3 t4 got 1 from t1\n5 0 t1 done\nlegal 5 waiting 2 uncollected 0 kept 0\n";

pub const TRACE: &[u8] =
    b"trace 2 fair\nbase 3 3\nline 0 1 give 1 waits\nline 1 2 give 2 waits\nline 2 3 give 3 waits\n3 4 take-meets 1 1\n0 1 done\n";

#[test]
fn a_history_has_room_again(rt: HostRuntime) -> Result<(), Fail> {
    let alloc = rt.alloc();
    let mut reader = SCRIPT;
    let mut written = Vec::with_capacity(alloc, 1024)?;
    assert!(rt; run_script(alloc, &mut reader, &mut written) == Ok(true));
    assert!(rt; written.as_slice() == REPLIES);
    Ok(())
}

#[test]
fn its_trace_has_a_base(rt: HostRuntime) -> Result<(), Fail> {
    let alloc = rt.alloc();
    let mut reader = SCRIPT;
    let mut written = Vec::with_capacity(alloc, 1024)?;
    assert!(rt; run_trace(alloc, &mut reader, &mut written) == Ok(true));
    assert!(rt; written.as_slice() == TRACE);
    Ok(())
}

#[test]
fn no_record_yet(rt: HostRuntime) -> Result<(), Fail> {
    let alloc = rt.alloc();
    let text: &[u8] =
        b"unfair\n3 checkpoint\n0 take\n1 interrupt 0\n1 interrupt 2\n4 checkpoint\n0 follow";
    let mut reader = text;
    let mut written = Vec::with_capacity(alloc, 1024)?;
    assert!(rt; run_trace(alloc, &mut reader, &mut written) == Ok(true));
    let whole: &[u8] =
        b"trace 2 unfair\nbase 3 1\ncut 0 1 take\nflag 2\n0 1 withdrawn interrupted\n";
    assert!(rt; written.as_slice() == whole);
    let mut reader = text;
    written.clear();
    assert!(rt; run_script(alloc, &mut reader, &mut written) == Ok(true));
    let whole: &[u8] =
        b"- 3 base 0\n1 0 t1 waits\n2 1 interrupt 0 cut t1\n3 1 interrupt 2 flagged\n- 4 base 3\n4 0 t1 interrupted\nlegal 4 waiting 0 uncollected 0 kept 0\n";
    assert!(rt; written.as_slice() == whole);
    Ok(())
}

/// What is found of this trace.
fn finds(
    rt: &impl Abort,
    alloc: Global,
    trace: &[u8],
    end: Result<bool, RunFault>,
    text: &[u8],
) -> Result<(), Fail> {
    let mut reader = trace;
    let mut written = Vec::with_capacity(alloc, 1024)?;
    assert!(rt; check_trace(alloc, &mut reader, &mut written) == end);
    assert!(rt; written.as_slice() == text);
    Ok(())
}

/// A fault of a line.
fn bad_trace(line: u64) -> Result<bool, RunFault> {
    Err(RunFault {
        why: Refusal::BadTrace,
        line: Some(line),
    })
}

#[test]
fn a_trace_with_a_base(rt: HostRuntime) -> Result<(), Fail> {
    let alloc = rt.alloc();
    finds(
        &rt,
        alloc,
        TRACE,
        Ok(true),
        b"legal 5 waiting 2 uncollected 0 kept 0\n",
    )?;
    let exchanged: &[u8] =
        b"trace 2 fair\nbase 3 3\nline 1 2 give 2 waits\nline 0 1 give 1 waits\nline 2 3 give 3 waits\n3 4 take-meets 1 1\n0 1 done\n";
    finds(&rt, alloc, exchanged, bad_trace(4), b"")?;
    let illegal: &[u8] =
        b"trace 2 fair\nbase 3 3\nline 0 1 give 1 waits\nline 1 2 give 2 waits\nline 2 3 give 3 waits\n3 4 take-meets 1 1\n0 1 done\n5 2 done\n";
    finds(&rt, alloc, illegal, Ok(false), b"illegal 6 NotOpen\n")?;
    Ok(())
}

#[test]
fn faults_of_bases(rt: HostRuntime) -> Result<(), Fail> {
    let alloc = rt.alloc();
    finds(&rt, alloc, b"trace 2 fair", bad_trace(2), b"")?;
    finds(
        &rt,
        alloc,
        b"trace 2 fair\nbase 0 0",
        Ok(true),
        b"legal 0 waiting 0 uncollected 0 kept 0\n",
    )?;
    finds(
        &rt,
        alloc,
        b"trace 2 unfair\nbase 3 1\ncut 0 1 take\nflag 2\n0 1 withdrawn interrupted\n",
        Ok(true),
        b"legal 4 waiting 0 uncollected 0 kept 0\n",
    )?;
    finds(
        &rt,
        alloc,
        b"trace 2 fair\nbase 3 3\nflag 2\nflag 2",
        bad_trace(4),
        b"",
    )?;
    finds(
        &rt,
        alloc,
        b"trace 2 fair\nbase 3 3\nline 2 1 take\nflag 2",
        bad_trace(4),
        b"",
    )?;
    finds(
        &rt,
        alloc,
        b"trace 2 fair\nbase 3 3\nline 2 1 take\nline 3 2 give 5 waits",
        bad_trace(4),
        b"",
    )?;
    finds(
        &rt,
        alloc,
        b"trace 2 fair\nbase 3 3\nline 2 4 take",
        bad_trace(3),
        b"",
    )?;
    finds(
        &rt,
        alloc,
        b"trace 2 fair\nbase 3 3\npair 2 1 take 1 5",
        bad_trace(3),
        b"",
    )?;
    finds(
        &rt,
        alloc,
        b"trace 2 fair\nbase 3 3\npair 2 1 take 2 5\nline 3 3 take",
        bad_trace(4),
        b"",
    )?;
    finds(
        &rt,
        alloc,
        b"trace 2 fair\nbase 3 3\nline 2 1 give 1 kept",
        bad_trace(3),
        b"",
    )?;
    finds(
        &rt,
        alloc,
        b"trace 2 transfer bound 1\nbase 3 3\nline 2 1 give 1 kept\nline 2 2 give 1 kept",
        bad_trace(4),
        b"",
    )?;
    Ok(())
}
