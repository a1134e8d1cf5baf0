//! What is left of traces once the tickets that were cut, taken back or refused at their entry are erased.

use crate::tasks::{Task, perform};
use meet_run::RunFault;
use meet_tickets::Refusal;
use std::alloc::Global;
use std::process::Abort;

/// A script's trace is erased to this, of which this is found.
fn leaves(rt: &impl Abort, alloc: Global, script: &[u8], left: &[u8], found: &[u8]) {
    let mut reader = script;
    let mut trace = Vec::new(alloc);
    assert!(rt; perform(alloc, Task::Trace, &mut reader, &mut trace) == Ok(true));
    let mut reader = trace.as_slice();
    let mut written = Vec::new(alloc);
    assert!(rt; perform(alloc, Task::Erase, &mut reader, &mut written) == Ok(true));
    assert!(rt; written.as_slice() == left);
    let mut reader = left;
    let mut checked = Vec::new(alloc);
    assert!(rt; perform(alloc, Task::Check, &mut reader, &mut checked) == Ok(true));
    assert!(rt; checked.as_slice() == found);
}

#[test]
fn a_ticket_that_was_cut(rt: HostRuntime) {
    leaves(
        &rt,
        rt.alloc(),
        b"fair\n0 take\n1 interrupt 0\n0 follow\n2 offer 4\n",
        b"trace 1 fair\n2 2 give-fails 4\n",
        b"legal 1 waiting 0 uncollected 0 kept 0\n",
    );
}

#[test]
fn a_ticket_that_expired(rt: HostRuntime) {
    leaves(
        &rt,
        rt.alloc(),
        b"fair\n0 put 1\n1 put 2\n2 put 3\n1 expire\n3 take\n4 take\n",
        b"trace 1 fair\n0 1 give-waits 1\n2 3 give-waits 3\n3 4 take-meets 1 1\n4 5 take-meets 3 3\n",
        b"legal 4 waiting 0 uncollected 2 kept 0\n",
    );
}

#[test]
fn a_ticket_that_was_refused_at_its_entry(rt: HostRuntime) {
    leaves(
        &rt,
        rt.alloc(),
        b"fair\n0 take\n1 put 4\n2 interrupt 0\n0 follow\n0 take\n",
        b"trace 1 fair\n0 1 take-waits\n1 2 give-meets 4 1\n0 1 got 4 2\n",
        b"legal 3 waiting 0 uncollected 0 kept 0\n",
    );
}

#[test]
fn a_bound_that_was_reached(rt: HostRuntime) {
    leaves(
        &rt,
        rt.alloc(),
        b"transfer bound 1\n0 transfer 1\n1 put 2\n0 cancel\n2 put 3\n",
        b"trace 1 transfer bound 1\n1 2 give-kept 2\n2 3 give-fails 3\n",
        b"legal 2 waiting 0 uncollected 0 kept 1\n",
    );
}

/// A trace ends like this, and this is written of it.
fn ends(rt: &impl Abort, alloc: Global, trace: &[u8], end: Result<bool, RunFault>, text: &[u8]) {
    let mut reader = trace;
    let mut written = Vec::new(alloc);
    assert!(rt; perform(alloc, Task::Erase, &mut reader, &mut written) == end);
    assert!(rt; written.as_slice() == text);
}

fn bad_line(number: u64) -> Result<bool, RunFault> {
    Err(RunFault {
        why: Refusal::BadTrace,
        line: Some(number),
    })
}

#[test]
fn traces_that_are_illegal_or_none(rt: HostRuntime) {
    let alloc = rt.alloc();
    ends(&rt, alloc, b"", bad_line(1), b"");
    ends(&rt, alloc, b"trace 1 fair\n", Ok(true), b"trace 1 fair\n");
    ends(&rt, alloc, b"trace 1 fair\n0 1 gives 3\n", bad_line(2), b"");
    ends(&rt, alloc, b"trace 2 fair\nbase 0 0\n", bad_line(1), b"");
    ends(
        &rt,
        alloc,
        b"trace 2 fair\nbase 0 0\n0 1 gives 3\n",
        bad_line(1),
        b"",
    );
    ends(
        &rt,
        alloc,
        b"trace 1 fair\n0 1 done\n",
        Ok(false),
        b"illegal 1 NotOpen\n",
    );
    ends(
        &rt,
        alloc,
        b"trace 1 fair\n0 1 done\n0 1 gives 3\n",
        bad_line(3),
        b"",
    );
}
