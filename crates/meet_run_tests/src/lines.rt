//! A line that is none, however far down it stands.

use crate::doubles::feed_of;
use crate::tasks::{Task, perform};
use meet_run::RunFault;
use meet_tickets::Refusal;
use std::alloc::Global;
use std::process::Abort;

/// The first line of a script, and polls up to this line.
fn polls_before(rt: &impl Abort, alloc: Global, line: u64) -> Vec<u8> {
    let mut text = Vec::new(alloc);
    text.extend_from_slice(b"fair\n").expect(rt, "no memory");
    for _ in 2..line {
        text.extend_from_slice(b"0 poll\n").expect(rt, "no memory");
    }
    text
}

/// A task that reads such a line, with this number, ends with a fault of it; how many lines it wrote.
fn ends_at(rt: &impl Abort, alloc: Global, task: Task, before: Vec<u8>, line: u64) -> u64 {
    let mut text = before;
    text.extend_from_slice(b"0 pull\n0 poll\n")
        .expect(rt, "no memory");
    let mut reader = feed_of(text.as_slice(), 0);
    let mut written = Vec::new(alloc);
    let end = perform(alloc, task, &mut reader, &mut written);
    let why = match task {
        Task::Check => Refusal::BadTrace,
        _ => Refusal::BadLine,
    };
    let fault = RunFault {
        why,
        line: Some(line),
    };
    assert!(rt; end == Err(fault), "{task:?}, line {line}");
    written.iter().filter(|byte| **byte == b'\n').count() as u64
}

/// The trace of the polls up to this line: a line for the place, and one for each poll.
fn trace_before(rt: &impl Abort, alloc: Global, line: u64) -> Vec<u8> {
    let script = polls_before(rt, alloc, line);
    let mut reader = feed_of(script.as_slice(), 0);
    let mut written = Vec::new(alloc);
    let end = perform(alloc, Task::Trace, &mut reader, &mut written);
    assert!(rt; end == Ok(true));
    written
}

/// In a script a line that is none ends the run behind a reply, or a record, for each line before it. In a trace it
/// ends the check, which finds nothing.
#[test]
fn faulty_lines_far_down(rt: HostRuntime) {
    let alloc = rt.alloc();
    for line in [2, 3, 99, 100, 101, 256, 1_000, 5_000] {
        let script = polls_before(&rt, alloc, line);
        let replies = ends_at(&rt, alloc, Task::Run, script, line);
        assert_eq!(rt; replies.wrapping_add(2), line);
        let script = polls_before(&rt, alloc, line);
        let lines = ends_at(&rt, alloc, Task::Trace, script, line);
        assert_eq!(rt; lines.wrapping_add(1), line);
        let trace = trace_before(&rt, alloc, line);
        let found = ends_at(&rt, alloc, Task::Check, trace, line);
        assert_eq!(rt; found, 0);
    }
}
