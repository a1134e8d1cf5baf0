//! Reads that fail, reads that are counted, and texts without an end.

use crate::doubles::feed_of;
use crate::tasks::{HANDOFF, Row, Task, cut, perform, perform_within};
use meet_run::RunFault;
use meet_tickets::Refusal;
use std::alloc::Global;
use std::process::Abort;

/// A task whose read of this number fails writes a prefix of what comes before the end of its text.
fn breaks(rt: &impl Abort, alloc: Global, row: Row, failed: u64) {
    let (task, text, _, before) = row;
    let mut written = Vec::new(alloc);
    let mut reader = feed_of(text, failed);
    let end = perform(alloc, task, &mut reader, &mut written);
    assert!(rt; end == cut(Refusal::ReadFault), "{task:?}, read {failed}");
    assert!(rt;
        before.starts_with(written.as_slice()),
        "{task:?}, read {failed}"
    );
}

/// A task reads each byte of its text once, and its end once: it may have no read less.
fn counts(rt: &impl Abort, alloc: Global, row: Row, reads: u64) {
    let (task, text, whole, _) = row;
    let mut written = Vec::new(alloc);
    let mut reader = feed_of(text, 0);
    let end = perform_within(alloc, task, &mut reader, &mut written, reads);
    assert!(rt; end == Ok(true), "{task:?}");
    assert!(rt; written.as_slice() == whole, "{task:?}");
    assert_eq!(rt; reader.reads, reads);
    let mut reader = feed_of(text, 0);
    let end = perform_within(
        alloc,
        task,
        &mut reader,
        &mut written,
        reads.wrapping_sub(1),
    );
    assert!(rt; end == cut(Refusal::ReadFault), "{task:?}");
    assert_eq!(rt; reader.reads.wrapping_add(1), reads);
}

#[test]
fn reads_that_fail(rt: HostRuntime) {
    for row in HANDOFF {
        let reads = row.1.len() as u64 + 1;
        for failed in 1..=reads {
            breaks(&rt, rt.alloc(), row, failed);
        }
        counts(&rt, rt.alloc(), row, reads);
    }
}

#[test]
fn replies_before_the_next_line(rt: HostRuntime) {
    let mut reader = feed_of(b"fair\n0 put 5\n", 14);
    let mut written = Vec::new(rt.alloc());
    let end = perform(rt.alloc(), Task::Run, &mut reader, &mut written);
    assert!(rt; end == cut(Refusal::ReadFault));
    assert!(rt; written.as_slice() == b"1 0 t1 waits\n".as_slice());
}

/// A task without a turn reads nothing and writes nothing.
fn without_a_turn(rt: &impl Abort, alloc: Global, row: Row) {
    let (task, text, _, _) = row;
    let mut written = Vec::new(alloc);
    let mut reader = feed_of(text, 0);
    let end = perform_within(alloc, task, &mut reader, &mut written, 0);
    assert!(rt; end == cut(Refusal::ReadFault), "{task:?}");
    assert_eq!(rt; reader.reads, 0);
    assert!(rt; written.is_empty(), "{task:?}");
}

#[test]
fn no_read_at_all(rt: HostRuntime) {
    for row in HANDOFF {
        without_a_turn(&rt, rt.alloc(), row);
    }
}

/// A script whose second line goes on without an end takes so many reads of those that it may have, and writes nothing.
fn goes_on(rt: &impl Abort, alloc: Global, turns: u64, reads: u64, wanted: Result<bool, RunFault>) {
    let mut reader = feed_of(b"fair\n0 put 1", 0);
    reader.endless = Some(b'0');
    let mut written = Vec::new(alloc);
    let end = perform_within(alloc, Task::Run, &mut reader, &mut written, turns);
    assert!(rt; end == wanted);
    assert_eq!(rt; reader.reads, reads);
    assert!(rt; written.is_empty());
}

#[test]
fn a_line_without_an_end(rt: HostRuntime) {
    // The first line alone.
    goes_on(&rt, rt.alloc(), 5, 5, cut(Refusal::ReadFault));
    goes_on(&rt, rt.alloc(), 20, 20, cut(Refusal::ReadFault));
    let fault = RunFault {
        why: Refusal::BadLine,
        line: Some(2),
    };
    // The first line, and 129 bytes of the second.
    goes_on(&rt, rt.alloc(), 200, 134, Err(fault));
}
