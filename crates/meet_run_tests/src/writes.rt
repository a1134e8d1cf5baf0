//! Writes that fail, and how much is written at once.

use crate::doubles::{feed_of, sink_by};
use crate::tasks::{HANDOFF, Row, Task, cut, perform};
use meet_tickets::Refusal;
use std::alloc::Global;
use std::process::Abort;
use std::test::Fail;

/// A task whose write of this number fails, or takes no byte, has written the bytes before it.
fn breaks(rt: &impl Abort, alloc: Global, row: Row, failed: u64, gives_up: bool) {
    let (task, text, whole, _) = row;
    let mut reader = feed_of(text, 0);
    let mut writer = sink_by(alloc, 1);
    writer.failed_write = failed;
    writer.gives_up = gives_up;
    let end = perform(alloc, task, &mut reader, &mut writer);
    assert!(rt; end == cut(Refusal::WriteFault), "{task:?}, write {failed}");
    assert_eq!(rt; writer.bytes.len() as u64 + 1, failed);
    assert!(rt;
        whole.starts_with(writer.bytes.as_slice()),
        "{task:?}, write {failed}"
    );
}

/// A task writes each byte once, where its writer takes one at a time.
fn counts(rt: &impl Abort, alloc: Global, row: Row) {
    let (task, text, whole, _) = row;
    let mut reader = feed_of(text, 0);
    let mut writer = sink_by(alloc, 1);
    assert!(rt;
        perform(alloc, task, &mut reader, &mut writer) == Ok(true),
        "{task:?}"
    );
    assert!(rt; writer.bytes.as_slice() == whole, "{task:?}");
    assert_eq!(rt; writer.writes, whole.len() as u64);
}

#[test]
fn writes_that_fail(rt: HostRuntime) {
    for row in HANDOFF {
        for failed in 1..=row.2.len() as u64 {
            breaks(&rt, rt.alloc(), row, failed, false);
            breaks(&rt, rt.alloc(), row, failed, true);
        }
        counts(&rt, rt.alloc(), row);
    }
}

/// A script of a thousand calls with the longest numbers, and its trace.
fn long_texts(alloc: Global) -> Result<(Vec<u8>, Vec<u8>), Fail> {
    let mut script = Vec::new(alloc);
    let mut trace = Vec::new(alloc);
    script.extend_from_slice(b"fair first 9223372036854774807\n")?;
    trace.extend_from_slice(b"trace 1 fair\n")?;
    for number in 4807..5807u64 {
        script.extend_from_slice(b"63 offer 18446744073709551615\n")?;
        trace.extend_from_slice(b"63 922337203685477")?;
        trace.extend_from_slice(format!(in alloc; "{number}")?.as_bytes())?;
        trace.extend_from_slice(b" give-fails 18446744073709551615\n")?;
    }
    Ok((script, trace))
}

/// A trace is written in blocks, however long it is.
#[test]
fn a_long_trace(rt: HostRuntime) -> Result<(), Fail> {
    let alloc = rt.alloc();
    let (script, trace) = long_texts(alloc)?;
    let mut reader = script.as_slice();
    let mut writer = sink_by(alloc, 100_000);
    assert!(rt; perform(alloc, Task::Trace, &mut reader, &mut writer) == Ok(true));
    assert!(rt; writer.bytes == trace);
    // Some 57,000 bytes, by blocks of 8,192 and a line more at most.
    assert_eq!(rt; writer.writes, 7);
    let mut reader = trace.as_slice();
    let mut found = Vec::new(alloc);
    assert!(rt; perform(alloc, Task::Check, &mut reader, &mut found) == Ok(true));
    assert!(rt; found.as_slice() == b"legal 1000 waiting 0 uncollected 0 kept 0\n".as_slice());
    Ok(())
}
