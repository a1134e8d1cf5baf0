//! Reads and writes that fail, and lines that are none.

use crate::doubles::{Sink, feed_of};
use meet_judge::judge_calls;
use meet_run::RunFault;
use meet_tickets::Refusal;
use std::alloc::Global;
use std::io::ErrorKind;
use std::process::Abort;

/// Calls, what is found of them, and all that is written.
type Row = (&'static [u8], bool, &'static [u8]);

const EXPLAINED: &[u8] = b"calls 1 fair
0 10 @14 25 put 5 done
1 12 20 take got 5
2 30 31 poll none
3 40 90 offer-for 6 expired
";

const TRACE: &[u8] = b"trace 1 fair
0 1 give-waits 5
1 2 take-meets 5 1
0 1 done
2 3 take-fails
3 4 give-waits 6
3 4 withdrawn expired
";

const REFUSED: &[u8] = b"calls 1 fair
0 10 @14 25 put 5 done
1 12 20 take got 6
";

const REASON: &[u8] = b"refused line 3: item 6 was got but never given in time
";

/// A history explains these calls, and none the others.
const ROWS: [Row; 2] = [(EXPLAINED, true, TRACE), (REFUSED, false, REASON)];

/// The end of a judge that a fault cut short.
fn cut(why: Refusal) -> Result<bool, RunFault> {
    Err(RunFault { why, line: None })
}

/// Calls are judged whose read of this number fails so: the end, and nothing is written.
fn judged_of(
    rt: &impl Abort,
    alloc: Global,
    text: &[u8],
    failed: u64,
    kind: ErrorKind,
) -> Result<bool, RunFault> {
    let mut reader = feed_of(text, failed, kind);
    let mut written = Vec::new(alloc);
    let end = judge_calls(alloc, &mut reader, &mut written);
    assert!(rt; written.is_empty(), "read {failed}");
    end
}

/// Each byte is read once, and then the end. If a read fails, no call is judged, and the error says why.
#[test]
fn reads_that_fail(rt: HostRuntime) {
    let alloc = rt.alloc();
    for (text, _, _) in ROWS {
        let reads = text.len() as u64 + 1;
        for failed in 1..=reads {
            let end = judged_of(&rt, alloc, text, failed, ErrorKind::BrokenPipe);
            assert!(rt; end == cut(Refusal::ReadFault), "read {failed}");
            let end = judged_of(&rt, alloc, text, failed, ErrorKind::OutOfMemory);
            assert!(rt; end == cut(Refusal::Memory), "read {failed}");
        }
    }
}

/// A writer whose write of this number fails, or takes no byte; 0 for none.
fn sink_of(alloc: Global, failed_write: u64, gives_up: bool) -> Sink {
    Sink {
        bytes: Vec::new(alloc),
        writes: 0,
        failed_write,
        gives_up,
    }
}

/// A verdict is written byte by byte. If a write fails, or takes no byte, a part of it was written, and the error says
/// so.
fn writes(rt: &impl Abort, alloc: Global, row: Row, failed: u64, gives_up: bool) {
    let (text, _, whole) = row;
    let mut reader = feed_of(text, 0, ErrorKind::BrokenPipe);
    let mut writer = sink_of(alloc, failed, gives_up);
    let end = judge_calls(alloc, &mut reader, &mut writer);
    assert!(rt; end == cut(Refusal::WriteFault), "write {failed}");
    assert!(rt; whole.starts_with(writer.bytes.as_slice()));
}

#[test]
fn writes_that_fail(rt: HostRuntime) {
    let alloc = rt.alloc();
    for row in ROWS {
        let (text, found, whole) = row;
        let mut reader = feed_of(text, 0, ErrorKind::BrokenPipe);
        let mut writer = sink_of(alloc, 0, false);
        let end = judge_calls(alloc, &mut reader, &mut writer);
        assert!(rt; end == Ok(found));
        assert!(rt; writer.bytes.as_slice() == whole);
        for failed in 1..=whole.len() as u64 {
            writes(&rt, alloc, row, failed, false);
            writes(&rt, alloc, row, failed, true);
        }
    }
}

/// A text of polls, and then a line of this number that is no call; behind it stands another call.
fn polls_before(rt: &impl Abort, alloc: Global, line: u64, faulty: &[u8]) -> Vec<u8> {
    let mut text = Vec::new(alloc);
    text.extend_from_slice(b"calls 1 fair\n")
        .expect(rt, "no memory");
    for _ in 2..line {
        text.extend_from_slice(b"0 1 2 poll none\n")
            .expect(rt, "no memory");
    }
    text.extend_from_slice(faulty).expect(rt, "no memory");
    text.extend_from_slice(b"0 3 4 poll none\n")
        .expect(rt, "no memory");
    text
}

/// What is no call of these texts: a word that is none, a word of another place, a second space, a number of more than
/// 64 bits, an earlier begin, and what an answer or a call is never told by.
const FAULTY: [&[u8]; 9] = [
    b"0 1 2 pull none\n",
    b"0 1 2 transfer 5 done\n",
    b"0 1  2 poll none\n",
    b"0 1 18446744073709551616 poll none\n",
    b"0 0 2 poll none\n",
    b"0 1 2 keep 5 done\n",
    b"0 1 2 interrupt 1 went\n",
    b"0 1 2 put 5 made\n",
    b"\n",
];

#[test]
fn lines_that_are_none(rt: HostRuntime) {
    let alloc = rt.alloc();
    for faulty in FAULTY {
        for line in [3, 99, 100, 1_001] {
            let text = polls_before(&rt, alloc, line, faulty);
            let end = judged_of(&rt, alloc, text.as_slice(), 0, ErrorKind::BrokenPipe);
            let fault = RunFault {
                why: Refusal::BadLine,
                line: Some(line),
            };
            assert!(rt; end == Err(fault), "line {line}");
        }
    }
}

/// A first line that has a bound is none.
#[test]
fn a_first_line_with_a_bound(rt: HostRuntime) {
    let text = b"calls 1 transfer bound 5\n".as_slice();
    let end = judged_of(&rt, rt.alloc(), text, 0, ErrorKind::BrokenPipe);
    let fault = RunFault {
        why: Refusal::BadLine,
        line: Some(1),
    };
    assert!(rt; end == Err(fault));
}
