//! One line that is read, and one text that is written.

use crate::doubles::{Feed, feed_of, sink_by};
use meet_run::text::output::write_whole;
use meet_run::text::reading::{LineRead, read_line};
use meet_tickets::Refusal;
use std::alloc::Global;
use std::process::Abort;
use std::test::Fail;

/// What comes of the next line, and what stands in it.
fn next(
    alloc: Global,
    reader: &mut Feed<'_>,
    turns: &mut u64,
) -> Result<(LineRead, Vec<u8>), Fail> {
    let mut line = Vec::with_capacity(alloc, 128)?;
    let came = read_line(reader, turns, &mut line);
    Ok((came, line))
}

/// Of these lines one after another this comes, and so many of the turns are used.
fn reads(
    rt: &impl Abort,
    alloc: Global,
    reader: &mut Feed<'_>,
    turns: u64,
    lines: &[(LineRead, &[u8])],
    used: u64,
) -> Result<(), Fail> {
    let mut left = turns;
    for (wanted, text) in lines {
        let (came, line) = next(alloc, reader, &mut left)?;
        assert_eq!(rt; came, *wanted);
        assert!(rt; line.as_slice() == *text);
    }
    assert_eq!(rt; turns.wrapping_sub(left), used);
    assert_eq!(rt; reader.reads, used);
    Ok(())
}

#[test]
fn lines(rt: HostRuntime) -> Result<(), Fail> {
    let mut reader = feed_of(b"fair\n\n1 take", 0);
    let rows: [(LineRead, &[u8]); 4] = [
        (LineRead::Line, b"fair"),
        (LineRead::Line, b""),
        (LineRead::Line, b"1 take"),
        (LineRead::End, b""),
    ];
    // Twelve bytes, and the end twice.
    reads(&rt, rt.alloc(), &mut reader, 100, &rows, 14)
}

#[test]
fn lines_that_break_off(rt: HostRuntime) -> Result<(), Fail> {
    let rows: [(LineRead, &[u8]); 2] = [(LineRead::Line, b"fair"), (LineRead::Failed, b"")];
    // The read behind the line fails, or has no turn.
    let mut reader = feed_of(b"fair\n", 6);
    reads(&rt, rt.alloc(), &mut reader, 100, &rows, 6)?;
    let mut reader = feed_of(b"fair\n", 0);
    reads(&rt, rt.alloc(), &mut reader, 5, &rows, 5)?;
    let rows: [(LineRead, &[u8]); 1] = [(LineRead::Failed, b"fa")];
    let mut reader = feed_of(b"fair\n", 3);
    reads(&rt, rt.alloc(), &mut reader, 100, &rows, 3)
}

#[test]
fn long_lines(rt: HostRuntime) -> Result<(), Fail> {
    let longest = [b'x'; 128];
    let mut text = [b'x'; 129];
    text[128] = b'\n';
    let rows: [(LineRead, &[u8]); 1] = [(LineRead::Line, &longest)];
    reads(&rt, rt.alloc(), &mut feed_of(&text, 0), 500, &rows, 129)?;
    // The fault comes with byte 129, whatever follows it.
    let mut reader = feed_of(b"", 0);
    reader.endless = Some(b'x');
    let rows: [(LineRead, &[u8]); 1] = [(LineRead::TooLong, &longest)];
    reads(&rt, rt.alloc(), &mut reader, 500, &rows, 129)
}

/// A text is written piece by piece, up to the write that fails.
fn writes(
    rt: &impl Abort,
    alloc: Global,
    failed_write: u64,
    gives_up: bool,
    end: Result<(), Refusal>,
    written: &[u8],
) {
    let mut writer = sink_by(alloc, 2);
    writer.failed_write = failed_write;
    writer.gives_up = gives_up;
    assert_eq!(rt; write_whole(&mut writer, b""), Ok(()));
    assert_eq!(rt; writer.writes, 0);
    assert_eq!(rt; write_whole(&mut writer, b"seven"), end);
    assert!(rt; writer.bytes.as_slice() == written);
}

#[test]
fn whole_texts(rt: HostRuntime) {
    let fault = Err(Refusal::WriteFault);
    writes(&rt, rt.alloc(), 0, false, Ok(()), b"seven");
    writes(&rt, rt.alloc(), 1, true, fault, b"");
    writes(&rt, rt.alloc(), 3, true, fault, b"seve");
    writes(&rt, rt.alloc(), 3, false, fault, b"seve");
}
