//! Concurrent histories, judged, and traces, explained, as text.

ghost use Rattle.std.specs.Prelude.{◌≡◌, length, [], Some};
ghost use Rattle.meet_run.specs.Texts.Reading.{lines_of};
ghost use Rattle.meet_judge.specs.Judging.{JudgeEnds};
ghost use Rattle.meet_explain.specs.Explained.{ExplainEnds};
ghost use Rattle.meet_c_texts.specs.Written.{AreFirst, IsWrittenBy, told_as};

use meet_explain::explain_trace;
use meet_judge::judge_calls;
use meet_run::RunFault;
use std::alloc::Global;

/// The result of a text. What it hasn't is 0.
#[repr(C)]
#[derive(Clone, Copy, PartialEq, Eq, Debug)]
pub struct Written {
    /// 0 if a history explains the calls or the trace is legal, else the error.
    pub status: u64,
    /// The line that can't be read, from 1.
    pub line: u64,
    /// How many bytes there are to write. As many as have room are written.
    pub length: u64,
}

/// Copies the first bytes of a text, as many as have room.
fn copy_first(text: &[u8], out: &mut [u8])
    ensures { AreFirst text.now out.old out.new }
{
    let mut at = 0;
    while at < text.len() && at < out.len() {
        out[at] = text[at];
        at += 1;
    }
}

/// Returns the result of a text, of which there are this many bytes to write.
fn tell(ended: Result<bool, RunFault>, length: u64) -> Written
    ensures { result ≡ told_as ended length }
{
    match ended {
        Ok(true) => Written {
            status: 0,
            line: 0,
            length,
        },
        Ok(false) => Written {
            status: 31,
            line: 0,
            length,
        },
        Err(RunFault { why, line }) => Written {
            status: why.number(),
            line: line.unwrap_or(0),
            length,
        },
    }
}

/// Writes a text as far as there is room, and the result of what wrote it. Returns the result's status.
pub(crate) fn write_out(
    ended: Result<bool, RunFault>,
    text: &[u8],
    out: &mut [u8],
    written: &mut Written,
) -> u64
    ensures told { written.new ≡ told_as ended (length text.now) }
    ensures first { AreFirst text.now out.old out.new }
    ensures status { result ≡ written.new.status }
{
    copy_first(text, out);
    *written = tell(ended, text.len() as u64);
    written.status
}

/// Judges the text of a concurrent history. Writes the trace of a history that explains its calls, or a line with the
/// reason why none does. Returns the status: 0 if a history explains them, 31 if none does.
///
/// # Errors
/// - 14 if a line can't be read, with its number.
/// - 1 if memory runs out.
/// - 2 if a search had to be given up: that is no verdict.
/// - 3 if there are more calls than tickets.
/// - 7 if an order was found that can't be written: that was never seen.
#[unsafe(no_mangle)]
pub extern "C" fn ibis_judge(
    alloc: Global,
    text: &[u8],
    out: &mut [u8],
    written: &mut Written,
) -> u64
    ensures judged { IsWrittenBy (λ ended all. JudgeEnds text.now ended (Some []) (Some all)) out.old written.new out.new }
    ensures status { result ≡ written.new.status }
{
    let mut reader = text;
    let mut all = Vec::new(alloc);
    let ended = judge_calls(alloc, &mut reader, &mut all);
    write_out(ended, all.as_slice(), out, written)
}

/// Checks the text of a trace, and writes the line that `meet check` prints; if a record can't stand also its
/// explanation. If a line can't be read it writes only what explains that. Returns the status: 0 if the records are
/// legal, 31 if one can't stand.
///
/// # Errors
/// - 15 if a line can't be read, with its number.
/// - 1 if memory runs out.
/// - 16 if the text is longer than 2^32 - 1 bytes.
#[unsafe(no_mangle)]
pub extern "C" fn ibis_explain(
    alloc: Global,
    text: &[u8],
    out: &mut [u8],
    written: &mut Written,
) -> u64
    ensures explained { IsWrittenBy (λ ended all. ExplainEnds (lines_of text.now) ended (Some []) (Some all))
        out.old written.new out.new }
    ensures status { result ≡ written.new.status }
{
    let mut reader = text;
    let mut all = Vec::new(alloc);
    let ended = explain_trace(alloc, &mut reader, &mut all);
    write_out(ended, all.as_slice(), out, written)
}
