//! The check of a trace in memory.

ghost use Rattle.std.specs.Prelude.{◌≡◌};
ghost use Rattle.meet_c_texts.specs.Found.{FoundIn, VerdictOf, status_at};

use meet_history::{CheckFault, Standing};
use meet_run::trace::check::{ReadTrace, read_trace};
use meet_run::{MOST_READS, RunFault};
use std::alloc::Global;

/// The verdict on a trace. What it hasn't is 0.
#[repr(C)]
#[derive(Clone, Copy, PartialEq, Eq, Debug)]
pub struct Verdict {
    /// 0 if its records are legal, else the error.
    pub status: u64,
    /// The line that can't be read, from 1.
    pub line: u64,
    /// How many records there are, if they are legal.
    pub records: u64,
    /// The number of the first record that can't stand, from 1.
    pub place: u64,
    /// The reason, 1 to 4.
    pub why: u64,
    /// Pending requests that wait.
    pub waiting: u64,
    /// Pending requests that were matched or interrupted, and need a follow-up.
    pub uncollected: u64,
    /// Items that are buffered.
    pub kept: u64,
}

/// Makes a verdict of a status and a line.
fn status_at(status: u64, line: u64) -> Verdict
    ensures { result ≡ status_at status line }
{
    Verdict {
        status,
        line,
        records: 0,
        place: 0,
        why: 0,
        waiting: 0,
        uncollected: 0,
        kept: 0,
    }
}

/// Returns the verdict on a trace that was read.
fn found_of(trace: &ReadTrace) -> Verdict
    ensures { VerdictOf trace.now result }
{
    match trace.checker.standing() {
        Ok(standing) => {
            let Standing {
                waiting,
                uncollected,
                kept,
            } = standing;
            Verdict {
                records: trace.count,
                waiting,
                uncollected,
                kept,
                ..status_at(0, 0)
            }
        }
        Err(CheckFault::Illegal { place, why }) => Verdict {
            place,
            why: why.number(),
            ..status_at(31, 0)
        },
        Err(CheckFault::Memory) => status_at(1, 0),
    }
}

/// Checks a trace.
fn check(alloc: Global, text: &[u8]) -> Verdict
    ensures { FoundIn text.now result }
{
    let mut reader = text;
    match read_trace(alloc, &mut reader, MOST_READS) {
        Ok(trace) => found_of(&trace),
        Err(RunFault { why, line }) => status_at(why.number(), line.unwrap_or(0)),
    }
}

/// Checks the text of a trace, with a base or without. Returns the verdict's status, 0 if its records are legal.
///
/// # Errors
/// - 31 if a record can't stand, with its number and the reason.
/// - 15 if a line can't be read, with its number.
/// - 1 if memory runs out.
/// - 16 if the text is longer than 2^32 - 1 bytes.
#[unsafe(no_mangle)]
pub extern "C" fn ibis_check(alloc: Global, text: &[u8], verdict: &mut Verdict) -> u64
    ensures found { FoundIn text.now verdict.new }
    ensures status { result ≡ verdict.new.status }
{
    let found = check(alloc, text);
    *verdict = found;
    found.status
}
