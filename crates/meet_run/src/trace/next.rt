//! What the next line of a trace is.

ghost use Rattle.std.specs.Prelude.{◌≡◌, ◌+◌, ◌≤◌};
ghost use Rattle.std.specs.Vec.{vec_capacity};
ghost use Rattle.meet_run.specs.Texts.Reading.{UsesTurns};
ghost use Rattle.meet_run.specs.Scripts.Running.{IsNext, IfRead};
ghost use Rattle.meet_run.specs.Tracing.TraceGrammar.{head_of};
ghost use Rattle.meet_run.specs.Tracing.TraceSpelling.{FitsHead};
ghost use Rattle.meet_run.specs.Tracing.Traces.{record_at};

use crate::text::next::{Next, next_of};
use crate::text::reading::{LONGEST_LINE, read_line};
use crate::trace::grammar::{read_head, read_record};
use meet_tickets::{Deed, Kind, MOST_RECORDS, Record};
use std::io::Read;

/// Reads a trace's first line.
pub(crate) fn next_head<R: Read>(reader: &mut R, turns: &mut u64, line: &mut Vec<u8>) -> Next<Kind>
    requires { LONGEST_LINE ≤ vec_capacity line.old }
    ensures fits { IfRead result FitsHead }
    ensures next { IsNext head_of result (R.remaining reader.old) (R.remaining reader.new) turns.old turns.new }
    ensures uses { UsesTurns (R.remaining reader.old) (R.remaining reader.new) turns.old turns.new }
    ensures room { LONGEST_LINE ≤ vec_capacity line.new }
{
    let came = read_line(reader, turns, line);
    next_of(came, read_head(line.as_slice()))
}

/// The record of a line behind so many others: a trace's first line, and one for each record.
fn read_record_behind(read: u64, line: &[u8]) -> Option<Record<Deed>>
    ensures { result ≡ record_at (read + 1) line.now }
{
    if read > MOST_RECORDS {
        None
    } else {
        read_record(line)
    }
}

/// Reads the line of a record, behind so many lines.
pub(crate) fn next_record<R: Read>(
    reader: &mut R,
    turns: &mut u64,
    line: &mut Vec<u8>,
    read: u64,
) -> Next<Record<Deed>>
    requires { LONGEST_LINE ≤ vec_capacity line.old }
    ensures next { IsNext (record_at (read + 1)) result (R.remaining reader.old) (R.remaining reader.new) turns.old
        turns.new }
    ensures uses { UsesTurns (R.remaining reader.old) (R.remaining reader.new) turns.old turns.new }
    ensures room { LONGEST_LINE ≤ vec_capacity line.new }
{
    let came = read_line(reader, turns, line);
    next_of(came, read_record_behind(read, line.as_slice()))
}
