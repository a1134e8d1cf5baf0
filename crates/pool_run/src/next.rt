//! The next line of a pool's text.

ghost use Rattle.std.specs.Prelude.{◌+◌, ◌≤◌};
ghost use Rattle.std.specs.Vec.{vec_capacity};
ghost use Rattle.meet_run.specs.Texts.Reading.{UsesTurns};
ghost use Rattle.meet_run.specs.Scripts.Running.{IsNext, IfRead};
ghost use Rattle.pool_run.specs.FirstLines.{settings_of, pool_head_of};
ghost use Rattle.pool_run.specs.Records.{pool_record_at};
ghost use Rattle.pool_run.specs.Requests.{request_of};
ghost use Rattle.pool_run.specs.Spelling.{FitsRequest, FitsSettings, FitsPoolHead};

use crate::records::read_record_behind;
use crate::requests::read_request;
use crate::settings::{read_head, read_settings};
use meet_run::text::next::{Next, next_of};
use meet_run::text::reading::{LONGEST_LINE, read_line};
use meet_tickets::Record;
use pool_core::{PoolDeed, Settings};
use pool_history::PoolRequest;
use std::io::Read;

/// Reads a script's first line.
pub fn next_settings<R: Read>(reader: &mut R, turns: &mut u64, line: &mut Vec<u8>) -> Next<Settings>
    requires { LONGEST_LINE ≤ vec_capacity line.old }
    ensures fits { IfRead result FitsSettings }
    ensures next { IsNext settings_of result (R.remaining reader.old) (R.remaining reader.new) turns.old turns.new }
    ensures uses { UsesTurns (R.remaining reader.old) (R.remaining reader.new) turns.old turns.new }
    ensures room { LONGEST_LINE ≤ vec_capacity line.new }
{
    let came = read_line(reader, turns, line);
    next_of(came, read_settings(line.as_slice()))
}

/// Reads the line of a call.
pub fn next_request<R: Read>(
    reader: &mut R,
    turns: &mut u64,
    line: &mut Vec<u8>,
) -> Next<PoolRequest>
    requires { LONGEST_LINE ≤ vec_capacity line.old }
    ensures fits { IfRead result FitsRequest }
    ensures next { IsNext request_of result (R.remaining reader.old) (R.remaining reader.new) turns.old turns.new }
    ensures uses { UsesTurns (R.remaining reader.old) (R.remaining reader.new) turns.old turns.new }
    ensures room { LONGEST_LINE ≤ vec_capacity line.new }
{
    let came = read_line(reader, turns, line);
    next_of(came, read_request(line.as_slice()))
}

/// Reads a trace's first line.
pub fn next_pool_head<R: Read>(
    reader: &mut R,
    turns: &mut u64,
    line: &mut Vec<u8>,
) -> Next<Settings>
    requires { LONGEST_LINE ≤ vec_capacity line.old }
    ensures fits { IfRead result FitsPoolHead }
    ensures next { IsNext pool_head_of result (R.remaining reader.old) (R.remaining reader.new) turns.old turns.new }
    ensures uses { UsesTurns (R.remaining reader.old) (R.remaining reader.new) turns.old turns.new }
    ensures room { LONGEST_LINE ≤ vec_capacity line.new }
{
    let came = read_line(reader, turns, line);
    next_of(came, read_head(line.as_slice()))
}

/// Reads the line of a record, after `read` lines.
pub fn next_pool_record<R: Read>(
    reader: &mut R,
    turns: &mut u64,
    line: &mut Vec<u8>,
    read: u64,
) -> Next<Record<PoolDeed<u64>>>
    requires { LONGEST_LINE ≤ vec_capacity line.old }
    ensures next { IsNext (pool_record_at (read + 1)) result (R.remaining reader.old) (R.remaining reader.new) turns.old
        turns.new }
    ensures uses { UsesTurns (R.remaining reader.old) (R.remaining reader.new) turns.old turns.new }
    ensures room { LONGEST_LINE ≤ vec_capacity line.new }
{
    let came = read_line(reader, turns, line);
    next_of(came, read_record_behind(read, line.as_slice()))
}
