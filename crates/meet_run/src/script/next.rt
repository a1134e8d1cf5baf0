//! The next line of a script.

ghost use Rattle.std.specs.Prelude.{◌≤◌};
ghost use Rattle.std.specs.Vec.{vec_capacity};
ghost use Rattle.meet_run.specs.Scripts.Grammar.{call_of, setup_of};
ghost use Rattle.meet_run.specs.Texts.Reading.{UsesTurns};
ghost use Rattle.meet_run.specs.Scripts.Running.{IsNext, IfRead};
ghost use Rattle.meet_history.specs.Limits.{IsInLimits};
ghost use Rattle.meet_run.specs.Scripts.Spelling.{FitsCall};

use crate::script::first_line::read_setup;
use crate::script::grammar::read_call;
use crate::text::next::{Next, next_of};
use crate::text::reading::{LONGEST_LINE, read_line};
use meet_history::{Call, Setup};
use meet_tickets::Order;
use std::io::Read;

/// Reads a script's first line.
pub fn next_setup<R: Read>(reader: &mut R, turns: &mut u64, line: &mut Vec<u8>) -> Next<Setup>
    requires { LONGEST_LINE ≤ vec_capacity line.old }
    ensures fits { IfRead result IsInLimits }
    ensures next { IsNext setup_of result (R.remaining reader.old) (R.remaining reader.new) turns.old turns.new }
    ensures uses { UsesTurns (R.remaining reader.old) (R.remaining reader.new) turns.old turns.new }
    ensures room { LONGEST_LINE ≤ vec_capacity line.new }
{
    let came = read_line(reader, turns, line);
    next_of(came, read_setup(line.as_slice()))
}

/// Reads the line of a call.
pub(crate) fn next_call<R: Read>(
    reader: &mut R,
    turns: &mut u64,
    line: &mut Vec<u8>,
    order: Order,
) -> Next<Call>
    requires { LONGEST_LINE ≤ vec_capacity line.old }
    ensures fits { IfRead result (FitsCall order) }
    ensures next { IsNext (call_of order) result (R.remaining reader.old) (R.remaining reader.new) turns.old turns.new }
    ensures uses { UsesTurns (R.remaining reader.old) (R.remaining reader.new) turns.old turns.new }
    ensures room { LONGEST_LINE ≤ vec_capacity line.new }
{
    let came = read_line(reader, turns, line);
    next_of(came, read_call(order, line.as_slice()))
}
