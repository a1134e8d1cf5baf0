//! The trace of a pool's script: the records that its calls write.

ghost use Rattle.std.specs.Prelude.{◌≡◌, ◌+◌, ◌^◌, ◌<◌, ◌≤◌, ◌++◌, None, IfSome, IfOk, IfErr, IsErr, OnOk};
ghost use Rattle.std.specs.Io.KnownBytes.{Appends};
ghost use Rattle.std.specs.List.{flat_map};
ghost use Rattle.std.specs.Vec.{vec_capacity};
ghost use Rattle.meet_run.specs.Texts.Reading.{UsesTurns, EndsInTurns, lines_of};
ghost use Rattle.meet_run.specs.Scripts.Running.{CannotRead, IsCutShort};
ghost use Rattle.meet_run.specs.Texts.Writing.{AppendsPrefix};
ghost use Rattle.pool_run.specs.Scripts.{pool_trace_text, TracesTo, TraceEnds, AreMade, IsUnmadeBy, IsScriptFault};
ghost use Rattle.pool_run.specs.Wording.{pool_record_line};

use crate::next::{next_request, next_settings};
use crate::wording::{push_pool_head, push_pool_record};
use meet_run::text::faults::{at_line, cut_short};
use meet_run::text::next::Next;
use meet_run::text::output::write_whole;
use meet_run::text::reading::LONGEST_LINE;
use meet_run::text::room::room_for_lines;
use meet_run::{MOST_READS, RunFault};
use meet_tickets::{Record, Refusal};
use pool_core::{PoolDeed, Settings};
use pool_history::PoolStepper;
use std::alloc::Global;
use std::io::{Read, Write};

/// Writes the lines of these records, one by one.
fn write_records<W: Write>(
    out: &mut Vec<u8>,
    records: &[Record<PoolDeed<u64>>],
    writer: &mut W,
) -> Result<(), Refusal>
    ensures written { OnOk result (Appends (W.contents writer.old) (W.contents writer.new)
        (flat_map pool_record_line records.now)) }
    ensures prefix { AppendsPrefix (W.contents writer.old) (W.contents writer.new)
        (flat_map pool_record_line records.now) }
    ensures why { IfErr result IsCutShort }
{
    for entry in records {
        out.clear();
        match push_pool_record(out, *entry) {
            Ok(()) => {}
            Err(_) => return Err(Refusal::Memory),
        }
        write_whole(writer, out.as_slice())?;
    }
    Ok(())
}

/// Writes the whole trace of a pool of these settings: the records `past`, and then the records `since`.
///
/// # Errors
/// - Memory, if an allocation fails: a prefix of it is written.
/// - WriteFault, if a write fails or takes no byte: a prefix of it is written.
pub fn write_pool_trace<W: Write>(
    alloc: Global,
    settings: Settings,
    past: &[Record<PoolDeed<u64>>],
    since: &[Record<PoolDeed<u64>>],
    writer: &mut W,
) -> Result<(), Refusal>
    ensures written { OnOk result (Appends (W.contents writer.old) (W.contents writer.new)
        (pool_trace_text settings (past.now ++ since.now))) }
    ensures prefix { AppendsPrefix (W.contents writer.old) (W.contents writer.new)
        (pool_trace_text settings (past.now ++ since.now)) }
    ensures why { IfErr result IsCutShort }
{
    let mut out = Vec::new(alloc);
    match push_pool_head(&mut out, settings) {
        Ok(()) => {}
        Err(_) => return Err(Refusal::Memory),
    }
    write_whole(writer, out.as_slice())?;
    write_records(&mut out, past, writer)?;
    write_records(&mut out, since, writer)
}

/// Makes the calls after a script's first line, up to the first line that is none, and returns that line's number. If
/// no turn is left it is ReadFault, whether or not there is memory.
fn make_requests<R: Read>(
    alloc: Global,
    reader: &mut R,
    turns: &mut u64,
    line: &mut Vec<u8>,
    settings: Settings,
) -> Result<(PoolStepper, Option<u64>), Refusal>
    requires room { LONGEST_LINE ≤ vec_capacity line.old }
    requires turns { turns.old + 1 < 2 ^ 64 }
    ensures made { IfOk result (λ left. IfSome (R.remaining reader.old) (λ rest.
        AreMade settings (lines_of rest) left.0 left.1)) }
    ensures why { IfErr result (IsUnmadeBy settings) }
    ensures uses { UsesTurns (R.remaining reader.old) (R.remaining reader.new) turns.old turns.new }
    ensures spent { turns.old ≡ 0 → IfErr result (λ why. why ≡ Refusal.ReadFault) }
    ensures some { turns.old ≡ 0 → IsErr result }
    ensures ends { IfOk result (λ left. left.1 ≡ None → EndsInTurns (R.remaining reader.old) turns.old) }
{
    if *turns == 0 {
        return Err(Refusal::ReadFault);
    }
    let mut stepper = PoolStepper::new(alloc, settings)?;
    let mut replies = Vec::new(alloc);
    // How many lines were read.
    let mut read = 1u64;
    loop {
        match next_request(reader, turns, line) {
            Next::Read(request) => {
                stepper.answer(request, &mut replies)?;
                read += 1;
            }
            Next::Ended => return Ok((stepper, None)),
            Next::Faulty => return Ok((stepper, Some(read + 1))),
            Next::Broken => return Err(Refusal::ReadFault),
        }
    }
}

/// Writes the trace of the calls after a script's first line.
fn trace_requests<R: Read, W: Write>(
    alloc: Global,
    reader: &mut R,
    writer: &mut W,
    turns: &mut u64,
    line: &mut Vec<u8>,
    settings: Settings,
) -> Result<bool, RunFault>
    requires room { LONGEST_LINE ≤ vec_capacity line.old }
    requires turns { turns.old + 1 < 2 ^ 64 }
    ensures trace { IfSome (R.remaining reader.old) (λ rest.
        TracesTo settings (lines_of rest) result (W.contents writer.old) (W.contents writer.new)) }
    ensures uses { UsesTurns (R.remaining reader.old) (R.remaining reader.new) turns.old turns.new }
    ensures spent { turns.old ≡ 0 → CannotRead result }
    ensures ends { OnOk result (EndsInTurns (R.remaining reader.old) turns.old) }
    ensures faults { IfErr result IsScriptFault }
{
    let (stepper, fault) = match make_requests(alloc, reader, turns, line, settings) {
        Ok(left) => left,
        Err(why) => return Err(cut_short(why)),
    };
    match write_pool_trace(alloc, settings, stepper.past(), stepper.since(), writer) {
        Ok(()) => {}
        Err(why) => return Err(cut_short(why)),
    }
    match fault {
        None => Ok(true),
        Some(number) => Err(at_line(Refusal::BadLine, number)),
    }
}

/// Runs the pool's script that this reader gives as `run_pool_within` does, and writes its trace instead of the
/// replies: all records since the first, after the script has ended. Returns true.
///
/// # Errors
/// - BadLine, as `run_pool_within`: the trace of the calls before the line is written.
/// - BadSizes, PolicyNeedsBuffer, ReadFault, WriteFault or Memory, as `run_pool_within`: a prefix of the trace is
///   written.
pub fn trace_pool_within<R: Read, W: Write>(
    alloc: Global,
    reader: &mut R,
    writer: &mut W,
    turns: u64,
) -> Result<bool, RunFault>
    ensures trace { IfSome (R.remaining reader.old) (λ input.
        TraceEnds (lines_of input) result (W.contents writer.old) (W.contents writer.new)) }
    ensures uses { UsesTurns (R.remaining reader.old) (R.remaining reader.new) turns 0 }
    ensures spent { turns ≡ 0 → CannotRead result }
    ensures ends { OnOk result (EndsInTurns (R.remaining reader.old) turns) }
    ensures faults { IfErr result IsScriptFault }
{
    let mut line = room_for_lines(alloc, turns)?;
    let mut left = turns;
    match next_settings(reader, &mut left, &mut line) {
        Next::Read(settings) => {
            trace_requests(alloc, reader, writer, &mut left, &mut line, settings)
        }
        Next::Ended => Err(at_line(Refusal::BadLine, 1)),
        Next::Faulty => Err(at_line(Refusal::BadLine, 1)),
        Next::Broken => Err(cut_short(Refusal::ReadFault)),
    }
}

/// Writes the trace of a pool's script as `trace_pool_within` does, with 2^32 reads.
///
/// # Errors
/// - BadSizes, PolicyNeedsBuffer, BadLine, ReadFault, WriteFault or Memory, as `trace_pool_within`.
///
/// # Example
/// From `crates/meet/src/main.rt`:
///
///     Task::PoolTrace => trace_pool(alloc, reader, writer),
pub fn trace_pool<R: Read, W: Write>(
    alloc: Global,
    reader: &mut R,
    writer: &mut W,
) -> Result<bool, RunFault>
    ensures trace { IfSome (R.remaining reader.old) (λ input.
        TraceEnds (lines_of input) result (W.contents writer.old) (W.contents writer.new)) }
    ensures uses { UsesTurns (R.remaining reader.old) (R.remaining reader.new) (2 ^ 32) 0 }
    ensures ends { OnOk result (EndsInTurns (R.remaining reader.old) (2 ^ 32)) }
    ensures faults { IfErr result IsScriptFault }
{
    trace_pool_within(alloc, reader, writer, MOST_READS)
}
