//! A pool's script from a reader, its replies to a writer, line by line.

ghost use Rattle.std.specs.Prelude.{◌≡◌, ◌+◌, ◌^◌, ◌<◌, ◌≤◌, ◌++◌, [], IfSome, IfErr, OnOk};
ghost use Rattle.std.specs.Io.KnownBytes.{Appends};
ghost use Rattle.std.specs.Vec.{vec_capacity};
ghost use Rattle.meet_tickets.specs.declared.refusals.Refusal.TheVariants.{Memory, WriteFault};
ghost use Rattle.meet_run.specs.Texts.Reading.{lines_of, UsesTurns, EndsInTurns};
ghost use Rattle.meet_run.specs.Scripts.Running.{CannotRead, IsCutShort};
ghost use Rattle.meet_run.specs.Texts.Writing.{AppendsPrefix};
ghost use Rattle.pool_history.specs.OneThread.{IsTurn};
ghost use Rattle.pool_run.specs.Scripts.{replies_text, closing, IsScriptFault, RunsTo, ScriptEnds};

use crate::next::{next_request, next_settings};
use crate::wording::{push_pool_last_line, push_pool_reply};
use meet_run::text::faults::{at_line, cut_short};
use meet_run::text::next::Next;
use meet_run::text::output::write_whole;
use meet_run::text::reading::LONGEST_LINE;
use meet_run::text::room::room_for_lines;
use meet_run::{MOST_READS, RunFault};
use meet_tickets::Refusal;
use pool_core::Settings;
use pool_history::{PoolReply, PoolRequest, PoolStepper};
use std::alloc::Global;
use std::io::{Read, Write};

/// Appends the lines of these replies.
fn push_replies(out: &mut Vec<u8>, replies: &[PoolReply]) -> Result<(), Refusal>
    ensures text { OnOk result (out.new.items ≡ out.old.items ++ replies_text replies.now) }
    ensures memory { IfErr result (λ why. why ≡ Memory) }
{
    for reply in replies {
        match push_pool_reply(out, reply) {
            Ok(()) => {}
            Err(_) => return Err(Refusal::Memory),
        }
    }
    Ok(())
}

/// Makes a call, and writes the lines of its replies.
fn serve<W: Write>(
    stepper: &mut PoolStepper,
    request: PoolRequest,
    replies: &mut Vec<PoolReply>,
    out: &mut Vec<u8>,
    writer: &mut W,
) -> Result<(), Refusal>
    ensures turn { OnOk result (IsTurn stepper.old request replies.new.items stepper.new) }
    ensures written { OnOk result (Appends (W.contents writer.old) (W.contents writer.new)
        (replies_text replies.new.items)) }
    ensures memory { IfErr result (λ why. why ≡ Memory → Appends (W.contents writer.old) (W.contents writer.new) []) }
    ensures half { IfErr result (λ why. why ≡ WriteFault → IsTurn stepper.old request replies.new.items stepper.new
        × AppendsPrefix (W.contents writer.old) (W.contents writer.new) (replies_text replies.new.items)) }
    ensures why { IfErr result IsCutShort }
{
    out.clear();
    stepper.answer(request, replies)?;
    push_replies(out, replies.as_slice())?;
    write_whole(writer, out.as_slice())
}

/// Writes the last line.
fn close<W: Write>(stepper: &PoolStepper, out: &mut Vec<u8>, writer: &mut W) -> Result<(), Refusal>
    ensures written { OnOk result (Appends (W.contents writer.old) (W.contents writer.new) (closing stepper.now)) }
    ensures memory { IfErr result (λ why. why ≡ Memory → Appends (W.contents writer.old) (W.contents writer.new) []) }
    ensures half { IfErr result (λ why. why ≡ WriteFault
        → AppendsPrefix (W.contents writer.old) (W.contents writer.new) (closing stepper.now)) }
    ensures why { IfErr result IsCutShort }
{
    out.clear();
    match push_pool_last_line(out, stepper.count(), stepper.counters()) {
        Ok(()) => write_whole(writer, out.as_slice()),
        Err(_) => Err(Refusal::Memory),
    }
}

/// Runs the calls after the first line. If no turn is left it is ReadFault, whether or not there is memory.
fn run_requests<R: Read, W: Write>(
    alloc: Global,
    reader: &mut R,
    writer: &mut W,
    turns: &mut u64,
    line: &mut Vec<u8>,
    settings: Settings,
) -> Result<bool, RunFault>
    requires room { LONGEST_LINE ≤ vec_capacity line.old }
    requires turns { turns.old + 1 < 2 ^ 64 }
    ensures script { IfSome (R.remaining reader.old) (λ rest.
        RunsTo settings (lines_of rest) result (W.contents writer.old) (W.contents writer.new)) }
    ensures uses { UsesTurns (R.remaining reader.old) (R.remaining reader.new) turns.old turns.new }
    ensures spent { turns.old ≡ 0 → CannotRead result }
    ensures ends { OnOk result (EndsInTurns (R.remaining reader.old) turns.old) }
    ensures faults { IfErr result IsScriptFault }
{
    if *turns == 0 {
        return Err(cut_short(Refusal::ReadFault));
    }
    let mut stepper = match PoolStepper::new(alloc, settings) {
        Ok(stepper) => stepper,
        Err(why) => return Err(cut_short(why)),
    };
    let mut replies = Vec::new(alloc);
    let mut out = Vec::new(alloc);
    // How many lines were read.
    let mut read = 1u64;
    loop {
        match next_request(reader, turns, line) {
            Next::Read(request) => {
                match serve(&mut stepper, request, &mut replies, &mut out, writer) {
                    Ok(()) => read += 1,
                    Err(why) => return Err(cut_short(why)),
                }
            }
            Next::Ended => match close(&stepper, &mut out, writer) {
                Ok(()) => return Ok(true),
                Err(why) => return Err(cut_short(why)),
            },
            Next::Faulty => return Err(at_line(Refusal::BadLine, read + 1)),
            Next::Broken => return Err(cut_short(Refusal::ReadFault)),
        }
    }
}

/// Runs the pool's script that this reader gives, and writes its replies: the first line names the settings, each other
/// line is a call. Each reply is written before the next line is read. Returns true. A read takes one byte; `turns` is
/// the most reads.
///
/// # Errors
/// - BadSizes or PolicyNeedsBuffer, if no pool can have these settings.
/// - BadLine, with the line's number, from 1: the line can't be read, and ends the run as soon as that is known. A text
///   without a first line is a fault of line 1.
/// - ReadFault, if a read fails, or no turn is left for it. Without a turn it is this error in any case.
/// - WriteFault, if a write fails or takes no byte.
/// - Memory, if an allocation fails.
pub fn run_pool_within<R: Read, W: Write>(
    alloc: Global,
    reader: &mut R,
    writer: &mut W,
    turns: u64,
) -> Result<bool, RunFault>
    ensures script { IfSome (R.remaining reader.old) (λ input.
        ScriptEnds (lines_of input) result (W.contents writer.old) (W.contents writer.new)) }
    ensures uses { UsesTurns (R.remaining reader.old) (R.remaining reader.new) turns 0 }
    ensures spent { turns ≡ 0 → CannotRead result }
    ensures ends { OnOk result (EndsInTurns (R.remaining reader.old) turns) }
    ensures faults { IfErr result IsScriptFault }
{
    let mut line = room_for_lines(alloc, turns)?;
    let mut rest = turns;
    match next_settings(reader, &mut rest, &mut line) {
        Next::Read(settings) => run_requests(alloc, reader, writer, &mut rest, &mut line, settings),
        Next::Ended => Err(at_line(Refusal::BadLine, 1)),
        Next::Faulty => Err(at_line(Refusal::BadLine, 1)),
        Next::Broken => Err(cut_short(Refusal::ReadFault)),
    }
}

/// Runs a pool's script as `run_pool_within` does, with 2^32 reads.
///
/// # Errors
/// - BadSizes, PolicyNeedsBuffer, BadLine, ReadFault, WriteFault or Memory, as `run_pool_within`.
///
/// # Example
/// From `crates/meet/src/main.rt`:
///
///     Task::PoolRun => run_pool(alloc, reader, writer),
pub fn run_pool<R: Read, W: Write>(
    alloc: Global,
    reader: &mut R,
    writer: &mut W,
) -> Result<bool, RunFault>
    ensures script { IfSome (R.remaining reader.old) (λ input.
        ScriptEnds (lines_of input) result (W.contents writer.old) (W.contents writer.new)) }
    ensures uses { UsesTurns (R.remaining reader.old) (R.remaining reader.new) (2 ^ 32) 0 }
    ensures ends { OnOk result (EndsInTurns (R.remaining reader.old) (2 ^ 32)) }
    ensures faults { IfErr result IsScriptFault }
{
    run_pool_within(alloc, reader, writer, MOST_READS)
}
