//! A script from a reader, its replies to a writer, line by line.

ghost use Rattle.std.specs.Prelude.{◌≡◌, ◌+◌, ◌^◌, ◌<◌, ◌≤◌, ◌++◌, [], Err, IfSome, IfErr, OnOk};
ghost use Rattle.std.specs.Prelude.{IsTrue};
ghost use Rattle.std.specs.Io.KnownBytes.{Appends};
ghost use Rattle.std.specs.Vec.{vec_capacity};
ghost use Rattle.meet_tickets.specs.declared.refusals.Refusal.TheVariants.{Memory};
ghost use Rattle.meet_history.specs.OneThread.{turn, standing_of};
ghost use Rattle.meet_run.specs.Texts.Reading.{UsesTurns, EndsInTurns};
ghost use Rattle.meet_run.specs.Scripts.Script.{fault_of, text_before, output_of, replies_text};
ghost use Rattle.meet_history.specs.Stepping.{Takes, place_of};
ghost use Rattle.meet_history.specs.Limits.{IsInLimits};
ghost use Rattle.meet_history.specs.Served.{serves};
ghost use Rattle.meet_run.specs.Scripts.Wording.{last_line};
ghost use Rattle.meet_run.specs.Scripts.Running.{CannotRead, IsCutShort, IsRunFault, RunsOn, RunEnds};
ghost use Rattle.meet_run.specs.Texts.Writing.{AppendsPrefix};

use crate::script::next::{next_call, next_setup};
use crate::text::faults::{RunFault, at_line, cut_short};
use crate::text::next::Next;
use crate::text::output::write_whole;
use crate::text::reading::{LONGEST_LINE, MOST_READS};
use crate::text::room::room_for_lines;
use crate::text::wording::{push_last_line, push_reply};
use meet_history::{Call, Reply, Setup, Stepper};
use meet_tickets::Refusal;
use std::alloc::Global;
use std::io::{Read, Write};

/// Appends the lines of these replies.
fn push_replies(out: &mut Vec<u8>, replies: &[Reply]) -> Result<(), Refusal>
    ensures text { OnOk result (out.new.items ≡ out.old.items ++ replies_text replies.now) }
    ensures memory { IfErr result (λ why. why ≡ Memory) }
{
    for reply in replies {
        match push_reply(out, reply) {
            Ok(()) => {}
            Err(_) => return Err(Refusal::Memory),
        }
    }
    Ok(())
}

/// Makes a call, and writes the lines of its replies.
fn serve<W: Write>(
    stepper: &mut Stepper,
    call: Call,
    replies: &mut Vec<Reply>,
    out: &mut Vec<u8>,
    writer: &mut W,
) -> Result<(), Refusal>
    requires served { IsTrue (serves stepper.old.setup.kind.order call.verb) }
    ensures takes { OnOk result (Takes (turn stepper.old.setup (place_of stepper.old) call) stepper.old stepper.new) }
    ensures written { OnOk result (Appends (W.contents writer.old) (W.contents writer.new)
        (replies_text (turn stepper.old.setup (place_of stepper.old) call).replies)) }
    ensures prefix { AppendsPrefix (W.contents writer.old) (W.contents writer.new)
        (replies_text (turn stepper.old.setup (place_of stepper.old) call).replies) }
    ensures why { IfErr result IsCutShort }
{
    replies.clear();
    out.clear();
    stepper.answer(call, replies)?;
    push_replies(out, replies.as_slice())?;
    write_whole(writer, out.as_slice())
}

/// Writes the last line.
fn close<W: Write>(stepper: &Stepper, out: &mut Vec<u8>, writer: &mut W) -> Result<(), Refusal>
    ensures written { OnOk result (Appends (W.contents writer.old) (W.contents writer.new)
        (last_line ((place_of stepper.now).gone + (place_of stepper.now).records)
        (standing_of stepper.now.setup (place_of stepper.now)))) }
    ensures prefix { AppendsPrefix (W.contents writer.old) (W.contents writer.new)
        (last_line ((place_of stepper.now).gone + (place_of stepper.now).records)
        (standing_of stepper.now.setup (place_of stepper.now))) }
    ensures memory { result ≡ Err Memory → AppendsPrefix (W.contents writer.old) (W.contents writer.new) [] }
    ensures why { IfErr result IsCutShort }
{
    out.clear();
    match push_last_line(out, stepper.count(), stepper.standing()) {
        Ok(()) => write_whole(writer, out.as_slice()),
        Err(_) => Err(Refusal::Memory),
    }
}

/// Runs the calls behind the first line. Where no turn is left it is ReadFault, whether or not there is memory.
fn run_calls<R: Read, W: Write>(
    alloc: Global,
    reader: &mut R,
    writer: &mut W,
    turns: &mut u64,
    line: &mut Vec<u8>,
    setup: Setup,
) -> Result<bool, RunFault>
    requires limits { IsInLimits setup }
    requires room { LONGEST_LINE ≤ vec_capacity line.old }
    requires turns { turns.old + 1 < 2 ^ 64 }
    ensures script { IfSome (R.remaining reader.old) (λ rest.
        RunsOn setup rest result (W.contents writer.old) (W.contents writer.new)) }
    ensures uses { UsesTurns (R.remaining reader.old) (R.remaining reader.new) turns.old turns.new }
    ensures spent { turns.old ≡ 0 → CannotRead result }
    ensures ends { OnOk result (EndsInTurns (R.remaining reader.old) turns.old) }
    ensures faults { IfErr result IsRunFault }
{
    if *turns == 0 {
        return Err(cut_short(Refusal::ReadFault));
    }
    let mut stepper = match Stepper::new(alloc, setup) {
        Ok(stepper) => stepper,
        Err(why) => return Err(cut_short(why)),
    };
    let mut replies = Vec::new(alloc);
    let mut out = Vec::new(alloc);
    // How many lines were read.
    let mut read = 1u64;
    loop {
        match next_call(reader, turns, line, setup.kind.order) {
            Next::Read(call) => {
                match serve(&mut stepper, call, &mut replies, &mut out, writer) {
                    Ok(()) => read += 1,
                    Err(why) => return Err(cut_short(why)),
                }
            }
            Next::Ended => match close(&stepper, &mut out, writer) {
                Ok(()) => return Ok(true),
                Err(why) => return Err(cut_short(why)),
            },
            Next::Faulty => return Err(at_line(Refusal::BadLine, read + 1)),
            Next::Broken => return Err(cut_short(Refusal::ReadFault)),
        }
    }
}

/// Runs the script that this reader gives, and writes its replies: the first line names the place, each other line is a
/// call. Each reply is written before the next line is read. Returns true. A read takes one byte; `turns` is the most
/// reads.
///
/// # Errors
/// - BadLine, with the line's number, from 1: the line can't be read, and ends the run as soon as that is known. A text
///   without a first line is a fault of line 1.
/// - ReadFault, if a read fails, or no turn is left for it. Without a turn it is this error in any case.
/// - WriteFault, if a write fails or takes no byte.
/// - Memory, if an allocation fails.
pub fn run_script_within<R: Read, W: Write>(
    alloc: Global,
    reader: &mut R,
    writer: &mut W,
    turns: u64,
) -> Result<bool, RunFault>
    ensures script { IfSome (R.remaining reader.old) (λ input.
        RunEnds (fault_of input) (text_before input) (output_of input) result (W.contents writer.old)
        (W.contents writer.new)) }
    ensures uses { UsesTurns (R.remaining reader.old) (R.remaining reader.new) turns 0 }
    ensures spent { turns ≡ 0 → CannotRead result }
    ensures ends { OnOk result (EndsInTurns (R.remaining reader.old) turns) }
    ensures faults { IfErr result IsRunFault }
{
    let mut line = room_for_lines(alloc, turns)?;
    let mut rest = turns;
    match next_setup(reader, &mut rest, &mut line) {
        Next::Read(setup) => run_calls(alloc, reader, writer, &mut rest, &mut line, setup),
        Next::Ended => Err(at_line(Refusal::BadLine, 1)),
        Next::Faulty => Err(at_line(Refusal::BadLine, 1)),
        Next::Broken => Err(cut_short(Refusal::ReadFault)),
    }
}

/// Runs a script as `run_script_within` does, with 2^32 reads.
///
/// # Errors
/// - BadLine, ReadFault, WriteFault or Memory, as `run_script_within`.
///
/// # Example
/// From `crates/meet/src/main.rt`:
///
///     Task::Run => run_script(alloc, reader, writer),
pub fn run_script<R: Read, W: Write>(
    alloc: Global,
    reader: &mut R,
    writer: &mut W,
) -> Result<bool, RunFault>
    ensures script { IfSome (R.remaining reader.old) (λ input.
        RunEnds (fault_of input) (text_before input) (output_of input) result (W.contents writer.old)
        (W.contents writer.new)) }
    ensures uses { UsesTurns (R.remaining reader.old) (R.remaining reader.new) (2 ^ 32) 0 }
    ensures ends { OnOk result (EndsInTurns (R.remaining reader.old) (2 ^ 32)) }
    ensures faults { IfErr result IsRunFault }
{
    run_script_within(alloc, reader, writer, MOST_READS)
}
