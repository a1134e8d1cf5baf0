//! The trace of a script: the records that its calls write.

ghost use Rattle.std.specs.Prelude.{ℕ, List, ◌≡◌, ◌+◌, ◌^◌, ◌<◌, ◌≤◌, ◌++◌, None, Err, IfSome, IfOk, IfErr, OnOk};
ghost use Rattle.std.specs.Io.KnownBytes.{Appends};
ghost use Rattle.std.specs.List.{flat_map};
ghost use Rattle.std.specs.Vec.{vec_capacity};
ghost use Rattle.meet_tickets.specs.declared.refusals.Refusal.TheVariants.{ReadFault};
ghost use Rattle.meet_history.specs.Limits.{IsInLimits};
ghost use Rattle.meet_run.specs.Texts.Reading.{UsesTurns, EndsInTurns, lines_of};
ghost use Rattle.meet_run.specs.Scripts.Running.{CannotRead, IsCutShort, IsRunFault, IsUnread};
ghost use Rattle.meet_run.specs.Tracing.BaseWording.{based_text, run_text};
ghost use Rattle.meet_run.specs.Tracing.TraceWording.{record_line, trace_text};
ghost use Rattle.meet_run.specs.Tracing.Traces.{TracesAll, LeavesRun, TracesOn, IsTraceBehind, HasTrace, WasRun};
ghost use Rattle.meet_run.specs.Texts.Writing.{AppendsPrefix};

use crate::script::next::{next_call, next_setup};
use crate::text::faults::{RunFault, at_line, cut_short};
use crate::text::next::Next;
use crate::text::output::write_whole;
use crate::text::reading::{LONGEST_LINE, MOST_READS};
use crate::text::room::room_for_lines;
use crate::trace::base_wording::push_base;
use crate::trace::wording::{push_head, push_record};
use meet_history::{Setup, Stepper};
use meet_tickets::{Base, Deed, Kind, Record, Refusal};
use std::alloc::Global;
use std::io::{Read, Write};

/// How many bytes are kept back at least before they are written.
const BLOCK: usize = 8192;

/// Writes what is kept back, and then the lines of these records, block by block.
fn write_records<W: Write>(
    out: &mut Vec<u8>,
    records: &[Record<Deed>],
    writer: &mut W,
) -> Result<(), Refusal>
    ensures written { OnOk result (Appends (W.contents writer.old) (W.contents writer.new) (out.old.items
        ++ flat_map record_line records.now)) }
    ensures prefix { AppendsPrefix (W.contents writer.old) (W.contents writer.new) (out.old.items
        ++ flat_map record_line records.now) }
    ensures why { IfErr result IsCutShort }
{
    for entry in records {
        match push_record(out, *entry) {
            Ok(()) => {}
            Err(_) => return Err(Refusal::Memory),
        }
        if out.len() >= BLOCK {
            write_whole(writer, out.as_slice())?;
            out.clear();
        }
    }
    write_whole(writer, out.as_slice())
}

/// Writes the trace of these records of a place of this kind, whole.
///
/// # Errors
/// A prefix of it is written.
/// - Memory, if an allocation fails.
/// - WriteFault, if a write fails or takes no byte.
///
/// # Example
/// From `crates/examples/src/parcels.rt`:
///
///     write_trace(host.alloc(), TRANSFER, records, &mut host.stdout())?;
pub fn write_trace<W: Write>(
    alloc: Global,
    kind: Kind,
    records: &[Record<Deed>],
    writer: &mut W,
) -> Result<(), Refusal>
    ensures written { OnOk result (Appends (W.contents writer.old) (W.contents writer.new)
        (trace_text kind records.now)) }
    ensures prefix { AppendsPrefix (W.contents writer.old) (W.contents writer.new) (trace_text kind records.now) }
    ensures why { IfErr result IsCutShort }
{
    let mut out = Vec::new(alloc);
    match push_head(&mut out, kind) {
        Ok(()) => write_records(&mut out, records, writer),
        Err(_) => Err(Refusal::Memory),
    }
}

/// Writes the trace of these records of a place of this kind after this base, whole.
///
/// # Errors
/// A prefix of it is written.
/// - Memory, if an allocation fails.
/// - WriteFault, if a write fails or takes no byte.
pub fn write_based<W: Write>(
    alloc: Global,
    kind: Kind,
    base: &Base,
    records: &[Record<Deed>],
    writer: &mut W,
) -> Result<(), Refusal>
    ensures written { OnOk result (Appends (W.contents writer.old) (W.contents writer.new)
        (based_text kind base.now records.now)) }
    ensures prefix { AppendsPrefix (W.contents writer.old) (W.contents writer.new)
        (based_text kind base.now records.now) }
    ensures why { IfErr result IsCutShort }
{
    let mut out = Vec::new(alloc);
    match push_base(&mut out, kind, base) {
        Ok(()) => write_records(&mut out, records, writer),
        Err(_) => Err(Refusal::Memory),
    }
}

/// What the calls of a script leave.
#[derive(Drop)]
pub(crate) struct Traced {
    /// Whether a checkpoint was made.
    pub(crate) cut: bool,
    /// What stands for the records that were folded away.
    pub(crate) base: Base,
    /// The records since.
    pub(crate) records: Vec<Record<Deed>>,
    /// The number of the first faulty line, if there is one.
    pub(crate) fault: Option<u64>,
}

/// What a stepper leaves, where this is the first faulty line.
fn left_by(stepper: Stepper, fault: Option<u64>) -> Traced
    ensures cut { result.cut ≡ stepper.cut }
    ensures base { result.base ≡ stepper.base }
    ensures records { result.records.items ≡ stepper.records }
    ensures fault { result.fault ≡ fault }
{
    let cut = stepper.is_cut();
    let (base, records) = stepper.into_parts();
    Traced {
        cut,
        base,
        records,
        fault,
    }
}

/// Makes the calls behind the first line: what they leave, up to the first faulty line, and the number of that line, if
/// there is one. Where no turn is left it is ReadFault, whether or not there is memory.
fn record_calls<R: Read>(
    alloc: Global,
    reader: &mut R,
    turns: &mut u64,
    line: &mut Vec<u8>,
    setup: Setup,
) -> Result<Traced, Refusal>
    requires limits { IsInLimits setup }
    requires room { LONGEST_LINE ≤ vec_capacity line.old }
    requires turns { turns.old + 1 < 2 ^ 64 }
    ensures records { IfOk result (λ traced. IfSome (R.remaining reader.old) (λ rest.
        LeavesRun setup (lines_of rest) traced.cut traced.base traced.records.items traced.fault)) }
    ensures uses { UsesTurns (R.remaining reader.old) (R.remaining reader.new) turns.old turns.new }
    ensures spent { turns.old ≡ 0 → result ≡ Err ReadFault }
    ensures ends { IfOk result (λ traced. traced.fault ≡ None → EndsInTurns (R.remaining reader.old) turns.old) }
    ensures why { IfErr result IsUnread }
{
    if *turns == 0 {
        return Err(Refusal::ReadFault);
    }
    let mut stepper = Stepper::new(alloc, setup)?;
    let mut replies = Vec::new(alloc);
    // How many lines were read.
    let mut read = 1u64;
    loop {
        match next_call(reader, turns, line, setup.kind.order) {
            Next::Read(call) => {
                replies.clear();
                stepper.answer(call, &mut replies)?;
                read += 1;
            }
            Next::Ended => return Ok(left_by(stepper, None)),
            Next::Faulty => return Ok(left_by(stepper, Some(read + 1))),
            Next::Broken => return Err(Refusal::ReadFault),
        }
    }
}

/// Writes the trace of what a script's calls leave: it has a base exactly where a checkpoint was made.
fn write_run<W: Write>(
    alloc: Global,
    kind: Kind,
    traced: &Traced,
    writer: &mut W,
) -> Result<(), Refusal>
    ensures written { OnOk result (Appends (W.contents writer.old) (W.contents writer.new)
        (run_text kind traced.now.cut traced.now.base traced.now.records.items)) }
    ensures prefix { AppendsPrefix (W.contents writer.old) (W.contents writer.new)
        (run_text kind traced.now.cut traced.now.base traced.now.records.items) }
    ensures why { IfErr result IsCutShort }
{
    if traced.cut {
        write_based(alloc, kind, &traced.base, traced.records.as_slice(), writer)
    } else {
        write_trace(alloc, kind, traced.records.as_slice(), writer)
    }
}

/// Makes the calls behind the first line, and writes their trace.
fn trace_calls<R: Read, W: Write>(
    alloc: Global,
    reader: &mut R,
    writer: &mut W,
    turns: &mut u64,
    line: &mut Vec<u8>,
    setup: Setup,
) -> Result<bool, RunFault>
    requires limits { IsInLimits setup }
    requires room { LONGEST_LINE ≤ vec_capacity line.old }
    requires turns { turns.old + 1 < 2 ^ 64 }
    ensures trace { IfSome (R.remaining reader.old) (λ rest.
        TracesOn setup (lines_of rest) result (W.contents writer.old) (W.contents writer.new)) }
    ensures made { WasRun result → IfSome (R.remaining reader.old) (λ rest.
        (text : List ℕ) × IsTraceBehind setup (lines_of rest) text) }
    ensures uses { UsesTurns (R.remaining reader.old) (R.remaining reader.new) turns.old turns.new }
    ensures spent { turns.old ≡ 0 → CannotRead result }
    ensures ends { OnOk result (EndsInTurns (R.remaining reader.old) turns.old) }
    ensures faults { IfErr result IsRunFault }
{
    let traced = match record_calls(alloc, reader, turns, line, setup) {
        Ok(traced) => traced,
        Err(why) => return Err(cut_short(why)),
    };
    match write_run(alloc, setup.kind, &traced, writer) {
        Ok(()) => {}
        Err(why) => return Err(cut_short(why)),
    }
    match traced.fault {
        None => Ok(true),
        Some(number) => Err(at_line(Refusal::BadLine, number)),
    }
}

/// Runs the script that this reader gives, and writes the trace of its records after the script has ended: a first line
/// that names the place, the base if a checkpoint was made, and a line for each record since. Returns true. A read
/// takes one byte; `turns` is the most reads.
///
/// # Errors
/// A prefix of the trace is written, but for BadLine.
/// - BadLine, with the line's number, from 1: the line can't be read and ends the script, and the trace of the calls
///   before it is written. If that is the first line, or there is none, nothing is written.
/// - ReadFault, if a read fails, or no turn is left for it. Without a turn it is this error in any case.
/// - WriteFault, if a write fails or takes no byte.
/// - Memory, if an allocation fails.
pub fn run_trace_within<R: Read, W: Write>(
    alloc: Global,
    reader: &mut R,
    writer: &mut W,
    turns: u64,
) -> Result<bool, RunFault>
    ensures trace { IfSome (R.remaining reader.old) (λ input.
        TracesAll input result (W.contents writer.old) (W.contents writer.new)) }
    ensures made { WasRun result → IfSome (R.remaining reader.old) (λ input. HasTrace (lines_of input)) }
    ensures uses { UsesTurns (R.remaining reader.old) (R.remaining reader.new) turns 0 }
    ensures spent { turns ≡ 0 → CannotRead result }
    ensures ends { OnOk result (EndsInTurns (R.remaining reader.old) turns) }
    ensures faults { IfErr result IsRunFault }
{
    let mut line = room_for_lines(alloc, turns)?;
    let mut rest = turns;
    match next_setup(reader, &mut rest, &mut line) {
        Next::Read(setup) => trace_calls(alloc, reader, writer, &mut rest, &mut line, setup),
        Next::Ended => Err(at_line(Refusal::BadLine, 1)),
        Next::Faulty => Err(at_line(Refusal::BadLine, 1)),
        Next::Broken => Err(cut_short(Refusal::ReadFault)),
    }
}

/// Runs a script as `run_trace_within` does, with 2^32 reads.
///
/// # Errors
/// - BadLine, ReadFault, WriteFault or Memory, as `run_trace_within`.
///
/// # Example
/// From `crates/meet/src/main.rt`:
///
///     Task::Trace => run_trace(alloc, reader, writer),
pub fn run_trace<R: Read, W: Write>(
    alloc: Global,
    reader: &mut R,
    writer: &mut W,
) -> Result<bool, RunFault>
    ensures trace { IfSome (R.remaining reader.old) (λ input.
        TracesAll input result (W.contents writer.old) (W.contents writer.new)) }
    ensures made { WasRun result → IfSome (R.remaining reader.old) (λ input. HasTrace (lines_of input)) }
    ensures uses { UsesTurns (R.remaining reader.old) (R.remaining reader.new) (2 ^ 32) 0 }
    ensures ends { OnOk result (EndsInTurns (R.remaining reader.old) (2 ^ 32)) }
    ensures faults { IfErr result IsRunFault }
{
    run_trace_within(alloc, reader, writer, MOST_READS)
}
