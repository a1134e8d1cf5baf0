//! Traces without the requests that were interrupted, withdrawn or refused at their entry (projections).

ghost use Rattle.std.specs.Prelude.{◌≡◌, ◌+◌, ◌^◌, ◌<◌, ◌≤◌, true, IfSome, IfOk, IfErr, OnOk};
ghost use Rattle.std.specs.Io.KnownBytes.{Appends};
ghost use Rattle.std.specs.Vec.{vec_capacity};
ghost use Rattle.meet_tickets.specs.Bases.{no_base};
ghost use Rattle.meet_tickets.specs.ByLists.{IsLegal};
ghost use Rattle.meet_history.specs.Checking.{IsCheckFault};
ghost use Rattle.meet_run.specs.Tracing.Erasing.{AreRecords, WritesErased, BeginsErased, EraseEnds, erase_fault_in};
ghost use Rattle.meet_run.specs.Texts.Reading.{UsesTurns, EndsInTurns, lines_of};
ghost use Rattle.meet_run.specs.Scripts.Running.{CannotRead, IsCutShort};
ghost use Rattle.meet_run.specs.Tracing.TraceWording.{illegal_line};
ghost use Rattle.meet_run.specs.Texts.Writing.{AppendsPrefix};
ghost use Rattle.meet_run.specs.Tracing.Traces.{records_behind, NamesLine, IsTrace, IsUnreadTrace, IsTraceFault};

use crate::text::faults::{RunFault, at_line, cut_short};
use crate::text::next::Next;
use crate::text::output::write_whole;
use crate::text::reading::{LONGEST_LINE, MOST_READS};
use crate::text::room::room_for_lines;
use crate::trace::next::{next_head, next_record};
use crate::trace::run::write_trace;
use crate::trace::wording::push_illegal;
use meet_history::{CheckFault, Why, check};
use meet_laws::erase;
use meet_tickets::{Base, Deed, Kind, Record, Refusal};
use std::alloc::Global;
use std::io::{Read, Write};

/// Reads the records behind a trace's first line.
fn read_records<R: Read>(
    alloc: Global,
    reader: &mut R,
    turns: &mut u64,
    line: &mut Vec<u8>,
) -> Result<Vec<Record<Deed>>, RunFault>
    requires room { LONGEST_LINE ≤ vec_capacity line.old }
    requires turns { turns.old + 1 < 2 ^ 64 }
    ensures records { IfOk result (λ records. IfSome (R.remaining reader.old) (λ rest.
        AreRecords records.items (records_behind (lines_of rest)))) }
    ensures bad { IfErr result (λ fault. IfSome (R.remaining reader.old) (λ rest.
        NamesLine fault (records_behind (lines_of rest)).fault)) }
    ensures uses { UsesTurns (R.remaining reader.old) (R.remaining reader.new) turns.old turns.new }
    ensures ends { OnOk result (EndsInTurns (R.remaining reader.old) turns.old) }
    ensures faults { IfErr result IsUnreadTrace }
{
    let mut records = Vec::new(alloc);
    // How many lines were read.
    let mut read = 1u64;
    loop {
        match next_record(reader, turns, line, read) {
            Next::Read(entry) => {
                if records.push(entry).is_err() {
                    return Err(cut_short(Refusal::Memory));
                }
                read += 1;
            }
            Next::Ended => return Ok(records),
            Next::Faulty => return Err(at_line(Refusal::BadTrace, read + 1)),
            Next::Broken => return Err(cut_short(Refusal::ReadFault)),
        }
    }
}

/// Reads a whole trace.
fn read_trace<R: Read>(
    alloc: Global,
    reader: &mut R,
    turns: u64,
) -> Result<(Kind, Vec<Record<Deed>>), RunFault>
    ensures trace { IfOk result (λ found. IfSome (R.remaining reader.old) (λ input.
        IsTrace (lines_of input) found.0 found.1.items)) }
    ensures bad { IfErr result (λ fault. IfSome (R.remaining reader.old) (λ input.
        NamesLine fault (erase_fault_in (lines_of input)))) }
    ensures uses { UsesTurns (R.remaining reader.old) (R.remaining reader.new) turns 0 }
    ensures spent { turns ≡ 0 → CannotRead result }
    ensures ends { OnOk result (EndsInTurns (R.remaining reader.old) turns) }
    ensures faults { IfErr result IsUnreadTrace }
{
    let mut line = room_for_lines(alloc, turns)?;
    let mut rest = turns;
    match next_head(reader, &mut rest, &mut line) {
        Next::Read(kind) => Ok((kind, read_records(alloc, reader, &mut rest, &mut line)?)),
        Next::Ended => Err(at_line(Refusal::BadTrace, 1)),
        Next::Faulty => Err(at_line(Refusal::BadTrace, 1)),
        Next::Broken => Err(cut_short(Refusal::ReadFault)),
    }
}

/// Writes the trace of what is left of these records, which are legal.
fn write_left<W: Write>(
    alloc: Global,
    kind: Kind,
    records: &[Record<Deed>],
    writer: &mut W,
) -> Result<(), Refusal>
    requires legal { IsLegal kind records.now }
    ensures written { OnOk result (WritesErased kind records.now true (W.contents writer.old) (W.contents writer.new)) }
    ensures begun { IfErr result (λ _. BeginsErased kind records.now (W.contents writer.old) (W.contents writer.new)) }
    ensures why { IfErr result IsCutShort }
{
    match erase(alloc, records) {
        Ok(staying) => write_trace(alloc, kind, staying.as_slice(), writer),
        Err(_) => Err(Refusal::Memory),
    }
}

/// Writes the line that names the first record that can't stand, and why.
fn write_illegal<W: Write>(
    alloc: Global,
    number: u64,
    why: Why,
    writer: &mut W,
) -> Result<(), Refusal>
    ensures written { OnOk result (Appends (W.contents writer.old) (W.contents writer.new) (illegal_line number why)) }
    ensures prefix { AppendsPrefix (W.contents writer.old) (W.contents writer.new) (illegal_line number why) }
    ensures why { IfErr result IsCutShort }
{
    let mut text = Vec::new(alloc);
    match push_illegal(&mut text, number, why) {
        Ok(()) => write_whole(writer, text.as_slice()),
        Err(_) => Err(Refusal::Memory),
    }
}

/// Whether these records are a legal history, behind no others.
fn check_whole(alloc: Global, kind: Kind, records: &[Record<Deed>]) -> Result<(), CheckFault>
    ensures legal { IfOk result (λ _. IsLegal kind records.now) }
    ensures fault { IfErr result (λ fault. IsCheckFault kind no_base records.now fault) }
{
    check(alloc, kind, &Base::empty(alloc), records)?;
    Ok(())
}

/// Writes what is left of these records, or which can't stand. The answer is whether they are legal.
fn write_erased<W: Write>(
    alloc: Global,
    kind: Kind,
    records: &[Record<Deed>],
    writer: &mut W,
) -> Result<bool, Refusal>
    ensures written { IfOk result (λ legal. WritesErased kind records.now legal (W.contents writer.old)
        (W.contents writer.new)) }
    ensures begun { IfErr result (λ _. BeginsErased kind records.now (W.contents writer.old) (W.contents writer.new)) }
    ensures why { IfErr result IsCutShort }
{
    match check_whole(alloc, kind, records) {
        Ok(()) => {
            write_left(alloc, kind, records, writer)?;
            Ok(true)
        }
        Err(CheckFault::Illegal { place, why }) => {
            write_illegal(alloc, place, why, writer)?;
            Ok(false)
        }
        Err(CheckFault::Memory) => Err(Refusal::Memory),
    }
}

/// Erases from the trace that this reader gives all records of requests that were interrupted or withdrawn, all
/// interrupts, and all requests that were refused at their entry. The whole of it is read before anything is written,
/// and its records are kept. A read takes one byte; `turns` is the most reads.
///
/// If its records are legal it writes the trace of what is left, and returns true. Otherwise it writes one line that
/// names the first record that can't stand, with the reason, and returns false.
///
/// # Errors
/// - BadTrace, with the line's number, from 1: the line can't be read, or it stands after the 1,048,576th record. A
///   text without a first line is a fault of line 1, and so is a first line that announces a base. That wins over an
///   illegal record before it. Nothing is written.
/// - ReadFault, if a read fails, or no turn is left for it: nothing is written. Without a turn it is this error in any
///   case.
/// - WriteFault, if a write fails or takes no byte: a prefix of the text is written, or nothing.
/// - Memory, if an allocation fails: a prefix of the text is written, or nothing.
pub fn erase_trace_within<R: Read, W: Write>(
    alloc: Global,
    reader: &mut R,
    writer: &mut W,
    turns: u64,
) -> Result<bool, RunFault>
    ensures erased { IfSome (R.remaining reader.old) (λ input.
        EraseEnds (lines_of input) result (W.contents writer.old) (W.contents writer.new)) }
    ensures uses { UsesTurns (R.remaining reader.old) (R.remaining reader.new) turns 0 }
    ensures spent { turns ≡ 0 → CannotRead result }
    ensures ends { OnOk result (EndsInTurns (R.remaining reader.old) turns) }
    ensures faults { IfErr result IsTraceFault }
{
    let (kind, records) = read_trace(alloc, reader, turns)?;
    match write_erased(alloc, kind, records.as_slice(), writer) {
        Ok(legal) => Ok(legal),
        Err(why) => Err(cut_short(why)),
    }
}

/// Erases from a trace as `erase_trace_within` does, with 2^32 reads.
///
/// # Errors
/// - BadTrace, ReadFault, WriteFault or Memory, as `erase_trace_within`.
///
/// # Example
/// From `crates/meet/src/main.rt`:
///
///     Task::Erase => erase_trace(alloc, reader, writer),
pub fn erase_trace<R: Read, W: Write>(
    alloc: Global,
    reader: &mut R,
    writer: &mut W,
) -> Result<bool, RunFault>
    ensures erased { IfSome (R.remaining reader.old) (λ input.
        EraseEnds (lines_of input) result (W.contents writer.old) (W.contents writer.new)) }
    ensures uses { UsesTurns (R.remaining reader.old) (R.remaining reader.new) (2 ^ 32) 0 }
    ensures ends { OnOk result (EndsInTurns (R.remaining reader.old) (2 ^ 32)) }
    ensures faults { IfErr result IsTraceFault }
{
    erase_trace_within(alloc, reader, writer, MOST_READS)
}
