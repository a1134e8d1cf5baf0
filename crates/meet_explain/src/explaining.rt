//! The text that `meet explain` writes of a trace.

ghost use Rattle.std.specs.Prelude.{IfOk, IfSome};
ghost use Rattle.meet_run.specs.Texts.Reading.{lines_of};
ghost use Rattle.meet_explain.specs.Explained.{IsTold, ExplainEnds};

use crate::coming::comes_instead;
use crate::faulty::push_faulty;
use crate::lines::{before, count_lines, line_at};
use crate::onward::read_on;
use crate::tee::Tee;
use crate::wording::{push_instead, push_line, push_moment};
use meet_history::CheckFault;
use meet_run::text::faults::cut_short;
use meet_run::text::output::write_whole;
use meet_run::trace::check::{ReadTrace, find_trace, read_trace};
use meet_run::trace::grammar::read_record;
use meet_run::{MOST_READS, RunFault};
use meet_tickets::{Base, Deed, Kind, Record, Refusal};
use std::alloc::{AllocError, Global};
use std::io::{Read, Write};

/// Reads these bytes as a trace; None if they are none, or an allocation fails.
fn trace_in(alloc: Global, text: &[u8]) -> Option<ReadTrace> {
    let mut reader = text;
    match read_trace(alloc, &mut reader, MOST_READS) {
        Ok(trace) => Some(trace),
        Err(_) => None,
    }
}

/// The base to which these bytes lead, which are a legal trace; None if they are none, or an allocation fails.
fn base_behind(alloc: Global, text: &[u8]) -> Option<Base> {
    let trace = trace_in(alloc, text)?;
    match trace.checker.base(alloc) {
        Ok(base) => Some(base),
        Err(_) => None,
    }
}

/// The number of the line of the record that can't stand, if one can't.
fn faulty_line(text: &[u8], trace: &ReadTrace) -> Option<u64> {
    match trace.checker.standing() {
        Err(CheckFault::Illegal { place, why: _ }) => {
            // Behind it stand as many lines as records.
            let behind = trace.count.saturating_sub(place);
            Some(count_lines(text).saturating_sub(behind))
        }
        _ => None,
    }
}

/// Appends the explanation of a record that can't stand, which stands in this line: what may come in its place, and the
/// state of the place.
fn push_all(
    alloc: Global,
    out: &mut Vec<u8>,
    number: u64,
    entry: &Record<Deed>,
    kind: Kind,
    base: &Base,
) -> Result<(), AllocError> {
    let instead = comes_instead(alloc, kind, base, *entry)?;
    push_line(out, number, *entry)?;
    push_instead(out, entry.seat, &instead)?;
    push_moment(out, base)
}

/// The explanation of a trace that isn't legal. Fails only if an allocation fails.
fn explanation(alloc: Global, text: &[u8]) -> Result<Vec<u8>, AllocError> {
    let mut out = Vec::new(alloc);
    let Some(trace) = trace_in(alloc, text) else {
        return Err(AllocError);
    };
    let Some(number) = faulty_line(text, &trace) else {
        return Ok(out);
    };
    let Some(entry) = read_record(line_at(text, number)) else {
        return Ok(out);
    };
    let Some(base) = base_behind(alloc, before(text, number)) else {
        return Err(AllocError);
    };
    push_all(alloc, &mut out, number, &entry, trace.kind, &base)?;
    Ok(out)
}

/// Reads a trace up to its first faulty line, and returns whether it is legal, and its text: what the checker finds,
/// and after it what explains it.
fn told<R: Read>(alloc: Global, tee: &mut Tee<R>) -> Result<(bool, Vec<u8>), RunFault>
    ensures { IfOk result (λ told. IfSome (R.remaining tee.old.reader) (λ input.
        IsTold (lines_of input) told.0 told.1.items)) }
{
    let (legal, line) = find_trace(alloc, tee, MOST_READS)?;
    if legal {
        return Ok((true, line));
    }
    let mut out = line;
    let more = match explanation(alloc, tee.text()) {
        Ok(more) => more,
        Err(_) => return Err(cut_short(Refusal::Memory)),
    };
    match out.extend_from_slice(more.as_slice()) {
        Ok(()) => Ok((false, out)),
        Err(_) => Err(cut_short(Refusal::Memory)),
    }
}

/// Writes what explains the fault of a line, if it is one. If it can't be written nothing reports it, since the fault
/// is reported in any case.
fn write_fault<W: Write>(alloc: Global, text: &[u8], writer: &mut W, fault: RunFault) {
    if let Some(number) = fault.line {
        let mut out = Vec::new(alloc);
        if push_faulty(alloc, &mut out, text, number).is_ok() {
            let _ = write_whole(writer, out.as_slice());
        }
    }
}

/// Reads as much more as the explanation of a line's fault takes, and writes the explanation. It returns the fault; or
/// ReadFault or Memory, if the text can't be read on or kept.
fn explain_fault<R: Read, W: Write>(
    alloc: Global,
    tee: &mut Tee<R>,
    writer: &mut W,
    fault: RunFault,
) -> RunFault {
    let onward = match fault.line {
        Some(number) => read_on(alloc, tee, number),
        None => Err(fault),
    };
    if tee.is_out_of_memory() {
        return cut_short(Refusal::Memory);
    }
    match onward {
        Ok(()) => {
            write_fault(alloc, tee.text(), writer, fault);
            fault
        }
        Err(why) => why,
    }
}

/// Reads a trace, of either format, and writes the line that `check` writes. If the records are legal that is all, and
/// it returns true. Otherwise it returns false, and writes after that line:
/// - the record that can't stand, with the number of its line;
/// - each record that may come in its place;
/// - the state of the place there: its wait queue from the front, the pending requests that were matched or
///   interrupted, and the seats with a pending interrupt.
///
/// The text is read, and kept, to its end or to its first faulty line, of which at most 1,024 bytes; a script, which is
/// no trace, to its first line that is no call.
///
/// # Errors
/// Its clauses state nothing of an error.
/// - BadTrace, with the line's number, from 1: the line can't be read. What was found in it and what can stand there is
///   written.
/// - ReadFault, if a read fails, or the text has 2^32 bytes or more.
/// - Memory, if an allocation fails.
/// - WriteFault, if a write fails or takes no byte.
///
/// # Example
/// From `crates/meet/src/main.rt`:
///
///     Task::Explain => explain_trace(alloc, reader, writer),
pub fn explain_trace<R: Read, W: Write>(
    alloc: Global,
    reader: &mut R,
    writer: &mut W,
) -> Result<bool, RunFault>
    ensures { IfSome (R.remaining reader.old) (λ input.
        ExplainEnds (lines_of input) result (W.contents writer.old) (W.contents writer.new)) }
{
    let mut tee = Tee::new(alloc, reader);
    let (legal, out) = match told(alloc, &mut tee) {
        Ok(told) => told,
        Err(fault) => return Err(explain_fault(alloc, &mut tee, writer, fault)),
    };
    match write_whole(writer, out.as_slice()) {
        Ok(()) => Ok(legal),
        Err(why) => Err(cut_short(why)),
    }
}
