//! Drawing a trace.

ghost use Rattle.std.specs.Prelude.{◌+◌, ◌^◌, ◌<◌, ℕ, List, length, IsTrue, IfOk, IfErr, IfSome};
ghost use Rattle.meet_run.specs.Texts.Reading.{lines_of};
ghost use Rattle.meet_run.specs.Tracing.Traces.{IsReadWith, trace_fault_in, NamesLine, IsUnreadTrace, IsTraceFault};
ghost use Rattle.meet_draw.specs.Drawn.{IsDrawn, DrawEnds};

use crate::picture::draw_records;
use crate::style::{Style, Width};
use meet_history::CheckFault;
use meet_run::text::faults::cut_short;
use meet_run::text::output::write_whole;
use meet_run::text::wording::push_last_line;
use meet_run::trace::check::{ReadTrace, read_records};
use meet_run::trace::wording::push_illegal;
use meet_run::{MOST_READS, RunFault};
use meet_tickets::{Base, Deed, Record, Refusal};
use std::alloc::{AllocError, Global};
use std::io::{Read, Write};

/// Whether this many records can be numbered after a base.
fn may_follow(base: &Base, records: &[Record<Deed>]) -> bool
    ensures { IsTrue result → base.now.gone + length records.now < 2 ^ 64 }
{
    records.len() as u64 <= u64::MAX - base.gone
}

/// Draws a trace with these records that was read, and returns whether it is legal. Fails only if an allocation fails.
fn picture_of(
    alloc: Global,
    style: Style,
    width: Width,
    trace: &ReadTrace,
    records: Vec<Record<Deed>>,
) -> Result<(bool, Vec<u8>), AllocError>
    ensures { IfOk result (λ drawn. (lines : List (List ℕ)) → IsReadWith lines trace.now records.items
        → IsDrawn style width lines drawn.0 drawn.1.items) }
{
    let count = trace.count;
    let (kind, base) = (trace.kind, &trace.base);
    if !may_follow(base, records.as_slice()) {
        return Err(AllocError);
    }
    match trace.checker.standing() {
        Ok(standing) => {
            let mut out = draw_records(alloc, style, width, kind, base, records.as_slice(), None)?;
            push_last_line(&mut out, count, standing)?;
            Ok((true, out))
        }
        Err(CheckFault::Illegal { place, why }) => {
            let mut records = records;
            records.truncate(place.saturating_sub(base.gone) as usize);
            let bad = Some(place);
            let mut out = draw_records(alloc, style, width, kind, base, records.as_slice(), bad)?;
            push_illegal(&mut out, place, why)?;
            Ok((false, out))
        }
        Err(CheckFault::Memory) => Err(AllocError),
    }
}

/// Reads a trace up to its first faulty line, and draws it if it has none; returns whether it is legal, and the
/// picture.
fn picture_in<R: Read>(
    alloc: Global,
    style: Style,
    width: Width,
    reader: &mut R,
) -> Result<(bool, Vec<u8>), RunFault>
    ensures drawn { IfOk result (λ drawn. IfSome (R.remaining reader.old) (λ input.
        IsDrawn style width (lines_of input) drawn.0 drawn.1.items)) }
    ensures bad { IfErr result (λ fault. IfSome (R.remaining reader.old) (λ input.
        NamesLine fault (trace_fault_in (lines_of input)))) }
    ensures faults { IfErr result IsUnreadTrace }
{
    let (trace, records) = read_records(alloc, reader, MOST_READS)?;
    match picture_of(alloc, style, width, &trace, records) {
        Ok(drawn) => Ok(drawn),
        Err(_) => Err(cut_short(Refusal::Memory)),
    }
}

/// Draws a trace, of either format, as text. Each piece of its base and each record has a row, each seat a column. A
/// column shows a bar while the seat's ticket waits in the wait queue, and then dots until it is completed. There are
/// as many columns as `width` leaves room for beside the longest line, and at least one. A seat keeps its column. A
/// seat that has none takes a new one, else the first in which nothing is drawn, else none. After the rows comes the
/// line that `check` writes.
///
/// If the records are legal it returns true. Otherwise it draws only the records up to the first that can't stand,
/// marks it, and returns false. The text is read to its end before anything is written, or up to the first line that
/// can't be read: no byte after that line is read.
///
/// # Errors
/// - BadTrace, with the line's number, from 1: the line can't be read. Nothing is written.
/// - ReadFault, if a read fails, or the text has 2^32 bytes or more: nothing is written.
/// - Memory, if an allocation fails: nothing is written.
/// - WriteFault, if a write fails or takes no byte: a prefix of the picture is written.
///
/// # Example
/// From `crates/meet/src/main.rt`:
///
///     Task::Draw(style, width) => draw_trace(alloc, reader, writer, *style, *width),
pub fn draw_trace<R: Read, W: Write>(
    alloc: Global,
    reader: &mut R,
    writer: &mut W,
    style: Style,
    width: Width,
) -> Result<bool, RunFault>
    ensures drawn { IfSome (R.remaining reader.old) (λ input.
        DrawEnds style width (lines_of input) result (W.contents writer.old) (W.contents writer.new)) }
    ensures faults { IfErr result IsTraceFault }
{
    let (legal, out) = picture_in(alloc, style, width, reader)?;
    match write_whole(writer, out.as_slice()) {
        Ok(()) => Ok(legal),
        Err(why) => Err(cut_short(why)),
    }
}
