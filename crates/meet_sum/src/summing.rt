//! The text that `meet sum` writes of a trace.

ghost use Rattle.std.specs.Prelude.{◌≡◌, ℕ, ◌+◌, ◌<◌, ◌^◌, ◌++◌, List, None, IfSome, IfOk, IfErr, IsTrue, length};
ghost use Rattle.meet_tickets.specs.declared.refusals.Refusal.TheVariants.{Memory};
ghost use Rattle.meet_history.specs.Pushing.{IsStandingOf};
ghost use Rattle.meet_run.specs.Texts.Reading.{lines_of};
ghost use Rattle.meet_run.specs.Tracing.Traces.{IsReadWith};
ghost use Rattle.meet_run.specs.Tracing.TraceWording.{illegal_line};
ghost use Rattle.meet_run.specs.Scripts.Wording.{last_line};
ghost use Rattle.meet_sum.specs.Summing.{IsSaid, IsSummed, SumEnds};
ghost use Rattle.meet_sum.specs.SumTexts.{sums_text};

use crate::sums::{Sums, sum_records};
use crate::wording::push_sums;
use meet_history::{CheckFault, Standing, Why};
use meet_run::text::faults::cut_short;
use meet_run::text::output::write_whole;
use meet_run::text::wording::push_last_line;
use meet_run::trace::check::{ReadTrace, read_records};
use meet_run::trace::wording::push_illegal;
use meet_run::{MOST_READS, RunFault};
use meet_tickets::{Base, Deed, Record, Refusal};
use std::alloc::{AllocError, Global};
use std::io::{Read, Write};

/// Whether this many records can be numbered after a base, and none makes its wait queue too long to count.
fn may_follow(base: &Base, records: &[Record<Deed>]) -> bool
    ensures entries { IsTrue result → length base.now.line + length records.now < 2 ^ 64 }
    ensures numbers { IsTrue result → base.now.gone + length records.now < 2 ^ 64 }
{
    let count = records.len() as u64;
    count <= u64::MAX - base.gone && count <= u64::MAX - base.line.len() as u64
}

/// The line that names the first record that can't stand, from 1, and why.
fn illegal_text(alloc: Global, number: u64, why: Why) -> Result<Vec<u8>, AllocError>
    ensures { IfOk result (λ text. text.items ≡ illegal_line number why) }
{
    let mut out = Vec::new(alloc);
    push_illegal(&mut out, number, why)?;
    Ok(out)
}

/// The line that counts legal records and states what is left at their end, and their sums.
fn legal_lines(
    alloc: Global,
    count: u64,
    standing: Standing,
    sums: &Sums,
) -> Result<Vec<u8>, AllocError>
    ensures { IfOk result (λ out. out.items ≡ last_line count standing ++ sums_text sums.now) }
{
    let mut out = Vec::new(alloc);
    push_last_line(&mut out, count, standing)?;
    push_sums(&mut out, sums)?;
    Ok(out)
}

/// The text of a trace with these records that was read, and is legal: the status of its requests and items, and its
/// sums. Fails only if an allocation fails.
fn legal_text(
    alloc: Global,
    trace: &ReadTrace,
    records: &[Record<Deed>],
    standing: Standing,
) -> Result<Vec<u8>, Refusal>
    requires sound { trace.now.checker.fault ≡ None }
    requires standing { IsStandingOf trace.now.checker standing }
    ensures said { IfOk result (λ out. (lines : List (List ℕ)) → IsReadWith lines trace.now records.now
        → IsSummed lines out.items) }
    ensures memory { IfErr result (λ why. why ≡ Memory) }
{
    if !may_follow(&trace.base, records) {
        return Err(Refusal::Memory);
    }
    let sums = sum_records(alloc, &trace.base, records)?;
    match legal_lines(alloc, trace.count, standing, &sums) {
        Ok(out) => Ok(out),
        Err(_) => Err(Refusal::Memory),
    }
}

/// The text of a trace with these records that was read, and whether it is legal. Fails only if an allocation fails.
fn say(
    alloc: Global,
    trace: &ReadTrace,
    records: &[Record<Deed>],
) -> Result<(bool, Vec<u8>), Refusal>
    ensures said { IfOk result (λ said. (lines : List (List ℕ)) → IsReadWith lines trace.now records.now
        → IsSaid lines said.0 said.1.items) }
    ensures memory { IfErr result (λ why. why ≡ Memory) }
{
    match trace.checker.standing() {
        Ok(standing) => Ok((true, legal_text(alloc, trace, records, standing)?)),
        Err(CheckFault::Illegal { place, why }) => match illegal_text(alloc, place, why) {
            Ok(out) => Ok((false, out)),
            Err(_) => Err(Refusal::Memory),
        },
        Err(CheckFault::Memory) => Err(Refusal::Memory),
    }
}

/// Reads a trace, of either format, and writes its sums. It keeps the records until it returns. A read takes one byte,
/// and there are at most 2^32 reads.
///
/// If the records are legal it writes the line that `check` writes, and then its sums, a fact a line, and returns true:
/// - how many records have which deed, and how many tickets which fate;
/// - the longest wait queue, and the first record after which it was so long;
/// - the ticket that stood longest in the wait queue, counted in records; of several the one with the lowest number;
/// - of each seat that has a record, or an entry of the base, how many records and requests it has, and how long one of
///   its tickets stood in the wait queue at most.
///
/// Otherwise it writes only the line that `check` writes, and returns false.
///
/// # Errors
/// - BadTrace, with the line's number, from 1: the line can't be read, as `check_trace` returns it. Nothing is written.
/// - ReadFault, if a read fails, or the input has 2^32 bytes or more: nothing is written.
/// - Memory, if an allocation fails: nothing is written.
/// - WriteFault, if a write fails or takes no byte: a prefix of the text is written.
///
/// # Example
/// From `crates/meet/src/main.rt`:
///
///     Task::Sum => sum_trace(alloc, reader, writer),
pub fn sum_trace<R: Read, W: Write>(
    alloc: Global,
    reader: &mut R,
    writer: &mut W,
) -> Result<bool, RunFault>
    ensures { IfSome (R.remaining reader.old) (λ input.
        SumEnds (lines_of input) result (W.contents writer.old) (W.contents writer.new)) }
{
    let (trace, records) = read_records(alloc, reader, MOST_READS)?;
    let (legal, out) = match say(alloc, &trace, records.as_slice()) {
        Ok(said) => said,
        Err(why) => return Err(cut_short(why)),
    };
    match write_whole(writer, out.as_slice()) {
        Ok(()) => Ok(legal),
        Err(why) => Err(cut_short(why)),
    }
}
