//! The check of a trace.

ghost use Rattle.std.specs.Prelude.{◌≡◌, ◌+◌, ◌^◌, ◌<◌, ◌≤◌, [], IfSome, IfOk, IfErr, OnOk};
ghost use Rattle.std.specs.Vec.{vec_capacity};
ghost use Rattle.meet_tickets.specs.declared.refusals.Refusal.TheVariants.{Memory};
ghost use Rattle.meet_history.specs.Pushing.{HasSeen};
ghost use Rattle.meet_tickets.specs.Bases.{no_base};
ghost use Rattle.meet_run.specs.Texts.Reading.{UsesTurns, EndsInTurns, lines_of};
ghost use Rattle.meet_run.specs.Scripts.Running.{CannotRead};
ghost use Rattle.meet_run.specs.Tracing.Traces.{records_behind, trace_fault_in, NamesLine, IsFoundIn, CheckEnds};
ghost use Rattle.meet_run.specs.Tracing.Traces.{ArePushed};
ghost use Rattle.meet_run.specs.Tracing.Keeping.{HasKept};
ghost use Rattle.meet_run.specs.Tracing.Traces.{IsRead, IsReadWith, IsReadInto, IsVerdictOf, IsUnreadTrace};
ghost use Rattle.meet_run.specs.Tracing.Traces.{IsTraceFault};

use crate::text::faults::{RunFault, at_line, cut_short};
use crate::text::next::Next;
use crate::text::output::write_whole;
use crate::text::reading::{LONGEST_LINE, LineRead, MOST_READS, read_line};
use crate::text::room::room_for_lines;
use crate::text::wording::push_last_line;
use crate::trace::base_grammar::read_based_head;
use crate::trace::based::read_based;
use crate::trace::grammar::read_head;
use crate::trace::kept::{Kept, take_in};
use crate::trace::next::next_record;
use crate::trace::wording::push_illegal;
use meet_history::{CheckFault, Checker};
use meet_tickets::{Base, Deed, Kind, Record, Refusal};
use std::alloc::Global;
use std::io::{Read, Write};

/// A whole trace that was read.
#[derive(Drop)]
pub struct ReadTrace {
    /// The kind of its place.
    pub kind: Kind,
    /// Its base: the empty one if it names none.
    pub base: Base,
    /// The checker that has seen its records.
    pub checker: Checker,
    /// How many records there are from the first, those of the base included.
    pub count: u64,
}

/// Reads the records behind a trace's first line, and takes each in. The answer is how many they are.
fn push_records<R: Read>(
    reader: &mut R,
    turns: &mut u64,
    line: &mut Vec<u8>,
    checker: &mut Checker,
    kept: &mut Kept,
) -> Result<u64, RunFault>
    requires room { LONGEST_LINE ≤ vec_capacity line.old }
    requires turns { turns.old + 1 < 2 ^ 64 }
    requires fresh { HasSeen no_base checker.old [] }
    requires nothing { HasKept kept.old.wanted kept.old [] }
    ensures pushed { IfOk result (λ count. IfSome (R.remaining reader.old) (λ rest.
        ArePushed checker.new count (records_behind (lines_of rest)))) }
    ensures kept { OnOk result (IfSome (R.remaining reader.old) (λ rest.
        HasKept kept.old.wanted kept.new (records_behind (lines_of rest)).items)) }
    ensures kind { checker.new.place.kind ≡ checker.old.place.kind }
    ensures bad { IfErr result (λ fault. IfSome (R.remaining reader.old) (λ rest.
        NamesLine fault (records_behind (lines_of rest)).fault)) }
    ensures uses { UsesTurns (R.remaining reader.old) (R.remaining reader.new) turns.old turns.new }
    ensures spent { turns.old ≡ 0 → CannotRead result }
    ensures ends { OnOk result (EndsInTurns (R.remaining reader.old) turns.old) }
    ensures faults { IfErr result IsUnreadTrace }
{
    // How many lines were read.
    let mut read = 1u64;
    loop {
        match next_record(reader, turns, line, read) {
            Next::Read(entry) => {
                match take_in(kept, checker, &entry) {
                    Ok(()) => {}
                    Err(why) => return Err(cut_short(why)),
                }
                read += 1;
            }
            Next::Ended => return Ok(read - 1),
            Next::Faulty => return Err(at_line(Refusal::BadTrace, read + 1)),
            Next::Broken => return Err(cut_short(Refusal::ReadFault)),
        }
    }
}

/// What the checker found of this many records, and the line that says so. Fails only if an allocation fails.
fn verdict(alloc: Global, checker: &Checker, count: u64) -> Result<(bool, Vec<u8>), Refusal>
    ensures verdict { IfOk result (λ found. IsVerdictOf checker.now count found.0 found.1.items) }
    ensures memory { IfErr result (λ why. why ≡ Memory) }
{
    let mut text = Vec::new(alloc);
    match checker.standing() {
        Ok(standing) => match push_last_line(&mut text, count, standing) {
            Ok(()) => Ok((true, text)),
            Err(_) => Err(Refusal::Memory),
        },
        Err(CheckFault::Illegal { place, why }) => match push_illegal(&mut text, place, why) {
            Ok(()) => Ok((false, text)),
            Err(_) => Err(Refusal::Memory),
        },
        Err(CheckFault::Memory) => Err(Refusal::Memory),
    }
}

/// Reads the records behind the first line of a trace of this kind of place, which names no base.
fn read_plain<R: Read>(
    alloc: Global,
    reader: &mut R,
    turns: &mut u64,
    line: &mut Vec<u8>,
    kind: Kind,
    kept: &mut Kept,
) -> Result<ReadTrace, RunFault>
    requires room { LONGEST_LINE ≤ vec_capacity line.old }
    requires turns { turns.old + 1 < 2 ^ 64 }
    requires nothing { HasKept kept.old.wanted kept.old [] }
    ensures pushed { IfOk result (λ trace. IfSome (R.remaining reader.old) (λ rest.
        ArePushed trace.checker trace.count (records_behind (lines_of rest)))) }
    ensures kept { OnOk result (IfSome (R.remaining reader.old) (λ rest.
        HasKept kept.old.wanted kept.new (records_behind (lines_of rest)).items)) }
    ensures kind { IfOk result (λ trace. trace.kind ≡ kind) }
    ensures own { IfOk result (λ trace. trace.checker.place.kind ≡ kind) }
    ensures base { IfOk result (λ trace. trace.base ≡ no_base) }
    ensures bad { IfErr result (λ fault. IfSome (R.remaining reader.old) (λ rest.
        NamesLine fault (records_behind (lines_of rest)).fault)) }
    ensures uses { UsesTurns (R.remaining reader.old) (R.remaining reader.new) turns.old turns.new }
    ensures ends { OnOk result (EndsInTurns (R.remaining reader.old) turns.old) }
    ensures faults { IfErr result IsUnreadTrace }
{
    let base = Base::empty(alloc);
    let mut checker = match Checker::new(alloc, kind, &base) {
        Ok(checker) => checker,
        Err(_) => return Err(cut_short(Refusal::Memory)),
    };
    let count = push_records(reader, turns, line, &mut checker, kept)?;
    Ok(ReadTrace {
        kind,
        base,
        checker,
        count,
    })
}

/// Reads a whole trace, of either format, by at most so many reads, and keeps its records where they are wanted.
fn read_into<R: Read>(
    alloc: Global,
    reader: &mut R,
    turns: u64,
    kept: &mut Kept,
) -> Result<ReadTrace, RunFault>
    requires { HasKept kept.old.wanted kept.old [] }
    ensures read { IfOk result (λ trace. IfSome (R.remaining reader.old) (λ input.
        IsReadInto (lines_of input) trace kept.old.wanted kept.new)) }
    ensures bad { IfErr result (λ fault. IfSome (R.remaining reader.old) (λ input.
        NamesLine fault (trace_fault_in (lines_of input)))) }
    ensures uses { UsesTurns (R.remaining reader.old) (R.remaining reader.new) turns 0 }
    ensures spent { turns ≡ 0 → CannotRead result }
    ensures ends { OnOk result (EndsInTurns (R.remaining reader.old) turns) }
    ensures faults { IfErr result IsUnreadTrace }
{
    let mut line = room_for_lines(alloc, turns)?;
    let mut rest = turns;
    match read_line(reader, &mut rest, &mut line) {
        LineRead::Line => match read_head(line.as_slice()) {
            Some(kind) => read_plain(alloc, reader, &mut rest, &mut line, kind, kept),
            None => match read_based_head(line.as_slice()) {
                Some(kind) => read_based(alloc, reader, &mut rest, &mut line, kind, kept),
                None => Err(at_line(Refusal::BadTrace, 1)),
            },
        },
        LineRead::End => Err(at_line(Refusal::BadTrace, 1)),
        LineRead::TooLong => Err(at_line(Refusal::BadTrace, 1)),
        LineRead::Failed => Err(cut_short(Refusal::ReadFault)),
    }
}

/// Reads a whole trace, of either format, by `turns` reads at most. It keeps none of the records.
///
/// # Errors
/// - BadTrace, with the line that can't be read.
/// - ReadFault, if a read fails, or no turn is left for it.
/// - Memory, if an allocation fails.
pub fn read_trace<R: Read>(alloc: Global, reader: &mut R, turns: u64) -> Result<ReadTrace, RunFault>
    ensures read { IfOk result (λ trace. IfSome (R.remaining reader.old) (λ input. IsRead (lines_of input) trace)) }
    ensures bad { IfErr result (λ fault. IfSome (R.remaining reader.old) (λ input.
        NamesLine fault (trace_fault_in (lines_of input)))) }
    ensures uses { UsesTurns (R.remaining reader.old) (R.remaining reader.new) turns 0 }
    ensures spent { turns ≡ 0 → CannotRead result }
    ensures ends { OnOk result (EndsInTurns (R.remaining reader.old) turns) }
    ensures faults { IfErr result IsUnreadTrace }
{
    let mut nothing = Kept::nothing(alloc);
    read_into(alloc, reader, turns, &mut nothing)
}

/// Reads a whole trace as `read_trace` does, and keeps its records.
///
/// # Errors
/// - BadTrace, ReadFault or Memory, as `read_trace`.
pub fn read_records<R: Read>(
    alloc: Global,
    reader: &mut R,
    turns: u64,
) -> Result<(ReadTrace, Vec<Record<Deed>>), RunFault>
    ensures read { IfOk result (λ read. IfSome (R.remaining reader.old) (λ input.
        IsReadWith (lines_of input) read.0 read.1.items)) }
    ensures bad { IfErr result (λ fault. IfSome (R.remaining reader.old) (λ input.
        NamesLine fault (trace_fault_in (lines_of input)))) }
    ensures uses { UsesTurns (R.remaining reader.old) (R.remaining reader.new) turns 0 }
    ensures spent { turns ≡ 0 → CannotRead result }
    ensures ends { OnOk result (EndsInTurns (R.remaining reader.old) turns) }
    ensures faults { IfErr result IsUnreadTrace }
{
    let mut kept = Kept::all(alloc);
    let trace = read_into(alloc, reader, turns, &mut kept)?;
    Ok((trace, kept.into_records()))
}

/// Reads a whole trace, and returns whether it is legal, and the line that states so.
///
/// # Errors
/// - BadTrace, ReadFault or Memory, as `read_trace`.
pub fn find_trace<R: Read>(
    alloc: Global,
    reader: &mut R,
    turns: u64,
) -> Result<(bool, Vec<u8>), RunFault>
    ensures found { IfOk result (λ found. IfSome (R.remaining reader.old) (λ input.
        IsFoundIn (lines_of input) found.0 found.1.items)) }
    ensures bad { IfErr result (λ fault. IfSome (R.remaining reader.old) (λ input.
        NamesLine fault (trace_fault_in (lines_of input)))) }
    ensures uses { UsesTurns (R.remaining reader.old) (R.remaining reader.new) turns 0 }
    ensures spent { turns ≡ 0 → CannotRead result }
    ensures ends { OnOk result (EndsInTurns (R.remaining reader.old) turns) }
    ensures faults { IfErr result IsUnreadTrace }
{
    let trace = read_trace(alloc, reader, turns)?;
    match verdict(alloc, &trace.checker, trace.count) {
        Ok(found) => Ok(found),
        Err(why) => Err(cut_short(why)),
    }
}

/// Checks the trace that this reader gives. The whole of it is read before anything is written, and none of its records
/// is kept: its memory is that of the state to which they lead. A read takes one byte; `turns` is the most reads.
///
/// If its records are legal it writes one line that counts them and states what is left at their end, and returns true.
/// Otherwise it writes one line that names the first record that can't stand, with the reason, and returns false.
///
/// # Errors
/// - BadTrace, with the line's number, from 1: the line can't be read, or it stands after the 1,048,576th record. A
///   text without a first line is a fault of line 1. That wins over an illegal record before it. Nothing is written.
/// - ReadFault, if a read fails, or no turn is left for it: nothing is written. Without a turn it is this error in any
///   case.
/// - Memory, if an allocation fails: nothing is written.
/// - WriteFault, if a write fails or takes no byte: a prefix of the line is written.
pub fn check_trace_within<R: Read, W: Write>(
    alloc: Global,
    reader: &mut R,
    writer: &mut W,
    turns: u64,
) -> Result<bool, RunFault>
    ensures check { IfSome (R.remaining reader.old) (λ input.
        CheckEnds (lines_of input) result (W.contents writer.old) (W.contents writer.new)) }
    ensures uses { UsesTurns (R.remaining reader.old) (R.remaining reader.new) turns 0 }
    ensures spent { turns ≡ 0 → CannotRead result }
    ensures ends { OnOk result (EndsInTurns (R.remaining reader.old) turns) }
    ensures faults { IfErr result IsTraceFault }
{
    let (legal, text) = find_trace(alloc, reader, turns)?;
    match write_whole(writer, text.as_slice()) {
        Ok(()) => Ok(legal),
        Err(why) => Err(cut_short(why)),
    }
}

/// Checks a trace as `check_trace_within` does, with 2^32 reads.
///
/// # Errors
/// - BadTrace, ReadFault, Memory or WriteFault, as `check_trace_within`.
///
/// # Example
/// From `crates/meet/src/main.rt`:
///
///     Task::Check => check_trace(alloc, reader, writer),
pub fn check_trace<R: Read, W: Write>(
    alloc: Global,
    reader: &mut R,
    writer: &mut W,
) -> Result<bool, RunFault>
    ensures check { IfSome (R.remaining reader.old) (λ input.
        CheckEnds (lines_of input) result (W.contents writer.old) (W.contents writer.new)) }
    ensures uses { UsesTurns (R.remaining reader.old) (R.remaining reader.new) (2 ^ 32) 0 }
    ensures ends { OnOk result (EndsInTurns (R.remaining reader.old) (2 ^ 32)) }
    ensures faults { IfErr result IsTraceFault }
{
    check_trace_within(alloc, reader, writer, MOST_READS)
}
