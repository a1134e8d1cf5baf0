//! The check of a trace that has a base.

ghost use Rattle.std.specs.Prelude.{◌≡◌, ◌+◌, ◌^◌, ◌<◌, ◌≤◌, [], ◌∷◌, IfSome, IfOk, IfErr, OnOk, false};
ghost use Rattle.std.specs.Vec.{vec_capacity};
ghost use Rattle.meet_tickets.specs.Bases.{IsWellFormed};
ghost use Rattle.meet_tickets.specs.Limits.{last_ticket, most_records};
ghost use Rattle.meet_run.specs.Tracing.BasedTraces.{record_from, told_from, told_behind, HasLaid, ArePushedOn};
ghost use Rattle.meet_run.specs.Tracing.BasedTraces.{IsChecked};
ghost use Rattle.meet_run.specs.Tracing.Keeping.{HasKept};
ghost use Rattle.meet_run.specs.Texts.Reading.{UsesTurns, EndsInTurns, Both, lines_of, listed};
ghost use Rattle.meet_run.specs.Tracing.Traces.{NamesLine, IsUnreadTrace};

use crate::text::faults::{RunFault, at_line, cut_short};
use crate::text::reading::{LONGEST_LINE, LineRead, read_line};
use crate::trace::base_grammar::{read_numbers, read_piece};
use crate::trace::check::ReadTrace;
use crate::trace::grammar::read_record;
use crate::trace::kept::{Kept, take_in};
use meet_history::{Checker, Ground};
use meet_tickets::{Base, Deed, Kind, MOST_RECORDS, Record, Refusal};
use std::alloc::Global;
use std::io::Read;

/// Reads the pieces of a base behind its numbers. The answer is the base, and the number of the first line that is
/// none: whether there is such a line, which was read.
fn lay_pieces<R: Read>(
    reader: &mut R,
    turns: &mut u64,
    line: &mut Vec<u8>,
    ground: Ground,
) -> Result<(Base, bool, u64), RunFault>
    requires room { LONGEST_LINE ≤ vec_capacity line.old }
    requires turns { turns.old + 2 < 2 ^ 64 }
    ensures laid { IfOk result (λ laid. HasLaid ground.kind ground.base laid.1 line.new.items laid.0 laid.2
        (R.remaining reader.old) (R.remaining reader.new)) }
    ensures well_formed { IfOk result (λ laid. IsWellFormed ground.kind laid.0) }
    ensures gone { IfOk result (λ laid. laid.0.gone ≡ ground.base.gone) }
    ensures bad { IfErr result (λ fault. IfSome (R.remaining reader.old) (λ rest.
        NamesLine fault (told_from ground.kind ground.base 3 (lines_of rest)).fault)) }
    ensures uses { UsesTurns (R.remaining reader.old) (R.remaining reader.new) turns.old turns.new }
    ensures room { LONGEST_LINE ≤ vec_capacity line.new }
    ensures ends { IfOk result (λ laid. laid.1 ≡ false → EndsInTurns (R.remaining reader.old) turns.old) }
    ensures few { IfOk result (λ laid. laid.2 + turns.new ≤ 2 + turns.old) }
    ensures faults { IfErr result IsUnreadTrace }
{
    let mut ground = ground;
    // How many lines were read.
    let mut read = 2u64;
    loop {
        match read_line(reader, turns, line) {
            LineRead::Line => match read_piece(line.as_slice()) {
                Some(piece) => {
                    if !ground.may_follow(&piece) {
                        return Err(at_line(Refusal::BadTrace, read + 1));
                    }
                    ground = match ground.lay(piece) {
                        Ok(laid) => laid,
                        Err(_) => return Err(cut_short(Refusal::Memory)),
                    };
                    read += 1;
                }
                None => return Ok((ground.into_base(), true, read + 1)),
            },
            LineRead::End => return Ok((ground.into_base(), false, read + 1)),
            LineRead::TooLong => return Err(at_line(Refusal::BadTrace, read + 1)),
            LineRead::Failed => return Err(cut_short(Refusal::ReadFault)),
        }
    }
}

/// The record of a line with this number, where the first record stands in that line.
fn read_record_from(first: u64, number: u64, line: &[u8]) -> Option<Record<Deed>>
    ensures { result ≡ record_from first number line.now }
{
    if number.saturating_sub(first) >= MOST_RECORDS {
        None
    } else {
        read_record(line)
    }
}

/// Reads records, of which the first stands in the line with this number, which was read; and takes each in. The answer
/// is how many they are.
fn push_from<R: Read>(
    reader: &mut R,
    turns: &mut u64,
    line: &mut Vec<u8>,
    checker: &mut Checker,
    kept: &mut Kept,
    first: u64,
) -> Result<u64, RunFault>
    requires room { LONGEST_LINE ≤ vec_capacity line.old }
    requires turns { first + turns.old < 2 ^ 64 }
    requires nothing { HasKept kept.old.wanted kept.old [] }
    ensures pushed { IfOk result (λ count. IfSome (R.remaining reader.old) (λ rest.
        ArePushedOn checker.old checker.new count
        (listed (record_from first) first (line.old.items ∷ lines_of rest)))) }
    ensures kept { OnOk result (IfSome (R.remaining reader.old) (λ rest. HasKept kept.old.wanted kept.new
        (listed (record_from first) first (line.old.items ∷ lines_of rest)).items)) }
    ensures kind { checker.new.place.kind ≡ checker.old.place.kind }
    ensures most { IfOk result (λ count. count ≤ most_records) }
    ensures ends { OnOk result (EndsInTurns (R.remaining reader.old) turns.old) }
    ensures bad { IfErr result (λ fault. IfSome (R.remaining reader.old) (λ rest.
        NamesLine fault (listed (record_from first) first (line.old.items ∷ lines_of rest)).fault)) }
    ensures uses { UsesTurns (R.remaining reader.old) (R.remaining reader.new) turns.old turns.new }
    ensures faults { IfErr result IsUnreadTrace }
{
    // The number of the line that was read.
    let mut number = first;
    loop {
        match read_record_from(first, number, line.as_slice()) {
            Some(entry) => {
                match take_in(kept, checker, &entry) {
                    Ok(()) => {}
                    Err(why) => return Err(cut_short(why)),
                }
            }
            None => return Err(at_line(Refusal::BadTrace, number)),
        }
        match read_line(reader, turns, line) {
            LineRead::Line => number += 1,
            LineRead::End => return Ok(number + 1 - first),
            LineRead::TooLong => return Err(at_line(Refusal::BadTrace, number + 1)),
            LineRead::Failed => return Err(cut_short(Refusal::ReadFault)),
        }
    }
}

/// Reads a base's numbers.
fn read_ground<R: Read>(
    alloc: Global,
    reader: &mut R,
    turns: &mut u64,
    line: &mut Vec<u8>,
    kind: Kind,
) -> Result<Ground, RunFault>
    requires room { LONGEST_LINE ≤ vec_capacity line.old }
    ensures ground { IfOk result (λ ground. Both (R.remaining reader.old) (R.remaining reader.new) (λ first rest.
        told_behind kind (lines_of first) ≡ told_from kind ground.base 3 (lines_of rest))) }
    ensures kind { IfOk result (λ ground. ground.kind ≡ kind) }
    ensures gone { IfOk result (λ ground. ground.base.gone ≤ last_ticket) }
    ensures bad { IfErr result (λ fault. IfSome (R.remaining reader.old) (λ rest.
        NamesLine fault (told_behind kind (lines_of rest)).fault)) }
    ensures uses { UsesTurns (R.remaining reader.old) (R.remaining reader.new) turns.old turns.new }
    ensures few { IfOk result (λ _. turns.new + 1 ≤ turns.old) }
    ensures room { LONGEST_LINE ≤ vec_capacity line.new }
    ensures faults { IfErr result IsUnreadTrace }
{
    match read_line(reader, turns, line) {
        LineRead::Line => match read_numbers(line.as_slice()) {
            Some(numbers) => Ok(Ground::new(alloc, kind, numbers.0.number(), numbers.1)),
            None => Err(at_line(Refusal::BadTrace, 2)),
        },
        LineRead::End => Err(at_line(Refusal::BadTrace, 2)),
        LineRead::TooLong => Err(at_line(Refusal::BadTrace, 2)),
        LineRead::Failed => Err(cut_short(Refusal::ReadFault)),
    }
}

/// Reads what stands behind the first line of a trace that has a base.
pub(crate) fn read_based<R: Read>(
    alloc: Global,
    reader: &mut R,
    turns: &mut u64,
    line: &mut Vec<u8>,
    kind: Kind,
    kept: &mut Kept,
) -> Result<ReadTrace, RunFault>
    requires room { LONGEST_LINE ≤ vec_capacity line.old }
    requires turns { turns.old + 1 < 2 ^ 64 }
    requires nothing { HasKept kept.old.wanted kept.old [] }
    ensures checked { IfOk result (λ trace. IfSome (R.remaining reader.old) (λ rest.
        IsChecked kind (lines_of rest) trace.base trace.checker trace.count)) }
    ensures kept { OnOk result (IfSome (R.remaining reader.old) (λ rest.
        HasKept kept.old.wanted kept.new (told_behind kind (lines_of rest)).records)) }
    ensures kind { IfOk result (λ trace. trace.kind ≡ kind) }
    ensures bad { IfErr result (λ fault. IfSome (R.remaining reader.old) (λ rest.
        NamesLine fault (told_behind kind (lines_of rest)).fault)) }
    ensures uses { UsesTurns (R.remaining reader.old) (R.remaining reader.new) turns.old turns.new }
    ensures ends { OnOk result (EndsInTurns (R.remaining reader.old) turns.old) }
    ensures faults { IfErr result IsUnreadTrace }
{
    let ground = read_ground(alloc, reader, turns, line, kind)?;
    let (base, more, first) = lay_pieces(reader, turns, line, ground)?;
    let mut checker = match Checker::new(alloc, kind, &base) {
        Ok(checker) => checker,
        Err(_) => return Err(cut_short(Refusal::Memory)),
    };
    let gone = base.gone;
    if !more {
        return Ok(ReadTrace {
            kind,
            base,
            checker,
            count: gone,
        });
    }
    let count = push_from(reader, turns, line, &mut checker, kept, first)?;
    Ok(ReadTrace {
        kind,
        base,
        checker,
        count: gone + count,
    })
}
