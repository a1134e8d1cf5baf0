//! The check of a chain: whole traces of one place, one after another, each on the base that stands for those before
//! it.

ghost use Rattle.std.specs.Prelude.{◌≡◌, ◌⊎◌, ◌+◌, ◌^◌, ◌<◌, ◌≤◌, ◌++◌, ◌∷◌, None, Some, false, codes, IfSome, IfOk};
ghost use Rattle.std.specs.Prelude.{IfErr, OnOk};
ghost use Rattle.std.specs.Vec.{vec_capacity};
ghost use Rattle.meet_tickets.specs.declared.refusals.Refusal.TheVariants.{Memory, ReadFault};
ghost use Rattle.meet_run.specs.declared.trace.chains.Behind.TheVariants.{End};
ghost use Rattle.meet_run.specs.Texts.Reading.{UsesTurns, EndsInTurns, HasNoEnd, lines_of};
ghost use Rattle.meet_run.specs.Scripts.Running.{CannotRead, IsUnread};
ghost use Rattle.meet_run.specs.Tracing.Chains.{is_head, parts_of, fault_in_parts, chain_fault_in, IsChainFound};
ghost use Rattle.meet_run.specs.Tracing.Chains.{ChainEnds};
ghost use Rattle.meet_run.specs.Tracing.Chains.{IsPart, IsChapterRead};
ghost use Rattle.meet_run.specs.Tracing.Traces.{NamesLine, IsUnreadTrace, IsTraceFault};

use crate::text::faults::{RunFault, at_line, cut_short};
use crate::text::output::write_whole;
use crate::text::reading::{LONGEST_LINE, LineRead, MOST_READS, read_line};
use crate::text::room::room_for_lines;
use crate::trace::base_grammar::read_based_head;
use crate::trace::chain::Chain;
use crate::trace::check::{ReadTrace, read_trace};
use crate::trace::grammar::read_head;
use meet_tickets::Refusal;
use std::alloc::Global;
use std::io::{Read, Write};

/// What stands behind a part of a chain.
#[derive(Clone, Copy, PartialEq, Eq, Debug)]
pub(crate) enum Behind {
    /// The first line of another trace, which was read.
    Head,
    /// Nothing.
    End,
    /// A line of more than 128 bytes.
    TooLong,
}

/// Whether a line is the first of a trace.
fn is_head(line: &[u8]) -> bool
    ensures { result ≡ is_head line.now }
{
    read_head(line).is_some() || read_based_head(line).is_some()
}

/// Appends a line and its end. Fails only if an allocation fails.
fn keep_line(text: &mut Vec<u8>, line: &[u8]) -> Result<(), RunFault>
    ensures kept { OnOk result (text.new.items ≡ text.old.items ++ (line.now ++ codes "\n")) }
    ensures memory { IfErr result (λ fault. fault ≡ record { why = Memory; line = None }) }
{
    match (text.extend_from_slice(line), text.extend_from_slice(b"\n")) {
        (Ok(()), Ok(())) => Ok(()),
        _ => Err(cut_short(Refusal::Memory)),
    }
}

/// Reads the lines of a chain's next part into `text`, of which the first was read. The answer is how many they are,
/// and what stands behind them.
fn read_part<R: Read>(
    reader: &mut R,
    turns: &mut u64,
    line: &mut Vec<u8>,
    text: &mut Vec<u8>,
) -> Result<(u64, Behind), RunFault>
    requires room { LONGEST_LINE ≤ vec_capacity line.old }
    requires turns { turns.old + 1 < 2 ^ 64 }
    ensures part { IfOk result (λ part. HasNoEnd line.old.items → IsPart line.old.items (R.remaining reader.old)
        (R.remaining reader.new) part.0 part.1 text.new.items line.new.items) }
    ensures some { IfOk result (λ part. 0 < part.0) }
    ensures few { IfOk result (λ part. part.0 + turns.new ≤ turns.old) }
    ensures room { LONGEST_LINE ≤ vec_capacity line.new }
    ensures uses { UsesTurns (R.remaining reader.old) (R.remaining reader.new) turns.old turns.new }
    ensures ends { IfOk result (λ part. part.1 ≡ End → EndsInTurns (R.remaining reader.old) turns.old) }
    ensures faults { IfErr result (λ fault. IsUnread fault.why × (fault.line ≡ None)) }
{
    text.clear();
    keep_line(text, line.as_slice())?;
    let mut lines = 1u64;
    loop {
        match read_line(reader, turns, line) {
            LineRead::Line => {}
            LineRead::End => return Ok((lines, Behind::End)),
            LineRead::TooLong => return Ok((lines, Behind::TooLong)),
            LineRead::Failed => return Err(cut_short(Refusal::ReadFault)),
        }
        if is_head(line.as_slice()) {
            return Ok((lines, Behind::Head));
        }
        keep_line(text, line.as_slice())?;
        lines += 1;
    }
}

/// A fault of a part, as one of the text, where so many lines stand before the part. ReadFault where its number is past
/// 2^64 - 1, to which no text that is read comes.
fn in_text(before: u64, fault: RunFault) -> RunFault
    ensures line { IfSome fault.line (λ n. (result ≡ record { why = fault.why; line = Some (before + n) })
        ⊎ (result ≡ record { why = ReadFault; line = None })) }
    ensures outside { fault.line ≡ None → result ≡ fault }
{
    let Some(number) = fault.line else {
        return fault;
    };
    match before.checked_add(number) {
        Some(line) => at_line(fault.why, line),
        None => cut_short(Refusal::ReadFault),
    }
}

/// Reads a part, of which the first line was read, as a whole trace; how many lines stand before the next one, and
/// whether there is one.
fn read_chapter<R: Read>(
    alloc: Global,
    reader: &mut R,
    turns: &mut u64,
    line: &mut Vec<u8>,
    text: &mut Vec<u8>,
    before: u64,
) -> Result<(ReadTrace, u64, bool), RunFault>
    requires room { LONGEST_LINE ≤ vec_capacity line.old }
    requires turns { before + turns.old + 1 < 2 ^ 64 }
    ensures read { IfOk result (λ read. HasNoEnd line.old.items → IsChapterRead line.old.items
        (R.remaining reader.old) (R.remaining reader.new) before read.0 read.1 read.2 line.new.items) }
    ensures few { IfOk result (λ read. read.1 + turns.new ≤ before + turns.old) }
    ensures some { IfOk result (λ read. before < read.1) }
    ensures room { LONGEST_LINE ≤ vec_capacity line.new }
    ensures bad { IfErr result (λ fault. HasNoEnd line.old.items → IfSome (R.remaining reader.old) (λ rest.
        NamesLine fault (fault_in_parts before (parts_of (line.old.items ∷ lines_of rest))))) }
    ensures uses { UsesTurns (R.remaining reader.old) (R.remaining reader.new) turns.old turns.new }
    ensures ends { IfOk result (λ read. read.2 ≡ false → EndsInTurns (R.remaining reader.old) turns.old) }
    ensures faults { IfErr result IsUnreadTrace }
{
    let (lines, next) = read_part(reader, turns, line, text)?;
    let mut part = text.as_slice();
    let trace = match read_trace(alloc, &mut part, MOST_READS) {
        Ok(trace) => trace,
        Err(fault) => return Err(in_text(before, fault)),
    };
    match next {
        Behind::Head => Ok((trace, before + lines, true)),
        Behind::End => Ok((trace, before + lines, false)),
        Behind::TooLong => Err(at_line(Refusal::BadTrace, before + lines + 1)),
    }
}

/// Reads a whole chain, and says what is found of it, and the line that says so.
fn find_chain<R: Read>(
    alloc: Global,
    reader: &mut R,
    turns: u64,
) -> Result<(bool, Vec<u8>), RunFault>
    ensures found { IfOk result (λ found. IfSome (R.remaining reader.old) (λ input.
        IsChainFound (lines_of input) found.0 found.1.items)) }
    ensures bad { IfErr result (λ fault. IfSome (R.remaining reader.old) (λ input.
        NamesLine fault (chain_fault_in (lines_of input)))) }
    ensures uses { UsesTurns (R.remaining reader.old) (R.remaining reader.new) turns 0 }
    ensures spent { turns ≡ 0 → CannotRead result }
    ensures ends { OnOk result (EndsInTurns (R.remaining reader.old) turns) }
    ensures faults { IfErr result IsUnreadTrace }
{
    let mut line = room_for_lines(alloc, turns)?;
    let mut rest = turns;
    match read_line(reader, &mut rest, &mut line) {
        LineRead::Line => find_chapters(alloc, reader, &mut rest, &mut line),
        LineRead::End => Err(at_line(Refusal::BadTrace, 1)),
        LineRead::TooLong => Err(at_line(Refusal::BadTrace, 1)),
        LineRead::Failed => Err(cut_short(Refusal::ReadFault)),
    }
}

/// Says what is found of a chain, of which the first line was read, and the line that says so.
fn find_chapters<R: Read>(
    alloc: Global,
    reader: &mut R,
    turns: &mut u64,
    line: &mut Vec<u8>,
) -> Result<(bool, Vec<u8>), RunFault>
    requires room { LONGEST_LINE ≤ vec_capacity line.old }
    requires turns { turns.old + 1 < 2 ^ 64 }
    ensures found { IfOk result (λ found. HasNoEnd line.old.items → IfSome (R.remaining reader.old) (λ rest.
        IsChainFound (line.old.items ∷ lines_of rest) found.0 found.1.items)) }
    ensures bad { IfErr result (λ fault. HasNoEnd line.old.items → IfSome (R.remaining reader.old) (λ rest.
        NamesLine fault (chain_fault_in (line.old.items ∷ lines_of rest)))) }
    ensures uses { UsesTurns (R.remaining reader.old) (R.remaining reader.new) turns.old turns.new }
    ensures ends { OnOk result (EndsInTurns (R.remaining reader.old) turns.old) }
    ensures faults { IfErr result IsUnreadTrace }
{
    let mut text = Vec::new(alloc);
    let (trace, mut before, mut more) = read_chapter(alloc, reader, turns, line, &mut text, 0)?;
    let mut chain = match Chain::begin(trace) {
        Ok(chain) => chain,
        Err(why) => return Err(cut_short(why)),
    };
    while more {
        let (trace, lines, another) = read_chapter(alloc, reader, turns, line, &mut text, before)?;
        chain = match chain.take(alloc, trace) {
            Ok(chain) => chain,
            Err(why) => return Err(cut_short(why)),
        };
        before = lines;
        more = another;
    }
    match chain.found(alloc) {
        Ok(found) => Ok(found),
        Err(why) => Err(cut_short(why)),
    }
}

/// Checks a chain: whole traces of one place, of either format, one after another, each on the base that stands for
/// those before it. The whole of it is read before anything is written; the text of one trace is kept at a time, and
/// none of its records. A read takes one byte; `turns` is the most reads.
///
/// If they are one legal history on the first one's base it writes the line that a check of it as one trace would, and
/// returns true. Otherwise it writes one line and returns false. The line names the first trace, from 1, that can't
/// follow:
///
/// - it names another place (`chapter 2 OtherPlace`);
/// - its base doesn't stand for those before it (`chapter 2 OtherBase`);
/// - or a record of it can't stand (`chapter 2 illegal 7 WrongReply`).
///
/// # Errors
/// - BadTrace, with the line's number in the whole text, from 1: the line can't be read, or it stands after a trace's
///   1,048,576th record and begins no other trace. A text without a first line is a fault of line 1. That wins over
///   anything that is wrong before it. Nothing is written.
/// - ReadFault, if a read fails, or no turn is left for it: nothing is written. Without a turn it is this error in any
///   case.
/// - Memory, if an allocation fails: nothing is written.
/// - WriteFault, if a write fails or takes no byte: a prefix of the line is written.
pub fn check_chain_within<R: Read, W: Write>(
    alloc: Global,
    reader: &mut R,
    writer: &mut W,
    turns: u64,
) -> Result<bool, RunFault>
    ensures check { IfSome (R.remaining reader.old) (λ input.
        ChainEnds (lines_of input) result (W.contents writer.old) (W.contents writer.new)) }
    ensures uses { UsesTurns (R.remaining reader.old) (R.remaining reader.new) turns 0 }
    ensures spent { turns ≡ 0 → CannotRead result }
    ensures ends { OnOk result (EndsInTurns (R.remaining reader.old) turns) }
    ensures faults { IfErr result IsTraceFault }
{
    let (legal, text) = find_chain(alloc, reader, turns)?;
    match write_whole(writer, text.as_slice()) {
        Ok(()) => Ok(legal),
        Err(why) => Err(cut_short(why)),
    }
}

/// Checks a chain as `check_chain_within` does, with 2^32 reads.
///
/// # Errors
/// - BadTrace, ReadFault, Memory or WriteFault, as `check_chain_within`.
///
/// # Example
/// From `crates/meet/src/main.rt`:
///
///     Task::Chain => check_chain(alloc, reader, writer),
pub fn check_chain<R: Read, W: Write>(
    alloc: Global,
    reader: &mut R,
    writer: &mut W,
) -> Result<bool, RunFault>
    ensures check { IfSome (R.remaining reader.old) (λ input.
        ChainEnds (lines_of input) result (W.contents writer.old) (W.contents writer.new)) }
    ensures uses { UsesTurns (R.remaining reader.old) (R.remaining reader.new) (2 ^ 32) 0 }
    ensures ends { OnOk result (EndsInTurns (R.remaining reader.old) (2 ^ 32)) }
    ensures faults { IfErr result IsTraceFault }
{
    check_chain_within(alloc, reader, writer, MOST_READS)
}
