//! The check of a pool's trace.

ghost use Rattle.std.specs.Prelude.{◌≡◌, ◌+◌, ◌^◌, ◌<◌, ◌≤◌, ◌↔◌, ◌++◌, [], None, Err, IsTrue, IfSome, IfOk, IfErr};
ghost use Rattle.std.specs.Prelude.{OnOk};
ghost use Rattle.std.specs.Vec.{vec_capacity};
ghost use Rattle.meet_tickets.specs.declared.refusals.Refusal.TheVariants.{Memory};
ghost use Rattle.meet_run.specs.Texts.Reading.{UsesTurns, EndsInTurns, lines_of};
ghost use Rattle.meet_run.specs.Scripts.Running.{CannotRead};
ghost use Rattle.meet_run.specs.Tracing.Traces.{IsUnreadTrace, IsTraceFault};
ghost use Rattle.pool_core.specs.Calls.{settings_refusal};
ghost use Rattle.pool_core.specs.Histories.{no_base};
ghost use Rattle.pool_history.specs.declared.checker.PoolFault.TheVariants.{Memory as NoMemory};
ghost use Rattle.pool_history.specs.Pushing.{HasSeen};
ghost use Rattle.pool_run.specs.Checks.{why_text, pool_illegal_line, pool_records_behind, pool_fault_in, ArePushed};
ghost use Rattle.pool_run.specs.Checks.{IsFoundOfPool, IsFoundBehind, IsVerdictOf, NamesLine, PoolCheckEnds};

use crate::next::{next_pool_head, next_pool_record};
use crate::wording::push_pool_last_line;
use meet_run::text::faults::{at_line, cut_short};
use meet_run::text::next::Next;
use meet_run::text::output::write_whole;
use meet_run::text::reading::LONGEST_LINE;
use meet_run::text::room::room_for_lines;
use meet_run::text::wording::push_numbered;
use meet_run::{MOST_READS, RunFault};
use meet_tickets::Refusal;
use pool_core::Settings;
use pool_history::{PoolChecker, PoolFault, PoolWhy};
use std::alloc::{AllocError, Global};
use std::io::{Read, Write};

/// A reason's name.
fn why_word(why: PoolWhy) -> &'static [u8]
    ensures { result.now ≡ why_text why }
{
    match why {
        PoolWhy::NoSuchSeat => b"NoSuchSeat",
        PoolWhy::NotOpen => b"NotOpen",
        PoolWhy::TicketOrder => b"TicketOrder",
        PoolWhy::WrongReply => b"WrongReply",
    }
}

/// Appends the line of a trace that isn't legal.
///
/// # Errors
/// - `AllocError`, if an allocation fails: nothing is stated of what was appended.
#[tactic(auto, unfolding(crate::specs::Checks::pool_illegal_line))]
pub fn push_pool_illegal(out: &mut Vec<u8>, number: u64, why: PoolWhy) -> Result<(), AllocError>
    ensures { OnOk result (out.new.items ≡ out.old.items ++ pool_illegal_line number why) }
{
    push_numbered(out, b"illegal ", number)?;
    out.extend_from_slice(b" ")?;
    out.extend_from_slice(why_word(why))?;
    out.extend_from_slice(b"\n")
}

/// Whether a push failed since an allocation failed.
fn is_memory(pushed: Result<(), PoolFault>) -> bool
    ensures { IsTrue result ↔ (pushed ≡ Err NoMemory) }
{
    match pushed {
        Err(PoolFault::Memory) => true,
        Err(PoolFault::Illegal { place: _, why: _ }) => false,
        Ok(()) => false,
    }
}

/// Reads the records after a trace's first line, and pushes each on the checker. Returns how many they are.
fn push_records<R: Read>(
    reader: &mut R,
    turns: &mut u64,
    line: &mut Vec<u8>,
    checker: &mut PoolChecker,
) -> Result<u64, RunFault>
    requires room { LONGEST_LINE ≤ vec_capacity line.old }
    requires turns { turns.old + 1 < 2 ^ 64 }
    requires fresh { HasSeen no_base checker.old [] }
    ensures pushed { IfOk result (λ count. IfSome (R.remaining reader.old) (λ rest.
        ArePushed checker.new count (pool_records_behind (lines_of rest)))) }
    ensures settings { checker.new.pool.settings ≡ checker.old.pool.settings }
    ensures bad { IfErr result (λ fault. IfSome (R.remaining reader.old) (λ rest.
        NamesLine fault (pool_records_behind (lines_of rest)).fault)) }
    ensures uses { UsesTurns (R.remaining reader.old) (R.remaining reader.new) turns.old turns.new }
    ensures spent { turns.old ≡ 0 → CannotRead result }
    ensures ends { OnOk result (EndsInTurns (R.remaining reader.old) turns.old) }
    ensures faults { IfErr result IsUnreadTrace }
{
    // How many lines were read.
    let mut read = 1u64;
    loop {
        match next_pool_record(reader, turns, line, read) {
            Next::Read(entry) => {
                if is_memory(checker.push(entry)) {
                    return Err(cut_short(Refusal::Memory));
                }
                read += 1;
            }
            Next::Ended => return Ok(read - 1),
            Next::Faulty => return Err(at_line(Refusal::BadTrace, read + 1)),
            Next::Broken => return Err(cut_short(Refusal::ReadFault)),
        }
    }
}

/// What the checker found of `count` records, and the line that states it. Fails only if an allocation fails.
fn verdict(alloc: Global, checker: &PoolChecker, count: u64) -> Result<(bool, Vec<u8>), Refusal>
    ensures verdict { IfOk result (λ found. IsVerdictOf checker.now count found.0 found.1.items) }
    ensures memory { IfErr result (λ why. why ≡ Memory) }
{
    let mut text = Vec::new(alloc);
    match checker.counters() {
        Ok(counters) => match push_pool_last_line(&mut text, count, counters) {
            Ok(()) => Ok((true, text)),
            Err(_) => Err(Refusal::Memory),
        },
        Err(PoolFault::Illegal { place, why }) => match push_pool_illegal(&mut text, place, why) {
            Ok(()) => Ok((false, text)),
            Err(_) => Err(Refusal::Memory),
        },
        Err(PoolFault::Memory) => Err(Refusal::Memory),
    }
}

/// Reads the records after the first line of a trace of such a pool, and returns whether they are legal, and the line
/// that states it.
fn find_records<R: Read>(
    alloc: Global,
    reader: &mut R,
    turns: &mut u64,
    line: &mut Vec<u8>,
    settings: Settings,
) -> Result<(bool, Vec<u8>), RunFault>
    requires room { LONGEST_LINE ≤ vec_capacity line.old }
    requires turns { turns.old + 1 < 2 ^ 64 }
    requires fits { settings_refusal settings ≡ None }
    ensures found { IfOk result (λ found. IfSome (R.remaining reader.old) (λ rest.
        IsFoundBehind settings (lines_of rest) found.0 found.1.items)) }
    ensures bad { IfErr result (λ fault. IfSome (R.remaining reader.old) (λ rest.
        NamesLine fault (pool_records_behind (lines_of rest)).fault)) }
    ensures uses { UsesTurns (R.remaining reader.old) (R.remaining reader.new) turns.old turns.new }
    ensures ends { OnOk result (EndsInTurns (R.remaining reader.old) turns.old) }
    ensures faults { IfErr result IsUnreadTrace }
{
    let mut checker = match PoolChecker::new(alloc, settings) {
        Ok(checker) => checker,
        Err(_) => return Err(cut_short(Refusal::Memory)),
    };
    let count = push_records(reader, turns, line, &mut checker)?;
    match verdict(alloc, &checker, count) {
        Ok(found) => Ok(found),
        Err(why) => Err(cut_short(why)),
    }
}

/// Reads a whole trace, and returns whether it is legal, and the line that states it.
fn find_trace<R: Read>(
    alloc: Global,
    reader: &mut R,
    turns: u64,
) -> Result<(bool, Vec<u8>), RunFault>
    ensures found { IfOk result (λ found. IfSome (R.remaining reader.old) (λ input.
        IsFoundOfPool (lines_of input) found.0 found.1.items)) }
    ensures bad { IfErr result (λ fault. IfSome (R.remaining reader.old) (λ input.
        NamesLine fault (pool_fault_in (lines_of input)))) }
    ensures uses { UsesTurns (R.remaining reader.old) (R.remaining reader.new) turns 0 }
    ensures spent { turns ≡ 0 → CannotRead result }
    ensures ends { OnOk result (EndsInTurns (R.remaining reader.old) turns) }
    ensures faults { IfErr result IsUnreadTrace }
{
    let mut line = room_for_lines(alloc, turns)?;
    let mut rest = turns;
    match next_pool_head(reader, &mut rest, &mut line) {
        Next::Read(settings) => find_records(alloc, reader, &mut rest, &mut line, settings),
        Next::Ended => Err(at_line(Refusal::BadTrace, 1)),
        Next::Faulty => Err(at_line(Refusal::BadTrace, 1)),
        Next::Broken => Err(cut_short(Refusal::ReadFault)),
    }
}

/// Checks the pool's trace that this reader gives. The whole of it is read before anything is written, and none of its
/// records is kept: its memory is that of the state to which they lead. A read takes one byte; `turns` is the most
/// reads.
///
/// If its records are legal it writes one line that counts them and states what the pool counts at their end, and
/// returns true. Otherwise it writes one line that names the first record that can't stand, with the reason, and
/// returns false.
///
/// # Errors
/// - BadTrace, with the line's number, from 1: the line can't be read, it stands after the 1,048,576th record, or it is
///   a first line whose pool can't be made. A text without a first line is a fault of line 1. That wins over an illegal
///   record before it. Nothing is written.
/// - ReadFault, if a read fails, or no turn is left for it: nothing is written. Without a turn it is this error in any
///   case.
/// - Memory, if an allocation fails: nothing is written.
/// - WriteFault, if a write fails or takes no byte: a prefix of the line is written.
pub fn check_pool_trace_within<R: Read, W: Write>(
    alloc: Global,
    reader: &mut R,
    writer: &mut W,
    turns: u64,
) -> Result<bool, RunFault>
    ensures check { IfSome (R.remaining reader.old) (λ input.
        PoolCheckEnds (lines_of input) result (W.contents writer.old) (W.contents writer.new)) }
    ensures uses { UsesTurns (R.remaining reader.old) (R.remaining reader.new) turns 0 }
    ensures spent { turns ≡ 0 → CannotRead result }
    ensures ends { OnOk result (EndsInTurns (R.remaining reader.old) turns) }
    ensures faults { IfErr result IsTraceFault }
{
    let (legal, text) = find_trace(alloc, reader, turns)?;
    match write_whole(writer, text.as_slice()) {
        Ok(()) => Ok(legal),
        Err(why) => Err(cut_short(why)),
    }
}

/// Checks a pool's trace as `check_pool_trace_within` does, with 2^32 reads.
///
/// # Errors
/// - BadTrace, ReadFault, Memory or WriteFault, as `check_pool_trace_within`.
///
/// # Example
/// From `crates/meet/src/main.rt`:
///
///     Task::PoolCheck => check_pool_trace(alloc, reader, writer),
pub fn check_pool_trace<R: Read, W: Write>(
    alloc: Global,
    reader: &mut R,
    writer: &mut W,
) -> Result<bool, RunFault>
    ensures check { IfSome (R.remaining reader.old) (λ input.
        PoolCheckEnds (lines_of input) result (W.contents writer.old) (W.contents writer.new)) }
    ensures uses { UsesTurns (R.remaining reader.old) (R.remaining reader.new) (2 ^ 32) 0 }
    ensures ends { OnOk result (EndsInTurns (R.remaining reader.old) (2 ^ 32)) }
    ensures faults { IfErr result IsTraceFault }
{
    check_pool_trace_within(alloc, reader, writer, MOST_READS)
}
