//! Checks the text of a concurrent history of calls.

ghost use Rattle.std.specs.Prelude.{◌≡◌, ℕ, List, IfOk, IfErr, IfSome, OnOk};
ghost use Rattle.std.specs.Io.KnownBytes.{Appends};
ghost use Rattle.meet_judge.specs.CallText.{calls_text, refused_text};
ghost use Rattle.meet_judge.specs.Judging.{ExplainsAt, IsReasonAt, JudgeEnds, Judged, kind_of};

use crate::reading::read_calls_from;
use crate::writing::push_refused;
use meet_overlap::{Calls, Fault, Queue, Reason, buffer_kind, judge, judge_buffer};
use meet_run::text::faults::cut_short;
use meet_run::text::output::write_whole;
use meet_run::{RunFault, write_trace};
use meet_tickets::{Deed, Kind, Record, Refusal};
use std::alloc::Global;
use std::io::{Read, Write};

/// The most search steps (moves) of `judge_calls`: implementation-defined. They take a minute or so, and may take ten
/// gigabytes of memory.
pub const MOST_MOVES: u64 = 40_000_000;

/// Why a judge gave no answer.
fn why_of(fault: Fault) -> Refusal {
    match fault {
        Fault::Memory => Refusal::Memory,
        Fault::Limit => Refusal::HistoryFull,
        Fault::TicketsSpent => Refusal::TicketsSpent,
        Fault::Unsure => Refusal::Differs,
    }
}

/// Writes why no history explains the calls, of which there are `count`.
fn write_refused<W: Write>(
    alloc: Global,
    writer: &mut W,
    reason: Reason,
    count: usize,
) -> Result<(), Refusal>
    ensures { OnOk result (Appends (W.contents writer.old) (W.contents writer.new) (refused_text reason count)) }
{
    let mut text = Vec::new(alloc);
    match push_refused(&mut text, reason, count as u64) {
        Ok(()) => write_whole(writer, text.as_slice()),
        Err(_) => Err(Refusal::Memory),
    }
}

/// The kind of place whose histories explain the calls of a queue.
fn kind_of(queue: Queue) -> Kind
    ensures { result ≡ kind_of queue }
{
    match queue {
        Queue::Place(kind) => kind,
        Queue::Buffer(bound) => buffer_kind(bound),
    }
}

/// Judges calls by what their queue is.
fn judged(alloc: Global, calls: &Calls) -> Result<Result<Vec<Record<Deed>>, Reason>, Fault>
    ensures yes { IfOk result (λ found. IfOk found (λ history.
        ExplainsAt calls.now.queue calls.now.list.items history.items)) }
    ensures no { IfOk result (λ found. IfErr found (λ _. (history : List (Record Deed))
        → ExplainsAt calls.now.queue calls.now.list.items history → ⊥)) }
    ensures reason { IfOk result (λ found. IfErr found (IsReasonAt calls.now.queue calls.now.list.items)) }
{
    match calls.queue {
        Queue::Place(kind) => judge(alloc, kind, calls.as_slice(), MOST_MOVES),
        Queue::Buffer(bound) => judge_buffer(alloc, bound, calls.as_slice(), MOST_MOVES),
    }
}

/// Judges calls, and writes the verdict.
fn judge_read<W: Write>(alloc: Global, calls: &Calls, writer: &mut W) -> Result<bool, RunFault>
    ensures { IfOk result (λ found. (text : List ℕ) → text ≡ calls_text calls.now.queue calls.now.list.items
        → Judged text (W.contents writer.old) (W.contents writer.new) found) }
{
    let judged = match judged(alloc, calls) {
        Ok(judged) => judged,
        Err(fault) => return Err(cut_short(why_of(fault))),
    };
    match judged {
        Ok(history) => match write_trace(alloc, kind_of(calls.queue), history.as_slice(), writer) {
            Ok(()) => Ok(true),
            Err(why) => Err(cut_short(why)),
        },
        Err(reason) => match write_refused(alloc, writer, reason, calls.as_slice().len()) {
            Ok(()) => Ok(false),
            Err(why) => Err(cut_short(why)),
        },
    }
}

/// Reads the text of a concurrent history of calls, and checks whether it is linearizable. If a history explains the
/// calls it writes that as a trace, and returns true. If none does it writes one line with the reason, and returns
/// false.
///
/// The text is read line by line, and not kept. A call takes some 90 bytes while the text is read, and some 220 while
/// the calls are judged, if that needs no search.
///
/// # Errors
/// - `BadLine`, with the line, if it isn't the one spelling of a call: reading ended there.
/// - `ReadFault`, if a read fails; `WriteFault`, if a write does.
/// - `Memory`, if an allocation fails.
/// - `HistoryFull`, if 40,000,000 search steps weren't enough: that is no verdict.
/// - `TicketsSpent`, if there are more calls than tickets.
/// - `Differs`, if an order was found that can't be written as a history: that was never seen.
///
/// # Example
/// From `crates/meet/src/main.rt`:
///
///     Task::Judge => judge_calls(alloc, reader, writer),
pub fn judge_calls<R: Read, W: Write>(
    alloc: Global,
    reader: &mut R,
    writer: &mut W,
) -> Result<bool, RunFault>
    ensures { IfSome (R.remaining reader.old) (λ input.
        JudgeEnds input result (W.contents writer.old) (W.contents writer.new)) }
{
    let calls = read_calls_from(alloc, reader)?;
    judge_read(alloc, &calls, writer)
}
