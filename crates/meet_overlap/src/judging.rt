//! The checker: it finds a history that explains a concurrent history of calls, or the reason why there is none.

ghost use Rattle.std.specs.Prelude.{◌<◌, length, IfOk, IfErr, IfSome, IsTrue, List};
ghost use Rattle.meet_tickets.specs.declared.records.Record.{Record};
ghost use Rattle.meet_tickets.specs.declared.records.Deed.{Deed};
ghost use Rattle.meet_overlap.specs.Explaining.{Explains};
ghost use Rattle.meet_overlap.specs.Known.{AreLatest, IsNoted};
ghost use Rattle.meet_overlap.specs.Places.{latest_at, world_of};
ghost use Rattle.meet_overlap.specs.Reasons.{IsReason};

use crate::calls::Call;
use crate::due::least_begins;
use crate::fault::Fault;
use crate::fits::{is_within, may_all_stop, tells};
use crate::guess::{guess, who_met};
use crate::next::{deed, ticket as next_ticket};
use crate::reasons::{Reason, find_reason};
use crate::search::search;
use crate::stages::stage;
use crate::turns::{is_latest, put_latest};
use crate::world::{Reached, advance, beginning};
use meet_tickets::{Deed, Kind, Record};
use std::alloc::Global;

/// The call of this number makes its next record, which is noted, as is that it is the latest of its seat; or it has
/// none, and it isn't known where the calls are then.
fn note(
    kind: Kind,
    calls: &[Call],
    reached: &mut Reached,
    latest: &mut Vec<usize>,
    number: usize,
    history: &mut Vec<Record<Deed>>,
) -> Result<bool, Fault>
    requires there { number < length calls.now }
    requires latest { AreLatest calls.now (world_of reached.old).stages (latest_at latest.old.items) }
    ensures noted { IfOk result (λ made. IsTrue made → IsNoted kind calls.now (world_of reached.old) (world_of reached.new)
        history.old.items history.new.items) }
    ensures latest { IfOk result (λ made. IsTrue made
        → AreLatest calls.now (world_of reached.new).stages (latest_at latest.new.items)) }
{
    let call = &calls[number];
    let stage = stage(&reached.window, number);
    let Some(deed) = deed(kind, &reached.place, call, &stage) else {
        return Ok(false);
    };
    let time = if reached.time < call.begin {
        call.begin
    } else {
        reached.time
    };
    if !tells(call, &deed) {
        return Ok(false);
    }
    if !is_within(call, time, &deed) {
        return Ok(false);
    }
    if !is_latest(latest.as_slice(), call.seat, number) {
        return Ok(false);
    }
    let Some(ticket) = next_ticket(&reached.place, call.verb, &stage) else {
        return Err(Fault::TicketsSpent);
    };
    let entry = Record {
        seat: call.seat,
        ticket,
        deed,
    };
    advance(kind, reached, number, time, &entry)?;
    put_latest(latest, call.seat, number)?;
    history.push(entry)?;
    Ok(true)
}

/// The history in which the calls, in this order, make their records, if they can.
fn written(
    alloc: Global,
    kind: Kind,
    calls: &[Call],
    order: &[usize],
) -> Result<Option<Vec<Record<Deed>>>, Fault>
    ensures { IfOk result (λ found. IfSome found (λ history. Explains kind calls.now history.items)) }
{
    let mut history = Vec::new(alloc);
    let mut reached = beginning(alloc);
    let mut latest = Vec::new(alloc);
    for number in order {
        let number = *number;
        if number >= calls.len() {
            return Ok(None);
        }
        if !note(kind, calls, &mut reached, &mut latest, number, &mut history)? {
            return Ok(None);
        }
    }
    if may_all_stop(calls, &reached.window) {
        Ok(Some(history))
    } else {
        Ok(None)
    }
}

/// What a search says: a history that explains the calls, or how far it came. Fails as `judge` does.
fn searched(
    alloc: Global,
    kind: Kind,
    calls: &[Call],
    limit: u64,
) -> Result<Result<Vec<Record<Deed>>, Reason>, Fault>
    ensures yes { IfOk result (λ found. IfOk found (λ history. Explains kind calls.now history.items)) }
    ensures no { IfOk result (λ found. IfErr found (λ _.
        (history : List (Record Deed)) → Explains kind calls.now history → ⊥)) }
    ensures reason { IfOk result (λ found. IfErr found (IsReason kind calls.now)) }
{
    let begins = least_begins(alloc, calls)?;
    match search(alloc, kind, calls, &begins, limit)? {
        Ok(order) => match written(alloc, kind, calls, &order)? {
            Some(history) => Ok(Ok(history)),
            None => Err(Fault::Unsure),
        },
        Err(stuck) => Ok(Err(Reason::Stuck(stuck))),
    }
}

/// Checks whether the calls of a concurrent history are linearizable, at a place of this kind that was empty when they
/// began. Returns a history that explains the calls, and that `check` of meet_history finds legal; or the reason why
/// there is none.
///
/// An order of the calls' records is guessed first, and each record of it is checked. If it can't stand, reasons why no
/// history explains the calls are looked for. Both take n log n steps. What they don't decide is searched for, in at
/// most `limit` search steps (moves), each the next record of one call.
///
/// # Errors
/// - `Memory`, if an allocation fails.
/// - `Limit`, if these search steps weren't enough.
/// - `TicketsSpent`, if there are more calls than tickets.
/// - `Unsure`, if an order was found that can't be written as a history. No proof states that this can't happen; it was
///   never seen.
///
/// # Example
/// From `crates/meet_judge/src/judging.rt`:
///
///     Queue::Place(kind) => judge(alloc, kind, calls.as_slice(), MOST_MOVES),
pub fn judge(
    alloc: Global,
    kind: Kind,
    calls: &[Call],
    limit: u64,
) -> Result<Result<Vec<Record<Deed>>, Reason>, Fault>
    ensures yes { IfOk result (λ found. IfOk found (λ history. Explains kind calls.now history.items)) }
    ensures no { IfOk result (λ found. IfErr found (λ _.
        (history : List (Record Deed)) → Explains kind calls.now history → ⊥)) }
    ensures reason { IfOk result (λ found. IfErr found (IsReason kind calls.now)) }
{
    let partners = who_met(alloc, calls)?;
    if let Some(order) = guess(alloc, kind, calls, &partners)? {
        if let Some(history) = written(alloc, kind, calls, &order)? {
            return Ok(Ok(history));
        }
    }
    if let Some(reason) = find_reason(alloc, kind, calls, &partners)? {
        return Ok(Err(reason));
    }
    searched(alloc, kind, calls, limit)
}
