//! Buffers: queues that keep what is put, first in, first out, and no more items than their bound. Each call
//! takes effect at one point. `specs/Buffers` says what that means.

ghost use Rattle.std.specs.Prelude.{◌≡◌, ◌++◌, ◌∷◌, [], IfOk, IfErr, OnOk, List};
ghost use Rattle.meet_tickets.specs.declared.records.Record.{Record};
ghost use Rattle.meet_tickets.specs.declared.records.Deed.{Deed};
ghost use Rattle.meet_overlap.specs.Buffers.{buffer, point_of, giver_told, taker_told, point_told, does, effects};
ghost use Rattle.meet_overlap.specs.Buffers.{AreNumbered, BufferExplains, IsBufferReason, IsNumbered, IsRenumbered};

use crate::calls::{Answer, Call, Patience, Verb};
use crate::fault::Fault;
use crate::judging::judge;
use crate::reasons::Reason;
use crate::search::Stuck;
use meet_tickets::{Deed, Kind, Order, Record};
use std::alloc::{AllocError, Global};

/// What is called, where each call takes effect at one point. An interrupt has no effect here.
fn point(verb: Verb) -> Option<Verb>
    ensures { result ≡ point_of verb }
{
    match verb {
        Verb::Keep(mark) => Some(Verb::Keep(mark)),
        Verb::Give(_, mark) => Some(Verb::Keep(mark)),
        Verb::Take(_) => Some(Verb::Take(Patience::Now)),
        Verb::Interrupt(_) => None,
    }
}

/// The same for a giver that answers this. What no such call answers stays as it is: nothing explains it.
fn giver_point(patience: Patience, mark: u64, answer: Answer) -> Option<Verb>
    ensures { result ≡ giver_told patience mark answer }
{
    match answer {
        Answer::Went => Some(Verb::Keep(mark)),
        Answer::Nothing => match patience {
            Patience::Now => Some(Verb::Keep(mark)),
            Patience::Forever => Some(Verb::Give(Patience::Forever, mark)),
            Patience::Timed => Some(Verb::Give(Patience::Timed, mark)),
        },
        Answer::Expired => match patience {
            Patience::Now => Some(Verb::Give(Patience::Now, mark)),
            Patience::Forever => Some(Verb::Give(Patience::Forever, mark)),
            Patience::Timed => None,
        },
        Answer::Interrupted => match patience {
            Patience::Now => Some(Verb::Give(Patience::Now, mark)),
            Patience::Forever => None,
            Patience::Timed => None,
        },
        Answer::Got(_) => Some(Verb::Give(patience, mark)),
        Answer::Made => Some(Verb::Give(patience, mark)),
    }
}

/// The same for a taker.
fn taker_point(patience: Patience, answer: Answer) -> Option<Verb>
    ensures { result ≡ taker_told patience answer }
{
    match answer {
        Answer::Got(_) => Some(Verb::Take(Patience::Now)),
        Answer::Nothing => Some(Verb::Take(patience)),
        Answer::Expired => match patience {
            Patience::Now => Some(Verb::Take(Patience::Now)),
            Patience::Forever => Some(Verb::Take(Patience::Forever)),
            Patience::Timed => None,
        },
        Answer::Interrupted => match patience {
            Patience::Now => Some(Verb::Take(Patience::Now)),
            Patience::Forever => None,
            Patience::Timed => None,
        },
        Answer::Went => Some(Verb::Take(patience)),
        Answer::Made => Some(Verb::Take(patience)),
    }
}

/// The same for any call that answers this.
fn point_by(verb: Verb, answer: Answer) -> Option<Verb>
    ensures { result ≡ point_told verb answer }
{
    match verb {
        Verb::Keep(mark) => Some(Verb::Keep(mark)),
        Verb::Give(patience, mark) => giver_point(patience, mark, answer),
        Verb::Take(patience) => taker_point(patience, answer),
        Verb::Interrupt(seat) => match answer {
            Answer::Made => None,
            _ => Some(Verb::Interrupt(seat)),
        },
    }
}

/// What a call does, if it can have an effect.
fn effect(call: &Call) -> Option<Verb>
    ensures { result ≡ does call.now.verb call.now.returned }
{
    match call.returned {
        None => point(call.verb),
        Some(returned) => point_by(call.verb, returned.answer),
    }
}

/// Adds the call at the point at which it takes effect, if it can have one. Fails only if an allocation fails.
fn add_effect(list: &mut Vec<Call>, call: &Call) -> Result<(), AllocError>
    ensures { OnOk result (list.new.items ≡ list.old.items ++ effects (call.now ∷ [])) }
{
    match effect(call) {
        None => Ok(()),
        Some(verb) => {
            let at_point = Call {
                seat: call.seat,
                begin: call.begin,
                waits: None,
                returned: call.returned,
                verb,
            };
            list.extend_from_slice([at_point].as_slice())
        }
    }
}

/// The calls that can have an effect. Fails only if an allocation fails.
fn all_effects(alloc: Global, calls: &[Call]) -> Result<Vec<Call>, AllocError>
    ensures { IfOk result (λ list. list.items ≡ effects calls.now) }
{
    let mut list = Vec::with_capacity(alloc, calls.len())?;
    for call in calls {
        add_effect(&mut list, call)?;
    }
    Ok(list)
}

/// The number of the call whose effect has this number among all effects, or of calls if there is none.
fn number_of(calls: &[Call], place: usize) -> usize
    ensures { IsNumbered calls.now place result }
{
    let mut effects = 0;
    for number in 0..calls.len() {
        if effect(&calls[number]).is_some() {
            if effects == place {
                return number;
            }
            effects += 1;
        }
    }
    calls.len()
}

/// The same, if there is a call.
fn number_if(calls: &[Call], place: Option<usize>) -> Option<usize>
    ensures { AreNumbered calls.now place result }
{
    match place {
        None => None,
        Some(place) => Some(number_of(calls, place)),
    }
}

/// A reason by the numbers of all calls. Of how far a search came all those are part that have no effect.
fn renumbered(calls: &[Call], effects: usize, reason: Reason) -> Reason
    ensures { IsRenumbered calls.now reason result }
{
    match reason {
        Reason::Ungiven { item, taker, giver } => Reason::Ungiven {
            item,
            taker: number_of(calls, taker),
            giver: number_if(calls, giver),
        },
        Reason::Untaken { item, giver, taker } => Reason::Untaken {
            item,
            giver: number_of(calls, giver),
            taker: number_if(calls, taker),
        },
        Reason::Overtaken {
            item,
            taker,
            kept,
            giver,
        } => Reason::Overtaken {
            item,
            taker: number_of(calls, taker),
            kept,
            giver: number_of(calls, giver),
        },
        Reason::Doubled {
            item,
            first,
            second,
            giver,
        } => Reason::Doubled {
            item,
            first: number_of(calls, first),
            second: number_of(calls, second),
            giver: number_of(calls, giver),
        },
        Reason::Overlooked { item, taker, giver } => Reason::Overlooked {
            item,
            taker: number_of(calls, taker),
            giver: number_of(calls, giver),
        },
        Reason::Missed {
            item,
            caller,
            waiting,
        } => Reason::Missed {
            item,
            caller: number_of(calls, caller),
            waiting: number_of(calls, waiting),
        },
        Reason::Passed {
            item,
            caller,
            waiting,
            held,
        } => Reason::Passed {
            item,
            caller: number_of(calls, caller),
            waiting: number_of(calls, waiting),
            held,
        },
        Reason::Stuck(stuck) => {
            let others = calls.len().saturating_sub(effects);
            Reason::Stuck(Stuck {
                call: number_if(calls, stuck.call),
                explained: stuck.explained.saturating_add(others),
            })
        }
    }
}

/// Returns the kind of place whose histories are those of a buffer: a transfer queue of this bound.
pub fn buffer_kind(bound: Option<u64>) -> Kind
    ensures { result ≡ buffer bound }
{
    Kind {
        order: Order::Transfer,
        bound,
    }
}

/// Checks whether the calls of a concurrent history are linearizable, at a buffer that was empty when they began. Returns
/// a history of a transfer queue of this bound that explains them, and that `check` of meet_history finds legal; or the
/// reason why there is none, with the indices of calls in the list.
///
/// A buffer is a queue that keeps what is put, first in, first out: at most `bound` items, or any number. Each call takes
/// effect at one point within its span, as `ArrayBlockingQueue` and `LinkedBlockingQueue` of java.util.concurrent do: a
/// put where there is room, a take where an item is kept. An immediate call fails only where there is no room, or no
/// item. A timed call whose time ran out, a call that was interrupted while it may have waited, and an interrupt have no
/// effect, and nothing is asked of them. It searches as `judge` does.
///
/// # Errors
/// - `Memory`, if an allocation fails.
/// - `Limit`, if `limit` search steps weren't enough.
/// - `TicketsSpent`, if there are more calls than tickets.
/// - `Unsure`, if an order was found that can't be written as a history: that was never seen.
///
/// # Example
/// From `crates/meet_judge/src/judging.rt`:
///
///     Queue::Buffer(bound) => judge_buffer(alloc, bound, calls.as_slice(), MOST_MOVES),
pub fn judge_buffer(
    alloc: Global,
    bound: Option<u64>,
    calls: &[Call],
    limit: u64,
) -> Result<Result<Vec<Record<Deed>>, Reason>, Fault>
    ensures yes { IfOk result (λ found. IfOk found (λ history. BufferExplains bound calls.now history.items)) }
    ensures no { IfOk result (λ found. IfErr found (λ _.
        (history : List (Record Deed)) → BufferExplains bound calls.now history → ⊥)) }
    ensures reason { IfOk result (λ found. IfErr found (IsBufferReason bound calls.now)) }
{
    let list = all_effects(alloc, calls)?;
    match judge(alloc, buffer_kind(bound), list.as_slice(), limit)? {
        Ok(history) => Ok(Ok(history)),
        Err(reason) => Ok(Err(renumbered(calls, list.len(), reason))),
    }
}
