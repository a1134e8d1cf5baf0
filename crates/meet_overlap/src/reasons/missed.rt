//! A call found nobody, though one of the other side waited all the time.

ghost use Rattle.std.specs.Prelude.{◌≡◌, ◌<◌, length, IsTrue, IfOk, IfSome};
ghost use Rattle.meet_overlap.specs.Reasons.{IsFound, IsReason, IsUnmet, Misses, item_of};

use super::MOST_LOOKS;
use super::kept::{Look, Side, waiting_throughout};
use super::later::none_got;
use super::marks::none_may_give;
use crate::calls::{Answer, Call, Patience, Verb};
use crate::guess::Partners;
use crate::reasons::Reason;
use meet_tickets::{End, Kind};
use std::alloc::{AllocError, Global};

/// The side that a call meets which found nobody.
fn missed_side(verb: Verb, answer: Answer) -> Option<Side> {
    match (verb, answer) {
        (Verb::Take(Patience::Now), Answer::Nothing) => Some(Side::Producers),
        (Verb::Take(Patience::Timed), Answer::Expired) => Some(Side::Producers),
        (Verb::Give(Patience::Now, _), Answer::Nothing) => Some(Side::Consumers),
        (Verb::Give(Patience::Timed, _), Answer::Expired) => Some(Side::Consumers),
        _ => None,
    }
}

/// Whether the first call's answer is that nobody was there, and the second one is of the other side.
fn misses(verb: Verb, answer: Answer, other: Verb) -> bool
    ensures { IsTrue result → Misses verb answer other }
{
    match (verb, answer, other) {
        (Verb::Take(Patience::Now), Answer::Nothing, Verb::Give(_, _)) => true,
        (Verb::Take(Patience::Timed), Answer::Expired, Verb::Give(_, _)) => true,
        (Verb::Give(Patience::Now, _), Answer::Nothing, Verb::Take(_)) => true,
        (Verb::Give(Patience::Timed, _), Answer::Expired, Verb::Take(_)) => true,
        _ => false,
    }
}

/// Whether a call's answer is that it was met, and none can have met it by this time. If it gives an item, it is the
/// call of this number.
pub(super) fn unmet(calls: &[Call], number: usize, verb: Verb, answer: Answer, by: u64) -> bool
    ensures { IsTrue result → IsUnmet calls.now verb answer by }
{
    match (verb, answer) {
        (Verb::Give(_, mark), Answer::Went) => none_got(calls, mark, number, by),
        (Verb::Take(_), Answer::Got(mark)) => none_may_give(calls, mark, by),
        _ => false,
    }
}

/// The item that a call gives, if it gives one.
pub(super) fn item(verb: Verb) -> Option<u64>
    ensures { result ≡ item_of verb }
{
    match verb {
        Verb::Keep(mark) => Some(mark),
        Verb::Give(_, mark) => Some(mark),
        Verb::Take(_) => None,
        Verb::Interrupt(_) => None,
    }
}

/// That the second call found nobody, though the first one, which is of the other side, was seen to wait before it
/// began, and no call can have met that by its end; if it is so.
fn missed(kind: Kind, calls: &[Call], first: usize, second: usize) -> Option<Reason>
    requires waits { first < length calls.now }
    requires finds { second < length calls.now }
    ensures is { IfSome result (IsReason kind calls.now) }
    ensures found { IfSome result IsFound }
{
    let waiting = &calls[first];
    let caller = &calls[second];
    let Some(seen) = waiting.waits else {
        return None;
    };
    let Some(met) = waiting.returned else {
        return None;
    };
    let Some(came) = caller.returned else {
        return None;
    };
    if !misses(caller.verb, came.answer, waiting.verb) {
        return None;
    }
    if seen < caller.begin && unmet(calls, first, waiting.verb, met.answer, came.at) {
        Some(Reason::Missed {
            item: item(waiting.verb),
            caller: second,
            waiting: first,
        })
    } else {
        None
    }
}

/// The calls that found nobody of this side.
fn looks(alloc: Global, calls: &[Call], side: Side) -> Result<Vec<Look>, AllocError> {
    let mut looks = Vec::new(alloc);
    for number in 0..calls.len() {
        let call = &calls[number];
        if let Some(returned) = call.returned {
            if missed_side(call.verb, returned.answer) == Some(side) {
                looks.push(Look {
                    from: call.begin,
                    number,
                })?;
            }
        }
    }
    Ok(looks)
}

/// A call that found nobody though one of this side waited all the time, if one is found. Fails only if an allocation
/// fails.
fn missed_of(
    alloc: Global,
    kind: Kind,
    calls: &[Call],
    partners: &Partners,
    side: Side,
) -> Result<Option<Reason>, AllocError>
    ensures is { IfOk result (λ found. IfSome found (IsReason kind calls.now)) }
    ensures found { IfOk result (λ found. IfSome found IsFound) }
{
    let looks = looks(alloc, calls, side)?;
    let likely = waiting_throughout(alloc, End::Front, calls, partners, side, looks, MOST_LOOKS)?;
    for there in &likely {
        let (waiting, caller) = (there.put, there.looked);
        if waiting < calls.len() && caller < calls.len() {
            if let Some(reason) = missed(kind, calls, waiting, caller) {
                return Ok(Some(reason));
            }
        }
    }
    Ok(None)
}

/// A call that found nobody though one of the other side waited all the time, if one is found. Fails only if an
/// allocation fails.
pub(crate) fn find_missed(
    alloc: Global,
    kind: Kind,
    calls: &[Call],
    partners: &Partners,
) -> Result<Option<Reason>, AllocError>
    ensures is { IfOk result (λ found. IfSome found (IsReason kind calls.now)) }
    ensures found { IfOk result (λ found. IfSome found IsFound) }
{
    if let Some(reason) = missed_of(alloc, kind, calls, partners, Side::Producers)? {
        return Ok(Some(reason));
    }
    missed_of(alloc, kind, calls, partners, Side::Consumers)
}
