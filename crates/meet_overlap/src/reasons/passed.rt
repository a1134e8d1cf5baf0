//! A call was met though one of its side, whose turn came first, waited all the time.

ghost use Rattle.std.specs.Prelude.{◌≡◌, ◌<◌, length, IsTrue, IfOk, IfSome};
ghost use Rattle.meet_overlap.specs.Reasons.{IsBehind, IsFound, IsReason, Meets};

use super::MOST_LOOKS;
use super::kept::{Look, Side, begin, waiting_throughout};
use super::marks::{gives, gives_alone};
use super::missed::{item, unmet};
use crate::calls::{Answer, Call, Verb};
use crate::guess::Partners;
use crate::reasons::Reason;
use meet_tickets::{End, Kind};
use std::alloc::{AllocError, Global};

/// With which item the first call met the second one, if it did and the third one is of the second one's side.
fn meets(caller: Verb, answer: Answer, met: Verb, other: Answer, waiting: Verb) -> Option<u64>
    ensures { IfSome result (Meets caller answer met other waiting) }
{
    match (caller, answer, met, other, waiting) {
        (Verb::Take(_), Answer::Got(mark), met, _, Verb::Give(_, _)) => {
            if gives(met, mark) { Some(mark) } else { None }
        }
        (Verb::Give(_, given), Answer::Went, Verb::Take(_), Answer::Got(mark), Verb::Take(_)) => {
            if given == mark { Some(mark) } else { None }
        }
        (Verb::Keep(given), Answer::Went, Verb::Take(_), Answer::Got(mark), Verb::Take(_)) => {
            if given == mark { Some(mark) } else { None }
        }
        _ => None,
    }
}

/// Whether a call that was seen to wait has its turn before the one that a caller met, where the line is met at this
/// end.
fn behind(end: End, seen: u64, waiting: &Call, caller: &Call, met: &Call) -> bool
    ensures { IsTrue result → IsBehind end seen waiting.now caller.now met.now }
{
    match end {
        End::Front => seen < met.begin,
        End::Back => {
            let Some(early) = met.waits else {
                return false;
            };
            early < waiting.begin && seen < caller.begin
        }
    }
}

/// That the third call met the second one though the first one, whose turn came before, waited all the time; if it is
/// so.
fn passed(kind: Kind, calls: &[Call], first: usize, second: usize, third: usize) -> Option<Reason>
    requires waits { first < length calls.now }
    requires met { second < length calls.now }
    requires came { third < length calls.now }
    ensures is { IfSome result (IsReason kind calls.now) }
    ensures found { IfSome result IsFound }
{
    let waiting = &calls[first];
    let met = &calls[second];
    let caller = &calls[third];
    let Some(seen) = waiting.waits else {
        return None;
    };
    let Some(left) = waiting.returned else {
        return None;
    };
    let Some(went) = met.returned else {
        return None;
    };
    let Some(came) = caller.returned else {
        return None;
    };
    let Some(mark) = meets(
        caller.verb,
        came.answer,
        met.verb,
        went.answer,
        waiting.verb,
    ) else {
        return None;
    };
    if !behind(kind.order.end(), seen, waiting, caller, met) {
        return None;
    }
    let giver = if gives(met.verb, mark) { second } else { third };
    if gives_alone(calls, mark, giver) && unmet(calls, first, waiting.verb, left.answer, came.at) {
        Some(Reason::Passed {
            item: mark,
            caller: third,
            waiting: first,
            held: item(waiting.verb),
        })
    } else {
        None
    }
}

/// Whether a call is of this side.
fn is_of(verb: Verb, side: Side) -> bool {
    match verb {
        Verb::Keep(_) => side == Side::Producers,
        Verb::Give(_, _) => side == Side::Producers,
        Verb::Take(_) => side == Side::Consumers,
        Verb::Interrupt(_) => false,
    }
}

/// The side that this one meets.
fn opposite(side: Side) -> Side {
    match side {
        Side::Producers => Side::Consumers,
        Side::Consumers => Side::Producers,
    }
}

/// The calls that met one of this side.
fn looks(
    alloc: Global,
    end: End,
    calls: &[Call],
    partners: &Partners,
    side: Side,
) -> Result<Vec<Look>, AllocError> {
    let mut looks = Vec::new(alloc);
    for number in 0..calls.len() {
        let call = &calls[number];
        let partner = partners.of(number);
        if let Some(met) = partner {
            if met < calls.len()
                && is_of(calls[met].verb, side)
                && is_of(call.verb, opposite(side))
            {
                let from = match end {
                    End::Front => begin(calls, partner),
                    End::Back => call.begin,
                };
                looks.push(Look { from, number })?;
            }
        }
    }
    Ok(looks)
}

/// A call that was met though one of this side, whose turn came first, waited all the time, if one is found. Fails only
/// if an allocation fails.
fn passed_of(
    alloc: Global,
    kind: Kind,
    calls: &[Call],
    partners: &Partners,
    side: Side,
) -> Result<Option<Reason>, AllocError>
    ensures is { IfOk result (λ found. IfSome found (IsReason kind calls.now)) }
    ensures found { IfOk result (λ found. IfSome found IsFound) }
{
    let end = kind.order.end();
    let looks = looks(alloc, end, calls, partners, side)?;
    let likely = waiting_throughout(alloc, end, calls, partners, side, looks, MOST_LOOKS)?;
    for there in &likely {
        let (waiting, caller) = (there.put, there.looked);
        if let Some(met) = partners.of(caller) {
            if waiting < calls.len() && met < calls.len() && caller < calls.len() {
                if let Some(reason) = passed(kind, calls, waiting, met, caller) {
                    return Ok(Some(reason));
                }
            }
        }
    }
    Ok(None)
}

/// A call that was met though one of its side, whose turn came first, waited all the time, if one is found. Fails only
/// if an allocation fails.
pub(crate) fn find_passed(
    alloc: Global,
    kind: Kind,
    calls: &[Call],
    partners: &Partners,
) -> Result<Option<Reason>, AllocError>
    ensures is { IfOk result (λ found. IfSome found (IsReason kind calls.now)) }
    ensures found { IfOk result (λ found. IfSome found IsFound) }
{
    if let Some(reason) = passed_of(alloc, kind, calls, partners, Side::Producers)? {
        return Ok(Some(reason));
    }
    passed_of(alloc, kind, calls, partners, Side::Consumers)
}
