//! A call found nothing, though an item was in the queue all the time.

ghost use Rattle.std.specs.Prelude.{◌≡◌, ◌<◌, length, IsTrue, IfOk, IfSome};
ghost use Rattle.meet_overlap.specs.Reasons.{IsFound, FindsNothing, IsReason};

use super::MOST_LOOKS;
use super::kept::{Look, kept_throughout};
use super::later::none_got;
use crate::calls::{Answer, Call, Patience, Verb};
use crate::guess::Partners;
use crate::reasons::Reason;
use meet_tickets::{End, Kind};
use std::alloc::{AllocError, Global};

/// Whether a call takes, and this answer is that nothing was found.
fn finds_nothing(verb: Verb, answer: Answer) -> bool
    ensures { IsTrue result → FindsNothing verb answer }
{
    match verb {
        Verb::Take(Patience::Now) => match answer {
            Answer::Nothing => true,
            _ => false,
        },
        Verb::Take(Patience::Timed) => match answer {
            Answer::Expired => true,
            _ => false,
        },
        _ => false,
    }
}

/// That the second call found nothing, though the first one had put an item before it began, and no call can have got
/// that by its end; if it is so.
fn overlooked(kind: Kind, calls: &[Call], first: usize, second: usize) -> Option<Reason>
    requires put { first < length calls.now }
    requires looked { second < length calls.now }
    ensures is { IfSome result (IsReason kind calls.now) }
    ensures found { IfSome result IsFound }
{
    match kind.order.end() {
        End::Front => {}
        End::Back => return None,
    }
    let put = &calls[first];
    let looked = &calls[second];
    let Verb::Keep(item) = put.verb else {
        return None;
    };
    let Some(went) = put.returned else {
        return None;
    };
    let Some(came) = looked.returned else {
        return None;
    };
    if !finds_nothing(looked.verb, came.answer) {
        return None;
    }
    let Answer::Went = went.answer else {
        return None;
    };
    if came.at < went.at {
        return None;
    }
    if went.at < looked.begin && none_got(calls, item, first, came.at) {
        Some(Reason::Overlooked {
            item,
            taker: second,
            giver: first,
        })
    } else {
        None
    }
}

/// The calls that found nothing.
fn looks(alloc: Global, calls: &[Call]) -> Result<Vec<Look>, AllocError> {
    let mut looks = Vec::new(alloc);
    for number in 0..calls.len() {
        let call = &calls[number];
        if let Some(returned) = call.returned {
            if finds_nothing(call.verb, returned.answer) {
                looks.push(Look {
                    from: call.begin,
                    number,
                })?;
            }
        }
    }
    Ok(looks)
}

/// A call that found nothing though an item was in the queue all the time, if one is found. Fails only if an allocation
/// fails.
pub(crate) fn find_overlooked(
    alloc: Global,
    kind: Kind,
    calls: &[Call],
    partners: &Partners,
) -> Result<Option<Reason>, AllocError>
    ensures is { IfOk result (λ found. IfSome found (IsReason kind calls.now)) }
    ensures found { IfOk result (λ found. IfSome found IsFound) }
{
    let looks = looks(alloc, calls)?;
    let likely = kept_throughout(alloc, calls, partners, looks, MOST_LOOKS)?;
    for there in &likely {
        let (put, looked) = (there.put, there.looked);
        if put < calls.len() && looked < calls.len() {
            if let Some(reason) = overlooked(kind, calls, put, looked) {
                return Ok(Some(reason));
            }
        }
    }
    Ok(None)
}
