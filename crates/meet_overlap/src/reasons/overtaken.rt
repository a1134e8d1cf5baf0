//! An item was got that surely came after one that was still in the queue.

ghost use Rattle.std.specs.Prelude.{◌≡◌, ◌<◌, length, IfOk, IfSome};
ghost use Rattle.meet_overlap.specs.Reasons.{IsFound, IsReason};

use super::MOST_LOOKS;
use super::kept::{Look, begin, kept_throughout};
use super::later::none_got;
use super::marks::{none_gave, takes};
use crate::calls::{Answer, Call, Verb};
use crate::guess::Partners;
use crate::reasons::Reason;
use meet_tickets::{End, Kind};
use std::alloc::{AllocError, Global};

/// That the second call got an item which was given after the first call had put its own, and no call can have got that
/// by then; if it is so.
fn overtaken(kind: Kind, calls: &[Call], first: usize, second: usize) -> Option<Reason>
    requires put { first < length calls.now }
    requires taken { second < length calls.now }
    ensures is { IfSome result (IsReason kind calls.now) }
    ensures found { IfSome result IsFound }
{
    match kind.order.end() {
        End::Front => {}
        End::Back => return None,
    }
    let put = &calls[first];
    let taken = &calls[second];
    let Verb::Keep(kept) = put.verb else {
        return None;
    };
    if !takes(taken.verb) {
        return None;
    }
    let Some(went) = put.returned else {
        return None;
    };
    let Some(came) = taken.returned else {
        return None;
    };
    let Answer::Got(item) = came.answer else {
        return None;
    };
    let Answer::Went = went.answer else {
        return None;
    };
    if came.at < went.at {
        return None;
    }
    if none_gave(calls, item, went.at) && none_got(calls, kept, first, came.at) {
        Some(Reason::Overtaken {
            item,
            taker: second,
            kept,
            giver: first,
        })
    } else {
        None
    }
}

/// The calls that got an item, each with the begin of the call that gave it.
fn got(alloc: Global, calls: &[Call], partners: &Partners) -> Result<Vec<Look>, AllocError> {
    let mut got = Vec::new(alloc);
    for number in 0..calls.len() {
        let partner = partners.of(number);
        if takes(calls[number].verb) && partner.is_some() {
            got.push(Look {
                from: begin(calls, partner),
                number,
            })?;
        }
    }
    Ok(got)
}

/// A call that got an item which surely came after one that was still in the queue, if one is found. Fails only if an
/// allocation fails.
pub(crate) fn find_overtaken(
    alloc: Global,
    kind: Kind,
    calls: &[Call],
    partners: &Partners,
) -> Result<Option<Reason>, AllocError>
    ensures is { IfOk result (λ found. IfSome found (IsReason kind calls.now)) }
    ensures found { IfOk result (λ found. IfSome found IsFound) }
{
    let got = got(alloc, calls, partners)?;
    let likely = kept_throughout(alloc, calls, partners, got, MOST_LOOKS)?;
    for there in &likely {
        let (put, looked) = (there.put, there.looked);
        if put < calls.len() && looked < calls.len() {
            if let Some(reason) = overtaken(kind, calls, put, looked) {
                return Ok(Some(reason));
            }
        }
    }
    Ok(None)
}
