//! Two calls got an item that one call alone gives.

ghost use Rattle.std.specs.Prelude.{◌≡◌, ◌<◌, length, IfOk, IfSome};
ghost use Rattle.meet_overlap.specs.Reasons.{IsFound, IsReason};

use super::MOST_LOOKS;
use super::marks::{first_giver, gives_alone, takes};
use crate::calls::{Answer, Call};
use crate::reasons::Reason;
use meet_tickets::Kind;
use std::alloc::{AllocError, Global};

/// A call that got an item.
#[derive(Clone, Copy, PartialEq, Eq, PartialOrd, Ord)]
struct Came {
    item: u64,
    number: usize,
}

/// That two calls got an item that one call alone gives, if it is so.
fn doubled(kind: Kind, calls: &[Call], first: usize, second: usize) -> Option<Reason>
    requires first { first < length calls.now }
    requires second { second < length calls.now }
    requires apart { first < second }
    ensures is { IfSome result (IsReason kind calls.now) }
    ensures found { IfSome result IsFound }
{
    let one = &calls[first];
    let other = &calls[second];
    if !takes(one.verb) {
        return None;
    }
    if !takes(other.verb) {
        return None;
    }
    let Some(came) = one.returned else {
        return None;
    };
    let Some(again) = other.returned else {
        return None;
    };
    let Answer::Got(item) = came.answer else {
        return None;
    };
    let Answer::Got(same) = again.answer else {
        return None;
    };
    if item != same {
        return None;
    }
    let giver = first_giver(calls, item)?;
    if gives_alone(calls, item, giver) {
        Some(Reason::Doubled {
            item,
            first,
            second,
            giver,
        })
    } else {
        None
    }
}

/// The calls that got items, by these.
fn all_got(alloc: Global, calls: &[Call]) -> Result<Vec<Came>, AllocError> {
    let mut got = Vec::new(alloc);
    for number in 0..calls.len() {
        if let Some(returned) = calls[number].returned {
            if let Answer::Got(item) = returned.answer {
                got.push(Came { item, number })?;
            }
        }
    }
    got.sort_unstable();
    Ok(got)
}

/// Two calls that got an item that one call alone gives, if they are found. Fails only if an allocation fails.
pub(crate) fn find_doubled(
    alloc: Global,
    kind: Kind,
    calls: &[Call],
) -> Result<Option<Reason>, AllocError>
    ensures is { IfOk result (λ found. IfSome found (IsReason kind calls.now)) }
    ensures found { IfOk result (λ found. IfSome found IsFound) }
{
    let got = all_got(alloc, calls)?;
    let mut looks = 0;
    for index in 1..got.len() {
        let (one, other) = (got[index - 1], got[index]);
        if one.item == other.item && looks < MOST_LOOKS {
            looks += 1;
            let (first, second) = (one.number, other.number);
            if first < second && second < calls.len() {
                if let Some(reason) = doubled(kind, calls, first, second) {
                    return Ok(Some(reason));
                }
            }
        }
    }
    Ok(None)
}
