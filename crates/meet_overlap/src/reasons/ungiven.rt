//! A call got an item that nobody can have given in time.

ghost use Rattle.std.specs.Prelude.{◌≡◌, ◌<◌, length, IfSome};
ghost use Rattle.meet_overlap.specs.Reasons.{IsFound, IsReason, IsUngiven};

use super::MOST_LOOKS;
use super::marks::{first_giver, none_may_give, takes};
use crate::calls::{Answer, Call};
use crate::guess::{Partners, end};
use crate::reasons::Reason;
use meet_tickets::Kind;

/// The item that the call of this number got, if no call may have given it that began by its end.
fn ungiven(calls: &[Call], number: usize) -> Option<u64>
    requires { number < length calls.now }
    ensures { IfSome result (λ mark. (is : IsUngiven calls.now) × (is.mark ≡ mark) × (is.taken.number ≡ number)) }
{
    let call = &calls[number];
    if !takes(call.verb) {
        return None;
    }
    let Some(returned) = call.returned else {
        return None;
    };
    let Answer::Got(mark) = returned.answer else {
        return None;
    };
    if none_may_give(calls, mark, returned.at) {
        Some(mark)
    } else {
        None
    }
}

/// Whether it is likely that the call of this number got an item that wasn't given in time.
fn is_likely(calls: &[Call], partners: &Partners, number: usize) -> bool
    requires { number < length calls.now }
{
    let call = &calls[number];
    let got = match call.returned {
        None => false,
        Some(returned) => match returned.answer {
            Answer::Got(_) => true,
            _ => false,
        },
    };
    got && match partners.of(number) {
        None => true,
        Some(giver) => giver < calls.len() && end(call) < calls[giver].begin,
    }
}

/// A call that got an item that nobody can have given in time, if one is found.
pub(crate) fn find_ungiven(kind: Kind, calls: &[Call], partners: &Partners) -> Option<Reason>
    ensures is { IfSome result (IsReason kind calls.now) }
    ensures found { IfSome result IsFound }
{
    let mut looks = 0;
    for number in 0..calls.len() {
        if looks < MOST_LOOKS && is_likely(calls, partners, number) {
            looks += 1;
            if let Some(item) = ungiven(calls, number) {
                return Some(Reason::Ungiven {
                    item,
                    taker: number,
                    giver: first_giver(calls, item),
                });
            }
        }
    }
    None
}
