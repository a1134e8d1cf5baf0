//! A call handed an item over that nobody can have got in time.

ghost use Rattle.std.specs.Prelude.{◌≡◌, ◌<◌, length, IfSome};
ghost use Rattle.meet_overlap.specs.Reasons.{IsFound, IsReason, IsUntaken};

use super::MOST_LOOKS;
use super::marks::{first_taker, handed, none_took};
use crate::calls::{Answer, Call};
use crate::guess::{Partners, end};
use crate::reasons::Reason;
use meet_tickets::Kind;

/// The item that the call of this number handed over, if no call may have got it that began by its end.
fn untaken(calls: &[Call], number: usize) -> Option<u64>
    requires { number < length calls.now }
    ensures { IfSome result (λ mark. (is : IsUntaken calls.now) × (is.mark ≡ mark) × (is.given.number ≡ number)) }
{
    let call = &calls[number];
    let Some(mark) = handed(call.verb) else {
        return None;
    };
    let Some(returned) = call.returned else {
        return None;
    };
    let Answer::Went = returned.answer else {
        return None;
    };
    if none_took(calls, mark, returned.at) {
        Some(mark)
    } else {
        None
    }
}

/// Whether it is likely that the call of this number handed an item over that wasn't taken in time.
fn is_likely(calls: &[Call], partners: &Partners, number: usize) -> bool
    requires { number < length calls.now }
{
    let call = &calls[number];
    let went = match call.returned {
        None => false,
        Some(returned) => returned.answer == Answer::Went && handed(call.verb).is_some(),
    };
    went && match partners.of(number) {
        None => true,
        Some(taker) => taker < calls.len() && end(call) < calls[taker].begin,
    }
}

/// A call that handed an item over that nobody can have got in time, if one is found.
pub(crate) fn find_untaken(kind: Kind, calls: &[Call], partners: &Partners) -> Option<Reason>
    ensures is { IfSome result (IsReason kind calls.now) }
    ensures found { IfSome result IsFound }
{
    let mut looks = 0;
    for number in 0..calls.len() {
        if looks < MOST_LOOKS && is_likely(calls, partners, number) {
            looks += 1;
            if let Some(item) = untaken(calls, number) {
                return Some(Reason::Untaken {
                    item,
                    giver: number,
                    taker: first_taker(calls, item),
                });
            }
        }
    }
    None
}
