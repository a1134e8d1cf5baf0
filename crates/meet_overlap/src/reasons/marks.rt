//! What calls do with an item of a mark.

ghost use Rattle.std.specs.Prelude.{◌≡◌, ◌↔◌, ◌<◌, length, IsTrue, IsFalse, IfSome};
ghost use Rattle.meet_overlap.specs.Marks.{Gives, HandsOver, IsGiverOf, IsOnlyGiver, IsTakerOf, IsTaking, MayGet};
ghost use Rattle.meet_overlap.specs.Marks.{MayGive, NoneGave, NoneMayGive, NoneTook};

use crate::calls::{Answer, Call, Verb};

/// Whether an item of this mark is given.
pub(crate) fn gives(verb: Verb, mark: u64) -> bool
    ensures { IsTrue result ↔ Gives verb mark }
{
    match verb {
        Verb::Keep(given) => given == mark,
        Verb::Give(_, given) => given == mark,
        Verb::Take(_) => false,
        Verb::Interrupt(_) => false,
    }
}

/// The item that is handed to a consumer, if one is.
pub(crate) fn handed(verb: Verb) -> Option<u64>
    ensures { IfSome result (HandsOver verb) }
{
    match verb {
        Verb::Keep(_) => None,
        Verb::Give(_, mark) => Some(mark),
        Verb::Take(_) => None,
        Verb::Interrupt(_) => None,
    }
}

/// Whether an item is taken.
pub(crate) fn takes(verb: Verb) -> bool
    ensures { IsTrue result ↔ IsTaking verb }
{
    match verb {
        Verb::Keep(_) => false,
        Verb::Give(_, _) => false,
        Verb::Take(_) => true,
        Verb::Interrupt(_) => false,
    }
}

/// Whether a call answers that its item went, or never ended.
fn may_give(call: &Call) -> bool
    ensures { IsFalse result → MayGive call.now → ⊥ }
{
    match call.returned {
        None => true,
        Some(returned) => returned.answer == Answer::Went,
    }
}

/// Whether a call got an item of this mark, or never ended.
fn may_get(call: &Call, mark: u64) -> bool
    ensures { IsFalse result → MayGet call.now mark → ⊥ }
{
    let Some(returned) = call.returned else {
        return true;
    };
    returned.answer == Answer::Got(mark)
}

/// Whether no call that began by this time gives an item of this mark.
pub(crate) fn none_gave(calls: &[Call], mark: u64, by: u64) -> bool
    ensures { IsTrue result → NoneGave calls.now (length calls.now) mark by }
{
    for number in 0..calls.len() {
        let call = &calls[number];
        if call.begin <= by && gives(call.verb, mark) {
            return false;
        }
    }
    true
}

/// Whether no call that began by this time may have given an item of this mark.
pub(crate) fn none_may_give(calls: &[Call], mark: u64, by: u64) -> bool
    ensures { IsTrue result → NoneMayGive calls.now (length calls.now) mark by }
{
    for number in 0..calls.len() {
        let call = &calls[number];
        if call.begin <= by && gives(call.verb, mark) && may_give(call) {
            return false;
        }
    }
    true
}

/// Whether no call that began by this time may have got an item of this mark.
pub(crate) fn none_took(calls: &[Call], mark: u64, by: u64) -> bool
    ensures { IsTrue result → NoneTook calls.now (length calls.now) mark by }
{
    for number in 0..calls.len() {
        let call = &calls[number];
        if call.begin <= by && takes(call.verb) && may_get(call, mark) {
            return false;
        }
    }
    true
}

/// Whether no other call than the one of this number gives an item of this mark.
pub(crate) fn gives_alone(calls: &[Call], mark: u64, giver: usize) -> bool
    ensures { IsTrue result → IsOnlyGiver calls.now (length calls.now) mark giver }
{
    for number in 0..calls.len() {
        let call = &calls[number];
        if number != giver && gives(call.verb, mark) {
            return false;
        }
    }
    true
}

/// The first call that gives an item of this mark.
pub(crate) fn first_giver(calls: &[Call], mark: u64) -> Option<usize>
    ensures { IfSome result (IsGiverOf calls.now mark) }
{
    for number in 0..calls.len() {
        if gives(calls[number].verb, mark) {
            return Some(number);
        }
    }
    None
}

/// Whether a call got an item of this mark.
fn has_got(call: &Call, mark: u64) -> bool
    ensures { IsTrue result → MayGet call.now mark }
{
    match call.returned {
        None => false,
        Some(returned) => returned.answer == Answer::Got(mark),
    }
}

/// The first call that takes, and got an item of this mark.
pub(crate) fn first_taker(calls: &[Call], mark: u64) -> Option<usize>
    ensures { IfSome result (IsTakerOf calls.now mark) }
{
    for number in 0..calls.len() {
        let call = &calls[number];
        if takes(call.verb) && has_got(call, mark) {
            return Some(number);
        }
    }
    None
}
