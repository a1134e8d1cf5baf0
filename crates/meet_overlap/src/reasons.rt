//! Reasons why no history explains calls, each found without a search.
//!
//! A reason is looked for where the marks of items make it likely, and believed only after all calls have been looked
//! at. What it claims stands in `specs/Reasons`, and that no history explains such calls is proved from there, for any
//! kind of place, with interrupts, calls that wait and calls that never end. There may be a reason that isn't found:
//! then the search decides.

ghost use Rattle.std.specs.Prelude.{IfOk, IfSome};
ghost use Rattle.meet_overlap.specs.Reasons.{IsFound, IsReason};

mod doubled;
mod kept;
mod later;
mod marks;
mod missed;
mod overlooked;
mod overtaken;
mod passed;
mod ungiven;
mod untaken;

use crate::calls::Call;
use crate::guess::Partners;
use crate::search::Stuck;
use doubled::find_doubled;
use meet_tickets::Kind;
use missed::find_missed;
use overlooked::find_overlooked;
use overtaken::find_overtaken;
use passed::find_passed;
use std::alloc::{AllocError, Global};
use ungiven::find_ungiven;
use untaken::find_untaken;

/// How many likely cases of one reason are looked at. Each look goes over all calls.
const MOST_LOOKS: usize = 16;

/// Why no history explains the calls. Calls are named by their index in the list, items by their marks.
#[derive(Clone, Copy, PartialEq, Eq, Debug)]
pub enum Reason {
    /// `taker` got the item, and no call gave it in time: each call that gives it began after `taker` had ended, or
    /// returned that the item wasn't handed over. `giver` is such a call, if there is one.
    Ungiven {
        /// The mark of the item.
        item: u64,
        /// The call that got it.
        taker: usize,
        /// A call that gives it too late, or without success.
        giver: Option<usize>,
    },
    /// `giver` handed the item over, and no call got it in time: each call that got it began after `giver` had ended.
    /// `taker` is such a call, if there is one.
    Untaken {
        /// The mark of the item.
        item: u64,
        /// The call that handed it over.
        giver: usize,
        /// A call that got it too late.
        taker: Option<usize>,
    },
    /// `taker` got the item, which was given after `giver` had put `kept` into the queue; and no call can have taken
    /// `kept` by then.
    Overtaken {
        /// The mark of the item.
        item: u64,
        /// The call that got it.
        taker: usize,
        /// The mark of the item that was ahead of it.
        kept: u64,
        /// The call that had put `kept`.
        giver: usize,
    },
    /// `second` and `first` got the item, which only `giver` gives, once.
    Doubled {
        /// The mark of the item.
        item: u64,
        /// A call that got it.
        first: usize,
        /// Another call that got it.
        second: usize,
        /// The only call that gives it.
        giver: usize,
    },
    /// `taker` found nothing, though `giver` had put the item into the queue before, and no call can have taken it by
    /// then.
    Overlooked {
        /// The mark of the item.
        item: u64,
        /// The call that found nothing.
        taker: usize,
        /// The call that had put it.
        giver: usize,
    },
    /// `caller` found no counterpart, though `waiting`, a call of the other side, waited all the time. `waiting` was
    /// seen to wait before `caller` began, and no call can have met it by the end of `caller`.
    Missed {
        /// The mark of the item that `waiting` gives, if it gives one.
        item: Option<u64>,
        /// The call that found no counterpart.
        caller: usize,
        /// The call that waited.
        waiting: usize,
    },
    /// `caller` met a call with the item though `waiting`, a call of the same side as that one, waited all the time.
    /// The turn of `waiting` came first: it was in front, or on top if the last one is met first. No call can have met
    /// `waiting` by the end of `caller`.
    Passed {
        /// The mark of the item.
        item: u64,
        /// The call that met another.
        caller: usize,
        /// The call whose turn it was.
        waiting: usize,
        /// The mark of the item that `waiting` gives, if it gives one.
        held: Option<u64>,
    },
    /// None of these was found. A search came through all orders, and this far.
    Stuck(Stuck),
}

/// A reason why no history explains the calls, if one is found. Fails only if an allocation fails.
pub(crate) fn find_reason(
    alloc: Global,
    kind: Kind,
    calls: &[Call],
    partners: &Partners,
) -> Result<Option<Reason>, AllocError>
    ensures is { IfOk result (λ found. IfSome found (IsReason kind calls.now)) }
    ensures found { IfOk result (λ found. IfSome found IsFound) }
{
    if let Some(reason) = find_ungiven(kind, calls, partners) {
        return Ok(Some(reason));
    }
    if let Some(reason) = find_untaken(kind, calls, partners) {
        return Ok(Some(reason));
    }
    if let Some(reason) = find_doubled(alloc, kind, calls)? {
        return Ok(Some(reason));
    }
    if let Some(reason) = find_overlooked(alloc, kind, calls, partners)? {
        return Ok(Some(reason));
    }
    if let Some(reason) = find_overtaken(alloc, kind, calls, partners)? {
        return Ok(Some(reason));
    }
    if let Some(reason) = find_missed(alloc, kind, calls, partners)? {
        return Ok(Some(reason));
    }
    find_passed(alloc, kind, calls, partners)
}
