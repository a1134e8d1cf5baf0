//! A guess at the order in which the calls of a buffer make their records: each call makes one, at one point.
//!
//! The items go through the queue in one order, so the question has two parts, in which order, and when:
//!
//! - **Events** (`events`): the begins and the ends of the calls in one row. From here on a time is the index of an event.
//! - **Order** (`order`): the first order is one that the spans of puts and those of takes permit. Of the items that may
//!   come next it takes the one that has to be put and taken first.
//! - **Sweep** (`sweep`): for one order, a sweep over all events finds points for all calls whenever there are some. It
//!   goes from counts of made calls to the least counts that the next end asks for.
//! - **Repair** (`repair`): if the sweep dies at an event, a search moves few items (`moves`) nearby until it goes on.
//!
//! A take that never ended may be undone, or take an item that nobody got. Both are tried.

mod acts;
mod events;
mod moves;
mod order;
mod repair;
mod sweep;

use crate::calls::{Call, Patience, Verb};
use crate::guess::partners::Partners;
use acts::{Acts, acts_of, takes_on};
use events::{Events, events_of};
use meet_tickets::{Kind, Order as KindOrder};
use order::{Key, first_order};
use repair::Search;
use std::alloc::{AllocError, Global};
use sweep::points;

/// Whether calls are those of a buffer: puts that are kept, and calls that take without waiting.
pub(crate) fn is_buffer(kind: Kind, calls: &[Call]) -> bool {
    match kind.order {
        KindOrder::Transfer => calls.iter().all(|call| match call.verb {
            Verb::Keep(_) => true,
            Verb::Take(Patience::Now) => true,
            _ => false,
        }),
        _ => false,
    }
}

/// An order of the calls that starts with the first order of the items by this key, if it leads to one.
fn guess_by(
    alloc: Global,
    bound: usize,
    acts: &Acts,
    events: &Events,
    key: Key,
) -> Result<Option<Vec<usize>>, AllocError> {
    let Some(order) = first_order(alloc, events, key)? else {
        return Ok(None);
    };
    let mut search = Search::of(alloc, bound, events, order)?;
    if search.finds_points()? {
        Ok(Some(points(
            alloc,
            acts,
            events,
            &search.order,
            &search.sweep,
            &search.log,
        )?))
    } else {
        Ok(None)
    }
}

/// An order of the calls, if one of two keys leads to one. Takes that never ended take what nobody got if they are to.
fn guess_with(
    alloc: Global,
    bound: usize,
    calls: &[Call],
    partners: &Partners,
    pairs: bool,
) -> Result<Option<Vec<usize>>, AllocError> {
    let Some(acts) = acts_of(alloc, calls, partners, pairs)? else {
        return Ok(None);
    };
    let events = events_of(alloc, calls, &acts)?;
    for key in &[Key::PutsAndTakes, Key::Puts] {
        if let Some(order) = guess_by(alloc, bound, &acts, &events, *key)? {
            return Ok(Some(order));
        }
    }
    Ok(None)
}

/// A guess at the order in which the calls of a buffer make their records, by their numbers; none if no order is found.
/// Fails only if an allocation fails.
pub(crate) fn guess_buffer(
    alloc: Global,
    kind: Kind,
    calls: &[Call],
    partners: &Partners,
) -> Result<Option<Vec<usize>>, AllocError> {
    let bound = match kind.bound {
        None => usize::MAX,
        Some(most) => most as usize,
    };
    if let Some(order) = guess_with(alloc, bound, calls, partners, false)? {
        return Ok(Some(order));
    }
    if calls.iter().any(|call| takes_on(call)) {
        guess_with(alloc, bound, calls, partners, true)
    } else {
        Ok(None)
    }
}
