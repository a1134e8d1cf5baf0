//! What the calls of a buffer do: which items they put and take, and which of them find the queue empty or full.

use crate::calls::{Answer, Call, Verb};
use crate::guess::partners::{Partners, end};
use std::alloc::{AllocError, Global};

/// An item: the call that puts it, and the one that takes it if there is one.
#[derive(Clone, Copy)]
pub(super) struct Item {
    pub(super) put: usize,
    pub(super) take: Option<usize>,
}

/// What a call does.
#[derive(Clone, Copy)]
pub(super) enum Act {
    /// Nothing: it never ended, and nobody needs it.
    Nothing,
    /// It puts the item of this index.
    Puts(usize),
    /// It takes the item of this index.
    Takes(usize),
    /// It finds the queue empty.
    FindsEmpty,
    /// It finds the queue full.
    FindsFull,
}

/// The items, and what each call does.
#[derive(Drop)]
pub(super) struct Acts {
    pub(super) items: Vec<Item>,
    of: Vec<Act>,
}

impl Acts {
    /// What the call of this number does.
    pub(super) fn of(&self, number: usize) -> Act {
        if number < self.of.len() {
            self.of[number]
        } else {
            Act::Nothing
        }
    }

    /// The item of this index.
    pub(super) fn item(&self, index: usize) -> Option<Item> {
        if index < self.items.len() {
            Some(self.items[index])
        } else {
            None
        }
    }

    /// The call takes the item of this index.
    fn take(&mut self, number: usize, index: usize) {
        if number < self.of.len() && index < self.items.len() {
            self.of[number] = Act::Takes(index);
            self.items[index].take = Some(number);
        }
    }
}

/// An item that nobody got, by the time at which its put had to be made.
#[derive(Clone, Copy, PartialEq, Eq, PartialOrd, Ord)]
struct Left {
    ended: u64,
    index: usize,
}

/// Whether a call takes, and never ended.
pub(super) fn takes_on(call: &Call) -> bool {
    match call.verb {
        Verb::Take(_) => call.returned.is_none(),
        _ => false,
    }
}

/// What a call does that doesn't put an item which takes `index`; none if no order explains its answer.
fn act_of(call: &Call, partner: Option<usize>, index: usize) -> Option<Act> {
    let answer = match call.returned {
        None => None,
        Some(returned) => Some(returned.answer),
    };
    match call.verb {
        Verb::Keep(_) => match answer {
            None => Some(Act::Puts(index)),
            Some(Answer::Went) => Some(Act::Puts(index)),
            Some(Answer::Nothing) => Some(Act::FindsFull),
            Some(_) => None,
        },
        Verb::Take(_) => match answer {
            None => Some(Act::Nothing),
            Some(Answer::Nothing) => Some(Act::FindsEmpty),
            Some(Answer::Got(_)) => {
                if partner.is_some() {
                    Some(Act::Nothing)
                } else {
                    None
                }
            }
            Some(_) => None,
        },
        _ => None,
    }
}

/// What each call does, but for the takes.
fn puts_of(alloc: Global, calls: &[Call], partners: &Partners) -> Result<Option<Acts>, AllocError> {
    let mut acts = Acts {
        items: Vec::new(alloc),
        of: Vec::with_capacity(alloc, calls.len())?,
    };
    for number in 0..calls.len() {
        let Some(act) = act_of(&calls[number], partners.of(number), acts.items.len()) else {
            return Ok(None);
        };
        if let Act::Puts(_) = act {
            acts.items.push(Item {
                put: number,
                take: None,
            })?;
        }
        acts.of.push(act)?;
    }
    Ok(Some(acts))
}

/// The items that nobody got, in the order in which they had to be put.
fn left_items(alloc: Global, calls: &[Call], acts: &Acts) -> Result<Vec<Left>, AllocError> {
    let mut left = Vec::new(alloc);
    for index in 0..acts.items.len() {
        let item = acts.items[index];
        if item.take.is_none() && item.put < calls.len() {
            left.push(Left {
                ended: end(&calls[item.put]),
                index,
            })?;
        }
    }
    left.sort_unstable();
    Ok(left)
}

/// Takes that never ended take the items that nobody got.
fn pair_left(alloc: Global, calls: &[Call], acts: &mut Acts) -> Result<(), AllocError> {
    let left = left_items(alloc, calls, acts)?;
    let mut next = 0;
    for number in 0..calls.len() {
        if takes_on(&calls[number]) && next < left.len() {
            acts.take(number, left[next].index);
            next += 1;
        }
    }
    Ok(())
}

/// What each call does; none if a call got an item that none put, or answers what no such call does. Takes that never
/// ended take what nobody got if they are to. Fails only if an allocation fails.
pub(super) fn acts_of(
    alloc: Global,
    calls: &[Call],
    partners: &Partners,
    pairs: bool,
) -> Result<Option<Acts>, AllocError> {
    let Some(mut acts) = puts_of(alloc, calls, partners)? else {
        return Ok(None);
    };
    for index in 0..acts.items.len() {
        if index < acts.items.len() {
            if let Some(taker) = partners.of(acts.items[index].put) {
                acts.take(taker, index);
            }
        }
    }
    if pairs {
        pair_left(alloc, calls, &mut acts)?;
    }
    Ok(Some(acts))
}
