//! Calls whose item was kept in the queue, or that waited there themselves, throughout another call.

use crate::calls::{Answer, Call, Verb};
use crate::guess::{Partners, end};
use meet_tickets::End;
use std::alloc::{AllocError, Global};

/// How many stays are tried for one look.
const FEW: usize = 8;

/// A call that stood in the wait queue, or whose item did: from when it surely stood there, and when the call began
/// that met it.
#[derive(Clone, Copy, PartialEq, Eq, PartialOrd, Ord)]
struct Stay {
    from: u64,
    met: u64,
    number: usize,
}

/// A call, and the time from which another one must have been there.
#[derive(Clone, Copy, PartialEq, Eq, PartialOrd, Ord)]
pub(crate) struct Look {
    pub(crate) from: u64,
    pub(crate) number: usize,
}

/// Two calls: one stood in the wait queue, or its item did, throughout the other.
#[derive(Clone, Copy)]
pub(crate) struct There {
    pub(crate) put: usize,
    pub(crate) looked: usize,
}

/// A side of a meeting.
#[derive(Clone, Copy, PartialEq, Eq)]
pub(crate) enum Side {
    Producers,
    Consumers,
}

/// When a call began, or the last time there is if there is no call.
pub(crate) fn begin(calls: &[Call], number: Option<usize>) -> u64 {
    match number {
        None => u64::MAX,
        Some(number) => {
            if number < calls.len() {
                calls[number].begin
            } else {
                u64::MAX
            }
        }
    }
}

/// The items that were put.
fn all_kept(alloc: Global, calls: &[Call], partners: &Partners) -> Result<Vec<Stay>, AllocError> {
    let mut kept = Vec::new(alloc);
    for number in 0..calls.len() {
        let call = &calls[number];
        if let Verb::Keep(_) = call.verb {
            kept.push(Stay {
                from: end(call),
                met: begin(calls, partners.of(number)),
                number,
            })?;
        }
    }
    Ok(kept)
}

/// Whether a call is of this side, and was met.
fn was_met(call: &Call, side: Side) -> bool {
    let Some(returned) = call.returned else {
        return false;
    };
    match (call.verb, returned.answer) {
        (Verb::Give(_, _), Answer::Went) => side == Side::Producers,
        (Verb::Take(_), Answer::Got(_)) => side == Side::Consumers,
        _ => false,
    }
}

/// The calls of this side that were seen to wait, and were met.
fn all_waiting(
    alloc: Global,
    calls: &[Call],
    partners: &Partners,
    side: Side,
) -> Result<Vec<Stay>, AllocError> {
    let mut waiting = Vec::new(alloc);
    for number in 0..calls.len() {
        let call = &calls[number];
        if let Some(seen) = call.waits {
            if was_met(call, side) {
                waiting.push(Stay {
                    from: seen,
                    met: begin(calls, partners.of(number)),
                    number,
                })?;
            }
        }
    }
    Ok(waiting)
}

/// The one that stays longer.
fn longer(one: Option<Stay>, other: Stay) -> Option<Stay> {
    match one {
        None => Some(other),
        Some(one) => Some(if one.met < other.met { other } else { one }),
    }
}

/// When the call was seen to wait that this one met, or the last time there is if it wasn't.
fn partner_seen(calls: &[Call], partners: &Partners, number: usize) -> u64 {
    match partners.of(number) {
        None => u64::MAX,
        Some(met) => {
            if met < calls.len() {
                calls[met].waits.unwrap_or(u64::MAX)
            } else {
                u64::MAX
            }
        }
    }
}

/// The last of these stays that lasted longer than the call of this number, and is of a call that began after the one
/// was seen to wait that this one met, if it is one of the last few.
fn last_until(calls: &[Call], partners: &Partners, there: &[Stay], number: usize) -> Option<Stay> {
    if number >= calls.len() {
        return None;
    }
    let by = end(&calls[number]);
    let seen = partner_seen(calls, partners, number);
    for back in 0..there.len().min(FEW) {
        let stay = there[there.len() - 1 - back];
        if by < stay.met && seen < begin(calls, Some(stay.number)) {
            return Some(stay);
        }
    }
    None
}

/// The stays that began, as far as one of them is looked for: the one that stays longest, or all of them, where the
/// line is met at its back.
#[derive(Drop)]
struct Begun {
    end: End,
    longest: Option<Stay>,
    there: Vec<Stay>,
}

impl Begun {
    /// One more began. Fails only if an allocation fails.
    fn note(&mut self, stay: Stay) -> Result<(), AllocError> {
        match self.end {
            End::Front => {
                self.longest = longer(self.longest, stay);
            }
            End::Back => self.there.push(stay)?,
        }
        Ok(())
    }

    /// One that is likely to have lasted until the call ended; at the back, above the call that this one met. Those on
    /// top that didn't last until the look's time go.
    fn find(&mut self, calls: &[Call], partners: &Partners, look: Look) -> Option<Stay> {
        match self.end {
            End::Front => {
                let stay = self.longest?;
                if look.number < calls.len() && end(&calls[look.number]) < stay.met {
                    Some(stay)
                } else {
                    None
                }
            }
            End::Back => {
                for _ in 0..self.there.len() {
                    let top = self.there.len();
                    if top == 0 || look.from < self.there[top - 1].met {
                        break;
                    }
                    let _ = self.there.pop();
                }
                last_until(calls, partners, self.there.as_slice(), look.number)
            }
        }
    }
}

/// For each of these looks, a stay that began before the time from which it must have been there, and that is likely to
/// have lasted until the call ended. Where the line is met at this end, its turn came before that of the call which was
/// met. Returns at most `most` of them. Fails only if an allocation fails.
fn throughout(
    alloc: Global,
    end: End,
    calls: &[Call],
    partners: &Partners,
    mut stays: Vec<Stay>,
    mut looks: Vec<Look>,
    most: usize,
) -> Result<Vec<There>, AllocError> {
    stays.sort_unstable();
    looks.sort_unstable();
    let mut found = Vec::new(alloc);
    let mut begun = Begun {
        end,
        longest: None,
        there: Vec::new(alloc),
    };
    let mut next = 0;
    for look in &looks {
        for _ in next..stays.len() {
            if next < stays.len() && stays[next].from < look.from {
                begun.note(stays[next])?;
                next += 1;
            } else {
                break;
            }
        }
        if let Some(stay) = begun.find(calls, partners, *look) {
            if found.len() < most {
                found.push(There {
                    put: stay.number,
                    looked: look.number,
                })?;
            }
        }
    }
    Ok(found)
}

/// For each of these calls, an item that was put before the time from which it must have been there, and that is likely
/// to have been there until the call ended. Returns at most `most` of them. Fails only if an allocation fails.
pub(crate) fn kept_throughout(
    alloc: Global,
    calls: &[Call],
    partners: &Partners,
    looks: Vec<Look>,
    most: usize,
) -> Result<Vec<There>, AllocError> {
    let kept = all_kept(alloc, calls, partners)?;
    throughout(alloc, End::Front, calls, partners, kept, looks, most)
}

/// The same, of the calls of this side that were seen to wait by the time from which they must have been there.
pub(crate) fn waiting_throughout(
    alloc: Global,
    end: End,
    calls: &[Call],
    partners: &Partners,
    side: Side,
    looks: Vec<Look>,
    most: usize,
) -> Result<Vec<There>, AllocError> {
    let waiting = all_waiting(alloc, calls, partners, side)?;
    throughout(alloc, end, calls, partners, waiting, looks, most)
}
