//! Which calls met, as the marks of their items say, and which interrupts cut which calls.

use crate::calls::{Answer, Call, Verb};
use std::alloc::{AllocError, Global};

/// When a call ended; the last time there is if it never did.
pub(crate) fn end(call: &Call) -> u64 {
    match call.returned {
        None => u64::MAX,
        Some(returned) => returned.at,
    }
}

/// One side of a meeting. Sides stand by the key that both share: the mark of an item, or the seat that is interrupted;
/// sides of one key by the times at which they ended.
#[derive(Clone, Copy, PartialEq, Eq, PartialOrd, Ord)]
struct Party {
    key: u64,
    ended: u64,
    number: usize,
}

/// The item that a call gave, or may have given.
fn given(call: &Call) -> Option<u64> {
    let mark = match call.verb {
        Verb::Keep(mark) => mark,
        Verb::Give(_, mark) => mark,
        Verb::Take(_) => return None,
        Verb::Interrupt(_) => return None,
    };
    match call.returned {
        None => Some(mark),
        Some(returned) => {
            if returned.answer == Answer::Went {
                Some(mark)
            } else {
                None
            }
        }
    }
}

/// The item that a call got.
fn got(call: &Call) -> Option<u64> {
    match call.returned {
        None => None,
        Some(returned) => match returned.answer {
            Answer::Got(mark) => Some(mark),
            _ => None,
        },
    }
}

/// The seat that a call interrupts.
fn struck(call: &Call) -> Option<u64> {
    match call.verb {
        Verb::Interrupt(seat) => Some(seat.number()),
        _ => None,
    }
}

/// The seat of a call that was interrupted.
fn hurt(call: &Call) -> Option<u64> {
    match call.returned {
        None => None,
        Some(returned) => {
            if returned.answer == Answer::Interrupted {
                Some(call.seat.number())
            } else {
                None
            }
        }
    }
}

/// Whether a call's item was handed to a consumer that was there.
fn handed_over(call: &Call) -> bool {
    match call.verb {
        Verb::Give(_, _) => match call.returned {
            None => false,
            Some(returned) => returned.answer == Answer::Went,
        },
        _ => false,
    }
}

/// Whether a call takes, and never ended.
fn takes_on(call: &Call) -> bool {
    match call.verb {
        Verb::Take(_) => call.returned.is_none(),
        _ => false,
    }
}

/// Adds a side, if the call has one.
fn note(
    parties: &mut Vec<Party>,
    call: &Call,
    number: usize,
    key: Option<u64>,
) -> Result<(), AllocError> {
    if let Some(key) = key {
        parties.push(Party {
            key,
            ended: end(call),
            number,
        })?;
    }
    Ok(())
}

/// For each call the number of the one that it met, or that it cut, or that cut it.
#[derive(Drop)]
pub(crate) struct Partners {
    met: Vec<Option<usize>>,
}

impl Partners {
    /// The number of the call that this one met, or that it cut, or that cut it.
    pub(crate) fn of(&self, number: usize) -> Option<usize> {
        if number < self.met.len() {
            self.met[number]
        } else {
            None
        }
    }

    /// Two calls met.
    fn put(&mut self, one: usize, other: usize) {
        if one < self.met.len() && other < self.met.len() {
            self.met[one] = Some(other);
            self.met[other] = Some(one);
        }
    }

    /// Each consumer meets the first producer of its item that is left.
    fn by_marks(&mut self, givers: &[Party], takers: &[Party]) {
        let mut next = 0;
        for taker in takers {
            for _ in next..givers.len() {
                if next < givers.len() && givers[next].key < taker.key {
                    next += 1;
                } else {
                    break;
                }
            }
            if next < givers.len() && givers[next].key == taker.key {
                self.put(givers[next].number, taker.number);
                next += 1;
            }
        }
    }

    /// A producer that handed its item over, and whose consumer isn't known, met one that never ended.
    fn by_need(&mut self, calls: &[Call]) {
        let mut next = 0;
        for number in 0..calls.len() {
            if handed_over(&calls[number]) && self.of(number).is_none() {
                for _ in next..calls.len() {
                    if next < calls.len() && !takes_on(&calls[next]) {
                        next += 1;
                    } else {
                        break;
                    }
                }
                if next < calls.len() {
                    self.put(number, next);
                    next += 1;
                }
            }
        }
    }

    /// An interrupted call was cut by the first interrupt of its seat that is left and overlaps it. If an interrupt of
    /// its seat ended before it began, the seat was flagged then, and the call was refused at its entry.
    fn by_interrupts(&mut self, calls: &[Call], strikes: &[Party], targets: &[Party]) {
        let mut next = 0;
        for target in targets {
            if target.number >= calls.len() {
                return;
            }
            let call = &calls[target.number];
            let mut flagged = false;
            for _ in next..strikes.len() {
                if next >= strikes.len() || target.key < strikes[next].key {
                    break;
                }
                if strikes[next].key == target.key {
                    if call.begin <= strikes[next].ended {
                        break;
                    }
                    flagged = true;
                }
                next += 1;
            }
            if !flagged && next < strikes.len() && strikes[next].key == target.key {
                let strike = strikes[next].number;
                if strike < calls.len() && calls[strike].begin <= target.ended {
                    self.put(strike, target.number);
                    next += 1;
                }
            }
        }
    }
}

/// Which calls met, and which interrupts cut which. Fails only if an allocation fails.
pub(crate) fn who_met(alloc: Global, calls: &[Call]) -> Result<Partners, AllocError> {
    let mut givers = Vec::new(alloc);
    let mut takers = Vec::new(alloc);
    let mut strikes = Vec::new(alloc);
    let mut targets = Vec::new(alloc);
    let mut partners = Partners {
        met: Vec::with_capacity(alloc, calls.len())?,
    };
    for number in 0..calls.len() {
        let call = &calls[number];
        note(&mut givers, call, number, given(call))?;
        note(&mut takers, call, number, got(call))?;
        note(&mut strikes, call, number, struck(call))?;
        note(&mut targets, call, number, hurt(call))?;
        partners.met.push(None)?;
    }
    givers.sort_unstable();
    takers.sort_unstable();
    strikes.sort_unstable();
    targets.sort_unstable();
    partners.by_marks(&givers, &takers);
    partners.by_need(calls);
    partners.by_interrupts(calls, &strikes, &targets);
    Ok(partners)
}
