//! What each call does in the wait queue, as the guess has it: it stays there, or passes in a moment.

use crate::calls::{Answer, Call, Patience, Verb};
use crate::guess::flags::Flags;
use crate::guess::partners::{Partners, end};
use crate::guess::stays::{NEVER, Span, Stay};
use meet_tickets::{End, Kind, Side};
use std::alloc::{AllocError, Global};

/// Up to three records in a row, by the numbers of their calls.
#[derive(Clone, Copy)]
pub(crate) struct Row {
    pub(crate) first: usize,
    pub(crate) second: Option<usize>,
    pub(crate) third: Option<usize>,
}

/// Records in a row that leave the wait queue as it was, and can be made at any time of a span at which nobody of these
/// sides stands in it.
#[derive(Clone, Copy)]
pub(crate) struct Moment {
    pub(crate) span: Span,
    pub(crate) no_givers: bool,
    pub(crate) no_takers: bool,
    pub(crate) row: Row,
    /// The producer, if its pair could stay in the wait queue as well.
    pub(crate) pair: Option<usize>,
}

/// How a pair goes through the wait queue.
#[derive(Clone, Copy, PartialEq, Eq)]
pub(crate) enum Way {
    /// As it likes: in a moment, if it can.
    Free,
    /// One side stays until the other one comes.
    Stays(Side),
}

/// What a call does.
#[derive(Clone, Copy)]
pub(crate) enum Part {
    /// Nothing of its own: another call's part has its records, or it never began.
    Nothing,
    Stays(Stay),
    Passes(Moment),
}

/// One call's record, and then its ending if it waited.
fn alone(number: usize, waited: bool) -> Row {
    Row {
        first: number,
        second: if waited { Some(number) } else { None },
        third: None,
    }
}

/// A call waits, another meets or cuts it, and the first one ends.
fn met(waiting: usize, by: usize) -> Row {
    Row {
        first: waiting,
        second: Some(by),
        third: Some(waiting),
    }
}

/// When a call makes its request.
fn requests(call: &Call) -> Span {
    Span {
        from: call.begin,
        by: match call.waits {
            None => end(call),
            Some(by) => end(call).min(by),
        },
    }
}

/// When two calls can meet.
fn overlap(one: &Call, other: &Call) -> Span {
    Span {
        from: one.begin.max(other.begin),
        by: end(one).min(end(other)),
    }
}

/// Whether a call was seen to wait before this time.
fn waits_before(call: &Call, time: u64) -> bool {
    match call.waits {
        None => false,
        Some(by) => by < time,
    }
}

/// Whether a call's item is given.
fn is_giver(call: &Call) -> bool {
    match call.verb {
        Verb::Keep(_) => true,
        Verb::Give(_, _) => true,
        Verb::Take(_) => false,
        Verb::Interrupt(_) => false,
    }
}

/// Whether a call interrupts a seat.
fn is_interrupt(call: &Call) -> bool {
    match call.verb {
        Verb::Interrupt(_) => true,
        _ => false,
    }
}

/// A call stays in the wait queue until another one meets or cuts it, or for ever.
fn stay(calls: &[Call], owner: usize, other: Option<usize>) -> Part {
    if owner >= calls.len() {
        return Part::Nothing;
    }
    let call = &calls[owner];
    let leaves = match other {
        None => NEVER,
        Some(other) => {
            if other < calls.len() {
                overlap(call, &calls[other])
            } else {
                return Part::Nothing;
            }
        }
    };
    // What is kept may be taken long after its call ended.
    let leaves = match (call.verb, other) {
        (Verb::Keep(_), Some(other)) if other < calls.len() => Span {
            from: leaves.from,
            by: end(&calls[other]),
        },
        _ => leaves,
    };
    Part::Stays(Stay {
        side: if is_giver(call) {
            Side::Giver
        } else {
            Side::Taker
        },
        owner,
        other,
        enters: requests(call),
        leaves,
    })
}

/// Whether a call answers that its item went.
fn went(call: &Call) -> bool {
    match call.returned {
        None => false,
        Some(returned) => returned.answer == Answer::Went,
    }
}

/// Whether a call may wait.
fn can_wait(call: &Call) -> bool {
    match call.verb {
        Verb::Keep(_) => true,
        Verb::Give(Patience::Now, _) => false,
        Verb::Take(Patience::Now) => false,
        Verb::Interrupt(_) => false,
        _ => true,
    }
}

/// What is known of all calls.
#[derive(Clone, Copy)]
pub(crate) struct Known<'a> {
    pub(crate) kind: Kind,
    pub(crate) calls: &'a [Call],
    pub(crate) partners: &'a Partners,
    pub(crate) flags: &'a Flags,
    /// For each producer how its pair goes through the wait queue.
    pub(crate) ways: &'a [Way],
}

impl Known<'_> {
    /// How the pair of this producer goes through the wait queue.
    fn way(&self, giving: usize) -> Way {
        if giving < self.ways.len() {
            self.ways[giving]
        } else {
            Way::Free
        }
    }

    /// Whether a call's seat is flagged at this time.
    fn is_flagged(&self, call: &Call, at: u64) -> bool {
        self.flags.has(call.seat.number(), at)
    }

    /// Whether the consumer of a pair is the one that waits: a call that was seen to wait does, one that doesn't wait
    /// or whose seat is flagged doesn't, and else the one that began first does; a transfer queue's producers wait
    /// rather.
    fn taker_waits(&self, giver: &Call, taker: &Call) -> bool {
        if let Verb::Give(Patience::Now, _) = giver.verb {
            return true;
        }
        if let Verb::Take(Patience::Now) = taker.verb {
            return false;
        }
        if giver.waits.is_some() || taker.waits.is_some() {
            return giver.waits.is_none();
        }
        let at = giver.begin.max(taker.begin);
        if self.is_flagged(giver, at) {
            return true;
        }
        if self.kind.order.keeps() || self.is_flagged(taker, at) {
            return false;
        }
        taker.begin < giver.begin
    }

    /// A producer that isn't kept, and its consumer.
    fn pair(&self, giving: usize, taking: usize) -> Part {
        if giving >= self.calls.len() || taking >= self.calls.len() {
            return Part::Nothing;
        }
        let (giver, taker) = (&self.calls[giving], &self.calls[taking]);
        match self.way(giving) {
            Way::Stays(Side::Giver) if can_wait(giver) => {
                return stay(self.calls, giving, Some(taking));
            }
            Way::Stays(Side::Taker) if can_wait(taker) => {
                return stay(self.calls, taking, Some(giving));
            }
            _ => {}
        }
        let span = overlap(giver, taker);
        let in_line = match self.kind.order.end() {
            End::Front => true,
            End::Back => false,
        };
        if self.taker_waits(giver, taker) {
            if waits_before(taker, span.from) {
                return stay(self.calls, taking, Some(giving));
            }
            return Part::Passes(Moment {
                span,
                no_givers: true,
                no_takers: in_line,
                row: met(taking, giving),
                pair: Some(giving),
            });
        }
        if self.kind.order.keeps() || waits_before(giver, span.from) {
            return stay(self.calls, giving, Some(taking));
        }
        Part::Passes(Moment {
            span,
            no_givers: in_line,
            no_takers: true,
            row: met(giving, taking),
            pair: Some(giving),
        })
    }

    /// A call whose item is kept, and its consumer if it has one.
    fn kept(&self, number: usize, taking: Option<usize>) -> Part {
        let Some(taking) = taking else {
            return if number < self.calls.len() && went(&self.calls[number]) {
                stay(self.calls, number, None)
            } else {
                Part::Nothing
            };
        };
        if number < self.calls.len() && taking < self.calls.len() {
            let taker = &self.calls[taking];
            if taker.waits.is_some() {
                return self.pair(number, taking);
            }
        }
        stay(self.calls, number, Some(taking))
    }

    /// A call that was cut by an interrupt.
    fn cut(&self, number: usize, by: usize) -> Part {
        if number >= self.calls.len() || by >= self.calls.len() {
            return Part::Nothing;
        }
        let call = &self.calls[number];
        let span = overlap(call, &self.calls[by]);
        if waits_before(call, span.from) {
            return stay(self.calls, number, Some(by));
        }
        Part::Passes(Moment {
            span,
            no_givers: !is_giver(call),
            no_takers: is_giver(call),
            row: met(number, by),
            pair: None,
        })
    }

    /// A call that met nobody.
    fn unmet(&self, number: usize) -> Part {
        if number >= self.calls.len() {
            return Part::Nothing;
        }
        let call = &self.calls[number];
        match call.returned {
            None => {
                if call.waits.is_some() {
                    stay(self.calls, number, None)
                } else {
                    Part::Nothing
                }
            }
            Some(returned) => Part::Passes(Moment {
                span: requests(call),
                no_givers: !is_giver(call),
                no_takers: is_giver(call),
                row: alone(number, returned.answer == Answer::Expired),
                pair: None,
            }),
        }
    }

    /// What the call of this number does.
    pub(crate) fn part(&self, number: usize) -> Part {
        if number >= self.calls.len() {
            return Part::Nothing;
        }
        let partner = self.partners.of(number);
        match self.calls[number].verb {
            Verb::Keep(_) => self.kept(number, partner),
            Verb::Interrupt(_) => Part::Nothing,
            Verb::Give(_, _) => match partner {
                None => self.unmet(number),
                Some(other) => {
                    if other < self.calls.len() && is_interrupt(&self.calls[other]) {
                        self.cut(number, other)
                    } else {
                        self.pair(number, other)
                    }
                }
            },
            Verb::Take(_) => match partner {
                None => self.unmet(number),
                Some(other) => {
                    if other < self.calls.len() && is_interrupt(&self.calls[other]) {
                        self.cut(number, other)
                    } else {
                        Part::Nothing
                    }
                }
            },
        }
    }

    /// The stays of all calls.
    pub(crate) fn stays(&self, alloc: Global) -> Result<Vec<Stay>, AllocError> {
        let mut stays = Vec::new(alloc);
        for number in 0..self.calls.len() {
            if let Part::Stays(stay) = self.part(number) {
                stays.push(stay)?;
            }
        }
        Ok(stays)
    }
}
