//! Short stories of one thread, all calls at once: what is replied, and what the records leave.

ghost use Rattle.std.specs.Prelude.{All, IsTrue};
ghost use Rattle.meet_history.specs.Served.{serves};

use crate::calls::{found, kind_of, seat};
use meet_history::{
    Answer, Call, Outcome, Probe, Reply, Run, Setup, Standing, Verb, is_served, run_all,
};
use meet_tickets::{Cause, Order, SeatNo};
use std::alloc::Global;
use std::process::Abort;

/// What a seat asks. An interrupt names its target by number.
#[derive(Clone, Copy)]
enum Ask {
    Plain(Verb),
    Interrupt(u64),
}

/// What came of it: the number of the record and the ticket, or 0, and then what is told; tickets by number.
#[derive(Clone, Copy, PartialEq, Debug)]
enum Told {
    Waits(u64, u64),
    Kept(u64, u64),
    Gave(u64, u64, u64, u64),
    Got(u64, u64, u64, u64),
    Fails(u64, u64, Option<u64>),
    Done(u64, u64),
    Withdrawn(u64, u64, Cause, Option<u64>),
    Cut(u64, u64, u64),
    Flagged(u64, u64),
    NotYet,
    Late,
    Drained(u64),
    Count(u64),
    Otherwise,
}

/// A seat asks.
type Asked = (u64, Ask);

/// What is asked of a place, all that is replied, and what the records leave.
#[derive(Clone, Copy)]
struct Story<'a> {
    order: Order,
    asked: &'a [Asked],
    told: &'a [(u64, Told)],
    standing: Standing,
}

/// Nothing stands there.
const NOTHING: Standing = Standing {
    waiting: 0,
    uncollected: 0,
    kept: 0,
};

const TAKE: Ask = Ask::Plain(Verb::Take);

const POLL: Ask = Ask::Plain(Verb::Poll);

const FOLLOW: Ask = Ask::Plain(Verb::Follow);

const CANCEL: Ask = Ask::Plain(Verb::Cancel);

const EXPIRE: Ask = Ask::Plain(Verb::Expire);

const fn put(item: u64) -> Ask {
    Ask::Plain(Verb::Put(item))
}

const fn offer(item: u64) -> Ask {
    Ask::Plain(Verb::Offer(item))
}

/// The number of a seat.
fn number(seat: SeatNo) -> u64 {
    seat.number()
}

/// What an answer tells of the record of this number and this ticket.
fn told_by(place: u64, own: u64, answer: Answer) -> Told {
    match answer {
        Answer::Waits => Told::Waits(place, own),
        Answer::Kept => Told::Kept(place, own),
        Answer::Gave(mark, with) => Told::Gave(place, own, mark, with.number()),
        Answer::Got(mark, with) => Told::Got(place, own, mark, with.number()),
        Answer::Fails(back) => Told::Fails(place, own, back),
        Answer::Done => Told::Done(place, own),
        Answer::Withdrawn(cause, back) => Told::Withdrawn(place, own, cause, back),
    }
}

/// What an outcome tells.
fn told_of(outcome: Outcome) -> Told {
    match outcome {
        Outcome::Recorded(place, ticket, answer) => told_by(place, ticket.number(), answer),
        Outcome::Interrupted(place, target, cut) => match cut {
            Some(ticket) => Told::Cut(place, number(target), ticket.number()),
            None => Told::Flagged(place, number(target)),
        },
        Outcome::NotYet => Told::NotYet,
        Outcome::Late => Told::Late,
        Outcome::Drained(items) => Told::Drained(items),
        Outcome::Count(count) => Told::Count(count),
        Outcome::Peeked(_) => Told::Otherwise,
        Outcome::Based(_) => Told::Otherwise,
        Outcome::Refused(_) => Told::Otherwise,
    }
}

/// The call of a seat.
fn call_of(rt: &impl Abort, number: u64, ask: Ask) -> Call {
    let seat_there = seat(rt, number);
    match ask {
        Ask::Plain(verb) => Call {
            seat: seat_there,
            verb,
        },
        Ask::Interrupt(target) => Call {
            seat: seat_there,
            verb: Verb::Interrupt(seat(rt, target)),
        },
    }
}

/// The calls of a story at a place of this order, which has their verbs.
fn calls_of(rt: &impl Abort, alloc: Global, order: Order, asked: &[Asked]) -> Vec<Call>
    ensures { All (λ call. IsTrue (serves order call.verb)) result.items }
{
    let mut calls = Vec::new(alloc);
    for (number, ask) in asked {
        let call = call_of(rt, *number, *ask);
        if !is_served(order, call.verb) {
            panic!(rt; "no such verb");
        }
        match calls.push(call) {
            Ok(()) => {}
            Err(_) => panic!(rt; "memory"),
        }
    }
    calls
}

/// These replies are those of the story.
fn are(rt: &impl Abort, replies: &[Reply], told: &[(u64, Told)]) {
    assert_eq!(rt; replies.len(), told.len());
    for (reply, wanted) in replies.iter().zip(told) {
        assert_eq!(rt; (number(reply.seat), told_of(reply.outcome)), *wanted);
    }
}

/// What is asked of a place of this order comes to this.
fn run_of(rt: &impl Abort, alloc: Global, order: Order, asked: &[Asked]) -> Run {
    let setup = Setup::new(kind_of(order), 64, 1, 1_048_576).expect(rt, "out of its limits");
    let calls = calls_of(rt, alloc, order, asked);
    run_all(alloc, setup, calls.as_slice()).expect(rt, "memory")
}

/// The story takes place.
fn happens(rt: &impl Abort, alloc: Global, story: Story<'_>) {
    let Run {
        replies,
        base: _,
        records,
    } = run_of(rt, alloc, story.order, story.asked);
    are(rt, replies.as_slice(), story.told);
    let found = found(alloc, story.order, records.as_slice());
    assert_eq!(rt; found, Ok(story.standing));
}

#[test]
fn nothing_happens(rt: HostRuntime) {
    let story = Story {
        order: Order::Fair,
        asked: &[],
        told: &[],
        standing: NOTHING,
    };
    happens(&rt, rt.alloc(), story);
}

#[test]
fn who_meets_whom(rt: HostRuntime) {
    let handoff = Story {
        order: Order::Fair,
        asked: &[(0, put(5)), (1, TAKE), (0, FOLLOW)],
        told: &[
            (0, Told::Waits(1, 1)),
            (1, Told::Got(2, 2, 5, 1)),
            (0, Told::Done(3, 1)),
        ],
        standing: NOTHING,
    };
    happens(&rt, rt.alloc(), handoff);
    let oldest = Story {
        order: Order::Fair,
        asked: &[(0, put(1)), (1, put(2)), (2, TAKE)],
        told: &[
            (0, Told::Waits(1, 1)),
            (1, Told::Waits(2, 2)),
            (2, Told::Got(3, 3, 1, 1)),
        ],
        standing: Standing {
            waiting: 1,
            uncollected: 1,
            kept: 0,
        },
    };
    happens(&rt, rt.alloc(), oldest);
    let newest = Story {
        order: Order::Unfair,
        told: &[
            (0, Told::Waits(1, 1)),
            (1, Told::Waits(2, 2)),
            (2, Told::Got(3, 3, 2, 2)),
        ],
        ..oldest
    };
    happens(&rt, rt.alloc(), newest);
    let takers = Story {
        order: Order::Fair,
        asked: &[(0, TAKE), (1, TAKE), (2, put(9)), (1, FOLLOW), (0, FOLLOW)],
        told: &[
            (0, Told::Waits(1, 1)),
            (1, Told::Waits(2, 2)),
            (2, Told::Gave(3, 3, 9, 1)),
            (1, Told::NotYet),
            (0, Told::Got(4, 1, 9, 3)),
        ],
        standing: Standing {
            waiting: 1,
            ..NOTHING
        },
    };
    happens(&rt, rt.alloc(), takers);
    let offers = Story {
        order: Order::Fair,
        asked: &[(0, offer(7)), (1, TAKE), (0, offer(7))],
        told: &[
            (0, Told::Fails(1, 1, Some(7))),
            (1, Told::Waits(2, 2)),
            (0, Told::Gave(3, 3, 7, 2)),
        ],
        standing: Standing {
            uncollected: 1,
            ..NOTHING
        },
    };
    happens(&rt, rt.alloc(), offers);
}

#[test]
fn who_takes_back(rt: HostRuntime) {
    let cancelled = Story {
        order: Order::Fair,
        asked: &[(0, put(5)), (0, CANCEL), (1, POLL)],
        told: &[
            (0, Told::Waits(1, 1)),
            (0, Told::Withdrawn(2, 1, Cause::Cancelled, Some(5))),
            (1, Told::Fails(3, 2, None)),
        ],
        standing: NOTHING,
    };
    happens(&rt, rt.alloc(), cancelled);
    let late = Story {
        order: Order::Fair,
        asked: &[(0, put(5)), (1, TAKE), (0, CANCEL), (0, FOLLOW)],
        told: &[
            (0, Told::Waits(1, 1)),
            (1, Told::Got(2, 2, 5, 1)),
            (0, Told::Late),
            (0, Told::Done(3, 1)),
        ],
        standing: NOTHING,
    };
    happens(&rt, rt.alloc(), late);
    let expired = Story {
        order: Order::Fair,
        asked: &[
            (0, put(1)),
            (1, put(2)),
            (2, put(3)),
            (1, EXPIRE),
            (3, TAKE),
            (4, TAKE),
        ],
        told: &[
            (0, Told::Waits(1, 1)),
            (1, Told::Waits(2, 2)),
            (2, Told::Waits(3, 3)),
            (1, Told::Withdrawn(4, 2, Cause::Expired, Some(2))),
            (3, Told::Got(5, 4, 1, 1)),
            (4, Told::Got(6, 5, 3, 3)),
        ],
        standing: Standing {
            uncollected: 2,
            ..NOTHING
        },
    };
    happens(&rt, rt.alloc(), expired);
}

#[test]
fn who_is_interrupted(rt: HostRuntime) {
    let cut = Story {
        order: Order::Fair,
        asked: &[
            (0, TAKE),
            (1, Ask::Interrupt(0)),
            (0, FOLLOW),
            (2, offer(4)),
        ],
        told: &[
            (0, Told::Waits(1, 1)),
            (1, Told::Cut(2, 0, 1)),
            (0, Told::Withdrawn(3, 1, Cause::Interrupted, None)),
            (2, Told::Fails(4, 2, Some(4))),
        ],
        standing: NOTHING,
    };
    happens(&rt, rt.alloc(), cut);
    let flagged = Story {
        order: Order::Fair,
        asked: &[
            (0, TAKE),
            (1, put(4)),
            (2, Ask::Interrupt(0)),
            (0, FOLLOW),
            (0, TAKE),
        ],
        told: &[
            (0, Told::Waits(1, 1)),
            (1, Told::Gave(2, 2, 4, 1)),
            (2, Told::Flagged(3, 0)),
            (0, Told::Got(4, 1, 4, 2)),
            (0, Told::Withdrawn(5, 3, Cause::Interrupted, None)),
        ],
        standing: NOTHING,
    };
    happens(&rt, rt.alloc(), flagged);
}

#[test]
fn what_is_kept(rt: HostRuntime) {
    let line = Story {
        order: Order::Transfer,
        asked: &[
            (0, put(1)),
            (1, Ask::Plain(Verb::Transfer(2))),
            (2, Ask::Plain(Verb::Try(3))),
            (3, POLL),
            (3, POLL),
            (1, FOLLOW),
        ],
        told: &[
            (0, Told::Kept(1, 1)),
            (1, Told::Waits(2, 2)),
            (2, Told::Fails(3, 3, Some(3))),
            (3, Told::Got(4, 4, 1, 1)),
            (3, Told::Got(5, 5, 2, 2)),
            (1, Told::Done(6, 2)),
        ],
        standing: NOTHING,
    };
    happens(&rt, rt.alloc(), line);
    let probes = Story {
        order: Order::Transfer,
        asked: &[
            (0, Ask::Plain(Verb::Look(Probe::Size))),
            (0, Ask::Plain(Verb::Look(Probe::Room))),
            (1, TAKE),
            (0, Ask::Plain(Verb::Look(Probe::Size))),
            (0, Ask::Plain(Verb::Look(Probe::Consumers))),
        ],
        told: &[
            (0, Told::Count(0)),
            (0, Told::Count(2147483647)),
            (1, Told::Waits(1, 1)),
            (0, Told::Count(0)),
            (0, Told::Count(1)),
        ],
        standing: Standing {
            waiting: 1,
            ..NOTHING
        },
    };
    happens(&rt, rt.alloc(), probes);
    let drained = Story {
        order: Order::Transfer,
        asked: &[(0, put(4)), (0, put(5)), (1, Ask::Plain(Verb::Drain(3)))],
        told: &[
            (0, Told::Kept(1, 1)),
            (0, Told::Kept(2, 2)),
            (1, Told::Got(3, 3, 4, 1)),
            (1, Told::Got(4, 4, 5, 2)),
            (1, Told::Drained(2)),
        ],
        standing: NOTHING,
    };
    happens(&rt, rt.alloc(), drained);
}
