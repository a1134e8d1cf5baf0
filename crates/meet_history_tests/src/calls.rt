//! The calls of one thread, all at once, and checks of what they write.

ghost use Rattle.std.specs.Prelude.{◌≡◌, All, IsTrue};
ghost use Rattle.meet_history.specs.Served.{serves};
ghost use Rattle.meet_tickets.specs.declared.places.Order.TheVariants.{Transfer};

use meet_history::{
    Answer, Call, CheckFault, Checker, Outcome, Probe, Reply, Run, Setup, Standing, Verb, Why,
    check, is_served, run_all,
};
use meet_tickets::{Base, Deed, Kind, Order, Record, SeatNo, Ticket};
use std::alloc::Global;
use std::process::Abort;

/// The seat of this number.
pub fn seat(rt: &impl Abort, number: u64) -> SeatNo {
    SeatNo::new(number).expect(rt, "no such seat number")
}

/// The ticket of this number.
pub fn ticket(rt: &impl Abort, number: u64) -> Ticket {
    Ticket::new(number).expect(rt, "no such ticket number")
}

/// The record of this seat and this ticket.
pub fn record(rt: &impl Abort, number: u64, own: u64, deed: Deed) -> Record<Deed> {
    Record {
        seat: seat(rt, number),
        ticket: ticket(rt, own),
        deed,
    }
}

/// The reply to a request or an ending that wrote the record of this number.
pub fn reply(rt: &impl Abort, number: u64, place: u64, own: u64, answer: Answer) -> Reply {
    Reply {
        seat: seat(rt, number),
        outcome: Outcome::Recorded(place, ticket(rt, own), answer),
    }
}

/// What these calls come to at a transfer queue without a bound.
pub fn run_of(rt: &impl Abort, alloc: Global, calls: &[Call]) -> Run
    requires { All (λ call. IsTrue (serves Transfer call.verb)) calls.now }
{
    run_all(alloc, TRANSFER, calls).expect(rt, "memory")
}

/// What is said of records of a place of this order, which has no bound.
pub fn found(
    alloc: Global,
    order: Order,
    records: &[Record<Deed>],
) -> Result<Standing, CheckFault> {
    check(alloc, kind_of(order), &Base::empty(alloc), records)
}

/// A place of this order without a bound.
pub fn kind_of(order: Order) -> Kind
    ensures { result.order ≡ order }
{
    Kind { order, bound: None }
}

/// A checker of such a place that has seen nothing.
pub fn checker_of(rt: &impl Abort, alloc: Global, order: Order) -> Checker {
    Checker::new(alloc, kind_of(order), &Base::empty(alloc)).expect(rt, "memory")
}

/// What a checker says of the next record.
pub fn pushed(checker: &mut Checker, entry: Record<Deed>) -> Result<(), CheckFault> {
    checker.push(entry)
}

/// A transfer queue without a bound.
pub const TRANSFER: Setup = Setup {
    kind: Kind {
        order: Order::Transfer,
        bound: None,
    },
    seats: 65_536,
    cap: 1_048_576,
    first: 1,
};

#[test]
fn a_handoff(rt: HostRuntime) {
    let giver = seat(&rt, 0);
    let calls = [
        Call {
            seat: giver,
            verb: Verb::Transfer(5),
        },
        Call {
            seat: seat(&rt, 1),
            verb: Verb::Take,
        },
        Call {
            seat: giver,
            verb: Verb::Follow,
        },
    ];
    let Run {
        replies,
        base: _,
        records,
    } = run_of(&rt, rt.alloc(), &calls);
    let giver = ticket(&rt, 1);
    let wanted = [
        reply(&rt, 0, 1, 1, Answer::Waits),
        reply(&rt, 1, 2, 2, Answer::Got(5, giver)),
        reply(&rt, 0, 3, 1, Answer::Done),
    ];
    assert!(rt; replies.as_slice() == wanted.as_slice());
    let wanted = [
        record(&rt, 0, 1, Deed::GiveWaits(5)),
        record(&rt, 1, 2, Deed::TakeMeets(5, giver)),
        record(&rt, 0, 1, Deed::Done),
    ];
    assert!(rt; records.as_slice() == wanted.as_slice());
}

#[test]
fn whom_a_taker_meets(rt: HostRuntime) {
    let records = [
        record(&rt, 0, 1, Deed::GiveWaits(1)),
        record(&rt, 1, 2, Deed::GiveWaits(2)),
        record(&rt, 2, 3, Deed::TakeMeets(2, ticket(&rt, 2))),
    ];
    let standing = Standing {
        waiting: 1,
        uncollected: 1,
        kept: 0,
    };
    let illegal = CheckFault::Illegal {
        place: 3,
        why: Why::WrongReply,
    };
    assert_eq!(rt; found(rt.alloc(), Order::Fair, &records), Err(illegal));
    assert_eq!(rt; found(rt.alloc(), Order::Unfair, &records), Ok(standing));
}

#[test]
fn what_a_place_serves(rt: HostRuntime) {
    let fair = kind_of(Order::Fair);
    let setup = Setup::new(fair, 64, 1, 1_000).expect(&rt, "out of its limits");
    assert!(rt; setup.kind == fair && setup.seats == 64 && setup.first == 1 && setup.cap == 1_000);
    assert!(rt; Setup::new(fair, 65_537, 1, 1_000).is_none());
    assert!(rt; is_served(setup.kind.order, Verb::Drain(3)));
    assert!(rt; !is_served(setup.kind.order, Verb::Look(Probe::Consumers)));
}

#[test]
fn a_hundred_thousand(rt: HostRuntime) {
    let put = Call {
        seat: seat(&rt, 0),
        verb: Verb::Put(5),
    };
    let calls = vec![in rt.alloc(); put; 100_000].expect(&rt, "memory");
    let Run {
        replies,
        base: _,
        records,
    } = run_of(&rt, rt.alloc(), calls.as_slice());
    assert_eq!(rt; replies.len(), 100_000);
    let last = reply(&rt, 0, 100_000, 100_000, Answer::Kept);
    assert!(rt; replies.last().copied() == Some(last));
    let standing = Standing {
        waiting: 0,
        uncollected: 0,
        kept: 100_000,
    };
    let found = found(rt.alloc(), Order::Transfer, records.as_slice());
    assert_eq!(rt; found, Ok(standing));
}
