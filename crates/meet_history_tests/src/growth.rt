//! Checks and the calls of one thread bear one refusal of memory: the same that is done again succeeds.
//! `dev/check/refuse` runs these tests with each allocation refused in turn.

ghost use Rattle.std.specs.Prelude.{◌≡◌, All, IsTrue};
ghost use Rattle.meet_history.specs.Served.{serves};
ghost use Rattle.meet_tickets.specs.declared.places.Order.TheVariants.{Transfer};

use crate::calls::{
    TRANSFER, checker_of, found, kind_of, pushed, record, reply, run_of, seat, ticket,
};
use meet_history::{
    Answer, Call, CheckFault, Checker, Outcome, Reply, Run, Standing, Verb, run_all,
};
use meet_tickets::{Base, Deed, Order, Record, Refusal};
use std::alloc::Global;
use std::process::Abort;

/// The records are legal, as is seen at the second try where there was no memory at first.
fn is_legal(
    rt: &impl Abort,
    alloc: Global,
    order: Order,
    records: &[Record<Deed>],
    standing: Standing,
) {
    let mut said = found(alloc, order, records);
    if said == Err(CheckFault::Memory) {
        said = found(alloc, order, records);
    }
    assert_eq!(rt; said, Ok(standing));
}

#[test]
fn a_check_of_tickets_that_wait(rt: HostRuntime) {
    let records = [
        record(&rt, 0, 1, Deed::GiveWaits(7)),
        record(&rt, 700, 2, Deed::GiveWaits(8)),
        record(&rt, 1, 3, Deed::GiveWaits(9)),
        record(&rt, 2, 4, Deed::TakeMeets(7, ticket(&rt, 1))),
    ];
    let standing = Standing {
        waiting: 2,
        uncollected: 1,
        kept: 0,
    };
    is_legal(&rt, rt.alloc(), Order::Fair, &records, standing);
}

#[test]
fn a_check_of_items_that_are_kept(rt: HostRuntime) {
    let records = [
        record(&rt, 0, 1, Deed::GiveKept(7)),
        record(&rt, 0, 2, Deed::GiveKept(8)),
        record(&rt, 0, 3, Deed::GiveKept(9)),
        record(&rt, 0, 4, Deed::GiveKept(9)),
        record(&rt, 0, 5, Deed::GiveKept(9)),
    ];
    let standing = Standing {
        waiting: 0,
        uncollected: 0,
        kept: 5,
    };
    is_legal(&rt, rt.alloc(), Order::Transfer, &records, standing);
}

/// A checker of a place of this order that has seen nothing, made at the second try where there was no memory at first.
fn made(rt: &impl Abort, alloc: Global, order: Order) -> Checker {
    match Checker::new(alloc, kind_of(order), &Base::empty(alloc)) {
        Ok(checker) => checker,
        Err(_) => checker_of(rt, alloc, order),
    }
}

/// Pushes a record that can stand.
fn pushes(rt: &impl Abort, checker: &mut Checker, entry: &Record<Deed>) {
    let mut said = pushed(checker, *entry);
    if said == Err(CheckFault::Memory) {
        // Nothing has changed: the same record may come again.
        said = pushed(checker, *entry);
    }
    assert_eq!(rt; said, Ok(()));
}

#[test]
fn records_that_are_pushed(rt: HostRuntime) {
    let mut checker = made(&rt, rt.alloc(), Order::Unfair);
    for number in 0..9 {
        let entry = record(&rt, number * 100, number + 1, Deed::GiveWaits(7));
        pushes(&rt, &mut checker, &entry);
    }
    let standing = Standing {
        waiting: 9,
        uncollected: 0,
        kept: 0,
    };
    assert_eq!(rt; checker.standing(), Ok(standing));
}

/// The base of what the checker has seen, told at the second try where there was no memory at first.
fn told(alloc: Global, checker: &Checker) -> Result<Base, CheckFault> {
    match checker.base(alloc) {
        Ok(base) => Ok(base),
        Err(_) => checker.base(alloc),
    }
}

/// Whether this base is that.
fn ends(alloc: Global, checker: &Checker, base: &Base) -> Result<bool, CheckFault> {
    let found = checker.ends_at(alloc, base);
    if found == Err(CheckFault::Memory) {
        return checker.ends_at(alloc, base);
    }
    found
}

/// The base that a checker tells has one of each, and is its end.
fn tells_one_of_each(rt: &impl Abort, alloc: Global, checker: &Checker) {
    let base = told(alloc, checker).expect(rt, "memory");
    assert_eq!(rt; (base.line.len(), base.pairs.len()), (1, 1));
    assert_eq!(rt; (base.cut.len(), base.flags.len()), (1, 1));
    assert_eq!(rt; ends(alloc, checker, &base), Ok(true));
}

/// Three givers, of which one is met and one is cut; and a flag.
fn one_of_each(rt: &impl Abort) -> [Record<Deed>; 6] {
    [
        record(rt, 0, 1, Deed::GiveWaits(7)),
        record(rt, 1, 2, Deed::GiveWaits(8)),
        record(rt, 2, 3, Deed::GiveWaits(9)),
        record(rt, 3, 4, Deed::TakeMeets(7, ticket(rt, 1))),
        record(rt, 3, 2, Deed::Interrupt(seat(rt, 1))),
        record(rt, 3, 0, Deed::Interrupt(seat(rt, 3))),
    ]
}

/// Pushes records that can stand.
fn pushes_all(rt: &impl Abort, checker: &mut Checker, records: &[Record<Deed>]) {
    for entry in records {
        pushes(rt, checker, entry);
    }
}

#[test]
fn a_base_that_is_told(rt: HostRuntime) {
    let records = one_of_each(&rt);
    let mut checker = made(&rt, rt.alloc(), Order::Fair);
    pushes_all(&rt, &mut checker, &records);
    tells_one_of_each(&rt, rt.alloc(), &checker);
}

/// A call of this seat.
fn call(rt: &impl Abort, number: u64, verb: Verb) -> Call
    ensures { result.verb ≡ verb }
{
    Call {
        seat: seat(rt, number),
        verb,
    }
}

/// What these calls come to, at the second try where there was no memory at first.
fn ran(rt: &impl Abort, alloc: Global, calls: &[Call]) -> Run
    requires { All (λ call. IsTrue (serves Transfer call.verb)) calls.now }
{
    match run_all(alloc, TRANSFER, calls) {
        Ok(all) => all,
        Err(why) => {
            assert!(rt; why == Refusal::Memory);
            run_of(rt, alloc, calls)
        }
    }
}

#[test]
fn calls_of_one_thread(rt: HostRuntime) {
    let calls = [
        call(&rt, 0, Verb::Put(5)),
        call(&rt, 0, Verb::Put(5)),
        call(&rt, 0, Verb::Put(5)),
        call(&rt, 0, Verb::Put(5)),
        call(&rt, 0, Verb::Put(5)),
        call(&rt, 1, Verb::Drain(9)),
    ];
    let Run {
        replies,
        base: _,
        records,
    } = ran(&rt, rt.alloc(), &calls);
    assert_eq!(rt; replies.len(), 11);
    assert!(rt; replies.first().copied() == Some(reply(&rt, 0, 1, 1, Answer::Kept)));
    let last = Reply {
        seat: seat(&rt, 1),
        outcome: Outcome::Drained(5),
    };
    assert!(rt; replies.last().copied() == Some(last));
    let taken = record(&rt, 1, 10, Deed::TakeMeets(5, ticket(&rt, 5)));
    assert!(rt; records.last().copied() == Some(taken));
}
