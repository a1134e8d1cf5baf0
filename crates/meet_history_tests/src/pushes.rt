//! Records that are pushed on a checker one by one, and more of them than a book has.

use crate::calls::{checker_of, found, pushed, record, ticket};
use meet_history::{CheckFault, Checker, Standing, Why};
use meet_tickets::{Deed, Order, Record};
use std::alloc::Global;
use std::process::Abort;

#[test]
fn a_handoff_record_by_record(rt: HostRuntime) {
    let records = [
        (record(&rt, 0, 1, Deed::GiveWaits(5)), (1, 0)),
        (
            record(&rt, 1, 2, Deed::TakeMeets(5, ticket(&rt, 1))),
            (0, 1),
        ),
        (record(&rt, 0, 1, Deed::Done), (0, 0)),
    ];
    let mut checker = checker_of(&rt, rt.alloc(), Order::Fair);
    for (entry, (waiting, uncollected)) in records {
        assert_eq!(rt; pushed(&mut checker, entry), Ok(()));
        let standing = Standing {
            waiting,
            uncollected,
            kept: 0,
        };
        assert_eq!(rt; checker.standing(), Ok(standing));
    }
}

#[test]
fn a_fault_stays(rt: HostRuntime) {
    let mut checker = checker_of(&rt, rt.alloc(), Order::Fair);
    let first = record(&rt, 0, 1, Deed::GiveWaits(1));
    assert_eq!(rt; pushed(&mut checker, first), Ok(()));
    let second = record(&rt, 1, 2, Deed::GiveWaits(2));
    assert_eq!(rt; pushed(&mut checker, second), Ok(()));
    let fault = Err(CheckFault::Illegal {
        place: 3,
        why: Why::WrongReply,
    });
    // The first giver is met in a fair queue, not the last.
    let last = record(&rt, 2, 3, Deed::TakeMeets(2, ticket(&rt, 2)));
    assert_eq!(rt; pushed(&mut checker, last), fault);
    // This one could have come third, and another fault is none of its own.
    let third = record(&rt, 2, 4, Deed::TakeMeets(1, ticket(&rt, 1)));
    assert_eq!(rt; pushed(&mut checker, third), fault);
    let another = record(&rt, 0, 4, Deed::TakeFails);
    assert_eq!(rt; pushed(&mut checker, another), fault);
    assert!(rt;
        checker.standing()
            == Err(CheckFault::Illegal {
                place: 3,
                why: Why::WrongReply
            })
    );
}

/// How many records are checked: a text may have more than a book.
const MANY: u64 = 1_100_000;

/// Nothing stands there.
const NOTHING: Standing = Standing {
    waiting: 0,
    uncollected: 0,
    kept: 0,
};

/// Polls of one seat that find nobody.
fn polls(rt: &impl Abort, alloc: Global, count: u64) -> Vec<Record<Deed>> {
    let mut records = Vec::new(alloc);
    for number in 1..=count {
        records
            .push(record(rt, 0, number, Deed::TakeFails))
            .expect(rt, "memory");
    }
    records
}

/// Each of the records can stand.
fn stands(rt: &impl Abort, checker: &mut Checker, records: &[Record<Deed>]) {
    for entry in records {
        assert_eq!(rt; pushed(checker, *entry), Ok(()));
    }
}

#[test]
fn more_records_than_a_book_has(rt: HostRuntime) {
    let records = polls(&rt, rt.alloc(), MANY);
    let found = found(rt.alloc(), Order::Fair, records.as_slice());
    assert_eq!(&rt; found, Ok(NOTHING));
    let mut checker = checker_of(&rt, rt.alloc(), Order::Fair);
    stands(&rt, &mut checker, records.as_slice());
    assert_eq!(&rt; checker.standing(), Ok(NOTHING));
}
