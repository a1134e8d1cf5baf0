//! The base that stands for what a checker has seen, and whether another one is that.

use crate::calls::{checker_of, kind_of, pushed, record, seat, ticket};
use meet_history::{CheckFault, Checker, Ground, Why};
use meet_tickets::{Base, Deed, Entry, OpenCut, OpenPair, Order, Record, SeatNo, Side};
use std::alloc::Global;
use std::process::Abort;

/// What a record says of its seat and its ticket; a partner by its ticket, and a target by its seat.
#[derive(Clone, Copy)]
enum Did {
    GiveWaits(u64),
    GiveKept(u64),
    GiveMeets(u64, u64),
    TakeWaits,
    TakeMeets(u64, u64),
    TakeFails,
    Done,
    Interrupt(u64),
}

/// A record: its seat, its ticket, and what it says.
type Row = (u64, u64, Did);

/// An entry of a line: its seat, its ticket, a giver's mark, and whether it waits.
type Lined = (u64, u64, Option<u64>, bool);

/// A ticket that was met: its seat, its ticket, its side, its partner, and the giver's mark.
type Paired = (u64, u64, Side, u64, u64);

/// A ticket that was cut: its seat, its ticket, and a giver's mark.
type Cut = (u64, u64, Option<u64>);

/// A base, as it is written.
#[derive(Clone, Copy)]
struct Written<'a> {
    gone: u64,
    last: u64,
    line: &'a [Lined],
    pairs: &'a [Paired],
    cut: &'a [Cut],
    flags: &'a [u64],
}

/// Records of a place of this order, and the base that stands for them.
#[derive(Clone, Copy)]
struct Story<'a> {
    order: Order,
    rows: &'a [Row],
    base: Written<'a>,
}

/// The base of no records.
const NONE: Written<'static> = Written {
    gone: 0,
    last: 0,
    line: &[],
    pairs: &[],
    cut: &[],
    flags: &[],
};

const NOTHING: Story<'static> = Story {
    order: Order::Fair,
    rows: &[],
    base: NONE,
};

/// Of a request that failed its ticket is left alone.
const A_FAILED_TAKE: Story<'static> = Story {
    order: Order::Unfair,
    rows: &[(0, 4, Did::TakeFails)],
    base: Written {
        gone: 1,
        last: 4,
        ..NONE
    },
};

/// The line stands in order of request.
const TWO_GIVERS: Story<'static> = Story {
    order: Order::Unfair,
    rows: &[(0, 1, Did::GiveWaits(1)), (1, 2, Did::GiveWaits(2))],
    base: Written {
        gone: 2,
        last: 2,
        line: &[(0, 1, Some(1), true), (1, 2, Some(2), true)],
        ..NONE
    },
};

const A_KEPT_ITEM: Story<'static> = Story {
    order: Order::Transfer,
    rows: &[(0, 1, Did::GiveKept(5))],
    base: Written {
        gone: 1,
        last: 1,
        line: &[(0, 1, Some(5), false)],
        ..NONE
    },
};

/// Its giver hasn't followed up.
const A_HANDOFF: Story<'static> = Story {
    order: Order::Fair,
    rows: &[(0, 1, Did::GiveWaits(5)), (1, 2, Did::TakeMeets(5, 1))],
    base: Written {
        gone: 2,
        last: 2,
        pairs: &[(0, 1, Side::Giver, 2, 5)],
        ..NONE
    },
};

const A_WHOLE_HANDOFF: Story<'static> = Story {
    order: Order::Fair,
    rows: &[
        (0, 1, Did::GiveWaits(5)),
        (1, 2, Did::TakeMeets(5, 1)),
        (0, 1, Did::Done),
    ],
    base: Written {
        gone: 3,
        last: 2,
        ..NONE
    },
};

/// Pairs stand by rising ticket, not by seat.
const TWO_TAKERS: Story<'static> = Story {
    order: Order::Fair,
    rows: &[
        (5, 1, Did::TakeWaits),
        (0, 2, Did::TakeWaits),
        (7, 3, Did::GiveMeets(30, 1)),
        (8, 4, Did::GiveMeets(40, 2)),
    ],
    base: Written {
        gone: 4,
        last: 4,
        pairs: &[(5, 1, Side::Taker, 3, 30), (0, 2, Side::Taker, 4, 40)],
        ..NONE
    },
};

/// So do tickets that were cut; and a taker has no item.
const TWO_CUT: Story<'static> = Story {
    order: Order::Fair,
    rows: &[
        (5, 1, Did::TakeWaits),
        (9, 1, Did::Interrupt(5)),
        (0, 2, Did::GiveWaits(6)),
        (9, 2, Did::Interrupt(0)),
    ],
    base: Written {
        gone: 4,
        last: 2,
        cut: &[(5, 1, None), (0, 2, Some(6))],
        ..NONE
    },
};

/// Flagged seats rise.
const TWO_FLAGS: Story<'static> = Story {
    order: Order::Fair,
    rows: &[(0, 0, Did::Interrupt(6)), (0, 0, Did::Interrupt(3))],
    base: Written {
        gone: 2,
        last: 0,
        flags: &[3, 6],
        ..NONE
    },
};

/// One of each.
const ALL: Story<'static> = Story {
    order: Order::Transfer,
    rows: &[
        (0, 1, Did::TakeWaits),
        (1, 2, Did::GiveMeets(10, 1)),
        (2, 3, Did::GiveWaits(20)),
        (3, 4, Did::TakeMeets(20, 3)),
        (4, 5, Did::GiveWaits(30)),
        (5, 5, Did::Interrupt(4)),
        (5, 0, Did::Interrupt(6)),
        (7, 6, Did::GiveKept(40)),
        (8, 7, Did::GiveWaits(50)),
    ],
    base: ALL_BASE,
};

const ALL_BASE: Written<'static> = Written {
    gone: 9,
    last: 7,
    line: &[(7, 6, Some(40), false), (8, 7, Some(50), true)],
    pairs: &[(0, 1, Side::Taker, 2, 10), (2, 3, Side::Giver, 4, 20)],
    cut: &[(4, 5, Some(30))],
    flags: &[6],
};

/// What a base has in the place of one of its fields.
#[derive(Clone, Copy)]
enum Other<'a> {
    Gone(u64),
    Last(u64),
    Line(&'a [Lined]),
    Pairs(&'a [Paired]),
    Cut(&'a [Cut]),
    Flags(&'a [u64]),
}

/// None of these is a field of that base.
const OTHERS: [Other<'static>; 26] = [
    Other::Gone(8),
    Other::Last(8),
    Other::Line(&[(7, 6, Some(40), false), (9, 7, Some(50), true)]),
    Other::Line(&[(7, 5, Some(40), false), (8, 7, Some(50), true)]),
    Other::Line(&[(7, 6, Some(41), false), (8, 7, Some(50), true)]),
    Other::Line(&[(7, 6, Some(40), false), (8, 7, None, true)]),
    Other::Line(&[(7, 6, Some(40), true), (8, 7, Some(50), true)]),
    Other::Line(&[(8, 7, Some(50), true), (7, 6, Some(40), false)]),
    Other::Line(&[(7, 6, Some(40), false)]),
    Other::Line(&[
        (7, 6, Some(40), false),
        (8, 7, Some(50), true),
        (9, 8, Some(60), true),
    ]),
    Other::Line(&[]),
    Other::Pairs(&[(0, 1, Side::Taker, 2, 10), (9, 3, Side::Giver, 4, 20)]),
    Other::Pairs(&[(0, 1, Side::Taker, 2, 10), (2, 2, Side::Giver, 4, 20)]),
    Other::Pairs(&[(0, 1, Side::Giver, 2, 10), (2, 3, Side::Giver, 4, 20)]),
    Other::Pairs(&[(0, 1, Side::Taker, 2, 10), (2, 3, Side::Giver, 5, 20)]),
    Other::Pairs(&[(0, 1, Side::Taker, 2, 10), (2, 3, Side::Giver, 4, 21)]),
    Other::Pairs(&[(2, 3, Side::Giver, 4, 20), (0, 1, Side::Taker, 2, 10)]),
    Other::Pairs(&[(0, 1, Side::Taker, 2, 10)]),
    Other::Cut(&[(9, 5, Some(30))]),
    Other::Cut(&[(4, 4, Some(30))]),
    Other::Cut(&[(4, 5, Some(31))]),
    Other::Cut(&[(4, 5, None)]),
    Other::Cut(&[]),
    Other::Flags(&[5]),
    Other::Flags(&[6, 9]),
    Other::Flags(&[]),
];

/// The base with this in the place of its own.
fn with<'a>(base: Written<'a>, other: Other<'a>) -> Written<'a> {
    match other {
        Other::Gone(gone) => Written { gone, ..base },
        Other::Last(last) => Written { last, ..base },
        Other::Line(line) => Written { line, ..base },
        Other::Pairs(pairs) => Written { pairs, ..base },
        Other::Cut(cut) => Written { cut, ..base },
        Other::Flags(flags) => Written { flags, ..base },
    }
}

/// The deed of a record.
fn deed_of(rt: &impl Abort, did: Did) -> Deed {
    match did {
        Did::GiveWaits(mark) => Deed::GiveWaits(mark),
        Did::GiveKept(mark) => Deed::GiveKept(mark),
        Did::GiveMeets(mark, with) => Deed::GiveMeets(mark, ticket(rt, with)),
        Did::TakeWaits => Deed::TakeWaits,
        Did::TakeMeets(mark, with) => Deed::TakeMeets(mark, ticket(rt, with)),
        Did::TakeFails => Deed::TakeFails,
        Did::Done => Deed::Done,
        Did::Interrupt(target) => Deed::Interrupt(seat(rt, target)),
    }
}

/// The record of a row.
fn record_of(rt: &impl Abort, row: Row) -> Record<Deed> {
    let (seat, ticket, did) = row;
    record(rt, seat, ticket, deed_of(rt, did))
}

/// The lists of a base, as they are written.
fn line_of(rt: &impl Abort, alloc: Global, rows: &[Lined]) -> Vec<Entry<u64>> {
    let mut line = Vec::new(alloc);
    for (number, own, item, waits) in rows {
        line.push(Entry {
            ticket: ticket(rt, *own),
            seat: seat(rt, *number),
            item: *item,
            waits: *waits,
        })
        .expect(rt, "memory");
    }
    line
}

fn pairs_of(rt: &impl Abort, alloc: Global, rows: &[Paired]) -> Vec<OpenPair> {
    let mut pairs = Vec::new(alloc);
    for (number, own, side, with, mark) in rows {
        pairs
            .push(OpenPair {
                ticket: ticket(rt, *own),
                seat: seat(rt, *number),
                side: *side,
                partner: ticket(rt, *with),
                mark: *mark,
            })
            .expect(rt, "memory");
    }
    pairs
}

fn cut_of(rt: &impl Abort, alloc: Global, rows: &[Cut]) -> Vec<OpenCut> {
    let mut cut = Vec::new(alloc);
    for (number, own, item) in rows {
        cut.push(OpenCut {
            ticket: ticket(rt, *own),
            seat: seat(rt, *number),
            item: *item,
        })
        .expect(rt, "memory");
    }
    cut
}

fn flags_of(rt: &impl Abort, alloc: Global, rows: &[u64]) -> Vec<SeatNo> {
    let mut flags = Vec::new(alloc);
    for number in rows {
        flags.push(seat(rt, *number)).expect(rt, "memory");
    }
    flags
}

/// The base that is written.
fn base_of(rt: &impl Abort, alloc: Global, written: Written<'_>) -> Base {
    Base {
        gone: written.gone,
        last: ticket(rt, written.last),
        line: line_of(rt, alloc, written.line),
        pairs: pairs_of(rt, alloc, written.pairs),
        cut: cut_of(rt, alloc, written.cut),
        flags: flags_of(rt, alloc, written.flags),
    }
}

/// The line is this.
fn has_line(rt: &impl Abort, line: &[Entry<u64>], rows: &[Lined]) {
    assert_eq!(rt; line.len(), rows.len());
    for (entry, (seat, ticket, item, waits)) in line.iter().zip(rows) {
        assert_eq!(rt; entry.seat.number(), *seat);
        assert_eq!(rt; entry.ticket.number(), *ticket);
        assert_eq!(rt; entry.item, *item);
        assert_eq!(rt; entry.waits, *waits);
    }
}

/// A base is as it is written.
fn is_as_written(rt: &impl Abort, alloc: Global, base: &Base, written: Written<'_>) {
    let wanted = base_of(rt, alloc, written);
    assert_eq!(rt; base.gone, wanted.gone);
    assert_eq!(rt; base.last, wanted.last);
    has_line(rt, base.line.as_slice(), written.line);
    assert!(rt; base.pairs == wanted.pairs);
    assert!(rt; base.cut == wanted.cut);
    assert!(rt; base.flags == wanted.flags);
}

/// The checker tells this base.
fn tells(rt: &impl Abort, alloc: Global, checker: &Checker, written: Written<'_>) {
    match checker.base(alloc) {
        Ok(base) => is_as_written(rt, alloc, &base, written),
        Err(_) => panic!(rt; "no base was told"),
    }
}

/// Whether the checker is where this base stands.
fn is_there(
    rt: &impl Abort,
    alloc: Global,
    checker: &Checker,
    written: Written<'_>,
) -> Result<bool, CheckFault> {
    let base = base_of(rt, alloc, written);
    checker.ends_at(alloc, &base)
}

/// Each of the records can stand.
fn pushes(rt: &impl Abort, checker: &mut Checker, rows: &[Row]) {
    for row in rows {
        assert_eq!(rt; pushed(checker, record_of(rt, *row)), Ok(()));
    }
}

/// A checker that has seen a story.
fn told(rt: &impl Abort, alloc: Global, story: Story<'_>) -> Checker {
    let mut checker = checker_of(rt, alloc, story.order);
    pushes(rt, &mut checker, story.rows);
    checker
}

/// What stands for the story is its base.
fn leaves(rt: &impl Abort, alloc: Global, story: Story<'_>) {
    let checker = told(rt, alloc, story);
    tells(rt, alloc, &checker, story.base);
    assert_eq!(rt; is_there(rt, alloc, &checker, story.base), Ok(true));
}

#[test]
fn stories_leave_their_bases(rt: HostRuntime) {
    let stories = [
        NOTHING,
        A_FAILED_TAKE,
        TWO_GIVERS,
        A_KEPT_ITEM,
        A_HANDOFF,
        A_WHOLE_HANDOFF,
        TWO_TAKERS,
        TWO_CUT,
        TWO_FLAGS,
        ALL,
    ];
    for story in stories {
        leaves(&rt, rt.alloc(), story);
    }
}

#[test]
fn no_other_base_is_the_end(rt: HostRuntime) {
    let checker = told(&rt, rt.alloc(), ALL);
    for other in OTHERS {
        assert_eq!(rt;
            is_there(&rt, rt.alloc(), &checker, with(ALL.base, other)),
            Ok(false)
        );
    }
    assert_eq!(rt; is_there(&rt, rt.alloc(), &checker, ALL.base), Ok(true));
}

#[test]
fn records_that_were_folded_away_count(rt: HostRuntime) {
    let kind = kind_of(Order::Fair);
    let begin = Ground::new(rt.alloc(), kind, 5, ticket(&rt, 9)).into_base();
    let mut checker = Checker::new(rt.alloc(), kind, &begin).expect(&rt, "memory");
    assert_eq!(rt; checker.ends_at(rt.alloc(), &begin), Ok(true));
    pushes(&rt, &mut checker, &[(0, 12, Did::TakeWaits)]);
    assert_eq!(rt; checker.ends_at(rt.alloc(), &begin), Ok(false));
    let end = Written {
        gone: 6,
        last: 12,
        line: &[(0, 12, None, true)],
        ..NONE
    };
    tells(&rt, rt.alloc(), &checker, end);
    assert_eq!(rt; is_there(&rt, rt.alloc(), &checker, end), Ok(true));
}

#[test]
fn a_fault_has_no_base(rt: HostRuntime) {
    let mut checker = told(&rt, rt.alloc(), TWO_GIVERS);
    let fault = CheckFault::Illegal {
        place: 3,
        why: Why::NotOpen,
    };
    // Seat 2 has no open ticket.
    let done = record_of(&rt, (2, 1, Did::Done));
    assert_eq!(rt; pushed(&mut checker, done), Err(fault));
    assert_eq!(rt;
        is_there(&rt, rt.alloc(), &checker, TWO_GIVERS.base),
        Err(fault)
    );
    match checker.base(rt.alloc()) {
        Ok(_) => panic!(rt; "a base was told"),
        Err(found) => assert_eq!(rt; found, fault),
    }
}
