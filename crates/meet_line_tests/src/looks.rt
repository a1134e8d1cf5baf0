//! Lines that find tickets in buckets: how many nodes a removal looks at; and that all six lines do alike.

ghost use Rattle.std.specs.Prelude.{◌<◌, ◌^◌};

use crate::parcels::{Parcel, join, join_seat_0, meets_in_order, serial, ticket};
use meet_line::{
    BufferLine, FairLine, FairRing, FairSeats, Line, StackLine, StackRing, StackSeats, marked_line,
};
use std::alloc::Global;
use std::process::Abort;

/// The tickets from 1 to this one, as many as there was room made for.
fn crowd<L: BufferLine<Parcel> + Drop>(rt: &impl Abort, alloc: Global, last: u64) -> L
    requires few { last < 2 ^ 32 }
{
    let mut line = L::empty(alloc);
    line.reserve(last).expect(rt, "memory");
    for number in 1..last + 1 {
        join_seat_0(rt, &mut line, number, number);
    }
    line
}

#[test]
fn a_fair_line_looks_at_one(rt: HostRuntime) {
    let mut line: FairLine<Parcel> = crowd(&rt, rt.alloc(), 1_024);
    assert_eq!(rt; line.looks(), 0);
    assert_eq!(rt; serial(line.remove(ticket(&rt, 512))), Some(512));
    assert_eq!(rt; line.looks(), 1);
    assert_eq!(rt; line.len(), 1023);
}

#[test]
fn a_stack_looks_at_one(rt: HostRuntime) {
    let mut line: StackLine<Parcel> = crowd(&rt, rt.alloc(), 1_024);
    assert_eq!(rt; line.looks(), 0);
    assert_eq!(rt; serial(line.remove(ticket(&rt, 512))), Some(512));
    assert_eq!(rt; line.looks(), 1);
    assert_eq!(rt; line.len(), 1023);
}

/// How many a large line has.
const MANY: u64 = 66_000;

/// A large line lists all who are there, in the order in which they came, and so do the marks of their items.
pub fn lists_many<L: BufferLine<Parcel> + Drop>(rt: &impl Abort, alloc: Global) {
    let line: L = crowd(rt, alloc, MANY);
    let list = line.list(alloc).expect(rt, "memory");
    assert_eq!(rt; list.len() as u64, MANY);
    for (at, entry) in list.iter().enumerate() {
        assert_eq!(rt; entry.ticket.number(), (at as u64).saturating_add(1));
    }
    let marks = marked_line(alloc, &line).expect(rt, "memory");
    assert_eq!(rt; marks.len() as u64, MANY);
    for (at, entry) in marks.iter().enumerate() {
        assert_eq!(rt; entry.item, Some((at as u64).saturating_add(1)));
    }
}

#[test]
fn a_large_line_is_listed(rt: HostRuntime) {
    lists_many::<FairLine<Parcel>>(&rt, rt.alloc());
    lists_many::<StackLine<Parcel>>(&rt, rt.alloc());
    lists_many::<FairRing<Parcel>>(&rt, rt.alloc());
    lists_many::<StackRing<Parcel>>(&rt, rt.alloc());
}

/// Which ticket leaves, none for a meeting, and the serial of the item that it has.
pub type Step = (Option<u64>, Option<u64>);

/// These steps of a line of five tickets, of which three share a bucket, and five more in their places.
pub fn plays<L: Line<Parcel> + Drop>(rt: &impl Abort, alloc: Global, steps: &[Step], rest: &[u64]) {
    let mut line = L::empty(alloc);
    line.widen(40).expect(rt, "memory");
    line.reserve(5).expect(rt, "memory");
    join(rt, &mut line, 1, 10);
    join(rt, &mut line, 9, 90);
    join(rt, &mut line, 12, 120);
    join(rt, &mut line, 17, 170);
    join(rt, &mut line, 20, 200);
    takes(rt, &mut line, steps);
    assert_eq!(rt; line.len(), 0);
    assert!(rt; line.room() >= 5);
    line.widen(40).expect(rt, "it is as wide");
    join(rt, &mut line, 25, 250);
    join(rt, &mut line, 33, 330);
    join(rt, &mut line, 34, 340);
    meets_in_order(rt, &mut line, rest);
}

/// Each step takes the item that it should.
fn takes<L: Line<Parcel>>(rt: &impl Abort, line: &mut L, steps: &[Step]) {
    for (leaves, wanted) in steps {
        let taken = match leaves {
            Some(number) => line.remove(ticket(rt, *number)),
            None => line.meet(),
        };
        assert_eq!(rt; serial(taken), *wanted);
    }
}

/// What leaves a line whose first is met.
pub const FIRST: [Step; 8] = [
    (Some(9), Some(90)),
    (Some(25), None),
    (None, Some(10)),
    (Some(1), None),
    (Some(20), Some(200)),
    (None, Some(120)),
    (Some(17), Some(170)),
    (None, None),
];

/// What leaves a line whose last is met.
const LAST: [Step; 8] = [
    (Some(9), Some(90)),
    (Some(25), None),
    (None, Some(200)),
    (Some(20), None),
    (Some(1), Some(10)),
    (None, Some(170)),
    (Some(12), Some(120)),
    (None, None),
];

#[test]
fn fair_lines_do_alike(rt: HostRuntime) {
    plays::<FairLine<Parcel>>(&rt, rt.alloc(), &FIRST, &[250, 330, 340]);
    plays::<FairRing<Parcel>>(&rt, rt.alloc(), &FIRST, &[250, 330, 340]);
    plays::<FairSeats<Parcel>>(&rt, rt.alloc(), &FIRST, &[250, 330, 340]);
}

#[test]
fn stacks_do_alike(rt: HostRuntime) {
    plays::<StackLine<Parcel>>(&rt, rt.alloc(), &LAST, &[340, 330, 250]);
    plays::<StackRing<Parcel>>(&rt, rt.alloc(), &LAST, &[340, 330, 250]);
    plays::<StackSeats<Parcel>>(&rt, rt.alloc(), &LAST, &[340, 330, 250]);
}
