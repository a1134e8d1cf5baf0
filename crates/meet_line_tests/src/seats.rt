//! Lines with a place for each seat, and what all lines do of that: who is found and leaves by a seat, by a ticket alone,
//! and by a seat that holds another ticket; and the places that come.

use crate::parcels::{Parcel, join, meets_in_order, seat, serial, serial_of, ticket};
use meet_line::{FairLine, FairRing, FairSeats, Line, StackLine, StackRing, StackSeats};
use std::alloc::Global;
use std::process::Abort;

/// A line of the tickets 1 to 5, each of the seat of its number, whose items are numbered 10 to 50, and with room for no
/// more.
fn line_of_five<L: Line<Parcel> + Drop>(rt: &impl Abort, alloc: Global) -> L {
    let mut line = L::empty(alloc);
    line.widen(6).expect(rt, "memory");
    line.reserve(5).expect(rt, "memory");
    join(rt, &mut line, 1, 10);
    join(rt, &mut line, 2, 20);
    join(rt, &mut line, 3, 30);
    join(rt, &mut line, 4, 40);
    join(rt, &mut line, 5, 50);
    line
}

/// Which ticket leaves, the seat at which it is looked for, none for a removal by its ticket alone, and the serial of
/// the item that it has.
pub type Leaving = (u64, Option<u64>, Option<u64>);

/// From the middle, by seat, by ticket alone, and by a seat that holds another, that holds none, or that isn't there;
/// then tickets that are gone or never were.
const LEAVINGS: [Leaving; 8] = [
    (3, Some(3), Some(30)),
    (3, Some(3), None),
    (2, None, Some(20)),
    (4, Some(1), Some(40)),
    (4, Some(1), None),
    (7, Some(5), None),
    (1, Some(3), Some(10)),
    (5, Some(65_535), Some(50)),
];

/// The first of these alone.
const FEW: [Leaving; 2] = [(3, Some(3), Some(30)), (2, None, Some(20))];

/// Each is found as it should be, leaves and isn't found any more, and gives its room back.
pub fn leave<L: Line<Parcel>>(rt: &impl Abort, line: &mut L, leavings: &[Leaving]) {
    for (number, at, wanted) in leavings {
        let room = line.room();
        assert_eq!(rt; find(rt, line, *number, *at), *wanted);
        let taken = serial(match at {
            Some(at) => line.remove_at(seat(rt, *at), ticket(rt, *number)),
            None => line.remove(ticket(rt, *number)),
        });
        assert_eq!(rt; taken, *wanted);
        assert_eq!(rt; line.room() - room, u64::from(wanted.is_some()));
        assert_eq!(rt; find(rt, line, *number, *at), None);
    }
}

/// The serial of the item of this ticket, which is looked for at this seat, or by its ticket alone.
fn find<L: Line<Parcel>>(rt: &impl Abort, line: &L, number: u64, at: Option<u64>) -> Option<u64> {
    serial_of(match at {
        Some(at) => line.entry_at(seat(rt, at), ticket(rt, number)),
        None => line.entry(ticket(rt, number)),
    })
}

/// All leave a line of five, the first few of them another, and it meets the rest in this order.
pub fn leaves<L: Line<Parcel> + Drop>(rt: &impl Abort, alloc: Global, rest: &[u64]) {
    let mut line: L = line_of_five(rt, alloc);
    leave(rt, &mut line, &LEAVINGS);
    meets_in_order(rt, &mut line, &[]);
    let mut line: L = line_of_five(rt, alloc);
    leave(rt, &mut line, &FEW);
    meets_in_order(rt, &mut line, rest);
}

#[test]
fn who_leaves_by_a_seat(rt: HostRuntime) {
    leaves::<FairLine<Parcel>>(&rt, rt.alloc(), &[10, 40, 50]);
    leaves::<FairRing<Parcel>>(&rt, rt.alloc(), &[10, 40, 50]);
    leaves::<FairSeats<Parcel>>(&rt, rt.alloc(), &[10, 40, 50]);
}

#[test]
fn who_leaves_a_stack_by_a_seat(rt: HostRuntime) {
    leaves::<StackLine<Parcel>>(&rt, rt.alloc(), &[50, 40, 10]);
    leaves::<StackRing<Parcel>>(&rt, rt.alloc(), &[50, 40, 10]);
    leaves::<StackSeats<Parcel>>(&rt, rt.alloc(), &[50, 40, 10]);
}

/// `widen` changes no capacity, and there may be capacity for more nodes than there are places.
pub fn widens<L: Line<Parcel> + Drop>(rt: &impl Abort, alloc: Global) {
    let mut line = L::empty(alloc);
    line.widen(3).expect(rt, "memory");
    assert_eq!(rt; line.room(), 0);
    line.widen(2).expect(rt, "memory");
    line.reserve(2).expect(rt, "memory");
    let room = line.room();
    assert!(rt; room >= 2);
    line.widen(65_536).expect(rt, "memory");
    assert_eq!(rt; line.room(), room);
    join(rt, &mut line, 2, 20);
    join(rt, &mut line, 65_535, 30);
    assert_eq!(rt; line.room() + 2, room);
    line.reserve(70_000).expect(rt, "memory");
    assert!(rt; line.room() >= 70_000);
    assert_eq!(rt;
        serial(line.remove_at(seat(rt, 65_535), ticket(rt, 65_535))),
        Some(30)
    );
    assert_eq!(rt; line.len(), 1);
}

#[test]
fn lines_widen(rt: HostRuntime) {
    widens::<FairLine<Parcel>>(&rt, rt.alloc());
    widens::<FairRing<Parcel>>(&rt, rt.alloc());
    widens::<FairSeats<Parcel>>(&rt, rt.alloc());
    widens::<StackSeats<Parcel>>(&rt, rt.alloc());
}
