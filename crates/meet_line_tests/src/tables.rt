//! A table of seats: what each holds, which are flagged, and how many tickets are open.

ghost use Rattle.std.specs.Prelude.{◌≡◌, ◌<◌, length};

use crate::parcels::{Parcel, seat, ticket};
use meet_core::SeatTable;
use meet_tickets::Hold;
use std::alloc::Global;
use std::process::Abort;

/// A table of three seats.
fn table_of_three(rt: &impl Abort, alloc: Global) -> SeatTable<Parcel>
    ensures { length result.holds ≡ 3 }
{
    SeatTable::new(alloc, 3).expect(rt, "memory")
}

/// The open ticket and the item's serial number in what a seat holds.
fn seen(hold: &Hold<Parcel>) -> (Option<u64>, Option<u64>) {
    let item = match hold {
        Hold::Free | Hold::Waiting(_) | Hold::Handed(_, _, _) => None,
        Hold::Served(_, _, item) => Some(item.serial),
        Hold::Cut(_, item) => item.as_ref().map(|item| item.serial),
    };
    (hold.open_ticket().map(|own| own.number()), item)
}

/// What the seat of this number held, once it holds this; so many seats then have an open ticket, and so many of these
/// aren't in the line.
fn swaps(
    rt: &impl Abort,
    table: &mut SeatTable<Parcel>,
    number: u64,
    hold: Hold<Parcel>,
    was: (Option<u64>, Option<u64>),
    counts: (u64, u64),
)
    requires { number < length table.old.holds }
    ensures { length table.new.holds ≡ length table.old.holds }
{
    let holds = seen(&hold);
    let held = table.replace(seat(rt, number), hold);
    assert_eq!(rt; seen(&held), was);
    assert_eq!(rt; seen(table.hold(seat(rt, number))), holds);
    assert_eq!(rt; (table.owed(), table.settled()), counts);
}

#[test]
fn a_seat_hands_out_what_it_held(rt: HostRuntime) {
    let mut table = table_of_three(&rt, rt.alloc());
    let waits = Hold::Waiting(ticket(&rt, 4));
    swaps(&rt, &mut table, 1, waits, (None, None), (1, 0));
    let served = Hold::Served(ticket(&rt, 4), ticket(&rt, 6), Parcel { serial: 60 });
    swaps(&rt, &mut table, 1, served, (Some(4), None), (1, 1));
    let cut = Hold::Cut(ticket(&rt, 5), Some(Parcel { serial: 50 }));
    swaps(&rt, &mut table, 2, cut, (None, None), (2, 2));
    let free = Hold::Free;
    swaps(&rt, &mut table, 1, free, (Some(4), Some(60)), (1, 1));
}

#[test]
fn a_flag_is_its_seats_own(rt: HostRuntime) {
    let mut table = table_of_three(&rt, rt.alloc());
    assert_eq!(rt; table.count(), 3);
    table.set_flag(seat(&rt, 1), true);
    assert!(rt; table.is_flagged(seat(&rt, 1)));
    assert!(rt; !table.is_flagged(seat(&rt, 0)));
    table.set_flag(seat(&rt, 1), false);
    assert!(rt; !table.is_flagged(seat(&rt, 1)));
}

#[test]
fn growth_keeps_what_seats_hold(rt: HostRuntime) {
    let mut table = table_of_three(&rt, rt.alloc());
    let served = Hold::Served(ticket(&rt, 4), ticket(&rt, 6), Parcel { serial: 60 });
    swaps(&rt, &mut table, 1, served, (None, None), (1, 1));
    table.set_flag(seat(&rt, 2), true);
    table.grow(300).expect(&rt, "memory");
    assert_eq!(rt; table.count(), 300);
    assert_eq!(rt; (table.owed(), table.settled()), (1, 1));
    assert_eq!(rt; seen(table.hold(seat(&rt, 1))), (Some(4), Some(60)));
    assert_eq!(rt; seen(table.hold(seat(&rt, 299))), (None, None));
    assert!(rt; table.is_flagged(seat(&rt, 2)));
    assert!(rt; !table.is_flagged(seat(&rt, 299)));
}
