//! Exchanges, row by row.

use crate::shared::{has_after, opened, times_out};
use meet_exchanger::{Back, Exchanger, SlotDeed};
use meet_tickets::Refusal;
use std::test::*;
use std::thread;

/// Two threads swap, and what they did is in their lists, and in the slot's one round.
#[test]
fn two_threads_swap(rt: HostRuntime) {
    let alloc = rt.alloc();
    let (exchanger, zero, one) = opened(&rt, alloc);
    let (a, b) = thread::join(
        &rt,
        || has_after(&rt, &exchanger, zero, 5, 60_000),
        || has_after(&rt, &exchanger, one, 6, 60_000),
    );
    assert_eq!(&rt; (a.1, a.2, b.1, b.2), (6, true, 5, true));
    let mut backs = Vec::new(alloc);
    backs.push(Back::Free(a.0)).expect(&rt, "memory");
    backs.push(Back::Free(b.0)).expect(&rt, "memory");
    let Ok(closed) = exchanger.close(alloc, backs) else {
        panic!(&rt; "not closed")
    };
    assert_eq!(&rt; (closed.slots.len(), closed.lists.len()), (1, 2));
    assert_eq!(&rt; closed.slots[0].len(), 1);
    assert_eq!(&rt; closed.lists[0].len() + closed.lists[1].len(), 3);
    assert_eq!(&rt; closed.left.len(), 0);
}

/// A call that is alone posts its item in the slot 0, and takes it back.
#[test]
fn a_call_alone_times_out_with_its_item(rt: HostRuntime) {
    let (exchanger, zero, _one) = opened(&rt, rt.alloc());
    let zero = times_out(&rt, &exchanger, zero, 20);
    let parts = zero.parts();
    assert_eq!(&rt; parts.len(), 2);
    assert!(&rt; parts[0].slot == 0 && parts[0].deed == SlotDeed::Posted(5));
    assert!(&rt; parts[1].slot == 0 && parts[1].deed == SlotDeed::Withdrawn);
}

/// After a call that timed out the seat can exchange.
#[test]
fn a_seat_goes_on_after_it_timed_out(rt: HostRuntime) {
    let (exchanger, zero, one) = opened(&rt, rt.alloc());
    let zero = times_out(&rt, &exchanger, zero, 1);
    let (a, b) = thread::join(
        &rt,
        || has_after(&rt, &exchanger, zero, 5, 60_000),
        || has_after(&rt, &exchanger, one, 6, 60_000),
    );
    assert_eq!(&rt; (a.1, b.1), (6, 5));
}

/// A limit that is reached when the other comes: both get the other's item, or both keep their own.
#[test]
fn a_limit_against_a_swap_at_the_same_moment(rt: HostRuntime) {
    let (exchanger, zero, one) = opened(&rt, rt.alloc());
    let (mut zero, mut one) = (zero, one);
    for _ in 0..300 {
        let (a, b) = thread::join(
            &rt,
            || has_after(&rt, &exchanger, zero, 5, 1),
            || has_after(&rt, &exchanger, one, 6, 1),
        );
        let both = (a.1, a.2, b.1, b.2);
        assert!(&rt; both == (6, true, 5, true) || both == (5, false, 6, false));
        (zero, one) = (a.0, b.0);
    }
}

/// An exchanger has 1 to 65,536 seats, and is closed with all of them.
#[test]
fn what_is_refused(rt: HostRuntime) {
    let alloc = rt.alloc();
    for seats in [0, 65_537] {
        let made = Exchanger::<u64>::new(alloc, seats);
        assert!(&rt; matches!(made, Err(Refusal::BadSizes)));
    }
    let Ok((exchanger, _seats)) = Exchanger::<u64>::new(alloc, 3) else {
        panic!(&rt; "no exchanger")
    };
    assert_eq!(&rt; exchanger.seats(), 3);
    match exchanger.close(alloc, Vec::new(alloc)) {
        Ok(_) => panic!(&rt; "closed"),
        Err(fault) => assert_eq!(&rt; fault.into_why(), Refusal::SeatMissing),
    }
}
