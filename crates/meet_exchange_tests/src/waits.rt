//! Exchanges that wait.

ghost use Rattle.std.specs.Prelude.{◌≡◌, ◌<◌};

use crate::shared::{keeps_busy, last_seat, opened, posts};
use meet_exchange::{Arena, Exchanged, Part, Seat, SlotDeed};
use std::process::Abort;
use std::sync::Wait;
use std::thread;

/// The other seat's item, without a limit.
pub fn met<R: Wait>(rt: &R, arena: &Arena<u64>, seat: Seat<u64>, item: u64) -> Option<u64>
    requires { (seat.arena ≡ arena.now.id) × (0 < arena.now.slots) }
{
    match arena.exchange(rt, seat, 0, item, None) {
        Exchanged::Swapped(_, got) => Some(got),
        _ => None,
    }
}

#[test]
fn two_threads_get_each_others_items(rt: HostRuntime) {
    let (arena, zero, one, _two) = opened(&rt, rt.alloc(), 1);
    let (five, six) = thread::join(
        &rt,
        || met(&rt, &arena, zero, 5),
        || met(&rt, &arena, one, 6),
    );
    assert_eq!(rt; (five, six), (Some(6), Some(5)));
}

/// An exchange of 5 that times out, with its item.
pub fn times_out<R: Wait + Abort>(
    rt: &R,
    arena: &Arena<u64>,
    seat: Seat<u64>,
    slot: usize,
    limit: u64,
) -> Seat<u64>
    requires { (seat.arena ≡ arena.now.id) × (slot < arena.now.slots) }
    ensures { result.arena ≡ arena.now.id }
{
    match arena.exchange(rt, seat, slot, 5, Some(limit)) {
        Exchanged::TimedOut(seat, item) => {
            assert_eq!(rt; item, 5);
            seat
        }
        _ => panic!(rt; "not timed out"),
    }
}

/// The slot was used before, so the two meet in a later round.
#[test]
fn two_threads_meet_in_a_later_round(rt: HostRuntime) {
    let (arena, zero, one, _two) = opened(&rt, rt.alloc(), 1);
    let zero = times_out(&rt, &arena, zero, 0, 1);
    let (five, six) = thread::join(
        &rt,
        || met(&rt, &arena, zero, 5),
        || met(&rt, &arena, one, 6),
    );
    assert_eq!(rt; (five, six), (Some(6), Some(5)));
}

/// It was posted and taken back in these slots, in turn.
pub fn tried(rt: &impl Abort, list: &[Part], slots: &[usize]) {
    assert_eq!(rt; list.len(), 2 * slots.len());
    for (pair, slot) in list.chunks(2).zip(slots) {
        assert!(rt; pair[0].slot == *slot && pair[0].deed == SlotDeed::Posted(5));
        assert!(rt; pair[1].slot == *slot && pair[1].deed == SlotDeed::Withdrawn);
    }
}

#[test]
fn an_exchange_times_out_where_it_should(rt: HostRuntime) {
    let rows: [(u64, usize, &[usize]); 6] = [
        (0, 3, &[3]),
        (1, 3, &[3]),
        (1_000, 3, &[3]),
        (1_001, 3, &[3, 1]),
        (2_000, 2, &[2, 1]),
        (2_500, 3, &[3, 1, 0]),
    ];
    for (limit, slot, slots) in rows {
        let (arena, seat, _one, _two) = opened(&rt, rt.alloc(), 4);
        let seat = times_out(&rt, &arena, seat, slot, limit);
        tried(&rt, seat.parts(), slots);
    }
}

#[test]
fn an_exchange_goes_on_from_a_busy_slot(rt: HostRuntime) {
    let (arena, zero, one, two) = opened(&rt, rt.alloc(), 2);
    let _zero = posts(&rt, &arena, zero, 1, 8, 2);
    let Exchanged::Swapped(_one, got) = arena.exchange(&rt, one, 1, 9, Some(0)) else {
        panic!(rt; "not swapped")
    };
    assert_eq!(rt; got, 8);
    // The slot waits for its poster, so it is contended.
    let two = times_out(&rt, &arena, two, 1, 0);
    tried(&rt, two.parts(), &[]);
    let two = times_out(&rt, &arena, two, 1, 1);
    tried(&rt, two.parts(), &[]);
    let two = times_out(&rt, &arena, two, 1, 2);
    tried(&rt, two.parts(), &[0]);
}

#[test]
fn an_exchange_goes_on_over_four_slots(rt: HostRuntime) {
    let Ok((arena, mut seats)) = Arena::<u64>::new(rt.alloc(), 4, 5) else {
        panic!(&rt; "no arena")
    };
    let seat = last_seat(&rt, &arena, &mut seats);
    let other = last_seat(&rt, &arena, &mut seats);
    let poster = last_seat(&rt, &arena, &mut seats);
    let (_first, other) = keeps_busy(&rt, &arena, poster, other, 1);
    let poster = last_seat(&rt, &arena, &mut seats);
    let (_second, other) = keeps_busy(&rt, &arena, poster, other, 2);
    let poster = last_seat(&rt, &arena, &mut seats);
    let (_third, _other) = keeps_busy(&rt, &arena, poster, other, 3);
    // Each contended slot takes a turn, and the way goes from the last slot to the first.
    let seat = times_out(&rt, &arena, seat, 1, 3);
    tried(&rt, seat.parts(), &[]);
    let seat = times_out(&rt, &arena, seat, 1, 4);
    tried(&rt, seat.parts(), &[0]);
}

/// A slot in which others stay at work is left, also without a limit: the exchange goes on to the next, and meets the
/// partner that waits there.
#[test]
fn an_exchange_without_a_limit_leaves_a_busy_slot(rt: HostRuntime) {
    let Ok((arena, mut seats)) = Arena::<u64>::new(rt.alloc(), 2, 4) else {
        panic!(&rt; "no arena")
    };
    let seat = last_seat(&rt, &arena, &mut seats);
    let other = last_seat(&rt, &arena, &mut seats);
    let poster = last_seat(&rt, &arena, &mut seats);
    let (_busy, _other) = keeps_busy(&rt, &arena, poster, other, 1);
    let giver = last_seat(&rt, &arena, &mut seats);
    let _waits = posts(&rt, &arena, giver, 0, 8, 2);
    match arena.exchange(&rt, seat, 1, 5, None) {
        Exchanged::Swapped(_, got) => assert_eq!(&rt; got, 8),
        _ => panic!(&rt; "not swapped"),
    }
}

#[test]
fn an_exchange_in_a_worn_slot(rt: HostRuntime) {
    let Ok((arena, mut seats)) = Arena::<u64>::starting(rt.alloc(), 1, 1, (1 << 44) - 1) else {
        panic!(&rt; "no arena")
    };
    let seat = last_seat(&rt, &arena, &mut seats);
    match arena.exchange(&rt, seat, 0, 5, Some(1_000)) {
        Exchanged::Worn(seat, item) => assert_eq!(&rt; (item, seat.parts().len()), (5, 0)),
        _ => panic!(&rt; "not worn"),
    }
}
