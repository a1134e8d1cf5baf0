//! Offers and their endings, with the words that they leave.

ghost use Rattle.std.specs.Prelude.{◌<◌};

use crate::shared::{
    gets, is_contended, is_early, is_late, last_and_first, opened, posts, swaps, withdraws,
};
use meet_exchange::{Arena, Offered, Part, SlotDeed};
use meet_tickets::Refusal;

/// An entry of a list.
fn part(slot: usize, round: u64, deed: SlotDeed) -> Part {
    Part { slot, round, deed }
}

#[test]
fn three_seats_in_one_slot(rt: HostRuntime) {
    let (arena, zero, one, two) = opened(&rt, rt.alloc(), 1);
    let zero = posts(&rt, &arena, zero, 0, 5, 2);
    let zero = is_early(&rt, &arena, zero);
    let one = swaps(&rt, &arena, one, 0, (6, 5), 4);
    let two = is_contended(&rt, &arena, two, 0, 8, 4);
    let zero = is_late(&rt, &arena, zero);
    let zero = gets(&rt, &arena, zero, 6, 524_288);
    let zero = posts(&rt, &arena, zero, 0, 7, 524_290);
    let zero = withdraws(&rt, &arena, zero, 7, 1_048_576);
    let did = [
        part(0, 0, SlotDeed::Posted(5)),
        part(0, 0, SlotDeed::Collected { got: 6 }),
        part(0, 1, SlotDeed::Posted(7)),
        part(0, 1, SlotDeed::Withdrawn),
    ];
    assert!(rt; zero.parts() == did.as_slice());
    assert!(rt; one.parts() == [part(0, 0, SlotDeed::Swapped { gave: 6, got: 5 })].as_slice());
    assert!(rt; two.parts().is_empty());
}

#[test]
fn each_slot_by_itself(rt: HostRuntime) {
    let (arena, zero, one, two) = opened(&rt, rt.alloc(), 2);
    let _zero = posts(&rt, &arena, zero, 1, 5, 2);
    let _one = posts(&rt, &arena, one, 0, 6, 10);
    let _two = swaps(&rt, &arena, two, 1, (7, 5), 4);
}

#[test]
fn the_seats_of_a_wide_arena(rt: HostRuntime) {
    let (arena, last, zero, one) = last_and_first(&rt, rt.alloc(), 1, 40_001);
    let numbers = (
        last.number().number(),
        zero.number().number(),
        one.number().number(),
    );
    assert_eq!(rt; numbers, (40_000, 0, 1));
    let _last = posts(&rt, &arena, last, 0, 5, 320_002);
    let _zero = swaps(&rt, &arena, zero, 0, (6, 5), 320_004);
    let _one = is_contended(&rt, &arena, one, 0, 7, 320_004);
}

#[test]
fn a_worn_slot(rt: HostRuntime) {
    let Ok((arena, mut seats)) = Arena::<u64>::starting(rt.alloc(), 1, 2, (1 << 44) - 1) else {
        panic!(rt; "no arena")
    };
    let Some(seat) = seats.pop() else {
        panic!(rt; "no seats")
    };
    match arena.offer(seat, 0, 5) {
        Offered::Worn(seat, item) => assert_eq!(rt; (item, seat.parts().len()), (5, 0)),
        _ => panic!(rt; "not worn"),
    }
}

#[test]
fn the_round_before_a_worn_slot(rt: HostRuntime) {
    let Ok((arena, mut seats)) = Arena::<u64>::starting(rt.alloc(), 1, 1, (1 << 44) - 2) else {
        panic!(rt; "no arena")
    };
    let Some(seat) = seats.pop() else {
        panic!(rt; "no seats")
    };
    let word = ((1 << 44) - 2) * 524_288;
    let seat = posts(&rt, &arena, seat, 0, 5, word + 2);
    let seat = withdraws(&rt, &arena, seat, 5, word + 524_288);
    assert!(rt; matches!(arena.offer(seat, 0, 6), Offered::Worn(_, 6)));
}

#[test]
fn sizes_out_of_their_limits(rt: HostRuntime) {
    for (slots, seats) in [(0, 1), (65, 1), (1, 0), (1, 65_537)] {
        match Arena::<u64>::new(rt.alloc(), slots, seats) {
            Ok(_) => panic!(rt; "made"),
            Err(why) => assert!(rt; why == Refusal::BadSizes),
        }
    }
    for (slots, seats) in [(1, 65_536), (64, 1)] {
        assert!(rt; Arena::<u64>::new(rt.alloc(), slots, seats).is_ok());
    }
}
