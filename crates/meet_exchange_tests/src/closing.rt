//! The end of an arena.

ghost use Rattle.std.specs.Prelude.{◌≡◌};
ghost use Rattle.meet_exchange.specs.Closed.{AreOf, seat_of};

use crate::shared::{gets, last_and_first, opened, posts, swaps, withdraws};
use meet_exchange::{Arena, Back, CloseFault, Closed, Part, Round, RoundEnd, SlotDeed, Standing};
use meet_tickets::{Refusal, SeatNo};
use std::alloc::Global;
use std::process::Abort;

/// An entry of a list.
fn part(slot: usize, round: u64, deed: SlotDeed) -> Part {
    Part { slot, round, deed }
}

/// The seat of this number.
fn seat(rt: &impl Abort, number: u64) -> SeatNo {
    match SeatNo::new(number) {
        Some(seat) => seat,
        None => panic!(rt; "no seat"),
    }
}

/// Three seats of an arena, to be given back.
fn three_backs(
    rt: &impl Abort,
    alloc: Global,
    arena: &Arena<u64>,
    first: Back<u64>,
    second: Back<u64>,
    third: Back<u64>,
) -> Vec<Back<u64>>
    requires first { (seat_of first).arena ≡ arena.now.id }
    requires second { (seat_of second).arena ≡ arena.now.id }
    requires third { (seat_of third).arena ≡ arena.now.id }
    ensures { AreOf arena.now.id result.items }
{
    let mut all = Vec::with_capacity(alloc, 3).expect(rt, "memory");
    all.push_reserved(first);
    all.push_reserved(second);
    all.push_reserved(third);
    all
}

/// The arena is closed with these seats.
pub fn closed(rt: &impl Abort, alloc: Global, arena: Arena<u64>, all: Vec<Back<u64>>) -> Closed<u64>
    requires { AreOf arena.id all.items }
{
    match arena.close(alloc, all) {
        Ok(closed) => closed,
        Err(_) => panic!(rt; "not closed"),
    }
}

/// What is left: slot, round, item and standing.
fn left(rt: &impl Abort, closed: &Closed<u64>, row: &[(usize, u64, u64, Standing)]) {
    assert_eq!(rt; closed.left.len(), row.len());
    for (it, (slot, round, item, standing)) in closed.left.iter().zip(row) {
        assert!(rt; it.slot == *slot && it.round == *round);
        assert!(rt; it.item == *item && it.standing == *standing);
    }
}

/// The list of this seat has this, and nothing else.
fn did(rt: &impl Abort, closed: &Closed<u64>, seat: usize, part: Part) {
    match closed.lists.get(seat) {
        Some(list) => assert!(rt; list.len() == 1 && list[0] == part),
        None => panic!(rt; "no such list"),
    }
}

#[test]
fn what_is_left_in_two_slots(rt: HostRuntime) {
    let (arena, zero, one, two) = opened(&rt, rt.alloc(), 2);
    let zero = posts(&rt, &arena, zero, 1, 5, 2);
    let one = posts(&rt, &arena, one, 0, 6, 10);
    let two = swaps(&rt, &arena, two, 1, (7, 5), 4);
    let (one, two, zero) = (Back::Held(one), Back::Free(two), Back::Held(zero));
    let all = three_backs(&rt, rt.alloc(), &arena, one, two, zero);
    let closed = closed(&rt, rt.alloc(), arena, all);
    left(
        &rt,
        &closed,
        &[(0, 0, 6, Standing::Offered), (1, 0, 7, Standing::Ready)],
    );
    assert_eq!(rt; closed.lists.len(), 3);
    did(&rt, &closed, 0, part(1, 0, SlotDeed::Posted(5)));
    did(&rt, &closed, 1, part(0, 0, SlotDeed::Posted(6)));
    let swapped = SlotDeed::Swapped { gave: 7, got: 5 };
    did(&rt, &closed, 2, part(1, 0, swapped));
}

/// A round of the seat of this number.
fn round(rt: &impl Abort, number: u64, mark: u64, end: RoundEnd) -> Round {
    Round {
        seat: seat(rt, number),
        mark,
        end,
    }
}

/// There is one slot, and it had these three rounds.
fn has_rounds(rt: &impl Abort, closed: &Closed<u64>, rounds: &[Round; 3]) {
    assert!(rt; closed.slots.len() == 1 && closed.slots[0].len() == 3);
    assert!(rt; closed.slots[0].as_slice() == rounds.as_slice());
}

#[test]
fn the_rounds_of_a_slot(rt: HostRuntime) {
    let (arena, zero, one, two) = opened(&rt, rt.alloc(), 1);
    let zero = posts(&rt, &arena, zero, 0, 5, 2);
    let one = swaps(&rt, &arena, one, 0, (6, 5), 4);
    let zero = gets(&rt, &arena, zero, 6, 524_288);
    let one = posts(&rt, &arena, one, 0, 7, 524_298);
    let one = withdraws(&rt, &arena, one, 7, 1_048_576);
    let zero = posts(&rt, &arena, zero, 0, 8, 1_048_578);
    let (zero, two, one) = (Back::Held(zero), Back::Free(two), Back::Free(one));
    let all = three_backs(&rt, rt.alloc(), &arena, zero, two, one);
    let closed = closed(&rt, rt.alloc(), arena, all);
    left(&rt, &closed, &[(0, 2, 8, Standing::Offered)]);
    let end = RoundEnd::Swapped {
        by: seat(&rt, 1),
        mark: 6,
        collected: true,
    };
    let rounds = [
        round(&rt, 0, 5, end),
        round(&rt, 1, 7, RoundEnd::Withdrawn),
        round(&rt, 0, 8, RoundEnd::Posted),
    ];
    has_rounds(&rt, &closed, &rounds);
}

/// The arena isn't closed with these two seats alone, and all comes back.
fn falls_short(
    rt: &impl Abort,
    alloc: Global,
    arena: Arena<u64>,
    all: Vec<Back<u64>>,
) -> CloseFault<u64>
    requires { AreOf arena.id all.items }
    ensures { (result.arena ≡ arena) × (result.seats ≡ all) }
{
    let fault = match arena.close(alloc, all) {
        Ok(_) => panic!(rt; "closed"),
        Err(fault) => fault,
    };
    assert!(rt; fault.why == Refusal::SeatMissing && fault.seats.len() == 2);
    fault
}

#[test]
fn a_seat_is_missing_and_then_back(rt: HostRuntime) {
    let (arena, zero, one, two) = opened(&rt, rt.alloc(), 1);
    let mut all = Vec::with_capacity(rt.alloc(), 2).expect(&rt, "memory");
    all.push_reserved(Back::Free(one));
    all.push_reserved(Back::Free(zero));
    let fault = falls_short(&rt, rt.alloc(), arena, all);
    let mut all = fault.seats;
    match all.push(Back::Free(two)) {
        Ok(()) => {}
        Err(_) => panic!(rt; "memory"),
    }
    let closed = closed(&rt, rt.alloc(), fault.arena, all);
    assert!(rt; closed.lists.len() == 3 && closed.slots.len() == 1 && closed.left.len() == 0);
}

#[test]
fn an_arena_of_64_slots(rt: HostRuntime) {
    let (arena, two, zero, one) = last_and_first(&rt, rt.alloc(), 64, 3);
    let (two, zero, one) = (Back::Free(two), Back::Free(zero), Back::Free(one));
    let all = three_backs(&rt, rt.alloc(), &arena, two, zero, one);
    let closed = closed(&rt, rt.alloc(), arena, all);
    assert!(rt; closed.lists.len() == 3 && closed.slots.len() == 64 && closed.left.len() == 0);
}
