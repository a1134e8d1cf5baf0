//! An arena bears one refusal of memory: nothing is lost by it, and the call that is made again succeeds.
//! `dev/check/refuse` runs this test with each allocation refused in turn.

ghost use Rattle.std.specs.Prelude.{◌≡◌, ◌<◌};
ghost use Rattle.meet_exchange.specs.Closed.{AreOf};

use crate::closing::closed as closed_by;
use crate::shared::last_seat;
use meet_exchange::{Arena, Back, Closed, Exchanged, Offered, Pending, Seat};
use meet_tickets::Refusal;
use std::alloc::Global;
use std::process::Abort;
use std::sync::Wait;

/// An arena of two slots and two seats, at the second try where there was no memory at first.
fn made(rt: &impl Abort, alloc: Global) -> (Arena<u64>, Seat<u64>, Seat<u64>)
    ensures slots { result.0.slots ≡ 2 }
    ensures first { result.1.arena ≡ result.0.id }
    ensures second { result.2.arena ≡ result.0.id }
{
    let (arena, mut seats) = match Arena::<u64>::new(alloc, 2, 2) {
        Ok(made) => made,
        Err(why) => {
            assert!(rt; why == Refusal::Memory);
            Arena::<u64>::new(alloc, 2, 2).expect(rt, "memory")
        }
    };
    let second = last_seat(rt, &arena, &mut seats);
    let first = last_seat(rt, &arena, &mut seats);
    (arena, first, second)
}

/// Posts 5 in the slot 0, at the second try where there was no memory at first.
fn posted(rt: &impl Abort, arena: &Arena<u64>, seat: Seat<u64>) -> Pending<u64>
    requires { (seat.arena ≡ arena.now.id) × (0 < arena.now.slots) }
    ensures { result.seat.arena ≡ arena.now.id }
{
    match arena.offer(seat, 0, 5) {
        Offered::Posted(pending) => pending,
        Offered::Memory(seat, item) => {
            assert_eq!(rt; (item, seat.parts().len()), (5, 0));
            match arena.offer(seat, 0, item) {
                Offered::Posted(pending) => pending,
                _ => panic!(rt; "not posted"),
            }
        }
        _ => panic!(rt; "not posted"),
    }
}

/// Exchanges 6 for 5, at the second try where there was no memory at first.
fn exchanged<R: Wait + Abort>(rt: &R, arena: &Arena<u64>, seat: Seat<u64>) -> Seat<u64>
    requires { (seat.arena ≡ arena.now.id) × (0 < arena.now.slots) }
    ensures { result.arena ≡ arena.now.id }
{
    match arena.exchange(rt, seat, 0, 6, Some(0)) {
        Exchanged::Swapped(seat, 5) => seat,
        Exchanged::Memory(seat, item) => {
            assert_eq!(rt; (item, seat.parts().len()), (6, 0));
            match arena.exchange(rt, seat, 0, item, Some(0)) {
                Exchanged::Swapped(seat, 5) => seat,
                _ => panic!(rt; "not swapped"),
            }
        }
        _ => panic!(rt; "not swapped"),
    }
}

/// Closes the arena, at the second try where there was no memory at first.
fn closed(rt: &impl Abort, alloc: Global, arena: Arena<u64>, backs: Vec<Back<u64>>) -> Closed<u64>
    requires { AreOf arena.id backs.items }
{
    match arena.close(alloc, backs) {
        Ok(closed) => closed,
        Err(fault) => {
            assert!(rt; fault.why == Refusal::Memory && fault.seats.len() == 2);
            closed_by(rt, alloc, fault.arena, fault.seats)
        }
    }
}

#[test]
fn an_arena_lives(rt: HostRuntime) {
    let alloc = rt.alloc();
    // Its own room is asked for until it is there.
    let mut backs = Vec::new(alloc);
    if backs.reserve(2).is_err() {
        backs.reserve(2).expect(&rt, "memory");
    }
    let (arena, first, second) = made(&rt, alloc);
    let first = posted(&rt, &arena, first);
    let second = exchanged(&rt, &arena, second);
    backs.push_reserved(Back::Free(second));
    backs.push_reserved(Back::Held(first));
    let closed = closed(&rt, alloc, arena, backs);
    assert_eq!(rt;
        (closed.slots.len(), closed.lists.len(), closed.left.len()),
        (2, 2, 1)
    );
    assert_eq!(rt; (closed.slots[0].len(), closed.lists[0].len()), (1, 1));
}
