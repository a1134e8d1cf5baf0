//! Four threads exchange 100,000 items in four slots; each item comes out once.

ghost use Rattle.std.specs.Prelude.{◌≡◌, ◌<◌};

use crate::shared::four;
use meet_exchange::{Arena, Exchanged, Seat};
use std::alloc::Global;
use std::process::Abort;
use std::sync::Wait;
use std::thread;
use std::thread::Threads;

/// How many items each thread brings.
const EACH: u64 = 25_000;

/// How long an exchange waits at most, in turns.
const LIMIT: u64 = 2_000;

/// What a thread has in the end: the item that it came to last of each of its own. One that timed out it keeps.
fn brings<R: Abort + Wait>(
    rt: &R,
    alloc: Global,
    arena: &Arena<u64>,
    seat: Seat<u64>,
    first: u64,
) -> Vec<u64>
    requires { (seat.arena ≡ arena.now.id) × (3 < arena.now.slots) }
{
    let mut seat = seat;
    let mut items = Vec::with_capacity(alloc, EACH as usize).expect(rt, "memory");
    for number in 0..EACH {
        let item = first.wrapping_add(number);
        let slot = (number % 4) as usize;
        let (again, got) = match arena.exchange(rt, seat, slot, item, Some(LIMIT)) {
            Exchanged::Swapped(again, got) => (again, got),
            Exchanged::TimedOut(again, own) => (again, own),
            Exchanged::Worn(again, own) => (again, own),
            Exchanged::Memory(again, own) => (again, own),
        };
        seat = again;
        items.push(got).expect(rt, "memory");
    }
    items
}

/// Two threads bring their items, from these numbers on.
fn two_bring<R: Abort + Threads + Wait + Sync>(
    rt: &R,
    alloc: Global,
    arena: &Arena<u64>,
    one: (Seat<u64>, u64),
    other: (Seat<u64>, u64),
) -> (Vec<u64>, Vec<u64>)
    requires { (one.0.arena ≡ arena.now.id) × (other.0.arena ≡ arena.now.id) × (3 < arena.now.slots) }
{
    thread::join(
        rt,
        || brings(rt, alloc, arena, one.0, one.1),
        || brings(rt, alloc, arena, other.0, other.1),
    )
}

/// Marks these items off; or none, where one is unknown or comes twice.
fn mark_off(seen: &mut [bool], items: &[u64]) -> Option<()> {
    for item in items {
        let place = seen.get_mut(*item as usize)?;
        if *place {
            return None;
        }
        *place = true;
    }
    Some(())
}

/// Each item is in one of these lists, once.
fn are_all(rt: &impl Abort, alloc: Global, lists: [Vec<u64>; 4]) {
    let mut seen = Vec::new(alloc);
    seen.resize(100_000, false).expect(rt, "memory");
    for items in lists {
        assert!(rt; mark_off(seen.as_mut_slice(), items.as_slice()).is_some());
    }
    assert!(rt; seen.iter().all(|it| *it));
}

#[test]
fn each_item_comes_out_once(rt: HostRuntime) {
    let alloc = rt.alloc();
    let (arena, zero, one, two, three) = four(&rt, alloc, 4);
    let ((a, b), (c, d)) = thread::join(
        &rt,
        || two_bring(&rt, alloc, &arena, (zero, 0), (one, EACH)),
        || two_bring(&rt, alloc, &arena, (two, 50_000), (three, 75_000)),
    );
    are_all(&rt, alloc, [a, b, c, d]);
}
