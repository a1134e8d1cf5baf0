//! Calls at an arena of numbers, each with what it should answer.

ghost use Rattle.std.specs.Prelude.{◌≡◌, ◌<◌};
ghost use Rattle.meet_exchange.specs.Seats.{AreNew};

use meet_exchange::{Arena, Gathered, Offered, Pending, Seat, TakenBack};
use std::alloc::Global;
use std::process::Abort;
use std::test::*;

/// An arena and three of its seats.
pub type Opened = (Arena<u64>, Seat<u64>, Seat<u64>, Seat<u64>);

/// Takes the last of an arena's new seats out.
pub fn last_seat(rt: &impl Abort, arena: &Arena<u64>, seats: &mut Vec<Seat<u64>>) -> Seat<u64>
    requires { AreNew arena.now.id 0 seats.old.items }
    ensures seat { result.arena ≡ arena.now.id }
    ensures rest { AreNew arena.now.id 0 seats.new.items }
{
    match seats.pop() {
        Some(seat) => seat,
        None => panic!(rt; "no seat"),
    }
}

/// An arena of so many slots and seats, and the last three of these, from the last on.
fn last_three(rt: &impl Abort, alloc: Global, slots: usize, seats: u64) -> Opened
    ensures slots { result.0.slots ≡ slots }
    ensures last { result.1.arena ≡ result.0.id }
    ensures other { result.2.arena ≡ result.0.id }
    ensures first { result.3.arena ≡ result.0.id }
{
    let Ok((arena, mut seats)) = Arena::<u64>::new(alloc, slots, seats) else {
        panic!(rt; "no arena")
    };
    let last = last_seat(rt, &arena, &mut seats);
    let other = last_seat(rt, &arena, &mut seats);
    let first = last_seat(rt, &arena, &mut seats);
    (arena, last, other, first)
}

/// The first two of an arena's new seats; the others are dropped.
fn first_two(rt: &impl Abort, arena: &Arena<u64>, all: Vec<Seat<u64>>) -> (Seat<u64>, Seat<u64>)
    requires { AreNew arena.now.id 0 all.items }
    ensures first { result.0.arena ≡ arena.now.id }
    ensures second { result.1.arena ≡ arena.now.id }
{
    let mut seats = all;
    for _ in 2..seats.len() {
        let _let_go = last_seat(rt, arena, &mut seats);
    }
    let second = last_seat(rt, arena, &mut seats);
    let first = last_seat(rt, arena, &mut seats);
    (first, second)
}

/// An arena of so many slots and seats, the last of these, and the first two.
pub fn last_and_first(rt: &impl Abort, alloc: Global, slots: usize, seats: u64) -> Opened
    ensures slots { result.0.slots ≡ slots }
    ensures last { result.1.arena ≡ result.0.id }
    ensures first { result.2.arena ≡ result.0.id }
    ensures second { result.3.arena ≡ result.0.id }
{
    let Ok((arena, mut seats)) = Arena::<u64>::new(alloc, slots, seats) else {
        panic!(rt; "no arena")
    };
    let last = last_seat(rt, &arena, &mut seats);
    let (first, second) = first_two(rt, &arena, seats);
    (arena, last, first, second)
}

/// An arena of so many slots, and its three seats, in the order of their numbers.
pub fn opened(rt: &impl Abort, alloc: Global, slots: usize) -> Opened
    ensures slots { result.0.slots ≡ slots }
    ensures first { result.1.arena ≡ result.0.id }
    ensures second { result.2.arena ≡ result.0.id }
    ensures third { result.3.arena ≡ result.0.id }
{
    let (arena, third, second, first) = last_three(rt, alloc, slots, 3);
    (arena, first, second, third)
}

/// Offers the item: posted, and then the slot's word is this.
pub fn posts(
    rt: &impl Abort,
    arena: &Arena<u64>,
    seat: Seat<u64>,
    slot: usize,
    item: u64,
    word: u64,
) -> Pending<u64>
    requires { (seat.arena ≡ arena.now.id) × (slot < arena.now.slots) }
    ensures place { result.seat.arena ≡ arena.now.id }
    ensures slot { result.slot ≡ slot }
{
    match arena.offer(seat, slot, item) {
        Offered::Posted(pending) => {
            assert_eq!(rt; arena.word(slot), word);
            assert_eq!(rt; pending.mark(), item);
            pending
        }
        _ => panic!(rt; "not posted"),
    }
}

/// Offers the item: swapped with this one, and then the slot's word is this.
pub fn swaps(
    rt: &impl Abort,
    arena: &Arena<u64>,
    seat: Seat<u64>,
    slot: usize,
    items: (u64, u64),
    word: u64,
) -> Seat<u64>
    requires { (seat.arena ≡ arena.now.id) × (slot < arena.now.slots) }
    ensures place { result.arena ≡ arena.now.id }
{
    match arena.offer(seat, slot, items.0) {
        Offered::Swapped(seat, got) => {
            assert_eq!(rt; (got, arena.word(slot)), (items.1, word));
            seat
        }
        _ => panic!(rt; "not swapped"),
    }
}

/// One seat posts in a slot and another takes that: the slot is contended until the first has been there.
pub fn keeps_busy(
    rt: &impl Abort,
    arena: &Arena<u64>,
    poster: Seat<u64>,
    other: Seat<u64>,
    slot: usize,
) -> (Pending<u64>, Seat<u64>)
    requires poster { poster.arena ≡ arena.now.id }
    requires other { other.arena ≡ arena.now.id }
    requires slot { slot < arena.now.slots }
    ensures poster { result.0.seat.arena ≡ arena.now.id }
    ensures other { result.1.arena ≡ arena.now.id }
{
    let Offered::Posted(pending) = arena.offer(poster, slot, 8) else {
        panic!(rt; "not posted")
    };
    match arena.offer(other, slot, 9) {
        Offered::Swapped(other, 8) => (pending, other),
        _ => panic!(rt; "not swapped"),
    }
}

/// Offers the item: contended, and it is back, with this word.
pub fn is_contended(
    rt: &impl Abort,
    arena: &Arena<u64>,
    seat: Seat<u64>,
    slot: usize,
    item: u64,
    word: u64,
) -> Seat<u64>
    requires { (seat.arena ≡ arena.now.id) × (slot < arena.now.slots) }
    ensures place { result.arena ≡ arena.now.id }
{
    match arena.offer(seat, slot, item) {
        Offered::Contended(seat, back, seen) => {
            assert_eq!(rt; (back, seen), (item, word));
            seat
        }
        _ => panic!(rt; "not contended"),
    }
}

/// Withdraws, too late.
pub fn is_late(rt: &impl Abort, arena: &Arena<u64>, pending: Pending<u64>) -> Pending<u64>
    requires { (pending.seat.arena ≡ arena.now.id) × (pending.slot < arena.now.slots) }
    ensures place { result.seat.arena ≡ arena.now.id }
    ensures slot { result.slot ≡ pending.slot }
{
    match arena.withdraw(pending) {
        TakenBack::Late(pending) => pending,
        TakenBack::Back(_, _) => panic!(rt; "back"),
    }
}

/// Collects, before there is an answer.
pub fn is_early(rt: &impl Abort, arena: &Arena<u64>, pending: Pending<u64>) -> Pending<u64>
    requires { (pending.seat.arena ≡ arena.now.id) × (pending.slot < arena.now.slots) }
    ensures place { result.seat.arena ≡ arena.now.id }
    ensures slot { result.slot ≡ pending.slot }
{
    match arena.collect(pending) {
        Gathered::NotYet(pending) => pending,
        Gathered::Got(_, _) => panic!(rt; "got"),
    }
}

/// Collects this item, and then the slot's word is this.
pub fn gets(
    rt: &impl Abort,
    arena: &Arena<u64>,
    pending: Pending<u64>,
    item: u64,
    word: u64,
) -> Seat<u64>
    requires { (pending.seat.arena ≡ arena.now.id) × (pending.slot < arena.now.slots) }
    ensures place { result.arena ≡ arena.now.id }
{
    let slot = pending.slot();
    match arena.collect(pending) {
        Gathered::Got(seat, got) => {
            assert_eq!(rt; (got, arena.word(slot)), (item, word));
            seat
        }
        Gathered::NotYet(_) => panic!(rt; "not yet"),
    }
}

/// Withdraws: this item is back, and then the slot's word is this.
pub fn withdraws(
    rt: &impl Abort,
    arena: &Arena<u64>,
    pending: Pending<u64>,
    item: u64,
    word: u64,
) -> Seat<u64>
    requires { (pending.seat.arena ≡ arena.now.id) × (pending.slot < arena.now.slots) }
    ensures place { result.arena ≡ arena.now.id }
{
    let slot = pending.slot();
    match arena.withdraw(pending) {
        TakenBack::Back(seat, back) => {
            assert_eq!(rt; (back, arena.word(slot)), (item, word));
            seat
        }
        TakenBack::Late(_) => panic!(rt; "late"),
    }
}

/// An arena of so many slots, with four seats.
pub fn four(
    rt: &impl Abort,
    alloc: Global,
    slots: usize,
) -> (Arena<u64>, Seat<u64>, Seat<u64>, Seat<u64>, Seat<u64>)
    ensures slots { result.0.slots ≡ slots }
    ensures first { (result.1.arena ≡ result.0.id) × (result.2.arena ≡ result.0.id) }
    ensures last { (result.3.arena ≡ result.0.id) × (result.4.arena ≡ result.0.id) }
{
    let Ok((arena, mut seats)) = Arena::<u64>::new(alloc, slots, 4) else {
        panic!(rt; "no arena")
    };
    let d = last_seat(rt, &arena, &mut seats);
    let c = last_seat(rt, &arena, &mut seats);
    let b = last_seat(rt, &arena, &mut seats);
    let a = last_seat(rt, &arena, &mut seats);
    (arena, a, b, c, d)
}
