//! What every line does, in either order.

use crate::parcels::{Parcel, first_serial, join, meets_in_order, serial, ticket};
use meet_line::{FairLine, FairRing, FairSeats, Line, StackLine, StackRing, StackSeats};
use std::alloc::Global;
use std::process::Abort;

/// A line of tickets 1 to 3, whose items are numbered 10, 20 and 30, with room for 100,000 in all.
fn line_of_three<L: Line<Parcel> + Drop>(rt: &impl Abort, alloc: Global) -> L {
    let mut line = L::empty(alloc);
    assert_eq!(rt; line.len(), 0);
    assert_eq!(rt; line.room(), 0);
    line.widen(4).expect(rt, "memory");
    line.reserve(100_000).expect(rt, "memory");
    assert!(rt; line.room() >= 100_000);
    join(rt, &mut line, 1, 10);
    join(rt, &mut line, 2, 20);
    join(rt, &mut line, 3, 30);
    line
}

/// The middle one leaves the line, once, and gives its room back.
fn removes<L: Line<Parcel>>(rt: &impl Abort, line: &mut L) {
    let room = line.room();
    assert_eq!(rt; serial(line.remove(ticket(rt, 4))), None);
    assert_eq!(rt; serial(line.remove(ticket(rt, 2))), Some(20));
    assert_eq!(rt; serial(line.remove(ticket(rt, 2))), None);
    assert_eq!(rt; line.room() - room, 1);
}

/// A line meets three entries in the order `all`, and without the middle one in the order `rest`.
pub fn serves<L: Line<Parcel> + Drop>(rt: &impl Abort, alloc: Global, all: &[u64], rest: &[u64]) {
    let mut line: L = line_of_three(rt, alloc);
    assert_eq!(rt; line.len(), 3);
    assert_eq!(rt; first_serial(&line), Some(10));
    meets_in_order(rt, &mut line, all);
    let mut line: L = line_of_three(rt, alloc);
    removes(rt, &mut line);
    assert_eq!(rt; line.len(), 2);
    meets_in_order(rt, &mut line, rest);
}

#[test]
fn a_fair_line_meets_who_came_first(rt: HostRuntime) {
    serves::<FairLine<Parcel>>(&rt, rt.alloc(), &[10, 20, 30], &[10, 30]);
}

#[test]
fn a_stack_meets_who_came_last(rt: HostRuntime) {
    serves::<StackLine<Parcel>>(&rt, rt.alloc(), &[30, 20, 10], &[30, 10]);
}

#[test]
fn a_list_meets_who_came_first(rt: HostRuntime) {
    serves::<FairRing<Parcel>>(&rt, rt.alloc(), &[10, 20, 30], &[10, 30]);
}

#[test]
fn a_list_meets_who_came_last(rt: HostRuntime) {
    serves::<StackRing<Parcel>>(&rt, rt.alloc(), &[30, 20, 10], &[30, 10]);
}

#[test]
fn a_line_of_seats_meets_who_came_first(rt: HostRuntime) {
    serves::<FairSeats<Parcel>>(&rt, rt.alloc(), &[10, 20, 30], &[10, 30]);
}

#[test]
fn a_line_of_seats_meets_who_came_last(rt: HostRuntime) {
    serves::<StackSeats<Parcel>>(&rt, rt.alloc(), &[30, 20, 10], &[30, 10]);
}
