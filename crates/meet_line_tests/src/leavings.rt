//! What is left in a queue, of items that can't be let go: each comes out once, with its giver's ticket.

use meet_core::{Followed, Gave, Left, LeftStanding, Meetings, Put, Took};
use meet_line::{BufferLine, FairLine, StackLine};
use meet_tickets::{Marked, Refused, SeatNo, Ticket};
use std::alloc::Global;
use std::process::Abort;

/// An item that can't be let go: its type isn't `Drop`.
pub struct Seal {
    serial: u64,
}

impl Marked for Seal {
    ghost mark_of = { λ seal. seal.serial };

    fn mark(&self) -> u64 {
        self.serial
    }
}

/// The serial number of an item that came out.
fn broken(seal: Seal) -> u64 {
    let Seal { serial } = seal;
    serial
}

/// What a seat asks; an item by its serial number.
#[derive(Clone, Copy)]
pub enum Ask {
    Give(u64),
    Put(u64),
    Take,
    Follow(u64),
    Interrupt,
}

/// The serial number of what comes back of a refused item.
fn refused(refused: Refused<Seal>) -> Option<u64> {
    let Refused { why: _, back } = refused;
    Some(broken(back))
}

/// What comes out by a give.
fn gave(gave: Gave<Seal>) -> Option<u64> {
    match gave {
        Gave::Waits(_) | Gave::Meets(_, _) => None,
        Gave::EntryInterrupted(_, item) => Some(broken(item)),
    }
}

/// What comes out by a put.
fn put(put: Put<Seal>) -> Option<u64> {
    match put {
        Put::Kept(_) | Put::Meets(_, _) => None,
        Put::Fails(_, item) => Some(broken(item)),
    }
}

/// What comes out by a take.
fn took(took: Took<Seal>) -> Option<u64> {
    match took {
        Took::Waits(_) | Took::EntryInterrupted(_) => None,
        Took::Meets(_, _, item) => Some(broken(item)),
    }
}

/// What comes out by a follow-up.
fn followed(followed: Followed<Seal>) -> Option<u64> {
    match followed {
        Followed::Done | Followed::NotYet | Followed::Interrupted(None) => None,
        Followed::Got(_, item) => Some(broken(item)),
        Followed::Interrupted(Some(item)) => Some(broken(item)),
    }
}

/// A seat asks; the serial number of the item that comes out by it.
fn asks<L: BufferLine<Seal>>(
    rt: &impl Abort,
    queue: &mut Meetings<Seal, L>,
    at: SeatNo,
    ask: Ask,
) -> Option<u64> {
    match ask {
        Ask::Give(serial) => queue.give(at, Seal { serial }).map_or_else(refused, gave),
        Ask::Put(serial) => queue
            .put(at, Seal { serial }, None)
            .map_or_else(refused, put),
        Ask::Take => queue.take(at).map_or_else(|_| None, took),
        Ask::Follow(own) => queue
            .follow_up(at, Ticket::new(own).expect(rt, "no such ticket number"))
            .map_or_else(|_| None, followed),
        Ask::Interrupt => {
            let _ = queue.interrupt(at);
            None
        }
    }
}

/// A seat asks, and this item comes out by it.
pub type Row = (u64, Ask, Option<u64>);

/// A giver's ticket, its item, and how that stood in the queue.
pub type Found = (u64, u64, LeftStanding);

/// The list has these items, and nothing else.
fn has(rt: &impl Abort, list: Vec<Left<Seal>>, wanted: &[Found]) {
    let mut list = list;
    for found in wanted.iter().rev() {
        let Left {
            ticket,
            item,
            standing,
        } = list.pop().expect(rt, "an item less");
        assert_eq!(rt; (ticket.number(), broken(item), standing), *found);
    }
    match list.pop() {
        None => list.destroy_empty(),
        Some(_) => panic!(rt; "an item more"),
    }
}

/// Seats ask, one after another, and then these items are left.
pub fn leaves<L: BufferLine<Seal>>(rt: &impl Abort, alloc: Global, rows: &[Row], wanted: &[Found]) {
    let mut queue: Meetings<Seal, L> = Meetings::new(alloc, 8, 1).expect(rt, "memory");
    for (number, ask, out) in rows {
        let at = SeatNo::new(*number).expect(rt, "no such seat number");
        assert_eq!(rt; asks(rt, &mut queue, at, *ask), *out);
    }
    let count = queue.left();
    assert_eq!(rt; count, wanted.len() as u64);
    let room = Vec::with_capacity(alloc, count as usize).expect(rt, "memory");
    has(rt, queue.into_left(room), wanted);
}

/// One item waits to be collected, one was collected, one's giver was cut, two are offered, and between these one is
/// kept.
pub const MIXED: [Row; 10] = [
    (4, Ask::Take, None),
    (0, Ask::Give(10), None),
    (5, Ask::Take, None),
    (0, Ask::Give(20), None),
    (5, Ask::Follow(3), Some(20)),
    (3, Ask::Give(30), None),
    (3, Ask::Interrupt, None),
    (2, Ask::Give(40), None),
    (1, Ask::Put(50), None),
    (0, Ask::Give(60), None),
];

/// What is left of these in a line whose first is met.
pub const LEFT_BY_FIRST: [Found; 5] = [
    (6, 40, LeftStanding::Offered),
    (7, 50, LeftStanding::Kept),
    (8, 60, LeftStanding::Offered),
    (5, 30, LeftStanding::Ready),
    (2, 10, LeftStanding::Ready),
];

#[test]
fn of_a_fair_line_who_came_first_is_first(rt: HostRuntime) {
    leaves::<FairLine<Seal>>(&rt, rt.alloc(), &MIXED, &LEFT_BY_FIRST);
}

#[test]
fn of_a_stack_who_came_last_is_first(rt: HostRuntime) {
    let wanted = [
        (8, 60, LeftStanding::Offered),
        (7, 50, LeftStanding::Kept),
        (6, 40, LeftStanding::Offered),
        (5, 30, LeftStanding::Ready),
        (2, 10, LeftStanding::Ready),
    ];
    leaves::<StackLine<Seal>>(&rt, rt.alloc(), &MIXED, &wanted);
}

/// An item went to a taker whose giver wasn't told, a taker was cut, and two wait.
pub const TAKERS: [Row; 6] = [
    (0, Ask::Give(10), None),
    (1, Ask::Take, Some(10)),
    (2, Ask::Take, None),
    (2, Ask::Interrupt, None),
    (3, Ask::Take, None),
    (4, Ask::Take, None),
];

#[test]
fn takers_leave_nothing(rt: HostRuntime) {
    leaves::<FairLine<Seal>>(&rt, rt.alloc(), &TAKERS, &[]);
    leaves::<StackLine<Seal>>(&rt, rt.alloc(), &TAKERS, &[]);
}

/// A queue in which nobody is there is dropped.
pub fn goes_empty<L: BufferLine<Seal>>(rt: &impl Abort, alloc: Global) {
    let mut queue: Meetings<Seal, L> = Meetings::new(alloc, 8, 1).expect(rt, "memory");
    queue.reserve(8).expect(rt, "memory");
    queue.destroy_empty();
}

#[test]
fn nobody_is_there(rt: HostRuntime) {
    goes_empty::<FairLine<Seal>>(&rt, rt.alloc());
    goes_empty::<StackLine<Seal>>(&rt, rt.alloc());
}
