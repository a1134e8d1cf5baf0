//! Whether two worlds are the same.

ghost use Rattle.std.specs.Prelude.{◌≡◌, ◌<◌, IsTrue};
ghost use Rattle.meet_overlap.specs.Known.{IsAlike};
ghost use Rattle.meet_overlap.specs.Places.{world_of};

use crate::calls::Stage;
use crate::world::Reached;
use meet_tickets::{Entry, Hold};

/// Whether two entries are the same.
fn same_entry(one: &Entry<u64>, other: &Entry<u64>) -> bool
    ensures { IsTrue result → one.now ≡ other.now }
{
    one.ticket == other.ticket
        && one.seat == other.seat
        && one.item == other.item
        && one.waits == other.waits
}

/// Whether two seats hold the same.
fn same_hold(one: &Hold<u64>, other: &Hold<u64>) -> bool
    ensures { IsTrue result → one.now ≡ other.now }
{
    match one {
        Hold::Free => match other {
            Hold::Free => true,
            _ => false,
        },
        Hold::Waiting(ticket) => match other {
            Hold::Waiting(held) => *ticket == *held,
            _ => false,
        },
        Hold::Handed(ticket, with, mark) => match other {
            Hold::Handed(held, met, item) => *ticket == *held && *with == *met && *mark == *item,
            _ => false,
        },
        Hold::Served(ticket, with, mark) => match other {
            Hold::Served(held, met, item) => *ticket == *held && *with == *met && *mark == *item,
            _ => false,
        },
        Hold::Cut(ticket, mark) => match other {
            Hold::Cut(held, item) => *ticket == *held && *mark == *item,
            _ => false,
        },
    }
}

/// Whether two lines are the same.
fn same_line(one: &[Entry<u64>], other: &[Entry<u64>]) -> bool
    ensures { IsTrue result → one.now ≡ other.now }
{
    if one.len() != other.len() {
        return false;
    }
    for i in 0..one.len() {
        if !same_entry(&one[i], &other[i]) {
            return false;
        }
    }
    true
}

/// Whether two tables are the same.
fn same_holds(one: &[Hold<u64>], other: &[Hold<u64>]) -> bool
    ensures { IsTrue result → one.now ≡ other.now }
{
    if one.len() != other.len() {
        return false;
    }
    for i in 0..one.len() {
        if !same_hold(&one[i], &other[i]) {
            return false;
        }
    }
    true
}

/// Whether two lists of stages are the same.
fn same_stages(one: &[Stage], other: &[Stage]) -> bool
    ensures { IsTrue result → one.now ≡ other.now }
{
    if one.len() != other.len() {
        return false;
    }
    for i in 0..one.len() {
        if one[i] != other[i] {
            return false;
        }
    }
    true
}

/// Whether two lists of flags are the same.
fn same_flags(one: &[bool], other: &[bool]) -> bool
    ensures { IsTrue result → one.now ≡ other.now }
{
    if one.len() != other.len() {
        return false;
    }
    for i in 0..one.len() {
        if one[i] != other[i] {
            return false;
        }
    }
    true
}

/// Whether two worlds are the same but for the last ticket.
pub(crate) fn alike(one: &Reached, other: &Reached) -> bool
    ensures { IsTrue result → IsAlike (world_of one.now) (world_of other.now) }
{
    if one.time != other.time {
        return false;
    }
    if one.window.first != other.window.first {
        return false;
    }
    if !same_stages(&one.window.stages, &other.window.stages) {
        return false;
    }
    if !same_flags(&one.place.flags, &other.place.flags) {
        return false;
    }
    if !same_line(one.place.line.as_slice(), other.place.line.as_slice()) {
        return false;
    }
    same_holds(&one.place.holds, &other.place.holds)
}
