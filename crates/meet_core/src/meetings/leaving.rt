//! The items that are left in a queue, counted and taken out, and the drop of an empty queue. No call allocates.

ghost use Rattle.std.specs.Prelude.{◌≡◌, ◌+◌, ◌≤◌, ◌++◌, [], length, vec_len, IsPermutation};
ghost use Rattle.std.specs.List.Sorted.{IsNonDecreasingBy};
ghost use Rattle.std.specs.Vec.{vec_capacity};
ghost use Rattle.meet_tickets.specs.BySeat.{nobody};
ghost use Rattle.meet_core.specs.Left.{left_in_line, left_in};
ghost use Rattle.meet_core.specs.Queue.{seats_of};

use crate::left::{Left, push_left};
use crate::meetings::Meetings;
use meet_line::Line;
use meet_tickets::Marked;

/// Takes the items out of a line, in the order in which they would be met, and puts them behind the others.
fn empty_line<T, L: Line<T>>(line: L, left: &mut Vec<Left<T>>)
    requires { vec_len left.old + length (left_in_line L.end (L.entries line)) ≤ vec_capacity left.old }
    ensures items { left.new.items ≡ left.old.items ++ left_in_line L.end (L.entries line) }
    ensures len { vec_len left.new ≡ vec_len left.old + length (left_in_line L.end (L.entries line)) }
    ensures capacity { vec_capacity left.new ≡ vec_capacity left.old }
{
    let mut line = line;
    while let Some(entry) = line.meet() {
        push_left(left, Left::of_entry(entry));
    }
    line.destroy_empty();
}

impl<T: Marked, L: Line<T>> Meetings<T, L> {
    /// Returns how many items are left in the queue: those in the wait queue, offered or buffered, and those that were
    /// interrupted or taken and not collected. It counts the wait queue's at constant cost, and looks at every seat.
    pub fn left(&self) -> u64
        ensures { result ≡ length (left_in L.end self.now) }
    {
        self.givers() + self.seats.left()
    }

    /// Takes the queue apart, and returns the items that are left in it: the wait queue's, in the order in which they
    /// would be met, and then the seats', rising. These are all the items, each once, with its producer's ticket. The
    /// list must have room for them (`left` returns how many they are): so the call doesn't allocate, and no item is
    /// dropped.
    pub fn into_left(self, empty: Vec<Left<T>>) -> Vec<Left<T>>
        requires empty { empty.items ≡ [] }
        requires room { length (left_in L.end self) ≤ vec_capacity empty }
        ensures { result.items ≡ left_in L.end self }
    {
        let Meetings {
            line,
            seats,
            last: _,
            next: _,
            givers: _,
            kept: _,
        } = self;
        let mut left = empty;
        empty_line(line, &mut left);
        seats.into_left(&mut left);
        left
    }

    /// Takes the queue apart as `into_left` does, and returns the items by rising ticket: n items cost n log n.
    pub fn into_left_by_ticket(self, empty: Vec<Left<T>>) -> Vec<Left<T>>
        requires empty { empty.items ≡ [] }
        requires room { length (left_in L.end self) ≤ vec_capacity empty }
        ensures items { IsPermutation (left_in L.end self) result.items }
        ensures rises { IsNonDecreasingBy (λ left. left.ticket) result.items }
    {
        let mut left = self.into_left(empty);
        left.sort_unstable_by_key(|left| left.ticket);
        left
    }

    /// Drops an empty queue, even if its items can't be dropped.
    pub fn destroy_empty(self)
        requires empty { seats_of self ≡ nobody }
    {
        let Meetings {
            line,
            seats,
            last: _,
            next: _,
            givers: _,
            kept: _,
        } = self;
        line.destroy_empty();
        seats.destroy_empty();
    }
}
