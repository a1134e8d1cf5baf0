//! The items that are left in a queue, counted and taken out, and the drop of an empty queue. No call allocates.

ghost use Rattle.std.specs.Prelude.{◌≡◌, ◌≤◌, [], length};
ghost use Rattle.std.specs.Vec.{vec_capacity};
ghost use Rattle.meet_tickets.specs.BySeat.{nobody};
ghost use Rattle.meet_core.specs.Left.{left_in};
ghost use Rattle.meet_core.specs.Queue.{seats_of};

use crate::left::Left;
use crate::local_queue::{Buffers, LocalQueue};
use meet_line::Line;
use meet_tickets::Marked;

impl<T: Marked, L: Line<T>, K: Buffers<T, L>> LocalQueue<T, L, K> {
    /// Returns how many items are left in the queue: those in the wait queue, offered or buffered, and those that were
    /// interrupted or taken and not collected. It looks at every seat.
    pub fn left(&self) -> u64
        ensures { result ≡ length (left_in L.end self.now.queue) }
    {
        self.meetings.left()
    }

    /// Takes the queue apart, and returns the items that are left in it: the wait queue's, in the order in which they
    /// would be met, and then the seats', rising. These are all the items, each once, with its producer's ticket. The
    /// list must have room for them (`left` returns how many they are): so the call doesn't allocate, and no item is
    /// dropped.
    pub fn into_left(self, empty: Vec<Left<T>>) -> Vec<Left<T>>
        requires empty { empty.items ≡ [] }
        requires room { length (left_in L.end self.queue) ≤ vec_capacity empty }
        ensures { result.items ≡ left_in L.end self.queue }
    {
        self.meetings.into_left(empty)
    }

    /// Drops an empty queue, even if its items can't be dropped.
    pub fn destroy_empty(self)
        requires empty { seats_of self.queue ≡ nobody }
    {
        self.meetings.destroy_empty();
    }
}
