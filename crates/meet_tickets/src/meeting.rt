//! Whom a request meets, and whether an item may be buffered.

ghost use Rattle.std.specs.Prelude.{◌≡◌, ◌↔◌, IsTrue, option_map};
ghost use Rattle.meet_tickets.specs.Meeting.{kept_count};

use crate::lines::Entry;
use crate::places::{End, Kind, Side};

/// How many items are kept in a line.
fn kept<T>(line: &[Entry<T>]) -> u64
    ensures { result ≡ kept_count line.now }
{
    line.iter().filter(|entry| !entry.waits).count() as u64
}

impl Kind {
    ghost use Rattle.meet_tickets.specs.Meeting.{MayKeep, end_of, partner};

    /// Returns the node of a wait queue that a request of this side meets. There is none if the queue is empty or holds
    /// the request's own side.
    pub fn partner<'a, T>(self, line: &'a [Entry<T>], side: Side) -> Option<&'a Entry<T>>
        ensures { option_map (λ e. e.now) result ≡ partner (end_of self.order) line.now side }
    {
        if line.is_empty() || line[0].is_on(side) {
            return None;
        }
        match self.order.end() {
            End::Front => Some(&line[0]),
            End::Back => Some(&line[line.len() - 1]),
        }
    }

    /// Returns true if a place with this wait queue may buffer an item: it buffers items, and isn't full.
    pub fn may_keep<T>(self, line: &[Entry<T>]) -> bool
        ensures { IsTrue result ↔ MayKeep self line.now }
    {
        if !self.order.keeps() {
            return false;
        }
        match self.bound {
            None => true,
            Some(most) => kept(line) < most,
        }
    }
}
