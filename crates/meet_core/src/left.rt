//! The items that are left in a queue that is taken apart.

ghost use Rattle.std.specs.Prelude.{◌≡◌, ◌+◌, ◌≤◌, ◌++◌, length, option_to_list, is_some, vec_len};
ghost use Rattle.std.specs.Vec.{vec_capacity};

use meet_tickets::{Entry, Hold, Ticket};

/// The status of an item that is left.
#[derive(Clone, Copy, PartialEq, Eq, Debug)]
pub enum LeftStanding {
    /// It was in the wait queue, and its producer waits.
    Offered,
    /// It was buffered; its producer went on.
    Kept,
    /// Its producer was interrupted, or it went to a consumer that waited; it wasn't collected.
    Ready,
}

/// An item that is left in a queue.
#[derive(Debug, Drop)]
pub struct Left<T> {
    /// Its producer's ticket.
    pub ticket: Ticket,
    /// The item.
    pub item: T,
    /// Its status.
    pub standing: LeftStanding,
}

impl<T> Left<T> {
    ghost use Rattle.meet_core.specs.Left.{left_of, left_of_entry, left_of_hold};

    /// The item of this ticket, where it has one.
    fn of(ticket: Ticket, item: Option<T>, standing: LeftStanding) -> Option<Self>
        ensures { result ≡ left_of ticket standing item }
    {
        match item {
            None => None,
            Some(item) => Some(Left {
                ticket,
                item,
                standing,
            }),
        }
    }

    /// What an entry of the line leaves.
    pub(crate) fn of_entry(entry: Entry<T>) -> Option<Self>
        ensures { result ≡ left_of_entry entry }
    {
        let Entry {
            ticket,
            seat: _,
            item,
            waits,
        } = entry;
        let standing = if waits {
            LeftStanding::Offered
        } else {
            LeftStanding::Kept
        };
        Left::of(ticket, item, standing)
    }

    /// What a seat leaves that holds this.
    pub(crate) fn of_hold(hold: Hold<T>) -> Option<Self>
        ensures { result ≡ left_of_hold hold }
    {
        match hold {
            Hold::Free | Hold::Waiting(_) | Hold::Handed(_, _, _) => None,
            Hold::Served(_, giver, item) => Left::of(giver, Some(item), LeftStanding::Ready),
            Hold::Cut(ticket, item) => Left::of(ticket, item, LeftStanding::Ready),
        }
    }

    /// Whether a seat leaves an item that holds this.
    pub(crate) fn is_in(hold: &Hold<T>) -> bool
        ensures { result ≡ is_some (left_of_hold hold.now) }
    {
        match hold {
            Hold::Free | Hold::Waiting(_) | Hold::Handed(_, _, _) => false,
            Hold::Served(_, _, _) => true,
            Hold::Cut(_, item) => item.is_some(),
        }
    }
}

/// Puts this behind the others, where it is something.
pub(crate) fn push_left<T>(list: &mut Vec<Left<T>>, left: Option<Left<T>>)
    requires { vec_len list.old + length (option_to_list left) ≤ vec_capacity list.old }
    ensures items { list.new.items ≡ list.old.items ++ option_to_list left }
    ensures len { vec_len list.new ≡ vec_len list.old + length (option_to_list left) }
    ensures capacity { vec_capacity list.new ≡ vec_capacity list.old }
{
    match left {
        None => {}
        Some(left) => list.push_reserved(left),
    }
}
