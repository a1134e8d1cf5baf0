//! What the rule of an arena knows of its seats. Of these types only the plan has values.

use crate::records::Part;
use std::collections::LinkedList;

/// What a seat has in hand at a slot. The number is a mark: of the item that was posted, or given.
pub enum Duty {
    /// It has claimed the slot.
    Claimed,
    /// Its offer of the item with this mark stands.
    Offering(u64),
    /// It saw the answer to its offer of the item with this mark.
    Ready(u64),
    /// It took a posted item, and is to answer it by the item with this mark.
    Took(u64),
    /// It collected the other item, and is to clear the slot.
    Gathered,
    /// It took its own item back, and is to clear the slot.
    TookBack,
}

/// Nothing, or a duty in a round of a slot.
pub enum InHand {
    /// It has nothing in hand.
    Nothing,
    /// It has this duty, in this round of this slot.
    At { slot: u64, round: u64, duty: Duty },
}

/// What the rule knows of one seat.
pub struct Trail {
    /// Its number.
    pub number: u64,
    /// Its parts so far.
    pub list: LinkedList<Part>,
    /// What it has in hand.
    pub hand: InHand,
    /// All words that it saw, each with its slot.
    pub seen: LinkedList<(usize, u64)>,
}

/// The view of a token: the trails that it has, only one except while an arena is made or closed.
pub type View = LinkedList<Trail>;

/// What the table is made with.
#[derive(Drop)]
pub struct Plan {
    /// The number of slots.
    pub slots: usize,
    /// The number of seats.
    pub seats: u64,
    /// The first round.
    pub start: u64,
}
