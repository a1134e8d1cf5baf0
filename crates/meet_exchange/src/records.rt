//! What a seat did, and the rounds of a slot.

use meet_tickets::SeatNo;

/// What a seat did in a round. Items are named by their marks.
#[derive(Clone, Copy, PartialEq, Eq, Debug)]
pub enum SlotDeed {
    /// It posted an item of this mark.
    Posted(u64),
    /// It took the item back.
    Withdrawn,
    /// It gave an item of the mark `gave` for a posted one of the mark `got`.
    Swapped { gave: u64, got: u64 },
    /// It got an item of this mark for the one that it had posted.
    Collected { got: u64 },
}

/// An entry of a seat's list.
#[derive(Clone, Copy, PartialEq, Eq, Debug)]
pub struct Part {
    /// The slot.
    pub slot: usize,
    /// The number of the round there.
    pub round: u64,
    /// What it did.
    pub deed: SlotDeed,
}

/// How a round ended.
#[derive(Clone, Copy, PartialEq, Eq, Debug)]
pub enum RoundEnd {
    /// Its item is still posted.
    Posted,
    /// Its poster took the item back.
    Withdrawn,
    /// A seat gave an item for it.
    Swapped {
        /// That seat.
        by: SeatNo,
        /// The mark of the item that it gave.
        mark: u64,
        /// Whether the poster has collected it.
        collected: bool,
    },
}

/// A round of a slot.
#[derive(Clone, Copy, PartialEq, Eq, Debug)]
pub struct Round {
    /// The seat that posted.
    pub seat: SeatNo,
    /// The mark of its item.
    pub mark: u64,
    /// How it ended.
    pub end: RoundEnd,
}
