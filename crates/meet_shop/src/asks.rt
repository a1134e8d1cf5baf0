//! What seats ask, and what they are told.

use meet_tickets::Refusal;

/// What a seat asks; an item by its number, and a target by its seat.
#[derive(Clone, Copy)]
pub enum Ask {
    Give(u64),
    Put(u64),
    Offer(u64),
    Take,
    Poll,
    Follow,
    Cancel,
    Expire,
    Interrupt(u64),
}

/// What it is told: a ticket, and then an item.
#[derive(Clone, Copy, PartialEq, Debug)]
pub enum Told {
    /// It waits, with this ticket.
    Parks(u64),
    Kept,
    Gave(u64),
    Got(u64, u64),
    Failed(Option<u64>),
    Stopped(Option<u64>),
    Done,
    WasCut(Option<u64>),
    TimedOut(Option<u64>),
    NotYet,
    Back(Option<u64>),
    Late,
    Cut(u64),
    Flagged,
    Refused(Refusal, Option<u64>),
    /// There is no such seat, call or ticket.
    Unasked,
}

impl Told {
    /// Whether a record was written.
    pub fn is_recorded(self) -> bool {
        match self {
            Told::NotYet => false,
            Told::Late => false,
            Told::Refused(_, _) => false,
            Told::Unasked => false,
            _ => true,
        }
    }
}

/// A seat asks, and is told this.
pub type Row = (u64, Ask, Told);
