//! Parcels, what seats ask, and what they are told.

use meet_tickets::{Marked, Refusal, SeatNo, Ticket};
use std::process::Abort;

/// An item with a serial number of its own beside its mark.
#[derive(Drop)]
pub struct Parcel {
    pub mark: u64,
    pub serial: u64,
}

impl Marked for Parcel {
    ghost mark_of = { λ parcel. parcel.mark };

    fn mark(&self) -> u64 {
        self.mark
    }
}

/// What a seat asks; a parcel by its serial number.
#[derive(Clone, Copy)]
pub enum Ask {
    Give(u64),
    Put(u64),
    Offer(u64),
    Take,
    Poll,
    Follow(u64),
    Cancel(u64),
    Expire(u64),
    Interrupt(u64),
}

/// What it is told: its own ticket, its partner's, and then a parcel's serial number.
#[derive(Clone, Copy, PartialEq, Debug)]
pub enum Told {
    Waits(u64),
    Kept(u64),
    Gave(u64, u64),
    Got(u64, u64, u64),
    Fails(u64, Option<u64>),
    Stopped(u64, Option<u64>),
    Done,
    Collected(u64, u64),
    WasCut(Option<u64>),
    NotYet,
    Back(Option<u64>),
    Late,
    Cut(u64),
    Flagged,
    Refused(Refusal, Option<u64>),
}

/// A seat asks, and is told this.
pub type Row = (u64, Ask, Told);

/// The parcel of this serial number. All parcels have one mark.
pub fn numbered(serial: u64) -> Parcel {
    Parcel { mark: 7, serial }
}

/// The seat of this number.
pub fn seat(rt: &impl Abort, number: u64) -> SeatNo {
    SeatNo::new(number).expect(rt, "no such seat number")
}

/// The ticket of this number.
pub fn ticket(rt: &impl Abort, number: u64) -> Ticket {
    Ticket::new(number).expect(rt, "no such ticket number")
}
